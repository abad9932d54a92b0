//! How a node stands, with a line for each of its processes. Writing takes no memory but the
//! sink's. At a fault a front of what waited and of the lines was written, and the sink may not be
//! used again.
ghost use Rattle.std.specs.Prelude.{◌≡◌, ◌≢◌, [], IfOk, OnErr, length};
ghost use Rattle.std.specs.List.{flat_map};
ghost use Rattle.std.specs.Option.{option_copied};
ghost use Rattle.fl_bench.specs.Process.{is_busy};
ghost use Rattle.fl_explanations.specs.Lines.{busy_text, counts_text, lines_text, node_line, numbers_text, pending_text, pids_of, processes_at, standing_line, node_lines};
ghost use Rattle.fl_sink.specs.Sink.{Puts};
ghost use Rattle.fl_system.specs.State.{ops_of};

use crate::shown::put_labels;
use fl_answers::text::put_pid;
use fl_bench::process::Process;
use fl_labels::name::NodeNumber;
use fl_labels::pid::Pid;
use fl_monitor::bench::Bench;
use fl_ops::op::Op;
use fl_replies::text::write_count;
use fl_sink::sink::{Sink, WriteFault};
use fl_sink::writer::Writer;
use fl_system::state::{Batch, Pending, State};
use itoa::Buffer;
use std::alloc::{AllocError, Global};

/// A node, as far as it is told of without its processes.
#[derive(Clone, Copy)]
pub struct Overview<'a> {
    pub number: NodeNumber,
    pub boot: u32,
    pub published: &'a [Op],
    pub state: &'a State,
}

/// The pids of the processes of a bench, rising; none where there is no bench. Fails only where
/// there is a process, and not enough memory. Costs a pass over all.
pub fn pids_of(alloc: Global, bench: Option<&Bench>) -> Result<Vec<Pid>, AllocError>
    ensures ok { IfOk result (λ made. made.items ≡ pids_of (option_copied bench.entry)) }
    ensures err { OnErr result (processes_at (option_copied bench.entry) ≢ []) }
{
    match bench {
        Some(bench) => bench.pids(alloc),
        None => Ok(Vec::new(alloc)),
    }
}

// How many operations a batch has.
fn count_of(batch: &Batch) -> u64
    ensures { result ≡ length (ops_of batch.now) }
{
    match batch {
        Batch::Ordered(_, _, _) => 1,
        Batch::Received(ops) => ops.len() as u64,
    }
}

// What is on its way.
fn put_pending<W: Writer>(state: &State, sink: &mut Sink, output: &mut W) -> Result<(), WriteFault>
    ensures puts { let text = pending_text state.now in
        Puts (W.contents output.old) (W.contents output.new) sink.old text sink.new result }
    ensures cause { OnErr result (W.has_failed output.new) }
{
    let mut count = Buffer::new();
    match state {
        State::Running(Pending::Unsaved(batch)) => {
            sink.put_all(
                output,
                &[count.format(count_of(batch)).as_bytes(), b" begun"],
            )
        }
        State::Running(Pending::Due(batch)) => {
            sink.put_all(output, &[count.format(count_of(batch)).as_bytes(), b" due"])
        }
        State::Running(Pending::Nothing) | State::Stopped(_) => sink.put(output, b"none"),
    }
}

// The numbers of the node, and how much is published.
fn put_numbers<W: Writer>(
    node: Overview<'_>,
    sink: &mut Sink,
    output: &mut W,
) -> Result<(), WriteFault>
    ensures puts { let n = node.entry in
        let text = numbers_text n.number n.boot (length n.published.now) in
        Puts (W.contents output.old) (W.contents output.new) sink.old text sink.new result }
    ensures cause { OnErr result (W.has_failed output.new) }
{
    let mut number = Buffer::new();
    let mut boot = Buffer::new();
    let mut published = Buffer::new();
    sink.put_all(
        output,
        &[
            b"node ",
            number.format(node.number).as_bytes(),
            b" boot ",
            boot.format(node.boot).as_bytes(),
            b" published ",
            published.format(node.published.len()).as_bytes(),
        ],
    )
}

// The line of the node, which has so many processes.
fn write_node<W: Writer>(
    node: Overview<'_>,
    count: u64,
    sink: &mut Sink,
    output: &mut W,
) -> Result<(), WriteFault>
    ensures puts { let n = node.entry in
        let text = node_line n.number n.boot (length n.published.now) n.state.now count in
        Puts (W.contents output.old) (W.contents output.new) sink.old text sink.new result }
    ensures cause { OnErr result (W.has_failed output.new) }
{
    put_numbers(node, sink, output)?;
    sink.put(output, b" pending ")?;
    put_pending(node.state, sink, output)?;
    write_count(b" processes ", count, sink, output)
}

// Whether an operation of a process is under way, to the end of the line.
fn busy_word(process: &Process) -> &'static [u8]
    ensures { result.now ≡ busy_text (is_busy process.now) }
{
    if process.owned.is_under_way() {
        b" busy\n"
    } else {
        b" idle\n"
    }
}

// How much a process has, to the end of the line.
fn put_counts<W: Writer>(
    process: &Process,
    sink: &mut Sink,
    output: &mut W,
) -> Result<(), WriteFault>
    ensures puts { let text = counts_text process.now in
        Puts (W.contents output.old) (W.contents output.new) sink.old text sink.new result }
    ensures cause { OnErr result (W.has_failed output.new) }
{
    let mut owned = Buffer::new();
    let mut ends = Buffer::new();
    let mut waits = Buffer::new();
    sink.put_all(
        output,
        &[
            b" owns ",
            owned.format(process.owned.as_slice().len()).as_bytes(),
            b" ends ",
            ends.format(process.mailbox.endpoints.iter().len())
                .as_bytes(),
            b" waits ",
            waits.format(process.mailbox.inbox.iter().len()).as_bytes(),
            busy_word(process),
        ],
    )
}

// The line of a process.
fn write_standing<W: Writer>(
    pid: Pid,
    process: &Process,
    sink: &mut Sink,
    output: &mut W,
) -> Result<(), WriteFault>
    ensures puts { let text = standing_line (pid, process.now) in
        Puts (W.contents output.old) (W.contents output.new) sink.old text sink.new result }
    ensures cause { OnErr result (W.has_failed output.new) }
{
    put_pid(b"", pid, sink, output)?;
    put_labels(b" S ", b" I ", &process.labels, sink, output)?;
    put_counts(process, sink, output)
}

// A line for each process of the bench.
fn write_all<W: Writer>(
    bench: Option<&Bench>,
    pids: &[Pid],
    sink: &mut Sink,
    output: &mut W,
) -> Result<(), WriteFault>
    requires { pids.now ≡ pids_of (option_copied bench) }
    ensures puts { let text = flat_map standing_line (processes_at (option_copied bench.entry)) in
        Puts (W.contents output.old) (W.contents output.new) sink.old text sink.new result }
    ensures cause { OnErr result (W.has_failed output.new) }
{
    let Some(bench) = bench else {
        return Ok(());
    };
    for pid in pids {
        let Some(process) = bench.process(*pid) else {
            unreachable!("it stands there");
        };
        write_standing(*pid, process, sink, output)?;
    }
    Ok(())
}

/// Puts how a node stands into the sink, behind `lines K`: `node 1 boot 2 published 3 pending none
/// processes 4`, and then a line `p1.1.1 S {1.1} I {} owns 4 ends 1 waits 0 idle` for each process
/// of its bench, whose pids these are. `pending 3 begun` says that so many operations are to be
/// saved, `pending 3 due` that they are to be published, and `busy` that an operation of the process
/// is under way. Costs a search for each process.
pub fn write_overview<W: Writer>(
    node: Overview<'_>,
    bench: Option<&Bench>,
    pids: &[Pid],
    sink: &mut Sink,
    output: &mut W,
) -> Result<(), WriteFault>
    requires { pids.now ≡ pids_of (option_copied bench) }
    ensures puts { let n = node.entry in
        let processes = processes_at (option_copied bench.entry) in
        let lines = node_lines n.number n.boot (length n.published.now) n.state.now processes in
        Puts (W.contents output.old) (W.contents output.new) sink.old (lines_text lines)
        sink.new result }
    ensures cause { OnErr result (W.has_failed output.new) }
{
    let count = pids.len() as u64;
    write_count(b"lines ", count + 1, sink, output)?;
    write_node(node, count, sink, output)?;
    write_all(bench, pids, sink, output)
}
