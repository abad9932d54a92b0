//! The text of the answers. Writing takes no memory but the sink's, and does without.
ghost use Rattle.std.specs.Prelude.{◌≡◌, ◌++◌, [], List, OnErr, codes, length};
ghost use Rattle.std.specs.List.{flat_map};
ghost use Rattle.fl_labels.specs.SetBy as set;
ghost use Rattle.fl_machine.specs.Shown.{Shows};
ghost use Rattle.fl_machine_turns.specs.Answer.{Answer};
ghost use Rattle.fl_machine_turns.specs.AnswerText.{head_text, text_of};
ghost use Rattle.fl_machine_turns.specs.Explaining.{bench_of, overview_of, told_of};
ghost use Rattle.fl_system.specs.Processes.{process_of};
ghost use Rattle.fl_explanations.specs.Lines.{logged, pids_of, why_lines};
ghost use Rattle.fl_opset.specs.RegistryText.{op_line, registry_text};
ghost use Rattle.fl_seal.specs.declared.seal.Key.{Key};
ghost use Rattle.fl_sink.specs.Sink.{Puts};
ghost use Rattle.fl_system.specs.Waiting.{IsRunning};
ghost use Rattle.hex.specs.Hex.{encode_lower};

use crate::explaining::BENCH;
use crate::response::Response;
use fl_answers::text::{put_digits, write_refusal};
use fl_calls::text::write_check;
use fl_explanations::log::logged;
use fl_explanations::missing::write_missing;
use fl_explanations::naming::write_who;
use fl_explanations::overview::{Overview, write_overview};
use fl_explanations::shown::write_process;
use fl_explanations::text::{count_of, write_why};
use fl_explanations::why::Why;
use fl_jobs::answer::Refusal;
use fl_labels::pid::Pid;
use fl_node::node::Node;
use fl_opset::text::write_lines;
use fl_replies::text::{write_count, write_dropped_fault, write_world_reply};
use fl_sink::sink::{Sink, WriteFault};
use fl_sink::writer::Writer;
use fl_store::keeper::Keeper;

// A line of these bytes and two digits for each byte of a packet.
fn put_packet<W: Writer>(
    front: &[u8],
    bytes: &[u8],
    sink: &mut Sink,
    output: &mut W,
) -> Result<(), WriteFault>
    ensures puts { let text = front.now ++ (encode_lower bytes.now ++ codes "\n") in
        Puts (W.contents output.old) (W.contents output.new) sink.old text sink.new result }
    ensures cause { OnErr result (W.has_failed output.new) }
{
    sink.put(output, front)?;
    put_digits(bytes, sink, output)?;
    sink.put(output, b"\n")
}

// A line for each packet.
fn put_lines<W: Writer>(
    packets: &[Vec<u8>],
    sink: &mut Sink,
    output: &mut W,
) -> Result<(), WriteFault>
    ensures puts { let text = flat_map (λ bytes. encode_lower bytes.items ++ codes "\n")
        packets.now in
        Puts (W.contents output.old) (W.contents output.new) sink.old text sink.new result }
    ensures cause { OnErr result (W.has_failed output.new) }
{
    for packet in packets {
        put_packet(b"", packet, sink, output)?;
    }
    Ok(())
}

// How many packets there are, and a line for each.
fn put_packets<W: Writer>(
    packets: &[Vec<u8>],
    sink: &mut Sink,
    output: &mut W,
) -> Result<(), WriteFault>
    ensures puts { let lines = flat_map (λ bytes. encode_lower bytes.items ++ codes "\n")
        packets.now in
        let text = head_text (length packets.now) ++ lines in
        Puts (W.contents output.old) (W.contents output.new) sink.old text sink.new result }
    ensures cause { OnErr result (W.has_failed output.new) }
{
    write_count(b"lines ", packets.len() as u64, sink, output)?;
    put_lines(packets, sink, output)
}

// How many operations a node that runs has published, and a line for each.
fn put_text<K: Keeper, W: Writer>(
    node: &Node<K>,
    sink: &mut Sink,
    output: &mut W,
) -> Result<(), WriteFault>
    requires { IsRunning node.now.node.state }
    ensures puts { let ops = node.now.node.published in
        let text = head_text (length ops) ++ registry_text (set.of_list ops) in
        Puts (W.contents output.old) (W.contents output.new) sink.old text sink.new result }
    ensures cause { OnErr result (W.has_failed output.new) }
{
    write_count(b"lines ", node.published().len() as u64, sink, output)?;
    node.write_text(sink, output)
}

// How many operations there are from this place of the list on, at most 1,000, and a line for each.
fn put_log<K: Keeper, W: Writer>(
    node: &Node<K>,
    place: u32,
    sink: &mut Sink,
    output: &mut W,
) -> Result<(), WriteFault>
    ensures puts { let ops = logged place node.now.node.published in
        let text = head_text (length ops) ++ flat_map op_line ops in
        Puts (W.contents output.old) (W.contents output.new) sink.old text sink.new result }
    ensures cause { OnErr result (W.has_failed output.new) }
{
    let ops = logged(node.published(), place);
    write_count(b"lines ", ops.len() as u64, sink, output)?;
    write_lines(ops, sink, output)
}

// How many lines say why somebody has a capability, and these lines.
fn put_why<W: Writer>(why: &Why, sink: &mut Sink, output: &mut W) -> Result<(), WriteFault>
    ensures puts { let lines = why_lines why.now in
        let text = head_text (length lines) ++ flat_map (λ line. line) lines in
        Puts (W.contents output.old) (W.contents output.new) sink.old text sink.new result }
    ensures cause { OnErr result (W.has_failed output.new) }
{
    write_count(b"lines ", count_of(why), sink, output)?;
    write_why(why, sink, output)
}

// How the node stands, and each of its processes, whose pids these are.
fn put_overview<K: Keeper, W: Writer>(
    node: &Node<K>,
    pids: &[Pid],
    sink: &mut Sink,
    output: &mut W,
) -> Result<(), WriteFault>
    requires { pids.now ≡ pids_of (bench_of node.now.node) }
    ensures puts { let text = text_of [] 0 (overview_of node.now.node) in
        Puts (W.contents output.old) (W.contents output.new) sink.old text sink.new result }
    ensures cause { OnErr result (W.has_failed output.new) }
{
    let overview = Overview {
        number: node.number(),
        boot: node.boot(),
        published: node.published(),
        state: node.state(),
    };
    write_overview(overview, node.bench(BENCH), pids, sink, output)
}

// What the process has, or that there is none.
fn put_process<K: Keeper, W: Writer>(
    node: &Node<K>,
    pid: Pid,
    sink: &mut Sink,
    output: &mut W,
) -> Result<(), WriteFault>
    ensures puts { let text = text_of [] 0 (told_of pid (process_of node.now.node pid)) in
        Puts (W.contents output.old) (W.contents output.new) sink.old text sink.new result }
    ensures cause { OnErr result (W.has_failed output.new) }
{
    match node.process(pid) {
        Some(process) => write_process(process, sink, output),
        None => write_refusal(Refusal::NoProcess(pid), sink, output),
    }
}

// A line of the word.
fn put_echo<W: Writer>(word: &str, sink: &mut Sink, output: &mut W) -> Result<(), WriteFault>
    ensures puts { let text = codes "echo " ++ (word.now ++ codes "\n") in
        Puts (W.contents output.old) (W.contents output.new) sink.old text sink.new result }
    ensures cause { OnErr result (W.has_failed output.new) }
{
    sink.put_all(output, &[b"echo ", word.as_bytes(), b"\n"])
}

/// Puts the text of what is answered to the line of this number into the sink. A node whose
/// operations are to be written runs, and pids are those of its processes.
pub fn write_response<K: Keeper, W: Writer>(
    node: &Node<K>,
    number: u64,
    response: &Response,
    sink: &mut Sink,
    output: &mut W,
) -> Result<(), WriteFault>
    requires running { response.now ≡ Response.Text → IsRunning node.now.node.state }
    requires pids { (pids : _) → response.now ≡ Response.Overview pids
        → pids.items ≡ pids_of (bench_of node.now.node) }
    ensures puts { (keys : List Key) (answer : Answer)
        → Shows keys node.now.node response.now answer
        → let text = text_of keys number answer in
        Puts (W.contents output.old) (W.contents output.new) sink.old text sink.new result }
    ensures cause { OnErr result (W.has_failed output.new) }
{
    match response {
        Response::Silence => sink.put_all(output, &[]),
        Response::Reply(reply) => write_world_reply(reply, sink, output),
        Response::Dropped(fault) => write_dropped_fault(fault, sink, output),
        Response::Sent(bytes) => put_packet(b"sent ", bytes, sink, output),
        Response::Told(packets) => put_packets(packets, sink, output),
        Response::Text => put_text(node, sink, output),
        Response::Checked(check) => write_check(*check, sink, output),
        Response::BadPacket(place) => write_count(b"refused F18 ", *place, sink, output),
        Response::Admitted(count) => write_count(b"admitted ", *count, sink, output),
        Response::Echo(word) => put_echo(word, sink, output),
        Response::Log(place) => put_log(node, *place, sink, output),
        Response::Why(why) => put_why(why, sink, output),
        Response::Who(who) => write_who(who, sink, output),
        Response::Wanting(caps) => write_missing(caps, sink, output),
        Response::Overview(pids) => put_overview(node, pids, sink, output),
        Response::Process(pid) => put_process(node, *pid, sink, output),
        Response::Unknown => write_count(b"refused F19 ", number, sink, output),
    }
}
