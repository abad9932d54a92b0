//! What a world answers, a line each. Writing takes no memory but the sink's, and does without. At
//! a fault a front of what waited and of the line was written, and the sink may not be used again.
ghost use Rattle.std.specs.Prelude.{◌≡◌, ◌++◌, ◌∷◌, codes, OnErr};
ghost use Rattle.std.specs.Fmt.{decimal};
ghost use Rattle.std.specs.List.{range_with_len};
ghost use Rattle.fl_sink.specs.Sink.{Puts};
ghost use Rattle.fl_replies.specs.ReplyText.{count_text, dropped_fault_text, fault_text, named_text, refused_fault_text, sent_packets_text, spaced_text, world_text};

use fl_answers::text::{write_name, write_refusal_after, write_reply};
use fl_labels::name::Name;
use fl_sink::sink::{Sink, WriteFault};
use fl_sink::writer::Writer;
use fl_system::answer::Fault;
use fl_system::reply::Reply;
use itoa::Buffer;

/// Puts the line of what an event of a world is answered into the sink: a job's reply, `begun 1.7`
/// and `ok 1.7` of an operation by its name, `begun 3` and `took 3` of received operations, `boot
/// 2`, `sent 2 3 4` or `sent none`, `ok`, `no-such`, or `refused` and the fault.
pub fn write_world_reply<W: Writer>(
    reply: &Reply,
    sink: &mut Sink,
    output: &mut W,
) -> Result<(), WriteFault>
    ensures puts { let text = world_text reply.now in
        Puts (W.contents output.old) (W.contents output.new) sink.old text sink.new result }
    ensures cause { OnErr result (W.has_failed output.new) }
{
    match reply {
        Reply::Job(reply) => write_reply(reply, sink, output),
        Reply::Begun(name) => write_name(b"begun ", *name, sink, output),
        Reply::Taking(count) => write_count(b"begun ", *count, sink, output),
        Reply::Took(count) => write_count(b"took ", *count, sink, output),
        Reply::Published(name) => write_name(b"ok ", *name, sink, output),
        Reply::Done => sink.put(output, b"ok\n"),
        Reply::Booted(boot) => write_count(b"boot ", u64::from(*boot), sink, output),
        Reply::Sent { first, count } => write_packets(*first, *count, sink, output),
        Reply::NoSuch => sink.put(output, b"no-such\n"),
        Reply::Refused(fault) => write_fault(fault, sink, output),
    }
}

/// Puts the line of a fault into the sink: `refused`, its number, and what it is about.
pub fn write_fault<W: Writer>(
    fault: &Fault,
    sink: &mut Sink,
    output: &mut W,
) -> Result<(), WriteFault>
    ensures puts { let text = refused_fault_text fault.now in
        Puts (W.contents output.old) (W.contents output.new) sink.old text sink.new result }
    ensures cause { OnErr result (W.has_failed output.new) }
{
    write_fault_after(b"refused ", *fault, sink, output)
}

/// Puts the line of a fault of what does not arrive into the sink: `dropped`, and then as a fault.
pub fn write_dropped_fault<W: Writer>(
    fault: &Fault,
    sink: &mut Sink,
    output: &mut W,
) -> Result<(), WriteFault>
    ensures puts { let text = dropped_fault_text fault.now in
        Puts (W.contents output.old) (W.contents output.new) sink.old text sink.new result }
    ensures cause { OnErr result (W.has_failed output.new) }
{
    write_fault_after(b"dropped ", *fault, sink, output)
}

/// Puts a line of these bytes and a number into the sink: `new 3`, `refused F18 2`.
pub fn write_count<W: Writer>(
    front: &[u8],
    number: u64,
    sink: &mut Sink,
    output: &mut W,
) -> Result<(), WriteFault>
    ensures puts { let text = count_text front.now number in
        Puts (W.contents output.old) (W.contents output.new) sink.old text sink.new result }
    ensures cause { OnErr result (W.has_failed output.new) }
{
    let mut buffer = Buffer::new();
    sink.put_all(output, &[front, buffer.format(number).as_bytes(), b"\n"])
}

// A line of these bytes and a fault.
fn write_fault_after<W: Writer>(
    front: &[u8],
    fault: Fault,
    sink: &mut Sink,
    output: &mut W,
) -> Result<(), WriteFault>
    ensures puts { let text = front.now ++ (fault_text fault ++ codes "\n") in
        Puts (W.contents output.old) (W.contents output.new) sink.old text sink.new result }
    ensures cause { OnErr result (W.has_failed output.new) }
{
    match fault {
        Fault::Refused(refusal) => write_refusal_after(front, refusal, sink, output),
        Fault::KeeperFailed => sink.put_all(output, &[front, b"F15\n"]),
        Fault::WrongNode => sink.put_all(output, &[front, b"F20\n"]),
        Fault::Stopped => sink.put_all(output, &[front, b"F21\n"]),
        Fault::Clash(name) => write_named(front, b"F16 ", name, sink, output),
        Fault::Impostor(name) => write_named(front, b"F17 ", name, sink, output),
    }
}

// A line of these bytes, and a word and a name.
fn write_named<'a, W: Writer>(
    front: &'a [u8],
    word: &'a [u8],
    name: Name,
    sink: &mut Sink,
    output: &mut W,
) -> Result<(), WriteFault>
    ensures puts { let text = front.now ++ named_text word.now name in
        Puts (W.contents output.old) (W.contents output.new) sink.old text sink.new result }
    ensures cause { OnErr result (W.has_failed output.new) }
{
    sink.put(output, front)?;
    write_name(word, name, sink, output)
}

// The line of so many packets, from the first number on.
fn write_packets<W: Writer>(
    first: u64,
    count: u64,
    sink: &mut Sink,
    output: &mut W,
) -> Result<(), WriteFault>
    ensures puts { let text = sent_packets_text (range_with_len first count) in
        Puts (W.contents output.old) (W.contents output.new) sink.old text sink.new result }
    ensures cause { OnErr result (W.has_failed output.new) }
{
    if count == 0 {
        return sink.put(output, b"sent none\n");
    }
    sink.put(output, b"sent")?;
    put_numbers(first, count, sink, output)?;
    sink.put(output, b"\n")
}

// So many numbers from the first on, also past 2^64, each after a space.
fn put_numbers<W: Writer>(
    first: u64,
    count: u64,
    sink: &mut Sink,
    output: &mut W,
) -> Result<(), WriteFault>
    ensures puts { let text = spaced_text (range_with_len first count) in
        Puts (W.contents output.old) (W.contents output.new) sink.old text sink.new result }
    ensures cause { OnErr result (W.has_failed output.new) }
{
    for offset in 0..count {
        put_number(u128::from(first) + u128::from(offset), sink, output)?;
    }
    Ok(())
}

// A number after a space.
fn put_number<W: Writer>(number: u128, sink: &mut Sink, output: &mut W) -> Result<(), WriteFault>
    ensures puts { let text = 32 ∷ decimal number in
        Puts (W.contents output.old) (W.contents output.new) sink.old text sink.new result }
    ensures cause { OnErr result (W.has_failed output.new) }
{
    let mut buffer = Buffer::new();
    sink.put_all(output, &[b" ", buffer.format(number).as_bytes()])
}
