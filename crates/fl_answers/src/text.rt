//! Replies and refusals, a line each. Writing takes no memory but the sink's, and does without. At
//! a fault a front of what waited and of the line was written, and the sink may not be used again.
ghost use Rattle.std.specs.Prelude.{◌≤◌, ◌++◌, ◌∷◌, codes, length, OnErr};
ghost use Rattle.std.specs.Fmt.{decimal};
ghost use Rattle.hex.specs.Hex.{encode_lower};
ghost use Rattle.fl_labels.specs.Text.{cap_text, caps_text, endpoint_text, name_text, pid_text};
ghost use Rattle.fl_sink.specs.Sink.{Puts};
ghost use Rattle.fl_answers.specs.AnswerText.{bytes_text, dropped_text, letter_text, refusal_text, refused_text, reply_text, sent_text};

use crate::listed::put_caps;
use fl_jobs::answer::{Refusal, Reply};
use fl_labels::cap::Cap;
use fl_labels::endpoint::Endpoint;
use fl_labels::name::Name;
use fl_labels::pid::Pid;
use fl_message::message::{Letter, Message};
use fl_sink::sink::{Sink, WriteFault};
use fl_sink::writer::Writer;
use hex::encode_to_slice;
use itoa::Buffer;

// The digits of so many bytes are put at once.
const FEW: usize = 32;

/// Puts the line of a reply into the sink: `p1.1.1`, `ok`, `yes`, `not-yet`, `ok -1.1`, `out 6869`,
/// `ok e1`, `message p1.1.1 {*1.4} 6869`, `empty`, `arrived p1.1.1`. Looks at each byte of a
/// payload once.
pub fn write_reply<W: Writer>(
    reply: &Reply,
    sink: &mut Sink,
    output: &mut W,
) -> Result<(), WriteFault>
    ensures puts { let text = reply_text reply.now ++ codes "\n" in
        Puts (W.contents output.old) (W.contents output.new) sink.old text sink.new result }
    ensures cause { OnErr result (W.has_failed output.new) }
{
    match reply {
        Reply::Made(pid) => put_pid(b"", *pid, sink, output)?,
        // What is one word is put with its line feed.
        Reply::Done => return sink.put(output, b"ok\n"),
        Reply::Yes => return sink.put(output, b"yes\n"),
        Reply::NotYet => return sink.put(output, b"not-yet\n"),
        Reply::Empty => return sink.put(output, b"empty\n"),
        Reply::Entered(cap) => put_cap(b"ok ", *cap, sink, output)?,
        Reply::Emitted(payload) => put_bytes(b"out ", payload.as_slice(), sink, output)?,
        Reply::Opened(endpoint) => put_endpoint(b"ok ", *endpoint, sink, output)?,
        Reply::Taken(letter) => put_letter(letter, sink, output)?,
        Reply::Arrived(pid) => put_pid(b"arrived ", *pid, sink, output)?,
    }
    sink.put(output, b"\n")
}

/// Puts the line of a refusal into the sink: `refused`, its number, and what it is about.
pub fn write_refusal<W: Writer>(
    refusal: Refusal,
    sink: &mut Sink,
    output: &mut W,
) -> Result<(), WriteFault>
    ensures puts { let text = refused_text refusal in
        Puts (W.contents output.old) (W.contents output.new) sink.old text sink.new result }
    ensures cause { OnErr result (W.has_failed output.new) }
{
    write_refusal_after(b"refused ", refusal, sink, output)
}

/// Puts the line of a message that does not arrive into the sink: `dropped`, and then as a refusal.
pub fn write_dropped<W: Writer>(
    refusal: Refusal,
    sink: &mut Sink,
    output: &mut W,
) -> Result<(), WriteFault>
    ensures puts { let text = dropped_text refusal in
        Puts (W.contents output.old) (W.contents output.new) sink.old text sink.new result }
    ensures cause { OnErr result (W.has_failed output.new) }
{
    write_refusal_after(b"dropped ", refusal, sink, output)
}

/// Puts a line of these bytes and a refusal into the sink: its number, and what it is about.
pub fn write_refusal_after<W: Writer>(
    front: &[u8],
    refusal: Refusal,
    sink: &mut Sink,
    output: &mut W,
) -> Result<(), WriteFault>
    ensures puts { let text = front.now ++ (refusal_text refusal ++ codes "\n") in
        Puts (W.contents output.old) (W.contents output.new) sink.old text sink.new result }
    ensures cause { OnErr result (W.has_failed output.new) }
{
    sink.put(output, front)?;
    put_refusal(refusal, sink, output)?;
    sink.put(output, b"\n")
}

/// Puts the line of a packet that was sent into the sink, by its number: `sent 1`.
pub fn write_sent<W: Writer>(number: u64, sink: &mut Sink, output: &mut W) -> Result<(), WriteFault>
    ensures puts { let text = sent_text number ++ codes "\n" in
        Puts (W.contents output.old) (W.contents output.new) sink.old text sink.new result }
    ensures cause { OnErr result (W.has_failed output.new) }
{
    let mut buffer = Buffer::new();
    sink.put_all(output, &[b"sent ", buffer.format(number).as_bytes(), b"\n"])
}

/// Puts a line of these bytes and a name into the sink.
pub fn write_name<W: Writer>(
    front: &[u8],
    name: Name,
    sink: &mut Sink,
    output: &mut W,
) -> Result<(), WriteFault>
    ensures puts { let text = front.now ++ (name_text name ++ codes "\n") in
        Puts (W.contents output.old) (W.contents output.new) sink.old text sink.new result }
    ensures cause { OnErr result (W.has_failed output.new) }
{
    put_name(front, name, sink, output)?;
    sink.put(output, b"\n")
}

// A refusal's number, and what it is about.
fn put_refusal<W: Writer>(
    refusal: Refusal,
    sink: &mut Sink,
    output: &mut W,
) -> Result<(), WriteFault>
    ensures puts { let text = refusal_text refusal in
        Puts (W.contents output.old) (W.contents output.new) sink.old text sink.new result }
    ensures cause { OnErr result (W.has_failed output.new) }
{
    match refusal {
        Refusal::NoProcess(pid) => put_pid(b"F1 ", pid, sink, output),
        Refusal::NoEndpoint(endpoint) => put_endpoint(b"F2 ", endpoint, sink, output),
        Refusal::MissingCap(cap) => put_cap(b"F3 ", cap, sink, output),
        Refusal::UnsafeEndpoint(endpoint, tag) => put_unsafe(endpoint, tag, sink, output),
        Refusal::EndpointsFull => sink.put(output, b"F5"),
        Refusal::NotWritable(endpoint) => put_endpoint(b"F6 ", endpoint, sink, output),
        Refusal::NotReadable(endpoint) => put_endpoint(b"F7 ", endpoint, sink, output),
        Refusal::Secrecy(tag) => put_name(b"F8 ", tag, sink, output),
        Refusal::Integrity(tag) => put_name(b"F9 ", tag, sink, output),
        Refusal::NoLogin(login) => put_name(b"F10 ", login, sink, output),
        Refusal::WrongSecret => sink.put(output, b"F11"),
        Refusal::NamesSpent => sink.put(output, b"F12"),
        Refusal::LabelTooLong => sink.put(output, b"F13"),
        Refusal::Memory => sink.put(output, b"F14"),
        Refusal::NotOwned(cap) => put_cap(b"F22 ", cap, sink, output),
        Refusal::InboxFull => sink.put(output, b"F23"),
        Refusal::Busy => sink.put(output, b"F24"),
    }
}

// These bytes, a sign and a name.
fn put_signed<'a, W: Writer>(
    front: &'a [u8],
    sign: &'a [u8],
    name: Name,
    sink: &mut Sink,
    output: &mut W,
) -> Result<(), WriteFault>
    ensures puts { let text = front.now ++ (sign.now ++ name_text name) in
        Puts (W.contents output.old) (W.contents output.new) sink.old text sink.new result }
    ensures cause { OnErr result (W.has_failed output.new) }
{
    let mut node = Buffer::new();
    let mut seq = Buffer::new();
    sink.put_all(
        output,
        &[
            front,
            sign,
            node.format(name.node).as_bytes(),
            b".",
            seq.format(name.seq).as_bytes(),
        ],
    )
}

/// Puts these bytes and a capability into the sink.
pub fn put_cap<W: Writer>(
    front: &[u8],
    cap: Cap,
    sink: &mut Sink,
    output: &mut W,
) -> Result<(), WriteFault>
    ensures puts { let text = front.now ++ cap_text cap in
        Puts (W.contents output.old) (W.contents output.new) sink.old text sink.new result }
    ensures cause { OnErr result (W.has_failed output.new) }
{
    put_signed(front, cap.sign().as_bytes(), cap.name(), sink, output)
}

/// Puts these bytes and a name into the sink.
pub fn put_name<W: Writer>(
    front: &[u8],
    name: Name,
    sink: &mut Sink,
    output: &mut W,
) -> Result<(), WriteFault>
    ensures puts { let text = front.now ++ name_text name in
        Puts (W.contents output.old) (W.contents output.new) sink.old text sink.new result }
    ensures cause { OnErr result (W.has_failed output.new) }
{
    put_signed(front, b"", name, sink, output)
}

/// Puts these bytes and an endpoint into the sink.
pub fn put_endpoint<W: Writer>(
    front: &[u8],
    endpoint: Endpoint,
    sink: &mut Sink,
    output: &mut W,
) -> Result<(), WriteFault>
    ensures puts { let text = front.now ++ endpoint_text endpoint in
        Puts (W.contents output.old) (W.contents output.new) sink.old text sink.new result }
    ensures cause { OnErr result (W.has_failed output.new) }
{
    let mut buffer = Buffer::new();
    sink.put_all(
        output,
        &[front, b"e", buffer.format(endpoint.number).as_bytes()],
    )
}

// The endpoint that would not be safe, and its tag.
fn put_unsafe<W: Writer>(
    endpoint: Endpoint,
    tag: Name,
    sink: &mut Sink,
    output: &mut W,
) -> Result<(), WriteFault>
    ensures puts { let named = endpoint_text endpoint ++ (codes " " ++ name_text tag) in
        let text = codes "F4 " ++ named in
        Puts (W.contents output.old) (W.contents output.new) sink.old text sink.new result }
    ensures cause { OnErr result (W.has_failed output.new) }
{
    put_endpoint(b"F4 ", endpoint, sink, output)?;
    put_name(b" ", tag, sink, output)
}

/// Puts these bytes and a pid into the sink.
pub fn put_pid<W: Writer>(
    front: &[u8],
    pid: Pid,
    sink: &mut Sink,
    output: &mut W,
) -> Result<(), WriteFault>
    ensures puts { let text = front.now ++ pid_text pid in
        Puts (W.contents output.old) (W.contents output.new) sink.old text sink.new result }
    ensures cause { OnErr result (W.has_failed output.new) }
{
    let mut node = Buffer::new();
    let mut boot = Buffer::new();
    let mut serial = Buffer::new();
    sink.put_all(
        output,
        &[
            front,
            b"p",
            node.format(pid.node).as_bytes(),
            b".",
            boot.format(pid.boot).as_bytes(),
            b".",
            serial.format(pid.serial).as_bytes(),
        ],
    )
}

// Two digits for each of a few bytes.
fn put_few<W: Writer>(bytes: &[u8], sink: &mut Sink, output: &mut W) -> Result<(), WriteFault>
    requires { length bytes.now ≤ 32 }
    ensures puts { let text = encode_lower bytes.now in
        Puts (W.contents output.old) (W.contents output.new) sink.old text sink.new result }
    ensures cause { OnErr result (W.has_failed output.new) }
{
    let mut room = [0; 2 * FEW];
    let digits = &mut room[..2 * bytes.len()];
    encode_to_slice(bytes, digits).unwrap();
    sink.put(output, digits)
}

/// Puts two digits for each byte into the sink, in lower case: `f202` for two. Linear.
pub fn put_digits<W: Writer>(
    bytes: &[u8],
    sink: &mut Sink,
    output: &mut W,
) -> Result<(), WriteFault>
    ensures puts { let text = encode_lower bytes.now in
        Puts (W.contents output.old) (W.contents output.new) sink.old text sink.new result }
    ensures cause { OnErr result (W.has_failed output.new) }
{
    let mut rest = bytes;
    while let Some((few, more)) = rest.split_at_checked(FEW) {
        put_few(few, sink, output)?;
        rest = more;
    }
    put_few(rest, sink, output)
}

// The word of some bytes.
fn put_word<W: Writer>(bytes: &[u8], sink: &mut Sink, output: &mut W) -> Result<(), WriteFault>
    ensures puts { let text = bytes_text bytes.now in
        Puts (W.contents output.old) (W.contents output.new) sink.old text sink.new result }
    ensures cause { OnErr result (W.has_failed output.new) }
{
    match bytes {
        [] => sink.put(output, b"none"),
        _ => put_digits(bytes, sink, output),
    }
}

// These bytes, and the word of some bytes.
fn put_bytes<W: Writer>(
    front: &[u8],
    bytes: &[u8],
    sink: &mut Sink,
    output: &mut W,
) -> Result<(), WriteFault>
    ensures puts { let text = front.now ++ bytes_text bytes.now in
        Puts (W.contents output.old) (W.contents output.new) sink.old text sink.new result }
    ensures cause { OnErr result (W.has_failed output.new) }
{
    sink.put(output, front)?;
    put_word(bytes, sink, output)
}

// The capabilities of a message, and its bytes.
fn put_message<W: Writer>(
    message: &Message,
    sink: &mut Sink,
    output: &mut W,
) -> Result<(), WriteFault>
    ensures puts { let bytes = codes " " ++ bytes_text message.now.payload in
        let text = caps_text message.now.caps ++ bytes in
        Puts (W.contents output.old) (W.contents output.new) sink.old text sink.new result }
    ensures cause { OnErr result (W.has_failed output.new) }
{
    put_caps(&message.caps, sink, output)?;
    put_bytes(b" ", message.payload.as_slice(), sink, output)
}

// A message that was taken, with who sent it.
fn put_letter<W: Writer>(letter: &Letter, sink: &mut Sink, output: &mut W) -> Result<(), WriteFault>
    ensures puts { let text = letter_text letter.now in
        Puts (W.contents output.old) (W.contents output.new) sink.old text sink.new result }
    ensures cause { OnErr result (W.has_failed output.new) }
{
    put_pid(b"message ", letter.sender, sink, output)?;
    sink.put(output, b" ")?;
    put_message(&letter.message, sink, output)
}
