//! How a process stands, a line each for what it has. Writing takes no memory but the sink's. At a
//! fault a front of what waited and of the lines was written, and the sink may not be used again.
ghost use Rattle.std.specs.Prelude.{◌≡◌, ◌++◌, codes, OnErr};
ghost use Rattle.std.specs.FinMap as map;
ghost use Rattle.std.specs.List.{flat_map};
ghost use Rattle.fl_explanations.specs.Lines.{end_line, labels_text, lines_text, list_line, process_lines, waits_line};
ghost use Rattle.fl_explanations.specs.parts.Pieces.{owner_text};
ghost use Rattle.fl_labels.specs.Text.{braces, label_text};
ghost use Rattle.fl_replies.specs.ReplyText.{count_text};
ghost use Rattle.fl_script.specs.Words.{mode_text};
ghost use Rattle.fl_sink.specs.Sink.{Puts};

use fl_answers::listed::{Listed, put_caps, put_items, put_label};
use fl_answers::text::{put_endpoint, put_pid};
use fl_bench::process::Process;
use fl_labels::endpoint::Endpoint;
use fl_labels::label::Label;
use fl_mailbox::endpoints::{Endpoints, OpenEndpoint};
use fl_mailbox::inbox::Inbox;
use fl_message::message::Letter;
use fl_replies::text::write_count;
use fl_rules::endpoint::Mode;
use fl_rules::labels::Labels;
use fl_sink::sink::{Sink, WriteFault};
use fl_sink::writer::Writer;
use itoa::Buffer;

// That so many lines follow. They may be more than a `u64` counts, as far as is known here.
pub(crate) fn write_head<W: Writer>(
    count: u128,
    sink: &mut Sink,
    output: &mut W,
) -> Result<(), WriteFault>
    ensures puts { let text = count_text (codes "lines ") count in
        Puts (W.contents output.old) (W.contents output.new) sink.old text sink.new result }
    ensures cause { OnErr result (W.has_failed output.new) }
{
    let mut buffer = Buffer::new();
    sink.put_all(output, &[b"lines ", buffer.format(count).as_bytes(), b"\n"])
}

// A line of a list behind these bytes.
fn write_list<T: Listed, W: Writer>(
    front: &[u8],
    items: &[T],
    sink: &mut Sink,
    output: &mut W,
) -> Result<(), WriteFault>
    ensures puts { let text = list_line front.now (braces T.text items.now) in
        Puts (W.contents output.old) (W.contents output.new) sink.old text sink.new result }
    ensures cause { OnErr result (W.has_failed output.new) }
{
    sink.put(output, front)?;
    put_items(items, sink, output)?;
    sink.put(output, b"\n")
}

// A label behind these bytes.
fn put_side<W: Writer>(
    front: &[u8],
    label: &Label,
    sink: &mut Sink,
    output: &mut W,
) -> Result<(), WriteFault>
    ensures puts { let text = front.now ++ label_text label.now in
        Puts (W.contents output.old) (W.contents output.new) sink.old text sink.new result }
    ensures cause { OnErr result (W.has_failed output.new) }
{
    sink.put(output, front)?;
    put_label(label, sink, output)
}

// Both labels, each behind some bytes.
pub(crate) fn put_labels<W: Writer>(
    before: &[u8],
    between: &[u8],
    labels: &Labels,
    sink: &mut Sink,
    output: &mut W,
) -> Result<(), WriteFault>
    ensures puts { let text = labels_text before.now between.now labels.now in
        Puts (W.contents output.old) (W.contents output.new) sink.old text sink.new result }
    ensures cause { OnErr result (W.has_failed output.new) }
{
    put_side(before, &labels.secrecy, sink, output)?;
    put_side(between, &labels.integrity, sink, output)
}

// A mode behind a space.
fn put_mode<W: Writer>(mode: Mode, sink: &mut Sink, output: &mut W) -> Result<(), WriteFault>
    ensures puts { let text = codes " " ++ mode_text mode in
        Puts (W.contents output.old) (W.contents output.new) sink.old text sink.new result }
    ensures cause { OnErr result (W.has_failed output.new) }
{
    match mode {
        Mode::Read => sink.put(output, b" r"),
        Mode::Write => sink.put(output, b" w"),
        Mode::Both => sink.put(output, b" rw"),
    }
}

// The line of an open endpoint.
fn write_end<W: Writer>(
    endpoint: Endpoint,
    opened: &OpenEndpoint,
    sink: &mut Sink,
    output: &mut W,
) -> Result<(), WriteFault>
    ensures puts { let text = end_line (endpoint, opened.now) in
        Puts (W.contents output.old) (W.contents output.new) sink.old text sink.new result }
    ensures cause { OnErr result (W.has_failed output.new) }
{
    put_endpoint(b"end ", endpoint, sink, output)?;
    put_mode(opened.mode, sink, output)?;
    put_labels(b" ", b" ", &opened.labels, sink, output)?;
    sink.put(output, b"\n")
}

// A line for each open endpoint.
fn write_ends<W: Writer>(
    endpoints: &Endpoints,
    sink: &mut Sink,
    output: &mut W,
) -> Result<(), WriteFault>
    ensures puts { let text = flat_map end_line (map.entries endpoints.now) in
        Puts (W.contents output.old) (W.contents output.new) sink.old text sink.new result }
    ensures cause { OnErr result (W.has_failed output.new) }
{
    for (endpoint, opened) in endpoints.iter() {
        write_end(*endpoint, opened, sink, output)?;
    }
    Ok(())
}

// The line of a message that waits.
fn write_waiting<W: Writer>(
    letter: &Letter,
    sink: &mut Sink,
    output: &mut W,
) -> Result<(), WriteFault>
    ensures puts { let text = waits_line letter.now in
        Puts (W.contents output.old) (W.contents output.new) sink.old text sink.new result }
    ensures cause { OnErr result (W.has_failed output.new) }
{
    let message = &*letter.message;
    put_pid(b"waits ", letter.sender, sink, output)?;
    sink.put(output, b" ")?;
    put_caps(&message.caps, sink, output)?;
    write_count(b" ", message.payload.as_slice().len() as u64, sink, output)
}

// A line for each message that waits.
fn write_inbox<W: Writer>(inbox: &Inbox, sink: &mut Sink, output: &mut W) -> Result<(), WriteFault>
    ensures puts { let text = flat_map waits_line inbox.now in
        Puts (W.contents output.old) (W.contents output.new) sink.old text sink.new result }
    ensures cause { OnErr result (W.has_failed output.new) }
{
    for letter in inbox.iter() {
        write_waiting(letter, sink, output)?;
    }
    Ok(())
}

// A line for each label.
fn write_sides<W: Writer>(
    labels: &Labels,
    sink: &mut Sink,
    output: &mut W,
) -> Result<(), WriteFault>
    ensures puts { let text = list_line (codes "S ") (label_text labels.now.secrecy)
        ++ list_line (codes "I ") (label_text labels.now.integrity) in
        Puts (W.contents output.old) (W.contents output.new) sink.old text sink.new result }
    ensures cause { OnErr result (W.has_failed output.new) }
{
    write_list(b"S ", labels.secrecy.as_slice(), sink, output)?;
    write_list(b"I ", labels.integrity.as_slice(), sink, output)
}

// A line for each label, and one for what is owned.
fn write_owner<W: Writer>(
    process: &Process,
    sink: &mut Sink,
    output: &mut W,
) -> Result<(), WriteFault>
    ensures puts { let text = owner_text process.now in
        Puts (W.contents output.old) (W.contents output.new) sink.old text sink.new result }
    ensures cause { OnErr result (W.has_failed output.new) }
{
    write_sides(&process.labels, sink, output)?;
    write_list(b"owns ", process.owned.as_slice(), sink, output)
}

/// Puts how the process stands into the sink, behind `lines K`: `S {1.1}`, `I {}`, `owns {+1.1}`, a
/// line `end e1 rw {1.1} {}` for each open endpoint, rising, and a line `waits p1.1.1 {*1.4} 12` for
/// each message that waits, the oldest first, with how many bytes it has. Costs a look at each.
pub fn write_process<W: Writer>(
    process: &Process,
    sink: &mut Sink,
    output: &mut W,
) -> Result<(), WriteFault>
    ensures puts { let text = lines_text (process_lines process.now) in
        Puts (W.contents output.old) (W.contents output.new) sink.old text sink.new result }
    ensures cause { OnErr result (W.has_failed output.new) }
{
    let mailbox = &process.mailbox;
    let ends = mailbox.endpoints.iter().len() as u128;
    let waits = mailbox.inbox.iter().len() as u128;
    write_head(3 + (ends + waits), sink, output)?;
    write_owner(process, sink, output)?;
    write_ends(&mailbox.endpoints, sink, output)?;
    write_inbox(&mailbox.inbox, sink, output)
}
