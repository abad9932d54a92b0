//! The text of a registry, and of operations one after the other.
ghost use Rattle.std.specs.Prelude.{◌≡◌, ◌∷◌, ◌++◌, [], OnErr};
ghost use Rattle.std.specs.List.{flat_map, filter};
ghost use Rattle.fl_labels.specs.Text.{name_text};
ghost use Rattle.hex.specs.Hex.{encode_lower};
ghost use Rattle.fl_sink.specs.Sink.{Puts};
ghost use Rattle.fl_opset.specs.RegistryText.{op_line, put_line, login_line, open_line};
ghost use Rattle.fl_opset.specs.Without.{is_outside};

use fl_labels::cap::Cap;
use fl_labels::name::{Group, Name};
use fl_ops::digest::Digest;
use fl_ops::op::{Body, Op};
use fl_sink::sink::{Sink, WriteFault};
use fl_sink::writer::Writer;
use hex::encode_to_slice;
use itoa::Buffer;

// The digits of a digest, in lower case.
fn digits_of(digest: &Digest) -> [u8; 64]
    ensures { result ≡ encode_lower digest.now.bytes }
{
    let mut digits = [0; 64];
    encode_to_slice(digest.bytes.as_slice(), &mut digits).unwrap();
    digits
}

// The name, the two words, and a line feed.
fn write_words<W: Writer>(
    name: Name,
    first: &[u8],
    second: &[u8],
    sink: &mut Sink,
    output: &mut W,
) -> Result<(), WriteFault>
    ensures puts { let text = name_text name ++ (first.now ++ (second.now ++ 10 ∷ [])) in
        Puts (W.contents output.old) (W.contents output.new) sink.old text sink.new result }
    ensures cause { OnErr result (W.has_failed output.new) }
{
    let mut node = Buffer::new();
    let mut seq = Buffer::new();
    let node = node.format(name.node).as_bytes();
    let seq = seq.format(name.seq).as_bytes();
    sink.put_all(output, &[node, b".", seq, first, second, b"\n"])
}

// `1.6 put 1.4 *1.5`, and a line feed.
fn write_put<W: Writer>(
    name: Name,
    group: Group,
    cap: Cap,
    sink: &mut Sink,
    output: &mut W,
) -> Result<(), WriteFault>
    ensures puts { let text = put_line name group cap in
        Puts (W.contents output.old) (W.contents output.new) sink.old text sink.new result }
    ensures cause { OnErr result (W.has_failed output.new) }
{
    let (mut node, mut seq) = (Buffer::new(), Buffer::new());
    let (mut group_node, mut group_seq) = (Buffer::new(), Buffer::new());
    let (mut cap_node, mut cap_seq) = (Buffer::new(), Buffer::new());
    let pieces = [
        node.format(name.node).as_bytes(),
        b".",
        seq.format(name.seq).as_bytes(),
        b" put ",
        group_node.format(group.node).as_bytes(),
        b".",
        group_seq.format(group.seq).as_bytes(),
        b" ",
        cap.sign().as_bytes(),
        cap_node.format(cap.name().node).as_bytes(),
        b".",
        cap_seq.format(cap.name().seq).as_bytes(),
        b"\n",
    ];
    sink.put_all(output, &pieces)
}

// `1.7 login *1.5`, the 64 digits of the digest, and a line feed.
fn write_login<W: Writer>(
    name: Name,
    cap: Cap,
    digest: &Digest,
    sink: &mut Sink,
    output: &mut W,
) -> Result<(), WriteFault>
    ensures puts { let text = login_line name cap digest.now in
        Puts (W.contents output.old) (W.contents output.new) sink.old text sink.new result }
    ensures cause { OnErr result (W.has_failed output.new) }
{
    let (mut node, mut seq) = (Buffer::new(), Buffer::new());
    let (mut cap_node, mut cap_seq) = (Buffer::new(), Buffer::new());
    let digits = digits_of(digest);
    let pieces = [
        node.format(name.node).as_bytes(),
        b".",
        seq.format(name.seq).as_bytes(),
        b" login ",
        cap.sign().as_bytes(),
        cap_node.format(cap.name().node).as_bytes(),
        b".",
        cap_seq.format(cap.name().seq).as_bytes(),
        b" ",
        digits.as_slice(),
        b"\n",
    ];
    sink.put_all(output, &pieces)
}

// `1.8 open 1.5`, and a line feed.
fn write_open<W: Writer>(
    name: Name,
    group: Group,
    sink: &mut Sink,
    output: &mut W,
) -> Result<(), WriteFault>
    ensures puts { let text = open_line name group in
        Puts (W.contents output.old) (W.contents output.new) sink.old text sink.new result }
    ensures cause { OnErr result (W.has_failed output.new) }
{
    let (mut node, mut seq) = (Buffer::new(), Buffer::new());
    let (mut group_node, mut group_seq) = (Buffer::new(), Buffer::new());
    let pieces = [
        node.format(name.node).as_bytes(),
        b".",
        seq.format(name.seq).as_bytes(),
        b" open ",
        group_node.format(group.node).as_bytes(),
        b".",
        group_seq.format(group.seq).as_bytes(),
        b"\n",
    ];
    sink.put_all(output, &pieces)
}

/// Puts the line of an operation into the sink, with its line feed. Takes no memory but the sink's.
/// At a fault a front of what waited and the line was written.
pub fn write_line<W: Writer>(op: &Op, sink: &mut Sink, output: &mut W) -> Result<(), WriteFault>
    ensures puts { let text = op_line op.now in
        Puts (W.contents output.old) (W.contents output.new) sink.old text sink.new result }
    ensures cause { OnErr result (W.has_failed output.new) }
{
    match op.body {
        Body::MakeTag(policy) => {
            write_words(op.name, b" tag ", policy.text().as_bytes(), sink, output)
        }
        Body::MakeGroup => write_words(op.name, b" group", b"", sink, output),
        Body::Put(group, cap) => write_put(op.name, group, cap, sink, output),
        Body::MakeLogin(cap, digest) => write_login(op.name, cap, &digest, sink, output),
        Body::Open(group) => write_open(op.name, group, sink, output),
    }
}

/// Puts the line of each operation into the sink, in this order. Takes no memory but the sink's. At
/// a fault a front of what waited and the lines was written.
pub fn write_lines<W: Writer>(ops: &[Op], sink: &mut Sink, output: &mut W) -> Result<(), WriteFault>
    ensures puts { let text = flat_map op_line ops.now in
        Puts (W.contents output.old) (W.contents output.new) sink.old text sink.new result }
    ensures cause { OnErr result (W.has_failed output.new) }
{
    for op in ops {
        write_line(op, sink, output)?;
    }
    Ok(())
}

/// Puts the line of each operation into the sink, but of those. Compares each with each of those.
pub fn write_lines_but<W: Writer>(
    ops: &[Op],
    those: &[Op],
    sink: &mut Sink,
    output: &mut W,
) -> Result<(), WriteFault>
    ensures puts { let text = flat_map op_line (filter (is_outside those.now) ops.now) in
        Puts (W.contents output.old) (W.contents output.new) sink.old text sink.new result }
    ensures cause { OnErr result (W.has_failed output.new) }
{
    for op in ops {
        if !those.contains(op) {
            write_line(op, sink, output)?;
        }
    }
    Ok(())
}
