//! What a process says of its node before any line.
ghost use Rattle.std.specs.Prelude.{◌≡◌, ◌++◌, OnErr};
ghost use Rattle.std.specs.Fmt.{decimal};
ghost use Rattle.fl_machine_turns.specs.Run.{greeting};
ghost use Rattle.fl_sink.specs.Sink.{Puts, Writes};

use fl_node::node::Node;
use fl_replies::text::write_count;
use fl_sink::sink::{Sink, WriteFault};
use fl_sink::writer::Writer;
use fl_store::keeper::Keeper;
use itoa::Buffer;
use std::alloc::Global;

// These bytes and a number.
fn put_number<W: Writer>(
    front: &[u8],
    number: u32,
    sink: &mut Sink,
    output: &mut W,
) -> Result<(), WriteFault>
    ensures puts { let text = front.now ++ decimal number in
        Puts (W.contents output.old) (W.contents output.new) sink.old text sink.new result }
    ensures cause { OnErr result (W.has_failed output.new) }
{
    let mut buffer = Buffer::new();
    sink.put_all(output, &[front, buffer.format(number).as_bytes()])
}

// Puts the greeting into the sink.
fn put_greeting<K: Keeper, W: Writer>(
    node: &Node<K>,
    sink: &mut Sink,
    output: &mut W,
) -> Result<(), WriteFault>
    ensures puts { let text = greeting node.now.node in
        Puts (W.contents output.old) (W.contents output.new) sink.old text sink.new result }
    ensures cause { OnErr result (W.has_failed output.new) }
{
    put_number(b"flume-node 1 node ", node.number(), sink, output)?;
    put_number(b" boot ", node.boot(), sink, output)?;
    write_count(b" published ", node.published().len() as u64, sink, output)
}

/// Writes the first line: what is spoken from here on, and how the node stands. The writer is not
/// flushed. At a fault a front of it was written.
pub fn greet<K: Keeper, W: Writer>(
    alloc: Global,
    node: &Node<K>,
    output: &mut W,
) -> Result<(), WriteFault>
    ensures writes { Writes (W.contents output.old) (W.contents output.new)
        (greeting node.now.node) result }
    ensures cause { OnErr result (W.has_failed output.new) }
{
    let mut sink = Sink::new(alloc);
    put_greeting(node, &mut sink, output)?;
    sink.finish(output)
}
