//! Explanations, a line each. Writing takes no memory but the sink's. At a fault a front of what
//! waited and of the lines was written, and the sink may not be used again.
ghost use Rattle.std.specs.Prelude.{◌≡◌, ◌++◌, codes, length, OnErr};
ghost use Rattle.std.specs.List.{flat_map};
ghost use Rattle.fl_chains.specs.Step.{put_op};
ghost use Rattle.fl_explanations.specs.Lines.{first_line, step_line, why_lines};
ghost use Rattle.fl_labels.specs.Text.{cap_text};
ghost use Rattle.fl_sink.specs.Sink.{Puts};

use crate::why::{First, Why};
use fl_answers::text::{put_cap, write_name};
use fl_chains::step::Step;
use fl_labels::cap::Cap;
use fl_ops::op::{Body, Op};
use fl_opset::text::write_line;
use fl_sink::sink::{Sink, WriteFault};
use fl_sink::writer::Writer;

// A line of these bytes and a capability.
pub(crate) fn write_cap<W: Writer>(
    front: &[u8],
    cap: Cap,
    sink: &mut Sink,
    output: &mut W,
) -> Result<(), WriteFault>
    ensures puts { let text = front.now ++ (cap_text cap ++ codes "\n") in
        Puts (W.contents output.old) (W.contents output.new) sink.old text sink.new result }
    ensures cause { OnErr result (W.has_failed output.new) }
{
    put_cap(front, cap, sink, output)?;
    sink.put(output, b"\n")
}

// The line of what a chain begins with.
fn write_first<W: Writer>(first: First, sink: &mut Sink, output: &mut W) -> Result<(), WriteFault>
    ensures puts { let text = first_line first in
        Puts (W.contents output.old) (W.contents output.new) sink.old text sink.new result }
    ensures cause { OnErr result (W.has_failed output.new) }
{
    match first {
        First::Owns(cap) => write_cap(b"owns ", cap, sink, output),
        First::Everybody(name) => write_name(b"everybody ", name, sink, output),
        First::Uses(group) => write_cap(b"use ", Cap::Use(group), sink, output),
    }
}

// The operation that the step rests on.
fn op_of(step: &Step) -> Op
    ensures { result ≡ put_op step.now }
{
    Op {
        name: step.name,
        body: Body::Put(step.group, step.cap),
    }
}

// A line for each step.
fn write_steps<W: Writer>(steps: &[Step], sink: &mut Sink, output: &mut W) -> Result<(), WriteFault>
    ensures puts { let text = flat_map step_line steps.now in
        Puts (W.contents output.old) (W.contents output.new) sink.old text sink.new result }
    ensures cause { OnErr result (W.has_failed output.new) }
{
    for step in steps {
        write_line(&op_of(step), sink, output)?;
    }
    Ok(())
}

/// How many lines [`write_why`] puts.
pub fn count_of(why: &Why) -> u64
    ensures { result ≡ length (why_lines why.now) }
{
    why.steps.len() as u64 + 1
}

/// Puts why somebody has a capability into the sink: `owns *1.4`, `everybody 1.2` or `use *1.4`, and
/// then a line for each step, that of the put on which it rests.
pub fn write_why<W: Writer>(why: &Why, sink: &mut Sink, output: &mut W) -> Result<(), WriteFault>
    ensures puts { let text = flat_map (λ line. line) (why_lines why.now) in
        Puts (W.contents output.old) (W.contents output.new) sink.old text sink.new result }
    ensures cause { OnErr result (W.has_failed output.new) }
{
    write_first(why.first, sink, output)?;
    write_steps(&why.steps, sink, output)
}
