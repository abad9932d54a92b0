//! Which capabilities are wanting, a line each. Writing takes no memory but the sink's. At a fault
//! a front of what waited and of the lines was written, and the sink may not be used again.
ghost use Rattle.std.specs.Prelude.{◌≡◌, OnErr};
ghost use Rattle.std.specs.List.{flat_map};
ghost use Rattle.fl_explanations.specs.Lines.{cap_line, lines_text, missing_lines};
ghost use Rattle.fl_sink.specs.Sink.{Puts};

use crate::shown::write_head;
use crate::text::write_cap;
use fl_labels::cap::Cap;
use fl_labels::cap_set::CapSet;
use fl_sink::sink::{Sink, WriteFault};
use fl_sink::writer::Writer;

// A line for each capability.
fn write_caps<W: Writer>(caps: &[Cap], sink: &mut Sink, output: &mut W) -> Result<(), WriteFault>
    ensures puts { let text = flat_map cap_line caps.now in
        Puts (W.contents output.old) (W.contents output.new) sink.old text sink.new result }
    ensures cause { OnErr result (W.has_failed output.new) }
{
    for cap in caps {
        write_cap(b"", *cap, sink, output)?;
    }
    Ok(())
}

/// Puts what is wanting into the sink, behind `lines K`: a line `+1.1` for each capability, rising.
/// Costs a look at each.
pub fn write_missing<W: Writer>(
    caps: &CapSet,
    sink: &mut Sink,
    output: &mut W,
) -> Result<(), WriteFault>
    ensures puts { let text = lines_text (missing_lines caps.now) in
        Puts (W.contents output.old) (W.contents output.new) sink.old text sink.new result }
    ensures cause { OnErr result (W.has_failed output.new) }
{
    write_head(caps.len() as u128, sink, output)?;
    write_caps(caps.as_slice(), sink, output)
}
