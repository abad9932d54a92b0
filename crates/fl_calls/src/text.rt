//! The text of what a packet would bring.
ghost use Rattle.std.specs.Prelude.{OnErr};
ghost use Rattle.fl_calls.specs.CheckText.{check_text};
ghost use Rattle.fl_sink.specs.Sink.{Puts};

use crate::response::Check;
use fl_replies::text::write_count;
use fl_sink::sink::{Sink, WriteFault};
use fl_sink::writer::Writer;

/// Puts the line of what a packet would bring into the sink: `new 3`, `lacks 4` or `data`.
pub fn write_check<W: Writer>(
    check: Check,
    sink: &mut Sink,
    output: &mut W,
) -> Result<(), WriteFault>
    ensures puts { let text = check_text check in
        Puts (W.contents output.old) (W.contents output.new) sink.old text sink.new result }
    ensures cause { OnErr result (W.has_failed output.new) }
{
    match check {
        Check::New(count) => write_count(b"new ", count, sink, output),
        Check::Lacks(count) => write_count(b"lacks ", count, sink, output),
        Check::Data => sink.put_all(output, &[b"data\n"]),
    }
}
