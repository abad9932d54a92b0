//! The text of aliases.
ghost use Rattle.std.specs.Prelude.{OnErr};
ghost use Rattle.fl_sink.specs.Sink.{Puts};
ghost use Rattle.fl_aliases.specs.Table.{entry_line};

use crate::alias::Alias;
use crate::target::Target;
use fl_sink::sink::{Sink, WriteFault};
use fl_sink::writer::Writer;
use itoa::Buffer;

// Puts the line of an alias into the sink.
pub(crate) fn write_line<W: Writer>(
    alias: &Alias,
    target: Target,
    sink: &mut Sink,
    output: &mut W,
) -> Result<(), WriteFault>
    ensures puts { let text = entry_line (alias.now, target) in
        Puts (W.contents output.old) (W.contents output.new) sink.old text sink.new result }
    ensures cause { OnErr result (W.has_failed output.new) }
{
    let letters = alias.as_str().as_bytes();
    let mut number = Buffer::new();
    match target {
        Target::Process(pid) => {
            let mut boot = Buffer::new();
            let mut serial = Buffer::new();
            let node = number.format(pid.node).as_bytes();
            let boot = boot.format(pid.boot).as_bytes();
            let serial = serial.format(pid.serial).as_bytes();
            sink.put_all(
                output,
                &[b"$", letters, b" p", node, b".", boot, b".", serial, b"\n"],
            )
        }
        Target::Operation(name) => {
            let mut seq = Buffer::new();
            let node = number.format(name.node).as_bytes();
            let seq = seq.format(name.seq).as_bytes();
            sink.put_all(output, &[b"$", letters, b" ", node, b".", seq, b"\n"])
        }
        Target::Endpoint(endpoint) => {
            let number = number.format(endpoint.number).as_bytes();
            sink.put_all(output, &[b"$", letters, b" e", number, b"\n"])
        }
    }
}
