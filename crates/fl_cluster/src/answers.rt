//! The text of the answers. Writing takes no memory but the sink's, and does without.
ghost use Rattle.std.specs.Prelude.{OnErr};
ghost use Rattle.fl_sink.specs.Sink.{Puts};
ghost use Rattle.fl_calls.specs.Answer.{shown as shown_of, shown_alone};
ghost use Rattle.fl_turns.specs.AnswerText.{said_text, text_of};
ghost use Rattle.fl_cluster.specs.Shown.{shown};

use crate::response::Response;
use crate::session::Session;
use fl_calls::cluster::Cluster;
use fl_calls::response::Response as Said;
use fl_calls::text::write_check;
use fl_makers::maker::MakesKeepers;
use fl_replies::text::{write_count, write_dropped_fault, write_world_reply};
use fl_sink::sink::{Sink, WriteFault};
use fl_sink::writer::Writer;

/// Puts the text of what is answered to the line of this number into the sink.
pub fn write_response<M: MakesKeepers, W: Writer>(
    session: &Session<M>,
    number: u64,
    response: &Response,
    sink: &mut Sink,
    output: &mut W,
) -> Result<(), WriteFault>
    ensures puts { let text = text_of number (shown session.now response.now) in
        Puts (W.contents output.old) (W.contents output.new) sink.old text sink.new result }
    ensures cause { OnErr result (W.has_failed output.new) }
{
    match response {
        Response::Silence => sink.put_all(output, &[]),
        Response::Said(said) => write_said(session.cluster(), number, said, sink, output),
        Response::Aliases => session.aliases().write_text(sink, output),
    }
}

// Puts what the world says to the line of this number into the sink.
fn write_said<M: MakesKeepers, W: Writer>(
    cluster: &Cluster<M>,
    number: u64,
    said: &Said,
    sink: &mut Sink,
    output: &mut W,
) -> Result<(), WriteFault>
    ensures puts { let text = said_text number (shown_of cluster.now.world said.now) in
        Puts (W.contents output.old) (W.contents output.new) sink.old text sink.new result }
    ensures cause { OnErr result (W.has_failed output.new) }
{
    match said {
        Said::Text(node) => cluster.write_text(*node, sink, output),
        _ => write_alone(number, said, sink, output),
    }
}

/// Puts what is said to the line of this number into the sink, apart from any node: of the
/// operations of a node that it names none.
///
/// At a fault a front of what waited and of the text was written, and the sink may not be used
/// again.
pub fn write_alone<W: Writer>(
    number: u64,
    said: &Said,
    sink: &mut Sink,
    output: &mut W,
) -> Result<(), WriteFault>
    ensures puts { let text = said_text number (shown_alone said.now) in
        Puts (W.contents output.old) (W.contents output.new) sink.old text sink.new result }
    ensures cause { OnErr result (W.has_failed output.new) }
{
    match said {
        Said::Reply(reply) => write_world_reply(reply, sink, output),
        Said::Dropped(fault) => write_dropped_fault(fault, sink, output),
        Said::Text(_) => sink.put_all(output, &[]),
        Said::Union(registry) => registry.write_text(sink, output),
        Said::Checked(check) => write_check(*check, sink, output),
        Said::BadPacket(place) => write_count(b"refused F18 ", *place, sink, output),
        Said::Admitted(count) => write_count(b"admitted ", *count, sink, output),
        Said::Unknown => write_count(b"refused F19 ", number, sink, output),
    }
}
