//! What answers lines.
ghost use Rattle.std.specs.Prelude.{IfOk, IsTrue, OnErr, ◌↔◌};
ghost use Rattle.fl_stream.specs.Turns.{AnswerPasses, AnswerCuts, StaysSilent, Turns};

use fl_sink::sink::{Sink, WriteFault};
use fl_sink::writer::Writer;
use std::alloc::Global;

/// What answers lines, one after another.
pub trait Responder {
    // The line of this number is answered so at the first state, and leaves the second.
    ghost turns: { Turns Self };

    // No line is answered any more.
    ghost over: { Self → Type 0 };

    /// Answers the line of this number, given without its end, where it is not over. Its text is
    /// put into the sink, and the result is the line's status: 0 where there is nothing to be told
    /// of it.
    ///
    /// At a fault a front of what waited and the text was written, and the responder is not used
    /// again.
    fn answer<W: Writer>(
        &mut self,
        alloc: Global,
        number: u64,
        line: &[u8],
        sink: &mut Sink,
        output: &mut W,
    ) -> Result<u8, WriteFault>
        requires { over self.old → ⊥ }
        ensures ok { IfOk result (λ status.
            AnswerPasses turns number self.old line.now status self.new
            (W.contents output.old) (W.contents output.new) sink.old sink.new) }
        ensures err { OnErr result (
            AnswerCuts turns number self.old line.now self.new
            (W.contents output.old) (W.contents output.new) sink.old) }
        ensures cause { OnErr result (W.has_failed output.new) };

    /// Whether it is over: it is asked behind each line, and once it says so, no line is answered
    /// any more, and none is heard.
    fn is_over(&self) -> bool
        ensures { IsTrue result ↔ over self.now };

    // So it makes no difference that the lines behind are neither answered nor heard.
    ghost silent: { StaysSilent turns over };
}
