//! What is kept of the lines that were answered.
ghost use Rattle.std.specs.Prelude.{◌≡◌, ◌+◌, ◌<◌, ◌^◌, [], IfErr, IfOk, OnErr, OnOk, max};
ghost use Rattle.std.specs.Io.KnownBytes.{Appends};
ghost use Rattle.fl_sink.specs.Sink.{Cuts};

use crate::conversation::Conversation;
use crate::fault::RunFault;
use fl_sink::sink::Sink;
use fl_sink::writer::Writer;
use std::alloc::Global;

/// Writes what waits in the sink, and sends it.
///
/// `Write` where a write fails or takes no bytes, or sending fails: a front of what waited was
/// written then, and the sink may not be used again.
pub(crate) fn send<C: Conversation<W>, W: Writer>(
    sink: &mut Sink,
    input: &C,
    output: &mut W,
) -> Result<(), RunFault>
    ensures ok { OnOk result (Appends (W.contents output.old) (W.contents output.new) sink.old) }
    ensures empty { OnOk result (sink.new ≡ []) }
    ensures said { OnOk result (C.said output.new ≡ W.contents output.new) }
    ensures kind { IfErr result (λ e. e ≡ RunFault.Write) }
    ensures cause { OnErr result (W.has_failed output.new) }
    ensures err { OnErr result
        (Cuts (W.contents output.old) (W.contents output.new) sink.old []) }
{
    sink.finish(output)?;
    if input.send(output).is_err() {
        return Err(RunFault::Write);
    }
    Ok(())
}

/// The number of the next line, the greatest status of a line, and the answers that wait to be
/// written.
#[derive(Drop)]
pub struct Tally {
    pub number: u64,
    pub status: u8,
    pub sink: Sink,
}

impl Tally {
    /// Before the first line. Takes no memory.
    pub fn new(alloc: Global) -> Self
        ensures { result ≡ record { number = 1; status = 0; sink = [] } }
    {
        Tally {
            number: 1,
            status: 0,
            sink: Sink::new(alloc),
        }
    }

    /// Counts a line that was answered with this status.
    pub fn count(&mut self, status: u8)
        requires { self.old.number < 2 ^ 63 }
        ensures { self.new ≡ record self.old {
          number = self.old.number + 1;
          status = max self.old.status status;
        } }
    {
        self.number += 1;
        self.raise(status);
    }

    /// Raises the greatest status to this one, where that is less.
    pub fn raise(&mut self, status: u8)
        ensures { self.new ≡ record self.old { status = max self.old.status status } }
    {
        self.status = self.status.max(status);
    }

    /// Writes the answers that wait, and sends all. Gives the greatest status of a line.
    ///
    /// `Write` where a write fails or takes no bytes, or sending fails: a front of what waited was
    /// written then, and the tally may not be used again.
    pub fn end<C: Conversation<W>, W: Writer>(
        &mut self,
        input: &C,
        output: &mut W,
    ) -> Result<u8, RunFault>
        ensures status { IfOk result (λ status. status ≡ self.old.status) }
        ensures ok { OnOk result
            (Appends (W.contents output.old) (W.contents output.new) self.old.sink) }
        ensures said { OnOk result (C.said output.new ≡ W.contents output.new) }
        ensures kind { IfErr result (λ e. e ≡ RunFault.Write) }
        ensures cause { OnErr result (W.has_failed output.new) }
        ensures err { OnErr result
            (Cuts (W.contents output.old) (W.contents output.new) self.old.sink []) }
    {
        send(&mut self.sink, input, output)?;
        Ok(self.status)
    }
}
