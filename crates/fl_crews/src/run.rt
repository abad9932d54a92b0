//! A whole run.
ghost use Rattle.std.specs.Prelude.{◌≡◌, ◌≤◌, ◌⊎◌, [], ℕ, List, Option, None, IfErr, IfOk, IfSome};
ghost use Rattle.std.specs.Prelude.{OnErr, OnOk, length};
ghost use Rattle.std.specs.Io.KnownBytes.{IsAtEnd};
ghost use Rattle.fl_stream.specs.Served.{Answered, CountsPast, MayLackRoom, Outgrows, Served};
ghost use Rattle.fl_crew_turns.specs.Script.{Grows, IsStatus, WritesBatches, WritesBatchesFirst};
ghost use Rattle.fl_crew_turns.specs.Session.{CrewSession, begun_session};
ghost use Rattle.fl_crew_turns.specs.Turn.{CrewTurns};
ghost use Rattle.fl_crew_calls.specs.Calls.{crews_calls};
ghost use Rattle.fl_crew_calls.specs.Over.{CrewsOver, begun_crews};

use fl_crew_calls::crews::Crews;
use fl_crew_session::session::Session;
use fl_makers::maker::MakesKeepers;
use fl_sink::writer::Writer;
use fl_stream::conversation::Conversation;
use fl_stream::fault::RunFault;
use fl_stream::intake::Intake;
use fl_stream::tally::Tally;
use std::alloc::{AllocGlobal, Global};
use std::io::{Read, Write};
use std::sync::Wait;
use std::thread::Threads;

/// The most bytes of a script.
const MOST_BYTES: usize = 16_777_216;

// Hears all there is, and has the session answer each line as it is handed out; then ends the batch
// that is still held, and sends all.
//
// The loop of fl_stream calls its responder by a trait, and what a method of a trait may send to a
// thread is not known; so a session that starts threads has its own.
fn hear_all<
    R: Threads + Wait + Sync + Send + Copy + Drop + 'static,
    M: MakesKeepers,
    C: Conversation<W>,
    W: Writer,
>(alloc: Global, session: &mut Session<R, M>, input: &mut C, output: &mut W) -> Result<u8, RunFault>
    requires unheard { IfSome (C.heard input.old) (λ bytes. bytes ≡ []) }
    requires fresh { C.hearings input.old ≡ 0 }
    requires due { (heard : List ℕ) (said : Option (List ℕ)) (mid : CrewSession (CrewsOver M.K M)) →
        Answered (CrewTurns (crews_calls M.K.custody M.making)) session.old
        heard (W.contents output.old) said mid → C.may_hear heard said }
    ensures ok { IfOk result (λ status. IfSome (C.remaining input.old) (λ script.
        WritesBatches (crews_calls M.K.custody M.making) session.old
        (W.contents output.old) (W.contents output.new) script status session.new)) }
    ensures status { IfOk result IsStatus }
    ensures grows { Grows (W.contents output.old) (W.contents output.new) }
    ensures whole { OnOk result (IsAtEnd (C.remaining input.new)) }
    ensures short { OnOk result (IfSome (C.remaining input.old)
        (λ script. length script ≤ 16777216)) }
    ensures said { OnOk result (C.said output.new ≡ W.contents output.new) }
    ensures seldom { C.hearings input.new ≤ 16777217 }
    ensures served { IfErr result (λ e. e ≡ RunFault.Read →
        Served 16777216 (CrewTurns (crews_calls M.K.custody M.making)) session.old
        (C.remaining input.old) (C.remaining input.new)
        (W.contents output.old) (W.contents output.new) session.new) }
    ensures cause { IfErr result (λ e. e ≡ RunFault.Read → C.is_deaf input.new
        ⊎ (Outgrows 16777216 (C.heard input.old) (C.heard input.new)
        × CountsPast 16777216 (C.counted input.old) (C.counted input.new))) }
    ensures write_cause { IfErr result (λ e. e ≡ RunFault.Write → W.has_failed output.new) }
    ensures memory_cause { IfErr result (λ e. e ≡ RunFault.Memory →
        MayLackRoom (C.remaining input.old) (C.remaining input.new)
        (C.heard input.old) (C.heard input.new)) }
    ensures err { OnErr result (IfSome (C.remaining input.old) (λ script.
        WritesBatchesFirst (crews_calls M.K.custody M.making) session.old
        (W.contents output.old) (W.contents output.new) script session.new)) }
{
    let mut intake = Intake::new(alloc, MOST_BYTES)?;
    let mut tally = Tally::new(alloc);
    'lines: while intake.next(input, output, &mut tally.sink)? {
        let status = session.answer(alloc, tally.number, intake.line(), &mut tally.sink, output)?;
        tally.count(status);
    }
    let status = session.end_batch(alloc, &mut tally.sink, output)?;
    tally.raise(status);
    tally.end(input, output)
}

/// Hears a script of at most 16,777,216 bytes, whose nodes are crews of so many workers, and says
/// the answers to its lines.
///
/// Consecutive jobs of one node are one batch, of 256 jobs at most. They are answered when it has
/// ended, and in the order of their lines: before any other line is answered, before a line that
/// names an alias which one of them sets, and with the 256th of them, or the last line. More is
/// heard only where what was said is exactly the answers to all lines that have ended, but for
/// those that wait for the end of their batch: [`Conversation::hear`] requires it. To hear no bytes
/// is the end of the script. More is asked for at most 16,777,217 times. No clause says that the
/// run comes to its end.
///
/// The status is the greatest of the lines': 3 where some line was answered that a keeper failed,
/// else 1 where some line was none of the script, and else 0. A node is opened by the first line
/// that names it, over the keeper that is made for it then.
///
/// At a fault a front of the answers to the first lines is written, and lines that wait are not
/// done: `Read` only where hearing fails or the script is longer; `Write` where a write fails or
/// takes no bytes, or sending fails; `Memory` where there is no room for the 64 KiB that are heard
/// at once, or for a line that has not ended. Want of memory in a line's own work, or in its batch,
/// is that line's answer.
///
/// The session is given back as it is after the lines that were begun, also at a fault; its crews
/// end where it is let go or closed.
pub fn converse<
    R: AllocGlobal + Threads + Wait + Sync + Send + Copy + Drop + 'static,
    C: Conversation<W>,
    W: Writer,
    M: MakesKeepers + Drop,
>(
    rt: R,
    input: &mut C,
    output: &mut W,
    workers: u8,
    keepers: M,
) -> (Session<R, M>, Result<u8, RunFault>)
    requires some { 1 ≤ workers }
    requires few { workers ≤ 16 }
    requires unheard { IfSome (C.heard input.old) (λ bytes. bytes ≡ []) }
    requires fresh { C.hearings input.old ≡ 0 }
    requires said { C.said output.old ≡ W.contents output.old }
    requires due { (heard : List ℕ) (said : Option (List ℕ)) (mid : CrewSession (CrewsOver M.K M)) →
        Answered (CrewTurns (crews_calls M.K.custody M.making))
        (begun_session (begun_crews keepers workers))
        heard (W.contents output.old) said mid → C.may_hear heard said }
    ensures ok { IfOk result.1 (λ status. IfSome (C.remaining input.old) (λ script.
        WritesBatches (crews_calls M.K.custody M.making)
        (begun_session (begun_crews keepers workers))
        (W.contents output.old) (W.contents output.new) script status result.0)) }
    ensures status { IfOk result.1 IsStatus }
    ensures grows { Grows (W.contents output.old) (W.contents output.new) }
    ensures whole { OnOk result.1 (IsAtEnd (C.remaining input.new)) }
    ensures short { OnOk result.1 (IfSome (C.remaining input.old)
        (λ script. length script ≤ 16777216)) }
    ensures said { OnOk result.1 (C.said output.new ≡ W.contents output.new) }
    ensures seldom { C.hearings input.new ≤ 16777217 }
    ensures served { IfErr result.1 (λ e. e ≡ RunFault.Read →
        Served 16777216 (CrewTurns (crews_calls M.K.custody M.making))
        (begun_session (begun_crews keepers workers))
        (C.remaining input.old) (C.remaining input.new)
        (W.contents output.old) (W.contents output.new) result.0) }
    ensures cause { IfErr result.1 (λ e. e ≡ RunFault.Read → C.is_deaf input.new
        ⊎ (Outgrows 16777216 (C.heard input.old) (C.heard input.new)
        × CountsPast 16777216 (C.counted input.old) (C.counted input.new))) }
    ensures write_cause { IfErr result.1 (λ e. e ≡ RunFault.Write → W.has_failed output.new) }
    ensures memory_cause { IfErr result.1 (λ e. e ≡ RunFault.Memory →
        MayLackRoom (C.remaining input.old) (C.remaining input.new)
        (C.heard input.old) (C.heard input.new)) }
    ensures err { OnErr result.1 (IfSome (C.remaining input.old) (λ script.
        WritesBatchesFirst (crews_calls M.K.custody M.making)
        (begun_session (begun_crews keepers workers))
        (W.contents output.old) (W.contents output.new) script result.0)) }
{
    let alloc = rt.alloc();
    let crews = Crews::new(rt, alloc, workers, keepers);
    let mut session = Session::new(alloc, crews);
    let result = hear_all(alloc, &mut session, input, output);
    (session, result)
}

/// Reads a script of at most 16,777,216 bytes, whose nodes are crews of so many workers, by at most
/// 16,777,217 reads, and writes the answers to its lines.
///
/// It is [`converse`] with a reader and a writer: before each read all lines that have ended and
/// wait for no batch are answered, and the answers are written and flushed. A read of no bytes is
/// the end of the script.
///
/// At a fault a front of the answers to the first lines is written, and lines that wait are not
/// done: `Read` where a read fails or the script is longer; `Write` where a write fails or takes no
/// bytes, or a flush fails; `Memory` where there is no room for the 64 KiB that a read fills, or
/// for a line that has not ended.
pub fn run<
    RT: AllocGlobal + Threads + Wait + Sync + Send + Copy + Drop + 'static,
    R: Read,
    W: Write,
    M: MakesKeepers + Drop,
>(
    rt: RT,
    input: &mut R,
    output: &mut W,
    workers: u8,
    keepers: M,
) -> (Session<RT, M>, Result<u8, RunFault>)
    requires some { 1 ≤ workers }
    requires few { workers ≤ 16 }
    ensures ok { IfOk result.1 (λ status. IfSome (R.remaining input.old) (λ script.
        WritesBatches (crews_calls M.K.custody M.making)
        (begun_session (begun_crews keepers workers))
        (W.contents output.old) (W.contents output.new) script status result.0)) }
    ensures status { IfOk result.1 IsStatus }
    ensures grows { Grows (W.contents output.old) (W.contents output.new) }
    ensures whole { OnOk result.1 (IsAtEnd (R.remaining input.new)) }
    ensures short { OnOk result.1 (IfSome (R.remaining input.old)
        (λ script. length script ≤ 16777216)) }

    // Any read may fail, so that all lines that have ended are answered before each.
    ensures served { IfErr result.1 (λ e. e ≡ RunFault.Read →
        Served 16777216 (CrewTurns (crews_calls M.K.custody M.making))
        (begun_session (begun_crews keepers workers))
        (R.remaining input.old) (R.remaining input.new)
        (W.contents output.old) (W.contents output.new) result.0) }
    ensures memory_cause { IfErr result.1 (λ e. e ≡ RunFault.Memory →
        MayLackRoom (R.remaining input.old) (R.remaining input.new) None None) }
    ensures err { OnErr result.1 (IfSome (R.remaining input.old) (λ script.
        WritesBatchesFirst (crews_calls M.K.custody M.making)
        (begun_session (begun_crews keepers workers))
        (W.contents output.old) (W.contents output.new) script result.0)) }
{
    converse(rt, input, output, workers, keepers)
}
