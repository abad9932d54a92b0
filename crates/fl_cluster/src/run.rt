//! A whole run.
ghost use Rattle.std.specs.Prelude.{◌≡◌, ◌≤◌, ◌⊎◌, [], ℕ, List, Option, None, IfErr, IfOk, IfSome, OnErr, OnOk, length};
ghost use Rattle.std.specs.Io.KnownBytes.{IsAtEnd};
ghost use Rattle.fl_stream.specs.Served.{Answered, CountsPast, MayLackRoom, Outgrows, Served};
ghost use Rattle.fl_stream.specs.Output.{WritesFirst, WritesOutput};
ghost use Rattle.fl_turns.specs.Lasting.{LastsScript};
ghost use Rattle.fl_turns.specs.Over.{SessionOver, TurnsOver, begun_over};
ghost use Rattle.fl_turns.specs.Script.{RunsFirst, RunsScript};

use crate::fault::RunFault;
use crate::options::Options;
use crate::session::Session;
use fl_makers::maker::MakesKeepers;
use fl_round_laws::laws::law_exchange;
use fl_sink::writer::Writer;
use fl_stream::conversation::Conversation;
use fl_world::laws::{law_headline, law_lasting};
use std::alloc::AllocGlobal;
use std::io::{Read, Write};

/// The most bytes of a script.
pub const MOST_BYTES: usize = 16_777_216;

/// Hears a script of at most 16,777,216 bytes, and says the answers to its lines.
///
/// More is heard only where what was said is exactly the answers to all lines that have ended:
/// [`Conversation::hear`] requires it. To hear no bytes is the end of the script. More is asked for
/// at most 16,777,217 times. The status is 3 where some line was answered that a keeper failed,
/// else 1 where some line was none of the script, and else 0. A node is opened by the first line
/// that names it, over the keeper that is made for it then.
///
/// At a fault a front of the answers to the first lines is written: `Read` only where hearing fails
/// or the script is longer; `Write` where a write fails or takes no bytes, or sending fails;
/// `Memory` where there is no room for the 64 KiB that are heard at once, or for a line that has
/// not ended. Want of memory in a line's own work is that line's answer.
///
/// The session is given back as the lines that were begun left it, at a fault too. Where its
/// keepers are honest, the text is that of one run of the definitions (`one_run`), and at a fault a
/// front of one's (`first_run`). Where a status is answered, that run is one of worlds: what holds
/// of each world that a run leads to holds all along it; a tag is confined and endorsed, each
/// capability in effect was granted, an operation whose name a line was answered is shown and
/// kept from then on, and nodes publish the same behind lines by which they exchange (`lasting`).
pub fn converse<RT: AllocGlobal, C: Conversation<W>, W: Writer, M: MakesKeepers + Drop>(
    rt: &RT,
    input: &mut C,
    output: &mut W,
    keepers: M,
) -> (Session<M>, Result<u8, RunFault>)
    requires unheard { IfSome (C.heard input.old) (λ bytes. bytes ≡ []) }
    requires fresh { C.hearings input.old ≡ 0 }
    requires said { C.said output.old ≡ W.contents output.old }
    requires due { (heard : List ℕ) (said : Option (List ℕ)) (mid : SessionOver M.K M) →
        Answered (TurnsOver M.K.custody M.making) (begun_over keepers)
        heard (W.contents output.old) said mid → C.may_hear heard said }
    ensures one_run { IfOk result.1 (λ status. IfSome (C.remaining input.old) (λ script.
        RunsScript M.K.custody M.making keepers
        (W.contents output.old) (W.contents output.new) script status result.0)) }
    ensures first_run { OnErr result.1 (IfSome (C.remaining input.old) (λ script.
        RunsFirst M.K.custody M.making keepers
        (W.contents output.old) (W.contents output.new) script result.0)) }
    ensures lasting { IfOk result.1 (λ status. IfSome (C.remaining input.old) (λ script.
        LastsScript M.K.custody M.making keepers
        (W.contents output.old) (W.contents output.new) script status result.0)) }
    ensures ok { IfOk result.1 (λ status. IfSome (C.remaining input.old) (λ script.
        WritesOutput (TurnsOver M.K.custody M.making) (begun_over keepers)
        (W.contents output.old) (W.contents output.new) script status result.0)) }
    ensures whole { OnOk result.1 (IsAtEnd (C.remaining input.new)) }
    ensures short { OnOk result.1 (IfSome (C.remaining input.old)
        (λ script. length script ≤ 16777216)) }
    ensures said { OnOk result.1 (C.said output.new ≡ W.contents output.new) }
    ensures seldom { C.hearings input.new ≤ 16777217 }
    ensures served { IfErr result.1 (λ e. e ≡ RunFault.Read →
        Served 16777216 (TurnsOver M.K.custody M.making) (begun_over keepers)
        (C.remaining input.old) (C.remaining input.new)
        (W.contents output.old) (W.contents output.new) result.0) }
    ensures cause { IfErr result.1 (λ e. e ≡ RunFault.Read → C.is_deaf input.new
        ⊎ (Outgrows 16777216 (C.heard input.old) (C.heard input.new)
        × CountsPast 16777216 (C.counted input.old) (C.counted input.new))) }
    ensures write_cause { IfErr result.1 (λ e. e ≡ RunFault.Write → W.has_failed output.new) }
    ensures memory_cause { IfErr result.1 (λ e. e ≡ RunFault.Memory →
        MayLackRoom (C.remaining input.old) (C.remaining input.new)
        (C.heard input.old) (C.heard input.new)) }
    ensures err { OnErr result.1 (IfSome (C.remaining input.old) (λ script.
        WritesFirst (TurnsOver M.K.custody M.making) (begun_over keepers)
        (W.contents output.old) (W.contents output.new) script result.0)) }
{
    law_headline();
    law_lasting();
    law_exchange();
    let alloc = rt.alloc();
    let session = Session::new(alloc, keepers);
    fl_stream::run::converse(alloc, session, MOST_BYTES, input, output)
}

/// Reads a script of at most 16,777,216 bytes, by at most 16,777,217 reads, and writes the answers
/// to its lines.
///
/// It is [`converse`] with a reader and a writer: before each read but the first, all lines that
/// have ended are answered, and the answers are written and flushed. A read of no bytes is the end
/// of the script.
///
/// At a fault a front of the answers to the first lines is written: `Read` where a read fails or
/// the script is longer; `Write` where a write fails or takes no bytes, or a flush fails; `Memory`
/// where there is no room for the 64 KiB that a read fills, or for a line that has not ended. Want
/// of memory in a line's own work is that line's answer.
///
/// The session is given back as the lines that were begun left it, at a fault too. Where its
/// keepers are honest, the text is that of one run of the definitions (`one_run`), and at a fault a
/// front of one's (`first_run`). Where a status is answered, that run is one of worlds: what holds
/// of each world that a run leads to holds all along it; a tag is confined and endorsed, each
/// capability in effect was granted, an operation whose name a line was answered is shown and
/// kept from then on, and nodes publish the same behind lines by which they exchange (`lasting`).
pub fn run<RT: AllocGlobal, R: Read, W: Write, M: MakesKeepers + Drop>(
    rt: &RT,
    input: &mut R,
    output: &mut W,
    options: Options,
    keepers: M,
) -> (Session<M>, Result<u8, RunFault>)
    requires alone { options.workers ≡ 0 }

    // Where the keepers are honest at the end, the text is that of one run of the definitions.
    ensures one_run { IfOk result.1 (λ status. IfSome (R.remaining input.old) (λ script.
        RunsScript M.K.custody M.making keepers
        (W.contents output.old) (W.contents output.new) script status result.0)) }
    ensures first_run { OnErr result.1 (IfSome (R.remaining input.old) (λ script.
        RunsFirst M.K.custody M.making keepers
        (W.contents output.old) (W.contents output.new) script result.0)) }

    // And all lasts along that run: what is emitted is the answer to a line that says so, and no
    // process into which a tag came along processes that never may remove it lets anything out.
    ensures lasting { IfOk result.1 (λ status. IfSome (R.remaining input.old) (λ script.
        LastsScript M.K.custody M.making keepers
        (W.contents output.old) (W.contents output.new) script status result.0)) }

    // Whatever the keepers are, the lines were answered one after another, up to the session at the
    // end.
    ensures ok { IfOk result.1 (λ status. IfSome (R.remaining input.old) (λ script.
        WritesOutput (TurnsOver M.K.custody M.making) (begun_over keepers)
        (W.contents output.old) (W.contents output.new) script status result.0)) }
    ensures whole { OnOk result.1 (IsAtEnd (R.remaining input.new)) }
    ensures short { OnOk result.1 (IfSome (R.remaining input.old)
        (λ script. length script ≤ 16777216)) }

    // Any read may fail, so that all lines that have ended are answered before each.
    ensures served { IfErr result.1 (λ e. e ≡ RunFault.Read →
        Served 16777216 (TurnsOver M.K.custody M.making) (begun_over keepers)
        (R.remaining input.old) (R.remaining input.new)
        (W.contents output.old) (W.contents output.new) result.0) }
    ensures memory_cause { IfErr result.1 (λ e. e ≡ RunFault.Memory →
        MayLackRoom (R.remaining input.old) (R.remaining input.new) None None) }
    ensures err { OnErr result.1 (IfSome (R.remaining input.old) (λ script.
        WritesFirst (TurnsOver M.K.custody M.making) (begun_over keepers)
        (W.contents output.old) (W.contents output.new) script result.0)) }
{
    converse(rt, input, output, keepers)
}
