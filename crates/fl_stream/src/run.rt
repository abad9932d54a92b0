//! A whole run.
ghost use Rattle.std.specs.Prelude.{◌≡◌, ◌+◌, ◌^◌, ◌<◌, ◌≤◌, ◌⊎◌, ℕ, List, Option, None};
ghost use Rattle.std.specs.Prelude.{IfErr, IfOk, IfSome, OnErr, OnOk, [], length};
ghost use Rattle.std.specs.Io.KnownBytes.{IsAtEnd};
ghost use Rattle.fl_stream.specs.Served.{Answered, CountsPast, HearsLongLine, MayLackRoom};
ghost use Rattle.fl_stream.specs.Served.{Outgrows, Served};
ghost use Rattle.fl_stream.specs.Output.{WritesFirst, WritesOutput};

use crate::conversation::Conversation;
use crate::fault::RunFault;
use crate::intake::Intake;
use crate::responder::Responder;
use crate::tally::Tally;
use fl_sink::writer::Writer;
use std::alloc::{AllocGlobal, Global};
use std::io::{Read, Write};

// Hears all there is, and has each line answered as it is handed out, up to one at which the
// responder is over; and sends all.
fn hear_all<M: Responder, C: Conversation<W>, W: Writer>(
    alloc: Global,
    responder: &mut M,
    most: usize,
    input: &mut C,
    output: &mut W,
) -> Result<u8, RunFault>
    requires live { M.over responder.old → ⊥ }
    requires most { most ≤ 2 ^ 62 }
    requires unheard { IfSome (C.heard input.old) (λ bytes. bytes ≡ []) }
    requires fresh { C.hearings input.old ≡ 0 }
    requires due { (heard : List ℕ) (said : Option (List ℕ)) (mid : M) →
        Answered M.turns responder.old heard (W.contents output.old) said mid →
        (M.over mid → ⊥) → C.may_hear heard said }
    ensures ok { IfOk result (λ status. IfSome (C.remaining input.old) (λ script.
        WritesOutput M.turns responder.old
        (W.contents output.old) (W.contents output.new) script status responder.new)) }
    ensures whole { OnOk result (IsAtEnd (C.remaining input.new) ⊎ M.over responder.new) }
    ensures short { OnOk result (IfSome (C.remaining input.old)
        (λ script. length script ≤ most) ⊎ M.over responder.new) }
    ensures said { OnOk result (C.said output.new ≡ W.contents output.new) }
    ensures seldom { C.hearings input.new ≤ most + 1 }
    ensures served { IfErr result (λ e. e ≡ RunFault.Read → Served most M.turns responder.old
        (C.remaining input.old) (C.remaining input.new)
        (W.contents output.old) (W.contents output.new) responder.new) }
    ensures cause { IfErr result (λ e. e ≡ RunFault.Read → C.is_deaf input.new
        ⊎ (Outgrows most (C.heard input.old) (C.heard input.new)
        × CountsPast most (C.counted input.old) (C.counted input.new))
        ⊎ ((16777216 < most) × HearsLongLine 16777216
        (C.remaining input.old) (C.remaining input.new)
        (C.heard input.old) (C.heard input.new))) }
    ensures write_cause { IfErr result (λ e. e ≡ RunFault.Write → W.has_failed output.new) }
    ensures memory_cause { IfErr result (λ e. e ≡ RunFault.Memory →
        MayLackRoom (C.remaining input.old) (C.remaining input.new)
        (C.heard input.old) (C.heard input.new)) }
    ensures err { OnErr result (IfSome (C.remaining input.old) (λ script.
        WritesFirst M.turns responder.old
        (W.contents output.old) (W.contents output.new) script responder.new)) }
{
    let mut intake = Intake::new(alloc, most)?;
    let mut tally = Tally::new(alloc);
    'lines: while intake.next(input, output, &mut tally.sink)? {
        let status = responder.answer(alloc, tally.number, intake.line(), &mut tally.sink, output)?;
        tally.count(status);
        if responder.is_over() {
            return tally.end(input, output);
        }
    }
    tally.end(input, output)
}

/// Hears a script of at most `most` bytes, and says what the responder answers to its lines.
///
/// More is heard only where what was said is exactly the answers to all lines that have ended, and
/// the responder is not over: [`Conversation::hear`] requires it. To hear no bytes is the end of
/// the script. So is a line at which the responder is over: no line behind it is answered. More is
/// asked for at most `most + 1` times. The status is the greatest of the lines', and 0 where there
/// are none.
///
/// At a fault a front of the answers to the first lines is written: `Read` only where hearing
/// fails, the script is longer, or a line that has not ended has more than 16 MiB; `Write` where a
/// write fails or takes no bytes, or sending fails; `Memory` where there is no room for the 64 KiB
/// that are heard at once, or for a line that has not ended.
///
/// The responder is given back as it is after the lines that were begun: by these and no others it
/// came from the one that was handed in.
pub fn converse<M: Responder + Drop, C: Conversation<W>, W: Writer>(
    alloc: Global,
    responder: M,
    most: usize,
    input: &mut C,
    output: &mut W,
) -> (M, Result<u8, RunFault>)
    requires live { M.over responder → ⊥ }
    requires most { most ≤ 2 ^ 62 }
    requires unheard { IfSome (C.heard input.old) (λ bytes. bytes ≡ []) }
    requires fresh { C.hearings input.old ≡ 0 }
    requires said { C.said output.old ≡ W.contents output.old }
    requires due { (heard : List ℕ) (said : Option (List ℕ)) (mid : M) →
        Answered M.turns responder heard (W.contents output.old) said mid →
        (M.over mid → ⊥) → C.may_hear heard said }
    ensures ok { IfOk result.1 (λ status. IfSome (C.remaining input.old) (λ script.
        WritesOutput M.turns responder
        (W.contents output.old) (W.contents output.new) script status result.0)) }
    ensures whole { OnOk result.1 (IsAtEnd (C.remaining input.new) ⊎ M.over result.0) }
    ensures short { OnOk result.1 (IfSome (C.remaining input.old)
        (λ script. length script ≤ most) ⊎ M.over result.0) }
    ensures said { OnOk result.1 (C.said output.new ≡ W.contents output.new) }
    ensures seldom { C.hearings input.new ≤ most + 1 }
    ensures served { IfErr result.1 (λ e. e ≡ RunFault.Read → Served most M.turns responder
        (C.remaining input.old) (C.remaining input.new)
        (W.contents output.old) (W.contents output.new) result.0) }
    ensures cause { IfErr result.1 (λ e. e ≡ RunFault.Read → C.is_deaf input.new
        ⊎ (Outgrows most (C.heard input.old) (C.heard input.new)
        × CountsPast most (C.counted input.old) (C.counted input.new))
        ⊎ ((16777216 < most) × HearsLongLine 16777216
        (C.remaining input.old) (C.remaining input.new)
        (C.heard input.old) (C.heard input.new))) }
    ensures write_cause { IfErr result.1 (λ e. e ≡ RunFault.Write → W.has_failed output.new) }
    ensures memory_cause { IfErr result.1 (λ e. e ≡ RunFault.Memory →
        MayLackRoom (C.remaining input.old) (C.remaining input.new)
        (C.heard input.old) (C.heard input.new)) }
    ensures err { OnErr result.1 (IfSome (C.remaining input.old) (λ script.
        WritesFirst M.turns responder
        (W.contents output.old) (W.contents output.new) script result.0)) }
{
    let mut responder = responder;
    let result = hear_all(alloc, &mut responder, most, input, output);
    (responder, result)
}

/// Reads a script of at most `most` bytes, by at most `most + 1` reads, and writes what the
/// responder answers to its lines.
///
/// It is [`converse`] with a reader and a writer: before each read but the first, all lines that
/// have ended are answered, and the answers are written and flushed. A read of no bytes is the end
/// of the script, and so is a line at which the responder is over. The status is the greatest of
/// its lines', and 0 where there are none.
///
/// At a fault a front of the answers to the first lines is written: `Read` where a read fails, the
/// script is longer, or a line that has not ended has more than 16 MiB; `Write` where a write fails
/// or takes no bytes, or a flush fails; `Memory` where there is no room for the 64 KiB that a read
/// fills, or for a line that has not ended.
pub fn run<RT: AllocGlobal, M: Responder + Drop, R: Read, W: Write>(
    rt: &RT,
    responder: M,
    most: usize,
    input: &mut R,
    output: &mut W,
) -> (M, Result<u8, RunFault>)
    requires live { M.over responder → ⊥ }
    requires most { most ≤ 2 ^ 62 }
    ensures ok { IfOk result.1 (λ status. IfSome (R.remaining input.old) (λ script.
        WritesOutput M.turns responder
        (W.contents output.old) (W.contents output.new) script status result.0)) }
    ensures whole { OnOk result.1 (IsAtEnd (R.remaining input.new) ⊎ M.over result.0) }
    ensures short { OnOk result.1 (IfSome (R.remaining input.old)
        (λ script. length script ≤ most) ⊎ M.over result.0) }

    // Any read may fail, so that all lines that have ended are answered before each.
    ensures served { IfErr result.1 (λ e. e ≡ RunFault.Read → Served most M.turns responder
        (R.remaining input.old) (R.remaining input.new)
        (W.contents output.old) (W.contents output.new) result.0) }
    ensures memory_cause { IfErr result.1 (λ e. e ≡ RunFault.Memory →
        MayLackRoom (R.remaining input.old) (R.remaining input.new) None None) }
    ensures err { OnErr result.1 (IfSome (R.remaining input.old) (λ script.
        WritesFirst M.turns responder
        (W.contents output.old) (W.contents output.new) script result.0)) }
{
    converse(rt.alloc(), responder, most, input, output)
}
