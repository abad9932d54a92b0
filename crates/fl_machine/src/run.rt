//! A whole run of a machine's process.
ghost use Rattle.std.specs.Prelude.{◌≡◌, ◌+◌, ◌^◌, ◌≤◌, ◌⊎◌, ℕ, List, Option, None, IfErr, IfOk};
ghost use Rattle.std.specs.Prelude.{IfSome, OnErr, OnOk, [], false, length, true};
ghost use Rattle.std.specs.Io.KnownBytes.{IsAtEnd, append_known};
ghost use Rattle.fl_machine_turns.specs.Over.{MachineTurns, SessionOver};
ghost use Rattle.fl_machine_turns.specs.Run.{IsStarted, RunsFirst, RunsMachine, greeting};
ghost use Rattle.fl_sink.specs.Sink.{Writes};
ghost use Rattle.fl_stream.specs.Output.{WritesOutput};
ghost use Rattle.fl_stream.specs.Served.{Answered, CountsPast, HearsLongLine, MayLackRoom};
ghost use Rattle.fl_stream.specs.Served.{Outgrows, Served};

use crate::greeting::greet;
use crate::session::Session;
use fl_sink::sink::WriteFault;
use fl_sink::writer::Writer;
use fl_store::keeper::Keeper;
use fl_stream::conversation::Conversation;
use fl_stream::fault::RunFault;
use fl_stream::run::converse as converse_with;
use std::alloc::{AllocGlobal, Global};
use std::io::{Read, Write};

/// The most bytes that are heard: so many that nobody sends them.
pub const MOST_BYTES: usize = 1 << 62;

// Says the greeting of the session's node. At a fault a front of it was written.
fn introduce<C: Conversation<W>, W: Writer, K: Keeper>(
    alloc: Global,
    session: &Session<K>,
    input: &C,
    output: &mut W,
) -> Result<(), WriteFault>
    ensures writes { Writes (W.contents output.old) (W.contents output.new)
        (greeting session.now.node.node) result }
    ensures said { OnOk result (C.said output.new ≡ W.contents output.new) }
    ensures cause { OnErr result (W.has_failed output.new) }
{
    greet(alloc, session.node(), output)?;
    match input.send(output) {
        Ok(()) => Ok(()),
        Err(_) => Err(WriteFault),
    }
}

/// Says the greeting, and then hears lines, and says the answer to each.
///
/// More is heard only where what was said is exactly the greeting and the answers to all lines that
/// have ended, and the keeper has not failed: [`Conversation::hear`] requires it. To hear no bytes
/// is the end. So is the line at which the keeper failed: it is answered, and no line behind it is
/// heard, done or answered. The status is 3 then, else 1 where some line was none of this machine,
/// and else 0.
///
/// At a fault a front of the greeting and of the answers to the first lines is written: `Read` only
/// where hearing fails, or a line that has not ended has more than 16 MiB; `Write` where a write
/// fails or takes no bytes, or sending fails; `Memory` where there is no room for the 64 KiB that
/// are heard at once, or for a line that has not ended. Want of memory in a line's own work is that
/// line's answer.
///
/// The session is given back as the lines that were begun left it, at a fault too. Where its keeper
/// is honest, what was written is the text of one process of this machine alone, by the
/// definitions, over what the keeper may have held that it was opened over (`one_run`), and at a
/// fault a front of one's (`first_run`). Nothing is kept from line to line but the session, so that
/// a line costs nothing for those before it.
pub fn converse<RT: AllocGlobal, C: Conversation<W>, W: Writer, K: Keeper + Drop>(
    rt: &RT,
    session: Session<K>,
    input: &mut C,
    output: &mut W,
) -> (Session<K>, Result<u8, RunFault>)
    requires live { session.over ≡ false }
    requires unheard { IfSome (C.heard input.old) (λ bytes. bytes ≡ []) }
    requires fresh { C.hearings input.old ≡ 0 }
    requires due { (heard : List ℕ) (said : Option (List ℕ)) (mid : SessionOver K) →
        Answered (MachineTurns K.custody) session heard
        (append_known (W.contents output.old) (greeting session.node.node)) said mid →
        (mid.over ≡ true → ⊥) → C.may_hear heard said }
    ensures one_run { (found : K) → IsStarted K.custody (K.custody.may_hold found) session →
        IfOk result.1 (λ status. IfSome (C.remaining input.old) (λ script.
        RunsMachine K.custody session.settings (K.custody.may_hold found)
        (W.contents output.old) (W.contents output.new) script status result.0)) }
    ensures first_run { (found : K) → IsStarted K.custody (K.custody.may_hold found) session →
        OnErr result.1 (IfSome (C.remaining input.old) (λ script.
        RunsFirst K.custody session.settings (K.custody.may_hold found)
        (W.contents output.old) (W.contents output.new) script result.0)) }
    ensures ok { IfOk result.1 (λ status. IfSome (C.remaining input.old) (λ script.
        WritesOutput (MachineTurns K.custody) session
        (append_known (W.contents output.old) (greeting session.node.node))
        (W.contents output.new) script status result.0)) }
    ensures whole { OnOk result.1 (IsAtEnd (C.remaining input.new) ⊎ (result.0.over ≡ true)) }
    ensures said { OnOk result.1 (C.said output.new ≡ W.contents output.new) }
    ensures seldom { C.hearings input.new ≤ 2 ^ 62 + 1 }
    ensures served { IfErr result.1 (λ e. e ≡ RunFault.Read →
        Served (2 ^ 62) (MachineTurns K.custody) session
        (C.remaining input.old) (C.remaining input.new)
        (append_known (W.contents output.old) (greeting session.node.node))
        (W.contents output.new) result.0) }
    ensures cause { IfErr result.1 (λ e. e ≡ RunFault.Read → C.is_deaf input.new
        ⊎ (Outgrows (2 ^ 62) (C.heard input.old) (C.heard input.new)
        × CountsPast (2 ^ 62) (C.counted input.old) (C.counted input.new))
        ⊎ HearsLongLine 16777216 (C.remaining input.old) (C.remaining input.new)
        (C.heard input.old) (C.heard input.new)) }
    ensures write_cause { IfErr result.1 (λ e. e ≡ RunFault.Write → W.has_failed output.new) }
    ensures memory_cause { IfErr result.1 (λ e. e ≡ RunFault.Memory →
        MayLackRoom (C.remaining input.old) (C.remaining input.new)
        (C.heard input.old) (C.heard input.new)) }
{
    if let Err(_) = introduce(rt.alloc(), &session, input, output) {
        return (session, Err(RunFault::Write));
    }
    converse_with(rt.alloc(), session, MOST_BYTES, input, output)
}

/// Writes the greeting, and then reads lines, and writes the answer to each.
///
/// It is [`converse`] with a reader and a writer: before each read what was written is flushed.
pub fn run<RT: AllocGlobal, R: Read, W: Write, K: Keeper + Drop>(
    rt: &RT,
    session: Session<K>,
    input: &mut R,
    output: &mut W,
) -> (Session<K>, Result<u8, RunFault>)
    requires live { session.over ≡ false }
    ensures one_run { (found : K) → IsStarted K.custody (K.custody.may_hold found) session →
        IfOk result.1 (λ status. IfSome (R.remaining input.old) (λ script.
        RunsMachine K.custody session.settings (K.custody.may_hold found)
        (W.contents output.old) (W.contents output.new) script status result.0)) }
    ensures first_run { (found : K) → IsStarted K.custody (K.custody.may_hold found) session →
        OnErr result.1 (IfSome (R.remaining input.old) (λ script.
        RunsFirst K.custody session.settings (K.custody.may_hold found)
        (W.contents output.old) (W.contents output.new) script result.0)) }
    ensures ok { IfOk result.1 (λ status. IfSome (R.remaining input.old) (λ script.
        WritesOutput (MachineTurns K.custody) session
        (append_known (W.contents output.old) (greeting session.node.node))
        (W.contents output.new) script status result.0)) }
    ensures whole { OnOk result.1 (IsAtEnd (R.remaining input.new) ⊎ (result.0.over ≡ true)) }
    ensures served { IfErr result.1 (λ e. e ≡ RunFault.Read →
        Served (2 ^ 62) (MachineTurns K.custody) session
        (R.remaining input.old) (R.remaining input.new)
        (append_known (W.contents output.old) (greeting session.node.node))
        (W.contents output.new) result.0) }
    ensures memory_cause { IfErr result.1 (λ e. e ≡ RunFault.Memory →
        MayLackRoom (R.remaining input.old) (R.remaining input.new) None None) }
{
    converse(rt, session, input, output)
}
