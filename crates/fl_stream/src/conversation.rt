//! The two ends of a conversation: what is heard, and what is said.
ghost use Rattle.std.specs.Prelude.{◌≡◌, ◌+◌, ◌^◌, ◌≤◌, ℕ, List, Option, None, IfOk, IfSome, OnErr};
ghost use Rattle.std.specs.Prelude.{OnOk, ⊤, length, take};
ghost use Rattle.std.specs.Io.{ReadsAtMost};
ghost use Rattle.std.specs.Io.KnownBytes.{Keeps, ReadConsumes, append_known};
ghost use Rattle.fl_stream.specs.Served.{plus_known};

use fl_sink::writer::Writer;
use std::io::{Read, Result, Write};

/// The end at which a conversation is heard. What is said is written at its other end, and sent.
///
/// Any reader is one, with any writer: there nothing is known of what was heard, and to send is to
/// flush.
pub trait Conversation<W: Writer> {
    // The bytes that will be heard from here on, where they are known.
    ghost remaining: { Self → Option (List ℕ) };

    // The bytes heard so far, where they are known.
    ghost heard: { Self → Option (List ℕ) };

    // How many bytes were heard so far, where they are counted.
    ghost counted: { Self → Option ℕ };

    // How often more was asked for.
    ghost hearings: { Self → ℕ };

    // To hear more failed.
    ghost is_deaf: { Self → Type 0 };

    // The bytes said: all that were written when they were last sent, where they are known.
    ghost said: { W → Option (List ℕ) };

    // Where these bytes were heard and those said, more may be heard.
    ghost may_hear: { List ℕ → Option (List ℕ) → Type 0 };

    /// Hears more, at most 64 KiB, and says how many bytes. None are the end, where there is room
    /// for some.
    ///
    /// Fails where hearing does; what was heard is then not known.
    fn hear(&mut self, output: &W, chunk: &mut [u8]) -> Result<usize>
        requires answered { IfSome (heard self.old) (λ bytes. may_hear bytes (said output.now)) }
        requires patient { hearings self.old ≤ 2 ^ 62 }
        requires short { length chunk.old ≤ 65536 }
        ensures bound { ReadsAtMost result chunk.new }
        ensures bytes { ReadConsumes (remaining self.old) (remaining self.new) result chunk.new }
        ensures grows { IfOk result (λ count.
            heard self.new ≡ append_known (heard self.old) (take count chunk.new)) }
        ensures counts { IfOk result
            (λ count. counted self.new ≡ plus_known (counted self.old) count) }
        ensures count { hearings self.new ≤ hearings self.old + 1 }
        ensures deaf { OnErr result (is_deaf self.new) };

    /// Sends what was written, so that it is said. Fails where sending does; it was not all said
    /// then.
    fn send(&self, output: &mut W) -> Result<()>
        ensures bytes { Keeps (W.contents output.old) (W.contents output.new) }
        ensures sent { OnOk result (said output.new ≡ W.contents output.new) }
        ensures failed { OnErr result (W.has_failed output.new) };
}

impl<R: Read, W: Write> Conversation<W> for R {
    ghost remaining = { R.remaining };

    ghost heard = { λ _. None };

    ghost counted = { λ _. None };

    ghost hearings = { λ _. 0 };

    ghost is_deaf = { λ _. ⊤ };

    ghost said = { W.contents };

    ghost may_hear = { λ _ _. ⊤ };

    fn hear(&mut self, _output: &W, chunk: &mut [u8]) -> Result<usize> {
        self.read(chunk)
    }

    fn send(&self, output: &mut W) -> Result<()> {
        output.flush()
    }
}
