//! What bytes are written to.
use std::io::{Result, Write};

/// What takes bytes, some at a time.
///
/// Any writer of std is one: there nothing is known of when it fails.
pub trait Writer {
    ghost use Rattle.std.specs.Prelude.{◌≡◌, ◌<◌, ℕ, List, Option, IfOk, OnErr, length};
    ghost use Rattle.std.specs.Io.{WritesAtMost};
    ghost use Rattle.std.specs.Io.KnownBytes.{WriteAppends};

    // The bytes that were written, where they are known.
    ghost contents: { Self → Option (List ℕ) };

    // To write failed, or it took no bytes where there were some, or to send on what was written
    // failed.
    ghost has_failed: { Self → Type 0 };

    /// Writes a front of the bytes, and says how many.
    fn write_some(&mut self, bytes: &[u8]) -> Result<usize>
        ensures bound { WritesAtMost result bytes.now }
        ensures bytes { WriteAppends (contents self.old) (contents self.new) result bytes.now }
        ensures none { IfOk result (λ n. n ≡ 0 → 0 < length bytes.now → has_failed self.new) }
        ensures failed { OnErr result (has_failed self.new) };
}

impl<W: Write> Writer for W {
    ghost use Rattle.std.specs.Prelude.{⊤};

    ghost contents = { W.contents };

    ghost has_failed = { λ _. ⊤ };

    fn write_some(&mut self, bytes: &[u8]) -> Result<usize> {
        self.write(bytes)
    }
}
