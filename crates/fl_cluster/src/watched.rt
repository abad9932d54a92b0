//! A reader that is watched: its reads and its bytes are counted, and a script that is too long is
//! told from a read that failed.
ghost use Rattle.std.specs.Prelude.{◌≡◌, ◌+◌, ◌*◌, ◌^◌, ◌≤◌, None, Some, OnErr, OnOk, IfOk, false, true, ⊤};

use fl_stream::conversation::Conversation;
use std::io::{Read, Result, Write};

/// A reader, how often it was read, how many bytes it gave, and whether a read of it failed.
#[derive(Drop)]
pub struct Watched<R> {
    reader: R,
    hearings: u64,
    heard: u128,
    has_failed: bool,
    ghost few: { hearings ≤ 2 ^ 62 + 1 },
    ghost most: { heard ≤ 65536 * hearings },
}

impl<R> Watched<R> {
    /// A reader that was not read yet.
    pub fn new(reader: R) -> Watched<R>
        ensures unread { result.hearings ≡ 0 }
        ensures fresh { result.has_failed ≡ false }
        ensures none { result.heard ≡ 0 }
    {
        Watched {
            reader,
            hearings: 0,
            heard: 0,
            has_failed: false,
        }
    }

    /// Whether some read failed.
    pub fn has_failed(&self) -> bool
        ensures { result ≡ self.now.has_failed }
    {
        self.has_failed
    }
}

/// What is written is said by a flush. What was read is not kept, but counted.
impl<R: Read, W: Write> Conversation<W> for Watched<R> {
    ghost remaining = { λ it. R.remaining it.reader };

    ghost heard = { λ _. None };

    ghost counted = { λ it. Some it.heard };

    ghost hearings = { λ it. it.hearings };

    ghost is_deaf = { λ it. it.has_failed ≡ true };

    ghost said = { W.contents };

    ghost may_hear = { λ _ _. ⊤ };

    fn hear(&mut self, _output: &W, chunk: &mut [u8]) -> Result<usize> {
        self.hearings += 1;
        let read = self.reader.read(chunk);
        match &read {
            Ok(count) => self.heard += *count as u128,
            Err(_) => self.has_failed = true,
        }
        read
    }

    fn send(&self, output: &mut W) -> Result<()> {
        output.flush()
    }
}
