//! A file of which one write fails.
ghost use Rattle.std.specs.Prelude.{◌≡◌, ◌+◌, false};
ghost use Rattle.sqlite_disk.specs.Disk.{CountsFault};
ghost use Rattle.sqlite_disk.specs.Refusal.{finds_no_room};

use sqlite_disk::{Disk, Tally};
use std::io;

/// A disk that passes each call on to another, but for one write, which fails and writes nothing.
#[derive(Drop)]
pub struct Hiccup<D: Disk> {
    inner: D,
    // How many writes are passed on before that one, and none once it has failed.
    writes_left: Option<u64>,
    refused: u64,
}

impl<D: Disk> Hiccup<D> {
    /// So many writes are passed on, and the one after them fails.
    pub fn new(inner: D, writes: u64) -> Hiccup<D> {
        Hiccup {
            inner,
            writes_left: Some(writes),
            refused: 0,
        }
    }
}

// Counts a write, which fails where none was left.
fn spend(writes_left: &mut Option<u64>, refused: &mut u64) -> io::Result<()>
    ensures faults { CountsFault result refused.old refused.new }
    ensures kind { finds_no_room result ≡ false }
{
    match *writes_left {
        None => Ok(()),
        Some(0) => {
            *writes_left = None;
            *refused = refused.saturating_add(1);
            Err(io::Error::other("this write fails"))
        }
        Some(left) => {
            *writes_left = Some(left - 1);
            Ok(())
        }
    }
}

impl<D: Disk> Disk for Hiccup<D> {
    ghost seen = { λ h. D.Disk.seen h.inner };

    ghost may_leave = { λ h. D.Disk.may_leave h.inner };

    ghost is_usable = { λ h. D.Disk.is_usable h.inner };

    ghost faults = { λ h. D.Disk.faults h.inner + h.refused };

    ghost tally_of = { λ h. D.Disk.tally_of h.inner };

    ghost is_rotten = { λ h. D.Disk.is_rotten h.inner };

    ghost key_of = { λ h. D.Disk.key_of h.inner };

    ghost is_clean = { λ h. D.Disk.is_clean h.inner };

    ghost is_fair = { λ h. D.Disk.is_fair h.inner };

    ghost fair_if_clean = { λ h. D.Disk.fair_if_clean h.inner };

    ghost seen_may_stay = { λ h. D.Disk.seen_may_stay h.inner };

    ghost is_mixing = { λ h. D.Disk.is_mixing h.inner };

    fn mixes(&self) -> bool {
        self.inner.mixes()
    }

    fn key(&self) -> u64 {
        self.inner.key()
    }

    fn tally(&self) -> Tally {
        self.inner.tally()
    }

    fn may_be_used(&self) -> bool {
        self.inner.may_be_used()
    }

    fn len(&mut self) -> io::Result<usize> {
        self.inner.len()
    }

    fn read_at(&mut self, at: usize, buf: &mut [u8]) -> io::Result<()> {
        self.inner.read_at(at, buf)
    }

    fn read_checked(&mut self, key: u64, want: u64, at: usize, buf: &mut [u8]) -> io::Result<()> {
        self.inner.read_checked(key, want, at, buf)
    }

    fn write_at(&mut self, at: usize, bytes: &[u8]) -> io::Result<()> {
        spend(&mut self.writes_left, &mut self.refused)?;
        self.inner.write_at(at, bytes)
    }

    fn set_len(&mut self, len: usize) -> io::Result<()> {
        self.inner.set_len(len)
    }

    fn sync(&mut self) -> io::Result<()> {
        self.inner.sync()
    }
}
