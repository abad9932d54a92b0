//! Capabilities in one piece, to which more can come at either end.
ghost use Rattle.std.specs.Prelude.{◌≡◌, ◌∷◌, [], ◌++◌, ◌+◌, ◌<◌, ◌≤◌, length, drop, IfOk, OnOk};
ghost use Rattle.std.specs.List.{insert, remove};
ghost use Rattle.std.specs.Vec.{vec_len, vec_capacity};
ghost use Rattle.fl_labels.specs.parts.Deque.{items, IsDeque};

use crate::cap::Cap;
use std::alloc::{AllocError, Global};

// Among so few capabilities any place is near both ends.
const FEW: usize = 64;

/// Capabilities in one piece. There may be room before the first of them: places whose capabilities
/// do not count. So one that comes at the front moves none.
#[derive(Debug, Drop)]
pub struct CapDeque {
    pub(crate) all: Vec<Cap>,
    pub(crate) before: usize,
}

// The first capability goes, those behind it move to the front, and one comes behind them.
fn pass(caps: &mut [Cap], cap: Cap)
    requires { 0 < length caps.old }
    ensures { caps.new ≡ drop 1 caps.old ++ cap ∷ [] }
{
    caps[0] = cap;
    caps.rotate_left(1);
}

// The capabilities, and all of them once more.
fn twice(alloc: Global, caps: &[Cap]) -> Result<Vec<Cap>, AllocError>
    ensures { IfOk result (λ all. all.items ≡ caps.now ++ caps.now) }
{
    let wanted = caps.len().saturating_mul(2).saturating_add(FEW);
    let mut all = Vec::with_capacity(alloc, wanted)?;
    all.extend_from_slice(caps)?;
    all.extend_from_slice(caps)?;
    Ok(all)
}

impl CapDeque {
    /// Without a capability. Takes no memory.
    pub(crate) fn new(alloc: Global) -> Self
        ensures fits { IsDeque result }
        ensures items { items result ≡ [] }
    {
        CapDeque::from_vec(Vec::new(alloc))
    }

    /// Of these capabilities.
    pub(crate) fn from_vec(caps: Vec<Cap>) -> Self
        ensures fits { IsDeque result }
        ensures items { items result ≡ caps.items }
    {
        CapDeque {
            all: caps,
            before: 0,
        }
    }

    /// The capabilities.
    pub(crate) fn as_slice(&self) -> &[Cap]
        requires { IsDeque self.now }
        ensures { result.now ≡ items self.now }
    {
        &self.all[self.before..]
    }

    /// Room for so many more. Fails only where there is not enough memory.
    pub(crate) fn reserve(&mut self, more: usize) -> Result<(), AllocError>
        requires { IsDeque self.old }
        ensures fits { IsDeque self.new }
        ensures items { items self.new ≡ items self.old }
        ensures room { OnOk result (vec_len self.new.all + more ≤ vec_capacity self.new.all) }
    {
        self.all.reserve(more)
    }

    // Makes as much room before many capabilities as they take, where there is none and there is
    // memory for it.
    fn widen(&mut self)
        requires { IsDeque self.old }
        ensures fits { IsDeque self.new }
        ensures items { items self.new ≡ items self.old }
    {
        if self.before > 0 || self.all.len() < FEW {
            return;
        }
        if let Ok(all) = twice(*self.all.allocator(), &self.all) {
            self.before = self.all.len();
            self.all = all;
        }
    }

    /// Room for these, which rise: before the first capability too, where the least of these is
    /// below it. Fails only where there is not enough memory.
    pub(crate) fn make_room(&mut self, more: &[Cap]) -> Result<(), AllocError>
        requires { IsDeque self.old }
        ensures fits { IsDeque self.new }
        ensures items { items self.new ≡ items self.old }
        ensures room { OnOk result
            (vec_len self.new.all + length more.now ≤ vec_capacity self.new.all) }
    {
        if let (Some(least), Some(first)) = (more.first(), self.as_slice().first()) {
            if least < first {
                self.widen();
            }
        }
        self.reserve(more.len())
    }

    /// Puts a capability at a place, in the room that there is. Those on the side of that place on
    /// which fewer stand move, if there is room.
    pub(crate) fn put(&mut self, place: usize, cap: Cap)
        requires fits { IsDeque self.old }
        requires place { place ≤ length (items self.old) }
        requires room { vec_len self.old.all < vec_capacity self.old.all }
        ensures fits { IsDeque self.new }
        ensures items { items self.new ≡ insert (items self.old) place cap }
        ensures len { vec_len self.new.all ≤ vec_len self.old.all + 1 }
        ensures capacity { vec_capacity self.new.all ≡ vec_capacity self.old.all }
    {
        let end = self.before + place;
        if self.before > 0 && place < self.all.len() - end {
            self.before -= 1;
            pass(&mut self.all[self.before..end], cap);
            return;
        }
        let Ok(()) = self.all.insert(end, cap) else {
            unreachable!("there is room");
        };
    }

    /// Takes out the capability at a place. Those above it move.
    pub(crate) fn remove(&mut self, place: usize)
        requires fits { IsDeque self.old }
        requires place { place < length (items self.old) }
        ensures fits { IsDeque self.new }
        ensures items { items self.new ≡ remove (items self.old) place }
        ensures room { vec_len self.new.all < vec_capacity self.new.all }
    {
        self.all.remove(self.before + place);
    }
}
