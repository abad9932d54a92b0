//! What one desk sees of a list of operations.
ghost use Rattle.std.specs.Prelude.{◌≡◌, ◌<◌, ◌≤◌, length, take, max, IfOk, OnOk, OnErr};
ghost use Rattle.fl_labels.specs.SetBy as set;

use fl_cache::cached::CachedIndex;
use fl_closure::absorbed::Absorbed;
use fl_labels::cap::Cap;
use fl_labels::cap_set::CapSet;
use fl_labels::name::Name;
use fl_ops::digest::Digest;
use fl_ops::op::Op;
use fl_ops::view::View;
use std::alloc::{AllocError, Global};

/// A desk: how many operations of a list it has seen, from the first one on, and what follows from
/// these. It keeps none of them but the logins.
pub struct Desk {
    index: CachedIndex,
    list: Absorbed,
    seen: u64,
    ghost counted: { seen ≡ length list },
    ghost indexed: { index ≡ set.of_list list },
}

impl Drop for Desk {
    fn drop(self) {
        let Desk {
            index: _,
            list: _,
            seen: _,
        } = self;
    }
}

impl Desk {
    /// A desk that sees the whole list. Absorbs it. Fails only where there is not enough memory.
    pub fn new(alloc: Global, list: &[Op]) -> Result<Desk, AllocError>
        ensures { IfOk result (λ desk. (desk.seen ≡ length list.now) × (desk.list ≡ list.now)) }
    {
        let mut index = CachedIndex::new(alloc);
        index.absorb_all(alloc, list)?;
        let mut seen = Absorbed::new();
        seen.add_all(list);
        Ok(Desk {
            index,
            list: seen,
            seen: list.len() as u64,
        })
    }

    /// Sees as many operations of the list, if it has not. Fails only where it is to see more and
    /// there is not enough memory, and then leaves the desk. Absorbs what it had not seen.
    pub(crate) fn rise(&mut self, alloc: Global, list: &[Op], count: u64) -> Result<(), AllocError>
        requires seen { self.old.seen ≤ length list.now }
        requires front { self.old.list ≡ take self.old.seen list.now }
        requires within { count ≤ length list.now }
        ensures seen { OnOk result (self.new.seen ≡ max self.old.seen count) }
        ensures inside { OnOk result (self.new.seen ≤ length list.now) }
        ensures front { OnOk result (self.new.list ≡ take self.new.seen list.now) }
        ensures err { OnErr result (self.new ≡ self.old) }
        ensures wants { OnErr result (self.old.seen < count) }
    {
        if count <= self.seen {
            return Ok(());
        }
        let more = &list[self.seen as usize..count as usize];
        self.index.absorb_all(alloc, more)?;
        self.list.add_all(more);
        self.seen = count;
        Ok(())
    }
}

impl View for Desk {
    ghost list = { λ d. d.list };

    fn seen(&self) -> u64 {
        self.seen
    }

    fn effective(&mut self, owned: &CapSet, cap: Cap) -> bool {
        self.index.effective(owned, cap)
    }

    fn reaches(&mut self, root: Cap, cap: Cap) -> bool {
        self.index.reaches(root, cap)
    }

    fn login(&mut self, name: Name) -> Option<(Cap, Digest)> {
        self.index.index().login(name)
    }
}
