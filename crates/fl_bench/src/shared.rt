//! Sets of capabilities with more than one holder.
ghost use Rattle.std.specs.Prelude.{◌≡◌, IfOk};
ghost use Rattle.fl_labels.specs.SetBy as set;
ghost use Rattle.fl_bench.specs.parts.Changes.{after};

use crate::change::Change;
use crate::history::History;
use fl_labels::cap::Cap;
use fl_labels::cap_set::CapSet;
use std::alloc::{AllocError, Global};
use std::marker::Model;
use std::sync::{Arc, ArcSlice};

// What is kept of a set, so that one that never changed takes no more than its members.
#[derive(Drop)]
enum Kept {
    // of a set with no members, which then takes no memory
    Nothing,
    // the only member of one that has not changed since then, which takes no memory either
    One(Cap),
    // what it was made of, where it has not changed since then
    Once(ArcSlice<Cap>),
    // what it was at first, and its changes
    Since(Arc<History>),
}

/// A set of capabilities that stays as it is, of which another holder costs no copy.
#[derive(Drop)]
pub struct SharedCaps {
    kept: Kept,
}

impl Model for SharedCaps {
    ghost use Rattle.fl_labels.specs.SetBy as set;
    ghost use Rattle.fl_labels.specs.Cap.{cap_cmp};
    ghost use Rattle.fl_labels.specs.CapOrder.{coded_cap};

    ghost Value = { set.SetBy cap_cmp };

    ghost coded = { set.code coded_cap };

    ghost use Rattle.fl_bench.specs.parts.Kept.{kept_set};

    ghost view = { λ a. kept_set a.kept };
}

impl SharedCaps {
    // The set of these capabilities, with one holder. Fails only where there is not enough memory.
    // A set of one member at most takes none. Others copy the capabilities.
    pub(crate) fn new(alloc: Global, caps: &[Cap]) -> Result<Self, AllocError>
        ensures { IfOk result (λ made. made ≡ set.of_list caps.now) }
    {
        let kept = match caps {
            [] => Kept::Nothing,
            [cap] => Kept::One(*cap),
            _ => Kept::Once(ArcSlice::from_slice(alloc, caps)?),
        };
        Ok(SharedCaps { kept })
    }

    // The set as a history of its own, so that changes can be added. Fails only where there is not
    // enough memory. Costs what `History::copy` does at most.
    fn history(&self, alloc: Global) -> Result<History, AllocError>
        ensures { IfOk result (λ made. made ≡ self.now) }
    {
        match &self.kept {
            Kept::Nothing => Ok(History::begun_with(alloc, ArcSlice::from_slice(alloc, &[])?)),
            Kept::One(cap) => Ok(History::begun_with(alloc, ArcSlice::from_slice(alloc, &[*cap])?)),
            Kept::Once(caps) => Ok(History::begun_with(alloc, caps.clone()?)),
            Kept::Since(history) => history.copy(),
        }
    }

    // The set after these changes, with one holder. Fails only where there is not enough memory.
    // Costs what `History::copy` does, and a copy of the changes.
    pub(crate) fn changed_by(&self, alloc: Global, changes: &[Change]) -> Result<Self, AllocError>
        ensures { IfOk result (λ made. made ≡ after self.now changes.now) }
    {
        let mut history = self.history(alloc)?;
        history.add(alloc, ArcSlice::from_slice(alloc, changes)?)?;
        Ok(SharedCaps {
            kept: Kept::Since(Arc::new(alloc, history)?),
        })
    }

    /// The same set for one more holder, without a copy of it. Fails only where there are too many
    /// holders.
    pub fn copy(&self) -> Result<Self, AllocError>
        ensures { IfOk result (λ made. made ≡ self.now) }
    {
        let kept = match &self.kept {
            Kept::Nothing => Kept::Nothing,
            Kept::One(cap) => Kept::One(*cap),
            Kept::Once(caps) => Kept::Once(caps.clone()?),
            Kept::Since(history) => Kept::Since(Arc::try_clone(history)?),
        };
        Ok(SharedCaps { kept })
    }

    /// The set itself, made anew from what is kept. Fails only where there is not enough memory.
    pub fn to_set(&self, alloc: Global) -> Result<CapSet, AllocError>
        ensures { IfOk result (λ made. made ≡ self.now) }
    {
        match &self.kept {
            Kept::Nothing => Ok(CapSet::new(alloc)),
            Kept::One(cap) => CapSet::from_vec(Vec::from_slice(alloc, &[*cap])?),
            Kept::Once(caps) => CapSet::from_vec(Vec::from_slice(alloc, caps.as_slice())?),
            Kept::Since(history) => history.to_set(alloc),
        }
    }
}
