//! Sets of capabilities with room for more.
ghost use Rattle.std.specs.Prelude.{◌≡◌, ◌∷◌, [], ◌+◌, ◌<◌, ◌≤◌, ◌||◌, length};
ghost use Rattle.std.specs.List.{list_any};
ghost use Rattle.std.specs.Ordering.{eq_by_cmp};
ghost use Rattle.std.specs.Vec.{vec_len, vec_capacity};
ghost use Rattle.std.specs.List.Sorted.{IsStrictlySortedBy};
ghost use Rattle.fl_labels.specs.Cap.{cap_cmp};
ghost use Rattle.fl_labels.specs.SetBy as set;
ghost use Rattle.fl_labels.specs.parts.Deque.{items, IsDeque};

use crate::cap::Cap;
use crate::cap_set::CapSet;
use crate::deque::CapDeque;
use crate::uses::put_use;
use std::marker::Model;

/// A set of capabilities with room for two more, made by `CapSet::with_room`.
#[derive(Debug, Drop)]
pub struct RoomyCapSet {
    pub(crate) caps: CapDeque,
    pub(crate) uses: CapDeque,
}

impl Model for RoomyCapSet {
    ghost use Rattle.std.specs.Prelude.{◌+◌, ◌≤◌};
    ghost use Rattle.std.specs.Vec.{vec_len, vec_capacity};
    ghost use Rattle.fl_labels.specs.SetBy as set;
    ghost use Rattle.fl_labels.specs.Cap.{cap_cmp};
    ghost use Rattle.fl_labels.specs.CapOrder.{coded_cap};
    ghost use Rattle.fl_labels.specs.parts.Apart.{AreApart};
    ghost use Rattle.fl_labels.specs.parts.Deque.{items};

    ghost Value = { set.SetBy cap_cmp };

    ghost coded = { set.code coded_cap };

    ghost view = { λ a. set.of_list (items a.caps) };

    ghost invariant = { λ a.
        AreApart a.caps a.uses × (vec_len a.caps.all + 2 ≤ vec_capacity a.caps.all)
        × (vec_len a.uses.all + 2 ≤ vec_capacity a.uses.all) };
}

// Adds a capability in the room that there is.
pub(crate) fn put(caps: &mut CapDeque, cap: Cap)
    requires fits { IsDeque caps.old }
    requires rises { IsStrictlySortedBy cap_cmp (items caps.old) }
    requires room { vec_len caps.old.all < vec_capacity caps.old.all }
    ensures fits { IsDeque caps.new }
    ensures rises { IsStrictlySortedBy cap_cmp (items caps.new) }
    ensures members { set.of_list {R = cap_cmp} (items caps.new)
        ≡ set.insert (set.of_list (items caps.old)) cap }
    ensures len { vec_len caps.new.all ≤ vec_len caps.old.all + 1 }
    ensures capacity { vec_capacity caps.new.all ≡ vec_capacity caps.old.all }
{
    if let Err(place) = caps.as_slice().binary_search(&cap) {
        caps.put(place, cap);
    }
}

// Adds each of some capabilities in the room that there is.
pub(crate) fn put_all(caps: &mut CapDeque, others: &[Cap])
    requires fits { IsDeque caps.old }
    requires rises { IsStrictlySortedBy cap_cmp (items caps.old) }
    requires room { vec_len caps.old.all + length others.now ≤ vec_capacity caps.old.all }
    ensures fits { IsDeque caps.new }
    ensures rises { IsStrictlySortedBy cap_cmp (items caps.new) }
    ensures members { (cap : Cap) → set.contains (set.of_list {R = cap_cmp} (items caps.new)) cap
        ≡ (set.contains (set.of_list {R = cap_cmp} (items caps.old)) cap
        || list_any (eq_by_cmp cap_cmp cap) others.now) }
{
    for cap in others {
        put(caps, *cap);
    }
}

impl RoomyCapSet {
    /// The members, rising.
    pub fn as_slice(&self) -> &[Cap]
        ensures { result.now ≡ set.members self.now }
    {
        self.caps.as_slice()
    }

    /// With both capabilities, in the room that is there: takes no memory. Moves the capabilities
    /// on one side of each.
    pub fn with_both(self, first: Cap, second: Cap) -> CapSet
        ensures { result ≡ set.insert_all self (first ∷ second ∷ []) }
    {
        let mut caps = self.caps;
        let mut uses = self.uses;
        put(&mut caps, second);
        put(&mut caps, first);
        put_use(&mut uses, second);
        put_use(&mut uses, first);
        CapSet { caps, uses }
    }

    /// The same set, whose room is no longer kept for anything.
    pub fn without_room(self) -> CapSet
        ensures { result ≡ self }
    {
        CapSet {
            caps: self.caps,
            uses: self.uses,
        }
    }
}
