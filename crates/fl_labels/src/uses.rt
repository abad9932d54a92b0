//! The uses of groups among capabilities.
ghost use Rattle.std.specs.Prelude.{◌≡◌, ◌+◌, ◌<◌, ◌≤◌, IfOk, OnOk, true};
ghost use Rattle.std.specs.Vec.{vec_len, vec_capacity};
ghost use Rattle.std.specs.List.Sorted.{IsStrictlySortedBy};
ghost use Rattle.fl_labels.specs.Cap.{cap_cmp, is_use};
ghost use Rattle.fl_labels.specs.SetBy as set;
ghost use Rattle.fl_labels.specs.Uses.{AreUsesOf};
ghost use Rattle.fl_labels.specs.parts.Deque.{items, IsDeque};

use crate::cap::Cap;
use crate::deque::CapDeque;
use crate::roomy::put;
use std::alloc::{AllocError, Global};

// Those of these that are uses.
pub(crate) fn uses_of(alloc: Global, caps: &[Cap]) -> Result<Vec<Cap>, AllocError>
    requires { IsStrictlySortedBy cap_cmp caps.now }
    ensures { IfOk result (λ uses. AreUsesOf (set.of_list caps.now) uses.items) }
{
    caps.iter()
        .copied()
        .filter(|cap| cap.is_use())
        .collect(alloc)
}

// Makes room among the uses for a capability that is one.
pub(crate) fn make_room(uses: &mut CapDeque, cap: Cap) -> Result<(), AllocError>
    requires { IsDeque uses.old }
    ensures fits { IsDeque uses.new }
    ensures same { items uses.new ≡ items uses.old }
    ensures room { OnOk result
        (is_use cap ≡ true → vec_len uses.new.all < vec_capacity uses.new.all) }
{
    if cap.is_use() {
        uses.make_room(&[cap])?;
    }
    Ok(())
}

// Adds a capability that is a use, in the room that there is.
pub(crate) fn put_use(uses: &mut CapDeque, cap: Cap)
    requires fits { IsDeque uses.old }
    requires rises { IsStrictlySortedBy cap_cmp (items uses.old) }
    requires room { is_use cap ≡ true → vec_len uses.old.all < vec_capacity uses.old.all }
    ensures fits { IsDeque uses.new }
    ensures rises { IsStrictlySortedBy cap_cmp (items uses.new) }
    ensures uses { (s : set.SetBy cap_cmp) → AreUsesOf s (items uses.old)
        → AreUsesOf (set.insert s cap) (items uses.new) }
    ensures len { vec_len uses.new.all ≤ vec_len uses.old.all + 1 }
    ensures capacity { vec_capacity uses.new.all ≡ vec_capacity uses.old.all }
{
    if cap.is_use() {
        put(uses, cap);
    }
}

// Takes a capability out of the uses.
pub(crate) fn take_use(uses: &mut CapDeque, cap: Cap)
    requires fits { IsDeque uses.old }
    requires rises { IsStrictlySortedBy cap_cmp (items uses.old) }
    ensures fits { IsDeque uses.new }
    ensures rises { IsStrictlySortedBy cap_cmp (items uses.new) }
    ensures uses { (s : set.SetBy cap_cmp) → AreUsesOf s (items uses.old)
        → AreUsesOf (set.remove s cap) (items uses.new) }
    ensures room { set.contains (set.of_list {R = cap_cmp} (items uses.old)) cap ≡ true
        → vec_len uses.new.all < vec_capacity uses.new.all }
{
    if let Ok(place) = uses.as_slice().binary_search(&cap) {
        uses.remove(place);
    }
}
