//! Laws of orders, of sets, and of what texts are read as.
ghost use Rattle.std.specs.Prelude.{◌≡◌, ◌↔◌, ℕ, List, length, not, false, ◌&&◌, ◌||◌, IsTrue};
ghost use Rattle.std.specs.FinSet.{IsAntisymmetric};
ghost use Rattle.std.specs.List.{list_any};
ghost use Rattle.std.specs.List.Sorted.{IsStrictlySortedBy};
ghost use Rattle.std.specs.Ordering.{eq_by_cmp};
ghost use Rattle.std.specs.declared.cmp.Ordering.TheVariants.{Equal};
ghost use Rattle.fl_labels.specs.declared.name.Name.{Name};
ghost use Rattle.fl_labels.specs.declared.cap.Cap.{Cap};
ghost use Rattle.fl_labels.specs.declared.pid.Pid.{Pid};
ghost use Rattle.fl_labels.specs.declared.endpoint.Endpoint.{Endpoint};
ghost use Rattle.fl_labels.specs.Name.{name_cmp};
ghost use Rattle.fl_labels.specs.Cap.{cap_cmp};
ghost use Rattle.fl_labels.specs.SetBy as set;
ghost use Rattle.fl_labels.specs.SetBy.{SetBy, In, SameMembers};
ghost use Rattle.fl_labels.specs.Text.{name_text, cap_text, pid_text, endpoint_text, label_text, caps_text};
ghost use Rattle.fl_labels.specs.Words.{IsNumber, IsListing};

use crate::cap::Cap;
use crate::cap_set::CapSet;
use crate::endpoint::Endpoint;
use crate::label::Label;
use crate::name::Name;
use crate::pid::Pid;

/// Only equal names, capabilities, process identifiers and endpoints tie in their order.
pub fn law_order()
    ensures names { (a b : Name) → (⟦<Name as Ord>⟧.cmp a b ≡ Equal) ↔ (a ≡ b) }
    ensures caps { (a b : Cap) → (⟦<Cap as Ord>⟧.cmp a b ≡ Equal) ↔ (a ≡ b) }
    ensures pids { (a b : Pid) → (⟦<Pid as Ord>⟧.cmp a b ≡ Equal) ↔ (a ≡ b) }
    ensures endpoints { (a b : Endpoint) → (⟦<Endpoint as Ord>⟧.cmp a b ≡ Equal) ↔ (a ≡ b) }
{}

/// What `==` takes for equal is equal.
pub fn law_equality()
    ensures names { (a b : Name) → IsTrue (⟦<Name as PartialEq>⟧.eq a b) ↔ (a ≡ b) }
    ensures caps { (a b : Cap) → IsTrue (⟦<Cap as PartialEq>⟧.eq a b) ↔ (a ≡ b) }
    ensures pids { (a b : Pid) → IsTrue (⟦<Pid as PartialEq>⟧.eq a b) ↔ (a ≡ b) }
    ensures endpoints { (a b : Endpoint) → IsTrue (⟦<Endpoint as PartialEq>⟧.eq a b) ↔ (a ≡ b) }
    ensures labels { (s t : SetBy name_cmp) → IsTrue (⟦<Label as PartialEq>⟧.eq s t) ↔ (s ≡ t) }
    ensures cap_sets { (s t : SetBy cap_cmp) → IsTrue (⟦<CapSet as PartialEq>⟧.eq s t) ↔ (s ≡ t) }
{}

/// What a set holds after each change; its members rise; and where only equal items tie, two sets
/// with the same members are equal.
pub fn law_set<T: Ord>()
    ensures empty { (q : T) → set.contains (set.empty {R = T.cmp}) q ≡ false }
    ensures insert { (s : SetBy T.cmp) (k q : T)
        → set.contains (set.insert s k) q ≡ (eq_by_cmp T.cmp q k || set.contains s q) }
    ensures remove { (s : SetBy T.cmp) (k q : T)
        → set.contains (set.remove s k) q ≡ (not (eq_by_cmp T.cmp q k) && set.contains s q) }
    ensures union { (s t : SetBy T.cmp) (q : T)
        → set.contains (set.union s t) q ≡ (set.contains s q || set.contains t q) }
    ensures list { (items : List T) (q : T)
        → set.contains (set.of_list {R = T.cmp} items) q ≡ list_any (eq_by_cmp T.cmp q) items }
    ensures members { (s : SetBy T.cmp) (q : T)
        → set.contains s q ≡ list_any (eq_by_cmp T.cmp q) (set.members s) }
    ensures rise { (s : SetBy T.cmp) → IsStrictlySortedBy T.cmp (set.members s) }
    ensures count { (s : SetBy T.cmp) → set.len s ≡ length (set.members s) }
    ensures same { IsAntisymmetric T.cmp → (s t : SetBy T.cmp) → SameMembers s t → s ≡ t }
{}

/// A text spells one value at most.
pub fn law_one_reading()
    ensures numbers { (m n : ℕ) (word : List ℕ) → IsNumber m word → IsNumber n word → m ≡ n }
    ensures names { (m n : Name) → name_text m ≡ name_text n → m ≡ n }
    ensures caps { (c d : Cap) → cap_text c ≡ cap_text d → c ≡ d }
    ensures pids { (p q : Pid) → pid_text p ≡ pid_text q → p ≡ q }
    ensures endpoints { (d e : Endpoint) → endpoint_text d ≡ endpoint_text e → d ≡ e }
    ensures labels { (s t : SetBy name_cmp) (text : List ℕ)
        → IsListing name_text s text → IsListing name_text t text → s ≡ t }
    ensures cap_sets { (s t : SetBy cap_cmp) (text : List ℕ)
        → IsListing cap_text s text → IsListing cap_text t text → s ≡ t }
{}

/// What is written of a set lists its members, so that it is read as the set again.
pub fn law_own_listing()
    ensures labels { (s : SetBy name_cmp) → IsListing name_text s (label_text s) }
    ensures cap_sets { (s : SetBy cap_cmp) → IsListing cap_text s (caps_text s) }
{}
