//! What two sets of operations have against each other.
ghost use Rattle.std.specs.Prelude.{◌≡◌, Bool, true, ◌||◌};
ghost use Rattle.std.specs.List.Sorted.{IsStrictlySortedBy};
ghost use Rattle.fl_labels.specs.SetBy.{In};
ghost use Rattle.fl_labels.specs.declared.name.Name.{Name};
ghost use Rattle.fl_ops.specs.OpOrder.{op_cmp};
ghost use Rattle.fl_ops.specs.Registry.{Listed};
ghost use Rattle.fl_gossip.specs.Meeting.{FindsLeast, IsClashOf, IsStrayOf, lesser_of};

use crate::ahead::{begins_with, from_name, has_other};
use fl_labels::name::{Name, NodeNumber};
use fl_ops::op::Op;
use fl_opset::set::OpSet;

// The least name of an operation that clashes with one of the others, or none. Goes through the
// others with them, by a search for each, in steps that double from where the one before ended.
fn first_clash(ops: &[Op], others: &[Op]) -> Option<Name>
    requires ops { IsStrictlySortedBy op_cmp ops.now }
    requires others { IsStrictlySortedBy op_cmp others.now }
    ensures { FindsLeast (IsClashOf (Listed ops.now) (Listed others.now)) result }
{
    let mut rest = others;
    for op in ops {
        rest = from_name(rest, op.name);
        if begins_with(rest, op.name) && has_other(rest, op) {
            return Some(op.name);
        }
    }
    None
}

// The least name under which one of ours and one of theirs differ, or none. A search for each of
// the fewer ones.
fn clash_between(ours: &[Op], theirs: &[Op]) -> Option<Name>
    requires ours { IsStrictlySortedBy op_cmp ours.now }
    requires theirs { IsStrictlySortedBy op_cmp theirs.now }
    ensures { FindsLeast (IsClashOf (Listed ours.now) (Listed theirs.now)) result }
{
    if ours.len() <= theirs.len() {
        first_clash(ours, theirs)
    } else {
        first_clash(theirs, ours)
    }
}

/// The least name under which an operation of the one set and one of the other differ, or none
/// where there is no such name. Several operations of a set may have one name. For each node of
/// ours, up to that name, a search for each operation of the set that has fewer of that node's.
pub fn least_clash(ours: &OpSet, theirs: &OpSet) -> Option<Name>
    ensures { FindsLeast (IsClashOf (In ours.now) (In theirs.now)) result }
{
    for entry in ours.by_node() {
        let clash = clash_between(entry.ops(), theirs.of_node(entry.node()));
        if let Some(name) = clash {
            return Some(name);
        }
    }
    None
}

/// The least name of an operation whose name has this number, which the one set has and the other,
/// its owner's, has not; or none where there is no such operation. A search in the owner's set for
/// each operation of that number, up to that name.
pub fn least_stray(there: &OpSet, owner: &OpSet, number: NodeNumber) -> Option<Name>
    ensures { FindsLeast (IsStrayOf (In there.now) (In owner.now) number) result }
{
    let ops = there.of_node(number);
    for op in ops {
        if !owner.contains(op) {
            return Some(op.name);
        }
    }
    None
}

/// The lesser of two names, or the one that is there. Of the least names of which two tests hold,
/// it is the least of which one of them holds.
pub fn lesser(a: Option<Name>, b: Option<Name>) -> Option<Name>
    ensures value { result ≡ lesser_of a b }
    ensures least { (p q : Name → Bool)
        → FindsLeast (λ n. p n ≡ true) a → FindsLeast (λ n. q n ≡ true) b
        → FindsLeast (λ n. (p n || q n) ≡ true) result }
{
    match (a, b) {
        (Some(m), Some(n)) => Some(m.min(n)),
        (found, None) => found,
        (None, found) => found,
    }
}
