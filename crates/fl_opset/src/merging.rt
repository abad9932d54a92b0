//! Two lists of operations that rise, as one.
ghost use Rattle.std.specs.Prelude.{◌≡◌, ℕ, ◌≤◌, ◌<◌, ◌+◌, OnOk, OnErr, IfOk, IfSome, IfNone, true, false, length, vec_len, vec_capacity};
ghost use Rattle.std.specs.List.{All, insert_slice};
ghost use Rattle.std.specs.List.Sorted.{IsStrictlySortedBy};
ghost use Rattle.std.specs.Set.{sorted_merge};
ghost use Rattle.std.specs.declared.cmp.Ordering.TheVariants.{Less};
ghost use Rattle.fl_ops.specs.OpOrder.{op_cmp};
ghost use Rattle.fl_opset.specs.parts.Gap.{IsGap};

use crate::search::place_of;
use fl_ops::op::Op;
use std::alloc::{AllocError, Global};
use std::cmp::Ordering;

// Whether each of the first operations is below each of the second ones. One comparison.
fn all_below(left: &[Op], right: &[Op]) -> bool
    requires first { IsStrictlySortedBy op_cmp left.now }
    requires second { IsStrictlySortedBy op_cmp right.now }
    ensures below { result ≡ true → All (λ x. All (λ y. op_cmp x y ≡ Less) right.now) left.now }
    ensures not_below { result ≡ false
        → ¬ All (λ x. All (λ y. op_cmp x y ≡ Less) right.now) left.now }
{
    match (left.last(), right.first()) {
        (Some(last), Some(first)) => last < first,
        _ => true,
    }
}

/// The place in the first list at which all of the second one fit, if there is one. A binary
/// search, or one comparison where they fit at the end.
pub fn gap_for(left: &[Op], right: &[Op]) -> Option<usize>
    requires first { IsStrictlySortedBy op_cmp left.now }
    requires second { IsStrictlySortedBy op_cmp right.now }
    ensures some { IfSome result (λ place. IsGap left.now right.now place) }
    ensures none { IfNone result ((place : ℕ) → ¬ IsGap left.now right.now place) }
{
    let Some(first) = right.first() else {
        return Some(left.len());
    };
    let Err(place) = place_of(left, first) else {
        return None;
    };
    if all_below(right, &left[place..]) {
        Some(place)
    } else {
        None
    }
}

/// Copies operations in at a place. Those from there on move, once. An error says that there was
/// no memory for them, and leaves the list.
pub fn insert_at(ops: &mut Vec<Op>, place: usize, more: &[Op]) -> Result<(), AllocError>
    requires { place ≤ vec_len ops.old }
    ensures ok { OnOk result (ops.new.items ≡ insert_slice ops.old.items place more.now) }
    ensures err { OnErr result (ops.new.items ≡ ops.old.items) }
    ensures full { OnErr result (vec_capacity ops.old < vec_len ops.old + length more.now) }
{
    ops.extend_from_slice(more)?;
    ops[place..].rotate_right(more.len());
    Ok(())
}

/// The operations of both lists, which rise, in order; one that both have stands there once. One
/// walk over both, and one vector. An error says that there was no memory for it.
pub fn merged(alloc: Global, left: &[Op], right: &[Op]) -> Result<Vec<Op>, AllocError>
    ensures { IfOk result (λ ops. ops.items ≡ sorted_merge op_cmp true left.now right.now) }
{
    let mut ops = Vec::with_capacity(alloc, left.len() + right.len())?;
    let (mut i, mut j) = (0, 0);
    while i < left.len() && j < right.len() {
        let (x, y) = (left[i], right[j]);
        match x.cmp(&y) {
            Ordering::Less => {
                ops.push(x)?;
                i += 1;
            }
            Ordering::Equal => {
                ops.push(x)?;
                i += 1;
                j += 1;
            }
            Ordering::Greater => {
                ops.push(y)?;
                j += 1;
            }
        }
    }
    ops.extend_from_slice(&left[i..])?;
    ops.extend_from_slice(&right[j..])?;
    Ok(ops)
}
