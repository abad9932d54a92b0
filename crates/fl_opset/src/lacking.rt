//! What a window lacks, among operations that rise.
ghost use Rattle.std.specs.Prelude.{◌≡◌, ◌<◌, ◌≤◌, ◌++◌, OnOk, OnErr, length, take, drop};
ghost use Rattle.std.specs.List.{All, filter};
ghost use Rattle.std.specs.List.Sorted.{IsNonDecreasingBy};
ghost use Rattle.fl_opset.specs.Rank.{op_rank};
ghost use Rattle.fl_opset.specs.Windows.{is_lacking};

use crate::intervals::Intervals;
use crate::rank::{last_rank_of, rank};
use crate::spans::count_below;
use fl_ops::op::Op;
use std::alloc::AllocError;

// A place with none behind it that is below the rank, at most twice as far as the first of the
// others.
fn bound(ops: &[Op], low: u64) -> usize
    requires { IsNonDecreasingBy op_rank ops.now }
    ensures inside { result ≤ length ops.now }
    ensures above { All (λ op. low ≤ op_rank op) (drop result ops.now) }
{
    let mut bound = 1;
    while bound < ops.len() {
        if low <= rank(ops[bound].name) {
            return bound;
        }
        bound += bound.min(ops.len() - bound);
    }
    ops.len()
}

// The operations below a rank, and the others. A search in steps that double, so that it costs
// little where there are few below.
fn cut(ops: &[Op], low: u64) -> (&[Op], &[Op])
    requires { IsNonDecreasingBy op_rank ops.now }
    ensures whole { ops.now ≡ result.0.now ++ result.1.now }
    ensures below { All (λ op. op_rank op < low) result.0.now }
    ensures above { All (λ op. low ≤ op_rank op) result.1.now }
    ensures first { IsNonDecreasingBy op_rank result.0.now }
    ensures second { IsNonDecreasingBy op_rank result.1.now }
{
    let (near, _) = ops.split_at(bound(ops, low));
    ops.split_at(near.partition_point(|op| rank(op.name) < low))
}

// Adds operations to the end of a list, until that has as many as are wanted. Copies no other one.
// An error says that there was no memory for them, and comes only where one is to be added.
fn add_front(ops: &[Op], most: usize, list: &mut Vec<Op>) -> Result<(), AllocError>
    requires { length list.old.items ≤ most }
    ensures ok { OnOk result (list.new.items ≡ take most (list.old.items ++ ops.now)) }
    ensures wants { OnErr result
        (length list.old.items < length (take most (list.old.items ++ ops.now))) }
{
    let (front, _) = ops.split_at(ops.len().min(most - list.len()));
    list.extend_from_slice(front)
}

/// Adds those of the operations that the window lacks to the end of a list, until that has as many
/// as are wanted. A binary search finds the first span that may have one of them; from there on two
/// searches a span, each in steps that double from where the one before ended, until none is left
/// or the list is full, and then linear in what is added: no span behind the last one wanted is
/// looked at, and none is copied but what is wanted. An error says that there was no memory for it,
/// comes only where something is to be added, and may leave some of it added.
pub fn add_lacking(
    ops: &[Op],
    window: &Intervals,
    most: usize,
    lacking: &mut Vec<Op>,
) -> Result<(), AllocError>
    requires rise { IsNonDecreasingBy op_rank ops.now }
    requires few { length lacking.old.items ≤ most }
    ensures ok { OnOk result (lacking.new.items
        ≡ take most (lacking.old.items ++ filter (is_lacking window.now) ops.now)) }
    ensures wants { OnErr result (length lacking.old.items
        < length (take most (lacking.old.items ++ filter (is_lacking window.now) ops.now))) }
{
    let (_, above) = cut(ops, rank(window.from));
    let (mut rest, _) = cut(above, rank(window.to) + 1);
    let Some(first) = rest.first() else {
        return Ok(());
    };
    let spans = window.spans.as_slice();
    let passed = count_below(spans, rank(first.name));
    for span in &spans[passed..] {
        if rest.is_empty() || lacking.len() == most {
            return Ok(());
        }
        let (before, others) = cut(rest, rank(span.first));
        let (_, after) = cut(others, last_rank_of(span) + 1);
        add_front(before, most, lacking)?;
        rest = after;
    }
    add_front(rest, most, lacking)
}
