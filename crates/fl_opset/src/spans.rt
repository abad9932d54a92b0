//! The spans of names that come and go.
ghost use Rattle.std.specs.Prelude.{◌≡◌, ◌≤◌, ◌<◌, ◌+◌, OnOk, OnErr, true, false, length, take, drop, vec_len, vec_capacity};
ghost use Rattle.std.specs.List.{All};
ghost use Rattle.fl_opset.specs.Rank.{name_rank, last_rank, least_rank, greatest_rank};
ghost use Rattle.fl_opset.specs.Spans.{fit};
ghost use Rattle.fl_opset.specs.parts.Kept.{ChangeAt, AddNames};

use crate::rank::{last_rank_of, rank};
use crate::span::Span;
use fl_labels::name::Name;
use fl_ops::op::Op;
use std::alloc::AllocError;

// The name alone.
fn lone(name: Name) -> Span
    ensures first { result.first ≡ name }
    ensures last { last_rank result ≡ name_rank name }
{
    Span {
        first: name,
        last: name.seq,
    }
}

// From the first name of one span to the last of another one of its node.
fn joined(span: Span, next: Span) -> Span
    requires node { span.first.node ≡ next.first.node }
    requires rise { name_rank span.first ≤ last_rank next }
    ensures first { result.first ≡ span.first }
    ensures last { last_rank result ≡ last_rank next }
{
    Span {
        first: span.first,
        last: next.last,
    }
}

/// How many of the spans end below a rank. The last span is asked first, since most names come at
/// the end; else a binary search.
pub fn count_below(spans: &[Span], low: u64) -> usize
    requires { fit least_rank greatest_rank spans.now ≡ true }
    ensures bound { result ≤ length spans.now }
    ensures below { All (λ s. last_rank s < low) (take result spans.now) }
    ensures above { All (λ s. low ≤ last_rank s) (drop result spans.now) }
{
    let count = spans.len();
    if count > 0 {
        let last = spans[count - 1];
        if last_rank_of(&last) < low {
            return count;
        }
        if rank(last.first) <= low {
            return count - 1;
        }
    }
    spans.partition_point(|span| last_rank_of(span) < low)
}

/// Adds a name to the spans: one of them grows, two are joined, or there is one more. A binary
/// search, and where there is one more or one less, those above it move. An error says that there
/// was no memory for one more, and leaves them.
pub fn add_name(spans: &mut Vec<Span>, name: Name) -> Result<(), AllocError>
    requires { fit least_rank greatest_rank spans.old.items ≡ true }
    ensures ok { OnOk result (ChangeAt (name_rank name) true spans.old.items spans.new.items) }
    ensures err { OnErr result (spans.new.items ≡ spans.old.items) }
    ensures full { OnErr result (vec_capacity spans.old ≤ vec_len spans.old) }
{
    let at = rank(name);
    let place = count_below(spans, at - 1);
    if place == spans.len() || at + 1 < rank(spans[place].first) {
        spans.insert(place, lone(name))?;
        return Ok(());
    }
    let span = spans[place];
    if at < rank(span.first) {
        spans[place] = joined(lone(name), span);
        return Ok(());
    }
    if at <= last_rank_of(&span) {
        return Ok(());
    }
    if place + 1 < spans.len() {
        let next = spans[place + 1];
        if rank(next.first) == at + 1 {
            spans.remove(place + 1);
            spans[place] = joined(span, next);
            return Ok(());
        }
    }
    spans[place] = joined(span, lone(name));
    Ok(())
}

/// Adds the names of operations, each as [`add_name`] does. An error says that there was no memory
/// for them, and may leave some of them added.
pub fn add_names(spans: &mut Vec<Span>, ops: &[Op]) -> Result<(), AllocError>
    requires { fit least_rank greatest_rank spans.old.items ≡ true }
    ensures ok { OnOk result (AddNames ops.now spans.old.items spans.new.items) }
    ensures fits { fit least_rank greatest_rank spans.new.items ≡ true }
{
    for op in ops {
        add_name(spans, op.name)?;
    }
    Ok(())
}

// How many spans end at or above the first of the operations' names.
fn count_above(spans: &[Span], ops: &[Op]) -> usize
    requires { fit least_rank greatest_rank spans.now ≡ true }
    ensures { result ≤ length spans.now }
{
    match ops.first() {
        Some(op) => spans.len() - count_below(spans, rank(op.name)),
        None => 0,
    }
}

/// Adds the names of operations that rise, as [`add_names`] does, unless that could move more than
/// so many spans in all. Answers how many of these are left. An error says that some names are not
/// added: for that, or for want of memory.
pub fn add_near_names(spans: &mut Vec<Span>, ops: &[Op], most: usize) -> Result<usize, AllocError>
    requires { fit least_rank greatest_rank spans.old.items ≡ true }
    ensures ok { OnOk result (AddNames ops.now spans.old.items spans.new.items) }
    ensures fits { fit least_rank greatest_rank spans.new.items ≡ true }
{
    let moves = count_above(spans, ops).saturating_mul(ops.len());
    let Some(left) = most.checked_sub(moves) else {
        return Err(AllocError);
    };
    add_names(spans, ops)?;
    Ok(left)
}

// The names of a span below one of them.
fn before(span: Span, name: Name) -> Span
    requires node { span.first.node ≡ name.node }
    requires rise { name_rank span.first < name_rank name }
    ensures first { result.first ≡ span.first }
    ensures last { last_rank result + 1 ≡ name_rank name }
{
    Span {
        first: span.first,
        last: name.seq - 1,
    }
}

// The names of a span above one of them.
fn after(span: Span, name: Name) -> Span
    requires node { span.first.node ≡ name.node }
    requires rise { name_rank name < last_rank span }
    ensures first { name_rank result.first ≡ name_rank name + 1 }
    ensures last { last_rank result ≡ last_rank span }
{
    Span {
        first: Name {
            node: name.node,
            seq: name.seq + 1,
        },
        last: span.last,
    }
}

/// Takes a name out of the spans: one of them shrinks, goes, or becomes two. Takes no memory: an
/// error says that there was no room for one more, and leaves them. A binary search, and where
/// there is one more or one less, those above it move.
pub fn remove_name(spans: &mut Vec<Span>, name: Name) -> Result<(), AllocError>
    requires { fit least_rank greatest_rank spans.old.items ≡ true }
    ensures ok { OnOk result (ChangeAt (name_rank name) false spans.old.items spans.new.items) }
    ensures err { OnErr result (spans.new.items ≡ spans.old.items) }
    ensures full { OnErr result (vec_capacity spans.old ≤ vec_len spans.old) }
{
    let at = rank(name);
    let place = count_below(spans, at);
    if place == spans.len() || at < rank(spans[place].first) {
        return Ok(());
    }
    let span = spans[place];
    let begins = rank(span.first) == at;
    let ends = last_rank_of(&span) == at;
    if begins && ends {
        spans.remove(place);
        return Ok(());
    }
    if begins {
        spans[place] = after(span, name);
        return Ok(());
    }
    if ends {
        spans[place] = before(span, name);
        return Ok(());
    }
    if spans.len() == spans.capacity() {
        return Err(AllocError);
    }
    spans.insert(place + 1, after(span, name))?;
    spans[place] = before(span, name);
    Ok(())
}
