//! Spans that rise, cut into windows over all names.
ghost use Rattle.std.specs.Prelude.{◌≡◌, ◌≤◌, ◌<◌, true, length, IfOk};
ghost use Rattle.fl_opset.specs.Rank.{name_rank, last_rank, least_rank, greatest_rank};
ghost use Rattle.fl_opset.specs.Spans.{fit};
ghost use Rattle.fl_opset.specs.Windows.{IsLeastName, IsGreatestName, IsNextName, IsCutInto};

use crate::intervals::{Intervals, MOST_SPANS, Spans};
use crate::span::Span;
use fl_labels::name::Name;
use std::alloc::{AllocError, Global};

// The first name of all.
fn least_name() -> Name
    ensures { IsLeastName result }
{
    Name { node: 1, seq: 1 }
}

// The last name of all.
fn greatest_name() -> Name
    ensures { IsGreatestName result }
{
    Name {
        node: u32::MAX,
        seq: u32::MAX,
    }
}

// The last name of a span.
fn last_name(span: &Span) -> Name
    ensures { name_rank result ≡ last_rank span.now }
{
    Name {
        node: span.first.node,
        seq: span.last,
    }
}

// The name after this one: the next of its node, or the first of the next node.
fn next_name(name: Name) -> Name
    requires { name_rank name < greatest_rank }
    ensures { IsNextName name result }
{
    if name.seq < u32::MAX {
        Name {
            node: name.node,
            seq: name.seq + 1,
        }
    } else {
        Name {
            node: name.node + 1,
            seq: 1,
        }
    }
}

// The window of these names and spans, which are copied.
fn window_of(alloc: Global, from: Name, to: Name, spans: &[Span]) -> Result<Intervals, AllocError>
    requires ordered { name_rank from ≤ name_rank to }
    requires few { length spans.now ≤ 512 }
    requires fitting { fit (name_rank from) (name_rank to) spans.now ≡ true }
    ensures { IfOk result (λ w. (w.from ≡ from) × (w.to ≡ to) × (w.spans ≡ spans.now)) }
{
    let spans = Spans::from_vec(Vec::from_slice(alloc, spans)?);
    Ok(Intervals { from, to, spans })
}

/// The windows of these spans. One walk.
pub fn windows_of(alloc: Global, spans: &[Span]) -> Result<Vec<Intervals>, AllocError>
    requires { fit least_rank greatest_rank spans.now ≡ true }
    ensures { IfOk result (λ windows. IsCutInto spans.now windows.items) }
{
    let mut windows = Vec::new(alloc);
    let mut from = least_name();
    let mut rest = spans;
    while rest.len() > MOST_SPANS {
        let (front, back) = rest.split_at(MOST_SPANS);
        let to = last_name(&front[MOST_SPANS - 1]);
        windows.push(window_of(alloc, from, to, front)?)?;
        from = next_name(to);
        rest = back;
    }
    windows.push(window_of(alloc, from, greatest_name(), rest)?)?;
    Ok(windows)
}
