//! Windows from bytes.
ghost use Rattle.std.specs.Prelude.{◌≡◌, ◌<◌, ◌≤◌, ◌^◌, MatchResult, drop, None};
ghost use Rattle.fl_ops.specs.Grammar.{first_fault};
ghost use Rattle.fl_wire.specs.Faults.{IsBad, IsBadOrMemory, IsBadOrMemoryAfter};
ghost use Rattle.fl_wire.specs.PacketBytes.{intervals_bytes};
ghost use Rattle.fl_wire.specs.PacketFits.{HasWindow};
ghost use Rattle.fl_wire.specs.PacketGrammar.{span_fields, spans_fields, window_head, window_kept, window_fields};
ghost use Rattle.fl_wire.specs.parts.SpansRead.{IsSpanAt, AreSpansAt};

use crate::fault::ReadFault;
use crate::fields::{long_at, short_at, tag_at};
use fl_ops::format::Format;
use fl_opset::intervals::{Intervals, Spans};
use fl_opset::rank::{last_rank_of, rank};
use fl_opset::span::Span;
use std::alloc::Global;

// The span at a place, from one rank on and up to another.
pub(crate) fn span_at(
    format: Format,
    bytes: &[u8],
    at: usize,
    low: u64,
    high: u64,
) -> Result<Span, ReadFault>
    requires { at < 2 ^ 31 }
    ensures { MatchResult result (λ s. IsSpanAt format bytes.now at low high s)
        (IsBad (span_fields format bytes.now at low high)) }
{
    let first = tag_at(format, bytes, at)?;
    if rank(first) < low {
        return Err(ReadFault::BadPacket { place: at });
    }
    let place = at + format.name_size();
    let last = long_at(bytes, place)?;
    if last < first.seq {
        return Err(ReadFault::BadPacket { place });
    }
    let span = Span { first, last };
    if high < last_rank_of(&span) {
        return Err(ReadFault::BadPacket { place });
    }
    Ok(span)
}

// So many spans, up to the end of the bytes.
fn spans_at(
    alloc: Global,
    format: Format,
    bytes: &[u8],
    at: usize,
    count: usize,
    from: u64,
    to: u64,
) -> Result<Vec<Span>, ReadFault>
    requires place { at < 2 ^ 30 }
    requires few { count ≤ 512 }
    ensures { MatchResult result (λ spans. AreSpansAt format bytes.now at from to count spans.items)
        (IsBadOrMemory count (spans_fields format bytes.now at from to count)) }
{
    let mut spans = Vec::with_capacity(alloc, count)?;
    let mut low = from;
    let mut place = at;
    for i in 0..count {
        let span = span_at(format, bytes, place, low, to)?;
        spans.push(span)?;
        low = last_rank_of(&span) + 2;
        place += format.name_size() + 4;
    }
    if place < bytes.len() {
        return Err(ReadFault::BadPacket { place });
    }
    Ok(spans)
}

// The two ends of a window, how many spans it has, and each, which end the bytes. Takes no memory
// before it knows how many.
pub(crate) fn window_at(
    alloc: Global,
    format: Format,
    bytes: &[u8],
    at: usize,
) -> Result<Intervals, ReadFault>
    requires { at < 2 ^ 29 }
    ensures { MatchResult result
        (λ w. (first_fault (window_fields format bytes.now at) ≡ None) × HasWindow format w
        × (drop at bytes.now ≡ intervals_bytes format w))
        (IsBadOrMemoryAfter (window_head format bytes.now at) (window_kept format bytes.now at)
        (window_fields format bytes.now at)) }
{
    let size = format.name_size();
    let from = tag_at(format, bytes, at)?;
    let to = tag_at(format, bytes, at + size)?;
    if rank(to) < rank(from) {
        return Err(ReadFault::BadPacket { place: at + size });
    }
    let count = usize::from(short_at(bytes, at + 2 * size, 0, 512)?);
    let spans = Spans::from_vec(spans_at(
        alloc,
        format,
        bytes,
        at + (2 * size + 2),
        count,
        rank(from),
        rank(to),
    )?);
    Ok(Intervals { from, to, spans })
}
