//! Operations from bytes.
ghost use Rattle.std.specs.Prelude.{◌≡◌, ◌<◌, ◌≤◌, ◌+◌, ◌^◌, MatchResult, true, false, slice_index, drop, length, None, [], ◌∷◌};
ghost use Rattle.std.specs.List.{AllByRecursion};
ghost use Rattle.fl_ops.specs.Fits.{HasOp};
ghost use Rattle.fl_ops.specs.Grammar.{first_fault};
ghost use Rattle.fl_wire.specs.Faults.{IsBadOrMemory, IsBadOrMemoryAfter};
ghost use Rattle.fl_wire.specs.parts.Ops.{AreOps};
ghost use Rattle.fl_wire.specs.PacketBytes.{batch_bytes};
ghost use Rattle.fl_wire.specs.PacketGrammar.{ops_fields, batch_head, batch_kept, batch_fields};

use crate::batch::{Batch, OpList};
use crate::fault::ReadFault;
use crate::whole::push_whole;
use fl_ops::fields::byte_at;
use fl_ops::format::Format;
use fl_ops::op::Op;
use std::alloc::Global;

// So many operations, up to the end of the bytes.
fn ops_at(
    alloc: Global,
    format: Format,
    bytes: &[u8],
    at: usize,
    count: usize,
) -> Result<Vec<Op>, ReadFault>
    requires place { at < 2 ^ 28 }
    requires few { count ≤ 64 }
    ensures { MatchResult result (λ ops. AreOps format bytes.now at count ops.items)
        (IsBadOrMemory count (ops_fields format bytes.now at [] count)) }
{
    let mut ops = Vec::with_capacity(alloc, count)?;
    let mut place = at;
    for i in 0..count {
        place = push_whole(&mut ops, format, bytes, place)?;
    }
    if place < bytes.len() {
        return Err(ReadFault::BadPacket { place });
    }
    Ok(ops)
}

// How many operations there are, and each, which end the bytes. Takes no memory before it knows how
// many.
pub(crate) fn batch_at(
    alloc: Global,
    format: Format,
    bytes: &[u8],
    at: usize,
) -> Result<Batch, ReadFault>
    requires { at < 2 ^ 27 }
    ensures { MatchResult result
        (λ b. (first_fault (batch_fields format bytes.now at) ≡ None)
        × AllByRecursion (HasOp format) b.ops
        × (drop at bytes.now ≡ batch_bytes format b.ops))
        (IsBadOrMemoryAfter (batch_head bytes.now at) (batch_kept bytes.now at)
        (batch_fields format bytes.now at)) }
{
    let count = usize::from(byte_at(bytes, at, 1, 64)?);
    let ops = OpList::from_vec(ops_at(alloc, format, bytes, at + 1, count)?);
    Ok(Batch { ops })
}
