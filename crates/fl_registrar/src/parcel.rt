//! Packets of operations, as a registrar takes them.
ghost use Rattle.std.specs.Prelude.{◌≡◌, Ok, Err, IfOk};
ghost use Rattle.fl_jobs.specs.declared.answer.Refusal.TheVariants.{Memory};
ghost use Rattle.fl_system.specs.declared.answer.Fault.TheVariants.{Refused};
ghost use Rattle.fl_gossip.specs.Taking.{ops_of};

use fl_crew_model::record::Verdict;
use fl_jobs::answer::Refusal;
use fl_ops::op::Op;
use fl_system::answer::Fault;
use fl_wire::batch::OpList;
use fl_wire::packet::Packet;
use std::alloc::{AllocError, Global};

/// What became of a packet, and what it is answered: how many operations were new, or why none was
/// taken.
#[derive(Clone, Copy, Debug)]
pub struct Receipt {
    pub verdict: Verdict,
    pub answer: Result<u64, Fault>,
}

/// A packet that is declined, for this reason.
pub(crate) fn declined(answer: Result<u64, Fault>) -> Receipt
    ensures { result ≡ record { verdict = Verdict.Declined; answer = answer } }
{
    Receipt {
        verdict: Verdict::Declined,
        answer,
    }
}

/// A packet that is taken late.
pub(crate) fn late() -> Receipt
    ensures { result ≡ record { verdict = Verdict.TakenLate; answer = Err (Refused Memory) } }
{
    Receipt {
        verdict: Verdict::TakenLate,
        answer: Err(Fault::Refused(Refusal::Memory)),
    }
}

/// A packet that is taken, with so many new operations.
pub(crate) fn taken(count: u64) -> Receipt
    ensures { result ≡ record { verdict = Verdict.Taken; answer = Ok count } }
{
    Receipt {
        verdict: Verdict::Taken,
        answer: Ok(count),
    }
}

/// A packet, with its operations once more, for the record; of a packet without operations, none.
#[derive(Drop)]
pub struct Parcel {
    pub packet: Packet,
    pub(crate) ops: OpList,
    pub ghost same: { ops ≡ ops_of packet },
}

// The operations that a packet brings.
fn operations(packet: &Packet) -> &[Op]
    ensures { result.now ≡ ops_of packet.now }
{
    match packet {
        Packet::Full(batch) | Packet::Delta(batch) => batch.ops.as_slice(),
        _ => &[],
    }
}

impl Parcel {
    /// The parcel of a packet. Fails only where there is no memory to copy its operations.
    pub fn new(alloc: Global, packet: Packet) -> Result<Parcel, AllocError>
        ensures { IfOk result (λ parcel. parcel.packet ≡ packet) }
    {
        let ops = Vec::from_slice(alloc, operations(&packet))?;
        Ok(Parcel {
            packet,
            ops: OpList::from_vec(ops),
        })
    }

    // Its operations, without the packet.
    pub(crate) fn into_ops(self) -> OpList
        ensures { result ≡ ops_of self.packet }
    {
        let Parcel { packet: _, ops } = self;
        ops
    }
}
