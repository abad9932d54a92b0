//! What stands at the places of a batch.
ghost use Rattle.std.specs.Prelude.{◌≡◌, ◌++◌, map, IfOk, OnOk};
ghost use Rattle.fl_dealing.specs.Items.{item_of, job_item};

use fl_jobs::job::Job;
use fl_message::boxed::Boxed;
use fl_wire::packet::Packet;
use std::alloc::{AllocError, Global};

/// What stands at one place of a batch.
#[derive(Drop)]
pub enum Item {
    /// A worker's.
    Job(Job),
    /// The registrar's.
    Packet(Packet),
}

impl Item {
    /// What a packet is in a batch: a message is the job that it arrives, anything else stays a
    /// packet. Fails only where there is not enough memory: the message is copied.
    pub fn from_packet(alloc: Global, packet: Packet) -> Result<Self, AllocError>
        ensures { IfOk result (λ item. item ≡ item_of packet) }
    {
        if let Packet::Data(message) = &packet {
            let message = Boxed::new(alloc, message.copy(alloc)?)?;
            return Ok(Item::Job(Job::Arrive(message)));
        }
        Ok(Item::Packet(packet))
    }
}

// Adds the packets.
fn add_packets(alloc: Global, items: &mut Vec<Item>, packets: Vec<Packet>) -> Result<(), AllocError>
    ensures { OnOk result (items.new.items ≡ items.old.items ++ map item_of packets.items) }
{
    for packet in packets {
        items.push(Item::from_packet(alloc, packet)?)?;
    }
    Ok(())
}

/// The items of a batch: the jobs in their order, and then the packets in theirs. Fails only where
/// there is not enough memory, and nothing is left of them then. Takes time and memory in
/// proportion to their number, and to the size of the messages among the packets.
pub fn items_of(
    alloc: Global,
    jobs: Vec<Job>,
    packets: Vec<Packet>,
) -> Result<Vec<Item>, AllocError>
    ensures { IfOk result (λ items.
        items.items ≡ map job_item jobs.items ++ map item_of packets.items) }
{
    let mut items = jobs.into_iter().map(Item::Job).collect(alloc)?;
    add_packets(alloc, &mut items, packets)?;
    Ok(items)
}
