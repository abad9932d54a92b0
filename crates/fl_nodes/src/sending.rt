//! Packets that a node sends.
ghost use Rattle.std.specs.Prelude.{◌≡◌, ◌<◌, IfOk, OnErr, length};
ghost use Rattle.fl_system.specs.Gossip.{told_by};
ghost use Rattle.fl_nodes.specs.parts.Delivering.{Sends};

use fl_jobs::answer::Refusal;
use fl_labels::name::NodeNumber;
use fl_system::answer::Fault;
use fl_system::reply::Reply;
use fl_system::sent::Sent;
use fl_wire::packet::Packet;
use std::alloc::{AllocError, Global};

// The packets, as the node of this number sends them. An error says that there was no memory, and
// comes only where there is a packet.
fn packets_by(alloc: Global, number: NodeNumber, told: Vec<Packet>) -> Result<Vec<Sent>, AllocError>
    ensures ok { IfOk result (λ made. made.items ≡ told_by number told.items) }
    ensures wants { OnErr result (0 < length told.items) }
{
    let mut made = Vec::new(alloc);
    for packet in told {
        made.push(Sent {
            from: number,
            packet,
            sender: None,
        })?;
    }
    Ok(made)
}

// Sends the packets as the node of this number, or none where there is no room for them.
pub(crate) fn send_all(
    alloc: Global,
    number: NodeNumber,
    told: Vec<Packet>,
    sent: &mut Vec<Sent>,
) -> Reply
    ensures { Sends number told.items sent.old.items result sent.new.items }
{
    let count = told.len() as u64;
    let first = sent.len() as u64 + 1;
    let Ok(mut made) = packets_by(alloc, number, told) else {
        return Reply::Refused(Fault::Refused(Refusal::Memory));
    };
    match sent.append(&mut made) {
        Ok(()) => Reply::Sent { first, count },
        Err(_) => Reply::Refused(Fault::Refused(Refusal::Memory)),
    }
}
