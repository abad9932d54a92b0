//! What a node takes of other nodes' operations.
ghost use Rattle.std.specs.Prelude.{◌≡◌, length, IfOk, IfErr};
ghost use Rattle.fl_labels.specs.SetBy as set;
ghost use Rattle.fl_ops.specs.OpOrder.{op_cmp};
ghost use Rattle.fl_store.specs.Kept.{AreNew};
ghost use Rattle.fl_gossip.specs.Taking.{ops_of};
ghost use Rattle.fl_system.specs.Receives.{Receives, CanTake, AreLacking};
ghost use Rattle.fl_node.specs.Checking.{AreRefused, Counts, Checks};
ghost use Rattle.fl_node.specs.parts.Receiving.{untaken_as};

use crate::node::Node;
use crate::state::{idle, running};
use fl_gossip::fault::GossipFault;
use fl_gossip::taking::take;
use fl_jobs::answer::Refusal;
use fl_opset::batch::OpBatch;
use fl_store::keeper::Keeper;
use fl_system::answer::Fault;
use fl_system::state::{Batch, Pending, State};
use fl_wire::packet::Packet;
use std::alloc::Global;

// What is answered where operations are not taken.
fn shown(fault: GossipFault) -> Fault
    ensures { result ≡ untaken_as fault }
{
    match fault {
        GossipFault::Impostor(name) => Fault::Impostor(name),
        GossipFault::Clash(name) => Fault::Clash(name),
        GossipFault::Memory => Fault::Refused(Refusal::Memory),
    }
}

impl<K: Keeper> Node<K> {
    // What of a packet is new to the node, or why that is not taken.
    fn news(&self, alloc: Global, packet: &Packet) -> Result<OpBatch, Fault>
        ensures can { IfOk result (λ new. CanTake self.now.node (set.of_list (ops_of packet.now))) }
        ensures lacking { let ops = set.of_list {R = op_cmp} (ops_of packet.now) in
            IfOk result (λ new. AreLacking self.now.node ops new) }
        ensures new { IfOk result (λ new. AreNew (set.members new) self.now.node.saved) }
        ensures err { let ops = set.of_list {R = op_cmp} (ops_of packet.now) in
            IfErr result (AreRefused self.now.node ops) }
    {
        match take(alloc, &self.saved, self.number, packet) {
            Ok(ops) => Ok(OpBatch::from_rising(ops)),
            Err(fault) => Err(shown(fault)),
        }
    }

    /// Takes the operations of a packet that are not saved, which are then to be saved, and says
    /// how many; 0 where all of them are, or the packet has none.
    ///
    /// - `Stopped`: the node is stopped.
    /// - `Impostor` and `Clash`, for the least name of an operation that may not be taken: it has
    ///   the node's own number, and none of that name is saved; another operation of that name is
    ///   saved.
    /// - `Busy`: there is something new, and something else is on its way.
    /// - `Memory`: each may be taken, something is new, and there was not enough for that.
    ///
    /// A search for each operation, and one copy of what is new.
    pub fn receive(&mut self, alloc: Global, packet: &Packet) -> Result<u64, Fault>
        ensures desks { length self.new.node.views ≡ length self.old.node.views }
        ensures receives { let ops = set.of_list {R = op_cmp} (ops_of packet.now) in
            Receives self.old.node ops result self.new.node }
        ensures keeper { self.new.keeper ≡ self.old.keeper }
    {
        running(&self.state)?;
        let new = match self.news(alloc, packet) {
            Ok(new) => new,
            Err(fault) => return Err(fault),
        };
        let count = new.len() as u64;
        if count == 0 {
            return Ok(0);
        }
        idle(&self.state)?;
        self.state = State::Running(Pending::Unsaved(Batch::Received(new)));
        Ok(count)
    }

    // How many operations of a packet are new to the node, or why they are not taken.
    fn count(&self, alloc: Global, packet: &Packet) -> Result<u64, Fault>
        ensures { let ops = set.of_list {R = op_cmp} (ops_of packet.now) in
            Counts self.now.node ops result }
    {
        match self.news(alloc, packet) {
            Ok(new) => Ok(new.len() as u64),
            Err(fault) => Err(fault),
        }
    }

    /// What a packet would bring, were it to come now: how many operations that are not saved, of a
    /// window how many that it lacks, and 0 of a message. Refuses as [`Node::receive`] does, but
    /// never with `Busy`, and costs the same; of a window as [`Node::reply`], with `Memory` only
    /// where it lacks something.
    pub fn check(&self, alloc: Global, packet: &Packet) -> Result<u64, Fault>
        ensures { Checks self.now.node packet.now result }
    {
        running(&self.state)?;
        match packet {
            Packet::Full(_) => self.count(alloc, packet),
            Packet::Delta(_) => self.count(alloc, packet),
            Packet::Have(window) => match self.saved.lacking(alloc, window, self.saved.len()) {
                Ok(lacking) => Ok(lacking.len() as u64),
                Err(_) => Err(Fault::Refused(Refusal::Memory)),
            },
            Packet::Data(_) => Ok(0),
        }
    }
}
