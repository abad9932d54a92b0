//! What a node tells others of what it has saved.
ghost use Rattle.std.specs.Prelude.{◌≡◌, IfOk, IfErr, map};
ghost use Rattle.fl_wire.specs.declared.packet.Packet.TheVariants.{Have};
ghost use Rattle.fl_system.specs.Gossip.{IsSummary, IsAnswer};
ghost use Rattle.fl_system.specs.Waiting.{IsRunning};
ghost use Rattle.fl_node.specs.Telling.{TellsNothing, AnswersNothing};

use crate::node::Node;
use crate::state::running;
use fl_gossip::replying::reply;
use fl_jobs::answer::Refusal;
use fl_opset::intervals::Intervals;
use fl_store::keeper::Keeper;
use fl_system::answer::Fault;
use fl_wire::packet::Packet;
use std::alloc::{AllocError, Global};

// A packet for each window.
fn packets_of(alloc: Global, windows: Vec<Intervals>) -> Result<Vec<Packet>, AllocError>
    ensures { IfOk result (λ told. told.items ≡ map Have windows.items) }
{
    let mut told = Vec::new(alloc);
    for window in windows {
        told.push(Packet::Have(window))?;
    }
    Ok(told)
}

impl<K: Keeper> Node<K> {
    /// What the node has saved, as a packet for each window of its names, to be answered by who has
    /// more. A stopped node answers `Stopped`, and one with no memory for the packets `Memory`:
    /// there is one at least, also where nothing is saved. Costs what `OpSet::have` does.
    pub fn summary(&self, alloc: Global) -> Result<Vec<Packet>, Fault>
        ensures running { IfOk result (λ told. IsRunning self.now.node.state) }
        ensures ok { IfOk result (λ told. IsSummary self.now.node.saved told.items) }
        ensures err { IfErr result (TellsNothing self.now.node.state) }
    {
        running(&self.state)?;
        let Ok(windows) = self.saved.have(alloc) else {
            return Err(Fault::Refused(Refusal::Memory));
        };
        let Ok(told) = packets_of(alloc, windows) else {
            return Err(Fault::Refused(Refusal::Memory));
        };
        Ok(told)
    }

    /// What is answered to a window: the saved operations that it lacks, rising, as deltas of 64,
    /// the last one shorter. A stopped node answers `Stopped`, and one with no memory for the
    /// packets `Memory`, which comes only where something is lacking. Costs what
    /// `fl_gossip::replying::reply` does.
    pub fn reply(&self, alloc: Global, window: &Intervals) -> Result<Vec<Packet>, Fault>
        ensures running { IfOk result (λ told. IsRunning self.now.node.state) }
        ensures ok { IfOk result (λ told. IsAnswer self.now.node.saved window.now told.items) }
        ensures err { IfErr result (AnswersNothing self.now.node window.now) }
    {
        running(&self.state)?;
        match reply(alloc, &self.saved, window) {
            Ok(told) => Ok(told),
            Err(_) => Err(Fault::Refused(Refusal::Memory)),
        }
    }
}
