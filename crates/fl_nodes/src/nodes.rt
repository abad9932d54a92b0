//! The nodes of a world, call by call.
ghost use Rattle.std.specs.Prelude.{◌≡◌, ◌≢◌, ◌<◌, IsTrue, None, Some, true, false};
ghost use Rattle.std.specs.FinMap as map;
ghost use Rattle.std.specs.Option.{option_copied};
ghost use Rattle.fl_system.specs.declared.event.Event.TheVariants as event;
ghost use Rattle.fl_system.specs.Waiting.{IsRunning};
ghost use Rattle.fl_system.specs.WorldSteps.{Step};
ghost use Rattle.fl_node.specs.Over.{NodeOver};
ghost use Rattle.fl_nodes.specs.Over.{empty_over};
ghost use Rattle.fl_nodes.specs.Goes.{Goes};
ghost use Rattle.fl_nodes.specs.Failing.{FailsAt, IsBrokenAt, LoadsBadRowOf};
ghost use Rattle.fl_nodes.specs.Texts.{TextAt};
ghost use Rattle.fl_nodes.specs.parts.There.{IsNoSuch, IsThere};
ghost use Rattle.fl_nodes.specs.parts.Published.{published_reply};

use crate::highest::raised;
use crate::keepers::Keepers;
use fl_jobs::job::Job;
use fl_labels::name::NodeNumber;
use fl_node::node::Node;
use fl_notes::working::{Look, work};
use fl_sink::sink::WriteFault;
use fl_store::keeper::Keeper;
use fl_system::admission::Admission;
use fl_system::answer::Fault;
use fl_system::reply::Reply;
use fl_system::sent::Sent;
use fl_system::state::{Batch, Pending, State};
use std::alloc::Global;
use std::collections::BTreeMap;
use std::io::Write;
use std::marker::Model;

// What is answered once what is due is published.
fn once_published(state: &State) -> Reply
    ensures { result ≡ published_reply state.now }
{
    match state {
        State::Running(Pending::Due(Batch::Ordered(op, _, _))) => Reply::Published(op.name),
        State::Running(Pending::Due(Batch::Received(ops))) => Reply::Took(ops.len() as u64),
        // Nothing is due.
        _ => Reply::Took(0),
    }
}

// Whether the job names what is not at the node: a desk, or an arrival, which only packets make.
fn lacks<K: Keeper>(node: &Node<K>, desk: u8, job: &Job) -> bool
    ensures lacking { result ≡ true → IsNoSuch node.now.node desk job.now }
    ensures there { result ≡ false → IsThere node.now.node desk job.now }
{
    if let Job::Arrive(_) = job {
        return true;
    }
    if desk == 0 {
        return true;
    }
    node.desks() < desk
}

/// Nodes by their numbers, each over a keeper of its own, and of as many desks; every packet that
/// they sent; and what they admitted.
///
/// A contract of a call says which step of the world it is: where the keepers are honest, what the
/// next openings may find comes by that step from what they might have found before.
pub struct Nodes<K: Keeper> {
    pub(crate) desks: u8,
    pub(crate) all: BTreeMap<NodeNumber, Node<K>>,
    pub(crate) sent: Vec<Sent>,
    pub(crate) audit: Vec<Admission>,
    // No operation that is saved at a node has the number of a node above this one.
    pub(crate) highest: NodeNumber,
}

impl<K: Keeper> Model for Nodes<K> {
    ghost use Rattle.std.specs.FinMap as map;
    ghost use Rattle.fl_nodes.specs.Over.{WorldOver, coded_world_over};
    ghost use Rattle.std.specs.Prelude.{◌<◌};
    ghost use Rattle.fl_nodes.specs.parts.Highest.{AreWithin};

    ghost Value = { WorldOver K };

    ghost coded = { coded_world_over K.code };

    ghost view = { λ n. record {
      desks = n.desks;
      nodes = map.from_entries n.all.entries;
      packets = n.sent.items;
      audit = n.audit.items;
    } };

    ghost invariant = { λ n. (0 < n.desks)
        × AreWithin n.highest n.desks (map.from_entries n.all.entries) };
}

impl<K: Keeper + Drop> Drop for Nodes<K> {
    fn drop(self) {
        let Nodes {
            desks: _,
            all: _,
            sent: _,
            audit: _,
            highest: _,
        } = self;
    }
}

impl<K: Keeper> Nodes<K> {
    /// No node and no packet; each node that joins will have so many desks. Takes no memory.
    pub fn new(alloc: Global, desks: u8) -> Nodes<K>
        requires { 0 < desks }
        ensures { result ≡ empty_over desks }
    {
        Nodes {
            desks,
            all: BTreeMap::new(alloc),
            sent: Vec::new(alloc),
            audit: Vec::new(alloc),
            highest: 0,
        }
    }

    /// The nodes alone, to be closed for their keepers.
    pub fn into_keepers(self) -> Keepers<K>
        ensures { result ≡ self.nodes }
    {
        let Nodes {
            desks: _,
            all,
            sent: _,
            audit: _,
            highest: _,
        } = self;
        Keepers { all }
    }

    /// The node of this number, or none where it is not there.
    pub fn node(&self, number: NodeNumber) -> Option<&Node<K>>
        ensures { option_copied result ≡ map.get self.now.nodes number }
    {
        self.all.get(&number)
    }

    /// The packets that were sent, in their order. They are numbered from 1.
    pub fn packets(&self) -> &[Sent]
        ensures { result.now ≡ self.now.packets }
    {
        &self.sent
    }

    /// What was admitted, in the order of the run.
    pub fn audit(&self) -> &[Admission]
        ensures { result.now ≡ self.now.audit }
    {
        &self.audit
    }

    /// Saves what is to be saved at the node, as `Node::save` has it, and answers `Done`, or why
    /// not: `NoSuch` where the node is not there, and `KeeperFailed` only where its keeper is
    /// broken then.
    pub fn save(&mut self, number: NodeNumber) -> Reply
        ensures goes { Goes K.custody self.old self.new
            (λ w w'. Step w (event.Save number) result w') }
        ensures cause { result ≡ Reply.Refused Fault.KeeperFailed
            → IsBrokenAt K.custody self.new number }
    {
        let Some(node) = self.all.get_mut(&number) else {
            return Reply::NoSuch;
        };
        let answer = match node.save() {
            Ok(()) => Reply::Done,
            Err(fault) => Reply::Refused(fault),
        };
        self.highest = raised(self.highest, node.saved());
        answer
    }

    /// Gives up what is to be saved at the node, as `Node::cancel` has it, and answers `Done`, or
    /// why not: never `KeeperFailed`. Takes no memory.
    pub fn cancel(&mut self, number: NodeNumber) -> Reply
        ensures goes { Goes K.custody self.old self.new
            (λ w w'. Step w (event.Cancel number) result w') }
        ensures cause { result ≢ Reply.Refused Fault.KeeperFailed }
    {
        let Some(node) = self.all.get_mut(&number) else {
            return Reply::NoSuch;
        };
        match node.cancel() {
            Ok(()) => Reply::Done,
            Err(fault) => Reply::Refused(fault),
        }
    }

    /// Publishes what is due at the node, as `Node::publish` has it, and answers the name of an
    /// order, or how many operations were received, or why not: never `KeeperFailed`.
    pub fn publish(&mut self, alloc: Global, number: NodeNumber) -> Reply
        ensures goes { Goes K.custody self.old self.new
            (λ w w'. Step w (event.Publish number) result w') }
        ensures cause { result ≢ Reply.Refused Fault.KeeperFailed }
    {
        let Some(node) = self.all.get_mut(&number) else {
            return Reply::NoSuch;
        };
        let reply = once_published(node.state());
        match node.publish(alloc) {
            Ok(_) => reply,
            Err(fault) => Reply::Refused(fault),
        }
    }

    /// Restarts the node, as `Node::restart` has it, and answers its boot, or why not:
    /// `KeeperFailed` only where its keeper is broken then, or loads a bad row, and always where it
    /// is stopped over a keeper of its own that is broken; over another node's, `WrongNode`.
    pub fn restart(&mut self, alloc: Global, number: NodeNumber, keeps: bool) -> Reply
        ensures goes { Goes K.custody self.old self.new
            (λ w w'. Step w (event.Restart number keeps) result w') }
        ensures cause { let bad = LoadsBadRowOf K.custody in
            result ≡ Reply.Refused Fault.KeeperFailed
            → FailsAt K.custody bad self.old self.new number }
        ensures broken { (n : NodeOver K) → map.get self.old.nodes number ≡ Some n
            → (¬ IsRunning n.node.state) → IsTrue (K.custody.is_broken n.keeper)
            → K.custody.number n.keeper ≡ n.node.number
            → result ≡ Reply.Refused Fault.KeeperFailed }
        ensures other { (n : NodeOver K) → map.get self.old.nodes number ≡ Some n
            → (¬ IsRunning n.node.state) → K.custody.number n.keeper ≢ n.node.number
            → result ≡ Reply.Refused Fault.WrongNode }
    {
        let Some(node) = self.all.get_mut(&number) else {
            return Reply::NoSuch;
        };
        let answer = match node.come_back(alloc, keeps) {
            Ok(boot) => Reply::Booted(boot),
            Err(fault) => Reply::Refused(fault),
        };
        self.highest = raised(self.highest, node.saved());
        answer
    }

    /// Does the job at a desk of the node, which first looks at the list up to a length, as
    /// `Node::job` has it; sends the message that it may answer, and notes what is admitted. An
    /// arrival is not handed in so, and answers `NoSuch`, as does a desk that is not there.
    ///
    /// Where it answers `NoSuch` nothing has changed, and the job is still there.
    ///
    /// Refused with `Memory` too where there is no room for what would be noted or sent, and never
    /// with `KeeperFailed`. For a job of which something is noted the labels of the process, and
    /// what it owns, are copied where one of them has changed since it was noted last.
    pub fn job(&mut self, alloc: Global, number: NodeNumber, look: Look, job: &mut Job) -> Reply
        ensures goes { Goes K.custody self.old self.new
            (λ w w'. Step w (event.Job number look.desk look.upto job.old) result w') }
        ensures cause { result ≢ Reply.Refused Fault.KeeperFailed }
        ensures nowhere { map.get self.old.nodes number ≡ None → result ≡ Reply.NoSuch }
        ensures left { result ≡ Reply.NoSuch → (self.new ≡ self.old) × (job.new ≡ job.old) }
    {
        let Some(node) = self.all.get_mut(&number) else {
            return Reply::NoSuch;
        };
        if lacks(node, look.desk, job) {
            return Reply::NoSuch;
        }
        work(
            alloc,
            number,
            node,
            look,
            job,
            &mut self.audit,
            &mut self.sent,
        )
    }

    /// Writes the text of the node's published operations, as `Node::text` has it, or nothing where
    /// it is not there.
    pub fn text<W: Write>(
        &self,
        number: NodeNumber,
        output: &mut W,
    ) -> Option<Result<Result<(), WriteFault>, Fault>>
        ensures { TextAt (W.contents output.old) (W.contents output.new)
            (map.get self.now.nodes number) result }
    {
        let node = self.all.get(&number)?;
        Some(node.text(output))
    }
}
