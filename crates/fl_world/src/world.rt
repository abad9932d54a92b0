//! A world, event by event.
ghost use Rattle.std.specs.Prelude.{◌≡◌, ◌≢◌, ◌<◌, IsTrue, IfOk, IfErr, OnErr, Err, None, Some, length};
ghost use Rattle.std.specs.FinMap as map;
ghost use Rattle.std.specs.Fn.{FnOnceReturnsAtMut};
ghost use Rattle.std.specs.Option.{option_copied};
ghost use Rattle.fl_system.specs.declared.event.Event.TheVariants as event;
ghost use Rattle.fl_system.specs.declared.reply.Reply.TheVariants as replies;
ghost use Rattle.fl_system.specs.Joins.{Joins};
ghost use Rattle.fl_system.specs.Runs.{IsReached, Run};
ghost use Rattle.fl_system.specs.Waiting.{IsRunning};
ghost use Rattle.fl_system.specs.WorldSteps.{Step};
ghost use Rattle.fl_world_laws.specs.Places.{IsNameRefusal};
ghost use Rattle.fl_store.specs.Breaking.{IsLeftBroken};
ghost use Rattle.fl_node.specs.Causes.{KeeperFails};
ghost use Rattle.fl_node.specs.Over.{NodeOver};
ghost use Rattle.fl_nodes.specs.Over.{empty_over};
ghost use Rattle.fl_nodes.specs.Goes.{Goes};
ghost use Rattle.fl_nodes.specs.Failing.{FailsAt, FailsIn, IsBrokenAt, LoadsBadRowOf};
ghost use Rattle.fl_nodes.specs.Joining.{GivesBack, IsRefused, TakesIn};
ghost use Rattle.fl_nodes.specs.Joining.{ReturnsOver, TakesOver};
ghost use Rattle.fl_nodes.specs.Texts.{TextAt};
ghost use Rattle.fl_world.specs.Reached.{InEach};
ghost use Rattle.fl_world.specs.Headline.{HasSafeAudit, IsSafeWorld};
ghost use Rattle.fl_world.specs.Lasting.{HasAuthority, IsLastingWorld};
ghost use Rattle.fl_world.specs.Along.{LastingRun};

use crate::laws::{law_headline, law_lasting, law_run};
use fl_jobs::answer::Refusal;
use fl_jobs::job::Job;
use fl_labels::name::NodeNumber;
use fl_node::node::Node;
use fl_nodes::keepers::Keepers;
use fl_nodes::nodes::Nodes;
use fl_notes::working::Look;
use fl_sink::sink::WriteFault;
use fl_store::keeper::Keeper;
use fl_system::admission::Admission;
use fl_system::answer::Fault;
use fl_system::event::Event;
use fl_system::reply::Reply;
use fl_system::sent::Sent;
use fl_world_laws::laws::law_names;
use std::alloc::{AllocError, Global};
use std::io::Write;
use std::marker::Model;

/// A world that a run led to: nodes joined, and events happened, of any kind, in any order.
///
/// A contract of a call says which step of the world it is, and so that a run leads to the world
/// after it: where the keepers are honest, to each one that their next openings may find.
pub struct World<K: Keeper> {
    nodes: Nodes<K>,
}

impl<K: Keeper> Model for World<K> {
    ghost use Rattle.fl_system.specs.Runs.{IsReached};
    ghost use Rattle.fl_nodes.specs.Over.{WorldOver, coded_world_over};
    ghost use Rattle.fl_nodes.specs.Texts.{TextAt};
    ghost use Rattle.fl_world.specs.Reached.{InEach};

    ghost Value = { WorldOver K };

    ghost coded = { coded_world_over K.code };

    ghost view = { λ w. w.nodes };

    ghost invariant = { λ w. InEach K.custody w.nodes IsReached };
}

impl<K: Keeper + Drop> Drop for World<K> {
    fn drop(self) {
        let World { nodes: _ } = self;
    }
}

impl<K: Keeper> World<K> {
    /// Without a node; each that joins will have so many desks, and as many benches. Takes no
    /// memory.
    pub fn new(alloc: Global, desks: u8) -> World<K>
        requires { 0 < desks }
        ensures { result ≡ empty_over desks }
    {
        World {
            nodes: Nodes::new(alloc, desks),
        }
    }

    /// A run led to it, so each law of worlds that a run leads to holds of it: where its keepers
    /// are honest, of each world that their next openings may find.
    pub fn law_reached(&self)
        ensures { InEach K.custody self.now IsReached }
    {
        let _nodes = &self.nodes;
    }

    /// The headline, of any world that a run led to: names are unique, what is published is saved,
    /// and each open endpoint and each thing that was admitted is safe by all that is saved,
    /// whatever happens from then on.
    pub fn law_safe(&self)
        ensures { InEach K.custody self.now IsSafeWorld }
    {
        let _nodes = &self.nodes;
        law_headline();
    }

    /// What lasts, of any world that a run led to: no yes is withdrawn, what is published grows by
    /// the node's own publications alone, what is noted is of its moment, a tag is confined, and
    /// endorsed, what was answered as published is kept, each capability in effect was granted and
    /// each tag claimed, and no event is refused for a name.
    pub fn law_lasting(&self)
        ensures { InEach K.custody self.now IsLastingWorld }
    {
        let _nodes = &self.nodes;
        law_lasting();
    }

    /// Its nodes alone, to be closed for their keepers.
    pub fn into_keepers(self) -> Keepers<K>
        ensures { result ≡ self.nodes }
    {
        let World { nodes } = self;
        nodes.into_keepers()
    }

    /// The node of this number, or none where it is not there.
    pub fn node(&self, number: NodeNumber) -> Option<&Node<K>>
        ensures { option_copied result ≡ map.get self.now.nodes number }
    {
        self.nodes.node(number)
    }

    /// The packets that were sent, in their order. They are numbered from 1.
    pub fn packets(&self) -> &[Sent]
        ensures { result.now ≡ self.now.packets }
    {
        self.nodes.packets()
    }

    /// What was admitted, in the order of the run: each of it is safe by all that is saved,
    /// whatever happens from now on, and each capability that let it pass was granted, from who
    /// made its name on, unless its tag's policy gives it to everybody.
    pub fn audit(&self) -> &[Admission]
        ensures audit { result.now ≡ self.now.audit }
        ensures safe { InEach K.custody self.now HasSafeAudit }
        ensures authority { InEach K.custody self.now HasAuthority }
    {
        self.law_safe();
        self.law_lasting();
        self.nodes.audit()
    }

    /// A node of this number joins over its keeper, as `Nodes::join` has it, or the keeper is given
    /// back with why not.
    pub fn join(&mut self, alloc: Global, number: NodeNumber, keeper: K) -> Result<u32, (Fault, K)>
        requires { 0 < number }
        ensures joins { IfOk result (λ boot. TakesIn K.custody self.old keeper self.new
            (λ w k w'. Joins w number k (replies.Booted boot) w')) }
        ensures refused { IfErr result (λ e. GivesBack K.custody self.old keeper self.new e.1
            (IsRefused number e.0)) }
        ensures there { (n : NodeOver K) → map.get self.old.nodes number ≡ Some n
            → result ≡ Err (Fault.WrongNode, keeper) }
        ensures cause { let bad = K.custody.has_bad_row keeper in IfErr result (λ e.
            KeeperFails (IsLeftBroken K.custody keeper e.1) (K.custody.is_honest e.1) bad e.0) }
        ensures same { OnErr result (self.new ≡ self.old) }
    {
        law_names();
        self.nodes.join(alloc, number, keeper)
    }

    /// Has the keeper of a stopped node changed, or another put in its place, and opens the node
    /// again over it, as `Nodes::reopen_with` has it. Answers its boot, or why not: `NoSuch` where
    /// it is not there, and `Busy` where it runs; then nothing is made, and the world is as before.
    /// After any other refusal the node stays stopped, over what was made: with `WrongNode` where
    /// that is another node's, was not opened as often, or has not what the node saved, with or
    /// without what was in doubt.
    ///
    /// What is made is to be trusted no further than the keeper before it: as each call of a keeper
    /// has it, where it is honest then, that was honest before.
    pub fn reopen<F: FnOnce(&mut K)>(&mut self, alloc: Global, number: NodeNumber, make: F) -> Reply
        requires callable { F.IsAlwaysCallable make }
        requires trusted { (n : NodeOver K) (made : K) → map.get self.old.nodes number ≡ Some n
            → (¬ IsRunning n.node.state) → FnOnceReturnsAtMut F.FnOnce make n.keeper tt made
            → TakesOver K.custody n.keeper made }
        ensures absent { map.get self.old.nodes number ≡ None
            → (self.new ≡ self.old) × (result ≡ replies.NoSuch) }
        ensures running { (n : NodeOver K) → map.get self.old.nodes number ≡ Some n
            → IsRunning n.node.state
            → (self.new ≡ self.old) × (result ≡ replies.Refused (Fault.Refused Refusal.Busy)) }
        ensures stopped { (n : NodeOver K) → map.get self.old.nodes number ≡ Some n
            → (¬ IsRunning n.node.state)
            → (made : K) × FnOnceReturnsAtMut F.FnOnce make n.keeper tt made
            × Goes K.custody self.old self.new (ReturnsOver K.custody made number result) }
        ensures cause { result ≡ replies.Refused Fault.KeeperFailed
            → FailsAt K.custody (λ n. (made : K)
            × FnOnceReturnsAtMut F.FnOnce make n.keeper tt made × K.custody.has_bad_row made)
            self.old self.new number }
        ensures broken { (n : NodeOver K) → map.get self.old.nodes number ≡ Some n
            → (¬ IsRunning n.node.state)
            → (made : K) × FnOnceReturnsAtMut F.FnOnce make n.keeper tt made
            × (IsTrue (K.custody.is_broken made) → K.custody.number made ≡ n.node.number
            → result ≡ replies.Refused Fault.KeeperFailed) }
        ensures other { (n : NodeOver K) → map.get self.old.nodes number ≡ Some n
            → (¬ IsRunning n.node.state)
            → (made : K) × FnOnceReturnsAtMut F.FnOnce make n.keeper tt made
            × (K.custody.number made ≢ n.node.number
            → result ≡ replies.Refused Fault.WrongNode) }
    {
        self.nodes.reopen_with(alloc, number, make)
    }

    /// Has the node do a job at a desk, which first looks at the list up to a length, as
    /// `Nodes::job` has it. What the job lets pass is noted.
    pub fn job(&mut self, alloc: Global, number: NodeNumber, look: Look, job: &mut Job) -> Reply
        ensures goes { Goes K.custody self.old self.new
            (λ w w'. Step w (event.Job number look.desk look.upto job.old) result w') }
        ensures cause { result ≢ replies.Refused Fault.KeeperFailed }
        ensures nowhere { map.get self.old.nodes number ≡ None → result ≡ replies.NoSuch }
        ensures left { result ≡ replies.NoSuch → (self.new ≡ self.old) × (job.new ≡ job.old) }
    {
        self.nodes.job(alloc, number, look, job)
    }

    /// Saves what is to be saved at the node, as `Nodes::save` has it.
    pub fn save(&mut self, number: NodeNumber) -> Reply
        ensures goes { Goes K.custody self.old self.new
            (λ w w'. Step w (event.Save number) result w') }
        ensures cause { result ≡ replies.Refused Fault.KeeperFailed
            → IsBrokenAt K.custody self.new number }
    {
        self.nodes.save(number)
    }

    /// Gives up what is to be saved at the node, as `Nodes::cancel` has it.
    pub fn cancel(&mut self, number: NodeNumber) -> Reply
        ensures goes { Goes K.custody self.old self.new
            (λ w w'. Step w (event.Cancel number) result w') }
        ensures cause { result ≢ replies.Refused Fault.KeeperFailed }
    {
        self.nodes.cancel(number)
    }

    /// Publishes what is due at the node, as `Nodes::publish` has it.
    pub fn publish(&mut self, alloc: Global, number: NodeNumber) -> Reply
        ensures goes { Goes K.custody self.old self.new
            (λ w w'. Step w (event.Publish number) result w') }
        ensures cause { result ≢ replies.Refused Fault.KeeperFailed }
    {
        self.nodes.publish(alloc, number)
    }

    /// Restarts the node, as `Nodes::restart` has it.
    pub fn restart(&mut self, alloc: Global, number: NodeNumber, keeps: bool) -> Reply
        ensures goes { Goes K.custody self.old self.new
            (λ w w'. Step w (event.Restart number keeps) result w') }
        ensures cause { let bad = LoadsBadRowOf K.custody in
            result ≡ replies.Refused Fault.KeeperFailed
            → FailsAt K.custody bad self.old self.new number }
        ensures broken { (n : NodeOver K) → map.get self.old.nodes number ≡ Some n
            → (¬ IsRunning n.node.state) → IsTrue (K.custody.is_broken n.keeper)
            → K.custody.number n.keeper ≡ n.node.number
            → result ≡ replies.Refused Fault.KeeperFailed }
        ensures other { (n : NodeOver K) → map.get self.old.nodes number ≡ Some n
            → (¬ IsRunning n.node.state) → K.custody.number n.keeper ≢ n.node.number
            → result ≡ replies.Refused Fault.WrongNode }
    {
        self.nodes.restart(alloc, number, keeps)
    }

    /// Has the node send what it has saved, as `Nodes::tell` has it.
    pub fn tell(&mut self, alloc: Global, number: NodeNumber) -> Reply
        ensures goes { Goes K.custody self.old self.new
            (λ w w'. Step w (event.Tell number) result w') }
        ensures cause { result ≢ replies.Refused Fault.KeeperFailed }
    {
        self.nodes.tell(alloc, number)
    }

    /// Has the packet of this number come to the node of this number, as `Nodes::deliver` has it;
    /// it may come again.
    pub fn deliver(&mut self, alloc: Global, packet: u64, number: NodeNumber) -> Reply
        ensures goes { Goes K.custody self.old self.new
            (λ w w'. Step w (event.Deliver packet number) result w') }
        ensures cause { result ≢ replies.Refused Fault.KeeperFailed }
    {
        self.nodes.deliver(alloc, packet, number)
    }

    // The event happens. Inlined, as `step` is, so that an event which its caller made is not kept.
    #[inline(always)]
    fn turn(&mut self, alloc: Global, event: Event) -> Reply
        ensures goes { Goes K.custody self.old self.new (λ w w'. Step w event result w') }
        ensures cause { result ≡ replies.Refused Fault.KeeperFailed
            → FailsIn K.custody self.old self.new event }
    {
        match event {
            Event::Job {
                node,
                desk,
                upto,
                mut job,
            } => self.job(alloc, node, Look { desk, upto }, &mut job),
            Event::Save(node) => self.save(node),
            Event::Publish(node) => self.publish(alloc, node),
            Event::Cancel(node) => self.cancel(node),
            Event::Restart(node, keeps) => self.restart(alloc, node, keeps),
            Event::Tell(node) => self.tell(alloc, node),
            Event::Deliver { packet, node } => self.deliver(alloc, packet, node),
        }
    }

    /// Has the event happen, and gives what it is answered. It is never answered `Clash` or
    /// `Impostor`, and `KeeperFailed` only as `save` and `restart` are.
    #[inline(always)]
    pub fn step(&mut self, alloc: Global, event: Event) -> Reply
        ensures goes { Goes K.custody self.old self.new (λ w w'. Step w event result w') }
        ensures named { InEach K.custody self.new (λ w. ¬ IsNameRefusal result) }
        ensures cause { result ≡ replies.Refused Fault.KeeperFailed
            → FailsIn K.custody self.old self.new event }
    {
        let _nodes = &self.nodes;
        law_names();
        self.turn(alloc, event)
    }

    /// Has the events happen one after another, and gives what each is answered. Room for the
    /// answers is taken first: an error says that there was not enough memory for them, and nothing
    /// has happened then. It comes only where there is an event.
    ///
    /// All along the run no yes is withdrawn, nodes that published the same have one text, desks
    /// that see the same answer alike, and a tag is confined.
    pub fn run(&mut self, alloc: Global, events: Vec<Event>) -> Result<Vec<Reply>, AllocError>
        ensures ok { IfOk result (λ replies. Goes K.custody self.old self.new
            (λ w w'. Run w events.items replies.items w')) }
        ensures lasting { IfOk result (λ replies. Goes K.custody self.old self.new
            (λ w w'. LastingRun w events.items replies.items w')) }
        ensures err { OnErr result (self.new ≡ self.old) }
        ensures wants { OnErr result (0 < length events.items) }
    {
        let _nodes = &self.nodes;
        law_run();
        let mut replies = Vec::with_capacity(alloc, events.len())?;
        for event in events {
            let reply = self.step(alloc, event);
            replies.push_reserved(reply);
        }
        Ok(replies)
    }

    /// Writes the text of the node's published operations, as `Nodes::text` has it, or nothing
    /// where it is not there.
    pub fn text<W: Write>(
        &self,
        number: NodeNumber,
        output: &mut W,
    ) -> Option<Result<Result<(), WriteFault>, Fault>>
        ensures { TextAt (W.contents output.old) (W.contents output.new)
            (map.get self.now.nodes number) result }
    {
        self.nodes.text(number, output)
    }
}
