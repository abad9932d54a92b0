//! A world with who makes the keepers of its nodes.
ghost use Rattle.std.specs.Prelude.{◌≡◌, ◌≢◌, ◌<◌, ℕ, None, Some, Ok, Err};
ghost use Rattle.std.specs.Prelude.{MatchOption, IfOk, IfErr, OnErr};
ghost use Rattle.std.specs.FinMap as map;
ghost use Rattle.fl_opset.specs.RegistryText.{registry_text};
ghost use Rattle.fl_sink.specs.Sink.{Puts};
ghost use Rattle.fl_system.specs.Numbered.{item_at};
ghost use Rattle.fl_system.specs.World.{World as AnyWorld};
ghost use Rattle.fl_system.specs.declared.event.Event.TheVariants as event;
ghost use Rattle.fl_system.specs.WorldSteps.{node_of};
ghost use Rattle.fl_node.specs.Over.{NodeOver};
ghost use Rattle.fl_nodes.specs.Failing.{FailsIn, IsBrokenAt};
ghost use Rattle.fl_nodes.specs.Goes.{MayBe};
ghost use Rattle.fl_makers.specs.Making.{AllowsNoMore};
ghost use Rattle.fl_store.specs.Kept.{Kept};
ghost use Rattle.fl_calls.specs.Answer.{registry_of, replied, shown};
ghost use Rattle.fl_calls.specs.Closing.{MayBeLeft};
ghost use Rattle.fl_calls.specs.Entering.{Enters};
ghost use Rattle.fl_calls.specs.Over.{begun_over, GoesOn};
ghost use Rattle.fl_calls.specs.Failing.{FailsCompleting, FailsOnceOpen, SaysFailed};
ghost use Rattle.fl_calls.specs.Calls.{Asks, AsksToBegin, Delivers, BeginsToTake};
ghost use Rattle.fl_calls.specs.Calls.{AsksForText, AsksForUnion, AsksToCheck, AsksForAudit};
ghost use Rattle.fl_calls.specs.Calls.{brings_ops};
ghost use Rattle.fl_calls.specs.parts.Coming.{sent_at};

use crate::asking::{check, tell, unite};
use crate::completing::{arrival, begins, come, complete, finish, is_nowhere, number_of};
use crate::response::{Response, coming, is_message};
use fl_jobs::job::Job;
use fl_labels::name::NodeNumber;
use fl_makers::maker::MakesKeepers;
use fl_notes::working::Look;
use fl_sink::sink::{Sink, WriteFault};
use fl_sink::writer::Writer;
use fl_system::answer::Fault;
use fl_system::event::Event;
use fl_system::reply::Reply;
use fl_system::sent::Sent;
use fl_wire::packet::Packet;
use fl_world::world::World;
use std::alloc::Global;
use std::marker::Model;
use std::mem::replace;

// Whether a node joined, or why not. A keeper that is given back goes to the maker.
fn outcome<M: MakesKeepers>(
    maker: &mut M,
    number: NodeNumber,
    joined: Result<u32, (Fault, M::K)>,
) -> Result<(), Fault>
    ensures ok { IfOk joined (λ boot. result ≡ Ok tt) }
    ensures err { IfErr joined (λ e. result ≡ Err e.0) }
    ensures same { AllowsNoMore M.making maker.old maker.new }
{
    match joined {
        Ok(_) => Ok(()),
        Err((fault, keeper)) => {
            maker.take_back(number, keeper, fault);
            Err(fault)
        }
    }
}

// Why a node was not opened.
fn shut(fault: Fault) -> Response
    ensures { result ≡ Response.Reply (Reply.Refused fault) }
{
    Response::Reply(Reply::Refused(fault))
}

// The same, of an event, which does not happen.
fn turned_away(fault: Fault, _event: Event) -> Reply
    ensures { result ≡ Reply.Refused fault }
{
    Reply::Refused(fault)
}

// The packet of this number, counted from 1, or none where fewer were sent.
fn packet_at(sent: &[Sent], number: u32) -> Option<&Sent>
    ensures { MatchOption result (sent_at sent.now number ≡ None)
        (λ packet. sent_at sent.now number ≡ Some packet.now) }
{
    let before = number.checked_sub(1)?;
    sent.get(before as usize)
}

// Whether the packet is one of operations.
fn brings_ops(packet: &Packet) -> bool
    ensures { result ≡ brings_ops packet.now }
{
    matches!(packet, Packet::Full(_) | Packet::Delta(_))
}

/// A world whose nodes are opened by the first line that names them, over keepers that are made
/// then.
///
/// A contract of a call says what it does to the world: where the keepers are honest, each world
/// that it may be now comes so from one that it might have been before.
pub struct Cluster<M: MakesKeepers> {
    world: World<M::K>,
    maker: M,
}

impl<M: MakesKeepers> Model for Cluster<M> {
    ghost use Rattle.fl_calls.specs.Over.{ClusterOver, coded_cluster_over};

    ghost Value = { ClusterOver M.K M };

    ghost coded = { coded_cluster_over M.K.code M.code };

    ghost view = { λ c. record { world = c.world; maker = c.maker } };
}

impl<M: MakesKeepers + Drop> Drop for Cluster<M> {
    fn drop(self) {
        let Cluster { world: _, maker: _ } = self;
    }
}

impl<M: MakesKeepers> Cluster<M> {
    /// Without a node. Takes no memory.
    pub fn new(alloc: Global, maker: M) -> Cluster<M>
        ensures { result ≡ begun_over maker }
    {
        Cluster {
            world: World::new(alloc, 1),
            maker,
        }
    }

    /// Its world.
    pub fn world(&self) -> &World<M::K>
        ensures { result.now ≡ self.now.world }
    {
        &self.world
    }

    /// Gives each node's keeper back to the maker, by rising numbers, and gives the maker. What was
    /// on its way, and all processes, are forgotten. What the maker finds from then on it found
    /// before, or the keeper of that number may hold it. So a second run can begin with what this
    /// one left.
    pub fn close(self) -> M
        ensures { (number : ℕ) (k : Kept) → M.making.finds result number k
            → MayBeLeft M.K.custody M.making self number k }
    {
        let Cluster { world, mut maker } = self;
        let mut keepers = world.into_keepers();
        while let Some((number, keeper)) = keepers.pop() {
            maker.close(number, keeper);
        }
        maker
    }

    // Opens the node of this number, which is not there. An error leaves the world.
    fn open(&mut self, alloc: Global, number: NodeNumber) -> Result<(), Fault>
        requires known { 0 < number }
        requires absent { map.get self.old.world.nodes number ≡ None }
        ensures goes { GoesOn M.K.custody M.making self.old self.new
            (λ openings w w'. Enters openings w number result w') }
        ensures cause { result ≡ Err Fault.KeeperFailed
            → M.making.refuses self.old.maker number Fault.KeeperFailed }
    {
        match self.maker.make(alloc, number) {
            Ok(keeper) => {
                let joined = self.world.join(alloc, number, keeper);
                outcome(&mut self.maker, number, joined)
            }
            Err(fault) => Err(fault),
        }
    }

    // Opens the node of this number where it is not there. An error leaves the world.
    #[inline(always)]
    fn enter(&mut self, alloc: Global, number: NodeNumber) -> Result<(), Fault>
        requires { 0 < number }
        ensures goes { GoesOn M.K.custody M.making self.old self.new
            (λ openings w w'. Enters openings w number result w') }
        ensures there { (n : NodeOver M.K) → map.get self.old.world.nodes number ≡ Some n
            → self.new ≡ self.old }
        ensures cause { result ≡ Err Fault.KeeperFailed
            → (map.get self.old.world.nodes number ≡ None)
            × M.making.refuses self.old.maker number Fault.KeeperFailed }
    {
        match self.world.node(number) {
            Some(_) => Ok(()),
            None => self.open(alloc, number),
        }
    }

    /// Has the event happen at its node, which is opened where it is not there, and saves and
    /// publishes what it begins. Gives what the last of it is answered, or why the node was not
    /// opened, with which nothing has changed. Where saving wants memory what was begun is given
    /// up, and where publishing does it stays due: `Memory`.
    pub fn ask(&mut self, alloc: Global, event: Event) -> Reply
        requires { 0 < node_of event }
        ensures goes { GoesOn M.K.custody M.making self.old self.new
            (λ openings w w'. Asks openings w event (replied result) w') }
        ensures cause { result ≡ Reply.Refused Fault.KeeperFailed
            → FailsOnceOpen M.K.custody M.making self.old self.new (node_of event)
            (λ between. FailsCompleting M.K.custody between.world self.new.world event) }
    {
        match self.enter(alloc, number_of(&event)) {
            Ok(()) => complete(alloc, &mut self.world, event),
            Err(fault) => turned_away(fault, event),
        }
    }

    /// Has the node, which is opened where it is not there, do a job at a desk that looks at the
    /// list up to a length, and save and publish what it begins, as `ask` has it. What is left of
    /// the job says nothing.
    pub fn job(&mut self, alloc: Global, number: NodeNumber, look: Look, job: &mut Job) -> Reply
        requires { 0 < number }
        ensures goes { GoesOn M.K.custody M.making self.old self.new (λ openings w w'. Asks openings
            w (event.Job number look.desk look.upto job.old) (replied result) w') }
        ensures cause { result ≡ Reply.Refused Fault.KeeperFailed
            → FailsOnceOpen M.K.custody M.making self.old self.new number
            (λ between. FailsCompleting M.K.custody between.world self.new.world
            (event.Job number look.desk look.upto job.old)) }
    {
        // Most nodes are there, and are so looked for once.
        let reply = self.world.job(alloc, number, look, job);
        if is_nowhere(&reply) {
            return self.job_once_open(alloc, number, look, replace(job, Job::Proc));
        }
        if begins(&reply) {
            return finish(alloc, &mut self.world, number);
        }
        reply
    }

    // Has the node do the job once it is open, as `ask` has it.
    fn job_once_open(&mut self, alloc: Global, number: NodeNumber, look: Look, job: Job) -> Reply
        requires { 0 < number }
        ensures goes { GoesOn M.K.custody M.making self.old self.new (λ openings w w'. Asks openings
            w (event.Job number look.desk look.upto job) (replied result) w') }
        ensures cause { result ≡ Reply.Refused Fault.KeeperFailed
            → FailsOnceOpen M.K.custody M.making self.old self.new number
            (λ between. FailsCompleting M.K.custody between.world self.new.world
            (event.Job number look.desk look.upto job)) }
    {
        let asked = Event::Job {
            node: number,
            desk: look.desk,
            upto: look.upto,
            job,
        };
        self.ask(alloc, asked)
    }

    /// Has the event happen at its node, which is opened where it is not there. What it begins is
    /// to be saved and published by further events.
    pub fn begin(&mut self, alloc: Global, event: Event) -> Reply
        requires { 0 < node_of event }
        ensures goes { GoesOn M.K.custody M.making self.old self.new
            (λ openings w w'. AsksToBegin openings w event (replied result) w') }
        ensures cause { result ≡ Reply.Refused Fault.KeeperFailed
            → FailsOnceOpen M.K.custody M.making self.old self.new (node_of event)
            (λ between. FailsIn M.K.custody between.world self.new.world event) }
    {
        match self.enter(alloc, number_of(&event)) {
            Ok(()) => self.world.step(alloc, event),
            Err(fault) => turned_away(fault, event),
        }
    }

    // The packet of this number as it was sent, counted from 1, or none where fewer were sent.
    fn packet(&self, number: u32) -> Option<&Sent>
        ensures { MatchOption result (item_at self.now.world.packets number ≡ None)
            (λ sent. item_at self.now.world.packets number ≡ Some sent.now) }
    {
        packet_at(self.world.packets(), number)
    }

    /// Has the packet of this number, counted from 1, come to the node, which is opened where it is
    /// not there, and saves and publishes what it brings. A message that does not arrive is
    /// `Dropped`. `Unknown` where fewer were sent, and then no node is opened.
    pub fn deliver(&mut self, alloc: Global, number: NodeNumber, packet: u32) -> Response
        requires { 0 < number }
        ensures goes { GoesOn M.K.custody M.making self.old self.new
            (λ openings w w'. Delivers openings w number packet (shown self.new.world result) w') }
        ensures cause { SaysFailed result
            → FailsOnceOpen M.K.custody M.making self.old self.new number
            (λ between. IsBrokenAt M.K.custody self.new.world number) }
        ensures dropped { result ≢ Response.Dropped Fault.KeeperFailed }
    {
        let Some(sent) = self.packet(packet) else {
            return Response::Unknown;
        };
        let is_message = is_message(&sent.packet);
        match self.enter(alloc, number) {
            Ok(()) => {
                let reply = come(alloc, &mut self.world, number, packet, is_message);
                coming(is_message, reply)
            }
            Err(fault) => shut(fault),
        }
    }

    /// Has the packet of this number, counted from 1, come to the node, which is opened where it is
    /// not there. What it brings is to be saved and published by further events. `Unknown` where
    /// fewer were sent, or where it is not one of operations, and then no node is opened.
    pub fn begin_to_take(&mut self, alloc: Global, number: NodeNumber, packet: u32) -> Response
        requires { 0 < number }
        ensures goes { GoesOn M.K.custody M.making self.old self.new
            (λ openings w w'.
            BeginsToTake openings w number packet (shown self.new.world result) w') }
        ensures cause { SaysFailed result
            → FailsOnceOpen M.K.custody M.making self.old self.new number
            (λ between. ⊥) }
    {
        let Some(sent) = self.packet(packet) else {
            return Response::Unknown;
        };
        if !brings_ops(&sent.packet) {
            return Response::Unknown;
        }
        match self.enter(alloc, number) {
            Ok(()) => Response::Reply(self.world.step(alloc, arrival(number, packet))),
            Err(fault) => shut(fault),
        }
    }

    /// Has the text of the node be written, which is opened where it is not there. `Stopped` of a
    /// stopped one.
    pub fn text(&mut self, alloc: Global, number: NodeNumber) -> Response
        requires { 0 < number }
        ensures goes { GoesOn M.K.custody M.making self.old self.new
            (λ openings w w'. AsksForText openings w number (shown self.new.world result) w') }
        ensures cause { SaysFailed result
            → FailsOnceOpen M.K.custody M.making self.old self.new number
            (λ between. ⊥) }
    {
        match self.enter(alloc, number) {
            Ok(()) => tell(&self.world, number),
            Err(fault) => shut(fault),
        }
    }

    /// What both nodes have published, copied into one set. The first is opened and then the
    /// second, where they are not there. `Stopped` where one is stopped.
    pub fn union(&mut self, alloc: Global, first: NodeNumber, second: NodeNumber) -> Response
        requires first { 0 < first }
        requires second { 0 < second }
        ensures goes { GoesOn M.K.custody M.making self.old self.new
            (λ openings w w'.
            AsksForUnion openings w first second (shown self.new.world result) w') }
        ensures cause { SaysFailed result
            → FailsOnceOpen M.K.custody M.making self.old self.new first
            (λ between. FailsOnceOpen M.K.custody M.making between self.new second (λ _. ⊥)) }
    {
        match self.enter(alloc, first) {
            Ok(()) => match self.enter(alloc, second) {
                Ok(()) => unite(alloc, &self.world, first, second),
                Err(fault) => shut(fault),
            },
            Err(fault) => shut(fault),
        }
    }

    /// What a packet of these bytes would bring to the node, which is opened where it is not there:
    /// `BadPacket` where they are none, and else as `Node::check` has it.
    pub fn check(&mut self, alloc: Global, number: NodeNumber, bytes: &[u8]) -> Response
        requires { 0 < number }
        ensures goes { GoesOn M.K.custody M.making self.old self.new
            (λ openings w w'.
            AsksToCheck openings w number bytes.now (shown self.new.world result) w') }
        ensures cause { SaysFailed result
            → FailsOnceOpen M.K.custody M.making self.old self.new number
            (λ between. ⊥) }
    {
        match self.enter(alloc, number) {
            Ok(()) => check(alloc, &self.world, number, bytes),
            Err(fault) => shut(fault),
        }
    }

    /// How much was admitted.
    pub fn audit(&self) -> Response
        ensures counts { (w : AnyWorld) → MayBe M.K.custody self.now.world w
            → AsksForAudit w (shown self.now.world result) w }
        ensures cause { ¬ SaysFailed result }
    {
        Response::Admitted(self.world.audit().len() as u64)
    }

    /// Puts the lines of what the node has published into the sink, and nothing where it is stopped
    /// or not there.
    pub fn write_text<W: Writer>(
        &self,
        number: NodeNumber,
        sink: &mut Sink,
        output: &mut W,
    ) -> Result<(), WriteFault>
        ensures puts { let text = registry_text
            (registry_of (map.get self.now.world.nodes number)) in
            Puts (W.contents output.old) (W.contents output.new) sink.old text sink.new result }
        ensures cause { OnErr result (W.has_failed output.new) }
    {
        match self.world.node(number) {
            Some(node) => match node.runs() {
                Ok(()) => node.write_text(sink, output),
                Err(_) => sink.put_all(output, &[]),
            },
            None => sink.put_all(output, &[]),
        }
    }
}
