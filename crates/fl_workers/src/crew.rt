//! A crew, call by call.
ghost use Rattle.std.specs.Prelude.{◌≡◌, ◌≤◌, ◌<◌, ◌+◌, ◌↔◌, Ok, Err, IfOk, IfErr, OnErr, OnOk};
ghost use Rattle.std.specs.Prelude.{IsTrue, false, true, length};
ghost use Rattle.fl_labels.specs.SetBy as set;
ghost use Rattle.fl_dealing.specs.Dealt.{procs_behind};
ghost use Rattle.fl_dealing.specs.Gathered.{StandFrom};
ghost use Rattle.fl_node.specs.Causes.{KeeperFails, LoadsBadRow};
ghost use Rattle.fl_node.specs.Telling.{TellsNothing, AnswersNothing};
ghost use Rattle.fl_opset.specs.RegistryText.{registry_text};
ghost use Rattle.fl_registrar.specs.Listing.{ListsHonestly};
ghost use Rattle.fl_registrar.specs.Passing.{Passes};
ghost use Rattle.fl_sink.specs.Sink.{Writes};
ghost use Rattle.fl_system.specs.Gossip.{IsSummary, IsAnswer};
ghost use Rattle.fl_store.specs.Kept.{Kept};
ghost use Rattle.fl_system.specs.Waiting.{NotRunning};
ghost use Rattle.fl_system.specs.declared.state.Pending.TheVariants.{Nothing};
ghost use Rattle.fl_system.specs.declared.state.State.TheVariants.{Running};
ghost use Rattle.fl_workers.specs.Batches.{IsBrokenThere, IsStill, IsUnbegun, Serves, items_for};
ghost use Rattle.fl_workers.specs.Crews.{crew_of, IsSized};
ghost use Rattle.fl_workers.specs.Seats.{empty_of};
ghost use Rattle.fl_workers.specs.Standing.{Stands};
ghost use Rattle.fl_workers.specs.Seated.{seated_of, IsToldOf, NotOpened, OpensCrew, RestartsCrew};

use crate::fault::CrewFault;
use crate::manned::Manned;
use crate::seating::seat;
use fl_crew_model::laws::law_weave;
use fl_dealing::entry::Entry;
use fl_jobs::answer::Refusal;
use fl_jobs::job::Job;
use fl_labels::name::NodeNumber;
use fl_node::node::Node;
use fl_opset::intervals::Intervals;
use fl_sink::sink::WriteFault;
use fl_store::keeper::Keeper;
use fl_system::answer::Fault;
use fl_wire::packet::Packet;
use fl_worker::gate::Gate;
use std::alloc::Global;
use std::io::Write;
use std::marker::Model;
use std::sync::{Arc, Wait};
use std::thread::Threads;

// The node of a crew, and who serves it.
enum Seats<K: Keeper> {
    /// Its workers are at their desks.
    Manned(Manned<K>),
    /// Nobody is, since the node was not opened again, or there was no room for so many workers.
    Empty(Node<K>, u8),
}

/// A node that several workers serve at once, job by job, while its registrar names, saves and
/// publishes what they order. It is not dropped: [`Crew::close`] ends it.
///
/// Contracts see the registrar's node; the list that the desks may see, and what is saved and not
/// yet in it; the bench of each worker; and whether the crew is stopped. A stopped crew serves no
/// batch, and is to be restarted.
pub struct Crew<K: Keeper, G> {
    gate: Arc<G, Global>,
    seats: Seats<K>,
}

impl<K: Keeper, G> Model for Crew<K, G> {
    ghost use Rattle.fl_workers.specs.Over.{CrewOver, coded_crew};

    ghost Value = { CrewOver K };

    ghost coded = { coded_crew K.code };

    ghost use Rattle.fl_workers.specs.Crews.{crew_of, IsSized};
    ghost use Rattle.fl_workers.specs.Standing.{Stands};

    ghost view = { λ a. crew_of a.seats };

    ghost invariant = { λ a. IsSized a.seats × Stands K.custody (crew_of a.seats) };
}

// The seats of a node that was opened again, or not.
fn seats_for<K: Keeper, R: Wait>(
    rt: &R,
    alloc: Global,
    node: Node<K>,
    size: u8,
    opened: Result<u32, Fault>,
) -> (Seats<K>, Result<u32, Fault>)
    requires some { 1 ≤ size }
    requires few { size ≤ 16 }
    requires idle { OnOk opened (K.custody.is_honest node.keeper → (k : Kept)
        → K.custody.may_hold node.keeper k → node.node.state ≡ Running Nothing) }
    ensures seated { OnOk result.1 (crew_of result.0 ≡ seated_of (crew_of result.0).node size) }
    ensures stopped { OnErr result.1 (crew_of result.0 ≡ empty_of (crew_of result.0).node size) }
    ensures node { (crew_of result.0).node ≡ node }
    ensures sized { IsSized result.0 }
    ensures told { IsToldOf opened result.1 }
{
    let boot = match opened {
        Ok(boot) => boot,
        Err(fault) => return (Seats::Empty(node, size), Err(fault)),
    };
    match seat(rt, alloc, node, size) {
        Ok(manned) => (Seats::Manned(manned), Ok(boot)),
        Err(node) => {
            let fault = Fault::Refused(Refusal::Memory);
            (Seats::Empty(node, size), Err(fault))
        }
    }
}

impl<K: Keeper, G: Gate + Send + Drop + 'static> Crew<K, G> {
    /// Opens the node of this number over its keeper, with so many workers, who call this gate
    /// round each job. Each has an empty bench, and a desk that may see all that is saved.
    ///
    /// Refused as [`Node::open`] is, and with `Memory` also where there is none for the board or
    /// for the workers. The keeper is gone then, and its boot may be raised.
    ///
    /// Costs what [`Node::open`] does, and two copies of the list with its index, which the desks
    /// share.
    pub fn open<R: Wait>(
        rt: &R,
        alloc: Global,
        keeper: K,
        number: NodeNumber,
        workers: u8,
        gate: G,
    ) -> Result<Crew<K, G>, Fault>
    where
        K: Drop,
        requires number { 0 < number }
        requires some { 1 ≤ workers }
        requires few { workers ≤ 16 }
        ensures seated { IfOk result (λ crew. crew ≡ seated_of crew.node workers) }
        ensures number { IfOk result (λ crew. crew.node.node.number ≡ number) }
        ensures opens { IfOk result (λ crew. Passes K.custody
            (λ k k'. OpensCrew number workers k crew k') keeper crew.node.keeper) }
        ensures sound { OnOk result (¬ IsTrue (K.custody.is_broken keeper)) }
        ensures whole { IfOk result (λ crew. K.custody.is_honest crew.node.keeper
            → ¬ K.custody.has_bad_row keeper) }
        ensures err { IfErr result (NotOpened K.custody number keeper) }
    {
        law_weave();
        let Ok(gate) = Arc::new(alloc, gate) else {
            return Err(Fault::Refused(Refusal::Memory));
        };
        let node = match Node::open(alloc, keeper, number, 0) {
            Ok(node) => node,
            Err((fault, _)) => return Err(fault),
        };
        let Ok(manned) = seat(rt, alloc, node, workers) else {
            return Err(Fault::Refused(Refusal::Memory));
        };
        let seats = Seats::Manned(manned);
        Ok(Crew { gate, seats })
    }

    /// Serves a batch: the workers do the jobs, each in a thread of its own, while this thread
    /// takes the packets, and then names, saves and publishes what the jobs order. Gives an entry
    /// for each job in its place, and behind them one for each packet.
    ///
    /// A job of a process is done by the worker with its bench, a question about groups by the
    /// first, and each new process is made by the next one in turn. One worker does its jobs in
    /// their order, each under one look of its desk; between workers there is no order. A message
    /// among the packets is the job that it arrives. What a job saw begins with all that was
    /// published when the batch began, and with what the same worker's earlier orders made.
    ///
    /// An order is answered its name once its operation is saved and published. It is given up, and
    /// answered `Busy` while something is due, `NamesSpent` where no name is left, and `Memory`
    /// where there was none to save it. Where there was none to publish it, it is answered `Memory`
    /// and is due: the next batch publishes it first.
    ///
    /// Where the keeper breaks, the order that met it is answered `KeeperFailed`, and what its
    /// worker was to do behind it, and each later order, `Stopped`. So is a job whose worker had no
    /// thread, and one that the registrar's record contradicts, with what the same worker did
    /// behind it. The crew is stopped then, and also where no thread could be made for a worker
    /// that had no job.
    ///
    /// - `Stopped`: the crew was stopped before.
    /// - `Memory`: there was none for a row of each place, or to publish what was due. No job was
    ///   begun, and all is as it was.
    ///
    /// Waits until each worker has done its jobs, and so for the gate. Costs what the jobs do, and
    /// what the registrar's calls do for each order and packet, and for each worker a thread and
    /// two numbers that are compared; memory in proportion to the places of the batch.
    pub fn batch<R: Threads + Wait + Sync + Send + Copy + Drop + 'static>(
        &mut self,
        rt: R,
        alloc: Global,
        jobs: Vec<Job>,
        packets: Vec<Packet>,
    ) -> Result<Vec<Entry>, CrewFault>
        ensures refused { (result ≡ Err CrewFault.Stopped) ↔ (self.old.stopped ≡ true) }
        ensures err { OnErr result (IsUnbegun self.old self.new) }
        ensures still { IsStill self.old self.new }
        ensures count { IfOk result (λ es.
            length es.items ≡ length jobs.items + length packets.items) }
        ensures places { IfOk result (λ es. StandFrom 0 es.items) }
        ensures procs { IfOk result (λ es. self.new.procs
            ≡ procs_behind self.old.size self.old.procs (items_for jobs.items packets.items)) }
        ensures serves { IfOk result (λ es. Passes K.custody
            (Serves K.custody self.old self.new (items_for jobs.items packets.items) es.items)
            self.old.node.keeper self.new.node.keeper) }
        ensures broken { OnOk result (IsBrokenThere K.custody self.new) }
    {
        if self.is_stopped() {
            return Err(CrewFault::Stopped);
        }
        let gate = Arc::try_clone(&self.gate)?;
        let Seats::Manned(manned) = &mut self.seats else {
            return Err(CrewFault::Stopped);
        };
        manned.batch(rt, alloc, gate, jobs, packets)
    }

    /// Whether it serves no batch until it is restarted.
    pub fn is_stopped(&self) -> bool
        ensures { result ≡ self.now.stopped }
    {
        match &self.seats {
            Seats::Manned(manned) => manned.is_stopped,
            Seats::Empty(_, _) => true,
        }
    }

    /// The registrar's node. It may have published what is not yet in the desks' list.
    pub fn node(&self) -> &Node<K>
        ensures { result.now ≡ self.now.node }
    {
        match &self.seats {
            Seats::Manned(manned) => manned.registrar.node(),
            Seats::Empty(node, _) => node,
        }
    }

    /// What is true of every crew: as long as it is not stopped, and its keeper is honest, a node
    /// stands for it, of which each batch that does not stop it is one run (`woven` of
    /// [`Crew::batch`]).
    pub fn law_stands(&self)
        ensures { Stands K.custody self.now }
    {
        let _seats = &self.seats;
    }

    /// What is true of every crew: as long as it is not stopped, and its keeper is honest, its node
    /// has published what the desks may see, and of what is due to them all, or nothing. So each
    /// name that was told stands in the text.
    pub fn law_listed(&self)
        ensures { self.now.stopped ≡ false → ListsHonestly K.custody self.now.node.keeper
            self.now.node.node self.now.list self.now.due }
    {
        if let Seats::Manned(manned) = &self.seats {
            manned.registrar.law_listed();
        }
    }

    // That it is not stopped.
    fn runs(&self) -> Result<(), Fault>
        ensures ok { OnOk result (self.now.stopped ≡ false) }
        ensures err { IfErr result (λ fault. fault ≡ Fault.Stopped) }
        ensures stopped { OnErr result (self.now.stopped ≡ true) }
    {
        if self.is_stopped() {
            return Err(Fault::Stopped);
        }
        Ok(())
    }

    /// What is saved, as [`Node::summary`] has it. `Stopped` of a stopped crew.
    pub fn summary(&self, alloc: Global) -> Result<Vec<Packet>, Fault>
        ensures running { OnOk result (self.now.stopped ≡ false) }
        ensures ok { IfOk result (λ told. IsSummary self.now.node.node.saved told.items) }
        ensures stopped { self.now.stopped ≡ true → result ≡ Err Fault.Stopped }
        ensures err { self.now.stopped ≡ false
            → IfErr result (TellsNothing self.now.node.node.state) }
    {
        self.runs()?;
        self.node().summary(alloc)
    }

    /// What is answered to a window, as [`Node::reply`] has it. `Stopped` of a stopped crew.
    pub fn reply(&self, alloc: Global, window: &Intervals) -> Result<Vec<Packet>, Fault>
        ensures running { OnOk result (self.now.stopped ≡ false) }
        ensures ok { IfOk result
            (λ told. IsAnswer self.now.node.node.saved window.now told.items) }
        ensures stopped { self.now.stopped ≡ true → result ≡ Err Fault.Stopped }
        ensures err { self.now.stopped ≡ false
            → IfErr result (AnswersNothing self.now.node.node window.now) }
    {
        self.runs()?;
        self.node().reply(alloc, window)
    }

    /// Writes the text of what the registrar's node has published, as [`Node::text`] has it: of the
    /// list that the desks may see, and perhaps of what is due to it ([`Crew::law_listed`]).
    /// `Stopped` of a stopped crew.
    pub fn text<W: Write>(&self, output: &mut W) -> Result<Result<(), WriteFault>, Fault>
        ensures running { OnOk result (self.now.stopped ≡ false) }
        ensures ok { let text = registry_text (set.of_list self.now.node.node.published) in
            IfOk result (λ written.
            Writes (W.contents output.old) (W.contents output.new) text written) }
        ensures stopped { self.now.stopped ≡ true → result ≡ Err Fault.Stopped }
        ensures err { self.now.stopped ≡ false
            → IfErr result (λ fault. NotRunning self.now.node.node.state fault) }
        ensures nothing { OnErr result (W.contents output.new ≡ W.contents output.old) }
    {
        self.runs()?;
        self.node().text(output)
    }

    // Its gate, its node without the seats, and how many workers it has.
    fn into_parts<R: Wait>(self, rt: &R) -> (Arc<G, Global>, Node<K>, u8)
        ensures node { result.1 ≡ self.node }
        ensures size { result.2 ≡ self.size }
        ensures some { 1 ≤ result.2 }
        ensures few { result.2 ≤ 16 }
    {
        let Crew { gate, seats } = self;
        match seats {
            Seats::Manned(manned) => {
                let size = manned.size();
                (gate, manned.into_node(rt), size)
            }
            Seats::Empty(node, size) => (gate, node, size),
        }
    }

    /// Restarts the registrar's node, as [`Node::restart`] does, and seats as many workers at it
    /// as before. What is due is published by that, and all processes are gone.
    ///
    /// Refused as that is, and with `Memory` also where there is none for the board or for the
    /// workers. The crew is stopped then.
    pub fn restart<R: Wait>(
        self,
        rt: &R,
        alloc: Global,
        keeps: bool,
    ) -> (Crew<K, G>, Result<u32, Fault>)
        ensures seated { OnOk result.1 (result.0 ≡ seated_of result.0.node self.size) }
        ensures stopped { OnErr result.1 (result.0 ≡ empty_of result.0.node self.size) }
        ensures number { result.0.node.node.number ≡ self.node.node.number }
        ensures restarts { Passes K.custody
            (λ k k'. RestartsCrew self.node.node keeps result.1 result.0.node.node k k')
            self.node.keeper result.0.node.keeper }
        ensures cause { let state = self.node.node.state in let left = result.0.node.keeper in
            let bad = LoadsBadRow K.custody state self.node.keeper in
            IfErr result.1 (KeeperFails (IsTrue (K.custody.is_broken left))
            (K.custody.is_honest left) bad) }
    {
        let (gate, node, size) = self.into_parts(rt);
        let (node, result) = node.restart(alloc, keeps);
        let (seats, result) = seats_for(rt, alloc, node, size, result);
        (Crew { gate, seats }, result)
    }

    /// Ends the crew, and gives its keeper back. Its processes are gone, and what is due is
    /// published by the next opening over that keeper.
    pub fn close<R: Wait>(self, rt: &R) -> K
        ensures { result ≡ self.node.keeper }
    {
        let (_gate, node, _size) = self.into_parts(rt);
        node.into_keeper()
    }
}
