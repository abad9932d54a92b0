//! A node, call by call.
ghost use Rattle.std.specs.Prelude.{◌≡◌, ◌≢◌, ◌⊎◌, ◌<◌, IsTrue, IfOk, IfErr, IsSome, OnErr, Ok, Err, Some, None, length};
ghost use Rattle.std.specs.Fn.{FnOnceReturnsAtMut};
ghost use Rattle.std.specs.Option.{option_copied};
ghost use Rattle.fl_labels.specs.SetBy as set;
ghost use Rattle.fl_store.specs.Breaking.{IsLeftBroken};
ghost use Rattle.fl_store.specs.Kept.{HasNamesOnce, Kept};
ghost use Rattle.fl_store.specs.Keeping.{Follows};
ghost use Rattle.fl_bench.specs.Process.{standing_at};
ghost use Rattle.fl_system.specs.Processes.{process_of};
ghost use Rattle.fl_system.specs.Waiting.{IsRunning};
ghost use Rattle.fl_system.specs.Begins.{Begins};
ghost use Rattle.fl_system.specs.Jobs.{Jobs};
ghost use Rattle.fl_system.specs.Numbered.{item_at};
ghost use Rattle.fl_system.specs.Saves.{Saves};
ghost use Rattle.fl_system.specs.Publishes.{Publishes, Cancels};
ghost use Rattle.fl_system.specs.Openings.{Opens, IsOf, OpensAgain, Reopens, Restarts, doubt_of};
ghost use Rattle.fl_node.specs.Causes.{KeeperFails, LoadsBadRow};
ghost use Rattle.fl_node.specs.Desks.{IsDeskOf};
ghost use Rattle.fl_node.specs.Sound.{IsSoundOver};
ghost use Rattle.fl_node.specs.parts.Ordering.{Orders};
ghost use Rattle.fl_node.specs.parts.Working.{WorksAt};

use crate::beginning::next_name;
use crate::finding::{find, raise};
use crate::keeping::{Unkept, keep};
use crate::publishing::{give, release};
use crate::recovering::{Had, recover};
use crate::state::{doubt, doubted, due, halt, idle, running, saved, unsaved};
use fl_bench::process::Process;
use fl_bench::standing::Standing;
use fl_desks::benches::Benches;
use fl_desks::listing::Listing;
use fl_jobs::answer::{Outcome, Refusal};
use fl_jobs::job::Job;
use fl_labels::name::{Name, NodeNumber};
use fl_labels::pid::Pid;
use fl_message::shared::Shared;
use fl_monitor::bench::Bench;
use fl_ops::op::{Body, Op};
use fl_opset::set::OpSet;
use fl_store::keeper::Keeper;
use fl_system::answer::{Answer, Fault};
use fl_system::state::{Batch, Pending, State};
use std::alloc::{AllocError, Global};
use std::marker::Model;
use std::mem::replace;

/// A node: its keeper, what is saved and published of it, how much of that each of its desks sees,
/// what is on its way, and the benches of its processes, as many as there are desks.
///
/// An operation stands in it twice, and once more for each desk that sees it, with what it leads to
/// there.
pub struct Node<K: Keeper> {
    pub(crate) keeper: K,
    pub(crate) number: NodeNumber,
    pub(crate) boot: u32,
    pub(crate) saved: OpSet,
    pub(crate) listing: Listing,
    pub(crate) state: State,
    pub(crate) benches: Benches,
}

impl<K: Keeper> Model for Node<K> {
    ghost use Rattle.std.specs.Prelude.{length};
    ghost use Rattle.fl_node.specs.Over.{NodeOver, coded_over};
    ghost use Rattle.fl_node.specs.Sound.{IsSound};

    ghost Value = { NodeOver K };

    ghost coded = { coded_over K.code };

    ghost view = { λ a. record {
      node = record {
        number = a.number;
        boot = a.boot;
        saved = a.saved;
        published = a.listing.published;
        views = a.listing.views;
        state = a.state;
        procs = a.benches.procs;
        benches = a.benches.benches;
      };
      keeper = a.keeper;
    } };

    ghost invariant = { λ a. IsSound (K.custody.is_honest a.keeper) (K.custody.may_hold a.keeper)
        a.number a.boot a.saved a.listing.published a.state (length a.listing.views)
        (length a.benches.benches) };
}

impl<K: Keeper + Drop> Drop for Node<K> {
    fn drop(self) {
        let Node {
            keeper: _,
            number: _,
            boot: _,
            saved: _,
            listing: _,
            state: _,
            benches: _,
        } = self;
    }
}

impl<K: Keeper> Node<K> {
    /// Opens the node of this number over its keeper, which is given back where that is refused,
    /// with so many desks and benches. All that is saved is published, in rising order, each desk
    /// sees all of it, and there is no process.
    ///
    /// - `WrongNode`: the keeper is another node's.
    /// - `KeeperFailed`: it is broken, or one of its rows is bad.
    /// - `NamesSpent`: it was opened 4,294,967,295 times.
    /// - `Memory`: there was not enough.
    ///
    /// A refused opening may have raised the boot. Loads what is saved, and copies it, and once
    /// more for each desk, into its index; there each put costs a search by order.
    pub fn open(
        alloc: Global,
        mut keeper: K,
        number: NodeNumber,
        desks: u8,
    ) -> Result<Node<K>, (Fault, K)>
        requires { 0 < number }
        ensures number { IfOk result (λ node. node.node.number ≡ number) }
        ensures desks { IfOk result (λ node. length node.node.views ≡ desks) }
        ensures ok { IfOk result (λ node. K.custody.is_honest node.keeper
            → K.custody.is_honest keeper
            × Follows (λ k k'. Opens desks (IsOf number) k (Ok node.node) k')
            (K.custody.may_hold keeper) (K.custody.may_hold node.keeper)) }
        ensures cause { let bad = K.custody.has_bad_row keeper in IfErr result (λ e.
            KeeperFails (IsLeftBroken K.custody keeper e.1) (K.custody.is_honest e.1) bad e.0) }
        ensures broken { IfErr result (λ e. IsTrue (K.custody.is_broken keeper)
            → K.custody.number keeper ≡ number
            → e.0 ≡ Fault.KeeperFailed) }
        ensures other { IfErr result (λ e. K.custody.number keeper ≢ number
            → e.0 ≡ Fault.WrongNode) }
        ensures sound { IfOk result (λ node. ¬ IsTrue (K.custody.is_broken keeper)) }
        ensures whole { IfOk result (λ node. K.custody.is_honest node.keeper
            → ¬ K.custody.has_bad_row keeper) }
        ensures err { IfErr result (λ e. K.custody.is_honest e.1 → K.custody.is_honest keeper
            × Follows (λ k k'. Opens desks (IsOf number) k (Err e.0) k')
            (K.custody.may_hold keeper) (K.custody.may_hold e.1)) }
    {
        let saved = match find(alloc, &mut keeper, number) {
            Ok(saved) => saved,
            Err(fault) => return Err((fault, keeper)),
        };
        let Ok(listing) = Listing::new(alloc, &saved, desks) else {
            return Err((Fault::Refused(Refusal::Memory), keeper));
        };
        let boot = match raise(&mut keeper) {
            Ok(boot) => boot,
            Err(fault) => return Err((fault, keeper)),
        };
        let Ok(benches) = Benches::new(alloc, number, boot, desks) else {
            return Err((Fault::Refused(Refusal::Memory), keeper));
        };
        Ok(Node {
            keeper,
            number,
            boot,
            saved,
            listing,
            state: State::Running(Pending::Nothing),
            benches,
        })
    }

    /// What is true of every node: its saved operations have each name once, what is published is
    /// what is saved, but for what is due, and there is a bench for each desk. Where it runs, and
    /// its keeper is honest, an opening finds just what it saved, under its number and its boot.
    pub fn law_sound(&self)
        ensures { IsSoundOver K.custody self.now }
    {
        let _state = &self.state;
    }

    /// The keeper, without the node: what is on its way and each process are forgotten.
    pub fn into_keeper(self) -> K
        ensures { result ≡ self.keeper }
    {
        let Node {
            keeper,
            number: _,
            boot: _,
            saved: _,
            listing: _,
            state: _,
            benches: _,
        } = self;
        keeper
    }

    /// The saved operations, whose names differ. A stopped node lends them too.
    pub fn saved(&self) -> &OpSet
        ensures saved { result.now ≡ self.now.node.saved }
        ensures names { HasNamesOnce self.now.node.saved }
    {
        &self.saved
    }

    /// The published operations, in the order of publishing. A stopped node lends them too.
    pub fn published(&self) -> &[Op]
        ensures { result.now ≡ self.now.node.published }
    {
        self.listing.list()
    }

    /// The bench of this number, from 1 on, or none where there is none. A stopped node lends it
    /// too.
    pub fn bench(&self, number: u8) -> Option<&Bench>
        ensures { option_copied result ≡ item_at self.now.node.benches number }
    {
        self.benches.bench(number)
    }

    /// The process, or none where it does not stand here. A stopped node lends it too.
    pub fn process(&self, pid: Pid) -> Option<&Process>
        ensures { option_copied result ≡ process_of self.now.node pid }
    {
        self.benches.process(pid)
    }

    /// How the process stands, for whoever notes it, or none where it does not stand here. Fails
    /// only where there is not enough memory. Costs what `Owned::share` does.
    pub fn share(&mut self, alloc: Global, pid: Pid) -> Result<Option<Shared<Standing>>, AllocError>
        ensures ok { IfOk result (λ made. made ≡ standing_at (process_of self.old.node pid)) }
        ensures err { OnErr result (IsSome (process_of self.old.node pid)) }
        ensures same { self.new ≡ self.old }
    {
        self.benches.share(alloc, pid)
    }

    /// Begins an operation of this body for its maker, where nothing is on its way, and gives its
    /// name: the next one after the saved operations of this node. It is then to be saved, or
    /// cancelled. A binary search; takes no memory.
    ///
    /// - `Stopped`: the node is stopped.
    /// - `Busy`: something is on its way.
    /// - `NamesSpent`: no name is left.
    pub fn begin(&mut self, body: Body, maker: Option<Pid>) -> Result<Name, Fault>
        ensures begins { Begins self.old.node body maker None result self.new.node }
        ensures keeper { self.new.keeper ≡ self.old.keeper }
    {
        self.begin_at(body, maker, None)
    }

    // The same, ordered at a desk, if it was at one.
    fn begin_at(&mut self, body: Body, maker: Option<Pid>, desk: Option<u8>) -> Result<Name, Fault>
        ensures begins { Begins self.old.node body maker desk result self.new.node }
        ensures keeper { self.new.keeper ≡ self.old.keeper }
    {
        idle(&self.state)?;
        let Some(name) = next_name(&self.saved, self.number) else {
            return Err(Fault::Refused(Refusal::NamesSpent));
        };
        let op = Op { name, body };
        self.state = State::Running(Pending::Unsaved(Batch::Ordered(op, maker, desk)));
        Ok(name)
    }

    // Does a job at its bench, under what the desk sees. An order begins its operation.
    fn work(&mut self, alloc: Global, desk: u8, job: &mut Job) -> Result<Answer, Fault>
        requires { IsDeskOf self.old.node desk }
        ensures desks { length self.new.node.views ≡ length self.old.node.views }
        ensures works { (seen : _) → item_at self.old.node.views desk ≡ Some seen
            → WorksAt self.old.node desk seen job.old result self.new.node }
        ensures keeper { self.new.keeper ≡ self.old.keeper }
    {
        match self.benches.job(alloc, &mut self.listing, desk, job) {
            Ok(Outcome::Reply(reply)) => Ok(Answer::Reply(reply)),
            Ok(Outcome::Out(packet)) => Ok(Answer::Out(packet)),
            Ok(Outcome::Order(body, pid)) => self.order(body.into_inner(), pid, desk),
            Err(refusal) => Err(Fault::Refused(refusal)),
        }
    }

    /// Does a job at a desk, which first looks at the list up to a length: it sees so many
    /// operations then, or as many as it saw before. The job is done at its bench under what the
    /// desk sees, as `Bench::job` has it; a new process is made on each bench in turn. An order
    /// begins its operation, as `begin` has it; where that is refused, the benches are as before. A
    /// stopped node answers `Stopped`, and `Memory` comes too where the desk is to see more and
    /// there is no room for that: the desk and the benches are then as before. Costs what the bench
    /// does, and for each operation that the desk has not seen what `Desk::rise` does.
    pub fn job(
        &mut self,
        alloc: Global,
        desk: u8,
        upto: u64,
        job: &mut Job,
    ) -> Result<Answer, Fault>
        requires { IsDeskOf self.old.node desk }
        ensures desks { length self.new.node.views ≡ length self.old.node.views }
        ensures job { Jobs self.old.node desk upto job.old result self.new.node }
        ensures keeper { self.new.keeper ≡ self.old.keeper }
    {
        running(&self.state)?;
        let Ok(()) = self.listing.look(alloc, desk, upto) else {
            self.benches.count(job);
            return Err(Fault::Refused(Refusal::Memory));
        };
        self.work(alloc, desk, job)
    }

    // Begins the operation of an order at the desk, or has its maker go on without it.
    fn order(&mut self, body: Body, pid: Pid, desk: u8) -> Result<Answer, Fault>
        ensures orders { Orders self.old.node body pid desk result self.new.node }
        ensures keeper { self.new.keeper ≡ self.old.keeper }
    {
        match self.begin_at(body, Some(pid), Some(desk)) {
            Ok(name) => Ok(Answer::Begun(name)),
            Err(fault) => {
                self.benches.cancel(pid);
                Err(fault)
            }
        }
    }

    /// Gives up what is to be saved: its maker, if it has one, goes on with nothing. Takes no
    /// memory.
    ///
    /// - `Stopped`: the node is stopped.
    /// - `Busy`: there is nothing to save.
    pub fn cancel(&mut self) -> Result<(), Fault>
        ensures desks { length self.new.node.views ≡ length self.old.node.views }
        ensures cancels { Cancels self.old.node result self.new.node }
        ensures keeper { self.new.keeper ≡ self.old.keeper }
    {
        let batch = unsaved(&self.state)?;
        release(&mut self.benches, batch);
        self.state = State::Running(Pending::Nothing);
        Ok(())
    }

    /// Publishes what is saved and due, and gives the length of the list. The maker of a tag or a
    /// group has its two capabilities from then on, and the desk of an order sees the whole list;
    /// other desks see what they saw.
    ///
    /// - `Stopped`: the node is stopped.
    /// - `Busy`: nothing is due.
    /// - `Memory`: there was not enough; it stays due.
    ///
    /// Costs what the batch does, as `Listing::extend` has it; nothing that was published is copied
    /// for it but where that moves it.
    pub fn publish(&mut self, alloc: Global) -> Result<u64, Fault>
        ensures desks { length self.new.node.views ≡ length self.old.node.views }
        ensures publishes { Publishes self.old.node result self.new.node }
        ensures keeper { self.new.keeper ≡ self.old.keeper }
    {
        let batch = due(&self.state)?;
        let Ok(()) = self.listing.extend(alloc, batch) else {
            return Err(Fault::Refused(Refusal::Memory));
        };
        let count = self.listing.list().len() as u64;
        give(&mut self.benches, batch);
        self.state = State::Running(Pending::Nothing);
        Ok(count)
    }

    /// Saves what is to be saved, which is then to be published.
    ///
    /// - `Stopped`: the node is stopped.
    /// - `Busy`: there is nothing to save.
    /// - `Memory`: there was not enough; it is still to be saved.
    /// - `KeeperFailed`: the keeper broke. The node is stopped, its saved operations are as before,
    ///   and at the next opening the keeper has those, or those with what was to be saved.
    pub fn save(&mut self) -> Result<(), Fault>
        ensures number { self.new.node.number ≡ self.old.node.number }
        ensures keeper { K.custody.number self.new.keeper ≡ K.custody.number self.old.keeper }
        ensures cause { result ≡ Err Fault.KeeperFailed
            → IsTrue (K.custody.is_broken self.new.keeper) }
        ensures desks { length self.new.node.views ≡ length self.old.node.views }
        ensures node { (k : Kept) →
            (left : Kept) × Saves self.old.node k result self.new.node left }
        ensures saves { K.custody.is_honest self.new.keeper → K.custody.is_honest self.old.keeper
            × Follows (λ k k'. Saves self.old.node k result self.new.node k')
            (K.custody.may_hold self.old.keeper) (K.custody.may_hold self.new.keeper) }
    {
        let batch = unsaved(&self.state)?;
        match keep(&mut self.keeper, &mut self.saved, batch) {
            Ok(()) => {
                saved(&mut self.state);
                Ok(())
            }
            Err(Unkept::Memory) => Err(Fault::Refused(Refusal::Memory)),
            Err(Unkept::Broken) => {
                doubted(&mut self.state);
                Err(Fault::KeeperFailed)
            }
        }
    }

    // Opens the node again over its keeper, or leaves it stopped.
    fn open_again(&mut self, alloc: Global) -> Result<u32, Fault>
        ensures number { self.new.node.number ≡ self.old.node.number }
        ensures cause { let bad = K.custody.has_bad_row self.old.keeper in IfErr result
            (KeeperFails (IsTrue (K.custody.is_broken self.new.keeper))
            (K.custody.is_honest self.new.keeper) bad) }
        ensures broken { IsTrue (K.custody.is_broken self.old.keeper)
            → K.custody.number self.old.keeper ≡ self.old.node.number
            → result ≡ Err Fault.KeeperFailed }
        ensures other { K.custody.number self.old.keeper ≢ self.old.node.number
            → result ≡ Err Fault.WrongNode }
        ensures whole { IfOk result
            (λ boot. K.custody.is_honest self.new.keeper
            → ¬ K.custody.has_bad_row self.old.keeper) }
        ensures desks { length self.new.node.views ≡ length self.old.node.views }
        ensures opens { K.custody.is_honest self.new.keeper → K.custody.is_honest self.old.keeper
            × Follows (λ k k'. OpensAgain self.old.node (doubt_of self.old.node.state) k
            result self.new.node k')
            (K.custody.may_hold self.old.keeper) (K.custody.may_hold self.new.keeper) }
    {
        let doubt = doubt(&self.state);
        let saved = &self.saved;
        let desks = self.listing.desks();
        let was = Had {
            number: self.number,
            boot: self.boot,
            desks,
        };
        match recover(alloc, &mut self.keeper, was, saved, doubt) {
            Ok(recovered) => {
                let boot = recovered.boot;
                self.boot = boot;
                self.saved = recovered.saved;
                self.listing = recovered.listing;
                self.benches = recovered.benches;
                self.state = State::Running(Pending::Nothing);
                Ok(boot)
            }
            Err(fault) => {
                halt(&mut self.state);
                Err(fault)
            }
        }
    }

    /// Restarts the node in place: processes and what is pending are forgotten, what is saved is
    /// loaded and published, and the boot raised by one, which is the answer. Where it is to be
    /// kept, what is pending is saved first; refused for memory, that leaves the node as it was.
    /// After any later refusal the node is stopped, with its saved operations.
    ///
    /// As `open`; `WrongNode` is answered too where what is kept is neither what the node had saved
    /// nor that with what was in doubt, or was not opened as often. A stopped node whose own keeper
    /// is still broken answers `KeeperFailed`; no node does so unless its keeper is broken or has a
    /// bad row.
    pub fn come_back(&mut self, alloc: Global, keeps: bool) -> Result<u32, Fault>
        ensures number { self.new.node.number ≡ self.old.node.number }
        ensures cause { let node = self.old.node in
            let bad = LoadsBadRow K.custody node.state self.old.keeper in IfErr result
            (KeeperFails (IsTrue (K.custody.is_broken self.new.keeper))
            (K.custody.is_honest self.new.keeper) bad) }
        ensures broken { (¬ IsRunning self.old.node.state)
            → IsTrue (K.custody.is_broken self.old.keeper)
            → K.custody.number self.old.keeper ≡ self.old.node.number
            → result ≡ Err Fault.KeeperFailed }
        ensures other { (¬ IsRunning self.old.node.state)
            → K.custody.number self.old.keeper ≢ self.old.node.number
            → result ≡ Err Fault.WrongNode }
        ensures desks { length self.new.node.views ≡ length self.old.node.views }
        ensures restarts { K.custody.is_honest self.new.keeper → K.custody.is_honest self.old.keeper
            × Follows (λ k k'. Restarts self.old.node k keeps result self.new.node k')
            (K.custody.may_hold self.old.keeper) (K.custody.may_hold self.new.keeper) }
    {
        if !keeps {
            return self.open_again(alloc);
        }
        let Ok(_) = unsaved(&self.state) else {
            return self.open_again(alloc);
        };
        if let Err(fault) = self.save() {
            return Err(fault);
        }
        self.open_again(alloc)
    }

    /// Restarts the node, as [`Node::come_back`] does.
    pub fn restart(self, alloc: Global, keeps: bool) -> (Node<K>, Result<u32, Fault>)
        ensures number { result.0.node.number ≡ self.node.number }
        ensures cause { let state = self.node.state in let left = result.0.keeper in
            let bad = LoadsBadRow K.custody state self.keeper in
            IfErr result.1 (KeeperFails (IsTrue (K.custody.is_broken left))
            (K.custody.is_honest left) bad) }
        ensures broken { (¬ IsRunning self.node.state) → IsTrue (K.custody.is_broken self.keeper)
            → K.custody.number self.keeper ≡ self.node.number → result.1 ≡ Err Fault.KeeperFailed }
        ensures other { (¬ IsRunning self.node.state)
            → K.custody.number self.keeper ≢ self.node.number → result.1 ≡ Err Fault.WrongNode }
        ensures desks { length result.0.node.views ≡ length self.node.views }
        ensures restarts { K.custody.is_honest result.0.keeper → K.custody.is_honest self.keeper
            × Follows (λ k k'. Restarts self.node k keeps result.1 result.0.node k')
            (K.custody.may_hold self.keeper) (K.custody.may_hold result.0.keeper) }
    {
        let mut node = self;
        let result = node.come_back(alloc, keeps);
        (node, result)
    }

    /// Opens a stopped node again over another keeper, as `come_back` does, and gives the one that
    /// it had. A node that runs answers `Busy` and is left as it is, and the other keeper comes
    /// back.
    pub fn reopen_over(&mut self, alloc: Global, keeper: K) -> (Result<u32, Fault>, K)
        ensures running { IsRunning self.old.node.state → (self.new ≡ self.old)
            × (result.0 ≡ Err (Fault.Refused Refusal.Busy)) × (result.1 ≡ keeper) }
        ensures given { (¬ IsRunning self.old.node.state) → result.1 ≡ self.old.keeper }
        ensures desks { length self.new.node.views ≡ length self.old.node.views }
        ensures stopped { (¬ IsRunning self.old.node.state)
            → K.custody.is_honest self.new.keeper → K.custody.is_honest keeper
            × Follows (λ k k'. Reopens self.old.node k result.0 self.new.node k')
            (K.custody.may_hold keeper) (K.custody.may_hold self.new.keeper) }
        ensures number { self.new.node.number ≡ self.old.node.number }
        ensures cause { let bad = K.custody.has_bad_row keeper in let left = self.new.keeper in
            IfErr result.0 (KeeperFails (IsTrue (K.custody.is_broken left))
            (K.custody.is_honest left) bad) }
        ensures broken { (¬ IsRunning self.old.node.state) → IsTrue (K.custody.is_broken keeper)
            → K.custody.number keeper ≡ self.old.node.number → result.0 ≡ Err Fault.KeeperFailed }
        ensures other { (¬ IsRunning self.old.node.state)
            → K.custody.number keeper ≢ self.old.node.number → result.0 ≡ Err Fault.WrongNode }
    {
        let Err(_) = running(&self.state) else {
            return (Err(Fault::Refused(Refusal::Busy)), keeper);
        };
        let old = replace(&mut self.keeper, keeper);
        let result = self.open_again(alloc);
        (result, old)
    }

    /// Has the keeper of a stopped node changed, or another put in its place, and opens the node
    /// again over it, as `come_back` does. A node that runs answers `Busy`, and is left as it is:
    /// its keeper is not shown then.
    pub fn reopen_with<F: FnOnce(&mut K)>(&mut self, alloc: Global, make: F) -> Result<u32, Fault>
        requires { F.IsAlwaysCallable make }
        ensures running { IsRunning self.old.node.state
            → (self.new ≡ self.old) × (result ≡ Err (Fault.Refused Refusal.Busy)) }
        ensures stopped { (¬ IsRunning self.old.node.state)
            → (made : K) × FnOnceReturnsAtMut F.FnOnce make self.old.keeper tt made
            × (K.custody.is_honest self.new.keeper → K.custody.is_honest made
            × Follows (λ k k'. Reopens self.old.node k result self.new.node k')
            (K.custody.may_hold made) (K.custody.may_hold self.new.keeper)) }
        ensures desks { length self.new.node.views ≡ length self.old.node.views }
        ensures number { self.new.node.number ≡ self.old.node.number }
        ensures cause { let left = self.new.keeper in
            IfErr result (λ fault. fault ≡ Fault.KeeperFailed
            → (made : K) × FnOnceReturnsAtMut F.FnOnce make self.old.keeper tt made
            × (IsTrue (K.custody.is_broken left)
            ⊎ (K.custody.is_honest left → K.custody.has_bad_row made))) }
        ensures broken { (¬ IsRunning self.old.node.state)
            → (made : K) × FnOnceReturnsAtMut F.FnOnce make self.old.keeper tt made
            × (IsTrue (K.custody.is_broken made) → K.custody.number made ≡ self.old.node.number
            → result ≡ Err Fault.KeeperFailed) }
        ensures other { (¬ IsRunning self.old.node.state)
            → (made : K) × FnOnceReturnsAtMut F.FnOnce make self.old.keeper tt made
            × (K.custody.number made ≢ self.old.node.number → result ≡ Err Fault.WrongNode) }
    {
        let Err(_) = running(&self.state) else {
            return Err(Fault::Refused(Refusal::Busy));
        };
        make(&mut self.keeper);
        self.open_again(alloc)
    }

    /// Gives the keeper of a stopped node away, and opens the node again over the one that comes
    /// back, as `restart` does. A node that runs answers `Busy`, and is left as it is.
    pub fn reopen<F: FnOnce(K) -> K>(self, alloc: Global, make: F) -> (Node<K>, Result<u32, Fault>)
        requires { F.IsAlwaysCallable make }
        ensures number { result.0.node.number ≡ self.node.number }
        ensures desks { length result.0.node.views ≡ length self.node.views }
        ensures running { IsRunning self.node.state
            → (result.0 ≡ self) × (result.1 ≡ Err (Fault.Refused Refusal.Busy)) }
        ensures stopped { (IsRunning self.node.state → ⊥)
            → (made : K) × F.post make self.keeper made
            × (K.custody.is_honest result.0.keeper → K.custody.is_honest made
            × Follows (λ k k'. Reopens self.node k result.1 result.0.node k')
            (K.custody.may_hold made) (K.custody.may_hold result.0.keeper)) }
        ensures cause { let left = result.0.keeper in
            IfErr result.1 (λ fault. fault ≡ Fault.KeeperFailed
            → (made : K) × F.post make self.keeper made
            × (IsTrue (K.custody.is_broken left)
            ⊎ (K.custody.is_honest left → K.custody.has_bad_row made))) }
        ensures broken { (¬ IsRunning self.node.state) → (made : K) × F.post make self.keeper made
            × (IsTrue (K.custody.is_broken made) → K.custody.number made ≡ self.node.number
            → result.1 ≡ Err Fault.KeeperFailed) }
        ensures other { (¬ IsRunning self.node.state) → (made : K) × F.post make self.keeper made
            × (K.custody.number made ≢ self.node.number → result.1 ≡ Err Fault.WrongNode) }
    {
        let Err(_) = running(&self.state) else {
            return (self, Err(Fault::Refused(Refusal::Busy)));
        };
        let Node {
            keeper,
            number,
            boot,
            saved,
            listing,
            state,
            benches,
        } = self;
        let mut node = Node {
            keeper: make(keeper),
            number,
            boot,
            saved,
            listing,
            state,
            benches,
        };
        let result = node.open_again(alloc);
        (node, result)
    }
}
