//! A registrar, call by call.
ghost use Rattle.std.specs.Prelude.{◌≡◌, ◌≢◌, ◌↔◌, ◌++◌, ◌∷◌, ℕ, [], Option, None, Some, Ok, Err};
ghost use Rattle.std.specs.Prelude.{false, IsTrue, IsSome, IfOk, IfErr, OnOk, OnErr};
ghost use Rattle.std.specs.Prelude.{set as put_at, slice_get};
ghost use Rattle.fl_labels.specs.declared.name.Name.{Name};
ghost use Rattle.fl_store.specs.Kept.{Kept};
ghost use Rattle.fl_gossip.specs.Taking.{ops_of as brought_by};
ghost use Rattle.fl_system.specs.State.{ops_in};
ghost use Rattle.fl_system.specs.declared.state.State.TheVariants.{Running};
ghost use Rattle.fl_system.specs.declared.state.Pending.TheVariants.{Nothing};
ghost use Rattle.fl_system.specs.Naming.{IsNextAfter};
ghost use Rattle.fl_jobs.specs.declared.job.Job.{Job};
ghost use Rattle.fl_crew_model.specs.Answered.{AreOwn};
ghost use Rattle.fl_crew_model.specs.Compared.{Rise, decisions_of};
ghost use Rattle.fl_crew_model.specs.declared.record.Deed.TheVariants.{Decided, Delivered};
ghost use Rattle.fl_crew_model.specs.declared.record.Ruling.TheVariants.{GivenUp};
ghost use Rattle.fl_crew_model.specs.declared.record.Reason.TheVariants.{Busy};
ghost use Rattle.fl_registrar.specs.Passing.{Passes};
ghost use Rattle.fl_registrar.specs.Publishing.{IsSameButList};
ghost use Rattle.fl_registrar.specs.Taking.{news_of, gained, due_once, delivery_of};
ghost use Rattle.fl_registrar.specs.parts.Takes.{Takes};
ghost use Rattle.fl_registrar.specs.Ruling.{HasRoom, Awaits, decision_of, published_by};
ghost use Rattle.fl_registrar.specs.Ruling.{due_after, worker_awaited, IsOf};
ghost use Rattle.fl_registrar.specs.Going.{GoesOn};
ghost use Rattle.fl_registrar.specs.Listing.{ListsHonestly};
ghost use Rattle.fl_registrar.specs.Apart.{AreAwaited, AreApart};
ghost use Rattle.fl_registrar.specs.Stopping.{failed_after, stopped_after, IsHalt, HasFailed};
ghost use Rattle.fl_registrar.specs.parts.Rules.{Rules};

use crate::awaited::{Awaited, ends_before, is_awaited, worker_at};
use crate::parcel::{Parcel, Receipt, declined, late, taken};
use crate::saving::{Saving, news, save};
use crate::waiting::{Stage, Waiting, publish};
use fl_crew_model::laws::law_registrar;
use fl_crew_model::record::{Decision, Deed, Delivery, FailedOrder, Reason, Ruling};
use fl_jobs::answer::Refusal;
use fl_labels::pid::Pid;
use fl_node::node::Node;
use fl_ops::op::{Body, Op};
use fl_replica::press::Press;
use fl_store::keeper::Keeper;
use fl_system::answer::Fault;
use fl_system::state::Batch;
use std::alloc::{AllocError, Global};
use std::marker::Model;
use std::mem::replace;
use std::sync::Wait;

/// Who names, saves and publishes what the workers of a crew order, and takes packets of
/// operations: first in its node, then on its press. Of each deed it writes a row of its record.
///
/// It is not dropped: [`Registrar::into_parts`] ends it.
pub struct Registrar<K: Keeper> {
    node: Node<K>,
    press: Press,
    due: Option<Waiting>,
    orders: Vec<Option<Awaited>>,
    deeds: Vec<Deed>,
    failed: Option<FailedOrder>,
    is_stopped: bool,
}

impl<K: Keeper> Model for Registrar<K> {
    ghost use Rattle.std.specs.Prelude.{vec_capacity};
    ghost use Rattle.fl_registrar.specs.Over.{RegistrarOver, coded_registrar};
    ghost use Rattle.fl_registrar.specs.parts.Sound.{IsSound, due_of};

    ghost Value = { RegistrarOver K };

    ghost coded = { coded_registrar K.code };

    ghost view = { λ a. record {
      node = a.node;
      press = a.press;
      due = due_of a.due;
      orders = a.orders.items;
      deeds = a.deeds.items;
      rows = vec_capacity a.deeds;
      failed = a.failed;
      stopped = a.is_stopped;
    } };

    ghost invariant = { λ a. IsSound K.custody a.node.keeper a.node.node a.press a.due
        a.is_stopped };
}

impl<K: Keeper> Registrar<K> {
    /// The registrar of a node that runs, with nothing on its way, and of a press with the node's
    /// list and nothing staged. No order is awaited, and the record has no row. Takes no memory.
    pub fn new(alloc: Global, node: Node<K>, press: Press) -> Registrar<K>
        requires idle { K.custody.is_honest node.keeper → (k : Kept)
            → K.custody.may_hold node.keeper k → node.node.state ≡ Running Nothing }
        requires none { press.staged ≡ [] }
        requires list { press.list ≡ node.node.published }
        ensures { result ≡ record {
          node = node;
          press = press;
          due = None;
          orders = [];
          deeds = [];
          rows = 0;
          failed = None;
          stopped = false;
        } }
    {
        Registrar {
            node,
            press,
            due: None,
            orders: Vec::new(alloc),
            deeds: Vec::new(alloc),
            failed: None,
            is_stopped: false,
        }
    }

    /// The node and the press, without the registrar. What is due is forgotten.
    pub fn into_parts(self) -> (Node<K>, Press)
        ensures node { result.0 ≡ self.node }
        ensures press { result.1 ≡ self.press }
    {
        let Registrar {
            node,
            press,
            due: _,
            orders: _,
            deeds: _,
            failed: _,
            is_stopped: _,
        } = self;
        (node, press)
    }

    /// The node. It may have published what is not yet on the press.
    pub fn node(&self) -> &Node<K>
        ensures { result.now ≡ self.now.node }
    {
        &self.node
    }

    /// The press.
    pub fn press(&self) -> &Press
        ensures { result.now ≡ self.now.press }
    {
        &self.press
    }

    /// What is true of every registrar: while it is not stopped, and its keeper is honest, its node
    /// has published what the press has, and of what is due to that all, or nothing.
    pub fn law_listed(&self)
        ensures { self.now.stopped ≡ false → ListsHonestly K.custody self.now.node.keeper
            self.now.node.node self.now.press.list self.now.due }
    {
        let _due = &self.due;
    }

    /// Whether its keeper broke, so that it does nothing any more.
    pub fn is_stopped(&self) -> bool
        ensures { result ≡ self.now.stopped }
    {
        self.is_stopped
    }

    /// The order at which its keeper broke, or none where it did at none: it may have broken at a
    /// packet.
    pub fn failed(&self) -> Option<FailedOrder>
        ensures { result ≡ self.now.failed }
    {
        self.failed
    }

    /// Whether it is not stopped, and its record has a row left.
    pub fn has_room(&self) -> bool
        ensures { IsTrue result ↔ HasRoom self.now }
    {
        !self.is_stopped && self.deeds.len() < self.deeds.capacity()
    }

    /// The worker whose order is awaited at this place, or none where none is.
    pub fn worker_at(&self, place: usize) -> Option<u8>
        ensures { result ≡ worker_awaited (slice_get self.now.orders place) }
    {
        worker_at(&self.orders, place)
    }

    /// Whether an order of this worker for this body is ruled on, where it is given for this place
    /// now: one is awaited there, no order of the worker for that place or a later one was ruled
    /// on, the registrar runs, and its record has a row left. Takes as long as there are rows
    /// behind the last ruling on an order of the worker.
    pub fn awaits(&self, worker: u8, place: usize, body: Body) -> bool
        ensures { IsTrue result ↔ Awaits self.now worker place body }
    {
        self.has_room()
            && is_awaited(&self.orders, worker, place, body)
            && ends_before(worker, place, &self.deeds)
    }

    /// Publishes what is due, first in the node where it is due there, then on the press, and gives
    /// it back, or none where nothing is due. Its maker, if it has one, is then to be finished.
    ///
    /// Fails only where there was no memory: it stays due, and what is saved, the list and the
    /// record are as before.
    pub fn clear<R: Wait>(&mut self, rt: &R, alloc: Global) -> Result<Option<Batch>, AllocError>
        ensures given { IfOk result (λ batch. batch ≡ self.old.due) }
        ensures ok { OnOk result
            (self.new.press.list ≡ self.old.press.list ++ ops_in self.old.due) }
        ensures none { OnOk result (self.new.due ≡ None) }
        ensures due { OnErr result (self.new.due ≡ self.old.due) }
        ensures err { OnErr result (self.new.press.list ≡ self.old.press.list) }
        ensures some { OnErr result (IsSome self.old.due) }
        ensures node { IsSameButList self.old.node self.new.node }
        ensures board { self.new.press.board ≡ self.old.press.board }
        ensures orders { self.new.orders ≡ self.old.orders }
        ensures deeds { self.new.deeds ≡ self.old.deeds }
        ensures rows { self.new.rows ≡ self.old.rows }
        ensures at { self.new.failed ≡ self.old.failed }
        ensures stopped { self.new.stopped ≡ self.old.stopped }
    {
        let Some(mut waiting) = self.due.take() else {
            return Ok(None);
        };
        match publish(rt, alloc, &mut self.node, &mut self.press, &mut waiting) {
            Ok(()) => Ok(Some(waiting.batch)),
            Err(error) => {
                self.due = Some(waiting);
                Err(error)
            }
        }
    }

    // Rules on an order.
    fn rule<R: Wait>(
        &mut self,
        rt: &R,
        alloc: Global,
        worker: u8,
        body: Body,
        pid: Pid,
    ) -> Result<Ruling, Fault>
        requires { self.old.stopped ≡ false }
        ensures list { IfOk result
            (λ ruling. self.new.press.list ≡ self.old.press.list ++ published_by ruling) }
        ensures due { IfOk result
            (λ ruling. self.new.due ≡ due_after self.old.due worker ruling) }
        ensures own { IfOk result (IsOf body pid) }
        ensures busy { (result ≡ Ok (GivenUp Busy)) ↔ IsSome self.old.due }
        ensures fault { IfErr result (λ fault. fault ≡ Fault.KeeperFailed) }
        ensures broken { OnErr result (IsTrue (K.custody.is_broken self.new.node.keeper)) }
        ensures next { OnErr result ((name : Name)
            × IsNextAfter self.old.node.node.saved self.old.node.node.number name) }
        ensures err { OnErr result (self.new.press.list ≡ self.old.press.list) }
        ensures idle { OnErr result ((self.old.due ≡ None) × (self.new.due ≡ None)) }
        ensures saved { OnErr result (self.new.node.node.saved ≡ self.old.node.node.saved) }
        ensures stopped { self.new.stopped ≡ stopped_after self.old.stopped result }
        ensures number { self.new.node.node.number ≡ self.old.node.node.number }
        ensures boot { self.new.node.node.boot ≡ self.old.node.node.boot }
        ensures keeper { K.custody.number self.new.node.keeper
            ≡ K.custody.number self.old.node.keeper }
        ensures board { self.new.press.board ≡ self.old.press.board }
        ensures orders { self.new.orders ≡ self.old.orders }
        ensures deeds { self.new.deeds ≡ self.old.deeds }
        ensures rows { self.new.rows ≡ self.old.rows }
        ensures at { self.new.failed ≡ self.old.failed }
        ensures rules { Passes K.custody (Rules self.old worker result self.new)
            self.old.node.keeper self.new.node.keeper }
    {
        if self.due.is_some() {
            return Ok(Ruling::GivenUp(Reason::Busy));
        }
        law_registrar();
        let Ok(name) = self.node.begin(body, None) else {
            return Ok(Ruling::GivenUp(Reason::NamesSpent));
        };
        match save(&mut self.node) {
            Saving::Saved => {}
            Saving::NoMemory => return Ok(Ruling::GivenUp(Reason::Memory)),
            Saving::Broken => {
                self.is_stopped = true;
                return Err(Fault::KeeperFailed);
            }
        }
        let op = Op { name, body };
        self.due = Some(Waiting {
            batch: Batch::Ordered(op, Some(pid), Some(worker)),
            stage: Stage::Saved,
        });
        if self.clear(rt, alloc).is_err() {
            return Ok(Ruling::Late(op, pid));
        }
        Ok(Ruling::Made(op))
    }

    /// Rules on an order, as its maker gave it at the worker for this place, and writes that down.
    ///
    /// Its operation gets the next name after the saved ones of the node, is saved, and is
    /// published, first in the node and then on the press. It is late where there was no memory to
    /// publish it: it is then due, for its maker at the worker. It is given up, and nothing is
    /// saved, where something is due already (`Busy`), where no name is left (`NamesSpent`), and
    /// where there was no memory to save it (`Memory`). From then on no order is awaited at the
    /// place.
    ///
    /// - `Stopped`: no such order is awaited, as [`Registrar::awaits`] tells. Nothing has changed.
    /// - `KeeperFailed`: the keeper broke. The registrar is stopped, with its list and its record
    ///   as before, and nothing due.
    ///
    /// Costs what [`Registrar::awaits`] does, and what `Node::save`, `Node::publish` and
    /// `Press::publish` do of one operation.
    pub fn decide<R: Wait>(
        &mut self,
        rt: &R,
        alloc: Global,
        worker: u8,
        place: usize,
        body: Body,
        pid: Pid,
    ) -> Result<Ruling, Fault>
        ensures deed { IfOk result (λ ruling. self.new.deeds ≡ self.old.deeds
            ++ Decided (decision_of self.old self.new worker place ruling) ∷ []) }
        ensures orders { IfOk result
            (λ ruling. self.new.orders ≡ put_at self.old.orders place None) }
        ensures list { IfOk result
            (λ ruling. self.new.press.list ≡ self.old.press.list ++ published_by ruling) }
        ensures due { IfOk result
            (λ ruling. self.new.due ≡ due_after self.old.due worker ruling) }
        ensures its { IfOk result (IsOf body pid) }
        ensures busy { Awaits self.old worker place body
            → (result ≡ Ok (GivenUp Busy)) ↔ IsSome self.old.due }
        ensures awaited { (result ≡ Err Fault.Stopped) ↔ (¬ Awaits self.old worker place body) }
        ensures ruled { result ≢ Err Fault.Stopped → Awaits self.old worker place body }
        // The places of the decisions on each worker's orders rise.
        ensures rises { (w : ℕ) → Rise (decisions_of w self.old.deeds)
            → Rise (decisions_of w self.new.deeds) }
        ensures at { self.new.failed ≡ failed_after self.old.failed worker place result }
        ensures fault { IfErr result IsHalt }
        ensures same { result ≡ Err Fault.Stopped → self.new ≡ self.old }
        ensures broken { result ≡ Err Fault.KeeperFailed
            → IsTrue (K.custody.is_broken self.new.node.keeper) }
        ensures next { result ≡ Err Fault.KeeperFailed → (name : Name)
            × IsNextAfter self.old.node.node.saved self.old.node.node.number name }
        ensures failed { result ≡ Err Fault.KeeperFailed → HasFailed self.old self.new }
        ensures stopped { self.new.stopped ≡ stopped_after self.old.stopped result }
        ensures number { self.new.node.node.number ≡ self.old.node.node.number }
        ensures boot { self.new.node.node.boot ≡ self.old.node.node.boot }
        ensures keeper { K.custody.number self.new.node.keeper
            ≡ K.custody.number self.old.node.keeper }
        ensures board { self.new.press.board ≡ self.old.press.board }
        ensures rows { self.new.rows ≡ self.old.rows }
        ensures own { (jobs : ℕ → ℕ → Option Job) → AreAwaited jobs self.old.orders
            → AreOwn jobs self.old.deeds → AreOwn jobs self.new.deeds }
        ensures left { (jobs : ℕ → ℕ → Option Job) → AreAwaited jobs self.old.orders
            → AreAwaited jobs self.new.orders }
        ensures apart { AreApart self.old.orders self.old.deeds
            → AreApart self.new.orders self.new.deeds }
        ensures goes { Passes K.custody (GoesOn self.old self.new)
            self.old.node.keeper self.new.node.keeper }
    {
        if !self.awaits(worker, place, body) {
            return Err(Fault::Stopped);
        }
        law_registrar();
        let before = self.press.list().len() as u64;
        let ruling = match self.rule(rt, alloc, worker, body, pid) {
            Ok(ruling) => ruling,
            Err(fault) => {
                self.failed = Some(FailedOrder { worker, place });
                return Err(fault);
            }
        };
        let after = self.press.list().len() as u64;
        self.orders[place] = None;
        self.deeds.push_reserved(Deed::Decided(Decision {
            worker,
            place,
            ruling,
            before,
            after,
        }));
        Ok(ruling)
    }

    // Takes what is new of a packet, or declines it.
    fn take<R: Wait>(&mut self, rt: &R, alloc: Global, parcel: &Parcel) -> Result<Receipt, Fault>
        requires { self.old.stopped ≡ false }
        ensures list { let new = news_of self.old.node.node.saved (brought_by parcel.now.packet) in
            IfOk result (λ receipt. self.new.press.list
            ≡ self.old.press.list ++ gained receipt.verdict new) }
        ensures due { let new = news_of self.old.node.node.saved (brought_by parcel.now.packet) in
            IfOk result (λ receipt. self.new.due ≡ due_once self.old.due receipt.verdict new) }
        ensures answer { IfOk result (λ receipt. receipt.answer ≢ Err Fault.KeeperFailed) }
        ensures fault { IfErr result (λ fault. fault ≡ Fault.KeeperFailed) }
        ensures broken { OnErr result (IsTrue (K.custody.is_broken self.new.node.keeper)) }
        ensures failed { OnErr result (HasFailed self.old self.new) }
        ensures stopped { self.new.stopped ≡ stopped_after self.old.stopped result }
        ensures number { self.new.node.node.number ≡ self.old.node.node.number }
        ensures boot { self.new.node.node.boot ≡ self.old.node.node.boot }
        ensures keeper { K.custody.number self.new.node.keeper
            ≡ K.custody.number self.old.node.keeper }
        ensures board { self.new.press.board ≡ self.old.press.board }
        ensures orders { self.new.orders ≡ self.old.orders }
        ensures deeds { self.new.deeds ≡ self.old.deeds }
        ensures rows { self.new.rows ≡ self.old.rows }
        ensures at { self.new.failed ≡ self.old.failed }
        ensures takes { Passes K.custody
            (Takes self.old (brought_by parcel.now.packet) result self.new)
            self.old.node.keeper self.new.node.keeper }
    {
        law_registrar();
        let count = match self.node.receive(alloc, &parcel.packet) {
            Ok(count) => count,
            Err(fault) => return Ok(declined(Err(fault))),
        };
        if count == 0 {
            return Ok(declined(Ok(0)));
        }
        if self.due.is_some() {
            let _ = self.node.cancel();
            return Ok(declined(Err(Fault::Refused(Refusal::Busy))));
        }
        let Ok(new) = news(alloc, self.node.saved(), parcel.ops.as_slice()) else {
            let _ = self.node.cancel();
            return Ok(declined(Err(Fault::Refused(Refusal::Memory))));
        };
        match save(&mut self.node) {
            Saving::Saved => {}
            Saving::NoMemory => return Ok(declined(Err(Fault::Refused(Refusal::Memory)))),
            Saving::Broken => {
                self.is_stopped = true;
                return Err(Fault::KeeperFailed);
            }
        }
        self.due = Some(Waiting {
            batch: Batch::Received(new),
            stage: Stage::Saved,
        });
        if self.clear(rt, alloc).is_err() {
            return Ok(late());
        }
        Ok(taken(count))
    }

    /// Takes what a packet brings that is not saved, or declines it, and writes that down.
    ///
    /// What is new is saved, and published, first in the node and then on the press. It is late,
    /// and answered `Memory`, where there was no memory to publish it: it is due then. A packet is
    /// declined, and nothing is saved, with 0 where nothing is new, with `Impostor` and `Clash` as
    /// `Node::receive` has them, with `Busy` where something is due, and with `Memory` where there
    /// was none before it was saved.
    ///
    /// - `Stopped`: the registrar is stopped, or its record has no row left. Nothing has changed.
    /// - `KeeperFailed`: as [`Registrar::decide`] has it.
    ///
    /// Costs what `Node::receive`, `Node::save`, `Node::publish` and `Press::publish` do, and a
    /// binary search for each operation and a copy of what is new.
    pub fn receive<R: Wait>(
        &mut self,
        rt: &R,
        alloc: Global,
        place: usize,
        parcel: Parcel,
    ) -> Result<Receipt, Fault>
        ensures deed { IfOk result (λ receipt. self.new.deeds ≡ self.old.deeds
            ++ Delivered (delivery_of self.old self.new place
            (brought_by parcel.packet) receipt) ∷ []) }
        ensures list { let new = news_of self.old.node.node.saved (brought_by parcel.packet) in
            IfOk result (λ receipt. self.new.press.list
            ≡ self.old.press.list ++ gained receipt.verdict new) }
        ensures due { let new = news_of self.old.node.node.saved (brought_by parcel.packet) in
            IfOk result (λ receipt. self.new.due ≡ due_once self.old.due receipt.verdict new) }
        ensures room { (result ≡ Err Fault.Stopped) ↔ (¬ HasRoom self.old) }
        ensures runs { result ≢ Err Fault.Stopped → HasRoom self.old }
        ensures answer { IfOk result (λ receipt. receipt.answer ≢ Err Fault.KeeperFailed) }
        ensures fault { IfErr result IsHalt }
        ensures same { result ≡ Err Fault.Stopped → self.new ≡ self.old }
        ensures broken { result ≡ Err Fault.KeeperFailed
            → IsTrue (K.custody.is_broken self.new.node.keeper) }
        ensures failed { result ≡ Err Fault.KeeperFailed → HasFailed self.old self.new }
        ensures stopped { self.new.stopped ≡ stopped_after self.old.stopped result }
        ensures number { self.new.node.node.number ≡ self.old.node.node.number }
        ensures boot { self.new.node.node.boot ≡ self.old.node.node.boot }
        ensures keeper { K.custody.number self.new.node.keeper
            ≡ K.custody.number self.old.node.keeper }
        ensures board { self.new.press.board ≡ self.old.press.board }
        ensures orders { self.new.orders ≡ self.old.orders }
        ensures rows { self.new.rows ≡ self.old.rows }
        ensures at { self.new.failed ≡ self.old.failed }
        ensures rises { (w : ℕ) → Rise (decisions_of w self.old.deeds)
            → Rise (decisions_of w self.new.deeds) }
        ensures own { (jobs : ℕ → ℕ → Option Job) → AreOwn jobs self.old.deeds
            → AreOwn jobs self.new.deeds }
        ensures apart { AreApart self.old.orders self.old.deeds
            → AreApart self.new.orders self.new.deeds }
        ensures goes { Passes K.custody (GoesOn self.old self.new)
            self.old.node.keeper self.new.node.keeper }
    {
        if !self.has_room() {
            return Err(Fault::Stopped);
        }
        law_registrar();
        let before = self.press.list().len() as u64;
        let receipt = self.take(rt, alloc, &parcel)?;
        let after = self.press.list().len() as u64;
        self.deeds.push_reserved(Deed::Delivered(Delivery {
            place,
            ops: parcel.into_ops(),
            verdict: receipt.verdict,
            answer: receipt.answer,
            before,
            after,
        }));
        Ok(receipt)
    }

    /// Begins a batch: these orders are awaited, the keeper broke at none of them, and the record
    /// is empty, with room for so many rows. It needs one for each order that is awaited and each
    /// packet.
    ///
    /// Fails only where there was no memory for the rows. Nothing has changed then.
    pub fn begin_batch(
        &mut self,
        alloc: Global,
        orders: Vec<Option<Awaited>>,
        rows: usize,
    ) -> Result<(), AllocError>
        ensures ok { OnOk result (self.new ≡ record self.old {
          orders = orders.items;
          deeds = [];
          rows = rows;
          failed = None;
        }) }
        ensures err { OnErr result (self.new ≡ self.old) }
    {
        self.deeds = Vec::with_capacity(alloc, rows)?;
        self.orders = orders;
        self.failed = None;
        Ok(())
    }

    /// Ends the batch, and gives its record. No order is awaited from then on, and there is no row
    /// any more. Takes no memory.
    pub fn end_batch(&mut self, alloc: Global) -> Vec<Deed>
        ensures deeds { result.items ≡ self.old.deeds }
        ensures left { self.new ≡ record self.old { orders = []; deeds = []; rows = 0 } }
    {
        self.orders = Vec::new(alloc);
        replace(&mut self.deeds, Vec::new(alloc))
    }
}
