//! The seats of a crew, with its workers at their desks.
ghost use Rattle.std.specs.Prelude.{◌≡◌, ◌≤◌, ◌+◌, ◌↔◌, Err, IfOk, OnOk, OnErr, IsTrue, true};
ghost use Rattle.std.specs.Prelude.{length};
ghost use Rattle.fl_dealing.specs.Dealt.{procs_behind};
ghost use Rattle.fl_dealing.specs.Gathered.{StandFrom};
ghost use Rattle.fl_registrar.specs.Passing.{Passes};
ghost use Rattle.fl_workers.specs.Batches.{IsBrokenThere, IsStill, IsUnbegun, Serves, items_for};

use crate::fault::CrewFault;
use crate::planning::{Plan, Room, plan_for};
use crate::working::work;
use fl_bench_laws::laws::law_memory;
use fl_crew_model::laws::{law_answered, law_weave};
use fl_crew_threads::lines::Lines;
use fl_dealing::entry::Entry;
use fl_dealing::item::items_of;
use fl_jobs::job::Job;
use fl_manning::beginning::begin;
use fl_manning::ending::{collect, settle};
use fl_node::node::Node;
use fl_registrar::registrar::Registrar;
use fl_store::keeper::Keeper;
use fl_wire::packet::Packet;
use fl_worker::gate::Gate;
use fl_worker::worker::{Worker, law_answered as law_served};
use std::alloc::Global;
use std::marker::Model;
use std::sync::{Arc, Wait};
use std::thread::Threads;

/// A registrar with its workers, and their lines.
pub(crate) struct Manned<K: Keeper> {
    pub(crate) registrar: Registrar<K>,
    pub(crate) workers: Vec<Worker>,
    pub(crate) lines: Lines,
    /// The place of the bench that makes the next process.
    pub(crate) procs: u8,
    pub(crate) is_stopped: bool,
}

impl<K: Keeper> Model for Manned<K> {
    ghost use Rattle.fl_workers.specs.Over.{CrewOver, coded_crew};
    ghost use Rattle.fl_workers.specs.Seats.{IsManned, manned_of};

    ghost Value = { CrewOver K };

    ghost coded = { coded_crew K.code };

    ghost view = { λ a. manned_of a.workers.items a.registrar a.procs a.is_stopped };

    ghost invariant = { λ a. IsManned a.workers.items a.registrar a.lines.workers a.procs
        a.is_stopped };
}

// Whether a crew goes on: nothing contradicts, and its lines are not closed.
fn goes_on(fine: bool, lines: &Lines, workers: &[Worker]) -> bool
    ensures fine { IsTrue result → IsTrue fine }
    ensures lines { IsTrue result → lines.now.workers ≡ length workers.now }
{
    fine && lines.workers as usize == workers.len()
}

impl<K: Keeper> Manned<K> {
    /// Serves a batch, as `Crew::batch` has it.
    pub(crate) fn batch<
        R: Threads + Wait + Sync + Send + Copy + Drop + 'static,
        G: Gate + Send + Drop + 'static,
    >(
        &mut self,
        rt: R,
        alloc: Global,
        gate: Arc<G, Global>,
        jobs: Vec<Job>,
        packets: Vec<Packet>,
    ) -> Result<Vec<Entry>, CrewFault>
        ensures refused { (result ≡ Err CrewFault.Stopped) ↔ (self.old.stopped ≡ true) }
        ensures err { OnErr result (IsUnbegun self.old self.new) }
        ensures still { IsStill self.old self.new }
        ensures seats { length self.new.benches ≡ self.new.size }
        ensures count { IfOk result (λ es.
            length es.items ≡ length jobs.items + length packets.items) }
        ensures places { IfOk result (λ es. StandFrom 0 es.items) }
        ensures procs { IfOk result (λ es. self.new.procs
            ≡ procs_behind self.old.size self.old.procs (items_for jobs.items packets.items)) }
        ensures serves { IfOk result (λ es. Passes K.custody
            (Serves K.custody self.old self.new (items_for jobs.items packets.items) es.items)
            self.old.node.keeper self.new.node.keeper) }
        ensures broken { OnOk result (IsBrokenThere K.custody self.new) }
    {
        if self.is_stopped {
            return Err(CrewFault::Stopped);
        }
        law_answered();
        law_weave();
        law_served();
        law_memory();
        let items = items_of(alloc, jobs, packets)?;
        let Plan {
            queues,
            owners,
            orders,
            packets,
            procs,
            room,
        } = plan_for(alloc, self.workers.len() as u8, self.procs, items)?;
        let rows = owners.len();
        let workers = &mut self.workers;
        let registrar = &mut self.registrar;
        let Ok(()) = begin(&rt, alloc, registrar, workers, queues, orders, rows) else {
            return Err(CrewFault::Memory);
        };
        self.procs = procs;
        let first = self.registrar.press().list().len() as u64;
        let Room {
            mut taken,
            lanes,
            entries,
        } = room;
        work(
            rt,
            alloc,
            gate,
            &mut self.workers,
            &mut self.registrar,
            &mut self.lines,
            packets,
            &mut taken,
        );
        let fine = settle(
            alloc,
            &mut self.registrar,
            &mut self.workers,
            taken.as_slice(),
            first,
        );
        self.is_stopped = !goes_on(fine, &self.lines, &self.workers);
        Ok(collect(alloc, &mut self.workers, &owners, taken, lanes, entries))
    }

    /// How many workers it has.
    pub(crate) fn size(&self) -> u8
        ensures size { result ≡ self.now.size }
        ensures some { 1 ≤ result }
        ensures few { result ≤ 16 }
    {
        self.workers.len() as u8
    }

    /// Its node, without the seats. The press is closed.
    pub(crate) fn into_node<R: Wait>(self, rt: &R) -> Node<K>
        ensures { result ≡ self.node }
    {
        let Manned {
            registrar,
            workers: _,
            lines: _,
            procs: _,
            is_stopped: _,
        } = self;
        let (node, press) = registrar.into_parts();
        press.close(rt);
        node
    }
}
