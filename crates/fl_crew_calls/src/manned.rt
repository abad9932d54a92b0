//! A crew that may be dropped.
ghost use Rattle.std.specs.Prelude.{◌≡◌, ◌<◌, ◌≤◌, ◌+◌, ◌↔◌, Err, IfOk, IfErr, OnErr, OnOk, length, true};
ghost use Rattle.fl_crew_calls.specs.Asking.{IsRestarted, IsSeated};
ghost use Rattle.fl_crew_calls.specs.Batches.{IsServedBy};
ghost use Rattle.fl_workers.specs.Batches.{IsStill, IsUnbegun};
ghost use Rattle.fl_workers.specs.Seated.{NotOpened};

use crate::runtime::CrewRuntime;
use fl_jobs::job::Job;
use fl_labels::name::NodeNumber;
use fl_store::keeper::Keeper;
use fl_system::answer::Fault;
use fl_wire::packet::Packet;
use fl_workers::crew::Crew;
use fl_workers::entry::Entry;
use fl_workers::fault::CrewFault;
use fl_workers::gate::OpenGate;
use std::alloc::Global;
use std::marker::Model;
use std::sync::Wait;

/// A crew with what it waits by, so that it is closed where it is dropped. Contracts see the crew.
pub(crate) struct Manned<R: Wait, K: Keeper> {
    rt: R,
    crew: Crew<K, OpenGate>,
}

impl<R: Wait, K: Keeper> Model for Manned<R, K> {
    ghost use Rattle.fl_workers.specs.Over.{CrewOver, coded_crew};

    ghost Value = { CrewOver K };

    ghost coded = { coded_crew K.code };

    ghost view = { λ m. m.crew };
}

impl<R: Wait + Drop, K: Keeper + Drop> Drop for Manned<R, K> {
    fn drop(self) {
        let Manned { rt, crew } = self;
        let _keeper = crew.close(&rt);
    }
}

impl<R: CrewRuntime, K: Keeper + Drop> Manned<R, K> {
    /// A crew of so many workers at the node of this number, over this keeper. Refused as
    /// [`Crew::open`] has it; the keeper is dropped then.
    pub(crate) fn open(
        rt: R,
        alloc: Global,
        keeper: K,
        number: NodeNumber,
        workers: u8,
    ) -> Result<Self, Fault>
        requires number { 0 < number }
        requires some { 1 ≤ workers }
        requires few { workers ≤ 16 }
        ensures ok { IfOk result (λ made. IsSeated K.custody number workers keeper made) }
        ensures err { IfErr result (NotOpened K.custody number keeper) }
    {
        let crew = Crew::open(&rt, alloc, keeper, number, workers, OpenGate)?;
        Ok(Manned { rt, crew })
    }

    /// The crew.
    pub(crate) fn crew(&self) -> &Crew<K, OpenGate>
        ensures { result.now ≡ self.now }
    {
        &self.crew
    }

    /// Has the crew do the jobs, and take the packets, as [`Crew::batch`] has it.
    pub(crate) fn batch(
        &mut self,
        alloc: Global,
        jobs: Vec<Job>,
        packets: Vec<Packet>,
    ) -> Result<Vec<Entry>, CrewFault>
        ensures ok { IfOk result (λ es.
            IsServedBy K.custody self.old self.new jobs.items packets.items es.items) }
        ensures stopped { (result ≡ Err CrewFault.Stopped) ↔ (self.old.stopped ≡ true) }
        ensures err { OnErr result (IsUnbegun self.old self.new) }
        ensures still { IsStill self.old self.new }
    {
        self.crew.batch(self.rt, alloc, jobs, packets)
    }

    /// Ends the crew, and gives its keeper, as [`Crew::close`] has it.
    pub(crate) fn into_keeper(self) -> K
        ensures { result ≡ self.node.keeper }
    {
        let Manned { rt, crew } = self;
        crew.close(&rt)
    }

    /// Restarts the crew, as [`Crew::restart`] has it.
    pub(crate) fn restart(self, alloc: Global, keeps: bool) -> (Self, Result<u32, Fault>)
        ensures { IsRestarted K.custody keeps self result.0 result.1 }
    {
        let Manned { rt, crew } = self;
        let (crew, booted) = crew.restart(&rt, alloc, keeps);
        (Manned { rt, crew }, booted)
    }
}
