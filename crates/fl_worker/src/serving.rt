//! One task of a worker.
ghost use Rattle.std.specs.Prelude.{◌≡◌, MatchResult};
ghost use Rattle.fl_replica.specs.Boards.{StartsWith};
ghost use Rattle.fl_system.specs.declared.answer.Fault.TheVariants as faults;
ghost use Rattle.fl_crew_model.specs.declared.record.Told as told;
ghost use Rattle.fl_worker.specs.parts.Turns.{IsRight, IsLast};

use crate::deciding::decide;
use crate::ends::Ends;
use crate::ordering::{Answered, settle};
use crate::task::Task;
use fl_crew_model::record::{Entry, Told};
use fl_jobs::job::Job;
use fl_monitor::bench::Bench;
use fl_replica::desk::Desk;
use fl_system::answer::Fault;
use std::alloc::Global;
use std::snapshot::Snapshot;
use std::sync::Wait;

// The entry of a job that is not done.
pub(crate) fn undone(place: usize, job: Snapshot<Job>, seen: u64, fault: Fault) -> Entry
    ensures place { result.place ≡ place }
    ensures job { result.job.value ≡ job.value }
    ensures seen { result.seen ≡ seen }
    ensures told { result.told ≡ told.Told.Refused fault }
{
    Entry {
        place,
        job,
        told: Told::Refused(fault),
        seen,
        ruling: None,
    }
}

// Serves a task, under one look, which has ended before the registrar is asked. Answers a right
// entry, or that of a worker that stops, and then leaves the bench as it was.
pub(crate) fn serve_one<R: Wait>(
    rt: &R,
    alloc: Global,
    desk: Desk,
    bench: &mut Bench,
    ends: &mut Ends,
    task: Task,
) -> (Desk, Result<Entry, Entry>)
    ensures board { result.0.board ≡ desk.board }
    ensures later { StartsWith result.0.list desk.list }
    ensures entry { MatchResult result.1 (IsRight task result.0.list bench.old bench.new)
        (IsLast task result.0.list bench.old bench.new) }
{
    let Task { place, job } = task;
    let asked = Snapshot::of(&job);
    let (desk, answer) = decide(alloc, desk, bench, job);
    let seen = desk.seen();
    let Some(answer) = answer else {
        return (desk, Err(undone(place, asked, seen, Fault::Stopped)));
    };
    match settle(rt, bench, ends, place, answer) {
        Ok(answered) => {
            let Answered { told, ruling } = answered;
            let entry = Entry {
                place,
                job: asked,
                told,
                seen,
                ruling,
            };
            (desk, Ok(entry))
        }
        Err(fault) => (desk, Err(undone(place, asked, seen, fault))),
    }
}
