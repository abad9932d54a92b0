//! The law of crews beside worlds. The function does nothing: its contract is the law.
ghost use Rattle.std.specs.Prelude.{◌≡◌, ◌<◌, ◌∷◌, ℕ, List, [], false, Some};
ghost use Rattle.fl_jobs.specs.declared.job.Job.{Job};
ghost use Rattle.fl_store.specs.Kept.{Kept};
ghost use Rattle.fl_system.specs.declared.sent.Sent.{Sent};
ghost use Rattle.fl_system.specs.Numbered.{item_at};
ghost use Rattle.fl_system.specs.Openings.{opened as opened_node};
ghost use Rattle.fl_system.specs.World.{World};
ghost use Rattle.fl_dealing.specs.declared.entry.Entry.{Entry};
ghost use Rattle.fl_workers.specs.Over.{CrewOver};
ghost use Rattle.fl_workers.specs.Seated.{OpensCrew, seated_of};
ghost use Rattle.fl_crew_calls.specs.Asking.{is_window};
ghost use Rattle.fl_one_worker_calls.specs.Worlds.{AreAsked};
ghost use Rattle.fl_crew_worlds.specs.Worlds.{IsDone, IsNodeOf, RunsJobs, RunsPacket, Stands};

use fl_store::keeper::Keeper;

/// Where a crew, of any number of workers, stands for a node of a world, a batch of it is a run of
/// that world, and the crew stands for the node again. Each job of the batch is done at a moment of
/// the run, and answered what its entry says. It is not said that equal jobs have moments apart.
///
/// Requests for new processes that are refused stand in the run, too: such a request moves on where
/// the next process is born, so each is born where the crew has it.
pub fn law_crew_world<K: Keeper>()
    // A crew that was opened stands for the node that a world opens.
    ensures opened { (crew : CrewOver K) (number size : ℕ) (k k' : Kept) → 0 < size →
        crew ≡ seated_of crew.node size → OpensCrew number size k crew k' →
        IsNodeOf crew (opened_node size k) }
    ensures jobs { (w : World) (number : ℕ) (old new : CrewOver K) (jobs : List Job)
        (es : List Entry) → Stands w number old → IsDone old new jobs [] es → AreAsked jobs →
        RunsJobs w number new jobs es }
    // A packet that was sent, and is a batch of its own, comes to the node.
    ensures packet { (w : World) (number index : ℕ) (sent : Sent) (old new : CrewOver K)
        (es : List Entry) → Stands w number old → item_at w.packets index ≡ Some sent →
        is_window sent.packet ≡ false → IsDone old new [] (sent.packet ∷ []) es →
        RunsPacket w number new index es }
{}
