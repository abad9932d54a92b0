//! Laws of crews of one worker beside worlds. The function does nothing: its contract is the law.
ghost use Rattle.std.specs.Prelude.{◌≡◌, ◌≤◌, ◌∷◌, ℕ, List, [], false, length, Ok, Some};
ghost use Rattle.fl_jobs.specs.declared.job.Job.{Job};
ghost use Rattle.fl_system.specs.declared.event.Event.TheVariants as event;
ghost use Rattle.fl_system.specs.declared.reply.Reply.{Reply};
ghost use Rattle.fl_system.specs.declared.sent.Sent.{Sent};
ghost use Rattle.fl_system.specs.Numbered.{item_at};
ghost use Rattle.fl_system.specs.World.{World};
ghost use Rattle.fl_wire.specs.declared.packet.Packet.{Packet};
ghost use Rattle.fl_dealing.specs.declared.entry.Entry.{Entry};
ghost use Rattle.fl_workers.specs.Over.{CrewOver};
ghost use Rattle.fl_crew_calls.specs.Asking.{is_window};
ghost use Rattle.fl_crew_calls.specs.Batches.{ServesBatch};
ghost use Rattle.fl_crew_calls.specs.Over.{CrewsOver};
ghost use Rattle.fl_crew_calls.specs.Told.{all_sent, replies_behind};
ghost use Rattle.fl_one_worker_laws.specs.Single.{IsDone};
ghost use Rattle.fl_one_worker_calls.specs.Crews.{AreFew, AreSound, IsWorldOf, Leads};
ghost use Rattle.fl_one_worker_calls.specs.Worlds.{AreAsked, Follows, Stands, jobs_at, packets_in};

use fl_makers::maker::MakesKeepers;
use fl_one_worker_laws::laws::law_one_worker;
use fl_store::keeper::Keeper;

/// Where a crew of one worker stands for a node of a world, its batch is the lines of its jobs in
/// that world, one after another, each answered as its entry says, and the crew stands for the node
/// again. A message that is sent is the next packet.
pub fn law_one_worker_world<K: Keeper>()
    ensures jobs { (w : World) (number : ℕ) (old new : CrewOver K) (jobs : List Job)
        (es : List Entry) → Stands w number old → AreAsked jobs → IsDone old new jobs [] es →
        length new.list ≤ 18446744073709551615 →
        Follows w number (jobs_at number jobs) (replies_behind (packets_in w) es) (all_sent es)
        new }
    // A packet that is a batch of its own is the line that delivers it.
    ensures packet { (w : World) (number index : ℕ) (sent : Sent) (old new : CrewOver K)
        (es : List Entry) → Stands w number old → item_at w.packets index ≡ Some sent →
        is_window sent.packet ≡ false → IsDone old new [] (sent.packet ∷ []) es →
        length new.list ≤ 18446744073709551615 →
        Follows w number (event.Deliver index number ∷ []) (replies_behind (packets_in w) es)
        (all_sent es) new }
{
    law_one_worker::<K>();
}

/// A batch of a script over crews of one worker is the lines of its jobs in the world that the
/// crews stand for, one after another and each answered so, where no keeper fails, no crew stops
/// and nothing is left due. The crews stand for the world that the lines leave. So is a packet that
/// is a batch of its own, but a window.
pub fn law_one_worker_batch<M: MakesKeepers>()
    ensures jobs { (old new : CrewsOver M.K M) (w : World) (number : ℕ) (jobs : List Job)
        (replies : List Reply) → IsWorldOf old w → AreSound M.K.custody old →
        AreSound M.K.custody new → AreFew new → AreAsked jobs →
        ServesBatch M.K.custody old number jobs [] (Ok replies) new →
        Leads w (jobs_at number jobs) replies new }
    ensures packet { (old new : CrewsOver M.K M) (w : World) (number index : ℕ)
        (packet : Packet) (replies : List Reply) → IsWorldOf old w → AreSound M.K.custody old →
        AreSound M.K.custody new → AreFew new → item_at old.sent index ≡ Some packet →
        is_window packet ≡ false →
        ServesBatch M.K.custody old number [] (packet ∷ []) (Ok replies) new →
        Leads w (event.Deliver index number ∷ []) replies new }
{
    law_one_worker_world::<M::K>();
}
