//! Laws of crews of one worker. The function does nothing: its contract is the law.
ghost use Rattle.std.specs.Prelude.{◌≡◌, ◌⊎◌, ◌≤◌, ◌++◌, ◌∷◌, ℕ, Bool, List, [], length, map};
ghost use Rattle.std.specs.Prelude.{None, Ok};
ghost use Rattle.fl_jobs.specs.declared.job.Job.{Job};
ghost use Rattle.fl_message.specs.declared.message.Data.{Data};
ghost use Rattle.fl_store.specs.Kept.{Kept};
ghost use Rattle.fl_system.specs.declared.state.Pending.TheVariants.{Nothing};
ghost use Rattle.fl_system.specs.declared.state.State.TheVariants.{Running};
ghost use Rattle.fl_system.specs.Openings.{Restarts, opened as opened_node};
ghost use Rattle.fl_system.specs.State.{NodeState};
ghost use Rattle.fl_wire.specs.declared.batch.Batch.{Batch};
ghost use Rattle.fl_wire.specs.declared.packet.Packet.{Packet};
ghost use Rattle.fl_wire.specs.declared.packet.Packet.TheVariants as packets;
ghost use Rattle.fl_dealing.specs.declared.entry.Entry.{Entry};
ghost use Rattle.fl_workers.specs.Over.{CrewOver};
ghost use Rattle.fl_workers.specs.Seated.{OpensCrew, seated_of};
ghost use Rattle.fl_one_worker_laws.specs.Single.{DoneInTurn, DoneWithOps, IsDone, IsNodeOf};
ghost use Rattle.fl_one_worker_laws.specs.Single.{arrival_of};

use fl_store::keeper::Keeper;

/// With one worker a batch is what a script without workers has the node do: its jobs, and the
/// messages behind them, one after another, each under all that is published, and each answered as
/// its entry says. An order is begun, saved and published before the next job.
///
/// What is due before the batch is left out: a batch publishes it first, and a script without
/// workers does not. An order that is left due in the batch is not, nor is one that wants memory.
pub fn law_one_worker<K: Keeper>()
    // A crew that was opened is such a node.
    ensures opened { (crew : CrewOver K) (number : ℕ) (k k' : Kept) →
        crew ≡ seated_of crew.node 1 → OpensCrew number 1 k crew k' →
        IsNodeOf crew (opened_node 1 k) }
    // One that is restarted, with nothing due, is the node that is restarted.
    ensures restarted { (old new : CrewOver K) (n : NodeState) (k k' : Kept) (keeps : Bool)
        (boot : ℕ) → IsNodeOf old n → old.due ≡ None → old.node.node.state ≡ Running Nothing →
        new ≡ seated_of new.node 1 →
        Restarts old.node.node k keeps (Ok boot) new.node.node k' →
        Restarts n k keeps (Ok boot) (opened_node 1 k) k' × IsNodeOf new (opened_node 1 k) }
    ensures jobs { (old new : CrewOver K) (jobs : List Job) (messages : List Data)
        (es : List Entry) (n : NodeState) (k : Kept) (upto : ℕ) → IsNodeOf old n →
        IsDone old new jobs (map packets.Data messages) es → length new.list ≤ upto →
        DoneInTurn upto new n k (jobs ++ map arrival_of messages) es }
    // A packet of operations is a batch of its own.
    ensures ops { (old new : CrewOver K) (packet : Packet) (batch : Batch) (es : List Entry)
        (n : NodeState) (k : Kept) → IsNodeOf old n →
        (packet ≡ packets.Full batch) ⊎ (packet ≡ packets.Delta batch) →
        IsDone old new [] (packet ∷ []) es → DoneWithOps new n k batch.ops es }
{}
