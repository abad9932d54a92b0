//! What is known of a world by who is handed it: each law of worlds that a run leads to.
ghost use Rattle.std.specs.Prelude.{◌≡◌, ◌⊎◌, ◌↔◌, List, ℕ};
ghost use Rattle.std.specs.List.{All, Contains};
ghost use Rattle.fl_labels.specs.SetBy.{In};
ghost use Rattle.fl_labels.specs.declared.cap.Cap.{Cap};
ghost use Rattle.fl_labels.specs.declared.cap.Cap.TheVariants.{Minus};
ghost use Rattle.fl_labels.specs.declared.name.Name.{Name};
ghost use Rattle.fl_labels.specs.declared.pid.Pid.{Pid};
ghost use Rattle.fl_ops.specs.declared.op.Op.{Op};
ghost use Rattle.fl_jobs.specs.declared.answer.Reply.TheVariants.{Arrived};
ghost use Rattle.fl_jobs.specs.declared.job.Side.{Side};
ghost use Rattle.fl_bench.specs.Process.{side_of};
ghost use Rattle.fl_bench.specs.declared.process.Process.{Process};
ghost use Rattle.fl_system.specs.Runs.{IsRun, Moment, Move, Moves, Run, end};
ghost use Rattle.fl_system.specs.State.{kept_of};
ghost use Rattle.fl_system.specs.Taint.{Lives};
ghost use Rattle.fl_system.specs.Waiting.{IsRunning};
ghost use Rattle.fl_system.specs.World.{KeptNode, World as AnyWorld};
ghost use Rattle.fl_system.specs.WorldSteps.{IsAt, Step};
ghost use Rattle.fl_system.specs.declared.event.Event.{Event};
ghost use Rattle.fl_system.specs.declared.reply.Reply.{Reply};
ghost use Rattle.fl_system.specs.declared.reply.Reply.TheVariants.{Job as Answered};
ghost use Rattle.fl_system.specs.declared.state.Pending.TheVariants.{Nothing};
ghost use Rattle.fl_system.specs.declared.state.State.TheVariants.{Running};
ghost use Rattle.fl_world_laws.specs.Places.{IsSavedAt};
ghost use Rattle.fl_history_laws.specs.Endpoints.{Retunes};
ghost use Rattle.fl_history_laws.specs.Labels.{Lacks, Relabels, RunWhile};
ghost use Rattle.fl_history_laws.specs.Lives.{IsAbsent, IsBorn, Leaves};
ghost use Rattle.fl_history_laws.specs.Owned.{Gains, Owns};
ghost use Rattle.fl_history_laws.specs.Seats.{WasGivenIn, made};
ghost use Rattle.fl_history_laws.specs.Sent.{Delivers};
ghost use Rattle.fl_one_laws.specs.Ample.{AreSettled, IsAmple, IsAtDesk};
ghost use Rattle.fl_round_laws.specs.Round.{CatchesUp};
ghost use Rattle.fl_world.specs.Reached.{InEach};

use fl_history_laws::laws::{
    law_births, law_endpoints, law_exits, law_kept_tags, law_labels, law_owned, law_pids, law_sent,
};
use fl_one_laws::laws::law_one_run;
use fl_round_laws::laws::law_half_round;
use fl_store::keeper::Keeper;
use fl_world::world::World;
use fl_world_laws::laws::{law_hold, law_kept};

/// Its running nodes keep what they saved, and have published that where nothing is pending.
pub fn keeps<K: Keeper>(world: &World<K>)
    ensures kept { InEach K.custody world.now (λ w. (number : ℕ) (s : KeptNode) → IsAt w number s →
        IsRunning s.node.state → s.kept ≡ kept_of s.node) }
    ensures hold { InEach K.custody world.now (λ w. (number : ℕ) (s : KeptNode) (op : Op) →
        IsAt w number s → s.node.state ≡ Running Nothing →
        In s.node.saved op ↔ Contains s.node.published op) }
{
    world.law_reached();
    law_kept();
    law_hold();
}

/// A pid that is given was not given before; who comes to live was born; who is gone left.
pub fn knows_lives<K: Keeper>(world: &World<K>)
    ensures pids { InEach K.custody world.now (λ w. (after : AnyWorld) (event : Event) (pid : Pid) →
        Step w event (made pid) after → ¬ WasGivenIn w pid) }
    ensures births { InEach K.custody world.now (λ w. (after : AnyWorld) (move : Move)
        (reply : Reply) (pid : Pid) (child : Process) → Moves w move reply after →
        IsAbsent w pid → Lives after pid child → IsBorn w move reply pid child) }
    ensures exits { InEach K.custody world.now (λ w. (after : AnyWorld) (move : Move)
        (reply : Reply) (pid : Pid) (process : Process) → Moves w move reply after →
        Lives w pid process → IsAbsent after pid → Leaves w move reply pid) }
{
    world.law_reached();
    law_pids();
    law_births();
    law_exits();
}

/// What a process comes to own was given to it; its endpoints and labels change by its own acts; a
/// tag stays where its minus is never in effect; and a message arrives out of a packet alone.
pub fn knows_changes<K: Keeper>(world: &World<K>)
    ensures owned { InEach K.custody world.now (λ w. (after : AnyWorld) (move : Move)
        (reply : Reply) (pid : Pid) (cap : Cap) → Moves w move reply after → Owns after pid cap →
        Owns w pid cap ⊎ Gains w move reply pid cap) }
    ensures endpoints { InEach K.custody world.now (λ w. (after : AnyWorld) (move : Move)
        (reply : Reply) (pid : Pid) (old new : Process) → Moves w move reply after →
        Lives w pid old → Lives after pid new →
        Retunes w move reply pid old.mailbox.endpoints new.mailbox.endpoints) }
    ensures labels { InEach K.custody world.now (λ w. (after : AnyWorld) (move : Move)
        (reply : Reply) (pid : Pid) (old new : Process) → Moves w move reply after →
        Lives w pid old → Lives after pid new → Relabels w move reply pid old new) }
    ensures tags { InEach K.custody world.now (λ w. (ms : List Moment) (pid : Pid) (side : Side)
        (tag : Name) (old new : Process) → RunWhile (Lacks pid (Minus tag)) w ms →
        Lives w pid old → In (side_of side old.labels) tag → Lives (end w ms) pid new →
        In (side_of side new.labels) tag) }
    ensures delivered { InEach K.custody world.now (λ w. (after : AnyWorld) (move : Move)
        (pid : Pid) → Moves w move (Answered (Arrived pid)) after → Delivers w move pid) }
{
    world.law_reached();
    law_owned();
    law_endpoints();
    law_labels();
    law_kept_tags();
    law_sent();
}

/// A node that catches up with another has saved what that had; and events have one outcome, where
/// nothing fails.
pub fn knows_runs<K: Keeper>(world: &World<K>)
    ensures catches_up { InEach K.custody world.now (λ w. (ms : List Moment) (to from : ℕ)
        (op : Op) → IsRun w ms → CatchesUp to from ms → IsSavedAt w from op →
        IsSavedAt (end w ms) to op) }
    ensures one { InEach K.custody world.now (λ w. (w1 w2 : AnyWorld) (events : List Event)
        (rs1 rs2 : List Reply) → Run w events rs1 w1 → Run w events rs2 w2 → All IsAmple rs1 →
        All IsAmple rs2 → AreSettled events rs1 → All (IsAtDesk w.desks) events →
        (rs1 ≡ rs2) × (w1 ≡ w2)) }
{
    world.law_reached();
    law_half_round();
    law_one_run();
}
