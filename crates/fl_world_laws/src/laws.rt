//! Laws of each world that a run leads to: nodes that joined, events of any kind in any order, with
//! packets lost, repeated and late, keepers that broke, and stopped nodes that were opened again.
ghost use Rattle.std.specs.Prelude.{◌≡◌, ◌↔◌, ℕ, Bool};
ghost use Rattle.std.specs.List.{Contains};
ghost use Rattle.fl_labels.specs.Found.{Within};
ghost use Rattle.fl_labels.specs.SetBy.{In};
ghost use Rattle.fl_ops.specs.declared.op.Op.{Op};
ghost use Rattle.fl_system.specs.declared.answer.Fault.TheVariants.{WrongNode};
ghost use Rattle.fl_system.specs.declared.event.Event.{Event};
ghost use Rattle.fl_system.specs.declared.event.Event.TheVariants.{Restart};
ghost use Rattle.fl_system.specs.declared.reply.Reply.{Reply};
ghost use Rattle.fl_system.specs.declared.reply.Reply.TheVariants.{Refused};
ghost use Rattle.fl_system.specs.declared.sent.Sent.{Sent};
ghost use Rattle.fl_system.specs.declared.state.Pending.TheVariants.{Nothing};
ghost use Rattle.fl_system.specs.declared.state.State.TheVariants.{Running};
ghost use Rattle.fl_system.specs.State.{kept_of};
ghost use Rattle.fl_system.specs.Waiting.{IsRunning};
ghost use Rattle.fl_system.specs.World.{World, KeptNode};
ghost use Rattle.fl_system.specs.WorldSteps.{IsAt, Step};
ghost use Rattle.fl_system.specs.Union.{Union};
ghost use Rattle.fl_system.specs.Whereabouts.{IsAnywhere};
ghost use Rattle.fl_system.specs.Runs.{IsReached};
ghost use Rattle.fl_system_laws.specs.Goes.{carried};
ghost use Rattle.fl_world_laws.specs.Places.{IsKnown, IsNameRefusal, IsSavedAt};

/// Of all that is saved, pending, in doubt or in packets, two operations of one name are equal. An
/// operation of the number of a node, saved anywhere or in a packet, is in what that node has
/// saved. What a node has published it has saved, and what a packet carries was saved by the node
/// that sent it. No event is answered that two operations have one name, or that a node does not
/// know an operation of its own.
pub fn law_names()
    ensures one_operation { (w : World) (a b : Op) → IsReached w → IsAnywhere w a → IsAnywhere w b →
        a.name ≡ b.name → a ≡ b }
    ensures owned { (w : World) (op : Op) (s : KeptNode) → IsReached w → IsKnown w op →
        IsAt w op.name.node s → In s.node.saved op }
    ensures published { (w : World) (number : ℕ) (s : KeptNode) → IsReached w → IsAt w number s →
        Within (Contains s.node.published) (In s.node.saved) }
    ensures sent { (w : World) (sent : Sent) (op : Op) → IsReached w → Contains w.packets sent →
        Contains (carried sent) op → IsSavedAt w sent.from op }
    ensures no_name_refused { (w after : World) (event : Event) (reply : Reply) → IsReached w →
        Step w event reply after → ¬ IsNameRefusal reply }
{}

/// What a running node saved is what its keeper holds, under its number and boot, so that no
/// restart of it is refused as one over another node's.
pub fn law_kept()
    ensures own { (w : World) (number : ℕ) (s : KeptNode) → IsReached w → IsAt w number s →
        IsRunning s.node.state → s.kept ≡ kept_of s.node }
    ensures restart { (w after : World) (number : ℕ) (keeps : Bool) (s : KeptNode) → IsReached w →
        IsAt w number s → IsRunning s.node.state →
        ¬ Step w (Restart number keeps) (Refused WrongNode) after }
{}

/// Where a node runs and nothing is pending, it has published just what it has saved.
pub fn law_hold()
    ensures { (w : World) (number : ℕ) (s : KeptNode) (op : Op) → IsReached w → IsAt w number s →
        s.node.state ≡ Running Nothing → In s.node.saved op ↔ Contains s.node.published op }
{}
