//! Laws of what the nodes of a world answer and publish.
ghost use Rattle.std.specs.Prelude.{◌≡◌, ◌⊎◌, ◌↔◌, ◌++◌, ℕ, List};
ghost use Rattle.std.specs.List.{Contains};
ghost use Rattle.fl_labels.specs.Found.{Within};
ghost use Rattle.fl_labels.specs.SetBy as set;
ghost use Rattle.fl_labels.specs.SetBy.{In};
ghost use Rattle.fl_labels.specs.declared.cap.Cap.{Cap};
ghost use Rattle.fl_labels.specs.declared.pid.Pid.{Pid};
ghost use Rattle.fl_ops.specs.OpOrder.{op_cmp};
ghost use Rattle.fl_ops.specs.declared.op.Op.{Op};
ghost use Rattle.fl_opset.specs.RegistryText.{registry_text};
ghost use Rattle.fl_jobs.specs.declared.answer.Reply.TheVariants.{Yes};
ghost use Rattle.fl_jobs.specs.declared.job.Act.TheVariants.{Ask};
ghost use Rattle.fl_jobs.specs.declared.job.Job.TheVariants.{By, Member};
ghost use Rattle.fl_bench.specs.Process.{owns};
ghost use Rattle.fl_bench.specs.declared.process.Process.{Process};
ghost use Rattle.fl_system.specs.declared.event.Event.TheVariants.{Job};
ghost use Rattle.fl_system.specs.declared.reply.Reply.{Reply};
ghost use Rattle.fl_system.specs.declared.reply.Reply.TheVariants.{Job as Answered};
ghost use Rattle.fl_system.specs.Runs.{IsReached, IsRun, Moment, end};
ghost use Rattle.fl_system.specs.State.{NodeState};
ghost use Rattle.fl_system.specs.Whereabouts.{IsOnItsWay};
ghost use Rattle.fl_system.specs.World.{World, KeptNode};
ghost use Rattle.fl_system.specs.WorldSteps.{IsAt, Step};
ghost use Rattle.fl_agreement_laws.specs.Gains.{IsBegunIn, gains};
ghost use Rattle.fl_agreement_laws.specs.Knowledge.{HasProcess, IsAnswer, KnowsNoLess, Sees};

/// No yes is withdrawn. Where a desk of a node answered that one capability is reached from
/// another, then whatever happens, each later answer to the same question is yes again: at that
/// desk, at a desk of the node that sees as many operations or more, and at any of its desks after
/// the node was opened again. The same holds where a process asked what it has in effect, for each
/// process of the node that owns no less than the first one did when it asked.
pub fn law_yes()
    ensures member { (w after last : World) (ms : List Moment) (number desk upto other upto' : ℕ)
        (root c : Cap) (reply : Reply) → IsReached w →
        Step w (Job number desk upto (Member root c)) (Answered Yes) after → IsRun after ms →
        KnowsNoLess after number desk last other → IsAnswer reply →
        Step (end after ms) (Job number other upto' (Member root c)) reply last →
        reply ≡ Answered Yes }
    ensures ask { (w after last : World) (ms : List Moment) (number desk upto other upto' : ℕ)
        (pid pid' : Pid) (p p' : Process) (c : Cap) (reply : Reply) → IsReached w →
        Step w (Job number desk upto (By pid (Ask c))) (Answered Yes) after → IsRun after ms →
        KnowsNoLess after number desk last other → HasProcess w number pid p →
        HasProcess (end after ms) number pid' p' → Within (In (owns p)) (In (owns p')) →
        IsAnswer reply → Step (end after ms) (Job number other upto' (By pid' (Ask c))) reply last →
        reply ≡ Answered Yes }
{}

/// Nodes that published the same operations, in whatever order, have the same registry and the same
/// text of it. Desks that see the same operations, of whatever nodes and at whatever moments of
/// whatever worlds, answer alike whether one capability is reached from another.
///
/// While a node stays in one boot, its published list goes on by what its own publications added,
/// in their order, and so its registry is the union of what it was and of these. Each of them was
/// on its way there before, or was begun since: as an order of one of the node's processes, or out
/// of a packet that came to it.
pub fn law_equal()
    ensures registry { (x y : NodeState) →
        ((op : Op) → Contains x.published op ↔ Contains y.published op) →
        set.of_list {R = op_cmp} x.published ≡ set.of_list y.published }
    ensures text { (x y : NodeState) →
        ((op : Op) → Contains x.published op ↔ Contains y.published op) →
        registry_text (set.of_list x.published) ≡ registry_text (set.of_list y.published) }
    ensures member { (w after v later : World) (number desk upto other_number other upto' : ℕ)
        (root c : Cap) (reply reply' : Reply) →
        ((op : Op) → Sees after number desk op ↔ Sees later other_number other op) →
        IsAnswer reply → IsAnswer reply' →
        Step w (Job number desk upto (Member root c)) reply after →
        Step v (Job other_number other upto' (Member root c)) reply' later → reply ≡ reply' }
    ensures made { (w : World) (ms : List Moment) (number : ℕ) (s s' : KeptNode) → IsReached w →
        IsRun w ms → IsAt w number s → IsAt (end w ms) number s' → s'.node.boot ≡ s.node.boot →
        s'.node.published ≡ s.node.published ++ gains number w ms }
    ensures join { (w : World) (ms : List Moment) (number : ℕ) (s s' : KeptNode) → IsReached w →
        IsRun w ms → IsAt w number s → IsAt (end w ms) number s' → s'.node.boot ≡ s.node.boot →
        set.of_list {R = op_cmp} s'.node.published ≡
        set.union (set.of_list s.node.published) (set.of_list (gains number w ms)) }
    ensures from_its_own { (w : World) (ms : List Moment) (number : ℕ) (s : KeptNode) (op : Op) →
        IsReached w → IsRun w ms → IsAt w number s → Contains (gains number w ms) op →
        IsOnItsWay s.node.state op ⊎ IsBegunIn number op w ms }
{}
