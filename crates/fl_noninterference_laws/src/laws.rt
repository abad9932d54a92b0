//! Laws of noninterference.
ghost use Rattle.std.specs.Prelude.{◌≡◌, ◌≢◌, ◌≤◌, ℕ, List, Option, Some, Result, Ok, Err, length};
ghost use Rattle.std.specs.FinMap as map;
ghost use Rattle.fl_labels.specs.SetBy.{In};
ghost use Rattle.fl_labels.specs.declared.name.Name.{Name};
ghost use Rattle.fl_labels.specs.declared.pid.Pid.{Pid};
ghost use Rattle.fl_ops.specs.Registry.{Listed};
ghost use Rattle.fl_ops.specs.declared.op.Op.{Op};
ghost use Rattle.fl_jobs.specs.declared.answer.Outcome.{Outcome};
ghost use Rattle.fl_jobs.specs.declared.answer.Refusal.{Refusal};
ghost use Rattle.fl_jobs.specs.declared.answer.Refusal.TheVariants.{Memory};
ghost use Rattle.fl_jobs.specs.declared.answer.Reply.{Reply};
ghost use Rattle.fl_jobs.specs.declared.answer.Reply.TheVariants.{Emitted};
ghost use Rattle.fl_jobs.specs.declared.job.Act.{Act};
ghost use Rattle.fl_jobs.specs.declared.job.Act.TheVariants.{Emit};
ghost use Rattle.fl_jobs.specs.declared.job.Job.{Job};
ghost use Rattle.fl_jobs.specs.declared.job.Job.TheVariants.{By, Arrive};
ghost use Rattle.fl_message.specs.declared.message.Data.{Data};
ghost use Rattle.fl_bench.specs.Bench.{BenchState};
ghost use Rattle.fl_bench.specs.Jobs.{Does};
ghost use Rattle.fl_system.specs.Arrives.{Arrives};
ghost use Rattle.fl_system.specs.Jobs.{Jobs};
ghost use Rattle.fl_system.specs.Processes.{process_of};
ghost use Rattle.fl_system.specs.State.{NodeState};
ghost use Rattle.fl_system.specs.World.{KeptNode};
ghost use Rattle.fl_system.specs.declared.answer.Answer.{Answer};
ghost use Rattle.fl_system.specs.declared.answer.Answer.TheVariants as answer;
ghost use Rattle.fl_system.specs.declared.answer.Fault.{Fault};
ghost use Rattle.fl_system.specs.declared.reply.Reply.TheVariants.{Job as Answered};
ghost use Rattle.fl_machine_model.specs.Acts as acts;
ghost use Rattle.fl_machine_model.specs.Alone.{MachineStep};
ghost use Rattle.fl_machine_model.specs.Guards.{AreGuarded};
ghost use Rattle.fl_machine_model.specs.Machines.{Machine, Machines, Turn, Up, no_machine};
ghost use Rattle.fl_machine_model.specs.Processes.{Doing, Goes, GoesOn};
ghost use Rattle.fl_noninterference_laws.specs.Acts.{IsOpenAct, LooksAtAll, IsAmple, StepsToo};
ghost use Rattle.fl_noninterference_laws.specs.Alike.{AreAlikeBenches, AreSame};
ghost use Rattle.fl_noninterference_laws.specs.Alike.{DoesToo, IsNoBirth, IsOpenAt};
ghost use Rattle.fl_noninterference_laws.specs.AlikeNodes.{AreAlike, AreKeptAlike, IsOpen};
ghost use Rattle.fl_noninterference_laws.specs.Endpoints.{HasSafeEndpoints, IsSafeMachine};
ghost use Rattle.fl_noninterference_laws.specs.Guarded.{IsGuardedJob, MayEmit};
ghost use Rattle.fl_noninterference_laws.specs.Runs.{AreAlikeMachines, GoesSealed};
ghost use Rattle.fl_noninterference_laws.specs.Runs.{RunsToo, SideBySide};
ghost use Rattle.fl_noninterference_laws.specs.Together.{AreAlikeAll, AreSafeMachines};
ghost use Rattle.fl_noninterference_laws.specs.Together.{AreSealedTurns, ShowsToo, TurnsToo};
ghost use Rattle.fl_noninterference_laws.specs.Tainted.{IsTainted, IsVeiled};

/// What a tainted process does leaves a bench alike, and so does a message that comes to a process
/// with the tag: nobody without the tag stands otherwise than before, and the same pids are given.
/// A birth alone does not, since it uses up a serial.
pub fn law_tainted_jobs()
    ensures job { (ops : List Op) (tag : Name) (b after : BenchState) (pid : Pid) (act : Act)
        (result : Result Outcome Refusal) →
        IsTainted (Listed ops) tag (map.get b.processes pid) → IsNoBirth act →
        Does (Listed ops) b (By pid act) result after → AreAlikeBenches tag b after }
    ensures arrival { (ops : List Op) (tag : Name) (b after : BenchState) (d : Data)
        (result : Result Outcome Refusal) → IsVeiled tag (map.get b.processes d.receiver) →
        Does (Listed ops) b (Arrive d) result after → AreAlikeBenches tag b after }
{}

/// At benches that are alike a job that is nobody's, or of a process without the tag, has the same
/// results: each that it may have at the one it may have at the other, which is left alike
/// (`too`); and where memory is not wanted, it has but one (`one`).
pub fn law_other_jobs()
    ensures too { (ops : List Op) (tag : Name) (b c after : BenchState) (job : Job)
        (result : Result Outcome Refusal) → AreAlikeBenches tag b c → IsOpenAt tag b job →
        Does (Listed ops) b job result after → DoesToo tag (Listed ops) c job result after }
    ensures one { (ops : List Op) (tag : Name) (b c after left : BenchState) (job : Job)
        (result other : Result Outcome Refusal) → AreAlikeBenches tag b c → IsOpenAt tag b job →
        Does (Listed ops) b job result after → Does (Listed ops) c job other left →
        result ≢ Err Memory → other ≢ Err Memory → AreSame tag result other after left }
{}

/// With guarded orders what a tainted process does leaves its node alike: what is saved, published
/// and on its way, and whoever stands there without the tag (`job`). So does a message that comes
/// to a process with the tag (`arrival`). What a tainted process sends has the tag (`sent`). It is
/// let out nothing (`silent`), so what asks that first, as a guarded order does, it never does.
pub fn law_tainted()
    ensures job { (tag : Name) (n after : NodeState) (desk upto : ℕ) (pid : Pid) (act : Act)
        (result : Result Answer Fault) →
        IsTainted (Listed n.published) tag (process_of n pid) → IsNoBirth act →
        IsGuardedJob n (By pid act) → Jobs n desk upto (By pid act) result after →
        AreAlike tag n after }
    ensures arrival { (tag : Name) (n after : NodeState) (d : Data) (result : Result Reply Fault) →
        IsVeiled tag (process_of n d.receiver) → Arrives n d result after →
        AreAlike tag n after }
    ensures sent { (tag : Name) (n after : NodeState) (desk upto : ℕ) (pid : Pid) (act : Act)
        (d : Data) → HasSafeEndpoints n →
        IsTainted (Listed n.published) tag (process_of n pid) →
        Jobs n desk upto (By pid act) (Ok (answer.Out d)) after → In d.secrecy tag }
    ensures silent { (tag : Name) (n : NodeState) (pid : Pid) →
        IsTainted (Listed n.published) tag (process_of n pid) → ¬ MayEmit n pid }
{}

/// At nodes that are alike others are answered alike. Each act that concerns nobody with the tag
/// comes to the same at both, and leaves them alike (`act`). A question has but one reply, at
/// whichever desks that look at all that is published: `ask`, `member`, any other job (`reply`).
pub fn law_others()
    ensures act { (tag : Name) (number : ℕ) (s r : KeptNode) (act : acts.Act) (o : acts.Outcome) →
        AreKeptAlike tag s r → IsOpenAct tag s.node act → LooksAtAll s.node act → IsAmple o.says →
        MachineStep number s act o → StepsToo tag number r act o }
    ensures reply { (tag : Name) (n m x y : NodeState) (desk other upto up : ℕ) (job : Job)
        (reply said : Reply) → AreAlike tag n m → IsOpen tag n job →
        length n.published ≤ upto → length m.published ≤ up →
        Jobs n desk upto job (Ok (answer.Reply reply)) x →
        Jobs m other up job (Ok (answer.Reply said)) y → reply ≡ said }
{}

/// Noninterference, over all that happens to one machine. Where it guards orders, a run of it goes
/// on without what concerns who has the tag: without their jobs, and without messages that come to
/// them or have the tag. All else is done in both runs, comes to the same, and leaves both alike
/// (`purged`). Each of two runs side by side is a run (`runs`). The open endpoints of a machine are
/// safe from its first process on (`safe`).
pub fn law_noninterference()
    ensures purged { (tag : Name) (desks number : ℕ) (old other new : Option Machine)
        (doings : List Doing) → IsSafeMachine old → AreAlikeMachines tag old other →
        AreGuarded doings →
        GoesSealed tag desks number old doings new →
        RunsToo tag desks number old other doings new }
    ensures runs { (tag : Name) (desks number : ℕ) (old other new last : Option Machine)
        (doings others : List Doing) →
        SideBySide tag desks number old other doings others new last →
        GoesOn desks number old doings new × GoesOn desks number other others last }
    ensures safe { (desks number : ℕ) (old mid : Option Machine) (d : Doing) →
        IsSafeMachine old → Goes desks number old d mid → IsSafeMachine mid }
{}

/// Noninterference over many machines that meet by packets. Where each order is done only where an
/// emission of nothing by its process is admitted, turns of machines go on without what concerns
/// who has the tag: all else happens among both, is answered the same, and leaves each machine
/// alike, at whatever moment (`purged`). So nothing of it changes any machine's registry (`shown`).
/// This begins at no machine (`none`), or at any machines with safe endpoints, which are alike
/// themselves (`same`). Just behind an emission of any bytes its process may be let out nothing,
/// so an order that stands there is guarded (`behind`).
pub fn law_machines_noninterference()
    ensures purged { (tag : Name) (m w : Machines) (turns : List Turn) → AreSafeMachines m →
        AreAlikeAll tag m w → AreSealedTurns tag m turns → TurnsToo tag m w turns }
    ensures shown { (tag : Name) (m w : Machines) (number : ℕ) (s : KeptNode) →
        AreAlikeAll tag m w → map.get m.nodes number ≡ Some (Up s) → ShowsToo w number s }
    ensures same { (tag : Name) (m : Machines) → AreAlikeAll tag m m }
    ensures none { (desks : ℕ) → AreSafeMachines (no_machine desks) }
    ensures behind { (number desk upto : ℕ) (s : KeptNode) (pid : Pid) (bytes : List ℕ)
        (o : acts.Outcome) → length s.node.published ≤ upto →
        MachineStep number s (acts.Job desk upto (By pid (Emit bytes))) o →
        o.says ≡ acts.Replies (Answered (Emitted bytes)) → MayEmit o.after.node pid }
{}
