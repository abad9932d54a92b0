//! Laws of one node: what it saves, publishes and has under way, what its keeper holds, and what a
//! restart finds.
ghost use Rattle.std.specs.Prelude.{◌≡◌, ◌≢◌, ◌+◌, ℕ, Bool, true, false, Option, Result, Ok, Err, length};
ghost use Rattle.std.specs.List.{Contains};
ghost use Rattle.fl_labels.specs.Found.{Within};
ghost use Rattle.fl_labels.specs.SetBy.{SetBy, In};
ghost use Rattle.fl_labels.specs.declared.name.Name.{Name};
ghost use Rattle.fl_labels.specs.declared.pid.Pid.{Pid};
ghost use Rattle.fl_ops.specs.declared.op.Body.{Body};
ghost use Rattle.fl_ops.specs.OpOrder.{op_cmp};
ghost use Rattle.fl_ops.specs.declared.op.Op.{Op};
ghost use Rattle.fl_jobs.specs.declared.job.Job.{Job};
ghost use Rattle.fl_store.specs.Kept.{Kept, HasNamesOnce};
ghost use Rattle.fl_system.specs.declared.answer.Answer.{Answer};
ghost use Rattle.fl_system.specs.declared.answer.Fault.{Fault};
ghost use Rattle.fl_system.specs.declared.answer.Fault.TheVariants.{WrongNode};
ghost use Rattle.fl_system.specs.declared.state.Batch.{Batch};
ghost use Rattle.fl_system.specs.declared.state.Pending.TheVariants.{Nothing, Unsaved};
ghost use Rattle.fl_system.specs.declared.state.State.TheVariants.{Running};
ghost use Rattle.fl_system.specs.State.{NodeState, kept_of};
ghost use Rattle.fl_system.specs.Waiting.{IsRunning};
ghost use Rattle.fl_system.specs.Begins.{Begins};
ghost use Rattle.fl_system.specs.Jobs.{Jobs};
ghost use Rattle.fl_system.specs.Receives.{Receives};
ghost use Rattle.fl_system.specs.Saves.{Saves, stored};
ghost use Rattle.fl_system.specs.Publishes.{Publishes, Cancels};
ghost use Rattle.fl_system.specs.Openings.{Restarts, Reopens, opened};
ghost use Rattle.fl_system_laws.specs.Sound.{holding, IsSound, IsStep};
ghost use Rattle.fl_system_laws.specs.Owned.{IsKeptOwn, IsWhole};

/// What is saved stays saved: no job, publication or cancellation changes the saved set, and no
/// saving, restart or reopening takes an operation out of it, refused or not.
pub fn law_saved_grows()
    ensures jobs { (n n' : NodeState) (desk upto : ℕ) (job : Job) (result : Result Answer Fault) →
        Jobs n desk upto job result n' → n'.saved ≡ n.saved }
    ensures publishes { (n n' : NodeState) (result : Result ℕ Fault) →
        Publishes n result n' → n'.saved ≡ n.saved }
    ensures cancels { (n n' : NodeState) (result : Result (Unit {0}) Fault) →
        Cancels n result n' → n'.saved ≡ n.saved }
    ensures saves { (n n' : NodeState) (k k' : Kept) (result : Result (Unit {0}) Fault) (op : Op) →
        Saves n k result n' k' → In n.saved op → In n'.saved op }
    ensures restarts { (n n' : NodeState) (k k' : Kept) (keeps : Bool) (result : Result ℕ Fault)
        (op : Op) → Restarts n k keeps result n' k' → In n.saved op → In n'.saved op }
    ensures reopens { (n n' : NodeState) (k k' : Kept) (result : Result ℕ Fault) (op : Op) →
        Reopens n k result n' k' → In n.saved op → In n'.saved op }
{}

/// A restart of a running node, of which the keeper has what the node saved, finds that, or that
/// with what was to be saved where this is kept; its boot is raised by one, and it is never refused
/// as another node's.
pub fn law_restart()
    ensures lost { (n n' : NodeState) (k' : Kept) (boot : ℕ) → IsRunning n.state →
        Restarts n (kept_of n) false (Ok boot) n' k' → n' ≡ opened (length n.views) (kept_of n) }
    ensures kept { (n n' : NodeState) (k' : Kept) (boot : ℕ) (batch : Batch) →
        n.state ≡ Running (Unsaved batch) → Restarts n (kept_of n) true (Ok boot) n' k' →
        n' ≡ opened (length n.views) (kept_of (stored n batch)) }
    ensures boot { (n n' : NodeState) (k' : Kept) (keeps : Bool) (boot : ℕ) → IsRunning n.state →
        Restarts n (kept_of n) keeps (Ok boot) n' k' → boot ≡ n.boot + 1 }
    ensures own { (n n' : NodeState) (k' : Kept) (keeps : Bool) (fault : Fault) →
        IsRunning n.state →
        Restarts n (kept_of n) keeps (Err fault) n' k' → fault ≢ WrongNode }
{}

/// Each call of a node keeps it sound, with what it has saved then known too: what it saves is
/// known or was its own new operation, what it publishes is saved, and no name is on the way twice.
/// Received operations are known, each under a name of its own.
pub fn law_sound()
    ensures begins { (known : SetBy op_cmp) (n n' : NodeState) (body : Body) (maker : Option Pid)
        (desk : Option ℕ) (result : Result Name Fault) → IsSound (In known) (holding n) →
        Begins n body maker desk result n' → IsStep (In known) (holding n) (holding n') }
    ensures jobs { (known : SetBy op_cmp) (n n' : NodeState) (desk upto : ℕ) (job : Job)
        (result : Result Answer Fault) → IsSound (In known) (holding n) →
        Jobs n desk upto job result n' → IsStep (In known) (holding n) (holding n') }
    ensures receives { (known ops : SetBy op_cmp) (n n' : NodeState) (result : Result ℕ Fault) →
        HasNamesOnce known → Within (In ops) (In known) → IsSound (In known) (holding n) →
        Receives n ops result n' → IsStep (In known) (holding n) (holding n') }
    ensures saves { (known : SetBy op_cmp) (n n' : NodeState) (k k' : Kept)
        (result : Result (Unit {0}) Fault) → IsSound (In known) (holding n) →
        Saves n k result n' k' → IsStep (In known) (holding n) (holding n') }
    ensures publishes { (known : SetBy op_cmp) (n n' : NodeState) (result : Result ℕ Fault) →
        IsSound (In known) (holding n) → Publishes n result n' →
        IsStep (In known) (holding n) (holding n') }
    ensures cancels { (known : SetBy op_cmp) (n n' : NodeState) (result : Result (Unit {0}) Fault) →
        IsSound (In known) (holding n) → Cancels n result n' →
        IsStep (In known) (holding n) (holding n') }
    ensures restarts { (known : SetBy op_cmp) (n n' : NodeState) (k k' : Kept) (keeps : Bool)
        (result : Result ℕ Fault) → IsSound (In known) (holding n) →
        Restarts n k keeps result n' k' → IsStep (In known) (holding n) (holding n') }
    ensures reopens { (known : SetBy op_cmp) (n n' : NodeState) (k k' : Kept)
        (result : Result ℕ Fault) → IsSound (In known) (holding n) →
        Reopens n k result n' k' → IsStep (In known) (holding n) (holding n') }
{}

/// What a node that runs saved is what its keeper holds, under its number and boot: each call keeps
/// this, and an opening makes it so.
pub fn law_kept_own()
    ensures begins { (n n' : NodeState) (k : Kept) (body : Body) (maker : Option Pid)
        (desk : Option ℕ) (result : Result Name Fault) → IsKeptOwn n k
        → Begins n body maker desk result n' →
        IsKeptOwn n' k }
    ensures jobs { (n n' : NodeState) (k : Kept) (desk upto : ℕ) (job : Job)
        (result : Result Answer Fault) → IsKeptOwn n k → Jobs n desk upto job result n' →
        IsKeptOwn n' k }
    ensures receives { (n n' : NodeState) (k : Kept) (ops : SetBy op_cmp)
        (result : Result ℕ Fault) → IsKeptOwn n k → Receives n ops result n' → IsKeptOwn n' k }
    ensures saves { (n n' : NodeState) (k k' : Kept) (result : Result (Unit {0}) Fault) →
        IsKeptOwn n k → Saves n k result n' k' → IsKeptOwn n' k' }
    ensures publishes { (n n' : NodeState) (k : Kept) (result : Result ℕ Fault) →
        IsKeptOwn n k → Publishes n result n' → IsKeptOwn n' k }
    ensures cancels { (n n' : NodeState) (k : Kept) (result : Result (Unit {0}) Fault) →
        IsKeptOwn n k → Cancels n result n' → IsKeptOwn n' k }
    ensures restarts { (n n' : NodeState) (k k' : Kept) (keeps : Bool) (result : Result ℕ Fault) →
        IsKeptOwn n k → Restarts n k keeps result n' k' → IsKeptOwn n' k' }
    ensures reopens { (n n' : NodeState) (k k' : Kept) (boot : ℕ) →
        Reopens n k (Ok boot) n' k' → IsKeptOwn n' k' }
{}

/// A node that runs has published all that it saved, but for what is due: each call keeps this, and
/// an opening makes it so. Where nothing is pending, what is saved and what is published are then
/// the same.
pub fn law_whole()
    ensures begins { (n n' : NodeState) (body : Body) (maker : Option Pid) (desk : Option ℕ)
        (result : Result Name Fault) → IsWhole n → Begins n body maker desk result n' → IsWhole n' }
    ensures jobs { (n n' : NodeState) (desk upto : ℕ) (job : Job) (result : Result Answer Fault) →
        IsWhole n → Jobs n desk upto job result n' → IsWhole n' }
    ensures receives { (n n' : NodeState) (ops : SetBy op_cmp) (result : Result ℕ Fault) →
        IsWhole n → Receives n ops result n' → IsWhole n' }
    ensures saves { (n n' : NodeState) (k k' : Kept) (result : Result (Unit {0}) Fault) →
        IsWhole n → Saves n k result n' k' → IsWhole n' }
    ensures publishes { (n n' : NodeState) (result : Result ℕ Fault) →
        IsWhole n → Publishes n result n' → IsWhole n' }
    ensures cancels { (n n' : NodeState) (result : Result (Unit {0}) Fault) →
        IsWhole n → Cancels n result n' → IsWhole n' }
    ensures restarts { (n n' : NodeState) (k k' : Kept) (keeps : Bool) (result : Result ℕ Fault) →
        IsWhole n → Restarts n k keeps result n' k' → IsWhole n' }
    ensures reopens { (n n' : NodeState) (k k' : Kept) (result : Result ℕ Fault) →
        IsWhole n → Reopens n k result n' k' → IsWhole n' }
    ensures idle { (n : NodeState) (op : Op) → IsWhole n → n.state ≡ Running Nothing →
        In n.saved op → Contains n.published op }
{}
