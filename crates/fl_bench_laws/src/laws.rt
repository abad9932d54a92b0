//! Laws of the jobs of a bench.
ghost use Rattle.std.specs.Prelude.{◌≡◌, ◌≢◌, ◌⊎◌, ◌<◌, ◌≤◌, ◌%◌, List, ℕ, Option, None, Some, Result, Ok, Err};
ghost use Rattle.std.specs.FinMap as map;
ghost use Rattle.fl_labels.specs.Found.{Within};
ghost use Rattle.fl_labels.specs.declared.cap.Cap.{Cap};
ghost use Rattle.fl_labels.specs.declared.pid.Pid.{Pid};
ghost use Rattle.fl_ops.specs.Registry.{Listed};
ghost use Rattle.fl_ops.specs.declared.op.Body.{Body};
ghost use Rattle.fl_ops.specs.declared.op.Op.{Op};
ghost use Rattle.fl_jobs.specs.declared.answer.Outcome.{Outcome};
ghost use Rattle.fl_jobs.specs.declared.answer.Refusal.TheVariants.{Memory};
ghost use Rattle.fl_jobs.specs.declared.answer.Refusal.{Refusal};
ghost use Rattle.fl_jobs.specs.declared.job.Act.TheVariants.{Exit};
ghost use Rattle.fl_jobs.specs.declared.job.Job.{Job};
ghost use Rattle.fl_jobs.specs.declared.job.Job.TheVariants.{By, Arrive};
ghost use Rattle.fl_rules.specs.Message.{SafeMessage};
ghost use Rattle.fl_message.specs.declared.message.Data.{Data};
ghost use Rattle.fl_bench.specs.Bench.{BenchState, IsNext, new_bench};
ghost use Rattle.fl_bench.specs.Following.{Follows};
ghost use Rattle.fl_bench.specs.Gifts.{cancelled, finished};
ghost use Rattle.fl_bench.specs.Jobs.{Does, TakesMemory};
ghost use Rattle.fl_bench.specs.Orderly.{IsOrderly};
ghost use Rattle.fl_bench.specs.Births.{IsBirth, GoesOn};
ghost use Rattle.fl_bench.specs.Gains.{OwnsAt, Gains, GainsAtEnd};
ghost use Rattle.fl_bench.specs.Guarded.{IsGuarded};
ghost use Rattle.fl_bench.specs.Summary.{Summary};
ghost use Rattle.fl_bench.specs.Process.{effective};
ghost use Rattle.fl_bench.specs.declared.process.Process.{Process};

/// Where memory is not wanted, a job at a bench has one result and leaves one bench.
pub fn law_one_step()
    ensures { (ops : List Op) (b c d : BenchState) (job : Job) (r s : Result Outcome Refusal) →
        Does (Listed ops) b job r c → Does (Listed ops) b job s d →
        r ≢ Err Memory → s ≢ Err Memory → (r ≡ s) × (c ≡ d) }
{}

/// What comes of any job: it is refused and leaves the bench, orders an operation and marks its
/// process, sends a packet and leaves the bench, or replies; and then it leaves all, changes one
/// process whose labels follow, bears one, or loses the one that asked to go.
pub fn law_summary()
    ensures { (ops : List Op) (b after : BenchState) (job : Job) (result : Result Outcome Refusal) →
        Does (Listed ops) b job result after → Summary (Listed ops) b job result after }
{}

/// From its opening on, a bench has processes under pids that it gave alone: of its node and boot,
/// with serials below the next one that are as far from it as some strides.
pub fn law_orderly()
    ensures opened { (node boot index stride : ℕ) →
        0 < index → 0 < stride → IsOrderly (new_bench node boot index stride) }
    ensures job { (ops : List Op) (b after : BenchState) (job : Job)
        (result : Result Outcome Refusal) →
        IsOrderly b → Does (Listed ops) b job result after → IsOrderly after }
    ensures finish { (b : BenchState) (maker : Pid) (op : Op) → IsOrderly b
        → IsOrderly (finished b maker op) }
    ensures cancel { (b : BenchState) (maker : Pid) → IsOrderly b → IsOrderly (cancelled b maker) }
{}

/// Two benches whose next serials have different residues by one stride give different pids, for
/// good: no process of the one is called as one of the other, and no new one is. Benches that open
/// under different indices are two such, and a job leaves the residue (`law_births`).
pub fn law_apart()
    ensures opened { (stride i j : ℕ) → 0 < i → i ≤ stride → 0 < j → j ≤ stride → i ≢ j
        → i % stride ≢ j % stride }
    ensures next { (a b : BenchState) (p q : Pid) → a.stride ≡ b.stride
        → a.next % a.stride ≢ b.next % b.stride → IsNext a p → IsNext b q → p ≢ q }
    ensures there { (a b : BenchState) (p q : Pid) (x y : Process) → a.stride ≡ b.stride →
        a.next % a.stride ≢ b.next % b.stride → IsOrderly a → IsOrderly b →
        map.get a.processes p ≡ Some x → map.get b.processes q ≡ Some y → p ≢ q }
{}

/// No label of a process gains or loses what its process had not in effect: whatever a job is
/// answered, and when an operation is finished or cancelled.
pub fn law_labels()
    ensures job { (ops : List Op) (b after : BenchState) (job : Job)
        (result : Result Outcome Refusal) (pid : Pid) →
        IsOrderly b → Does (Listed ops) b job result after →
        Follows (Listed ops) (map.get b.processes pid) (map.get after.processes pid) }
    ensures finish { (ops : List Op) (b : BenchState) (maker pid : Pid) (op : Op) →
        Follows (Listed ops) (map.get b.processes pid)
        (map.get (finished b maker op).processes pid) }
    ensures cancel { (ops : List Op) (b : BenchState) (maker pid : Pid) →
        Follows (Listed ops) (map.get b.processes pid) (map.get (cancelled b maker).processes pid) }
{}

/// A process that comes to a bench was born by the job, under the next serial: it has nothing, or
/// it has the labels of its parent and owns a part of what its parent has in effect. The next
/// serial never falls and keeps its residue, so no pid is given twice: not while its process stands
/// there, and not later. The end of an operation brings no process.
pub fn law_births()
    ensures job { (ops : List Op) (b after : BenchState) (job : Job)
        (result : Result Outcome Refusal) (pid : Pid)
        (child : Process) → Does (Listed ops) b job result after → map.get b.processes pid ≡ None →
        map.get after.processes pid ≡ Some child → IsBirth (Listed ops) b job pid child }
    ensures forward { (ops : List Op) (b after : BenchState) (job : Job)
        (result : Result Outcome Refusal) →
        Does (Listed ops) b job result after → GoesOn b after }
    ensures longer { (a b c : BenchState) → GoesOn a b → GoesOn b c → GoesOn a c }
    ensures once { (b later : BenchState) (pid next : Pid) (p : Process) → IsOrderly b →
        map.get b.processes pid ≡ Some p → GoesOn b later → IsNext later next → next ≢ pid }
    ensures finish { (b : BenchState) (maker pid : Pid) (op : Op) →
        GoesOn b (finished b maker op) × (map.get b.processes pid ≡ None →
        map.get (finished b maker op).processes pid ≡ None) }
    ensures cancel { (b : BenchState) (maker pid : Pid) →
        GoesOn b (cancelled b maker) × (map.get b.processes pid ≡ None →
        map.get (cancelled b maker).processes pid ≡ None) }
{}

/// A process leaves a bench only by its own exit. To finish or cancel an operation removes no
/// process.
pub fn law_exits()
    ensures job { (ops : List Op) (b after : BenchState) (job : Job)
        (result : Result Outcome Refusal) (pid : Pid)
        (old : Process) → Does (Listed ops) b job result after →
        map.get b.processes pid ≡ Some old →
        map.get after.processes pid ≡ None → job ≡ By pid Exit }
    ensures finish { (b : BenchState) (maker pid : Pid) (old : Process) (op : Op) →
        map.get b.processes pid ≡ Some old →
        map.get (finished b maker op).processes pid ≡ None → ⊥ }
    ensures cancel { (b : BenchState) (maker pid : Pid) (old : Process) →
        map.get b.processes pid ≡ Some old → map.get (cancelled b maker).processes pid ≡ None → ⊥ }
{}

/// What a process owns after a job it owned before, was born with as a part of what its parent has
/// in effect, entered by a secret, or got in a message that came. After its operation it owns
/// besides what that gives its maker, and nothing more where the operation is cancelled.
pub fn law_owned()
    ensures job { (ops : List Op) (b after : BenchState) (job : Job)
        (result : Result Outcome Refusal) (pid : Pid)
        (cap : Cap) → Does (Listed ops) b job result after → OwnsAt after pid cap →
        OwnsAt b pid cap ⊎ Gains (Listed ops) b job pid cap }
    ensures finish { (b : BenchState) (maker pid : Pid) (op : Op) (cap : Cap) →
        OwnsAt (finished b maker op) pid cap → OwnsAt b pid cap ⊎ GainsAtEnd b maker op pid cap }
    ensures cancel { (b : BenchState) (maker pid : Pid) (cap : Cap) →
        OwnsAt (cancelled b maker) pid cap → OwnsAt b pid cap }
{}

/// From the opening of a bench on, each open endpoint of its processes is safe by what its process
/// has in effect: whatever a job is answered, also under a view that lags, which has a part of the
/// operations; when an operation is finished or cancelled; and when the registry grows.
pub fn law_endpoints()
    ensures opened { (ops : List Op) (number boot index stride : ℕ) →
        IsGuarded (Listed ops) (new_bench number boot index stride) }
    ensures job { (view ops : List Op) (b after : BenchState) (job : Job)
        (result : Result Outcome Refusal) →
        Within (Listed view) (Listed ops) → IsGuarded (Listed ops) b →
        Does (Listed view) b job result after → IsGuarded (Listed ops) after }
    ensures finish { (ops : List Op) (b : BenchState) (maker : Pid) (op : Op) →
        IsGuarded (Listed ops) b → IsGuarded (Listed ops) (finished b maker op) }
    ensures cancel { (ops : List Op) (b : BenchState) (maker : Pid) →
        IsGuarded (Listed ops) b → IsGuarded (Listed ops) (cancelled b maker) }
    ensures grown { (ops more : List Op) (b : BenchState) →
        Within (Listed ops) (Listed more) → IsGuarded (Listed ops) b → IsGuarded (Listed more) b }
{}

/// A message that a job sent and another took in, at benches whose open endpoints are safe under
/// some operations each, is safe from its sender to its receiver, by the labels that each had then
/// and by what each had in effect under those: whatever view the one was sent under, and the other
/// taken in.
pub fn law_arrivals()
    ensures { (sending earlier taking ops : List Op) (a sent b after : BenchState) (job : Job)
        (message : Data)
        (outcome : Outcome) (p q : Process) →
        IsGuarded (Listed earlier) a → map.get a.processes message.sender ≡ Some p →
        Does (Listed sending) a job (Ok (Outcome.Out message)) sent →
        IsGuarded (Listed ops) b → map.get b.processes message.receiver ≡ Some q →
        Does (Listed taking) b (Arrive message) (Ok outcome) after →
        SafeMessage (effective (Listed earlier) p) p.labels (effective (Listed ops) q) q.labels }
{}

/// What is taken back leaves no trace: a bench where an order was cancelled is as it was before the
/// order, and so is one that sent a packet, or refused a job.
pub fn law_taken_back()
    ensures order { (ops : List Op) (b after : BenchState) (job : Job) (body : Body) (pid : Pid) →
        Does (Listed ops) b job (Ok (Outcome.Order body pid)) after → cancelled after pid ≡ b }
    ensures packet { (ops : List Op) (b after : BenchState) (job : Job) (packet : Data) →
        Does (Listed ops) b job (Ok (Outcome.Out packet)) after → after ≡ b }
    ensures refusal { (ops : List Op) (b after : BenchState) (job : Job) (refusal : Refusal) →
        Does (Listed ops) b job (Err refusal) after → after ≡ b }
{}

/// A job is refused for want of memory only where all of its checks pass and it needs room: a
/// birth, an order, an entry for what is not owned yet, an endpoint that is opened, and a message
/// that goes or comes.
pub fn law_memory()
    ensures { (ops : List Op) (b after : BenchState) (job : Job) →
        Does (Listed ops) b job (Err Memory) after → TakesMemory (Listed ops) b job }
{}
