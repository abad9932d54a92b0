//! Laws over definitions alone. Each function does nothing: its contract is the law.
ghost use Rattle.std.specs.Prelude.{◌≡◌, ◌+◌, ◌<◌, ◌∷◌, ◌++◌, ℕ, List, [], length};
ghost use Rattle.std.specs.Prelude.{Option, Some, None, Ok, Err};
ghost use Rattle.fl_labels.specs.SetBy as set;
ghost use Rattle.fl_labels.specs.SetBy.{SetBy};
ghost use Rattle.fl_labels.specs.declared.name.Name.{Name};
ghost use Rattle.fl_labels.specs.declared.pid.Pid.{Pid};
ghost use Rattle.fl_ops.specs.OpOrder.{op_cmp};
ghost use Rattle.fl_ops.specs.declared.op.Body.{Body};
ghost use Rattle.fl_jobs.specs.declared.answer.Refusal.{Refusal};
ghost use Rattle.fl_bench.specs.Bench.{BenchState, new_bench};
ghost use Rattle.fl_store.specs.Kept.{Kept};
ghost use Rattle.fl_system.specs.State.{NodeState, kept_of};
ghost use Rattle.fl_system.specs.declared.answer.Fault.{Fault};
ghost use Rattle.fl_system.specs.declared.answer.Fault.TheVariants.{Refused};
ghost use Rattle.fl_system.specs.Begins.{Begins};
ghost use Rattle.fl_system.specs.Receives.{Receives};
ghost use Rattle.fl_system.specs.Saves.{Saves};
ghost use Rattle.fl_system.specs.Openings.{opened as opened_node};
ghost use Rattle.fl_system.specs.declared.state.Batch.{Batch};
ghost use Rattle.fl_crew_model.specs.declared.record.Entry.{Entry};
ghost use Rattle.fl_crew_model.specs.declared.record.Decision.{Decision};
ghost use Rattle.fl_crew_model.specs.declared.record.Deed.{Deed};
ghost use Rattle.fl_crew_model.specs.declared.record.Reason.{Reason};
ghost use Rattle.fl_crew_model.specs.Reasons.{refusal_of};
ghost use Rattle.fl_crew_model.specs.Answered.{AllRise, AreTold};
ghost use Rattle.fl_crew_model.specs.Books.{Books, Recorded, IsDeed, GivesUp, Declines};
ghost use Rattle.fl_crew_model.specs.Compared.{decisions_of};
ghost use Rattle.fl_crew_model.specs.Registering.{IsRegistrar, IsOrdered, IsTaken};
ghost use Rattle.fl_crew_model.specs.Woven.{Turn, Woven};
ghost use Rattle.fl_crew_model.specs.Run.{Runs, events};
ghost use Rattle.fl_crew_model.specs.Crews.{IsWorker, IsCrew, IsFront, IsBatch, IsWeave};
ghost use Rattle.fl_crew_model.specs.Crews.{IsCleared, Breaks, IsBroken};

/// From what a batch promises one run of the crew's node is built.
pub fn law_weave()
    // A node that was opened is a crew's.
    ensures opened { (workers : ℕ) (k : Kept) → IsCrew k.number workers (opened_node workers k)
        (record { saved = k.saved; list = set.members k.saved; due = None })
        (λ w. new_bench k.number (k.boot + 1) w workers) (λ w. length (set.members k.saved)) }
    ensures built { (number workers : ℕ) (n : NodeState) (b b' : Books) (rs : List Deed)
        (old new : ℕ → BenchState) (es : ℕ → List Entry) (first last : ℕ → ℕ) →
        IsCrew number workers n b old first →
        IsBatch number workers b b' rs old new es last →
        IsWeave number workers n rs es b' new last }
    // What an earlier batch left saved and due is published first.
    ensures due { (number workers : ℕ) (n : NodeState) (b : Books) (old : ℕ → BenchState)
        (first : ℕ → ℕ) (batch : Batch) → IsCrew number workers n b old first →
        b.due ≡ Some batch → IsCleared number workers n b old batch }
    // The order at which the keeper breaks comes last.
    ensures breaks { (number workers : ℕ) (n : NodeState) (b : Books) (old : ℕ → BenchState)
        (first : ℕ → ℕ) (w : ℕ) (e : Entry) → IsCrew number workers n b old first →
        IsWorker workers w → (h : Breaks number b workers w (old w) (first w) e) →
        IsBroken n w e h.op h.pid }
    // Event by event, with what is kept beside the node.
    ensures runs { (n n' : NodeState) (rs : List Deed) (ts : List Turn) → Woven n rs ts n' →
        Runs n (kept_of n) (events ts) n' (kept_of n') }
{}

/// What a batch says of its entries, and of the operations that its list gains, whether or not a
/// worker stopped. The premise is what the registrar says of its record (`Registrar::decide`).
pub fn law_answered()
    ensures { (number workers : ℕ) (b b' : Books) (rs : List Deed) (old new : ℕ → BenchState)
        (es : ℕ → List Entry) (last : ℕ → ℕ) (left : ℕ → List Decision) →
        IsFront number workers b b' rs old new es last left → AllRise workers rs →
        AreTold workers b b' rs es left }
{}

/// What the calls of the registrar's node answer is what its record says, a deed after the others.
pub fn law_registrar()
    ensures ordered { (number : ℕ) (r mid after : NodeState) (b : Books) (body : Body)
        (maker : Option Pid) (desk : Option ℕ) (name : Name) (k left : Kept) →
        IsRegistrar number r b → Begins r body maker desk (Ok name) mid →
        Saves mid k (Ok tt) after left →
        IsOrdered number b (record { name = name; body = body }) after.saved }
    ensures refused { (number : ℕ) (r after : NodeState) (b : Books) (body : Body)
        (maker : Option Pid) (desk : Option ℕ) (refusal : Refusal) → IsRegistrar number r b →
        Begins r body maker desk (Err (Refused refusal)) after →
        (reason : Reason) × (refusal ≡ refusal_of reason) × GivesUp number b reason b
        × (after ≡ r) }
    ensures taken { (number : ℕ) (r mid after : NodeState) (b : Books) (ops : SetBy op_cmp)
        (count : ℕ) (k left : Kept) → IsRegistrar number r b → Receives r ops (Ok count) mid →
        0 < count → Saves mid k (Ok tt) after left → IsTaken number b ops count after.saved }
    ensures nothing { (number : ℕ) (r after : NodeState) (b : Books) (ops : SetBy op_cmp) →
        IsRegistrar number r b → Receives r ops (Ok 0) after →
        Declines number b ops (Ok 0) × (after ≡ r) }
    ensures declined { (number : ℕ) (r after : NodeState) (b : Books) (ops : SetBy op_cmp)
        (fault : Fault) → IsRegistrar number r b → Receives r ops (Err fault) after →
        Declines number b ops (Err fault) × (after ≡ r) }
    ensures more { (number : ℕ) (b mid after : Books) (rs : List Deed) (deed : Deed) →
        Recorded number b rs mid → IsDeed number mid deed after →
        Recorded number b (rs ++ deed ∷ []) after }
{}

/// There are such batches: from a node on that was opened over nothing, with two workers, one order
/// that is published and one job under the longer list.
pub fn law_batches()
    ensures { (k : Kept) × (b b' : Books) × (rs : List Deed) × (old new : ℕ → BenchState)
        × (es : ℕ → List Entry) × (first last : ℕ → ℕ)
        × IsCrew 1 2 (opened_node 2 k) b old first × IsBatch 1 2 b b' rs old new es last
        × (length b'.list ≡ 1) }
{}
