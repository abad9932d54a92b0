//! Over keepers in memory, why a line is answered that a keeper failed.
ghost use Rattle.std.specs.Prelude.{ℕ};
ghost use Rattle.fl_makers.specs.MemMaking.{mem_making};
ghost use Rattle.fl_store.specs.MemKeeping.{MemKept, mem_custody};
ghost use Rattle.fl_system.specs.declared.event.Event.{Event};
ghost use Rattle.fl_system.specs.WorldSteps.{node_of};
ghost use Rattle.fl_nodes.specs.Failing.{IsBrokenAt};
ghost use Rattle.fl_calls.specs.Failing.{FailsCompleting, FailsOnceOpen};
ghost use Rattle.fl_calls.specs.Over.{ClusterOver};

/// Over keepers in memory an event fails so only where the keeper of its node is broken then, and
/// what is only asked of a node never does.
pub fn law_only_broken<M>()
    ensures broken { (old new : ClusterOver MemKept M) (e : Event)
        → FailsOnceOpen mem_custody mem_making old new (node_of e)
        (λ between. FailsCompleting mem_custody between.world new.world e)
        → IsBrokenAt mem_custody new.world (node_of e) }
    ensures never { (old new : ClusterOver MemKept M) (number : ℕ)
        → ¬ FailsOnceOpen mem_custody mem_making old new number (λ between. ⊥) }
{}
