//! A keeper in memory.
ghost use Rattle.std.specs.Prelude.{◌≡◌, ◌≢◌, ◌<◌, ◌≤◌, ◌-◌, ◌↔◌, ◌⊎◌};
ghost use Rattle.std.specs.Prelude.{IsTrue, IfOk, IfErr, OnOk, OnErr, length, refl};
ghost use Rattle.std.proofs.Common.{ap};
ghost use Rattle.fl_labels.specs.SetBy as set;
ghost use Rattle.fl_ops.specs.OpOrder.{op_cmp};
ghost use Rattle.fl_store.specs.Kept.{Kept, HasNamesOnce, AreNew, with_ops};
ghost use Rattle.fl_store.specs.Keeping.{AfterSave, SaveFails};
ghost use Rattle.fl_store.specs.MemKeeping.{MemKept, is_broken_at, failed_at, breaking};
ghost use Rattle.fl_store.specs.MemKeeping.{health_after, saved_after, adds_at};
ghost use Rattle.fl_store.specs.MemKeeping.{mem_custody};

use crate::health::Health;
use crate::keeper::{Keeper, KeeperFault};
use fl_labels::name::NodeNumber;
use fl_labels::sorted::arrange;
use fl_ops::op::Op;
use fl_opset::batch::OpBatch;
use fl_opset::set::OpSet;
use std::alloc::{AllocError, Global};
use std::marker::Model;

/// A keeper in memory. It breaks only where it is told to, and what it keeps ends with it.
#[derive(Debug, Drop)]
pub struct MemKeeper {
    alloc: Global,
    number: NodeNumber,
    boot: u32,
    saved: OpSet,
    health: Health,
}

impl Model for MemKeeper {
    ghost use Rattle.std.specs.Prelude.{◌<◌};
    ghost use Rattle.fl_store.specs.Kept.{HasNamesOnce};
    ghost use Rattle.fl_store.specs.MemKeeping.{MemKept, coded_mem};

    ghost Value = { MemKept };

    ghost coded = { coded_mem };

    ghost view = { λ a. record {
      kept = record { number = a.number; boot = a.boot; saved = a.saved };
      health = a.health;
    } };

    ghost invariant = { λ a. HasNamesOnce a.saved };
}

// The operations of a list, each once and rising. Linear where they rise already, and else a sort.
fn collected(alloc: Global, ops: &[Op]) -> Result<OpBatch, AllocError>
    ensures { IfOk result (λ all. all ≡ set.of_list ops.now) }
{
    let mut all = Vec::from_slice(alloc, ops)?;
    arrange(&mut all);
    Ok(OpBatch::from_rising(all))
}

// Adds the operations, one alone as it is. None take no memory. An error leaves the set.
fn add_all(alloc: Global, saved: &mut OpSet, ops: &[Op]) -> Result<(), AllocError>
    ensures ok { OnOk result (saved.new ≡ with_ops saved.old ops.now) }
    ensures err { OnErr result (saved.new ≡ saved.old) }
    ensures some { OnErr result (0 < length ops.now) }
{
    match ops {
        [] => Ok(()),
        [op] => match saved.add(*op) {
            Ok(_) => Ok(()),
            Err(error) => Err(error),
        },
        _ => saved.merge_batch(&collected(alloc, ops)?),
    }
}

// Adds the operations as a keeper of this health does, and answers its health then. An error leaves
// the set.
fn serve(alloc: Global, health: Health, saved: &mut OpSet, ops: &[Op]) -> Result<Health, AllocError>
    ensures health { IfOk result (λ after. after ≡ health_after health) }
    ensures saved { OnOk result (saved.new ≡ saved_after health saved.old ops.now) }
    ensures err { OnErr result (saved.new ≡ saved.old) }
    ensures adds { OnErr result (IsTrue (adds_at health)) }
    ensures some { OnErr result (0 < length ops.now) }
{
    match health {
        Health::Broken => return Ok(Health::Broken),
        Health::BreaksAfter {
            saves: 0,
            keeps: false,
        } => return Ok(Health::Broken),
        _ => add_all(alloc, saved, ops)?,
    }
    Ok(match health {
        Health::Sound => Health::Sound,
        Health::BreaksAfter { saves: 0, .. } | Health::Broken => Health::Broken,
        Health::BreaksAfter { saves, keeps } => Health::BreaksAfter {
            saves: saves - 1,
            keeps,
        },
    })
}

impl MemKeeper {
    /// Nothing is kept yet. Takes no memory.
    pub fn new(alloc: Global, number: NodeNumber) -> MemKeeper
        ensures { result ≡ record {
          kept = record { number = number; boot = 0; saved = set.empty };
          health = Health.Sound;
        } }
    {
        MemKeeper {
            alloc,
            number,
            boot: 0,
            saved: OpSet::new(alloc),
            health: Health::Sound,
        }
    }

    /// These operations are kept, whose names differ, of a node that was booted so many times.
    /// Refused for want of memory.
    pub fn with(
        alloc: Global,
        number: NodeNumber,
        boot: u32,
        ops: &[Op],
    ) -> Result<MemKeeper, AllocError>
        requires { HasNamesOnce (set.of_list ops.now) }
        ensures { IfOk result (λ keeper. keeper ≡ record {
          kept = record { number = number; boot = boot; saved = set.of_list ops.now };
          health = Health.Sound;
        }) }
    {
        let mut saved = OpSet::new(alloc);
        add_all(alloc, &mut saved, ops)?;
        Ok(MemKeeper {
            alloc,
            number,
            boot,
            saved,
            health: Health::Sound,
        })
    }

    /// From now on it breaks at the save of this count, whose batch it keeps or not: at the next
    /// one for 1. A save that is refused for memory does not count, and no other call changes when
    /// it breaks (`MemBecomes`). A broken keeper stays as it is.
    pub fn break_at(&mut self, save: u64, keeps: bool)
        requires { 0 < save }
        ensures { self.new
            ≡ record self.old { health = breaking self.old.health (save - 1) keeps } }
    {
        if !self.health.is_broken() {
            self.health = Health::BreaksAfter {
                saves: save - 1,
                keeps,
            };
        }
    }

    /// The keeper, opened again: what was kept is there, and it breaks at no save.
    pub fn mend(self) -> MemKeeper
        ensures { result ≡ record self { health = Health.Sound } }
    {
        let mut mended = self;
        mended.health = Health::Sound;
        mended
    }
}

impl Keeper for MemKeeper {
    ghost custody = { mem_custody };

    ghost holds = { λ keeper _. ∣ (keeper.kept, refl) ∣₁ };

    ghost numbered = { λ keeper k h. ap (λ (k : Kept). k.number) h };

    fn number(&self) -> NodeNumber {
        self.number
    }

    fn failures(&self) -> u64 {
        match self.health {
            Health::Broken => 1,
            _ => 0,
        }
    }

    /// Copies them. None take no memory.
    fn load(&mut self, alloc: Global) -> Result<OpSet, KeeperFault> {
        if self.health.is_broken() {
            return Err(KeeperFault::Broken);
        }
        let mut saved = OpSet::new(alloc);
        if self.saved.is_empty() {
            return Ok(saved);
        }
        let Ok(()) = saved.merge(&self.saved) else {
            return Err(KeeperFault::Memory);
        };
        Ok(saved)
    }

    /// Takes no memory.
    fn boot(&mut self) -> Result<u32, KeeperFault> {
        if self.health.is_broken() {
            return Err(KeeperFault::Broken);
        }
        let Some(boot) = self.boot.checked_add(1) else {
            return Err(KeeperFault::NamesSpent);
        };
        self.boot = boot;
        Ok(boot)
    }

    /// No operations take no memory.
    fn save(&mut self, ops: &[Op]) -> Result<(), KeeperFault> {
        if self.health.is_broken() {
            return Err(KeeperFault::Broken);
        }
        let Ok(health) = serve(self.alloc, self.health, &mut self.saved, ops) else {
            return Err(KeeperFault::Memory);
        };
        self.health = health;
        if health.is_broken() {
            return Err(KeeperFault::Broken);
        }
        Ok(())
    }
}
