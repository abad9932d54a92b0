//! A test of an order that is being saved, and a question beside it.
ghost use Rattle.std.specs.Prelude.{refl};
ghost use Rattle.std.proofs.Common.{ap};
ghost use Rattle.fl_store.specs.Kept.{Kept};
ghost use Rattle.fl_store.specs.MemKeeping.{mem_custody};

use crate::gates::reaches;
use crate::scene::{FIRST, Line, ONE, Said, TWO, ask, crew_over, makes_two, serves, tag};
use fl_labels::name::NodeNumber;
use fl_ops::op::Op;
use fl_opset::set::OpSet;
use fl_store::keeper::{Keeper, KeeperFault};
use fl_store::mem::MemKeeper;
use fl_workers::crew::Crew;
use fl_workers::gate::Gate;
use std::alloc::Global;
use std::marker::Model;
use std::sync::atomic::{AtomicU64, Ordering};
use std::sync::{Arc, Wait};
use std::test::Fail;
use std::thread::Threads;

/// A keeper in memory that saves nothing before a question was answered.
struct Held {
    kept: MemKeeper,
    answered: Arc<AtomicU64, Global>,
    /// How many saves gave up.
    lost: Arc<AtomicU64, Global>,
}

impl Drop for Held {
    fn drop(self) {
        let Held {
            kept: _,
            answered: _,
            lost: _,
        } = self;
    }
}

impl Model for Held {
    ghost use Rattle.fl_store.specs.MemKeeping.{MemKept, coded_mem};

    ghost Value = { MemKept };

    ghost coded = { coded_mem };

    ghost view = { λ a. a.kept };
}

impl Keeper for Held {
    ghost custody = { mem_custody };

    ghost holds = { λ keeper _. ∣ (keeper.kept, refl) ∣₁ };

    ghost numbered = { λ keeper k h. ap (λ (k : Kept). k.number) h };

    fn number(&self) -> NodeNumber {
        self.kept.number()
    }

    fn failures(&self) -> u64 {
        self.kept.failures()
    }

    fn load(&mut self, alloc: Global) -> Result<OpSet, KeeperFault> {
        self.kept.load(alloc)
    }

    fn boot(&mut self) -> Result<u32, KeeperFault> {
        self.kept.boot()
    }

    fn save(&mut self, ops: &[Op]) -> Result<(), KeeperFault> {
        if !reaches(&self.answered, 1) {
            self.lost.fetch_add(1, Ordering::SeqCst);
        }
        self.kept.save(ops)
    }
}

/// Counts the jobs that are done, but for the first of a batch.
#[derive(Drop)]
struct Counting {
    answered: Arc<AtomicU64, Global>,
}

impl Gate for Counting {
    fn before(&self, _job: usize) {}

    fn after(&self, job: usize) {
        if job > 0 {
            self.answered.fetch_add(1, Ordering::SeqCst);
        }
    }

    fn never_holds(&self) -> bool {
        false
    }
}

// Whether the one process is given its tag, and the other one is told that it may not add it.
fn orders_beside<R: Threads + Wait + Sync + Send + Copy + Drop + 'static>(
    rt: R,
    alloc: Global,
    crew: &mut Crew<Held, Counting>,
) -> Option<bool> {
    let jobs = Vec::from_array(alloc, [tag(ONE), ask(TWO, FIRST)]).ok()?;
    let lines = serves(rt, alloc, crew, jobs, Vec::new(alloc))?;
    let ordered = Line {
        said: Said::Published(FIRST),
        seen: 0,
    };
    let asked = Line {
        said: Said::NotYet,
        seen: 0,
    };
    Some(lines.as_slice() == [ordered, asked].as_slice())
}

#[test]
fn order_holds_up_no_question(rt: HostRuntime) -> Result<(), Fail> {
    let alloc = rt.alloc();
    let answered = Arc::new(alloc, AtomicU64::new(0))?;
    let lost = Arc::new(alloc, AtomicU64::new(0))?;
    let keeper = Held {
        kept: MemKeeper::new(alloc, 1),
        answered: Arc::try_clone(&answered)?,
        lost: Arc::try_clone(&lost)?,
    };
    let gate = Counting {
        answered: Arc::try_clone(&answered)?,
    };
    let mut crew = crew_over(&rt, alloc, keeper, 2, gate)?;
    let made = makes_two(rt, alloc, &mut crew);
    answered.store(0, Ordering::SeqCst);
    let told = orders_beside(rt, alloc, &mut crew);
    crew.close(&rt);
    assert!(rt; made == Some(true));
    assert!(rt; told == Some(true));
    assert!(rt; lost.load(Ordering::SeqCst) == 0);
    Ok(())
}
