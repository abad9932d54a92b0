//! Tests of gates, by which the workers of a crew wait for one another.
ghost use Rattle.std.specs.Prelude.{◌≤◌};

use crate::scene::{FIRST, Line, MemCrew, ONE, Said, ask, crew_over, serves};
use fl_jobs::job::Job;
use fl_store::mem::MemKeeper;
use fl_workers::gate::Gate;
use std::alloc::Global;
use std::sync::atomic::{AtomicU64, Ordering};
use std::sync::{Arc, Wait};
use std::test::Fail;
use std::thread::Threads;

// How many turns a worker waits at most.
const TURNS: u64 = 1_000_000_000;

/// Waits until the number is at least this. False where it gave up.
pub fn reaches(number: &AtomicU64, least: u64) -> bool {
    for _ in 0..TURNS {
        if number.load(Ordering::SeqCst) >= least {
            return true;
        }
    }
    false
}

/// The first job waits until the second is done.
#[derive(Drop)]
struct SecondFirst {
    done: AtomicU64,
    /// How many workers gave up.
    lost: Arc<AtomicU64, Global>,
}

impl Gate for SecondFirst {
    fn before(&self, job: usize) {
        if job == 0 && !reaches(&self.done, 1) {
            self.lost.fetch_add(1, Ordering::SeqCst);
        }
    }

    fn after(&self, job: usize) {
        if job == 1 {
            self.done.fetch_add(1, Ordering::SeqCst);
        }
    }

    fn never_holds(&self) -> bool {
        false
    }
}

/// Each job waits until so many jobs have begun.
#[derive(Drop)]
struct AllAtOnce {
    count: u64,
    begun: AtomicU64,
    /// How many workers gave up.
    lost: Arc<AtomicU64, Global>,
}

impl Gate for AllAtOnce {
    fn before(&self, _job: usize) {
        self.begun.fetch_add(1, Ordering::SeqCst);
        if !reaches(&self.begun, self.count) {
            self.lost.fetch_add(1, Ordering::SeqCst);
        }
    }

    fn after(&self, _job: usize) {}

    fn never_holds(&self) -> bool {
        false
    }
}

// So many processes are to be made.
fn procs(alloc: Global, count: u8) -> Option<Vec<Job>> {
    let mut jobs = Vec::new(alloc);
    for _ in 0..count {
        jobs.push(Job::Proc).ok()?;
    }
    Some(jobs)
}

// Whether the crew makes so many processes, one job each.
fn makes<R: Threads + Wait + Sync + Send + Copy + Drop + 'static, G: Gate + Send + Drop + 'static>(
    rt: R,
    alloc: Global,
    crew: &mut MemCrew<G>,
    count: u8,
) -> Option<bool> {
    let jobs = procs(alloc, count)?;
    let lines = serves(rt, alloc, crew, jobs, Vec::new(alloc))?;
    let is_made = lines.iter().all(|line| matches!(line.said, Said::Made(_)));
    Some(is_made && lines.len() == count as usize)
}

#[test]
fn gate_holds_first_until_second(rt: HostRuntime) -> Result<(), Fail> {
    let alloc = rt.alloc();
    let lost = Arc::new(alloc, AtomicU64::new(0))?;
    let gate = SecondFirst {
        done: AtomicU64::new(0),
        lost: Arc::try_clone(&lost)?,
    };
    let mut crew = crew_over(&rt, alloc, MemKeeper::new(alloc, 1), 2, gate)?;
    let made = makes(rt, alloc, &mut crew, 2);
    crew.close(&rt);
    assert!(rt; made == Some(true));
    assert!(rt; lost.load(Ordering::SeqCst) == 0);
    Ok(())
}

// Whether each of a hundred batches of a question is answered that the process may not yet.
fn asks<R: Threads + Wait + Sync + Send + Copy + Drop + 'static, G: Gate + Send + Drop + 'static>(
    rt: R,
    alloc: Global,
    crew: &mut MemCrew<G>,
) -> Option<bool> {
    let refused = Line {
        said: Said::NotYet,
        seen: 0,
    };
    for _ in 0..100 {
        let jobs = Vec::from_array(alloc, [ask(ONE, FIRST)]).ok()?;
        let lines = serves(rt, alloc, crew, jobs, Vec::new(alloc))?;
        if lines.as_slice() != [refused].as_slice() {
            return Some(false);
        }
    }
    Some(true)
}

// Whether so many workers begin one job each at once, and go on to answer a hundred batches.
fn meet<R: Threads + Wait + Sync + Send + Copy + Drop + 'static>(
    rt: R,
    alloc: Global,
    workers: u8,
) -> Result<bool, Fail>
    requires some { 1 ≤ workers }
    requires few { workers ≤ 16 }
{
    let lost = Arc::new(alloc, AtomicU64::new(0))?;
    let gate = AllAtOnce {
        count: workers as u64,
        begun: AtomicU64::new(0),
        lost: Arc::try_clone(&lost)?,
    };
    let mut crew = crew_over(&rt, alloc, MemKeeper::new(alloc, 1), workers, gate)?;
    let made = makes(rt, alloc, &mut crew, workers);
    let asked = asks(rt, alloc, &mut crew);
    crew.close(&rt);
    let is_lost = lost.load(Ordering::SeqCst) > 0;
    Ok(made == Some(true) && asked == Some(true) && !is_lost)
}

#[test]
fn gate_holds_each_until_all(rt: HostRuntime) -> Result<(), Fail> {
    assert!(rt; meet(rt, rt.alloc(), 3)?);
    assert!(rt; meet(rt, rt.alloc(), 16)?);
    Ok(())
}
