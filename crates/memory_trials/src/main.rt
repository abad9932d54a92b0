//! Calls functions of the libraries, each over a state of its own, and says what each answered and
//! whether it left what it must: `done`; `refused` for want of memory, with what it left, and once
//! more it was done; `not begun` where what it is called over could not be made; `WRONG` with what
//! is so instead. They are of sets of operations, of an index, of a press and of a crew of two
//! workers; what a line of a script calls is tried by scripts. A word names one trial; without a
//! word all are made. At most one request for memory may be refused in a run: `.ci/refusals`
//! refuses each in turn.
//!
//! Which request of a crew comes at which place, and how many there are, differs from run to run,
//! since the workers are threads. So each trial goes by what it was answered alone, whichever
//! request that was: of two orders at once either may be the one that is refused.
#![tactic(auto)]

mod batch;
mod boards;
mod calls;
mod ending;
mod open;
mod restart;
mod scene;
mod sets;

use crate::ending::Ending;
use std::alloc::Global;
use std::env;
use std::io::{Eprint, Print};
use std::process::ExitCode;
use std::sync::Wait;
use std::test::Fail;
use std::thread::Threads;

/// The status where the word names no trial.
const BAD_WORDS: u8 = 2;

/// The words that name a trial.
const TRIALS: [&str; 7] = [
    "merge",
    "absorb",
    "absorb_all",
    "press",
    "crew_open",
    "crew_batch",
    "crew_restart",
];

// How the trial of this name ends, if there is one.
fn ending_of<R: Threads + Wait + Sync + Send + Copy + Drop + 'static>(
    rt: R,
    alloc: Global,
    name: &str,
) -> Option<Ending> {
    match name {
        "press" => Some(boards::publish(&rt, alloc)),
        "crew_open" => Some(open::tried(&rt, alloc)),
        "crew_batch" => Some(batch::tried(rt, alloc)),
        "crew_restart" => Some(restart::tried(rt, alloc)),
        other => sets::ending_of(alloc, other),
    }
}

// Makes the trial of this name, and says how it ended. Answers the status.
fn told<R: Print + Eprint + Threads + Wait + Sync + Send + Copy + Drop + 'static>(
    rt: R,
    alloc: Global,
    name: &str,
) -> Result<ExitCode, Fail> {
    let Some(ending) = ending_of(rt, alloc, name) else {
        eprintln!(rt; "memory_trials: there is no trial {name}")?;
        return Ok(ExitCode::from(BAD_WORDS));
    };
    println!(rt; "{name}: {ending}")?;
    Ok(match ending {
        Ending::Wrong(_) => ExitCode::FAILURE,
        Ending::NotBegun | Ending::Done | Ending::Refused(_) => ExitCode::SUCCESS,
    })
}

// Makes all trials, and answers the status.
fn all_told<R: Print + Eprint + Threads + Wait + Sync + Send + Copy + Drop + 'static>(
    rt: R,
    alloc: Global,
) -> Result<ExitCode, Fail> {
    let mut status = ExitCode::SUCCESS;
    for name in &TRIALS {
        if told(rt, alloc, name)? != ExitCode::SUCCESS {
            status = ExitCode::FAILURE;
        }
    }
    Ok(status)
}

fn main(rt: HostRuntime) -> Result<ExitCode, Fail> {
    let alloc = rt.alloc();
    let Ok(words) = env::args(&rt) else {
        println!(rt; "memory_trials: not begun")?;
        return Ok(ExitCode::SUCCESS);
    };
    match words.skip(1).next() {
        Some(name) => told(rt, alloc, &name),
        None => all_told(rt, alloc),
    }
}
