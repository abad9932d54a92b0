//! A trial of a restart.
use crate::ending::Ending;
use crate::scene::{
    GROUPS, MemCrew, Outcome, Served, ask, group, makes_three, opened, process, serve, stands,
};
use fl_jobs::answer::Refusal;
use fl_jobs::job::Job;
use fl_system::answer::Fault;
use std::alloc::Global;
use std::sync::Wait;
use std::thread::Threads;

// Whether a process is made, and makes a group.
fn begins<R: Threads + Wait + Sync + Send + Copy + Drop + 'static>(
    rt: R,
    alloc: Global,
    crew: &mut MemCrew,
) -> bool {
    let first = process(1, 1);
    let made = [Outcome::Made, Outcome::Published, Outcome::Answered];
    serve(rt, alloc, crew, [Job::Proc, group(first), ask(first)]) == Served::Begun(made)
}

// Restarts a crew once more, which a refused restart left.
fn again<R: Threads + Wait + Sync + Send + Copy + Drop + 'static>(
    rt: R,
    alloc: Global,
    crew: MemCrew,
) -> (MemCrew, Ending) {
    let was_stopped = crew.is_stopped();
    let (mut crew, boot) = crew.restart(&rt, alloc, false);
    if !was_stopped {
        return (
            crew,
            Ending::Wrong("the refused call left a crew that goes on"),
        );
    }
    if boot.is_err() {
        return (crew, Ending::Wrong("once more, the call was refused"));
    }
    let is_done = stands(&crew, &GROUPS[..1]) && makes_three(rt, alloc, &mut crew);
    let ending = if is_done {
        Ending::Refused("the crew is stopped, with all that it had saved")
    } else {
        Ending::Wrong("once more, the call left something else")
    };
    (crew, ending)
}

// Restarts a crew; where that is refused, once more.
fn restarted<R: Threads + Wait + Sync + Send + Copy + Drop + 'static>(
    rt: R,
    alloc: Global,
    crew: MemCrew,
) -> (MemCrew, Ending) {
    let (crew, boot) = crew.restart(&rt, alloc, false);
    match boot {
        Ok(2) if stands(&crew, &GROUPS[..1]) && !crew.is_stopped() => (crew, Ending::Done),
        Ok(_) => (crew, Ending::Wrong("the call left something else")),
        Err(Fault::Refused(Refusal::Memory)) => again(rt, alloc, crew),
        Err(_) => (crew, Ending::Wrong("the call answered something else")),
    }
}

/// Restarts a crew that made a group; where that is refused, once more.
pub fn tried<R: Threads + Wait + Sync + Send + Copy + Drop + 'static>(
    rt: R,
    alloc: Global,
) -> Ending {
    let Ok(mut crew) = opened(&rt, alloc) else {
        return Ending::NotBegun;
    };
    let (crew, ending) = if begins(rt, alloc, &mut crew) {
        restarted(rt, alloc, crew)
    } else {
        (crew, Ending::NotBegun)
    };
    drop(crew.close(&rt));
    ending
}
