//! A trial of a batch: two processes of two workers make a group each, and a third one asks.
ghost use Rattle.std.specs.Prelude.{◌≤◌};

use crate::ending::Ending;
use crate::scene::{
    GROUPS, MemCrew, Outcome, Served, ask, group, has_saved, makes_three, opened, process, serve,
    stands,
};
use fl_jobs::job::Job;
use std::alloc::Global;
use std::sync::Wait;
use std::thread::Threads;

// What becomes of the jobs where nothing is refused.
const DONE: [Outcome; 3] = [Outcome::Published, Outcome::Published, Outcome::Answered];

// What becomes of three questions then.
const ASKED: [Outcome; 3] = [Outcome::Answered, Outcome::Answered, Outcome::Answered];

// What the registry reads once both groups are made.
const TEXT: &[u8] = b"1.1 group\n1.2 group\n";

// How many bytes of memory its text is given at most.
const ROOM: usize = 64;

// What the processes since a boot do, where so many groups are made already.
fn jobs(boot: u32, made: usize) -> [Job; 3] {
    let (one, two, three) = (process(1, boot), process(2, boot), process(3, boot));
    match made {
        0 => [group(one), group(two), ask(three)],
        1 => [group(one), ask(two), ask(three)],
        _ => [ask(one), ask(two), ask(three)],
    }
}

// What becomes of these jobs where nothing is refused.
fn outcomes(made: usize) -> [Outcome; 3] {
    match made {
        0 => DONE,
        1 => [Outcome::Published, Outcome::Answered, Outcome::Answered],
        _ => ASKED,
    }
}

// Whether both groups are made. The text is written into this room.
fn is_complete(crew: &MemCrew, room: &mut Vec<u8>) -> bool {
    room.clear();
    let is_written = matches!(crew.text(room), Ok(Ok(())));
    is_written && room.as_slice() == TEXT && stands(crew, &GROUPS) && !crew.is_stopped()
}

// Has the processes since a boot make the groups that are not made yet, of which there are so many.
// Where all went well, the ending is this.
fn completed<R: Threads + Wait + Sync + Send + Copy + Drop + 'static>(
    rt: R,
    alloc: Global,
    crew: &mut MemCrew,
    room: &mut Vec<u8>,
    boot: u32,
    left: &'static str,
) -> Ending {
    let made = crew.node().published().len();
    if serve(rt, alloc, crew, jobs(boot, made)) != Served::Begun(outcomes(made)) {
        return Ending::Wrong("once more, a job was refused");
    }
    if is_complete(crew, room) {
        Ending::Refused(left)
    } else {
        Ending::Wrong("once more, the call left something else")
    }
}

// How many of the orders are published, by what they were told.
fn published(outcomes: &[Outcome; 3]) -> usize {
    outcomes
        .iter()
        .filter(|it| **it == Outcome::Published)
        .count()
}

// Whether an order may come to this: it is told that something is due only where that is so.
fn may_order(outcome: Outcome, due: usize) -> bool {
    match outcome {
        Outcome::Published | Outcome::Memory | Outcome::Stopped => true,
        Outcome::Busy => due == 1,
        Outcome::Made | Outcome::Answered | Outcome::Other => false,
    }
}

// Whether the jobs may come to this where a request was refused, and so many operations are saved:
// what is saved beside what orders were told is one operation at most, which is due. A question
// takes no memory. A job is told that the crew stopped just where it is.
fn may_be(outcomes: &[Outcome; 3], saved: usize, is_stopped: bool) -> bool {
    let [one, two, three] = *outcomes;
    let due = saved.wrapping_sub(published(outcomes));
    let are_orders = may_order(one, due) && may_order(two, due);
    let is_question = three == Outcome::Answered || three == Outcome::Stopped;
    let has_stopped = outcomes.contains(&Outcome::Stopped);
    due <= 1 && are_orders && is_question && has_stopped == is_stopped
}

// What a batch left that went on, in words.
fn left_by(outcomes: &[Outcome; 3], saved: usize) -> &'static str {
    if saved > published(outcomes) {
        "what was saved is due"
    } else {
        "an order was refused"
    }
}

// Goes on after a batch in which something was refused: the next batch publishes what is due, and
// then the groups are made that are not made yet.
fn went_on<R: Threads + Wait + Sync + Send + Copy + Drop + 'static>(
    rt: R,
    alloc: Global,
    crew: &mut MemCrew,
    room: &mut Vec<u8>,
    left: &'static str,
) -> Ending {
    if serve(rt, alloc, crew, jobs(1, 2)) != Served::Begun(ASKED) {
        return Ending::Wrong("once more, a question was refused");
    }
    if !has_saved(crew, crew.node().published()) {
        return Ending::Wrong("the next batch did not publish what was due");
    }
    completed(rt, alloc, crew, room, 1, left)
}

// Goes on after a batch that stopped the crew.
fn restarted<R: Threads + Wait + Sync + Send + Copy + Drop + 'static>(
    rt: R,
    alloc: Global,
    crew: MemCrew,
    room: &mut Vec<u8>,
) -> (MemCrew, Ending) {
    let (mut crew, boot) = crew.restart(&rt, alloc, false);
    if boot != Ok(2) {
        return (crew, Ending::Wrong("the crew was not restarted"));
    }
    if !makes_three(rt, alloc, &mut crew) {
        return (crew, Ending::Wrong("once more, a process was not made"));
    }
    let ending = completed(rt, alloc, &mut crew, room, 2, "the crew is stopped");
    (crew, ending)
}

// What a batch came to that was begun.
fn begun<R: Threads + Wait + Sync + Send + Copy + Drop + 'static>(
    rt: R,
    alloc: Global,
    mut crew: MemCrew,
    room: &mut Vec<u8>,
    outcomes: [Outcome; 3],
) -> (MemCrew, Ending) {
    let saved = crew.node().saved().len();
    if outcomes == DONE {
        let is_complete = is_complete(&crew, room);
        let wrong = Ending::Wrong("the call left something else");
        return (crew, if is_complete { Ending::Done } else { wrong });
    }
    if !may_be(&outcomes, saved, crew.is_stopped()) {
        return (crew, Ending::Wrong("the call answered something else"));
    }
    if crew.is_stopped() {
        return restarted(rt, alloc, crew, room);
    }
    let left = left_by(&outcomes, saved);
    let ending = went_on(rt, alloc, &mut crew, room, left);
    (crew, ending)
}

// What a batch came to that was not begun.
fn not_begun<R: Threads + Wait + Sync + Send + Copy + Drop + 'static>(
    rt: R,
    alloc: Global,
    crew: &mut MemCrew,
    room: &mut Vec<u8>,
) -> Ending {
    if crew.is_stopped() || !stands(crew, &[]) {
        return Ending::Wrong("the refused call left something else");
    }
    completed(rt, alloc, crew, room, 1, "no job was begun")
}

// Serves the batch, and goes on after it.
fn served<R: Threads + Wait + Sync + Send + Copy + Drop + 'static>(
    rt: R,
    alloc: Global,
    mut crew: MemCrew,
    room: &mut Vec<u8>,
) -> (MemCrew, Ending) {
    match serve(rt, alloc, &mut crew, jobs(1, 0)) {
        Served::NoJobs => (crew, Ending::NotBegun),
        Served::NotBegun => {
            let ending = not_begun(rt, alloc, &mut crew, room);
            (crew, ending)
        }
        Served::Begun(outcomes) => begun(rt, alloc, crew, room, outcomes),
        Served::Stopped | Served::Misplaced => {
            (crew, Ending::Wrong("the call answered something else"))
        }
    }
}

/// Serves the batch; where something of it is refused, goes on until both groups are made.
pub fn tried<R: Threads + Wait + Sync + Send + Copy + Drop + 'static>(
    rt: R,
    alloc: Global,
) -> Ending {
    let Ok(mut room) = Vec::with_capacity(alloc, ROOM) else {
        return Ending::NotBegun;
    };
    let Ok(mut crew) = opened(&rt, alloc) else {
        return Ending::NotBegun;
    };
    let (crew, ending) = if makes_three(rt, alloc, &mut crew) {
        served(rt, alloc, crew, &mut room)
    } else {
        (crew, Ending::NotBegun)
    };
    drop(crew.close(&rt));
    ending
}
