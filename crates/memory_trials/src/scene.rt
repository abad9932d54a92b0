//! The crew that trials are made over, and what it is asked.
ghost use Rattle.std.specs.Prelude.{◌<◌, ◌≤◌};

use crate::ending::NotBegun;
use fl_crew_model::record::Told;
use fl_jobs::answer;
use fl_jobs::answer::Refusal;
use fl_jobs::job::{Act, Job, Order};
use fl_labels::cap::Cap;
use fl_labels::name::Name;
use fl_labels::pid::Pid;
use fl_ops::op::{Body, Op};
use fl_store::mem::MemKeeper;
use fl_system::answer::Fault;
use fl_workers::crew::Crew;
use fl_workers::entry::{Entry, Reply};
use fl_workers::fault::CrewFault;
use fl_workers::gate::OpenGate;
use std::alloc::Global;
use std::sync::Wait;
use std::thread::Threads;

/// A crew over a keeper in memory.
pub type MemCrew = Crew<MemKeeper, OpenGate>;

/// The first two groups.
pub const GROUPS: [Op; 2] = [
    Op {
        name: Name { node: 1, seq: 1 },
        body: Body::MakeGroup,
    },
    Op {
        name: Name { node: 1, seq: 2 },
        body: Body::MakeGroup,
    },
];

/// What became of a job, as far as trials tell it apart.
#[derive(Clone, Copy, Debug, PartialEq, Eq)]
pub enum Outcome {
    /// Its process was made.
    Made,
    /// What it ordered is published.
    Published,
    /// It was answered, in whichever words.
    Answered,
    /// There was not enough memory.
    Memory,
    /// Something saved was due.
    Busy,
    /// The crew stopped.
    Stopped,
    Other,
}

// What a job was answered that was admitted.
fn answered(reply: &answer::Reply) -> Outcome {
    match reply {
        answer::Reply::Made(_) => Outcome::Made,
        _ => Outcome::Answered,
    }
}

// Why a job was refused.
fn refused(fault: &Fault) -> Outcome {
    match fault {
        Fault::Refused(Refusal::Memory) => Outcome::Memory,
        Fault::Refused(Refusal::Busy) => Outcome::Busy,
        Fault::Stopped => Outcome::Stopped,
        _ => Outcome::Other,
    }
}

fn told(told: &Told) -> Outcome {
    match told {
        Told::Published(_) => Outcome::Published,
        Told::Reply(reply) => answered(reply),
        Told::Refused(fault) => refused(fault),
        Told::Out(_) => Outcome::Other,
    }
}

fn outcome_of(entry: &Entry) -> Outcome {
    match &entry.reply {
        Reply::Told(it) => told(it),
        Reply::Took(_) => Outcome::Other,
    }
}

/// The process of this worker since a boot.
pub fn process(worker: u32, boot: u32) -> Pid {
    Pid {
        node: 1,
        boot: if boot == 0 { 1 } else { boot },
        serial: if worker == 0 { 1 } else { worker },
    }
}

/// That the process makes a group.
pub fn group(pid: Pid) -> Job {
    Job::By(pid, Act::Order(Order::Group))
}

/// That the process asks whether it has the use of the first group.
pub fn ask(pid: Pid) -> Job {
    Job::By(pid, Act::Ask(Cap::Use(GROUPS[0].name)))
}

/// What a batch of three jobs came to.
#[derive(Clone, Copy, Debug, PartialEq, Eq)]
pub enum Served {
    /// There was no memory for the list of the jobs.
    NoJobs,
    /// It was not begun, for want of memory.
    NotBegun,
    /// It was not begun, since the crew is stopped.
    Stopped,
    /// What became of each job.
    Begun([Outcome; 3]),
    /// The entries are not one for each job, in its place.
    Misplaced,
}

fn outcomes_of(entries: &[Entry]) -> Served {
    match entries {
        [one, two, three] if (one.job, two.job, three.job) == (0, 1, 2) => {
            Served::Begun([outcome_of(one), outcome_of(two), outcome_of(three)])
        }
        _ => Served::Misplaced,
    }
}

/// Has the crew serve a batch of three jobs.
pub fn serve<R: Threads + Wait + Sync + Send + Copy + Drop + 'static>(
    rt: R,
    alloc: Global,
    crew: &mut MemCrew,
    jobs: [Job; 3],
) -> Served {
    let Ok(jobs) = Vec::from_array(alloc, jobs) else {
        return Served::NoJobs;
    };
    match crew.batch(rt, alloc, jobs, Vec::new(alloc)) {
        Ok(entries) => outcomes_of(&entries),
        Err(CrewFault::Memory) => Served::NotBegun,
        Err(CrewFault::Stopped) => Served::Stopped,
    }
}

/// Has the crew make three processes, and says whether it did, and goes on. Where no thread was
/// made it does not, though the processes are made.
pub fn makes_three<R: Threads + Wait + Sync + Send + Copy + Drop + 'static>(
    rt: R,
    alloc: Global,
    crew: &mut MemCrew,
) -> bool {
    let made = [Outcome::Made, Outcome::Made, Outcome::Made];
    let served = serve(rt, alloc, crew, [Job::Proc, Job::Proc, Job::Proc]);
    served == Served::Begun(made) && !crew.is_stopped()
}

/// A crew of two over a keeper of nothing.
pub fn opened<R: Wait>(rt: &R, alloc: Global) -> Result<MemCrew, NotBegun> {
    match Crew::open(rt, alloc, MemKeeper::new(alloc, 1), 1, 2, OpenGate) {
        Ok(crew) => Ok(crew),
        Err(_) => Err(NotBegun),
    }
}

/// Whether the crew's node has saved just these, each of which is there once.
pub fn has_saved(crew: &MemCrew, ops: &[Op]) -> bool {
    let saved = crew.node().saved();
    saved.len() == ops.len() && ops.iter().all(|op| saved.contains(op))
}

/// Whether the crew's node has saved these and published them.
pub fn stands(crew: &MemCrew, ops: &[Op]) -> bool {
    has_saved(crew, ops) && crew.node().published() == ops
}
