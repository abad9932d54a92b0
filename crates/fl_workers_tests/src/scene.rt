//! Crews, what they are asked for, and what their entries say.
ghost use Rattle.std.specs.Prelude.{◌≤◌};

use fl_crew_model::record::Told;
use fl_jobs::answer;
use fl_jobs::job::{Act, Job, Order};
use fl_labels::cap::Cap;
use fl_labels::endpoint::Endpoint;
use fl_labels::name::Name;
use fl_labels::pid::Pid;
use fl_ops::op::{Body, Op, Policy};
use fl_store::keeper::Keeper;
use fl_store::mem::MemKeeper;
use fl_system::answer::Fault;
use fl_wire::packet::Packet;
use fl_workers::crew::Crew;
use fl_workers::entry::{Entry, Reply};
use fl_workers::gate::Gate;
use std::alloc::Global;
use std::sync::Wait;
use std::test::Fail;
use std::thread::Threads;

/// A crew over a keeper in memory.
pub type MemCrew<G> = Crew<MemKeeper, G>;

/// The process of the first worker, before a restart.
pub const ONE: Pid = Pid {
    node: 1,
    boot: 1,
    serial: 1,
};

/// The process of the second worker, before a restart.
pub const TWO: Pid = Pid {
    node: 1,
    boot: 1,
    serial: 2,
};

/// What is ordered first.
pub const FIRST: Name = Name { node: 1, seq: 1 };

/// What is ordered next.
pub const SECOND: Name = Name { node: 1, seq: 2 };

/// What is said of an item of a batch, as far as tests compare it.
#[derive(Clone, Copy, Debug, PartialEq, Eq)]
pub enum Said {
    Made(Pid),
    Yes,
    NotYet,
    Opened(Endpoint),
    Arrived(Pid),
    Published(Name),
    Refused(Fault),
    Took(u64),
    Other,
}

/// What is said of an item, and how many operations were seen.
#[derive(Clone, Copy, Debug, PartialEq, Eq)]
pub struct Line {
    pub said: Said,
    pub seen: u64,
}

fn answered(reply: &answer::Reply) -> Said {
    match reply {
        answer::Reply::Made(pid) => Said::Made(*pid),
        answer::Reply::Yes => Said::Yes,
        answer::Reply::NotYet => Said::NotYet,
        answer::Reply::Opened(endpoint) => Said::Opened(*endpoint),
        answer::Reply::Arrived(pid) => Said::Arrived(*pid),
        _ => Said::Other,
    }
}

fn told(told: &Told) -> Said {
    match told {
        Told::Reply(reply) => answered(reply),
        Told::Published(name) => Said::Published(*name),
        Told::Refused(fault) => Said::Refused(*fault),
        Told::Out(_) => Said::Other,
    }
}

fn line_of(entry: &Entry) -> Line {
    let said = match &entry.reply {
        Reply::Took(count) => Said::Took(*count),
        Reply::Told(it) => told(it),
    };
    Line {
        said,
        seen: entry.seen,
    }
}

// What the entries say; none where one stands at another place.
fn lines_of(alloc: Global, entries: &[Entry]) -> Option<Vec<Line>> {
    let mut lines = Vec::new(alloc);
    for (place, entry) in entries.iter().enumerate() {
        if entry.job != place {
            return None;
        }
        lines.push(line_of(entry)).ok()?;
    }
    Some(lines)
}

/// What a crew says of each item of a batch; none where it does not begin it, or says what stands
/// at another place.
pub fn serves<
    R: Threads + Wait + Sync + Send + Copy + Drop + 'static,
    K: Keeper,
    G: Gate + Send + Drop + 'static,
>(
    rt: R,
    alloc: Global,
    crew: &mut Crew<K, G>,
    jobs: Vec<Job>,
    packets: Vec<Packet>,
) -> Option<Vec<Line>> {
    let entries = crew.batch(rt, alloc, jobs, packets).ok()?;
    lines_of(alloc, &entries)
}

/// A crew of node 1 over a keeper, with so many workers and this gate.
pub fn crew_over<R: Wait, K: Keeper + Drop, G: Gate + Send + Drop + 'static>(
    rt: &R,
    alloc: Global,
    keeper: K,
    workers: u8,
    gate: G,
) -> Result<Crew<K, G>, Fail>
    requires some { 1 ≤ workers }
    requires few { workers ≤ 16 }
{
    match Crew::open(rt, alloc, keeper, 1, workers, gate) {
        Ok(crew) => Ok(crew),
        Err(_) => Err(Fail::from("not opened")),
    }
}

/// Whether the crew is asked for two processes, and makes the first two.
pub fn makes_two<
    R: Threads + Wait + Sync + Send + Copy + Drop + 'static,
    K: Keeper,
    G: Gate + Send + Drop + 'static,
>(rt: R, alloc: Global, crew: &mut Crew<K, G>) -> Option<bool> {
    let jobs = Vec::from_array(alloc, [Job::Proc, Job::Proc]).ok()?;
    let lines = serves(rt, alloc, crew, jobs, Vec::new(alloc))?;
    let one = Line {
        said: Said::Made(ONE),
        seen: 0,
    };
    let two = Line {
        said: Said::Made(TWO),
        seen: 0,
    };
    Some(lines.as_slice() == [one, two].as_slice())
}

/// That the process orders a tag that may be read.
pub fn tag(pid: Pid) -> Job {
    Job::By(pid, Act::Order(Order::Tag(Policy::Read)))
}

/// That the process asks whether it may add the tag.
pub fn ask(pid: Pid, tag: Name) -> Job {
    Job::By(pid, Act::Ask(Cap::Plus(tag)))
}

/// What makes the tag.
pub fn tag_made(name: Name) -> Op {
    Op {
        name,
        body: Body::MakeTag(Policy::Read),
    }
}
