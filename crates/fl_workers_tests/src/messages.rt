//! A test of a message that one worker's process sends to another's.
use crate::scene::{Line, MemCrew, ONE, Said, TWO, crew_over, makes_two, serves};
use fl_crew_model::record::Told;
use fl_jobs::answer;
use fl_jobs::job::{Act, GivenLabels, Job, Mail};
use fl_labels::cap_set::CapSet;
use fl_labels::endpoint::Endpoint;
use fl_labels::label::Label;
use fl_labels::pid::Pid;
use fl_message::boxed::Boxed;
use fl_message::message::{Data, Message};
use fl_message::payload::Payload;
use fl_message::shared::Shared;
use fl_rules::endpoint::Mode;
use fl_store::mem::MemKeeper;
use fl_wire::packet::Packet;
use fl_workers::entry::{Entry, Reply};
use fl_workers::gate::OpenGate;
use std::alloc::Global;
use std::sync::Wait;
use std::test::Fail;
use std::thread::Threads;

const ENDPOINT: Endpoint = Endpoint { number: 1 };

// The process opens an endpoint for both ways, without tags.
fn open(alloc: Global, pid: Pid) -> Option<Job> {
    let given = GivenLabels {
        secrecy: Ok(Label::new(alloc)),
        integrity: Ok(Label::new(alloc)),
    };
    let given = Boxed::new(alloc, given).ok()?;
    Some(Job::By(pid, Act::Mail(Mail::Open(Mode::Both, given))))
}

// Whether both processes open their first endpoint.
fn opens<R: Threads + Wait + Sync + Send + Copy + Drop + 'static>(
    rt: R,
    alloc: Global,
    crew: &mut MemCrew<OpenGate>,
) -> Option<bool> {
    let jobs = Vec::from_array(alloc, [open(alloc, ONE)?, open(alloc, TWO)?]).ok()?;
    let lines = serves(rt, alloc, crew, jobs, Vec::new(alloc))?;
    let opened = Line {
        said: Said::Opened(ENDPOINT),
        seen: 0,
    };
    Some(lines.as_slice() == [opened, opened].as_slice())
}

// The answer of a crew to one job.
fn answer_to<R: Threads + Wait + Sync + Send + Copy + Drop + 'static>(
    rt: R,
    alloc: Global,
    crew: &mut MemCrew<OpenGate>,
    job: Job,
) -> Option<Reply> {
    let jobs = Vec::from_array(alloc, [job]).ok()?;
    let entries = crew.batch(rt, alloc, jobs, Vec::new(alloc)).ok()?;
    let Entry { job: 0, reply, .. } = entries.into_iter().next()? else {
        return None;
    };
    Some(reply)
}

// The message of two bytes that the first process sends to the second.
fn sent<R: Threads + Wait + Sync + Send + Copy + Drop + 'static>(
    rt: R,
    alloc: Global,
    crew: &mut MemCrew<OpenGate>,
) -> Option<Data> {
    let payload = Payload::from_vec(Vec::from_array(alloc, [104, 105]).ok()?);
    let message = Message::new(CapSet::new(alloc), payload)?;
    let send = Mail::Send {
        from: ENDPOINT,
        receiver: TWO,
        to: ENDPOINT,
        message: Shared::new(alloc, message).ok()?,
    };
    match answer_to(rt, alloc, crew, Job::By(ONE, Act::Mail(send)))? {
        Reply::Told(Told::Out(data)) => Some(data),
        _ => None,
    }
}

// Whether the message arrives at the second process.
fn arrives<R: Threads + Wait + Sync + Send + Copy + Drop + 'static>(
    rt: R,
    alloc: Global,
    crew: &mut MemCrew<OpenGate>,
) -> Option<bool> {
    let data = sent(rt, alloc, crew)?;
    let packets = Vec::from_array(alloc, [Packet::Data(data)]).ok()?;
    let lines = serves(rt, alloc, crew, Vec::new(alloc), packets)?;
    let arrived = Line {
        said: Said::Arrived(TWO),
        seen: 0,
    };
    Some(lines.as_slice() == [arrived].as_slice())
}

// Whether the second process takes the message.
fn takes<R: Threads + Wait + Sync + Send + Copy + Drop + 'static>(
    rt: R,
    alloc: Global,
    crew: &mut MemCrew<OpenGate>,
) -> Option<bool> {
    match &answer_to(rt, alloc, crew, Job::By(TWO, Act::Mail(Mail::Take)))? {
        Reply::Told(Told::Reply(answer::Reply::Taken(letter))) => {
            let is_read = letter.message.payload.as_slice() == b"hi".as_slice();
            Some(is_read && letter.sender == ONE)
        }
        _ => Some(false),
    }
}

#[test]
fn message_between_benches(rt: HostRuntime) -> Result<(), Fail> {
    let alloc = rt.alloc();
    let mut crew = crew_over(&rt, alloc, MemKeeper::new(alloc, 1), 2, OpenGate)?;
    let made = makes_two(rt, alloc, &mut crew);
    let opened = opens(rt, alloc, &mut crew);
    let arrived = arrives(rt, alloc, &mut crew);
    let taken = takes(rt, alloc, &mut crew);
    crew.close(&rt);
    assert!(rt; made == Some(true) && opened == Some(true));
    assert!(rt; arrived == Some(true) && taken == Some(true));
    Ok(())
}
