//! A test of a batch of as many items as there may be.
use crate::scene::{FIRST, Line, MemCrew, ONE, Said, ask, crew_over, serves};
use fl_jobs::job::Job;
use fl_labels::pid::Pid;
use fl_store::mem::MemKeeper;
use fl_wire::packet::Packet;
use fl_wire::reading::decode;
use fl_workers::gate::OpenGate;
use std::alloc::Global;
use std::sync::Wait;
use std::test::Fail;
use std::thread::Threads;

const PROCS: u32 = 128;

const PACKETS: u8 = 64;

// In turn, a process is to be made, and the first one asks.
fn jobs(alloc: Global) -> Option<Vec<Job>> {
    let mut jobs = Vec::new(alloc);
    for _ in 0..PROCS {
        jobs.push(Job::Proc).ok()?;
        jobs.push(ask(ONE, FIRST)).ok()?;
    }
    Some(jobs)
}

// The packet of the group 2.SEQ alone.
fn delta_of(alloc: Global, seq: u8) -> Option<Packet> {
    decode(alloc, &[242, 3, 1, 2, 2, 0, 0, 0, 2, 0, 0, 0, seq]).ok()
}

// The packets of as many groups in turn.
fn packets(alloc: Global) -> Option<Vec<Packet>> {
    let mut packets = Vec::new(alloc);
    for seq in 1..PACKETS + 1 {
        packets.push(delta_of(alloc, seq)?).ok()?;
    }
    Some(packets)
}

// What is to be said of each place.
fn said_at(place: u32) -> Said {
    if place >= 2 * PROCS {
        Said::Took(1)
    } else if place % 2 == 1 {
        Said::NotYet
    } else {
        let serial = place / 2 + 1;
        Said::Made(Pid {
            node: 1,
            boot: 1,
            serial,
        })
    }
}

// Whether each line says what it is to say.
fn are_said(lines: &[Line]) -> bool {
    let mut place = 0u32;
    for line in lines {
        if line.said != said_at(place) {
            return false;
        }
        place = place.wrapping_add(1);
    }
    place == 2 * PROCS + PACKETS as u32
}

fn is_served<R: Threads + Wait + Sync + Send + Copy + Drop + 'static>(
    rt: R,
    alloc: Global,
    crew: &mut MemCrew<OpenGate>,
) -> Option<bool> {
    let (jobs, packets) = (jobs(alloc)?, packets(alloc)?);
    let lines = serves(rt, alloc, crew, jobs, packets)?;
    Some(are_said(&lines))
}

#[test]
fn full_batch(rt: HostRuntime) -> Result<(), Fail> {
    let alloc = rt.alloc();
    let mut crew = crew_over(&rt, alloc, MemKeeper::new(alloc, 1), 3, OpenGate)?;
    let is_served = is_served(rt, alloc, &mut crew);
    let count = crew.node().published().len();
    crew.close(&rt);
    assert!(rt; is_served == Some(true));
    assert!(rt; count == PACKETS as usize);
    Ok(())
}
