//! Tests of desks that look at a front of the list.
use crate::scene::{happens, is_begun, is_made, job, joins, process_is_made};
use fl_jobs::answer::Reply as Answer;
use fl_jobs::job::{Act, Job, Order};
use fl_labels::cap::Cap;
use fl_labels::cap_set::CapSet;
use fl_labels::name::{Name, NodeNumber};
use fl_labels::pid::Pid;
use fl_message::boxed::Boxed;
use fl_ops::op::Policy;
use fl_store::mem::MemKeeper;
use fl_system::event::Event;
use fl_system::reply::Reply;
use fl_world::world::World;
use std::alloc::{AllocError, Global};

const GROUP: Name = Name { node: 1, seq: 1 };

const TAG: Name = Name { node: 1, seq: 2 };

const PUT: Name = Name { node: 1, seq: 3 };

fn process(serial: u32) -> Pid {
    Pid {
        node: 1,
        boot: 1,
        serial: serial.max(1),
    }
}

// The first process of node 1 orders this, and it is published.
fn is_ordered(world: &mut World<MemKeeper>, alloc: Global, order: Order, name: Name) -> bool {
    is_begun(world, alloc, 1, order, name) && is_made(world, alloc, name)
}

// In a world of two desks, desk 1 of node 1 sees that the group has the tag, and desk 2 nothing.
fn lags(world: &mut World<MemKeeper>, alloc: Global) -> bool {
    joins(world, alloc, 1, MemKeeper::new(alloc, 1))
        && process_is_made(world, alloc, 1)
        && is_ordered(world, alloc, Order::Group, GROUP)
        && is_ordered(world, alloc, Order::Tag(Policy::Read), TAG)
        && is_ordered(world, alloc, Order::Put(GROUP, Cap::Plus(TAG)), PUT)
}

// At this desk, which looks so far, it is asked whether the group has the tag.
fn asked(node: NodeNumber, desk: u8, upto: u64) -> Event {
    Event::Job {
        node,
        desk,
        upto,
        job: Job::Member(Cap::Use(GROUP), Cap::Plus(TAG)),
    }
}

/// What is answered to that question.
#[derive(Clone, Copy)]
enum Seen {
    Yes,
    NotYet,
    NoDesk,
}

fn reply_of(seen: Seen) -> Reply {
    match seen {
        Seen::Yes => Reply::Job(Answer::Yes),
        Seen::NotYet => Reply::Job(Answer::NotYet),
        Seen::NoDesk => Reply::NoSuch,
    }
}

// Which desk looks how far, and what it sees, one after the other.
const LOOKS: [(u8, u64, Seen); 7] = [
    (2, 0, Seen::NotYet),
    (2, 2, Seen::NotYet),
    (1, 0, Seen::Yes),
    (2, 9, Seen::Yes),
    (2, 0, Seen::Yes),
    (0, 9, Seen::NoDesk),
    (3, 9, Seen::NoDesk),
];

#[test]
fn lagging_view_in_a_world(rt: HostRuntime) {
    let alloc = rt.alloc();
    let mut world = World::new(alloc, 2);
    assert!(rt; lags(&mut world, alloc));
    for (desk, upto, seen) in LOOKS {
        assert!(rt; happens(&mut world, alloc, asked(1, desk, upto), reply_of(seen)));
    }
    let restart = Event::Restart(1, false);
    assert!(rt; happens(&mut world, alloc, restart, Reply::Booted(2)));
    assert!(rt; happens(&mut world, alloc, asked(1, 2, 0), reply_of(Seen::Yes)));
}

// The process of this number is made by the job.
fn makes(world: &mut World<MemKeeper>, alloc: Global, by: Job, serial: u32) -> bool {
    let made = Reply::Job(Answer::Made(process(serial)));
    happens(world, alloc, job(by), made)
}

#[test]
fn benches_make_processes_in_turn(rt: HostRuntime) -> Result<(), AllocError> {
    let alloc = rt.alloc();
    let mut world = World::new(alloc, 2);
    assert!(rt; joins(&mut world, alloc, 1, MemKeeper::new(alloc, 1)));
    for serial in 1..5 {
        assert!(rt; makes(&mut world, alloc, Job::Proc, serial));
    }
    let caps = Boxed::new(alloc, CapSet::new(alloc))?;
    let child = Job::By(process(2), Act::Spawn(caps));
    assert!(rt; makes(&mut world, alloc, child, 6));
    Ok(())
}
