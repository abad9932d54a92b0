//! Tests of nodes that join over keepers.
use crate::scene::{group_is_begun, happens, is_made, job, joins, process_is_made};
use fl_jobs::answer::Refusal;
use fl_jobs::job::{Act, Job, Order};
use fl_labels::name::Name;
use fl_labels::pid::Pid;
use fl_ops::op::{Body, Op};
use fl_store::keeper::Keeper;
use fl_store::mem::MemKeeper;
use fl_system::answer::Fault;
use fl_system::reply::Reply;
use fl_world::world::World;
use std::alloc::{AllocError, Global};

const MAKER: Pid = Pid {
    node: 1,
    boot: 1,
    serial: 1,
};

const LAST: Name = Name {
    node: 1,
    seq: 4_294_967_295,
};

// A keeper of node 1 with one operation.
fn keeper_with(alloc: Global, op: Op) -> Result<MemKeeper, AllocError> {
    MemKeeper::with(alloc, 1, 0, &[op])
}

const LAST_BUT_ONE: Op = Op {
    name: Name {
        node: 1,
        seq: 4_294_967_294,
    },
    body: Body::MakeGroup,
};

// The first process of node 1 orders a group, and there is no name for it.
fn has_no_name(world: &mut World<MemKeeper>, alloc: Global) -> bool {
    let order = Job::By(MAKER, Act::Order(Order::Group));
    let spent = Reply::Refused(Fault::Refused(Refusal::NamesSpent));
    happens(world, alloc, job(order), spent)
}

// Node 1 makes a group of the last name, and then no other.
fn names_are_spent(world: &mut World<MemKeeper>, alloc: Global) -> bool {
    process_is_made(world, alloc, 1)
        && group_is_begun(world, alloc, 1, LAST)
        && is_made(world, alloc, LAST)
        && has_no_name(world, alloc)
}

#[test]
fn last_name_is_spent(rt: HostRuntime) -> Result<(), AllocError> {
    let alloc = rt.alloc();
    let keeper = keeper_with(alloc, LAST_BUT_ONE)?;
    let mut world = World::new(alloc, 1);
    assert!(rt; joins(&mut world, alloc, 1, keeper));
    assert!(rt; names_are_spent(&mut world, alloc));
    Ok(())
}

// Node 2 does not join over a keeper of node 1, which is handed back.
fn is_refused(world: &mut World<MemKeeper>, alloc: Global) -> bool {
    match world.join(alloc, 2, MemKeeper::new(alloc, 1)) {
        Ok(_) => false,
        Err((fault, keeper)) => fault == Fault::WrongNode && keeper.number() == 1,
    }
}

#[test]
fn keeper_of_another_node(rt: HostRuntime) {
    let alloc = rt.alloc();
    let mut world = World::new(alloc, 1);
    assert!(rt; is_refused(&mut world, alloc));
    assert!(rt; world.node(2).is_none());
}
