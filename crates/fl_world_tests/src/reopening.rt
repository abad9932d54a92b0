//! Tests of a node of a world that is opened again over another keeper.
ghost use Rattle.std.specs.Prelude.{◌<◌};

use crate::scene::{group_is_begun, group_is_made, happens, has_text, joins, process_is_made};
use fl_jobs::answer::Refusal;
use fl_labels::name::{Name, NodeNumber};
use fl_store::mem::MemKeeper;
use fl_system::answer::Fault;
use fl_system::event::Event;
use fl_system::reply::Reply;
use fl_world::world::World;
use std::alloc::Global;
use std::mem::replace;

const FIRST: Name = Name { node: 1, seq: 1 };

const SECOND: Name = Name { node: 1, seq: 2 };

const THIRD: Name = Name { node: 1, seq: 3 };

// Two nodes join. Node 1 makes a group, and its keeper breaks as it saves another.
fn breaks(world: &mut World<MemKeeper>, alloc: Global, keeps: bool) -> bool {
    let mut keeper = MemKeeper::new(alloc, 1);
    keeper.break_at(2, keeps);
    joins(world, alloc, 1, keeper)
        && joins(world, alloc, 2, MemKeeper::new(alloc, 2))
        && process_is_made(world, alloc, 1)
        && group_is_made(world, alloc, FIRST)
        && group_is_begun(world, alloc, 1, SECOND)
        && happens(
            world,
            alloc,
            Event::Save(1),
            Reply::Refused(Fault::KeeperFailed),
        )
        && is_stopped(world, alloc)
}

fn is_stopped(world: &mut World<MemKeeper>, alloc: Global) -> bool {
    happens(world, alloc, Event::Save(1), Reply::Refused(Fault::Stopped))
}

// Has the keeper of the node mended, and the node opened again.
fn mended(world: &mut World<MemKeeper>, alloc: Global, number: NodeNumber) -> Reply {
    world.reopen(alloc, number, |keeper: &mut MemKeeper| {
        let broken = replace(keeper, MemKeeper::new(alloc, 1));
        *keeper = broken.mend();
    })
}

// The group that node 1 makes next, opened again, has this name.
fn goes_on(world: &mut World<MemKeeper>, alloc: Global, name: Name) -> bool {
    process_is_made(world, alloc, 2) && group_is_begun(world, alloc, 2, name)
}

// Node 1 is mended, once, and no other.
fn is_mended_once(world: &mut World<MemKeeper>, alloc: Global) -> bool {
    mended(world, alloc, 3) == Reply::NoSuch
        && mended(world, alloc, 1) == Reply::Booted(2)
        && mended(world, alloc, 1) == Reply::Refused(Fault::Refused(Refusal::Busy))
}

#[test]
fn reopened_after_a_break(rt: HostRuntime) {
    let alloc = rt.alloc();
    let mut world = World::new(alloc, 1);
    assert!(rt; breaks(&mut world, alloc, false));
    assert!(rt; is_mended_once(&mut world, alloc));
    assert!(rt; has_text(&world, alloc, 1, "1.1 group\n"));
    assert!(rt; goes_on(&mut world, alloc, SECOND));
}

#[test]
fn reopened_with_what_was_in_doubt(rt: HostRuntime) {
    let alloc = rt.alloc();
    let mut world = World::new(alloc, 1);
    assert!(rt; breaks(&mut world, alloc, true));
    assert!(rt; mended(&mut world, alloc, 1) == Reply::Booted(2));
    assert!(rt; has_text(&world, alloc, 1, "1.1 group\n1.2 group\n"));
    assert!(rt; goes_on(&mut world, alloc, THIRD));
}

// A keeper of this node that has nothing is put in the place of that of node 1, which is broken.
fn is_refused(world: &mut World<MemKeeper>, alloc: Global, number: NodeNumber) -> bool {
    let reply = world.reopen(alloc, 1, |keeper: &mut MemKeeper| {
        *keeper = MemKeeper::new(alloc, number)
    });
    reply == Reply::Refused(Fault::WrongNode)
        && happens(
            world,
            alloc,
            Event::Restart(1, false),
            Reply::Refused(Fault::WrongNode),
        )
        && is_stopped(world, alloc)
}

#[test]
fn keeper_that_never_was_its_own(rt: HostRuntime) {
    let alloc = rt.alloc();
    let mut world = World::new(alloc, 1);
    assert!(rt; breaks(&mut world, alloc, true));
    assert!(rt; is_refused(&mut world, alloc, 1));
    assert!(rt; is_refused(&mut world, alloc, 2));
    assert!(rt; has_text(&world, alloc, 1, ""));
}
