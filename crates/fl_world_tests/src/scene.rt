//! What the tests of worlds do.
ghost use Rattle.std.specs.Prelude.{◌<◌};

use fl_jobs::answer::Reply as Answer;
use fl_jobs::job::{Act, Job, Order};
use fl_labels::name::{Name, NodeNumber};
use fl_labels::pid::Pid;
use fl_ops::op::Policy;
use fl_store::keeper::Keeper;
use fl_store::mem::MemKeeper;
use fl_system::event::Event;
use fl_system::reply::Reply;
use fl_world::world::World;
use std::alloc::Global;

/// Has a node join over a keeper. Whether it is its first boot.
pub fn joins(
    world: &mut World<MemKeeper>,
    alloc: Global,
    number: NodeNumber,
    keeper: MemKeeper,
) -> bool
    requires { 0 < number }
{
    match world.join(alloc, number, keeper) {
        Ok(boot) => boot == 1,
        Err(_) => false,
    }
}

/// Has the event happen. Whether it is answered so.
pub fn happens<K: Keeper>(
    world: &mut World<K>,
    alloc: Global,
    event: Event,
    wanted: Reply,
) -> bool {
    world.step(alloc, event) == wanted
}

/// A job at node 1.
pub fn job(job: Job) -> Event {
    Event::Job {
        node: 1,
        desk: 1,
        upto: u64::MAX,
        job,
    }
}

// The process that is made first at node 1 since this boot.
fn first(boot: u32) -> Pid
    requires { 0 < boot }
{
    Pid {
        node: 1,
        boot,
        serial: 1,
    }
}

/// Makes the first process since this boot at node 1. As all that follows, it says whether each
/// answer is the one that is due.
pub fn process_is_made<K: Keeper>(world: &mut World<K>, alloc: Global, boot: u32) -> bool
    requires { 0 < boot }
{
    let made = Reply::Job(Answer::Made(first(boot)));
    happens(world, alloc, job(Job::Proc), made)
}

/// The process that is made first at node 1 since this boot begins to make a tag there.
pub fn tag_is_begun<K: Keeper>(world: &mut World<K>, alloc: Global, boot: u32) -> bool
    requires { 0 < boot }
{
    let name = Name { node: 1, seq: 1 };
    process_is_made(world, alloc, boot)
        && is_begun(world, alloc, boot, Order::Tag(Policy::Export), name)
}

/// The process that is made first at node 1 since this boot begins what it orders, under this name.
pub fn is_begun<K: Keeper>(
    world: &mut World<K>,
    alloc: Global,
    boot: u32,
    order: Order,
    name: Name,
) -> bool
    requires { 0 < boot }
{
    let order = Job::By(first(boot), Act::Order(order));
    happens(world, alloc, job(order), Reply::Begun(name))
}

/// What is begun at node 1, under this name, is saved and published.
pub fn is_made(world: &mut World<MemKeeper>, alloc: Global, name: Name) -> bool {
    happens(world, alloc, Event::Save(1), Reply::Done)
        && happens(world, alloc, Event::Publish(1), Reply::Published(name))
}

/// The first process of node 1 since this boot begins to make a group of this name.
pub fn group_is_begun(world: &mut World<MemKeeper>, alloc: Global, boot: u32, name: Name) -> bool
    requires { 0 < boot }
{
    is_begun(world, alloc, boot, Order::Group, name)
}

/// The first process of node 1 makes a group of this name.
pub fn group_is_made(world: &mut World<MemKeeper>, alloc: Global, name: Name) -> bool {
    group_is_begun(world, alloc, 1, name) && is_made(world, alloc, name)
}

/// Whether this is the text of the node.
pub fn has_text(world: &World<MemKeeper>, alloc: Global, number: NodeNumber, wanted: &str) -> bool {
    let mut text = Vec::new(alloc);
    world.text(number, &mut text).is_some() && text.as_slice() == wanted.as_bytes()
}
