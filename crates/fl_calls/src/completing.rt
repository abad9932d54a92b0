//! Events of a world, with what they begin.
ghost use Rattle.std.specs.Prelude.{◌≡◌, ◌≢◌, false, true};
ghost use Rattle.fl_system.specs.WorldSteps.{node_of};
ghost use Rattle.fl_nodes.specs.Failing.{IsBrokenAt};
ghost use Rattle.fl_nodes.specs.Goes.{Goes};
ghost use Rattle.fl_calls.specs.Completing.{begins, starved, Finishes, Completes};
ghost use Rattle.fl_calls.specs.Failing.{FailsCompleting};
ghost use Rattle.fl_calls.specs.parts.Coming.{IsSentAs};

use fl_jobs::answer::Refusal;
use fl_labels::name::NodeNumber;
use fl_store::keeper::Keeper;
use fl_system::answer::Fault;
use fl_system::event::Event;
use fl_system::reply::Reply;
use fl_world::world::World;
use std::alloc::Global;

/// The number of the node to which the event happens.
pub fn number_of(event: &Event) -> NodeNumber
    ensures { result ≡ node_of event.now }
{
    match event {
        Event::Job { node, .. } | Event::Deliver { node, .. } => *node,
        Event::Save(node) | Event::Publish(node) | Event::Cancel(node) | Event::Tell(node) => *node,
        Event::Restart(node, _) => *node,
    }
}

/// Whether the reply says that something is to be saved and published.
pub fn begins(reply: &Reply) -> bool
    ensures { result ≡ begins reply.now }
{
    matches!(reply, Reply::Begun(_) | Reply::Taking(_))
}

/// Whether what was asked for is not there.
pub fn is_nowhere(reply: &Reply) -> bool
    ensures yes { result ≡ true → reply.now ≡ Reply.NoSuch }
    ensures no { result ≡ false → reply.now ≢ Reply.NoSuch }
{
    matches!(reply, Reply::NoSuch)
}

fn is_done(reply: &Reply) -> bool
    ensures yes { result ≡ true → reply.now ≡ Reply.Done }
    ensures no { result ≡ false → reply.now ≢ Reply.Done }
{
    matches!(reply, Reply::Done)
}

// Whether there was not enough memory.
fn is_starved(reply: &Reply) -> bool
    ensures yes { result ≡ true → reply.now ≡ starved }
    ensures no { result ≡ false → reply.now ≢ starved }
{
    matches!(reply, Reply::Refused(Fault::Refused(Refusal::Memory)))
}

/// Saves what is to be saved at the node, and publishes it. Where saving wants memory, it is given
/// up.
pub fn finish<K: Keeper>(alloc: Global, world: &mut World<K>, number: NodeNumber) -> Reply
    ensures goes { Goes K.custody world.old world.new (λ w w'. Finishes w number result w') }
    ensures cause { result ≡ Reply.Refused Fault.KeeperFailed
        → IsBrokenAt K.custody world.new number }
{
    let reply = world.save(number);
    if is_done(&reply) {
        return world.publish(alloc, number);
    }
    if is_starved(&reply) {
        world.cancel(number);
    }
    reply
}

/// Has the event happen, and saves and publishes what it begins. Gives what the last of it is
/// answered.
pub fn complete<K: Keeper>(alloc: Global, world: &mut World<K>, event: Event) -> Reply
    ensures goes { Goes K.custody world.old world.new (λ w w'. Completes w event result w') }
    ensures cause { result ≡ Reply.Refused Fault.KeeperFailed
        → FailsCompleting K.custody world.old world.new event }
{
    let number = number_of(&event);
    let reply = world.step(alloc, event);
    if begins(&reply) {
        return finish(alloc, world, number);
    }
    reply
}

/// That the packet of this number comes to the node.
pub fn arrival(number: NodeNumber, packet: u32) -> Event
    ensures { result ≡ Event.Deliver packet number }
{
    Event::Deliver {
        packet: packet as u64,
        node: number,
    }
}

/// Has the packet of this number come to the node, and saves and publishes what it brings. A
/// message begins nothing, so no keeper fails with it.
pub fn come<K: Keeper>(
    alloc: Global,
    world: &mut World<K>,
    number: NodeNumber,
    packet: u32,
    is_message: bool,
) -> Reply
    ensures goes { Goes K.custody world.old world.new (λ w w'. IsSentAs w packet is_message
        → Completes w (Event.Deliver packet number) result w') }
    ensures cause { result ≡ Reply.Refused Fault.KeeperFailed
        → (is_message ≡ false) × IsBrokenAt K.custody world.new number }
{
    let event = arrival(number, packet);
    if is_message {
        return world.step(alloc, event);
    }
    complete(alloc, world, event)
}
