//! What is asked of nodes that are there, and changes nothing.
ghost use Rattle.std.specs.Prelude.{◌≡◌, ◌<◌, ◌⊎◌, IfOk, OnErr, length};
ghost use Rattle.fl_labels.specs.SetBy as set;
ghost use Rattle.fl_system.specs.World.{World as AnyWorld, KeptNode};
ghost use Rattle.fl_system.specs.WorldSteps.{IsAt};
ghost use Rattle.fl_system.specs.Waiting.{IsRunning};
ghost use Rattle.fl_nodes.specs.Goes.{MayBe};
ghost use Rattle.fl_calls.specs.Answer.{shown};
ghost use Rattle.fl_calls.specs.Calls.{counted, Tells, Unites, ChecksAt};
ghost use Rattle.fl_calls.specs.Failing.{SaysFailed};

use crate::response::{Response, counted};
use fl_jobs::answer::Refusal;
use fl_labels::name::NodeNumber;
use fl_node::node::Node;
use fl_opset::set::OpSet;
use fl_store::keeper::Keeper;
use fl_system::answer::Fault;
use fl_system::reply::Reply;
use fl_wire::fault::ReadFault;
use fl_wire::reading::decode;
use fl_world::world::World;
use std::alloc::{AllocError, Global};

// Why something was not done.
fn refused(fault: Fault) -> Response
    ensures { result ≡ Response.Reply (Reply.Refused fault) }
{
    Response::Reply(Reply::Refused(fault))
}

// There was not enough memory.
fn starved() -> Response
    ensures { result ≡ Response.Reply (Reply.Refused (Fault.Refused Refusal.Memory)) }
{
    refused(Fault::Refused(Refusal::Memory))
}

/// Has the text of the node of this number be written, where it is there. `Stopped` of a stopped
/// one.
pub fn tell<K: Keeper>(world: &World<K>, number: NodeNumber) -> Response
    ensures tells { (w : AnyWorld) (s : KeptNode) → MayBe K.custody world.now w → IsAt w number s
        → Tells w number (shown world.now result) w }
    ensures cause { ¬ SaysFailed result }
{
    let Some(node) = world.node(number) else {
        return Response::Unknown;
    };
    match node.runs() {
        Ok(()) => Response::Text(number),
        Err(fault) => refused(fault),
    }
}

// Copies what two nodes that run have published into one set.
fn united<K: Keeper>(alloc: Global, first: &Node<K>, second: &Node<K>) -> Result<OpSet, AllocError>
    requires first { IsRunning first.now.node.state }
    requires second { IsRunning second.now.node.state }
    ensures ok { let one = set.of_list first.now.node.published in
        let other = set.of_list second.now.node.published in
        IfOk result (λ all. all ≡ set.union one other) }
    ensures wants { OnErr result ((0 < length first.now.node.published)
        ⊎ (0 < length second.now.node.published)) }
{
    let mut all = OpSet::new(alloc);
    first.add_to(alloc, &mut all)?;
    second.add_to(alloc, &mut all)?;
    Ok(all)
}

/// Copies what both nodes have published into one set, where they are there. `Stopped` where one is
/// stopped, and `Memory` only where there are operations.
pub fn unite<K: Keeper>(
    alloc: Global,
    world: &World<K>,
    first: NodeNumber,
    second: NodeNumber,
) -> Response
    ensures unites { (w : AnyWorld) (s t : KeptNode) → MayBe K.custody world.now w → IsAt w first s
        → IsAt w second t → Unites w first second (shown world.now result) w }
    ensures cause { ¬ SaysFailed result }
{
    let (Some(one), Some(other)) = (world.node(first), world.node(second)) else {
        return Response::Unknown;
    };
    if let Err(fault) = one.runs() {
        return refused(fault);
    }
    if let Err(fault) = other.runs() {
        return refused(fault);
    }
    match united(alloc, one, other) {
        Ok(all) => Response::Union(all),
        Err(AllocError) => starved(),
    }
}

/// What a packet of these bytes would bring to the node of this number, where it is there:
/// `BadPacket` where the bytes are none, and else as `Node::check` has it.
pub fn check<K: Keeper>(
    alloc: Global,
    world: &World<K>,
    number: NodeNumber,
    bytes: &[u8],
) -> Response
    ensures checks { (w : AnyWorld) (s : KeptNode) → MayBe K.custody world.now w → IsAt w number s
        → ChecksAt w number bytes.now (shown world.now result) w }
    ensures cause { ¬ SaysFailed result }
{
    let Some(node) = world.node(number) else {
        return Response::Unknown;
    };
    let packet = match decode(alloc, bytes) {
        Ok(packet) => packet,
        Err(ReadFault::BadPacket { place }) => return Response::BadPacket(place as u64),
        Err(ReadFault::Memory) => return starved(),
    };
    match node.check(alloc, &packet) {
        Ok(count) => Response::Checked(counted(&packet, count)),
        Err(fault) => refused(fault),
    }
}
