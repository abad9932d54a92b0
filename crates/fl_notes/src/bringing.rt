//! What a node does with a packet that comes to it.
ghost use Rattle.std.specs.Prelude.{◌≡◌, ◌<◌, ◌++◌, length, IfOk, IfErr};
ghost use Rattle.std.specs.Vec.{vec_len, vec_capacity};
ghost use Rattle.fl_labels.specs.SetBy as set;
ghost use Rattle.fl_ops.specs.OpOrder.{op_cmp};
ghost use Rattle.fl_gossip.specs.Taking.{ops_of};
ghost use Rattle.fl_system.specs.Audit.{message_entries};
ghost use Rattle.fl_system.specs.Processes.{process_of};
ghost use Rattle.fl_audit.specs.Drafts.{listed};
ghost use Rattle.fl_node.specs.Telling.{TellsNothing};
ghost use Rattle.fl_node.specs.Desks.{IsDeskOf};
ghost use Rattle.fl_machine_model.specs.Alone.{BatchAlone};
ghost use Rattle.fl_notes.specs.Bringing.{Brought};

use fl_audit::message::arrival;
use fl_jobs::answer::Refusal;
use fl_labels::pid::Pid;
use fl_message::boxed::Boxed;
use fl_message::message::Data;
use fl_node::node::Node;
use fl_store::keeper::Keeper;
use fl_system::admission::{Admission, Party};
use fl_system::answer::Fault;
use fl_system::reply::Reply;
use fl_system::state::State;
use fl_wire::packet::Packet;
use std::alloc::{AllocError, Global};

// What is made of a message before it is handed in.
#[derive(Drop)]
struct Ready {
    message: Boxed<Data>,
    entry: Option<Admission>,
}

// What is noted where a message of this sender arrives at this process.
fn entry<K: Keeper>(
    alloc: Global,
    node: &mut Node<K>,
    sender: &Option<Party>,
    receiver: Pid,
) -> Result<Option<Admission>, AllocError>
    ensures entry { IfOk result (λ made.
        listed made ≡ message_entries sender.now receiver (process_of node.old.node receiver)) }
    ensures same { node.new ≡ node.old }
{
    let Some(sender) = sender else {
        return Ok(None);
    };
    arrival(sender, receiver, node.share(alloc, receiver)?)
}

// Copies the message, since it may come again, and makes what is noted where it arrives.
fn copied<K: Keeper>(
    alloc: Global,
    node: &mut Node<K>,
    sender: &Option<Party>,
    message: &Data,
) -> Result<Ready, AllocError>
    ensures message { IfOk result (λ made. made.message ≡ message.now) }
    ensures entry { let to = message.now.receiver in IfOk result (λ made.
        listed made.entry ≡ message_entries sender.now to (process_of node.old.node to)) }
    ensures same { node.new ≡ node.old }
{
    let entry = entry(alloc, node, sender, message.receiver)?;
    let message = Boxed::new(alloc, message.copy(alloc)?)?;
    Ok(Ready { message, entry })
}

// The same, where the node runs, with room for what is noted.
fn prepare<K: Keeper>(
    alloc: Global,
    node: &mut Node<K>,
    sender: &Option<Party>,
    message: &Data,
    audit: &mut Vec<Admission>,
) -> Result<Ready, Fault>
    ensures message { IfOk result (λ made. made.message ≡ message.now) }
    ensures entry { let to = message.now.receiver in IfOk result (λ made.
        listed made.entry ≡ message_entries sender.now to (process_of node.old.node to)) }
    ensures room { IfOk result (λ made. vec_len audit.new < vec_capacity audit.new) }
    ensures audit { audit.new.items ≡ audit.old.items }
    ensures err { IfErr result (TellsNothing node.old.node.state) }
    ensures same { node.new ≡ node.old }
{
    if let State::Stopped(_) = node.state() {
        return Err(Fault::Stopped);
    }
    let Ok(made) = copied(alloc, node, sender, message) else {
        return Err(Fault::Refused(Refusal::Memory));
    };
    match audit.reserve(1) {
        Ok(()) => Ok(made),
        Err(_) => Err(Fault::Refused(Refusal::Memory)),
    }
}

// Notes the entry, if there is one, in the room that there is.
fn note(audit: &mut Vec<Admission>, entry: Option<Admission>)
    requires { vec_len audit.old < vec_capacity audit.old }
    ensures { audit.new.items ≡ audit.old.items ++ listed entry }
{
    if let Some(entry) = entry {
        let Ok(()) = audit.push(entry) else {
            unreachable!("there is room");
        };
    }
}

/// Hands a message of this sender to its receiver at the node, and notes it where it arrives. What
/// is noted is made and has its room before. Copies the labels of the receiver, and what it owns,
/// only where one of them has changed since it was noted last.
///
/// Refused as `Node::arrive` has it; `Stopped` where the node is stopped, and `Memory` where there
/// is no room for the message or for what would be noted. Nothing is noted then.
pub fn bring<K: Keeper>(
    alloc: Global,
    node: &mut Node<K>,
    sender: &Option<Party>,
    message: &Data,
    audit: &mut Vec<Admission>,
) -> Reply
    requires { IsDeskOf node.old.node 1 }
    ensures brings { Brought node.old.node sender.now message.now result node.new.node
        audit.old.items audit.new.items }
    ensures desks { length node.new.node.views ≡ length node.old.node.views }
    ensures keeper { node.new.keeper ≡ node.old.keeper }
{
    let Ready { message, entry } = match prepare(alloc, node, sender, message, audit) {
        Ok(made) => made,
        Err(fault) => return Reply::Refused(fault),
    };
    match node.arrive(alloc, message) {
        Ok(reply) => {
            note(audit, entry);
            Reply::Job(reply)
        }
        Err(fault) => Reply::Refused(fault),
    }
}

/// Has the node take the operations of a packet, as `Node::receive` has it: those that are new are
/// then to be saved. Answers how many are new, or why none is taken.
pub fn receive<K: Keeper>(alloc: Global, node: &mut Node<K>, packet: &Packet) -> Reply
    ensures desks { length node.new.node.views ≡ length node.old.node.views }
    ensures takes { let ops = set.of_list {R = op_cmp} (ops_of packet.now) in
        BatchAlone node.old.node ops result node.new.node }
    ensures keeper { node.new.keeper ≡ node.old.keeper }
{
    let count = match node.receive(alloc, packet) {
        Ok(count) => count,
        Err(fault) => return Reply::Refused(fault),
    };
    if count == 0 {
        return Reply::Took(0);
    }
    Reply::Taking(count)
}
