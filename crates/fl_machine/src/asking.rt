//! What a line asks of a machine's node.
ghost use Rattle.std.specs.Prelude.{◌≡◌, [], ◌∷◌, ℕ, List, false};
ghost use Rattle.fl_machine.specs.parts.Hearing.{Hears, IsRead};
ghost use Rattle.fl_machine.specs.parts.Responding.{Responds, ShowsSaying};
ghost use Rattle.fl_machine_calls.specs.Saying.{saying_of};
ghost use Rattle.fl_machine_model.specs.Acts.{Sends};
ghost use Rattle.fl_machine_turns.specs.Answer.{answered_of_job};
ghost use Rattle.fl_machine_turns.specs.Completing.{Begins, Completes};
ghost use Rattle.fl_machine_turns.specs.Guarding.{Guarded};
ghost use Rattle.fl_machine_turns.specs.Saying.{Says};
ghost use Rattle.fl_machine_turns.specs.Settings.{settings_of};
ghost use Rattle.fl_machine_turns.specs.Turn.{AnswersLine, AsksNode, IsText, Tells};
ghost use Rattle.fl_node.specs.Desks.{IsDeskOf};
ghost use Rattle.fl_seal.specs.declared.seal.Key.{Key};
ghost use Rattle.fl_system.specs.State.{NodeState};
ghost use Rattle.fl_wire.specs.declared.packet.Packet.TheVariants as packets;

use crate::explaining::explain;
use crate::foreseeing::{find_wanting, foretell};
use crate::packets::{begin_to_bring, bring_packet, check, tell};
use crate::response::{Response, refused, starved};
use fl_jobs::job::{Act, Job};
use fl_machine_calls::calls::{cancel, publish, save};
use fl_machine_calls::guarding::{begin, work};
use fl_machine_calls::said::Said;
use fl_machine_lines::asked::Asked;
use fl_machine_lines::line::MachineLine;
use fl_message::boxed::Boxed;
use fl_message::message::Data;
use fl_node::node::Node;
use fl_seal::seal::Key;
use fl_sealed_packets::going::bytes_to_send;
use fl_store::keeper::Keeper;
use fl_wire::packet::Packet;
use std::alloc::{AllocError, Global};

// The message that is sent goes, as far as there is memory for its bytes.
#[inline(never)]
fn sent<'a>(alloc: Global, keys: &[Key], message: Boxed<Data>) -> Response<'a>
    ensures { (n : NodeState) → ShowsSaying keys.now n answered_of_job
        (Sends (packets.Data message ∷ [])) result }
{
    let packet = Packet::Data(message.into_inner());
    match bytes_to_send(alloc, keys, &packet) {
        Ok(bytes) => Response::Sent(bytes),
        Err(_) => starved(),
    }
}

// What is responded to a job.
#[inline(always)]
fn said_of_job<'a>(alloc: Global, keys: &[Key], said: Said) -> Response<'a>
    ensures { (n : NodeState) → ShowsSaying keys.now n answered_of_job (saying_of said) result }
{
    match said {
        Said::Reply(reply) => Response::Reply(reply),
        Said::Sent(message) => sent(alloc, keys, message),
    }
}

// Does the job, and saves and publishes what it begins. Says too how much was admitted.
#[inline(always)]
fn do_job<'a, K: Keeper>(
    alloc: Global,
    node: &mut Node<K>,
    keys: &[Key],
    guards: bool,
    job: Job,
) -> (Response<'a>, u64)
    requires { IsDeskOf node.old.node 1 }
    ensures { let number = node.old.node.number in Responds K.custody keys.now node.old
        (λ s. Says answered_of_job (Guarded number guards s job (Completes number)))
        result.0 result.1 node.new }
{
    let mut job = job;
    let (said, count) = work(alloc, node, guards, &mut job);
    (said_of_job(alloc, keys, said), count)
}

// Does the job. What it begins is to be saved and published by further lines.
#[inline(never)]
fn begin_job<'a, K: Keeper>(
    alloc: Global,
    node: &mut Node<K>,
    keys: &[Key],
    guards: bool,
    job: Job,
) -> (Response<'a>, u64)
    requires { IsDeskOf node.old.node 1 }
    ensures { let number = node.old.node.number in Responds K.custody keys.now node.old
        (λ s. Says answered_of_job (Guarded number guards s job (Begins number)))
        result.0 result.1 node.new }
{
    let mut job = job;
    let (said, count) = begin(alloc, node, guards, &mut job);
    (said_of_job(alloc, keys, said), count)
}

// The operations that the node has published are to be written, where it runs.
fn text<'a, K: Keeper>(node: &Node<K>) -> Response<'a>
    ensures { (keys : List Key) → Responds K.custody keys node.now (λ s. Tells s (IsText s))
        result 0 node.now }
{
    match node.runs() {
        Ok(()) => Response::Text,
        Err(fault) => refused(fault),
    }
}

// Does what is asked of the node, and says what is responded, and how much was admitted.
#[inline(always)]
fn respond_to<'a, K: Keeper>(
    alloc: Global,
    node: &mut Node<K>,
    keys: &[Key],
    guards: bool,
    asked: Asked,
) -> (Response<'a>, u64)
    requires { IsDeskOf node.old.node 1 }
    ensures { let settings = settings_of node.old.node.number keys.now guards in
        Responds K.custody keys.now node.old (λ s. AsksNode settings s asked)
        result.0 result.1 node.new }
{
    match asked {
        Asked::Job(job) => do_job(alloc, node, keys, guards, job),
        Asked::Begin(pid, order) => {
            let job = Job::By(pid, Act::Order(order));
            begin_job(alloc, node, keys, guards, job)
        }
        Asked::Receive(bytes) => bring_packet(alloc, node, keys, bytes.as_slice()),
        Asked::BeginReceive(bytes) => (begin_to_bring(alloc, node, keys, bytes.as_slice()), 0),
        Asked::Tell => (tell(alloc, node, keys), 0),
        Asked::Save => (Response::Reply(save(node)), 0),
        Asked::Publish => (Response::Reply(publish(alloc, node)), 0),
        Asked::Cancel => (Response::Reply(cancel(node)), 0),
        Asked::Text => (text(node), 0),
        Asked::Check(bytes) => (check(alloc, node, keys, bytes.as_slice()), 0),
        Asked::Could(job) => (foretell(alloc, node, guards, &job), 0),
        Asked::Missing(job) => (find_wanting(alloc, node, guards, &job), 0),
        Asked::Explain(what) => (explain(alloc, node, what), 0),
    }
}

// Does what the line says to the node, of which so much was admitted before, and says what is
// responded, and how much was admitted now.
#[inline(always)]
fn respond<'a, K: Keeper>(
    alloc: Global,
    node: &mut Node<K>,
    keys: &[Key],
    guards: bool,
    admitted: u64,
    line: MachineLine<'a>,
) -> (Response<'a>, u64)
    requires { IsDeskOf node.old.node 1 }
    ensures { let settings = settings_of node.old.node.number keys.now guards in
        Responds K.custody keys.now node.old
        (λ s. AnswersLine settings (record { s = s; admitted = admitted; over = false })
        line.entry)
        result.0 result.1 node.new }
{
    match line {
        MachineLine::Quiet => (Response::Silence, 0),
        MachineLine::Bad => (Response::Unknown, 0),
        MachineLine::Echo(word) => (Response::Echo(word), 0),
        MachineLine::Audit => (Response::Admitted(admitted), 0),
        MachineLine::Asks(asked) => respond_to(alloc, node, keys, guards, asked),
    }
}

/// Does what was read of the bytes of a line to the node, of which so much was admitted before, and
/// says what is responded, and how much was admitted now. There may have been no memory to read
/// them.
pub fn respond_to_read<'a, K: Keeper>(
    alloc: Global,
    node: &mut Node<K>,
    keys: &[Key],
    guards: bool,
    admitted: u64,
    read: Result<MachineLine<'a>, AllocError>,
) -> (Response<'a>, u64)
    requires { IsDeskOf node.old.node 1 }
    ensures { let settings = settings_of node.old.node.number keys.now guards in
        (bytes : List ℕ) → IsRead node.old.node.number bytes read.entry →
        Responds K.custody keys.now node.old
        (λ s. Hears settings (record { s = s; admitted = admitted; over = false }) bytes)
        result.0 result.1 node.new }
{
    match read {
        Ok(line) => respond(alloc, node, keys, guards, admitted, line),
        Err(AllocError) => (starved(), 0),
    }
}
