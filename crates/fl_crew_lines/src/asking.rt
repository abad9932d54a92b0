//! What a line that is no job asks of crews.
ghost use Rattle.std.specs.Prelude.{◌≡◌, ◌≢◌, ◌⊎◌, ◌<◌, ℕ, All, IfErr, IfNone, IfOk, IfSome, None, OnErr, Some};
ghost use Rattle.std.specs.Prelude.{false, length, true};
ghost use Rattle.fl_calls.specs.Answer.{shown_alone};
ghost use Rattle.fl_crew_calls.specs.Asking.{AnswersWindow, ChecksAt, Comes, DeliversAt};
ghost use Rattle.fl_crew_calls.specs.Asking.{IsServing, RestartsAt, TellsAt, TellsText, Unites};
ghost use Rattle.fl_crew_calls.specs.Asking.{is_window};
ghost use Rattle.fl_crew_calls.specs.Calls.{AsksCrew, RespondsTo};
ghost use Rattle.fl_crew_calls.specs.Over.{IsCrewAt};
ghost use Rattle.fl_crew_lines.specs.parts.Once.{AsksOpen, ComesAt, is_of_crews, names_none};
ghost use Rattle.fl_crew_turns.specs.Turn.{is_other};
ghost use Rattle.fl_labels.specs.SetBy as set;
ghost use Rattle.fl_opset.specs.declared.intervals.Intervals.{Intervals};
ghost use Rattle.fl_script.specs.Grammar.{nodes_of};
ghost use Rattle.fl_system.specs.Numbered.{item_at};
ghost use Rattle.fl_system.specs.Waiting.{IsRunning};
ghost use Rattle.fl_wire.specs.declared.packet.Packet.{Packet as WirePacket};
ghost use Rattle.fl_wire.specs.declared.packet.Packet.TheVariants as packets;
ghost use Rattle.fl_workers.specs.Over.{CrewOver};

use fl_calls::response::{Response, coming, counted, is_message};
use fl_crew_calls::crews::{Crews, STARVED};
use fl_crew_calls::runtime::CrewRuntime;
use fl_labels::name::NodeNumber;
use fl_makers::maker::MakesKeepers;
use fl_node::node::Node;
use fl_opset::set::OpSet;
use fl_script::line::Line;
use fl_script::request::Request;
use fl_store::keeper::Keeper;
use fl_system::answer::Fault;
use fl_system::reply::Reply;
use fl_wire::batch::{Batch, OpList};
use fl_wire::fault::ReadFault;
use fl_wire::packet::Packet;
use fl_wire::reading::decode;
use std::alloc::{AllocError, Global};

// Why something was not done.
fn refused(fault: Fault) -> Response
    ensures { result ≡ Response.Reply (Reply.Refused fault) }
{
    Response::Reply(Reply::Refused(fault))
}

// The same operations again.
fn copy_batch(alloc: Global, batch: &Batch) -> Result<Batch, AllocError>
    ensures { IfOk result (λ made. made ≡ batch.now) }
{
    let ops = Vec::from_slice(alloc, batch.ops.as_slice())?;
    Ok(Batch {
        ops: OpList::from_vec(ops),
    })
}

// The packet again, and nothing of a window, which no batch takes.
fn copy_packet(alloc: Global, packet: &Packet) -> Result<Option<Packet>, AllocError>
    ensures some { IfOk result (λ made. IfSome made
        (λ copy. (copy ≡ packet.now) × (is_window packet.now ≡ false))) }
    ensures none { IfOk result (λ made.
        IfNone made ((window : Intervals) × (packet.now ≡ packets.Have window))) }
    ensures err { OnErr result (is_window packet.now ≡ false) }
{
    Ok(match packet {
        Packet::Full(batch) => Some(Packet::Full(copy_batch(alloc, batch)?)),
        Packet::Delta(batch) => Some(Packet::Delta(copy_batch(alloc, batch)?)),
        Packet::Data(message) => Some(Packet::Data(message.copy(alloc)?)),
        Packet::Have(_) => None,
    })
}

// Has the crew send windows of what it has saved.
fn tell<R: CrewRuntime, M: MakesKeepers>(
    crews: &mut Crews<R, M>,
    alloc: Global,
    number: NodeNumber,
) -> Response
    requires { (crew : CrewOver M.K) × IsCrewAt crews.old number crew }
    ensures { TellsAt crews.old number (shown_alone result) crews.new }
{
    let Some(crew) = crews.crew(number) else {
        return refused(Fault::Stopped);
    };
    match crew.summary(alloc) {
        Ok(packets) => Response::Reply(crews.send_all(packets)),
        Err(fault) => refused(fault),
    }
}

// Has the crew send what the window of this number lacks.
fn answer_window<R: CrewRuntime, M: MakesKeepers>(
    crews: &mut Crews<R, M>,
    alloc: Global,
    number: NodeNumber,
    packet: u32,
) -> Reply
    requires there { (crew : CrewOver M.K) × IsCrewAt crews.old number crew }
    requires window { (window : Intervals)
        × (item_at crews.old.sent packet ≡ Some (packets.Have window)) }
    ensures { (window : Intervals) → item_at crews.old.sent packet ≡ Some (packets.Have window)
        → AnswersWindow crews.old number window result crews.new }
{
    let (Some(crew), Some(Packet::Have(window))) = (crews.crew(number), crews.packet(packet)) else {
        return Reply::Refused(Fault::Stopped);
    };
    match crew.reply(alloc, window) {
        Ok(packets) => crews.send_all(packets),
        Err(fault) => Reply::Refused(fault),
    }
}

// Has the packet of this number, which was sent, come to the node.
fn bring<R: CrewRuntime, M: MakesKeepers>(
    crews: &mut Crews<R, M>,
    alloc: Global,
    number: NodeNumber,
    packet: u32,
) -> Reply
    requires there { (crew : CrewOver M.K) × IsCrewAt crews.old number crew }
    requires sent { (sent : WirePacket) × (item_at crews.old.sent packet ≡ Some sent) }
    ensures { (sent : WirePacket) → item_at crews.old.sent packet ≡ Some sent
        → Comes M.K.custody crews.old number sent result crews.new }
{
    let Some(sent) = crews.packet(packet) else {
        return Reply::NoSuch;
    };
    match copy_packet(alloc, sent) {
        Ok(Some(copy)) => crews.take(alloc, number, copy),
        Ok(None) => answer_window(crews, alloc, number, packet),
        Err(AllocError) => Reply::Refused(STARVED),
    }
}

// The same, answered to the line. A message that does not arrive is dropped.
fn deliver<R: CrewRuntime, M: MakesKeepers>(
    crews: &mut Crews<R, M>,
    alloc: Global,
    number: NodeNumber,
    packet: u32,
) -> Response
    requires there { (crew : CrewOver M.K) × IsCrewAt crews.old number crew }
    requires sent { (sent : WirePacket) × (item_at crews.old.sent packet ≡ Some sent) }
    ensures { ComesAt M.K.custody crews.old number packet (shown_alone result) crews.new }
{
    let Some(sent) = crews.packet(packet) else {
        return Response::Unknown;
    };
    let is_message = is_message(sent);
    let reply = bring(crews, alloc, number, packet);
    coming(is_message, reply)
}

fn restart<R: CrewRuntime, M: MakesKeepers>(
    crews: &mut Crews<R, M>,
    alloc: Global,
    number: NodeNumber,
    keeps: bool,
) -> Response
    requires { (crew : CrewOver M.K) × IsCrewAt crews.old number crew }
    ensures { RestartsAt M.K.custody crews.old number keeps (shown_alone result) crews.new }
{
    match crews.restart(alloc, number, keeps) {
        Ok(boot) => Response::Reply(Reply::Booted(boot)),
        Err(fault) => refused(fault),
    }
}

// What both nodes have published, in one set.
fn all_of<K: Keeper>(alloc: Global, first: &Node<K>, second: &Node<K>) -> Result<OpSet, AllocError>
    requires first { IsRunning first.now.node.state }
    requires second { IsRunning second.now.node.state }
    ensures ok { let one = set.of_list first.now.node.published in
        let other = set.of_list second.now.node.published in
        IfOk result (λ all. all ≡ set.union one other) }
    ensures wants { OnErr result ((0 < length first.now.node.published)
        ⊎ (0 < length second.now.node.published)) }
{
    let mut all = OpSet::new(alloc);
    first.add_to(alloc, &mut all)?;
    second.add_to(alloc, &mut all)?;
    Ok(all)
}

// What the node has published, in a set of its own.
fn published<K: Keeper>(alloc: Global, node: &Node<K>) -> Result<OpSet, AllocError>
    requires { IsRunning node.now.node.state }
    ensures ok { IfOk result (λ all. all ≡ set.of_list node.now.node.published) }
    ensures wants { OnErr result (0 < length node.now.node.published) }
{
    let mut all = OpSet::new(alloc);
    node.add_to(alloc, &mut all)?;
    Ok(all)
}

fn text<R: CrewRuntime, M: MakesKeepers>(
    crews: &Crews<R, M>,
    alloc: Global,
    number: NodeNumber,
) -> Response
    requires { (crew : CrewOver M.K) × IsCrewAt crews.now number crew }
    ensures { TellsText crews.now number (shown_alone result) crews.now }
{
    let node = match crews.serving(number) {
        Ok(node) => node,
        Err(fault) => return refused(fault),
    };
    match published(alloc, node) {
        Ok(all) => Response::Union(all),
        Err(AllocError) => refused(STARVED),
    }
}

// What a packet of these bytes would bring to the node.
fn check<R: CrewRuntime, M: MakesKeepers>(
    crews: &Crews<R, M>,
    alloc: Global,
    number: NodeNumber,
    bytes: &[u8],
) -> Response
    requires { (crew : CrewOver M.K) × IsCrewAt crews.now number crew }
    ensures { ChecksAt crews.now number bytes.now (shown_alone result) crews.now }
{
    let packet = match decode(alloc, bytes) {
        Ok(packet) => packet,
        Err(ReadFault::BadPacket { place }) => return Response::BadPacket(place as u64),
        Err(ReadFault::Memory) => return refused(STARVED),
    };
    let node = match crews.serving(number) {
        Ok(node) => node,
        Err(fault) => return refused(fault),
    };
    match node.check(alloc, &packet) {
        Ok(count) => Response::Checked(counted(&packet, count)),
        Err(fault) => refused(fault),
    }
}

// What two nodes have published, in one set, where their crews are there.
fn unite<R: CrewRuntime, M: MakesKeepers>(
    crews: &Crews<R, M>,
    alloc: Global,
    first: NodeNumber,
    second: NodeNumber,
) -> Response
    requires first { (crew : CrewOver M.K) × IsCrewAt crews.now first crew }
    requires second { (crew : CrewOver M.K) × IsCrewAt crews.now second crew }
    ensures { Unites crews.now first second (shown_alone result) crews.now }
{
    let one = match crews.serving(first) {
        Ok(one) => one,
        Err(fault) => return refused(fault),
    };
    let other = match crews.serving(second) {
        Ok(other) => other,
        Err(fault) => return refused(fault),
    };
    match all_of(alloc, one, other) {
        Ok(all) => Response::Union(all),
        Err(AllocError) => refused(STARVED),
    }
}

// The same. They are opened where they are not open, the first one first.
fn union<R: CrewRuntime, M: MakesKeepers>(
    crews: &mut Crews<R, M>,
    alloc: Global,
    first: NodeNumber,
    second: NodeNumber,
) -> Response
    requires first { 0 < first }
    requires second { 0 < second }
    ensures { RespondsTo M.K.custody M.making crews.old (Line.Union first second)
        (shown_alone result) crews.new }
{
    if let Err(fault) = crews.open(alloc, first) {
        return refused(fault);
    }
    if let Err(fault) = crews.open(alloc, second) {
        return refused(fault);
    }
    unite(crews, alloc, first, second)
}

// Whether the request names a packet that was not sent.
fn names_no_packet<R: CrewRuntime, M: MakesKeepers>(crews: &Crews<R, M>, request: &Request) -> bool
    ensures { result ≡ names_none crews.now request.now }
{
    match request {
        Request::Deliver(packet) => crews.packet(*packet).is_none(),
        _ => false,
    }
}

// Whether the request is one of a script over crews.
fn is_of_crews(request: &Request) -> bool
    ensures { result ≡ is_of_crews request.now }
{
    match request {
        Request::Deliver(_) | Request::Tell | Request::Restart { .. } => true,
        Request::Text | Request::Check(_) => true,
        Request::Job(_) | Request::Begin(_, _) | Request::BeginDeliver(_) => false,
        Request::Save | Request::Publish | Request::Cancel => false,
    }
}

// What is asked of a crew that is there is answered.
fn ask<R: CrewRuntime, M: MakesKeepers>(
    crews: &mut Crews<R, M>,
    alloc: Global,
    number: NodeNumber,
    request: Request,
) -> Response
    requires there { (crew : CrewOver M.K) × IsCrewAt crews.old number crew }
    requires sent { names_none crews.old request ≡ false }
    ensures { AsksOpen M.K.custody crews.old number request (shown_alone result) crews.new }
{
    match request {
        Request::Deliver(packet) => deliver(crews, alloc, number, packet),
        Request::Tell => tell(crews, alloc, number),
        Request::Restart { kept } => restart(crews, alloc, number, kept),
        Request::Text => text(crews, alloc, number),
        Request::Check(bytes) => check(crews, alloc, number, bytes.as_slice()),
        Request::Job(_) | Request::Begin(_, _) | Request::BeginDeliver(_) => Response::Unknown,
        Request::Save | Request::Publish | Request::Cancel => Response::Unknown,
    }
}

// What is asked of the node is answered. It is opened where it is not open, but not for a line that
// is none of the script.
fn respond_for<R: CrewRuntime, M: MakesKeepers>(
    crews: &mut Crews<R, M>,
    alloc: Global,
    number: NodeNumber,
    request: Request,
) -> Response
    requires { 0 < number }
    ensures { AsksCrew M.K.custody M.making crews.old number request
        (shown_alone result) crews.new }
{
    if !is_of_crews(&request) || names_no_packet(crews, &request) {
        return Response::Unknown;
    }
    match crews.open(alloc, number) {
        Ok(()) => ask(crews, alloc, number, request),
        Err(fault) => refused(fault),
    }
}

/// Answers a line that is no job and does not ask for the aliases. Steps of an order, and what
/// was admitted, are `Unknown`: a crew does not speak of them; and so is a packet that was not
/// sent. No node is opened for these.
pub fn respond_to<R: CrewRuntime, M: MakesKeepers>(
    crews: &mut Crews<R, M>,
    alloc: Global,
    line: Line,
) -> Response
    requires nodes { All (λ node. 0 < node) (nodes_of line) }
    requires other { is_other line ≡ true }
    ensures { RespondsTo M.K.custody M.making crews.old line (shown_alone result) crews.new }
{
    match line {
        Line::Node { node, request } => respond_for(crews, alloc, node, request),
        Line::Union { first, second } => union(crews, alloc, first, second),
        Line::Audit | Line::Aliases => Response::Unknown,
    }
}
