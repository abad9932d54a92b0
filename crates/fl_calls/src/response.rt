//! What is answered to a line that asks something of a world.
ghost use Rattle.std.specs.Prelude.{◌≡◌};
ghost use Rattle.fl_calls.specs.Calls.{counted};
ghost use Rattle.fl_calls.specs.parts.Coming.{coming, is_message};

use fl_labels::name::NodeNumber;
use fl_opset::set::OpSet;
use fl_system::answer::Fault;
use fl_system::reply::Reply;
use fl_wire::packet::Packet;

/// What a packet would bring, were it to come now.
#[derive(Clone, Copy, Debug, PartialEq, Eq)]
pub enum Check {
    /// So many operations that are not saved.
    New(u64),
    /// A window, which lacks so many of the saved operations.
    Lacks(u64),
    /// A message.
    Data,
}

/// What a count says of a packet: how many operations of it are new, how many a window lacks, or
/// that it is a message.
pub fn counted(packet: &Packet, count: u64) -> Check
    ensures { result ≡ counted packet.now count }
{
    match packet {
        Packet::Full(_) | Packet::Delta(_) => Check::New(count),
        Packet::Have(_) => Check::Lacks(count),
        Packet::Data(_) => Check::Data,
    }
}

/// What is answered to a line that asks something of a world.
pub enum Response {
    /// What an event is answered, or why a node was not opened.
    Reply(Reply),
    /// The message does not arrive.
    Dropped(Fault),
    /// The operations of the node of this number, which are written from the node itself.
    Text(NodeNumber),
    /// These operations of two nodes.
    Union(OpSet),
    /// What the packet would bring.
    Checked(Check),
    /// The bytes are no packet: at this place they are none.
    BadPacket(u64),
    /// So much was admitted.
    Admitted(u64),
    /// The line names a packet that was not sent, or one of which it cannot speak. Nothing has
    /// changed.
    Unknown,
}

impl Drop for Response {
    fn drop(self) {
        match self {
            Response::Reply(_) => {}
            Response::Dropped(_) => {}
            Response::Text(_) => {}
            Response::Union(_) => {}
            Response::Checked(_) => {}
            Response::BadPacket(_) => {}
            Response::Admitted(_) => {}
            Response::Unknown => {}
        }
    }
}

/// Whether the packet is a message.
pub fn is_message(packet: &Packet) -> bool
    ensures { result ≡ is_message packet.now }
{
    matches!(packet, Packet::Data(_))
}

/// What is answered to a packet that came, and was replied so: a message that is refused is
/// dropped.
pub fn coming(is_message: bool, reply: Reply) -> Response
    ensures { result ≡ coming is_message reply }
{
    if !is_message {
        return Response::Reply(reply);
    }
    if let Reply::Refused(fault) = &reply {
        return Response::Dropped(*fault);
    }
    Response::Reply(reply)
}
