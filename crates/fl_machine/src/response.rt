//! What is answered to a line.
ghost use Rattle.std.specs.Prelude.{◌≡◌};
ghost use Rattle.fl_calls.specs.Completing.{starved};
ghost use Rattle.fl_machine.specs.Shown.{status_said};
ghost use Rattle.fl_turns.specs.Answer.{fault_status};

use fl_calls::response::Check;
use fl_explanations::who::Who;
use fl_explanations::why::Why;
use fl_jobs::answer::Refusal;
use fl_labels::cap_set::CapSet;
use fl_labels::pid::Pid;
use fl_system::answer::Fault;
use fl_system::reply::Reply;

/// What is answered to a line.
#[derive(Drop)]
pub enum Response<'a> {
    /// Nothing: the line is empty or a comment.
    Silence,
    /// What an act of the node is replied.
    Reply(Reply),
    /// The message does not arrive.
    Dropped(Fault),
    /// The message of these bytes goes to its receiver.
    Sent(Vec<u8>),
    /// The packets of these bytes are told.
    Told(Vec<Vec<u8>>),
    /// The operations that are published, which are written from the node itself.
    Text,
    /// What the packet would bring.
    Checked(Check),
    /// The bytes bring no packet: at this place they are none.
    BadPacket(u64),
    /// So much was admitted.
    Admitted(u64),
    /// The word comes back.
    Echo(&'a str),
    /// Operations that are published, from this place of the list on.
    Log(u32),
    /// Why somebody has a capability.
    Why(Why),
    /// Who has a capability.
    Who(Who),
    /// Which capabilities are wanting.
    Wanting(CapSet),
    /// How the node stands, and each of its processes, whose pids these are, which is written from
    /// the node itself.
    Overview(Vec<Pid>),
    /// What the process has, or that there is none, which is written from the node itself.
    Process(Pid),
    /// The line is none of this machine.
    Unknown,
}

/// Why nothing was done.
pub fn refused<'a>(fault: Fault) -> Response<'a>
    ensures { result ≡ Response.Reply (Reply.Refused fault) }
{
    Response::Reply(Reply::Refused(fault))
}

/// There was not enough memory.
pub fn starved<'a>() -> Response<'a>
    ensures { result ≡ Response.Reply starved }
{
    refused(Fault::Refused(Refusal::Memory))
}

// The status of a line with this fault.
fn fault_status(fault: Fault) -> u8
    ensures { result ≡ fault_status fault }
{
    match fault {
        Fault::KeeperFailed => 3,
        _ => 0,
    }
}

impl<'a> Response<'a> {
    /// The status of its line: 1 where it is none of this machine, 3 where the keeper failed, and
    /// else 0.
    pub fn status(&self) -> u8
        ensures { result ≡ status_said self.now }
    {
        match self {
            Response::Reply(Reply::Refused(fault)) | Response::Dropped(fault) => {
                fault_status(*fault)
            }
            Response::Unknown => 1,
            _ => 0,
        }
    }
}
