//! What is answered to a line.
ghost use Rattle.std.specs.Prelude.{◌≡◌};
ghost use Rattle.fl_turns.specs.Answer.{fault_status};
ghost use Rattle.fl_cluster.specs.Shown.{status_said};

use fl_aliases::target::Target;
use fl_calls::response::Response as Said;
use fl_jobs::answer::{Refusal, Reply as JobReply};
use fl_system::answer::Fault;
use fl_system::reply::Reply;

/// What is answered to a line.
pub enum Response {
    /// Nothing: the line is empty or a comment.
    Silence,
    /// What the world answers.
    Said(Said),
    /// The lines of the aliases that are set, which are written from these themselves.
    Aliases,
}

impl Drop for Response {
    fn drop(self) {
        match self {
            Response::Silence => {}
            Response::Said(_) => {}
            Response::Aliases => {}
        }
    }
}

/// The status of a line that is replied this: 3 where a keeper failed, and else 0.
pub fn reply_status(reply: &Reply) -> u8
    ensures { result ≡ status_said (Response.Said (Said.Reply reply.now)) }
{
    match reply {
        Reply::Refused(fault) => fault_status(*fault),
        _ => 0,
    }
}

// The status of a line with this fault.
fn fault_status(fault: Fault) -> u8
    ensures { result ≡ fault_status fault }
{
    match fault {
        Fault::KeeperFailed => 3,
        _ => 0,
    }
}

impl Response {
    ghost use Rattle.fl_cluster.specs.Shown.{made_said};

    /// The line is none of the script.
    pub fn bad_line() -> Self
        ensures { result ≡ Response.Said Said.Unknown }
    {
        Response::Said(Said::Unknown)
    }

    /// There was not enough memory.
    pub fn starved() -> Self
        ensures { result ≡ Response.Said
            (Said.Reply (Reply.Refused (Fault.Refused Refusal.Memory))) }
    {
        let fault = Fault::Refused(Refusal::Memory);
        Response::Said(Said::Reply(Reply::Refused(fault)))
    }

    /// The status of its line: 1 where it is none of the script, 3 where a keeper failed, and else
    /// 0.
    pub fn status(&self) -> u8
        ensures { result ≡ status_said self.now }
    {
        match self {
            Response::Said(Said::Reply(Reply::Refused(fault)) | Said::Dropped(fault)) => {
                fault_status(*fault)
            }
            Response::Said(Said::Unknown) => 1,
            _ => 0,
        }
    }

    /// The process, the endpoint or the operation that the line made, for which its alias is to
    /// stand.
    pub fn made(&self) -> Option<Target>
        ensures { result ≡ made_said self.now }
    {
        match self {
            Response::Said(Said::Reply(Reply::Job(JobReply::Made(pid)))) => {
                Some(Target::Process(*pid))
            }
            Response::Said(Said::Reply(Reply::Job(JobReply::Opened(endpoint)))) => {
                Some(Target::Endpoint(*endpoint))
            }
            Response::Said(Said::Reply(Reply::Published(name))) => Some(Target::Operation(*name)),
            _ => None,
        }
    }
}
