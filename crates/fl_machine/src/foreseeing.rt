//! What a node would answer to a job that it does not do, and what is wanting for it. Nothing
//! changes by it.
ghost use Rattle.std.specs.Prelude.{◌≡◌, List};
ghost use Rattle.fl_machine.specs.Shown.{foretold_response};
ghost use Rattle.fl_machine.specs.parts.Responding.{Responds};
ghost use Rattle.fl_machine_turns.specs.Foreseeing.{IsForetold, IsFoundWanting, is_past_mending};
ghost use Rattle.fl_machine_turns.specs.Turn.{Tells};
ghost use Rattle.fl_node.specs.Desks.{IsDeskOf};
ghost use Rattle.fl_seal.specs.declared.seal.Key.{Key as AnyKey};

use crate::response::{Response, refused, starved};
use fl_jobs::answer::{Refusal, Reply as JobReply};
use fl_jobs::job::Job;
use fl_node::node::Node;
use fl_store::keeper::Keeper;
use fl_system::answer::Fault;
use fl_system::reply::Reply;
use std::alloc::Global;

// The only desk of the node.
const DESK: u8 = 1;

// What is responded where a job would be answered this.
fn foretold<'a>(answer: Result<JobReply, Refusal>) -> Response<'a>
    ensures { result ≡ foretold_response answer }
{
    match answer {
        Ok(reply) => Response::Reply(Reply::Job(reply)),
        Err(refusal) => refused(Fault::Refused(refusal)),
    }
}

// Whether the job is refused for what no capability mends.
fn is_past_mending(answer: &Result<JobReply, Refusal>) -> bool
    ensures { result ≡ is_past_mending answer.now }
{
    match answer {
        Ok(_) | Err(Refusal::MissingCap(_) | Refusal::Secrecy(_)) => false,
        Err(_) => true,
    }
}

/// What is responded where it is asked what a job would be answered now: of a question its answer,
/// of any other job that is admitted `Done`, and else why it is refused. `Stopped` where the node
/// does not run, and `F14` only where the desk has not seen all that is published. Costs what the
/// job's checks do.
#[inline(never)]
pub(crate) fn foretell<'a, K: Keeper>(
    alloc: Global,
    node: &mut Node<K>,
    guards: bool,
    job: &Job,
) -> Response<'a>
    requires { IsDeskOf node.old.node 1 }
    ensures { (keys : List AnyKey) → Responds K.custody keys node.old
        (λ s. Tells s (IsForetold guards s job.now)) result 0 node.new }
{
    if let Err(fault) = node.runs() {
        return refused(fault);
    }
    let Ok(answer) = node.could(alloc, DESK, guards, job) else {
        return starved();
    };
    foretold(answer)
}

/// What is responded where it is asked which capabilities are wanting for a job: these, or why it
/// is refused where no capability mends that. `Stopped` where the node does not run, and `F14` only
/// where the desk has not seen all that is published, or something is wanting. Costs what the
/// job's checks do, twice.
#[inline(never)]
pub(crate) fn find_wanting<'a, K: Keeper>(
    alloc: Global,
    node: &mut Node<K>,
    guards: bool,
    job: &Job,
) -> Response<'a>
    requires { IsDeskOf node.old.node 1 }
    ensures { (keys : List AnyKey) → Responds K.custody keys node.old
        (λ s. Tells s (IsFoundWanting guards s job.now)) result 0 node.new }
{
    if let Err(fault) = node.runs() {
        return refused(fault);
    }
    let Ok(answer) = node.could(alloc, DESK, guards, job) else {
        return starved();
    };
    if is_past_mending(&answer) {
        return foretold(answer);
    }
    let Ok(caps) = node.wanting(alloc, DESK, guards, job) else {
        return starved();
    };
    Response::Wanting(caps)
}
