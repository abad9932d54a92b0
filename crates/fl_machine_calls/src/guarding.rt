//! Jobs, and what an order asks first.
ghost use Rattle.std.specs.Prelude.{◌≡◌, ◌≢◌, ◌≤◌, ◌⊎◌, IfErr, IfOk, IsTrue};
ghost use Rattle.std.specs.Prelude.{MatchOption, None, Some, false, true};
ghost use Rattle.fl_machine_calls.specs.Going.{DoesAlone, GoesAlone, IsSameNode};
ghost use Rattle.fl_machine_calls.specs.Saying.{saying_of};
ghost use Rattle.fl_machine_calls.specs.parts.Emitting.{IsHeldBack, MayGoOn, MayNotGoOn};
ghost use Rattle.fl_machine_turns.specs.Completing.{Begins, Completes, says_begun};
ghost use Rattle.fl_machine_turns.specs.Guarding.{Guarded, emits_nothing, let_out, maker_of};
ghost use Rattle.fl_node.specs.Desks.{IsDeskOf};

use crate::calls::job as job_once;
use crate::completing::{begins, finish};
use crate::said::Said;
use fl_jobs::answer::{Refusal, Reply as JobReply};
use fl_jobs::job::{Act, Job};
use fl_labels::pid::Pid;
use fl_message::boxed::Boxed;
use fl_message::payload::Payload;
use fl_node::node::Node;
use fl_store::keeper::Keeper;
use fl_system::answer::Fault;
use fl_system::reply::Reply;
use std::alloc::Global;

// The process whose order the job is, where orders are guarded and it is one.
fn maker(guards: bool, job: &Job) -> Option<Pid>
    ensures { MatchOption result ((guards ≡ false) ⊎ (maker_of job.now ≡ None))
        (λ pid. (guards ≡ true) × (maker_of job.now ≡ Some pid)) }
{
    if !guards {
        return None;
    }
    match job {
        Job::By(pid, Act::Order(_)) => Some(*pid),
        _ => None,
    }
}

// Whether an emission of nothing was admitted.
fn is_out(said: &Said) -> bool
    ensures yes { result ≡ true → saying_of said.now ≡ let_out }
    ensures no { result ≡ false → saying_of said.now ≢ let_out }
{
    match said {
        Said::Reply(Reply::Job(JobReply::Emitted(bytes))) => bytes.as_slice().is_empty(),
        _ => false,
    }
}

// Whether something is to be saved and published.
fn begun(said: &Said) -> bool
    ensures { result ≡ says_begun (saying_of said.now) }
{
    match said {
        Said::Reply(reply) => begins(reply),
        Said::Sent(_) => false,
    }
}

// Lets out nothing by this process, which everybody who reads orders would read too, and says how
// much is noted of that. An error is what is said where it is not admitted, or there is no room for
// it.
#[cold]
#[inline(never)]
fn emit_nothing<K: Keeper>(alloc: Global, node: &mut Node<K>, pid: Pid) -> Result<u64, (Said, u64)>
    requires { IsDeskOf node.old.node 1 }
    ensures out { IfOk result (λ count.
        GoesAlone K.custody node.old (emits_nothing pid) count let_out node.new) }
    ensures few { IfOk result (λ count. count ≤ 1) }
    ensures held { IfErr result (λ held.
        IsHeldBack K.custody node.old pid held.1 (saying_of held.0) node.new) }
    ensures cause { IfErr result (λ held.
        held.0 ≢ Said.Reply (Reply.Refused Fault.KeeperFailed)) }
    ensures same { IsSameNode node.old.node node.new.node }
    ensures keeper { node.new.keeper ≡ node.old.keeper }
{
    let Ok(nothing) = Boxed::new(alloc, Payload::new(alloc)) else {
        let starved = Fault::Refused(Refusal::Memory);
        return Err((Said::Reply(Reply::Refused(starved)), 0));
    };
    let mut emission = Job::By(pid, Act::Emit(nothing));
    let (said, count) = job_once(alloc, node, &mut emission);
    if is_out(&said) {
        Ok(count)
    } else {
        Err((said, count))
    }
}

// What a job asks first: nothing, or that its process may let out something, where it is an order
// and orders are guarded. Says how much is noted of that. An error is what is said where it may
// not.
#[inline(always)]
fn ask_first<K: Keeper>(
    alloc: Global,
    node: &mut Node<K>,
    guards: bool,
    job: &Job,
) -> Result<u64, (Said, u64)>
    requires { IsDeskOf node.old.node 1 }
    ensures passes { IfOk result (λ count.
        MayGoOn K.custody node.old guards job.now count node.new) }
    ensures few { IfOk result (λ count. count ≤ 1) }
    ensures held { IfErr result (λ held.
        MayNotGoOn K.custody node.old guards job.now held.1 (saying_of held.0) node.new) }
    ensures cause { IfErr result (λ held.
        held.0 ≢ Said.Reply (Reply.Refused Fault.KeeperFailed)) }
    ensures same { IsSameNode node.old.node node.new.node }
    ensures keeper { node.new.keeper ≡ node.old.keeper }
{
    match maker(guards, job) {
        Some(pid) => emit_nothing(alloc, node, pid),
        None => Ok(0),
    }
}

/// Does a job at the only desk of the node, which looks at all that is published. Where orders are
/// guarded and it is one, an emission of nothing by its process is done first, and where that is
/// not admitted, nothing else. What the job begins is to be saved and published.
///
/// Says too how much is noted of both: two entries at most. Never answers `KeeperFailed`.
pub fn begin<K: Keeper>(
    alloc: Global,
    node: &mut Node<K>,
    guards: bool,
    job: &mut Job,
) -> (Said, u64)
    requires { IsDeskOf node.old.node 1 }
    ensures does { let number = node.old.node.number in
        DoesAlone K.custody node.old (λ s. Guarded number guards s job.old (Begins number))
        result.1 (saying_of result.0) node.new }
    ensures cause { result.0 ≢ Said.Reply (Reply.Refused Fault.KeeperFailed) }
    ensures same { IsSameNode node.old.node node.new.node }
    ensures keeper { node.new.keeper ≡ node.old.keeper }
{
    match ask_first(alloc, node, guards, job) {
        Ok(first) => {
            let (said, count) = job_once(alloc, node, job);
            (said, first + count)
        }
        Err(held) => held,
    }
}

/// Does a job as [`begin`] has it, and saves and publishes what it begins. `KeeperFailed` only
/// where the keeper is broken then.
#[inline(always)]
pub fn work<K: Keeper>(
    alloc: Global,
    node: &mut Node<K>,
    guards: bool,
    job: &mut Job,
) -> (Said, u64)
    requires { IsDeskOf node.old.node 1 }
    ensures does { let number = node.old.node.number in
        DoesAlone K.custody node.old (λ s. Guarded number guards s job.old (Completes number))
        result.1 (saying_of result.0) node.new }
    ensures cause { result.0 ≡ Said.Reply (Reply.Refused Fault.KeeperFailed)
        → IsTrue (K.custody.is_broken node.new.keeper) }
    ensures same { IsSameNode node.old.node node.new.node }
{
    let first = match ask_first(alloc, node, guards, job) {
        Ok(count) => count,
        Err(held) => return held,
    };
    let (said, count) = job_once(alloc, node, job);
    let all = first + count;
    if begun(&said) {
        return (Said::Reply(finish(alloc, node)), all);
    }
    (said, all)
}
