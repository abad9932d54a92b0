//! What a process does by itself.
ghost use Rattle.std.specs.Prelude.{◌≡◌, cond, ℕ, List};
ghost use Rattle.fl_ops.specs.Registry.{Listed};
ghost use Rattle.fl_jobs.specs.declared.answer.Reply.TheVariants.{Yes, NotYet};
ghost use Rattle.fl_jobs.specs.declared.job.Act.TheVariants.{Order as Orders, Emit as Emits};
ghost use Rattle.fl_monitor.specs.parts.Acts.{Acts, IsAnswered, answered};

use crate::demand::{Demand, check};
use crate::drop::drop_cap;
use crate::enter::enter;
use crate::mail::do_mail;
use crate::relabel::relabel;
use fl_bench::orders::body_of_order;
use fl_bench::process::{Holding, Process};
use fl_jobs::answer::{Outcome, Refusal, Reply};
use fl_jobs::job::{Act, Mail, Order};
use fl_labels::pid::Pid;
use fl_message::boxed::Boxed;
use fl_ops::view::View;
use std::alloc::Global;
use std::mem::replace;

/// What is answered to a question.
pub(crate) fn reply_of(yes: bool) -> Reply
    ensures { result ≡ cond yes Yes NotYet }
{
    if yes { Reply::Yes } else { Reply::NotYet }
}

// Takes the order of the process.
fn order<V: View>(
    process: &mut Process,
    alloc: Global,
    view: &mut V,
    pid: Pid,
    order: Order,
) -> Result<Outcome, Refusal>
    ensures acts { let registry = Listed (V.list view.old) in
        Acts registry pid process.old (Orders order) (answered result) process.new }
    ensures same { view.new ≡ view.old }
{
    let Holding::Idle(owned) = &mut process.owned else {
        return Err(Refusal::Busy);
    };
    check(view, owned.caps(), Demand::Order(order))?;
    let Ok(body) = Boxed::new(alloc, body_of_order(order)) else {
        return Err(Refusal::Memory);
    };
    let Ok(()) = process.owned.begin(alloc) else {
        return Err(Refusal::Memory);
    };
    Ok(Outcome::Order(body, pid))
}

// Lets the bytes of an emission out, where the process may emit.
fn emit<V: View>(
    process: &Process,
    view: &mut V,
    pid: Pid,
    act: &mut Act,
) -> Result<Outcome, Refusal>
    requires { (bytes : List ℕ) × (act.old ≡ Emits bytes) }
    ensures acts { let registry = Listed (V.list view.old) in
        (bytes : List ℕ) → act.old ≡ Emits bytes
        → Acts registry pid process.now (Emits bytes) (answered result) process.now }
    ensures same { view.new ≡ view.old }
{
    let Holding::Idle(owned) = &process.owned else {
        return Err(Refusal::Busy);
    };
    check(
        view,
        owned.caps(),
        Demand::Emission(&process.labels.secrecy),
    )?;
    let Act::Emit(bytes) = replace(act, Act::Exit) else {
        unreachable!("it is an emission")
    };
    Ok(Outcome::Reply(Reply::Emitted(bytes)))
}

/// Does what the process asks for by itself, unless an operation of it is under way. A birth and an
/// end change the bench, and are done there.
pub(crate) fn act_alone<V: View>(
    process: &mut Process,
    alloc: Global,
    view: &mut V,
    pid: Pid,
    act: &mut Act,
) -> Result<Outcome, Refusal>
    requires { IsAnswered act.old }
    ensures acts { let registry = Listed (V.list view.old) in
        Acts registry pid process.old act.old (answered result) process.new }
    ensures same { view.new ≡ view.old }
{
    let Holding::Idle(owned) = &mut process.owned else {
        return Err(Refusal::Busy);
    };
    match act {
        Act::Order(asked) => order(process, alloc, view, pid, *asked),
        Act::Relabel(side, label) => {
            let endpoints = &process.mailbox.endpoints;
            let labels = &mut process.labels;
            relabel(view, owned.caps(), endpoints, labels, *side, label)
        }
        Act::Ask(cap) => {
            let reply = reply_of(view.effective(owned.caps(), *cap));
            Ok(Outcome::Reply(reply))
        }
        Act::Spawn(_) | Act::Exit => unreachable!("the bench does it"),
        Act::Drop(cap) => {
            let endpoints = &process.mailbox.endpoints;
            let labels = process.labels.lend();
            drop_cap(view, labels, endpoints, owned, *cap)
        }
        Act::Enter(login, secret) => enter(view, owned, *login, *secret),
        Act::Emit(_) => emit(process, view, pid, act),
        Act::Mail(mail) => {
            let mailbox = &mut process.mailbox;
            let labels = process.labels.lend();
            do_mail(
                alloc,
                view,
                pid,
                owned.caps(),
                labels,
                mailbox,
                replace(mail, Mail::Take),
            )
        }
    }
}
