//! What would be answered to an act, where nothing is done.
ghost use Rattle.std.specs.Prelude.{◌≡◌};
ghost use Rattle.fl_labels.specs.SetBy.{In};
ghost use Rattle.fl_ops.specs.Registry.{InEffect, Listed};
ghost use Rattle.fl_bench.specs.Jobs.{checks_of};
ghost use Rattle.fl_monitor.specs.parts.Checked.{Checked, CheckedBy};
ghost use Rattle.fl_monitor.specs.parts.Could.{ActCould, ForetellsBy, guard_check, idle_with};

use crate::act::reply_of;
use crate::demand::{Demand, check};
use crate::drop::check_drop;
use crate::enter::check_login;
use crate::mail::check_mail;
use crate::relabel::check_given;
use fl_bench::owned::Owned;
use fl_bench::process::{Holding, Process};
use fl_jobs::answer::{Refusal, Reply};
use fl_jobs::job::Act;
use fl_labels::cap_set::CapSet;
use fl_labels::label::Label;
use fl_mailbox::mailbox::Mailbox;
use fl_ops::view::View;
use fl_rules::labels::Labels;

// Whether the owner of these capabilities may give an order under this label, where orders are
// guarded: what is asked of an emission. Of another act nothing is asked.
fn check_guard<V: View>(
    view: &mut V,
    owned: &CapSet,
    secrecy: &Label,
    guards: bool,
    act: &Act,
) -> Result<(), Refusal>
    ensures checked { CheckedBy (V.list view.old) owned.now
        (λ E. guard_check guards E secrecy.now act.now) result }
    ensures same { view.new ≡ view.old }
{
    if !guards {
        return Ok(());
    }
    let Act::Order(_) = act else {
        return Ok(());
    };
    check(view, owned, Demand::Emission(secrecy))
}

// Whether an idle process that owns these may do the act, or else why not.
fn check_act<V: View>(
    view: &mut V,
    owned: &mut Owned,
    labels: &Labels,
    mailbox: &Mailbox,
    act: &Act,
) -> Result<(), Refusal>
    ensures checked { let process = idle_with labels.now owned.old mailbox.now in
        Checked (checks_of (Listed (V.list view.old)) process act.now) result }
    ensures kept { owned.new ≡ owned.old }
    ensures same { view.new ≡ view.old }
{
    let endpoints = &mailbox.endpoints;
    match act {
        Act::Order(order) => check(view, owned.caps(), Demand::Order(*order)),
        Act::Relabel(side, label) => {
            check_given(view, owned.caps(), endpoints, labels, *side, label)
        }
        Act::Spawn(caps) => check(view, owned.caps(), Demand::Grant(caps)),
        Act::Drop(cap) => check_drop(view, labels.lend(), endpoints, owned, *cap),
        Act::Enter(login, secret) => {
            check_login(view, *login, *secret)?;
            Ok(())
        }
        Act::Emit(_) => check(view, owned.caps(), Demand::Emission(&labels.secrecy)),
        Act::Mail(mail) => check_mail(view, owned.caps(), labels.lend(), mailbox, mail),
        Act::Ask(_) => Ok(()),
        Act::Exit => Ok(()),
    }
}

// What is foretold of an act that is not refused: of a question its answer, and of any other one
// that it would be done.
fn foretold<V: View>(view: &mut V, owned: &CapSet, act: &Act) -> Reply
    ensures foretold { let E = InEffect (Listed (V.list view.old)) (In owned.now) in
        ForetellsBy E act.now result }
    ensures same { view.new ≡ view.old }
{
    let Act::Ask(cap) = act else {
        return Reply::Done;
    };
    reply_of(view.effective(owned, *cap))
}

/// What the process would be answered to the act, where orders are guarded or not: why it would be
/// refused, but for want of memory or of a serial, or what is foretold. The process is as before.
/// Takes no memory.
pub(crate) fn could_act<V: View>(
    process: &mut Process,
    view: &mut V,
    guards: bool,
    act: &Act,
) -> Result<Reply, Refusal>
    ensures could { ActCould guards (Listed (V.list view.old)) process.old act.now result }
    ensures kept { process.new ≡ process.old }
    ensures same { view.new ≡ view.old }
{
    let Holding::Idle(owned) = &mut process.owned else {
        return Err(Refusal::Busy);
    };
    check_guard(view, owned.caps(), &process.labels.secrecy, guards, act)?;
    check_act(view, owned, &process.labels, &process.mailbox, act)?;
    Ok(foretold(view, owned.caps(), act))
}
