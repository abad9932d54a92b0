//! What a process does with its endpoints and messages.
ghost use Rattle.std.specs.Prelude.{◌≡◌, IfOk, IfErr, Some, None};
ghost use Rattle.std.specs.FinMap as map;
ghost use Rattle.fl_jobs.specs.Given.{labels_of};
ghost use Rattle.fl_labels.specs.SetBy.{In};
ghost use Rattle.fl_mailbox.specs.Endpoints.{IsLeastFree};
ghost use Rattle.fl_mailbox.specs.Mailbox.{oldest, without_oldest};
ghost use Rattle.fl_jobs.specs.declared.answer.Refusal.TheVariants.{LabelTooLong, NoEndpoint};
ghost use Rattle.fl_jobs.specs.declared.answer.Outcome.TheVariants as outcomes;
ghost use Rattle.fl_ops.specs.Registry.{InEffect, Listed};
ghost use Rattle.fl_rules.specs.Labels.{sets_of};
ghost use Rattle.fl_jobs.specs.declared.job.Mail.TheVariants.{Open, Tune, Send};
ghost use Rattle.fl_bench.specs.Guards.{endpoint_check};
ghost use Rattle.fl_bench.specs.Mailbox.{IsSent, mail_checks, taken};
ghost use Rattle.fl_monitor.specs.parts.Acts.{Closes, Mails};
ghost use Rattle.fl_monitor.specs.parts.Checked.{CheckedBy, open_checks, send_checks, tune_checks};

use crate::demand::{Demand, check};
use fl_jobs::answer::{Outcome, Refusal, Reply};
use fl_jobs::job::{GivenLabels, Mail};
use fl_labels::cap_set::CapSet;
use fl_labels::endpoint::Endpoint;
use fl_labels::pid::Pid;
use fl_mailbox::endpoints::{Endpoints, OpenEndpoint};
use fl_mailbox::mailbox::Mailbox;
use fl_message::boxed::Boxed;
use fl_message::message::{Data, Message};
use fl_message::shared::Shared;
use fl_ops::view::View;
use fl_rules::endpoint::Mode;
use fl_rules::labels::{Labels, LabelsRef};
use fl_rules::pair::EndRef;
use std::alloc::{AllocError, Global};

// The labels that are given, on loan, where they are no longer than labels may be.
fn lent(given: &GivenLabels) -> Result<LabelsRef<'_>, Refusal>
    ensures ok { IfOk result (λ labels. labels_of given.now ≡ Some (sets_of labels)) }
    ensures err { IfErr result (λ f. (f ≡ LabelTooLong) × (labels_of given.now ≡ None)) }
{
    match (&given.secrecy, &given.integrity) {
        (Ok(secrecy), Ok(integrity)) => Ok(LabelsRef { secrecy, integrity }),
        _ => Err(Refusal::LabelTooLong),
    }
}

// The endpoint of this number, where it is open.
fn opened_at(endpoints: &Endpoints, endpoint: Endpoint) -> Result<&OpenEndpoint, Refusal>
    ensures ok { IfOk result (λ opened. map.get endpoints.now endpoint ≡ Some opened.now) }
    ensures err { IfErr result (λ f.
        (f ≡ NoEndpoint endpoint) × (map.get endpoints.now endpoint ≡ None)) }
{
    match endpoints.get(endpoint) {
        Some(opened) => Ok(opened),
        None => Err(Refusal::NoEndpoint(endpoint)),
    }
}

// The endpoint that is the next to be opened, where one of this mode and these labels is safe.
fn check_open<V: View>(
    view: &mut V,
    owned: &CapSet,
    process: LabelsRef<'_>,
    endpoints: &Endpoints,
    mode: Mode,
    labels: LabelsRef<'_>,
) -> Result<Endpoint, Refusal>
    ensures ok { let E = InEffect (Listed (V.list view.old)) (In owned.now) in
        IfOk result (λ endpoint. IsLeastFree endpoints.now (Some endpoint)
        × endpoint_check E (sets_of process.entry) endpoint mode (sets_of labels.entry) None) }
    ensures err { let E = InEffect (Listed (V.list view.old)) (In owned.now) in
        IfErr result (λ f. open_checks E (sets_of process.entry) endpoints.now mode
        (sets_of labels.entry) (Some f)) }
    ensures same { view.new ≡ view.old }
{
    let Some(endpoint) = endpoints.least_free() else {
        return Err(Refusal::EndpointsFull);
    };
    let end = EndRef { mode, labels };
    check(view, owned, Demand::Endpoint(process, endpoint, end))?;
    Ok(endpoint)
}

// Whether an open endpoint is safe with these labels.
fn check_tune<V: View>(
    view: &mut V,
    owned: &CapSet,
    process: LabelsRef<'_>,
    endpoints: &Endpoints,
    endpoint: Endpoint,
    labels: LabelsRef<'_>,
) -> Result<(), Refusal>
    ensures checked { CheckedBy (V.list view.old) owned.now (λ E.
        tune_checks E (sets_of process.entry) endpoints.now endpoint (sets_of labels.entry))
        result }
    ensures same { view.new ≡ view.old }
{
    let opened = opened_at(endpoints, endpoint)?;
    let tuned = EndRef {
        mode: opened.mode,
        labels,
    };
    check(view, owned, Demand::Endpoint(process, endpoint, tuned))
}

// The endpoint that a message is to leave, where it is for writing, and its sender may hand on what
// it brings.
fn check_send<'a, V: View>(
    view: &mut V,
    owned: &CapSet,
    endpoints: &'a Endpoints,
    from: Endpoint,
    caps: &CapSet,
) -> Result<&'a OpenEndpoint, Refusal>
    ensures ok { let E = InEffect (Listed (V.list view.old)) (In owned.now) in
        IfOk result (λ opened. (map.get endpoints.now from ≡ Some opened.now)
        × send_checks E endpoints.now from caps.now None) }
    ensures err { let E = InEffect (Listed (V.list view.old)) (In owned.now) in
        IfErr result (λ f. send_checks E endpoints.now from caps.now (Some f)) }
    ensures same { view.new ≡ view.old }
{
    let opened = opened_at(endpoints, from)?;
    if !opened.mode.writes() {
        return Err(Refusal::NotWritable(from));
    }
    check(view, owned, Demand::Grant(caps))?;
    Ok(opened)
}

/// Whether a process of these labels, the owner of these capabilities, may do this with its
/// mailbox, or else why not. Takes no memory.
pub(crate) fn check_mail<V: View>(
    view: &mut V,
    owned: &CapSet,
    process: LabelsRef<'_>,
    mailbox: &Mailbox,
    mail: &Mail,
) -> Result<(), Refusal>
    ensures checked { CheckedBy (V.list view.old) owned.now
        (λ E. mail_checks E (sets_of process.entry) mailbox.now mail.now) result }
    ensures same { view.new ≡ view.old }
{
    let endpoints = &mailbox.endpoints;
    match mail {
        Mail::Open(mode, given) => {
            check_open(view, owned, process, endpoints, *mode, lent(given)?)?;
            Ok(())
        }
        Mail::Tune(endpoint, given) => {
            check_tune(view, owned, process, endpoints, *endpoint, lent(given)?)
        }
        Mail::Close(endpoint) => {
            opened_at(endpoints, *endpoint)?;
            Ok(())
        }
        Mail::Send { from, message, .. } => {
            check_send(view, owned, endpoints, *from, &message.caps)?;
            Ok(())
        }
        Mail::Take => Ok(()),
    }
}

// The least endpoint that is not open is opened, where it is safe.
fn open<V: View>(
    view: &mut V,
    owned: &CapSet,
    process: LabelsRef<'_>,
    mailbox: &mut Mailbox,
    mode: Mode,
    given: Boxed<GivenLabels>,
) -> Result<Outcome, Refusal>
    ensures mails { let registry = Listed (V.list view.old) in
        (pid : Pid) → Mails registry owned.now pid (sets_of process.entry) mailbox.old
        (Open mode given) result mailbox.new }
    ensures same { view.new ≡ view.old }
{
    let Some(labels) = given.into_inner().labels() else {
        return Err(Refusal::LabelTooLong);
    };
    let endpoints = &mailbox.endpoints;
    let endpoint = check_open(view, owned, process, endpoints, mode, labels.lend())?;
    let opened = OpenEndpoint { mode, labels };
    let Ok(()) = mailbox.endpoints.insert(endpoint, opened) else {
        return Err(Refusal::Memory);
    };
    Ok(Outcome::Reply(Reply::Opened(endpoint)))
}

// The labels of an endpoint become others, where it is then safe.
fn tune<V: View>(
    view: &mut V,
    owned: &CapSet,
    process: LabelsRef<'_>,
    mailbox: &mut Mailbox,
    endpoint: Endpoint,
    given: Boxed<GivenLabels>,
) -> Result<Outcome, Refusal>
    ensures mails { let registry = Listed (V.list view.old) in
        (pid : Pid) → Mails registry owned.now pid (sets_of process.entry) mailbox.old
        (Tune endpoint given) result mailbox.new }
    ensures same { view.new ≡ view.old }
{
    let Some(labels) = given.into_inner().labels() else {
        return Err(Refusal::LabelTooLong);
    };
    let endpoints = &mailbox.endpoints;
    check_tune(view, owned, process, endpoints, endpoint, labels.lend())?;
    mailbox.endpoints.set_labels(endpoint, labels);
    Ok(Outcome::Reply(Reply::Done))
}

// An endpoint is closed.
fn close(mailbox: &mut Mailbox, endpoint: Endpoint) -> Result<Outcome, Refusal>
    ensures { Closes mailbox.old endpoint result mailbox.new }
{
    opened_at(&mailbox.endpoints, endpoint)?;
    mailbox.endpoints.remove(endpoint);
    Ok(Outcome::Reply(Reply::Done))
}

// From whom and where a message goes, and to whom and where.
#[derive(Clone, Copy)]
struct Route {
    sender: Pid,
    from: Endpoint,
    receiver: Pid,
    to: Endpoint,
}

// The packet of a message from an endpoint of these labels.
fn packet_of(
    alloc: Global,
    route: Route,
    labels: &Labels,
    message: Shared<Message>,
) -> Result<Boxed<Data>, AllocError>
    ensures { IfOk result (λ d. IsSent route.sender route.from labels.now route.receiver route.to
        message d) }
{
    let secrecy = labels.secrecy.copy(alloc)?;
    let integrity = labels.integrity.copy(alloc)?;
    let _tags = (secrecy.len(), integrity.len());
    let data = Data {
        sender: route.sender,
        from: route.from,
        receiver: route.receiver,
        to: route.to,
        secrecy,
        integrity,
        message,
    };
    Boxed::new(alloc, data)
}

// A message goes from an endpoint that is for writing, with what its sender may hand on.
fn send<V: View>(
    alloc: Global,
    view: &mut V,
    owned: &CapSet,
    mailbox: &Mailbox,
    route: Route,
    message: Shared<Message>,
) -> Result<Outcome, Refusal>
    ensures mails { let registry = Listed (V.list view.old) in
        (process : Labels) → Mails registry owned.now route.sender process mailbox.now
        (Send route.from route.receiver route.to message) result mailbox.now }
    ensures same { view.new ≡ view.old }
{
    let opened = check_send(view, owned, &mailbox.endpoints, route.from, &message.caps)?;
    match packet_of(alloc, route, &opened.labels, message) {
        Ok(data) => Ok(Outcome::Out(data)),
        Err(_) => Err(Refusal::Memory),
    }
}

// The oldest message is taken.
fn take(mailbox: &mut Mailbox) -> Outcome
    ensures oldest { result ≡ outcomes.Reply (taken (oldest mailbox.old.inbox)) }
    ensures left { mailbox.new ≡ record mailbox.old { inbox = without_oldest mailbox.old.inbox } }
{
    Outcome::Reply(match mailbox.inbox.take() {
        Some(letter) => Reply::Taken(letter),
        None => Reply::Empty,
    })
}

/// Does what a process of these labels, the owner of these capabilities, asks for of its mailbox.
pub(crate) fn do_mail<V: View>(
    alloc: Global,
    view: &mut V,
    pid: Pid,
    owned: &CapSet,
    process: LabelsRef<'_>,
    mailbox: &mut Mailbox,
    mail: Mail,
) -> Result<Outcome, Refusal>
    ensures mails { let registry = Listed (V.list view.old) in
        Mails registry owned.now pid (sets_of process.entry) mailbox.old mail result mailbox.new }
    ensures same { view.new ≡ view.old }
{
    match mail {
        Mail::Open(mode, given) => open(view, owned, process, mailbox, mode, given),
        Mail::Tune(endpoint, given) => { tune(view, owned, process, mailbox, endpoint, given) }
        Mail::Close(endpoint) => close(mailbox, endpoint),
        Mail::Send {
            from,
            receiver,
            to,
            message,
        } => {
            let route = Route {
                sender: pid,
                from,
                receiver,
                to,
            };
            send(alloc, view, owned, mailbox, route, message)
        }
        Mail::Take => Ok(take(mailbox)),
    }
}
