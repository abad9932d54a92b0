//! A job at a node, with what it sends and what is noted of it.
ghost use Rattle.std.specs.Prelude.{◌≡◌, ◌≢◌, ◌<◌, ℕ, List, length, take};
ghost use Rattle.std.specs.Prelude.{IfOk, IfErr, OnOk, OnErr, IsSome};
ghost use Rattle.std.specs.Prelude.{false, true};
ghost use Rattle.std.specs.declared.option.Option.{Option};
ghost use Rattle.std.specs.declared.option.Option.TheVariants.{Some};
ghost use Rattle.std.specs.Option.{option_copied};
ghost use Rattle.std.specs.Vec.{vec_len, vec_capacity};
ghost use Rattle.fl_bench.specs.Process.{newborn};
ghost use Rattle.fl_system.specs.declared.admission.Party.{Party};
ghost use Rattle.fl_system.specs.declared.answer.Answer.TheVariants as answers;
ghost use Rattle.fl_system.specs.declared.sent.Sent.{Sent};
ghost use Rattle.fl_system.specs.Audit.{entries};
ghost use Rattle.fl_system.specs.WorldJobs.{MayBeNoted};
ghost use Rattle.fl_audit.specs.Drafts.{asker_of, IsDrafted};
ghost use Rattle.fl_audit.specs.Noted.{IsNotedWith, asker_noted, job_tunes};
ghost use Rattle.fl_audit.specs.Senders.{sender_of};
ghost use Rattle.fl_node.specs.Desks.{IsDeskOf};
ghost use Rattle.fl_notes.specs.Working.{IsUnready, Shows, Worked, is_sending, is_tuning};

use fl_audit::draft::{Draft, names_any, names_asker};
use fl_audit::party::sender;
use fl_bench::process::Process;
use fl_bench::standing::Standing;
use fl_jobs::answer::Refusal;
use fl_jobs::job::{Act, Job, Mail};
use fl_labels::name::NodeNumber;
use fl_message::shared::Shared;
use fl_node::node::Node;
use fl_rules::endpoint::Mode;
use fl_store::keeper::Keeper;
use fl_system::admission::{Admission, Party};
use fl_system::answer::{Answer, Fault};
use fl_system::reply::Reply;
use fl_system::sent::Sent;
use fl_system::state::State;
use fl_wire::packet::Packet;
use std::alloc::{AllocError, Global};

// The process that asks for the job, if one does.
fn asker<'a, K: Keeper>(node: &'a Node<K>, job: &Job) -> Option<&'a Process>
    ensures { option_copied result ≡ asker_of node.now.node job.now }
{
    match job {
        Job::By(pid, _) => node.process(*pid),
        Job::Proc | Job::Member(_, _) | Job::Arrive(_) => None,
    }
}

// The mode of the endpoint that the job tunes, if it tunes one that is open. The process is looked
// for then alone.
#[inline(always)]
fn tuned<K: Keeper>(node: &Node<K>, job: &Job) -> Option<Mode>
    ensures { result ≡ job_tunes (asker_of node.now.node job.now) job.now }
{
    match job {
        Job::By(pid, Act::Mail(Mail::Tune(endpoint, _))) => {
            let process = node.process(*pid)?;
            let opened = process.mailbox.endpoints.get(*endpoint)?;
            Some(opened.mode)
        }
        _ => None,
    }
}

// Whether the job sends a message, where it is admitted.
fn sends(job: &Job) -> bool
    ensures { result ≡ is_sending job.now }
{
    matches!(job, Job::By(_, Act::Mail(Mail::Send { .. })))
}

// Whether the job tunes an endpoint.
fn tunes(job: &Job) -> bool
    ensures { result ≡ is_tuning job.now }
{
    matches!(job, Job::By(_, Act::Mail(Mail::Tune(_, _))))
}

// Whether the job, which is not noted of whoever asks, may be noted of who does: where that tunes
// an endpoint of its own. The process is looked for then alone.
fn names_tuner<K: Keeper>(node: &Node<K>, job: &Job) -> bool
    ensures noted { asker_noted (Some newborn) job.now ≡ false
        → result ≡ asker_noted (asker_of node.now.node job.now) job.now }
    ensures may_be { result ≡ true → MayBeNoted node.now.node job.now }
{
    tunes(job) && names_asker(asker(node, job), job)
}

// How the process that asks for the job stands, where that may be noted.
#[inline(always)]
fn share<K: Keeper>(
    alloc: Global,
    node: &mut Node<K>,
    job: &Job,
) -> Result<Option<Shared<Standing>>, AllocError>
    ensures noted { IfOk result (λ standing.
        IsNotedWith (asker_of node.old.node job.now) job.now standing) }
    ensures err { OnErr result (MayBeNoted node.old.node job.now) }
    ensures same { node.new ≡ node.old }
{
    if !names_any(job) && !names_tuner(node, job) {
        return Ok(None);
    }
    match job {
        Job::By(pid, _) => node.share(alloc, *pid),
        Job::Proc | Job::Member(_, _) | Job::Arrive(_) => Ok(None),
    }
}

// Notes the job as it is noted if it is admitted.
fn note<K: Keeper>(
    alloc: Global,
    node: &mut Node<K>,
    job: &Job,
    audit: &mut Vec<Admission>,
) -> Result<Draft, AllocError>
    ensures drafts { IfOk result (IsDrafted audit.old.items audit.new.items
        (entries node.old.node job.now)) }
    ensures audit { OnErr result (audit.new.items ≡ audit.old.items) }
    ensures err { OnErr result (MayBeNoted node.old.node job.now) }
    ensures same { node.new ≡ node.old }
{
    let standing = share(alloc, node, job)?;
    Draft::note(
        alloc,
        node.number(),
        node.boot(),
        tuned(node, job),
        standing,
        job,
        audit,
    )
}

// The same, where the node runs.
fn prepare<K: Keeper>(
    alloc: Global,
    node: &mut Node<K>,
    job: &Job,
    audit: &mut Vec<Admission>,
) -> Result<Draft, Fault>
    ensures drafts { IfOk result (IsDrafted audit.old.items audit.new.items
        (entries node.old.node job.now)) }
    ensures audit { OnErr result (audit.new.items ≡ audit.old.items) }
    ensures err { IfErr result (IsUnready node.old.node job.now) }
    ensures same { node.new ≡ node.old }
{
    if let State::Stopped(_) = node.state() {
        return Err(Fault::Stopped);
    }
    match note(alloc, node, job, audit) {
        Ok(draft) => Ok(draft),
        Err(_) => Err(Fault::Refused(Refusal::Memory)),
    }
}

// Shows an answer that sends nothing.
fn show(answer: Answer) -> Reply
    requires { (d : _) → answer ≢ answers.Out d }
    ensures { (number : ℕ) (sender : Option Party) (packets : List Sent) →
        Shows number sender packets answer result packets }
{
    match answer {
        Answer::Reply(reply) => Reply::Job(reply),
        Answer::Begun(name) => Reply::Begun(name),
        Answer::Out(_) => unreachable!("nothing is sent"),
    }
}

// Takes back what was noted of the job from this length of the audit on, and shows why it is
// refused.
fn refuse(audit: &mut Vec<Admission>, from: usize, fault: Fault) -> Reply
    ensures audit { audit.new.items ≡ take from audit.old.items }
    ensures shown { result ≡ Reply.Refused fault }
{
    audit.truncate(from);
    Reply::Refused(fault)
}

// What is made of a job that sends a message, before it is done.
#[derive(Drop)]
struct Sending {
    draft: Draft,
    sender: Option<Party>,
}

// Takes room for what this sender would send, if there is one.
fn take_room(sender: &Option<Party>, sent: &mut Vec<Sent>) -> Result<(), AllocError>
    ensures sent { sent.new.items ≡ sent.old.items }
    ensures room { OnOk result (IsSome sender.now → vec_len sent.new < vec_capacity sent.new) }
    ensures err { OnErr result (IsSome sender.now) }
{
    match sender {
        None => Ok(()),
        Some(_) => sent.reserve(1),
    }
}

// Notes the job as it is noted if it is admitted, and makes who would send by it.
fn note_sending<K: Keeper>(
    alloc: Global,
    node: &mut Node<K>,
    job: &Job,
    audit: &mut Vec<Admission>,
    sent: &mut Vec<Sent>,
) -> Result<Sending, AllocError>
    ensures drafts { IfOk result (λ made. IsDrafted audit.old.items audit.new.items
        (entries node.old.node job.now) made.draft) }
    ensures sender { IfOk result (λ made.
        made.sender ≡ sender_of (asker_of node.old.node job.now) job.now) }
    ensures room { IfOk result (λ made.
        IsSome made.sender → vec_len sent.new < vec_capacity sent.new) }
    ensures audit { OnErr result (audit.new.items ≡ audit.old.items) }
    ensures sent { sent.new.items ≡ sent.old.items }
    ensures err { OnErr result (MayBeNoted node.old.node job.now) }
    ensures same { node.new ≡ node.old }
{
    let standing = share(alloc, node, job)?;
    let sender = sender(&standing, job)?;
    take_room(&sender, sent)?;
    let draft = Draft::note(
        alloc,
        node.number(),
        node.boot(),
        tuned(node, job),
        standing,
        job,
        audit,
    )?;
    Ok(Sending { draft, sender })
}

// The same, where the node runs.
fn prepare_sending<K: Keeper>(
    alloc: Global,
    node: &mut Node<K>,
    job: &Job,
    audit: &mut Vec<Admission>,
    sent: &mut Vec<Sent>,
) -> Result<Sending, Fault>
    ensures drafts { IfOk result (λ made. IsDrafted audit.old.items audit.new.items
        (entries node.old.node job.now) made.draft) }
    ensures sender { IfOk result (λ made.
        made.sender ≡ sender_of (asker_of node.old.node job.now) job.now) }
    ensures room { IfOk result (λ made.
        IsSome made.sender → vec_len sent.new < vec_capacity sent.new) }
    ensures audit { OnErr result (audit.new.items ≡ audit.old.items) }
    ensures sent { sent.new.items ≡ sent.old.items }
    ensures err { IfErr result (IsUnready node.old.node job.now) }
    ensures same { node.new ≡ node.old }
{
    if let State::Stopped(_) = node.state() {
        return Err(Fault::Stopped);
    }
    match note_sending(alloc, node, job, audit, sent) {
        Ok(made) => Ok(made),
        Err(_) => Err(Fault::Refused(Refusal::Memory)),
    }
}

// Sends a message that was answered, in the room that there is, and shows the answer.
fn show_sent(
    number: NodeNumber,
    sender: Option<Party>,
    sent: &mut Vec<Sent>,
    answer: Answer,
) -> Reply
    requires { (d : _) → answer ≡ answers.Out d → vec_len sent.old < vec_capacity sent.old }
    ensures { Shows number sender sent.old.items answer result sent.new.items }
{
    match answer {
        Answer::Reply(reply) => Reply::Job(reply),
        Answer::Begun(name) => Reply::Begun(name),
        Answer::Out(message) => {
            let packet = Packet::Data(message.into_inner());
            sent.push_reserved(Sent {
                from: number,
                packet,
                sender,
            });
            Reply::Sent {
                first: sent.len() as u64,
                count: 1,
            }
        }
    }
}

/// A desk, and up to what length it looks at the list.
#[derive(Clone, Copy, Debug, PartialEq, Eq)]
pub struct Look {
    pub desk: u8,
    pub upto: u64,
}

// Has the node of this number do a job that sends a message, as `work` has it.
fn send<K: Keeper>(
    alloc: Global,
    number: NodeNumber,
    node: &mut Node<K>,
    look: Look,
    job: &mut Job,
    audit: &mut Vec<Admission>,
    sent: &mut Vec<Sent>,
) -> Reply
    requires { IsDeskOf node.old.node look.desk }
    ensures works { Worked number node.old.node look.desk look.upto job.old result node.new.node
        sent.old.items sent.new.items audit.old.items audit.new.items }
    ensures desks { length node.new.node.views ≡ length node.old.node.views }
    ensures keeper { node.new.keeper ≡ node.old.keeper }
{
    let from = audit.len();
    let Sending { draft, sender } = match prepare_sending(alloc, node, job, audit, sent) {
        Ok(made) => made,
        Err(fault) => return Reply::Refused(fault),
    };
    match node.job(alloc, look.desk, look.upto, job) {
        Ok(answer) => {
            draft.settle(audit, from, &answer);
            show_sent(number, sender, sent, answer)
        }
        Err(fault) => refuse(audit, from, fault),
    }
}

/// Has the node of this number do the job at a desk, which looks first: gives the answer as it is
/// shown, sends the message that it may be, and notes what is admitted. What would be noted and
/// sent is made and has its room before. Copies the labels of who asks, and what it owns, only
/// where one of them has changed since it was noted last.
///
/// Refused as `Node::job` has it; `Stopped` where the node is stopped, and `Memory` where there is
/// no room for what would be noted or sent. Nothing is sent or noted then.
pub fn work<K: Keeper>(
    alloc: Global,
    number: NodeNumber,
    node: &mut Node<K>,
    look: Look,
    job: &mut Job,
    audit: &mut Vec<Admission>,
    sent: &mut Vec<Sent>,
) -> Reply
    requires { IsDeskOf node.old.node look.desk }
    ensures works { Worked number node.old.node look.desk look.upto job.old result node.new.node
        sent.old.items sent.new.items audit.old.items audit.new.items }
    ensures desks { length node.new.node.views ≡ length node.old.node.views }
    ensures keeper { node.new.keeper ≡ node.old.keeper }
{
    if sends(job) {
        return send(alloc, number, node, look, job, audit, sent);
    }
    let from = audit.len();
    let draft = match prepare(alloc, node, job, audit) {
        Ok(draft) => draft,
        Err(fault) => return Reply::Refused(fault),
    };
    match node.job(alloc, look.desk, look.upto, job) {
        Ok(answer) => {
            draft.settle(audit, from, &answer);
            show(answer)
        }
        Err(fault) => refuse(audit, from, fault),
    }
}
