//! What is noted of a job, before it is done and once it is answered.
ghost use Rattle.std.specs.Option.{option_copied};
ghost use Rattle.std.specs.Prelude.{◌≡◌, ◌++◌, ℕ, true, false, is_some, Some, IfOk, OnOk, OnErr};
ghost use Rattle.std.specs.Prelude.{List, [], ◌∷◌, length};
ghost use Rattle.fl_labels.specs.SetBy as set;
ghost use Rattle.fl_labels.specs.declared.cap.Cap.{Cap};
ghost use Rattle.fl_labels.specs.declared.cap.Cap.TheVariants as Cap;
ghost use Rattle.fl_labels.specs.declared.name.Name.{Name};
ghost use Rattle.fl_ops.specs.declared.digest.Digest.{Digest};
ghost use Rattle.fl_mailbox.specs.Mailbox.{closed};
ghost use Rattle.fl_mailbox.specs.declared.mailbox.Mailbox.{Mailbox};
ghost use Rattle.fl_jobs.specs.Given.{labels_of};
ghost use Rattle.fl_bench.specs.Process.{newborn, takes_nothing};
ghost use Rattle.fl_bench.specs.Secrets.{digest_of};
ghost use Rattle.fl_bench.specs.declared.process.Process.{Process};
ghost use Rattle.fl_system.specs.Audit.{party, entries, if_yes};
ghost use Rattle.fl_system.specs.Audit.{order_entries, endpoint_entries, mail_entries, act_entries};
ghost use Rattle.fl_system.specs.State.{NodeState};
ghost use Rattle.fl_system.specs.WorldJobs.{MayBeNoted};
ghost use Rattle.fl_system.specs.declared.admission.Admission.{Admission};
ghost use Rattle.fl_system.specs.declared.admission.Party.{Party};
ghost use Rattle.fl_system.specs.declared.answer.Answer.{Answer};
ghost use Rattle.fl_audit.specs.Drafts.{IsDrafted, IsAskedAt, IsNotedAt, is_yes, entered};
ghost use Rattle.fl_audit.specs.Noted.{mail_noted, act_noted, asker_noted};
ghost use Rattle.fl_audit.specs.Noted.{mail_tunes, act_tunes};

use crate::given::given;
use fl_bench::orders::digest_of_secret;
use fl_bench::process::Process;
use fl_bench::standing::Standing;
use fl_bench::taken::Taken;
use fl_jobs::answer::Reply;
use fl_jobs::job::{Act, GivenLabels, Job, Mail, Order, Side};
use fl_jobs::secret::Secret;
use fl_labels::cap::Cap;
use fl_labels::label::Label;
use fl_labels::name::{Name, NodeNumber};
use fl_message::boxed::Boxed;
use fl_message::shared::Shared;
use fl_rules::endpoint::Mode;
use fl_system::admission::{Admission, Party};
use fl_system::answer::Answer;
use fl_system::granted::Granted;
use std::alloc::{AllocError, Global};

/// What becomes of what is noted of a job before it is done, once the job is answered.
#[derive(Clone, Copy, Debug, PartialEq, Eq)]
pub enum Draft {
    /// It stays, whatever the answer is. It may be nothing.
    Always,
    /// It stays where the answer is yes.
    IfYes,
    /// It stays where the answer is the capability of a login, and that is then put into it.
    IfEntered,
}

// Whether neither label is too long.
fn has_labels(labels: &GivenLabels) -> bool
    ensures { result ≡ is_some (labels_of labels.now) }
{
    labels.secrecy.is_ok() && labels.integrity.is_ok()
}

// Whether what a new process does with its endpoints and messages may be noted. It has no endpoint
// that it could tune.
fn notes_mail_of_any(mail: &Mail) -> bool
    ensures { result ≡ mail_noted closed mail.now }
{
    match mail {
        Mail::Open(_, labels) => has_labels(labels),
        Mail::Send { .. } => true,
        Mail::Tune(_, _) => false,
        Mail::Close(_) | Mail::Take => false,
    }
}

// Whether the act may be noted of a new process: then it may be whichever process asks for it.
fn notes_of_any(act: &Act) -> bool
    ensures { result ≡ act_noted newborn act.now }
{
    match act {
        Act::Order(order) => !Taken::by(*order).as_slice().is_empty(),
        Act::Mail(mail) => notes_mail_of_any(mail),
        Act::Relabel(_, Err(_)) | Act::Exit | Act::Drop(_) => false,
        Act::Relabel(_, Ok(_)) | Act::Ask(_) | Act::Spawn(_) | Act::Enter(_, _) => true,
        Act::Emit(_) => true,
    }
}

// Whether an act of the process may be noted.
fn notes_act(process: &Process, act: &Act) -> bool
    ensures { result ≡ act_noted process.now act.now }
{
    let Act::Mail(Mail::Tune(endpoint, labels)) = act else {
        return notes_of_any(act);
    };
    match process.mailbox.endpoints.get(*endpoint) {
        None => false,
        Some(_) => has_labels(labels),
    }
}

/// Whether the job may be noted where a new process asks for it: then it may be whichever process
/// asks. Of an act that tunes an endpoint that hangs on the process. Takes no memory.
pub fn names_any(job: &Job) -> bool
    ensures noted { result ≡ asker_noted (Some newborn) job.now }
    ensures may_be { result ≡ true → (number boot : ℕ) (p : Process) (n : NodeState) →
        IsAskedAt number boot (Some p) job.now n → MayBeNoted n job.now }
{
    match job {
        Job::By(_, act) => notes_of_any(act),
        Job::Proc | Job::Member(_, _) | Job::Arrive(_) => false,
    }
}

/// Whether the job, which this process asks for, or none that is there, may be noted, with what the
/// process owns. Takes no memory; looks at no more than one endpoint.
pub fn names_asker(asker: Option<&Process>, job: &Job) -> bool
    ensures noted { result ≡ asker_noted (option_copied asker.entry) job.now }
    ensures may_be { result ≡ true → (number boot : ℕ) (n : NodeState) →
        IsAskedAt number boot (option_copied asker.entry) job.now n → MayBeNoted n job.now }
{
    match (asker, job) {
        (Some(process), Job::By(_, act)) => notes_act(process, act),
        (None, Job::By(_, _)) => false,
        (_, Job::Proc | Job::Member(_, _) | Job::Arrive(_)) => false,
    }
}

// Notes this.
fn note(audit: &mut Vec<Admission>, entry: Admission) -> Result<(), AllocError>
    ensures ok { OnOk result (audit.new.items ≡ audit.old.items ++ entry ∷ []) }
    ensures err { OnErr result (audit.new.items ≡ audit.old.items) }
{
    audit.reserve(1)?;
    audit.push_reserved(entry);
    Ok(())
}

// Notes that the process hands these capabilities on.
fn note_grant(
    alloc: Global,
    asker: Party,
    caps: &[Cap],
    audit: &mut Vec<Admission>,
) -> Result<(), AllocError>
    ensures ok { let entry = Admission.Grant asker (set.of_list caps.now) in
        OnOk result (audit.new.items ≡ audit.old.items ++ entry ∷ []) }
    ensures err { OnErr result (audit.new.items ≡ audit.old.items) }
{
    let caps = Granted::new(alloc, caps)?;
    note(audit, Admission::Grant(asker, caps))
}

// Notes that the label of this side of the process becomes this one.
fn note_change(
    alloc: Global,
    asker: Party,
    side: Side,
    label: &Label,
    audit: &mut Vec<Admission>,
) -> Result<(), AllocError>
    ensures ok { let entry = Admission.Change side asker label.now in
        OnOk result (audit.new.items ≡ audit.old.items ++ entry ∷ []) }
    ensures err { OnErr result (audit.new.items ≡ audit.old.items) }
{
    let label = label.copy(alloc)?;
    note(audit, Admission::Change(side, asker, label))
}

// Notes that the process enters the login of this name by this secret. Until the answer says what
// capability the login gives, its use stands for that.
fn note_entry(
    alloc: Global,
    asker: Party,
    login: Name,
    secret: Secret,
    audit: &mut Vec<Admission>,
) -> Result<(), AllocError>
    ensures ok { let digest = digest_of secret in
        let entry = Admission.Entry asker login (Cap.Use login) digest in
        OnOk result (audit.new.items ≡ audit.old.items ++ entry ∷ []) }
    ensures err { OnErr result (audit.new.items ≡ audit.old.items) }
{
    let digest = Boxed::new(alloc, digest_of_secret(secret))?;
    note(
        audit,
        Admission::Entry(asker, login, Cap::Use(login), digest),
    )
}

// Notes what an order hands on.
fn note_order(
    alloc: Global,
    asker: Party,
    order: Order,
    audit: &mut Vec<Admission>,
) -> Result<(), AllocError>
    ensures ok { let entries = order_entries asker order in
        OnOk result (audit.new.items ≡ audit.old.items ++ entries) }
    ensures same { OnErr result (audit.new.items ≡ audit.old.items) }
    ensures err { OnErr result (takes_nothing order ≡ false) }
{
    let taken = Taken::by(order);
    if taken.as_slice().is_empty() {
        return Ok(());
    }
    note_grant(alloc, asker, taken.as_slice(), audit)
}

// Notes an endpoint of this mode that gets these labels.
fn note_endpoint(
    alloc: Global,
    asker: Party,
    mode: Mode,
    labels: &GivenLabels,
    audit: &mut Vec<Admission>,
) -> Result<(), AllocError>
    ensures ok { let entries = endpoint_entries asker mode (labels_of labels.now) in
        OnOk result (audit.new.items ≡ audit.old.items ++ entries) }
    ensures same { OnErr result (audit.new.items ≡ audit.old.items) }
    ensures err { OnErr result (is_some (labels_of labels.now) ≡ true) }
{
    let Some(labels) = given(alloc, labels)? else {
        return Ok(());
    };
    let labels = Boxed::new(alloc, labels)?;
    note(audit, Admission::Endpoint(asker, mode, labels))
}

// Notes what a process does with its endpoints and messages, where this is the mode of the endpoint
// that it tunes, if it tunes one that is open.
fn note_mail(
    alloc: Global,
    asker: Party,
    tuned: Option<Mode>,
    mail: &Mail,
    audit: &mut Vec<Admission>,
) -> Result<(), AllocError>
    ensures ok { OnOk result ((ch : Mailbox) → mail_tunes ch mail.now ≡ tuned
        → audit.new.items ≡ audit.old.items ++ mail_entries asker ch mail.now) }
    ensures same { OnErr result (audit.new.items ≡ audit.old.items) }
    ensures err { OnErr result ((ch : Mailbox) → mail_tunes ch mail.now ≡ tuned
        → mail_noted ch mail.now ≡ true) }
{
    match mail {
        Mail::Open(mode, labels) => note_endpoint(alloc, asker, *mode, labels, audit),
        Mail::Tune(_, labels) => match tuned {
            None => Ok(()),
            Some(mode) => note_endpoint(alloc, asker, mode, labels, audit),
        },
        Mail::Send { message, .. } => note_grant(alloc, asker, message.caps.as_slice(), audit),
        Mail::Close(_) | Mail::Take => Ok(()),
    }
}

// Notes an act of this party, where this is the mode of the endpoint that it tunes, if it tunes one
// that is open.
fn note_act(
    alloc: Global,
    asker: Party,
    tuned: Option<Mode>,
    act: &Act,
    audit: &mut Vec<Admission>,
) -> Result<Draft, AllocError>
    ensures ok { IfOk result (λ draft. (p : Process) → asker ≡ party asker.pid p
        → act_tunes p act.now ≡ tuned
        → IsDrafted audit.old.items audit.new.items (act_entries asker.pid p act.now) draft) }
    ensures same { OnErr result (audit.new.items ≡ audit.old.items) }
    ensures err { OnErr result ((p : Process) → act_tunes p act.now ≡ tuned
        → act_noted p act.now ≡ true) }
{
    match act {
        Act::Order(order) => note_order(alloc, asker, *order, audit)?,
        Act::Relabel(side, Ok(label)) => note_change(alloc, asker, *side, label, audit)?,
        Act::Ask(cap) => {
            note(audit, Admission::Yes(asker, *cap))?;
            return Ok(Draft::IfYes);
        }
        Act::Spawn(caps) => note_grant(alloc, asker, caps.as_slice(), audit)?,
        Act::Enter(login, secret) => {
            note_entry(alloc, asker, *login, *secret, audit)?;
            return Ok(Draft::IfEntered);
        }
        Act::Emit(_) => note(audit, Admission::Emission(asker))?,
        Act::Mail(mail) => note_mail(alloc, asker, tuned, mail, audit)?,
        Act::Relabel(_, Err(_)) | Act::Exit | Act::Drop(_) => {}
    }
    Ok(Draft::Always)
}

// Notes a question of what a capability reaches, at the node of this number and boot.
fn note_reached(
    number: NodeNumber,
    boot: u32,
    root: Cap,
    cap: Cap,
    audit: &mut Vec<Admission>,
) -> Result<Draft, AllocError>
    ensures ok { let entry = Admission.Reached number boot root cap in
        IfOk result (IsDrafted audit.old.items audit.new.items (λ a. if_yes a entry)) }
    ensures same { OnErr result (audit.new.items ≡ audit.old.items) }
{
    note(audit, Admission::Reached(number, boot, root, cap))?;
    Ok(Draft::IfYes)
}

// Whether the answer is yes.
fn is_yes(answer: &Answer) -> bool
    ensures { result ≡ is_yes answer.now }
{
    matches!(answer, Answer::Reply(Reply::Yes))
}

// The capability that the login gave, where the answer is one.
fn entered(answer: &Answer) -> Option<Cap>
    ensures { result ≡ entered answer.now }
{
    match answer {
        Answer::Reply(Reply::Entered(cap)) => Some(*cap),
        _ => None,
    }
}

// Puts this capability into the entry that was noted last, of a login that was entered.
fn put_cap(audit: &mut Vec<Admission>, cap: Cap)
    ensures { (before : List Admission) (p : Party) (login : Name) (c : Cap) (digest : Digest) →
        audit.old.items ≡ before ++ Admission.Entry p login c digest ∷ [] →
        audit.new.items ≡ before ++ Admission.Entry p login cap digest ∷ [] }
{
    let Some(entry) = audit.last_mut() else {
        return;
    };
    if let Admission::Entry(_, _, noted, _) = entry {
        *noted = cap;
    }
}

impl Draft {
    /// Notes the job, as it is noted if it is admitted at a node of this number and boot, and says
    /// what becomes of that once it is answered. The mode is that of the endpoint which the job
    /// tunes, if it tunes one that is open, and who asks for the job stands so, where that is
    /// noted. Nothing is copied where nothing would be noted, and memory is wanted only where
    /// something may be: then at most for the labels or the capabilities that the job names, and
    /// room for one entry. Of a secret it takes the digest.
    pub fn note(
        alloc: Global,
        number: NodeNumber,
        boot: u32,
        tuned: Option<Mode>,
        standing: Option<Shared<Standing>>,
        job: &Job,
        audit: &mut Vec<Admission>,
    ) -> Result<Draft, AllocError>
        ensures ok { IfOk result (λ draft. (n : NodeState) →
            IsNotedAt number boot tuned standing job.now n →
            IsDrafted audit.old.items audit.new.items (entries n job.now) draft) }
        ensures same { OnErr result (audit.new.items ≡ audit.old.items) }
        ensures err { OnErr result ((n : NodeState) →
            IsNotedAt number boot tuned standing job.now n → MayBeNoted n job.now) }
    {
        match job {
            Job::By(pid, act) => match standing {
                Some(standing) => {
                    let asker = Party {
                        pid: *pid,
                        standing,
                    };
                    note_act(alloc, asker, tuned, act, audit)
                }
                None => Ok(Draft::Always),
            },
            Job::Member(root, cap) => note_reached(number, boot, *root, *cap, audit),
            Job::Proc | Job::Arrive(_) => Ok(Draft::Always),
        }
    }

    /// Leaves of what was noted of the job, from this length of the audit on, what is noted of it
    /// with this answer. Takes no memory.
    pub fn settle(self, audit: &mut Vec<Admission>, from: usize, answer: &Answer)
        ensures { (before : List Admission) (noted : Answer → List Admission) →
            length before ≡ from → IsDrafted before audit.old.items noted self →
            audit.new.items ≡ before ++ noted answer.now }
    {
        match self {
            Draft::Always => {}
            Draft::IfYes => {
                if !is_yes(answer) {
                    audit.truncate(from);
                }
            }
            Draft::IfEntered => match entered(answer) {
                Some(cap) => put_cap(audit, cap),
                None => audit.truncate(from),
            },
        }
    }
}
