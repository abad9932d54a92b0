//! What a line asks of a machine's node.
ghost use Rattle.std.specs.Prelude.{◌≡◌, ◌≢◌, ◌∷◌, Some, codes, map};
ghost use Rattle.fl_labels.specs.Found.{Finds, Tells};
ghost use Rattle.fl_labels.specs.Words.{IsNumber};
ghost use Rattle.fl_machine_lines.specs.Grammar.{BringsBytes, ForetellsBlock, SpellsAsked};
ghost use Rattle.fl_machine_lines.specs.Grammar.{TakesBlock};
ghost use Rattle.fl_machine_lines.specs.parts.Asking.{AsksAsScript, AsksOwn, ExplainsOf};
ghost use Rattle.fl_machine_lines.specs.parts.Asking.{asked_of};
ghost use Rattle.fl_script.specs.Grammar.{HoldsBlock, SpellsJob};
ghost use Rattle.fl_script.specs.parts.Reads.{Reads, StarvesIf};

use crate::explaining::{Explanation, explanation_from_words};
use fl_jobs::job::{Job, Order};
use fl_labels::name::NodeNumber;
use fl_labels::pid::Pid;
use fl_labels::text::read_number;
use fl_message::boxed::Boxed;
use fl_message::payload::Payload;
use fl_script::line::{Line, line_from_words};
use fl_script::request::{Request, request_from_words};
use fl_script::unread::Unread;
use fl_script::words::bytes_from_word;
use std::alloc::Global;

/// What a line asks of a machine's node.
#[derive(Drop)]
pub enum Asked {
    /// It is to do a job, and to save and publish what this begins.
    Job(Job),
    /// It is to begin the order of a process, which further lines are to save and publish.
    Begin(Pid, Order),
    /// The packet of these bytes comes to it, and what this brings is to be saved and published.
    Receive(Boxed<Payload>),
    /// The same, but further lines are to save and publish what it brings.
    BeginReceive(Boxed<Payload>),
    /// It is to tell what it has saved, in windows.
    Tell,
    /// It is to save what is to be saved.
    Save,
    /// It is to publish what is saved and due.
    Publish,
    /// It is to give up what is to be saved.
    Cancel,
    /// What it has published is to be written.
    Text,
    /// What a packet of these bytes would bring to it is to be written.
    Check(Boxed<Payload>),
    /// It is to say what it would answer to a job now.
    Could(Job),
    /// It is to say which capabilities are wanting for a job.
    Missing(Job),
    /// This is to be written of it.
    Explain(Explanation),
}

// Whether the word is the machine's own number.
fn is_own(number: NodeNumber, node: &str) -> bool
    ensures { Tells result (IsNumber number node.now) }
{
    match read_number(node) {
        Some(other) => other == number,
        None => false,
    }
}

// What the words behind `receive` ask of the machine of this number.
fn receive_asked(
    alloc: Global,
    number: NodeNumber,
    node: &str,
    rest: &[&str],
) -> Result<Asked, Unread>
    ensures ok { let words = node.now ∷ codes "receive" ∷ map (λ w. w.now) rest.now in
        Reads result (λ asked. SpellsAsked number asked words) }
    ensures memory { let words = node.now ∷ codes "receive" ∷ map (λ w. w.now) rest.now in
        StarvesIf result (BringsBytes words) }
{
    let [word] = rest else {
        return Err(Unread::Bad);
    };
    if !is_own(number, node) {
        return Err(Unread::Bad);
    }
    let bytes = bytes_from_word(alloc, word)?;
    Ok(Asked::Receive(Boxed::new(alloc, bytes)?))
}

// What the words behind `begin receive` ask of the machine of this number.
fn begin_receive_asked(
    alloc: Global,
    number: NodeNumber,
    node: &str,
    rest: &[&str],
) -> Result<Asked, Unread>
    ensures ok { let words = codes "begin" ∷ codes "receive" ∷ map (λ w. w.now) rest.now in
        Reads result (λ asked. SpellsAsked number asked (node.now ∷ words)) }
    ensures memory { let words = codes "begin" ∷ codes "receive" ∷ map (λ w. w.now) rest.now in
        StarvesIf result (BringsBytes (node.now ∷ words)) }
{
    let [word] = rest else {
        return Err(Unread::Bad);
    };
    if !is_own(number, node) {
        return Err(Unread::Bad);
    }
    let bytes = bytes_from_word(alloc, word)?;
    Ok(Asked::BeginReceive(Boxed::new(alloc, bytes)?))
}

// What a script's request asks, where a machine's node is asked it too: not of a packet that is
// called by a number, nor to be restarted, which is the end of the program and its next start.
fn asked_of(request: Request) -> Option<Asked>
    ensures { result ≡ asked_of request }
{
    match request {
        Request::Job(job) => Some(Asked::Job(job)),
        Request::Begin(pid, order) => Some(Asked::Begin(pid, order)),
        Request::Tell => Some(Asked::Tell),
        Request::Save => Some(Asked::Save),
        Request::Publish => Some(Asked::Publish),
        Request::Cancel => Some(Asked::Cancel),
        Request::Text => Some(Asked::Text),
        Request::Check(bytes) => Some(Asked::Check(bytes)),
        Request::Deliver(_) | Request::BeginDeliver(_) | Request::Restart { .. } => None,
    }
}

// What the request of a script to a node asks of the machine of this number.
fn asked_there(number: NodeNumber, node: NodeNumber, request: Request) -> Option<Asked>
    ensures { Finds result (λ asked. (node ≡ number) × (asked_of request ≡ Some asked)) }
{
    if node != number {
        return None;
    }
    asked_of(request)
}

// What the words ask of the machine of this number, where they are a line of a script too.
fn script_asked(alloc: Global, number: NodeNumber, words: &[&str]) -> Result<Asked, Unread>
    ensures ok { Reads result (λ asked. AsksAsScript number asked (map (λ w. w.now) words.now)) }
    ensures memory { StarvesIf result (HoldsBlock (map (λ w. w.now) words.now)) }
{
    match line_from_words(alloc, words)? {
        Line::Node { node, request } => asked_there(number, node, request).ok_or(Unread::Bad),
        Line::Union { .. } | Line::Audit | Line::Aliases => Err(Unread::Bad),
    }
}

// What the words ask of the machine of this number, `begin` being the second of them.
fn begin_asked(
    alloc: Global,
    number: NodeNumber,
    words: &[&str],
    node: &str,
    rest: &[&str],
) -> Result<Asked, Unread>
    requires { map (λ w. w.now) words.now ≡ node.now ∷ codes "begin" ∷ map (λ w. w.now) rest.now }
    ensures ok { Reads result (λ asked. SpellsAsked number asked (map (λ w. w.now) words.now)) }
    ensures memory { StarvesIf result (TakesBlock (map (λ w. w.now) words.now)) }
{
    let [verb, behind @ ..] = rest else {
        return Err(Unread::Bad);
    };
    match *verb {
        "receive" => begin_receive_asked(alloc, number, node, behind),
        _ => script_asked(alloc, number, words),
    }
}

// What the words ask to be explained of the machine of this number.
#[inline(always)]
fn explained(number: NodeNumber, node: &str, verb: &str, rest: &[&str]) -> Option<Asked>
    ensures { let words = verb.now ∷ map (λ w. w.now) rest.now in
        Finds result (λ asked. ExplainsOf number asked (node.now ∷ words)) }
{
    let what = explanation_from_words(verb, rest)?;
    if !is_own(number, node) {
        return None;
    }
    Some(Asked::Explain(what))
}

// The job that the words behind the number of this machine and a verb spell.
fn job_asked(alloc: Global, number: NodeNumber, node: &str, rest: &[&str]) -> Result<Job, Unread>
    ensures ok { Reads result (λ job.
        IsNumber number node.now × SpellsJob job (map (λ w. w.now) rest.now)) }
    ensures memory { StarvesIf result (HoldsBlock (node.now ∷ map (λ w. w.now) rest.now)) }
{
    if !is_own(number, node) {
        return Err(Unread::Bad);
    }
    let [verb, words @ ..] = rest else {
        return Err(Unread::Bad);
    };
    match request_from_words(alloc, verb, words)? {
        Request::Job(job) => Ok(job),
        _ => Err(Unread::Bad),
    }
}

// What the words ask of the machine of this number that no script asks.
#[inline(always)]
fn own_asked(
    alloc: Global,
    number: NodeNumber,
    node: &str,
    verb: &str,
    rest: &[&str],
) -> Result<Asked, Unread>
    ensures ok { let words = verb.now ∷ map (λ w. w.now) rest.now in
        Reads result (λ asked. AsksOwn number asked (node.now ∷ words)) }
    ensures memory { let words = verb.now ∷ map (λ w. w.now) rest.now in
        StarvesIf result (ForetellsBlock (node.now ∷ words)) }
{
    match verb {
        "could" => Ok(Asked::Could(job_asked(alloc, number, node, rest)?)),
        "missing" => Ok(Asked::Missing(job_asked(alloc, number, node, rest)?)),
        _ => explained(number, node, verb, rest).ok_or(Unread::Bad),
    }
}

// What the words ask of the machine of this number, where they are a line of a script too, or ask
// what no script asks, which fewer lines do.
fn other_asked(
    alloc: Global,
    number: NodeNumber,
    words: &[&str],
    node: &str,
    verb: &str,
    rest: &[&str],
) -> Result<Asked, Unread>
    requires are { map (λ w. w.now) words.now ≡ node.now ∷ verb.now ∷ map (λ w. w.now) rest.now }
    requires loud { verb.now ≢ codes "receive" }
    requires whole { verb.now ≢ codes "begin" }
    ensures ok { Reads result (λ asked. SpellsAsked number asked (map (λ w. w.now) words.now)) }
    ensures memory { StarvesIf result (TakesBlock (map (λ w. w.now) words.now)) }
{
    match script_asked(alloc, number, words) {
        Err(Unread::Bad) => own_asked(alloc, number, node, verb, rest),
        read => read,
    }
}

/// What the words ask of the machine of this number. `Bad` where they ask nothing of it. Takes
/// memory for what they hold alone: for bytes, for capabilities, for the labels of an endpoint, and
/// for a label of two tags at least.
pub(crate) fn asked_from_words(
    alloc: Global,
    number: NodeNumber,
    words: &[&str],
) -> Result<Asked, Unread>
    ensures ok { Reads result (λ asked. SpellsAsked number asked (map (λ w. w.now) words.now)) }
    ensures memory { StarvesIf result (TakesBlock (map (λ w. w.now) words.now)) }
{
    let [node, verb, rest @ ..] = words else {
        return Err(Unread::Bad);
    };
    match *verb {
        "receive" => receive_asked(alloc, number, node, rest),
        "begin" => begin_asked(alloc, number, words, node, rest),
        _ => other_asked(alloc, number, words, node, verb, rest),
    }
}
