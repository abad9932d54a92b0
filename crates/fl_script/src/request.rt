//! What lines ask of one node, by the words that spell it.
ghost use Rattle.std.specs.Prelude.{◌≡◌, ◌≢◌, ◌∷◌, map, codes};
ghost use Rattle.fl_labels.specs.Found.{Finds};
ghost use Rattle.fl_script.specs.parts.Acts.{NoPidFirst};
ghost use Rattle.fl_script.specs.parts.Reads.{Reads, StarvesIf};
ghost use Rattle.fl_script.specs.Grammar.{SpellsRequest, TakesBlock};

use crate::job::{act_from_words, job_from_words, order_from_words};
use crate::unread::Unread;
use crate::words::bytes_from_word;
use fl_jobs::job::{Job, Order};
use fl_labels::pid::Pid;
use fl_labels::text::{read_number, read_pid};
use fl_message::boxed::Boxed;
use fl_message::payload::Payload;
use std::alloc::Global;

/// What a line asks of one node.
#[derive(Drop)]
pub enum Request {
    /// It is to do a job, and to save and publish what this begins.
    Job(Job),
    /// It is to begin the order of a process, which further lines are to save and publish.
    Begin(Pid, Order),
    /// The packet that was sent as the one of this number, counted from 1, is to come to it, and
    /// what this brings is to be saved and published.
    Deliver(u32),
    /// The same, but further lines are to save and publish what it brings.
    BeginDeliver(u32),
    /// It is to send windows of what it has saved.
    Tell,
    /// It is to save what is to be saved.
    Save,
    /// It is to publish what is saved and due.
    Publish,
    /// It is to give up what is to be saved.
    Cancel,
    /// It is to be restarted. What is to be saved is saved first where it is to be kept, and else
    /// lost.
    Restart { kept: bool },
    /// What it has published is to be written.
    Text,
    /// What a packet of these bytes would bring to it is to be written.
    Check(Boxed<Payload>),
}

fn tell_request(rest: &[&str]) -> Option<Request>
    ensures { Finds result (λ r. SpellsRequest r (codes "tell" ∷ map (λ w. w.now) rest.now)) }
{
    let [] = rest else { return None };
    Some(Request::Tell)
}

fn save_request(rest: &[&str]) -> Option<Request>
    ensures { Finds result (λ r. SpellsRequest r (codes "save" ∷ map (λ w. w.now) rest.now)) }
{
    let [] = rest else { return None };
    Some(Request::Save)
}

fn publish_request(rest: &[&str]) -> Option<Request>
    ensures { Finds result (λ r. SpellsRequest r (codes "publish" ∷ map (λ w. w.now) rest.now)) }
{
    let [] = rest else { return None };
    Some(Request::Publish)
}

fn cancel_request(rest: &[&str]) -> Option<Request>
    ensures { Finds result (λ r. SpellsRequest r (codes "cancel" ∷ map (λ w. w.now) rest.now)) }
{
    let [] = rest else { return None };
    Some(Request::Cancel)
}

fn text_request(rest: &[&str]) -> Option<Request>
    ensures { Finds result (λ r. SpellsRequest r (codes "text" ∷ map (λ w. w.now) rest.now)) }
{
    let [] = rest else { return None };
    Some(Request::Text)
}

fn restart_request(rest: &[&str]) -> Option<Request>
    ensures { Finds result (λ r. SpellsRequest r (codes "restart" ∷ map (λ w. w.now) rest.now)) }
{
    match rest {
        [] => Some(Request::Restart { kept: false }),
        ["kept"] => Some(Request::Restart { kept: true }),
        _ => None,
    }
}

fn deliver_request(rest: &[&str]) -> Option<Request>
    ensures { Finds result (λ r. SpellsRequest r (codes "deliver" ∷ map (λ w. w.now) rest.now)) }
{
    let [packet] = rest else { return None };
    let packet = read_number(packet)?;
    Some(Request::Deliver(packet))
}

fn check_request(alloc: Global, rest: &[&str]) -> Result<Request, Unread>
    ensures { Reads result (λ r. SpellsRequest r (codes "check" ∷ map (λ w. w.now) rest.now)) }
{
    let [bytes] = rest else {
        return Err(Unread::Bad);
    };
    let bytes = bytes_from_word(alloc, bytes)?;
    Ok(Request::Check(Boxed::new(alloc, bytes)?))
}

fn begin_deliver_request(rest: &[&str]) -> Option<Request>
    ensures { let words = codes "deliver" ∷ map (λ w. w.now) rest.now in
        Finds result (λ r. SpellsRequest r (codes "begin" ∷ words)) }
{
    let [packet] = rest else { return None };
    let packet = read_number(packet)?;
    Some(Request::BeginDeliver(packet))
}

fn begin_order_request(verb: &str, rest: &[&str]) -> Option<Request>
    requires { verb.now ≢ codes "deliver" }
    ensures { let words = verb.now ∷ map (λ w. w.now) rest.now in
        Finds result (λ r. SpellsRequest r (codes "begin" ∷ words)) }
{
    let [pid, words @ ..] = rest else { return None };
    let pid = read_pid(pid)?;
    let order = order_from_words(verb, words)?;
    Some(Request::Begin(pid, order))
}

fn begin_request(rest: &[&str]) -> Option<Request>
    ensures { Finds result (λ r. SpellsRequest r (codes "begin" ∷ map (λ w. w.now) rest.now)) }
{
    match rest {
        ["deliver", words @ ..] => begin_deliver_request(words),
        [verb, words @ ..] => begin_order_request(verb, words),
        [] => None,
    }
}

// What a verb and the words after it ask of a node, where no process stands behind the verb. Takes
// memory for the bytes of a `check` alone.
fn other_request(alloc: Global, verb: &str, rest: &[&str]) -> Result<Request, Unread>
    requires { NoPidFirst (map (λ w. w.now) rest.now) }
    ensures ok { Reads result (λ r. SpellsRequest r (verb.now ∷ map (λ w. w.now) rest.now)) }
    ensures memory { StarvesIf result (verb.now ≡ codes "check") }
{
    // Questions of groups come most often.
    if let Some(job) = job_from_words(verb, rest) {
        return Ok(Request::Job(job));
    }
    match verb {
        "begin" => begin_request(rest).ok_or(Unread::Bad),
        "deliver" => deliver_request(rest).ok_or(Unread::Bad),
        "tell" => tell_request(rest).ok_or(Unread::Bad),
        "save" => save_request(rest).ok_or(Unread::Bad),
        "publish" => publish_request(rest).ok_or(Unread::Bad),
        "cancel" => cancel_request(rest).ok_or(Unread::Bad),
        "restart" => restart_request(rest).ok_or(Unread::Bad),
        "text" => text_request(rest).ok_or(Unread::Bad),
        "check" => check_request(alloc, rest),
        _ => Err(Unread::Bad),
    }
}

/// What a verb and the words after it ask of a node. `Bad` where they ask nothing. Takes memory for
/// a label of two tags at least, for capabilities, for the labels of an endpoint and for bytes.
#[inline(always)]
pub fn request_from_words(alloc: Global, verb: &str, rest: &[&str]) -> Result<Request, Unread>
    ensures ok { Reads result (λ r. SpellsRequest r (verb.now ∷ map (λ w. w.now) rest.now)) }
    ensures memory { StarvesIf result (TakesBlock verb.now (map (λ w. w.now) rest.now)) }
{
    // A process stands behind the verb of what a process does, and behind no other verb.
    if let [word, words @ ..] = rest {
        if let Some(pid) = read_pid(word) {
            let act = act_from_words(alloc, verb, words)?;
            return Ok(Request::Job(Job::By(pid, act)));
        }
    }
    other_request(alloc, verb, rest)
}
