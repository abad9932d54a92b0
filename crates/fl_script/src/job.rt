//! Jobs by the words that spell them.
ghost use Rattle.std.specs.Prelude.{◌≡◌, ◌∷◌, map, codes};
ghost use Rattle.std.specs.List.{All};
ghost use Rattle.fl_labels.specs.Found.{Finds};
ghost use Rattle.fl_labels.specs.Text.{endpoint_text, pid_text};
ghost use Rattle.fl_labels.specs.Words.{NoComma};
ghost use Rattle.fl_labels.specs.declared.pid.Pid.{Pid};
ghost use Rattle.fl_jobs.specs.declared.job.Act.TheVariants.{Order as Orders};
ghost use Rattle.fl_script.specs.Grammar.{SpellsJob, TakesBlock};
ghost use Rattle.fl_script.specs.parts.Acts.{NoPidFirst, SpellsAct, SpellsOrders};
ghost use Rattle.fl_script.specs.parts.Reads.{Reads, StarvesIf};

use crate::unread::Unread;
use crate::words::{
    bytes_from_word, caps_from_word, label_from_word, labels_from_words, message_from_words,
    mode_from_word, policy_from_word, secret_from_word, side_from_word,
};
use fl_jobs::job::{Act, Job, Mail, Order};
use fl_labels::endpoint::Endpoint;
use fl_labels::pid::Pid;
use fl_labels::text::{read_cap, read_endpoint, read_name, read_pid};
use fl_message::boxed::Boxed;
use std::alloc::Global;

fn tag_order(rest: &[&str]) -> Option<Order>
    ensures { (p : Pid) → Finds result (λ o.
        SpellsAct p (Orders o) (codes "tag") (map (λ w. w.now) rest.now)) }
{
    let [policy] = rest else { return None };
    let policy = policy_from_word(policy)?;
    Some(Order::Tag(policy))
}

fn group_order(rest: &[&str]) -> Option<Order>
    ensures { (p : Pid) → Finds result (λ o.
        SpellsAct p (Orders o) (codes "group") (map (λ w. w.now) rest.now)) }
{
    let [] = rest else { return None };
    Some(Order::Group)
}

fn put_order(rest: &[&str]) -> Option<Order>
    ensures { (p : Pid) → Finds result (λ o.
        SpellsAct p (Orders o) (codes "put") (map (λ w. w.now) rest.now)) }
{
    let [group, cap] = rest else { return None };
    let group = read_name(group)?;
    let cap = read_cap(cap)?;
    Some(Order::Put(group, cap))
}

fn make_login_order(rest: &[&str]) -> Option<Order>
    ensures { (p : Pid) → Finds result (λ o.
        SpellsAct p (Orders o) (codes "make-login") (map (λ w. w.now) rest.now)) }
{
    let [cap, secret] = rest else { return None };
    let cap = read_cap(cap)?;
    let secret = secret_from_word(secret)?;
    Some(Order::MakeLogin(cap, secret))
}

fn open_group_order(rest: &[&str]) -> Option<Order>
    ensures { (p : Pid) → Finds result (λ o.
        SpellsAct p (Orders o) (codes "open-group") (map (λ w. w.now) rest.now)) }
{
    let [group] = rest else { return None };
    let group = read_name(group)?;
    Some(Order::OpenGroup(group))
}

/// The order that a verb and the words after the process spell, or none where they spell no order.
pub fn order_from_words(verb: &str, rest: &[&str]) -> Option<Order>
    ensures { (p : Pid) → Finds result (λ o.
        SpellsAct p (Orders o) verb.now (map (λ w. w.now) rest.now)) }
{
    match verb {
        "tag" => tag_order(rest),
        "group" => group_order(rest),
        "put" => put_order(rest),
        "make-login" => make_login_order(rest),
        "open-group" => open_group_order(rest),
        _ => None,
    }
}

fn label_act(alloc: Global, rest: &[&str]) -> Result<Act, Unread>
    ensures ok { (p : Pid) → Reads result (λ a.
        SpellsAct p a (codes "label") (map (λ w. w.now) rest.now)) }
    ensures memory { StarvesIf result (¬ All NoComma (map (λ w. w.now) rest.now)) }
{
    let [side, label] = rest else {
        return Err(Unread::Bad);
    };
    let side = side_from_word(side).ok_or(Unread::Bad)?;
    let label = label_from_word(alloc, label)?;
    Ok(Act::Relabel(side, label))
}

fn ask_act(rest: &[&str]) -> Result<Act, Unread>
    ensures ok { (p : Pid) → Reads result (λ a.
        SpellsAct p a (codes "ask") (map (λ w. w.now) rest.now)) }
    ensures memory { StarvesIf result ⊥ }
{
    let [cap] = rest else { return Err(Unread::Bad) };
    let cap = read_cap(cap).ok_or(Unread::Bad)?;
    Ok(Act::Ask(cap))
}

fn spawn_act(alloc: Global, rest: &[&str]) -> Result<Act, Unread>
    ensures { (p : Pid) → Reads result (λ a.
        SpellsAct p a (codes "spawn") (map (λ w. w.now) rest.now)) }
{
    let [caps] = rest else {
        return Err(Unread::Bad);
    };
    let caps = caps_from_word(alloc, caps)?;
    Ok(Act::Spawn(Boxed::new(alloc, caps)?))
}

fn exit_act(rest: &[&str]) -> Result<Act, Unread>
    ensures ok { (p : Pid) → Reads result (λ a.
        SpellsAct p a (codes "exit") (map (λ w. w.now) rest.now)) }
    ensures memory { StarvesIf result ⊥ }
{
    let [] = rest else { return Err(Unread::Bad) };
    Ok(Act::Exit)
}

fn drop_act(rest: &[&str]) -> Result<Act, Unread>
    ensures ok { (p : Pid) → Reads result (λ a.
        SpellsAct p a (codes "drop") (map (λ w. w.now) rest.now)) }
    ensures memory { StarvesIf result ⊥ }
{
    let [cap] = rest else { return Err(Unread::Bad) };
    let cap = read_cap(cap).ok_or(Unread::Bad)?;
    Ok(Act::Drop(cap))
}

fn enter_act(rest: &[&str]) -> Result<Act, Unread>
    ensures ok { (p : Pid) → Reads result (λ a.
        SpellsAct p a (codes "enter") (map (λ w. w.now) rest.now)) }
    ensures memory { StarvesIf result ⊥ }
{
    let [login, secret] = rest else {
        return Err(Unread::Bad)
    };
    let login = read_name(login).ok_or(Unread::Bad)?;
    let secret = secret_from_word(secret).ok_or(Unread::Bad)?;
    Ok(Act::Enter(login, secret))
}

fn emit_act(alloc: Global, rest: &[&str]) -> Result<Act, Unread>
    ensures { (p : Pid) → Reads result (λ a.
        SpellsAct p a (codes "emit") (map (λ w. w.now) rest.now)) }
{
    let [bytes] = rest else {
        return Err(Unread::Bad);
    };
    let bytes = bytes_from_word(alloc, bytes)?;
    Ok(Act::Emit(Boxed::new(alloc, bytes)?))
}

fn open_act(alloc: Global, rest: &[&str]) -> Result<Act, Unread>
    ensures { (p : Pid) → Reads result (λ a.
        SpellsAct p a (codes "open") (map (λ w. w.now) rest.now)) }
{
    let [mode, secrecy, integrity] = rest else {
        return Err(Unread::Bad);
    };
    let mode = mode_from_word(mode).ok_or(Unread::Bad)?;
    let given = labels_from_words(alloc, secrecy, integrity)?;
    Ok(Act::Mail(Mail::Open(mode, Boxed::new(alloc, given)?)))
}

fn tune_act(alloc: Global, rest: &[&str]) -> Result<Act, Unread>
    ensures { (p : Pid) → Reads result (λ a.
        SpellsAct p a (codes "tune") (map (λ w. w.now) rest.now)) }
{
    let [endpoint, secrecy, integrity] = rest else {
        return Err(Unread::Bad);
    };
    let endpoint = read_endpoint(endpoint).ok_or(Unread::Bad)?;
    let given = labels_from_words(alloc, secrecy, integrity)?;
    Ok(Act::Mail(Mail::Tune(endpoint, Boxed::new(alloc, given)?)))
}

fn close_act(rest: &[&str]) -> Result<Act, Unread>
    ensures ok { (p : Pid) → Reads result (λ a.
        SpellsAct p a (codes "close") (map (λ w. w.now) rest.now)) }
    ensures memory { StarvesIf result ⊥ }
{
    let [endpoint] = rest else {
        return Err(Unread::Bad)
    };
    let endpoint = read_endpoint(endpoint).ok_or(Unread::Bad)?;
    Ok(Act::Mail(Mail::Close(endpoint)))
}

// The endpoint from which a message goes, the process that it goes to, and the endpoint of that
// one.
#[derive(Clone, Copy)]
struct Ends {
    from: Endpoint,
    receiver: Pid,
    to: Endpoint,
}

fn ends_from_words(from: &str, receiver: &str, to: &str) -> Option<Ends>
    ensures { Finds result (λ ends.
        (from.now ≡ endpoint_text ends.from) × (receiver.now ≡ pid_text ends.receiver)
        × (to.now ≡ endpoint_text ends.to)) }
{
    let from = read_endpoint(from)?;
    let receiver = read_pid(receiver)?;
    let to = read_endpoint(to)?;
    Some(Ends { from, receiver, to })
}

fn send_act(alloc: Global, rest: &[&str]) -> Result<Act, Unread>
    ensures { (p : Pid) → Reads result (λ a.
        SpellsAct p a (codes "send") (map (λ w. w.now) rest.now)) }
{
    let [from, receiver, to, caps, bytes] = rest else {
        return Err(Unread::Bad);
    };
    let Some(ends) = ends_from_words(from, receiver, to) else {
        return Err(Unread::Bad);
    };
    let message = message_from_words(alloc, caps, bytes)?;
    Ok(Act::Mail(Mail::Send {
        from: ends.from,
        receiver: ends.receiver,
        to: ends.to,
        message,
    }))
}

fn take_act(rest: &[&str]) -> Result<Act, Unread>
    ensures ok { (p : Pid) → Reads result (λ a.
        SpellsAct p a (codes "take") (map (λ w. w.now) rest.now)) }
    ensures memory { StarvesIf result ⊥ }
{
    let [] = rest else { return Err(Unread::Bad) };
    Ok(Act::Mail(Mail::Take))
}

#[inline(never)]
fn order_act(verb: &str, rest: &[&str]) -> Result<Act, Unread>
    requires { SpellsOrders verb.now (map (λ w. w.now) rest.now) }
    ensures ok { (p : Pid) → Reads result (λ a.
        SpellsAct p a verb.now (map (λ w. w.now) rest.now)) }
    ensures memory { StarvesIf result ⊥ }
{
    match order_from_words(verb, rest) {
        Some(order) => Ok(Act::Order(order)),
        None => Err(Unread::Bad),
    }
}

/// What a verb and the words after the process say that it does. `Bad` where they say nothing that
/// a process does. Takes memory for capabilities, for the labels of an endpoint and for bytes,
/// which stand in blocks, and for a label of two tags at least.
#[inline(always)]
pub fn act_from_words(alloc: Global, verb: &str, rest: &[&str]) -> Result<Act, Unread>
    ensures ok { (p : Pid) → Reads result (λ a.
        SpellsAct p a verb.now (map (λ w. w.now) rest.now)) }
    ensures memory { StarvesIf result (TakesBlock verb.now (map (λ w. w.now) rest.now)) }
{
    match verb.as_bytes() {
        b"ask" => ask_act(rest),
        b"label" => label_act(alloc, rest),
        b"send" => send_act(alloc, rest),
        b"take" => take_act(rest),
        b"emit" => emit_act(alloc, rest),
        b"spawn" => spawn_act(alloc, rest),
        b"exit" => exit_act(rest),
        b"drop" => drop_act(rest),
        b"open" => open_act(alloc, rest),
        b"tune" => tune_act(alloc, rest),
        b"close" => close_act(rest),
        b"enter" => enter_act(rest),
        _ => order_act(verb, rest),
    }
}

fn proc_job(rest: &[&str]) -> Option<Job>
    ensures { Finds result (λ j. SpellsJob j (codes "proc" ∷ map (λ w. w.now) rest.now)) }
{
    let [] = rest else { return None };
    Some(Job::Proc)
}

fn member_job(rest: &[&str]) -> Option<Job>
    ensures { Finds result (λ j. SpellsJob j (codes "member" ∷ map (λ w. w.now) rest.now)) }
{
    let [root, cap] = rest else { return None };
    let root = read_cap(root)?;
    let cap = read_cap(cap)?;
    Some(Job::Member(root, cap))
}

/// The job of no process that a verb and the words after it spell, or none where they spell no
/// such job.
pub fn job_from_words(verb: &str, rest: &[&str]) -> Option<Job>
    requires { NoPidFirst (map (λ w. w.now) rest.now) }
    ensures { Finds result (λ j. SpellsJob j (verb.now ∷ map (λ w. w.now) rest.now)) }
{
    match verb {
        "member" => member_job(rest),
        "proc" => proc_job(rest),
        _ => None,
    }
}
