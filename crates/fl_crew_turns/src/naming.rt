//! The aliases that the lines of a batch are to set.
ghost use Rattle.std.specs.Prelude.{◌≡◌, ◌<◌, ◌≤◌, ◌+◌, ◌++◌, ◌∷◌, [], ◌↔◌, ℕ, List, IsTrue, MatchOption, length, slice_index, take};
ghost use Rattle.fl_aliases.specs.Expansion.{NoDollar, NoLetterFirst};
ghost use Rattle.fl_calls.specs.Answer.{replied};
ghost use Rattle.fl_turns.specs.Answer.{said};
ghost use Rattle.fl_turns.specs.Naming.{made_by, renamed};
ghost use Rattle.fl_crew_turns.specs.Held.{count_set};
ghost use Rattle.fl_crew_turns.specs.Naming.{BeginsWith, BeginsWithOne, IsNamedIn, named_all};

use fl_aliases::alias::{Alias, is_letter};
use fl_aliases::roomy::RoomyAliases;
use fl_aliases::target::Target;
use fl_jobs::answer::Reply as JobReply;
use fl_system::reply::Reply;

// Whether no letter of aliases stands first.
fn no_letter_first(text: &[u8]) -> bool
    ensures { IsTrue result ↔ NoLetterFirst text.now }
{
    match text {
        [first, ..] => !is_letter(*first),
        [] => true,
    }
}

// Whether the text begins with the letters of the alias, and no further letter.
fn begins_with(text: &[u8], alias: &Alias) -> bool
    ensures { IsTrue result ↔ BeginsWith alias.now text.now }
{
    match text.strip_prefix(alias.as_str().as_bytes()) {
        Some(behind) => no_letter_first(behind),
        None => false,
    }
}

// Whether there is an alias, and the text begins so with it.
fn begins_with_some(text: &[u8], alias: Option<Alias>) -> bool
    ensures { IsTrue result ↔ ((letters : List ℕ) × (alias ≡ Some letters)
        × BeginsWith letters text.now) }
{
    match alias {
        Some(alias) => begins_with(text, &alias),
        None => false,
    }
}

// Whether the text begins so with one of these.
fn begins_with_one(text: &[u8], aliases: &[Option<Alias>]) -> bool
    ensures { IsTrue result ↔ BeginsWithOne aliases.now text.now }
{
    for alias in aliases {
        if begins_with_some(text, *alias) {
            return true;
        }
    }
    false
}

// Where the first `$` stands.
fn dollar_at(text: &[u8]) -> Option<usize>
    ensures { MatchOption result (NoDollar text.now) (λ at.
        (at < length text.now) × (slice_index text.now at ≡ 36) × NoDollar (take at text.now)) }
{
    text.iter().position(|byte| *byte == b'$')
}

// What stands behind the first `$`.
fn behind_dollar(text: &[u8]) -> Option<&[u8]>
    ensures { MatchOption result (NoDollar text.now) (λ behind. (front : List ℕ)
        × (text.now ≡ front ++ 36 ∷ behind.now) × NoDollar front) }
{
    let at = dollar_at(text)?;
    Some(&text[at + 1..])
}

/// Whether one of these aliases is named in the text, behind a `$` and with no letter behind it.
/// Looks at each byte of the text once for each of them at most.
pub fn is_named_in(text: &[u8], aliases: &[Option<Alias>]) -> bool
    ensures { IsTrue result ↔ IsNamedIn aliases.now text.now }
{
    let mut rest = text;
    while let Some(behind) = behind_dollar(rest) {
        if begins_with_one(behind, aliases) {
            return true;
        }
        rest = behind;
    }
    false
}

/// The process, the endpoint or the operation that a line made that is replied this, for which its
/// alias is to stand. `None` where it made nothing.
pub fn made_by(reply: &Reply) -> Option<Target>
    ensures { result ≡ made_by (said (replied reply.now)) }
{
    match reply {
        Reply::Job(JobReply::Made(pid)) => Some(Target::Process(*pid)),
        Reply::Job(JobReply::Opened(endpoint)) => Some(Target::Endpoint(*endpoint)),
        Reply::Published(name) => Some(Target::Operation(*name)),
        _ => None,
    }
}

// Has the alias, if there is one, stand for what its line made, if it made something.
fn settle(aliases: &mut RoomyAliases, alias: Option<Alias>, reply: &Reply)
    requires room { count_set (alias ∷ []) ≤ aliases.old.room }
    requires few { length aliases.old.table + count_set (alias ∷ []) ≤ 1024 }
    ensures table { aliases.new.table
        ≡ renamed aliases.old.table alias (made_by (said (replied reply.now))) }
    ensures room { aliases.old.room ≤ aliases.new.room + count_set (alias ∷ []) }
{
    if let (Some(alias), Some(target)) = (alias, made_by(reply)) {
        aliases.set(alias, target);
    }
}

/// Has each alias stand for what its line made, if it made something: of an alias and a reply in
/// the same place, as far as there are both. Takes no memory.
pub fn settle_all(aliases: &mut RoomyAliases, new: &[Option<Alias>], replies: &[Reply])
    requires room { count_set new.now ≤ aliases.old.room }
    requires few { length aliases.old.table + count_set new.now ≤ 1024 }
    ensures { aliases.new.table ≡ named_all aliases.old.table new.now replies.now }
{
    for (alias, reply) in new.iter().zip(replies) {
        settle(aliases, *alias, reply);
    }
}
