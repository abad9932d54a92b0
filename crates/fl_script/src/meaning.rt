//! What the words of a line say.
ghost use Rattle.std.specs.Prelude.{◌≡◌, ◌≤◌, ◌+◌, ◌++◌, List, MatchOption, ℕ, length, map};
ghost use Rattle.fl_script.specs.parts.Reads.{Reads, StarvesIf};
ghost use Rattle.fl_aliases.specs.Words.{Word};
ghost use Rattle.fl_script.specs.parts.Meaning.{CanBeNamed, WantsMemory};
ghost use Rattle.fl_script.specs.parts.Parts.{CanPart, parts_of};
ghost use Rattle.fl_script.specs.Grammar.{Spells};
ghost use Rattle.fl_script.specs.Reading.{act_makes, makes, EndsInAlias, SpellsReplaced};
ghost use Rattle.fl_script.specs.Reading.{WordsSay, WordsTakeMemory};

use crate::cut::MOST_LINE_WORDS;
use crate::line::{Line, line_from_words};
use crate::replaced::{build, place_kept, place_parts};
use crate::request::Request;
use crate::unread::Unread;
use arrayvec::ArrayVec;
use fl_aliases::alias::Alias;
use fl_aliases::table::Aliases;
use fl_jobs::job::{Act, Job, Mail};
use std::alloc::Global;

// A line, and the alias that is to stand for what it makes, if one is.
#[derive(Drop)]
pub(crate) struct Meaning {
    pub line: Line,
    pub alias: Option<Alias>,
}

// Words that end in `as $x`: those before, and the alias.
#[derive(Clone, Copy)]
struct Named<'a, 'b> {
    front: &'a [&'b str],
    alias: Alias,
}

// Whether an alias can stand for what the act makes.
fn act_makes(act: &Act) -> bool
    ensures { result ≡ act_makes act.now }
{
    matches!(
        act,
        Act::Order(_) | Act::Spawn(_) | Act::Mail(Mail::Open(_, _))
    )
}

// Whether an alias can stand for what the line makes.
fn makes(line: &Line) -> bool
    ensures { result ≡ makes line.now }
{
    match line {
        Line::Node {
            request: Request::Job(Job::Proc),
            ..
        } => true,
        Line::Node {
            request: Request::Job(Job::By(_, act)),
            ..
        } => act_makes(act),
        Line::Node {
            request: Request::Job(Job::Member(_, _) | Job::Arrive(_)),
            ..
        } => false,
        Line::Node {
            request: Request::Begin(_, _)
            | Request::Deliver(_)
            | Request::BeginDeliver(_)
            | Request::Tell
            | Request::Save
            | Request::Publish
            | Request::Cancel
            | Request::Restart { .. }
            | Request::Text
            | Request::Check(_),
            ..
        } => false,
        Line::Union { .. } | Line::Audit | Line::Aliases => false,
    }
}

// The words before `as $x`, and the alias. `None` where words do not end so.
fn split_alias<'a, 'b>(words: &'a [&'b str]) -> Option<Named<'a, 'b>>
    ensures { let said = map (λ w. w.now) words.now in
        MatchOption result
        ((front : List Word) (alias : List ℕ) → EndsInAlias front alias said → ⊥)
        (λ named. EndsInAlias (map (λ w. w.now) named.front.now) named.alias said) }
{
    let [front @ .., word, last] = words else {
        return None;
    };
    let b"as" = word.as_bytes() else {
        return None;
    };
    let alias = Alias::from_word(last)?;
    Some(Named { front, alias })
}

// The line that the kept words spell with the parts of the text behind them that are so long.
fn parted_line<'a>(
    alloc: Global,
    kept: &[&'a str],
    text: &'a str,
    lengths: &[usize],
) -> Result<Line, Unread>
    requires parts { CanPart lengths.now text.now }
    requires room { length kept.now + length lengths.now ≤ 8 }
    ensures { Reads result (λ line.
        Spells line (map (λ w. w.now) kept.now ++ parts_of lengths.now text.now)) }
{
    let mut words = ArrayVec::new();
    for word in kept {
        words.push(*word);
    }
    place_parts(text, lengths, &mut words);
    line_from_words(alloc, words.as_slice())
}

// The line that the words spell with each alias in them replaced. Takes memory for what a line of
// the replaced words takes, and for these where the text has no room for them.
fn replaced_line<'a>(
    alloc: Global,
    aliases: &'a Aliases,
    words: &[&'a str],
    text: &mut String,
) -> Result<Line, Unread>
    ensures ok { Reads result (λ line.
        SpellsReplaced aliases.now line (map (λ w. w.now) words.now)) }
    ensures memory { StarvesIf result (WantsMemory (map (λ w. w.now) words.now)) }
{
    if words.len() > MOST_LINE_WORDS {
        return Err(Unread::Bad);
    }
    let mut placed = ArrayVec::new();
    if place_kept(aliases, words, &mut placed) {
        return line_from_words(alloc, placed.as_slice());
    }
    let mut lengths = ArrayVec::new();
    build(aliases, &words[placed.len()..], text, &mut lengths)?;
    parted_line(alloc, placed.as_slice(), text.as_str(), lengths.as_slice())
}

// The line that the words before `as $x` spell. `Bad` where they spell no line that makes
// something, or no more aliases can be set.
fn named_line(
    alloc: Global,
    aliases: &Aliases,
    front: &[&str],
    text: &mut String,
) -> Result<Line, Unread>
    ensures ok { Reads result (λ line.
        CanBeNamed aliases.now line (map (λ w. w.now) front.now)) }
    ensures memory { StarvesIf result (WantsMemory (map (λ w. w.now) front.now)) }
{
    if aliases.is_full() {
        return Err(Unread::Bad);
    }
    let line = replaced_line(alloc, aliases, front, text)?;
    if !makes(&line) {
        return Err(Unread::Bad);
    }
    Ok(line)
}

/// What the words say where these aliases are set. `Bad` where they say nothing. Words in which
/// aliases are replaced are put into the text, in place of what it held.
pub(crate) fn meaning_of(
    alloc: Global,
    aliases: &Aliases,
    words: &[&str],
    text: &mut String,
) -> Result<Meaning, Unread>
    ensures ok { Reads result (λ meaning.
        WordsSay aliases.now meaning.line meaning.alias (map (λ w. w.now) words.now)) }
    ensures memory { StarvesIf result (WordsTakeMemory (map (λ w. w.now) words.now)) }
{
    let Some(named) = split_alias(words) else {
        let line = replaced_line(alloc, aliases, words, text)?;
        return Ok(Meaning { line, alias: None });
    };
    let line = named_line(alloc, aliases, named.front, text)?;
    Ok(Meaning {
        line,
        alias: Some(named.alias),
    })
}
