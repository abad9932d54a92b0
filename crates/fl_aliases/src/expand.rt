//! Aliases replaced in a line.
ghost use Rattle.std.specs.Prelude.{◌≡◌, ◌<◌, ◌++◌, ◌∷◌, ℕ, List, None, IfOk, IfSome, IfNone, OnOk, MatchOption, length, slice_index, take};
ghost use Rattle.std.specs.Bool.{MatchBool};
ghost use Rattle.std.specs.String.{string_bytes};
ghost use Rattle.std.specs.List.{prefix_len};
ghost use Rattle.fl_aliases.specs.Alias.{is_letter, IsAlias, IsAliasWord};
ghost use Rattle.fl_aliases.specs.Expansion.{Expands, ExpandsBehind, NoDollar, NoLetterFirst};
ghost use Rattle.fl_aliases.specs.Table.{target_of};

use crate::alias::{Alias, MOST_ALIAS_LETTERS, is_letter};
use crate::table::Aliases;
use std::alloc::AllocError;

// How many letters stand at the front of the text.
fn letters_in_front(text: &str) -> usize
    ensures { result ≡ prefix_len is_letter text.now }
{
    text.bytes().take_while(|byte| is_letter(*byte)).count()
}

// An alias that stood at the front of a text, and the text behind it.
#[derive(Clone, Copy)]
struct Front<'a> {
    alias: Alias,
    behind: &'a str,
}

// The alias that all the letters at the front of the text make. `None` where they make none.
fn split_alias(text: &str) -> Option<Front<'_>>
    ensures some { IfSome result (λ front.
        (text.now ≡ front.alias ++ front.behind.now) × IsAlias front.alias
        × NoLetterFirst front.behind.now) }
    ensures none { IfNone result ((letters rest : List ℕ) →
        IsAlias letters → NoLetterFirst rest → text.now ≡ letters ++ rest → ⊥) }
{
    let count = letters_in_front(text);
    if count == 0 || count > MOST_ALIAS_LETTERS {
        return None;
    }
    let (letters, behind) = text.split_at(count);
    let alias = Alias::of_letters(letters.as_bytes());
    Some(Front { alias, behind })
}

// Where the first `$` of a word stands. A search that is made for long texts costs more.
fn dollar_at(word: &[u8]) -> Option<usize>
    ensures { MatchOption result (NoDollar word.now) (λ at.
        (at < length word.now) × (slice_index word.now at ≡ 36) × NoDollar (take at word.now)) }
{
    word.iter().position(|byte| *byte == b'$')
}

// What stands before the first `$` of a text, and behind it.
fn split_dollar(text: &str) -> Option<(&str, &str)>
    ensures { MatchOption result (NoDollar text.now) (λ parts.
        (text.now ≡ parts.0.now ++ 36 ∷ parts.1.now) × NoDollar parts.0.now) }
{
    match dollar_at(text.as_bytes()) {
        None => None,
        Some(at) => Some((text.split_at(at).0, text.split_at(at + 1).1)),
    }
}

// Most words have nothing before their alias and nothing behind it.
fn push_part(buffer: &mut String, part: &str) -> Result<(), AllocError>
    ensures { OnOk result (string_bytes buffer.new ≡ string_bytes buffer.old ++ part.now) }
{
    if part.is_empty() {
        return Ok(());
    }
    buffer.push_str(part)
}

/// Writes into the buffer, behind what it holds, the line with each alias in it replaced by the
/// text of what it stands for, and answers whether this could be done: not where a `$` has no 1 to
/// 32 letters behind it, or these are an alias that is not set. What was replaced is not looked at
/// again. One look at each byte.
///
/// An error is want of memory for the buffer. After an error or `false` the buffer holds any text.
pub fn expand(aliases: &Aliases, line: &str, buffer: &mut String) -> Result<bool, AllocError>
    ensures { IfOk result (λ done. MatchBool done
        (ExpandsBehind aliases.now line.now (string_bytes buffer.old) (string_bytes buffer.new))
        ((out : List ℕ) → Expands aliases.now line.now out → ⊥)) }
{
    let mut rest = line;
    while let Some((plain, behind)) = split_dollar(rest) {
        push_part(buffer, plain)?;
        let Some(front) = split_alias(behind) else {
            return Ok(false);
        };
        let Some(text) = aliases.text_of(&front.alias) else {
            return Ok(false);
        };
        buffer.push_str(text)?;
        rest = front.behind;
    }
    push_part(buffer, rest)?;
    Ok(true)
}

/// What a line that is one alias expands to, as it is kept. `None` of any other line, and where the
/// alias is not set. One look-up, and no memory.
pub fn kept_expansion<'a>(aliases: &'a Aliases, line: &str) -> Option<&'a str>
    ensures some { IfSome result (λ text. Expands aliases.now line.now text.now) }
    ensures none { IfNone result ((letters : List ℕ) →
        IsAliasWord letters line.now → target_of aliases.now letters ≡ None) }
{
    let alias = Alias::from_word(line)?;
    let text = aliases.text_of(&alias)?;
    Some(text)
}
