//! What the bytes of a line say.
ghost use Rattle.std.specs.Prelude.{◌≡◌, ◌↔◌, IsTrue, IfOk, MatchOption, OnErr};
ghost use Rattle.fl_script.specs.Reading.{first_mark, IsQuiet, IsReading, IsText, ReadingTakesMemory};

use crate::cut::{MOST_LINE_WORDS, cut_line};
use crate::line::{Line, line_from_words};
use crate::meaning::{Meaning, meaning_of};
use crate::unread::Unread;
use arrayvec::ArrayVec;
use fl_aliases::alias::Alias;
use fl_aliases::table::Aliases;
use std::alloc::{AllocError, Global};

/// The most bytes of a line that asks for an answer.
pub const MOST_LINE_BYTES: usize = 20000;

/// What a line says.
#[derive(Drop)]
pub enum Reading {
    /// An empty line or a comment: nothing is answered.
    Quiet,
    /// No line of the script.
    Bad,
    /// A line of the script, and the alias that is to stand for what it makes, if one is.
    Means { line: Line, alias: Option<Alias> },
}

// The first byte that is no space.
fn first_byte(bytes: &[u8]) -> Option<u8>
    ensures { result ≡ first_mark bytes.now }
{
    bytes.iter().copied().find(|byte| *byte != b' ')
}

/// Whether the line is empty or a comment. Looks no further than the first byte that is no space.
pub fn is_quiet(bytes: &[u8]) -> bool
    ensures { IsTrue result ↔ IsQuiet bytes.now }
{
    match first_byte(bytes) {
        None | Some(b'#') => true,
        Some(_) => false,
    }
}

/// What the bytes of a line, which have no line feed, say where these aliases are set.
///
/// `Quiet` comes first, whatever else the bytes are. `Bad` is a line of more than
/// [`MOST_LINE_BYTES`], one that is no UTF-8, and one whose words, with the aliases in them
/// replaced, are those of no form. A line that makes something may end in `as $x`, with an alias
/// that is not replaced, where fewer than 1,024 are set; else such a line is `Bad`.
///
/// Words in which aliases are replaced are put into the text, in place of what it held, so that
/// lines share its memory.
///
/// Looks at each byte a few times at most, and takes no memory but that of the replaced words,
/// where an alias is in one before `as $x` and the text has no room for them, of what a `spawn`,
/// `emit`, `open`, `tune`, `send` or `check` line holds, and of a `label` line of two tags at
/// least; where this is refused, the line is not read.
pub fn read_line(
    alloc: Global,
    aliases: &Aliases,
    bytes: &[u8],
    text: &mut String,
) -> Result<Reading, AllocError>
    ensures ok { IfOk result (λ reading. IsReading aliases.now bytes.now reading) }
    ensures err { OnErr result (ReadingTakesMemory bytes.now) }
{
    if is_quiet(bytes) {
        return Ok(Reading::Quiet);
    }
    if bytes.len() > MOST_LINE_BYTES {
        return Ok(Reading::Bad);
    }
    let mut cut: ArrayVec<&str, MOST_LINE_WORDS> = ArrayVec::new();
    let Some(has_dollar) = cut_line(bytes, &mut cut) else {
        return Ok(Reading::Bad);
    };
    let words = cut.as_slice();
    // Most lines have no alias, and then no word is looked at for one.
    if !has_dollar {
        return match line_from_words(alloc, words) {
            Ok(line) => Ok(Reading::Means { line, alias: None }),
            Err(Unread::Bad) => Ok(Reading::Bad),
            Err(Unread::Memory) => Err(AllocError),
        };
    }
    match meaning_of(alloc, aliases, words, text) {
        Ok(Meaning { line, alias }) => Ok(Reading::Means { line, alias }),
        Err(Unread::Bad) => Ok(Reading::Bad),
        Err(Unread::Memory) => Err(AllocError),
    }
}
