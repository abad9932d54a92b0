//! What the bytes of a line say to the machine of a number.
ghost use Rattle.std.specs.Prelude.{[], ◌∷◌, IfOk, OnErr, map};
ghost use Rattle.fl_labels.specs.Found.{Finds};
ghost use Rattle.fl_machine_lines.specs.Grammar.{IsEchoed, Spells, TakesBlock};
ghost use Rattle.fl_script.specs.Grammar.{Matches};
ghost use Rattle.fl_machine_lines.specs.Reading.{IsReading, ReadingTakesMemory};
ghost use Rattle.fl_script.specs.parts.Reads.{Reads, StarvesIf};

use crate::asked::{Asked, asked_from_words};
use arrayvec::ArrayVec;
use fl_labels::name::NodeNumber;
use fl_script::cut::cut_line;
use fl_script::reading::{MOST_LINE_BYTES, is_quiet};
use fl_script::unread::Unread;
use std::alloc::{AllocError, Global};

/// The most bytes of a word that comes back.
pub const MOST_ECHO_BYTES: usize = 256;

// The most words that a line has: `could`, and the words of a script's line.
const MOST_LINE_WORDS: usize = 9;

/// What a line says to a machine.
#[derive(Drop)]
pub enum MachineLine<'a> {
    /// An empty line or a comment: nothing is answered.
    Quiet,
    /// No line of a machine, or not of this one.
    Bad,
    /// The word is to come back. It has at most [`MOST_ECHO_BYTES`].
    Echo(&'a str),
    /// How much was admitted is to be written.
    Audit,
    /// Something is asked of the node.
    Asks(Asked),
}

// The only word, which is to come back, or none where it is too long or not alone.
fn echoed<'a>(rest: &[&'a str]) -> Option<&'a str>
    ensures { Finds result (λ word. Matches (IsEchoed word.now ∷ []) (map (λ w. w.now) rest.now)) }
{
    let [word] = rest else { return None };
    if word.len() > MOST_ECHO_BYTES {
        return None;
    }
    Some(word)
}

// What the words of a line say. `Bad` where they spell no line of this machine.
fn meaning<'a>(
    alloc: Global,
    number: NodeNumber,
    words: &[&'a str],
) -> Result<MachineLine<'a>, Unread>
    ensures ok { Reads result (λ line. Spells number line (map (λ w. w.now) words.now)) }
    ensures memory { StarvesIf result (TakesBlock (map (λ w. w.now) words.now)) }
{
    let [first, rest @ ..] = words else {
        return Err(Unread::Bad);
    };
    match *first {
        "echo" => match echoed(rest) {
            Some(word) => Ok(MachineLine::Echo(word)),
            None => Err(Unread::Bad),
        },
        "audit" => match rest {
            [] => Ok(MachineLine::Audit),
            [_, ..] => Err(Unread::Bad),
        },
        _ => match asked_from_words(alloc, number, words) {
            Ok(asked) => Ok(MachineLine::Asks(asked)),
            Err(unread) => Err(unread),
        },
    }
}

/// What the bytes of a line, which have no line feed, say to the machine of this number.
///
/// As a script's lines are read (`fl_script::reading::read_line`) where no alias is set, with these
/// differences. The number in front must be the machine's own. `receive`, `begin receive`, `could`,
/// `missing` and those of an [`Explanation`] are verbs of a node, and `echo` is a line. `deliver`,
/// `begin deliver`, `restart`, `union` and `aliases` are none, and neither is a line with a `$`.
///
/// `Quiet` comes first, whatever else the bytes are. `Bad` is a line of more than
/// [`MOST_LINE_BYTES`], one with a `$` or a byte beyond ASCII, and one whose words are those of no
/// form.
///
/// Looks at each byte a few times at most, and takes no memory but that of what a `spawn`, `emit`,
/// `open`, `tune`, `send`, `check`, `receive` or `begin receive` line holds, and of a `label` line
/// of two tags at least, also behind `could` or `missing`; where this is refused, the line is not
/// read.
///
/// [`Explanation`]: crate::explaining::Explanation
pub fn read_machine_line<'a>(
    alloc: Global,
    number: NodeNumber,
    bytes: &'a [u8],
) -> Result<MachineLine<'a>, AllocError>
    ensures ok { IfOk result (λ line. IsReading number bytes.now line) }
    ensures err { OnErr result (ReadingTakesMemory bytes.now) }
{
    if is_quiet(bytes) {
        return Ok(MachineLine::Quiet);
    }
    if bytes.len() > MOST_LINE_BYTES {
        return Ok(MachineLine::Bad);
    }
    let mut cut: ArrayVec<&str, MOST_LINE_WORDS> = ArrayVec::new();
    let Some(has_dollar) = cut_line(bytes, &mut cut) else {
        return Ok(MachineLine::Bad);
    };
    if has_dollar {
        return Ok(MachineLine::Bad);
    }
    match meaning(alloc, number, cut.as_slice()) {
        Ok(line) => Ok(line),
        Err(Unread::Bad) => Ok(MachineLine::Bad),
        Err(Unread::Memory) => Err(AllocError),
    }
}
