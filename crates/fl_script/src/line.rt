//! Lines of the script.
ghost use Rattle.std.specs.Prelude.{ℕ, ◌∷◌, map, codes};
ghost use Rattle.fl_labels.specs.Found.{Finds};
ghost use Rattle.fl_labels.specs.Words.{IsNumber};
ghost use Rattle.fl_script.specs.parts.Reads.{Reads, StarvesIf};
ghost use Rattle.fl_script.specs.Grammar.{HoldsBlock, Spells};

use crate::request::{Request, request_from_words};
use crate::unread::Unread;
use fl_labels::name::NodeNumber;
use fl_labels::text::read_number;
use std::alloc::Global;

/// A line that asks something of one node, of two, or of none. A line that was read names nodes
/// from 1 to 4,294,967,295.
#[derive(Drop)]
pub enum Line {
    /// Something is asked of the node.
    Node {
        node: NodeNumber,
        request: Request,
    },
    /// What both nodes have published is to be written together.
    Union {
        first: NodeNumber,
        second: NodeNumber,
    },
    /// How much was admitted is to be written.
    Audit,
    /// The aliases that are set are to be written.
    Aliases,
}

fn union_line(rest: &[&str]) -> Option<Line>
    ensures { Finds result (λ l. Spells l (codes "union" ∷ map (λ w. w.now) rest.now)) }
{
    let [first, second] = rest else { return None };
    let first = read_number(first)?;
    let second = read_number(second)?;
    Some(Line::Union { first, second })
}

// The line of no node that a word and those behind it spell.
fn other_line(first: &str, rest: &[&str]) -> Option<Line>
    requires { (n : ℕ) → IsNumber n first.now → ⊥ }
    ensures { Finds result (λ l. Spells l (first.now ∷ map (λ w. w.now) rest.now)) }
{
    match (first, rest) {
        ("union", rest) => union_line(rest),
        ("audit", []) => Some(Line::Audit),
        ("aliases", []) => Some(Line::Aliases),
        _ => None,
    }
}

// The line that a word and those behind it spell.
#[inline(always)]
fn line_behind(alloc: Global, first: &str, rest: &[&str]) -> Result<Line, Unread>
    ensures ok { Reads result (λ l. Spells l (first.now ∷ map (λ w. w.now) rest.now)) }
    ensures memory { StarvesIf result (HoldsBlock (first.now ∷ map (λ w. w.now) rest.now)) }
{
    // Most lines ask something of a node, and then no other words are looked for.
    let Some(node) = read_number(first) else {
        return other_line(first, rest).ok_or(Unread::Bad);
    };
    let [verb, rest @ ..] = rest else {
        return Err(Unread::Bad);
    };
    let request = request_from_words(alloc, verb, rest)?;
    Ok(Line::Node { node, request })
}

/// The line that the words spell. `Bad` where they spell no line. Takes memory for a label of two
/// tags at least, for capabilities, for the labels of an endpoint and for bytes.
#[inline(always)]
pub fn line_from_words(alloc: Global, words: &[&str]) -> Result<Line, Unread>
    ensures ok { Reads result (λ l. Spells l (map (λ w. w.now) words.now)) }
    ensures memory { StarvesIf result (HoldsBlock (map (λ w. w.now) words.now)) }
{
    match words {
        [] => Err(Unread::Bad),
        [first, rest @ ..] => line_behind(alloc, first, rest),
    }
}
