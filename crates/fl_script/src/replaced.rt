//! Words in which aliases are replaced.
ghost use Rattle.std.specs.Prelude.{◌≡◌, ◌↔◌, ◌<◌, ◌≤◌, ◌+◌, ◌++◌, List, [], IfOk, IfErr, IfSome, IfNone, IsTrue, length, map, take, OnOk};
ghost use Rattle.std.specs.Bool.{MatchBool, OnFalse};
ghost use Rattle.std.specs.List.{All, AllZip};
ghost use Rattle.std.specs.String.{string_bytes};
ghost use Rattle.fl_aliases.specs.Expansion.{Expands, NoDollar};
ghost use Rattle.fl_aliases.specs.Words.{Word};
ghost use Rattle.fl_script.specs.declared.unread.Unread.TheVariants.{Bad};
ghost use Rattle.fl_script.specs.parts.Parts.{BuiltOf, CanPart, parts_of};

use crate::cut::MOST_LINE_WORDS;
use crate::unread::Unread;
use arrayvec::ArrayVec;
use fl_aliases::expand::{expand, kept_expansion};
use fl_aliases::table::Aliases;

// Whether no `$` stands in the word. A search that is made for long texts costs more.
fn is_plain(word: &str) -> bool
    ensures { IsTrue result ↔ NoDollar word.now }
{
    word.as_bytes().iter().all(|byte| *byte != b'$')
}

// What the word becomes, where this is kept elsewhere. `None` only of a word that has an alias.
fn kept_word<'a>(aliases: &'a Aliases, word: &'a str) -> Option<&'a str>
    ensures some { IfSome result (λ text. Expands aliases.now word.now text.now) }
    ensures none { IfNone result (¬ NoDollar word.now) }
{
    if is_plain(word) {
        return Some(word);
    }
    kept_expansion(aliases, word)
}

/// Adds what each word becomes, up to the first word of which this is not kept elsewhere, and
/// answers whether there is no such word. Takes no memory.
pub(crate) fn place_kept<'a>(
    aliases: &'a Aliases,
    words: &[&'a str],
    placed: &mut ArrayVec<&'a str, MOST_LINE_WORDS>,
) -> bool
    requires few { length words.now ≤ 8 }
    requires empty { placed.old.items ≡ [] }
    ensures kept { AllZip (Expands aliases.now)
        (take (length placed.new.items) (map (λ w. w.now) words.now))
        (map (λ w. w.now) placed.new.items) }
    ensures count { MatchBool result (length placed.new.items ≡ length words.now)
        (length placed.new.items < length words.now) }
    ensures dollar { OnFalse result (¬ All NoDollar (map (λ w. w.now) words.now)) }
{
    for word in words {
        let Some(text) = kept_word(aliases, word) else {
            return false;
        };
        placed.push(text);
    }
    true
}

/// Puts what the words become into the text, one behind the other, in place of what it held. Adds
/// how long each is. `Bad` where a word becomes nothing. Takes memory where the text has no room
/// for them.
pub(crate) fn build(
    aliases: &Aliases,
    words: &[&str],
    text: &mut String,
    lengths: &mut ArrayVec<usize, MOST_LINE_WORDS>,
) -> Result<(), Unread>
    requires few { length words.now ≤ 8 }
    requires empty { lengths.old.items ≡ [] }
    ensures ok { OnOk result (BuiltOf aliases.now (map (λ w. w.now) words.now)
        lengths.new.items (string_bytes text.new)) }
    ensures bad { let said = map (λ w. w.now) words.now in
        IfErr result (λ e. e ≡ Bad → (texts : List Word) →
        AllZip (Expands aliases.now) said texts → ⊥) }
{
    text.clear();
    for word in words {
        let start = text.len();
        if !expand(aliases, word, text)? {
            return Err(Unread::Bad);
        }
        lengths.push(text.len() - start);
    }
    Ok(())
}

/// Adds the parts of the text that are so long.
pub(crate) fn place_parts<'a>(
    text: &'a str,
    lengths: &[usize],
    placed: &mut ArrayVec<&'a str, MOST_LINE_WORDS>,
)
    requires parts { CanPart lengths.now text.now }
    requires room { length placed.old.items + length lengths.now ≤ 8 }
    ensures { map (λ w. w.now) placed.new.items
        ≡ map (λ w. w.now) placed.old.items ++ parts_of lengths.now text.now }
{
    let mut rest = text;
    for length in lengths {
        let (part, behind) = rest.split_at(*length);
        placed.push(part);
        rest = behind;
    }
}
