//! Lists in braces.
ghost use Rattle.std.specs.Prelude.{◌≡◌, ◌≢◌, ℕ, IfSome, IfNone, IfOk, IsErrOf, List, [], ◌∷◌, ◌++◌, map};
ghost use Rattle.std.specs.List.{join_with_byte};
ghost use Rattle.fl_labels.specs.Found.{Finds};
ghost use Rattle.fl_labels.specs.Text.{name_text, cap_text, braces};
ghost use Rattle.fl_labels.specs.Words.{NoComma};

use crate::cap::Cap;
use crate::error::SetError;
use crate::name::Name;
use crate::text::{read_cap, read_name};
use std::alloc::Global;

/// What a list in braces may hold: each has a text with no comma in it.
pub trait Item: Copy + Drop {
    ghost text: { Self → List ℕ };

    /// The item that a word spells. `None` of any other word.
    fn read(word: &str) -> Option<Self>
        ensures { Finds result (λ item. word.now ≡ text item) };

    ghost no_comma: { (item : Self) → NoComma (text item) };
}

impl Item for Name {
    ghost use Rattle.fl_labels.specs.ItemText.{no_comma-name_text};

    ghost text = { name_text };

    ghost no_comma = { no_comma-name_text };

    fn read(word: &str) -> Option<Self> {
        read_name(word)
    }
}

impl Item for Cap {
    ghost use Rattle.fl_labels.specs.ItemText.{no_comma-cap_text};

    ghost text = { cap_text };

    ghost no_comma = { no_comma-cap_text };

    fn read(word: &str) -> Option<Self> {
        read_cap(word)
    }
}

/// What stands between braces round the whole text.
pub(crate) fn inner_of(text: &str) -> Option<&str>
    ensures some { IfSome result (λ inner. text.now ≡ 123 ∷ (inner.now ++ 125 ∷ [])) }
    ensures none { IfNone result ((inner : List ℕ) → text.now ≢ 123 ∷ (inner ++ 125 ∷ [])) }
{
    match text.as_bytes() {
        [first, .., last] if *first == b'{' && *last == b'}' => Some(&text[1..text.len() - 1]),
        _ => None,
    }
}

/// The items that a text spells, with commas between them.
pub(crate) fn read_parts<T: Item>(alloc: Global, inner: &str) -> Result<Vec<T>, SetError>
    ensures ok { IfOk result (λ items. inner.now ≡ join_with_byte 44 (map T.text items.items)) }
    ensures bad_text { IsErrOf result SetError.BadText
        → (items : List T) → inner.now ≢ join_with_byte 44 (map T.text items) }
    ensures never_too_long { IsErrOf result SetError.TooLong → ⊥ }
    ensures some { IsErrOf result SetError.Memory → inner.now ≢ [] }
    ensures one { IsErrOf result SetError.Memory → NoComma inner.now
        → (item : T) × (inner.now ≡ T.text item) }
{
    let mut items = Vec::new(alloc);
    if inner.is_empty() {
        return Ok(items);
    }
    let mut start = 0;
    for (at, byte) in inner.as_bytes().iter().enumerate() {
        if *byte != b',' {
            continue;
        }
        let item = T::read(&inner[start..at]).ok_or(SetError::BadText)?;
        items.push(item)?;
        start = at + 1;
    }
    let last = T::read(&inner[start..]).ok_or(SetError::BadText)?;
    items.push(last)?;
    Ok(items)
}

/// The items that a text such as `{1.1,1.4}` spells, in their order.
///
/// `BadText` of a text that is no list of such items in braces with commas between them and no
/// spaces, `Memory` of one that holds something.
pub fn read_items<T: Item>(alloc: Global, text: &str) -> Result<Vec<T>, SetError>
    ensures ok { IfOk result (λ items. text.now ≡ braces T.text items.items) }
    ensures bad_text { IsErrOf result SetError.BadText → (items : List T)
        → text.now ≢ braces T.text items }
    ensures never_too_long { IsErrOf result SetError.TooLong → ⊥ }
    ensures memory { IsErrOf result SetError.Memory → text.now ≢ braces T.text [] }
{
    let inner = inner_of(text).ok_or(SetError::BadText)?;
    read_parts(alloc, inner)
}
