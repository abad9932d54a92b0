//! Aliases.
ghost use Rattle.std.specs.Prelude.{◌≡◌, ◌↔◌, IsTrue, true, IfSome, IfNone};
ghost use Rattle.fl_labels.specs.Found.{Finds};
ghost use Rattle.fl_aliases.specs.Alias.{is_letter, IsAlias, IsAliasWord};

use std::fmt;
use std::hash::{Hash, Hasher};
use std::marker::Model;

/// The most letters of an alias.
pub const MOST_ALIAS_LETTERS: usize = 32;

/// Whether the byte is a letter of aliases: a-z, 0-9 or `_`.
pub fn is_letter(byte: u8) -> bool
    ensures { result ≡ is_letter byte }
{
    if byte >= b'a' {
        return byte <= b'z';
    }
    byte.is_ascii_digit() || byte == b'_'
}

fn is_alias(bytes: &[u8]) -> bool
    ensures { IsTrue result ↔ IsAlias bytes.now }
{
    !bytes.is_empty()
        && bytes.len() <= MOST_ALIAS_LETTERS
        && bytes.iter().all(|byte| is_letter(*byte))
}

/// What a line calls something by: 1 to 32 letters, written behind a `$`. Contracts see the
/// letters.
#[derive(Clone, Copy)]
pub struct Alias {
    // Zeros from `len` on, so that equal aliases are equal values.
    bytes: [u8; MOST_ALIAS_LETTERS],
    len: usize,
}

impl Model for Alias {
    ghost use Rattle.std.specs.Prelude.{◌≡◌, ℕ, List, length, take};
    ghost use Rattle.std.proofs.Common.{sym};
    ghost use Rattle.fl_aliases.specs.Alias.{IsAlias, padded};

    ghost Value = { List ℕ };

    ghost view = { λ a. take a.len a.bytes };

    ghost invariant = { λ a. let letters = take a.len a.bytes in
        (a.bytes ≡ padded letters) × (length letters ≡ a.len) × IsAlias letters };

    ghost inverse = { λ letters. record { bytes = padded letters; len = length letters } };

    ghost inverse_ok = { λ a h i. record { bytes = sym h.0 i; len = h.1 i } };
}

impl Alias {
    /// The alias of these letters, which are 1 to 32.
    pub(crate) fn of_letters(letters: &[u8]) -> Self
        requires { IsAlias letters.now }
        ensures { result ≡ letters.now }
    {
        let mut bytes = [0; MOST_ALIAS_LETTERS];
        bytes[..letters.len()].copy_from_slice(letters);
        Alias {
            bytes,
            len: letters.len(),
        }
    }

    /// The alias of these letters. `None` where they are no 1 to 32 letters.
    pub(crate) fn from_letters(letters: &[u8]) -> Option<Self>
        ensures some { IfSome result (λ alias. (alias ≡ letters.now) × IsAlias letters.now) }
        ensures none { IfNone result (¬ IsAlias letters.now) }
    {
        if !is_alias(letters) {
            return None;
        }
        Some(Alias::of_letters(letters))
    }

    /// The alias that a word such as `$a` spells. `None` of any other word.
    pub fn from_word(word: &str) -> Option<Self>
        ensures { Finds result (λ alias. IsAliasWord alias word.now) }
    {
        let [b'$', letters @ ..] = word.as_bytes() else {
            return None;
        };
        Alias::from_letters(letters)
    }

    fn letters(&self) -> &[u8]
        ensures letters { result.now ≡ self.now }
        ensures alias { IsAlias self.now }
    {
        &self.bytes[..self.len]
    }

    /// The letters.
    pub fn as_str(&self) -> &str
        ensures letters { result.now ≡ self.now }
        ensures alias { IsAlias self.now }
    {
        str::from_utf8(self.letters()).unwrap()
    }
}

impl PartialEq for Alias {
    ghost use Rattle.std.specs.Prelude.{nat_eq};
    ghost use Rattle.std.specs.Cmp.{partial_equiv_from_equiv};
    ghost use Rattle.std.specs.Cmp.Lexicographic.{pointwise, nat_list_eq_equiv};

    ghost eq = { λ a b. pointwise nat_eq a b };

    ghost laws = { partial_equiv_from_equiv nat_list_eq_equiv };

    fn eq(&self, other: &Self) -> bool {
        // With the zeros, since their count is then known, and so costs less.
        self.bytes == other.bytes
    }
}

impl Eq for Alias {
    ghost use Rattle.std.specs.Cmp.Lexicographic.{nat_list_eq_equiv};

    ghost laws = { nat_list_eq_equiv };
}

impl Hash for Alias {
    ghost use Rattle.std.specs.Prelude.{[], ◌∷◌, nat_eq};
    ghost use Rattle.std.specs.Cmp.Rules.{hashing};
    ghost use Rattle.std.proofs.Common.{rules};

    // All letters at once, since a write of each costs more than the look-up.
    ghost hash_input = { λ letters. letters ∷ [] };

    ghost respects_eq = { Prim.search (hashing, rules) };

    fn hash<H: Hasher>(&self, state: &mut H) {
        state.write(self.letters());
    }
}

impl fmt::Display for Alias {
    ghost use Rattle.std.specs.Prelude.{Some};
    ghost use Rattle.fl_aliases.specs.Alias.{alias_text};

    ghost output = { λ letters. Some (alias_text letters) };

    fn fmt<W: fmt::Write>(&self, f: &mut fmt::Formatter<W>) -> fmt::Result {
        write!(f, "${}", self.as_str())
    }
}

impl fmt::Debug for Alias {
    fn fmt<W: fmt::Write>(&self, f: &mut fmt::Formatter<W>) -> fmt::Result {
        fmt::Display::fmt(self, f)
    }
}
