//! Lines are cut into words at spaces.
ghost use Rattle.std.specs.Prelude.{◌≡◌, ◌<◌, ◌+◌, ◌⊎◌, ◌∷◌, ◌++◌, [], length, map, IfSome, OnSome, MatchOption};
ghost use Rattle.std.specs.Bool.{MatchBool, OnTrue, OnFalse};
ghost use Rattle.std.specs.Str.{IsAscii};
ghost use Rattle.fl_aliases.specs.Expansion.{NoDollar};
ghost use Rattle.fl_aliases.specs.Words.{full_pieces, words_of};

use arrayvec::ArrayVec;

/// The most words that a line of the script has.
pub const MOST_LINE_WORDS: usize = 8;

// Adds a piece that is not empty, and answers whether there was room for it.
fn push_piece<'a, const MOST: usize>(words: &mut ArrayVec<&'a str, MOST>, piece: &'a [u8]) -> bool
    requires { IsAscii piece.now }
    ensures pushed { OnTrue result (map (λ w. w.now) words.new.items
        ≡ map (λ w. w.now) words.old.items ++ full_pieces (piece.now ∷ [])) }
    ensures full { OnFalse result
        (MOST < length (map (λ w. w.now) words.old.items) + length (full_pieces (piece.now ∷ []))) }
{
    if piece.is_empty() {
        return true;
    }
    if words.is_full() {
        return false;
    }
    words.push(unsafe { str::from_utf8_unchecked(piece) });
    true
}

/// Adds the words of a line, and answers whether a `$` stands in it. None where it has more words
/// than there is room for, or a byte beyond ASCII, which no word of the script has. Looks at each
/// byte once, and takes no memory.
pub fn cut_line<'a, const MOST: usize>(
    line: &'a [u8],
    words: &mut ArrayVec<&'a str, MOST>,
) -> Option<bool>
    requires { words.old.items ≡ [] }
    ensures words { let cut = words_of line.now in
        MatchOption result ((MOST < length cut) ⊎ (¬ IsAscii line.now))
        (λ _. map (λ w. w.now) words.new.items ≡ cut) }
    ensures ascii { OnSome result (IsAscii line.now) }
    ensures dollar { IfSome result (λ has_dollar.
        MatchBool has_dollar (¬ NoDollar line.now) (NoDollar line.now)) }
{
    let mut has_dollar = false;
    let mut start = 0;
    for (at, byte) in line.iter().enumerate() {
        // Most bytes come behind a space and a `$`, and are looked at no further.
        if matches!(byte, b'%'..=0x7f) {
            continue;
        }
        if !byte.is_ascii() {
            return None;
        }
        if *byte == b'$' {
            has_dollar = true;
        }
        if *byte != b' ' {
            continue;
        }
        if !push_piece(words, &line[start..at]) {
            return None;
        }
        start = at + 1;
    }
    if !push_piece(words, &line[start..]) {
        return None;
    }
    Some(has_dollar)
}
