//! What a key is spelled by.
ghost use Rattle.std.specs.Prelude.{◌≡◌, ℕ, List, IfSome, MatchOption};
ghost use Rattle.fl_keys.specs.KeyText.{SpellsKey, without_feed};

use fl_seal::seal::Key;
use hex::FromHex;

// The text without the line feed at its end, if it has one.
fn without_feed(text: &[u8]) -> &[u8]
    ensures { result.now ≡ without_feed text.now }
{
    match text {
        [front @ .., b'\n'] => front,
        _ => text,
    }
}

/// The key that a text spells: 64 hexadecimal digits, upper or lower case, and perhaps a line feed
/// behind them. `None` exactly of any other text. Linear; takes no memory.
pub fn key_from(text: &[u8]) -> Option<Key>
    ensures spells { MatchOption result ((key : List ℕ) → ¬ SpellsKey text.now key)
        (λ key. SpellsKey text.now key.bytes) }
    ensures one { IfSome result (λ found. (key : List ℕ) → SpellsKey text.now key
        → key ≡ found.bytes) }
{
    match <[u8; 32] as FromHex>::from_hex(without_feed(text)) {
        Ok(bytes) => Some(Key { bytes }),
        Err(_) => None,
    }
}
