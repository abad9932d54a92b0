//! Reading a key.
ghost use Rattle.std.specs.Prelude.{◌≡◌, ◌↔◌, ℕ, List, Err, IfOk, IfSome, IsTrue, bit_and};
ghost use Rattle.fl_keys.specs.KeyText.{SpellsKey};

use crate::fault::{KeyFault, of_system};
use crate::text::key_from;
use fl_seal::seal::Key;
use std::alloc::Global;
use std::io::Read;

/// One byte more than a key's longest text has.
const MOST_READ: u64 = 66;

/// Those of a file's rights that others than its owner have.
const OF_OTHERS: u32 = 0o077;

/// Whether nobody but its owner has rights to a file of this mode.
pub fn is_private(mode: u32) -> bool
    ensures { IsTrue result ↔ (bit_and mode 0o077 ≡ 0) }
{
    mode & OF_OTHERS == 0
}

/// The key that is all that a reader has. Reads 66 bytes at most.
///
/// `NoKey` exactly where it is no key's text; `Memory` where there is none for the text; and
/// `System` with the reader's error.
pub fn read_key<R: Read + Drop>(alloc: Global, input: R) -> Result<Key, KeyFault>
    ensures key { IfOk result (λ key. IfSome (R.remaining input)
        (λ text. SpellsKey text key.bytes)) }
    ensures none { result ≡ Err KeyFault.NoKey → IfSome (R.remaining input)
        (λ text. (key : List ℕ) → ¬ SpellsKey text key) }
{
    let mut text = Vec::new(alloc);
    let mut front = input.take(MOST_READ);
    match front.read_to_end(&mut text) {
        Ok(_) => match key_from(&text) {
            Some(key) => Ok(key),
            None => Err(KeyFault::NoKey),
        },
        Err(error) => Err(of_system(error)),
    }
}
