//! Secrets of logins.
ghost use Rattle.std.specs.Prelude.{◌≡◌, length};

use std::fmt;

/// What a login is entered by. No text shows its bytes.
#[derive(Clone, Copy, PartialEq, Eq)]
pub struct Secret {
    pub bytes: [u8; 32],
    pub ghost sized: { length bytes ≡ 32 },
}

impl fmt::Debug for Secret {
    fn fmt<W: fmt::Write>(&self, f: &mut fmt::Formatter<W>) -> fmt::Result {
        f.write_str("Secret")
    }
}
