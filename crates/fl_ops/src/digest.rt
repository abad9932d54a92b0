//! Digests of secrets.
ghost use Rattle.std.specs.Prelude.{◌≡◌, length};

/// What is kept of a login's secret.
#[derive(Clone, Copy, Debug, PartialEq, Eq)]
pub struct Digest {
    /// The 32 bytes of the secret's SHA-256.
    pub bytes: [u8; 32],
    pub ghost sized: { length bytes ≡ 32 },
}
