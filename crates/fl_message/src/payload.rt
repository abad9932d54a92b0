//! Bytes that processes send, or let out.
ghost use Rattle.std.specs.Prelude.{◌≡◌, ◌<◌, [], length, IfOk, OnErr};

use smallvec::SmallVec;
use std::alloc::{AllocError, Global};
use std::marker::Model;

/// How many bytes take no block of their own.
pub const FEW_BYTES: usize = 16;

/// Some bytes, which stand in place where they are few. Contracts see these alone.
#[derive(Debug, Drop)]
pub struct Payload {
    bytes: SmallVec<u8, FEW_BYTES>,
}

impl Model for Payload {
    ghost use Rattle.std.specs.Prelude.{List, ℕ};

    ghost Value = { List ℕ };

    ghost view = { λ a. a.bytes.items };
}

impl Payload {
    /// No bytes. Takes no memory.
    pub fn new(alloc: Global) -> Self
        ensures { result ≡ [] }
    {
        Payload {
            bytes: SmallVec::new(alloc),
        }
    }

    /// These bytes. Copies them, and fails only where they are more than 16 and there is not enough
    /// memory.
    pub fn from_slice(alloc: Global, bytes: &[u8]) -> Result<Self, AllocError>
        ensures ok { IfOk result (λ made. made ≡ bytes.now) }
        ensures err { OnErr result (16 < length bytes.now) }
    {
        Ok(Payload {
            bytes: SmallVec::from_slice(alloc, bytes)?,
        })
    }

    /// These bytes. Takes no memory: copies them where they are few, and else keeps their block.
    pub fn from_vec(bytes: Vec<u8>) -> Self
        ensures { result ≡ bytes.items }
    {
        Payload {
            bytes: SmallVec::from_vec(bytes),
        }
    }

    /// The bytes.
    pub fn as_slice(&self) -> &[u8]
        ensures { result.now ≡ self.now }
    {
        self.bytes.as_slice()
    }
}

impl PartialEq for Payload {
    ghost use Rattle.std.specs.Prelude.{nat_eq};
    ghost use Rattle.std.specs.Cmp.{partial_equiv_from_equiv};
    ghost use Rattle.std.specs.Cmp.Lexicographic.{pointwise, nat_list_eq_equiv};

    ghost eq = { λ a b. pointwise nat_eq a b };

    ghost laws = { partial_equiv_from_equiv nat_list_eq_equiv };

    fn eq(&self, other: &Self) -> bool {
        self.as_slice() == other.as_slice()
    }
}

impl Eq for Payload {
    ghost use Rattle.std.specs.Cmp.Lexicographic.{nat_list_eq_equiv};

    ghost laws = { nat_list_eq_equiv };
}
