//! Seals of packets, and what is sealed.
ghost use Rattle.std.specs.Prelude.{◌≡◌, ◌++◌, ℕ, List, MatchOption, OnErr, OnOk, bit_xor, length};
ghost use Rattle.fl_labels.specs.Found.{Tells};
ghost use Rattle.fl_seal.specs.Seal.{IsSealed, hmac_sha256, seal, sealed, turned};

use sha2::{Digest, Sha256};
use std::alloc::{AllocError, Global};

/// A key of 32 bytes.
#[derive(Clone, Copy)]
pub struct Key {
    pub bytes: [u8; 32],
}

/// How many bytes a seal has.
pub const SEAL_BYTES: usize = 32;

// What stands before a packet, so that the seal of something else is none of a packet.
const PURPOSE: &[u8] = b"flume-packet-1\n";

// Its bytes with these bits turned.
fn turned(bytes: [u8; 32], bits: u8) -> [u8; 32]
    ensures { result ≡ turned bytes bits }
{
    let mut result = bytes;
    for at in 0..32 {
        result[at] = bytes[at] ^ bits;
    }
    result
}

/// The HMAC-SHA256 of what two texts make together. Linear; takes no memory.
pub fn hmac_of(key: Key, first: &[u8], second: &[u8]) -> [u8; 32]
    ensures { result ≡ hmac_sha256 key.bytes (first.now ++ second.now) }
{
    let mut inner = Sha256::new();
    inner.update(turned(key.bytes, 0x36));
    inner.update([0x36; 32]);
    inner.update(first);
    inner.update(second);
    let mut outer = Sha256::new();
    outer.update(turned(key.bytes, 0x5c));
    outer.update([0x5c; 32]);
    outer.update(inner.finalize());
    outer.finalize()
}

/// The seal of a packet. Linear; takes no memory.
pub fn seal_of(key: Key, packet: &[u8]) -> [u8; 32]
    ensures { result ≡ seal key.bytes packet.now }
{
    hmac_of(key, PURPOSE, packet)
}

/// Puts the seal of a packet behind it. Linear. Fails only where there is no memory for that, and
/// then leaves it.
pub fn put_seal(key: Key, packet: &mut Vec<u8>) -> Result<(), AllocError>
    ensures ok { OnOk result (packet.new.items ≡ sealed key.bytes packet.old.items) }
    ensures err { OnErr result (packet.new.items ≡ packet.old.items) }
{
    let seal = seal_of(key, packet);
    packet.extend_from_slice(&seal)
}

// Whether two seals are the same. Looks at all bytes of both, whatever they are.
fn are_same(one: &[u8; 32], other: &[u8]) -> bool
    requires { length other.now ≡ 32 }
    ensures { Tells result (one.now ≡ other.now) }
{
    let mut differing = 0;
    for at in 0..SEAL_BYTES {
        differing |= one[at] ^ other[at];
    }
    differing == 0
}

/// The packet that stands before the last 32 bytes, where these are its seal by one of the keys.
/// `None` of any other bytes. Linear for each key, until one fits; takes no memory.
pub fn unsealed<'a>(keys: &[Key], bytes: &'a [u8]) -> Option<&'a [u8]>
    ensures { MatchOption result ((packet : List ℕ) → ¬ IsSealed keys.now bytes.now packet)
        (λ packet. IsSealed keys.now bytes.now packet.now) }
{
    if bytes.len() < SEAL_BYTES {
        return None;
    }
    let (packet, seal) = bytes.split_at(bytes.len() - SEAL_BYTES);
    for key in keys {
        if are_same(&seal_of(*key, packet), seal) {
            return Some(packet);
        }
    }
    None
}
