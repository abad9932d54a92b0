//! Packets that come.
ghost use Rattle.std.specs.Prelude.{◌≡◌, ℕ, List, MatchOption, MatchResult};
ghost use Rattle.fl_sealed_packets.specs.Coming.{Brings, IsUnread};
ghost use Rattle.fl_sealed_packets.specs.Sealing.{IsOpened};

use fl_seal::seal::{Key, unsealed};
use fl_wire::fault::ReadFault;
use fl_wire::packet::Packet;
use fl_wire::reading::decode;
use std::alloc::Global;

// The bytes without their seal, which one of the keys made; without a key, all of them.
fn opened<'a>(keys: &[Key], bytes: &'a [u8]) -> Option<&'a [u8]>
    ensures { MatchOption result ((plain : List ℕ) → ¬ IsOpened keys.now bytes.now plain)
        (λ plain. IsOpened keys.now bytes.now plain.now) }
{
    if keys.is_empty() {
        return Some(bytes);
    }
    unsealed(keys, bytes)
}

/// The packet that the bytes bring, which one of the keys has sealed, or, where there is none, the
/// one that all of them spell. Linear, and for each key that does not open them once more; takes
/// memory as [`decode`] does, and none before a key has opened them.
///
/// - `BadPacket` at 0 where no key opens them; and where they spell no packet, as [`decode`] has
///   it.
/// - `Memory` only where they spell a packet, and there is not enough memory for it.
pub fn read_packet(alloc: Global, keys: &[Key], bytes: &[u8]) -> Result<Packet, ReadFault>
    ensures { MatchResult result (Brings keys.now bytes.now) (IsUnread keys.now bytes.now) }
{
    match opened(keys, bytes) {
        Some(plain) => decode(alloc, plain),
        None => Err(ReadFault::BadPacket { place: 0 }),
    }
}
