//! Packets that go.
ghost use Rattle.std.specs.Prelude.{◌≡◌, ◌<◌, IfOk, OnErr, length, map};
ghost use Rattle.fl_sealed_packets.specs.Sealing.{sent_bytes};

use fl_seal::seal::{Key, put_seal};
use fl_wire::packet::Packet;
use fl_wire::writing::encode;
use std::alloc::{AllocError, Global};

/// The bytes as which a packet is sent, sealed by the first of the keys, if there is one. Linear.
/// An error says that there was no memory for them.
pub fn bytes_to_send(alloc: Global, keys: &[Key], packet: &Packet) -> Result<Vec<u8>, AllocError>
    ensures { IfOk result (λ bytes. bytes.items ≡ sent_bytes keys.now packet.now) }
{
    let mut bytes = encode(alloc, packet)?;
    if let [key, ..] = keys {
        put_seal(*key, &mut bytes)?;
    }
    Ok(bytes)
}

/// The same of each packet, in their order. Linear. An error comes only where there is a packet.
pub fn each_to_send(
    alloc: Global,
    keys: &[Key],
    packets: &[Packet],
) -> Result<Vec<Vec<u8>>, AllocError>
    ensures ok { IfOk result (λ all.
        map (λ bytes. bytes.items) all.items ≡ map (sent_bytes keys.now) packets.now) }
    ensures wants { OnErr result (0 < length packets.now) }
{
    let mut all = Vec::new(alloc);
    for packet in packets {
        all.push(bytes_to_send(alloc, keys, packet)?)?;
    }
    Ok(all)
}
