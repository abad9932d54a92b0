//! Packets from bytes.
ghost use Rattle.std.specs.Prelude.{◌≡◌, ◌<◌, ◌≤◌, ◌+◌, ◌^◌, ◌*◌, IfOk, OnErr, MatchResult, length, drop, slice_index, None, ◌++◌};
ghost use Rattle.fl_ops.specs.Grammar.{first_fault};
ghost use Rattle.fl_wire.specs.Fields.{short_at};
ghost use Rattle.fl_wire.specs.Faults.{IsBadOrMemory, IsBadOrMemoryAfter, IsFaultOrMemory};
ghost use Rattle.fl_wire.specs.PacketFits.{HasCaps, HasData, HasPacket};
ghost use Rattle.fl_wire.specs.PacketBytes.{payload_bytes, message_bytes, data_bytes, packet_bytes};
ghost use Rattle.fl_wire.specs.PacketGrammar.{payload_fields, message_kept, message_fields, data_head, data_kept, data_fields, packet_head, packet_kept, packet_fields, packet_format};

use crate::fault::ReadFault;
use crate::fields::{end_at, format_of, short_at};
use crate::items::{caps_at, label_at};
use crate::ops::batch_at;
use crate::packet::Packet;
use crate::walk::walk_packet;
use crate::window::window_at;
use fl_message::message::{Data, Message};
use fl_message::payload::Payload;
use fl_message::shared::Shared;
use fl_ops::fields::byte_at;
use fl_ops::format::Format;
use std::alloc::{AllocError, Global};

// How many bytes so many items of a size take.
fn sized(size: usize, count: usize) -> usize
    requires size { size ≤ 9 }
    requires count { count ≤ 256 }
    ensures { result ≡ size * count }
{
    size * count
}

// The bytes again. No bytes take no memory.
fn copied(alloc: Global, bytes: &[u8]) -> Result<Vec<u8>, AllocError>
    ensures items { IfOk result (λ made. made.items ≡ bytes.now) }
    ensures wants { OnErr result (0 < length bytes.now) }
{
    let mut made = Vec::with_capacity(alloc, bytes.len())?;
    made.extend_from_slice(bytes)?;
    Ok(made)
}

// The payload, and the end of the bytes after it.
fn payload_at(alloc: Global, bytes: &[u8], at: usize) -> Result<Payload, ReadFault>
    requires { at < 2 ^ 31 }
    ensures { MatchResult result
        (λ p. (first_fault (payload_fields bytes.now at) ≡ None) × (length p ≤ 1024)
        × (drop at bytes.now ≡ payload_bytes p))
        (IsBadOrMemory (short_at bytes.now at) (payload_fields bytes.now at)) }
{
    let start = at + 2;
    let end = start + usize::from(short_at(bytes, at, 0, 1024)?);
    let Some(field) = bytes.get(start..end) else {
        return Err(ReadFault::BadPacket { place: start });
    };
    if end < bytes.len() {
        return Err(ReadFault::BadPacket { place: end });
    }
    Ok(Payload::from_vec(copied(alloc, field)?))
}

// The message, which ends the bytes.
fn message_at(
    alloc: Global,
    format: Format,
    bytes: &[u8],
    at: usize,
) -> Result<Shared<Message>, ReadFault>
    requires { at < 2 ^ 29 }
    ensures { MatchResult result
        (λ m. (first_fault (message_fields format bytes.now at) ≡ None)
        × HasCaps format m.caps × (drop at bytes.now ≡ message_bytes format m))
        (IsBadOrMemory (message_kept format bytes.now at) (message_fields format bytes.now at)) }
{
    let caps = caps_at(alloc, format, bytes, at)?;
    let payload = payload_at(
        alloc,
        bytes,
        at + (1 + sized(format.cap_size(), caps.len())),
    )?;
    let message = Shared::new(alloc, Message { caps, payload })?;
    Ok(message)
}

// The message with its ends and its labels, which ends the bytes.
fn data_at(alloc: Global, format: Format, bytes: &[u8]) -> Result<Data, ReadFault>
    ensures { MatchResult result
        (λ d. (first_fault (data_fields format bytes.now 2) ≡ None) × HasData format d
        × (drop 2 bytes.now ≡ data_bytes format d))
        (IsBadOrMemoryAfter (data_head format bytes.now 2) (data_kept format bytes.now 2)
        (data_fields format bytes.now 2)) }
{
    let end = format.node_size() + 9;
    let (sender, from) = end_at(format, bytes, 2)?;
    let (receiver, to) = end_at(format, bytes, 2 + end)?;
    let first = 2 + 2 * end;
    let secrecy = label_at(alloc, format, bytes, first)?;
    let second = first + (2 + sized(format.name_size(), secrecy.len()));
    let integrity = label_at(alloc, format, bytes, second)?;
    let third = second + (2 + sized(format.name_size(), integrity.len()));
    let message = message_at(alloc, format, bytes, third)?;
    Ok(Data {
        sender,
        from,
        receiver,
        to,
        secrecy,
        integrity,
        message,
    })
}

// The packet that the bytes spell, in either format. Takes no memory before the head is right: the
// format, the kind, and what stands before the first set, operation or span.
fn packet_at(alloc: Global, bytes: &[u8]) -> Result<Packet, ReadFault>
    ensures { MatchResult result
        (λ packet. let f = packet_format (slice_index bytes.now 0) in
        HasPacket f packet × (packet_bytes f packet ≡ bytes.now))
        (IsBadOrMemoryAfter (packet_head bytes.now) (packet_kept bytes.now)
        (packet_fields bytes.now)) }
{
    let format = format_of(byte_at(bytes, 0, 0xf1, 0xf2)?);
    match byte_at(bytes, 1, 1, 4)? {
        1 => Ok(Packet::Full(batch_at(alloc, format, bytes, 2)?)),
        2 => Ok(Packet::Have(window_at(alloc, format, bytes, 2)?)),
        3 => Ok(Packet::Delta(batch_at(alloc, format, bytes, 2)?)),
        _ => Ok(Packet::Data(data_at(alloc, format, bytes)?)),
    }
}

/// The packet that the bytes spell, all of them, in either format. Linear, and takes memory for the
/// sets, the operations, the spans and the message alone, none before the head is right: the
/// format, the kind, and what stands before the first of these. So none of a window without spans.
/// Where memory is refused, the bytes are looked through once more, for which none is taken.
///
/// `BadPacket` where no packet spells them, at the first byte of the first field that is cut off,
/// out of its range or against a rule with what came before it, or at the first byte after the
/// packet's end. `Memory` only where a packet spells them, and there is not enough memory for it.
pub fn decode(alloc: Global, bytes: &[u8]) -> Result<Packet, ReadFault>
    ensures { MatchResult result
        (λ packet. let f = packet_format (slice_index bytes.now 0) in
        HasPacket f packet × (packet_bytes f packet ≡ bytes.now))
        (IsFaultOrMemory (packet_fields bytes.now) (packet_kept bytes.now)) }
{
    match packet_at(alloc, bytes) {
        Err(ReadFault::Memory) => {
            walk_packet(bytes)?;
            Err(ReadFault::Memory)
        }
        read => read,
    }
}
