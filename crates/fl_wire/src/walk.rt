//! The first fault of bytes, for which no memory is taken. The fields are those of the readers.
ghost use Rattle.std.specs.Prelude.{◌≡◌, ◌<◌, ◌≤◌, ◌+◌, ◌*◌, ◌^◌, MatchResult, nat_le, length, slice_index, Some, None, [], ◌∷◌};
ghost use Rattle.fl_ops.specs.Format.{last_kind};
ghost use Rattle.fl_ops.specs.Bytes.{name_size, cap_size, body_place};
ghost use Rattle.fl_ops.specs.Grammar.{body_fields, first_fault};
ghost use Rattle.fl_wire.specs.Faults.{IsBad};
ghost use Rattle.fl_wire.specs.Fields.{tag_key};
ghost use Rattle.fl_wire.specs.PacketGrammar.{tag_fields, label_fields, after_label, each_cap, caps_fields, after_caps, payload_fields, message_fields, content_fields, data_fields, next_op, op_size, ops_fields, batch_fields, spans_fields, window_fields, packet_fields};
ghost use Rattle.fl_wire.specs.parts.Items.{key_before, name_key};
ghost use Rattle.fl_wire.specs.parts.Walked.{AreWalked, AreWalkedTo};

use crate::fault::ReadFault;
use crate::fields::{end_at, format_of, short_at, tag_at};
use crate::items::{cap_above, tag_above};
use crate::whole::digest_at;
use crate::window::span_at;
use fl_labels::name::Name;
use fl_ops::fault::BadField;
use fl_ops::fields::{byte_at, cap_at, name_at};
use fl_ops::format::Format;
use fl_opset::rank::{last_rank_of, rank};

// That the bytes end at a place.
fn end_of(bytes: &[u8], at: usize) -> Result<(), ReadFault>
    ensures { AreWalked ((at, nat_le (length bytes.now) at) ∷ []) result }
{
    if at < bytes.len() {
        return Err(ReadFault::BadPacket { place: at });
    }
    Ok(())
}

// Where so many tags from a place on end, which rise.
fn walk_tags(format: Format, bytes: &[u8], at: usize, count: usize) -> Result<usize, ReadFault>
    requires place { at < 2 ^ 31 }
    requires few { count ≤ 256 }
    ensures { AreWalkedTo (tag_fields format bytes.now at count) (at + name_size format * count)
        result }
{
    let mut before = None;
    let mut place = at;
    for i in 0..count {
        let tag = tag_above(format, bytes, place, before)?;
        before = Some(tag);
        place += format.name_size();
    }
    Ok(place)
}

// Where the label at a place ends.
fn walk_label(format: Format, bytes: &[u8], at: usize) -> Result<usize, ReadFault>
    requires { at < 2 ^ 30 }
    ensures { AreWalkedTo (label_fields format bytes.now at) (after_label format bytes.now at)
        result }
{
    let count = usize::from(short_at(bytes, at, 0, 256)?);
    walk_tags(format, bytes, at + 2, count)
}

// Where so many capabilities from a place on end, which rise.
fn walk_each_cap(format: Format, bytes: &[u8], at: usize, count: usize) -> Result<usize, ReadFault>
    requires place { at < 2 ^ 30 }
    requires few { count ≤ 64 }
    ensures { AreWalkedTo (each_cap format bytes.now at count) (at + cap_size format * count)
        result }
{
    let mut before = None;
    let mut place = at;
    for i in 0..count {
        let cap = cap_above(format, bytes, place, before)?;
        before = Some(cap);
        place += format.cap_size();
    }
    Ok(place)
}

// Where the set of capabilities at a place ends.
fn walk_caps(format: Format, bytes: &[u8], at: usize) -> Result<usize, ReadFault>
    requires { at < 2 ^ 29 }
    ensures { AreWalkedTo (caps_fields format bytes.now at) (after_caps format bytes.now at)
        result }
{
    let count = usize::from(byte_at(bytes, at, 0, 64)?);
    walk_each_cap(format, bytes, at + 1, count)
}

// The payload, and the end of the bytes after it.
fn walk_payload(bytes: &[u8], at: usize) -> Result<(), ReadFault>
    requires { at < 2 ^ 31 }
    ensures { AreWalked (payload_fields bytes.now at) result }
{
    let start = at + 2;
    let end = start + usize::from(short_at(bytes, at, 0, 1024)?);
    if bytes.len() < end {
        return Err(ReadFault::BadPacket { place: start });
    }
    end_of(bytes, end)
}

// The message, which ends the bytes.
fn walk_message(format: Format, bytes: &[u8], at: usize) -> Result<(), ReadFault>
    requires { at < 2 ^ 29 }
    ensures { AreWalked (message_fields format bytes.now at) result }
{
    let place = walk_caps(format, bytes, at)?;
    walk_payload(bytes, place)
}

// The labels and the message, which end the bytes.
fn walk_content(format: Format, bytes: &[u8], at: usize) -> Result<(), ReadFault>
    requires { at < 2 ^ 28 }
    ensures { AreWalked (content_fields format bytes.now at) result }
{
    let second = walk_label(format, bytes, at)?;
    let third = walk_label(format, bytes, second)?;
    walk_message(format, bytes, third)
}

// The ends, the labels and the message, which end the bytes.
fn walk_data(format: Format, bytes: &[u8]) -> Result<(), ReadFault>
    ensures { AreWalked (data_fields format bytes.now 2) result }
{
    let size = format.node_size() + 9;
    end_at(format, bytes, 2)?;
    end_at(format, bytes, 2 + size)?;
    walk_content(format, bytes, 2 + 2 * size)
}

// Where the body of this kind at a place ends.
fn walk_body(format: Format, bytes: &[u8], kind: u8, at: usize) -> Result<usize, BadField>
    requires low { 1 ≤ kind }
    requires high { kind ≤ last_kind format }
    requires place { at < 2 ^ 30 }
    ensures { MatchResult result
        (λ end. (first_fault (body_fields format bytes.now kind at) ≡ None)
        × (end + body_place format ≡ at + op_size format kind) × (end ≤ at + 41))
        (λ f. first_fault (body_fields format bytes.now kind at) ≡ Some f.place) }
{
    match kind {
        1 => {
            byte_at(bytes, at, 1, 3)?;
            Ok(at + 1)
        }
        2 => Ok(at),
        3 => {
            let middle = at + format.name_size();
            name_at(format, bytes, at)?;
            cap_at(format, bytes, middle)?;
            Ok(middle + format.cap_size())
        }
        4 => {
            let middle = at + format.cap_size();
            cap_at(format, bytes, at)?;
            digest_at(bytes, middle)?;
            Ok(middle + 32)
        }
        _ => {
            name_at(format, bytes, at)?;
            Ok(at + format.name_size())
        }
    }
}

// The name of the operation at a place, which is above the one before it, and where it ends.
fn walk_op(
    format: Format,
    bytes: &[u8],
    at: usize,
    before: Option<Name>,
) -> Result<(Name, usize), ReadFault>
    requires { at < 2 ^ 29 }
    ensures { let fields = next_op format bytes.now at (key_before name_key before) in
        MatchResult result
        (λ x. (first_fault fields ≡ None)
        × (tag_key format bytes.now (at + 2) ≡ name_key x.0)
        × (at + op_size format (slice_index bytes.now (at + 1)) ≡ x.1)
        × (x.1 ≤ at + 51))
        (IsBad fields) }
{
    byte_at(bytes, at, format.number(), format.number())?;
    let kind = byte_at(bytes, at + 1, 1, format.last_kind())?;
    let name = tag_above(format, bytes, at + 2, before)?;
    let end = walk_body(format, bytes, kind, at + format.body_place())?;
    Ok((name, end))
}

// So many operations, up to the end of the bytes.
fn walk_ops(format: Format, bytes: &[u8], at: usize, count: usize) -> Result<(), ReadFault>
    requires place { at < 2 ^ 28 }
    requires few { count ≤ 64 }
    ensures { AreWalked (ops_fields format bytes.now at [] count) result }
{
    let mut before = None;
    let mut place = at;
    for i in 0..count {
        let (name, end) = walk_op(format, bytes, place, before)?;
        before = Some(name);
        place = end;
    }
    end_of(bytes, place)
}

// How many operations there are, and each, which end the bytes.
fn walk_batch(format: Format, bytes: &[u8]) -> Result<(), ReadFault>
    ensures { AreWalked (batch_fields format bytes.now 2) result }
{
    let count = usize::from(byte_at(bytes, 2, 1, 64)?);
    walk_ops(format, bytes, 3, count)
}

// So many spans, up to the end of the bytes.
fn walk_spans(
    format: Format,
    bytes: &[u8],
    at: usize,
    count: usize,
    from: u64,
    to: u64,
) -> Result<(), ReadFault>
    requires place { at < 2 ^ 30 }
    requires few { count ≤ 512 }
    ensures { AreWalked (spans_fields format bytes.now at from to count) result }
{
    let mut low = from;
    let mut place = at;
    for i in 0..count {
        let span = span_at(format, bytes, place, low, to)?;
        low = last_rank_of(&span) + 2;
        place += format.name_size() + 4;
    }
    end_of(bytes, place)
}

// The two ends of a window, how many spans it has, and each, which end the bytes.
fn walk_window(format: Format, bytes: &[u8]) -> Result<(), ReadFault>
    ensures { AreWalked (window_fields format bytes.now 2) result }
{
    let size = format.name_size();
    let from = tag_at(format, bytes, 2)?;
    let to = tag_at(format, bytes, 2 + size)?;
    if rank(to) < rank(from) {
        return Err(ReadFault::BadPacket { place: 2 + size });
    }
    let count = usize::from(short_at(bytes, 2 + 2 * size, 0, 512)?);
    let place = 2 + (2 * size + 2);
    walk_spans(format, bytes, place, count, rank(from), rank(to))
}

// A packet, which ends the bytes.
pub(crate) fn walk_packet(bytes: &[u8]) -> Result<(), ReadFault>
    ensures { AreWalked (packet_fields bytes.now) result }
{
    let format = format_of(byte_at(bytes, 0, 0xf1, 0xf2)?);
    match byte_at(bytes, 1, 1, 4)? {
        1 => walk_batch(format, bytes),
        2 => walk_window(format, bytes),
        3 => walk_batch(format, bytes),
        _ => walk_data(format, bytes),
    }
}
