//! Fields of packets from bytes.
ghost use Rattle.std.specs.Prelude.{◌≡◌, ◌<◌, ◌≤◌, ◌+◌, ◌^◌, MatchResult, true, false, drop, None, ◌∷◌, ◌++◌};
ghost use Rattle.std.specs.Int.{w16, w32, to_be_bytes};
ghost use Rattle.fl_ops.specs.Format.{node_width, node_size, node_limit};
ghost use Rattle.fl_ops.specs.Bytes.{name_bytes, name_size, cap_bytes, cap_size};
ghost use Rattle.fl_ops.specs.Fits.{HasName, HasCap};
ghost use Rattle.fl_ops.specs.Grammar.{has_name, first_fault};
ghost use Rattle.fl_wire.specs.Faults.{IsBad};
ghost use Rattle.fl_wire.specs.Fields.{short_at, long_at, has_node, has_short, has_long, has_cap, pid_size, pid_fields, tag_key, cap_key};
ghost use Rattle.fl_wire.specs.parts.Items.{name_key, key_of_cap};
ghost use Rattle.fl_wire.specs.PacketBytes.{pid_bytes};
ghost use Rattle.fl_wire.specs.PacketFits.{HasPid};
ghost use Rattle.fl_wire.specs.PacketGrammar.{end_fields, end_size, packet_format};

use crate::fault::ReadFault;
use fl_labels::cap::Cap;
use fl_labels::endpoint::Endpoint;
use fl_labels::name::Name;
use fl_labels::pid::Pid;
use fl_ops::fields::{self, byte_at, cap_at, name_at};
use fl_ops::format::Format;

// The format that the byte of a packet says.
pub(crate) fn format_of(byte: u8) -> Format
    ensures { result ≡ packet_format byte }
{
    if byte == 0xf1 {
        Format::One
    } else {
        Format::Two
    }
}

// The number that two bytes spell, where it is one from `low` to `high`.
pub(crate) fn short_at(bytes: &[u8], at: usize, low: u16, high: u16) -> Result<u16, ReadFault>
    requires { at < 2 ^ 32 }
    ensures { MatchResult result
        (λ n. (has_short bytes.now at low high ≡ true) × (n ≡ short_at bytes.now at)
        × (low ≤ n) × (n ≤ high)
        × (drop at bytes.now ≡ to_be_bytes w16 n ++ drop (at + 2) bytes.now))
        (λ f. (has_short bytes.now at low high ≡ false) × (f ≡ ReadFault.BadPacket at)) }
{
    let Some(field) = bytes.get(at..at + 2) else {
        return Err(ReadFault::BadPacket { place: at });
    };
    let number = u16::from_be_bytes([field[0], field[1]]);
    if number < low || high < number {
        return Err(ReadFault::BadPacket { place: at });
    }
    Ok(number)
}

// The number that four bytes spell, where it is not 0.
pub(crate) fn long_at(bytes: &[u8], at: usize) -> Result<u32, ReadFault>
    requires { at < 2 ^ 32 }
    ensures { MatchResult result
        (λ n. (has_long bytes.now at ≡ true) × (0 < n) × (n < 2 ^ 32)
        × (drop at bytes.now ≡ to_be_bytes w32 n ++ drop (at + 4) bytes.now))
        (λ f. (has_long bytes.now at ≡ false) × (f ≡ ReadFault.BadPacket at)) }
{
    let Some(field) = bytes.get(at..at + 4) else {
        return Err(ReadFault::BadPacket { place: at });
    };
    let number = u32::from_be_bytes([field[0], field[1], field[2], field[3]]);
    if number == 0 {
        return Err(ReadFault::BadPacket { place: at });
    }
    Ok(number)
}

// The node at a place, which is not 0.
fn node_at(format: Format, bytes: &[u8], at: usize) -> Result<u32, ReadFault>
    requires { at < 2 ^ 32 }
    ensures { MatchResult result
        (λ n. (has_node format bytes.now at ≡ true) × (0 < n) × (n < node_limit format)
        × (drop at bytes.now ≡ to_be_bytes (node_width format) n
        ++ drop (at + node_size format) bytes.now))
        (λ f. (has_node format bytes.now at ≡ false) × (f ≡ ReadFault.BadPacket at)) }
{
    if bytes.len() < at + format.node_size() {
        return Err(ReadFault::BadPacket { place: at });
    }
    let node = fields::node_at(format, bytes, at);
    if node == 0 {
        return Err(ReadFault::BadPacket { place: at });
    }
    Ok(node)
}

// The tag at a place.
pub(crate) fn tag_at(format: Format, bytes: &[u8], at: usize) -> Result<Name, ReadFault>
    requires { at < 2 ^ 32 }
    ensures { MatchResult result
        (λ n. (has_name format bytes.now at ≡ true) × HasName format n
        × (tag_key format bytes.now at ≡ name_key n)
        × (drop at bytes.now ≡ name_bytes format n ++ drop (at + name_size format) bytes.now))
        (λ f. (has_name format bytes.now at ≡ false) × (f ≡ ReadFault.BadPacket at)) }
{
    Ok(name_at(format, bytes, at)?)
}

// The capability at a place. The fault of one is at its first byte.
pub(crate) fn whole_cap_at(format: Format, bytes: &[u8], at: usize) -> Result<Cap, ReadFault>
    requires { at < 2 ^ 31 }
    ensures { MatchResult result
        (λ c. (has_cap format bytes.now at ≡ true) × HasCap format c
        × (cap_key format bytes.now at ≡ key_of_cap c)
        × (drop at bytes.now ≡ cap_bytes format c ++ drop (at + cap_size format) bytes.now))
        (λ f. (has_cap format bytes.now at ≡ false) × (f ≡ ReadFault.BadPacket at)) }
{
    match cap_at(format, bytes, at) {
        Ok(cap) => Ok(cap),
        Err(_) => Err(ReadFault::BadPacket { place: at }),
    }
}

// The process at a place.
fn pid_at(format: Format, bytes: &[u8], at: usize) -> Result<Pid, ReadFault>
    requires { at < 2 ^ 31 }
    ensures { MatchResult result
        (λ p. (first_fault (pid_fields format bytes.now at) ≡ None) × HasPid format p
        × (drop at bytes.now ≡ pid_bytes format p ++ drop (at + pid_size format) bytes.now))
        (IsBad (pid_fields format bytes.now at)) }
{
    let node = node_at(format, bytes, at)?;
    let place = at + format.node_size();
    let boot = long_at(bytes, place)?;
    let serial = long_at(bytes, place + 4)?;
    Ok(Pid { node, boot, serial })
}

// A process and one of its endpoints.
pub(crate) fn end_at(format: Format, bytes: &[u8], at: usize) -> Result<(Pid, Endpoint), ReadFault>
    requires { at < 2 ^ 31 }
    ensures { MatchResult result
        (λ x. (first_fault (end_fields format bytes.now at) ≡ None) × HasPid format x.0
        × (drop at bytes.now ≡ pid_bytes format x.0
        ++ x.1.number ∷ drop (at + end_size format) bytes.now))
        (IsBad (end_fields format bytes.now at)) }
{
    let pid = pid_at(format, bytes, at)?;
    let number = byte_at(bytes, at + format.node_size() + 8, 1, 64)?;
    let endpoint = Endpoint {
        number: u32::from(number),
    };
    Ok((pid, endpoint))
}
