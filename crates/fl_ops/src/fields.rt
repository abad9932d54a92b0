//! Names and capabilities as fields of bytes, read and written.
ghost use Rattle.std.specs.Prelude.{◌≡◌, ◌<◌, ◌≤◌, ◌+◌, ◌^◌, MatchResult, OnOk, OnErr, true, false, slice_index, drop, length, Some, None, ◌∷◌, ◌++◌};
ghost use Rattle.std.specs.Int.{to_be_bytes};
ghost use Rattle.std.specs.Vec.{vec_len, vec_capacity};
ghost use Rattle.fl_ops.specs.Format.{format_byte, node_width, node_size, node_limit};
ghost use Rattle.fl_ops.specs.Bytes.{name_bytes, cap_bytes, name_size, cap_size};
ghost use Rattle.fl_ops.specs.Fits.{HasName, HasCap};
ghost use Rattle.fl_ops.specs.Grammar.{cap_fields, has_byte, format_of, node_at, has_name, first_fault};
ghost use Rattle.fl_ops.specs.declared.format.Format.TheVariants.{Two};

use crate::fault::BadField;
use crate::format::Format;
use fl_labels::cap::Cap;
use fl_labels::name::Name;
use std::alloc::AllocError;

/// The byte at a place, where it is one from `low` to `high`.
pub fn byte_at(bytes: &[u8], at: usize, low: u8, high: u8) -> Result<u8, BadField>
    requires { at < 2 ^ 32 }
    ensures { MatchResult result
        (λ b. (has_byte bytes.now at low high ≡ true) × (b ≡ slice_index bytes.now at) × (low ≤ b)
        × (b ≤ high)
        × (drop at bytes.now ≡ b ∷ drop (at + 1) bytes.now))
        (λ f. (has_byte bytes.now at low high ≡ false) × (f.place ≡ at)) }
{
    match bytes.get(at) {
        Some(byte) if (low..=high).contains(byte) => Ok(*byte),
        _ => Err(BadField { place: at }),
    }
}

/// The format that the byte at a place says.
pub fn format_at(bytes: &[u8], at: usize) -> Result<Format, BadField>
    requires { at < 2 ^ 32 }
    ensures { MatchResult result
        (λ f. (has_byte bytes.now at 1 2 ≡ true) × (f ≡ format_of (slice_index bytes.now at))
        × (drop at bytes.now ≡ format_byte f ∷ drop (at + 1) bytes.now))
        (λ f. (has_byte bytes.now at 1 2 ≡ false) × (f.place ≡ at)) }
{
    Ok(match byte_at(bytes, at, 1, 2)? {
        1 => Format::One,
        _ => Format::Two,
    })
}

/// The number that the bytes of a node spell.
pub fn node_at(format: Format, bytes: &[u8], at: usize) -> u32
    requires { at + node_size format ≤ length bytes.now }
    ensures value { result ≡ node_at format bytes.now at }
    ensures fits { result < node_limit format }
    ensures spelled { drop at bytes.now
        ≡ to_be_bytes (node_width format) result ++ drop (at + node_size format) bytes.now }
{
    match format {
        Format::One => {
            let field = &bytes[at..at + 2];
            u32::from(u16::from_be_bytes([field[0], field[1]]))
        }
        Format::Two => {
            let field = &bytes[at..at + 4];
            u32::from_be_bytes([field[0], field[1], field[2], field[3]])
        }
    }
}

/// The name at a place: its node, then its number.
pub fn name_at(format: Format, bytes: &[u8], at: usize) -> Result<Name, BadField>
    requires { at < 2 ^ 32 }
    ensures { MatchResult result
        (λ n. (has_name format bytes.now at ≡ true) × HasName format n
        × (drop at bytes.now ≡ name_bytes format n ++ drop (at + name_size format) bytes.now))
        (λ f. (has_name format bytes.now at ≡ false) × (f.place ≡ at)) }
{
    let second = at + format.node_size();
    let Some(field) = bytes.get(second..second + 4) else {
        return Err(BadField { place: at });
    };
    let seq = u32::from_be_bytes([field[0], field[1], field[2], field[3]]);
    let node = node_at(format, bytes, at);
    if node == 0 || seq == 0 {
        return Err(BadField { place: at });
    }
    Ok(Name { node, seq })
}

/// The capability at a place: its kind, then its name.
pub fn cap_at(format: Format, bytes: &[u8], at: usize) -> Result<Cap, BadField>
    requires { at < 2 ^ 31 }
    ensures { MatchResult result
        (λ c. (first_fault (cap_fields format bytes.now at) ≡ None) × HasCap format c
        × (drop at bytes.now ≡ cap_bytes format c ++ drop (at + cap_size format) bytes.now))
        (λ f. first_fault (cap_fields format bytes.now at) ≡ Some f.place) }
{
    let kind = byte_at(bytes, at, 1, 4)?;
    let name = name_at(format, bytes, at + 1)?;
    Ok(match kind {
        1 => Cap::Plus(name),
        2 => Cap::Minus(name),
        3 => Cap::Use(name),
        _ => Cap::Grow(name),
    })
}

/// Adds the bytes of a name at the end, as the second format has them. Fails only where the vector
/// has no room for them and cannot grow.
pub fn push_name(out: &mut Vec<u8>, name: Name) -> Result<(), AllocError>
    ensures ok { OnOk result (out.new.items ≡ out.old.items ++ name_bytes Two name) }
    ensures len { OnOk result (vec_len out.new ≡ vec_len out.old + name_size Two) }
    ensures capacity { vec_capacity out.old ≤ vec_capacity out.new }
    ensures full { OnErr result (vec_capacity out.old < vec_len out.old + name_size Two) }
{
    out.extend_from_slice(&name.node.to_be_bytes())?;
    out.extend_from_slice(&name.seq.to_be_bytes())
}

/// Adds the bytes of a capability at the end, as the second format has them. Fails only where the
/// vector has no room for them and cannot grow.
pub fn push_cap(out: &mut Vec<u8>, cap: Cap) -> Result<(), AllocError>
    ensures ok { OnOk result (out.new.items ≡ out.old.items ++ cap_bytes Two cap) }
    ensures len { OnOk result (vec_len out.new ≡ vec_len out.old + cap_size Two) }
    ensures capacity { vec_capacity out.old ≤ vec_capacity out.new }
    ensures full { OnErr result (vec_capacity out.old < vec_len out.old + cap_size Two) }
{
    out.push(cap.rank())?;
    push_name(out, cap.name())
}
