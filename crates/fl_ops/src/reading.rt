//! Operations from bytes.
ghost use Rattle.std.specs.Prelude.{◌≡◌, ◌<◌, ◌≤◌, ◌^◌, MatchResult, true, false, take, drop, length, slice_index, Some, None, [], ◌∷◌};
ghost use Rattle.fl_ops.specs.Format.{last_kind};
ghost use Rattle.fl_ops.specs.Bytes.{kind_byte, body_bytes, body_place, policy_byte, op_bytes};
ghost use Rattle.fl_ops.specs.Fits.{HasBody, HasOp};
ghost use Rattle.fl_ops.specs.Grammar.{body_fields, has_byte, has_digest, first_fault, format_of, op_fault};

use crate::digest::Digest;
use crate::fault::BadField;
use crate::fields::{byte_at, cap_at, format_at, name_at};
use crate::format::Format;
use crate::op::{Body, Op, Policy};

// The policy at a place.
fn policy_at(bytes: &[u8], at: usize) -> Result<Policy, BadField>
    requires { at < 2 ^ 32 }
    ensures { MatchResult result
        (λ p. (has_byte bytes.now at 1 3 ≡ true)
        × (take 1 (drop at bytes.now) ≡ policy_byte p ∷ []))
        (λ f. (has_byte bytes.now at 1 3 ≡ false) × (f.place ≡ at)) }
{
    Ok(match byte_at(bytes, at, 1, 3)? {
        1 => Policy::Export,
        2 => Policy::Read,
        _ => Policy::Integrity,
    })
}

// The digest at a place.
fn digest_at(bytes: &[u8], at: usize) -> Result<Digest, BadField>
    requires { at < 2 ^ 32 }
    ensures { MatchResult result
        (λ d. (has_digest bytes.now at ≡ true) × (take 32 (drop at bytes.now) ≡ d.bytes))
        (λ f. (has_digest bytes.now at ≡ false) × (f.place ≡ at)) }
{
    let Some(field) = bytes.get(at..at + 32) else {
        return Err(BadField { place: at });
    };
    let mut bytes = [0; 32];
    bytes.copy_from_slice(field);
    Ok(Digest { bytes })
}

// The body of an operation of this kind, which follows its name.
fn body_at(format: Format, bytes: &[u8], kind: u8) -> Result<Body, BadField>
    requires low { 1 ≤ kind }
    requires high { kind ≤ last_kind format }
    ensures { MatchResult result
        (λ b. (first_fault (body_fields format bytes.now kind (body_place format)) ≡ None)
        × (kind_byte b ≡ kind)
        × HasBody format b
        × (take (length (body_bytes format b)) (drop (body_place format) bytes.now)
        ≡ body_bytes format b))
        (λ f. first_fault (body_fields format bytes.now kind (body_place format)) ≡ Some f.place) }
{
    let at = format.body_place();
    Ok(match kind {
        1 => Body::MakeTag(policy_at(bytes, at)?),
        2 => Body::MakeGroup,
        3 => Body::Put(
            name_at(format, bytes, at)?,
            cap_at(format, bytes, at + format.name_size())?,
        ),
        4 => Body::MakeLogin(
            cap_at(format, bytes, at)?,
            digest_at(bytes, at + format.cap_size())?,
        ),
        _ => Body::Open(name_at(format, bytes, at)?),
    })
}

/// The operation that begins the bytes, in either format, and how many of them it takes; what
/// follows it is not looked at. Where no operation begins them, the fault is at the first field
/// that is cut off or out of its range. Takes no memory.
pub fn decode(bytes: &[u8]) -> Result<(Op, usize), BadField>
    ensures { MatchResult result
        (λ x. (op_fault bytes.now ≡ None) × (let f = format_of (slice_index bytes.now 0) in
        HasOp f x.0 × (x.1 ≡ length (op_bytes f x.0)) × (take x.1 bytes.now ≡ op_bytes f x.0)))
        (λ f. op_fault bytes.now ≡ Some f.place) }
{
    let format = format_at(bytes, 0)?;
    let kind = byte_at(bytes, 1, 1, format.last_kind())?;
    let name = name_at(format, bytes, 2)?;
    let body = body_at(format, bytes, kind)?;
    let op = Op { name, body };
    Ok((op, op.length(format)))
}
