//! Operations from bytes, each written at once to where it stays.
ghost use Rattle.std.specs.Prelude.{◌≡◌, ◌<◌, ◌≤◌, ◌+◌, ◌^◌, MatchResult, true, false, length, take, drop, Some, None, [], ◌∷◌, ◌++◌};
ghost use Rattle.std.specs.Cmp.Lexicographic.{slice_cmp};
ghost use Rattle.std.specs.Ordering.{nat_cmp, is_lt};
ghost use Rattle.std.specs.Vec.{vec_len, vec_capacity};
ghost use Rattle.fl_ops.specs.Format.{node_limit, last_kind};
ghost use Rattle.fl_ops.specs.Bytes.{policy_byte};
ghost use Rattle.fl_ops.specs.Grammar.{body_fields, first_fault, has_digest, has_name};
ghost use Rattle.fl_wire.specs.Faults.{IsBad};
ghost use Rattle.fl_wire.specs.Fields.{is_next, tag_key};
ghost use Rattle.fl_wire.specs.PacketGrammar.{next_op};
ghost use Rattle.fl_wire.specs.parts.Items.{key_before, name_key};
ghost use Rattle.fl_wire.specs.parts.Ops.{AddsBody, AddsNextOp, AreNumbers, last_name};

use crate::fault::ReadFault;
use crate::fields::long_at;
use fl_labels::name::{Name, NodeNumber};
use fl_ops::digest::Digest;
use fl_ops::fault::BadField;
use fl_ops::fields::{byte_at, cap_at, name_at, node_at};
use fl_ops::format::Format;
use fl_ops::op::{Body, Op, Policy};

// Whether a name with these numbers is above that of the last operation, where there is one.
fn rises_above(ops: &[Op], node: NodeNumber, seq: u32) -> bool
    ensures { let before = key_before name_key (last_name ops.now) in
        result ≡ is_lt (slice_cmp nat_cmp before (node ∷ seq ∷ [])) }
{
    match ops.last() {
        Some(last) => (last.name.node, last.name.seq) < (node, seq),
        None => true,
    }
}

// The numbers of the name at a place, which is above that of the last operation.
fn numbers_above(
    ops: &[Op],
    format: Format,
    bytes: &[u8],
    at: usize,
) -> Result<(u32, u32), ReadFault>
    requires { at < 2 ^ 31 }
    ensures { let before = key_before name_key (last_name ops.now) in
        MatchResult result (λ n. AreNumbers format bytes.now at before n.0 n.1)
        (λ f. (is_next (has_name format bytes.now) (tag_key format bytes.now) at before ≡ false)
        × (f ≡ ReadFault.BadPacket at)) }
{
    let Ok(seq) = long_at(bytes, at + format.node_size()) else {
        return Err(ReadFault::BadPacket { place: at });
    };
    let node = node_at(format, bytes, at);
    if node == 0 || !rises_above(ops, node, seq) {
        return Err(ReadFault::BadPacket { place: at });
    }
    Ok((node, seq))
}

// The policy of this number.
fn policy_of(number: u8) -> Policy
    requires low { 1 ≤ number }
    requires high { number ≤ 3 }
    ensures { policy_byte result ≡ number }
{
    match number {
        1 => Policy::Export,
        2 => Policy::Read,
        _ => Policy::Integrity,
    }
}

// The digest at a place.
pub(crate) fn digest_at(bytes: &[u8], at: usize) -> Result<Digest, BadField>
    requires { at < 2 ^ 32 }
    ensures { MatchResult result
        (λ d. (has_digest bytes.now at ≡ true)
        × (take 32 (drop at bytes.now) ≡ d.bytes))
        (λ f. (has_digest bytes.now at ≡ false) × (f.place ≡ at)) }
{
    let Some(field) = bytes.get(at..at + 32) else {
        return Err(BadField { place: at });
    };
    let mut bytes = [0; 32];
    bytes.copy_from_slice(field);
    Ok(Digest { bytes })
}

// Adds the operation of this name, kind, and body at a place, and answers where it ends. Each kind
// adds its own: the bodies of several kinds, joined, would go over the stack in parts and come back
// as a whole, which waits for the parts.
fn push_body(
    ops: &mut Vec<Op>,
    name: (u32, u32),
    kind: u8,
    format: Format,
    bytes: &[u8],
    at: usize,
) -> Result<usize, BadField>
    requires node { 0 < name.0 }
    requires fits { name.0 < node_limit format }
    requires seq { 0 < name.1 }
    requires low { 1 ≤ kind }
    requires high { kind ≤ last_kind format }
    requires place { at < 2 ^ 30 }
    requires room { vec_len ops.old < vec_capacity ops.old }
    ensures body { MatchResult result
        (λ end. AddsBody format bytes.now at name.0 name.1 kind ops.old.items ops.new.items end)
        (λ f. first_fault (body_fields format bytes.now kind at) ≡ Some f.place) }
    ensures capacity { vec_capacity ops.new ≡ vec_capacity ops.old }
{
    let (node, seq) = name;
    match kind {
        1 => {
            let body = Body::MakeTag(policy_of(byte_at(bytes, at, 1, 3)?));
            ops.push_reserved(Op {
                name: Name { node, seq },
                body,
            });
            Ok(at + 1)
        }
        2 => {
            let body = Body::MakeGroup;
            ops.push_reserved(Op {
                name: Name { node, seq },
                body,
            });
            Ok(at)
        }
        3 => {
            let middle = at + format.name_size();
            let body = Body::Put(name_at(format, bytes, at)?, cap_at(format, bytes, middle)?);
            ops.push_reserved(Op {
                name: Name { node, seq },
                body,
            });
            Ok(middle + format.cap_size())
        }
        4 => {
            let middle = at + format.cap_size();
            let body = Body::MakeLogin(cap_at(format, bytes, at)?, digest_at(bytes, middle)?);
            ops.push_reserved(Op {
                name: Name { node, seq },
                body,
            });
            Ok(middle + 32)
        }
        _ => {
            let body = Body::Open(name_at(format, bytes, at)?);
            ops.push_reserved(Op {
                name: Name { node, seq },
                body,
            });
            Ok(at + format.name_size())
        }
    }
}

// Adds the operation at a place, of a name above that of the last one, and answers where it ends.
pub(crate) fn push_whole(
    ops: &mut Vec<Op>,
    format: Format,
    bytes: &[u8],
    at: usize,
) -> Result<usize, ReadFault>
    requires place { at < 2 ^ 29 }
    requires room { vec_len ops.old < vec_capacity ops.old }
    ensures next { MatchResult result
        (λ end. AddsNextOp format bytes.now at ops.old.items ops.new.items end)
        (IsBad (next_op format bytes.now at (key_before name_key (last_name ops.old.items)))) }
    ensures capacity { vec_capacity ops.new ≡ vec_capacity ops.old }
{
    byte_at(bytes, at, format.number(), format.number())?;
    let kind = byte_at(bytes, at + 1, 1, format.last_kind())?;
    let name = numbers_above(ops, format, bytes, at + 2)?;
    let place = at + format.body_place();
    Ok(push_body(ops, name, kind, format, bytes, place)?)
}
