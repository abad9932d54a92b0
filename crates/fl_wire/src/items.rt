//! Sets from bytes.
ghost use Rattle.std.specs.Prelude.{◌≡◌, ◌<◌, ◌≤◌, ◌+◌, ◌^◌, MatchResult, IfOk, OnErr, true, false, length, slice_index, drop, None, ◌++◌};
ghost use Rattle.fl_labels.specs.Name.{name_cmp};
ghost use Rattle.fl_labels.specs.Cap.{cap_cmp};
ghost use Rattle.fl_labels.specs.SetBy.{len, of_list};
ghost use Rattle.fl_ops.specs.Bytes.{name_bytes, name_size, cap_bytes, cap_size};
ghost use Rattle.fl_ops.specs.Fits.{HasName, HasCap};
ghost use Rattle.fl_ops.specs.Grammar.{has_name, first_fault};
ghost use Rattle.fl_wire.specs.Faults.{IsBadOrMemory};
ghost use Rattle.fl_wire.specs.Fields.{is_next, short_at, has_cap, tag_key, cap_key};
ghost use Rattle.fl_wire.specs.parts.Items.{name_key, key_of_cap, key_before, is_above, IsNext, AreRead};
ghost use Rattle.fl_wire.specs.PacketBytes.{label_bytes, caps_bytes};
ghost use Rattle.fl_wire.specs.PacketFits.{HasLabel, HasCaps};
ghost use Rattle.fl_wire.specs.PacketGrammar.{tag_fields, label_fields, after_label, each_cap, caps_fields, after_caps};

use crate::fault::ReadFault;
use crate::fields::{short_at, tag_at, whole_cap_at};
use fl_labels::cap::Cap;
use fl_labels::cap_set::CapSet;
use fl_labels::label::Label;
use fl_labels::name::Name;
use fl_ops::fields::byte_at;
use fl_ops::format::Format;
use std::alloc::{AllocError, Global};

// Whether an item is above the one before it, where there is one.
fn rises_above<T: Ord + Copy + Drop>(before: Option<T>, item: &T) -> bool
    ensures { result ≡ is_above T.cmp before item.now }
{
    match before {
        Some(before) => before.cmp(item).is_lt(),
        None => true,
    }
}

// The tag at a place, above the one before it.
pub(crate) fn tag_above(
    format: Format,
    bytes: &[u8],
    at: usize,
    before: Option<Name>,
) -> Result<Name, ReadFault>
    requires { at < 2 ^ 32 }
    ensures { MatchResult result
        (IsNext name_cmp (HasName format) (name_bytes format) name_key
        (has_name format bytes.now) (tag_key format bytes.now)
        (name_size format) bytes.now at before)
        (λ f. (is_next (has_name format bytes.now) (tag_key format bytes.now) at
        (key_before name_key before) ≡ false)
        × (f ≡ ReadFault.BadPacket at)) }
{
    let tag = tag_at(format, bytes, at)?;
    if rises_above(before, &tag) {
        Ok(tag)
    } else {
        Err(ReadFault::BadPacket { place: at })
    }
}

// So many tags from a place on, which rise.
fn tags_at(
    alloc: Global,
    format: Format,
    bytes: &[u8],
    at: usize,
    count: usize,
) -> Result<Vec<Name>, ReadFault>
    requires place { at < 2 ^ 31 }
    requires few { count ≤ 256 }
    ensures { MatchResult result
        (λ tags. AreRead name_cmp (HasName format) (name_bytes format)
        (tag_fields format bytes.now at count)
        (name_size format) bytes.now at count tags.items)
        (IsBadOrMemory count (tag_fields format bytes.now at count)) }
{
    let mut tags = Vec::with_capacity(alloc, count)?;
    let mut before = None;
    let mut place = at;
    for i in 0..count {
        let tag = tag_above(format, bytes, place, before)?;
        tags.push(tag)?;
        before = Some(tag);
        place += format.name_size();
    }
    Ok(tags)
}

// The label at a place.
pub(crate) fn label_at(
    alloc: Global,
    format: Format,
    bytes: &[u8],
    at: usize,
) -> Result<Label, ReadFault>
    requires { at < 2 ^ 30 }
    ensures { MatchResult result
        (λ s. (first_fault (label_fields format bytes.now at) ≡ None) × HasLabel format s
        × (len s ≡ short_at bytes.now at)
        × (len s ≤ 256)
        × (drop at bytes.now ≡ label_bytes format s
        ++ drop (after_label format bytes.now at) bytes.now))
        (IsBadOrMemory (short_at bytes.now at) (label_fields format bytes.now at)) }
{
    let count = usize::from(short_at(bytes, at, 0, 256)?);
    let tags = tags_at(alloc, format, bytes, at + 2, count)?;
    Ok(Label::from_vec(tags).unwrap())
}

// The capability at a place, above the one before it.
pub(crate) fn cap_above(
    format: Format,
    bytes: &[u8],
    at: usize,
    before: Option<Cap>,
) -> Result<Cap, ReadFault>
    requires { at < 2 ^ 31 }
    ensures { MatchResult result
        (IsNext cap_cmp (HasCap format) (cap_bytes format) key_of_cap
        (has_cap format bytes.now) (cap_key format bytes.now) (cap_size format) bytes.now at before)
        (λ f. (is_next (has_cap format bytes.now) (cap_key format bytes.now) at
        (key_before key_of_cap before) ≡ false)
        × (f ≡ ReadFault.BadPacket at)) }
{
    let cap = whole_cap_at(format, bytes, at)?;
    if rises_above(before, &cap) {
        Ok(cap)
    } else {
        Err(ReadFault::BadPacket { place: at })
    }
}

// So many capabilities from a place on, which rise.
fn each_cap_at(
    alloc: Global,
    format: Format,
    bytes: &[u8],
    at: usize,
    count: usize,
) -> Result<Vec<Cap>, ReadFault>
    requires place { at < 2 ^ 30 }
    requires few { count ≤ 64 }
    ensures { MatchResult result
        (λ caps. AreRead cap_cmp (HasCap format) (cap_bytes format)
        (each_cap format bytes.now at count)
        (cap_size format) bytes.now at count caps.items)
        (IsBadOrMemory count (each_cap format bytes.now at count)) }
{
    let mut caps = Vec::with_capacity(alloc, count)?;
    let mut before = None;
    let mut place = at;
    for i in 0..count {
        let cap = cap_above(format, bytes, place, before)?;
        caps.push(cap)?;
        before = Some(cap);
        place += format.cap_size();
    }
    Ok(caps)
}

// The set of these capabilities. That of none takes no memory.
fn set_of(alloc: Global, caps: Vec<Cap>) -> Result<CapSet, AllocError>
    ensures ok { IfOk result (λ made. made ≡ of_list caps.items) }
    ensures wants { OnErr result (0 < length caps.items) }
{
    if caps.is_empty() {
        return Ok(CapSet::new(alloc));
    }
    CapSet::from_vec(caps)
}

// The set of capabilities at a place.
pub(crate) fn caps_at(
    alloc: Global,
    format: Format,
    bytes: &[u8],
    at: usize,
) -> Result<CapSet, ReadFault>
    requires { at < 2 ^ 29 }
    ensures { MatchResult result
        (λ s. (first_fault (caps_fields format bytes.now at) ≡ None) × HasCaps format s
        × (len s ≡ slice_index bytes.now at)
        × (len s ≤ 64)
        × (drop at bytes.now ≡ caps_bytes format s
        ++ drop (after_caps format bytes.now at) bytes.now))
        (IsBadOrMemory (slice_index bytes.now at) (caps_fields format bytes.now at)) }
{
    let count = usize::from(byte_at(bytes, at, 0, 64)?);
    let caps = each_cap_at(alloc, format, bytes, at + 1, count)?;
    Ok(set_of(alloc, caps)?)
}
