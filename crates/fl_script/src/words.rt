//! Words of a line: a reader for each form that only lines have.
ghost use Rattle.std.specs.Prelude.{◌≡◌, ◌≢◌, ◌<◌, ◌≤◌, ◌⊎◌, codes, length};
ghost use Rattle.fl_labels.specs.Found.{Finds};
ghost use Rattle.fl_labels.specs.Words.{NoComma};
ghost use Rattle.fl_script.specs.parts.Reads.{Reads, StarvesIf};
ghost use Rattle.fl_ops.specs.PolicyText.{policy_text};
ghost use Rattle.fl_script.specs.Words.{AreGivenWords, AreMessageWords, IsBytesWord, IsCapsWord, IsLabelWord, IsSecretWord, mode_text, side_text};

use crate::unread::Unread;
use fl_jobs::job::{GivenLabels, Side, TooLong};
use fl_jobs::secret::Secret;
use fl_labels::cap_set::CapSet;
use fl_labels::error::SetError;
use fl_labels::label::Label;
use fl_message::message::Message;
use fl_message::payload::{FEW_BYTES, Payload};
use fl_message::shared::Shared;
use fl_ops::op::Policy;
use fl_rules::endpoint::Mode;
use hex::{FromHex, FromHexError};
use std::alloc::Global;

/// The policy that a word names, in lower case.
pub fn policy_from_word(word: &str) -> Option<Policy>
    ensures { Finds result (λ policy. word.now ≡ policy_text policy) }
{
    match word.as_bytes() {
        b"export" => Some(Policy::Export),
        b"read" => Some(Policy::Read),
        b"integrity" => Some(Policy::Integrity),
        _ => None,
    }
}

/// The label of a process that a word names: `S` or `I`.
pub fn side_from_word(word: &str) -> Option<Side>
    ensures { Finds result (λ side. word.now ≡ side_text side) }
{
    match word.as_bytes() {
        b"S" => Some(Side::Secrecy),
        b"I" => Some(Side::Integrity),
        _ => None,
    }
}

/// The mode of an endpoint that a word names: `r`, `w` or `rw`.
pub fn mode_from_word(word: &str) -> Option<Mode>
    ensures { Finds result (λ mode. word.now ≡ mode_text mode) }
{
    match word.as_bytes() {
        b"r" => Some(Mode::Read),
        b"w" => Some(Mode::Write),
        b"rw" => Some(Mode::Both),
        _ => None,
    }
}

/// The label that a word lists, `TooLong` where it lists more tags than a label holds. `Bad` where
/// it lists no tags. Takes memory only where a comma parts them.
pub fn label_from_word(alloc: Global, word: &str) -> Result<Result<Label, TooLong>, Unread>
    ensures ok { Reads result (λ label. IsLabelWord label word.now) }
    ensures memory { StarvesIf result (¬ NoComma word.now) }
{
    match Label::from_text(alloc, word) {
        Ok(label) => Ok(Ok(label)),
        Err(SetError::TooLong) => Ok(Err(TooLong)),
        Err(SetError::BadText) => Err(Unread::Bad),
        Err(SetError::Memory) => Err(Unread::Memory),
    }
}

/// The labels that two words list, that of secrecy first, each `TooLong` where it has more tags
/// than a label holds. `Bad` where a word lists no tags. Takes memory only where a comma parts
/// some.
pub fn labels_from_words(
    alloc: Global,
    secrecy: &str,
    integrity: &str,
) -> Result<GivenLabels, Unread>
    ensures ok { Reads result (λ given. AreGivenWords given secrecy.now integrity.now) }
    ensures memory { StarvesIf result ((¬ NoComma secrecy.now) ⊎ (¬ NoComma integrity.now)) }
{
    let secrecy = label_from_word(alloc, secrecy)?;
    let integrity = label_from_word(alloc, integrity)?;
    Ok(GivenLabels { secrecy, integrity })
}

/// The capabilities that a word lists in braces, in any order. `Bad` where it is no such list.
/// Linear in a list that rises, and else with a sort; takes no memory for `{}`.
pub fn caps_from_word(alloc: Global, word: &str) -> Result<CapSet, Unread>
    ensures ok { Reads result (λ caps. IsCapsWord caps word.now) }
    ensures memory { StarvesIf result (word.now ≢ codes "{}") }
{
    match CapSet::from_text(alloc, word) {
        Ok(caps) => Ok(caps),
        Err(SetError::BadText) => Err(Unread::Bad),
        // never, since there may be any number of capabilities
        Err(SetError::TooLong) => Err(Unread::Bad),
        Err(SetError::Memory) => Err(Unread::Memory),
    }
}

/// The secret whose 64 hexadecimal digits the word is, in either case, or none of another word.
/// Takes no memory.
pub fn secret_from_word(word: &str) -> Option<Secret>
    ensures { Finds result (λ secret. IsSecretWord secret word.now) }
{
    let Ok(bytes) = <[u8; 32]>::from_hex(word) else {
        return None;
    };
    Some(Secret { bytes })
}

// The bytes that the digits of a word spell, where they are so few that they stand in place.
fn few_bytes(alloc: Global, word: &str) -> Result<Payload, Unread>
    requires few { length word.now ≤ 32 }
    requires digits { word.now ≢ codes "none" }
    ensures ok { Reads result (λ bytes. IsBytesWord bytes word.now) }
    ensures memory { StarvesIf result ⊥ }
{
    let mut room = [0; FEW_BYTES];
    let bytes = &mut room[..word.len() / 2];
    match hex::decode_to_slice(word, bytes) {
        Ok(()) if !bytes.is_empty() => Ok(Payload::from_slice(alloc, bytes)?),
        _ => Err(Unread::Bad),
    }
}

/// The bytes that a word spells: no bytes of `none`, and else those of its hexadecimal digits, two
/// of each byte, in either case. `Bad` where the word is neither. Linear; takes no memory for 16
/// bytes at most.
pub fn bytes_from_word(alloc: Global, word: &str) -> Result<Payload, Unread>
    ensures ok { Reads result (λ bytes. IsBytesWord bytes word.now) }
    ensures memory { StarvesIf result (32 < length word.now) }
{
    if let b"none" = word.as_bytes() {
        return Ok(Payload::new(alloc));
    }
    if word.len() <= 2 * FEW_BYTES {
        return few_bytes(alloc, word);
    }
    match hex::decode(alloc, word) {
        Ok(bytes) => Ok(Payload::from_vec(bytes)),
        Err(FromHexError::OutOfMemory) => Err(Unread::Memory),
        Err(_) => Err(Unread::Bad),
    }
}

// The message whose capabilities one word lists and whose bytes another spells, as it stands.
fn bare_message(alloc: Global, caps: &str, bytes: &str) -> Result<Message, Unread>
    ensures { Reads result (λ message. AreMessageWords message caps.now bytes.now) }
{
    let caps = caps_from_word(alloc, caps)?;
    let payload = bytes_from_word(alloc, bytes)?;
    Message::new(caps, payload).ok_or(Unread::Bad)
}

/// The message whose capabilities one word lists and whose bytes another spells, to be shared.
/// `Bad` where a word is no such one, where there are more than 64 capabilities, or more than 1,024
/// bytes.
pub fn message_from_words(alloc: Global, caps: &str, bytes: &str) -> Result<Shared<Message>, Unread>
    ensures { Reads result (λ message. AreMessageWords message caps.now bytes.now) }
{
    let message = bare_message(alloc, caps, bytes)?;
    Ok(Shared::new(alloc, message)?)
}
