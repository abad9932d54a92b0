//! Messages, on their way and where they came.
ghost use Rattle.std.specs.Prelude.{◌≡◌, ◌≤◌, ◌<◌, ◌⊎◌, IfOk, MatchOption, length};
ghost use Rattle.fl_labels.specs.SetBy.{len};

use crate::payload::Payload;
use crate::shared::Shared;
use fl_labels::cap_set::CapSet;
use fl_labels::endpoint::Endpoint;
use fl_labels::label::Label;
use fl_labels::pid::Pid;
use std::alloc::{AllocError, Global};

/// How many capabilities a message carries at most.
pub const MOST_CAPS: usize = 64;

/// How many bytes a message carries at most.
pub const MOST_PAYLOAD_BYTES: usize = 1024;

/// What one process tells another: capabilities and bytes.
#[derive(Debug, PartialEq, Eq)]
pub struct Message {
    /// At most 64.
    pub caps: CapSet,
    /// At most 1024 bytes.
    pub payload: Payload,
    pub ghost few_caps: { len caps ≤ 64 },
    pub ghost few_bytes: { length payload ≤ 1024 },
}

impl Drop for Message {
    fn drop(self) {
        let Message {
            caps: _,
            payload: _,
        } = self;
    }
}

impl Message {
    /// The message of these capabilities and bytes. `None` where they are more than 64 or more than
    /// 1024. Takes no memory.
    pub fn new(caps: CapSet, payload: Payload) -> Option<Self>
        ensures { MatchOption result
            ((64 < len caps) ⊎ (1024 < length payload))
            (λ message. (message.caps ≡ caps) × (message.payload ≡ payload)) }
    {
        if caps.len() > MOST_CAPS {
            return None;
        }
        if payload.as_slice().len() > MOST_PAYLOAD_BYTES {
            return None;
        }
        Some(Message { caps, payload })
    }
}

/// A message that came, with who sent it.
#[derive(Debug, Drop, PartialEq, Eq)]
pub struct Letter {
    pub sender: Pid,
    pub message: Shared<Message>,
}

/// A message on its way from an endpoint of one process to an endpoint of another.
#[derive(Debug, PartialEq, Eq)]
pub struct Data {
    pub sender: Pid,
    /// The sender's endpoint.
    pub from: Endpoint,
    pub receiver: Pid,
    /// The receiver's endpoint.
    pub to: Endpoint,
    /// The secrecy label that the message was sent under.
    pub secrecy: Label,
    /// The integrity label that the message was sent under.
    pub integrity: Label,
    pub message: Shared<Message>,
    pub ghost secrecy_fits: { len secrecy ≤ 256 },
    pub ghost integrity_fits: { len integrity ≤ 256 },
}

impl Drop for Data {
    fn drop(self) {
        let Data {
            sender: _,
            from: _,
            receiver: _,
            to: _,
            secrecy: _,
            integrity: _,
            message: _,
        } = self;
    }
}

impl Data {
    /// The same again. Copies the labels, and shares the message. Fails only where there is not
    /// enough memory, or the message is shared too often.
    pub fn copy(&self, alloc: Global) -> Result<Self, AllocError>
        ensures { IfOk result (λ made. made ≡ self.now) }
    {
        Ok(Data {
            sender: self.sender,
            from: self.from,
            receiver: self.receiver,
            to: self.to,
            secrecy: self.secrecy.copy(alloc)?,
            integrity: self.integrity.copy(alloc)?,
            message: self.message.copy()?,
        })
    }

    /// What its receiver is handed.
    pub fn into_letter(self) -> Letter
        ensures sender { result.sender ≡ self.sender }
        ensures message { result.message ≡ self.message }
    {
        let Data {
            sender,
            from: _,
            receiver: _,
            to: _,
            secrecy: _,
            integrity: _,
            message,
        } = self;
        Letter { sender, message }
    }
}
