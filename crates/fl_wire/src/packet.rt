//! Packets.

use crate::batch::Batch;
use fl_message::message::Data;
use fl_opset::intervals::Intervals;

/// What nodes send to each other.
#[derive(Debug, PartialEq, Eq)]
pub enum Packet {
    /// Operations that the sender has saved.
    Full(Batch),
    /// A window of what the sender has saved.
    Have(Intervals),
    /// Operations that the sender has saved and a window lacked.
    Delta(Batch),
    /// A message of a process.
    Data(Data),
}

impl Drop for Packet {
    fn drop(self) {
        match self {
            Packet::Full(_) => {}
            Packet::Have(_) => {}
            Packet::Delta(_) => {}
            Packet::Data(_) => {}
        }
    }
}
