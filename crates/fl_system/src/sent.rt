//! Packets that were sent.

use crate::admission::Party;
use fl_labels::name::NodeNumber;
use fl_wire::packet::Packet;

/// A packet that was sent, which may be delivered to any node, any number of times, or never.
pub struct Sent {
    /// The node that sent it.
    pub from: NodeNumber,
    pub packet: Packet,
    /// Of a message, its sender as it was then.
    pub sender: Option<Party>,
}

impl Drop for Sent {
    fn drop(self) {
        let Sent {
            from: _,
            packet: _,
            sender: _,
        } = self;
    }
}
