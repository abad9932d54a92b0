//! The mailbox of a process.
ghost use Rattle.std.specs.Prelude.{◌≡◌};
ghost use Rattle.fl_mailbox.specs.Mailbox.{closed};

use crate::endpoints::Endpoints;
use crate::inbox::Inbox;
use std::alloc::Global;

/// The open endpoints of a process, and the messages that wait for it.
#[derive(Debug, Drop)]
pub struct Mailbox {
    pub endpoints: Endpoints,
    pub inbox: Inbox,
}

impl Mailbox {
    /// No endpoint, and no message. Takes no memory.
    pub fn new(alloc: Global) -> Self
        ensures { result ≡ closed }
    {
        Mailbox {
            endpoints: Endpoints::new(alloc),
            inbox: Inbox::new(alloc),
        }
    }
}
