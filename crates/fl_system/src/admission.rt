//! What is noted of a world: each thing that a reference monitor admitted.

use crate::granted::Granted;
use fl_bench::standing::Standing;
use fl_jobs::job::Side;
use fl_labels::cap::Cap;
use fl_labels::label::Label;
use fl_labels::name::{Name, NodeNumber};
use fl_labels::pid::Pid;
use fl_message::boxed::Boxed;
use fl_message::shared::Shared;
use fl_ops::digest::Digest;
use fl_rules::endpoint::Mode;
use fl_rules::labels::Labels;

/// A process as the rules judge it: its labels, and what it owned then.
pub struct Party {
    pub pid: Pid,
    pub standing: Shared<Standing>,
}

impl Drop for Party {
    fn drop(self) {
        let Party {
            pid: _,
            standing: _,
        } = self;
    }
}

/// One thing that was admitted, with all that its safety is judged by. What is large stands apart,
/// or is shared, so that it takes 64 bytes at most beside that.
pub enum Admission {
    /// The label of this side became this one.
    Change(Side, Party, Label),
    /// An endpoint of this mode was opened with these labels, or tuned to them.
    Endpoint(Party, Mode, Boxed<Labels>),
    /// Bytes went to the outside.
    Emission(Party),
    /// Capabilities were handed on: at a birth, into a group, into a login, or in a message.
    Grant(Party, Granted),
    /// The login of this name gave the capability for a secret of this digest.
    Entry(Party, Name, Cap, Boxed<Digest>),
    /// A message arrived: its sender as it was when it sent, and its receiver just before.
    Message(Party, Party),
    /// The process was told that it has the capability in effect.
    Yes(Party, Cap),
    /// Somebody was told at this node, in this boot, that the first capability reaches the second.
    Reached(NodeNumber, u32, Cap, Cap),
}

impl Drop for Admission {
    fn drop(self) {
        match self {
            Admission::Change(_, _, _) => {}
            Admission::Endpoint(_, _, _) => {}
            Admission::Emission(_) => {}
            Admission::Grant(_, _) => {}
            Admission::Entry(_, _, _, _) => {}
            Admission::Message(_, _) => {}
            Admission::Yes(_, _) => {}
            Admission::Reached(_, _, _, _) => {}
        }
    }
}
