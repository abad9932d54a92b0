//! When a message may go from one endpoint to another.
ghost use Rattle.std.specs.Prelude.{MatchOption};
ghost use Rattle.fl_rules.specs.Pair.{end_of, SafePair, PairFails};

use crate::endpoint::Mode;
use crate::labels::LabelsRef;
use fl_labels::name::Name;

/// An endpoint, with its labels on loan.
#[derive(Clone, Copy, Debug)]
pub struct EndRef<'a> {
    pub mode: Mode,
    pub labels: LabelsRef<'a>,
}

/// Why no message may go from one endpoint to another.
#[derive(Clone, Copy, Debug, PartialEq, Eq)]
pub enum PairFault {
    /// The sender's endpoint is not for writing.
    NotWritable,
    /// The receiver's endpoint is not for reading.
    NotReadable,
    /// The least tag of secrecy that only the sender's endpoint has.
    Secrecy(Name),
    /// The least tag of integrity that only the receiver's endpoint has.
    Integrity(Name),
}

/// The first fault, in the order of `PairFault`, of a message from the sender's endpoint to the
/// receiver's, or none where it is safe. One walk along the secrecy of both, and one along their
/// integrity. Takes no memory.
pub fn safe_pair(sender: EndRef<'_>, receiver: EndRef<'_>) -> Option<PairFault>
    ensures { let from = end_of sender.entry in let to = end_of receiver.entry in
        MatchOption result (SafePair from to) (PairFails from to) }
{
    if !sender.mode.writes() {
        return Some(PairFault::NotWritable);
    }
    if !receiver.mode.reads() {
        return Some(PairFault::NotReadable);
    }
    let from = sender.labels;
    let to = receiver.labels;
    if let Some(tag) = from.secrecy.first_missing(to.secrecy) {
        return Some(PairFault::Secrecy(tag));
    }
    match to.integrity.first_missing(from.integrity) {
        Some(tag) => Some(PairFault::Integrity(tag)),
        None => None,
    }
}
