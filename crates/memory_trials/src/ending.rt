//! How a trial ends.
use std::alloc::AllocError;
use std::fmt;

/// What a call is made over could not be made.
#[derive(Clone, Copy, Debug)]
pub struct NotBegun;

impl From<AllocError> for NotBegun {
    fn from(_error: AllocError) -> NotBegun {
        NotBegun
    }
}

/// How a trial ended.
#[derive(Clone, Copy, Debug, PartialEq, Eq)]
pub enum Ending {
    /// What the call is made over could not be made.
    NotBegun,
    /// The call went well, and left what it is to leave.
    Done,
    /// The call was refused, or a part of it, and left what this says; and once more it went well.
    Refused(&'static str),
    /// What this says is so.
    Wrong(&'static str),
}

impl fmt::Display for Ending {
    fn fmt<W: fmt::Write>(&self, f: &mut fmt::Formatter<W>) -> fmt::Result {
        match self {
            Ending::NotBegun => write!(f, "not begun"),
            Ending::Done => write!(f, "done"),
            Ending::Refused(left) => write!(f, "refused, and {left}"),
            Ending::Wrong(what) => write!(f, "WRONG: {what}"),
        }
    }
}
