//! Why a set was not changed, or not read.
ghost use Rattle.std.specs.Prelude.{◌≡◌};

use std::alloc::{AllocError, AllocFailed};
use std::error::Error;
use std::fmt;

/// Why a set was not changed, or not read.
#[derive(Debug, Clone, Copy, PartialEq, Eq)]
pub enum SetError {
    /// The text lists no such items in braces.
    BadText,
    /// The set would have more members than it may have.
    TooLong,
    /// There was not enough memory.
    Memory,
}

impl fmt::Display for SetError {
    ghost use Rattle.std.specs.Prelude.{Some};
    ghost use Rattle.fl_labels.specs.Error.{error_text};

    ghost output = { λ e. Some (error_text e) };

    fn fmt<W: fmt::Write>(&self, f: &mut fmt::Formatter<W>) -> fmt::Result {
        f.write_str(match self {
            SetError::BadText => "not a list in braces",
            SetError::TooLong => "too many members",
            SetError::Memory => "out of memory",
        })
    }
}

impl Error for SetError {}

impl<T: Drop> From<AllocFailed<T>> for SetError {
    ghost use Rattle.fl_labels.specs.declared.error.SetError.TheVariants.{Memory};

    ghost from_gives = { λ _ e. e ≡ Memory };

    fn from(_: AllocFailed<T>) -> Self {
        SetError::Memory
    }
}

impl From<AllocError> for SetError {
    ghost use Rattle.fl_labels.specs.declared.error.SetError.TheVariants.{Memory};

    ghost from_gives = { λ _ e. e ≡ Memory };

    fn from(_: AllocError) -> Self {
        SetError::Memory
    }
}
