//! Why a key was not read.
ghost use Rattle.std.specs.Prelude.{◌≡◌};
ghost use Rattle.fl_keys.specs.Refusing.{status_of, system_fault};

use std::io;
use std::io::ErrorKind;
use thiserror::Error;

/// Why a key was not read from a file.
#[derive(Debug, Drop, Error)]
pub enum KeyFault {
    /// The file was not opened or read.
    #[error("{0}")]
    System(io::Error),
    /// It is no key.
    #[error("it is no key of 64 hexadecimal digits")]
    NoKey,
    /// Others than its owner have rights to it.
    #[error("others than its owner have rights to it: chmod 600 takes them away")]
    NotPrivate,
    /// There was not enough memory.
    #[error("out of memory")]
    Memory,
}

/// The status of a program to which a file of a key is refused.
const BAD_KEY: u8 = 2;

/// The status of a program that lacks memory.
const NO_MEMORY: u8 = 3;

impl KeyFault {
    /// The status of a program that ends for it.
    pub fn status(&self) -> u8
        ensures { result ≡ status_of self.now }
    {
        match self {
            KeyFault::System(_) | KeyFault::NoKey | KeyFault::NotPrivate => BAD_KEY,
            KeyFault::Memory => NO_MEMORY,
        }
    }
}

/// What the system's refusal comes to.
pub fn of_system(error: io::Error) -> KeyFault
    ensures { result ≡ system_fault error }
{
    match error.kind() {
        ErrorKind::OutOfMemory => KeyFault::Memory,
        _ => KeyFault::System(error),
    }
}
