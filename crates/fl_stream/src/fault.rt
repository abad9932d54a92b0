//! What stops a run.
use fl_sink::sink::WriteFault;
use thiserror::Error;

/// What stops a run outside a line's own answer.
#[derive(Clone, Copy, Debug, PartialEq, Eq, Error)]
pub enum RunFault {
    /// A read failed, or the script or a line of it is too long.
    #[error("read fault")]
    Read,
    /// A write or a flush failed, or a write took no bytes.
    #[error("write fault")]
    Write,
    /// There was no memory to read into, or to keep a line that has not ended.
    #[error("memory fault")]
    Memory,
}

impl From<WriteFault> for RunFault {
    ghost use Rattle.std.specs.Prelude.{◌≡◌};
    ghost use Rattle.fl_stream.specs.declared.fault.RunFault.{RunFault};

    ghost from_gives = { λ _ e. e ≡ RunFault.Write };

    fn from(_fault: WriteFault) -> Self {
        RunFault::Write
    }
}
