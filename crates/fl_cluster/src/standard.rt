//! What a program whose script ended says on standard error, and its status. The bytes of standard
//! streams have no name in a contract, so no clause speaks of them.
ghost use Rattle.std.specs.Prelude.{◌≡◌};
ghost use Rattle.std.specs.Process.{exit_status};
ghost use Rattle.fl_cluster.specs.Ended.{status_at_end};

use crate::fault::RunFault;
use crate::watched::Watched;
use std::process::ExitCode;

/// The status where a read, a write or memory failed.
const FAULT: u8 = 3;

/// Says on standard error that the script is too long, where it is. That is a read fault too.
pub fn tell_length<R>(rt: &HostRuntime, input: &Watched<R>, ended: Result<u8, RunFault>) {
    if ended == Err(RunFault::Read) && !input.has_failed() {
        let _ = eprintln!(rt; "flume-tags: the script is longer than 16777216 bytes");
    }
}

/// The status of a program whose run ended so: 3 at a fault, which is told on standard error.
pub fn exit_code(rt: &HostRuntime, ended: Result<u8, RunFault>) -> ExitCode
    ensures { exit_status result ≡ status_at_end ended }
{
    match ended {
        Ok(status) => ExitCode::from(status),
        Err(fault) => {
            let _ = eprintln!(rt; "flume-tags: {fault}");
            ExitCode::from(FAULT)
        }
    }
}
