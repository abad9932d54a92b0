//! What is noted of a message that arrives.
ghost use Rattle.std.specs.Prelude.{◌≡◌, Some, IfOk, OnErr, IsSome};
ghost use Rattle.std.specs.declared.option.Option.{Option};
ghost use Rattle.fl_bench.specs.Process.{standing_at};
ghost use Rattle.fl_bench.specs.declared.process.Process.{Process};
ghost use Rattle.fl_system.specs.Audit.{message_entries};
ghost use Rattle.fl_audit.specs.Drafts.{listed};

use crate::party::copy_party;
use fl_bench::standing::Standing;
use fl_labels::pid::Pid;
use fl_message::shared::Shared;
use fl_system::admission::{Admission, Party};
use std::alloc::AllocError;

/// What is noted where a message of this sender arrives at the process that stands so as this pid,
/// if there is one. Takes no memory. Fails only where there is the process, and how the sender
/// stands has too many holders.
pub fn arrival(
    sender: &Party,
    pid: Pid,
    receiver: Option<Shared<Standing>>,
) -> Result<Option<Admission>, AllocError>
    ensures ok { (process : Option Process) → receiver ≡ standing_at process →
        IfOk result (λ made. listed made ≡ message_entries (Some sender.now) pid process) }
    ensures err { OnErr result (IsSome receiver) }
{
    let Some(standing) = receiver else {
        return Ok(None);
    };
    let sender = copy_party(sender)?;
    let receiver = Party { pid, standing };
    Ok(Some(Admission::Message(sender, receiver)))
}
