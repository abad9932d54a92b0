//! Processes as the rules judge them.
ghost use Rattle.std.specs.Prelude.{◌≡◌, IfOk, OnErr, IsSome};
ghost use Rattle.std.specs.declared.option.Option.{Option};
ghost use Rattle.fl_bench.specs.declared.process.Process.{Process};
ghost use Rattle.fl_audit.specs.Noted.{IsNotedWith};
ghost use Rattle.fl_audit.specs.Senders.{party_of, sender_of};

use fl_bench::standing::Standing;
use fl_jobs::job::{Act, Job, Mail};
use fl_labels::pid::Pid;
use fl_message::shared::Shared;
use fl_system::admission::Party;
use std::alloc::AllocError;

// The process that stands so as this pid, where there is one.
fn party_of(pid: Pid, standing: &Option<Shared<Standing>>) -> Result<Option<Party>, AllocError>
    ensures ok { IfOk result (λ made. made ≡ party_of pid standing.now) }
    ensures err { OnErr result (IsSome standing.now) }
{
    let Some(standing) = standing else {
        return Ok(None);
    };
    let standing = standing.copy()?;
    Ok(Some(Party { pid, standing }))
}

/// The same party again, without a copy of its labels or of what it owns. Fails only where these
/// have too many holders.
pub(crate) fn copy_party(party: &Party) -> Result<Party, AllocError>
    ensures { IfOk result (λ made. made ≡ party.now) }
{
    Ok(Party {
        pid: party.pid,
        standing: party.standing.copy()?,
    })
}

/// Who sends a message by the job, if one is sent by it, as it is now: a process asks for the job,
/// or none that is there does, which stands so where that is noted. Takes no memory. Fails only
/// where a message is sent, and how its sender stands has too many holders.
pub fn sender(standing: &Option<Shared<Standing>>, job: &Job) -> Result<Option<Party>, AllocError>
    ensures ok { (asker : Option Process) → IsNotedWith asker job.now standing.now →
        IfOk result (λ made. made ≡ sender_of asker job.now) }
    ensures err { (asker : Option Process) → IsNotedWith asker job.now standing.now →
        OnErr result (IsSome (sender_of asker job.now)) }
{
    match job {
        Job::By(pid, Act::Mail(Mail::Send { .. })) => party_of(*pid, standing),
        _ => Ok(None),
    }
}
