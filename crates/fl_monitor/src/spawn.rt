//! Births of processes by other ones.
ghost use Rattle.std.specs.Prelude.{◌≡◌, IfOk};
ghost use Rattle.fl_labels.specs.SetBy.{In};
ghost use Rattle.fl_ops.specs.Registry.{InEffect, Listed};
ghost use Rattle.fl_monitor.specs.parts.Acts.{bearing, born_with, Spawns};

use crate::demand::{Demand, check};
use fl_bench::owned::Owned;
use fl_bench::process::{Holding, Process};
use fl_jobs::answer::Refusal;
use fl_labels::cap_set::CapSet;
use fl_mailbox::mailbox::Mailbox;
use fl_message::boxed::Boxed;
use fl_ops::view::View;
use fl_rules::labels::Labels;
use std::alloc::{AllocError, Global};

// A process with these labels, the owner of these capabilities.
fn child_with(alloc: Global, labels: &Labels, caps: CapSet) -> Result<Boxed<Process>, AllocError>
    ensures { IfOk result (λ child. child ≡ born_with labels.now caps) }
{
    let child = Process {
        labels: labels.copy(alloc)?,
        owned: Holding::Idle(Owned::new(caps)),
        mailbox: Mailbox::new(alloc),
    };
    Boxed::new(alloc, child)
}

/// A process with these labels that owns the second capabilities is to be born, where the owner of
/// the first ones has them in effect.
pub(crate) fn spawn<V: View>(
    alloc: Global,
    view: &mut V,
    owned: &CapSet,
    labels: &Labels,
    caps: CapSet,
) -> Result<Result<Boxed<Process>, AllocError>, Refusal>
    ensures spawns { Spawns (InEffect (Listed (V.list view.old)) (In owned.now)) labels.now caps
        (bearing result) }
    ensures same { view.new ≡ view.old }
{
    check(view, owned, Demand::Grant(&caps))?;
    Ok(child_with(alloc, labels, caps))
}
