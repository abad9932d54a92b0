//! Copies of what jobs name.
ghost use Rattle.std.specs.Prelude.{◌≡◌, true, is_some, IfOk, OnErr};
ghost use Rattle.fl_jobs.specs.Given.{labels_of};

use fl_jobs::job::GivenLabels;
use fl_rules::labels::Labels;
use std::alloc::{AllocError, Global};

/// Both labels again, where neither is too long. Wants memory only where that is so.
pub(crate) fn given(alloc: Global, labels: &GivenLabels) -> Result<Option<Labels>, AllocError>
    ensures ok { IfOk result (λ made. made ≡ labels_of labels.now) }
    ensures err { OnErr result (is_some (labels_of labels.now) ≡ true) }
{
    match (&labels.secrecy, &labels.integrity) {
        (Ok(secrecy), Ok(integrity)) => Ok(Some(Labels {
            secrecy: secrecy.copy(alloc)?,
            integrity: integrity.copy(alloc)?,
        })),
        _ => Ok(None),
    }
}
