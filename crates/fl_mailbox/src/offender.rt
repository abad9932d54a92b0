//! What makes endpoints unsafe.
ghost use Rattle.fl_labels.specs.Found.{Within};
ghost use Rattle.fl_rules.specs.Judges.{Judges};
ghost use Rattle.fl_rules.specs.Labels.{sets_of};
ghost use Rattle.fl_mailbox.specs.Offenders.{offender_cmp, CrossesAt, DualAt};

use crate::endpoints::Endpoints;
use fl_labels::endpoint::Endpoint;
use fl_labels::name::Name;
use fl_rules::endpoint::safe_endpoint;
use fl_rules::has::Has;
use fl_rules::labels::LabelsRef;

/// A tag that is lost or gained between an endpoint and its process.
#[derive(Clone, Copy, Debug, PartialEq, Eq)]
pub struct Offender {
    pub endpoint: Endpoint,
    pub tag: Name,
}

/// The least of the process's open endpoints that is not safe, with the least tag that makes it so,
/// or none where each is safe. At most four walks for each endpoint, each along two labels. Takes
/// no memory.
pub fn first_unsafe<H: Has>(
    has: &mut H,
    process: LabelsRef<'_>,
    endpoints: &Endpoints,
) -> Option<Offender>
    ensures found { let P = CrossesAt (sets_of process.entry) endpoints.now in
        let Q = DualAt (H.effective has.old) in
        Judges offender_cmp (Within P Q) P Q result }
    ensures same { H.keeps has.old has.new }
{
    for (endpoint, opened) in endpoints.iter() {
        if let Some(tag) = safe_endpoint(has, opened.mode, process, opened.labels.lend()) {
            return Some(Offender {
                endpoint: *endpoint,
                tag,
            });
        }
    }
    None
}
