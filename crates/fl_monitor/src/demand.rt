//! What is demanded of who asks for something, and whether it is met.
ghost use Rattle.std.specs.Prelude.{◌≡◌};
ghost use Rattle.fl_labels.specs.SetBy.{In};
ghost use Rattle.fl_ops.specs.Registry.{InEffect, Listed};
ghost use Rattle.fl_rules.specs.Labels.{sets_of};
ghost use Rattle.fl_bench.specs.Guards.{endpoints_check};
ghost use Rattle.fl_monitor.specs.parts.Demand.{demanded};
ghost use Rattle.fl_monitor.specs.parts.Checked.{CheckedBy};

use crate::grant::first_unheld;
use crate::holder::{Holder, Runs};
use fl_bench::taken::Taken;
use fl_jobs::answer::Refusal;
use fl_jobs::job::Order;
use fl_labels::cap_set::CapSet;
use fl_labels::endpoint::Endpoint;
use fl_labels::label::Label;
use fl_mailbox::endpoints::Endpoints;
use fl_mailbox::offender::first_unsafe;
use fl_ops::view::View;
use fl_rules::change::safe_change;
use fl_rules::emission::safe_emit;
use fl_rules::endpoint::safe_endpoint;
use fl_rules::labels::LabelsRef;
use fl_rules::pair::EndRef;

/// What something takes of the capabilities of who asks for it.
#[derive(Clone, Copy)]
pub enum Demand<'a, 'b> {
    /// The change of the first label into the second: to add what it gains, and to remove what it
    /// loses.
    Change(&'a Label, &'b Label),
    /// Bytes that go out under this label: to add and to remove each of its tags.
    Emission(&'a Label),
    /// An order: each capability that it takes.
    Order(Order),
    /// Capabilities that are handed on: each of them.
    Grant(&'a CapSet),
    /// An endpoint beside a process of these labels: to add and to remove each tag that crosses
    /// between them.
    Endpoint(LabelsRef<'a>, Endpoint, EndRef<'b>),
    /// The same, of each of these endpoints.
    Endpoints(LabelsRef<'a>, &'b Endpoints),
}

// Why the owner of these capabilities does not meet the demand, or none where that does. In line,
// as what calls it is, so that each demand is met by a way of its own.
#[inline(always)]
fn first_refusal<V: View>(view: &mut V, owned: &CapSet, demand: Demand<'_, '_>) -> Option<Refusal>
    ensures refuses { demanded demand.entry (InEffect (Listed (V.list view.old)) (In owned.now))
        result }
    ensures same { view.new ≡ view.old }
{
    let mut holder = Holder {
        view,
        owned,
        runs: Runs::new(),
    };
    Some(match demand {
        Demand::Change(from, to) => Refusal::MissingCap(safe_change(&mut holder, from, to)?),
        Demand::Emission(secrecy) => Refusal::Secrecy(safe_emit(&mut holder, secrecy)?),
        Demand::Order(order) => {
            let taken = Taken::by(order);
            Refusal::MissingCap(first_unheld(&mut holder, taken.as_slice())?)
        }
        Demand::Grant(caps) => Refusal::MissingCap(first_unheld(&mut holder, caps.as_slice())?),
        Demand::Endpoint(process, number, end) => {
            let tag = safe_endpoint(&mut holder, end.mode, process, end.labels)?;
            Refusal::UnsafeEndpoint(number, tag)
        }
        Demand::Endpoints(process, endpoints) => {
            let found = first_unsafe(&mut holder, process, endpoints)?;
            Refusal::UnsafeEndpoint(found.endpoint, found.tag)
        }
    })
}

/// Whether the owner of these capabilities meets the demand, or else why not. Takes no memory.
#[inline(always)]
pub(crate) fn check<V: View>(
    view: &mut V,
    owned: &CapSet,
    demand: Demand<'_, '_>,
) -> Result<(), Refusal>
    ensures checked { CheckedBy (V.list view.old) owned.now (demanded demand.entry) result }
    ensures same { view.new ≡ view.old }
{
    match first_refusal(view, owned, demand) {
        None => Ok(()),
        Some(refusal) => Err(refusal),
    }
}

/// The same of all of these endpoints, beside a process of these labels. Most processes have none,
/// and nothing is looked at for them.
pub(crate) fn check_endpoints<V: View>(
    view: &mut V,
    owned: &CapSet,
    labels: LabelsRef<'_>,
    endpoints: &Endpoints,
) -> Result<(), Refusal>
    ensures checked { CheckedBy (V.list view.old) owned.now
        (λ E. endpoints_check E (sets_of labels.entry) endpoints.now) result }
    ensures same { view.new ≡ view.old }
{
    if endpoints.is_empty() {
        return Ok(());
    }
    check(view, owned, Demand::Endpoints(labels, endpoints))
}
