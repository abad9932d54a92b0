//! Changes of labels.
ghost use Rattle.std.specs.Prelude.{◌≡◌};
ghost use Rattle.fl_ops.specs.Registry.{Listed};
ghost use Rattle.fl_rules.specs.Labels.{sets_of};
ghost use Rattle.fl_bench.specs.Process.{side_of, with_side};
ghost use Rattle.fl_monitor.specs.parts.Acts.{Relabels};
ghost use Rattle.fl_monitor.specs.parts.Checked.{CheckedBy, given_checks, relabel_checks};

use crate::demand::{Demand, check, check_endpoints};
use fl_jobs::answer::{Outcome, Refusal, Reply};
use fl_jobs::job::{Side, TooLong};
use fl_labels::cap_set::CapSet;
use fl_labels::label::Label;
use fl_mailbox::endpoints::Endpoints;
use fl_ops::view::View;
use fl_rules::labels::{Labels, LabelsRef};
use std::mem::swap;

pub(crate) fn label_of(labels: &Labels, side: Side) -> &Label
    ensures { result.now ≡ side_of side labels.now }
{
    match side {
        Side::Secrecy => &labels.secrecy,
        Side::Integrity => &labels.integrity,
    }
}

// The labels with another one on this side.
fn with_label<'a>(labels: &'a Labels, side: Side, label: &'a Label) -> LabelsRef<'a>
    ensures { sets_of result ≡ with_side side label.now labels.now }
{
    match side {
        Side::Secrecy => LabelsRef {
            secrecy: label,
            integrity: &labels.integrity,
        },
        Side::Integrity => LabelsRef {
            secrecy: &labels.secrecy,
            integrity: label,
        },
    }
}

// Sets the label, and leaves the one that was there.
fn set_label(labels: &mut Labels, side: Side, label: &mut Label)
    ensures { labels.new ≡ with_side side label.old labels.old }
{
    match side {
        Side::Secrecy => swap(&mut labels.secrecy, label),
        Side::Integrity => swap(&mut labels.integrity, label),
    }
}

// Whether the owner of these capabilities may set the label of a side, and each of its endpoints
// stays safe, or else why not.
fn check_relabel<V: View>(
    view: &mut V,
    owned: &CapSet,
    endpoints: &Endpoints,
    labels: &Labels,
    side: Side,
    label: &Label,
) -> Result<(), Refusal>
    ensures checked { CheckedBy (V.list view.old) owned.now
        (λ E. relabel_checks E labels.now endpoints.now side label.now) result }
    ensures same { view.new ≡ view.old }
{
    let old = label_of(labels, side);
    check(view, owned, Demand::Change(old, label))?;
    let as_changed = with_label(labels, side, label);
    check_endpoints(view, owned, as_changed, endpoints)
}

/// Whether `relabel` would set the label, or else why not. Takes no memory.
pub(crate) fn check_given<V: View>(
    view: &mut V,
    owned: &CapSet,
    endpoints: &Endpoints,
    labels: &Labels,
    side: Side,
    label: &Result<Label, TooLong>,
) -> Result<(), Refusal>
    ensures checked { CheckedBy (V.list view.old) owned.now
        (λ E. given_checks E labels.now endpoints.now side label.now) result }
    ensures same { view.new ≡ view.old }
{
    let Ok(label) = label else {
        return Err(Refusal::LabelTooLong);
    };
    check_relabel(view, owned, endpoints, labels, side, label)
}

/// Sets the label of a side, where the owner of these capabilities may change it so, and each of
/// its endpoints stays safe. A label of too many tags is refused before anything is asked. Takes no
/// memory.
pub(crate) fn relabel<V: View>(
    view: &mut V,
    owned: &CapSet,
    endpoints: &Endpoints,
    labels: &mut Labels,
    side: Side,
    label: &mut Result<Label, TooLong>,
) -> Result<Outcome, Refusal>
    ensures relabels { let registry = Listed (V.list view.old) in
        Relabels registry owned.now endpoints.now labels.old side label.old result labels.new }
    ensures same { view.new ≡ view.old }
{
    let Ok(label) = label else {
        return Err(Refusal::LabelTooLong);
    };
    check_relabel(view, owned, endpoints, labels, side, label)?;
    set_label(labels, side, label);
    Ok(Outcome::Reply(Reply::Done))
}
