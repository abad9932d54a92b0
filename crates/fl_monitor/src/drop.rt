//! Capabilities that are dropped.
ghost use Rattle.std.specs.Prelude.{◌≡◌, not, OnOk, OnErr, IfErr};
ghost use Rattle.std.specs.Result.{IsErr};
ghost use Rattle.fl_labels.specs.SetBy as set;
ghost use Rattle.fl_ops.specs.Registry.{Listed};
ghost use Rattle.fl_rules.specs.Labels.{sets_of};
ghost use Rattle.fl_bench.specs.Guards.{endpoints_check};
ghost use Rattle.fl_monitor.specs.parts.Acts.{Drops};
ghost use Rattle.fl_bench.specs.Checks.{refuse_if};
ghost use Rattle.fl_jobs.specs.declared.answer.Refusal.TheVariants.{NotOwned};
ghost use Rattle.fl_monitor.specs.parts.Checked.{Checked, CheckedBy, drop_checks};

use crate::demand::check_endpoints;
use fl_bench::owned::Owned;
use fl_jobs::answer::{Outcome, Refusal, Reply};
use fl_labels::cap::Cap;
use fl_labels::cap_set::CapSet;
use fl_mailbox::endpoints::Endpoints;
use fl_ops::view::View;
use fl_rules::labels::LabelsRef;

// Who judges whether the endpoints of a process of these labels stay safe.
#[derive(Drop)]
struct Judge<'a, V: View> {
    view: &'a mut V,
    labels: LabelsRef<'a>,
    endpoints: &'a Endpoints,
}

impl<'a, V: View> Judge<'a, V> {
    // Whether the endpoints stay safe where these are owned, or else why not.
    fn judge(&mut self, rest: &CapSet) -> Result<(), Refusal>
        ensures checked { CheckedBy (V.list self.old.view.now) rest.now
            (λ E. endpoints_check E (sets_of self.old.labels) self.old.endpoints.now) result }
        ensures same { self.new.view.now ≡ self.old.view.now }
        ensures view { self.new.view.ghost_name ≡ self.old.view.ghost_name }
    {
        check_endpoints(self.view, rest, self.labels, self.endpoints)
    }

    // Takes the capability out, or says why not and leaves it.
    fn take(&mut self, owned: &mut Owned, cap: Cap) -> Result<(), Refusal>
        ensures checked { let rest = set.remove owned.old cap in
            CheckedBy (V.list self.old.view.now) rest
            (λ E. endpoints_check E (sets_of self.old.labels) self.old.endpoints.now) result }
        ensures ok { OnOk result (owned.new ≡ set.remove owned.old cap) }
        ensures err { OnErr result (owned.new ≡ owned.old) }
        ensures same { self.new.view.now ≡ self.old.view.now }
        ensures view { self.new.view.ghost_name ≡ self.old.view.ghost_name }
    {
        owned.remove_if(
            cap,
            self,
            |judge, rest|
                ensures checked { CheckedBy (V.list judge.old.view.now) rest.now
                    (λ E. endpoints_check E (sets_of judge.old.labels) judge.old.endpoints.now)
                    result }
                ensures same { judge.new.view.now ≡ judge.old.view.now }
                ensures view { judge.new.view.ghost_name ≡ judge.old.view.ghost_name }
            { judge.judge(rest) },
        )
    }

    // What `take` would answer. The set is as before.
    fn consider(&mut self, owned: &mut Owned, cap: Cap) -> Result<(), Refusal>
        ensures checked { let rest = set.remove owned.old cap in
            CheckedBy (V.list self.old.view.now) rest
            (λ E. endpoints_check E (sets_of self.old.labels) self.old.endpoints.now) result }
        ensures kept { owned.new ≡ owned.old }
        ensures same { self.new.view.now ≡ self.old.view.now }
        ensures view { self.new.view.ghost_name ≡ self.old.view.ghost_name }
    {
        let verdict = owned.remove_if(
            cap,
            self,
            |judge, rest|
                ensures refuses { IsErr result }
                ensures checked { IfErr result (λ verdict.
                    CheckedBy (V.list judge.old.view.now) rest.now
                    (λ E. endpoints_check E (sets_of judge.old.labels) judge.old.endpoints.now)
                    verdict) }
                ensures same { judge.new.view.now ≡ judge.old.view.now }
                ensures view { judge.new.view.ghost_name ≡ judge.old.view.ghost_name }
            { Err::<(), Result<(), Refusal>>(judge.judge(rest)) },
        );
        match verdict {
            Ok(()) => unreachable!("the judge lets nothing go"),
            Err(verdict) => verdict,
        }
    }
}

// Whether the capability is owned, or else why it is not dropped.
fn check_owned(owned: &CapSet, cap: Cap) -> Result<(), Refusal>
    ensures { Checked (refuse_if (not (set.contains owned.now cap)) (NotOwned cap)) result }
{
    if !owned.contains(cap) {
        return Err(Refusal::NotOwned(cap));
    }
    Ok(())
}

/// Whether `drop_cap` would take the capability away, or else why not. What is owned is as before.
/// Takes no memory.
pub(crate) fn check_drop<V: View>(
    view: &mut V,
    labels: LabelsRef<'_>,
    endpoints: &Endpoints,
    owned: &mut Owned,
    cap: Cap,
) -> Result<(), Refusal>
    ensures checked { let registry = Listed (V.list view.old) in
        Checked (drop_checks registry (sets_of labels.entry) endpoints.now owned.old cap) result }
    ensures kept { owned.new ≡ owned.old }
    ensures same { view.new ≡ view.old }
{
    check_owned(owned.caps(), cap)?;
    let mut judge = Judge {
        view,
        labels,
        endpoints,
    };
    judge.consider(owned, cap)
}

/// Takes the capability away, where it is owned, and each endpoint of its owner, who has these
/// labels, stays safe. Takes no memory.
pub(crate) fn drop_cap<V: View>(
    view: &mut V,
    labels: LabelsRef<'_>,
    endpoints: &Endpoints,
    owned: &mut Owned,
    cap: Cap,
) -> Result<Outcome, Refusal>
    ensures drops { Drops (Listed (V.list view.old)) (sets_of labels.entry) endpoints.now owned.old
        cap result owned.new }
    ensures same { view.new ≡ view.old }
{
    check_owned(owned.caps(), cap)?;
    let mut judge = Judge {
        view,
        labels,
        endpoints,
    };
    judge.take(owned, cap)?;
    Ok(Outcome::Reply(Reply::Done))
}
