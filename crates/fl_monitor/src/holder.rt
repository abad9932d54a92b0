//! What the owner of capabilities has in effect.
ghost use Rattle.std.specs.Prelude.{◌≡◌, IfSome, true};
ghost use Rattle.std.specs.List.Sorted.{IsStrictlySortedBy};
ghost use Rattle.std.specs.Result.{is_ok};
ghost use Rattle.fl_labels.specs.Cap.{cap_cmp};
ghost use Rattle.fl_labels.specs.SetBy as set;

use fl_labels::cap::Cap;
use fl_labels::cap_set::CapSet;
use fl_ops::view::View;
use fl_rules::has::Has;

// Among so few capabilities a search costs no more than a look at those that are near.
const FEW: usize = 64;

// How many capabilities count as near.
const NEAR: usize = 4;

/// Where questions are met among what is owned. Questions rise, along one label or along two in
/// turn, so each is looked for behind the last one, and then where the run before this one began.
#[derive(Clone, Copy, Debug)]
pub struct Runs {
    // where this run began
    start: usize,
    // where the next question of it is likely to be met
    next: usize,
    // where the run before it began
    other: usize,
}

// Where the capability stands among those from this place on that are near.
fn near(caps: &[Cap], place: usize, cap: Cap) -> Option<usize>
    ensures { IfSome result (λ _. set.contains (set.of_list {R = cap_cmp} caps.now) cap ≡ true) }
{
    let end = caps.len().min(place.saturating_add(NEAR));
    for near in place..end {
        if caps[near] == cap {
            return Some(near);
        }
    }
    None
}

// Where the capability stands among these, which rise, or where it would. Those from this place on
// are looked at first.
fn seek(caps: &[Cap], place: usize, cap: Cap) -> Result<usize, usize>
    requires { IsStrictlySortedBy cap_cmp caps.now }
    ensures { is_ok result ≡ set.contains (set.of_list {R = cap_cmp} caps.now) cap }
{
    match near(caps, place, cap) {
        Some(place) => Ok(place),
        None => caps.binary_search(&cap),
    }
}

impl Runs {
    /// No question has come.
    pub fn new() -> Self {
        Runs {
            start: 0,
            next: 0,
            // behind all that are owned, since no run came before
            other: usize::MAX,
        }
    }

    // Whether the capability is one of these, which rise. Notes where it is met.
    fn meet(&mut self, caps: &[Cap], cap: Cap) -> bool
        requires { IsStrictlySortedBy cap_cmp caps.now }
        ensures { result ≡ set.contains (set.of_list {R = cap_cmp} caps.now) cap }
    {
        if let Some(place) = near(caps, self.next, cap) {
            self.next = place.saturating_add(1);
            return true;
        }
        match seek(caps, self.other, cap) {
            Ok(place) => {
                self.other = self.start;
                self.start = place;
                self.next = place.saturating_add(1);
                true
            }
            Err(place) => {
                self.next = place;
                false
            }
        }
    }
}

/// The owner of a set of capabilities, under a view.
#[derive(Drop)]
pub struct Holder<'a, V: View> {
    pub view: &'a mut V,
    pub owned: &'a CapSet,
    pub runs: Runs,
}

impl<'a, V: View> Has for Holder<'a, V> {
    ghost use Rattle.std.specs.Prelude.{◌≡◌, refl};
    ghost use Rattle.std.proofs.Common.{◌∙◌, ap};
    ghost use Rattle.fl_labels.specs.SetBy.{In};
    ghost use Rattle.fl_ops.specs.Registry.{InEffect, Listed};
    ghost use Rattle.fl_monitor.specs.parts.Holder.{same_effective};

    ghost effective = { λ h. InEffect (Listed (V.list h.view.now)) (In h.owned.now) };

    // the same reference to the same view, and the same owner
    ghost keeps = { λ a b. (b.view.ghost_name ≡ a.view.ghost_name)
        × ((b.view.now ≡ a.view.now) × (b.owned.now ≡ a.owned.now)) };

    fn has(&mut self, cap: Cap) -> bool {
        let caps = self.owned.as_slice();
        if caps.len() > FEW && self.runs.meet(caps, cap) {
            return true;
        }
        self.view.effective(self.owned, cap)
    }

    ghost keeps_itself = { λ a. (refl, (refl, refl)) };

    ghost keeps_on = { λ a b c p q. (q.0 ∙ p.0, (q.1.0 ∙ p.1.0, q.1.1 ∙ p.1.1)) };

    ghost keeps_effective = { λ a b p. same_effective _ _ _ _ (ap (λ v. V.list v) p.1.0) p.1.1 };
}
