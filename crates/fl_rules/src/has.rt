//! Who has capabilities in effect.
ghost use Rattle.fl_labels.specs.Found.{Tells};
ghost use Rattle.fl_labels.specs.Caps.{Dual};

use fl_labels::cap::Cap;
use fl_labels::cap_set::CapSet;
use fl_labels::name::Name;

/// Someone with a set of capabilities in effect, which asking does not change.
pub trait Has {
    ghost use Rattle.std.specs.Prelude.{◌↔◌};
    ghost use Rattle.fl_labels.specs.Found.{Tells};
    ghost use Rattle.fl_labels.specs.declared.cap.Cap.{Cap};

    // what is in effect
    ghost effective: { Self → Cap → Type 0 };

    // the second value is what the first may be after questions
    ghost keeps: { Self → Self → Type 0 };

    /// Whether the capability is in effect.
    fn has(&mut self, cap: Cap) -> bool
        ensures answer { Tells result (effective self.old cap) }
        ensures same { keeps self.old self.new };

    // no question leaves all as it was
    ghost keeps_itself: { (a : Self) → keeps a a };

    // one question after another
    ghost keeps_on: { (a b c : Self) → keeps a b → keeps b c → keeps a c };

    // no question changes what is in effect
    ghost keeps_effective: { (a b : Self) → keeps a b → (cap : Cap)
        → effective b cap ↔ effective a cap };
}

/// Whether the tag may be both added and removed. At most two questions.
pub(crate) fn has_both<H: Has>(has: &mut H, tag: Name) -> bool
    ensures answer { Tells result (Dual (H.effective has.old) tag) }
    ensures same { H.keeps has.old has.new }
{
    has.has(Cap::Plus(tag)) && has.has(Cap::Minus(tag))
}

/// The owner of a set, with nothing else in effect.
#[derive(Clone, Copy, Debug)]
pub struct Owner<'a> {
    pub owned: &'a CapSet,
}

impl<'a> Has for Owner<'a> {
    ghost use Rattle.std.specs.Prelude.{◌≡◌, refl};
    ghost use Rattle.std.proofs.Common.{sym, subst, ◌∙◌};
    ghost use Rattle.fl_labels.specs.SetBy.{In};

    ghost effective = { λ owner. In owner.owned.now };

    ghost keeps = { λ a b. b.owned.now ≡ a.owned.now };

    fn has(&mut self, cap: Cap) -> bool {
        self.owned.contains(cap)
    }

    ghost keeps_itself = { λ a. refl };

    ghost keeps_on = { λ a b c p q. q ∙ p };

    ghost keeps_effective = { λ a b e cap.
        (subst (λ s. In s cap) e, subst (λ s. In s cap) (sym e)) };
}
