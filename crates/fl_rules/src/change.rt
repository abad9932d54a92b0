//! When a label may become another.
ghost use Rattle.std.specs.List.Sorted.{IsStrictlySortedBy};
ghost use Rattle.fl_labels.specs.Cap.{cap_cmp};
ghost use Rattle.fl_labels.specs.Name.{name_cmp};
ghost use Rattle.fl_labels.specs.Found.{Found};
ghost use Rattle.fl_rules.specs.Judges.{Judges};
ghost use Rattle.fl_rules.specs.Safety.{Takes, SafeChange};
ghost use Rattle.fl_rules.specs.parts.Walk.{Turns};

use crate::has::Has;
use crate::walk::split_change;
use fl_labels::cap::Cap;
use fl_labels::label::Label;
use fl_labels::name::Name;

// The least capability that the way from one list to the other takes and that is not in effect.
fn first_wanting<H: Has>(has: &mut H, from: &[Name], to: &[Name]) -> Option<Cap>
    requires from_rises { IsStrictlySortedBy name_cmp from.now }
    requires to_rises { IsStrictlySortedBy name_cmp to.now }
    ensures found { Found cap_cmp (Turns from.now to.now) (H.effective has.old) result }
    ensures same { H.keeps has.old has.new }
{
    let mut old = from;
    let mut new = to;
    while let Some(step) = split_change(old, new) {
        if let Some(cap) = step.cap {
            if !has.has(cap) {
                return Some(cap);
            }
        }
        old = step.from;
        new = step.to;
    }
    None
}

/// The least capability that the change of a label takes and that is not in effect, or none where
/// all are. One walk along both labels, with one question for each tag that only one of them has.
/// Takes no memory.
pub fn safe_change<H: Has>(has: &mut H, from: &Label, to: &Label) -> Option<Cap>
    ensures found { let E = H.effective has.old in
        Judges cap_cmp (SafeChange E from.now to.now) (Takes from.now to.now) E result }
    ensures same { H.keeps has.old has.new }
{
    first_wanting(has, from.as_slice(), to.as_slice())
}
