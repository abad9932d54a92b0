//! When something may leave for the outside.
ghost use Rattle.std.specs.Prelude.{⊤};
ghost use Rattle.fl_labels.specs.Name.{name_cmp};
ghost use Rattle.fl_labels.specs.SetBy.{In};
ghost use Rattle.fl_labels.specs.parts.First.{IsFirst};
ghost use Rattle.fl_rules.specs.Judges.{Judges};
ghost use Rattle.fl_rules.specs.Safety.{SafeEmission};
ghost use Rattle.fl_labels.specs.Caps.{Dual};

use crate::has::{Has, has_both};
use fl_labels::label::Label;
use fl_labels::name::Name;

// The first of the tags that may not be both added and removed.
fn first_kept<H: Has>(has: &mut H, tags: &[Name]) -> Option<Name>
    ensures first { IsFirst (λ _. ⊤) (Dual (H.effective has.old)) tags.now result }
    ensures same { H.keeps has.old has.new }
{
    for tag in tags {
        if !has_both(has, *tag) {
            return Some(*tag);
        }
    }
    None
}

/// The least tag of the label that may not be both added and removed, and so may not leave for the
/// outside, or none where the whole label may. At most two questions for each tag. Takes no memory.
pub fn safe_emit<H: Has>(has: &mut H, secrecy: &Label) -> Option<Name>
    ensures found { let E = H.effective has.old in
        Judges name_cmp (SafeEmission E secrecy.now) (In secrecy.now) (Dual E) result }
    ensures same { H.keeps has.old has.new }
{
    first_kept(has, secrecy.as_slice())
}
