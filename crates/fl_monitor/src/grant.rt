//! Handing on of capabilities.
ghost use Rattle.std.specs.Prelude.{⊤};
ghost use Rattle.fl_labels.specs.parts.First.{IsFirst};

use fl_labels::cap::Cap;
use fl_rules::has::Has;

/// The first of these capabilities that is not in effect, or none where each is. One question for
/// each.
pub(crate) fn first_unheld<H: Has>(has: &mut H, caps: &[Cap]) -> Option<Cap>
    ensures first { IsFirst (λ _. ⊤) (H.effective has.old) caps.now result }
    ensures same { H.keeps has.old has.new }
{
    for cap in caps {
        if !has.has(*cap) {
            return Some(*cap);
        }
    }
    None
}
