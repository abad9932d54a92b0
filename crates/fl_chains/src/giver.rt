//! What operations give to everybody.
ghost use Rattle.std.specs.Prelude.{◌≡◌, ◌↔◌, Some, IsSome};
ghost use Rattle.fl_labels.specs.declared.cap.Cap.{Cap};
ghost use Rattle.fl_labels.specs.Name.{name_cmp};
ghost use Rattle.fl_ops.specs.Registry.{IsGlobal, Listed};
ghost use Rattle.fl_chains.specs.Giver.{Alone, IsGiver};
ghost use Rattle.fl_chains.specs.Least.{FindsLeast};

use crate::least::lesser;
use fl_labels::cap::Cap;
use fl_labels::name::Name;
use fl_ops::op::{Body, Op, Policy};

/// What the operation gives to everybody.
pub(crate) fn gift(op: &Op) -> Option<Cap>
    ensures { (c : Cap) → (result ≡ Some c) ↔ IsGlobal (Alone op.now) c }
{
    match op.body {
        Body::MakeTag(Policy::Export) => Some(Cap::Plus(op.name)),
        Body::MakeTag(Policy::Integrity) => Some(Cap::Minus(op.name)),
        Body::Open(group) => Some(Cap::Use(group)),
        Body::MakeTag(Policy::Read) | Body::MakeGroup => None,
        Body::Put(_, _) | Body::MakeLogin(_, _) => None,
    }
}

/// The least name of an operation that gives the capability to everybody: that makes the tag which
/// everybody may add or remove, or opens the group. None where no operation does. A look at each
/// operation; takes no memory.
pub fn giver(ops: &[Op], cap: Cap) -> Option<Name>
    ensures least { FindsLeast name_cmp (IsGiver (Listed ops.now) cap) result }
    ensures global { IsSome result ↔ IsGlobal (Listed ops.now) cap }
{
    let mut best = None;
    for op in ops {
        if gift(op) == Some(cap) {
            best = Some(lesser(best, op.name));
        }
    }
    best
}
