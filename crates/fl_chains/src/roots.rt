//! Where chains begin.
ghost use Rattle.std.specs.Prelude.{◌↔◌, IfOk};
ghost use Rattle.std.specs.List.{Contains};
ghost use Rattle.fl_labels.specs.Found.{Tells};
ghost use Rattle.fl_labels.specs.declared.cap.Cap.{Cap};
ghost use Rattle.fl_ops.specs.Registry.{Listed, WithGlobal};
ghost use Rattle.fl_chains.specs.Roots.{RootsOf};

use crate::giver::{gift, giver};
use fl_labels::cap::Cap;
use fl_labels::name::Name;
use fl_ops::op::Op;
use std::alloc::{AllocError, Global};

/// Whose capability it is that is explained.
#[derive(Clone, Copy)]
pub enum Roots<'a> {
    /// That of who owns these: chains begin with what is owned, and with what everybody has.
    Owned(&'a [Cap]),
    /// That of who may use the group: chains begin with its use.
    Group(Name),
}

/// Whether the capability is one of these. A look at each; takes no memory.
pub fn owns(owned: &[Cap], cap: Cap) -> bool
    ensures { Tells result (Contains owned.now cap) }
{
    owned.contains(&cap)
}

/// Whether a chain may begin with the capability. Takes no memory.
pub(crate) fn is_root(ops: &[Op], roots: Roots<'_>, cap: Cap) -> bool
    ensures { Tells result (RootsOf (Listed ops.now) roots.entry cap) }
{
    match roots {
        Roots::Owned(owned) => owns(owned, cap) || giver(ops, cap).is_some(),
        Roots::Group(group) => cap == Cap::Use(group),
    }
}

// What is owned, and what the operations give to everybody.
fn with_gifts(alloc: Global, owned: &[Cap], ops: &[Op]) -> Result<Vec<Cap>, AllocError>
    ensures { IfOk result (λ made. (c : Cap) →
        Contains made.items c ↔ WithGlobal (Listed ops.now) (Contains owned.now) c) }
{
    let mut made = Vec::from_slice(alloc, owned)?;
    for op in ops {
        if let Some(cap) = gift(op) {
            made.push(cap)?;
        }
    }
    Ok(made)
}

/// The capabilities with which a chain may begin. Fails only where there is not enough memory.
pub(crate) fn roots_of(alloc: Global, ops: &[Op], roots: Roots<'_>) -> Result<Vec<Cap>, AllocError>
    ensures { IfOk result (λ made. (c : Cap) →
        Contains made.items c ↔ RootsOf (Listed ops.now) roots.entry c) }
{
    match roots {
        Roots::Owned(owned) => with_gifts(alloc, owned, ops),
        Roots::Group(group) => {
            let mut made = Vec::new(alloc);
            made.push(Cap::Use(group))?;
            Ok(made)
        }
    }
}
