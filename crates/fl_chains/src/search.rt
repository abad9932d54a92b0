//! The walk backwards from a capability.
ghost use Rattle.std.specs.Prelude.{IfOk};
ghost use Rattle.std.specs.List.{Contains};
ghost use Rattle.fl_ops.specs.Registry.{Listed};
ghost use Rattle.fl_chains.specs.parts.Search.{Walks};

use crate::legs::{Leg, add_legs, least_near, split, starts_of};
use fl_labels::cap::Cap;
use fl_labels::cap_set::CapSet;
use fl_ops::op::Op;
use std::alloc::{AllocError, Global};

/// How far a walk came.
#[derive(Drop)]
pub struct Walk {
    /// The least of the nearest roots, or none where no root leads to the capability.
    pub root: Option<Cap>,
    /// How many steps were gone.
    pub away: usize,
    /// The steps that lead on: all that there are where there is no root.
    pub legs: Vec<Leg>,
}

/// Walks from the capability to the least of the roots that are the fewest steps away, or along all
/// steps that lead to it where no root does. For each step back, a binary search for each root and
/// each operation that leads no nearer. Fails only where there is not enough memory.
pub(crate) fn walk_back(
    alloc: Global,
    ops: &[Op],
    roots: &[Cap],
    cap: Cap,
) -> Result<Walk, AllocError>
    ensures { IfOk result (Walks (Listed ops.now) (Contains roots.now) cap) }
{
    let mut legs = Vec::new(alloc);
    let mut rest = Vec::from_slice(alloc, ops)?;
    let mut near = CapSet::new(alloc);
    near.insert(cap)?;
    let mut away = 0;
    loop {
        if let Some(root) = least_near(roots, &near) {
            return Ok(Walk {
                root: Some(root),
                away,
                legs,
            });
        }
        let parts = split(alloc, &rest, &near)?;
        if parts.taken.is_empty() {
            return Ok(Walk {
                root: None,
                away,
                legs,
            });
        }
        add_legs(&mut legs, &parts.taken, away)?;
        near = starts_of(alloc, &parts.taken)?;
        rest = parts.rest;
        away += 1;
    }
}
