//! The first of the shortest chains.
ghost use Rattle.std.specs.Prelude.{IfOk, OnErr};
ghost use Rattle.std.specs.List.{Contains};
ghost use Rattle.fl_ops.specs.Registry.{Listed};
ghost use Rattle.fl_chains.specs.Chain.{FindsChain};
ghost use Rattle.fl_chains.specs.Roots.{RootsOf};

use crate::legs::least_leg;
use crate::roots::{Roots, is_root, roots_of};
use crate::search::walk_back;
use crate::step::Step;
use fl_labels::cap::Cap;
use fl_ops::op::Op;
use std::alloc::{AllocError, Global};

/// A capability, and the steps that lead from it to another.
#[derive(Debug, Drop)]
pub struct Chain {
    /// Where it begins.
    pub root: Cap,
    /// None where it ends there.
    pub steps: Vec<Step>,
}

// The least chain from one of these roots.
fn chain_from(
    alloc: Global,
    ops: &[Op],
    roots: &[Cap],
    cap: Cap,
) -> Result<Option<Chain>, AllocError>
    ensures { IfOk result (FindsChain (Listed ops.now) (Contains roots.now) cap) }
{
    let walk = walk_back(alloc, ops, roots, cap)?;
    let Some(root) = walk.root else {
        return Ok(None);
    };
    let mut steps = Vec::new(alloc);
    let mut at = root;
    let mut left = walk.away;
    while left > 0 {
        left -= 1;
        let step = least_leg(&walk.legs, at, left).unwrap();
        steps.push(step)?;
        at = step.cap;
    }
    Ok(Some(Chain { root, steps }))
}

/// The first of the shortest chains that lead to the capability from what it begins with, or none
/// where no chain does. Of chains of as many steps, that one comes first which has the lesser
/// capability at the first place where they differ, and where all are the same, the lesser name of
/// an operation.
///
/// Fails only where there is not enough memory; where a chain may begin with the capability, none
/// is wanted. Else, for each step back from the capability, a binary search for each root and each
/// operation that leads no nearer, up to the nearest root, or until no step leads on; and then for
/// each step of the chain a look at each step that was found. Takes some copies of the operations
/// and of the roots until it returns.
pub fn least_chain(
    alloc: Global,
    ops: &[Op],
    roots: Roots<'_>,
    cap: Cap,
) -> Result<Option<Chain>, AllocError>
    ensures found { let U = Listed ops.now in
        IfOk result (FindsChain U (RootsOf U roots.entry) cap) }
    ensures memory { OnErr result (¬ RootsOf (Listed ops.now) roots.entry cap) }
{
    if is_root(ops, roots, cap) {
        return Ok(Some(Chain {
            root: cap,
            steps: Vec::new(alloc),
        }));
    }
    let all = roots_of(alloc, ops, roots)?;
    chain_from(alloc, ops, &all, cap)
}
