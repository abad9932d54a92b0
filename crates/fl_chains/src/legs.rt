//! The steps of chains to one capability, by how many steps are left after them.
ghost use Rattle.std.specs.Prelude.{◌≡◌, ◌↔◌, ◌⊎◌, Some, IfOk, OnOk};
ghost use Rattle.std.specs.List.{Contains};
ghost use Rattle.fl_labels.specs.SetBy.{In};
ghost use Rattle.fl_labels.specs.Cap.{cap_cmp};
ghost use Rattle.fl_labels.specs.declared.cap.Cap.{Cap};
ghost use Rattle.fl_chains.specs.declared.step.Step.{Step};
ghost use Rattle.fl_chains.specs.declared.legs.Leg.{Leg};
ghost use Rattle.fl_chains.specs.Step.{put_op, step_cmp};
ghost use Rattle.fl_chains.specs.Least.{FindsLeast};
ghost use Rattle.fl_chains.specs.parts.Legs.{Splits, StartsIn, LeadsOn};

use crate::least::lesser;
use crate::step::Step;
use fl_labels::cap::Cap;
use fl_labels::cap_set::CapSet;
use fl_ops::op::Op;
use std::alloc::{AllocError, Global};

/// A step, and how many are left after it.
#[derive(Clone, Copy)]
pub struct Leg {
    pub step: Step,
    pub left: usize,
}

/// Operations, parted by whether a step rests on them that leads to one of some capabilities.
#[derive(Drop)]
pub struct Parts {
    pub taken: Vec<Step>,
    pub rest: Vec<Op>,
}

// The step that rests on the operation, where it leads to one of these.
fn step_to(op: &Op, near: &CapSet) -> Option<Step>
    ensures { (s : Step) → (result ≡ Some s) ↔ ((put_op s ≡ op.now) × In near.now s.cap) }
{
    let step = Step::of(op)?;
    if near.contains(step.cap) {
        Some(step)
    } else {
        None
    }
}

/// The steps that lead to one of these capabilities, and the operations on which none rests. A
/// binary search for each operation. Fails only where there is not enough memory.
pub(crate) fn split(alloc: Global, ops: &[Op], near: &CapSet) -> Result<Parts, AllocError>
    ensures { IfOk result (Splits ops.now (In near.now)) }
{
    let mut taken = Vec::new(alloc);
    let mut rest = Vec::new(alloc);
    for op in ops {
        match step_to(op, near) {
            Some(step) => taken.push(step)?,
            None => rest.push(*op)?,
        }
    }
    Ok(Parts { taken, rest })
}

/// The capabilities that the steps start from. Fails only where there is not enough memory.
pub(crate) fn starts_of(alloc: Global, steps: &[Step]) -> Result<CapSet, AllocError>
    ensures { IfOk result (λ made. (c : Cap) → In made c ↔ StartsIn steps.now c) }
{
    let mut caps = Vec::new(alloc);
    for step in steps {
        caps.push(Cap::Use(step.group))?;
    }
    CapSet::from_vec(caps)
}

/// Adds these steps, with as many left after each. Fails only where there is not enough memory.
pub(crate) fn add_legs(legs: &mut Vec<Leg>, steps: &[Step], left: usize) -> Result<(), AllocError>
    ensures { OnOk result ((l : Leg) → Contains legs.new.items l
        ↔ (Contains legs.old.items l ⊎ (Contains steps.now l.step × (l.left ≡ left)))) }
{
    for step in steps {
        legs.push(Leg { step: *step, left })?;
    }
    Ok(())
}

/// The least of these capabilities that is near. A binary search for each.
pub(crate) fn least_near(caps: &[Cap], near: &CapSet) -> Option<Cap>
    ensures { FindsLeast cap_cmp (λ c. Contains caps.now c × In near.now c) result }
{
    let mut best = None;
    for cap in caps {
        if near.contains(*cap) {
            best = Some(lesser(best, *cap));
        }
    }
    best
}

/// The least of the steps from a capability after which so many are left. A look at each.
pub(crate) fn least_leg(legs: &[Leg], at: Cap, left: usize) -> Option<Step>
    ensures { FindsLeast step_cmp (LeadsOn legs.now at left) result }
{
    let mut best = None;
    for leg in legs {
        if leg.left == left && Cap::Use(leg.step.group) == at {
            best = Some(lesser(best, leg.step));
        }
    }
    best
}
