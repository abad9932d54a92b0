//! The groups whose use leads to a capability, and what else does.
ghost use Rattle.std.specs.Prelude.{◌≡◌, ◌↔◌, ◌⊎◌, IfOk, OnErr, OnOk};
ghost use Rattle.std.specs.List.{Contains};
ghost use Rattle.fl_labels.specs.Found.{Tells};
ghost use Rattle.fl_labels.specs.declared.cap.Cap.TheVariants.{Use};
ghost use Rattle.fl_labels.specs.declared.name.Name.{Name};
ghost use Rattle.fl_ops.specs.Registry.{From, IsGlobal, Listed, Reach};
ghost use Rattle.fl_chains.specs.Leading.{AreGroupsTo, GroupLeads, IsTarget};
ghost use Rattle.fl_chains.specs.parts.Legs.{BeginsLeg, PutsIt};
ghost use Rattle.fl_chains.specs.parts.Search.{AreSteps};

use crate::giver::gift;
use crate::legs::Leg;
use crate::search::walk_back;
use crate::step::Step;
use fl_labels::cap::Cap;
use fl_labels::name::Group;
use fl_labels::sorted::arrange;
use fl_ops::op::Op;
use std::alloc::{AllocError, Global};

/// A capability, and the groups whose use leads to it under these operations, as [`groups_to`]
/// gives them.
#[derive(Clone, Copy)]
pub struct Target<'a> {
    pub ops: &'a [Op],
    pub cap: Cap,
    pub groups: &'a [Group],
}

// Whether an operation puts the capability into a group. A look at each; takes no memory.
fn is_put(ops: &[Op], cap: Cap) -> bool
    ensures { Tells result (PutsIt (Listed ops.now) cap) }
{
    for op in ops {
        if let Some(step) = Step::of(op) {
            if step.cap == cap {
                return true;
            }
        }
    }
    false
}

// All steps that lead to the capability. Fails only where there is one, and not enough memory.
fn steps_to(alloc: Global, ops: &[Op], cap: Cap) -> Result<Vec<Leg>, AllocError>
    ensures found { IfOk result (λ made. AreSteps (Listed ops.now) cap made.items) }
    ensures memory { OnErr result (PutsIt (Listed ops.now) cap) }
{
    if !is_put(ops, cap) {
        return Ok(Vec::new(alloc));
    }
    let walk = walk_back(alloc, ops, &[], cap)?;
    Ok(walk.legs)
}

// The group whose use the capability is, alone.
fn own_group(alloc: Global, cap: Cap) -> Result<Vec<Group>, AllocError>
    ensures found { IfOk result (λ made. (group : Name) →
        Contains made.items group ↔ (Use group ≡ cap)) }
    ensures memory { OnErr result ((group : Name) × (Use group ≡ cap)) }
{
    let mut groups = Vec::new(alloc);
    if let Cap::Use(group) = cap {
        groups.push(group)?;
    }
    Ok(groups)
}

// Adds the groups from whose use the steps lead on.
fn add_groups(groups: &mut Vec<Group>, legs: &[Leg]) -> Result<(), AllocError>
    ensures found { OnOk result ((group : Name) → Contains groups.new.items group
        ↔ (Contains groups.old.items group ⊎ BeginsLeg legs.now group)) }
    ensures memory { OnErr result ((group : Name) × BeginsLeg legs.now group) }
{
    for leg in legs {
        groups.push(leg.step.group)?;
    }
    Ok(())
}

/// The groups whose use leads to the capability, rising: its own too where it is the use of one.
///
/// Fails only where there is such a group, and not enough memory. For each step back from the
/// capability, a binary search for each operation that leads no nearer, until no step leads on, and
/// then a sort of the groups. Takes some copies of the operations until it returns.
pub fn groups_to(alloc: Global, ops: &[Op], cap: Cap) -> Result<Vec<Group>, AllocError>
    ensures found { IfOk result (λ made. AreGroupsTo ops.now cap made.items) }
    ensures memory { OnErr result ((group : Name) × GroupLeads (Listed ops.now) cap group) }
{
    let mut groups = own_group(alloc, cap)?;
    let legs = steps_to(alloc, ops, cap)?;
    add_groups(&mut groups, &legs)?;
    arrange(&mut groups);
    Ok(groups)
}

/// Whether the capability leads to the target. A binary search; takes no memory.
pub fn leads(target: Target<'_>, from: Cap) -> bool
    requires { IsTarget target }
    ensures { let t = target.entry in Tells result (Reach (Listed t.ops.now) (From from) t.cap) }
{
    if from == target.cap {
        return true;
    }
    match from {
        Cap::Use(group) => target.groups.binary_search(&group).is_ok(),
        Cap::Plus(_) | Cap::Minus(_) | Cap::Grow(_) => false,
    }
}

/// Whether one of these capabilities leads to the target. A binary search for each; takes no
/// memory.
pub fn one_leads(target: Target<'_>, caps: &[Cap]) -> bool
    requires { IsTarget target }
    ensures { let t = target.entry in
        Tells result (Reach (Listed t.ops.now) (Contains caps.now) t.cap) }
{
    for cap in caps {
        if leads(target, *cap) {
            return true;
        }
    }
    false
}

/// Whether what everybody has leads to the target. A binary search for each operation; takes no
/// memory.
pub fn everybodys_lead(target: Target<'_>) -> bool
    requires { IsTarget target }
    ensures { let t = target.entry in let U = Listed t.ops.now in
        Tells result (Reach U (IsGlobal U) t.cap) }
{
    for op in target.ops {
        if let Some(cap) = gift(op) {
            if leads(target, cap) {
                return true;
            }
        }
    }
    false
}
