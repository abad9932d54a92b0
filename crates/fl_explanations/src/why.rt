//! Why somebody has a capability.
ghost use Rattle.std.specs.Prelude.{IfOk, OnErr};
ghost use Rattle.std.specs.List.{Contains};
ghost use Rattle.fl_labels.specs.declared.cap.Cap.TheVariants.{Use};
ghost use Rattle.fl_ops.specs.Registry.{From, Listed, WithGlobal};
ghost use Rattle.fl_explanations.specs.Why.{BeginsOwned, BeginsWithUse, FindsWhy};

use fl_chains::chain::{Chain, least_chain};
use fl_chains::giver::giver;
use fl_chains::roots::{Roots, owns};
use fl_chains::step::Step;
use fl_labels::cap::Cap;
use fl_labels::name::{Group, Name};
use fl_ops::op::Op;
use std::alloc::{AllocError, Global};

/// What a chain begins with.
#[derive(Clone, Copy, Debug)]
pub enum First {
    /// What is owned.
    Owns(Cap),
    /// What the operation of this name gives to everybody.
    Everybody(Name),
    /// The use of a group.
    Uses(Group),
}

/// Why somebody has a capability: what the chain begins with that leads to it, and its steps.
#[derive(Debug, Drop)]
pub struct Why {
    pub first: First,
    pub steps: Vec<Step>,
}

// How who owns these has what a chain begins with.
fn first_of(ops: &[Op], owned: &[Cap], root: Cap) -> First
    requires { WithGlobal (Listed ops.now) (Contains owned.now) root }
    ensures { BeginsOwned ops.now owned.now root result }
{
    if owns(owned, root) {
        return First::Owns(root);
    }
    let Some(name) = giver(ops, root) else {
        unreachable!("everybody has it");
    };
    First::Everybody(name)
}

/// Why who owns these has the capability in effect under the published operations, or none where
/// it is not in effect: the first of the shortest chains, as [`least_chain`] has it, which begins
/// with what is owned, or else with what the least of the operations that do gives to everybody.
///
/// Fails only where there is not enough memory, and not where the capability is owned or
/// everybody's. For each step of the chain, a binary search for each operation, and for each
/// capability that is owned.
pub fn why_owned(
    alloc: Global,
    ops: &[Op],
    owned: &[Cap],
    cap: Cap,
) -> Result<Option<Why>, AllocError>
    ensures found { let roots = WithGlobal (Listed ops.now) (Contains owned.now) in
        IfOk result (FindsWhy ops.now roots (BeginsOwned ops.now owned.now) cap) }
    ensures memory { OnErr result (¬ WithGlobal (Listed ops.now) (Contains owned.now) cap) }
{
    let Some(Chain { root, steps }) = least_chain(alloc, ops, Roots::Owned(owned), cap)? else {
        return Ok(None);
    };
    let first = first_of(ops, owned, root);
    Ok(Some(Why { first, steps }))
}

/// Why the use of the group leads to the capability, or none where it does not: the first of the
/// shortest chains that begin with it.
///
/// Fails only where there is not enough memory, and not where the capability is that use. For each
/// step of the chain, a binary search for each operation.
pub fn why_group(
    alloc: Global,
    ops: &[Op],
    group: Group,
    cap: Cap,
) -> Result<Option<Why>, AllocError>
    ensures found { IfOk result (FindsWhy ops.now (From (Use group)) (BeginsWithUse group) cap) }
    ensures memory { OnErr result (¬ From (Use group) cap) }
{
    let Some(Chain { root: _, steps }) = least_chain(alloc, ops, Roots::Group(group), cap)? else {
        return Ok(None);
    };
    let first = First::Uses(group);
    Ok(Some(Why { first, steps }))
}
