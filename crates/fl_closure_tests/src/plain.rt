//! A plain search in a small graph, which the index is held against.
use crate::made::name;
use fl_labels::cap::Cap;
use std::alloc::{AllocError, Global};

/// How many groups there are.
pub const GROUPS: u16 = 10;

/// How many capabilities.
pub const CAPS: u16 = 16;

/// The capability of a number: the uses of the groups come first, and then capabilities that lead
/// no further.
pub fn cap_of(number: u16) -> Cap {
    if number < GROUPS {
        Cap::Use(name(number))
    } else if number < 13 {
        Cap::Plus(name(number))
    } else {
        Cap::Minus(name(number))
    }
}

// Meets what is put into a group that was met.
fn meet(met: &mut Vec<u16>, puts: &[(u16, u16)], group: u16) -> Result<(), AllocError> {
    for (into, cap) in puts {
        if *into == group && !met.contains(cap) {
            met.push(*cap)?;
        }
    }
    Ok(())
}

/// What is reached from the roots, each of which is given once, in the order in which it is met. A
/// put is a group and what is put there.
pub fn search(alloc: Global, puts: &[(u16, u16)], roots: &[u16]) -> Result<Vec<u16>, AllocError> {
    let mut met: Vec<u16> = roots.iter().copied().collect(alloc)?;
    for done in 0..CAPS as usize {
        let Some(group) = met.get(done).copied() else {
            return Ok(met);
        };
        meet(&mut met, puts, group)?;
    }
    Ok(met)
}
