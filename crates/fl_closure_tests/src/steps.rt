//! Tests of the index beside a plain search, after each put into a small random graph.
use crate::made::{draw, put};
use crate::plain::{CAPS, GROUPS, cap_of, search};
use fl_closure::index::Index;
use std::alloc::{AllocError, Global};
use std::test::Fail;

// Whether the index answers as the search for each capability.
fn row_alike(index: &Index, met: &[u16], root: u16) -> bool {
    let mut alike = true;
    for to in 0..CAPS {
        alike = alike && index.reaches(cap_of(root), cap_of(to)) == met.contains(&to);
    }
    alike
}

fn rows_alike(alloc: Global, index: &Index, puts: &[(u16, u16)]) -> Result<bool, AllocError> {
    let mut alike = true;
    for root in 0..CAPS {
        let met = search(alloc, puts, &[root])?;
        alike = alike && row_alike(index, &met, root);
    }
    Ok(alike)
}

// Whether the rows are as they should be after each of so many puts.
fn steps_alike(alloc: Global, seed: u64, count: u16) -> Result<bool, AllocError> {
    let mut state = seed;
    let mut index = Index::new(alloc);
    let mut puts = Vec::new(alloc);
    let mut alike = true;
    for number in 0..count {
        let group = draw(&mut state, GROUPS);
        let cap = draw(&mut state, CAPS);
        index.absorb(&put(number, group, cap_of(cap)))?;
        puts.push((group, cap))?;
        alike = alike && rows_alike(alloc, &index, &puts)?;
    }
    Ok(alike)
}

#[test]
fn rows_are_right_after_each_put(rt: HostRuntime) -> Result<(), Fail> {
    for seed in 1..30 {
        assert!(rt; steps_alike(rt.alloc(), seed, 40)?);
    }
    Ok(())
}
