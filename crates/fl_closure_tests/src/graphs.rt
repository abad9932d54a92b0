//! Tests of the index by random graphs, beside a plain fixpoint over a table of pairs.
use crate::made::{draw, name, put};
use fl_closure::index::Index;
use fl_labels::cap::Cap;
use fl_labels::cap_set::CapSet;
use fl_ops::op::{Body, Op, Policy};
use std::alloc::{AllocError, Global};
use std::test::Fail;

const GROUPS: u16 = 60;

const CAPS: u16 = 150;

// The uses of the groups come first, and then capabilities that lead no further.
fn cap_of(number: u16) -> Cap {
    if number < GROUPS {
        return Cap::Use(name(number));
    }
    match number % 3 {
        0 => Cap::Plus(name(number)),
        1 => Cap::Minus(name(number)),
        _ => Cap::Grow(name(number - GROUPS)),
    }
}

fn place(from: u16, to: u16) -> usize {
    from as usize * CAPS as usize + to as usize
}

fn is_marked(pairs: &[bool], from: u16, to: u16) -> bool {
    pairs.get(place(from, to)) == Some(&true)
}

fn mark(pairs: &mut [bool], from: u16, to: u16) {
    if let Some(pair) = pairs.get_mut(place(from, to)) {
        *pair = true;
    }
}

// Adds the pairs that follow from two others, with each number in turn as the one between.
fn close(pairs: &mut [bool]) {
    for between in 0..CAPS {
        for from in 0..CAPS {
            if is_marked(pairs, from, between) {
                add_row(pairs, from, between);
            }
        }
    }
}

fn add_row(pairs: &mut [bool], from: u16, between: u16) {
    for to in 0..CAPS {
        if is_marked(pairs, between, to) {
            mark(pairs, from, to);
        }
    }
}

// The pairs of each number with itself.
fn diagonal(alloc: Global) -> Result<Vec<bool>, AllocError> {
    let mut pairs = vec![in alloc; false; place(CAPS, 0)]?;
    for number in 0..CAPS {
        mark(&mut pairs, number, number);
    }
    Ok(pairs)
}

// 600 puts into the groups, so many of them of uses, and the pairs that are reached by them.
fn random_graph(alloc: Global, seed: u64, uses: u16) -> Result<(Index, Vec<bool>), AllocError> {
    let mut state = seed;
    let mut index = Index::new(alloc);
    let mut pairs = diagonal(alloc)?;
    for number in 0..600 {
        let group = draw(&mut state, GROUPS);
        let cap = if number < uses {
            draw(&mut state, GROUPS)
        } else {
            GROUPS.saturating_add(draw(&mut state, CAPS - GROUPS))
        };
        index.absorb(&put(number, group, cap_of(cap)))?;
        mark(&mut pairs, group, cap);
    }
    close(&mut pairs);
    Ok((index, pairs))
}

// Whether the index answers as the table for each pair that begins so.
fn row_alike(index: &Index, pairs: &[bool], from: u16) -> bool {
    let mut alike = true;
    for to in 0..CAPS {
        let reached = index.reaches(cap_of(from), cap_of(to));
        alike = alike && reached == is_marked(pairs, from, to);
    }
    alike
}

fn graph_alike(alloc: Global, seed: u64, uses: u16) -> Result<bool, AllocError> {
    let (index, pairs) = random_graph(alloc, seed, uses)?;
    let mut alike = true;
    for from in 0..CAPS {
        alike = alike && row_alike(&index, &pairs, from);
    }
    Ok(alike)
}

#[test]
fn random_graphs_reach_as_a_fixpoint_does(rt: HostRuntime) -> Result<(), Fail> {
    for (seed, uses) in [(1, 40), (2, 60), (3, 75), (4, 120), (5, 600)] {
        assert!(rt; graph_alike(rt.alloc(), seed, uses)?);
    }
    Ok(())
}

// Gives two capabilities of the graph to everybody, and none by a third tag.
fn add_tags(index: &mut Index) -> Result<(), AllocError> {
    for (number, policy) in [
        (60, Policy::Export),
        (61, Policy::Integrity),
        (63, Policy::Read),
    ] {
        index.absorb(&Op {
            name: name(number),
            body: Body::MakeTag(policy),
        })?;
    }
    Ok(())
}

// What is in effect for the owner of these: what they reach, and the two capabilities that
// everybody has.
fn in_effect(alloc: Global, pairs: &[bool], owned: &[u16]) -> Result<CapSet, AllocError> {
    let mut caps = Vec::new(alloc);
    for to in 0..CAPS {
        if to == 60 || to == 61 || owned.iter().any(|from| is_marked(pairs, *from, to)) {
            caps.push(cap_of(to))?;
        }
    }
    CapSet::from_vec(caps)
}

fn set_of(alloc: Global, numbers: &[u16]) -> Result<CapSet, AllocError> {
    let mut caps = CapSet::new(alloc);
    for number in numbers {
        caps.insert(cap_of(*number))?;
    }
    Ok(caps)
}

// Whether the index answers `effective` for each capability as these do.
fn effective_alike(index: &Index, owned: &CapSet, expected: &CapSet) -> bool {
    let mut alike = true;
    for to in 0..CAPS {
        let effective = index.effective(owned, cap_of(to));
        alike = alike && effective == expected.contains(cap_of(to));
    }
    alike
}

fn set_alike(
    alloc: Global,
    index: &Index,
    pairs: &[bool],
    roots: &[u16],
) -> Result<bool, AllocError> {
    let owned = set_of(alloc, roots)?;
    let expected = in_effect(alloc, pairs, roots)?;
    Ok(effective_alike(index, &owned, &expected))
}

// Whether the index tells what is in effect for 20 random sets as the table does.
fn sets_alike(alloc: Global, seed: u64, uses: u16, state: &mut u64) -> Result<bool, AllocError> {
    let (mut index, pairs) = random_graph(alloc, seed, uses)?;
    add_tags(&mut index)?;
    let mut alike = true;
    for _ in 0..20 {
        let first = draw(state, CAPS);
        let second = draw(state, CAPS);
        let third = draw(state, GROUPS);
        alike = alike && set_alike(alloc, &index, &pairs, &[first, second, third])?;
    }
    Ok(alike)
}

#[test]
fn random_sets_lead_as_a_fixpoint_does(rt: HostRuntime) -> Result<(), Fail> {
    let mut state = 7;
    for (seed, uses) in [(11, 40), (12, 60), (13, 75), (14, 120)] {
        assert!(rt; sets_alike(rt.alloc(), seed, uses, &mut state)?);
    }
    Ok(())
}
