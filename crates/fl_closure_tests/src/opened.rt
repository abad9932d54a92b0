//! Tests of what everybody has: opened groups and what they lead to, beside a plain search.
use crate::made::{Question, divides, draw, name, put};
use crate::plain::{CAPS, GROUPS, cap_of, search};
use fl_closure::index::Index;
use fl_labels::cap::Cap;
use fl_labels::cap_set::CapSet;
use fl_labels::name::Name;
use fl_ops::op::{Body, Op, Policy};
use std::alloc::{AllocError, Global};
use std::test::Fail;

// A registry, as the plain search takes it: the puts, and what everybody has, each once.
struct Registry {
    ops: Vec<Op>,
    puts: Vec<(u16, u16)>,
    everybodys: Vec<u16>,
}

impl Drop for Registry {
    fn drop(self) {
        let Registry {
            ops: _,
            puts: _,
            everybodys: _,
        } = self;
    }
}

// The operation, called 3.1 for 0 and on, that opens a group, which is called 1.1 for 0 and on.
fn open(number: u16, group: u16) -> Op {
    Op {
        name: Name {
            node: 3,
            seq: number as u32 + 1,
        },
        body: Body::Open(name(group)),
    }
}

// The operation that gives everybody a capability. One that makes a tag has the tag's name.
fn gift(number: u16, cap: u16) -> Op {
    let (name, policy) = match cap_of(cap) {
        Cap::Plus(tag) => (tag, Policy::Export),
        Cap::Minus(tag) => (tag, Policy::Integrity),
        Cap::Use(_) | Cap::Grow(_) => return open(number, cap),
    };
    Op {
        name,
        body: Body::MakeTag(policy),
    }
}

// Adds a random operation to the registry: of four one that gives to everybody, else a put.
fn grow(registry: &mut Registry, state: &mut u64, number: u16) -> Result<Op, AllocError> {
    let cap = draw(state, CAPS);
    if draw(state, 4) != 0 {
        let group = draw(state, GROUPS);
        registry.puts.push((group, cap))?;
        return Ok(put(number, group, cap_of(cap)));
    }
    if !registry.everybodys.contains(&cap) {
        registry.everybodys.push(cap)?;
    }
    Ok(gift(number, cap))
}

fn set_of(alloc: Global, numbers: &[u16]) -> Result<CapSet, AllocError> {
    let mut caps = CapSet::new(alloc);
    for number in numbers {
        caps.insert(cap_of(*number))?;
    }
    Ok(caps)
}

// What a search starts from for the owner of these capabilities: what everybody has, and these.
fn roots_of(alloc: Global, registry: &Registry, owned: &[u16]) -> Result<Vec<u16>, AllocError> {
    let mut roots = Vec::from_slice(alloc, &registry.everybodys)?;
    for cap in owned {
        if !roots.contains(cap) {
            roots.push(*cap)?;
        }
    }
    Ok(roots)
}

// Whether just what was met is in effect for the owner of these capabilities.
fn all_alike(index: &Index, caps: &CapSet, met: &[u16]) -> bool {
    for to in 0..CAPS {
        if index.effective(caps, cap_of(to)) != met.contains(&to) {
            return false;
        }
    }
    true
}

// Whether the index answers as the search does for the owner of these capabilities.
fn owner_alike(
    alloc: Global,
    index: &Index,
    registry: &Registry,
    owned: &[u16],
) -> Result<bool, AllocError> {
    let caps = set_of(alloc, owned)?;
    let roots = roots_of(alloc, registry, owned)?;
    let met = search(alloc, &registry.puts, &roots)?;
    Ok(all_alike(index, &caps, &met))
}

// Whether the index tells what everybody has, and what is in effect for the owner of nothing and of
// each one capability.
fn index_alike(alloc: Global, index: &Index, registry: &Registry) -> Result<bool, AllocError> {
    let mut alike = owner_alike(alloc, index, registry, &[])?;
    for cap in 0..CAPS {
        alike = alike && index.global(cap_of(cap)) == registry.everybodys.contains(&cap);
        alike = alike && owner_alike(alloc, index, registry, &[cap])?;
    }
    Ok(alike)
}

// The index of all these operations, added as one.
fn batched(alloc: Global, ops: &[Op]) -> Result<Index, AllocError> {
    let mut index = Index::new(alloc);
    index.absorb_all(alloc, ops)?;
    Ok(index)
}

// Adds a random operation to both. Whether the index is then as it should be.
fn step_alike(
    alloc: Global,
    index: &mut Index,
    registry: &mut Registry,
    state: &mut u64,
    number: u16,
) -> Result<bool, AllocError> {
    let op = grow(registry, state, number)?;
    index.absorb(&op)?;
    registry.ops.push(op)?;
    index_alike(alloc, index, registry)
}

// Whether the index is as it should be after each of so many random operations, and after all of
// them at once.
fn steps_alike(alloc: Global, seed: u64, count: u16) -> Result<bool, AllocError> {
    let mut state = seed;
    let mut index = Index::new(alloc);
    let mut registry = Registry {
        ops: Vec::new(alloc),
        puts: Vec::new(alloc),
        everybodys: Vec::new(alloc),
    };
    let mut alike = true;
    for number in 0..count {
        alike = alike && step_alike(alloc, &mut index, &mut registry, &mut state, number)?;
    }
    let batch = batched(alloc, &registry.ops)?;
    Ok(alike && index_alike(alloc, &batch, &registry)?)
}

#[test]
fn what_everybody_has_leads_as_a_search_does(rt: HostRuntime) -> Result<(), Fail> {
    for seed in 1..20 {
        assert!(rt; steps_alike(rt.alloc(), seed, 30)?);
    }
    Ok(())
}

// Absorbs an operation. Whether the first capabilities are in effect for the owner of nothing then,
// and not the others.
fn gives(
    index: &mut Index,
    nothing: &CapSet,
    op: &Op,
    yes: &str,
    no: &str,
) -> Result<bool, AllocError> {
    index.absorb(op)?;
    Ok(divides(index, Question::Effective(nothing), yes, no))
}

fn put_follows(index: &mut Index, nothing: &CapSet) -> Result<bool, AllocError> {
    let later = put(0, 3, Cap::Plus(name(8)));
    Ok(
        gives(index, nothing, &open(0, 3), "*1.4", "+1.9 -1.9 ^1.4")?
            && gives(index, nothing, &later, "*1.4 +1.9", "-1.9 ^1.4")?
            && !index.reaches(Cap::Use(name(8)), Cap::Plus(name(8))),
    )
}

#[test]
fn a_later_put_into_an_opened_group_is_everybodys(rt: HostRuntime) -> Result<(), AllocError> {
    let mut index = Index::new(rt.alloc());
    let nothing = CapSet::new(rt.alloc());
    assert!(rt; put_follows(&mut index, &nothing)?);
    Ok(())
}

// An opened group that uses another, into which something is put last. What everybody has is the
// use of the first alone.
fn group_follows(index: &mut Index, nothing: &CapSet) -> Result<bool, AllocError> {
    index.absorb(&put(0, 3, Cap::Use(name(4))))?;
    index.absorb(&open(0, 3))?;
    let last = put(1, 4, Cap::Grow(name(0)));
    Ok(
        gives(index, nothing, &last, "^1.1 *1.4 *1.5", "+1.1 ^1.4 ^1.5")?
            && divides(index, Question::Global, "*1.4", "*1.5 ^1.1"),
    )
}

#[test]
fn an_opened_group_leads_to_what_it_uses(rt: HostRuntime) -> Result<(), AllocError> {
    let mut index = Index::new(rt.alloc());
    let nothing = CapSet::new(rt.alloc());
    assert!(rt; group_follows(&mut index, &nothing)?);
    Ok(())
}

// Everybody reaches the use of the second group before that is opened too.
fn opened_one_by_one(index: &mut Index, nothing: &CapSet) -> Result<bool, AllocError> {
    index.absorb(&open(0, 3))?;
    index.absorb(&put(0, 3, Cap::Use(name(4))))?;
    let is_reached_alone = !index.global(Cap::Use(name(4)));
    index.absorb(&open(1, 4))?;
    let is_given = gives(index, nothing, &open(2, 4), "*1.4 *1.5", "*1.3")?;
    Ok(is_reached_alone && is_given && index.global(Cap::Use(name(4))))
}

#[test]
fn what_is_reached_is_not_yet_opened(rt: HostRuntime) -> Result<(), AllocError> {
    let mut index = Index::new(rt.alloc());
    let nothing = CapSet::new(rt.alloc());
    assert!(rt; opened_one_by_one(&mut index, &nothing)?);
    Ok(())
}
