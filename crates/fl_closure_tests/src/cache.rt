//! A cache asked again: after another question took its place, after a no, and once it is renewed.
ghost use Rattle.std.specs.Prelude.{◌<◌};

use crate::made::name;
use fl_cache::cached::CachedIndex;
use fl_cache::yes::YesCache;
use fl_closure::index::Index;
use fl_labels::cap::Cap;
use fl_labels::cap_set::CapSet;
use fl_labels::name::Name;
use fl_ops::op::{Body, Op, Policy};
use std::alloc::{AllocError, Global};
use std::test::Fail;

const GROUP: Name = Name { node: 1, seq: 1 };

const TAG: Name = Name { node: 1, seq: 2 };

const USE: Cap = Cap::Use(GROUP);

// The operation of this number that puts a capability into the group.
fn put(seq: u32, cap: Cap) -> Op
    requires { 0 < seq }
{
    Op {
        name: Name { node: 2, seq },
        body: Body::Put(GROUP, cap),
    }
}

const EXPORT: Name = Name { node: 1, seq: 1 };

const FIRST: Name = Name { node: 1, seq: 4 };

const SECOND: Name = Name { node: 1, seq: 5 };

/// The operations 1.1 to 1.8: three tags, and two groups, each of which may use the other, and the
/// second of which may remove the first tag.
const CYCLE: [(u16, Body); 8] = [
    (0, Body::MakeTag(Policy::Export)),
    (1, Body::MakeTag(Policy::Read)),
    (2, Body::MakeTag(Policy::Integrity)),
    (3, Body::MakeGroup),
    (4, Body::MakeGroup),
    (5, Body::Put(FIRST, Cap::Use(SECOND))),
    (6, Body::Put(SECOND, Cap::Use(FIRST))),
    (7, Body::Put(SECOND, Cap::Minus(EXPORT))),
];

fn cycle_of_groups(alloc: Global) -> Result<Index, AllocError> {
    let mut index = Index::new(alloc);
    for (number, body) in &CYCLE {
        index.absorb(&Op {
            name: name(*number),
            body: *body,
        })?;
    }
    Ok(index)
}

// Whether a cache of one question answers it again, after another took its place and after a no.
fn answers_again(alloc: Global, index: &Index) -> bool {
    let mut cache = YesCache::new(alloc, 1);
    let removal = Cap::Minus(EXPORT);
    let other = Cap::Plus(Name { node: 9, seq: 9 });
    cache.ask(index, Cap::Use(FIRST), removal)
        && cache.ask(index, Cap::Use(SECOND), removal)
        && cache.ask(index, Cap::Use(FIRST), removal)
        && !cache.ask(index, Cap::Use(FIRST), other)
        && cache.ask(index, Cap::Use(FIRST), removal)
}

#[test]
fn cache_of_one(rt: HostRuntime) -> Result<(), AllocError> {
    let index = cycle_of_groups(rt.alloc())?;
    assert!(rt; answers_again(rt.alloc(), &index));
    Ok(())
}

// Whether a no becomes a yes by a put, and stays one as the cache is renewed.
fn becomes_yes(alloc: Global, index: &mut CachedIndex) -> Result<bool, AllocError> {
    let is_no = !index.reaches(USE, Cap::Plus(TAG));
    index.absorb_all(alloc, &[put(1, Cap::Plus(TAG))])?;
    let is_yes = index.reaches(USE, Cap::Plus(TAG));
    index.renew();
    let stays = index.reaches(USE, Cap::Plus(TAG));
    Ok(is_no && is_yes && stays && !index.reaches(Cap::Plus(TAG), USE))
}

#[test]
fn no_becomes_yes(rt: HostRuntime) -> Result<(), AllocError> {
    let mut index = CachedIndex::new(rt.alloc());
    assert!(rt; becomes_yes(rt.alloc(), &mut index)?);
    Ok(())
}

// What the index answers where a tag is put into the group that is owned.
fn tells(alloc: Global, index: &mut CachedIndex, owned: &CapSet) -> Result<bool, AllocError> {
    index.absorb_all(alloc, &[put(1, Cap::Plus(TAG))])?;
    Ok(
        index.index().effective(owned, Cap::Plus(TAG))
            && index.reaches(USE, Cap::Plus(TAG))
            && index.index().login(TAG).is_none(),
    )
}

#[test]
fn cached_index_tells_what_it_has(rt: HostRuntime) -> Result<(), Fail> {
    let owned = CapSet::from_text(rt.alloc(), "{*1.1}")?;
    let mut index = CachedIndex::new(rt.alloc());
    assert!(rt; tells(rt.alloc(), &mut index, &owned)?);
    Ok(())
}
