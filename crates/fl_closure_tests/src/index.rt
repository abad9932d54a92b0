//! Tests of the index by small graphs. Capabilities stand as texts.
use crate::made::{Question, all_answer, divides, name, put};
use fl_closure::index::Index;
use fl_labels::cap::Cap;
use fl_labels::cap_set::CapSet;
use fl_labels::name::Name;
use fl_ops::digest::Digest;
use fl_ops::op::{Body, Op, Policy};
use std::alloc::{AllocError, Global};
use std::test::Fail;

const LOW: Digest = Digest { bytes: [0; 32] };

const HIGH: Digest = Digest { bytes: [255; 32] };

const FIRST: Name = Name { node: 1, seq: 1 };

const SECOND: Name = Name { node: 1, seq: 2 };

const THIRD: Name = Name { node: 1, seq: 3 };

const FOURTH: Name = Name { node: 1, seq: 4 };

const FIFTH: Name = Name { node: 1, seq: 5 };

const NINTH: Name = Name { node: 1, seq: 9 };

fn index_of(alloc: Global, ops: &[Op]) -> Result<Index, AllocError> {
    let mut index = Index::new(alloc);
    for op in ops {
        index.absorb(op)?;
    }
    Ok(index)
}

// Two groups, 1.4 and 1.5, each with the use of the other, and a capability in the second.
fn two_groups(alloc: Global) -> Result<Index, AllocError> {
    let ops = [
        put(0, 3, Cap::Use(FIFTH)),
        put(1, 4, Cap::Use(FOURTH)),
        put(2, 4, Cap::Minus(FIRST)),
    ];
    index_of(alloc, &ops)
}

/// A capability, what its owner reaches, and what not.
const CYCLE: [(Cap, &str, &str); 4] = [
    (Cap::Use(FOURTH), "-1.1 *1.4 *1.5", "^1.5 +9.9"),
    (Cap::Use(FIFTH), "-1.1 *1.4 *1.5", "^1.5 +9.9"),
    (Cap::Minus(FIRST), "-1.1", "*1.4 *1.5"),
    (Cap::Grow(FOURTH), "^1.4", "*1.4 *1.5"),
];

#[test]
fn cycle_of_groups(rt: HostRuntime) -> Result<(), AllocError> {
    let index = two_groups(rt.alloc())?;
    for (root, yes, no) in &CYCLE {
        assert!(rt; divides(&index, Question::Reached(*root), yes, no));
    }
    Ok(())
}

// A hundred groups, 1.1 and on, each with the use of the next, and a capability in the one behind
// them.
fn chain(alloc: Global) -> Result<Index, AllocError> {
    let mut index = Index::new(alloc);
    for number in 0..100u16 {
        let next = Cap::Use(name(number + 1));
        index.absorb(&put(number, number, next))?;
    }
    index.absorb(&put(100, 100, Cap::Plus(FIRST)))?;
    Ok(index)
}

#[test]
fn chain_of_hundred_groups(rt: HostRuntime) -> Result<(), AllocError> {
    let index = chain(rt.alloc())?;
    let first = Question::Reached(Cap::Use(FIRST));
    let last = Question::Reached(Cap::Use(name(100)));
    assert!(rt; divides(&index, first, "+1.1 *1.101", "-1.1"));
    assert!(rt; all_answer(&index, last, "*1.1", false));
    Ok(())
}

#[test]
fn a_chain_is_in_effect(rt: HostRuntime) -> Result<(), Fail> {
    let owned = CapSet::from_text(rt.alloc(), "{*1.51}")?;
    let index = chain(rt.alloc())?;
    assert!(rt; divides(&index, Question::Effective(&owned), "*1.101", "*1.1"));
    Ok(())
}

// A tag of each policy.
fn three_tags(alloc: Global) -> Result<Index, AllocError> {
    let ops = [
        Op {
            name: FIRST,
            body: Body::MakeTag(Policy::Export),
        },
        Op {
            name: SECOND,
            body: Body::MakeTag(Policy::Read),
        },
        Op {
            name: THIRD,
            body: Body::MakeTag(Policy::Integrity),
        },
    ];
    index_of(alloc, &ops)
}

// What everybody has of the three tags.
const EVERYBODYS: &str = "+1.1 -1.3";

// Every other capability on the three tags, and all on a fourth that nobody made.
const OTHERS: &str = "-1.1 *1.1 ^1.1 +1.2 -1.2 *1.2 ^1.2 +1.3 *1.3 ^1.3 +1.4 -1.4 *1.4 ^1.4";

#[test]
fn a_policy_tells_what_everybody_has(rt: HostRuntime) -> Result<(), AllocError> {
    let index = three_tags(rt.alloc())?;
    assert!(rt; divides(&index, Question::Global, EVERYBODYS, OTHERS));
    Ok(())
}

#[test]
fn what_everybody_has_is_in_effect(rt: HostRuntime) -> Result<(), AllocError> {
    let nothing = CapSet::new(rt.alloc());
    let index = three_tags(rt.alloc())?;
    assert!(rt; divides(&index, Question::Effective(&nothing), EVERYBODYS, OTHERS));
    Ok(())
}

// Two logins of the first name, one of the second, and none of the third.
fn logins(alloc: Global) -> Result<Index, AllocError> {
    let ops = [
        Op {
            name: FIRST,
            body: Body::MakeLogin(Cap::Grow(NINTH), LOW),
        },
        Op {
            name: FIRST,
            body: Body::MakeLogin(Cap::Plus(NINTH), HIGH),
        },
        Op {
            name: SECOND,
            body: Body::MakeTag(Policy::Export),
        },
        Op {
            name: SECOND,
            body: Body::MakeLogin(Cap::Grow(NINTH), HIGH),
        },
        Op {
            name: THIRD,
            body: Body::MakeTag(Policy::Export),
        },
    ];
    index_of(alloc, &ops)
}

#[test]
fn the_least_login_is_told(rt: HostRuntime) -> Result<(), AllocError> {
    let index = logins(rt.alloc())?;
    assert!(rt; index.login(FIRST) == Some((Cap::Plus(NINTH), HIGH)));
    assert!(rt; index.login(SECOND) == Some((Cap::Grow(NINTH), HIGH)));
    assert!(rt; index.login(THIRD).is_none());
    assert!(rt; index.login(FOURTH).is_none());
    Ok(())
}

#[test]
fn an_operation_counts_once(rt: HostRuntime) -> Result<(), Fail> {
    let owned = CapSet::from_text(rt.alloc(), "{*1.4}")?;
    let first = put(0, 3, Cap::Plus(FIRST));
    let second = put(1, 3, Cap::Plus(FIRST));
    let group = Op {
        name: FOURTH,
        body: Body::MakeGroup,
    };
    let index = index_of(rt.alloc(), &[first, second, first, group])?;
    assert!(rt; divides(&index, Question::Effective(&owned), "+1.1 *1.4", "-1.1"));
    Ok(())
}

// A group in a group, and a third group that is only grown by who reaches it.
fn nested_groups(alloc: Global) -> Result<Index, AllocError> {
    let tag = Op {
        name: FIRST,
        body: Body::MakeTag(Policy::Export),
    };
    let ops = [
        tag,
        put(0, 10, Cap::Use(name(11))),
        put(1, 11, Cap::Minus(FIRST)),
        put(2, 12, Cap::Minus(SECOND)),
        put(3, 11, Cap::Grow(name(12))),
    ];
    index_of(alloc, &ops)
}

#[test]
fn what_is_owned_leads_on(rt: HostRuntime) -> Result<(), Fail> {
    let owned = CapSet::from_text(rt.alloc(), "{+1.6,*1.11}")?;
    let index = nested_groups(rt.alloc())?;
    let yes = "+1.1 -1.1 +1.6 *1.11 *1.12 ^1.13";
    let no = "+1.2 -1.2 ^1.11 ^1.12 *1.13";
    assert!(rt; divides(&index, Question::Effective(&owned), yes, no));
    Ok(())
}

// Four groups in a row, of which the last grows after the others were put into one another.
fn row_of_four(alloc: Global) -> Result<Index, AllocError> {
    let ops = [
        put(0, 0, Cap::Use(SECOND)),
        put(1, 1, Cap::Use(THIRD)),
        put(2, 2, Cap::Use(FOURTH)),
        put(3, 3, Cap::Plus(NINTH)),
    ];
    index_of(alloc, &ops)
}

#[test]
fn row_is_renewed_upstream(rt: HostRuntime) -> Result<(), AllocError> {
    let index = row_of_four(rt.alloc())?;
    assert!(rt; index.reaches(Cap::Use(FIRST), Cap::Plus(NINTH)));
    assert!(rt; !index.reaches(Cap::Use(FOURTH), Cap::Use(THIRD)));
    Ok(())
}

fn absorb_twice(alloc: Global, index: &mut Index, batch: &[Op]) -> Result<(), AllocError> {
    index.absorb_all(alloc, batch)?;
    index.absorb_all(alloc, batch)
}

// A batch with an operation that is there already, and then the same batch again.
#[test]
fn a_batch_is_added_whole(rt: HostRuntime) -> Result<(), AllocError> {
    let first = put(0, 0, Cap::Use(SECOND));
    let second = put(1, 1, Cap::Plus(NINTH));
    let mut index = index_of(rt.alloc(), &[first])?;
    absorb_twice(rt.alloc(), &mut index, &[first, second])?;
    assert!(rt; index.reaches(Cap::Use(FIRST), Cap::Plus(NINTH)));
    assert!(rt; !index.reaches(Cap::Use(SECOND), Cap::Use(FIRST)));
    Ok(())
}
