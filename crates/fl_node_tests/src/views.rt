//! Tests of what a desk tells as a view.
use fl_desks::desk::Desk;
use fl_labels::cap::Cap;
use fl_labels::cap_set::CapSet;
use fl_labels::name::Name;
use fl_ops::digest::Digest;
use fl_ops::op::{Body, Op, Policy};
use fl_ops::view::View;
use std::alloc::{AllocError, Global};
use std::test::Fail;

const TAG: Name = Name { node: 1, seq: 1 };

const GROUP: Name = Name { node: 1, seq: 2 };

const PUT: Name = Name { node: 1, seq: 3 };

const LOGIN: Name = Name { node: 1, seq: 4 };

const OPENED: Name = Name { node: 1, seq: 5 };

const DIGEST: Digest = Digest { bytes: [7; 32] };

/// A tag that everybody may remove, a group that holds the use of the tag, a login, and an
/// operation that opens the group.
const LIST: [Op; 4] = [
    Op {
        name: TAG,
        body: Body::MakeTag(Policy::Integrity),
    },
    Op {
        name: PUT,
        body: Body::Put(GROUP, Cap::Use(TAG)),
    },
    Op {
        name: LOGIN,
        body: Body::MakeLogin(Cap::Minus(TAG), DIGEST),
    },
    Op {
        name: OPENED,
        body: Body::Open(GROUP),
    },
];

// A desk that sees all of the list but its end.
fn desk_before(alloc: Global) -> Result<Desk, AllocError> {
    Desk::new(alloc, &LIST[..3])
}

// Whether the owner of the group's use has the capability in effect, whether the use reaches it,
// and whether who owns nothing has it, at the one desk and at the other.
fn tell<V: View>(
    before: &mut V,
    after: &mut V,
    owned: &CapSet,
    nothing: &CapSet,
    cap: Cap,
) -> [bool; 4] {
    [
        before.effective(owned, cap),
        before.reaches(Cap::Use(GROUP), cap),
        before.effective(nothing, cap),
        after.effective(nothing, cap),
    ]
}

fn told(alloc: Global, cap: Cap) -> Result<[bool; 4], Fail> {
    let owned = CapSet::from_text(alloc, "{*1.2}")?;
    let nothing = CapSet::new(alloc);
    let mut before = desk_before(alloc)?;
    let mut after = Desk::new(alloc, &LIST)?;
    Ok(tell(&mut before, &mut after, &owned, &nothing, cap))
}

/// A capability, and what is told of it.
const TOLD: [(Cap, [bool; 4]); 4] = [
    (Cap::Minus(TAG), [true, false, true, true]),
    (Cap::Use(TAG), [true, true, false, true]),
    (Cap::Use(GROUP), [true, true, false, true]),
    (Cap::Plus(TAG), [false, false, false, false]),
];

#[test]
fn looks_at_operations(rt: HostRuntime) -> Result<(), Fail> {
    for (cap, wanted) in TOLD {
        assert!(rt; told(rt.alloc(), cap)? == wanted, "{cap}");
    }
    Ok(())
}

#[test]
fn finds_logins(rt: HostRuntime) -> Result<(), AllocError> {
    let mut desk = desk_before(rt.alloc())?;
    assert!(rt; View::login(&mut desk, LOGIN) == Some((Cap::Minus(TAG), DIGEST)));
    assert!(rt; View::login(&mut desk, TAG).is_none());
    assert!(rt; View::seen(&desk) == 3);
    Ok(())
}
