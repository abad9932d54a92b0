//! A tag, a group, and that the group holds what adds the tag.
use fl_labels::cap::Cap;
use fl_labels::name::Name;
use fl_ops::op::{Body, Op, Policy};

/// The tag.
pub const TAG: Name = Name { node: 1, seq: 1 };

/// The group.
pub const GROUP: Name = Name { node: 1, seq: 2 };

/// The use of the group.
pub const USE: Cap = Cap::Use(GROUP);

/// What adds the tag.
pub const ADD: Cap = Cap::Plus(TAG);

/// Makes the tag.
pub fn tag() -> Op {
    Op {
        name: TAG,
        body: Body::MakeTag(Policy::Read),
    }
}

/// Makes the group.
pub fn group() -> Op {
    Op {
        name: GROUP,
        body: Body::MakeGroup,
    }
}

/// Puts what adds the tag into the group.
pub fn put() -> Op {
    Op {
        name: Name { node: 1, seq: 3 },
        body: Body::Put(GROUP, ADD),
    }
}
