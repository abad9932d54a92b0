//! Trials of sets of operations, and of who reaches what by them.
use crate::calls::{Trial, run};
use crate::ending::{Ending, NotBegun};
use fl_closure::index::Index;
use fl_labels::cap::Cap;
use fl_labels::cap_set::CapSet;
use fl_labels::name::Name;
use fl_ops::op::{Body, Op, Policy};
use fl_opset::set::OpSet;
use std::alloc::{AllocError, Global};

// Who uses it may add the tag, once that is put into it.
const GROUP: Name = Name { node: 1, seq: 1 };

const TAG: Name = Name { node: 1, seq: 2 };

const MADE: Op = Op {
    name: GROUP,
    body: Body::MakeGroup,
};

const TOLD: Op = Op {
    name: TAG,
    body: Body::MakeTag(Policy::Read),
};

const PUT: Op = Op {
    name: Name { node: 1, seq: 3 },
    body: Body::Put(GROUP, Cap::Plus(TAG)),
};

const OPENED: Op = Op {
    name: Name { node: 1, seq: 4 },
    body: Body::Open(GROUP),
};

const LAST: Op = Op {
    name: Name { node: 1, seq: 5 },
    body: Body::MakeGroup,
};

fn set_of(alloc: Global, ops: &[Op]) -> Result<OpSet, AllocError> {
    let mut set = OpSet::new(alloc);
    for op in ops {
        set.add(*op)?;
    }
    Ok(set)
}

// Whether the set has just these members, each of which is there once. Takes no memory.
fn has_just(set: &OpSet, ops: &[Op]) -> bool {
    set.len() == ops.len() && ops.iter().all(|op| set.contains(op))
}

// Whether the index tells what these operations say: whether by them who uses the group may add the
// tag, and so everybody where the group is opened.
fn knows(alloc: Global, index: &Index, ops: &[Op], is_reached: bool) -> bool {
    let is_opened = ops.contains(&OPENED);
    let nothing = CapSet::new(alloc);
    index.reaches(Cap::Use(GROUP), Cap::Plus(TAG)) == is_reached
        && index.global(Cap::Use(GROUP)) == is_opened
        && index.effective(&nothing, Cap::Plus(TAG)) == (is_reached && is_opened)
}

/// A set of four operations takes in the members of another, one of which comes between its own.
pub struct Merge;

/// Both sets.
pub struct Both {
    set: OpSet,
    other: OpSet,
}

impl Drop for Both {
    fn drop(self) {
        let Both { set: _, other: _ } = self;
    }
}

impl Trial for Merge {
    type State = Both;

    fn begin(alloc: Global) -> Result<Both, NotBegun> {
        Ok(Both {
            set: set_of(alloc, &[MADE, TOLD, OPENED, LAST])?,
            other: set_of(alloc, &[PUT, OPENED])?,
        })
    }

    fn call(_alloc: Global, state: &mut Both) -> Result<(), AllocError> {
        state.set.merge(&state.other)
    }

    fn is_kept(_alloc: Global, state: &mut Both) -> bool {
        has_just(&state.set, &[MADE, TOLD, OPENED, LAST])
    }

    fn is_done(_alloc: Global, state: &mut Both) -> bool {
        has_just(&state.set, &[MADE, TOLD, PUT, OPENED, LAST])
    }
}

/// An index of four operations takes in a put.
pub struct Absorb;

impl Trial for Absorb {
    type State = Index;

    fn begin(alloc: Global) -> Result<Index, NotBegun> {
        let mut index = Index::new(alloc);
        for op in [MADE, TOLD, OPENED, LAST] {
            index.absorb(&op)?;
        }
        Ok(index)
    }

    fn call(_alloc: Global, index: &mut Index) -> Result<(), AllocError> {
        index.absorb(&PUT)
    }

    fn is_kept(alloc: Global, index: &mut Index) -> bool {
        knows(alloc, index, &[MADE, TOLD, OPENED, LAST], false)
    }

    fn is_done(alloc: Global, index: &mut Index) -> bool {
        knows(alloc, index, &[MADE, TOLD, PUT, OPENED, LAST], true)
    }
}

/// An index takes in a list.
pub struct AbsorbAll;

/// Both.
pub struct Taking {
    index: Index,
    ops: Vec<Op>,
}

impl Drop for Taking {
    fn drop(self) {
        let Taking { index: _, ops: _ } = self;
    }
}

impl Trial for AbsorbAll {
    type State = Taking;

    fn begin(alloc: Global) -> Result<Taking, NotBegun> {
        let ops = Vec::from_slice(alloc, &[PUT, OPENED])?;
        let mut index = Index::new(alloc);
        index.absorb(&MADE)?;
        Ok(Taking { index, ops })
    }

    fn call(alloc: Global, state: &mut Taking) -> Result<(), AllocError> {
        state.index.absorb_all(alloc, &state.ops)
    }

    fn is_kept(alloc: Global, state: &mut Taking) -> bool {
        knows(alloc, &state.index, &[MADE], false)
    }

    fn is_done(alloc: Global, state: &mut Taking) -> bool {
        knows(alloc, &state.index, &[MADE, PUT, OPENED], true)
    }
}

/// How the trial of this name ends, if it is one of these.
pub fn ending_of(alloc: Global, name: &str) -> Option<Ending> {
    Some(match name {
        "merge" => run::<Merge>(alloc),
        "absorb" => run::<Absorb>(alloc),
        "absorb_all" => run::<AbsorbAll>(alloc),
        _ => return None,
    })
}
