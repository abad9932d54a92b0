//! Tests of an index that takes in some operations at once.
use fl_closure::index::Index;
use fl_labels::cap::Cap;
use fl_labels::name::Name;
use fl_ops::op::{Body, Op};
use std::alloc::{AllocError, Global};

const GROUP: Name = Name { node: 1, seq: 1 };

const TAG: Name = Name { node: 1, seq: 9 };

const MADE: Op = Op {
    name: GROUP,
    body: Body::MakeGroup,
};

const PUT: Op = Op {
    name: Name { node: 1, seq: 2 },
    body: Body::Put(GROUP, Cap::Plus(TAG)),
};

const PUT_AGAIN: Op = Op {
    name: Name { node: 2, seq: 1 },
    body: Body::Put(GROUP, Cap::Plus(TAG)),
};

/// The group, and two puts of one capability.
const THREE: [Op; 3] = [MADE, PUT, PUT_AGAIN];

// The put alone, and then all three, twice.
fn take_in(alloc: Global, index: &mut Index) -> Result<(), AllocError> {
    index.absorb(&PUT)?;
    index.absorb_all(alloc, &THREE)?;
    index.absorb_all(alloc, &THREE)
}

#[test]
fn index_takes_in_a_list(rt: HostRuntime) -> Result<(), AllocError> {
    let alloc = rt.alloc();
    let mut index = Index::new(alloc);
    take_in(alloc, &mut index)?;
    assert!(rt; index.reaches(Cap::Use(GROUP), Cap::Plus(TAG)));
    assert!(rt; !index.reaches(Cap::Use(GROUP), Cap::Minus(TAG)));
    Ok(())
}
