//! A trial of a press, which publishes a batch to a desk.
use crate::ending::Ending;
use fl_labels::cap::Cap;
use fl_labels::name::Name;
use fl_ops::op::{Body, Op};
use fl_replica::board;
use fl_replica::desk::Desk;
use fl_replica::press::{Press, PressFault};
use std::alloc::Global;
use std::sync::Wait;

// A group into which the right to grow it is put.
const GROUP: Name = Name { node: 1, seq: 1 };

// What its members have by the put.
const GIVEN: Cap = Cap::Grow(GROUP);

const GROUP_MADE: Op = Op {
    name: GROUP,
    body: Body::MakeGroup,
};

const PUT: Op = Op {
    name: Name { node: 1, seq: 2 },
    body: Body::Put(GROUP, GIVEN),
};

// Whether these are published, and whether by them who uses the group may grow it.
fn shows(press: &Press, desks: &mut [Desk], list: &[Op], is_member: bool) -> bool {
    let Some(desk) = desks.first_mut() else {
        return false;
    };
    press.list() == list && desk.member(Cap::Use(GROUP), GIVEN) == Ok(is_member)
}

// Publishes what is staged, and then the batch. Where all that went well, the ending is this.
fn ended<R: Wait>(
    rt: &R,
    press: &mut Press,
    desks: &mut [Desk],
    batch: &[Op],
    ending: Ending,
) -> Ending {
    if !shows(press, desks, &[GROUP_MADE], false) {
        return Ending::Wrong("the refused call left something else");
    }
    if press.publish(rt, batch).is_err() {
        return Ending::Wrong("once more, it was refused");
    }
    if !shows(press, desks, &[GROUP_MADE, PUT], true) {
        return Ending::Wrong("once more, the call left something else");
    }
    ending
}

// Publishes a put.
fn tried<R: Wait>(rt: &R, press: &mut Press, desks: &mut [Desk]) -> Ending {
    match press.publish(rt, &[PUT]) {
        Ok(_) if shows(press, desks, &[GROUP_MADE, PUT], true) => Ending::Done,
        Ok(_) => Ending::Wrong("the call left something else"),
        Err(PressFault::Memory) => {
            let ending = Ending::Refused("nothing more is staged");
            ended(rt, press, desks, &[PUT], ending)
        }
        Err(PressFault::Staged) => {
            let ending = Ending::Refused("the batch is staged");
            ended(rt, press, desks, &[], ending)
        }
    }
}

/// Publishes a put after a group; where that is refused, once more.
pub fn publish<R: Wait>(rt: &R, alloc: Global) -> Ending {
    let Ok((mut press, mut desks)) = board(rt, alloc, &[GROUP_MADE], 1) else {
        return Ending::NotBegun;
    };
    let ending = tried(rt, &mut press, &mut desks);
    press.close(rt);
    ending
}
