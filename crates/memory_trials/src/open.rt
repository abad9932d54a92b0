//! A trial of an opening.
use crate::ending::{Ending, NotBegun};
use crate::scene::{GROUPS, MemCrew, stands};
use fl_jobs::answer::Refusal;
use fl_node::node::Node;
use fl_ops::op::Body;
use fl_store::mem::MemKeeper;
use fl_system::answer::Fault;
use fl_workers::crew::Crew;
use fl_workers::gate::OpenGate;
use std::alloc::Global;
use std::sync::Wait;

impl From<Fault> for NotBegun {
    fn from(_fault: Fault) -> NotBegun {
        NotBegun
    }
}

// A keeper of node 1, which made a group over it.
fn keeper(alloc: Global) -> Result<MemKeeper, NotBegun> {
    match Node::open(alloc, MemKeeper::new(alloc, 1), 1, 1) {
        Ok(mut node) => {
            node.begin(Body::MakeGroup, None)?;
            node.save()?;
            Ok(node.into_keeper())
        }
        Err(_) => Err(NotBegun),
    }
}

// Ends an opened crew. Where it has what it is to have, the ending is this.
fn ended<R: Wait>(rt: &R, crew: MemCrew, ending: Ending) -> Ending {
    let is_opened = stands(&crew, &GROUPS[..1]) && !crew.is_stopped();
    drop(crew.close(rt));
    if is_opened {
        ending
    } else {
        Ending::Wrong("the call left something else")
    }
}

// Opens a crew once more, over another keeper.
fn again<R: Wait>(rt: &R, alloc: Global) -> Ending {
    let Ok(keeper) = keeper(alloc) else {
        return Ending::Wrong("once more, there is no keeper");
    };
    match Crew::open(rt, alloc, keeper, 1, 2, OpenGate) {
        Ok(crew) => ended(rt, crew, Ending::Refused("its keeper is gone")),
        Err(_) => Ending::Wrong("once more, the call was refused"),
    }
}

/// Opens a crew over a keeper of one group; where that is refused, once more.
pub fn tried<R: Wait>(rt: &R, alloc: Global) -> Ending {
    let Ok(keeper) = keeper(alloc) else {
        return Ending::NotBegun;
    };
    match Crew::open(rt, alloc, keeper, 1, 2, OpenGate) {
        Ok(crew) => ended(rt, crew, Ending::Done),
        Err(Fault::Refused(Refusal::Memory)) => again(rt, alloc),
        Err(_) => Ending::Wrong("the call answered something else"),
    }
}
