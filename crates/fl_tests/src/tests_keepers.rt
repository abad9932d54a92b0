//! Tests of whole runs over keepers that are not made, or that break.
use crate::keepers::{BootedMaker, BreakingMaker, OneNodeMaker, RefusingMaker};
use crate::rows_keepers::{
    BOOTS_ARE_SPENT, KEEPER_BREAKS_AT_FIRST_SAVE, KEEPER_FAILS_BEFORE_A_BAD_LINE,
    KEEPERS_OF_NODE_7, LAST_BOOT, OPENINGS_ARE_REFUSED, STOPPED_NODES, UNMADE_KEEPERS,
};
use crate::tests::check_over;
use fl_jobs::answer::Refusal;
use fl_system::answer::Fault;
use std::test::Fail;

/// Why there is no keeper: no memory.
const STARVED: Fault = Fault::Refused(Refusal::Memory);

#[test]
fn unmade_keepers(rt: HostRuntime) -> Result<(), Fail> {
    let keepers = RefusingMaker {
        refusals: &[
            (1, Fault::KeeperFailed),
            (1, Fault::WrongNode),
            (1, STARVED),
            (2, Fault::KeeperFailed),
        ],
    };
    check_over(&rt, &UNMADE_KEEPERS, keepers)
}

#[test]
fn keeper_fails_before_a_bad_line(rt: HostRuntime) -> Result<(), Fail> {
    let keepers = RefusingMaker {
        refusals: &[(1, Fault::KeeperFailed)],
    };
    check_over(&rt, &KEEPER_FAILS_BEFORE_A_BAD_LINE, keepers)
}

#[test]
fn openings_are_refused(rt: HostRuntime) -> Result<(), Fail> {
    let keepers = RefusingMaker {
        refusals: &[
            (1, Fault::WrongNode),
            (1, Fault::WrongNode),
            (1, STARVED),
            (1, STARVED),
            (1, Fault::WrongNode),
            (1, Fault::WrongNode),
            (1, STARVED),
            (1, Fault::WrongNode),
            (2, STARVED),
        ],
    };
    check_over(&rt, &OPENINGS_ARE_REFUSED, keepers)
}

#[test]
fn keepers_of_node_7(rt: HostRuntime) -> Result<(), Fail> {
    check_over(&rt, &KEEPERS_OF_NODE_7, OneNodeMaker { node: 7 })
}

#[test]
fn keeper_breaks_at_first_save(rt: HostRuntime) -> Result<(), Fail> {
    check_over(&rt, &KEEPER_BREAKS_AT_FIRST_SAVE, BreakingMaker { last: 1 })
}

#[test]
fn stopped_nodes(rt: HostRuntime) -> Result<(), Fail> {
    check_over(&rt, &STOPPED_NODES, BreakingMaker { last: 4 })
}

#[test]
fn last_boot(rt: HostRuntime) -> Result<(), Fail> {
    let keepers = BootedMaker {
        boot: 4_294_967_294,
    };
    check_over(&rt, &LAST_BOOT, keepers)
}

#[test]
fn boots_are_spent(rt: HostRuntime) -> Result<(), Fail> {
    let keepers = BootedMaker {
        boot: 4_294_967_295,
    };
    check_over(&rt, &BOOTS_ARE_SPENT, keepers)
}
