//! Tests of orders that two workers give.
use crate::scene::{
    FIRST, Line, MemCrew, ONE, SECOND, Said, TWO, ask, crew_over, makes_two, serves, tag, tag_made,
};
use fl_store::mem::MemKeeper;
use fl_workers::gate::OpenGate;
use std::alloc::Global;
use std::sync::Wait;
use std::test::Fail;
use std::thread::Threads;

// Whether the maker of a tag is answered that it may add it once it is published, and another
// process that it may not yet.
fn orders_and_asks<R: Threads + Wait + Sync + Send + Copy + Drop + 'static>(
    rt: R,
    alloc: Global,
    crew: &mut MemCrew<OpenGate>,
) -> Option<bool> {
    let jobs = Vec::from_array(alloc, [tag(ONE), ask(ONE, FIRST), ask(TWO, FIRST)]).ok()?;
    let lines = serves(rt, alloc, crew, jobs, Vec::new(alloc))?;
    let ordered = Line {
        said: Said::Published(FIRST),
        seen: 0,
    };
    let asked = Line {
        said: Said::Yes,
        seen: 1,
    };
    match lines.as_slice() {
        [one, two, three] => {
            let is_refused = three.said == Said::NotYet && three.seen <= 1;
            Some(*one == ordered && *two == asked && is_refused)
        }
        _ => Some(false),
    }
}

#[test]
fn crew_of_two(rt: HostRuntime) -> Result<(), Fail> {
    let alloc = rt.alloc();
    let mut crew = crew_over(&rt, alloc, MemKeeper::new(alloc, 1), 2, OpenGate)?;
    let made = makes_two(rt, alloc, &mut crew);
    let told = orders_and_asks(rt, alloc, &mut crew);
    crew.close(&rt);
    assert!(rt; made == Some(true));
    assert!(rt; told == Some(true));
    Ok(())
}

// Whether two orders of one batch are given the first two names, in either order.
fn orders_two<R: Threads + Wait + Sync + Send + Copy + Drop + 'static>(
    rt: R,
    alloc: Global,
    crew: &mut MemCrew<OpenGate>,
) -> Option<bool> {
    let jobs = Vec::from_array(alloc, [tag(ONE), tag(TWO)]).ok()?;
    let lines = serves(rt, alloc, crew, jobs, Vec::new(alloc))?;
    let (first, second) = (Said::Published(FIRST), Said::Published(SECOND));
    match lines.as_slice() {
        [one, two] if one.said == first => Some(two.said == second),
        [one, two] => Some(one.said == second && two.said == first),
        _ => Some(false),
    }
}

#[test]
fn two_orders_at_once(rt: HostRuntime) -> Result<(), Fail> {
    let alloc = rt.alloc();
    let mut crew = crew_over(&rt, alloc, MemKeeper::new(alloc, 1), 2, OpenGate)?;
    let made = makes_two(rt, alloc, &mut crew);
    let told = orders_two(rt, alloc, &mut crew);
    let ops = [tag_made(FIRST), tag_made(SECOND)];
    let is_published = crew.node().published() == ops.as_slice();
    let saved = crew.node().saved();
    let is_saved = saved.len() == ops.len() && saved.of_node(1) == ops.as_slice();
    crew.close(&rt);
    assert!(rt; made == Some(true));
    assert!(rt; told == Some(true));
    assert!(rt; is_published && is_saved);
    Ok(())
}
