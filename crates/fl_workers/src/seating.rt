//! How a node is manned.
ghost use Rattle.std.specs.Prelude.{◌≡◌, ◌≤◌, ◌<◌, All, IfOk, IfErr, length, map};
ghost use Rattle.fl_bench.specs.Bench.{new_bench};
ghost use Rattle.fl_replica.specs.Boards.{Front};
ghost use Rattle.fl_settling.specs.Numbers.{AreNumbered};
ghost use Rattle.fl_store.specs.Kept.{Kept};
ghost use Rattle.fl_system.specs.Numbered.{items_to};
ghost use Rattle.fl_system.specs.declared.state.Pending.TheVariants.{Nothing};
ghost use Rattle.fl_system.specs.declared.state.State.TheVariants.{Running};
ghost use Rattle.fl_workers.specs.Seats.{bench_of_worker, IsAtBoard};
ghost use Rattle.fl_workers.specs.Seated.{seated_of};

use crate::manned::Manned;
use fl_crew_threads::lines::lines_for;
use fl_labels::name::NodeNumber;
use fl_monitor::bench::Bench;
use fl_node::node::Node;
use fl_registrar::registrar::Registrar;
use fl_replica::board;
use fl_replica::desk::Desk;
use fl_store::keeper::Keeper;
use fl_worker::ends::Ends;
use fl_worker::worker::Worker;
use std::alloc::{AllocError, Global};
use std::sync::Wait;

// So many workers, each with an empty bench, a desk and its ends.
fn workers_for(
    alloc: Global,
    number: NodeNumber,
    boot: u32,
    desks: Vec<Desk>,
    ends: Vec<Ends>,
    size: u8,
) -> Result<Vec<Worker>, AllocError>
    requires number { 0 < number }
    requires boot { 0 < boot }
    requires desks { length desks.items ≡ size }
    requires ends { length ends.items ≡ size }
    ensures count { IfOk result (λ workers. length workers.items ≡ size) }
    ensures numbered { IfOk result (λ workers. AreNumbered workers.items) }
    ensures benches { IfOk result (λ workers. map bench_of_worker workers.items
        ≡ items_to size (λ index. new_bench number boot index size)) }
    ensures boards { (front : Front) → All (λ d. d ≡ front) desks.items →
        IfOk result (λ workers. All (IsAtBoard front.board) workers.items) }
{
    let mut desks = desks;
    let mut ends = ends;
    ends.reverse();
    let mut workers = Vec::with_capacity(alloc, size as usize)?;
    for index in 0..size {
        let (Some(desk), Some(its)) = (desks.pop(), ends.pop()) else {
            unreachable!();
        };
        let bench = Bench::new(alloc, number, boot, index as u32 + 1, size as u32);
        workers.push_reserved(Worker::new(alloc, index + 1, bench, desk, its));
    }
    Ok(workers)
}

/// Seats so many workers at a node, with an empty bench each. The node is given back where there is
/// not enough memory.
pub(crate) fn seat<K: Keeper, R: Wait>(
    rt: &R,
    alloc: Global,
    node: Node<K>,
    size: u8,
) -> Result<Manned<K>, Node<K>>
    requires some { 1 ≤ size }
    requires few { size ≤ 16 }
    requires idle { K.custody.is_honest node.keeper → (k : Kept)
        → K.custody.may_hold node.keeper k → node.node.state ≡ Running Nothing }
    ensures seated { IfOk result (λ manned. manned ≡ seated_of node size) }
    ensures err { IfErr result (λ back. back ≡ node) }
{
    let Ok((lines, ends)) = lines_for(alloc, size) else {
        return Err(node);
    };
    let Ok((press, desks)) = board(rt, alloc, node.published(), size as usize) else {
        return Err(node);
    };
    let Ok(workers) = workers_for(alloc, node.number(), node.boot(), desks, ends, size) else {
        press.close(rt);
        return Err(node);
    };
    Ok(Manned {
        registrar: Registrar::new(alloc, node, press),
        workers,
        lines,
        procs: 0,
        is_stopped: false,
    })
}
