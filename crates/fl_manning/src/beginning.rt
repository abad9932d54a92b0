//! How a batch begins.
ghost use Rattle.std.specs.Prelude.{◌≡◌, ℕ, [], None, All, IfOk, OnOk, OnErr, length};
ghost use Rattle.fl_crew_model.specs.Crews.{IsWorker};
ghost use Rattle.fl_settling.specs.Each.{Each};
ghost use Rattle.fl_settling.specs.Numbers.{bench_by};
ghost use Rattle.fl_manning.specs.Changes.{IsButBench};
ghost use Rattle.fl_manning.specs.Begun.{AreBegun, IsBegun, IsNotBegun, IsUnmoved, benches_after};

use crate::catching_up::catch_up_all;
use crate::finishing::finish_maker;
use crate::giving::give_out;
use fl_dealing::dealing::Queue;
use fl_registrar::awaited::Awaited;
use fl_registrar::registrar::Registrar;
use fl_store::keeper::Keeper;
use fl_system::state::Batch;
use fl_worker::worker::Worker;
use std::alloc::{AllocError, Global};
use std::sync::Wait;

// Has the maker of what was due go on, if there was something.
fn finish_due(workers: &mut [Worker], due: Option<Batch>)
    ensures bench { (w : ℕ) → IsWorker (length workers.old) w →
        bench_by workers.new w ≡ benches_after (bench_by workers.old) due w }
    ensures same { Each IsButBench workers.old workers.new }
{
    let Some(batch) = due else {
        return;
    };
    finish_maker(workers, &batch);
}

// Has the registrar publish what is due. Where there is no memory for it, it stays due, and the
// record is closed again.
fn publish<K: Keeper, R: Wait>(
    rt: &R,
    alloc: Global,
    registrar: &mut Registrar<K>,
) -> Result<Option<Batch>, AllocError>
    requires none { registrar.old.deeds ≡ [] }
    requires fresh { registrar.old.failed ≡ None }
    ensures ok { IfOk result (λ due. IsBegun registrar.old.orders registrar.old registrar.new) }
    ensures given { IfOk result (λ due. due ≡ registrar.old.due) }
    ensures err { OnErr result (IsNotBegun registrar.old registrar.new) }
{
    match registrar.clear(rt, alloc) {
        Ok(due) => Ok(due),
        Err(error) => {
            drop(registrar.end_batch(alloc));
            Err(error)
        }
    }
}

// The same, of workers in a slice.
fn begin_all<K: Keeper, R: Wait>(
    rt: &R,
    alloc: Global,
    registrar: &mut Registrar<K>,
    workers: &mut [Worker],
    queues: Vec<Queue>,
    orders: Vec<Option<Awaited>>,
    rows: usize,
) -> Result<(), AllocError>
    requires count { length queues.items ≡ length workers.old }
    requires boards { All (λ w. w.desk.board ≡ registrar.old.press.board) workers.old }
    ensures begun { OnOk result (IsBegun orders.items registrar.old registrar.new) }
    ensures workers { OnOk result
        (AreBegun queues.items registrar.old.due workers.old workers.new) }
    ensures err { OnErr result (IsNotBegun registrar.old registrar.new) }
    ensures unmoved { OnErr result (Each IsUnmoved workers.old workers.new) }
{
    give_out(alloc, workers, queues)?;
    registrar.begin_batch(alloc, orders, rows)?;
    let due = publish(rt, alloc, registrar)?;
    finish_due(workers, due);
    catch_up_all(workers, registrar.press());
    Ok(())
}

/// Begins a batch: the workers have these tasks, the registrar awaits these orders with so many
/// rows of its record, and what an earlier batch left due is published. Fails only where there is
/// not enough memory: what is saved, published and due is as before, and so is each bench.
pub fn begin<K: Keeper, R: Wait>(
    rt: &R,
    alloc: Global,
    registrar: &mut Registrar<K>,
    workers: &mut Vec<Worker>,
    queues: Vec<Queue>,
    orders: Vec<Option<Awaited>>,
    rows: usize,
) -> Result<(), AllocError>
    requires count { length queues.items ≡ length workers.old.items }
    requires boards { All (λ w. w.desk.board ≡ registrar.old.press.board) workers.old.items }
    ensures begun { OnOk result (IsBegun orders.items registrar.old registrar.new) }
    ensures workers { OnOk result
        (AreBegun queues.items registrar.old.due workers.old.items workers.new.items) }
    ensures err { OnErr result (IsNotBegun registrar.old registrar.new) }
    ensures unmoved { OnErr result (Each IsUnmoved workers.old.items workers.new.items) }
{
    let workers = workers.as_mut_slice();
    begin_all(rt, alloc, registrar, workers, queues, orders, rows)
}
