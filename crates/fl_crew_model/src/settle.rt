//! The end of a batch: the entries of all workers are compared with the record, and then they are
//! one run of the node.
ghost use Rattle.std.specs.Prelude.{◌≡◌, ◌≤◌, ◌↔◌, ℕ, IsTrue, length};
ghost use Rattle.fl_bench.specs.Bench.{BenchState};
ghost use Rattle.fl_system.specs.State.{NodeState};
ghost use Rattle.fl_crew_model.specs.Books.{Books};
ghost use Rattle.fl_crew_model.specs.Crews.{AllOfWorkers, IsCrew, IsWeave};
ghost use Rattle.fl_crew_model.specs.Settled.{AllAgree, IsWorked, queue_of};

use crate::compare::agreed;
use crate::record::{Deed, Entry};

/// The entries of one worker.
#[derive(Drop)]
pub struct Queue {
    pub entries: Vec<Entry>,
}

// Whether the entries of each worker agree with the record.
fn all_agreed(first: u64, deeds: &[Deed], queues: &[Queue]) -> bool
    requires { length queues.now ≤ 16 }
    ensures { IsTrue result ↔ AllAgree first 1 deeds.now queues.now }
{
    let mut worker: u8 = 1;
    let mut rest = queues;
    while let Some((queue, tail)) = rest.split_first() {
        if agreed(worker, first, deeds, queue.entries.as_slice()).is_none() {
            return false;
        }
        worker += 1;
        rest = tail;
    }
    true
}

// Whether each decision is on an order of a worker.
fn all_of_workers(workers: usize, deeds: &[Deed]) -> bool
    ensures { IsTrue result ↔ AllOfWorkers workers deeds.now }
{
    let mut rest = deeds;
    while let Some((deed, tail)) = rest.split_first() {
        if let Deed::Decided(decision) = deed {
            if decision.worker < 1 || usize::from(decision.worker) > workers {
                return false;
            }
        }
        rest = tail;
    }
    true
}

/// Whether the batch holds together: exactly where each decision is on an order of a worker, and
/// the entries of each worker agree with the record. Then, where the workers and the registrar keep
/// what they promise, the entries are one run of the node that the crew was. Takes as long as there
/// are entries, and deeds for each worker.
pub fn is_settled(first: u64, deeds: &[Deed], queues: &[Queue]) -> bool
    requires { length queues.now ≤ 16 }
    ensures exact { IsTrue result
        ↔ (AllOfWorkers (length queues.now) deeds.now × AllAgree first 1 deeds.now queues.now) }
    ensures run { IsTrue result → (number : ℕ) (n : NodeState) (b b' : Books)
        (old new : ℕ → BenchState) (before : ℕ → ℕ) → first ≡ length b.list →
        IsCrew number (length queues.now) n b old before →
        IsWorked number (length queues.now) b b' deeds.now old new (queue_of queues.now) →
        (last : ℕ → ℕ)
        × IsWeave number (length queues.now) n deeds.now (queue_of queues.now) b' new last }
{
    if !all_of_workers(queues.len(), deeds) {
        return false;
    }
    all_agreed(first, deeds, queues)
}
