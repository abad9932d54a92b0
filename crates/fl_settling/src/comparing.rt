//! The entries of one worker beside the record.
ghost use Rattle.std.specs.Prelude.{◌≡◌, ◌≤◌, ◌↔◌, [], IsTrue, drop, length};
ghost use Rattle.fl_system.specs.declared.answer.Fault.TheVariants.{KeeperFailed};
ghost use Rattle.fl_crew_model.specs.declared.record.Told.{Told as ToldValue};
ghost use Rattle.fl_crew_model.specs.Compared.{decisions_of};
ghost use Rattle.fl_settling.specs.Settled.{FailsFirst, IsFront, Meets};
ghost use Rattle.fl_settling.specs.parts.Compared.{IsWhole};

use fl_crew_model::compare::{front, is_rising};
use fl_crew_model::record::{Deed, Entry, FailedOrder, Told};
use fl_system::answer::Fault;
use fl_worker::worker::Worker;

/// What is found of the entries of a worker.
#[derive(Clone, Copy, Debug)]
pub(crate) struct Comparison {
    /// How many of them are the record's.
    pub(crate) front: usize,
    /// How much of the list the worker has to have seen behind these.
    pub(crate) last: u64,
    /// Whether it stopped there where the keeper broke, if that did at an order of it.
    pub(crate) is_met: bool,
    /// Whether these are all of its entries, no decision on its orders is left, and those are on
    /// later and later places.
    pub(crate) is_whole: bool,
}

// Whether none of these is a decision on an order of this worker.
fn has_none(worker: u8, deeds: &[Deed]) -> bool
    ensures { IsTrue result ↔ (decisions_of worker deeds.now ≡ []) }
{
    let mut rest = deeds;
    while let Some((deed, tail)) = rest.split_first() {
        if let Deed::Decided(decision) = deed {
            if decision.worker == worker {
                return false;
            }
        }
        rest = tail;
    }
    true
}

// Whether who asked is told that the keeper broke.
fn is_failure(told: &Told) -> bool
    ensures { IsTrue result ↔ (told.now ≡ ToldValue.Refused KeeperFailed) }
{
    match told {
        Told::Refused(Fault::KeeperFailed) => true,
        _ => false,
    }
}

// Whether the first of these is the order at this place, which saw so much at least, and at which
// the worker was told that the keeper broke.
fn fails_first(place: usize, need: u64, entries: &[Entry]) -> bool
    ensures { IsTrue result ↔ FailsFirst place need entries.now }
{
    let Some((entry, _)) = entries.split_first() else {
        return false;
    };
    entry.place == place && is_failure(&entry.told) && need <= entry.seen
}

// Whether that is so where the keeper broke, if it did at an order of this worker.
fn meets(failed: Option<FailedOrder>, worker: u8, need: u64, entries: &[Entry]) -> bool
    ensures { IsTrue result ↔ Meets failed worker need entries.now }
{
    let Some(order) = failed else {
        return true;
    };
    order.worker != worker || fails_first(order.place, need, entries)
}

// Compares the good entries of the worker with the record, up to where one contradicts it. Takes as
// long as there are entries and deeds.
pub(crate) fn compare(
    worker: &Worker,
    deeds: &[Deed],
    first: u64,
    failed: Option<FailedOrder>,
) -> Comparison
    requires { worker.now.good ≤ length worker.now.entries.items }
    ensures front { IsFront first deeds.now worker.now result.front result.last }
    ensures met { IsTrue result.is_met ↔ Meets failed worker.now.number result.last
        (drop result.front worker.now.entries.items) }
    ensures whole { IsTrue result.is_whole ↔ IsWhole first deeds.now worker.now }
{
    let (good, last, left) = front(worker.number, first, deeds, &worker.entries[..worker.good]);
    let is_met = meets(failed, worker.number, last, &worker.entries[good..]);
    let is_whole = good == worker.entries.len()
        && has_none(worker.number, left)
        && is_rising(worker.number, deeds);
    Comparison {
        front: good,
        last,
        is_met,
        is_whole,
    }
}
