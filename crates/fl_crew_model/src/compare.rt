//! Once the workers are back, the entries of each are compared with the registrar's record, one
//! after the other.
ghost use Rattle.std.specs.Prelude.{◌≡◌, ◌≤◌, ◌↔◌, ◌∷◌, ℕ, List, [], take, length};
ghost use Rattle.std.specs.Prelude.{IfNone, IfSome, IsTrue};
ghost use Rattle.fl_crew_model.specs.Compared.{IsAlone, IsDecided, Matches, AgreesUpTo, Agrees};
ghost use Rattle.fl_crew_model.specs.Compared.{Rise, decisions_of};
ghost use Rattle.fl_crew_model.specs.declared.record.Decision.{Decision};

use crate::record::{Decision, Deed, Entry, Ruling};
use crate::same::is_same;

// The next decision on an order of this worker, what stands from there on, and what stands behind
// it.
fn next_decision(worker: u8, deeds: &[Deed]) -> (Option<Decision>, &[Deed], &[Deed])
    ensures none { IfNone result.0 ((decisions_of worker deeds.now ≡ [])
        × (decisions_of worker result.1.now ≡ [])) }
    ensures some { IfSome result.0 (λ d. (decisions_of worker deeds.now
        ≡ d ∷ decisions_of worker result.2.now)
        × (decisions_of worker result.1.now ≡ decisions_of worker deeds.now)) }
{
    let mut rest = deeds;
    while let Some((deed, tail)) = rest.split_first() {
        if let Deed::Decided(decision) = deed {
            if decision.worker == worker {
                return (Some(*decision), rest, tail);
            }
        }
        rest = tail;
    }
    (None, rest, rest)
}

// Compares an entry that its bench answered alone: no decision is to be on it. What is left is from
// the next decision on.
fn follow_alone<'a>(worker: u8, deeds: &'a [Deed], entry: &Entry) -> Option<&'a [Deed]>
    ensures some { IfSome result (λ rest. IsAlone (decisions_of worker deeds.now) entry.now
        entry.now.seen (decisions_of worker rest.now)) }
    ensures none { IfNone result ((next : ℕ) (rest : List Decision)
        → ¬ IsAlone (decisions_of worker deeds.now) entry.now next rest) }
{
    let (first, from, _) = next_decision(worker, deeds);
    if let Some(decision) = first {
        if decision.place <= entry.place {
            return None;
        }
    }
    Some(from)
}

// Compares an entry on whose order the registrar ruled so: the next decision is to be on it. What
// is left is behind that decision.
fn follow_ruled<'a>(
    worker: u8,
    deeds: &'a [Deed],
    entry: &Entry,
    ruling: Ruling,
) -> Option<(u64, &'a [Deed])>
    ensures some { IfSome result (λ r. IsDecided (decisions_of worker deeds.now) entry.now ruling
        r.0 (decisions_of worker r.1.now)) }
    ensures none { IfNone result ((next : ℕ) (rest : List Decision)
        → ¬ IsDecided (decisions_of worker deeds.now) entry.now ruling next rest) }
{
    let (first, _, behind) = next_decision(worker, deeds);
    let decision = first?;
    if decision.place != entry.place || decision.before < entry.seen {
        return None;
    }
    if !is_same(decision.ruling, ruling) {
        return None;
    }
    Some((decision.after, behind))
}

// Compares one entry. The number says how much of the list has to be seen from then on.
fn follow<'a>(worker: u8, need: u64, deeds: &'a [Deed], entry: &Entry) -> Option<(u64, &'a [Deed])>
    ensures some { IfSome result (λ r. (need ≤ entry.now.seen)
        × Matches (decisions_of worker deeds.now) entry.now entry.now.ruling
        r.0 (decisions_of worker r.1.now)) }
    ensures none { IfNone result ((next : ℕ) (rest : List Decision) → need ≤ entry.now.seen
        → ¬ Matches (decisions_of worker deeds.now) entry.now entry.now.ruling next rest) }
{
    if entry.seen < need {
        return None;
    }
    let Some(ruling) = entry.ruling else {
        let rest = follow_alone(worker, deeds, entry)?;
        return Some((entry.seen, rest));
    };
    follow_ruled(worker, deeds, entry, ruling)
}

/// How many entries of this worker are those on the first decisions on its orders: up to where one
/// contradicts the record, and no fewer. The second number says how much of the list the worker has
/// to have seen then, and the deeds are those behind. Takes as long as there are entries and deeds.
pub fn front<'a>(
    worker: u8,
    need: u64,
    deeds: &'a [Deed],
    entries: &[Entry],
) -> (usize, u64, &'a [Deed])
    ensures within { result.0 ≤ length entries.now }
    ensures agrees { AgreesUpTo need (decisions_of worker deeds.now) (take result.0 entries.now)
        result.1 (decisions_of worker result.2.now) }
    ensures most { (good last : ℕ) (left : List Decision) → good ≤ length entries.now
        → AgreesUpTo need (decisions_of worker deeds.now) (take good entries.now) last left
        → good ≤ result.0 }
{
    let mut good = 0;
    let mut need = need;
    let mut left = deeds;
    let mut rest = entries;
    while let Some((entry, tail)) = rest.split_first() {
        let Some((next, behind)) = follow(worker, need, left, entry) else {
            return (good, need, left);
        };
        need = next;
        left = behind;
        rest = tail;
        good += 1;
    }
    (good, need, left)
}

/// Whether the decisions on the orders of this worker are on later and later places. Takes as long
/// as there are deeds.
pub fn is_rising(worker: u8, deeds: &[Deed]) -> bool
    ensures { IsTrue result ↔ Rise (decisions_of worker deeds.now) }
{
    let mut last: Option<usize> = None;
    let mut rest = deeds;
    while let Some((deed, tail)) = rest.split_first() {
        if let Deed::Decided(decision) = deed {
            if decision.worker == worker {
                if let Some(place) = last {
                    if decision.place <= place {
                        return false;
                    }
                }
                last = Some(decision.place);
            }
        }
        rest = tail;
    }
    true
}

/// How much of the list the worker has to have seen in the end, where its entries agree with the
/// record; none exactly where they do not. Takes as long as there are entries and deeds.
pub fn agreed(worker: u8, need: u64, deeds: &[Deed], entries: &[Entry]) -> Option<u64>
    ensures some { IfSome result (λ last. Agrees need (decisions_of worker deeds.now) entries.now
        last) }
    ensures none { IfNone result ((last : ℕ)
        → ¬ Agrees need (decisions_of worker deeds.now) entries.now last) }
{
    let (good, last, left) = front(worker, need, deeds, entries);
    if good < entries.len() || next_decision(worker, left).0.is_some() {
        return None;
    }
    Some(last)
}
