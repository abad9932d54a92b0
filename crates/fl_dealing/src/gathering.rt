//! What was answered is put into one list again.
ghost use Rattle.std.specs.Prelude.{◌≡◌, ◌≤◌, ◌<◌, ◌↔◌, ℕ, suc, List, [], ◌++◌, map, reverse, length, All, IfSome, IfNone, IsTrue, slice_index_or, vec_len, vec_capacity};
ghost use Rattle.fl_dealing.specs.Gathered.{select, said_by, IsGathered};
ghost use Rattle.fl_dealing.specs.Shown.{shown, shown_taken};
ghost use Rattle.fl_dealing.specs.parts.Gathering.{said, Pops, AreAllGone};

use crate::entry::{Entry, Taken};
use fl_crew_model::record;

/// What one worker kept of its tasks, in their order.
#[derive(Drop)]
pub struct Lane {
    pub entries: Vec<record::Entry>,
}

// The answers that are not yet in the list.
#[derive(Drop)]
struct Answers {
    lanes: Vec<Lane>,
    taken: Vec<Taken>,
}

// Whether no worker has an entry.
fn are_empty(lanes: &[Lane]) -> bool
    ensures { IsTrue result ↔ All (λ lane. vec_len lane.entries ≡ 0) lanes.now }
{
    lanes.iter().all(|lane| lane.entries.is_empty())
}

impl Answers {
    // Takes the last one of the registrar.
    fn pop_taken(&mut self) -> Option<Entry>
        ensures { Pops 0 self.old result self.new }
    {
        let taken = self.taken.pop()?;
        Some(Entry::from(taken))
    }

    // Takes the last one of the worker with this lane.
    fn pop_told(&mut self, index: usize) -> Option<Entry>
        ensures { Pops (suc index) self.old result self.new }
    {
        let lane = self.lanes.get_mut(index)?;
        let entry = lane.entries.pop()?;
        Some(Entry::from(entry))
    }

    // Takes the last one of this owner.
    fn pop(&mut self, owner: u8) -> Option<Entry>
        ensures { Pops owner self.old result self.new }
    {
        if owner == 0 {
            self.pop_taken()
        } else {
            self.pop_told(owner as usize - 1)
        }
    }

    // Whether there is none.
    fn is_empty(&self) -> bool
        ensures { IsTrue result ↔ AreAllGone self.now }
    {
        self.taken.is_empty() && are_empty(&self.lanes)
    }

    // Takes the last one of each of these owners in turn, from the last on, as long as it is of
    // that place.
    fn pop_all(&mut self, owners: &[u8], entries: &mut Vec<Entry>) -> bool
        requires empty { entries.old.items ≡ [] }
        requires room { length owners.now ≤ vec_capacity entries.old }
        ensures gathered { IsTrue result → AreAllGone self.new
            → IsGathered owners.now (said self.old) (reverse entries.new.items) }
        ensures only { (es : List Entry) → IsGathered owners.now (said self.old) es
            → IsTrue result × AreAllGone self.new }
    {
        for place in (0..owners.len()).rev() {
            let Some(entry) = self.pop(owners[place]) else {
                return false;
            };
            if entry.job != place {
                return false;
            }
            entries.push_reserved(entry);
        }
        true
    }
}

/// Puts the answers of all into one list, in the order of the places, of which `owners` says whose
/// item stands there. The list is `room`, which is empty and has room for all of them. `None` where
/// there is no such list: where an answer is missing, or stands at another place, or is left over.
/// Nothing is left of the answers then. Takes time in proportion to their number, and no memory.
pub fn gather(
    owners: &[u8],
    lanes: Vec<Lane>,
    taken: Vec<Taken>,
    room: Vec<Entry>,
) -> Option<Vec<Entry>>
    requires empty { room.items ≡ [] }
    requires room { length owners.now ≤ vec_capacity room }
    ensures gathered { IfSome result (λ entries.
        IsGathered owners.now (said_by lanes.items taken.items) entries.items) }
    ensures places { IfSome result (λ entries. (k : ℕ) (entry : Entry) → k < vec_len entries →
        (slice_index_or entries.items k entry).job ≡ k) }
    ensures workers { IfSome result (λ entries. (i : ℕ) (lane : Lane) → i < length lanes.items →
        select (suc i) owners.now entries.items
        ≡ map shown (slice_index_or lanes.items i lane).entries.items) }
    ensures registrar { IfSome result (λ entries.
        select 0 owners.now entries.items ≡ map shown_taken taken.items) }
    ensures none { IfNone result ((entries : List Entry) →
        ¬ IsGathered owners.now (said_by lanes.items taken.items) entries) }
{
    let mut answers = Answers { lanes, taken };
    let mut entries = room;
    if !answers.pop_all(owners, &mut entries) {
        return None;
    }
    if !answers.is_empty() {
        return None;
    }
    entries.reverse();
    Some(entries)
}
