//! Values by pids.
ghost use Rattle.std.specs.Option.{option_copied, option_copied_mut};
ghost use Rattle.std.specs.Prelude.{◌≡◌, ◌≢◌, [], IsTrue, IfOk, IfErr, OnOk, OnErr};
ghost use Rattle.std.specs.Borrow.{LendsIf, sem};
ghost use Rattle.std.specs.FinMap as map;
ghost use Rattle.fl_monitor.specs.parts.Slots.{held, with_held, IsRising, IsAt, IsGapFor, Keeps};

use fl_labels::pid::Pid;
use fl_message::boxed::Boxed;
use std::alloc::{AllocError, Global};
use std::marker::Model;

// At least so many values are removed between two packings.
const FEW: usize = 16;

// The slot of a pid: its value, or nothing once that was removed. Values stand in boxes of their
// own, so that slots are small.
#[derive(Drop)]
struct Slot<T> {
    pid: Pid,
    value: Option<Box<T>>,
}

impl<T> Slot<T> {
    ghost use Rattle.fl_monitor.specs.contracts.pid_map.Slot.{the_row};

    fn get(&self) -> Option<&T>
        ensures { option_copied result ≡ held self.now }
    {
        match &self.value {
            Some(value) => Some(value.as_ref()),
            None => None,
        }
    }

    fn get_mut(&mut self) -> Option<&mut T>
        ensures* writes_back { sem 𝓛
            (LendsIf (the_row T.row) T.row self.entry result (with_held self.old) self.old) }
        ensures value { option_copied_mut result ≡ held self.old }
    {
        match &mut self.value {
            Some(value) => Some(value.as_mut()),
            None => None,
        }
    }
}

// How many steps of that stride lead from one serial up to another.
fn steps(from: u32, to: u32, stride: u32) -> usize {
    let distance = to.wrapping_sub(from);
    // A division costs as much as all else here.
    let count = if stride > 1 {
        distance / stride
    } else {
        distance
    };
    count as usize
}

// Whether the slot at this place is that of the pid.
fn stands_at<T>(slots: &[Slot<T>], place: usize, pid: Pid) -> bool
    ensures { IsTrue result → IsAt slots.now pid place }
{
    place < slots.len() && slots[place].pid == pid
}

// Where the slot of that pid stands, or else where it would. It is guessed by how far the serial is
// from the first one, which is right where no slot between them was dropped, and from the last one.
#[inline(always)]
fn place_of<T>(slots: &[Slot<T>], stride: u32, pid: Pid) -> Result<usize, usize>
    requires { IsRising slots.now }
    ensures ok { IfOk result (IsAt slots.now pid) }
    ensures err { IfErr result (IsGapFor slots.now pid) }
{
    if let Some(first) = slots.first() {
        let guess = steps(first.pid.serial, pid.serial, stride);
        if stands_at(slots, guess, pid) {
            return Ok(guess);
        }
    }
    if let Some(last) = slots.last() {
        let away = steps(pid.serial, last.pid.serial, stride);
        let guess = (slots.len() - 1).wrapping_sub(away);
        if stands_at(slots, guess, pid) {
            return Ok(guess);
        }
    }
    search(slots, pid)
}

// The same, by a binary search, which is seldom wanted, since most guesses are right.
fn search<T>(slots: &[Slot<T>], pid: Pid) -> Result<usize, usize>
    requires { IsRising slots.now }
    ensures ok { IfOk result (IsAt slots.now pid) }
    ensures err { IfErr result (IsGapFor slots.now pid) }
{
    slots.binary_search_by_key(&pid, |slot| slot.pid)
}

// The same for a pid that is about to be put. Most are greater than all others, and are not
// searched for.
fn place_for<T>(slots: &[Slot<T>], stride: u32, pid: Pid) -> Result<usize, usize>
    requires { IsRising slots.now }
    ensures ok { IfOk result (IsAt slots.now pid) }
    ensures err { IfErr result (IsGapFor slots.now pid) }
{
    match slots.last() {
        Some(last) if last.pid.cmp(&pid).is_lt() => Err(slots.len()),
        _ => place_of(slots, stride, pid),
    }
}

// Drops the slots without a value, and gives back most of the room that is left.
fn pack<T: Drop>(slots: &mut Vec<Slot<T>>)
    ensures { Keeps slots.old.items slots.new.items }
{
    slots.retain(|slot| slot.value.is_some());
    slots.shrink_to(slots.len().saturating_mul(2).max(FEW));
}

/// Values by pids. Where a pid stands is guessed by its serial, for pids of one node and boot that
/// were put in rising order, their serials `stride` apart: the guess is right for those after which
/// none was dropped, and for those before which none was. A search costs a few instructions where
/// it is right, and else a binary search.
#[derive(Drop)]
pub struct PidMap<T> {
    stride: u32,
    // So many values may be removed before the slots are packed.
    spare: usize,
    slots: Vec<Slot<T>>,
}

impl<T> Model for PidMap<T> {
    ghost use Rattle.std.specs.FinMap as map;
    ghost use Rattle.fl_labels.specs.Pid.{pid_cmp};
    ghost use Rattle.fl_labels.specs.PidOrder.{coded_pid};

    ghost Value = { map.FinMap pid_cmp T };

    ghost coded = { map.code coded_pid T.code };

    ghost use Rattle.fl_monitor.specs.parts.Slots.{entries_of, IsRising};

    ghost view = { λ a. map.from_entries (entries_of a.slots.items) };

    ghost invariant = { λ a. IsRising a.slots.items };
}

impl<T> PidMap<T> {
    ghost use Rattle.fl_monitor.specs.contracts.pid_map.PidMap.{the_row};

    /// No value. Takes no memory.
    pub fn new(alloc: Global, stride: u32) -> Self
        ensures { result ≡ map.empty }
    {
        PidMap {
            stride,
            spare: FEW,
            slots: Vec::new(alloc),
        }
    }

    /// The value of that pid, or none. Costs a search.
    pub fn get(&self, pid: Pid) -> Option<&T>
        ensures { option_copied result ≡ map.get self.now pid }
    {
        let Ok(place) = place_of(&self.slots, self.stride, pid) else {
            return None;
        };
        self.slots[place].get()
    }

    /// The value of that pid, to be written, or none. Costs a search.
    #[inline(always)]
    pub fn get_mut(&mut self, pid: Pid) -> Option<&mut T>
        ensures* writes_back { sem 𝓛
            (LendsIf (the_row T.row) T.row self.entry result (map.insert self.old pid) self.old) }
        ensures value { option_copied_mut result ≡ map.get self.old pid }
    {
        let Ok(place) = place_of(&self.slots, self.stride, pid) else {
            return None;
        };
        self.slots[place].get_mut()
    }

    /// The pids that have a value, rising. Fails only where there is one, and not enough memory.
    /// Costs a pass over all slots.
    pub fn pids(&self, alloc: Global) -> Result<Vec<Pid>, AllocError>
        ensures ok { IfOk result (λ made. made.items ≡ map.keys self.now) }
        ensures err { OnErr result (map.keys self.now ≢ []) }
    {
        let mut pids = Vec::new(alloc);
        for slot in &self.slots {
            if slot.value.is_some() {
                pids.push(slot.pid)?;
            }
        }
        Ok(pids)
    }

    /// Puts a value, in the place of one of that pid. An error leaves them. Costs a search where
    /// the pid is not above all others, and moves the slots of greater pids.
    pub fn insert(&mut self, pid: Pid, value: Boxed<T>) -> Result<(), AllocError>
    where
        T: Drop,
        ensures ok { OnOk result (self.new ≡ map.insert self.old pid value) }
        ensures err { OnErr result (self.new ≡ self.old) }
    {
        let value = Some(value.into_box());
        match place_for(&self.slots, self.stride, pid) {
            Ok(place) => self.slots[place].value = value,
            Err(place) => self.slots.insert(place, Slot { pid, value })?,
        }
        Ok(())
    }

    /// Removes the value of that pid, if there is one. Wants no memory: where a smaller block is
    /// refused, the larger one stays. Costs a search, and a pass over all slots once half as many
    /// values were removed as there were at the last one. So there are about twice as many slots as
    /// values at most, and a few.
    pub fn remove(&mut self, pid: Pid)
    where
        T: Drop,
        ensures { self.new ≡ map.remove self.old pid }
    {
        let Ok(place) = place_of(&self.slots, self.stride, pid) else {
            return;
        };
        self.slots[place].value = None;
        if self.spare > 0 {
            self.spare -= 1;
        } else {
            pack(&mut self.slots);
            self.spare = (self.slots.len() / 2).max(FEW);
        }
    }
}
