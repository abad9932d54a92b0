//! What processes own, which is shared with whoever notes it.
ghost use Rattle.std.specs.Prelude.{◌≡◌, ◌∷◌, [], IfOk, IfErr, IfSome, OnOk, OnErr, not, false};
ghost use Rattle.fl_labels.specs.Found.{Within};
ghost use Rattle.fl_labels.specs.Judged.{Judges};
ghost use Rattle.fl_labels.specs.SetBy as set;
ghost use Rattle.fl_bench.specs.parts.Changes.{after, Follows};

use crate::change::Change;
use crate::past::Past;
use crate::standing::Standing;
use fl_labels::cap::Cap;
use fl_labels::cap_set::CapSet;
use fl_labels::roomy::RoomyCapSet;
use fl_message::shared::Shared;
use fl_rules::labels::Labels;
use std::alloc::{AllocError, Global};
use std::marker::Model;

/// What a process owns: a set of capabilities. From when it is shared first, its changes are kept,
/// so that it is shared again without a copy of the whole set.
pub struct Owned {
    caps: CapSet,
    past: Option<Past>,
}

impl Model for Owned {
    ghost use Rattle.std.specs.Prelude.{◌≡◌, IfSome};
    ghost use Rattle.fl_labels.specs.SetBy as set;
    ghost use Rattle.fl_labels.specs.Cap.{cap_cmp};
    ghost use Rattle.fl_labels.specs.CapOrder.{coded_cap};

    ghost Value = { set.SetBy cap_cmp };

    ghost coded = { set.code coded_cap };

    ghost view = { λ a. a.caps };

    ghost invariant = { λ a. IfSome a.past (λ past. past ≡ a.caps) };
}

impl Drop for Owned {
    fn drop(self) {
        let Owned { caps: _, past: _ } = self;
    }
}

/// The same, with room for two more, made by `Owned::with_room`.
pub struct RoomyOwned {
    caps: RoomyCapSet,
    past: Option<Past>,
}

impl Model for RoomyOwned {
    ghost use Rattle.std.specs.Prelude.{◌≡◌, IfSome};
    ghost use Rattle.fl_labels.specs.SetBy as set;
    ghost use Rattle.fl_labels.specs.Cap.{cap_cmp};
    ghost use Rattle.fl_labels.specs.CapOrder.{coded_cap};

    ghost Value = { set.SetBy cap_cmp };

    ghost coded = { set.code coded_cap };

    ghost view = { λ a. a.caps };

    ghost invariant = { λ a. IfSome a.past (λ past. past ≡ a.caps) };
}

impl Drop for RoomyOwned {
    fn drop(self) {
        let RoomyOwned { caps: _, past: _ } = self;
    }
}

// The set of these capabilities with these labels, by its past, which is begun where there is none.
fn share(
    alloc: Global,
    past: &mut Option<Past>,
    caps: &[Cap],
    labels: &Labels,
) -> Result<Shared<Standing>, AllocError>
    requires { IfSome past.old (λ past. past ≡ set.of_list caps.now) }
    ensures shared { IfOk result (λ made.
        made ≡ record { labels = labels.now; owned = set.of_list caps.now }) }
    ensures kept { IfSome past.new (λ past. past ≡ set.of_list caps.now) }
{
    if let Some(past) = past {
        return past.share(alloc, labels);
    }
    begin(alloc, past, caps, labels)
}

// The set of these capabilities with these labels, whose past is begun.
#[cold]
#[inline(never)]
fn begin(
    alloc: Global,
    past: &mut Option<Past>,
    caps: &[Cap],
    labels: &Labels,
) -> Result<Shared<Standing>, AllocError>
    requires { IfSome past.old (λ past. past ≡ set.of_list caps.now) }
    ensures shared { IfOk result (λ made.
        made ≡ record { labels = labels.now; owned = set.of_list caps.now }) }
    ensures kept { IfSome past.new (λ past. past ≡ set.of_list caps.now) }
{
    let mut begun = Past::new(alloc, caps)?;
    let made = begun.share(alloc, labels)?;
    *past = Some(begun);
    Ok(made)
}

// The past with some changes more. It is let go where there is no memory for them, where the set
// has few members, and where it tells of far more changes than the set has members.
fn with_changes(past: Option<Past>, changes: &[Change], members: usize) -> Option<Past>
    ensures { Follows past result (λ s. after s changes.now) }
{
    let mut past = past?;
    if past.is_long(members) {
        return None;
    }
    past.add(changes).ok()?;
    Some(past)
}

// The past with room for two changes more. It is let go where there is no memory for that.
fn with_room(past: Option<Past>) -> Option<Past>
    ensures { Follows past result (λ s. s) }
{
    let mut past = past?;
    past.reserve(2).ok()?;
    Some(past)
}

// The past with these capabilities gained. It is let go as by `with_changes`.
fn with_gains(past: Option<Past>, caps: &[Cap], members: usize) -> Option<Past>
    ensures { Follows past result (λ s. set.insert_all s caps.now) }
{
    let mut past = past?;
    if past.is_long(members) {
        return None;
    }
    past.add_gains(caps).ok()?;
    Some(past)
}

impl Owned {
    /// The set, which nobody has noted.
    pub fn new(caps: CapSet) -> Self
        ensures { result ≡ caps }
    {
        Owned { caps, past: None }
    }

    /// The capabilities.
    pub fn caps(&self) -> &CapSet
        ensures { result.now ≡ self.now }
    {
        &self.caps
    }

    /// The capabilities with these labels, for one more holder. Fails only where there is not
    /// enough memory. Copies nothing where neither has changed since it was asked last, and else
    /// the labels. Of the capabilities it copies none where they have not changed. It copies them
    /// where it is asked first, and where something has changed and they are 8 at most, or far more
    /// has changed than there is. Else it copies what has changed, and three lists of what changed
    /// before: at most 128 pointers, and one for each 4,096 times that it was asked after a change.
    pub fn share(&mut self, alloc: Global, labels: &Labels) -> Result<Shared<Standing>, AllocError>
        ensures shared { IfOk result (λ made.
            made ≡ record { labels = labels.now; owned = self.old }) }
        ensures same { self.new ≡ self.old }
    {
        share(alloc, &mut self.past, self.caps.as_slice(), labels)
    }

    /// Adds a capability, as `CapSet::insert` does.
    pub fn insert(&mut self, cap: Cap) -> Result<bool, AllocError>
        ensures ok { OnOk result (self.new ≡ set.insert self.old cap) }
        ensures new { IfOk result (λ new. new ≡ not (set.contains self.old cap)) }
        ensures err { OnErr result (self.new ≡ self.old) }
        ensures absent { OnErr result (set.contains self.old cap ≡ false) }
    {
        let new = self.caps.insert(cap)?;
        if new {
            self.past = with_changes(self.past.take(), &[Change::Gained(cap)], self.caps.len());
        }
        Ok(new)
    }

    /// Adds each member of the other set, as `CapSet::insert_all` does.
    pub fn insert_all(&mut self, other: &CapSet) -> Result<(), AllocError>
        ensures ok { OnOk result (self.new ≡ set.union self.old other.now) }
        ensures err { OnErr result (self.new ≡ self.old) }
        ensures new { OnErr result (¬ Within (set.In other.now) (set.In self.old)) }
    {
        if other.iter().all(|cap| self.caps.contains(*cap)) {
            return Ok(());
        }
        self.caps.insert_all(other)?;
        self.past = with_gains(self.past.take(), other.as_slice(), self.caps.len());
        Ok(())
    }

    /// Removes a capability where the judge is content with the rest, as `CapSet::remove_if` does.
    /// Its past may take memory for that, and does without.
    pub fn remove_if<C, E, J: FnOnce(&mut C, &CapSet) -> Result<(), E>>(
        &mut self,
        cap: Cap,
        asked: &mut C,
        judge: J,
    ) -> Result<(), E>
        requires { J.IsAlwaysCallable judge }
        ensures ok { OnOk result (self.new ≡ set.remove self.old cap) }
        ensures err { OnErr result (self.new ≡ self.old) }
        ensures judged { Judges J.FnOnce judge asked.old
            (set.remove self.old cap) result asked.new }
    {
        let result = self.caps.remove_if(cap, asked, judge);
        if result.is_ok() {
            self.past = with_changes(self.past.take(), &[Change::Dropped(cap)], self.caps.len());
        }
        result
    }

    /// The same set with room for two more. An error says that there was not enough memory, and
    /// gives the set back.
    pub fn with_room(self) -> Result<RoomyOwned, Owned>
        ensures ok { IfOk result (λ roomy. roomy ≡ self) }
        ensures err { IfErr result (λ owned. owned ≡ self) }
    {
        let Owned { caps, past } = self;
        match caps.with_room() {
            Ok(caps) => Ok(RoomyOwned {
                caps,
                past: with_room(past),
            }),
            Err(caps) => Err(Owned { caps, past }),
        }
    }
}

impl RoomyOwned {
    /// The capabilities, rising.
    pub fn as_slice(&self) -> &[Cap]
        ensures { result.now ≡ set.members self.now }
    {
        self.caps.as_slice()
    }

    /// The capabilities with these labels, for one more holder, as `Owned::share` has it.
    pub fn share(&mut self, alloc: Global, labels: &Labels) -> Result<Shared<Standing>, AllocError>
        ensures shared { IfOk result (λ made.
            made ≡ record { labels = labels.now; owned = self.old }) }
        ensures same { self.new ≡ self.old }
    {
        share(alloc, &mut self.past, self.caps.as_slice(), labels)
    }

    /// With both capabilities, as `RoomyCapSet::with_both` adds them. Takes no memory.
    pub fn with_both(self, first: Cap, second: Cap) -> Owned
        ensures { result ≡ set.insert_all self (first ∷ second ∷ []) }
    {
        let RoomyOwned { caps, past } = self;
        let caps = caps.with_both(first, second);
        let gained = [Change::Gained(second), Change::Gained(first)];
        let past = with_changes(past, &gained, caps.len());
        Owned { caps, past }
    }

    /// The same set, whose room is no longer kept for anything.
    pub fn without_room(self) -> Owned
        ensures { result ≡ self }
    {
        let RoomyOwned { caps, past } = self;
        Owned {
            caps: caps.without_room(),
            past,
        }
    }
}
