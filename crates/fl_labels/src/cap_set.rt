//! Sets of capabilities.
ghost use Rattle.std.specs.Prelude.{◌≡◌, ◌≢◌, IfOk, IfErr, OnOk, OnErr, IsErrOf, IsTrue, ◌↔◌, not, false, []};
ghost use Rattle.fl_labels.specs.Cap.{cap_cmp};
ghost use Rattle.fl_labels.specs.Found.{Found, Tells, Within};
ghost use Rattle.fl_labels.specs.Judged.{Judges};
ghost use Rattle.fl_labels.specs.Text.{braces, cap_text};
ghost use Rattle.fl_labels.specs.Uses.{AreUsesOf};
ghost use Rattle.fl_labels.specs.Words.{IsListing};
ghost use Rattle.fl_labels.specs.SetBy as set;

use crate::cap::Cap;
use crate::deque::CapDeque;
use crate::error::SetError;
use crate::list::read_items;
use crate::roomy::{RoomyCapSet, put_all};
use crate::sorted::{arrange, first_outside};
use crate::uses::{make_room, put_use, take_use, uses_of};
use std::alloc::{AllocError, Global};
use std::fmt;
use std::marker::Model;
use std::slice::Iter;

/// A set of capabilities, which rise in one piece, with the uses of groups in another one beside.
#[derive(Debug, Drop)]
pub struct CapSet {
    pub(crate) caps: CapDeque,
    pub(crate) uses: CapDeque,
}

impl Model for CapSet {
    ghost use Rattle.fl_labels.specs.SetBy as set;
    ghost use Rattle.fl_labels.specs.Cap.{cap_cmp};
    ghost use Rattle.fl_labels.specs.CapOrder.{coded_cap};
    ghost use Rattle.fl_labels.specs.parts.Apart.{AreApart};
    ghost use Rattle.fl_labels.specs.parts.Deque.{items};

    ghost Value = { set.SetBy cap_cmp };

    ghost coded = { set.code coded_cap };

    ghost view = { λ a. set.of_list (items a.caps) };

    ghost invariant = { λ a. AreApart a.caps a.uses };
}

impl PartialEq for CapSet {
    ghost use Rattle.std.specs.Ordering.{eq_by_cmp};
    ghost use Rattle.std.specs.Cmp.{partial_equiv_from_equiv};
    ghost use Rattle.fl_labels.specs.Cap.{cap_cmp};
    ghost use Rattle.fl_labels.specs.CapOrder.{cap_total};
    ghost use Rattle.fl_labels.specs.SetEquality.{set_cmp, sets_equiv};

    ghost eq = { eq_by_cmp (set_cmp cap_cmp) };

    ghost laws = { partial_equiv_from_equiv (sets_equiv cap_total) };

    fn eq(&self, other: &Self) -> bool {
        self.as_slice().cmp(other.as_slice()).is_eq()
    }
}

impl Eq for CapSet {
    ghost use Rattle.fl_labels.specs.CapOrder.{cap_total};
    ghost use Rattle.fl_labels.specs.SetEquality.{sets_equiv};

    ghost laws = { sets_equiv cap_total };
}

impl fmt::Display for CapSet {
    ghost use Rattle.std.specs.Prelude.{Some};
    ghost use Rattle.fl_labels.specs.Text.{caps_text};

    ghost output = { λ s. Some (caps_text s) };

    fn fmt<W: fmt::Write>(&self, f: &mut fmt::Formatter<W>) -> fmt::Result {
        match self.caps.as_slice().split_first() {
            None => f.write_str("{}"),
            Some((first, rest)) => {
                write!(f, "{{{first}")?;
                for cap in rest {
                    write!(f, ",{cap}")?;
                }
                f.write_str("}")
            }
        }
    }
}

impl CapSet {
    /// The set of nothing. Takes no memory.
    pub fn new(alloc: Global) -> Self
        ensures { result ≡ set.empty }
    {
        CapSet {
            caps: CapDeque::new(alloc),
            uses: CapDeque::new(alloc),
        }
    }

    /// The set of some capabilities, in any order, repeated or not. Fails only where there is not
    /// enough memory for the uses of groups among them. Linear where they rise, and else a sort in
    /// place.
    pub fn from_vec(mut caps: Vec<Cap>) -> Result<Self, AllocError>
        ensures { IfOk result (λ made. made ≡ set.of_list caps.items) }
    {
        arrange(&mut caps);
        let uses = uses_of(*caps.allocator(), &caps)?;
        Ok(CapSet {
            caps: CapDeque::from_vec(caps),
            uses: CapDeque::from_vec(uses),
        })
    }

    /// Reads a text such as `{+1.1,-1.4}`: capabilities in any order, a repeated one once.
    ///
    /// `BadText` of a text that lists no capabilities in braces, `Memory` of one that lists some.
    /// Linear in a text that lists rising capabilities, and else with a sort.
    pub fn from_text(alloc: Global, text: &str) -> Result<Self, SetError>
        ensures ok { IfOk result (λ caps. IsListing cap_text caps text.now) }
        ensures bad_text { IsErrOf result SetError.BadText
            → (s : set.SetBy cap_cmp) → ¬ IsListing cap_text s text.now }
        ensures never_too_long { IsErrOf result SetError.TooLong → ⊥ }
        ensures memory { IsErrOf result SetError.Memory → text.now ≢ braces cap_text [] }
    {
        if text == "{}" {
            return Ok(CapSet::new(alloc));
        }
        Ok(CapSet::from_vec(read_items(alloc, text)?)?)
    }

    /// Whether the capability is a member. A binary search.
    pub fn contains(&self, cap: Cap) -> bool
        ensures { result ≡ set.contains self.now cap }
    {
        self.caps.as_slice().binary_search(&cap).is_ok()
    }

    /// The members, rising.
    pub fn as_slice(&self) -> &[Cap]
        ensures { result.now ≡ set.members self.now }
    {
        self.caps.as_slice()
    }

    /// The uses of groups among the members, rising. Takes no memory.
    pub fn uses(&self) -> &[Cap]
        ensures { AreUsesOf self.now result.now }
    {
        self.uses.as_slice()
    }

    /// Adds a capability, and answers whether it is new. Fails only of a new one for which there is
    /// not enough memory, and then leaves the set. Moves the capabilities above it, or those below
    /// it where they are fewer and there is room before them. Where one comes in front of more than
    /// some 60, as much room is made there as they take, if there is memory for it.
    pub fn insert(&mut self, cap: Cap) -> Result<bool, AllocError>
        ensures ok { OnOk result (self.new ≡ set.insert self.old cap) }
        ensures new { IfOk result (λ new. new ≡ not (set.contains self.old cap)) }
        ensures err { OnErr result (self.new ≡ self.old) }
        ensures absent { OnErr result (set.contains self.old cap ≡ false) }
    {
        match self.caps.as_slice().binary_search(&cap) {
            Ok(_) => Ok(false),
            Err(place) => {
                make_room(&mut self.uses, cap)?;
                self.caps.make_room(&[cap])?;
                self.caps.put(place, cap);
                put_use(&mut self.uses, cap);
                Ok(true)
            }
        }
    }

    /// Removes a capability, and answers whether it was a member. Takes no memory. Moves the
    /// capabilities above it.
    pub fn remove(&mut self, cap: Cap) -> bool
        ensures after { self.new ≡ set.remove self.old cap }
        ensures was { result ≡ set.contains self.old cap }
    {
        match self.caps.as_slice().binary_search(&cap) {
            Ok(place) => {
                self.caps.remove(place);
                take_use(&mut self.uses, cap);
                true
            }
            Err(_) => false,
        }
    }

    /// The least capability that the other set lacks, or `None` where it has each. One walk along
    /// the two.
    pub fn first_missing(&self, other: &CapSet) -> Option<Cap>
        ensures { Found cap_cmp (set.In self.now) (set.In other.now) result }
    {
        first_outside(self.caps.as_slice(), other.caps.as_slice())
    }

    /// How many capabilities there are.
    pub fn len(&self) -> usize
        ensures { result ≡ set.len self.now }
    {
        self.caps.as_slice().len()
    }

    /// Whether there is no capability.
    pub fn is_empty(&self) -> bool
        ensures { IsTrue result ↔ (set.len self.now ≡ 0) }
    {
        self.caps.as_slice().is_empty()
    }

    /// The capabilities, rising.
    pub fn iter(&self) -> Iter<'_, Cap>
        ensures { result.rest.now ≡ set.members self.now }
    {
        self.caps.as_slice().iter()
    }

    /// The same set again. Fails only where there is not enough memory.
    pub fn copy(&self, alloc: Global) -> Result<Self, AllocError>
        ensures { IfOk result (λ made. made ≡ self.now) }
    {
        let caps = Vec::from_slice(alloc, self.caps.as_slice())?;
        let uses = Vec::from_slice(alloc, self.uses.as_slice())?;
        Ok(CapSet {
            caps: CapDeque::from_vec(caps),
            uses: CapDeque::from_vec(uses),
        })
    }

    // Whether each member of the other is one of this set. A binary search for each.
    fn has_each(&self, other: &CapSet) -> bool
        ensures { Tells result (Within (set.In other.now) (set.In self.now)) }
    {
        other.caps.as_slice().iter().all(|cap| self.contains(*cap))
    }

    /// Adds each member of the other set, in place. Fails only where one of them is new and there
    /// is not enough memory, and then leaves the set. Where none is new it takes no memory. Two
    /// binary searches for each member of the other. Each that is new moves as many capabilities as
    /// with `insert`, so none where all come behind what is there. Where all come in front of it,
    /// room is made by one copy, and each moves those of the other alone that came before it.
    pub fn insert_all(&mut self, other: &CapSet) -> Result<(), AllocError>
        ensures ok { OnOk result (self.new ≡ set.union self.old other.now) }
        ensures err { OnErr result (self.new ≡ self.old) }
        ensures new { OnErr result (¬ Within (set.In other.now) (set.In self.old)) }
    {
        if self.has_each(other) {
            return Ok(());
        }
        let caps = other.caps.as_slice();
        let uses = other.uses.as_slice();
        self.uses.make_room(uses)?;
        self.caps.make_room(caps)?;
        put_all(&mut self.caps, caps);
        put_all(&mut self.uses, uses);
        Ok(())
    }

    /// Removes a capability where the judge is content with the rest, and else leaves the set.
    /// Answers what the judge answers, which is asked once, also of a capability that is no member.
    /// Takes no memory of its own. A binary search; moves the capabilities above, and back where
    /// the judge refuses.
    pub fn remove_if<C, E, J: FnOnce(&mut C, &CapSet) -> Result<(), E>>(
        &mut self,
        cap: Cap,
        asked: &mut C,
        judge: J,
    ) -> Result<(), E>
        requires { J.IsAlwaysCallable judge }
        ensures ok { OnOk result (self.new ≡ set.remove self.old cap) }
        ensures err { OnErr result (self.new ≡ self.old) }
        ensures judged { Judges J.FnOnce judge asked.old
            (set.remove self.old cap) result asked.new }
    {
        let Ok(place) = self.caps.as_slice().binary_search(&cap) else {
            return judge(asked, self);
        };
        self.caps.remove(place);
        take_use(&mut self.uses, cap);
        if let Err(refused) = judge(asked, self) {
            self.caps.put(place, cap);
            put_use(&mut self.uses, cap);
            return Err(refused);
        }
        Ok(())
    }

    /// The same set with room for two more. An error says that there was not enough memory, and
    /// gives the set back.
    pub fn with_room(self) -> Result<RoomyCapSet, CapSet>
        ensures ok { IfOk result (λ roomy. roomy ≡ self) }
        ensures err { IfErr result (λ caps. caps ≡ self) }
    {
        let mut caps = self.caps;
        let mut uses = self.uses;
        if caps.reserve(2).is_ok() && uses.reserve(2).is_ok() {
            Ok(RoomyCapSet { caps, uses })
        } else {
            Err(CapSet { caps, uses })
        }
    }
}
