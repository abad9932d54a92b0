//! Labels: sets of at most 256 tags.
ghost use Rattle.std.specs.Prelude.{◌≡◌, ◌<◌, ◌≤◌, IfOk, IfErr, OnOk, OnErr, IsErrOf, not, false, IsTrue, ◌↔◌};
ghost use Rattle.fl_labels.specs.Found.{Found};
ghost use Rattle.fl_labels.specs.Text.{name_text};
ghost use Rattle.fl_labels.specs.Words.{IsListing, NoComma};
ghost use Rattle.fl_labels.specs.Name.{name_cmp};
ghost use Rattle.fl_labels.specs.SetBy as set;

use crate::error::SetError;
use crate::list::{inner_of, read_parts};
use crate::name::Name;
use crate::sorted::{arrange, first_outside};
use crate::tags::Tags;
use crate::text::read_name;
use std::alloc::{AllocError, Global};
use std::fmt;
use std::marker::Model;
use std::slice::Iter;

/// How many tags a label holds at most.
pub const MOST_TAGS: usize = 256;

/// A set of at most 256 tags, kept in place where it has one at most.
#[derive(Debug, Drop)]
pub struct Label {
    alloc: Global,
    tags: Tags,
}

impl Model for Label {
    ghost use Rattle.fl_labels.specs.SetBy as set;
    ghost use Rattle.fl_labels.specs.Name.{name_cmp};
    ghost use Rattle.fl_labels.specs.NameOrder.{coded_name};
    ghost use Rattle.fl_labels.specs.parts.Label.{items, IsLabel};

    ghost Value = { set.SetBy name_cmp };

    ghost coded = { set.code coded_name };

    ghost view = { λ a. set.of_list (items a.tags) };

    ghost invariant = { λ a. IsLabel (items a.tags) };
}

impl PartialEq for Label {
    ghost use Rattle.std.specs.Ordering.{eq_by_cmp};
    ghost use Rattle.std.specs.Cmp.{partial_equiv_from_equiv};
    ghost use Rattle.fl_labels.specs.Name.{name_cmp};
    ghost use Rattle.fl_labels.specs.NameOrder.{name_total};
    ghost use Rattle.fl_labels.specs.SetEquality.{set_cmp, sets_equiv};

    ghost eq = { eq_by_cmp (set_cmp name_cmp) };

    ghost laws = { partial_equiv_from_equiv (sets_equiv name_total) };

    fn eq(&self, other: &Self) -> bool {
        self.as_slice().cmp(other.as_slice()).is_eq()
    }
}

impl Eq for Label {
    ghost use Rattle.fl_labels.specs.NameOrder.{name_total};
    ghost use Rattle.fl_labels.specs.SetEquality.{sets_equiv};

    ghost laws = { sets_equiv name_total };
}

impl fmt::Display for Label {
    ghost use Rattle.std.specs.Prelude.{Some};
    ghost use Rattle.fl_labels.specs.Text.{label_text};

    ghost output = { λ s. Some (label_text s) };

    fn fmt<W: fmt::Write>(&self, f: &mut fmt::Formatter<W>) -> fmt::Result {
        match self.tags.as_slice().split_first() {
            None => f.write_str("{}"),
            Some((first, rest)) => {
                write!(f, "{{{first}")?;
                for tag in rest {
                    write!(f, ",{tag}")?;
                }
                f.write_str("}")
            }
        }
    }
}

impl Label {
    /// The label of nothing. Takes no memory.
    pub fn new(alloc: Global) -> Self
        ensures { result ≡ set.empty }
    {
        Label {
            alloc,
            tags: Tags::None,
        }
    }

    /// The set of some tags, in any order, repeated or not. `TooLong` where they are more than 256,
    /// each counted once. Linear where they rise, and else a sort in place. Takes no memory.
    pub fn from_vec(mut tags: Vec<Name>) -> Result<Self, SetError>
        ensures ok { IfOk result (λ label. label ≡ set.of_list tags.items) }
        ensures short { IfOk result (λ label. set.len label ≤ 256) }
        ensures err { IfErr result (λ e. e ≡ SetError.TooLong) }
        ensures too_long { IsErrOf result SetError.TooLong
            → 256 < set.len (set.of_list {R = name_cmp} tags.items) }
    {
        arrange(&mut tags);
        if tags.len() > MOST_TAGS {
            return Err(SetError::TooLong);
        }
        Ok(Label {
            alloc: *tags.allocator(),
            tags: Tags::Many(tags),
        })
    }

    /// Reads a text such as `{1.1,1.4}`: tags in any order, a repeated one once.
    ///
    /// `BadText` of a text that lists no names in braces, `TooLong` where it lists more than 256,
    /// `Memory` of one with a comma, so of no text of one tag at most, which takes none. Linear in
    /// a text that lists rising tags, and else with a sort.
    pub fn from_text(alloc: Global, text: &str) -> Result<Self, SetError>
        ensures ok { IfOk result (λ label. IsListing name_text label text.now) }
        ensures short { IfOk result (λ label. set.len label ≤ 256) }
        ensures too_long { IsErrOf result SetError.TooLong
            → (s : set.SetBy name_cmp) × IsListing name_text s text.now × (256 < set.len s) }
        ensures bad_text { IsErrOf result SetError.BadText
            → (s : set.SetBy name_cmp) → ¬ IsListing name_text s text.now }
        ensures memory { IsErrOf result SetError.Memory → ¬ NoComma text.now }
    {
        let inner = inner_of(text).ok_or(SetError::BadText)?;
        if inner.is_empty() {
            return Ok(Label::new(alloc));
        }
        if let Some(tag) = read_name(inner) {
            return Ok(Label {
                alloc,
                tags: Tags::One(tag),
            });
        }
        Label::from_vec(read_parts(alloc, inner)?)
    }

    /// Whether the tag is in the label. A binary search.
    pub fn contains(&self, tag: Name) -> bool
        ensures { result ≡ set.contains self.now tag }
    {
        self.tags.as_slice().binary_search(&tag).is_ok()
    }

    /// The tags, rising.
    pub fn as_slice(&self) -> &[Name]
        ensures { result.now ≡ set.members self.now }
    {
        self.tags.as_slice()
    }

    /// Adds a tag, and answers whether it is new. `TooLong` of a new tag where there are 256,
    /// `Memory` of a new one where there are fewer; either leaves the label. Moves the tags above
    /// it.
    pub fn insert(&mut self, tag: Name) -> Result<bool, SetError>
        ensures ok { OnOk result (self.new ≡ set.insert self.old tag) }
        ensures new { IfOk result (λ new. new ≡ not (set.contains self.old tag)) }
        ensures short { OnOk result (set.len self.new ≤ 256) }
        ensures too_long { IsErrOf result SetError.TooLong
            → (set.contains self.old tag ≡ false) × (set.len self.old ≡ 256) }
        ensures memory { IsErrOf result SetError.Memory
            → (set.contains self.old tag ≡ false) × (set.len self.old < 256) }
        ensures never_bad { IsErrOf result SetError.BadText → ⊥ }
        ensures err { OnErr result (self.new ≡ self.old) }
    {
        match self.tags.as_slice().binary_search(&tag) {
            Ok(_) => Ok(false),
            Err(place) => {
                if self.tags.as_slice().len() == MOST_TAGS {
                    return Err(SetError::TooLong);
                }
                self.tags.insert(self.alloc, place, tag)?;
                Ok(true)
            }
        }
    }

    /// Removes a tag, and answers whether it was there. Takes no memory. Moves the tags above it.
    pub fn remove(&mut self, tag: Name) -> bool
        ensures after { self.new ≡ set.remove self.old tag }
        ensures was { result ≡ set.contains self.old tag }
    {
        match self.tags.as_slice().binary_search(&tag) {
            Ok(place) => {
                self.tags.remove(place);
                true
            }
            Err(_) => false,
        }
    }

    /// The least tag that the other label lacks, or `None` where it has each. One walk along the
    /// two.
    pub fn first_missing(&self, other: &Label) -> Option<Name>
        ensures { Found name_cmp (set.In self.now) (set.In other.now) result }
    {
        first_outside(self.tags.as_slice(), other.tags.as_slice())
    }

    /// How many tags there are, at most 256.
    pub fn len(&self) -> usize
        ensures count { result ≡ set.len self.now }
        ensures short { result ≤ 256 }
    {
        self.tags.as_slice().len()
    }

    /// Whether there is no tag.
    pub fn is_empty(&self) -> bool
        ensures { IsTrue result ↔ (set.len self.now ≡ 0) }
    {
        self.tags.as_slice().is_empty()
    }

    /// The tags, rising.
    pub fn iter(&self) -> Iter<'_, Name>
        ensures { result.rest.now ≡ set.members self.now }
    {
        self.tags.as_slice().iter()
    }

    /// The same label again. Fails only where there is not enough memory.
    pub fn copy(&self, alloc: Global) -> Result<Self, AllocError>
        ensures { IfOk result (λ made. made ≡ self.now) }
    {
        let tags = self.tags.copy(alloc)?;
        Ok(Label { alloc, tags })
    }
}
