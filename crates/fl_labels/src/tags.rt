//! The tags of a label.
ghost use Rattle.std.specs.Prelude.{◌≡◌, ◌<◌, ◌≤◌, length, IfOk, OnOk, OnErr};
ghost use Rattle.std.specs.List.{insert, remove};
ghost use Rattle.fl_labels.specs.parts.Label.{items};

use crate::name::Name;
use std::alloc::{AllocError, Global};
use std::slice;

/// The tags of a label, rising. Most labels have one at most, which stands in place.
#[derive(Debug, Drop)]
pub(crate) enum Tags {
    None,
    One(Name),
    Many(Vec<Name>),
}

impl Tags {
    /// The tags.
    pub(crate) fn as_slice(&self) -> &[Name]
        ensures { result.now ≡ items self.now }
    {
        match self {
            Tags::None => &[],
            Tags::One(tag) => slice::from_ref(tag),
            Tags::Many(tags) => tags,
        }
    }

    /// Puts a tag at a place. Those above it move. Fails only where there is not enough memory, and
    /// then leaves the tags.
    pub(crate) fn insert(
        &mut self,
        alloc: Global,
        place: usize,
        tag: Name,
    ) -> Result<(), AllocError>
        requires { place ≤ length (items self.old) }
        ensures ok { OnOk result (items self.new ≡ insert (items self.old) place tag) }
        ensures err { OnErr result (items self.new ≡ items self.old) }
    {
        match self {
            Tags::None => *self = Tags::One(tag),
            Tags::One(other) => {
                let mut both = Vec::new(alloc);
                both.push(*other)?;
                both.insert(place, tag)?;
                *self = Tags::Many(both);
            }
            Tags::Many(tags) => tags.insert(place, tag)?,
        }
        Ok(())
    }

    /// Takes out the tag at a place. Those above it move.
    pub(crate) fn remove(&mut self, place: usize)
        requires { place < length (items self.old) }
        ensures { items self.new ≡ remove (items self.old) place }
    {
        match self {
            Tags::None | Tags::One(_) => *self = Tags::None,
            Tags::Many(tags) => {
                tags.remove(place);
            }
        }
    }

    /// The same tags again. Fails only where there is not enough memory.
    pub(crate) fn copy(&self, alloc: Global) -> Result<Self, AllocError>
        ensures { IfOk result (λ made. items made ≡ items self.now) }
    {
        match self {
            Tags::None => Ok(Tags::None),
            Tags::One(tag) => Ok(Tags::One(*tag)),
            Tags::Many(tags) => Tags::of(alloc, tags),
        }
    }

    // These tags, which rise.
    fn of(alloc: Global, tags: &[Name]) -> Result<Self, AllocError>
        ensures { IfOk result (λ made. items made ≡ tags.now) }
    {
        Ok(match tags {
            [] => Tags::None,
            [tag] => Tags::One(*tag),
            tags => Tags::Many(Vec::from_slice(alloc, tags)?),
        })
    }
}
