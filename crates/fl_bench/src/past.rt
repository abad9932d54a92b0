//! What happened to a set of capabilities, for those who share it again after each change.
ghost use Rattle.std.specs.Prelude.{◌≡◌, IfOk, OnOk, OnErr};
ghost use Rattle.fl_labels.specs.SetBy as set;
ghost use Rattle.fl_bench.specs.parts.Changes.{after};

use crate::change::{Change, gains};
use crate::shared::SharedCaps;
use crate::standing::Standing;
use fl_labels::cap::Cap;
use fl_message::shared::Shared;
use fl_rules::labels::Labels;
use std::alloc::{AllocError, Global};
use std::marker::Model;

// So few members take less memory than what is kept of a change.
const FEW: usize = 8;

/// A set of capabilities, kept as what was shared last and its changes since then.
pub struct Past {
    // what was shared last
    shared: SharedCaps,
    // since then
    fresh: Vec<Change>,
    // how many members and changes there were
    count: usize,
    // how it was noted last, where nothing has changed since then
    standing: Option<Shared<Standing>>,
}

impl Model for Past {
    ghost use Rattle.std.specs.Prelude.{◌≡◌, IfSome};
    ghost use Rattle.fl_labels.specs.SetBy as set;
    ghost use Rattle.fl_labels.specs.Cap.{cap_cmp};
    ghost use Rattle.fl_labels.specs.CapOrder.{coded_cap};

    ghost Value = { set.SetBy cap_cmp };

    ghost coded = { set.code coded_cap };

    ghost use Rattle.fl_bench.specs.parts.Changes.{after};

    ghost view = { λ a. after a.shared a.fresh.items };

    ghost invariant = { λ a.
        IfSome a.standing (λ noted. noted.owned ≡ after a.shared a.fresh.items) };
}

impl Drop for Past {
    fn drop(self) {
        let Past {
            shared: _,
            fresh: _,
            count: _,
            standing: _,
        } = self;
    }
}

impl Past {
    /// Of the set of these capabilities, where nothing is known of how it came about. Fails only
    /// where there is not enough memory. Copies them.
    pub fn new(alloc: Global, caps: &[Cap]) -> Result<Self, AllocError>
        ensures { IfOk result (λ made. made ≡ set.of_list caps.now) }
    {
        Ok(Past {
            shared: SharedCaps::new(alloc, caps)?,
            fresh: Vec::new(alloc),
            count: caps.len(),
            standing: None,
        })
    }

    /// Whether a set of so many members is better begun anew: where they are few, and where far
    /// more happened than there are.
    pub fn is_long(&self, members: usize) -> bool {
        members <= FEW || self.count / 2 > members.saturating_add(32)
    }

    /// With room for so many changes more, so that adding them takes no memory.
    pub fn reserve(&mut self, more: usize) -> Result<(), AllocError>
        ensures { self.new ≡ self.old }
    {
        self.fresh.reserve(more)
    }

    /// Adds some changes. Fails only where there is not enough memory, and then leaves the set.
    pub fn add(&mut self, changes: &[Change]) -> Result<(), AllocError>
        ensures ok { OnOk result (self.new ≡ after self.old changes.now) }
        ensures err { OnErr result (self.new ≡ self.old) }
    {
        self.fresh.extend_from_slice(changes)?;
        self.count = self.count.saturating_add(changes.len());
        self.standing = None;
        Ok(())
    }

    /// Adds that each of these capabilities was gained. Fails only where there is not enough
    /// memory, and then leaves the set.
    pub fn add_gains(&mut self, caps: &[Cap]) -> Result<(), AllocError>
        ensures ok { OnOk result (self.new ≡ set.insert_all self.old caps.now) }
        ensures err { OnErr result (self.new ≡ self.old) }
    {
        let gains = gains(*self.fresh.allocator(), caps)?;
        self.add(&gains)
    }

    // The set, for one more holder. Copies nothing where nothing has changed since it was asked
    // last, and else what `SharedCaps::changed_by` does.
    fn caps(&mut self, alloc: Global) -> Result<SharedCaps, AllocError>
        ensures shared { IfOk result (λ made. made ≡ self.old) }
        ensures same { self.new ≡ self.old }
    {
        if !self.fresh.is_empty() {
            self.shared = self.shared.changed_by(alloc, &self.fresh)?;
            self.fresh = Vec::new(alloc);
        }
        self.shared.copy()
    }

    // The set with these labels, made anew.
    #[inline(never)]
    fn stand(&mut self, alloc: Global, labels: &Labels) -> Result<Shared<Standing>, AllocError>
        ensures shared { IfOk result (λ made.
            made ≡ record { labels = labels.now; owned = self.old }) }
        ensures same { self.new ≡ self.old }
    {
        let labels = labels.copy(alloc)?;
        let owned = self.caps(alloc)?;
        let standing = Shared::new(alloc, Standing { labels, owned })?;
        self.standing = Some(standing.copy()?);
        Ok(standing)
    }

    /// The set with these labels, for one more holder. Fails only where there is not enough memory.
    /// Copies nothing where neither has changed since it was asked last. Else it copies the labels,
    /// and of a changed set what `SharedCaps::changed_by` does.
    pub fn share(&mut self, alloc: Global, labels: &Labels) -> Result<Shared<Standing>, AllocError>
        ensures shared { IfOk result (λ made.
            made ≡ record { labels = labels.now; owned = self.old }) }
        ensures same { self.new ≡ self.old }
    {
        if let Some(standing) = &self.standing {
            if standing.labels == *labels {
                return standing.copy();
            }
        }
        self.stand(alloc, labels)
    }
}
