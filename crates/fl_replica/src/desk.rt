//! A desk reads the published list, one look at a time.
ghost use Rattle.std.specs.Prelude.{◌≡◌, ◌⊎◌, length, Some, MatchResult, IfOk, OnErr};
ghost use Rattle.left_right.specs.Sides.{view as known};
ghost use Rattle.fl_labels.specs.Found.{Within, Tells};
ghost use Rattle.fl_labels.specs.SetBy.{In};
ghost use Rattle.fl_ops.specs.Registry.{Reach, From, InEffect, Listed};
ghost use Rattle.fl_replica.specs.Boards.{StartsWith};
ghost use Rattle.fl_replica.specs.parts.Shown.{board_of};

use crate::look::Look;
use crate::rule::{BoardReader, Sees};
use crate::told::Told;
use core::mem::replace_with;
use fl_cache::yes::YesCache;
use fl_labels::cap::Cap;
use fl_labels::cap_set::CapSet;
use fl_ops::view::View;
use std::alloc::Global;
use std::marker::Model;

// How many questions a desk keeps that it answered yes.
const CAPACITY: usize = 1024;

/// The press is gone.
#[derive(Clone, Copy, Debug, PartialEq, Eq)]
pub struct Stopped;

/// A reader of the published list, for one thread, to which it may be sent.
///
/// Contracts see its board, and the longest list of it that the desk saw or was told of: what it
/// sees next begins with that. No call of a desk waits, and none takes memory that it cannot do
/// without: a yes that finds no room in the cache is answered, and not kept.
#[derive(Drop)]
pub struct Desk {
    reader: BoardReader,
    told: Told,
    cache: YesCache,
}

impl Model for Desk {
    ghost use Rattle.std.specs.Prelude.{◌≡◌, Some};
    ghost use Rattle.left_right.specs.Sides.{view as known};
    ghost use Rattle.fl_labels.specs.Found.{Within};
    ghost use Rattle.fl_labels.specs.SetBy.{In};
    ghost use Rattle.fl_ops.specs.Registry.{Listed};
    ghost use Rattle.fl_replica.specs.Boards.{Front};
    ghost use Rattle.fl_replica.specs.parts.Shown.{board_of};

    ghost Value = { Front };

    ghost view = { λ d. d.told };

    ghost invariant = { λ d. (board_of (known d.reader.place) ≡ Some d.told.board)
        × Within (In d.cache) (Listed d.told.list) };
}

impl Desk {
    // A desk that was told this, over a reader of the board.
    pub(crate) fn over(alloc: Global, reader: BoardReader, told: Told) -> Desk
        requires { board_of (known reader.place) ≡ Some told.board }
        ensures { result ≡ told }
    {
        Desk {
            reader,
            told,
            cache: YesCache::new(alloc, CAPACITY),
        }
    }

    // A desk again, after a look.
    pub(crate) fn after(reader: BoardReader, told: Told, cache: YesCache) -> Desk
        requires board { board_of (known reader.place) ≡ Some told.board }
        requires cache { Within (In cache) (Listed told.list) }
        ensures { result ≡ told }
    {
        Desk {
            reader,
            told,
            cache,
        }
    }

    /// Learns what the press of its board told: from now on the desk sees no less. That it is of
    /// its board, the caller proves. Two numbers are compared, and no operation; takes no memory.
    pub fn learn(&mut self, told: Told)
        requires { told.board ≡ self.old.board }
        ensures board { self.new.board ≡ self.old.board }
        ensures one { (self.new.list ≡ self.old.list) ⊎ (self.new.list ≡ told.list) }
        ensures later { StartsWith self.new.list self.old.list }
        ensures told { StartsWith self.new.list told.list }
    {
        if self.told.begins(&told) {
            self.told = told;
        }
    }

    /// How many operations the desk saw or was told of.
    pub fn seen(&self) -> u64
        ensures { result ≡ length self.now.list }
    {
        self.told.count()
    }

    /// Looks at what is published: a list that begins with all that the desk saw or was told of.
    /// The desk comes back as it was where its press is gone.
    ///
    /// Some thirty nanoseconds. What is published is never shorter than what the desk saw or was
    /// told of; since no clause of the two copies says so, two numbers are compared.
    pub fn look(self) -> Result<Look, Desk>
        ensures board { MatchResult result (λ look. look.board ≡ self.board)
            (λ desk. desk ≡ self) }
        ensures later { MatchResult result (λ look. StartsWith look.list self.list)
            (λ desk. desk ≡ self) }
    {
        let Desk {
            reader,
            told,
            cache,
        } = self;
        match reader.enter_as::<Sees>() {
            Ok(reading) => {
                let now = Told::of(reading.get());
                if told.begins(&now) {
                    Ok(Look::over(reading, now, cache))
                } else {
                    Err(Desk::after(reading.leave(), told, cache))
                }
            }
            Err(reader) => Err(Desk::after(reader, told, cache)),
        }
    }

    /// Whether the owner of the one capability reaches the other, by the list that the desk then
    /// saw. Answers [`Stopped`] where the press is gone, and then leaves the desk.
    ///
    /// One look, and what the cache or [`Index::reaches`] costs.
    ///
    /// [`Index::reaches`]: fl_closure::index::Index::reaches
    pub fn member(&mut self, root: Cap, cap: Cap) -> Result<bool, Stopped>
        ensures answer { IfOk result (λ yes.
            Tells yes (Reach (Listed self.new.list) (From root) cap)) }
        ensures board { self.new.board ≡ self.old.board }
        ensures later { StartsWith self.new.list self.old.list }
        ensures err { OnErr result (self.new ≡ self.old) }
    {
        replace_with(
            self,
            (root, cap),
            |desk: Desk, question: (Cap, Cap)| -> (Desk, Result<bool, Stopped>)
                ensures answer { IfOk result.1 (λ yes.
                    Tells yes (Reach (Listed result.0.list) (From question.0) question.1)) }
                ensures board { result.0.board ≡ desk.board }
                ensures later { StartsWith result.0.list desk.list }
                ensures err { OnErr result.1 (result.0 ≡ desk) }
            { ask(desk, question.0, question.1) },
        )
    }

    /// Whether the owner of these capabilities has this one in effect, by the list that the desk
    /// then saw. Answers [`Stopped`] where the press is gone, and then leaves the desk.
    ///
    /// One look, and what [`Index::effective`] costs, which asks no cache.
    ///
    /// [`Index::effective`]: fl_closure::index::Index::effective
    pub fn effective(&mut self, owned: &CapSet, cap: Cap) -> Result<bool, Stopped>
        ensures answer { IfOk result (λ yes.
            Tells yes (InEffect (Listed self.new.list) (In owned.now) cap)) }
        ensures board { self.new.board ≡ self.old.board }
        ensures later { StartsWith self.new.list self.old.list }
        ensures err { OnErr result (self.new ≡ self.old) }
    {
        replace_with(
            self,
            (owned, cap),
            |desk: Desk, question: (&CapSet, Cap)| -> (Desk, Result<bool, Stopped>)
                ensures answer { IfOk result.1 (λ yes. Tells yes
                    (InEffect (Listed result.0.list) (In question.entry.0.now) question.entry.1)) }
                ensures board { result.0.board ≡ desk.board }
                ensures later { StartsWith result.0.list desk.list }
                ensures err { OnErr result.1 (result.0 ≡ desk) }
            { ask_effective(desk, question.0, question.1) },
        )
    }
}

// Asks at one look.
fn ask(desk: Desk, root: Cap, cap: Cap) -> (Desk, Result<bool, Stopped>)
    ensures answer { IfOk result.1 (λ yes.
        Tells yes (Reach (Listed result.0.list) (From root) cap)) }
    ensures board { result.0.board ≡ desk.board }
    ensures later { StartsWith result.0.list desk.list }
    ensures err { OnErr result.1 (result.0 ≡ desk) }
{
    match desk.look() {
        Ok(mut look) => {
            let yes = look.reaches(root, cap);
            (look.done(), Ok(yes))
        }
        Err(desk) => (desk, Err(Stopped)),
    }
}

// Asks at one look.
fn ask_effective(desk: Desk, owned: &CapSet, cap: Cap) -> (Desk, Result<bool, Stopped>)
    ensures answer { IfOk result.1 (λ yes.
        Tells yes (InEffect (Listed result.0.list) (In owned.now) cap)) }
    ensures board { result.0.board ≡ desk.board }
    ensures later { StartsWith result.0.list desk.list }
    ensures err { OnErr result.1 (result.0 ≡ desk) }
{
    match desk.look() {
        Ok(mut look) => {
            let yes = look.effective(owned, cap);
            (look.done(), Ok(yes))
        }
        Err(desk) => (desk, Err(Stopped)),
    }
}
