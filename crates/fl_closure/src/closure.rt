//! What follows from operations.
ghost use Rattle.std.specs.Prelude.{◌≡◌, OnOk, []};
ghost use Rattle.fl_ops.specs.declared.op.Op.{Op};
ghost use Rattle.fl_closure.specs.parts.Closed.{AreTransitive, AreMirrored};
ghost use Rattle.fl_labels.specs.Found.{Tells};
ghost use Rattle.fl_closure.specs.parts.Closure.{IsClosure, FollowsWith, GainsAll, LosesAll};
ghost use Rattle.fl_closure.specs.parts.Knowing.{IsHeld, Follows};

use crate::closed::{ClosedRows, Notes, gift};
use crate::globals::Globals;
use crate::rows::{Note, Owner};
use fl_labels::cap::Cap;
use fl_ops::op::Op;
use std::alloc::{AllocError, Global};

/// What is new in a closure, noted so that it can be taken out again.
#[derive(Drop)]
pub struct News {
    pub rows: Notes,
    pub given: Vec<Note>,
}

impl News {
    /// Nothing. Takes no memory.
    pub fn new(alloc: Global) -> Self
        ensures reached { result.rows.reached.items ≡ [] }
        ensures users { result.rows.users.items ≡ [] }
        ensures given { result.given.items ≡ [] }
    {
        News {
            rows: Notes::new(alloc),
            given: Vec::new(alloc),
        }
    }
}

/// What each group reaches and what everybody does, and what everybody is given.
#[derive(Drop)]
pub struct Closure {
    pub rows: ClosedRows,
    pub globals: Globals,
}

impl Closure {
    /// What follows from no operation. Takes no memory.
    pub fn new(alloc: Global) -> Self
        ensures { IsClosure (λ (op : Op). ⊥) result }
    {
        Closure {
            rows: ClosedRows::new(alloc),
            globals: Globals::new(alloc),
        }
    }

    // Whether the owner has the capability: everybody, as what is given.
    fn has(&self, owner: Owner, cap: Cap) -> bool
        ensures { Tells result (IsHeld self.now owner cap) }
    {
        match owner {
            Owner::Everybody => self.globals.has(cap),
            Owner::Group(_) => self.rows.has(owner, cap),
        }
    }

    /// Whether all that the operation gives is there. A search by hash and one by order; takes no
    /// memory.
    pub fn follows(&self, op: &Op) -> bool
        ensures { Tells result (Follows self.now op.now) }
    {
        match gift(op) {
            None => true,
            Some(entry) => self.has(entry.owner, entry.cap),
        }
    }

    /// Adds what follows from these operations too, and notes what is new: after an error too, so
    /// that it can be taken out again. Fails only where there is not enough memory.
    pub fn give_all(&mut self, ops: &[Op], news: &mut News) -> Result<(), AllocError>
        requires transitive { AreTransitive self.old.rows.reached }
        requires mirrored { AreMirrored self.old.rows }
        requires reached { news.old.rows.reached.items ≡ [] }
        requires users { news.old.rows.users.items ≡ [] }
        requires given { news.old.given.items ≡ [] }
        ensures ok { OnOk result (FollowsWith self.old ops.now self.new) }
        ensures news { GainsAll self.old news.new self.new }
    {
        self.globals.give_all(ops, &mut news.given)?;
        self.rows.give_all(ops, &mut news.rows)
    }

    /// Takes what was noted out again. Takes no memory.
    pub fn take_all(&mut self, news: &News)
        ensures { LosesAll self.old news.now self.new }
    {
        self.globals.take_all(&news.given);
        self.rows.take_all(&news.rows);
    }
}
