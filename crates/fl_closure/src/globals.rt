//! What everybody has.
ghost use Rattle.std.specs.Prelude.{◌≡◌, OnOk, []};
ghost use Rattle.fl_labels.specs.Found.{Tells};
ghost use Rattle.fl_labels.specs.declared.cap.Cap.{Cap};
ghost use Rattle.fl_closure.specs.parts.Globals.{Has, GivesAll};
ghost use Rattle.fl_closure.specs.parts.Noted.{Gains, Loses};

use crate::block::Block;
use crate::closed::global_gift;
use crate::rows::{Note, Owner, Rows};
use fl_labels::cap::Cap;
use fl_ops::op::Op;
use std::alloc::{AllocError, Global};

/// The capabilities that some operation gives to everybody, as everybody's row. What they lead to
/// is in everybody's row of what is reached.
#[derive(Drop)]
pub struct Globals {
    given: Rows,
}

impl Globals {
    /// No capability. Takes no memory.
    pub fn new(alloc: Global) -> Self
        ensures { (c : Cap) → ¬ Has result c }
    {
        Globals {
            given: Rows::new(alloc),
        }
    }

    /// Whether the capability is given to everybody. A search by hash; takes no memory.
    pub fn has(&self, cap: Cap) -> bool
        ensures { Tells result (Has self.now cap) }
    {
        self.given.has(Owner::Everybody, cap)
    }

    /// Gives what the operations give to everybody, and notes what was not given: after an error
    /// too, so that it can be taken out again. A search by hash for each, and one note. Fails only
    /// where there is not enough memory.
    pub fn give_all(&mut self, ops: &[Op], notes: &mut Vec<Note>) -> Result<(), AllocError>
        requires { notes.old.items ≡ [] }
        ensures ok { OnOk result (GivesAll self.old ops.now self.new) }
        ensures notes { Gains self.old.given notes.new.items self.new.given }
    {
        for op in ops {
            if let Some(cap) = global_gift(op) {
                self.given.note(Owner::Everybody, Block::only(cap), notes)?;
            }
        }
        Ok(())
    }

    /// Takes out what was noted. Takes no memory.
    pub fn take_all(&mut self, notes: &[Note])
        ensures { Loses self.old.given notes.now self.new.given }
    {
        self.given.take_all(notes)
    }
}
