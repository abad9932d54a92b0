//! What is published: the index beside the list that it absorbed.
ghost use Rattle.std.specs.Prelude.{◌≡◌, ◌∷◌, [], ◌++◌, OnErr, OnOk};
ghost use Rattle.fl_labels.specs.SetBy.{of_list};

use crate::history::Known;
use fl_closure::index::Index;
use fl_ops::op::Op;
use left_right::Absorb;
use std::alloc::{AllocError, Global};

/// What the two copies have in common: a clause reads an array as a list, of any length. No value
/// of it is made.
pub struct Shown {
    pub list: [Op; 0],
    pub known: Known,
}

/// An operation on its way to the two copies, with a beginning of the history that has it.
#[derive(Drop)]
pub struct Entry {
    pub op: Op,
    pub known: Known,
}

/// A list of operations and its index.
#[derive(Drop)]
pub struct Published {
    pub index: Index,
    pub log: Vec<Op>,
    pub known: Known,
    pub ghost kept: { index ≡ of_list log.items },
}

impl Published {
    /// Nothing is published. Takes no memory.
    pub fn new(alloc: Global, known: &Known) -> Published
        ensures list { result.log.items ≡ [] }
        ensures known { result.known ≡ known.now }
    {
        Published {
            index: Index::new(alloc),
            log: Vec::new(alloc),
            known: known.again(),
        }
    }

    /// Adds an operation. An error, where there is no memory, leaves all as it was. It costs what
    /// [`Index::absorb`] does.
    pub fn add(&mut self, op: Op, known: &Known) -> Result<(), AllocError>
        ensures list { OnOk result (self.new.log.items ≡ self.old.log.items ++ op ∷ []) }
        ensures known { OnOk result (self.new.known ≡ known.now) }
        ensures same_list { OnErr result (self.new.log.items ≡ self.old.log.items) }
        ensures same_known { OnErr result (self.new.known ≡ self.old.known) }
    {
        self.log.reserve(1)?;
        self.index.absorb(&op)?;
        self.log.push_reserved(op);
        self.known = known.again();
        Ok(())
    }
}

impl Absorb<Entry> for Published {
    ghost use Rattle.fl_replica.specs.parts.Shown.{shown_by, with_entry};

    type State = Shown;

    ghost state = { shown_by };

    ghost applied = { with_entry };

    fn absorb_first(&mut self, entry: &Entry, _other: &Published) -> Result<(), AllocError> {
        self.add(entry.op, &entry.known)
    }
}
