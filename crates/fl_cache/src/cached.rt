//! An index with a cache of what it answered yes.
ghost use Rattle.std.specs.Prelude.{◌≡◌, IfSome, OnOk, OnErr, false, true};
ghost use Rattle.std.specs.List.{Contains};
ghost use Rattle.fl_labels.specs.Found.{Tells};
ghost use Rattle.fl_labels.specs.SetBy as set;
ghost use Rattle.fl_labels.specs.SetBy.{In};
ghost use Rattle.fl_ops.specs.OpOrder.{op_cmp};
ghost use Rattle.fl_ops.specs.declared.op.Op.{Op};
ghost use Rattle.fl_ops.specs.Registry.{From, Reach, InEffect};
ghost use Rattle.fl_closure.specs.Witness.{IsWitness};

use crate::yes::YesCache;
use fl_closure::index::Index;
use fl_closure::witness::Witness;
use fl_labels::cap::Cap;
use fl_labels::cap_set::CapSet;
use fl_ops::op::Op;
use std::alloc::{AllocError, Global};
use std::marker::Model;

// How many questions are kept at most.
const CAPACITY: usize = 1024;

/// An index, and the questions that it answered yes. Contracts see its operations.
pub struct CachedIndex {
    index: Index,
    cache: YesCache,
    // what the last questions of what is in effect came upon: of what adds a tag, and of all else,
    // since the two come in turn and stand apart
    adding: Option<Witness>,
    other: Option<Witness>,
    alloc: Global,
}

impl Drop for CachedIndex {
    fn drop(self) {
        let CachedIndex {
            index: _,
            cache: _,
            adding: _,
            other: _,
            alloc: _,
        } = self;
    }
}

impl Model for CachedIndex {
    ghost use Rattle.fl_labels.specs.SetBy as set;
    ghost use Rattle.fl_ops.specs.OpOrder.{op_cmp};
    ghost use Rattle.fl_ops.specs.OpLaws.{coded_op};

    ghost Value = { set.SetBy op_cmp };

    ghost coded = { set.code coded_op };

    ghost view = { λ a. a.index };

    ghost use Rattle.fl_cache.specs.parts.Known.{StillHolds};

    ghost invariant = { λ a. StillHolds a.cache a.adding a.other a.index };
}

// Whether what a question came upon shows that the owner of these capabilities has this one.
fn shows(last: &Option<Witness>, owned: &CapSet, cap: Cap) -> bool
    ensures { (s : set.SetBy op_cmp) → IfSome last.now (IsWitness (In s))
        → result ≡ true → InEffect (In s) (In owned.now) cap }
{
    match last {
        Some(witness) => witness.shows(owned, cap),
        None => false,
    }
}

impl CachedIndex {
    /// The index of no operation, with a cache of nothing.
    pub fn new(alloc: Global) -> Self
        ensures { result ≡ set.empty }
    {
        CachedIndex {
            index: Index::new(alloc),
            cache: YesCache::new(alloc, CAPACITY),
            adding: None,
            other: None,
            alloc,
        }
    }

    /// Lets go of what the cache keeps.
    pub fn renew(&mut self)
        ensures { self.new ≡ self.old }
    {
        self.cache = YesCache::new(self.alloc, CAPACITY);
    }

    /// The index itself, which asks no cache.
    pub fn index(&self) -> &Index
        ensures { result.now ≡ self.now }
    {
        &self.index
    }

    /// Adds operations, all or none, as [`Index::absorb_all`] does. What the cache keeps stays.
    pub fn absorb_all(&mut self, alloc: Global, ops: &[Op]) -> Result<(), AllocError>
        ensures ok { OnOk result (self.new ≡ set.union self.old (set.of_list ops.now)) }
        ensures err { OnErr result (self.new ≡ self.old) }
        ensures absent { OnErr result
            ((op : Op) × Contains ops.now op × (set.contains self.old op ≡ false)) }
    {
        self.index.absorb_all(alloc, ops)
    }

    // Whether what the last question of this kind came upon shows that the owner of these
    // capabilities has this one in effect.
    fn is_shown(&self, owned: &CapSet, cap: Cap) -> bool
        ensures { result ≡ true → InEffect (In self.now) (In owned.now) cap }
    {
        match cap {
            Cap::Plus(_) => shows(&self.adding, owned, cap),
            Cap::Minus(_) | Cap::Use(_) | Cap::Grow(_) => shows(&self.other, owned, cap),
        }
    }

    // Keeps what a question of this capability came upon.
    fn keep(&mut self, cap: Cap, witness: Witness)
        requires { IsWitness (In self.old) witness }
        ensures { self.new ≡ self.old }
    {
        match cap {
            Cap::Plus(_) => self.adding = Some(witness),
            Cap::Minus(_) | Cap::Use(_) | Cap::Grow(_) => self.other = Some(witness),
        }
    }

    /// Whether the owner of these capabilities has this one in effect, as [`Index::effective`]
    /// answers. Takes no memory. Costs a binary search in what is owned, and where it is not there,
    /// what [`Index::witness`] does; where the last question of this kind that went so far came
    /// upon capabilities that this one stands among, one binary search more at most.
    pub fn effective(&mut self, owned: &CapSet, cap: Cap) -> bool
        ensures answer { Tells result (InEffect (In self.old) (In owned.now) cap) }
        ensures same { self.new ≡ self.old }
    {
        if owned.contains(cap) || self.is_shown(owned, cap) {
            return true;
        }
        let Some(witness) = self.index.witness(owned, cap) else {
            return false;
        };
        self.keep(cap, witness);
        true
    }

    /// Whether the owner of the one capability reaches the other, as [`YesCache::ask`] answers.
    /// Never fails.
    pub fn reaches(&mut self, root: Cap, cap: Cap) -> bool
        ensures answer { Tells result (Reach (In self.old) (From root) cap) }
        ensures same { self.new ≡ self.old }
    {
        self.cache.ask(&self.index, root, cap)
    }
}
