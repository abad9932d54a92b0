//! Questions that had the answer yes.
ghost use Rattle.std.specs.Prelude.{◌≡◌, ◌≤◌};
ghost use Rattle.fl_labels.specs.Found.{Tells, Within};
ghost use Rattle.fl_labels.specs.SetBy as set;
ghost use Rattle.fl_labels.specs.SetBy.{In};
ghost use Rattle.fl_ops.specs.Registry.{From, Reach};
ghost use Rattle.fl_cache.specs.parts.Known.{AreYes};

use fl_closure::index::Index;
use fl_labels::cap::Cap;
use lru::LruCache;
use std::alloc::Global;
use std::marker::Model;
use std::num::NonZeroUsize;
use std::snapshot::Snapshot;

// Whether the one capability reaches the other.
#[derive(Clone, Copy, Debug, PartialEq, Eq, Hash)]
struct Question {
    root: Cap,
    cap: Cap,
}

/// Questions that had the answer yes, which they keep as long as operations are only added: the
/// most recent ones, so many at most. Contracts see the operations of the index that was asked
/// last.
#[derive(Drop)]
pub struct YesCache {
    // None where there was no memory for it.
    yes: Option<LruCache<Question, ()>>,
    asked: Snapshot<Index>,
}

impl Model for YesCache {
    ghost use Rattle.fl_labels.specs.SetBy as set;
    ghost use Rattle.fl_ops.specs.OpOrder.{op_cmp};
    ghost use Rattle.fl_ops.specs.OpLaws.{coded_op};
    ghost use Rattle.fl_cache.specs.parts.Known.{AreKept};

    ghost Value = { set.SetBy op_cmp };

    ghost coded = { set.code coded_op };

    ghost view = { λ a. a.asked.value };

    ghost invariant = { λ a. AreKept a.asked.value a.yes };
}

// The answer, which is kept where it is yes. Where there is no memory for that, it is not kept.
fn answer(yes: &mut LruCache<Question, ()>, index: &Index, question: Question) -> bool
    requires { AreYes index.now yes.old.entries }
    ensures answer { Tells result (Reach (In index.now) (From question.root) question.cap) }
    ensures kept { AreYes index.now yes.new.entries }
{
    if yes.get(&question).is_some() {
        return true;
    }
    let reached = index.reaches(question.root, question.cap);
    if reached {
        let _ = yes.put(question, ());
    }
    reached
}

impl YesCache {
    /// A cache of nothing, for so many questions. Takes memory as questions are kept; where there
    /// is none, none are kept.
    pub fn new(alloc: Global, capacity: usize) -> Self
        requires least { 1 ≤ capacity }
        requires most { capacity ≤ 65536 }
        ensures { result ≡ set.empty }
    {
        let nothing = Index::new(alloc);
        YesCache {
            yes: NonZeroUsize::new(capacity).and_then(|capacity| LruCache::sparse(
                alloc, capacity,
            ).ok()),
            asked: Snapshot::of(&nothing),
        }
    }

    /// Whether the owner of the one capability reaches the other, by what the index has, which is
    /// to have what it had when the cache was asked before. A look into the cache, and where it
    /// does not have the question, what [`Index::reaches`] costs. Never fails: where there is no
    /// memory to keep a yes, it is answered all the same.
    pub fn ask(&mut self, index: &Index, root: Cap, cap: Cap) -> bool
        requires { Within (In self.old) (In index.now) }
        ensures answer { Tells result (Reach (In index.now) (From root) cap) }
        ensures asked { self.new ≡ index.now }
    {
        self.asked = Snapshot::of(index);
        match &mut self.yes {
            Some(yes) => answer(yes, index, Question { root, cap }),
            None => index.reaches(root, cap),
        }
    }
}
