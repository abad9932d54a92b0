//! The history of a board: all batches that its press took, in order. It exists in proofs alone; at
//! run time it is a word, the number of batches. Who knows a beginning of it holds a value of no
//! bytes, which may be copied and go to another thread.
ghost use Rattle.std.specs.Prelude.{◌≡◌, ◌++◌, ◌∷◌, [], ◌≤◌, ◌⊎◌, IsTrue, IsFalse, length};
ghost use Rattle.fl_replica.specs.parts.History.{head_of};

use fl_ops::op::Op;
use logbook::{Gain, Offer, Plain, Play, Rule, Seen, Start, Word};

/// A batch of operations: a clause reads an array as a list, of any length. No value of it is made.
pub type Batch = [Op; 0];

/// The rule of a history: its word is the number of batches.
pub struct Counted;

impl Rule<Batch, u64> for Counted {
    ghost use Rattle.std.specs.Prelude.{[]};
    ghost use base.Fml.{ftrue};
    ghost use Rattle.fl_replica.specs.parts.History.{IsCounted};

    ghost holds = { λ cells log. IsCounted cells log };

    ghost first = { [] };

    ghost hinted = { λ n log. Unit {0} };

    ghost shows = { λ log. [] };

    ghost keeps = { λ names log. ftrue };

    ghost moves = { λ ask before after answer. Unit {0} };
}

/// Nothing is traded for a step.
pub struct Nothing;

impl Gain<Batch, u64> for Nothing {
    ghost use base.Fml.{ftrue};

    ghost after = { λ names about answer. ftrue };
}

/// A step that adds a batch to the history that is known, where that is the whole.
pub struct Adds;

impl Play<Batch, u64> for Adds {
    ghost use Rattle.fl_replica.specs.parts.History.{AddsBatch};

    ghost then = { AddsBatch };
}

impl<'a> Plain<&'a [Op], Batch, u64> for Adds {
    ghost use Rattle.std.specs.Prelude.{None};

    ghost ask = { λ ops. ops.now };

    ghost state = { λ ops. None };
}

/// A beginning of the history that is known.
pub type Known = Seen<Batch, u64, Counted>;

/// The right to add to the history.
#[derive(Drop)]
pub struct History {
    head: Word<Batch, u64, Counted>,
    batches: u64,
    pub known: Known,
    ghost head_is: { head ≡ head_of known.book },
    ghost counted: { batches ≡ length known.log },
}

impl History {
    /// A history of nothing.
    pub fn new() -> History
        ensures { result.known.log ≡ [] }
    {
        let (known, mut first, _second) = Seen::open(Start::alone(), 0, 0);
        History {
            head: Word::tracked(0, &mut first),
            batches: 0,
            known,
        }
    }

    /// Adds a batch: one exchange of the word, and no memory. It always does, since nobody else
    /// adds any; as no proof sees that, it is looked at, and false leaves all as it was.
    pub fn add(&mut self, ops: &[Op]) -> bool
        ensures board { self.new.known.book ≡ self.old.known.book }
        ensures added { IsTrue result → self.new.known.log ≡ self.old.known.log ++ ops.now ∷ [] }
        ensures same { IsFalse result → self.new.known ≡ self.old.known }
    {
        let batches = self.batches;
        if batches == u64::MAX {
            return false;
        }
        let mut known = self.known.again();
        let mut offer: Offer<Batch, u64, Counted, Nothing> = known.plain::<Nothing, &[Op], Adds>(
            &ops,
        );
        let mut pen = known.no_pen();
        let found = self
            .head
            .compare_exchange::<Adds, Nothing>(
                batches,
                batches + 1,
                &mut known,
                &mut offer,
                &mut pen,
            );
        if found != batches {
            return false;
        }
        self.batches = batches + 1;
        self.known = known;
        true
    }
}
