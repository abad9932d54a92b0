//! The rule of the two copies: each is the list of one history, all of it that it knows.
use crate::published::{Entry, Published, Shown};
use atomic_table::{Join, Split};
use crossbeam_utils::rule::{Outcome, Protocol};
use left_right::reader::{Reader, Reading};
use left_right::writer::Writer;

/// What a thread saw last, if anything. No value of it is made.
pub type View = Option<Shown>;

/// The rule, which each step of a thread keeps.
pub struct OneHistory;

impl Protocol<Published, View> for OneHistory {
    ghost use Rattle.std.specs.Prelude.{None};
    ghost use Rattle.fl_replica.specs.parts.Rules.{Keeps};

    ghost holds = { Keeps };

    ghost first = { None };
}

/// What is published is seen.
pub struct Sees;

impl Outcome<Published, View> for Sees {
    ghost use Rattle.fl_replica.specs.parts.Rules.{Sees};

    ghost then = { Sees };
}

/// Reads one of the copies.
pub type BoardReader = Reader<Published, View, OneHistory>;

/// A copy that is read.
pub type BoardReading = Reading<Published, View, OneHistory>;

/// Writes the copy that nobody reads.
pub type BoardWriter = Writer<Published, Entry, View, OneHistory>;

/// The writer and the reader that it tells know the same.
pub struct Both;

impl Split<View> for Both {
    ghost left = { λ v. v };

    ghost right = { λ v. v };
}

/// A new reader knows what it was told.
pub struct Taught;

impl Join<View> for Taught {
    ghost use Rattle.std.specs.Prelude.{None};

    ghost both = { λ v w. w };

    ghost spent = { None };
}
