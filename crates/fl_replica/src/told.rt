//! What a press tells.
ghost use Rattle.std.specs.Prelude.{◌≡◌, MatchBool, length};
ghost use Rattle.fl_replica.specs.Boards.{Front, StartsWith};
ghost use Rattle.fl_replica.specs.parts.Shown.{IsWhole, shown_by};

use crate::history::Known;
use crate::published::Published;
use std::marker::Model;

/// A beginning of the one list of a board, for a desk to learn: from then on the desk sees no less.
///
/// It is one number, takes no memory, and may go to another thread. Contracts see the board and the
/// list. Nothing tells at run time of which board it is.
#[derive(Drop)]
pub struct Told {
    known: Known,
    count: u64,
}

impl Model for Told {
    ghost use Rattle.std.specs.Prelude.{◌≡◌, length};
    ghost use Rattle.fl_replica.specs.Boards.{Front};
    ghost use Rattle.fl_replica.specs.parts.History.{ops_of};

    ghost Value = { Front };

    ghost view = { λ t. record { board = t.known.book; list = ops_of t.known.log } };

    ghost invariant = { λ t. t.count ≡ length (ops_of t.known.log) };
}

impl Told {
    // What is published.
    pub(crate) fn of(published: &Published) -> Told
        requires { IsWhole (shown_by published.now) }
        ensures { result ≡ record {
          board = published.now.known.book;
          list = published.now.log.items;
        } }
    {
        Told {
            known: published.known.again(),
            count: published.log.len() as u64,
        }
    }

    /// A copy, for one more desk.
    pub fn again(&self) -> Told
        ensures { result ≡ self.now }
    {
        Told {
            known: self.known.again(),
            count: self.count,
        }
    }

    /// How many operations it tells of.
    pub fn count(&self) -> u64
        ensures { result ≡ length self.now.list }
    {
        self.count
    }

    /// Whether the other one, which is of the same board, tells of no less. Of two lists of one
    /// board one begins the other, so two numbers are compared, and no operation.
    pub fn begins(&self, other: &Told) -> bool
        requires { self.now.board ≡ other.now.board }
        ensures { MatchBool result (StartsWith other.now.list self.now.list)
            (StartsWith self.now.list other.now.list) }
    {
        let mut both = self.known.again();
        both.learn(&other.known);
        self.count <= other.count
    }
}
