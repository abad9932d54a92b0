//! The press publishes operations.
ghost use Rattle.std.specs.Prelude.{◌≡◌, ◌+◌, ◌<◌, ◌≤◌, ◌↔◌, [], ◌++◌, List, length, drop, map, OnOk, OnErr, IsTrue, IfOk, Err, Some};
ghost use Rattle.std.specs.VecDeque.{deque_len, deque_capacity};
ghost use Rattle.left_right.specs.Sides.{view as known};
ghost use Rattle.fl_replica.specs.Boards.{StartsWith};
ghost use Rattle.fl_replica.specs.parts.History.{ops_of};
ghost use Rattle.fl_replica.specs.parts.Shown.{shown_by, entry_ops, board_of, Awaits};
ghost use Rattle.fl_replica.specs.declared.published.Entry.{Entry};
ghost use Rattle.fl_replica.specs.declared.published.Shown.{Shown};

use crate::history::{History, Known};
use crate::published::Entry;
use crate::rule::BoardWriter;
use crate::told::Told;
use crate::writing::{hand_over, turn_in};
use fl_ops::op::Op;
use std::alloc::{AllocError, Global};
use std::collections::VecDeque;
use std::marker::Model;
use std::sync::Wait;

/// Why a batch was not published. The published list is as before.
#[derive(Clone, Copy, Debug, PartialEq, Eq)]
pub enum PressFault {
    /// There was no memory to stage the batch: nothing more is staged.
    Memory,
    /// There was no memory to publish it: the whole batch is staged, and the next call publishes it
    /// first.
    Staged,
}

/// What publishes a board's list. Contracts see the list, and what is staged. It is not dropped:
/// [`Press::close`] ends it.
pub struct Press {
    writer: BoardWriter,
    // What the writer had no memory for.
    row: VecDeque<Entry>,
    history: History,
}

impl Model for Press {
    ghost use Rattle.std.specs.Prelude.{◌≡◌, ◌++◌, drop, Some};
    ghost use Rattle.left_right.specs.Sides.{view as known};
    ghost use Rattle.fl_replica.specs.Boards.{Pressed};
    ghost use Rattle.fl_replica.specs.parts.History.{ops_of};
    ghost use Rattle.fl_replica.specs.parts.Shown.{entry_ops, shown_by, board_of, Awaits};

    ghost Value = { Pressed };

    ghost view = { λ p. record {
      board = p.history.known.book;
      list = p.writer.desk.shown.value.log.items;
      staged = entry_ops (drop p.writer.behind p.writer.log.items ++ p.row.items);
    } };

    ghost invariant = { λ p. (board_of (known p.writer.desk.place) ≡ Some p.history.known.book)
        × Awaits (shown_by p.writer.desk.shown.value)
        (drop p.writer.behind p.writer.log.items ++ p.row.items)
        (record { list = ops_of p.history.known.log; known = p.history.known }) };
}

// Puts these operations at the end of the row, where there is room for them.
fn push_all(row: &mut VecDeque<Entry>, known: &Known, batch: &[Op])
    requires { deque_len row.old + length batch.now ≤ deque_capacity row.old }
    ensures { row.new.items ≡ row.old.items
        ++ map (λ op. record { op = op; known = known.now }) batch.now }
{
    for op in batch {
        row.push_back_reserved(Entry {
            op: *op,
            known: known.again(),
        });
    }
}

// Puts the batch at the end of the row and of the history, all of it or nothing.
fn stage(row: &mut VecDeque<Entry>, history: &mut History, batch: &[Op]) -> Result<(), AllocError>
    ensures board { history.new.known.book ≡ history.old.known.book }
    ensures ops { OnOk result (entry_ops row.new.items ≡ entry_ops row.old.items ++ batch.now) }
    ensures awaits { OnOk result ((shown : Shown) (entries : List Entry)
        → Awaits shown (entries ++ row.old.items)
        (record { list = ops_of history.old.known.log; known = history.old.known })
        → Awaits shown (entries ++ row.new.items)
        (record { list = ops_of history.new.known.log; known = history.new.known })) }
    ensures err { OnErr result ((row.new.items ≡ row.old.items)
        × (history.new.known ≡ history.old.known)) }
    ensures some { OnErr result (0 < length batch.now) }
{
    if batch.is_empty() {
        return Ok(());
    }
    row.reserve(batch.len())?;
    if !history.add(batch) {
        return Err(AllocError);
    }
    push_all(row, &history.known, batch);
    Ok(())
}

impl Press {
    pub(crate) fn over(alloc: Global, writer: BoardWriter, history: History) -> Press
        requires seat { board_of (known writer.desk.place) ≡ Some history.known.book }
        requires awaits { Awaits (shown_by writer.desk.shown.value)
            (drop writer.behind writer.log.items)
            (record { list = ops_of history.known.log; known = history.known }) }
        ensures board { result.board ≡ history.known.book }
        ensures list { result.list ≡ writer.desk.shown.value.log.items }
        ensures staged { result.staged ≡ entry_ops (drop writer.behind writer.log.items) }
    {
        Press {
            writer,
            row: VecDeque::new(alloc),
            history,
        }
    }

    // Stages the batch, all of it or nothing.
    fn take_in(&mut self, batch: &[Op]) -> Result<(), AllocError>
        ensures board { self.new.board ≡ self.old.board }
        ensures list { self.new.list ≡ self.old.list }
        ensures ok { OnOk result (self.new.staged ≡ self.old.staged ++ batch.now) }
        ensures err { OnErr result (self.new ≡ self.old) }
        ensures some { OnErr result (0 < length batch.now) }
    {
        stage(&mut self.row, &mut self.history, batch)
    }

    // Whether anything is staged.
    fn has_staged(&self) -> bool
        ensures { IsTrue result ↔ (0 < length self.now.staged) }
    {
        if self.writer.has_pending_operations() {
            return true;
        }
        self.row.len() > 0
    }

    // Publishes what is staged, all of it or nothing.
    fn print<R: Wait>(&mut self, rt: &R) -> Result<(), AllocError>
        ensures board { self.new.board ≡ self.old.board }
        ensures list { OnOk result (self.new.list ≡ self.old.list ++ self.old.staged) }
        ensures staged { OnOk result (self.new.staged ≡ []) }
        ensures err { OnErr result (self.new ≡ self.old) }
    {
        if !hand_over(&mut self.writer, &mut self.row) {
            return Err(AllocError);
        }
        turn_in(rt, &mut self.writer)
    }

    /// Publishes what is staged and then the batch, all at once, and names the list that is then
    /// published. Of nothing it does nothing, and never fails.
    ///
    /// An error leaves the published list: [`PressFault::Memory`] where there is no memory to stage
    /// the batch, [`PressFault::Staged`] where it is staged, and there is none to absorb it.
    ///
    /// Each operation is absorbed by both copies, by the other one at the next call: twice what
    /// [`Index::absorb`] costs, and some three microseconds a call. It first waits for each look
    /// that began before the last call, so a desk that asks without a rest holds it up: beside one
    /// such thread a call took 24 to 174 microseconds, on a machine with much else to do, where it
    /// takes 6 alone.
    ///
    /// [`Index::absorb`]: fl_closure::index::Index::absorb
    pub fn publish<R: Wait>(&mut self, rt: &R, batch: &[Op]) -> Result<Told, PressFault>
        ensures board { self.new.board ≡ self.old.board }
        ensures ok { OnOk result
            (self.new.list ≡ (self.old.list ++ self.old.staged) ++ batch.now) }
        ensures none { OnOk result (self.new.staged ≡ []) }
        ensures told { IfOk result (λ told. (told.board ≡ self.new.board)
            × (told.list ≡ self.new.list)) }
        ensures memory { result ≡ Err PressFault.Memory
            → (self.new ≡ self.old) × (0 < length batch.now) }
        ensures staged { result ≡ Err PressFault.Staged → (self.new.list ≡ self.old.list)
            × (self.new.staged ≡ self.old.staged ++ batch.now) }
        ensures some { OnErr result (0 < length (self.old.staged ++ batch.now)) }
        ensures later { StartsWith self.new.list self.old.list }
    {
        if self.take_in(batch).is_err() {
            return Err(PressFault::Memory);
        }
        if self.has_staged() && self.print(rt).is_err() {
            return Err(PressFault::Staged);
        }
        Ok(self.tell())
    }

    /// Names the published list, for a desk to learn. Takes no memory.
    pub fn tell(&self) -> Told
        ensures board { result.board ≡ self.now.board }
        ensures list { result.list ≡ self.now.list }
    {
        Told::of(self.writer.published())
    }

    /// The published list.
    pub fn list(&self) -> &[Op]
        ensures { result.now ≡ self.now.list }
    {
        self.writer.published().log.as_slice()
    }

    /// Ends the board: what is staged is lost, and from now on a desk is stopped. It waits for the
    /// looks that have begun.
    pub fn close<R: Wait>(self, rt: &R) {
        let Press {
            writer,
            row: _,
            history: _,
        } = self;
        drop(writer.take(rt));
    }
}
