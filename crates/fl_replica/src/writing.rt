//! The writer of the two copies, and the readers that it seats.
ghost use Rattle.std.specs.Prelude.{◌≡◌, [], ◌++◌, drop, fold, OnOk, OnErr, MatchResult, IsTrue, IfOk, Some};
ghost use Rattle.left_right.specs.Sides.{view as known};
ghost use Rattle.fl_replica.specs.parts.Shown.{shown_by, with_entry, board_of, Awaits};
ghost use Rattle.fl_replica.specs.declared.published.Shown.{Shown};

use crate::published::Entry;
use crate::rule::{BoardReader, BoardWriter, Both, Sees, Taught};
use core::mem::replace_with;
use std::alloc::AllocError;
use std::collections::VecDeque;
use std::sync::Wait;

// Tells a fresh reader what the writer knows.
fn taught(writer: &mut BoardWriter, mut reader: BoardReader) -> BoardReader
    requires { reader.place.table_id ≡ writer.old.desk.place.table_id }
    ensures shown { writer.new.desk.shown ≡ writer.old.desk.shown }
    ensures log { writer.new.log ≡ writer.old.log }
    ensures behind { writer.new.behind ≡ writer.old.behind }
    ensures knows { known writer.new.desk.place ≡ known writer.old.desk.place }
    ensures told { known result.place ≡ known writer.old.desk.place }
{
    reader.learn::<Taught>(writer.tell::<Both>());
    reader
}

/// A reader that begins with what the writer knows. An error, where there is no memory, leaves the
/// writer.
pub(crate) fn fresh_reader(writer: &mut BoardWriter) -> Result<BoardReader, AllocError>
    ensures shown { writer.new.desk.shown ≡ writer.old.desk.shown }
    ensures log { writer.new.log ≡ writer.old.log }
    ensures behind { writer.new.behind ≡ writer.old.behind }
    ensures knows { known writer.new.desk.place ≡ known writer.old.desk.place }
    ensures told { IfOk result (λ r. known r.place ≡ known writer.old.desk.place) }
{
    let reader = writer.factory().reader()?;
    Ok(taught(writer, reader))
}

/// Hands the row over to the writer, as far as there is memory; what there is none for stays.
pub(crate) fn hand_over(writer: &mut BoardWriter, row: &mut VecDeque<Entry>) -> bool
    ensures desk { writer.new.desk ≡ writer.old.desk }
    ensures staged { drop writer.new.behind writer.new.log.items ++ row.new.items
        ≡ drop writer.old.behind writer.old.log.items ++ row.old.items }
    ensures done { IsTrue result → row.new.items ≡ [] }
{
    while let Some(entry) = row.pop_front() {
        if let Err(entry) = writer.append(entry) {
            row.push_front_reserved(entry);
            return false;
        }
    }
    true
}

/// Shows readers what the writer has. An error, where there is no memory, shows them what they saw.
pub(crate) fn turn<R: Wait>(rt: &R, writer: BoardWriter) -> (BoardWriter, Result<(), AllocError>)
    requires { (last : Shown) × Awaits (shown_by writer.desk.shown.value)
        (drop writer.behind writer.log.items) last }
    ensures values { MatchResult result.1
        (λ _. (shown_by result.0.desk.shown.value ≡ fold with_entry
        (shown_by writer.desk.shown.value) (drop writer.behind writer.log.items))
        × (drop result.0.behind result.0.log.items ≡ []))
        (λ _. (result.0.desk.shown.value ≡ writer.desk.shown.value)
        × (drop result.0.behind result.0.log.items ≡ drop writer.behind writer.log.items)) }
    ensures seat { MatchResult result.1
        (λ _. board_of (known result.0.desk.place) ≡ Some writer.desk.shown.value.known.book)
        (λ _. known result.0.desk.place ≡ known writer.desk.place) }
{
    writer.publish_as::<Sees, R>(rt)
}

/// The same in place.
pub(crate) fn turn_in<R: Wait>(rt: &R, writer: &mut BoardWriter) -> Result<(), AllocError>
    requires { (last : Shown) × Awaits (shown_by writer.old.desk.shown.value)
        (drop writer.old.behind writer.old.log.items) last }
    ensures shown { OnOk result (shown_by writer.new.desk.shown.value ≡ fold with_entry
        (shown_by writer.old.desk.shown.value) (drop writer.old.behind writer.old.log.items)) }
    ensures none { OnOk result (drop writer.new.behind writer.new.log.items ≡ []) }
    ensures seat { OnOk result
        (board_of (known writer.new.desk.place) ≡ Some writer.old.desk.shown.value.known.book) }
    ensures err { OnErr result ((writer.new.desk.shown.value ≡ writer.old.desk.shown.value)
        × (drop writer.new.behind writer.new.log.items
        ≡ drop writer.old.behind writer.old.log.items)
        × (known writer.new.desk.place ≡ known writer.old.desk.place)) }
{
    replace_with(
        writer,
        rt,
        |writer: BoardWriter, rt: &R| -> (BoardWriter, Result<(), AllocError>)
            requires { (last : Shown) × Awaits (shown_by writer.desk.shown.value)
                (drop writer.behind writer.log.items) last }
            ensures values { MatchResult result.1
                (λ _. (shown_by result.0.desk.shown.value ≡ fold with_entry
                (shown_by writer.desk.shown.value) (drop writer.behind writer.log.items))
                × (drop result.0.behind result.0.log.items ≡ []))
                (λ _. (result.0.desk.shown.value ≡ writer.desk.shown.value)
                × (drop result.0.behind result.0.log.items
                ≡ drop writer.behind writer.log.items)) }
            ensures seat { MatchResult result.1
                (λ _. board_of (known result.0.desk.place)
                ≡ Some writer.desk.shown.value.known.book)
                (λ _. known result.0.desk.place ≡ known writer.desk.place) }
        { turn(rt, writer) },
    )
}
