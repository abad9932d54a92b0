//! How a board is made.
ghost use Rattle.std.specs.Prelude.{◌≡◌, ◌≤◌, ◌<◌, [], drop, length, vec_len, IfOk, OnOk, OnErr, All, Some};
ghost use Rattle.left_right.specs.Sides.{view as known};
ghost use Rattle.fl_replica.specs.parts.History.{ops_of};
ghost use Rattle.fl_replica.specs.parts.Shown.{board_of, shown_by};

use crate::desk::Desk;
use crate::history::{History, Known};
use crate::press::Press;
use crate::published::Published;
use crate::rule::BoardWriter;
use crate::told::Told;
use crate::writing::{fresh_reader, turn};
use fl_ops::op::Op;
use left_right::writer::Writer;
use std::alloc::{AllocError, Global};
use std::sync::Wait;

// A history of this list.
fn history_of(list: &[Op]) -> Result<History, AllocError>
    ensures { IfOk result (λ h. ops_of h.known.log ≡ list.now) }
{
    let mut history = History::new();
    if list.is_empty() {
        return Ok(history);
    }
    if !history.add(list) {
        return Err(AllocError);
    }
    Ok(history)
}

// A copy of this list, with its index.
fn copy_of(alloc: Global, list: &[Op], known: &Known) -> Result<Published, AllocError>
    ensures { IfOk result (λ p. (p.log.items ≡ list.now) × (p.known ≡ known.now)) }
{
    let mut copy = Published::new(alloc, known);
    for op in list {
        copy.add(*op, known)?;
    }
    Ok(copy)
}

// Adds so many desks that were told this. An error leaves some of them.
fn seat_all(
    alloc: Global,
    writer: &mut BoardWriter,
    told: &Told,
    room: &mut Vec<Desk>,
    desks: usize,
) -> Result<(), AllocError>
    requires room { room.old.items ≡ [] }
    requires board { board_of (known writer.old.desk.place) ≡ Some told.now.board }
    ensures shown { writer.new.desk.shown ≡ writer.old.desk.shown }
    ensures log { writer.new.log ≡ writer.old.log }
    ensures behind { writer.new.behind ≡ writer.old.behind }
    ensures knows { known writer.new.desk.place ≡ known writer.old.desk.place }
    ensures count { OnOk result (vec_len room.new ≡ desks) }
    ensures told { All (λ d. d ≡ told.now) room.new.items }
{
    for _ in 0..desks {
        let reader = fresh_reader(writer)?;
        room.push(Desk::over(alloc, reader, told.again()))?;
    }
    Ok(())
}

// A writer of this list, which was shown.
fn first_writer<R: Wait>(
    rt: &R,
    alloc: Global,
    list: &[Op],
    front: &Known,
    desks: usize,
) -> Result<BoardWriter, AllocError>
    requires desks { (0 < desks) × (desks ≤ 64) }
    requires whole { ops_of front.now.log ≡ list.now }
    ensures shown { IfOk result (λ w.
        shown_by w.desk.shown.value ≡ record { list = list.now; known = front.now }) }
    ensures none { IfOk result (λ w. drop w.behind w.log.items ≡ []) }
    ensures seat { IfOk result (λ w. board_of (known w.desk.place) ≡ Some front.now.book) }
{
    let first = copy_of(alloc, list, front)?;
    let second = copy_of(alloc, list, front)?;
    let writer: BoardWriter = Writer::new(alloc, first, second, desks)?;
    let (writer, turned) = turn(rt, writer);
    if turned.is_err() {
        drop(writer.take(rt));
        return Err(AllocError);
    }
    Ok(writer)
}

/// A press whose published list is this one, with nothing staged, and so many desks, which were
/// told of it. Fails only where there is not enough memory.
///
/// It takes two copies of the list with its index, twice what [`Index`] does, and little for each
/// desk, whose cache grows by what it is asked, to 1,024 questions. It waits for
/// nobody.
///
/// [`Index`]: fl_closure::index::Index
pub fn board<R: Wait>(
    rt: &R,
    alloc: Global,
    list: &[Op],
    desks: usize,
) -> Result<(Press, Vec<Desk>), AllocError>
    requires { (0 < desks) × (desks ≤ 64) }
    ensures list { IfOk result (λ b. b.0.list ≡ list.now) }
    ensures none { IfOk result (λ b. b.0.staged ≡ []) }
    ensures count { IfOk result (λ b. vec_len b.1 ≡ desks) }
    ensures desks { IfOk result (λ b.
        All (λ d. d ≡ record { board = b.0.board; list = list.now }) b.1.items) }
{
    let history = history_of(list)?;
    let mut writer = first_writer(rt, alloc, list, &history.known, desks)?;
    let told = Told::of(writer.published());
    let mut room = Vec::new(alloc);
    let Ok(()) = seat_all(alloc, &mut writer, &told, &mut room, desks) else {
        drop(writer.take(rt));
        return Err(AllocError);
    };
    Ok((Press::over(alloc, writer, history), room))
}
