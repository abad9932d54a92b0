//! The operations of a database.
ghost use Rattle.std.specs.Prelude.{◌≡◌, ◌⊎◌, [], ◌∷◌, true, false, map, IsTrue, IfOk, IfErr, IfSome, OnOk, OnErr, Err};
ghost use Rattle.sqlite.specs.Held.{state};
ghost use Rattle.sqlite.specs.State.{HasCleanDisk, IsUnchanged, Survives};
ghost use Rattle.sqlite.specs.Given.{FailsToAdvance};
ghost use Rattle.fl_store.specs.Kept.{HasNamesOnce};
ghost use Rattle.fl_sql_tables.specs.Stored.{IsUndone, ops_in, HasBadRow};
ghost use Rattle.fl_sql_tables.specs.Serving.{IsServing, StepsOn};
ghost use Rattle.fl_sql_tables.specs.Failing.{RefusesToLoad};

use crate::reading::read_op;
use fl_labels::name::NodeNumber;
use fl_ops::op::Op;
use fl_opset::set::OpSet;
use sqlite::{Alter, Connection, Error, ErrorCode, Rows};
use std::alloc::Global;

/// What the next row is.
#[derive(Clone, Copy)]
pub enum Step {
    /// There is none.
    End,
    /// It spells no operation.
    Bad,
    /// This operation.
    Found(Op),
}

/// Why no operations were loaded.
pub enum LoadFault {
    /// The database failed.
    Failed(Error),
    /// There was not enough memory for the operations.
    Memory,
    /// A row spells no operation, or two of them have one name.
    BadRow,
}

// The next operation.
fn next_op<S: Alter>(rows: &mut Rows<'_, S>) -> Result<Step, Error>
    ensures same_reference { rows.new.conn.ghost_name ≡ rows.old.conn.ghost_name }
    ensures ok { HasCleanDisk (state S.Store rows.new.conn.now)
        → IfOk result (StepsOn S.Store rows.old.conn.now rows.new.conn.now) }
    ensures same { HasCleanDisk (state S.Store rows.new.conn.now)
        → OnOk result (IsUnchanged (state S.Store rows.old.conn.now)
        (state S.Store rows.new.conn.now)) }
    ensures err { HasCleanDisk (state S.Store rows.new.conn.now)
        → (state S.Store rows.old.conn.now).now ≡ (state S.Store rows.old.conn.now).committed
        → OnErr result (IsUndone (state S.Store rows.old.conn.now)
        (state S.Store rows.new.conn.now)) }
    ensures fails { HasCleanDisk (state S.Store rows.new.conn.now)
        → IfErr result (FailsToAdvance S.Store rows.old.conn.now rows.new.conn.now) }
    ensures mode { rows.old.conn.now.in_transaction ≡ false
        → rows.new.conn.now.in_transaction ≡ false }
    ensures survives { Survives (state S.Store rows.old.conn.now)
        (state S.Store rows.new.conn.now) (λ _. ⊥) }
{
    rows.advance()?;
    match rows.get() {
        None => Ok(Step::End),
        Some(row) => match read_op(row) {
            None => Ok(Step::Bad),
            Some(op) => Ok(Step::Found(op)),
        },
    }
}

/// The operations of the table, read one row at a time.
///
/// Refused with `BadRow` where a row spells no operation or two have one name, and with `Memory`
/// where the operations that were read do not fit, none of which is bad then; the database stays as
/// it was. It is `Failed` only where memory is wanted by the database, or the disk fails, or the
/// limit on steps is met, or the table has as many rows as a `u64` counts; no transaction is under
/// way then.
pub fn load_ops<S: Alter>(
    alloc: Global,
    conn: &mut Connection<S>,
    number: NodeNumber,
) -> Result<OpSet, LoadFault>
    requires idle { conn.old.in_transaction ≡ false }
    requires serving { IsServing number (state S.Store conn.old) }
    ensures idle { conn.new.in_transaction ≡ false }
    ensures names { IfOk result HasNamesOnce }
    ensures ok { HasCleanDisk (state S.Store conn.new)
        → IfOk result (λ ops. ops ≡ ops_in ((state S.Store conn.old).now.trees 1)) }
    ensures good { HasCleanDisk (state S.Store conn.new)
        → OnOk result (¬ HasBadRow ((state S.Store conn.old).now.trees 1)) }
    ensures same { HasCleanDisk (state S.Store conn.new)
        → OnOk result (IsUnchanged (state S.Store conn.old) (state S.Store conn.new)) }
    ensures refuses { HasCleanDisk (state S.Store conn.new) → IfErr result
        (RefusesToLoad (state S.Store conn.old) (state S.Store conn.new)) }
    ensures err { HasCleanDisk (state S.Store conn.new)
        → OnErr result (IsUndone (state S.Store conn.old) (state S.Store conn.new)) }
    ensures survives { Survives (state S.Store conn.old) (state S.Store conn.new) (λ _. ⊥) }
{
    let mut ops = OpSet::new(alloc);
    let mut rows = match conn.query("SELECT node, seq, bytes FROM ops ORDER BY node, seq", &[]) {
        Ok(rows) => rows,
        Err(error) => return Err(LoadFault::Failed(error)),
    };
    'rows: for _count in 0..u64::MAX {
        match next_op(&mut rows) {
            Ok(Step::End) => return Ok(ops),
            Ok(Step::Bad) => return Err(LoadFault::BadRow),
            Ok(Step::Found(op)) => {
                if ops.clash(&op).is_some() {
                    return Err(LoadFault::BadRow);
                }
                if ops.add(op).is_err() {
                    return Err(LoadFault::Memory);
                }
            }
            Err(error) => return Err(LoadFault::Failed(error)),
        }
    }
    Err(LoadFault::Failed(Error::SqliteFailure(ErrorCode::TooBig)))
}
