//! The boot of a database.
ghost use Rattle.std.specs.Prelude.{◌≡◌, ◌<◌, ◌⊎◌, ℕ, [], ◌∷◌, length, true, false, IsTrue, IfOk, OnOk, OnErr};
ghost use Rattle.std.specs.Prelude.{IfErr, Err, Some};
ghost use Rattle.sqlite.specs.Held.{state};
ghost use Rattle.sqlite.specs.Order.{column};
ghost use Rattle.sqlite.specs.State.{HasCleanDisk, IsUnchanged, KeepsCommit, Survives};
ghost use Rattle.fl_sql_tables.specs.Stored.{IsUndone, HasSelf};
ghost use Rattle.fl_sql_tables.specs.Serving.{IsServing, SetsBoot, Raises, RaisesTo};
ghost use Rattle.fl_sql_tables.specs.Failing.{IsFault, FailsToRaise, RunsOut};
ghost use Rattle.fl_sql_tables.specs.Spelling.{whole_in};

use crate::reading::number_at;
use fl_labels::name::NodeNumber;
use sqlite::{Alter, Connection, Error, ErrorCode, Row, Transaction, params};

// The boot in what is shown of the row of the node itself. Takes no memory.
fn boot_in(row: &Row) -> Result<u32, Error>
    ensures ok { IfOk result (λ boot. whole_in (column row.now 1) ≡ Some boot) }
    ensures err { IfErr result (λ _. length row.now ≡ 3
        → ¬ ((boot : ℕ) × (boot < 4294967296) × (whole_in (column row.now 1) ≡ Some boot))) }
{
    if row.column_count() != 3 {
        return Err(Error::InvalidColumnIndex(1));
    }
    let Some(boot) = number_at(row, 1) else {
        return Err(Error::IntegralValueOutOfRange(1));
    };
    match u32::try_from(boot) {
        Ok(boot) => Ok(boot),
        Err(_) => Err(Error::IntegralValueOutOfRange(1)),
    }
}

/// The boot of the node itself. Refused only where memory is, or the disk fails, or the limit on
/// steps is met: the row is there, and its boot in its range. Of the row that is read, nothing
/// takes memory.
pub fn read_boot<S: Alter>(conn: &mut Connection<S>, number: NodeNumber) -> Result<u32, Error>
    requires idle { conn.old.in_transaction ≡ false }
    requires serving { IsServing number (state S.Store conn.old) }
    ensures idle { conn.new.in_transaction ≡ false }
    ensures ok { HasCleanDisk (state S.Store conn.new) → IfOk result (λ boot.
        HasSelf number boot ((state S.Store conn.old).now.trees 0)) }
    ensures same { HasCleanDisk (state S.Store conn.new) → OnOk result (IsUnchanged
        (state S.Store conn.old) (state S.Store conn.new)) }
    ensures err { HasCleanDisk (state S.Store conn.new) → OnErr result (IsUndone
        (state S.Store conn.old) (state S.Store conn.new)) }
    ensures fails { HasCleanDisk (state S.Store conn.new) → IfErr result (IsFault
        (state S.Store conn.old) (state S.Store conn.new)) }
    ensures wants { HasCleanDisk (state S.Store conn.new)
        → result ≡ Err (Error.SqliteFailure ErrorCode.OutOfMemory)
        → RunsOut (state S.Store conn.old) (state S.Store conn.new) }
    ensures survives { Survives (state S.Store conn.old) (state S.Store conn.new) (λ _. ⊥) }
{
    match conn.query_row("SELECT node, boot, format FROM self", &[]) {
        Ok(row) => boot_in(&row),
        Err(error) => Err(error),
    }
}

// Sets the boot in a transaction.
fn set_boot<S: Alter>(
    tx: &mut Transaction<'_, S>,
    number: NodeNumber,
    boot: u32,
) -> Result<(), Error>
    requires { IsServing number (state S.Store tx.old.conn.now) }
    ensures same_reference { tx.new.conn.ghost_name ≡ tx.old.conn.ghost_name }
    ensures ok { HasCleanDisk (state S.Store tx.new.conn.now) → IsTrue
        (state S.Store tx.old.conn.now).in_transaction
        → OnOk result (SetsBoot number boot (state S.Store tx.old.conn.now)
        (state S.Store tx.new.conn.now)) }
    ensures fails { HasCleanDisk (state S.Store tx.new.conn.now) → IsTrue
        (state S.Store tx.old.conn.now).in_transaction
        → IfErr result (FailsToRaise boot (state S.Store tx.old.conn.now)
        (state S.Store tx.new.conn.now)) }
    ensures kept { HasCleanDisk (state S.Store tx.new.conn.now) → KeepsCommit
        (state S.Store tx.old.conn.now) (state S.Store tx.new.conn.now) }
    ensures survives { Survives (state S.Store tx.old.conn.now)
        (state S.Store tx.new.conn.now) (λ _. ⊥) }
{
    tx.execute("UPDATE self SET boot = ?1", params![boot])?;
    Ok(())
}

/// Sets the boot. Refused where memory is, or the disk fails, or the limit on steps is met, or
/// where the table does not take it.
pub fn raise_boot<S: Alter>(
    conn: &mut Connection<S>,
    number: NodeNumber,
    boot: u32,
) -> Result<(), Error>
    requires idle { conn.old.in_transaction ≡ false }
    requires serving { IsServing number (state S.Store conn.old) }
    ensures idle { conn.new.in_transaction ≡ false }
    ensures ok { HasCleanDisk (state S.Store conn.new) → OnOk result (Raises number boot
        (state S.Store conn.old) (state S.Store conn.new)) }
    ensures err { HasCleanDisk (state S.Store conn.new) → OnErr result (IsUndone
        (state S.Store conn.old) (state S.Store conn.new)) }
    ensures fails { HasCleanDisk (state S.Store conn.new) → IfErr result (FailsToRaise boot
        (state S.Store conn.old) (state S.Store conn.new)) }
    ensures wants { HasCleanDisk (state S.Store conn.new)
        → result ≡ Err (Error.SqliteFailure ErrorCode.OutOfMemory)
        → RunsOut (state S.Store conn.old) (state S.Store conn.new) }
    ensures survives { Survives (state S.Store conn.old)
        (state S.Store conn.new) (RaisesTo number boot (state S.Store conn.old).now) }
{
    let mut tx = conn.transaction();
    set_boot(&mut tx, number, boot)?;
    tx.commit()
}
