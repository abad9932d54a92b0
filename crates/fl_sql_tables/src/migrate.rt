//! Rewriting a database of the first format in the second.
ghost use Rattle.std.specs.Prelude.{◌≡◌, ◌⊎◌, [], false, IsTrue, OnOk, OnErr, IfErr, Err};
ghost use Rattle.sqlite.specs.Held.{state};
ghost use Rattle.sqlite.specs.Listing.{understood};
ghost use Rattle.sqlite.specs.State.{HasCleanDisk, KeepsCommit, Survives};
ghost use Rattle.fl_sql_tables.specs.Tables.{keeper_schema, drop_ops_text, set_format_text};
ghost use Rattle.fl_sql_tables.specs.Stored.{IsOurs, IsUndone, PutsIn};
ghost use Rattle.fl_sql_tables.specs.Failing.{IsFault, IsRefused, FailsToSave, RunsOut};
ghost use Rattle.fl_sql_tables.specs.Migrating.{DropsOps, IsFormer, SetsFormat, MigratesIn, Migrates, MigratesTo, FailsToMigrate};

use crate::found::create_ops;
use crate::put::put_ops;
use fl_labels::name::NodeNumber;
use fl_ops::op::Op;
use sqlite::{Alter, Connection, Error, ErrorCode, Transaction};
use std::alloc::Global;

fn drop_ops<S: Alter>(tx: &mut Transaction<'_, S>) -> Result<(), Error>
    ensures same_reference { tx.new.conn.ghost_name ≡ tx.old.conn.ghost_name }
    ensures ok { HasCleanDisk (state S.Store tx.new.conn.now) → IsTrue
        (state S.Store tx.old.conn.now).in_transaction
        → (state S.Store tx.old.conn.now).now.schema ≡ keeper_schema
        → OnOk result (DropsOps (state S.Store tx.old.conn.now) (state S.Store tx.new.conn.now)) }
    ensures fails { HasCleanDisk (state S.Store tx.new.conn.now) → IsTrue
        (state S.Store tx.old.conn.now).in_transaction
        → (state S.Store tx.old.conn.now).now.schema ≡ keeper_schema
        → IsTrue (state S.Store tx.old.conn.now).is_open → IfErr result (λ e.
        IsFault (state S.Store tx.old.conn.now) (state S.Store tx.new.conn.now) e
        ⊎ IsRefused (state S.Store tx.old.conn.now) (state S.Store tx.old.conn.now).now
        drop_ops_text [] (understood keeper_schema drop_ops_text)) }
    ensures kept { HasCleanDisk (state S.Store tx.new.conn.now) → KeepsCommit
        (state S.Store tx.old.conn.now) (state S.Store tx.new.conn.now) }
    ensures survives { Survives (state S.Store tx.old.conn.now)
        (state S.Store tx.new.conn.now) (λ _. ⊥) }
{
    tx.execute("DROP TABLE ops", &[])?;
    Ok(())
}

// Adds the operations in a transaction, if there are any.
fn refill<S: Alter>(alloc: Global, tx: &mut Transaction<'_, S>, ops: &[Op]) -> Result<(), Error>
    ensures same_reference { tx.new.conn.ghost_name ≡ tx.old.conn.ghost_name }
    ensures ok { HasCleanDisk (state S.Store tx.new.conn.now) → IsTrue
        (state S.Store tx.old.conn.now).in_transaction → IsOurs (state S.Store tx.old.conn.now)
        → IsTrue (state S.Store tx.old.conn.now).is_open
        → OnOk result (PutsIn ops.now (state S.Store tx.old.conn.now)
        (state S.Store tx.new.conn.now)) }
    ensures fails { HasCleanDisk (state S.Store tx.new.conn.now) → IsTrue
        (state S.Store tx.old.conn.now).in_transaction → IsOurs (state S.Store tx.old.conn.now)
        → IsTrue (state S.Store tx.old.conn.now).is_open → IfErr result (FailsToSave ops.now
        (state S.Store tx.old.conn.now) (state S.Store tx.new.conn.now)) }
    ensures kept { HasCleanDisk (state S.Store tx.new.conn.now) → KeepsCommit
        (state S.Store tx.old.conn.now) (state S.Store tx.new.conn.now) }
    ensures survives { Survives (state S.Store tx.old.conn.now)
        (state S.Store tx.new.conn.now) (λ _. ⊥) }
{
    if ops.is_empty() {
        return Ok(());
    }
    put_ops(alloc, tx, ops)
}

fn set_format<S: Alter>(tx: &mut Transaction<'_, S>) -> Result<(), Error>
    ensures same_reference { tx.new.conn.ghost_name ≡ tx.old.conn.ghost_name }
    ensures ok { HasCleanDisk (state S.Store tx.new.conn.now) → IsTrue
        (state S.Store tx.old.conn.now).in_transaction
        → (state S.Store tx.old.conn.now).now.schema ≡ keeper_schema
        → OnOk result (SetsFormat (state S.Store tx.old.conn.now) (state S.Store tx.new.conn.now)) }
    ensures fails { HasCleanDisk (state S.Store tx.new.conn.now) → IsTrue
        (state S.Store tx.old.conn.now).in_transaction
        → (state S.Store tx.old.conn.now).now.schema ≡ keeper_schema
        → IsTrue (state S.Store tx.old.conn.now).is_open → IfErr result (λ e.
        IsFault (state S.Store tx.old.conn.now) (state S.Store tx.new.conn.now) e
        ⊎ IsRefused (state S.Store tx.old.conn.now) (state S.Store tx.old.conn.now).now
        set_format_text [] (understood keeper_schema set_format_text)) }
    ensures kept { HasCleanDisk (state S.Store tx.new.conn.now) → KeepsCommit
        (state S.Store tx.old.conn.now) (state S.Store tx.new.conn.now) }
    ensures survives { Survives (state S.Store tx.old.conn.now)
        (state S.Store tx.new.conn.now) (λ _. ⊥) }
{
    tx.execute("UPDATE self SET format = 2", &[])?;
    Ok(())
}

// Makes the table of operations anew in a transaction, with these, and sets the format.
fn rewrite<S: Alter>(
    alloc: Global,
    tx: &mut Transaction<'_, S>,
    number: NodeNumber,
    ops: &[Op],
) -> Result<(), Error>
    requires { IsFormer number (state S.Store tx.old.conn.now) }
    ensures same_reference { tx.new.conn.ghost_name ≡ tx.old.conn.ghost_name }
    ensures ok { HasCleanDisk (state S.Store tx.new.conn.now) → IsTrue
        (state S.Store tx.old.conn.now).in_transaction → OnOk result (MigratesIn number ops.now
        (state S.Store tx.old.conn.now) (state S.Store tx.new.conn.now)) }
    ensures fails { HasCleanDisk (state S.Store tx.new.conn.now) → IsTrue
        (state S.Store tx.old.conn.now).in_transaction → IfErr result (FailsToMigrate ops.now
        (state S.Store tx.old.conn.now) (state S.Store tx.new.conn.now)) }
    ensures kept { HasCleanDisk (state S.Store tx.new.conn.now) → KeepsCommit
        (state S.Store tx.old.conn.now) (state S.Store tx.new.conn.now) }
    ensures survives { Survives (state S.Store tx.old.conn.now)
        (state S.Store tx.new.conn.now) (λ _. ⊥) }
{
    drop_ops(tx)?;
    create_ops(tx)?;
    refill(alloc, tx, ops)?;
    set_format(tx)
}

/// Rewrites this node's database of the first format in the second, in one transaction: the table
/// of operations is made anew with these, and the row of the node gets the format. Refused, with
/// nothing written, where memory is, or the disk fails, or the limit on steps is met, or where a
/// table does not take what is written. Takes as long as there are operations.
pub fn migrate<S: Alter>(
    alloc: Global,
    conn: &mut Connection<S>,
    number: NodeNumber,
    ops: &[Op],
) -> Result<(), Error>
    requires idle { conn.old.in_transaction ≡ false }
    requires former { IsFormer number (state S.Store conn.old) }
    ensures idle { conn.new.in_transaction ≡ false }
    ensures ok { HasCleanDisk (state S.Store conn.new) → OnOk result (Migrates number ops.now
        (state S.Store conn.old) (state S.Store conn.new)) }
    ensures err { HasCleanDisk (state S.Store conn.new) → OnErr result (IsUndone
        (state S.Store conn.old) (state S.Store conn.new)) }
    ensures fails { HasCleanDisk (state S.Store conn.new) → IfErr result (FailsToMigrate ops.now
        (state S.Store conn.old) (state S.Store conn.new)) }
    ensures wants { HasCleanDisk (state S.Store conn.new)
        → result ≡ Err (Error.SqliteFailure ErrorCode.OutOfMemory)
        → RunsOut (state S.Store conn.old) (state S.Store conn.new) }
    ensures survives { Survives (state S.Store conn.old)
        (state S.Store conn.new) (MigratesTo number ops.now (state S.Store conn.old).now) }
{
    let mut tx = conn.transaction();
    rewrite(alloc, &mut tx, number, ops)?;
    tx.commit()
}
