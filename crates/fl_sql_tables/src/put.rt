//! Adding operations.
ghost use Rattle.std.specs.Prelude.{◌≡◌, ◌<◌, ◌≤◌, [], ◌∷◌, length, IsTrue, IfErr, OnOk, OnErr, false, Err};
ghost use Rattle.sqlite.specs.Held.{state};
ghost use Rattle.sqlite.specs.State.{HasCleanDisk, KeepsCommit, Survives};
ghost use Rattle.sqlite.specs.View.{doubt};
ghost use Rattle.fl_sql_tables.specs.Stored.{IsOurs, PutsIn, Saves, IsUndone, AddsTo};
ghost use Rattle.fl_sql_tables.specs.Failing.{FailsToPut, FailsToSave, RunsOut};

use fl_ops::op::Op;
use fl_ops::writing::encode;
use sqlite::{Alter, Connection, Error, ErrorCode, Transaction, params};
use std::alloc::Global;

// Adds one operation in a transaction.
fn put_op<S: Alter>(alloc: Global, tx: &mut Transaction<'_, S>, op: &Op) -> Result<(), Error>
    ensures same_reference { tx.new.conn.ghost_name ≡ tx.old.conn.ghost_name }
    ensures ok { HasCleanDisk (state S.Store tx.new.conn.now) → IsTrue
        (state S.Store tx.old.conn.now).in_transaction → IsOurs (state S.Store tx.old.conn.now)
        → OnOk result (PutsIn (op.now ∷ []) (state S.Store tx.old.conn.now)
        (state S.Store tx.new.conn.now)) }
    ensures fails { HasCleanDisk (state S.Store tx.new.conn.now) → IsTrue
        (state S.Store tx.old.conn.now).in_transaction → IsOurs (state S.Store tx.old.conn.now)
        → IsTrue (state S.Store tx.old.conn.now).is_open → IfErr result (FailsToPut op.now
        (state S.Store tx.old.conn.now) (state S.Store tx.new.conn.now)) }
    ensures kept { HasCleanDisk (state S.Store tx.new.conn.now) → KeepsCommit
        (state S.Store tx.old.conn.now) (state S.Store tx.new.conn.now) }
    ensures survives { Survives (state S.Store tx.old.conn.now)
        (state S.Store tx.new.conn.now) (λ _. ⊥) }
{
    let bytes = encode(alloc, op)?;
    tx.execute(
        "INSERT INTO ops (node, seq, bytes) VALUES (?1, ?2, ?3)",
        params![op.name.node, op.name.seq, bytes.as_slice()],
    )?;
    Ok(())
}

// Adds the operations in a transaction.
pub(crate) fn put_ops<S: Alter>(
    alloc: Global,
    tx: &mut Transaction<'_, S>,
    ops: &[Op],
) -> Result<(), Error>
    ensures same_reference { tx.new.conn.ghost_name ≡ tx.old.conn.ghost_name }
    ensures ok { HasCleanDisk (state S.Store tx.new.conn.now) → IsTrue
        (state S.Store tx.old.conn.now).in_transaction → IsOurs (state S.Store tx.old.conn.now)
        → 0 < length ops.now
        → OnOk result (PutsIn ops.now (state S.Store tx.old.conn.now)
        (state S.Store tx.new.conn.now)) }
    ensures fails { HasCleanDisk (state S.Store tx.new.conn.now) → IsTrue
        (state S.Store tx.old.conn.now).in_transaction → IsOurs (state S.Store tx.old.conn.now)
        → IsTrue (state S.Store tx.old.conn.now).is_open → IfErr result (FailsToSave ops.now
        (state S.Store tx.old.conn.now) (state S.Store tx.new.conn.now)) }
    ensures kept { HasCleanDisk (state S.Store tx.new.conn.now) → KeepsCommit
        (state S.Store tx.old.conn.now) (state S.Store tx.new.conn.now) }
    ensures survives { Survives (state S.Store tx.old.conn.now)
        (state S.Store tx.new.conn.now) (λ _. ⊥) }
{
    'ops: for op in ops {
        put_op(alloc, tx, op)?;
    }
    Ok(())
}

/// Adds the operations in one transaction. Refused, with none added, where memory is, or the disk
/// fails, or the limit on steps is met, or where the table does not take one of them after those
/// before it.
pub fn save_ops<S: Alter>(alloc: Global, conn: &mut Connection<S>, ops: &[Op]) -> Result<(), Error>
    requires idle { conn.old.in_transaction ≡ false }
    requires some { 0 < length ops.now }
    ensures clean { doubt (state S.Store conn.old).is_clean ≤ doubt
        (state S.Store conn.new).is_clean }
    ensures ended { conn.new.in_transaction ≡ false }
    ensures ok { HasCleanDisk (state S.Store conn.new) → IsOurs (state S.Store conn.old)
        → OnOk result (Saves ops.now (state S.Store conn.old) (state S.Store conn.new)) }
    ensures err { HasCleanDisk (state S.Store conn.new) → IsOurs (state S.Store conn.old)
        → OnErr result (IsUndone (state S.Store conn.old) (state S.Store conn.new)) }
    ensures fails { HasCleanDisk (state S.Store conn.new) → IsOurs (state S.Store conn.old)
        → IsTrue (state S.Store conn.old).is_open → IfErr result (FailsToSave ops.now
        (state S.Store conn.old) (state S.Store conn.new)) }
    ensures wants { HasCleanDisk (state S.Store conn.new) → IsOurs (state S.Store conn.old)
        → result ≡ Err (Error.SqliteFailure ErrorCode.OutOfMemory)
        → RunsOut (state S.Store conn.old) (state S.Store conn.new) }
    ensures survives { IsOurs (state S.Store conn.old) → Survives (state S.Store conn.old)
        (state S.Store conn.new) (AddsTo ops.now (state S.Store conn.old).now) }
{
    let mut tx = conn.transaction();
    put_ops(alloc, &mut tx, ops)?;
    tx.commit()
}
