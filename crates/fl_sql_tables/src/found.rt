//! Making the tables.
ghost use Rattle.std.specs.Prelude.{◌≡◌, ◌≤◌, [], false, IsTrue, OnOk, OnErr, IfErr, Err};
ghost use Rattle.sqlite.specs.Held.{state};
ghost use Rattle.sqlite.specs.View.{doubt};
ghost use Rattle.sqlite.specs.State.{HasCleanDisk, KeepsCommit, Survives};
ghost use Rattle.fl_sql_tables.specs.Tables.{no_schema, self_schema, keeper_schema};
ghost use Rattle.fl_sql_tables.specs.Stored.{IsUndone};
ghost use Rattle.fl_sql_tables.specs.Founding.{MakesSelf, MakesOps, StartsSelf, MakesTables, Founds, FoundsTo};
ghost use Rattle.fl_sql_tables.specs.Failing.{IsFault, FailsToStart, FailsToFound, RunsOut};

use fl_labels::name::NodeNumber;
use sqlite::{Alter, Connection, Error, ErrorCode, Transaction, params};

fn create_self<S: Alter>(tx: &mut Transaction<'_, S>) -> Result<(), Error>
    requires { (state S.Store tx.old.conn.now).now.schema ≡ no_schema }
    ensures same_reference { tx.new.conn.ghost_name ≡ tx.old.conn.ghost_name }
    ensures ok { HasCleanDisk (state S.Store tx.new.conn.now) → IsTrue
        (state S.Store tx.old.conn.now).in_transaction
        → OnOk result (MakesSelf (state S.Store tx.old.conn.now) (state S.Store tx.new.conn.now)) }
    ensures fails { HasCleanDisk (state S.Store tx.new.conn.now) → IsTrue
        (state S.Store tx.old.conn.now).in_transaction → IsTrue
        (state S.Store tx.old.conn.now).is_open → IfErr result (IsFault
        (state S.Store tx.old.conn.now) (state S.Store tx.new.conn.now)) }
    ensures kept { HasCleanDisk (state S.Store tx.new.conn.now) → KeepsCommit
        (state S.Store tx.old.conn.now) (state S.Store tx.new.conn.now) }
    ensures survives { Survives (state S.Store tx.old.conn.now)
        (state S.Store tx.new.conn.now) (λ _. ⊥) }
{
    tx.execute(
        "CREATE TABLE self (id INTEGER PRIMARY KEY CHECK (id = 1), node INTEGER NOT NULL, boot INTEGER NOT NULL, format INTEGER NOT NULL) STRICT",
        &[],
    )?;
    Ok(())
}

pub(crate) fn create_ops<S: Alter>(tx: &mut Transaction<'_, S>) -> Result<(), Error>
    ensures same_reference { tx.new.conn.ghost_name ≡ tx.old.conn.ghost_name }
    ensures ok { HasCleanDisk (state S.Store tx.new.conn.now) → IsTrue
        (state S.Store tx.old.conn.now).in_transaction →
        (state S.Store tx.old.conn.now).now.schema ≡ self_schema
        → OnOk result (MakesOps (state S.Store tx.old.conn.now) (state S.Store tx.new.conn.now)) }
    ensures fails { HasCleanDisk (state S.Store tx.new.conn.now) → IsTrue
        (state S.Store tx.old.conn.now).in_transaction →
        (state S.Store tx.old.conn.now).now.schema ≡ self_schema → IsTrue
        (state S.Store tx.old.conn.now).is_open → IfErr result (IsFault
        (state S.Store tx.old.conn.now) (state S.Store tx.new.conn.now)) }
    ensures kept { HasCleanDisk (state S.Store tx.new.conn.now) → KeepsCommit
        (state S.Store tx.old.conn.now) (state S.Store tx.new.conn.now) }
    ensures survives { Survives (state S.Store tx.old.conn.now)
        (state S.Store tx.new.conn.now) (λ _. ⊥) }
{
    tx.execute(
        "CREATE TABLE ops (node INTEGER NOT NULL, seq INTEGER NOT NULL, bytes BLOB NOT NULL, PRIMARY KEY (node, seq)) STRICT",
        &[],
    )?;
    Ok(())
}

fn insert_self<S: Alter>(tx: &mut Transaction<'_, S>, number: NodeNumber) -> Result<(), Error>
    ensures same_reference { tx.new.conn.ghost_name ≡ tx.old.conn.ghost_name }
    ensures ok { HasCleanDisk (state S.Store tx.new.conn.now) → IsTrue
        (state S.Store tx.old.conn.now).in_transaction →
        (state S.Store tx.old.conn.now).now.schema ≡ keeper_schema
        → (state S.Store tx.old.conn.now).now.trees 0 ≡ [] → OnOk result (StartsSelf number
        (state S.Store tx.old.conn.now) (state S.Store tx.new.conn.now)) }
    ensures fails { HasCleanDisk (state S.Store tx.new.conn.now) → IsTrue
        (state S.Store tx.old.conn.now).in_transaction →
        (state S.Store tx.old.conn.now).now.schema ≡ keeper_schema → IsTrue
        (state S.Store tx.old.conn.now).is_open → IfErr result (FailsToStart number
        (state S.Store tx.old.conn.now) (state S.Store tx.new.conn.now)) }
    ensures kept { HasCleanDisk (state S.Store tx.new.conn.now) → KeepsCommit
        (state S.Store tx.old.conn.now) (state S.Store tx.new.conn.now) }
    ensures survives { Survives (state S.Store tx.old.conn.now)
        (state S.Store tx.new.conn.now) (λ _. ⊥) }
{
    tx.execute(
        "INSERT INTO self (id, node, boot, format) VALUES (1, ?1, 0, 2)",
        params![number],
    )?;
    Ok(())
}

// Makes both tables and the row of the node in a transaction.
fn make_tables<S: Alter>(tx: &mut Transaction<'_, S>, number: NodeNumber) -> Result<(), Error>
    requires { (state S.Store tx.old.conn.now).now.schema ≡ no_schema }
    ensures same_reference { tx.new.conn.ghost_name ≡ tx.old.conn.ghost_name }
    ensures ok { HasCleanDisk (state S.Store tx.new.conn.now) → IsTrue
        (state S.Store tx.old.conn.now).in_transaction
        → OnOk result (MakesTables number (state S.Store tx.old.conn.now)
        (state S.Store tx.new.conn.now)) }
    ensures fails { HasCleanDisk (state S.Store tx.new.conn.now) → IsTrue
        (state S.Store tx.old.conn.now).in_transaction → IsTrue
        (state S.Store tx.old.conn.now).is_open → IfErr result (FailsToFound number
        (state S.Store tx.old.conn.now) (state S.Store tx.new.conn.now)) }
    ensures kept { HasCleanDisk (state S.Store tx.new.conn.now) → KeepsCommit
        (state S.Store tx.old.conn.now) (state S.Store tx.new.conn.now) }
    ensures survives { Survives (state S.Store tx.old.conn.now)
        (state S.Store tx.new.conn.now) (λ _. ⊥) }
{
    create_self(tx)?;
    create_ops(tx)?;
    insert_self(tx, number)
}

/// Makes both tables and the row of the node, in one transaction. Refused, with nothing made, where
/// memory is, or the disk fails, or the limit on steps is met, or where the table does not take the
/// row of the node.
pub fn found<S: Alter>(conn: &mut Connection<S>, number: NodeNumber) -> Result<(), Error>
    requires idle { conn.old.in_transaction ≡ false }
    requires blank { (state S.Store conn.old).now.schema ≡ no_schema }
    ensures clean { doubt (state S.Store conn.old).is_clean ≤ doubt
        (state S.Store conn.new).is_clean }
    ensures idle { conn.new.in_transaction ≡ false }
    ensures ok { HasCleanDisk (state S.Store conn.new) → OnOk result (Founds number
        (state S.Store conn.old) (state S.Store conn.new)) }
    ensures err { HasCleanDisk (state S.Store conn.new) → OnErr result (IsUndone
        (state S.Store conn.old) (state S.Store conn.new)) }
    ensures fails { HasCleanDisk (state S.Store conn.new) → IsTrue (state S.Store conn.old).is_open
        → IfErr result (FailsToFound number (state S.Store conn.old) (state S.Store conn.new)) }
    ensures wants { HasCleanDisk (state S.Store conn.new)
        → result ≡ Err (Error.SqliteFailure ErrorCode.OutOfMemory)
        → RunsOut (state S.Store conn.old) (state S.Store conn.new) }
    ensures survives { Survives (state S.Store conn.old) (state S.Store conn.new) (FoundsTo number
        (state S.Store conn.old)) }
{
    let mut tx = conn.transaction();
    make_tables(&mut tx, number)?;
    tx.commit()
}
