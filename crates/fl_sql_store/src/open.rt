//! Opening a keeper over a database.
ghost use Rattle.std.specs.Prelude.{◌≡◌, ◌<◌, ◌≤◌, ◌⊎◌, ◌↔◌, false, IfOk, IfErr, OnOk, OnErr, Err};
ghost use Rattle.fl_labels.specs.SetBy as set;
ghost use Rattle.fl_store.specs.Kept.{HasNamesOnce};
ghost use Rattle.sqlite.specs.Held.{state};
ghost use Rattle.sqlite.specs.State.{HasCleanDisk, IsLive, IsUnchanged, Survives};
ghost use Rattle.fl_sql_tables.specs.Tables.{keeper_schema, no_schema};
ghost use Rattle.fl_store.specs.Keeping.{Stays};
ghost use Rattle.sqlite.specs.View.{doubt};
ghost use Rattle.fl_sql_tables.specs.Stored.{HasBadRow, ops_in};
ghost use Rattle.fl_sql_tables.specs.Serving.{IsReady, IsServing};
ghost use Rattle.fl_sql_tables.specs.Founding.{Founds, FoundsTo, IsOwnIn, IsOthers, IsSettled};
ghost use Rattle.fl_sql_tables.specs.Migrating.{IsFormer, Migrates, MigratesTo};
ghost use Rattle.fl_sql_store.specs.SqlKeeping.{held_in};
ghost use Rattle.fl_sql_store.specs.Opening.{IsFailure, FailsToShowItself, OpensAs, OpensTo};
ghost use Rattle.fl_sql_store.specs.Opening.{RefusesToServe, RefusesToRewrite, RefusesToOpen};
ghost use Rattle.fl_sql_store.specs.Opening.{Rewrites, RewritesTo};
ghost use Rattle.fl_sql_store.specs.Opening.{IsNotThere, OpensThere, RefusesThere};

use crate::there::NotThere;
use fl_labels::name::NodeNumber;
use fl_ops::format::Format;
use fl_ops::op::Op;
use fl_opset::set::OpSet;
use fl_sql_tables::found::found;
use fl_sql_tables::itself::{Itself, read_itself};
use fl_sql_tables::load::{LoadFault, load_ops};
use fl_sql_tables::migrate::migrate;
use fl_sql_tables::ours::{is_nothing, is_ours};
use fl_store::keeper::KeeperFault;
use sqlite::{Alter, Connection, Error, ErrorCode};
use std::alloc::{AllocError, Global};

// What an error comes to as a keeper is opened.
fn refusal(error: Error) -> KeeperFault
    ensures either { (result ≡ KeeperFault.Memory) ⊎ (result ≡ KeeperFault.Broken) }
    ensures want { result ≡ KeeperFault.Memory
        → error ≡ Error.SqliteFailure ErrorCode.OutOfMemory }
    ensures failure { result ≡ KeeperFault.Broken → IsFailure error }
{
    match error {
        Error::SqliteFailure(ErrorCode::OutOfMemory) => KeeperFault::Memory,
        _ => KeeperFault::Broken,
    }
}

// Makes the tables in a database that has none.
fn found_on<S: Alter>(conn: &mut Connection<S>, number: NodeNumber) -> Result<(), KeeperFault>
    requires idle { conn.old.in_transaction ≡ false }
    requires blank { (state S.Store conn.old).now.schema ≡ no_schema }
    requires live { IsLive (state S.Store conn.old) }
    requires settled { IsSettled (state S.Store conn.old) }
    ensures idle { conn.new.in_transaction ≡ false }
    ensures either { IfErr result (λ e. (e ≡ KeeperFault.Memory) ⊎ (e ≡ KeeperFault.Broken)) }
    ensures refuses { HasCleanDisk (state S.Store conn.new) → IfErr result
        (RefusesToServe number (state S.Store conn.old) (state S.Store conn.new)) }
    ensures founds { HasCleanDisk (state S.Store conn.new)
        → OnOk result (Founds number (state S.Store conn.old) (state S.Store conn.new)) }
    ensures ready { HasCleanDisk (state S.Store conn.new)
        → OnOk result (IsReady number (state S.Store conn.new)) }
    ensures held { HasCleanDisk (state S.Store conn.new)
        → Stays (held_in number (state S.Store conn.old))
        (held_in number (state S.Store conn.new)) }
    ensures leaves { Survives (state S.Store conn.old) (state S.Store conn.new)
        (FoundsTo number (state S.Store conn.old)) }
{
    match found(conn, number) {
        Ok(()) => Ok(()),
        Err(error) => Err(refusal(error)),
    }
}

// Reads whose a database is that has the tables, and in which format.
fn itself_on<S: Alter>(conn: &mut Connection<S>, number: NodeNumber) -> Result<Format, KeeperFault>
    requires idle { conn.old.in_transaction ≡ false }
    requires ours { (state S.Store conn.old).now.schema ≡ keeper_schema }
    requires live { IsLive (state S.Store conn.old) }
    requires settled { IsSettled (state S.Store conn.old) }
    ensures idle { conn.new.in_transaction ≡ false }
    ensures own { HasCleanDisk (state S.Store conn.new)
        → IfOk result (λ format. IsOwnIn format number ((state S.Store conn.old).now.trees 0)) }
    ensures same { HasCleanDisk (state S.Store conn.new)
        → OnOk result (IsUnchanged (state S.Store conn.old) (state S.Store conn.new)) }
    ensures ready { HasCleanDisk (state S.Store conn.new)
        → OnOk result (IsReady number (state S.Store conn.new)) }
    ensures refuses { HasCleanDisk (state S.Store conn.new) → IfErr result
        (RefusesToServe number (state S.Store conn.old) (state S.Store conn.new)) }
    ensures survives { Survives (state S.Store conn.old) (state S.Store conn.new) (λ _. ⊥) }
{
    match read_itself(conn, number) {
        Ok(Itself::Own(format)) => Ok(format),
        Ok(Itself::Other) => Err(KeeperFault::WrongNode),
        Ok(Itself::Bad) => Err(KeeperFault::BadRow),
        Err(error) => Err(refusal(error)),
    }
}

// The operations of a database of the first format.
fn former_ops<S: Alter>(
    alloc: Global,
    conn: &mut Connection<S>,
    number: NodeNumber,
) -> Result<OpSet, KeeperFault>
    requires idle { conn.old.in_transaction ≡ false }
    requires serving { IsServing number (state S.Store conn.old) }
    ensures idle { conn.new.in_transaction ≡ false }
    ensures names { IfOk result HasNamesOnce }
    ensures ok { HasCleanDisk (state S.Store conn.new)
        → IfOk result (λ ops. ops ≡ ops_in ((state S.Store conn.old).now.trees 1)) }
    ensures good { HasCleanDisk (state S.Store conn.new)
        → OnOk result (¬ HasBadRow ((state S.Store conn.old).now.trees 1)) }
    ensures same { HasCleanDisk (state S.Store conn.new)
        → OnOk result (IsUnchanged (state S.Store conn.old) (state S.Store conn.new)) }
    ensures refuses { HasCleanDisk (state S.Store conn.new) → IfErr result
        (RefusesToRewrite (state S.Store conn.old) (state S.Store conn.new)) }
    ensures survives { Survives (state S.Store conn.old) (state S.Store conn.new) (λ _. ⊥) }
{
    match load_ops(alloc, conn, number) {
        Ok(ops) => Ok(ops),
        Err(LoadFault::BadRow) => Err(KeeperFault::BadRow),
        Err(LoadFault::Memory) => Err(KeeperFault::Memory),
        Err(LoadFault::Failed(error)) => Err(refusal(error)),
    }
}

// The operations of a set in one piece. None take no memory.
fn in_one_piece(alloc: Global, ops: &OpSet) -> Result<Vec<Op>, AllocError>
    ensures ok { IfOk result (λ all. all.items ≡ set.members ops.now) }
    ensures some { OnErr result (0 < set.len ops.now) }
{
    if ops.is_empty() {
        return Ok(Vec::new(alloc));
    }
    ops.to_vec(alloc)
}

// Writes these operations, which the database has, in the second format.
fn migrate_with<S: Alter>(
    alloc: Global,
    conn: &mut Connection<S>,
    number: NodeNumber,
    ops: &[Op],
) -> Result<(), KeeperFault>
    requires idle { conn.old.in_transaction ≡ false }
    requires former { IsFormer number (state S.Store conn.old) }
    ensures idle { conn.new.in_transaction ≡ false }
    ensures ok { HasCleanDisk (state S.Store conn.new) → OnOk result
        (Migrates number ops.now (state S.Store conn.old) (state S.Store conn.new)) }
    ensures refuses { HasCleanDisk (state S.Store conn.new) → IfErr result
        (RefusesToRewrite (state S.Store conn.old) (state S.Store conn.new)) }
    ensures survives { Survives (state S.Store conn.old)
        (state S.Store conn.new) (MigratesTo number ops.now (state S.Store conn.old).now) }
{
    match migrate(alloc, conn, number, ops) {
        Ok(()) => Ok(()),
        Err(error) => Err(refusal(error)),
    }
}

// Rewrites this node's database of the first format in the second. Copies the operations into one
// piece.
fn migrate_on<S: Alter>(
    alloc: Global,
    conn: &mut Connection<S>,
    number: NodeNumber,
) -> Result<(), KeeperFault>
    requires idle { conn.old.in_transaction ≡ false }
    requires former { IsFormer number (state S.Store conn.old) }
    ensures clean { doubt (state S.Store conn.old).is_clean ≤ doubt
        (state S.Store conn.new).is_clean }
    ensures idle { conn.new.in_transaction ≡ false }
    ensures rewrites { HasCleanDisk (state S.Store conn.new) → OnOk result
        (Rewrites number (state S.Store conn.old) (state S.Store conn.new)) }
    ensures ready { HasCleanDisk (state S.Store conn.new)
        → OnOk result (IsReady number (state S.Store conn.new)) }
    ensures refuses { HasCleanDisk (state S.Store conn.new) → IfErr result
        (RefusesToRewrite (state S.Store conn.old) (state S.Store conn.new)) }
    ensures held { HasCleanDisk (state S.Store conn.new)
        → Stays (held_in number (state S.Store conn.old))
        (held_in number (state S.Store conn.new)) }
    ensures leaves { Survives (state S.Store conn.old) (state S.Store conn.new)
        (RewritesTo number (state S.Store conn.old)) }
{
    match former_ops(alloc, conn, number) {
        Ok(former) => {
            let Ok(ops) = in_one_piece(alloc, &former) else {
                return Err(KeeperFault::Memory);
            };
            migrate_with(alloc, conn, number, &ops)
        }
        Err(fault) => Err(fault),
    }
}

// Opens a database that has the tables.
fn own_on<S: Alter>(
    alloc: Global,
    conn: &mut Connection<S>,
    number: NodeNumber,
) -> Result<(), KeeperFault>
    requires idle { conn.old.in_transaction ≡ false }
    requires ours { (state S.Store conn.old).now.schema ≡ keeper_schema }
    requires live { IsLive (state S.Store conn.old) }
    requires settled { IsSettled (state S.Store conn.old) }
    ensures idle { conn.new.in_transaction ≡ false }
    ensures ready { HasCleanDisk (state S.Store conn.new)
        → OnOk result (IsReady number (state S.Store conn.new)) }
    ensures opens { HasCleanDisk (state S.Store conn.new)
        → OnOk result (OpensThere number (state S.Store conn.old) (state S.Store conn.new)) }
    ensures refuses { HasCleanDisk (state S.Store conn.new) → IfErr result
        (RefusesToOpen number (state S.Store conn.old) (state S.Store conn.new)) }
    ensures held { HasCleanDisk (state S.Store conn.new)
        → Stays (held_in number (state S.Store conn.old))
        (held_in number (state S.Store conn.new)) }
    ensures leaves { Survives (state S.Store conn.old) (state S.Store conn.new)
        (RewritesTo number (state S.Store conn.old)) }
{
    match itself_on(conn, number) {
        Ok(Format::Two) => Ok(()),
        Ok(Format::One) => migrate_on(alloc, conn, number),
        Err(fault) => Err(fault),
    }
}

/// Whether the database, which is to be there, can be this node's. One of the first format is
/// rewritten in the second. One that has no tables is not looked at any further.
pub fn check_there<S: Alter>(
    alloc: Global,
    conn: &mut Connection<S>,
    number: NodeNumber,
) -> Result<(), NotThere>
    ensures idle { OnOk result (conn.new.in_transaction ≡ false) }
    ensures same { conn.old.in_transaction ≡ false → conn.new.in_transaction ≡ false }
    ensures empty { IsNotThere (state S.Store conn.old) ↔ (result ≡ Err NotThere.Empty) }
    ensures unread { result ≡ Err NotThere.Empty → conn.new ≡ conn.old }
    ensures live { result ≡ Err NotThere.Empty → IsLive (state S.Store conn.new) }
    ensures settled { result ≡ Err NotThere.Empty → IsSettled (state S.Store conn.new) }
    ensures ready { HasCleanDisk (state S.Store conn.new)
        → OnOk result (IsReady number (state S.Store conn.new)) }
    ensures opens { HasCleanDisk (state S.Store conn.new)
        → OnOk result (OpensThere number (state S.Store conn.old) (state S.Store conn.new)) }
    ensures refuses { HasCleanDisk (state S.Store conn.new) → IfErr result
        (RefusesThere number (state S.Store conn.old) (state S.Store conn.new)) }
    ensures held { HasCleanDisk (state S.Store conn.new)
        → Stays (held_in number (state S.Store conn.old))
        (held_in number (state S.Store conn.new)) }
    ensures leaves { Survives (state S.Store conn.old) (state S.Store conn.new)
        (RewritesTo number (state S.Store conn.old)) }
{
    if !conn.is_autocommit() {
        return Err(NotThere::Refused(KeeperFault::Broken));
    }
    if is_nothing(conn.schema()) {
        return Err(NotThere::Empty);
    }
    if !is_ours(conn.schema()) {
        return Err(NotThere::Refused(KeeperFault::BadRow));
    }
    match own_on(alloc, conn, number) {
        Ok(()) => Ok(()),
        Err(fault) => Err(NotThere::Refused(fault)),
    }
}

/// Whether the database can be this node's. One that has no tables gets them, and one of the first
/// format is rewritten in the second.
pub fn check<S: Alter>(
    alloc: Global,
    conn: &mut Connection<S>,
    number: NodeNumber,
) -> Result<(), KeeperFault>
    ensures idle { OnOk result (conn.new.in_transaction ≡ false) }
    ensures same { conn.old.in_transaction ≡ false → conn.new.in_transaction ≡ false }
    ensures ready { HasCleanDisk (state S.Store conn.new)
        → OnOk result (IsReady number (state S.Store conn.new)) }
    ensures opens { HasCleanDisk (state S.Store conn.new)
        → OnOk result (OpensAs number (state S.Store conn.old) (state S.Store conn.new)) }
    ensures refuses { HasCleanDisk (state S.Store conn.new) → IfErr result
        (RefusesToOpen number (state S.Store conn.old) (state S.Store conn.new)) }
    ensures held { HasCleanDisk (state S.Store conn.new)
        → Stays (held_in number (state S.Store conn.old))
        (held_in number (state S.Store conn.new)) }
    ensures leaves { Survives (state S.Store conn.old) (state S.Store conn.new)
        (OpensTo number (state S.Store conn.old)) }
{
    match check_there(alloc, conn, number) {
        Ok(()) => Ok(()),
        Err(NotThere::Empty) => found_on(conn, number),
        Err(NotThere::Refused(fault)) => Err(fault),
    }
}
