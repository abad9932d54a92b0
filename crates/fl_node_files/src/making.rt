//! Making a node in files.
ghost use Rattle.std.specs.Prelude.{◌≡◌, false, ℕ, List, IfOk, IfErr, IsTrue, OnOk};
ghost use Rattle.sqlite_wal.specs.Reads.{AreClean};
ghost use Rattle.sqlite_wal.specs.Recovery.{Image};
ghost use Rattle.sqlite.specs.Closing.{IsCopied};
ghost use Rattle.sqlite.specs.Held.{state};
ghost use Rattle.sqlite.specs.State.{HasCleanDisk, IsUnchanged, Survives};
ghost use Rattle.fl_sql_tables.specs.Serving.{IsServing};
ghost use Rattle.fl_sql_tables.specs.Stored.{HasSelf};
ghost use Rattle.fl_dir_maker.specs.declared.fault.Cause.{Cause};
ghost use Rattle.fl_node_files.specs.Making.{IsMade, IsNodeOver, IsNotNew, IsUnmade, IsUnmerged};

use crate::fault::{Unserved, of_cause, of_error};
use fl_dir_maker::fault::of_keeper;
use fl_dir_maker::opener::OpensFiles;
use fl_dir_maker::opening::connect;
use fl_labels::name::NodeNumber;
use fl_sql_store::sql_keeper::SqlKeeper;
use fl_sql_tables::boot::read_boot;
use sqlite::{Alter, Connection, FileStore, Files};
use sqlite_disk::Disk;
use std::alloc::Global;

// The node's database of the files at a path. Where it has no table it gets them, with boot 0.
fn found<O: OpensFiles>(
    opener: &mut O,
    alloc: Global,
    path: &str,
    number: NodeNumber,
) -> Result<Connection<FileStore<O::D>>, Unserved>
    ensures idle { IfOk result (λ conn. conn.in_transaction ≡ false) }
    ensures node { IfOk result (IsNodeOver (O.reach.holds opener.old path.now) number) }
    ensures unmade { IfErr result (IsUnmade O.D.Disk
        (O.reach.holds opener.old path.now) (O.reach.fails opener.old path.now) number) }
    ensures same_holds { (at : List ℕ) (image : Image) → O.reach.holds opener.new at image
        → O.reach.holds opener.old at image }
    ensures same_fails { (at : List ℕ) (cause : Cause) → O.reach.fails opener.new at cause
        → O.reach.fails opener.old at cause }
{
    let conn = match connect(opener, alloc, path) {
        Ok(conn) => conn,
        Err(cause) => return Err(of_cause(cause)),
    };
    match SqlKeeper::open(alloc, conn, number) {
        Ok(keeper) => Ok(keeper.into_connection()),
        Err((fault, _conn)) => Err(of_cause(of_keeper(fault))),
    }
}

// Refuses a database of the node that was opened before.
fn require_new<S: Alter>(conn: &mut Connection<S>, number: NodeNumber) -> Result<(), Unserved>
    requires idle { conn.old.in_transaction ≡ false }
    requires serving { IsServing number (state S.Store conn.old) }
    ensures new { HasCleanDisk (state S.Store conn.new)
        → OnOk result (HasSelf number 0 ((state S.Store conn.old).now.trees 0)) }
    ensures same { HasCleanDisk (state S.Store conn.new)
        → OnOk result (IsUnchanged (state S.Store conn.old) (state S.Store conn.new)) }
    ensures refuses { HasCleanDisk (state S.Store conn.new) → IfErr result
        (IsNotNew number (state S.Store conn.old) (state S.Store conn.new)) }
    ensures survives { Survives (state S.Store conn.old) (state S.Store conn.new) (λ _. ⊥) }
{
    match read_boot(conn, number) {
        Ok(0) => Ok(()),
        Ok(_) => Err(Unserved::ThereAlready),
        Err(error) => Err(of_error(error)),
    }
}

// Copies the log into the database file, and gives both back.
fn merge<D: Disk + Drop>(conn: Connection<FileStore<D>>) -> Result<Files<D>, Unserved>
    ensures usable { IfOk result (λ files. IsTrue (D.Disk.is_usable files.log)
        × IsTrue (D.Disk.is_usable files.db)) }
    ensures copied { IfOk result (λ files. AreClean D.Disk files.log files.db
        → IsCopied conn files) }
    ensures unmerged { IfErr result (IsUnmerged conn) }
{
    match conn.close_files() {
        Ok(files) => Ok(files),
        Err((error, left)) => {
            let _files = left.close();
            Err(of_error(error))
        }
    }
}

/// Makes the node in the files at a path, which are made if they are missing, with boot 0, and
/// copies the log into the database file. Gives both files back. What a making that was stopped
/// left there, with tables or without, is finished.
///
/// - `ThereAlready`: the node is kept there, and was opened.
/// - `WrongNode`: another node is.
/// - `Foreign`: the database has other tables than a keeper's, or not one row of the node that a
///   keeper writes; or it is in the first format, and has a bad row.
/// - `Damaged`, `InUse`, `Journal`, `System`, `Failed`, `Memory`: it was not opened, by
///   [`connect`]; or its boot was not read, or its log not copied.
/// - `Broken`: it failed as it was opened.
pub fn make<O: OpensFiles>(
    opener: &mut O,
    alloc: Global,
    path: &str,
    number: NodeNumber,
) -> Result<Files<O::D>, Unserved>
    ensures usable { IfOk result (λ files. IsTrue (O.D.Disk.is_usable files.log)
        × IsTrue (O.D.Disk.is_usable files.db)) }
    ensures made { IfOk result (λ files. AreClean O.D.Disk files.log files.db
        → IsMade O.D.Disk (O.reach.holds opener.old path.now) number files) }
    ensures unmade { IfErr result (IsUnmade O.D.Disk
        (O.reach.holds opener.old path.now) (O.reach.fails opener.old path.now) number) }
    ensures same_holds { (at : List ℕ) (image : Image) → O.reach.holds opener.new at image
        → O.reach.holds opener.old at image }
    ensures same_fails { (at : List ℕ) (cause : Cause) → O.reach.fails opener.new at cause
        → O.reach.fails opener.old at cause }
{
    let mut conn = match found(opener, alloc, path, number) {
        Ok(conn) => conn,
        Err(why) => return Err(why),
    };
    match require_new(&mut conn, number) {
        Ok(()) => merge(conn),
        Err(why) => Err(why),
    }
}
