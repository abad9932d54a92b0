//! Opening a keeper over files that are there.
ghost use Rattle.std.specs.Prelude.{ℕ, List, IfOk, IfErr, OnOk};
ghost use Rattle.sqlite_wal.specs.Recovery.{Image};
ghost use Rattle.fl_dir_maker.specs.Keeping.{IsKeeperOver};
ghost use Rattle.fl_dir_maker.specs.declared.fault.Cause.{Cause};
ghost use Rattle.fl_node_files.specs.Serving.{IsThere, IsUnserved};

use crate::fault::{Unserved, of_cause, of_there};
use fl_dir_maker::opener::OpensFiles;
use fl_dir_maker::opening::connect;
use fl_labels::name::NodeNumber;
use fl_sql_store::sql_keeper::SqlKeeper;
use sqlite::FileStore;
use std::alloc::Global;

/// The keeper of this node over the files at a path, which are to be there. It is not broken. No
/// table is made: a database without one is refused.
///
/// - `NoneThere`: the database has no table.
/// - `WrongNode`: it is another node's.
/// - `Foreign`: it has other tables than a keeper's, or not one row of the node that a keeper
///   writes; or it is in the first format, and has a bad row.
/// - `Damaged`, `InUse`, `Journal`, `System`, `Failed`, `Memory`: it was not opened, by
///   [`connect`], or there was no memory.
/// - `Broken`: it failed as it was read.
pub fn open_there<O: OpensFiles>(
    opener: &mut O,
    alloc: Global,
    path: &str,
    number: NodeNumber,
) -> Result<SqlKeeper<FileStore<O::D>>, Unserved>
    ensures keeper { IfOk result (IsKeeperOver
        (O.reach.holds opener.old path.now) number) }
    ensures there { OnOk result (IsThere O.D.Disk (O.reach.holds opener.old path.now)) }
    ensures unserved { IfErr result (IsUnserved O.D.Disk
        (O.reach.holds opener.old path.now) (O.reach.fails opener.old path.now) number) }
    ensures same_holds { (at : List ℕ) (image : Image) → O.reach.holds opener.new at image
        → O.reach.holds opener.old at image }
    ensures same_fails { (at : List ℕ) (cause : Cause) → O.reach.fails opener.new at cause
        → O.reach.fails opener.old at cause }
{
    let conn = match connect(opener, alloc, path) {
        Ok(conn) => conn,
        Err(cause) => return Err(of_cause(cause)),
    };
    match SqlKeeper::open_there(alloc, conn, number) {
        Ok(keeper) => Ok(keeper),
        Err((why, _conn)) => Err(of_there(why)),
    }
}
