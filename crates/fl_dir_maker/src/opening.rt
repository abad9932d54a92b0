//! Opening a keeper over files.
ghost use Rattle.std.specs.Prelude.{ℕ, List, IfOk, IfErr, OnOk};
ghost use Rattle.sqlite_wal.specs.Recovery.{Image};
ghost use Rattle.fl_dir_maker.specs.Keeping.{Connects, IsKeeperOver, IsUnconnected, IsUnopened};
ghost use Rattle.fl_dir_maker.specs.declared.fault.Cause.{Cause};

use crate::fault::{Cause, of_database, of_keeper};
use crate::opener::OpensFiles;
use fl_labels::name::NodeNumber;
use fl_sql_store::sql_keeper::SqlKeeper;
use sqlite::{Connection, FileStore, Options};
use std::alloc::Global;

// How many pages of a file are kept in memory. A node reads all of it once, and then adds to it.
const CACHE_PAGES: usize = 64;

/// The database of the files at a path, which are made if they are missing.
///
/// Refused with the cause that the opener gives; with `Database` where the files are no database, or
/// are not read or written; and with `Memory`.
pub fn connect<O: OpensFiles>(
    opener: &mut O,
    alloc: Global,
    path: &str,
) -> Result<Connection<FileStore<O::D>>, Cause>
    ensures connects { IfOk result (Connects (O.reach.holds opener.old path.now)) }
    ensures out { OnOk result ((image : Image) → O.reach.holds opener.new path.now image
        → O.reach.again image) }
    ensures unconnected { IfErr result (IsUnconnected O.D.Disk
        (O.reach.holds opener.old path.now) (O.reach.fails opener.old path.now)) }
    ensures same_holds { (at : List ℕ) (image : Image) → O.reach.holds opener.new at image
        → O.reach.holds opener.old at image }
    ensures same_fails { (at : List ℕ) (cause : Cause) → O.reach.fails opener.new at cause
        → O.reach.fails opener.old at cause }
{
    let (files, seed) = match opener.open(path) {
        Ok(opened) => opened,
        Err(cause) => return Err(cause),
    };
    let options = Options {
        cache_pages: CACHE_PAGES,
        ..Options::new(seed)
    };
    match Connection::open_files(alloc, files, options) {
        Ok(conn) => Ok(conn),
        Err((error, _left)) => Err(of_database(error)),
    }
}

/// The keeper of this node over the files at a path, which are made if they are missing. It is not
/// broken.
///
/// Refused with the cause that the opener gives; with `Database` where the files are no database;
/// with `WrongNode` where they are another node's; with `BadRow` where they have other tables or
/// rows than a keeper's; with `Memory`; and with `Broken` where the database fails.
pub fn open<O: OpensFiles>(
    opener: &mut O,
    alloc: Global,
    path: &str,
    number: NodeNumber,
) -> Result<SqlKeeper<FileStore<O::D>>, Cause>
    ensures keeper { IfOk result (IsKeeperOver
        (O.reach.holds opener.old path.now) number) }
    ensures out { OnOk result ((image : Image) → O.reach.holds opener.new path.now image
        → O.reach.again image) }
    ensures unopened { IfErr result (IsUnopened O.D.Disk
        (O.reach.holds opener.old path.now) (O.reach.fails opener.old path.now) number) }
    ensures same_holds { (at : List ℕ) (image : Image) → O.reach.holds opener.new at image
        → O.reach.holds opener.old at image }
    ensures same_fails { (at : List ℕ) (cause : Cause) → O.reach.fails opener.new at cause
        → O.reach.fails opener.old at cause }
{
    let conn = match connect(opener, alloc, path) {
        Ok(conn) => conn,
        Err(cause) => return Err(cause),
    };
    match SqlKeeper::open(alloc, conn, number) {
        Ok(keeper) => Ok(keeper),
        Err((fault, _conn)) => Err(of_keeper(fault)),
    }
}
