//! Closing a keeper over files.
ghost use Rattle.std.specs.Prelude.{IsTrue, IfOk, IfErr};
ghost use Rattle.sqlite_wal.specs.Reads.{AreClean};
ghost use Rattle.fl_sql_store.specs.Closing.{HoldsKept, IsUnclosed};

use crate::sql_keeper::SqlKeeper;
use sqlite::{Error, FileStore, Files};
use sqlite_disk::Disk;

impl<D: Disk + Drop> SqlKeeper<FileStore<D>> {
    /// Copies what is kept into the database file, and gives the log and that file back. An opening
    /// of them finds what the keeper kept and nothing else, and so does one of that file alone.
    ///
    /// Refused with the error of the database where the files do not take it, or memory is wanting.
    /// Nothing that was saved is lost then: the log has it.
    pub fn close(self) -> Result<Files<D>, Error>
        ensures usable { IfOk result (λ files. IsTrue (D.Disk.is_usable files.log)
            × IsTrue (D.Disk.is_usable files.db)) }
        ensures holds { IfOk result (λ files. AreClean D.Disk files.log files.db
            → HoldsKept self files) }
        ensures fails { IfErr result (IsUnclosed self) }
    {
        match self.into_connection().close_files() {
            Ok(files) => Ok(files),
            Err((error, left)) => {
                let _files = left.close();
                Err(error)
            }
        }
    }
}
