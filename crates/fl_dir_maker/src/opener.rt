//! Who opens the files of databases.
ghost use Rattle.std.specs.Prelude.{ℕ, List, IfOk, IfErr, OnOk, IsTrue};
ghost use Rattle.sqlite_wal.specs.Recovery.{Image};
ghost use Rattle.fl_dir_maker.specs.Failing.{IsOfFiles};
ghost use Rattle.fl_dir_maker.specs.Keeping.{Reads};
ghost use Rattle.fl_dir_maker.specs.Reach.{Reach};
ghost use Rattle.fl_dir_maker.specs.declared.fault.Cause.{Cause};

use crate::fault::Cause;
use sqlite::Files;
use sqlite_disk::Disk;

/// Opens the files of databases by their paths.
///
/// A contract knows how the files at a path may read from now on, also a second time while they are
/// open, and why they may not be opened: a call makes no more possible than was before.
pub trait OpensFiles {
    /// Each of the two files of a database.
    type D: Disk + Drop;

    // how the files at a path read, and why they are not opened
    ghost reach: { Reach Self };

    /// The log and the database file at this path, which are made if they are missing, and a number
    /// drawn at random for the hashes of what is kept of them in memory; or why they are not
    /// opened.
    fn open(&mut self, path: &str) -> Result<(Files<Self::D>, u64), Cause>
        ensures log { IfOk result (λ opened. IsTrue (Self.D.Disk.is_usable opened.0.log)) }
        ensures db { IfOk result (λ opened. IsTrue (Self.D.Disk.is_usable opened.0.db)) }
        ensures reads { IfOk result (λ opened.
            Reads Self.D.Disk (reach.holds self.old path.now) opened.0) }
        ensures out { OnOk result ((image : Image) → reach.holds self.new path.now image
            → reach.again image) }
        ensures files { IfErr result IsOfFiles }
        ensures fails { IfErr result (reach.fails self.old path.now) }
        ensures same_holds { (at : List ℕ) (image : Image) → reach.holds self.new at image
            → reach.holds self.old at image }
        ensures same_fails { (at : List ℕ) (cause : Cause) → reach.fails self.new at cause
            → reach.fails self.old at cause };
}
