//! The files of the host, and keepers over them.
ghost use Rattle.std.specs.Prelude.{refl};
ghost use Rattle.std.proofs.Common.{inl};
ghost use Rattle.fl_dir_maker.specs.DirMaking.{dir_making};
ghost use Rattle.fl_dir_maker.specs.Reach.{unknown};

use crate::fault::{Cause, of_files, of_system};
use crate::file::file_of;
use crate::maker::DirMaker;
use crate::opener::OpensFiles;
use fl_jobs::answer::Refusal;
use fl_labels::name::NodeNumber;
use fl_makers::maker::MakesKeepers;
use fl_sql_store::sql_keeper::SqlKeeper;
use fl_store::keeper::Keeper;
use fl_system::answer::Fault;
use sqlite::{File, FileStore, Files, Unknown};
use std::alloc::Global;
use std::hash::{BuildHasher, RandomState};
use std::io::ErrorKind;
use std::{fs, io};

/// Opens files of the host's file system.
#[derive(Clone, Copy)]
pub struct HostFiles<'a> {
    rt: &'a HostRuntime,
}

impl<'a> HostFiles<'a> {
    /// All files that this process may open.
    pub fn new(rt: &'a HostRuntime) -> HostFiles<'a> {
        HostFiles { rt }
    }
}

impl<'a> OpensFiles for HostFiles<'a> {
    type D = File;

    // what is on a disk is not known
    ghost reach = { unknown };

    /// The files at this path, which this process alone has open, and which are made if they are
    /// missing.
    ///
    /// Refused with `Memory`, with `Files` where another process has them open or SQLite left a
    /// journal, and with `System` where the system refuses.
    fn open(&mut self, path: &str) -> Result<(Files<File>, u64), Cause> {
        let files = match sqlite_std_file::open(self.rt, path, Unknown) {
            Ok(files) => files,
            Err(error) => return Err(of_files(error)),
        };
        match RandomState::new(self.rt) {
            Ok(state) => Ok((files, state.hash_one(&0u8))),
            Err(error) => Err(of_system(error)),
        }
    }
}

/// What is missing where a database is to be opened.
#[derive(Clone, Copy)]
enum Missing {
    Nothing,
    /// The database, or all of its bytes.
    Database,
    /// Its log.
    Log,
}

/// Whether a file was not found for this error.
pub fn is_missing(error: &io::Error) -> bool {
    matches!(error.kind(), ErrorKind::NotFound | ErrorKind::NotADirectory)
}

/// The path of the log of the database at this path, which may be missing. It stands beside the
/// file itself, where the path is a link to it. Refused where the system does not tell where that
/// is, or there is not enough memory.
pub fn log_of(rt: &HostRuntime, path: &str) -> io::Result<String> {
    match fs::canonicalize(rt, path) {
        Ok(real) => Ok(format!(in rt.alloc(); "{}-wal", real.as_str())?),
        Err(error) if is_missing(&error) => Ok(format!(in rt.alloc(); "{path}-wal")?),
        Err(error) => Err(error),
    }
}

// Whether there is a file at the path, and has some bytes. Where the system does not tell, it is
// taken to be so.
fn has_some(rt: &HostRuntime, path: &str) -> bool {
    match fs::metadata(rt, path) {
        Ok(found) => found.len() > 0,
        Err(error) => !is_missing(&error),
    }
}

// Whether there is a log of the database at the path.
fn has_log(rt: &HostRuntime, path: &str) -> io::Result<bool> {
    let log = log_of(rt, path)?;
    match fs::metadata(rt, log.as_str()) {
        Ok(_) => Ok(true),
        Err(error) => Ok(!is_missing(&error)),
    }
}

// What is missing at this path.
fn missing_at(rt: &HostRuntime, path: &str) -> Missing {
    if !has_some(rt, path) {
        return Missing::Database;
    }
    match has_log(rt, path) {
        Ok(false) => Missing::Log,
        Ok(true) | Err(_) => Missing::Nothing,
    }
}

// Says on standard error what was missing at this path.
fn tell_missing(rt: &HostRuntime, path: &str, missing: Missing) {
    let what = match missing {
        Missing::Nothing => return,
        Missing::Database => "a new database",
        Missing::Log => "its log is missing: what was saved last may be lost",
    };
    let _ = eprintln!(rt; "flume-tags: {path}: {what}");
}

/// Makes keepers over the files of a directory of the host, as [`DirMaker`] does over
/// [`HostFiles`]. A program calls what is generic over makers at this type, whose keepers it can
/// name.
#[derive(Drop)]
pub struct HostMaker<'a> {
    maker: DirMaker<'a, HostFiles<'a>>,
}

impl<'a> HostMaker<'a> {
    /// A maker over the directory of this path, which is not opened yet.
    pub fn new(rt: &'a HostRuntime, dir: &'a str) -> HostMaker<'a> {
        HostMaker {
            maker: DirMaker::new(rt, HostFiles::new(rt), dir),
        }
    }
}

impl<'a> MakesKeepers for HostMaker<'a> {
    type K = SqlKeeper<FileStore<File>>;

    ghost making = { dir_making ⟦<SqlKeeper<FileStore<File>> as Keeper>⟧.custody unknown
        (λ host. host.maker.opener) (λ host. host.maker.dir.now) };

    ghost told = { λ _ _ _ why. inl why };

    /// The keeper over the node's file, as [`DirMaker`] makes it. Where one is made, and the
    /// database was not there before, or its log was not, standard error says so.
    fn make(
        &mut self,
        alloc: Global,
        number: NodeNumber,
    ) -> Result<SqlKeeper<FileStore<File>>, Fault> {
        let HostMaker { maker } = self;
        let Ok(path) = file_of(alloc, maker.dir, number) else {
            return Err(Fault::Refused(Refusal::Memory));
        };
        let missing = missing_at(maker.rt, path.as_str());
        let made = maker.make(alloc, number);
        if made.is_ok() {
            tell_missing(maker.rt, path.as_str(), missing);
        }
        made
    }

    /// Lets the keeper go, as [`DirMaker`] does.
    fn take_back(&mut self, number: NodeNumber, keeper: SqlKeeper<FileStore<File>>, fault: Fault) {
        let HostMaker { maker } = self;
        maker.take_back(number, keeper, fault);
    }

    /// Closes the keeper, as [`DirMaker`] does.
    fn close(&mut self, number: NodeNumber, keeper: SqlKeeper<FileStore<File>>) {
        let HostMaker { maker } = self;
        maker.close(number, keeper);
    }
}
