//! Why no keeper was opened.
ghost use Rattle.std.specs.Prelude.{◌≡◌};
ghost use Rattle.fl_dir_maker.specs.Failing.{fault_of, cause_of, database_cause};
ghost use Rattle.fl_dir_maker.specs.Failing.{IsOfFiles, system_cause, files_cause};

use fl_jobs::answer::Refusal;
use fl_store::keeper::KeeperFault;
use fl_system::answer::Fault;
use sqlite_std_file::OpenError;
use std::io;
use std::io::ErrorKind;
use thiserror::Error;

/// Why no keeper was opened over a file.
#[derive(Debug, Drop, Error)]
pub enum Cause {
    /// There was not enough memory.
    #[error("out of memory")]
    Memory,
    /// The system did not open the file or its log, or did not draw a number at random.
    #[error("{0}")]
    System(io::Error),
    /// Another process has the file open, or it has a journal that SQLite left.
    #[error("{0}")]
    Files(OpenError),
    /// The file is no database that can be read.
    #[error("{0}")]
    Database(sqlite::Error),
    /// The database is another node's.
    #[error("another node is kept there")]
    WrongNode,
    /// The database has other tables or rows than a keeper's.
    #[error("no node is kept there")]
    BadRow,
    /// The database failed as it was read or written.
    #[error("the database failed")]
    Broken,
}

impl Cause {
    /// What a node is answered.
    pub fn fault(&self) -> Fault
        ensures { result ≡ fault_of self.now }
    {
        match self {
            Cause::Memory => Fault::Refused(Refusal::Memory),
            Cause::WrongNode => Fault::WrongNode,
            Cause::System(_)
            | Cause::Files(_)
            | Cause::Database(_)
            | Cause::BadRow
            | Cause::Broken => Fault::KeeperFailed,
        }
    }
}

/// What the system's refusal comes to.
pub fn of_system(error: io::Error) -> Cause
    ensures cause { result ≡ system_cause error }
    ensures files { IsOfFiles result }
{
    match error.kind() {
        ErrorKind::OutOfMemory => Cause::Memory,
        _ => Cause::System(error),
    }
}

/// What a refusal to open the file or its log comes to.
pub fn of_files(error: OpenError) -> Cause
    ensures cause { result ≡ files_cause error }
    ensures files { IsOfFiles result }
{
    match error {
        OpenError::OutOfMemory => Cause::Memory,
        OpenError::Io(error) => of_system(error),
        other => Cause::Files(other),
    }
}

/// What a refusal to open the database comes to.
pub fn of_database(error: sqlite::Error) -> Cause
    ensures { result ≡ database_cause error }
{
    match error {
        sqlite::Error::SqliteFailure(sqlite::ErrorCode::OutOfMemory) => Cause::Memory,
        other => Cause::Database(other),
    }
}

/// What a refusal to open the keeper comes to.
pub fn of_keeper(fault: KeeperFault) -> Cause
    ensures { result ≡ cause_of fault }
{
    match fault {
        KeeperFault::Memory => Cause::Memory,
        KeeperFault::WrongNode => Cause::WrongNode,
        KeeperFault::BadRow => Cause::BadRow,
        KeeperFault::Broken | KeeperFault::NamesSpent => Cause::Broken,
    }
}
