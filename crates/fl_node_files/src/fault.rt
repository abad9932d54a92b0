//! Why a node is not served, or not made.
ghost use Rattle.std.specs.Prelude.{◌≡◌};
ghost use Rattle.fl_node_files.specs.Unserving.{error_unserved, files_unserved, status_of};
ghost use Rattle.fl_node_files.specs.Unserving.{cause_unserved, refused_unserved, there_unserved};

use fl_dir_maker::fault::{Cause, of_keeper};
use fl_jobs::answer::Refusal;
use fl_sql_store::there::NotThere;
use fl_system::answer::Fault;
use sqlite::ErrorCode;
use sqlite_std_file::OpenError;
use std::io;
use thiserror::Error;

/// Why a node is not served from its files, or not made.
#[derive(Debug, Drop, Error)]
pub enum Unserved {
    /// No node is kept there.
    #[error("no node is kept there")]
    NoneThere,
    /// The directory in which it is to be made is not there.
    #[error("its directory is not there")]
    NoDirectory,
    /// A node is kept there, which was opened before.
    #[error("it is there already")]
    ThereAlready,
    /// There is a database, and no log of it.
    #[error("its log is missing, and perhaps what was saved last: where sqlite3 took it away as it closed, make an empty file of this name with -wal behind it")]
    LogMissing,
    /// There is a log with pages in it, and no database.
    #[error("it is missing or empty, and its log is not")]
    LogAlone,
    /// Another node is kept there.
    #[error("another node is kept there")]
    WrongNode,
    /// It is no database of a node, or one in a format that this program does not know.
    #[error("it is no node's, or in a format that this program does not know")]
    Foreign,
    /// It is no database, or a damaged one.
    #[error("{0}")]
    Damaged(sqlite::Error),
    /// SQLite left a journal beside it, which only SQLite can play back.
    #[error("it has a rollback journal: open it with sqlite3 first")]
    Journal,
    /// One of its rows is no operation that a keeper writes.
    #[error("a row of it is damaged")]
    BadRow,
    /// No boot is left.
    #[error("it was opened 4294967295 times")]
    BootsSpent,
    /// Another process has it open.
    #[error("it is in use")]
    InUse,
    /// The system did not open or make a file, or did not draw a number at random.
    #[error("{0}")]
    System(io::Error),
    /// There was not enough memory.
    #[error("out of memory")]
    Memory,
    /// The database failed as it was read or written.
    #[error("the database failed: {0}")]
    Failed(sqlite::Error),
    /// The same, for a cause that is not known.
    #[error("the database failed")]
    Broken,
}

/// The status of a program that may be started again.
const AGAIN: u8 = 3;

/// The status of a program that is not to be started again before a person has looked.
const NOT_AS_SAID: u8 = 4;

impl Unserved {
    /// The status of a program that ends for it: 4 where what is kept is not what was said, so that
    /// to start it again would come to the same; else 3.
    pub fn status(&self) -> u8
        ensures { result ≡ status_of self.now }
    {
        match self {
            Unserved::NoneThere
            | Unserved::NoDirectory
            | Unserved::ThereAlready
            | Unserved::LogMissing
            | Unserved::LogAlone
            | Unserved::WrongNode
            | Unserved::Foreign
            | Unserved::Damaged(_)
            | Unserved::Journal
            | Unserved::BadRow
            | Unserved::BootsSpent => NOT_AS_SAID,
            Unserved::InUse
            | Unserved::System(_)
            | Unserved::Memory
            | Unserved::Failed(_)
            | Unserved::Broken => AGAIN,
        }
    }
}

/// What an error of the database comes to.
pub fn of_error(error: sqlite::Error) -> Unserved
    ensures { result ≡ error_unserved error }
{
    match error {
        sqlite::Error::SqliteFailure(ErrorCode::OutOfMemory) => Unserved::Memory,
        sqlite::Error::SqliteFailure(
            ErrorCode::NotADatabase | ErrorCode::DatabaseCorrupt | ErrorCode::TooBig,
        ) => Unserved::Damaged(error),
        _ => Unserved::Failed(error),
    }
}

// What a refusal to open the file or its log comes to.
fn of_files(error: OpenError) -> Unserved
    ensures { result ≡ files_unserved error }
{
    match error {
        OpenError::Io(error) => Unserved::System(error),
        OpenError::OutOfMemory => Unserved::Memory,
        OpenError::Busy => Unserved::InUse,
        OpenError::HotJournal => Unserved::Journal,
    }
}

/// What it comes to that no keeper was opened.
pub fn of_cause(cause: Cause) -> Unserved
    ensures { result ≡ cause_unserved cause }
{
    match cause {
        Cause::Memory => Unserved::Memory,
        Cause::System(error) => Unserved::System(error),
        Cause::Files(error) => of_files(error),
        Cause::Database(error) => of_error(error),
        Cause::WrongNode => Unserved::WrongNode,
        Cause::BadRow => Unserved::Foreign,
        Cause::Broken => Unserved::Broken,
    }
}

/// What it comes to that no keeper was opened over a database that was to be there.
pub fn of_there(why: NotThere) -> Unserved
    ensures { result ≡ there_unserved why }
{
    match why {
        NotThere::Empty => Unserved::NoneThere,
        NotThere::Refused(fault) => of_cause(of_keeper(fault)),
    }
}

/// What it comes to that a node was refused so over a keeper that broke so, if it did.
pub fn of_refused(fault: Fault, why: Option<sqlite::Error>) -> Unserved
    ensures { result ≡ refused_unserved fault why }
{
    match fault {
        Fault::KeeperFailed => match why {
            Some(error) => of_error(error),
            None => Unserved::BadRow,
        },
        Fault::WrongNode => Unserved::WrongNode,
        Fault::Refused(Refusal::NamesSpent) => Unserved::BootsSpent,
        Fault::Refused(Refusal::Memory) => Unserved::Memory,
        Fault::Refused(_) | Fault::Clash(_) | Fault::Impostor(_) | Fault::Stopped =>
            Unserved::Broken,
    }
}
