//! What went wrong with a keeper that was made.

use fl_jobs::answer::Refusal;
use fl_labels::name::Name;
use fl_system::answer::Fault;
use thiserror::Error;

/// Why a node was not opened over a keeper that was made for it, or what became of one that served.
#[derive(Debug, Drop, Error)]
pub enum Failure {
    /// The database failed as it was read or written.
    #[error("the database failed: {0}")]
    Database(sqlite::Error),
    /// Its log was not copied into it as it was closed. Nothing that was saved is lost: the log has
    /// it.
    #[error("its log was not copied into it: {0}")]
    Unmerged(sqlite::Error),
    /// One of its rows is no operation that a keeper writes.
    #[error("a row of it is damaged")]
    BadRow,
    /// No boot is left.
    #[error("it was opened 4294967295 times")]
    BootsSpent,
    /// An open node has another operation of this name.
    #[error("another node has another operation {0}")]
    Clash(Name),
    /// An operation of this name is saved, but not at the node of its number.
    #[error("operation {0} is not known to the node of its number")]
    Impostor(Name),
}

/// What is to be told of a node that was not opened for this, over a keeper that broke so. Nothing
/// where memory was wanting.
pub fn failure_of(fault: Fault, why: Option<sqlite::Error>) -> Option<Failure> {
    match fault {
        Fault::KeeperFailed => match why {
            Some(error) => Some(Failure::Database(error)),
            None => Some(Failure::BadRow),
        },
        Fault::Clash(name) => Some(Failure::Clash(name)),
        Fault::Impostor(name) => Some(Failure::Impostor(name)),
        Fault::Refused(Refusal::NamesSpent) => Some(Failure::BootsSpent),
        Fault::Refused(_) | Fault::WrongNode | Fault::Stopped => None,
    }
}
