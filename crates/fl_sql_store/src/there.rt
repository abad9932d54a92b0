//! Why no keeper was opened over a database that was to be there.
use fl_store::keeper::KeeperFault;

/// Why no keeper was opened over a database that was to be there.
#[derive(Clone, Copy, PartialEq, Eq, Debug)]
pub enum NotThere {
    /// The database has no table: there is none yet.
    Empty,
    /// It was refused, as any database is.
    Refused(KeeperFault),
}
