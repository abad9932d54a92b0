//! Why a keeper over files was not opened again.
use fl_store::keeper::KeeperFault;
use sqlite::Error;

/// Why a keeper over files was not opened again.
#[derive(Clone, Copy)]
pub enum Unmended {
    /// A sync of its files failed, so nothing may be asked of them any more. They are given up.
    Unusable,
    /// Its files were not opened, for this error. They are given up.
    Unopened(Error),
    /// What its files hold was refused, for this fault. It may be tried again.
    Refused(KeeperFault),
    /// Its files were given up before.
    GivenUp,
}
