//! What stands where a node is kept.
ghost use Rattle.std.specs.Prelude.{◌≡◌};
ghost use Rattle.fl_node_files.specs.Sizes.{has_page, standing_of};

use crate::fault::Unserved;

/// What stands where a node is kept.
#[derive(Clone, Copy, Debug, PartialEq, Eq)]
pub enum Standing {
    /// No file.
    Nothing,
    /// A file with no byte.
    Empty,
    /// A file with some bytes, and its log.
    Database,
}

// The most bytes of a log that has no page: its header has 32, and no page has fewer than 512.
const NO_PAGE: u64 = 511;

// Whether a log of so many bytes has a page.
fn has_page(log: Option<u64>) -> bool
    ensures { result ≡ has_page log }
{
    match log {
        Some(size) => size > NO_PAGE,
        None => false,
    }
}

/// What stands there, by how many bytes the database and its log have, each of which may be
/// missing.
///
/// `LogMissing`: the database has some bytes, and there is no log. `LogAlone`: the database is
/// missing or empty, and its log has a page.
pub fn standing_of(db: Option<u64>, log: Option<u64>) -> Result<Standing, Unserved>
    ensures { result ≡ standing_of db log }
{
    match db {
        None if has_page(log) => Err(Unserved::LogAlone),
        Some(0) if has_page(log) => Err(Unserved::LogAlone),
        None => Ok(Standing::Nothing),
        Some(0) => Ok(Standing::Empty),
        Some(_) => match log {
            Some(_) => Ok(Standing::Database),
            None => Err(Unserved::LogMissing),
        },
    }
}
