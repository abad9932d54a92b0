//! Opening the files of a connection again.
ghost use Rattle.std.specs.Prelude.{◌≡◌, false, IfOk, IfErr};
ghost use Rattle.fl_file_store.specs.FileKeeping.{GivesUp, OpensAgain, StaysShut};

use crate::unmended::Unmended;
use sqlite::{Connection, FileStore, Files, Options};
use sqlite_disk::Disk;
use std::alloc::Global;

// The files of a connection, whose transaction is rolled back. Nothing else is asked of them.
fn given_up<D: Disk + Drop>(conn: Connection<FileStore<D>>) -> Files<D>
    ensures { GivesUp conn result }
{
    let store = conn.into_store();
    store.close()
}

/// A connection over the files of this one, which finds what they hold. They are given up where
/// they do not open.
pub fn opened_again<D: Disk + Drop>(
    alloc: Global,
    conn: Connection<FileStore<D>>,
    options: Options,
) -> Result<Connection<FileStore<D>>, Unmended>
    ensures idle { IfOk result (λ again. again.in_transaction ≡ false) }
    ensures opens { IfOk result (OpensAgain conn) }
    ensures shut { IfErr result (StaysShut conn) }
{
    let files = given_up(conn);
    if !files.may_be_used() {
        return Err(Unmended::Unusable);
    }
    match Connection::open_files(alloc, files, options) {
        Ok(again) => Ok(again),
        Err((error, _left)) => Err(Unmended::Unopened(error)),
    }
}
