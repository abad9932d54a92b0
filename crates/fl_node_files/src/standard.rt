//! What a program that serves one node says on standard error, and its status. The bytes of
//! standard streams have no name in a contract, so no clause speaks of them.
ghost use Rattle.std.specs.Prelude.{◌≡◌};
ghost use Rattle.fl_node_files.specs.Ended.{status_at_end};
ghost use Rattle.fl_node_files.specs.Unserving.{status_of};

use crate::fault::Unserved;
use fl_dir_maker::file::file_of;
use fl_labels::name::NodeNumber;
use fl_sql_store::sql_keeper::SqlKeeper;
use fl_stream::fault::RunFault;
use sqlite::{File, FileStore};
use std::fmt::Display;

/// The status where a read, a write or memory failed.
const FAULT: u8 = 3;

// Says this of the node on standard error, in one line, behind the path of its database.
fn tell<T: Display>(rt: &HostRuntime, dir: &str, number: NodeNumber, what: &str, why: &T) {
    let _ = match file_of(rt.alloc(), dir, number) {
        Ok(path) => eprintln!(rt; "flume-node: {path}: {what}{why}"),
        Err(_) => eprintln!(rt; "flume-node: {what}{why}"),
    };
}

/// Says on standard error why the node is not served or made, and gives the status that this is.
pub fn tell_unserved(rt: &HostRuntime, dir: &str, number: NodeNumber, why: &Unserved) -> u8
    ensures { result ≡ status_of why.now }
{
    tell(rt, dir, number, "", why);
    why.status()
}

/// Lets go of the keeper of the node, which served. Its log is merged into the database file; where
/// that fails, standard error says so and at which error, and nothing is lost, since the log has
/// it. Where the keeper failed while it served, nothing is merged, and standard error says at which
/// error it failed.
pub fn close_keeper(
    rt: &HostRuntime,
    dir: &str,
    number: NodeNumber,
    keeper: SqlKeeper<FileStore<File>>,
) {
    if keeper.is_broken() {
        return match keeper.why() {
            Some(error) => tell(rt, dir, number, "the keeper failed: ", &error),
            None => tell(rt, dir, number, "the keeper failed", &""),
        };
    }
    if let Err(error) = keeper.close() {
        tell(rt, dir, number, "its log was not merged: ", &error);
    }
}

/// The status of a program whose run ended so: 3 at a fault, which is told on standard error.
pub fn status_at_end(rt: &HostRuntime, ended: Result<u8, RunFault>) -> u8
    ensures { result ≡ status_at_end ended }
{
    match ended {
        Ok(status) => status,
        Err(fault) => {
            let _ = eprintln!(rt; "flume-node: {fault}");
            FAULT
        }
    }
}
