//! The files of one node in a directory of the host.
use crate::fault::{Unserved, of_cause};
use crate::making::make;
use crate::opening::open_there;
use crate::sizes::{Standing, standing_of};
use fl_dir_maker::fault::of_system;
use fl_dir_maker::file::file_of;
use fl_dir_maker::host::{HostFiles, is_missing, log_of};
use fl_labels::name::NodeNumber;
use fl_sql_store::sql_keeper::SqlKeeper;
use sqlite::{File, FileStore};
use std::fs::{OpenOptions, Permissions};
use std::io::ErrorKind;
use std::os::unix::fs::{OpenOptionsExt, PermissionsExt};
use std::{fs, io};

// Who may read and write the files of a node that is made: their owner, and nobody else.
const OWNER_ALONE: u32 = 0o600;

// What a refusal of the system comes to.
fn of_refusal(error: io::Error) -> Unserved {
    of_cause(of_system(error))
}

// How many bytes the file at the path has, where there is one. What is no file is no node's.
fn size_at(rt: &HostRuntime, path: &str) -> Result<Option<u64>, Unserved> {
    match fs::metadata(rt, path) {
        Ok(found) if found.is_file() => Ok(Some(found.len())),
        Ok(_) => Err(Unserved::Foreign),
        Err(error) if is_missing(&error) => Ok(None),
        Err(error) => Err(of_refusal(error)),
    }
}

// What stands at the path of a node's database.
fn standing_at(rt: &HostRuntime, path: &str) -> Result<Standing, Unserved> {
    let log = log_of(rt, path).map_err(of_refusal)?;
    standing_of(size_at(rt, path)?, size_at(rt, log.as_str())?)
}

// Takes the rights to the file from all but its owner.
fn give_to_owner(rt: &HostRuntime, path: &str) -> Result<(), Unserved> {
    fs::set_permissions(rt, path, Permissions::from_mode(OWNER_ALONE)).map_err(of_refusal)
}

// The same of the database at the path and of its log.
fn give_both_to_owner(rt: &HostRuntime, path: &str) -> Result<(), Unserved> {
    give_to_owner(rt, path)?;
    let log = log_of(rt, path).map_err(of_refusal)?;
    give_to_owner(rt, log.as_str())
}

// Makes a file with no byte, which only its owner may read and write, whatever the mask of the
// process is. It must not be there.
fn make_file(rt: &HostRuntime, path: &str) -> Result<(), Unserved> {
    match OpenOptions::new()
        .write(true)
        .create_new(true)
        .mode(OWNER_ALONE)
        .open(rt, path)
    {
        Ok(file) => file
            .set_permissions(Permissions::from_mode(OWNER_ALONE))
            .map_err(of_refusal),
        Err(error) if error.kind() == ErrorKind::AlreadyExists => Err(Unserved::ThereAlready),
        Err(error) if is_missing(&error) => Err(Unserved::NoDirectory),
        Err(error) => Err(of_refusal(error)),
    }
}

// Has a file be there, to make a node in.
fn prepare(rt: &HostRuntime, path: &str) -> Result<(), Unserved> {
    match standing_at(rt, path)? {
        Standing::Nothing => make_file(rt, path),
        Standing::Empty => give_to_owner(rt, path),
        Standing::Database => Ok(()),
    }
}

// The path of the node's database in the directory.
fn path_in(rt: &HostRuntime, dir: &str, number: NodeNumber) -> Result<String, Unserved> {
    file_of(rt.alloc(), dir, number).map_err(|_| Unserved::Memory)
}

/// The keeper of the node that is kept in the directory. No file and no table is made: it is looked
/// first whether the database is there, has some bytes, and has its log.
///
/// Refused as [`open_there`] refuses; as `NoneThere` too where the database is missing or empty,
/// and as `LogAlone` where its log is there then, with a page; as `LogMissing` where the log is
/// missing; as `Foreign` where something else than a file stands there; and as `System`.
pub fn keeper_in(
    rt: &HostRuntime,
    dir: &str,
    number: NodeNumber,
) -> Result<SqlKeeper<FileStore<File>>, Unserved> {
    let path = path_in(rt, dir, number)?;
    match standing_at(rt, path.as_str())? {
        Standing::Nothing | Standing::Empty => Err(Unserved::NoneThere),
        Standing::Database => {
            let mut files = HostFiles::new(rt);
            open_there(&mut files, rt.alloc(), path.as_str(), number)
        }
    }
}

// Makes the node in the files at the path, and closes them.
fn make_at(rt: &HostRuntime, path: &str, number: NodeNumber) -> Result<(), Unserved> {
    let mut files = HostFiles::new(rt);
    match make(&mut files, rt.alloc(), path, number) {
        Ok(_made) => Ok(()),
        Err(why) => Err(why),
    }
}

/// Makes the node in the directory, with boot 0, in files that only their owner may read and write.
/// What a making that was stopped left there is finished: a file that is empty, half made, or of
/// this node and never opened.
///
/// Refused as [`make`] refuses; as `NoDirectory` where the directory is not there; as `LogMissing`
/// where the database has some bytes, and no log; as `LogAlone` where its log has a page, and the
/// database is missing or empty; as `Foreign` where something else than a file stands there; and as
/// `System`.
pub fn make_in(rt: &HostRuntime, dir: &str, number: NodeNumber) -> Result<(), Unserved> {
    let path = path_in(rt, dir, number)?;
    prepare(rt, path.as_str())?;
    make_at(rt, path.as_str(), number)?;
    give_both_to_owner(rt, path.as_str())
}
