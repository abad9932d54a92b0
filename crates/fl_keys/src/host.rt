//! Keys in files of the host.
ghost use Rattle.std.specs.Prelude.{◌≡◌};
ghost use Rattle.fl_keys.specs.Refusing.{status_of};

use crate::fault::{KeyFault, of_system};
use crate::reading::{is_private, read_key};
use fl_seal::seal::Key;
use std::fs::File;
use std::os::unix::fs::MetadataExt;

/// The key in the file of this path. Its rights are those of the file that was opened.
///
/// Refused as `System` where the file is not opened or read; as `NotPrivate` where its group or
/// others have rights to it; as `NoKey` where it is no key's text; and as `Memory`.
pub fn key_in_file(rt: &HostRuntime, path: &str) -> Result<Key, KeyFault> {
    let file = match File::open(rt, path) {
        Ok(file) => file,
        Err(error) => return Err(of_system(error)),
    };
    match file.metadata() {
        Ok(found) if is_private(found.mode()) => read_key(rt.alloc(), file),
        Ok(_) => Err(KeyFault::NotPrivate),
        Err(error) => Err(of_system(error)),
    }
}

// Says on standard error why the file of a key is refused, and gives the status that this is.
fn tell(rt: &HostRuntime, path: &str, why: &KeyFault) -> u8
    ensures { result ≡ status_of why.now }
{
    let _ = eprintln!(rt; "flume-node: {path}: {why}");
    why.status()
}

/// The keys in the files of these paths, in their order. Where one is refused, or there is no room
/// for them all, its path and why are written to standard error, and the status of a program that
/// ends for it is given.
pub fn keys_in_files(rt: &HostRuntime, paths: &[&str]) -> Result<Vec<Key>, u8> {
    let mut keys = Vec::new(rt.alloc());
    for path in paths {
        let key = match key_in_file(rt, path) {
            Ok(key) => key,
            Err(why) => return Err(tell(rt, path, &why)),
        };
        if keys.push(key).is_err() {
            return Err(tell(rt, path, &KeyFault::Memory));
        }
    }
    Ok(keys)
}
