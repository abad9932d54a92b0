//! The files of databases by their paths, in memory.
ghost use Rattle.std.specs.Prelude.{◌≡◌, ℕ, List, None, Some, true, IfOk, IfErr, OnOk, OnErr};
ghost use Rattle.std.specs.Map.{update};
ghost use Rattle.std.specs.Str.{bytes_eq};
ghost use Rattle.sqlite.specs.Files.{file_state};
ghost use Rattle.sqlite_disk.specs.Memory.{memory_is_usable};
ghost use Rattle.fl_dir_maker.specs.Keeping.{IsKeptIn};
ghost use Rattle.fl_sql_store.specs.SqlKeeping.{held_in};
ghost use Rattle.fl_store.specs.Kept.{Kept};
ghost use Rattle.fl_folder.specs.Lying.{place, folder_reach, IsTakenFrom, RefusesToTake, RefusesToKeep, IsKeptAt};
ghost use Rattle.fl_folder.specs.Usable.{are_usable};

use crate::place::Place;
use fl_dir_maker::fault::{Cause, of_database};
use fl_dir_maker::opener::OpensFiles;
use fl_sql_store::sql_keeper::SqlKeeper;
use sqlite::{FileStore, Files};
use sqlite_disk::Memory;
use sqlite_std_file::OpenError;
use std::alloc::{AllocFailed, Global};
use std::collections::BTreeMap;
use std::mem::replace;

/// Files of databases that lie in memory, by their paths.
///
/// Files that are opened are taken out of it, and their path is open until some are put there.
#[derive(Drop)]
pub struct Folder {
    alloc: Global,
    places: BTreeMap<String, Place>,
    seed: u64,
}

impl Folder {
    /// Without a file. This number goes into the hashes of what is kept of databases in memory.
    /// Takes no memory.
    pub fn new(alloc: Global, seed: u64) -> Folder
        ensures { (at : List ℕ) → place result at ≡ None }
    {
        Folder {
            alloc,
            places: BTreeMap::new(alloc),
            seed,
        }
    }

    // Where its memory comes from.
    pub(crate) fn alloc(&self) -> Global {
        self.alloc
    }

    /// Takes the files at this path, which are open from then on. Where there are none, they are
    /// new and empty.
    ///
    /// Refused as `Busy` exactly where they are open; and with `Memory`, but only where there are
    /// none. All paths are then as they were. Costs comparisons with some of the paths, as many as
    /// their number has binary digits, up to a factor.
    pub fn take(&mut self, path: &str) -> Result<Files<Memory>, Cause>
        ensures taken { IfOk result (IsTakenFrom (place self.old path.now)) }
        ensures usable { IfOk result (λ files. are_usable (Some files) ≡ true) }
        ensures opens { OnOk result ((at : List ℕ) → place self.new at
            ≡ update bytes_eq (place self.old) path.now (Some None) at) }
        ensures refuses { IfErr result (RefusesToTake (place self.old path.now)) }
        ensures same { OnErr result ((at : List ℕ) → place self.new at ≡ place self.old at) }
    {
        match self.places.get_mut(path) {
            Some(there) => match replace(there, Place::opened()).into_files() {
                Some(files) => Ok(files),
                None => Err(Cause::Files(OpenError::Busy)),
            },
            None => self.make(path),
        }
    }

    // New files at a path that has none, which are open from then on.
    fn make(&mut self, path: &str) -> Result<Files<Memory>, Cause>
        requires { place self.old path.now ≡ None }
        ensures taken { IfOk result (IsTakenFrom (place self.old path.now)) }
        ensures usable { IfOk result (λ files. are_usable (Some files) ≡ true) }
        ensures opens { OnOk result ((at : List ℕ) → place self.new at
            ≡ update bytes_eq (place self.old) path.now (Some None) at) }
        ensures refuses { IfErr result (RefusesToTake (place self.old path.now)) }
        ensures same { OnErr result ((at : List ℕ) → place self.new at ≡ place self.old at) }
    {
        match self.add(path, Place::opened()) {
            Ok(()) => Ok(Files {
                log: Memory::new(self.alloc),
                db: Memory::new(self.alloc),
            }),
            Err(_) => Err(Cause::Memory),
        }
    }

    // Puts this at the path. Hands it back for want of memory.
    fn add(&mut self, path: &str, it: Place) -> Result<(), Place>
        ensures adds { OnOk result ((at : List ℕ) → place self.new at
            ≡ update bytes_eq (place self.old) path.now (Some it.files) at) }
        ensures back { IfErr result (λ back. back ≡ it) }
        ensures same { OnErr result ((at : List ℕ) → place self.new at ≡ place self.old at) }
    {
        let Ok(name) = String::from_str(self.alloc, path) else {
            return Err(it);
        };
        match self.places.insert(name, it) {
            Ok(_) => Ok(()),
            Err(failed) => Err(failed.value.1),
        }
    }

    /// Puts the files at this path, in the place of those that are there. They are not open.
    ///
    /// Hands the files back for want of memory, but only where none were there, nor taken from
    /// there. All paths are then as they were. Costs what `take` does.
    pub fn put(
        &mut self,
        path: &str,
        files: Files<Memory>,
    ) -> Result<(), AllocFailed<Files<Memory>>>
        requires { are_usable (Some files) ≡ true }
        ensures puts { OnOk result ((at : List ℕ) → place self.new at
            ≡ update bytes_eq (place self.old) path.now (Some (Some files)) at) }
        ensures back { IfErr result (λ failed. failed.value ≡ files) }
        ensures wants { OnErr result (place self.old path.now ≡ None) }
        ensures same { OnErr result ((at : List ℕ) → place self.new at ≡ place self.old at) }
    {
        let closed = Place::closed(files);
        match self.places.get_mut(path) {
            Some(there) => {
                *there = closed;
                Ok(())
            }
            None => match self.add(path, closed) {
                Ok(()) => Ok(()),
                Err(back) => Err(AllocFailed {
                    value: back.into_files().unwrap(),
                }),
            },
        }
    }

    /// Closes the keeper, and puts its files at this path. What is found there from then on is what
    /// it kept, and nothing else.
    ///
    /// Refused with `Memory` or `Database` where the keeper does not close; and with `Memory` where
    /// nothing was there, nor taken from there. All paths are then as they were, and the files are
    /// lost.
    pub fn keep(&mut self, path: &str, keeper: SqlKeeper<FileStore<Memory>>) -> Result<(), Cause>
        ensures kept { OnOk result (IsKeptAt self.old path.now keeper self.new) }
        ensures finds { OnOk result ((k : Kept)
            → IsKeptIn (folder_reach.holds self.new path.now) keeper.number k
            → held_in keeper.number (file_state keeper.conn) k) }
        ensures refuses { IfErr result (RefusesToKeep (place self.old path.now) keeper) }
        ensures same { OnErr result ((at : List ℕ) → place self.new at ≡ place self.old at) }
    {
        let files = match keeper.close() {
            Ok(files) => files,
            Err(error) => return Err(of_database(error)),
        };
        let Ok(()) = self.put(path, files) else {
            return Err(Cause::Memory);
        };
        Ok(())
    }
}

impl OpensFiles for Folder {
    type D = Memory;

    ghost reach = { folder_reach };

    /// The files at this path, as [`Folder::take`] gives them, and the number that the folder was
    /// made with.
    fn open(&mut self, path: &str) -> Result<(Files<Memory>, u64), Cause> {
        match self.take(path) {
            Ok(files) => Ok((files, self.seed)),
            Err(cause) => Err(cause),
        }
    }
}
