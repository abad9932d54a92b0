//! A maker of keepers over files.
ghost use Rattle.std.specs.Prelude.{◌≡◌, false};
ghost use Rattle.std.proofs.Common.{inl};
ghost use Rattle.fl_dir_maker.specs.DirMaking.{dir_making};

use crate::failure::{Failure, failure_of};
use crate::fault::Cause;
use crate::file::file_of;
use crate::opener::OpensFiles;
use crate::opening::open;
use fl_jobs::answer::Refusal;
use fl_labels::name::NodeNumber;
use fl_makers::maker::MakesKeepers;
use fl_sql_store::sql_keeper::SqlKeeper;
use fl_store::keeper::Keeper;
use fl_system::answer::Fault;
use sqlite::FileStore;
use sqlite_disk::Disk;
use std::alloc::Global;

// Closes a keeper, but for one that broke, and says what went wrong with it.
fn closed<D: Disk + Drop>(keeper: SqlKeeper<FileStore<D>>) -> Option<Failure> {
    if let Some(error) = keeper.why() {
        return Some(Failure::Database(error));
    }
    match keeper.close() {
        Ok(_files) => None,
        Err(error) => Some(Failure::Unmerged(error)),
    }
}

/// Makes keepers over the files of a directory: node 3 is kept in its `node-3.db`.
#[derive(Drop)]
pub struct DirMaker<'a, O> {
    pub(crate) rt: &'a HostRuntime,
    opener: O,
    pub(crate) dir: &'a str,
    // The nodes of which standard error has a line.
    told: Vec<NodeNumber>,
}

impl<'a, O> DirMaker<'a, O> {
    /// A maker over the directory of this path, whose files this opens, which is not opened yet.
    pub fn new(rt: &'a HostRuntime, opener: O, dir: &'a str) -> DirMaker<'a, O>
        ensures opener { result.opener ≡ opener }
        ensures dir { result.dir.now ≡ dir.entry.now }
    {
        DirMaker {
            rt,
            opener,
            dir,
            told: Vec::new(rt.alloc()),
        }
    }

    // Whether standard error has a line of the node, which has one from now on.
    fn was_told(&mut self, number: NodeNumber) -> bool
        ensures { self.new ≡ record self.old { told = self.new.told } }
    {
        if self.told.contains(&number) {
            return true;
        }
        // Without room for its number it is told again.
        let _ = self.told.push(number);
        false
    }

    // Writes to standard error why there is no keeper of the node, but once only, and not where
    // memory was wanting.
    fn tell(&mut self, number: NodeNumber, path: &str, cause: &Cause)
        ensures { self.new ≡ record self.old { told = self.new.told } }
    {
        if let Cause::Memory = cause {
            return;
        }
        if self.was_told(number) {
            return;
        }
        let _ = eprintln!(self.rt; "flume-tags: {path}: {cause}");
    }

    // Writes to standard error what went wrong with the node's keeper.
    fn tell_failure(&self, number: NodeNumber, failure: &Failure) {
        let Ok(path) = file_of(self.rt.alloc(), self.dir, number) else {
            return;
        };
        let path = path.as_str();
        let _ = eprintln!(self.rt; "flume-tags: {path}: {failure}");
    }
}

impl<'a, O: OpensFiles> MakesKeepers for DirMaker<'a, O> {
    type K = SqlKeeper<FileStore<O::D>>;

    ghost making = { dir_making ⟦<SqlKeeper<FileStore<O::D>> as Keeper>⟧.custody O.reach
        (λ maker. maker.opener) (λ maker. maker.dir.now) };

    ghost told = { λ _ _ _ why. inl why };

    /// The keeper over the node's file, which is made if it is missing.
    ///
    /// Refused with `Memory`; with `WrongNode` where the file is another node's; and with
    /// `KeeperFailed` where the file cannot be opened, is open already, or is no keeper's database.
    /// The first time that a node's keeper is refused, but with `Memory`, the path and the cause
    /// are written to standard error. Costs a look at each node of which that was so.
    fn make(
        &mut self,
        alloc: Global,
        number: NodeNumber,
    ) -> Result<SqlKeeper<FileStore<O::D>>, Fault> {
        let Ok(path) = file_of(alloc, self.dir, number) else {
            return Err(Fault::Refused(Refusal::Memory));
        };
        match open(&mut self.opener, alloc, path.as_str(), number) {
            Ok(keeper) => Ok(keeper),
            Err(cause) => {
                self.tell(number, path.as_str(), &cause);
                Err(cause.fault())
            }
        }
    }

    /// Lets the keeper go. The first time that something is told of a node, the path and why it was
    /// not opened are written to standard error, but not where memory was wanting.
    fn take_back(&mut self, number: NodeNumber, keeper: SqlKeeper<FileStore<O::D>>, fault: Fault) {
        let Some(failure) = failure_of(fault, keeper.why()) else {
            return;
        };
        if !self.was_told(number) {
            self.tell_failure(number, &failure);
        }
    }

    /// Copies the log into the database file, so that this alone has what was saved, and lets the
    /// keeper go. Where that fails, or the keeper broke, the path and the error are written to
    /// standard error. Costs what was saved since the log was copied last.
    fn close(&mut self, number: NodeNumber, keeper: SqlKeeper<FileStore<O::D>>) {
        if let Some(failure) = closed(keeper) {
            self.tell_failure(number, &failure);
        }
    }
}
