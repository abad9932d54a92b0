//! A maker of keepers over files in memory.
ghost use Rattle.std.specs.Prelude.{◌≡◌};
ghost use Rattle.std.proofs.Common.{inl};
ghost use Rattle.fl_folder.specs.FolderMaking.{folder_making};

use crate::folder::Folder;
use fl_dir_maker::file::file_of;
use fl_dir_maker::opening::open;
use fl_jobs::answer::Refusal;
use fl_labels::name::NodeNumber;
use fl_makers::maker::MakesKeepers;
use fl_sql_store::sql_keeper::SqlKeeper;
use fl_store::keeper::Keeper;
use fl_system::answer::Fault;
use sqlite::FileStore;
use sqlite_disk::Memory;
use std::alloc::Global;

// Lets go of a keeper that is not closed.
fn let_go(_keeper: SqlKeeper<FileStore<Memory>>) {}

/// Makes keepers over the files of a directory that lies in memory: node 3 is kept in its
/// `node-3.db`.
#[derive(Drop)]
pub struct FolderMaker<'a> {
    folder: Folder,
    dir: &'a str,
}

impl<'a> FolderMaker<'a> {
    /// A maker over the directory of this path in the folder.
    pub fn new(folder: Folder, dir: &'a str) -> FolderMaker<'a>
        ensures folder { result.folder ≡ folder }
        ensures dir { result.dir.now ≡ dir.entry.now }
    {
        FolderMaker { folder, dir }
    }

    /// The folder. The paths of the keepers that were made and not closed are open.
    pub fn into_folder(self) -> Folder
        ensures { result ≡ self.entry.folder }
    {
        self.folder
    }
}

impl<'a> MakesKeepers for FolderMaker<'a> {
    type K = SqlKeeper<FileStore<Memory>>;

    ghost making = { folder_making ⟦<SqlKeeper<FileStore<Memory>> as Keeper>⟧.custody
        (λ maker. maker.folder) (λ maker. maker.dir.now) };

    ghost told = { λ _ _ _ why. inl why };

    /// The keeper over the node's file, which is made if it is missing.
    ///
    /// Refused with `Memory`; with `WrongNode` where the file is another node's; and with
    /// `KeeperFailed` where the file is open, or is no keeper's database.
    fn make(
        &mut self,
        alloc: Global,
        number: NodeNumber,
    ) -> Result<SqlKeeper<FileStore<Memory>>, Fault> {
        let Ok(path) = file_of(alloc, self.dir, number) else {
            return Err(Fault::Refused(Refusal::Memory));
        };
        match open(&mut self.folder, alloc, path.as_str(), number) {
            Ok(keeper) => Ok(keeper),
            Err(cause) => Err(cause.fault()),
        }
    }

    /// Lets the keeper go. The path of the node's file stays open.
    fn take_back(
        &mut self,
        _number: NodeNumber,
        keeper: SqlKeeper<FileStore<Memory>>,
        _fault: Fault,
    ) {
        let_go(keeper);
    }

    /// Closes the keeper and puts its files back, so that the next one of the node finds what it
    /// kept. Lets it go, and the path open, where it does not close, where memory is wanting, and
    /// where it is another node's.
    fn close(&mut self, number: NodeNumber, keeper: SqlKeeper<FileStore<Memory>>) {
        if keeper.number() != number {
            return let_go(keeper);
        }
        let Ok(path) = file_of(self.folder.alloc(), self.dir, number) else {
            return let_go(keeper);
        };
        match self.folder.keep(path.as_str(), keeper) {
            Ok(()) => {}
            Err(_) => {}
        }
    }
}
