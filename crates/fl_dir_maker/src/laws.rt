//! Laws of what is kept in a directory.
ghost use Rattle.std.specs.Prelude.{◌≡◌, ℕ, List};
ghost use Rattle.sqlite_trees.specs.Tree.{Trees};
ghost use Rattle.fl_store.specs.Kept.{Kept};
ghost use Rattle.fl_sql_tables.specs.Stored.{kept_in};
ghost use Rattle.fl_dir_maker.specs.DirMaking.{HoldsAt};
ghost use Rattle.fl_dir_maker.specs.Given.{HoldOnly};
ghost use Rattle.fl_dir_maker.specs.Keeping.{IsKeptIn, MayRead, MayReadAlone};
ghost use Rattle.fl_sql_store.specs.Closing.{HoldsKept};
ghost use Rattle.fl_sql_store.specs.SqlKeeping.{SqlKept, held_in};
ghost use Rattle.sqlite.specs.Files.{file_state};
ghost use Rattle.sqlite_disk.specs.declared.Files.{Files};
ghost use Rattle.sqlite_store.specs.declared.store.FileStore.{FileStore};

use crate::opener::OpensFiles;
use sqlite_disk::Disk;

/// Over given files each node finds one thing: where the file of its number holds one database,
/// what that keeps of it. So what [`DirMaker`](crate::maker::DirMaker) finds is a function of what
/// the directory holds.
pub fn law_given_files<O: OpensFiles>()
    ensures { (opener : O) (dir : List ℕ) (number : ℕ) (db : Trees) (k : Kept) →
        HoldOnly (HoldsAt O.reach opener dir number) db →
        IsKeptIn (HoldsAt O.reach opener dir number) number k → k ≡ kept_in number db }
{}

/// Over the files that [`SqlKeeper::close`](fl_sql_store::sql_keeper::SqlKeeper::close) gave back,
/// an opening finds what the keeper kept and nothing else, after a crash too, and also where the
/// log is lost.
pub fn law_closed_files<D: Disk>()
    ensures both { (keeper : SqlKept (FileStore D D.Disk)) (files : Files D) (k : Kept) →
        HoldsKept keeper files → IsKeptIn (MayRead D.Disk files) keeper.number k →
        held_in keeper.number (file_state keeper.conn) k }
    ensures alone { (keeper : SqlKept (FileStore D D.Disk)) (files : Files D) (k : Kept) →
        HoldsKept keeper files → IsKeptIn (MayReadAlone D.Disk files) keeper.number k →
        held_in keeper.number (file_state keeper.conn) k }
{}
