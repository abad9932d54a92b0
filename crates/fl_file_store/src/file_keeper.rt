//! A keeper over files, which can be opened again.
ghost use Rattle.std.specs.Prelude.{◌≡◌, false, Ok, IsTrue};
ghost use Rattle.sqlite.specs.State.{HasCleanDisk};
ghost use Rattle.sqlite.specs.Files.{file_state};
ghost use Rattle.fl_store.specs.Keeping.{Stays};
ghost use Rattle.fl_sql_store.specs.SqlKeeping.{held_in};
ghost use Rattle.fl_file_store.specs.FileKeeping.{number_of, failed_of, is_broken_of};
ghost use Rattle.fl_file_store.specs.FileKeeping.{IsHonest, MayHold};
ghost use Rattle.fl_file_store.specs.FileKeeping.{file_custody, file_holds, file_numbered};
ghost use Rattle.fl_file_store.specs.FileKeeping.{Reopens, Mends};

use crate::again::opened_again;
use crate::unmended::Unmended;
use fl_labels::name::NodeNumber;
use fl_ops::op::Op;
use fl_opset::set::OpSet;
use fl_sql_store::sql_keeper::SqlKeeper;
use fl_store::keeper::{Keeper, KeeperFault};
use sqlite::{FileStore, Options};
use sqlite_disk::Disk;
use std::alloc::Global;
use std::mem::replace;

/// A keeper over the two files of a database, which can be opened again once it is broken.
pub enum FileKeeper<D: Disk> {
    /// Its database is open, or was until it broke.
    Open(SqlKeeper<FileStore<D>>),
    /// The node of this number has none any more: its files were given up as they were to be opened
    /// again. It is broken, and nothing is promised of what is kept.
    Lost(NodeNumber),
}

// It is written out, so that a caller does not prove again how each part is dropped.
impl<D: Disk + Drop> Drop for FileKeeper<D> {
    fn drop(self) {
        match self {
            FileKeeper::Open(_keeper) => {}
            FileKeeper::Lost(_number) => {}
        }
    }
}

// The keeper that this broken one becomes, and why it is broken still.
fn reopened<D: Disk + Drop>(
    alloc: Global,
    broken: SqlKeeper<FileStore<D>>,
    number: NodeNumber,
    options: Options,
) -> (FileKeeper<D>, Result<(), Unmended>)
    requires { number ≡ broken.number }
    ensures reopens { Reopens broken result.0 result.1 }
    ensures honest { IsHonest result.0 → HasCleanDisk (file_state broken.conn) }
    ensures held { IsHonest result.0
        → Stays (held_in broken.number (file_state broken.conn)) (MayHold result.0) }
{
    match opened_again(alloc, broken.into_connection(), options) {
        Ok(conn) => {
            let (keeper, outcome) = SqlKeeper::open_or_broken(alloc, conn, number);
            match outcome {
                Ok(()) => (FileKeeper::Open(keeper), Ok(())),
                Err(fault) => (FileKeeper::Open(keeper), Err(Unmended::Refused(fault))),
            }
        }
        Err(why) => (FileKeeper::Lost(number), Err(why)),
    }
}

impl<D: Disk> FileKeeper<D> {
    // Whose it is, how many faults there were, and whether it is broken.
    fn standing(&self) -> (NodeNumber, u64, bool)
        ensures { result ≡ (number_of self.now, failed_of self.now, is_broken_of self.now) }
    {
        match self {
            FileKeeper::Open(keeper) => keeper.standing(),
            FileKeeper::Lost(number) => (*number, 1, true),
        }
    }

    /// Whether it is broken.
    pub fn is_broken(&self) -> bool
        ensures { result ≡ is_broken_of self.now }
    {
        self.standing().2
    }
}

impl<D: Disk + Drop> FileKeeper<D> {
    // What this broken keeper becomes, and why it is broken still.
    fn mended(self, alloc: Global, options: Options) -> (FileKeeper<D>, Result<(), Unmended>)
        ensures mends { Mends self result.0 result.1 }
        ensures honest { IsHonest result.0 → IsHonest self }
        ensures held { IsHonest result.0 → Stays (MayHold self) (MayHold result.0) }
    {
        let number = self.number();
        match self {
            FileKeeper::Open(broken) => reopened(alloc, broken, number, options),
            FileKeeper::Lost(number) => (FileKeeper::Lost(number), Err(Unmended::GivenUp)),
        }
    }

    /// Opens the keeper again over its own files, if it is broken; else it stays as it is. It is
    /// not broken then, and finds what an opening might have found before: all that was kept, and
    /// what was in doubt as a whole or not at all.
    ///
    /// Where it is refused it is broken still. After `Refused` it finds no more than before, and
    /// can be tried again. After `Unusable` and `Unopened` it is lost: its files are let go, and
    /// nothing is promised of what is kept. Takes as long as the database is large.
    pub fn mend(&mut self, alloc: Global, options: Options) -> Result<(), Unmended>
        ensures number { number_of self.new ≡ number_of self.old }
        ensures sound { is_broken_of self.old ≡ false → (self.new ≡ self.old) × (result ≡ Ok tt) }
        ensures mends { IsTrue (is_broken_of self.old) → Mends self.old self.new result }
        ensures honest { IsHonest self.new → IsHonest self.old }
        ensures held { IsHonest self.new → Stays (MayHold self.old) (MayHold self.new) }
    {
        if !self.is_broken() {
            return Ok(());
        }
        let number = self.number();
        let broken = replace(self, FileKeeper::Lost(number));
        let (keeper, result) = broken.mended(alloc, options);
        *self = keeper;
        result
    }
}

impl<D: Disk> Keeper for FileKeeper<D> {
    ghost custody = { file_custody };

    ghost holds = { file_holds D.Disk.seen_may_stay };

    ghost numbered = { file_numbered };

    fn number(&self) -> NodeNumber {
        self.standing().0
    }

    fn failures(&self) -> u64 {
        self.standing().1
    }

    fn load(&mut self, alloc: Global) -> Result<OpSet, KeeperFault> {
        match self {
            FileKeeper::Open(keeper) => keeper.load(alloc),
            FileKeeper::Lost(_) => Err(KeeperFault::Broken),
        }
    }

    fn boot(&mut self) -> Result<u32, KeeperFault> {
        match self {
            FileKeeper::Open(keeper) => keeper.boot(),
            FileKeeper::Lost(_) => Err(KeeperFault::Broken),
        }
    }

    fn save(&mut self, ops: &[Op]) -> Result<(), KeeperFault> {
        match self {
            FileKeeper::Open(keeper) => keeper.save(ops),
            FileKeeper::Lost(_) => Err(KeeperFault::Broken),
        }
    }
}
