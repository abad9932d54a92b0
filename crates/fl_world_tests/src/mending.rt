//! Tests of a node over files that is opened again after a write failed.
ghost use Rattle.fl_store.specs.Keeping.{Stays};
ghost use Rattle.fl_file_store.specs.FileKeeping.{IsHonest, MayHold};

use crate::hiccup::Hiccup;
use crate::scene::tag_is_begun;
use fl_file_store::file_keeper::FileKeeper;
use fl_labels::name::NodeNumber;
use fl_sql_store::sql_keeper::SqlKeeper;
use fl_store::keeper::Keeper;
use fl_system::answer::Fault;
use fl_system::reply::Reply;
use fl_world::world::World;
use sqlite::{Connection, Files, Options};
use sqlite_disk::{Disk, Memory};
use std::alloc::Global;
use std::test::Fail;

/// When the one write fails.
enum Failure {
    BeforeTheSave,
    InTheSave,
    AfterTheSave,
}

// Has the keeper of a stopped node opened again over its own files, and the node over it.
fn mended<D: Disk + Drop>(
    world: &mut World<FileKeeper<D>>,
    alloc: Global,
    number: NodeNumber,
) -> Reply {
    let mend = |keeper: &mut FileKeeper<D>|
        ensures honest { IsHonest keeper.new → IsHonest keeper.old }
        ensures held { IsHonest keeper.new
            → Stays (MayHold keeper.old) (MayHold keeper.new) }
    {
        let _ = keeper.mend(alloc, Options::new(2));
    };
    world.reopen(alloc, number, mend)
}

// A keeper of node 1 over these files, if they open.
fn opened<D: Disk + Drop>(alloc: Global, files: Files<D>) -> Option<FileKeeper<D>> {
    if !files.may_be_used() {
        return None;
    }
    let conn = match Connection::open_files(alloc, files, Options::new(1)) {
        Ok(conn) => conn,
        Err(_) => return None,
    };
    match SqlKeeper::open(alloc, conn, 1) {
        Ok(keeper) => Some(FileKeeper::Open(keeper)),
        Err(_) => None,
    }
}

// New files, where the log fails the write after so many.
fn files(alloc: Global, writes: u64) -> Files<Hiccup<Memory>> {
    Files {
        log: Hiccup::new(Memory::new(alloc), writes),
        db: Hiccup::new(Memory::new(alloc), u64::MAX),
    }
}

// Node 1 joins over the keeper, and begins to make a tag. False where a write failed before.
fn begins<K: Keeper + Drop>(world: &mut World<K>, alloc: Global, keeper: K) -> Result<bool, Fail> {
    if world.join(alloc, 1, keeper).is_err() {
        return Ok(false);
    }
    if tag_is_begun(world, alloc, 1) {
        Ok(true)
    } else {
        Err(Fail::from("the tag is not begun"))
    }
}

// Saves the tag. False where the keeper failed.
fn saves<K: Keeper>(world: &mut World<K>) -> Result<bool, Fail> {
    match &world.save(1) {
        Reply::Done => Ok(true),
        Reply::Refused(Fault::KeeperFailed) => Ok(false),
        _ => Err(Fail::from("the save is refused for another cause")),
    }
}

// Saves the tag over the keeper. Where that fails the node is opened again, for the second time.
fn tried<D: Disk + Drop>(
    world: &mut World<FileKeeper<D>>,
    alloc: Global,
    keeper: FileKeeper<D>,
) -> Result<Failure, Fail> {
    if !begins(world, alloc, keeper)? {
        return Ok(Failure::BeforeTheSave);
    }
    if saves(world)? {
        return Ok(Failure::AfterTheSave);
    }
    if mended(world, alloc, 1) == Reply::Booted(2) {
        Ok(Failure::InTheSave)
    } else {
        Err(Fail::from("the node is not opened again"))
    }
}

// The same over files that fail one write, after so many.
fn saved(alloc: Global, writes: u64) -> Result<Failure, Fail> {
    match opened(alloc, files(alloc, writes)) {
        Some(keeper) => {
            let mut world = World::new(alloc, 1);
            tried(&mut world, alloc, keeper)
        }
        None => Ok(Failure::BeforeTheSave),
    }
}

// Halves the count of writes before the one that fails, until that is one of the save.
#[test]
fn opened_again_after_a_write_of_a_save_failed(rt: HostRuntime) -> Result<(), Fail> {
    let mut low = 0u64;
    let mut high = 128u64;
    for _ in 0..8u64 {
        let writes = low / 2 + high / 2;
        match saved(rt.alloc(), writes)? {
            Failure::BeforeTheSave => low = writes,
            Failure::InTheSave => return Ok(()),
            Failure::AfterTheSave => high = writes,
        }
    }
    Err(Fail::from("no write of a save failed"))
}
