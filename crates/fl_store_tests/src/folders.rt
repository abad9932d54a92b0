//! Tests of keepers over a folder, one after another.
use crate::asking::{FIRST, save_one};
use fl_dir_maker::fault::Cause;
use fl_dir_maker::opening::open;
use fl_folder::folder::Folder;
use fl_folder::maker::FolderMaker;
use fl_makers::maker::MakesKeepers;
use fl_sql_store::sql_keeper::SqlKeeper;
use fl_store::keeper::Keeper;
use fl_system::answer::Fault;
use sqlite::FileStore;
use sqlite_disk::Memory;
use sqlite_std_file::OpenError;
use std::alloc::Global;
use std::test::Fail;

/// Where node 1 is kept.
const PATH: &str = "nodes/node-1.db";

type MemoryKeeper = SqlKeeper<FileStore<Memory>>;

// A folder in which node 1 was booted once and has a group.
fn kept(alloc: Global) -> Result<Folder, Cause> {
    let mut folder = Folder::new(alloc, 1);
    let mut keeper = open(&mut folder, alloc, PATH, 1)?;
    if keeper.boot() != Ok(1) || save_one(alloc, &mut keeper, FIRST).is_err() {
        return Err(Cause::Broken);
    }
    folder.keep(PATH, keeper)?;
    Ok(folder)
}

// Whether the keeper has the group, and nothing else.
fn has_group(alloc: Global, keeper: &mut MemoryKeeper) -> bool {
    match keeper.load(alloc) {
        Ok(saved) => saved.contains(&FIRST) && saved.len() == 1,
        Err(_) => false,
    }
}

// Whether it is the keeper of node 1, has the group, and is booted for this time.
fn is_kept(alloc: Global, keeper: &mut MemoryKeeper, boot: u32) -> bool {
    keeper.number() == 1 && has_group(alloc, keeper) && keeper.boot() == Ok(boot)
}

#[test]
fn refused_while_it_is_open(rt: HostRuntime) -> Result<(), Fail> {
    let mut folder = Folder::new(rt.alloc(), 1);
    let files = folder.take(PATH)?;
    assert!(rt; matches!(folder.take(PATH), Err(Cause::Files(OpenError::Busy))));
    folder.put(PATH, files)?;
    assert!(rt; folder.take(PATH).is_ok());
    Ok(())
}

// The keeper of node 1, of which a second one is not made while it is open.
fn made_once(alloc: Global, maker: &mut FolderMaker<'_>) -> Result<MemoryKeeper, Fault> {
    let keeper = maker.make(alloc, 1)?;
    match maker.make(alloc, 1) {
        Err(Fault::KeeperFailed) => Ok(keeper),
        _ => Err(Fault::WrongNode),
    }
}

#[test]
fn made_over_what_was_left(rt: HostRuntime) -> Result<(), Fail> {
    let mut maker = FolderMaker::new(kept(rt.alloc())?, "nodes");
    for boot in 2..4u32 {
        let Ok(mut keeper) = made_once(rt.alloc(), &mut maker) else {
            return Err(Fail::from("no keeper is made, or two are"));
        };
        assert!(rt; is_kept(rt.alloc(), &mut keeper, boot));
        maker.close(1, keeper);
    }
    assert!(rt; maker.into_folder().take(PATH).is_ok());
    Ok(())
}
