//! Tests of keepers in memory.
ghost use Rattle.std.specs.Prelude.{◌<◌};

use crate::asking::{FIRST, Line, ask, check};
use fl_ops::op::Op;
use fl_store::mem::MemKeeper;
use std::alloc::{AllocError, Global};
use std::io;
use std::test::Fail;

// What the keeper answers to the lines. It lets go of the keeper.
fn said_by(alloc: Global, keeper: MemKeeper, lines: &[Line]) -> io::Result<Vec<u8>> {
    let mut keeper = keeper;
    let mut said = Vec::new(alloc);
    ask(alloc, &mut keeper, lines, &mut said)?;
    Ok(said)
}

static KEPT: [Line; 10] = [
    Line::Number,
    Line::Load,
    Line::Boot,
    Line::SaveNone,
    Line::Load,
    Line::SaveFirst,
    Line::SaveRest,
    Line::Boot,
    Line::Load,
    Line::Failures,
];

#[test]
fn keeps_in_memory(rt: HostRuntime) -> Result<(), Fail> {
    let said = said_by(rt.alloc(), MemKeeper::new(rt.alloc(), 7), &KEPT)?;
    let wanted = "7\nboot 1\nok\nok\nok\nboot 2\n1.1 group\n1.2 group\n1.3 group\n0\n";
    check(&rt, said, "", wanted);
    Ok(())
}

// A keeper of node 1 with one operation, before its last boot.
fn keeper_with(alloc: Global, op: Op) -> Result<MemKeeper, AllocError> {
    MemKeeper::with(alloc, 1, 4_294_967_294, &[op])
}

static LAST: [Line; 5] = [
    Line::Boot,
    Line::Boot,
    Line::Failures,
    Line::Load,
    Line::SaveRest,
];

#[test]
fn last_boot_is_spent(rt: HostRuntime) -> Result<(), Fail> {
    let said = said_by(rt.alloc(), keeper_with(rt.alloc(), FIRST)?, &LAST)?;
    let wanted = "boot 4294967295\nnames spent\n0\n1.1 group\nok\n";
    check(&rt, said, "", wanted);
    Ok(())
}

/// A keeper of node 1 that breaks.
struct Break {
    /// At its save of this number, from 1 on.
    save: u64,
    /// Whether it keeps what it then saves.
    keeps: bool,
    /// What it is asked.
    lines: &'static [Line],
    /// What it is asked then, mended.
    mended: &'static [Line],
    /// What it answers.
    wanted: &'static str,
}

const BROKEN: [Line; 8] = [
    Line::Boot,
    Line::SaveFirst,
    Line::Failures,
    Line::SaveRest,
    Line::Failures,
    Line::Boot,
    Line::Load,
    Line::SaveNone,
];

static BREAKS: [Break; 3] = [
    Break {
        save: 2,
        keeps: false,
        lines: &BROKEN,
        mended: &[Line::Failures, Line::Load, Line::Boot, Line::SaveRest],
        wanted: "boot 1\nok\n0\nbroken\n1\nbroken\nbroken\nbroken\n0\n1.1 group\nboot 2\nok\n",
    },
    Break {
        save: 2,
        keeps: true,
        lines: &BROKEN,
        mended: &[Line::Load, Line::Boot, Line::SaveNone],
        wanted: "boot 1\nok\n0\nbroken\n1\nbroken\nbroken\nbroken\n\
1.1 group\n1.2 group\n1.3 group\nboot 2\nok\n",
    },
    // An empty batch counts.
    Break {
        save: 1,
        keeps: true,
        lines: &[Line::SaveNone, Line::Failures],
        mended: &[Line::Load, Line::SaveFirst],
        wanted: "broken\n1\nok\n",
    },
];

fn break_one(alloc: Global, broken: &Break, said: &mut Vec<u8>) -> io::Result<()> {
    let mut keeper = MemKeeper::new(alloc, 1);
    keeper.break_at(broken.save.max(1), broken.keeps);
    ask(alloc, &mut keeper, broken.lines, said)?;
    ask(alloc, &mut keeper.mend(), broken.mended, said)
}

#[test]
fn breaks_and_is_mended(rt: HostRuntime) -> Result<(), Fail> {
    for broken in &BREAKS {
        let mut said = Vec::new(rt.alloc());
        break_one(rt.alloc(), broken, &mut said)?;
        check(&rt, said, "", broken.wanted);
    }
    Ok(())
}
