//! A keeper that is asked by lines.
ghost use Rattle.std.specs.Prelude.{[], ◌∷◌, IsTrue};
ghost use Rattle.fl_store.specs.Kept.{AreNew};
ghost use Rattle.fl_store.specs.laws.Unused.{IsUnused};
ghost use Rattle.fl_store_tests.specs.Unused.{AreApart};

use fl_labels::name::Name;
use fl_ops::op::{Body, Op};
use fl_opset::set::OpSet;
use fl_store::keeper::{Keeper, KeeperFault};
use std::alloc::{AllocGlobal, Global};
use std::io::{self, Write};
use std::process::Abort;

/// The group 1.1.
pub const FIRST: Op = Op {
    name: Name { node: 1, seq: 1 },
    body: Body::MakeGroup,
};

/// The group 1.2.
pub const SECOND: Op = Op {
    name: Name { node: 1, seq: 2 },
    body: Body::MakeGroup,
};

/// The group 1.3.
pub const THIRD: Op = Op {
    name: Name { node: 1, seq: 3 },
    body: Body::MakeGroup,
};

/// What a keeper answers, but for what is loaded.
#[derive(Clone, Copy)]
pub enum Said {
    Loaded,
    Done,
    Count(u64),
    Boot(u32),
    Refused(KeeperFault),
}

/// What was said is this, and then that. It lets go of what was said.
pub fn check(rt: &(impl Abort + AllocGlobal), said: Vec<u8>, before: &str, wanted: &str) {
    let found = said.strip_prefix(before.as_bytes()).unwrap_or_default();
    assert_eq!(rt; found, wanted.as_bytes(), "{wanted}");
}

/// What a keeper is asked.
#[derive(Clone, Copy)]
pub enum Line {
    Number,
    Failures,
    Boot,
    /// What is loaded is written as a registry's text.
    Load,
    /// To save the empty batch.
    SaveNone,
    /// To save the first group.
    SaveFirst,
    /// To save the second and the third, in one batch.
    SaveRest,
}

/// Asks the keeper each of the lines. Its answers are put behind what was said before, as lines.
pub fn ask<K: Keeper>(
    alloc: Global,
    keeper: &mut K,
    lines: &[Line],
    said: &mut Vec<u8>,
) -> io::Result<()> {
    for line in lines {
        let answer = answer(alloc, keeper, *line, said)?;
        tell(answer, said)?;
    }
    Ok(())
}

// What the keeper answers a line. What it loads is told.
fn answer<K: Keeper>(
    alloc: Global,
    keeper: &mut K,
    line: Line,
    said: &mut Vec<u8>,
) -> io::Result<Said> {
    match line {
        Line::Number => Ok(Said::Count(u64::from(keeper.number()))),
        Line::Failures => Ok(Said::Count(keeper.failures())),
        Line::Boot => Ok(booted(keeper)),
        Line::Load => loaded(alloc, keeper, said),
        Line::SaveNone => Ok(done(save_none(keeper))),
        Line::SaveFirst => Ok(done(save_one(alloc, keeper, FIRST))),
        Line::SaveRest => Ok(done(save_two(alloc, keeper, SECOND, THIRD))),
    }
}

fn booted<K: Keeper>(keeper: &mut K) -> Said {
    match keeper.boot() {
        Ok(boot) => Said::Boot(boot),
        Err(fault) => Said::Refused(fault),
    }
}

fn loaded<K: Keeper>(alloc: Global, keeper: &mut K, said: &mut Vec<u8>) -> io::Result<Said> {
    match keeper.load(alloc) {
        Ok(saved) => match saved.text(said) {
            Ok(()) => Ok(Said::Loaded),
            Err(_) => Err(io::Error::other("the text is not written")),
        },
        Err(fault) => Ok(Said::Refused(fault)),
    }
}

fn done(outcome: Result<(), KeeperFault>) -> Said {
    match outcome {
        Ok(()) => Said::Done,
        Err(fault) => Said::Refused(fault),
    }
}

/// Tells an answer as a line.
pub fn tell(answer: Said, said: &mut Vec<u8>) -> io::Result<()> {
    match answer {
        Said::Loaded => Ok(()),
        Said::Done => tell_word(said, "ok"),
        Said::Count(count) => tell_count(said, "", count),
        Said::Boot(boot) => tell_count(said, "boot ", u64::from(boot)),
        Said::Refused(fault) => tell_word(said, word_of(fault)),
    }
}

fn tell_word(said: &mut Vec<u8>, word: &str) -> io::Result<()> {
    said.extend_from_slice(word.as_bytes())?;
    said.push(b'\n')?;
    Ok(())
}

fn tell_count(said: &mut Vec<u8>, word: &str, count: u64) -> io::Result<()> {
    writeln!(said, "{word}{count}")
}

fn word_of(fault: KeeperFault) -> &'static str {
    match fault {
        KeeperFault::Memory => "memory",
        KeeperFault::Broken => "broken",
        KeeperFault::WrongNode => "wrong node",
        KeeperFault::BadRow => "bad row",
        KeeperFault::NamesSpent => "names spent",
    }
}

fn save_none<K: Keeper>(keeper: &mut K) -> Result<(), KeeperFault> {
    keeper.save(&[])
}

/// Saves an operation, where what is loaded has none of its name; else it answers that a row is
/// bad.
pub fn save_one<K: Keeper>(alloc: Global, keeper: &mut K, op: Op) -> Result<(), KeeperFault> {
    let saved = match keeper.load(alloc) {
        Ok(saved) => saved,
        Err(fault) => return Err(fault),
    };
    if !is_new(&saved, &op) {
        return Err(KeeperFault::BadRow);
    }
    keeper.save(&[op])
}

// The same of two operations, whose names differ.
fn save_two<K: Keeper>(
    alloc: Global,
    keeper: &mut K,
    first: Op,
    second: Op,
) -> Result<(), KeeperFault> {
    let saved = match keeper.load(alloc) {
        Ok(saved) => saved,
        Err(fault) => return Err(fault),
    };
    if !are_new(&saved, &first, &second) {
        return Err(KeeperFault::BadRow);
    }
    keeper.save(&[first, second])
}

fn is_new(saved: &OpSet, op: &Op) -> bool
    ensures { IsTrue result → AreNew (op.now ∷ []) saved.now }
{
    is_unused(saved, op)
}

// Whether no saved operation has one of the two names, which differ.
fn are_new(saved: &OpSet, first: &Op, second: &Op) -> bool
    ensures { IsTrue result → AreNew (first.now ∷ second.now ∷ []) saved.now }
{
    if !are_apart(first, second) {
        return false;
    }
    if !is_unused(saved, first) {
        return false;
    }
    is_unused(saved, second)
}

fn are_apart(first: &Op, second: &Op) -> bool
    ensures { IsTrue result → AreApart first.now second.now }
{
    first.name != second.name
}

// Whether no saved operation has its name.
fn is_unused(saved: &OpSet, op: &Op) -> bool
    ensures { IsTrue result → IsUnused op.now saved.now }
{
    !saved.contains(op) && saved.clash(op).is_none()
}
