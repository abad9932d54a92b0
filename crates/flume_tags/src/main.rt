//! `flume-tags`: reads a script from standard input, and writes the answers to its lines to
//! standard output.
#![tactic(auto)]

ghost use Rattle.std.specs.Prelude.{◌≤◌};

use fl_cluster::fault::RunFault;
use fl_cluster::run::converse;
use fl_cluster::standard::{exit_code, tell_length};
use fl_cluster::watched::Watched;
use fl_dir_maker::host::HostMaker;
use fl_makers::maker::MakesKeepers;
use fl_makers::mem::MemMaker;
use fl_words::words::{BAD_WORDS, Place, Settings, WordsFault, read_words};
use std::alloc::AllocGlobal;
use std::mem::forget;
use std::process::ExitCode;
use std::sync::Wait;
use std::thread::Threads;
use std::{env, io};

/// What becomes of the session behind the last line.
#[derive(Clone, Copy)]
enum AtEnd {
    /// It is left as it is, since the program ends with it.
    Left,
    /// The maker of its keepers closes them.
    Closed,
}

/// Answers the script of standard input over these keepers, by one call after another.
fn answered_in_turn<M: MakesKeepers + Drop>(
    rt: &HostRuntime,
    keepers: M,
    at_end: AtEnd,
) -> Result<u8, RunFault> {
    let mut input = Watched::new(rt.reader());
    let mut output = io::writer(rt);
    let (session, result) = converse(rt, &mut input, &mut output, keepers);
    tell_length(rt, &input, result);
    match at_end {
        AtEnd::Left => forget(session),
        AtEnd::Closed => drop(session.close()),
    }
    result
}

/// Answers it by crews of so many workers, and has the maker of their keepers close them.
fn answered_by_crews<
    R: AllocGlobal + Threads + Wait + Sync + Send + Copy + Drop + 'static,
    M: MakesKeepers + Drop,
>(rt: &HostRuntime, waits: R, workers: u8, keepers: M) -> Result<u8, RunFault>
    requires some { 1 ≤ workers }
    requires few { workers ≤ 16 }
{
    let mut input = Watched::new(rt.reader());
    let mut output = io::writer(rt);
    let (session, result) = fl_crews::run::converse(
        waits,
        &mut input,
        &mut output,
        workers,
        keepers,
    );
    tell_length(rt, &input, result);
    let _closed = session.close();
    result
}

/// Answers it over these keepers, where each node has so many workers, or none.
fn answered_over<
    R: AllocGlobal + Threads + Wait + Sync + Send + Copy + Drop + 'static,
    M: MakesKeepers + Drop,
>(rt: &HostRuntime, waits: R, workers: u8, keepers: M, at_end: AtEnd) -> Result<u8, RunFault>
    requires { workers ≤ 16 }
{
    if workers > 0 {
        return answered_by_crews(rt, waits, workers, keepers);
    }
    answered_in_turn(rt, keepers, at_end)
}

/// Runs the program, but where its words were refused, or its help or version was asked for.
fn answered<R: AllocGlobal + Threads + Wait + Sync + Send + Copy + Drop + 'static>(
    rt: &HostRuntime,
    waits: R,
) -> Result<u8, RunFault> {
    let words = env::args(rt).map_err(|_| RunFault::Memory)?;
    let words: Vec<String> = words.collect(rt.alloc()).map_err(|_| RunFault::Memory)?;
    let Settings { workers, place } = match read_words(rt, &words) {
        Ok(settings) => settings,
        Err(WordsFault::Refused) => return Ok(BAD_WORDS),
        Err(WordsFault::Memory) => return Err(RunFault::Memory),
    };
    match place {
        Place::Memory => answered_over(rt, waits, workers, MemMaker, AtEnd::Left),
        Place::Directory(dir) => {
            answered_over(rt, waits, workers, HostMaker::new(rt, dir), AtEnd::Closed)
        }
    }
}

fn main(rt: HostRuntime) -> ExitCode {
    exit_code(&rt, answered(&rt, rt))
}
