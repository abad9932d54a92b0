//! Tests of a keeper whose files stop at some call.
ghost use Rattle.std.specs.Prelude.{IsTrue};

use crate::asking::Line;
use crate::databases::{FIRST_FORMAT, TELLS_FORMAT, Visit, asked};
use sqlite::{Connection, FileStore, Files, Options};
use sqlite_disk::{Crash, Disk, Fuse, Memory};
use std::alloc::{AllocGlobal, Global};
use std::io;
use std::process::Abort;
use std::test::Fail;

/// What is said in a run whose files stop, and what the next opening may then find: nothing of the
/// step that failed, or all of it.
type Stop = (&'static str, [&'static str; 2]);

/// One of the two files of a database.
#[derive(Clone, Copy)]
enum Part {
    Log,
    Database,
}

/// Where what was written stands as a connection is let go.
#[derive(Clone, Copy)]
enum Left {
    /// In the database, into which the log is copied.
    InTheDatabase,
    /// In the log, as where the process ends.
    InTheLog,
}

/// A run over files that stop.
struct Run {
    /// What comes before, while the files do not stop.
    before: &'static [Visit],
    /// Where that stands then.
    left: Left,
    /// What is done until they stop.
    visit: Visit,
    /// What finds out what is left, after the machine went down and came back.
    after: Visit,
    stops: &'static [Stop],
}

/// Two saves after a boot. Each fault is counted, and nothing is served after it.
const SAVES: [Line; 8] = [
    Line::Boot,
    Line::Failures,
    Line::SaveFirst,
    Line::Failures,
    Line::SaveRest,
    Line::Failures,
    Line::Load,
    Line::SaveNone,
];

/// A database is made, booted, and saved in twice.
static KEEPING: Run = Run {
    before: &[],
    left: Left::InTheDatabase,
    visit: ("", 1, &SAVES),
    after: ("", 1, &[Line::Boot, Line::Load]),
    stops: &[
        ("", ["boot 1\n"; 2]),
        ("broken\n", ["boot 1\n"; 2]),
        (
            "broken\n1\nbroken\n1\nbroken\n1\nbroken\nbroken\n",
            ["boot 1\n", "boot 2\n"],
        ),
        (
            "boot 1\n0\nbroken\n1\nbroken\n1\nbroken\nbroken\n",
            ["boot 2\n", "boot 2\n1.1 group\n"],
        ),
        (
            "boot 1\n0\nok\n0\nbroken\n1\nbroken\nbroken\n",
            [
                "boot 2\n1.1 group\n",
                "boot 2\n1.1 group\n1.2 group\n1.3 group\n",
            ],
        ),
        (
            "boot 1\n0\nok\n0\nok\n0\n1.1 group\n1.2 group\n1.3 group\nok\n",
            ["boot 2\n1.1 group\n1.2 group\n1.3 group\n"; 2],
        ),
    ],
};

/// A save after a boot, in the same way.
const SAVE: [Line; 6] = [
    Line::Boot,
    Line::Failures,
    Line::SaveRest,
    Line::Failures,
    Line::Load,
    Line::SaveNone,
];

/// The database of node 1 with one operation.
const BEFORE: &[Visit] = &[("", 1, &[Line::Boot, Line::SaveFirst])];

/// Where such a run stops, over that database.
const OPENED: &[Stop] = &[
    ("", ["boot 2\n1.1 group\n"; 2]),
    ("broken\n", ["boot 2\n1.1 group\n"; 2]),
    (
        "broken\n1\nbroken\n1\nbroken\nbroken\n",
        ["boot 2\n1.1 group\n", "boot 3\n1.1 group\n"],
    ),
    (
        "boot 2\n0\nbroken\n1\nbroken\nbroken\n",
        [
            "boot 3\n1.1 group\n",
            "boot 3\n1.1 group\n1.2 group\n1.3 group\n",
        ],
    ),
    (
        "boot 2\n0\nok\n0\n1.1 group\n1.2 group\n1.3 group\nok\n",
        ["boot 3\n1.1 group\n1.2 group\n1.3 group\n"; 2],
    ),
];

/// A database that has its tables is opened, booted and saved in.
static OPENING: Run = Run {
    before: BEFORE,
    left: Left::InTheDatabase,
    visit: ("", 1, &SAVE),
    after: ("", 1, &[Line::Boot, Line::Load]),
    stops: OPENED,
};

/// The same, where the log still has all of it.
static RECOVERING: Run = Run {
    before: BEFORE,
    left: Left::InTheLog,
    visit: ("", 1, &SAVE),
    after: ("", 1, &[Line::Boot, Line::Load]),
    stops: OPENED,
};

const IN_FIRST: &str = "boot 11\n1.1 tag export\n1.2 group\n1.3 put 1.2 +1.1\n";

const IN_SECOND: &str = "boot 21\n1.1 tag export\n1.2 group\n1.3 put 1.2 +1.1\n";

/// A database of the first format is opened, which writes it in the second, and loaded.
static REWRITING: Run = Run {
    before: &[(FIRST_FORMAT, 1, &[])],
    left: Left::InTheDatabase,
    visit: (
        "",
        1,
        &[Line::Number, Line::Load, Line::Failures, Line::SaveNone],
    ),
    after: (TELLS_FORMAT, 1, &[Line::Boot, Line::Load]),
    stops: &[
        ("", [IN_FIRST; 2]),
        ("broken\n", [IN_FIRST, IN_SECOND]),
        ("1\nbroken\n1\nbroken\n", [IN_SECOND; 2]),
        (
            "1\n1.1 tag export\n1.2 group\n1.3 put 1.2 +1.1\n0\nok\n",
            [IN_SECOND; 2],
        ),
    ],
};

// The files of a connection, whose log is copied into the database where that is asked for and they
// allow it.
fn closed<D: Disk + Drop>(conn: Connection<FileStore<D>>, left: Left) -> Files<D> {
    match left {
        Left::InTheLog => conn.into_store().close(),
        Left::InTheDatabase => match conn.close_files() {
            Ok(files) => files,
            Err((_error, store)) => store.close(),
        },
    }
}

// A visit to the database of these files, which are handed back. Nothing is said where they cannot
// be opened.
fn visited<D: Disk + Drop>(
    alloc: Global,
    files: Files<D>,
    visit: Visit,
    left: Left,
    said: &mut Vec<u8>,
) -> (Files<D>, io::Result<()>) {
    if !files.may_be_used() {
        return (files, Ok(()));
    }
    match Connection::open_files(alloc, files, Options::new(1)) {
        Ok(conn) => {
            let (conn, outcome) = asked(alloc, conn, visit, said);
            (closed(conn, left), outcome)
        }
        Err((_error, left)) => (left.into_files(), Ok(())),
    }
}

// The files, each of which stops after so many calls.
fn fused(files: Files<Memory>, log_calls: u64, db_calls: u64) -> Files<Fuse<Memory>> {
    let Files { log, db } = files;
    Files {
        log: Fuse::new(log, log_calls),
        db: Fuse::new(db, db_calls),
    }
}

// The machine goes down and comes back.
fn crashed<D: Crash>(files: Files<D>) -> Files<D> {
    let Files { mut log, mut db } = files;
    log.crash();
    db.crash();
    Files { log, db }
}

// The run over these files. What it says, and what is then found, is put behind what was said.
fn stopped<D: Crash + Drop>(
    alloc: Global,
    files: Files<D>,
    run: &Run,
    said: &mut Vec<u8>,
    found: &mut Vec<u8>,
) -> io::Result<()> {
    let (files, outcome) = visited(alloc, files, run.visit, Left::InTheDatabase, said);
    let (_files, looked) = visited(alloc, crashed(files), run.after, Left::InTheDatabase, found);
    outcome?;
    looked
}

// Which of the stops this is, where it may be found so.
fn place_of(run: &Run, said: &[u8], found: &[u8]) -> Option<usize> {
    for (place, (wanted, left)) in run.stops.iter().enumerate() {
        if said == wanted.as_bytes() {
            let is_left = found == left[0].as_bytes() || found == left[1].as_bytes();
            return is_left.then_some(place);
        }
    }
    None
}

// The files as the run begins.
fn started(alloc: Global, run: &Run) -> io::Result<Files<Memory>> {
    let mut said = Vec::new(alloc);
    let mut files = Files {
        log: Memory::new(alloc),
        db: Memory::new(alloc),
    };
    for visit in run.before {
        let (left, outcome) = visited(alloc, files, *visit, run.left, &mut said);
        files = left;
        outcome?;
    }
    Ok(files)
}

// Which stop it is that one of the files stops after so many calls.
fn stop_at(alloc: Global, run: &Run, part: Part, calls: u64) -> io::Result<Option<usize>> {
    let mut said = Vec::new(alloc);
    let mut found = Vec::new(alloc);
    let files = started(alloc, run)?;
    let files = match part {
        Part::Log => fused(files, calls, u64::MAX),
        Part::Database => fused(files, u64::MAX, calls),
    };
    stopped(alloc, files, run, &mut said, &mut found)?;
    Ok(place_of(run, said.as_slice(), found.as_slice()))
}

// Stops one of the files at each of its calls in turn, up to the run that comes to its end. Gives
// at how many it stops there.
fn stops(rt: &(impl Abort + AllocGlobal), run: &Run, part: Part) -> Result<u64, Fail> {
    for calls in 0..10_000u64 {
        let place = stop_at(rt.alloc(), run, part, calls)?;
        assert!(rt; place.is_some(), "{calls}");
        if place == run.stops.len().checked_sub(1) {
            return Ok(calls);
        }
    }
    Err(Fail::from("no run came to its end"))
}

#[test]
fn stopped_at_each_call_of_the_log(rt: HostRuntime) -> Result<(), Fail> {
    assert!(rt; stops(&rt, &KEEPING, Part::Log)? > 20);
    Ok(())
}

#[test]
fn stopped_at_each_call_of_the_database(rt: HostRuntime) -> Result<(), Fail> {
    assert!(rt; stops(&rt, &KEEPING, Part::Database)? > 3);
    Ok(())
}

#[test]
fn opening_stops_at_each_call_of_the_log(rt: HostRuntime) -> Result<(), Fail> {
    assert!(rt; stops(&rt, &OPENING, Part::Log)? > 3);
    assert!(rt; stops(&rt, &RECOVERING, Part::Log)? > 3);
    Ok(())
}

#[test]
fn opening_stops_at_each_call_of_the_database(rt: HostRuntime) -> Result<(), Fail> {
    assert!(rt; stops(&rt, &OPENING, Part::Database)? > 3);
    assert!(rt; stops(&rt, &RECOVERING, Part::Database)? > 3);
    Ok(())
}

#[test]
fn rewriting_stops_at_each_call_of_the_log(rt: HostRuntime) -> Result<(), Fail> {
    assert!(rt; stops(&rt, &REWRITING, Part::Log)? > 5);
    Ok(())
}

#[test]
fn rewriting_stops_at_each_call_of_the_database(rt: HostRuntime) -> Result<(), Fail> {
    assert!(rt; stops(&rt, &REWRITING, Part::Database)? > 3);
    Ok(())
}
