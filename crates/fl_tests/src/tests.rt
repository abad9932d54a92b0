//! Tests of whole runs.
use crate::rows::{
    ALIASES_AND_BIRTHS, FORMS_OF_LINES, LAST_RETURN_STAYS, READ_AND_INTEGRITY_TAGS,
    RECEIVED_BATCH_IN_STEPS, Row, TUNED_ENDPOINT_SENDS,
};
use crate::streams::{AskingReader, FailingReader, FailingWriter, FlushedWriter, LongReader};
use fl_cluster::fault::RunFault;
use fl_cluster::options::Options;
use fl_cluster::run::run;
use fl_makers::maker::MakesKeepers;
use fl_makers::mem::MemMaker;
use std::cell::Cell;
use std::io::{Read, Write};
use std::process::Abort;
use std::test::Fail;

/// The row as it stands, and in pieces of all sizes, with each read and each byte of writing
/// failing once.
fn check_row(rt: &(impl Abort + AllocGlobal), row: &Row) -> Result<(), Fail> {
    check_over(rt, row, MemMaker)?;
    for piece in 1..=row.script.len() {
        check_pieces(rt, row, piece)?;
    }
    for room in 0..row.output.len() {
        check_writes(rt, row, room, false)?;
        check_writes(rt, row, room, true)?;
    }
    Ok(())
}

/// The row as it stands, over these keepers.
pub(crate) fn check_over<M: MakesKeepers + Drop>(
    rt: &(impl Abort + AllocGlobal),
    row: &Row,
    keepers: M,
) -> Result<(), Fail> {
    let mut input = row.script;
    let mut output = Vec::new(rt.alloc());
    let (_session, status) = run(rt, &mut input, &mut output, Options::default(), keepers);
    assert_eq!(rt; status?, row.status);
    assert_eq!(rt; output.as_slice(), row.output);
    Ok(())
}

// A run over keepers in memory.
fn run_on<R: Read, W: Write>(
    rt: &impl AllocGlobal,
    input: &mut R,
    output: &mut W,
) -> Result<u8, RunFault> {
    run(rt, input, output, Options::default(), MemMaker).1
}

/// In pieces of any size the same is written. Where a read fails, a prefix of it is.
fn check_pieces(rt: &(impl Abort + AllocGlobal), row: &Row, piece: usize) -> Result<(), Fail> {
    let reads = row.script.len().div_ceil(piece.max(1)) + 1;
    for fail_at in 1..=reads {
        let mut input = FailingReader {
            text: row.script,
            piece,
            reads: 0,
            fail_at,
        };
        let mut output = Vec::new(rt.alloc());
        assert_eq!(rt; run_on(rt, &mut input, &mut output), Err(RunFault::Read));
        assert!(rt; row.output.starts_with(&output));
    }
    let mut input = FailingReader {
        text: row.script,
        piece,
        reads: 0,
        fail_at: 0,
    };
    let mut output = Vec::new(rt.alloc());
    assert_eq!(rt; run_on(rt, &mut input, &mut output)?, row.status);
    assert_eq!(rt; output.as_slice(), row.output);
    Ok(())
}

/// Where the writer has so much room, just that much is written.
fn check_writes(
    rt: &(impl Abort + AllocGlobal),
    row: &Row,
    room: usize,
    fails: bool,
) -> Result<(), Fail> {
    let mut input = row.script;
    let mut output = FailingWriter {
        taken: Vec::new(rt.alloc()),
        room,
        piece: 5,
        fails,
    };
    assert_eq!(rt; run_on(rt, &mut input, &mut output), Err(RunFault::Write));
    assert!(rt; row.output.starts_with(&output.taken));
    assert_eq!(rt; output.taken.len(), room);
    Ok(())
}

#[test]
fn read_and_integrity_tags(rt: HostRuntime) -> Result<(), Fail> {
    check_row(&rt, &READ_AND_INTEGRITY_TAGS)
}

#[test]
fn forms_of_lines(rt: HostRuntime) -> Result<(), Fail> {
    check_row(&rt, &FORMS_OF_LINES)
}

#[test]
fn last_return_stays(rt: HostRuntime) -> Result<(), Fail> {
    check_row(&rt, &LAST_RETURN_STAYS)
}

#[test]
fn aliases_and_births(rt: HostRuntime) -> Result<(), Fail> {
    check_row(&rt, &ALIASES_AND_BIRTHS)
}

#[test]
fn tuned_endpoint_sends(rt: HostRuntime) -> Result<(), Fail> {
    check_row(&rt, &TUNED_ENDPOINT_SENDS)
}

#[test]
fn received_batch_in_steps(rt: HostRuntime) -> Result<(), Fail> {
    check_row(&rt, &RECEIVED_BATCH_IN_STEPS)
}

/// Who asks line by line sees each answer before it is asked for the next line.
#[test]
fn answers_before_it_reads_on(rt: HostRuntime) -> Result<(), Fail> {
    let flushed = Cell::new(0);
    let mut input = AskingReader {
        lines: &[
            b"1 proc\n",
            b"1 tag p1.1.1 re",
            b"ad\n# note\n1 ask p1.1.1 +1.1\n1 ask",
            b" p1.1.1 *1.1\r\n",
            b"2 proc\n1 text",
        ],
        answered: &[0, 7, 7, 18, 26, 33],
        at: 0,
        flushed: &flushed,
    };
    let mut output = FlushedWriter {
        taken: Vec::new(rt.alloc()),
        flushed: &flushed,
    };
    assert_eq!(rt; run_on(&rt, &mut input, &mut output)?, 0);
    assert_eq!(rt;
        output.taken.as_slice(),
        b"p1.1.1\nok 1.1\nyes\nnot-yet\np2.1.1\n1.1 tag read\n".as_slice()
    );
    assert_eq!(rt; flushed.get(), output.taken.len());
    Ok(())
}

// What a run of a process and of so many bytes in all gives, once it answered the process.
fn run_of_length(rt: &(impl Abort + AllocGlobal), length: usize) -> Result<u8, RunFault> {
    let mut input = LongReader {
        text: b"1 proc\n",
        left: length,
    };
    let mut output = Vec::new(rt.alloc());
    let status = run_on(rt, &mut input, &mut output);
    assert_eq!(rt; output.as_slice(), b"p1.1.1\n".as_slice());
    status
}

#[test]
fn longest_script_and_one_byte_more(rt: HostRuntime) {
    assert_eq!(rt; run_of_length(&rt, 16_777_216), Ok(0));
    assert_eq!(rt; run_of_length(&rt, 16_777_217), Err(RunFault::Read));
}
