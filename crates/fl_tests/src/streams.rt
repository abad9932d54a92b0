//! Readers and writers that fail, and a reader that waits for its answers.
use std::cell::Cell;
use std::io::{Error, ErrorKind, Read, Result, Write};

/// Gives its text some bytes at a time, and fails at one read.
#[derive(Drop)]
pub struct FailingReader<'a> {
    pub text: &'a [u8],
    pub piece: usize,
    pub reads: usize,
    pub fail_at: usize,
}

impl Read for FailingReader<'_> {
    fn read(&mut self, buf: &mut [u8]) -> Result<usize> {
        self.reads = self.reads.saturating_add(1);
        if self.reads == self.fail_at {
            return Err(Error::from(ErrorKind::Other));
        }
        let count = self.text.len().min(self.piece).min(buf.len());
        buf[..count].copy_from_slice(&self.text[..count]);
        self.text = &self.text[count..];
        Ok(count)
    }
}

/// Gives its text, and then comments of 16 KiB, so many bytes in all. It holds none of them.
#[derive(Drop)]
pub struct LongReader<'a> {
    pub text: &'a [u8],
    pub left: usize,
}

impl Read for LongReader<'_> {
    fn read(&mut self, buf: &mut [u8]) -> Result<usize> {
        let room = buf.len().min(self.left).min(16_384);
        let count = if self.text.is_empty() {
            comment(&mut buf[..room]);
            room
        } else {
            let count = self.text.len().min(room);
            buf[..count].copy_from_slice(&self.text[..count]);
            self.text = &self.text[count..];
            count
        };
        self.left -= count;
        Ok(count)
    }
}

// Fills the bytes with the line of a comment.
fn comment(line: &mut [u8]) {
    line.fill(b'#');
    if let Some(end) = line.last_mut() {
        *end = b'\n';
    }
}

/// Takes so many bytes, some at a time, and then fails, or takes none.
#[derive(Drop)]
pub struct FailingWriter {
    pub taken: Vec<u8>,
    pub room: usize,
    pub piece: usize,
    pub fails: bool,
}

impl Write for FailingWriter {
    fn write(&mut self, buf: &[u8]) -> Result<usize> {
        let count = buf.len().min(self.piece).min(self.room);
        if count == 0 && self.fails {
            return Err(Error::from(ErrorKind::Other));
        }
        self.taken.extend_from_slice(&buf[..count])?;
        self.room -= count;
        Ok(count)
    }

    fn flush(&mut self) -> Result<()> {
        Ok(())
    }
}

/// Gives a line at a time, and fails where the answers to the lines before were not written and
/// flushed.
#[derive(Drop)]
pub struct AskingReader<'a> {
    pub lines: &'a [&'a [u8]],
    /// The bytes of all answers before each read.
    pub answered: &'a [usize],
    pub at: usize,
    pub flushed: &'a Cell<usize>,
}

impl Read for AskingReader<'_> {
    fn read(&mut self, buf: &mut [u8]) -> Result<usize> {
        let at = self.at;
        if at >= self.answered.len() || self.answered[at] != self.flushed.get() {
            return Err(Error::from(ErrorKind::Other));
        }
        if at >= self.lines.len() {
            return Ok(0);
        }
        let line = self.lines[at];
        let count = line.len().min(buf.len());
        buf[..count].copy_from_slice(&line[..count]);
        self.at = at + 1;
        Ok(count)
    }
}

/// Keeps what was written, and how much of it was flushed.
#[derive(Drop)]
pub struct FlushedWriter<'a> {
    pub taken: Vec<u8>,
    pub flushed: &'a Cell<usize>,
}

impl Write for FlushedWriter<'_> {
    fn write(&mut self, buf: &[u8]) -> Result<usize> {
        self.taken.extend_from_slice(buf)?;
        Ok(buf.len())
    }

    fn flush(&mut self) -> Result<()> {
        self.flushed.set(self.taken.len());
        Ok(())
    }
}
