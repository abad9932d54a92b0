//! The bytes that wait to be written.
ghost use Rattle.std.specs.Prelude.{◌≡◌, ◌++◌, [], OnErr, OnOk};
ghost use Rattle.std.specs.Bool.{OnTrue, OnFalse};
ghost use Rattle.std.specs.List.{flat_map};
ghost use Rattle.fl_sink.specs.Sink.{Puts, Writes};

use crate::writer::Writer;
use std::alloc::Global;
use std::marker::Model;
use thiserror::Error;

/// The bytes from which on no more are held.
const ENOUGH: usize = 65_536;

/// A write failed, or took no bytes.
#[derive(Clone, Copy, Debug, PartialEq, Eq, Error)]
#[error("write fault")]
pub struct WriteFault;

/// Writes all the bytes, by as many writes as the writer needs.
///
/// A write that fails or takes no bytes is a fault; a front of the bytes was written then.
pub fn write_out<W: Writer>(output: &mut W, bytes: &[u8]) -> Result<(), WriteFault>
    ensures writes { Writes (W.contents output.old) (W.contents output.new) bytes.now result }
    ensures cause { OnErr result (W.has_failed output.new) }
{
    let mut rest = bytes;
    while !rest.is_empty() {
        match output.write_some(rest) {
            Ok(count) if count > 0 => rest = &rest[count..],
            _ => return Err(WriteFault),
        }
    }
    Ok(())
}

/// Bytes that wait to be written, in their order. It stands beside the writer that they are for.
/// Where 64 KiB wait, they are written before any more.
#[derive(Drop)]
pub struct Sink {
    pending: Vec<u8>,
}

impl Model for Sink {
    ghost use Rattle.std.specs.Prelude.{List, ℕ};

    ghost Value = { List ℕ };

    ghost view = { λ s. s.pending.items };
}

impl Sink {
    /// A sink in which nothing waits. It takes no memory before the first bytes are put.
    pub fn new(alloc: Global) -> Self
        ensures { result ≡ [] }
    {
        Sink {
            pending: Vec::new(alloc),
        }
    }

    /// Writes what waits, so that nothing does. The writer is not flushed.
    ///
    /// At a fault a front of what waited was written, and the sink may not be used again.
    pub fn finish<W: Writer>(&mut self, output: &mut W) -> Result<(), WriteFault>
        ensures writes { Writes (W.contents output.old) (W.contents output.new) self.old result }
        ensures empty { OnOk result (self.new ≡ []) }
        ensures cause { OnErr result (W.has_failed output.new) }
    {
        write_out(output, &self.pending)?;
        self.pending.clear();
        Ok(())
    }

    /// Takes the bytes, to be written after what waits.
    ///
    /// They wait where less than 64 KiB do; else what waits is written first. Where there is no
    /// memory to wait in, all is written now, so that want of memory is no fault. At a fault a
    /// front of what waited and the bytes was written, and the sink may not be used again.
    #[inline(always)]
    pub fn put<W: Writer>(&mut self, output: &mut W, bytes: &[u8]) -> Result<(), WriteFault>
        ensures puts { let text = bytes.now in
            Puts (W.contents output.old) (W.contents output.new) self.old text self.new result }
        ensures cause { OnErr result (W.has_failed output.new) }
    {
        if self.hold(bytes) {
            return Ok(());
        }
        self.put_past(output, bytes)
    }

    /// Takes the pieces, one after another, as [`Sink::put`] does.
    pub fn put_all<W: Writer>(&mut self, output: &mut W, pieces: &[&[u8]]) -> Result<(), WriteFault>
        ensures puts { let text = flat_map (λ p. p.now) pieces.now in
            Puts (W.contents output.old) (W.contents output.new) self.old text self.new result }
        ensures cause { OnErr result (W.has_failed output.new) }
    {
        for piece in pieces {
            self.put(output, piece)?;
        }
        Ok(())
    }

    // Writes what waits, and takes the bytes then.
    #[tactic(auto, using(crate::proofs::SinkLemmas::passes))]
    fn put_past<W: Writer>(&mut self, output: &mut W, bytes: &[u8]) -> Result<(), WriteFault>
        ensures puts { let text = bytes.now in
            Puts (W.contents output.old) (W.contents output.new) self.old text self.new result }
        ensures cause { OnErr result (W.has_failed output.new) }
    {
        self.finish(output)?;
        if self.hold(bytes) {
            return Ok(());
        }
        write_out(output, bytes)
    }

    // Keeps the bytes after what waits, where that is little and there is memory.
    fn hold(&mut self, bytes: &[u8]) -> bool
        ensures held { OnTrue result (self.new ≡ self.old ++ bytes.now) }
        ensures refused { OnFalse result (self.new ≡ self.old) }
    {
        if self.pending.len() >= ENOUGH {
            return false;
        }
        // Many pieces are one byte, as a dot, a digit or a line feed.
        if let [byte] = bytes {
            return self.pending.push(*byte).is_ok();
        }
        self.pending.extend_from_slice(bytes).is_ok()
    }
}
