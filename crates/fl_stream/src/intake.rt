//! A script is heard, some bytes at a time, and its lines are handed out.
ghost use Rattle.std.specs.Prelude.{◌≡◌, ◌+◌, ◌++◌, ◌^◌, ◌<◌, ◌≤◌, ◌⊎◌, ◌↔◌, [], ℕ, List, Option};
ghost use Rattle.std.specs.Prelude.{IfErr, IfOk, IfSome, OnErr, OnOk, false, true, length, vec_len};
ghost use Rattle.std.specs.Bool.{IsTrue, OnFalse, OnTrue};
ghost use Rattle.std.specs.Io.KnownBytes.{Appends, IsAtEnd};
ghost use Rattle.fl_sink.specs.Sink.{Cuts, Passes};
ghost use Rattle.fl_stream.specs.Served.{CountsPast, HasNoFeed, Outgrows};
ghost use Rattle.fl_stream.specs.Intake.{CutsLine, FindsEnd, HandsOut, HearsNoMore};
ghost use Rattle.fl_stream.specs.Intake.{HearsMore, HearsPart, fresh_intake, may_ask, waiting};

use crate::conversation::Conversation;
use crate::fault::RunFault;
use crate::split::{find_feed, without_return};
use crate::tally::send;
use fl_sink::sink::Sink;
use fl_sink::writer::Writer;
use std::alloc::Global;
use std::marker::Model;

/// The most bytes that are heard at once.
const AT_ONCE: usize = 65_536;

/// The most bytes of a line that has not ended, behind which more are heard.
const MOST_HELD: usize = 16_777_216;

/// What was heard of a script, of which the lines are handed out one after another, and how many
/// more bytes may be heard.
#[derive(Drop)]
pub struct Intake {
    // What came before the chunk of a line that has not ended, with room behind it for a chunk; or
    // the line that was handed out, where some of it came before, or it is the last.
    held: Vec<u8>,
    is_handed_out: bool,
    chunk: Vec<u8>,
    // Where the line that was handed out begins in the chunk, if it lies there whole, and how long
    // it is.
    start: usize,
    length: usize,
    // Where what waits in the chunk begins, and where it ends.
    next: usize,
    heard: usize,
    room: usize,
    has_ended: bool,
}

impl Model for Intake {
    ghost use Rattle.std.specs.Prelude.{◌≡◌, ◌+◌, ◌<◌, ◌≤◌, ◌==◌, [], false, true};
    ghost use Rattle.std.specs.Prelude.{if◌then◌else◌, slice_range};
    ghost use Rattle.std.specs.Vec.{vec_len, vec_capacity};
    ghost use Rattle.std.specs.Str.Lines.{strip_carriage_return};
    ghost use Rattle.fl_stream.specs.Served.{HasNoFeed};
    ghost use Rattle.fl_stream.specs.Intake.{IntakeState, coded_intake};

    ghost Value = { IntakeState };

    ghost coded = { coded_intake };

    ghost view = { λ i. record {
      line =
          if vec_len i.held == 0
          then strip_carriage_return
          (slice_range i.chunk.items i.start (i.start + i.length))
          else if i.has_ended then i.held.items else strip_carriage_return i.held.items;
      held = if i.is_handed_out then [] else i.held.items;
      rest = slice_range i.chunk.items i.next i.heard;
      room = i.room;
      has_ended = i.has_ended;
    } };

    ghost invariant = { λ i.
        (i.is_handed_out ≡ false → HasNoFeed i.held.items)
        × (i.is_handed_out ≡ false → 0 < vec_len i.held →
        vec_len i.held + 65536 ≤ vec_capacity i.held)
        × (i.has_ended ≡ true → i.next ≡ i.heard)
        × (vec_len i.chunk ≡ 65536)
        × (i.start + i.length ≤ 65536) × (i.next ≤ i.heard) × (i.heard ≤ 65536) };
}

impl Intake {
    /// Before the first byte, of at most so many. `Memory` where there is no room for the 64 KiB
    /// that are heard at once.
    pub fn new(alloc: Global, room: usize) -> Result<Self, RunFault>
        ensures ok { IfOk result (λ intake. intake ≡ fresh_intake room) }
        ensures kind { IfErr result (λ e. e ≡ RunFault.Memory) }
    {
        Ok(Intake {
            held: Vec::new(alloc),
            is_handed_out: false,
            chunk: zeros(alloc, AT_ONCE)?,
            start: 0,
            length: 0,
            next: 0,
            heard: 0,
            room,
            has_ended: false,
        })
    }

    /// The line that was handed out last, without its line feed and a carriage return before that.
    pub fn line(&self) -> &[u8]
        ensures { result.now ≡ self.now.line }
    {
        if self.held.is_empty() {
            return without_return(&self.chunk[self.start..self.start + self.length]);
        }
        if self.has_ended {
            return &self.held;
        }
        without_return(&self.held)
    }

    // Hands out the line that is held, where it ends in the chunk. The rest of it is copied, for
    // which there is room behind it. Says whether it ends.
    #[inline(never)]
    fn end_held(&mut self) -> bool
        requires some { 0 < length self.old.held }
        ensures line { OnTrue result (CutsLine (waiting self.old) self.new) }
        ensures none { OnFalse result (HasNoFeed self.old.held) }
        ensures none_behind { OnFalse result (HasNoFeed self.old.rest) }
        ensures held { OnFalse result (self.new.held ≡ self.old.held) }
        ensures rest { OnFalse result (self.new.rest ≡ self.old.rest) }
        ensures room { self.new.room ≡ self.old.room }
        ensures ended { self.new.has_ended ≡ self.old.has_ended }
    {
        let rest = &self.chunk[self.next..self.heard];
        let Some(length) = find_feed(rest) else {
            return false;
        };
        let Ok(()) = self.held.extend_from_slice(&rest[..length]) else {
            unreachable!("there is room");
        };
        self.is_handed_out = true;
        self.next += length + 1;
        true
    }

    // Hands out the line that ends first in what waits, and says whether one does. A line that lies
    // whole in the chunk is not copied.
    fn cut(&mut self) -> bool
        ensures line { OnTrue result (CutsLine (waiting self.old) self.new) }
        ensures none { OnFalse result (HasNoFeed self.old.held) }
        ensures none_behind { OnFalse result (HasNoFeed self.old.rest) }
        ensures held { OnFalse result (self.new.held ≡ self.old.held) }
        ensures rest { OnFalse result (self.new.rest ≡ self.old.rest) }
        ensures room { self.new.room ≡ self.old.room }
        ensures ended { self.new.has_ended ≡ self.old.has_ended }
    {
        if !self.held.is_empty() {
            if !self.is_handed_out {
                return self.end_held();
            }
            self.held.clear();
            self.is_handed_out = false;
        }
        let Some(length) = find_feed(&self.chunk[self.next..self.heard]) else {
            return false;
        };
        self.start = self.next;
        self.length = length;
        self.next += length + 1;
        true
    }

    // Holds what waits in the chunk, with room behind it for all that is heard at once.
    fn hold(&mut self) -> Result<(), RunFault>
        requires goes_on { self.old.has_ended ≡ false }
        requires part { HasNoFeed self.old.rest }
        ensures held { OnOk result (self.new.held ≡ waiting self.old) }
        ensures rest { OnOk result (self.new.rest ≡ []) }
        ensures room { OnOk result (self.new.room ≡ self.old.room) }
        ensures ended { OnOk result (self.new.has_ended ≡ false) }
        ensures kind { IfErr result (λ e. e ≡ RunFault.Memory) }
        ensures some { OnErr result (0 < length self.old.rest) }
    {
        if self.next == self.heard {
            return Ok(());
        }
        if self.is_handed_out {
            self.held.clear();
            self.is_handed_out = false;
        }
        let part = &self.chunk[self.next..self.heard];
        if self.held.reserve(part.len() + AT_ONCE).is_err() {
            return Err(RunFault::Memory);
        }
        let Ok(()) = self.held.extend_from_slice(part) else {
            unreachable!("there is room");
        };
        self.next = self.heard;
        Ok(())
    }

    // Whether what is held is longer than any line behind which more are heard.
    fn holds_too_much(&self) -> bool
        ensures { IsTrue result ↔ 16777216 < length self.now.held }
    {
        !self.is_handed_out && self.held.len() > MOST_HELD
    }

    // Hears once, behind what is held. Says whether there was anything to hear.
    fn hear<C: Conversation<W>, W: Writer>(
        &mut self,
        input: &mut C,
        output: &W,
    ) -> Result<bool, RunFault>
        requires goes_on { self.old.has_ended ≡ false }
        requires rest { self.old.rest ≡ [] }
        requires part { HasNoFeed self.old.held }
        requires answered { IfSome (C.heard input.old)
            (λ bytes. C.may_hear bytes (C.said output.now)) }
        requires patient { C.hearings input.old ≤ 2 ^ 62 }
        ensures ok { OnOk result (HearsMore (C.remaining input.old) (C.remaining input.new)
            (C.heard input.old) (C.heard input.new)
            (C.counted input.old) (C.counted input.new) self.old self.new) }
        ensures less { IfOk result (λ more. more ≡ true → self.new.room < self.old.room) }
        ensures all { IfOk result (λ more. more ≡ false → IsAtEnd (C.remaining input.new)) }
        ensures none { IfOk result (λ more. more ≡ false → self.new.rest ≡ []) }
        ensures held { OnOk result (self.new.held ≡ self.old.held) }
        ensures ended { OnOk result (self.new.has_ended ≡ false) }
        ensures once { C.hearings input.new ≤ C.hearings input.old + 1 }
        ensures kind { IfErr result (λ e. e ≡ RunFault.Read) }
        ensures no_more { OnErr result
            (HearsNoMore (C.remaining input.old) (C.remaining input.new) self.old) }
        ensures cause { OnErr result (C.is_deaf input.new
            ⊎ (Outgrows self.old.room (C.heard input.old) (C.heard input.new)
            × CountsPast self.old.room (C.counted input.old) (C.counted input.new))
            ⊎ HearsPart 16777216 (C.remaining input.old) (C.remaining input.new)
            (C.heard input.old) (C.heard input.new) self.old) }
    {
        if self.holds_too_much() {
            return Err(RunFault::Read);
        }
        let Ok(count) = input.hear(output, &mut self.chunk) else {
            return Err(RunFault::Read);
        };
        if count > self.room {
            return Err(RunFault::Read);
        }
        self.room -= count;
        self.next = 0;
        self.heard = count;
        Ok(count > 0)
    }

    // Hands out what is held as the last line, if anything is.
    fn hand_out_last(&mut self) -> bool
        requires rest { self.old.rest ≡ [] }
        ensures some { OnTrue result (0 < length self.old.held) }
        ensures line { OnTrue result (self.new.line ≡ self.old.held) }
        ensures none { OnFalse result (self.old.held ≡ []) }
        ensures held { self.new.held ≡ [] }
        ensures none_behind { self.new.rest ≡ [] }
        ensures room { self.new.room ≡ self.old.room }
        ensures ended { self.new.has_ended ≡ true }
    {
        let some = !self.is_handed_out && !self.held.is_empty();
        self.is_handed_out = true;
        self.next = self.heard;
        self.has_ended = true;
        some
    }

    /// Hands out the next line, and says whether there is one: it is [`Intake::line`] then. Where
    /// none ends in what was heard, what waits in the sink is written and sent, and more is heard.
    /// To hear no bytes is the end of the script, behind which none is heard; what is left then is
    /// the last line.
    ///
    /// `Read` where hearing fails or gives more than there is room for, or where more than 16 MiB
    /// are held of a line that has not ended: then nothing is heard. `Write` where a write fails or
    /// takes no bytes, or sending fails; `Memory` where there is no room to hold a line that has
    /// not ended. A front of what waited in the sink was written then, and the intake may not be
    /// used again. Each byte is looked at once, and copied at most once.
    pub fn next<C: Conversation<W>, W: Writer>(
        &mut self,
        input: &mut C,
        output: &mut W,
        sink: &mut Sink,
    ) -> Result<bool, RunFault>
        requires due { (more : List ℕ) (said : Option (List ℕ)) → self.old.has_ended ≡ false →
            HasNoFeed (waiting self.old ++ more) →
            Appends (W.contents output.old) said sink.old →
            IfSome (C.heard input.old) (λ bytes. C.may_hear (bytes ++ more) said) }
        requires patient { C.hearings input.old + may_ask self.old ≤ 2 ^ 62 + 1 }
        ensures some { IfOk result (λ some. some ≡ true →
            HandsOut (C.remaining input.old) (C.remaining input.new)
            (C.heard input.old) (C.heard input.new)
            (C.counted input.old) (C.counted input.new) self.old self.new) }
        ensures none { IfOk result (λ some. some ≡ false →
            ((self.old.has_ended ≡ true) × (input.new ≡ input.old))
            ⊎ ((waiting self.old ≡ [])
            × FindsEnd (C.remaining input.old) (C.remaining input.new))) }
        ensures less { IfOk result (λ some. some ≡ true →
            length (waiting self.new) + self.new.room
            < length (waiting self.old) + self.old.room) }
        ensures asked { C.hearings input.new ≤ C.hearings input.old + may_ask self.old }
        ensures seldom { OnOk result (C.hearings input.new + may_ask self.new
            ≤ C.hearings input.old + may_ask self.old) }
        ensures passed { OnOk result
            (Passes (W.contents output.old) (W.contents output.new) sink.old [] sink.new) }
        ensures goes_on { OnErr result (self.old.has_ended ≡ false) }
        ensures no_more { IfErr result (λ e. e ≡ RunFault.Read →
            HearsNoMore (C.remaining input.old) (C.remaining input.new) self.old) }
        ensures written { IfErr result (λ e. e ≡ RunFault.Read →
            Appends (W.contents output.old) (W.contents output.new) sink.old) }
        ensures cause { IfErr result (λ e. e ≡ RunFault.Read → C.is_deaf input.new
            ⊎ (Outgrows self.old.room (C.heard input.old) (C.heard input.new)
            × CountsPast self.old.room (C.counted input.old) (C.counted input.new))
            ⊎ HearsPart 16777216 (C.remaining input.old) (C.remaining input.new)
            (C.heard input.old) (C.heard input.new) self.old) }
        ensures write_cause { IfErr result (λ e. e ≡ RunFault.Write → W.has_failed output.new) }
        ensures memory_cause { IfErr result (λ e. e ≡ RunFault.Memory →
            HearsPart 0 (C.remaining input.old) (C.remaining input.new)
            (C.heard input.old) (C.heard input.new) self.old) }
        ensures err { OnErr result
            (Cuts (W.contents output.old) (W.contents output.new) sink.old []) }
    {
        'hearing: while !self.cut() {
            if self.has_ended {
                return Ok(false);
            }
            self.hold()?;
            send(sink, input, output)?;
            if !self.hear(input, output)? {
                return Ok(self.hand_out_last());
            }
        }
        Ok(true)
    }
}

// A function of its own, so that no proof sees the numeral unfold.
fn zeros(alloc: Global, count: usize) -> Result<Vec<u8>, RunFault>
    ensures len { IfOk result (λ bytes. vec_len bytes ≡ count) }
    ensures kind { IfErr result (λ e. e ≡ RunFault.Memory) }
{
    vec![in alloc; 0u8; count].map_err(|_| RunFault::Memory)
}
