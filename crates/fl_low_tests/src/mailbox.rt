//! Tests of letters that wait, and of what whoever receives one says to it.
ghost use Rattle.std.specs.Prelude.{◌<◌};

use fl_labels::cap_set::CapSet;
use fl_labels::pid::Pid;
use fl_mailbox::inbox::Inbox;
use fl_message::message::{Letter, Message};
use fl_message::payload::Payload;
use fl_message::shared::Shared;
use std::alloc::{AllocError, Global};
use std::test::Fail;

fn letter(alloc: Global, serial: u32) -> Result<Letter, Fail>
    requires { 0 < serial }
{
    let payload = Payload::from_vec(Vec::from_slice(alloc, b"hi")?);
    let message = Message::new(CapSet::new(alloc), payload).ok_or("too long")?;
    let sender = Pid {
        node: 70_000,
        boot: 1,
        serial,
    };
    let message = Shared::new(alloc, message)?;
    Ok(Letter { sender, message })
}

// Puts a letter into the inbox, which its receiver takes or refuses. Answers the serial that the
// receiver saw.
fn push(alloc: Global, inbox: &mut Inbox, serial: u32, is_refused: bool) -> Result<u32, Fail>
    requires { 0 < serial }
{
    let mut seen = 0;
    let pushed = inbox.push_with(
        letter(alloc, serial)?,
        &mut seen,
        |seen: &mut u32, letter: &Letter| {
            *seen = letter.sender.serial;
            if is_refused { Err(AllocError) } else { Ok(()) }
        },
    );
    if pushed.is_err() {
        seen = seen.saturating_add(100);
    }
    Ok(seen)
}

// The serial of the sender of the oldest letter, or 0.
fn taken(inbox: &mut Inbox) -> u32 {
    match inbox.take() {
        Some(letter) => letter.sender.serial,
        None => 0,
    }
}

// A letter that is received and one that is refused, and what the inbox has then.
fn pass(alloc: Global, inbox: &mut Inbox) -> Result<[u32; 4], Fail> {
    let first = push(alloc, inbox, 3, false)?;
    let second = push(alloc, inbox, 5, true)?;
    Ok([first, second, taken(inbox), taken(inbox)])
}

#[test]
fn a_letter_waits_once_received(rt: HostRuntime) -> Result<(), Fail> {
    let mut inbox = Inbox::new(rt.alloc());
    let seen = pass(rt.alloc(), &mut inbox)?;
    assert_eq!(rt; seen, [3, 105, 3, 0]);
    Ok(())
}
