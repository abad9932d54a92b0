//! Tests of a press: beside threads that read, and where memory is refused.
use crate::scene::{GROUP, USE, group, put, tag};
use fl_labels::cap::Cap;
use fl_labels::name::Name;
use fl_ops::op::{Body, Op};
use fl_replica::board;
use fl_replica::desk::{Desk, Stopped};
use fl_replica::press::{Press, PressFault};
use std::sync::Wait;
use std::test::Fail;
use std::thread;
use std::thread::{JoinHandle, SpawnError, Threads};

// Publishes until it is published, in at most three calls. False where the list is then not the one
// before with the batch once.
fn publish_once<R: Wait>(rt: &R, press: &mut Press, batch: &[Op]) -> bool {
    let before = press.list().len();
    let whole = before.wrapping_add(batch.len());
    for _ in 0..3 {
        match press.publish(rt, batch) {
            Ok(told) => return told.count() == whole as u64 && press.list().len() == whole,
            Err(PressFault::Memory) => {
                if press.list().len() != before {
                    return false;
                }
            }
            Err(PressFault::Staged) => return flush(rt, press, before, whole),
        }
    }
    false
}

// Publishes what is staged. False where the list did not have this length before, or does not have
// that one after.
fn flush<R: Wait>(rt: &R, press: &mut Press, before: usize, after: usize) -> bool {
    let is_as_before = press.list().len() == before;
    is_as_before && press.publish(rt, &[]).is_ok() && press.list().len() == after
}

// Each batch comes once, whichever request for memory is refused: rt try --test --fail-alloc N.
#[test]
fn batch_comes_once_though_memory_is_refused(rt: HostRuntime) -> Result<(), Fail> {
    let Ok((mut press, _desks)) = board(&rt, rt.alloc(), &[], 1) else {
        return Ok(());
    };
    let nothing = press.publish(&rt, &[]).is_ok();
    let one = publish_once(&rt, &mut press, &[tag(), group()]);
    let two = publish_once(&rt, &mut press, &[put()]);
    let is_whole = press.list() == [tag(), group(), put()].as_slice();
    press.close(&rt);
    assert!(rt; nothing && one && two && is_whole);
    Ok(())
}

// Asks many times. False where a number of seen operations falls, a yes is withdrawn, or the desk
// stops.
fn asks(mut desk: Desk) -> bool {
    let mut seen = 0;
    let mut was_member = false;
    for _ in 0..20000 {
        let answer = desk.member(USE, Cap::Plus(Name { node: 1, seq: 500 }));
        let is_member = answer == Ok(true);
        if answer == Err(Stopped) || desk.seen() < seen || was_member && !is_member {
            return false;
        }
        seen = desk.seen();
        was_member = is_member;
    }
    true
}

// Publishes a thousand puts one by one. False where one is refused.
fn publishes<R: Wait>(rt: &R, press: &mut Press) -> bool {
    for seq in 1..1001 {
        let op = Op {
            name: Name { node: 1, seq },
            body: Body::Put(GROUP, Cap::Plus(Name { node: 1, seq })),
        };
        if press.publish(rt, &[op]).is_err() {
            return false;
        }
    }
    true
}

// What the thread found. False where it could not be made.
fn found<R: Threads, F: Drop>(rt: &R, child: Result<JoinHandle<bool>, SpawnError<F>>) -> bool {
    match child {
        Ok(child) => child.join(rt),
        Err(_) => false,
    }
}

#[test]
fn desks_read_while_press_publishes(rt: HostRuntime) -> Result<(), Fail> {
    let (mut press, mut desks) = board(&rt, rt.alloc(), &[], 2)?;
    let second = desks.pop().expect(&rt, "a second desk");
    let first = desks.pop().expect(&rt, "a first desk");
    let one = thread::spawn(&rt, move || asks(first));
    let two = thread::spawn(&rt, move || asks(second));
    let published = publishes(&rt, &mut press);
    let one = found(&rt, one);
    let two = found(&rt, two);
    let count = press.list().len();
    press.close(&rt);
    assert!(rt; one && two && published && count == 1000);
    Ok(())
}
