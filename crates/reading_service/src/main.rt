//! A service that embeds the registry: this thread publishes grants as they come, and four others
//! answer questions by them, each at a desk of its own, with no lock and no wait.
#![tactic(auto)]

ghost use Rattle.std.specs.Prelude.{◌<◌};

use fl_labels::cap::Cap;
use fl_labels::name::Name;
use fl_ops::op::{Body, Op};
use fl_replica::board;
use fl_replica::desk::{Desk, Stopped};
use fl_replica::press::Press;
use std::alloc::{AllocError, Global};
use std::sync::Wait;
use std::test::Fail;
use std::thread;
use std::thread::{JoinHandle, Threads};

// Who uses this group may add each tag that is granted.
const STAFF: Name = Name { node: 1, seq: 1 };

// How many grants come, and how many threads read.
const GRANTS: u32 = 100;

const READERS: usize = 4;

// What the grant of this number gives.
fn granted(number: u32) -> Cap
    requires { 0 < number }
{
    Cap::Plus(Name {
        node: 2,
        seq: number,
    })
}

// The grant of this number. An operation has a name of its own in the whole registry.
fn grant(number: u32) -> Op
    requires { 0 < number }
{
    Op {
        name: Name {
            node: 3,
            seq: number,
        },
        body: Body::Put(STAFF, granted(number)),
    }
}

// Publishes the grants one by one. False where there is no memory for one: the list stays then.
fn publish_grants<R: Wait>(rt: &R, press: &mut Press) -> bool {
    for number in 1..GRANTS + 1 {
        if press.publish(rt, &[grant(number)]).is_err() {
            return false;
        }
    }
    true
}

// How many of the grants the staff has.
fn count(desk: &mut Desk) -> u32 {
    let mut found = 0u32;
    for number in 1..GRANTS + 1 {
        if desk.member(Cap::Use(STAFF), granted(number)) == Ok(true) {
            found = found.wrapping_add(1);
        }
    }
    found
}

// A reading thread: it asks until the last grant is there, and then counts what the staff has. Till
// then the desk answers by some earlier list; what it answered yes it never takes back.
fn serve(mut desk: Desk) -> u32 {
    for _ in 0..u64::MAX {
        match desk.member(Cap::Use(STAFF), granted(GRANTS)) {
            Ok(true) => return count(&mut desk),
            Ok(false) => {}
            // The press is closed: the service ends.
            Err(Stopped) => return 0,
        }
    }
    0
}

// Gives each desk to a thread. A desk for which no thread can be made is let go.
fn start<R: Threads>(
    rt: &R,
    alloc: Global,
    desks: Vec<Desk>,
) -> Result<Vec<JoinHandle<u32>>, AllocError> {
    let mut threads = Vec::with_capacity(alloc, desks.len())?;
    for desk in desks {
        threads.push(thread::spawn(rt, move || serve(desk))?)?;
    }
    Ok(threads)
}

// Publishes, and adds up what the threads found. The caller closes the press, whatever comes; where
// a grant found no memory, that ends the threads.
fn run<R: Wait + Threads>(
    rt: &R,
    press: &mut Press,
    threads: Vec<JoinHandle<u32>>,
) -> Result<u32, AllocError> {
    if !publish_grants(rt, press) {
        return Err(AllocError);
    }
    let mut found = 0u32;
    for thread in threads {
        found = found.wrapping_add(thread.join(rt));
    }
    Ok(found)
}

fn main(rt: HostRuntime) -> Result<(), Fail> {
    let (mut press, desks) = board(&rt, rt.alloc(), &[], READERS)?;
    let found = start(&rt, rt.alloc(), desks).and_then(|threads| run(&rt, &mut press, threads));
    press.close(&rt);
    println!(rt; "{READERS} readers found {} grants", found?)?;
    Ok(())
}
