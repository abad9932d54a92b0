//! Tests of a bench that is one of several: its serials.
use fl_desks::desk::Desk;
use fl_jobs::answer::{Outcome, Refusal, Reply};
use fl_jobs::job::{Act, Job, Order};
use fl_labels::cap::Cap;
use fl_labels::cap_set::CapSet;
use fl_labels::error::SetError;
use fl_labels::name::Name;
use fl_labels::pid::Pid;
use fl_message::boxed::Boxed;
use fl_monitor::bench::Bench;
use fl_ops::op::{Body, Op, Policy};
use std::alloc::{AllocError, Global};
use std::test::Fail;

const TAG: Name = Name { node: 1, seq: 1 };

const SECOND: Pid = Pid {
    node: 1,
    boot: 1,
    serial: 2,
};

const FIFTH: Pid = Pid {
    node: 1,
    boot: 1,
    serial: 5,
};

// Whether the job is answered so.
fn says(
    alloc: Global,
    bench: &mut Bench,
    desk: &mut Desk,
    mut job: Job,
    wanted: Result<Outcome, Refusal>,
) -> bool {
    bench.job(alloc, desk, &mut job) == wanted
}

// Whether the process is made.
fn makes(alloc: Global, bench: &mut Bench, desk: &mut Desk, pid: Pid) -> bool {
    let made = Outcome::Reply(Reply::Made(pid));
    says(alloc, bench, desk, Job::Proc, Ok(made))
}

// Whether the process is refused so a child with these capabilities.
fn bears_none(
    alloc: Global,
    bench: &mut Bench,
    desk: &mut Desk,
    caps: &str,
    refusal: Refusal,
) -> Result<bool, SetError> {
    let caps = CapSet::from_text(alloc, caps)?;
    let spawn = Job::By(SECOND, Act::Spawn(Boxed::new(alloc, caps)?));
    Ok(says(alloc, bench, desk, spawn, Err(refusal)))
}

// Whether the second process is there once it is made, and no other is made then.
fn makes_one(alloc: Global, bench: &mut Bench, desk: &mut Desk) -> bool {
    let ask = Job::By(SECOND, Act::Ask(Cap::Plus(TAG)));
    says(alloc, bench, desk, ask, Err(Refusal::NoProcess(SECOND)))
        && makes(alloc, bench, desk, SECOND)
        && says(alloc, bench, desk, Job::Proc, Err(Refusal::NamesSpent))
}

// Whether the process is refused a child for want of a serial, and first for what it lacks.
fn makes_no_child(alloc: Global, bench: &mut Bench, desk: &mut Desk) -> Result<bool, SetError> {
    let missing = Refusal::MissingCap(Cap::Plus(TAG));
    Ok(
        bears_none(alloc, bench, desk, "{}", Refusal::NamesSpent)?
            && bears_none(alloc, bench, desk, "{+1.1}", missing)?,
    )
}

#[test]
fn spends_serials(rt: HostRuntime) -> Result<(), Fail> {
    let alloc = rt.alloc();
    let mut desk = Desk::new(alloc, &[])?;
    let mut bench = Bench::new(alloc, 1, 1, 2, 4_294_967_295);
    assert!(rt; makes_one(alloc, &mut bench, &mut desk));
    assert!(rt; makes_no_child(alloc, &mut bench, &mut desk)?);
    Ok(())
}

// Whether the process may remove the tag.
fn may_remove(alloc: Global, bench: &mut Bench, desk: &mut Desk, pid: Pid) -> bool {
    let ask = Job::By(pid, Act::Ask(Cap::Minus(TAG)));
    says(alloc, bench, desk, ask, Ok(Outcome::Reply(Reply::Yes)))
}

const BODY: Body = Body::MakeTag(Policy::Export);

// Whether the second process orders the tag, which is made then.
fn orders(alloc: Global, bench: &mut Bench, desk: &mut Desk) -> Result<bool, AllocError> {
    let order = Job::By(SECOND, Act::Order(Order::Tag(Policy::Export)));
    let is_begun = says(
        alloc,
        bench,
        desk,
        order,
        Ok(Outcome::Order(Boxed::new(alloc, BODY)?, SECOND)),
    );
    let op = Op {
        name: TAG,
        body: BODY,
    };
    *desk = Desk::new(alloc, &[op])?;
    bench.finish(SECOND, &op);
    Ok(is_begun)
}

#[test]
fn makes_a_tag(rt: HostRuntime) -> Result<(), AllocError> {
    let alloc = rt.alloc();
    let mut desk = Desk::new(alloc, &[])?;
    let mut bench = Bench::new(alloc, 1, 1, 2, 3);
    assert!(rt; makes(alloc, &mut bench, &mut desk, SECOND));
    assert!(rt; makes(alloc, &mut bench, &mut desk, FIFTH));
    assert!(rt; orders(alloc, &mut bench, &mut desk)?);
    assert!(rt; may_remove(alloc, &mut bench, &mut desk, SECOND));
    assert!(rt; !may_remove(alloc, &mut bench, &mut desk, FIFTH));
    Ok(())
}
