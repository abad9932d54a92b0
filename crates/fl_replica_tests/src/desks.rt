//! Tests of desks and their looks, in one thread.
use crate::scene::{ADD, GROUP, TAG, USE, group, put, tag};
use fl_labels::cap::Cap;
use fl_labels::cap_set::CapSet;
use fl_ops::view::View;
use fl_replica::board;
use fl_replica::desk::{Desk, Stopped};
use std::test::Fail;

#[test]
fn desk_lags_or_learns(rt: HostRuntime) -> Result<(), Fail> {
    let (mut press, mut desks) = board(&rt, rt.alloc(), &[], 2)?;
    let published = press.publish(&rt, &[tag(), group(), put()]);
    let mut first = desks.pop().expect(&rt, "a first desk");
    let mut second = desks.pop().expect(&rt, "a second desk");
    let before = first.seen();
    let told = published.expect(&rt, "a list that was published");
    let count = told.count();
    first.learn(told);
    let learnt = first.seen();
    let one = first.member(USE, ADD);
    let two = second.member(USE, ADD);
    let seen = (first.seen(), second.seen());
    press.close(&rt);
    assert!(rt; before == 0 && count == 3 && learnt == 3);
    assert!(rt; one == Ok(true));
    assert!(rt; two == Ok(true) && seen == (3, 3) || two == Ok(false) && seen == (3, 0));
    Ok(())
}

// Whether the desk finds no list.
fn refuses(desk: Desk) -> bool {
    match desk.look() {
        Ok(look) => {
            drop(look.done());
            false
        }
        Err(desk) => {
            drop(desk);
            true
        }
    }
}

#[test]
fn desk_stops_once_its_press_is_gone(rt: HostRuntime) -> Result<(), Fail> {
    let (press, mut desks) = board(&rt, rt.alloc(), &[tag(), group(), put()], 1)?;
    let mut desk = desks.pop().expect(&rt, "a desk");
    let told = press.tell();
    let before = desk.member(USE, ADD);
    press.close(&rt);
    desk.learn(told);
    let after = desk.member(USE, ADD);
    let owned = CapSet::new(rt.alloc());
    let effective = desk.effective(&owned, ADD);
    let seen = desk.seen();
    let is_refused = refuses(desk);
    assert!(rt; before == Ok(true));
    assert!(rt; after == Err(Stopped) && effective == Err(Stopped) && is_refused);
    assert!(rt; seen == 3);
    Ok(())
}

#[test]
fn look_outlives_a_publication(rt: HostRuntime) -> Result<(), Fail> {
    let (mut press, mut desks) = board(&rt, rt.alloc(), &[tag(), group()], 1)?;
    let desk = desks.pop().expect(&rt, "a desk");
    let mut look = match desk.look() {
        Ok(look) => look,
        Err(_) => panic!(&rt; "no look"),
    };
    let published = press.publish(&rt, &[put()]).is_ok();
    let during = (look.seen(), look.reaches(USE, ADD));
    let login = look.login(GROUP).is_none();
    let mut desk = look.done();
    let after = desk.member(USE, ADD);
    let seen = desk.seen();
    let mut owned = CapSet::new(rt.alloc());
    let grown = owned.insert(USE).is_ok();
    let effective = desk.effective(&owned, ADD);
    let missing = desk.effective(&owned, Cap::Minus(TAG));
    press.close(&rt);
    assert!(rt; published && grown && login);
    assert!(rt; during == (2, false));
    assert!(rt; after == Ok(true) && seen == 3);
    assert!(rt; effective == Ok(true) && missing == Ok(false));
    Ok(())
}
