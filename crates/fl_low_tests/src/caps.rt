//! Sets of capabilities, sorted slices, and lists of items.
ghost use Rattle.std.specs.Prelude.{◌<◌};

use crate::rows::parts;
use fl_labels::cap::Cap;
use fl_labels::cap_set::CapSet;
use fl_labels::error::SetError;
use fl_labels::list::read_items;
use fl_labels::name::Name;
use fl_labels::roomy::RoomyCapSet;
use fl_labels::sorted::{arrange, rises};
use fl_labels::text::{read_cap, read_number};
use fl_rules::has::{Has, Owner};
use std::alloc::{AllocError, Global};

/// What is asked of a set of capabilities, the set, and a capability, two, or a set: the answer,
/// how many uses of groups are in the set then, and the set; or why a text is no set.
pub fn say(alloc: Global, out: &mut String, rest: &str) -> Result<(), AllocError> {
    let (what, rest) = parts(rest);
    let (text, with) = parts(rest);
    match CapSet::from_text(alloc, text) {
        Ok(caps) if what == "room" => room(out, caps, with),
        Ok(mut caps) => ask(alloc, out, what, &mut caps, with),
        Err(error) => write!(out, "{error:?}"),
    }
}

fn ask(
    alloc: Global,
    out: &mut String,
    what: &str,
    caps: &mut CapSet,
    with: &str,
) -> Result<(), AllocError> {
    match read_cap(with) {
        Some(cap) => with_cap(out, what, caps, cap)?,
        None => with_set(alloc, out, what, caps, with)?,
    }
    push_set(out, caps)
}

// The set with room for two: how many it has, and what it is with two capabilities in the room.
fn room(out: &mut String, caps: CapSet, words: &str) -> Result<(), AllocError> {
    let Ok(roomy) = caps.with_room() else {
        return Err(AllocError);
    };
    let count = roomy.as_slice().len();
    push_counted(out, count, &filled(roomy, words))
}

fn filled(roomy: RoomyCapSet, words: &str) -> CapSet {
    let (first, second) = parts(words);
    match (read_cap(first), read_cap(second)) {
        (Some(first), Some(second)) => roomy.with_both(first, second),
        _ => roomy.without_room(),
    }
}

fn push_counted(out: &mut String, count: usize, caps: &CapSet) -> Result<(), AllocError> {
    write!(out, "{count} ")?;
    push_set(out, caps)
}

fn push_set(out: &mut String, caps: &CapSet) -> Result<(), AllocError> {
    write!(out, "{} ", caps.uses().len())?;
    for cap in caps.uses() {
        write!(out, "{cap} ")?;
    }
    write!(out, "{caps}")
}

fn with_cap(out: &mut String, what: &str, caps: &mut CapSet, cap: Cap) -> Result<(), AllocError> {
    match what {
        "insert" => write!(out, "{} ", caps.insert(cap)?),
        "remove" => write!(out, "{} ", caps.remove(cap)),
        "remove_if" => remove_if(out, caps, cap),
        _ => has(out, caps, cap),
    }
}

// Whether it has a capability, who owns it has it, and it is empty; and how many there are.
fn has(out: &mut String, caps: &CapSet, cap: Cap) -> Result<(), AllocError> {
    let is_owned = Owner { owned: caps }.has(cap);
    write!(
        out,
        "{} {is_owned} {} {} ",
        caps.contains(cap),
        caps.is_empty(),
        caps.len()
    )
}

// Without a capability, unless nothing were left: the answer, and how many the judge saw.
fn remove_if(out: &mut String, caps: &mut CapSet, cap: Cap) -> Result<(), AllocError> {
    let mut seen = 9;
    let answer = caps.remove_if(cap, &mut seen, |seen: &mut usize, rest: &CapSet| {
        *seen = rest.len();
        if rest.is_empty() {
            return Err(SetError::TooLong);
        }
        Ok(())
    });
    write!(out, "{answer:?} {seen} ")
}

// With each member of another set; or the least one that this lacks.
fn with_set(
    alloc: Global,
    out: &mut String,
    what: &str,
    caps: &mut CapSet,
    other: &str,
) -> Result<(), AllocError> {
    match CapSet::from_text(alloc, other) {
        Ok(other) if what == "insert_all" => caps.insert_all(&other),
        Ok(other) => write!(out, "{:?} ", caps.first_missing(&other)),
        Err(_) => Ok(()),
    }
}

// A use of a group for each other number, and else what adds a tag.
fn numbered(number: u32) -> Cap
    requires { 0 < number }
{
    let name = Name {
        node: 1,
        seq: number,
    };
    if number % 2 == 0 {
        Cap::Use(name)
    } else {
        Cap::Plus(name)
    }
}

/// So many capabilities that come in falling order: how many there are, how many uses of groups
/// among them, and whether they are those that come in rising order.
pub fn falling(alloc: Global, out: &mut String, count: &str) -> Result<(), AllocError> {
    let count = read_number(count).unwrap_or(0);
    let mut rising = CapSet::new(alloc);
    let mut falling = CapSet::new(alloc);
    for number in 0..count {
        rising.insert(numbered(number + 1))?;
        falling.insert(numbered(count - number))?;
    }
    let is_same = falling == rising;
    write!(out, "{} {} {is_same}", falling.len(), falling.uses().len())
}

/// Whether the numbers rise, and they in order; and how many items a list of capabilities has.
pub fn sorted(alloc: Global, out: &mut String, rest: &str) -> Result<(), AllocError> {
    if rest.starts_with('{') {
        return items(alloc, out, rest);
    }
    let mut items = numbers(alloc, rest)?;
    let is_rising = rises(&items);
    arrange(&mut items);
    write!(out, "{is_rising} {items:?}")
}

fn numbers(alloc: Global, words: &str) -> Result<Vec<u32>, AllocError> {
    let mut items = Vec::new(alloc);
    for word in words.split(' ') {
        items.push(read_number(word).unwrap_or(0))?;
    }
    Ok(items)
}

fn items(alloc: Global, out: &mut String, list: &str) -> Result<(), AllocError> {
    match read_items::<Cap>(alloc, list) {
        Ok(items) => write!(out, "{}", items.len()),
        Err(error) => write!(out, "{error:?}"),
    }
}

/// Texts and changes of sets of capabilities, and lists.
pub const ROWS: &str = "\
caps text {^1.1,+2.1,-1.1,+2.1} => 0 {-1.1,^1.1,+2.1}
caps text {} => 0 {}
caps text {+70000.1,^65535.1} => 0 {^65535.1,+70000.1}
caps text {+1.1,1.2} => BadText
caps insert {-1.1} +1.1 => true 0 {+1.1,-1.1}
caps insert {+1.1} +1.1 => false 0 {+1.1}
caps remove {+1.1,-1.1} +1.1 => true 0 {-1.1}
caps remove {+1.1} +1.1 => true 0 {}
caps remove {} +1.1 => false 0 {}
caps lacking {+1.1,-1.1} {-1.1} => Some(Plus(Name { node: 1, seq: 1 })) 0 {+1.1,-1.1}
caps lacking {-1.1} {+1.1,-1.1} => None 0 {-1.1}
caps insert_all {} {-1.1,+1.2} => 0 {-1.1,+1.2}
caps insert_all {-1.1} {+1.1} => 0 {+1.1,-1.1}
caps insert_all {+1.1,-1.1} {-1.1} => 0 {+1.1,-1.1}
caps insert_all {+1.1,+1.3} {+1.2,+1.3,+1.4} => 0 {+1.1,+1.2,+1.3,+1.4}
caps remove_if {+1.1,-1.1,+1.2} -1.1 => Ok(()) 2 0 {+1.1,+1.2}
caps remove_if {+1.1,+1.2} -1.1 => Ok(()) 2 0 {+1.1,+1.2}
caps remove_if {-1.1} -1.1 => Err(TooLong) 0 0 {-1.1}
caps remove_if {} -1.1 => Err(TooLong) 0 0 {}
caps text {+1.1,*1.3,^1.2,*1.2,-1.3} => 2 *1.2 *1.3 {+1.1,*1.2,^1.2,-1.3,*1.3}
caps insert {+1.1,*1.2} *1.1 => true 2 *1.1 *1.2 {+1.1,*1.1,*1.2}
caps insert {+1.1,*1.2} ^1.1 => true 1 *1.2 {+1.1,^1.1,*1.2}
caps remove {*1.1,*1.2} *1.1 => true 1 *1.2 {*1.2}
caps remove {+1.1,*1.1} +1.1 => true 1 *1.1 {*1.1}
caps has {+1.1,-1.1} -1.1 => true true false 2 0 {+1.1,-1.1}
caps has {} +1.1 => false false true 0 0 {}
caps has {*1.1} *1.1 => true true false 1 1 *1.1 {*1.1}
caps has {*1.1} ^1.1 => false false false 1 1 *1.1 {*1.1}
caps room {-1.2} *1.2 +1.2 => 1 1 *1.2 {+1.2,-1.2,*1.2}
caps room {+1.2} *1.2 +1.2 => 1 1 *1.2 {+1.2,*1.2}
caps room {-1.2} => 1 0 {-1.2}
sorted 3 1 3 2 => false [1, 2, 3]
sorted 1 2 3 => true [1, 2, 3]
sorted 1 1 => false [1]
sorted {+1.1} => 1
sorted {+1.1,*1.2,+1.1} => 3
sorted {+1.1 => BadText
falling 200 => 200 100 true";
