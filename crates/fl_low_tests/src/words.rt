//! Words of numbers, names, capabilities, processes and endpoints, both ways, and their orders.
use crate::operations;
use crate::rows::{compare, parts};
use fl_labels::text::{read_cap, read_endpoint, read_name, read_number, read_pid};
use std::alloc::AllocError;
use std::fmt::Display;

/// A word again that is of a kind, or `none`.
pub fn say(out: &mut String, rest: &str) -> Result<(), AllocError> {
    let (kind, word) = parts(rest);
    match kind {
        "number" => show(out, read_number(word)),
        "name" => show(out, read_name(word)),
        "cap" => show(out, read_cap(word)),
        "process" => show(out, read_pid(word)),
        _ => show(out, read_endpoint(word)),
    }
}

fn show<T: Display + Copy + Drop>(out: &mut String, value: Option<T>) -> Result<(), AllocError> {
    match value {
        Some(value) => write!(out, "{value}"),
        None => out.push_str("none"),
    }
}

/// How two words of a kind stand to each other.
pub fn order(out: &mut String, rest: &str) -> Result<(), AllocError> {
    let (kind, words) = parts(rest);
    let (first, second) = parts(words);
    match kind {
        "names" => compare(out, read_name(first), read_name(second)),
        "caps" => compare(out, read_cap(first), read_cap(second)),
        "processes" => compare(out, read_pid(first), read_pid(second)),
        "endpoints" => compare(out, read_endpoint(first), read_endpoint(second)),
        _ => operations::order(out, words),
    }
}

/// Numbers.
pub const NUMBERS: &str = "\
word number 1 => 1
word number 4294967295 => 4294967295
word number  => none
word number 0 => none
word number 01 => none
word number +1 => none
word number -1 => none
word number  1 => none
word number 1  => none
word number 1x => none
word number 4294967296 => none
word number 99999999999999999999 => none";

/// Names, and their order.
pub const NAMES: &str = "\
word name 1.4 => 1.4
word name 65535.4294967295 => 65535.4294967295
word name 65536.1 => 65536.1
word name 4294967295.4294967295 => 4294967295.4294967295
word name  => none
word name . => none
word name 1 => none
word name 1. => none
word name .1 => none
word name 0.1 => none
word name 1.0 => none
word name 1.01 => none
word name 01.1 => none
word name 1.1.1 => none
word name 4294967296.1 => none
word name 99999999999999999999.1 => none
word name 1.4294967296 => none
word name +1.1 => none
word name 1.1  => none
order names 1.9 2.1 => less
order names 65535.9 65536.1 => less
order names 70000.1 4464.9 => greater
order names 1.9 1.10 => less
order names 1.9 1.9 => equal";

/// Capabilities, and their order.
pub const CAPS: &str = "\
word cap +1.4 => +1.4
word cap -1.4 => -1.4
word cap *1.4 => *1.4
word cap ^1.4 => ^1.4
word cap *70000.4 => *70000.4
word cap  => none
word cap + => none
word cap 1.4 => none
word cap /1.4 => none
word cap ++1.4 => none
word cap + 1.4 => none
word cap +1 => none
word cap +0.4 => none
order caps ^1.9 +2.1 => less
order caps +1.9 -1.9 => less
order caps -1.9 *1.9 => less
order caps *1.9 ^1.9 => less
order caps ^1.9 ^1.9 => equal";

/// Processes, and their order.
pub const PROCESSES: &str = "\
word process p65535.2.4294967295 => p65535.2.4294967295
word process p65536.1.1 => p65536.1.1
word process p4294967295.2.4294967295 => p4294967295.2.4294967295
word process  => none
word process p => none
word process 1.1.1 => none
word process P7.1.1 => none
word process p1 => none
word process p1.1 => none
word process p1.1. => none
word process p1.1.1.1 => none
word process p0.1.1 => none
word process p1.0.1 => none
word process p1.1.0 => none
word process p01.1.1 => none
word process p4294967296.1.1 => none
word process pp1.1.1 => none
order processes p1.1.9 p1.2.1 => less";

/// Endpoints, and their order.
pub const ENDPOINTS: &str = "\
word endpoint e1 => e1
word endpoint e64 => e64
word endpoint  => none
word endpoint e => none
word endpoint 1 => none
word endpoint e0 => none
word endpoint e01 => none
word endpoint e65 => none
word endpoint e257 => none
word endpoint E1 => none
word endpoint e1  => none
word endpoint e-1 => none
word endpoint p1 => none
order endpoints e1 e64 => less";
