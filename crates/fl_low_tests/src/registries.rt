//! Sets of operations: changes, unions, first logins, and texts.
use crate::operations::read_op;
use crate::rows::{parts, push_hex};
use fl_labels::text::{read_name, read_number};
use fl_opset::set::OpSet;
use std::alloc::{AllocError, Global};

/// What is asked of a set, its operations, and behind ` | ` what goes with it: the answer, or the
/// text that the set has then. Between operations stands `; `.
pub fn say(alloc: Global, out: &mut String, rest: &str) -> Result<(), AllocError> {
    let (what, rest) = parts(rest);
    let (lines, with) = rest.split_once(" | ").unwrap_or((rest, ""));
    let mut set = set_of(alloc, lines)?;
    ask(alloc, out, what, &mut set, with)
}

fn ask(
    alloc: Global,
    out: &mut String,
    what: &str,
    set: &mut OpSet,
    with: &str,
) -> Result<(), AllocError> {
    match what {
        "last" => last(out, set, with),
        "login" => login(out, set, with),
        "clash" => clash(out, set, with),
        _ => {
            change(alloc, out, what, set, with)?;
            text(alloc, out, set)
        }
    }
}

fn set_of(alloc: Global, lines: &str) -> Result<OpSet, AllocError> {
    let mut set = OpSet::new(alloc);
    for line in lines.split("; ") {
        if let Some(op) = read_op(line) {
            set.add(op)?;
        }
    }
    Ok(set)
}

fn last(out: &mut String, set: &OpSet, with: &str) -> Result<(), AllocError> {
    let node = read_number(with).unwrap_or(1);
    write!(out, "{} of {}", set.last_of(node), set.len())
}

// The capability and the digest of the least login of the name.
fn login(out: &mut String, set: &OpSet, with: &str) -> Result<(), AllocError> {
    match read_name(with).and_then(|name| set.first_login(name)) {
        Some((cap, digest)) => {
            write!(out, "{cap} ")?;
            push_hex(out, &digest.bytes)
        }
        None => out.push_str("none"),
    }
}

fn clash(out: &mut String, set: &OpSet, with: &str) -> Result<(), AllocError> {
    match read_op(with).and_then(|op| set.clash(&op)) {
        Some(name) => write!(out, "{name}"),
        None => out.push_str("none"),
    }
}

// With an operation more or less, or with those of another set.
fn change(
    alloc: Global,
    out: &mut String,
    what: &str,
    set: &mut OpSet,
    with: &str,
) -> Result<(), AllocError> {
    match (what, read_op(with)) {
        ("add", Some(op)) => write!(out, "{} {} ", set.add(op)?, set.contains(&op)),
        ("remove", Some(op)) => write!(out, "{} {} ", set.remove(&op), set.contains(&op)),
        _ => set.merge(&set_of(alloc, with)?),
    }
}

// The text, with `; ` for a line feed.
fn text(alloc: Global, out: &mut String, set: &OpSet) -> Result<(), AllocError> {
    let mut output = Vec::new(alloc);
    match set.text(&mut output) {
        Ok(()) => push_lines(out, &output),
        Err(_) => Err(AllocError),
    }
}

fn push_lines(out: &mut String, text: &[u8]) -> Result<(), AllocError> {
    for byte in text {
        if *byte == b'\n' {
            out.push_str("; ")?;
        } else {
            out.push(*byte as char)?;
        }
    }
    Ok(())
}

/// Changes of sets, and what is found in them.
pub const CHANGES: &str = "\
set add 1.1 tag export; 2.1 tag integrity | 1.2 tag read => true true 1.1 tag export; 1.2 tag \
read; 2.1 tag integrity; 
set add 1.1 tag export; 2.1 tag integrity | 2.1 tag integrity => false true 1.1 tag export; 2.1 \
tag integrity; 
set remove 2.1 tag integrity; 1.2 tag read; 1.1 tag export | 1.2 tag read => true false 1.1 tag \
export; 2.1 tag integrity; 
set remove 2.1 tag integrity; 1.1 tag export | 1.2 tag read => false false 1.1 tag export; 2.1 \
tag integrity; 
set last 2.7 tag export; 2.30 tag export; 4.1 tag read | 1 => 0 of 3
set last 2.7 tag export; 2.30 tag export; 4.1 tag read | 2 => 30 of 3
set last 2.7 tag export; 2.30 tag export; 4.1 tag read | 3 => 0 of 3
set last 2.7 tag export; 2.30 tag export; 4.1 tag read | 4 => 1 of 3
set last 2.7 tag export; 2.30 tag export; 4.1 tag read | 4294967295 => 0 of 3
set last 2.7 tag export; 4294967295.4294967295 tag read | 4294967295 => 4294967295 of 2
set last 65536.7 tag export; 65537.30 tag export | 65536 => 7 of 2
set last  | 1 => 0 of 0
set last 1.1 tag export; 1.1 tag read; 1.2 tag read | 1 => 2 of 3
set clash 1.2 tag read | 1.1 tag read => none
set clash 1.2 tag read | 1.1 tag export => none
set clash 1.2 open 1.1 | 1.2 open 1.1 => none
set clash 1.2 open 1.1 | 1.2 open 1.2 => 1.2
set clash 1.2 tag read; 1.1 tag read | 1.1 tag read => none
set clash 1.2 tag read; 1.1 tag read | 1.1 tag export => 1.1
set clash 1.2 tag read; 1.1 tag read; 1.1 tag export | 1.1 tag read => 1.1
set clash 1.2 tag read; 1.1 tag read; 1.1 tag export | 1.1 tag export => 1.1";

/// Texts of sets.
pub const TEXTS: &str = "\
set text  => 
set text 1.4 open 1.2 => 1.4 open 1.2; 
set text 70000.1 group; 4294967295.4294967295 open 70000.1; 1.4 open 1.2; 1.4 group => 1.4 \
group; 1.4 open 1.2; 70000.1 group; 4294967295.4294967295 open 70000.1; 
set text 65535.4294967295 tag integrity; 1.1 tag export; 1.10 tag read; 1.2 group => 1.1 tag \
export; 1.2 group; 1.10 tag read; 65535.4294967295 tag integrity; 
set text 1.7 put 1.4 +65535.4294967295; 1.7 put 1.4 -1.5; 65535.4294967295 put 65535.4294967295 \
^1.4; 1.6 put 1.4 *1.5 => 1.6 put 1.4 *1.5; 1.7 put 1.4 +65535.4294967295; 1.7 put 1.4 -1.5; \
65535.4294967295 put 65535.4294967295 ^1.4; 
set text 1.7 login *1.5 mixed => 1.7 login *1.5 \
000102030405060708090a0b0c0d0e0f101112131415161718191a1b1c1d80ff; 
set text 1.7 login *1.5 160 => 1.7 login *1.5 \
a0a0a0a0a0a0a0a0a0a0a0a0a0a0a0a0a0a0a0a0a0a0a0a0a0a0a0a0a0a0a0a0; 
set text 1.7 login *1.5 159 => 1.7 login *1.5 \
9f9f9f9f9f9f9f9f9f9f9f9f9f9f9f9f9f9f9f9f9f9f9f9f9f9f9f9f9f9f9f9f; ";

/// Two operations of one name.
pub const CLASHING: &str = "\
set merge 1.1 tag export | 1.1 group => 1.1 tag export; 1.1 group; 
set merge 1.1 group | 1.1 tag export => 1.1 tag export; 1.1 group; ";

/// Two sets whose operations alternate in many ways come to all six.
pub const MERGED: &str = "\
set merge 1.1 tag export; 1.10 tag read; 3.1 tag integrity | 1.2 group; 2.1 group; 3.2 group => \
1.1 tag export; 1.2 group; 1.10 tag read; 2.1 group; 3.1 tag integrity; 3.2 group; 
set merge 1.2 group; 2.1 group; 3.2 group | 1.1 tag export; 1.10 tag read; 3.1 tag integrity => \
1.1 tag export; 1.2 group; 1.10 tag read; 2.1 group; 3.1 tag integrity; 3.2 group; 
set merge 1.1 tag export; 1.2 group; 2.1 group; 3.1 tag integrity | 1.2 group; 1.10 tag read; \
2.1 group; 3.2 group => 1.1 tag export; 1.2 group; 1.10 tag read; 2.1 group; 3.1 tag integrity; \
3.2 group; 
set merge 1.2 group; 1.10 tag read; 2.1 group; 3.2 group | 1.1 tag export; 1.2 group; 2.1 \
group; 3.1 tag integrity => 1.1 tag export; 1.2 group; 1.10 tag read; 2.1 group; 3.1 tag \
integrity; 3.2 group; 
set merge 1.1 tag export; 1.2 group; 1.10 tag read | 2.1 group; 3.1 tag integrity; 3.2 group => \
1.1 tag export; 1.2 group; 1.10 tag read; 2.1 group; 3.1 tag integrity; 3.2 group; 
set merge 2.1 group; 3.1 tag integrity; 3.2 group | 1.1 tag export; 1.2 group; 1.10 tag read => \
1.1 tag export; 1.2 group; 1.10 tag read; 2.1 group; 3.1 tag integrity; 3.2 group; 
set merge 1.1 tag export; 1.2 group; 1.10 tag read; 2.1 group; 3.1 tag integrity; 3.2 group |  \
=> 1.1 tag export; 1.2 group; 1.10 tag read; 2.1 group; 3.1 tag integrity; 3.2 group; 
set merge  | 1.1 tag export; 1.2 group; 1.10 tag read; 2.1 group; 3.1 tag integrity; 3.2 group \
=> 1.1 tag export; 1.2 group; 1.10 tag read; 2.1 group; 3.1 tag integrity; 3.2 group; 
set merge 1.1 tag export; 1.2 group; 1.10 tag read; 2.1 group; 3.1 tag integrity; 3.2 group | \
1.1 tag export; 1.2 group; 1.10 tag read; 2.1 group; 3.1 tag integrity; 3.2 group => 1.1 tag \
export; 1.2 group; 1.10 tag read; 2.1 group; 3.1 tag integrity; 3.2 group; ";

/// The least login of a name.
pub const LOGINS: &str = "\
set login  | 1.7 => none
set login 1.7 tag integrity | 1.7 => none
set login 1.7 open 1.6 | 1.7 => none
set login 1.7 open 1.6; 1.7 login -1.6 1; 1.7 group | 1.7 => -1.6 \
0101010101010101010101010101010101010101010101010101010101010101
set login 1.7 open 1.6; 1.8 login -1.6 1 | 1.7 => none
set login 1.7 tag integrity; 1.7 put 1.6 +1.6 | 1.7 => none
set login 1.7 tag integrity; 1.7 put 1.6 +1.6; 1.6 login +1.6 1 | 1.7 => none
set login 1.7 tag integrity; 1.7 put 1.6 +1.6; 1.6 login +1.6 1; 1.8 login +1.6 1 | 1.7 => none
set login 1.7 put 1.6 +1.6; 1.8 login +1.6 1; 1.7 login -1.6 1 | 1.7 => -1.6 \
0101010101010101010101010101010101010101010101010101010101010101
set login 1.7 put 1.6 +1.6; 1.8 login +1.6 1; 1.7 login -1.6 1; 1.7 login +1.6 2 | 1.7 => +1.6 \
0202020202020202020202020202020202020202020202020202020202020202
set login 1.7 put 1.6 +1.6; 1.8 login +1.6 1; 1.7 login -1.6 1; 1.7 login +1.6 2; 1.7 login \
+1.6 1 | 1.7 => +1.6 0101010101010101010101010101010101010101010101010101010101010101
set login 1.7 put 1.6 +1.6; 1.8 login +1.6 1; 1.7 login -1.6 1; 1.7 login +1.6 2; 1.7 login \
+1.6 1 | 1.8 => +1.6 0101010101010101010101010101010101010101010101010101010101010101";
