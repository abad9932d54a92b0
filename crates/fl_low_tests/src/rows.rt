//! Rows of a question, ` => ` and its answer.
use crate::{bytes, caps, gossip, labels, operations, registries, seals, words};
use std::alloc::{AllocError, AllocGlobal, Global};
use std::process::Abort;

// Each row's question has its answer.
fn check(rt: &(impl Abort + AllocGlobal), rows: &str) -> Result<(), AllocError> {
    let mut out = String::new(rt.alloc());
    for row in rows.split('\n') {
        let (question, answer) = row.split_once(" => ").unwrap_or((row, "no answer"));
        out.clear();
        say(rt.alloc(), &mut out, question)?;
        assert_eq!(rt; out.as_str(), answer, "{question}");
    }
    Ok(())
}

// Says what is asked of each kind of thing.
fn say(alloc: Global, out: &mut String, question: &str) -> Result<(), AllocError> {
    let (what, rest) = parts(question);
    match what {
        "word" => words::say(out, rest),
        "order" => words::order(out, rest),
        "label" => labels::say(alloc, out, rest),
        "caps" => caps::say(alloc, out, rest),
        "sorted" => caps::sorted(alloc, out, rest),
        "falling" => caps::falling(alloc, out, rest),
        "spell" => operations::spell(alloc, out, rest),
        "read" => bytes::read(alloc, out, rest),
        "cut" => bytes::cut(alloc, out, rest),
        "change" => bytes::change(alloc, out, rest),
        "set" => registries::say(alloc, out, rest),
        "send" => seals::send(alloc, out, rest),
        _ => gossip::say(alloc, out, what, rest),
    }
}

/// The first word, and what follows it.
pub fn parts(text: &str) -> (&str, &str) {
    text.split_once(' ').unwrap_or((text, ""))
}

/// How two values stand to each other.
pub fn compare<T: Ord + Copy + Drop>(
    out: &mut String,
    first: Option<T>,
    second: Option<T>,
) -> Result<(), AllocError> {
    let (Some(first), Some(second)) = (first, second) else {
        return out.push_str("none");
    };
    if first < second {
        return out.push_str("less");
    }
    if first > second {
        return out.push_str("greater");
    }
    out.push_str(if first == second { "equal" } else { "apart" })
}

/// The bytes as hexadecimal digits.
pub fn push_hex(out: &mut String, bytes: &[u8]) -> Result<(), AllocError> {
    for byte in bytes {
        write!(out, "{byte:02x}")?;
    }
    Ok(())
}

#[test]
fn rows_have_their_answers(rt: HostRuntime) -> Result<(), AllocError> {
    for rows in [
        words::NUMBERS,
        words::NAMES,
        words::CAPS,
        words::PROCESSES,
        words::ENDPOINTS,
        labels::LABELS,
        labels::CHANGES,
        caps::ROWS,
        operations::SPELLED,
        operations::READ,
        operations::FAULTS,
        operations::ORDERS,
        bytes::PACKETS,
        bytes::HOSTILE,
        bytes::FRONTS,
        bytes::CHANGED,
        bytes::PARTS,
        bytes::SIZES,
        registries::CHANGES,
        registries::TEXTS,
        registries::MERGED,
        registries::CLASHING,
        registries::LOGINS,
        gossip::TAKEN,
        gossip::OURS,
        gossip::WINDOWS,
        gossip::REPLIES,
        gossip::FRONTS,
        seals::SENT,
    ] {
        check(&rt, rows)?;
    }
    Ok(())
}

// Of each row's bytes that are read, no proper front is.
fn check_fronts(rt: &(impl Abort + AllocGlobal), rows: &str) -> Result<(), AllocError> {
    for row in rows.split('\n') {
        let (question, answer) = row.split_once(" => ").unwrap_or((row, ""));
        let (_read, rest) = parts(question);
        assert!(rt;
            bytes::fronts_are_refused(rt.alloc(), rest, answer)?,
            "{question}"
        );
    }
    Ok(())
}

#[test]
fn fronts_of_what_is_read_are_refused(rt: HostRuntime) -> Result<(), AllocError> {
    for rows in [operations::READ, bytes::PACKETS, bytes::PARTS] {
        check_fronts(&rt, rows)?;
    }
    Ok(())
}
