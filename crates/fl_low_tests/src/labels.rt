//! Labels: their texts both ways, their limit, and each change.
use crate::rows::parts;
use fl_labels::label::{Label, MOST_TAGS};
use fl_labels::name::Name;
use fl_labels::text::read_name;
use std::alloc::{AllocError, Global};

/// What is asked of a label, the label, and a tag or a label behind ` | `: the answer and what the
/// label is then, or why the text is no label. A label that begins with `256` has 256 tags, one of
/// them twice, and then what follows.
pub fn say(alloc: Global, out: &mut String, rest: &str) -> Result<(), AllocError> {
    let (what, rest) = parts(rest);
    let (text, word) = rest.split_once(" | ").unwrap_or((rest, ""));
    match text.strip_prefix("256") {
        Some(end) => ask(alloc, out, what, &long_text(alloc, end)?, word),
        None => ask(alloc, out, what, text, word),
    }
}

fn long_text(alloc: Global, end: &str) -> Result<String, AllocError> {
    let mut text = String::new(alloc);
    text.push_str("{1.256,1.1")?;
    for seq in 1..256u32 {
        write!(text, ",1.{seq}")?;
    }
    text.push_str(end)?;
    Ok(text)
}

fn ask(
    alloc: Global,
    out: &mut String,
    what: &str,
    text: &str,
    word: &str,
) -> Result<(), AllocError> {
    match Label::from_text(alloc, text) {
        Ok(mut label) => ask_label(alloc, out, what, &mut label, word),
        Err(error) => write!(out, "{error:?}"),
    }
}

fn ask_label(
    alloc: Global,
    out: &mut String,
    what: &str,
    label: &mut Label,
    word: &str,
) -> Result<(), AllocError> {
    match (what, read_name(word)) {
        ("copy", _) => return write!(out, "{}", label.copy(alloc)?),
        ("lacking", _) => return lacking(alloc, out, label, word),
        (_, Some(tag)) => change(out, what, label, tag)?,
        _ => (),
    }
    if label.len() < MOST_TAGS {
        return write!(out, "{label}");
    }
    write!(out, "{} of {MOST_TAGS}", label.len())
}

// The least tag that another label lacks.
fn lacking(alloc: Global, out: &mut String, label: &Label, other: &str) -> Result<(), AllocError> {
    match Label::from_text(alloc, other) {
        Ok(other) => write!(out, "{:?}", label.first_missing(&other)),
        Err(error) => write!(out, "{error:?}"),
    }
}

// With a tag or without it, or whether it is empty, has the tag and begins with it, and how many
// there are.
fn change(out: &mut String, what: &str, label: &mut Label, tag: Name) -> Result<(), AllocError> {
    match what {
        "insert" => write!(out, "{:?} ", label.insert(tag)),
        "remove" => write!(out, "{} ", label.remove(tag)),
        _ => {
            let is_first = label.as_slice().first() == Some(&tag);
            write!(out, "{} {} ", label.is_empty(), label.contains(tag))?;
            write!(out, "{is_first} {} ", label.iter().count())
        }
    }
}

/// Texts of labels.
pub const LABELS: &str = "\
label text {2.1,1.4,1.4,4294967295.4294967295} => {1.4,2.1,4294967295.4294967295}
label text {70000.1,65536.2,65535.4294967295} => {65535.4294967295,65536.2,70000.1}
label text {1.1,1.4} => {1.1,1.4}
label text {} => {}
label text  => BadText
label text { => BadText
label text } => BadText
label text {}} => BadText
label text {}\t => BadText
label text {}\r => BadText
label text {{} => BadText
label text 1.1 => BadText
label text {1.4294967296} => BadText
label text {4294967296.1} => BadText
label text {1.01} => BadText
label text {0.1} => BadText
label text {1.+1} => BadText
label text {1.1,} => BadText
label text {,1.1} => BadText
label text {1.1,,1.2} => BadText
label text {1} => BadText
label text { 1.1} => BadText
label text {1.1, 1.2} => BadText
label has {} | 1.2 => true false false 0 {}
label has {1.2} | 1.2 => false true true 1 {1.2}
label has {1.2,1.3} | 1.3 => false true false 2 {1.2,1.3}
label copy {1.1,1.3} => {1.1,1.3}";

/// Changes of labels, the longest ones too.
pub const CHANGES: &str = "\
label insert {} | 1.2 => Ok(true) {1.2}
label insert {1.2} | 1.2 => Ok(false) {1.2}
label insert {1.2} | 1.1 => Ok(true) {1.1,1.2}
label remove {1.1,1.2} | 1.2 => true {1.1}
label remove {1.1} | 1.2 => false {1.1}
label lacking {1.1,1.3,1.5} | {} => Some(Name { node: 1, seq: 1 })
label lacking {1.1,1.3,1.5} | {1.1,1.2,1.3,1.4} => Some(Name { node: 1, seq: 5 })
label lacking {1.1,1.3,1.5} | {1.1,1.4,1.5} => Some(Name { node: 1, seq: 3 })
label lacking {1.1,1.3,1.5} | {1.1,1.2,1.3,1.5,1.6} => None
label lacking {1.1,1.2} | {1.1} => Some(Name { node: 1, seq: 2 })
label lacking {1.1} | {1.1,1.2} => None
label lacking {1.1,1.2} | {1.1,1.2} => None
label lacking {} | {1.1,1.3,1.5} => None
label text 256} => 256 of 256
label text 256,2.1} => TooLong
label text 256,2.1,} => BadText
label insert 256} | 1.7 => Ok(false) 256 of 256
label insert 256} | 2.1 => Err(TooLong) 256 of 256";
