//! Names, operations and questions that the tests of the index are made of.
use fl_closure::index::Index;
use fl_labels::cap::Cap;
use fl_labels::cap_set::CapSet;
use fl_labels::name::Name;
use fl_labels::text::read_cap;
use fl_ops::op::{Body, Op};

/// 1.1 for 0, and on.
pub fn name(number: u16) -> Name {
    Name {
        node: 1,
        seq: number as u32 + 1,
    }
}

/// The operation, called 2.1 for 0 and on, that puts a capability into a group, which is called 1.1
/// for 0 and on.
pub fn put(number: u16, group: u16, cap: Cap) -> Op {
    Op {
        name: Name {
            node: 2,
            seq: number as u32 + 1,
        },
        body: Body::Put(name(group), cap),
    }
}

/// One of the numbers below a bound, by a linear congruential generator.
pub fn draw(state: &mut u64, bound: u16) -> u16 {
    *state = state
        .wrapping_mul(6364136223846793005)
        .wrapping_add(1442695040888963407);
    (*state >> 33).checked_rem(bound as u64).unwrap_or(0) as u16
}

/// What an index is asked of a capability.
#[derive(Clone, Copy)]
pub enum Question<'a> {
    /// Whether the owner of this one reaches it.
    Reached(Cap),
    /// Whether it is in effect for the owner of these.
    Effective(&'a CapSet),
    /// Whether everybody has it.
    Global,
}

fn ask(index: &Index, question: Question, cap: Cap) -> bool {
    match question {
        Question::Reached(root) => index.reaches(root, cap),
        Question::Effective(owned) => index.effective(owned, cap),
        Question::Global => index.global(cap),
    }
}

/// Whether the answer is this for each of the capabilities, which stand with a space between.
pub fn all_answer(index: &Index, question: Question, caps: &str, wanted: bool) -> bool {
    for word in caps.split(' ') {
        let Some(cap) = read_cap(word) else {
            return false;
        };
        if ask(index, question, cap) != wanted {
            return false;
        }
    }
    true
}

/// Whether the answer is yes for each of the first capabilities, and no for each of the others.
pub fn divides(index: &Index, question: Question, yes: &str, no: &str) -> bool {
    all_answer(index, question, yes, true) && all_answer(index, question, no, false)
}
