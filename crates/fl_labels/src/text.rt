//! Readers of words.
ghost use Rattle.std.specs.Prelude.{◌≡◌, ◌≢◌, ◌∷◌, ℕ, List, MatchOption};
ghost use Rattle.fl_labels.specs.Found.{Finds};
ghost use Rattle.fl_labels.specs.Text.{name_text, cap_text, pid_text, endpoint_text};
ghost use Rattle.fl_labels.specs.Words.{IsNumber};
ghost use Rattle.fl_labels.specs.parts.Digits.{FindsDotted, FindsNumber};

use crate::cap::Cap;
use crate::endpoint::{Endpoint, LAST_ENDPOINT};
use crate::name::Name;
use crate::pid::Pid;

// The number from 1 to 4294967295 that the bytes begin with, and what stands behind its last digit.
// `None` where they begin with none. Looks at each digit once, and at one byte behind them.
#[inline(always)]
fn number_in(bytes: &[u8]) -> Option<(u32, &[u8])>
    ensures { FindsNumber bytes.now result }
{
    let [first @ b'1'..=b'9', more @ ..] = bytes else {
        return None;
    };
    let mut number = u64::from(*first - b'0');
    for (at, byte) in more.iter().enumerate() {
        if !byte.is_ascii_digit() {
            return Some((number as u32, &more[at..]));
        }
        number = number * 10 + u64::from(*byte - b'0');
        if number > u64::from(u32::MAX) {
            return None;
        }
    }
    Some((number as u32, &[]))
}

// The number from 1 to 4294967295 that the bytes are.
fn number_of(bytes: &[u8]) -> Option<u32>
    ensures { Finds result (λ n. IsNumber n bytes.now) }
{
    let (number, rest) = number_in(bytes)?;
    if !rest.is_empty() {
        return None;
    }
    Some(number)
}

// What stands behind this byte, where it is the first.
fn behind(first: u8, bytes: &[u8]) -> Option<&[u8]>
    ensures { MatchOption result ((rest : List ℕ) → bytes.now ≢ first ∷ rest)
        (λ rest. bytes.now ≡ first ∷ rest.now) }
{
    match bytes {
        [byte, rest @ ..] if *byte == first => Some(rest),
        _ => None,
    }
}

// The number that the bytes begin with, and what stands behind the dot after it.
fn dotted_in(bytes: &[u8]) -> Option<(u32, &[u8])>
    ensures { FindsDotted bytes.now result }
{
    let (number, rest) = number_in(bytes)?;
    let rest = behind(b'.', rest)?;
    Some((number, rest))
}

// The name that the bytes are.
fn name_of(bytes: &[u8]) -> Option<Name>
    ensures { Finds result (λ name. bytes.now ≡ name_text name) }
{
    let (node, seq) = dotted_in(bytes)?;
    let seq = number_of(seq)?;
    Some(Name { node, seq })
}

/// The number from 1 to 4294967295 that a word spells: decimal, with no sign and no leading zero.
/// `None` of any other word.
pub fn read_number(text: &str) -> Option<u32>
    ensures { Finds result (λ n. IsNumber n text.now) }
{
    number_of(text.as_bytes())
}

/// The name that a word such as `1.4` spells. `None` of any other word.
pub fn read_name(text: &str) -> Option<Name>
    ensures { Finds result (λ name. text.now ≡ name_text name) }
{
    name_of(text.as_bytes())
}

/// The capability that a word such as `+1.4` spells; the signs are `+`, `-`, `*` (use) and `^`
/// (grow). `None` of any other word.
pub fn read_cap(text: &str) -> Option<Cap>
    ensures { Finds result (λ cap. text.now ≡ cap_text cap) }
{
    let (sign, name) = text.as_bytes().split_first()?;
    let name = name_of(name)?;
    match *sign {
        b'+' => Some(Cap::Plus(name)),
        b'-' => Some(Cap::Minus(name)),
        b'*' => Some(Cap::Use(name)),
        b'^' => Some(Cap::Grow(name)),
        _ => None,
    }
}

/// The process identifier that a word such as `p1.1.1` spells. `None` of any other word.
pub fn read_pid(text: &str) -> Option<Pid>
    ensures { Finds result (λ pid. text.now ≡ pid_text pid) }
{
    let (node, boot) = dotted_in(behind(b'p', text.as_bytes())?)?;
    let (boot, serial) = dotted_in(boot)?;
    let serial = number_of(serial)?;
    Some(Pid { node, boot, serial })
}

/// The endpoint that a word such as `e1` spells. `None` of any other word.
pub fn read_endpoint(text: &str) -> Option<Endpoint>
    ensures { Finds result (λ endpoint. text.now ≡ endpoint_text endpoint) }
{
    let number = number_of(behind(b'e', text.as_bytes())?)?;
    if number > LAST_ENDPOINT {
        return None;
    }
    Some(Endpoint { number })
}
