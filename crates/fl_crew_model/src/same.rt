//! Whether two rulings are one.
ghost use Rattle.std.specs.Prelude.{◌≡◌, ◌↔◌, IsTrue};

use crate::record::{Reason, Ruling};
use fl_labels::pid::Pid;
use fl_ops::op::Op;

// Whether two operations are one.
fn is_op(one: Op, other: Op) -> bool
    ensures { IsTrue result ↔ one ≡ other }
{
    one == other
}

// Whether two processes are one.
fn is_pid(one: Pid, other: Pid) -> bool
    ensures { IsTrue result ↔ one ≡ other }
{
    one == other
}

// Whether two reasons are one.
fn is_reason(one: Reason, other: Reason) -> bool
    ensures { IsTrue result ↔ one ≡ other }
{
    match one {
        Reason::Busy => match other {
            Reason::Busy => true,
            _ => false,
        },
        Reason::NamesSpent => match other {
            Reason::NamesSpent => true,
            _ => false,
        },
        Reason::Memory => match other {
            Reason::Memory => true,
            _ => false,
        },
    }
}

/// Whether two rulings are one.
pub fn is_same(one: Ruling, other: Ruling) -> bool
    ensures { IsTrue result ↔ one ≡ other }
{
    match one {
        Ruling::Made(op) => match other {
            Ruling::Made(its) => is_op(op, its),
            _ => false,
        },
        Ruling::Late(op, pid) => match other {
            Ruling::Late(its, its_pid) => is_op(op, its) && is_pid(pid, its_pid),
            _ => false,
        },
        Ruling::GivenUp(reason) => match other {
            Ruling::GivenUp(its) => is_reason(reason, its),
            _ => false,
        },
    }
}
