//! Whether a ruling is one on this order.
ghost use Rattle.std.specs.Prelude.{◌≡◌, IsTrue};

use fl_labels::pid::Pid;
use fl_ops::op::{Body, Op};

// Whether the operation does just this.
pub(crate) fn does(op: Op, body: Body) -> bool
    ensures { IsTrue result → op.body ≡ body }
{
    let name = op.name;
    op == Op { name, body }
}

// Whether two pids are one.
pub(crate) fn is_pid(one: Pid, other: Pid) -> bool
    ensures { IsTrue result → one ≡ other }
{
    one == other
}
