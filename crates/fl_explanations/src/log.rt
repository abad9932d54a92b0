//! A part of a list.
ghost use Rattle.std.specs.Prelude.{◌≡◌};
ghost use Rattle.fl_explanations.specs.Lines.{logged};

use fl_ops::op::Op;

/// How many operations are given at once, at most.
pub const MOST_LOGGED: usize = 1000;

/// The operations from this place of the list on, at most [`MOST_LOGGED`] of them; none where the
/// list ends before it. Takes no memory, and the same time wherever the place is.
pub fn logged(ops: &[Op], place: u32) -> &[Op]
    ensures { result.now ≡ logged place ops.now }
{
    let start = (place as usize).min(ops.len());
    let rest = &ops[start..];
    let count = rest.len().min(MOST_LOGGED);
    &rest[..count]
}
