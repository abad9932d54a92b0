//! What binary searches find among operations that rise.
ghost use Rattle.std.specs.Prelude.{◌≡◌, ◌≢◌, ◌<◌, length, true, false};
ghost use Rattle.std.specs.List.{All, Any};
ghost use Rattle.std.specs.List.Sorted.{IsStrictlySortedBy, IsSearchInRange, IsBinarySearchResult};
ghost use Rattle.std.specs.Ordering.{is_lt};
ghost use Rattle.fl_ops.specs.OpOrder.{op_cmp};
ghost use Rattle.fl_ops.specs.Registry.{Listed};
ghost use Rattle.fl_ops.specs.Logins.{FindsLogin};
ghost use Rattle.fl_opset.specs.parts.LoginPlace.{login_place};

use fl_labels::cap::Cap;
use fl_labels::name::Name;
use fl_ops::digest::Digest;
use fl_ops::op::{Body, Op};

/// The place of an operation, or the place at which it would stand. The last operation is asked
/// first, since most are added at the end.
pub fn place_of(ops: &[Op], op: &Op) -> Result<usize, usize>
    ensures bound { IsSearchInRange result (length ops.now) }
    ensures position { IsStrictlySortedBy op_cmp ops.now
        → IsBinarySearchResult (λ y. op_cmp y op.now) ops.now result }
{
    let Some(last) = ops.last() else {
        return Err(0);
    };
    if last < op {
        return Err(ops.len());
    }
    ops.binary_search(op)
}

/// Whether one of the operations has the name of this one, and another body.
pub fn has_other(ops: &[Op], op: &Op) -> bool
    requires { IsStrictlySortedBy op_cmp ops.now }
    ensures some { result ≡ true
        → Any (λ other. (other.name ≡ op.now.name) × (other ≢ op.now)) ops.now }
    ensures none { result ≡ false
        → All (λ other. other.name ≡ op.now.name → other ≡ op.now) ops.now }
{
    let first = ops.partition_point(|other| other.name < op.name);
    for other in &ops[first..] {
        if other.name != op.name {
            return false;
        }
        if other != op {
            return true;
        }
    }
    false
}

// The kind of logins: among the operations of a name they come before those that open groups alone.
const LOGIN: u8 = 4;

// Whether the operation stands before all logins of this name.
fn is_before_logins(op: &Op, name: Name) -> bool
    ensures { result ≡ is_lt (login_place name op.now) }
{
    op.name.cmp(&name).then(op.body.kind().cmp(&LOGIN)).is_lt()
}

/// The least login of this name, or none.
pub fn first_login(ops: &[Op], name: Name) -> Option<(Cap, Digest)>
    requires { IsStrictlySortedBy op_cmp ops.now }
    ensures { FindsLogin (Listed ops.now) name result }
{
    let start = ops.partition_point(|op| is_before_logins(op, name));
    let Some(first) = ops[start..].first() else {
        return None;
    };
    if first.name != name {
        return None;
    }
    match first.body {
        Body::MakeLogin(cap, digest) => Some((cap, digest)),
        _ => None,
    }
}
