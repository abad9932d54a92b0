//! What is left of operations that rise, from a name on.
ghost use Rattle.std.specs.Prelude.{◌≡◌, ◌≢◌, ◌≤◌, length, drop, true, false};
ghost use Rattle.std.specs.List.{All};
ghost use Rattle.std.specs.List.Sorted.{IsStrictlySortedBy};
ghost use Rattle.fl_labels.specs.Found.{Tells};
ghost use Rattle.fl_ops.specs.declared.op.Op.{Op};
ghost use Rattle.fl_ops.specs.OpOrder.{op_cmp};
ghost use Rattle.fl_ops.specs.Registry.{Listed};
ghost use Rattle.fl_gossip.specs.parts.Ahead.{IsFrom, NotBelow, BeginsWith};

use fl_labels::name::Name;
use fl_ops::op::Op;

// A place with none from it on below the name, at most twice as far as the first of these.
fn bound(ops: &[Op], name: Name) -> usize
    requires { IsStrictlySortedBy op_cmp ops.now }
    ensures inside { result ≤ length ops.now }
    ensures above { All (NotBelow name) (drop result ops.now) }
{
    let mut bound = 0;
    while bound < ops.len() {
        if ops[bound].name >= name {
            return bound;
        }
        bound += (bound + 1).min(ops.len() - bound);
    }
    ops.len()
}

/// The operations whose name is not below this one. A search in steps that double, so that it costs
/// little where few are below.
pub fn from_name(ops: &[Op], name: Name) -> &[Op]
    requires { IsStrictlySortedBy op_cmp ops.now }
    ensures { IsFrom ops.now name result.now }
{
    let (near, _) = ops.split_at(bound(ops, name));
    let (_, from) = ops.split_at(near.partition_point(|op| op.name < name));
    from
}

/// Whether the first of the operations has the name.
pub fn begins_with(ops: &[Op], name: Name) -> bool
    ensures { Tells result (BeginsWith ops.now name) }
{
    match ops.first() {
        Some(first) => first.name == name,
        None => false,
    }
}

/// Whether another operation than this one has its name, among those from that name on, of which
/// the first has it.
pub fn has_other(ops: &[Op], op: &Op) -> bool
    requires rise { IsStrictlySortedBy op_cmp ops.now }
    requires from { All (NotBelow op.now.name) ops.now }
    requires begins { BeginsWith ops.now op.now.name }
    ensures other { result ≡ true → (other : Op) × Listed ops.now other
        × (other.name ≡ op.now.name) × (other ≢ op.now) }
    ensures alone { result ≡ false → (other : Op) → Listed ops.now other
        → other.name ≡ op.now.name → other ≡ op.now }
{
    if ops[0] != *op {
        return true;
    }
    let (_, others) = ops.split_at(1);
    begins_with(others, op.name)
}
