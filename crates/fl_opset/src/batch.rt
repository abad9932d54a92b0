//! Operations that stand in one piece.
ghost use Rattle.std.specs.Prelude.{◌≡◌};
ghost use Rattle.std.specs.List.Sorted.{IsStrictlySortedBy};
ghost use Rattle.fl_labels.specs.SetBy as set;
ghost use Rattle.fl_ops.specs.OpOrder.{op_cmp};

use fl_ops::op::Op;
use std::marker::Model;

/// Operations that rise, in one piece. Contracts see their set.
#[derive(Debug, Drop)]
pub struct OpBatch {
    ops: Vec<Op>,
}

impl Model for OpBatch {
    ghost use Rattle.std.specs.List.Sorted.{IsStrictlySortedBy};
    ghost use Rattle.fl_labels.specs.SetBy as set;
    ghost use Rattle.fl_ops.specs.OpOrder.{op_cmp};
    ghost use Rattle.fl_ops.specs.OpLaws.{coded_op};

    ghost Value = { set.SetBy op_cmp };

    ghost coded = { set.code coded_op };

    ghost view = { λ a. set.of_list a.ops.items };

    ghost invariant = { λ a. IsStrictlySortedBy op_cmp a.ops.items };
}

impl OpBatch {
    /// These operations, which are not copied.
    pub fn from_rising(ops: Vec<Op>) -> Self
        requires { IsStrictlySortedBy op_cmp ops.items }
        ensures { result ≡ set.of_list ops.items }
    {
        OpBatch { ops }
    }

    /// The operations, rising.
    pub fn as_slice(&self) -> &[Op]
        ensures { result.now ≡ set.members self.now }
    {
        &self.ops
    }

    /// How many operations there are.
    pub fn len(&self) -> usize
        ensures { result ≡ set.len self.now }
    {
        self.ops.len()
    }
}
