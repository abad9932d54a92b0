//! Operations that are sent together.
ghost use Rattle.std.specs.Prelude.{◌≡◌, ◌≤◌, ◌<◌, length};
ghost use Rattle.std.specs.List.Sorted.{IsStrictlySortedBy, IsStrictlySortedBy-prop};
ghost use Rattle.fl_wire.specs.NameOrder.{by_name};

use fl_ops::op::Op;
use std::marker::Model;

/// How many operations a packet has at most.
pub const MOST_OPS: usize = 64;

/// Operations in a row. Contracts see their list alone.
#[derive(Debug, Drop)]
pub struct OpList {
    ops: Vec<Op>,
}

impl Model for OpList {
    ghost use Rattle.std.specs.Prelude.{List};
    ghost use Rattle.std.specs.Coded.{coded_list};
    ghost use Rattle.fl_ops.specs.declared.op.Op.{Op};
    ghost use Rattle.fl_ops.specs.OpLaws.{coded_op};

    ghost Value = { List Op };

    ghost coded = { coded_list coded_op };

    ghost view = { λ a. a.ops.items };
}

impl OpList {
    /// These operations, which are not copied.
    pub fn from_vec(ops: Vec<Op>) -> Self
        ensures { result ≡ ops.items }
    {
        OpList { ops }
    }

    /// The operations.
    pub fn as_slice(&self) -> &[Op]
        ensures { result.now ≡ self.now }
    {
        &self.ops
    }
}

impl PartialEq for OpList {
    ghost use Rattle.std.specs.Cmp.{partial_equiv_from_equiv};
    ghost use Rattle.std.specs.Cmp.Lexicographic.{pointwise, lists_equiv};
    ghost use Rattle.std.specs.Ordering.{eq_by_cmp};
    ghost use Rattle.fl_ops.specs.OpOrder.{op_cmp};
    ghost use Rattle.fl_ops.specs.OpLaws.{op_equivalence};

    ghost eq = { λ a b. pointwise (eq_by_cmp op_cmp) a b };

    ghost laws = { partial_equiv_from_equiv (lists_equiv op_equivalence) };

    fn eq(&self, other: &Self) -> bool {
        self.as_slice() == other.as_slice()
    }
}

impl Eq for OpList {
    ghost use Rattle.std.specs.Cmp.Lexicographic.{lists_equiv};
    ghost use Rattle.fl_ops.specs.OpLaws.{op_equivalence};

    ghost laws = { lists_equiv op_equivalence };
}

/// From 1 to 64 operations, each of a greater name than the one before.
#[derive(Debug, PartialEq, Eq)]
pub struct Batch {
    pub ops: OpList,
    pub ghost some: { 0 < length ops },
    pub ghost few: { length ops ≤ 64 },
    pub ghost rising: { IsStrictlySortedBy by_name ops } by { IsStrictlySortedBy-prop by_name ops },
}

impl Drop for Batch {
    fn drop(self) {
        let Batch { ops: _ } = self;
    }
}
