//! Lists of operations that are not kept: clauses see them, and at run time there are none.
ghost use Rattle.std.specs.Prelude.{◌≡◌, ◌∷◌, ◌++◌, []};

use fl_ops::op::Op;
use std::marker::Model;
use std::mem;
use std::snapshot::Snapshot;

// An operation, and what was absorbed before it.
#[derive(Drop)]
#[cycle(history)]
struct Step {
    before: Snapshot<History>,
    op: Op,
}

// Nothing, or a last operation and those before it.
#[derive(Drop)]
#[cycle(history)]
struct History {
    last: Option<Step>,
}

impl Model for History {
    ghost use Rattle.std.specs.Prelude.{◌∷◌, ◌++◌, [], List, length};
    ghost use Rattle.std.proofs.Common.{arith, length-append};
    ghost use Rattle.fl_ops.specs.declared.op.Op.{Op};
    ghost use Rattle.fl_closure.specs.parts.Absorbed.{folded};

    ghost Value = { List Op };

    ghost view = { λ h. folded [] (λ s. s.before.value ++ s.op ∷ []) h.last };

    ghost size = { length };

    ghost size_decreases = { λ a h. Prim.grind (arith, length-append) };
}

/// Operations in the order in which they were absorbed. Takes no memory: contracts alone see them.
#[derive(Drop)]
pub struct Absorbed {
    history: Snapshot<History>,
}

impl Model for Absorbed {
    ghost use Rattle.std.specs.Prelude.{List};
    ghost use Rattle.fl_ops.specs.declared.op.Op.{Op};

    ghost Value = { List Op };

    ghost view = { λ a. a.history.value };
}

impl Absorbed {
    /// None.
    pub fn new() -> Self
        ensures { result ≡ [] }
    {
        Absorbed {
            history: Snapshot::of(&History { last: None }),
        }
    }

    // One more.
    fn add(&mut self, op: &Op)
        ensures { self.new ≡ self.old ++ op.now ∷ [] }
    {
        let before = mem::replace(&mut self.history, Snapshot::of(&History { last: None }));
        self.history = Snapshot::of(&History {
            last: Some(Step { before, op: *op }),
        });
    }

    /// These too.
    pub fn add_all(&mut self, ops: &[Op])
        ensures { self.new ≡ self.old ++ ops.now }
    {
        for op in ops {
            self.add(op);
        }
    }
}
