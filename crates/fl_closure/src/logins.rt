//! The logins among operations.
ghost use Rattle.std.specs.Prelude.{IfOk};
ghost use Rattle.fl_ops.specs.Registry.{Listed};
ghost use Rattle.fl_closure.specs.parts.Knowing.{AreLogins};

use fl_ops::op::{Body, Op};
use fl_opset::set::OpSet;
use std::alloc::{AllocError, Global};

/// The logins among the operations. Fails only where there is not enough memory.
pub(crate) fn logins_of(alloc: Global, ops: &[Op]) -> Result<OpSet, AllocError>
    ensures { IfOk result (λ logins. AreLogins (Listed ops.now) logins) }
{
    let mut logins = OpSet::new(alloc);
    for op in ops {
        if let Body::MakeLogin(_, _) = op.body {
            logins.add(*op)?;
        }
    }
    Ok(logins)
}
