//! The steps of a chain.
ghost use Rattle.std.specs.Prelude.{◌≡◌, ◌↔◌, Some};
ghost use Rattle.fl_chains.specs.Step.{put_op};
ghost use Rattle.fl_chains.specs.declared.step.Step.{Step};

use fl_labels::cap::Cap;
use fl_labels::name::{Group, Name};
use fl_ops::op::{Body, Op};

/// A step of a chain: from the use of the group to the capability that an operation puts into it.
/// Ordered by the capability, and then by the name of the operation.
#[derive(Clone, Copy, Debug, PartialEq, Eq, PartialOrd, Ord)]
pub struct Step {
    /// The capability.
    pub cap: Cap,
    /// The name of the operation.
    pub name: Name,
    /// The group.
    pub group: Group,
}

impl Step {
    /// The step that rests on the operation, where it puts something into a group.
    pub fn of(op: &Op) -> Option<Step>
        ensures { (s : Step) → (result ≡ Some s) ↔ (put_op s ≡ op.now) }
    {
        match op.body {
            Body::Put(group, cap) => Some(Step {
                cap,
                name: op.name,
                group,
            }),
            Body::MakeTag(_) | Body::MakeGroup | Body::MakeLogin(_, _) | Body::Open(_) => None,
        }
    }

    /// The operation that it rests on.
    pub fn op(self) -> Op
        ensures { result ≡ put_op self }
    {
        Op {
            name: self.name,
            body: Body::Put(self.group, self.cap),
        }
    }
}
