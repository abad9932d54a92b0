//! What is saved, and not yet on the press.
ghost use Rattle.std.specs.Prelude.{◌≡◌, ◌++◌, [], List, OnOk, OnErr};
ghost use Rattle.fl_ops.specs.declared.op.Op.{Op};
ghost use Rattle.fl_system.specs.State.{ops_of};
ghost use Rattle.fl_registrar.specs.parts.Stages.{IsAt, IsListed, staged_at, unstaged_at};
ghost use Rattle.fl_registrar.specs.Listing.{HasListed};
ghost use Rattle.fl_registrar.specs.Publishing.{IsSameButList};

use fl_node::node::Node;
use fl_ops::op::Op;
use fl_replica::press::{Press, PressFault};
use fl_store::keeper::Keeper;
use fl_system::state::Batch;
use std::alloc::{AllocError, Global};
use std::slice::from_ref;
use std::sync::Wait;

/// How far what is saved has come.
#[derive(Clone, Copy)]
pub enum Stage {
    /// It is due in the node too.
    Saved,
    /// The node has published it.
    Listed,
    /// The press has staged it too.
    Staged,
}

/// What is saved, and not yet on the press.
#[derive(Drop)]
pub struct Waiting {
    pub batch: Batch,
    pub stage: Stage,
}

// The operations of a batch.
fn operations(batch: &Batch) -> &[Op]
    ensures { result.now ≡ ops_of batch.now }
{
    match batch {
        Batch::Ordered(op, _, _) => from_ref(op),
        Batch::Received(ops) => ops.as_slice(),
    }
}

// What of it the press has not staged.
fn unstaged(waiting: &Waiting) -> &[Op]
    ensures { result.now ≡ unstaged_at waiting.now.stage (ops_of waiting.now.batch) }
{
    match waiting.stage {
        Stage::Saved | Stage::Listed => operations(&waiting.batch),
        Stage::Staged => &[],
    }
}

// Has the node publish it, where that has not done so.
fn list<K: Keeper>(
    alloc: Global,
    node: &mut Node<K>,
    waiting: &mut Waiting,
) -> Result<(), AllocError>
    ensures node { IsSameButList node.old node.new }
    ensures batch { waiting.new.batch ≡ waiting.old.batch }
    ensures listed { OnOk result (IsListed waiting.new.stage) }
    ensures staged { staged_at waiting.new.stage ≡ staged_at waiting.old.stage }
    ensures at { (list : List Op)
        → IsAt waiting.old.stage node.old.node list (ops_of waiting.old.batch)
        → IsAt waiting.new.stage node.new.node list (ops_of waiting.new.batch) }
{
    let Stage::Saved = waiting.stage else {
        return Ok(());
    };
    if node.publish(alloc).is_err() {
        return Err(AllocError);
    }
    waiting.stage = Stage::Listed;
    Ok(())
}

// Has the press publish it, or stage it.
fn print<R: Wait>(rt: &R, press: &mut Press, waiting: &mut Waiting) -> Result<(), AllocError>
    requires listed { IsListed waiting.old.stage }
    requires staged { press.old.staged ≡ staged_at waiting.old.stage (ops_of waiting.old.batch) }
    ensures board { press.new.board ≡ press.old.board }
    ensures ok { OnOk result
        (press.new.list ≡ press.old.list ++ ops_of waiting.old.batch) }
    ensures none { OnOk result (press.new.staged ≡ []) }
    ensures err { OnErr result (press.new.list ≡ press.old.list) }
    ensures batch { waiting.new.batch ≡ waiting.old.batch }
    ensures listed { IsListed waiting.new.stage }
    ensures staged { OnErr result
        (press.new.staged ≡ staged_at waiting.new.stage (ops_of waiting.new.batch)) }
{
    match press.publish(rt, unstaged(waiting)) {
        Ok(_) => Ok(()),
        Err(PressFault::Memory) => Err(AllocError),
        Err(PressFault::Staged) => {
            waiting.stage = Stage::Staged;
            Err(AllocError)
        }
    }
}

/// Publishes it, first in the node where it is due there, and then on the press. An error leaves
/// the press's list.
pub fn publish<K: Keeper, R: Wait>(
    rt: &R,
    alloc: Global,
    node: &mut Node<K>,
    press: &mut Press,
    waiting: &mut Waiting,
) -> Result<(), AllocError>
    requires { press.old.staged ≡ staged_at waiting.old.stage (ops_of waiting.old.batch) }
    ensures node { IsSameButList node.old node.new }
    ensures board { press.new.board ≡ press.old.board }
    ensures ok { OnOk result
        (press.new.list ≡ press.old.list ++ ops_of waiting.old.batch) }
    ensures none { OnOk result (press.new.staged ≡ []) }
    ensures err { OnErr result (press.new.list ≡ press.old.list) }
    ensures batch { waiting.new.batch ≡ waiting.old.batch }
    ensures staged { OnErr result
        (press.new.staged ≡ staged_at waiting.new.stage (ops_of waiting.new.batch)) }
    ensures done { OnOk result
        (IsAt waiting.old.stage node.old.node press.old.list (ops_of waiting.old.batch)
        → HasListed node.new.node press.new.list []) }
    ensures at { OnErr result
        (IsAt waiting.old.stage node.old.node press.old.list (ops_of waiting.old.batch)
        → IsAt waiting.new.stage node.new.node press.new.list (ops_of waiting.new.batch)) }
{
    list(alloc, node, waiting)?;
    print(rt, press, waiting)
}
