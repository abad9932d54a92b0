//! How what a node has begun is saved.
ghost use Rattle.std.specs.Prelude.{◌≡◌, ◌↔◌, IsTrue, IfOk, filter, not};
ghost use Rattle.std.specs.List.Sorted.{IsStrictlySortedBy};
ghost use Rattle.fl_labels.specs.SetBy as set;
ghost use Rattle.fl_ops.specs.OpOrder.{op_cmp};
ghost use Rattle.fl_registrar.specs.Passing.{Passes};
ghost use Rattle.fl_registrar.specs.Taking.{news_of};
ghost use Rattle.fl_registrar.specs.parts.Saving.{Becomes};

use fl_node::node::Node;
use fl_ops::op::Op;
use fl_opset::batch::OpBatch;
use fl_opset::set::OpSet;
use fl_store::keeper::Keeper;
use fl_system::answer::Fault;
use std::alloc::{AllocError, Global};

/// What became of it.
pub enum Saving {
    /// It is saved, and due.
    Saved,
    /// There was no memory, and it is given up.
    NoMemory,
    /// The keeper broke.
    Broken,
}

// Whether the keeper failed.
fn is_failure(fault: Fault) -> bool
    ensures { IsTrue result ↔ fault ≡ Fault.KeeperFailed }
{
    match fault {
        Fault::KeeperFailed => true,
        _ => false,
    }
}

/// Saves what the node has begun, or gives it up where there is no memory for that.
pub fn save<K: Keeper>(node: &mut Node<K>) -> Saving
    ensures number { node.new.node.number ≡ node.old.node.number }
    ensures boot { node.new.node.boot ≡ node.old.node.boot }
    ensures keeper { K.custody.number node.new.keeper ≡ K.custody.number node.old.keeper }
    ensures broken { result ≡ Saving.Broken → IsTrue (K.custody.is_broken node.new.keeper) }
    ensures saved { result ≡ Saving.Broken → node.new.node.saved ≡ node.old.node.saved }
    ensures becomes { Passes K.custody
        (λ k k'. Becomes node.old.node k result node.new.node k') node.old.keeper node.new.keeper }
{
    let Err(fault) = node.save() else {
        return Saving::Saved;
    };
    if is_failure(fault) {
        return Saving::Broken;
    }
    let _ = node.cancel();
    Saving::NoMemory
}

// Those of these operations that the set lacks, in their order.
fn lacking(alloc: Global, saved: &OpSet, ops: &[Op]) -> Result<Vec<Op>, AllocError>
    ensures { IfOk result
        (λ it. it.items ≡ filter (λ op. not (set.contains saved.now op)) ops.now) }
{
    ops.iter()
        .filter(|op| !saved.contains(op))
        .copied()
        .collect(alloc)
}

/// Those of these operations that the set lacks. A search for each of them, and a copy.
pub fn news(alloc: Global, saved: &OpSet, ops: &[Op]) -> Result<OpBatch, AllocError>
    requires { IsStrictlySortedBy op_cmp ops.now }
    ensures { IfOk result (λ new. new ≡ news_of saved.now ops.now) }
{
    let new = lacking(alloc, saved, ops)?;
    Ok(OpBatch::from_rising(new))
}
