// What is saved: at the keeper, and in the set of saved operations.
ghost use Rattle.std.specs.Prelude.{◌≡◌, OnOk, OnErr, IsTrue, Err};
ghost use Rattle.fl_labels.specs.SetBy.{SetBy};
ghost use Rattle.fl_ops.specs.OpOrder.{op_cmp};
ghost use Rattle.fl_store.specs.Kept.{Kept, AreNew, with_ops};
ghost use Rattle.fl_system.specs.State.{ops_of};
ghost use Rattle.fl_opset.specs.Without.{without};
ghost use Rattle.fl_node.specs.parts.Keeping.{Keeps, unkept_of};

use crate::state::ops_of_batch;
use fl_ops::op::Op;
use fl_opset::set::OpSet;
use fl_store::keeper::{Keeper, KeeperFault};
use fl_system::state::Batch;
use std::alloc::AllocError;

/// Why operations were not saved.
#[derive(Clone, Copy, Debug, PartialEq, Eq)]
pub enum Unkept {
    /// There was no memory. They are not saved.
    Memory,
    /// The keeper broke.
    Broken,
}

// Why operations were not saved, by what the keeper says.
fn reason(fault: KeeperFault) -> Unkept
    ensures { result ≡ unkept_of fault }
{
    match fault {
        KeeperFault::Memory => Unkept::Memory,
        KeeperFault::Broken
        | KeeperFault::BadRow
        | KeeperFault::WrongNode
        | KeeperFault::NamesSpent => Unkept::Broken,
    }
}

/// Takes each of these operations out.
pub fn remove_all(saved: &mut OpSet, ops: &[Op])
    ensures { saved.new ≡ without saved.old ops.now }
{
    for op in ops {
        saved.remove(op);
    }
}

/// Adds a batch. An error leaves the set.
pub fn add_batch(saved: &mut OpSet, batch: &Batch) -> Result<(), AllocError>
    ensures ok { OnOk result (saved.new ≡ with_ops saved.old (ops_of batch.now)) }
    ensures err { OnErr result (saved.new ≡ saved.old) }
{
    match batch {
        Batch::Ordered(op, _, _) => match saved.add(*op) {
            Ok(_) => Ok(()),
            Err(error) => Err(error),
        },
        Batch::Received(ops) => saved.merge_batch(ops),
    }
}

/// Saves a batch of new names. An error leaves the set.
pub fn keep<K: Keeper>(keeper: &mut K, saved: &mut OpSet, batch: &Batch) -> Result<(), Unkept>
    requires new { AreNew (ops_of batch.now) saved.old }
    requires kept { K.custody.is_honest keeper.old → (k : Kept) → K.custody.may_hold keeper.old k
        → k.saved ≡ saved.old }
    ensures ok { OnOk result (saved.new ≡ with_ops saved.old (ops_of batch.now)) }
    ensures err { OnErr result (saved.new ≡ saved.old) }
    ensures broken { result ≡ Err Unkept.Broken → IsTrue (K.custody.is_broken keeper.new) }
    ensures number { K.custody.number keeper.new ≡ K.custody.number keeper.old }
    ensures held { K.custody.is_honest keeper.new → K.custody.is_honest keeper.old
        × Keeps (ops_of batch.now) (K.custody.may_hold keeper.old) (K.custody.may_hold keeper.new)
        result }
{
    let Ok(()) = add_batch(saved, batch) else {
        return Err(Unkept::Memory);
    };
    match keeper.save(ops_of_batch(batch)) {
        Ok(()) => Ok(()),
        Err(fault) => {
            remove_all(saved, ops_of_batch(batch));
            Err(reason(fault))
        }
    }
}
