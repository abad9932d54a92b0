// What an opening finds at a keeper, and makes of it.
ghost use Rattle.std.specs.Prelude.{◌≡◌, ◌≢◌, ◌⊎◌, ◌<◌, IsTrue, Err, IfOk, IfErr};
ghost use Rattle.fl_store.specs.Breaking.{IsLeftBroken};
ghost use Rattle.fl_store.specs.Call.{Load, Boot};
ghost use Rattle.fl_store.specs.Kept.{HasNamesOnce};
ghost use Rattle.fl_node.specs.Causes.{KeeperFails};
ghost use Rattle.fl_node.specs.parts.Finding.{Finds, Raises, shown_as};

use fl_jobs::answer::Refusal;
use fl_labels::name::NodeNumber;
use fl_opset::set::OpSet;
use fl_store::keeper::{Keeper, KeeperFault};
use fl_system::answer::Fault;
use std::alloc::Global;

// What is answered where a keeper refuses.
fn shown(fault: KeeperFault) -> Fault
    ensures { result ≡ shown_as fault }
{
    match fault {
        KeeperFault::Memory => Fault::Refused(Refusal::Memory),
        KeeperFault::WrongNode => Fault::WrongNode,
        KeeperFault::NamesSpent => Fault::Refused(Refusal::NamesSpent),
        KeeperFault::Broken | KeeperFault::BadRow => Fault::KeeperFailed,
    }
}

/// The saved operations, where the keeper is this node's.
pub fn find<K: Keeper>(alloc: Global, keeper: &mut K, number: NodeNumber) -> Result<OpSet, Fault>
    ensures number { K.custody.number keeper.new ≡ K.custody.number keeper.old }
    ensures own { IfOk result (λ saved. K.custody.number keeper.old ≡ number) }
    ensures cause { let broken = IsLeftBroken K.custody keeper.old keeper.new in
        let bad = K.custody.has_bad_row keeper.old in
        IfErr result (KeeperFails broken (K.custody.is_honest keeper.new) bad) }
    ensures sound { IfOk result (λ saved. ¬ IsTrue (K.custody.is_broken keeper.new)) }
    ensures loads { IfOk result (λ saved. K.custody.is_honest keeper.new
        → K.custody.becomes Load keeper.old keeper.new) }
    ensures broken { IsTrue (K.custody.is_broken keeper.old) → K.custody.number keeper.old ≡ number
        → result ≡ Err Fault.KeeperFailed }
    ensures other { K.custody.number keeper.old ≢ number → result ≡ Err Fault.WrongNode }
    ensures whole { IfOk result (λ saved. K.custody.is_honest keeper.new
        → ¬ K.custody.has_bad_row keeper.old) }
    ensures names { IfOk result HasNamesOnce }
    ensures held { K.custody.is_honest keeper.new → K.custody.is_honest keeper.old
        × Finds number (K.custody.may_hold keeper.old) (K.custody.may_hold keeper.new) result }
{
    if keeper.number() != number {
        return Err(Fault::WrongNode);
    }
    match keeper.load(alloc) {
        Ok(saved) => Ok(saved),
        Err(fault) => Err(shown(fault)),
    }
}

/// The next boot.
pub fn raise<K: Keeper>(keeper: &mut K) -> Result<u32, Fault>
    ensures number { K.custody.number keeper.new ≡ K.custody.number keeper.old }
    ensures cause { IfErr result (λ fault. fault ≡ Fault.KeeperFailed
        → IsTrue (K.custody.is_broken keeper.new)) }
    ensures broke { K.custody.is_honest keeper.new → result ≡ Err Fault.KeeperFailed
        → IsTrue (K.custody.is_broken keeper.old) ⊎ K.custody.breaks Boot keeper.old keeper.new }
    ensures positive { IfOk result (λ boot. 0 < boot) }
    ensures held { K.custody.is_honest keeper.new → K.custody.is_honest keeper.old
        × Raises (K.custody.may_hold keeper.old) (K.custody.may_hold keeper.new) result }
{
    match keeper.boot() {
        Ok(boot) => Ok(boot),
        Err(fault) => Err(shown(fault)),
    }
}
