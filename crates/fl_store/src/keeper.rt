//! Keepers: what a node has over a restart.
ghost use Rattle.std.specs.Prelude.{◌≡◌, ◌≢◌, ◌<◌, ◌≤◌, ◌↔◌, ◌⊎◌, ◌+◌};
ghost use Rattle.std.specs.Prelude.{ℕ, Bool, IsTrue, IfOk, IfErr, OnOk};
ghost use Rattle.fl_store.specs.Kept.{Kept};

use fl_labels::name::NodeNumber;
use fl_ops::op::Op;
use fl_opset::set::OpSet;
use std::alloc::Global;

/// Why a keeper was not opened, or a call of one was refused.
#[derive(Clone, Copy, Debug, PartialEq, Eq)]
pub enum KeeperFault {
    /// There was not enough memory. Nothing has changed.
    Memory,
    /// The keeper is broken until it is opened again. What was asked for is done as a whole, or not
    /// at all.
    Broken,
    /// What is kept is another node's. Nothing has changed.
    WrongNode,
    /// What is kept has a row that no keeper writes. Nothing has changed.
    BadRow,
    /// It was booted 4,294,967,295 times. Nothing has changed.
    NamesSpent,
}

/// What keeps the operations of one node over its restarts, and how often it was booted.
///
/// A contract knows what the next opening may find, if the call or the process ends here: one thing
/// while the keeper is not broken; where it breaks, what was kept before, or that with what was
/// asked for, as a whole. This is promised as far as what was written is read back, and nobody else
/// has written; a keeper in memory needs no such premise.
///
/// It breaks, and counts one fault, only for a cause, and wants for memory only for one. What is a
/// cause, each keeper says.
pub trait Keeper {
    ghost use Rattle.fl_store.specs.Call.{Load, Boot, Save};
    ghost use Rattle.fl_store.specs.Custody.{Custody};
    ghost use Rattle.fl_store.specs.Kept.{AreNew, HasNamesOnce};
    ghost use Rattle.fl_store.specs.Keeping.{AfterSave, AfterBoot, AfterLoad};
    ghost use Rattle.fl_store.specs.Keeping.{LoadFails, BootFails, SaveFails};

    // whose it is, what it may hold, and when it fails
    ghost custody: { Custody Self };

    /// The node whose operations are kept.
    fn number(&self) -> NodeNumber
        ensures { result ≡ custody.number self.now };

    /// How many faults there were since the opening, those for want of memory left out.
    fn failures(&self) -> u64
        ensures { result ≡ custody.failed self.now };

    /// The saved operations, whose names differ.
    ///
    /// Refused for want of memory, where the keeper is or gets broken, or where a row is bad. Takes
    /// as long as there are operations.
    fn load(&mut self, alloc: Global) -> Result<OpSet, KeeperFault>
        ensures number { custody.number self.new ≡ custody.number self.old }
        ensures counts { custody.failed self.old ≤ custody.failed self.new }
        ensures stays { IsTrue (custody.is_broken self.old) → result ≡ Err KeeperFault.Broken }
        ensures breaks { (result ≡ Err KeeperFault.Broken) ↔ IsTrue (custody.is_broken self.new) }
        ensures cause { let is_bad = custody.is_honest self.new → custody.has_bad_row self.old in
            IfErr result (LoadFails (custody.is_broken self.new) (custody.failed self.new) is_bad) }
        ensures broke { custody.is_honest self.new → result ≡ Err KeeperFault.Broken
            → IsTrue (custody.is_broken self.old) ⊎ custody.breaks Load self.old self.new }
        ensures counted { custody.is_honest self.new
            → (custody.failed self.new ≡ custody.failed self.old)
            ⊎ ((custody.failed self.new ≡ custody.failed self.old + 1)
            × custody.breaks Load self.old self.new) }
        ensures wanted { custody.is_honest self.new → result ≡ Err KeeperFault.Memory
            → custody.wants Load self.old self.new }
        ensures becomes { custody.is_honest self.new → (result ≢ Err KeeperFault.Memory)
            → custody.becomes Load self.old self.new }
        ensures whole { custody.is_honest self.new → OnOk result (¬ custody.has_bad_row self.old) }
        ensures names { IfOk result HasNamesOnce }
        ensures held { custody.is_honest self.new → custody.is_honest self.old
            × AfterLoad (custody.may_hold self.old) (custody.may_hold self.new) result };

    /// Raises the number of boots by one, and gives it.
    ///
    /// Refused for want of memory, where the keeper is or gets broken, or where all boots are
    /// spent.
    fn boot(&mut self) -> Result<u32, KeeperFault>
        ensures number { custody.number self.new ≡ custody.number self.old }
        ensures positive { IfOk result (λ boot. 0 < boot) }
        ensures counts { custody.failed self.old ≤ custody.failed self.new }
        ensures stays { IsTrue (custody.is_broken self.old) → result ≡ Err KeeperFault.Broken }
        ensures breaks { (result ≡ Err KeeperFault.Broken) ↔ IsTrue (custody.is_broken self.new) }
        ensures cause { let failed = custody.failed self.new in
            IfErr result (BootFails (custody.is_broken self.new) failed) }
        ensures broke { custody.is_honest self.new → result ≡ Err KeeperFault.Broken
            → IsTrue (custody.is_broken self.old) ⊎ custody.breaks Boot self.old self.new }
        ensures counted { custody.is_honest self.new
            → (custody.failed self.new ≡ custody.failed self.old)
            ⊎ ((custody.failed self.new ≡ custody.failed self.old + 1)
            × custody.breaks Boot self.old self.new) }
        ensures wanted { custody.is_honest self.new → result ≡ Err KeeperFault.Memory
            → custody.wants Boot self.old self.new }
        ensures becomes { custody.is_honest self.new → (result ≢ Err KeeperFault.Memory)
            → custody.becomes Boot self.old self.new }
        ensures held { custody.is_honest self.new → custody.is_honest self.old
            × AfterBoot (custody.may_hold self.old) (custody.may_hold self.new) result };

    /// Adds the operations, all or none. Their names differ, and no saved operation has one of
    /// them.
    ///
    /// Refused for want of memory, or where the keeper is or gets broken. Takes as long as there
    /// are operations in the batch, or, where these are not above all that are saved, as there are
    /// saved ones.
    fn save(&mut self, ops: &[Op]) -> Result<(), KeeperFault>
        requires { custody.is_honest self.old
            → (k : Kept) → custody.may_hold self.old k → AreNew ops.now k.saved }
        ensures number { custody.number self.new ≡ custody.number self.old }
        ensures counts { custody.failed self.old ≤ custody.failed self.new }
        ensures stays { IsTrue (custody.is_broken self.old) → result ≡ Err KeeperFault.Broken }
        ensures breaks { (result ≡ Err KeeperFault.Broken) ↔ IsTrue (custody.is_broken self.new) }
        ensures cause { let failed = custody.failed self.new in
            IfErr result (SaveFails (custody.is_broken self.new) failed) }
        ensures broke { custody.is_honest self.new → result ≡ Err KeeperFault.Broken
            → IsTrue (custody.is_broken self.old)
            ⊎ custody.breaks (Save ops.now) self.old self.new }
        ensures counted { custody.is_honest self.new
            → (custody.failed self.new ≡ custody.failed self.old)
            ⊎ ((custody.failed self.new ≡ custody.failed self.old + 1)
            × custody.breaks (Save ops.now) self.old self.new) }
        ensures wanted { custody.is_honest self.new → result ≡ Err KeeperFault.Memory
            → custody.wants (Save ops.now) self.old self.new }
        ensures becomes { custody.is_honest self.new → (result ≢ Err KeeperFault.Memory)
            → custody.becomes (Save ops.now) self.old self.new }
        ensures held { custody.is_honest self.new → custody.is_honest self.old
            × AfterSave ops.now (custody.may_hold self.old) (custody.may_hold self.new) result };

    // an opening finds something
    ghost holds: { (keeper : Self) → custody.is_honest keeper
        → ∥ ((k : Kept) × custody.may_hold keeper k) ∥₁ };

    // of this node
    ghost numbered: { (keeper : Self) (k : Kept) → custody.may_hold keeper k
        → k.number ≡ custody.number keeper };
}
