//! Makers of keepers.
ghost use Rattle.std.specs.Prelude.{◌⊎◌, ◌<◌, ℕ, IfOk, IfErr, OnOk, IsTrue};
ghost use Rattle.fl_store.specs.Breaking.{IsLeftBroken};
ghost use Rattle.fl_store.specs.Kept.{Kept};
ghost use Rattle.fl_makers.specs.Making.{AllowsNoMore, IsOut, Making, MayBeFound};
ghost use Rattle.fl_system.specs.declared.answer.Fault.{Fault};

use fl_labels::name::NodeNumber;
use fl_store::keeper::Keeper;
use fl_system::answer::Fault;
use std::alloc::Global;

/// Makes keepers for the nodes of a script.
///
/// A contract knows which keepers may be made from now on and what they may hold, why none may be
/// made, and why a node may not be opened for its keeper's sake: a call makes no more possible than
/// was before. It knows what a second keeper of a node may hold while the first one is out: of a
/// maker that makes no second one nothing, so what is found once the first is closed is what that
/// may hold.
pub trait MakesKeepers {
    /// What it makes.
    type K: Keeper + Drop;

    // which keepers it makes, what they may hold, also a second one, and why none is made or opened
    ghost making: { Making Self Self.K };

    // where none is made, none is opened
    ghost told: { (maker : Self) (number : ℕ) (fault : Fault) → making.unmade maker number fault
        → making.refuses maker number fault };

    /// A keeper for the node of this number, which is not broken, or why there is none. It is asked
    /// where a line opens a node, and not at a restart.
    fn make(&mut self, alloc: Global, number: NodeNumber) -> Result<Self::K, Fault>
        requires { 0 < number }
        ensures makes { IfOk result (λ keeper. making.makes self.old number keeper) }
        ensures made { IfOk result (λ keeper. Self.K.custody.is_honest keeper
            → (k : Kept) → Self.K.custody.may_hold keeper k → making.finds self.old number k) }
        ensures fresh { IfOk result (λ keeper. ¬ IsTrue (Self.K.custody.is_broken keeper)) }
        ensures fails { IfOk result (λ keeper. (left : Self.K) →
            IsLeftBroken Self.K.custody keeper left
            ⊎ (Self.K.custody.is_honest left → Self.K.custody.has_bad_row keeper)
            → making.refuses self.old number Fault.KeeperFailed) }
        ensures out { OnOk result (IsOut making self.new number) }
        ensures why { IfErr result (λ fault. making.unmade self.old number fault) }
        ensures same { AllowsNoMore making self.old self.new };

    /// Takes a keeper back that it made for this node, over which the node was not opened, and why.
    fn take_back(&mut self, number: NodeNumber, keeper: Self::K, fault: Fault)
        ensures { AllowsNoMore making self.old self.new };

    /// Takes the keeper of this node back, which is served no longer. What is found from now on is
    /// what was found before, or what the keeper may hold.
    fn close(&mut self, number: NodeNumber, keeper: Self::K)
        ensures { (n : ℕ) (k : Kept) → making.finds self.new n k
            → MayBeFound Self.K.custody making self.old number keeper n k };
}
