//! Laws of batches: each is the contract of a function that does nothing.
ghost use Rattle.std.specs.Prelude.{ℕ, List};
ghost use Rattle.fl_dealing.specs.declared.entry.Entry.{Entry};
ghost use Rattle.fl_dealing.specs.declared.item.Item.{Item};
ghost use Rattle.fl_dealing.specs.Answered.{AreAnswered};
ghost use Rattle.fl_dealing.specs.Dealt.{owners_of};
ghost use Rattle.fl_dealing.specs.Gathered.{IsGathered};

/// Where each worker answers its tasks, and the registrar its parcels, in the order of the places,
/// there is one list of all answers. So [`crate::gathering::gather`] finds it.
pub fn law_gathered()
    ensures { (workers procs : ℕ) (items : List Item) (said : ℕ → List Entry) →
        AreAnswered workers procs items said →
        (entries : List Entry) × IsGathered (owners_of workers procs items) said entries }
{}
