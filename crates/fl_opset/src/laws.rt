//! Laws of unions of registries, of their text, and of what is lacking.
ghost use Rattle.std.specs.Prelude.{◌≡◌, ℕ, List, count_by};
ghost use Rattle.std.specs.List.{Contains};
ghost use Rattle.fl_labels.specs.SetBy as set;
ghost use Rattle.fl_labels.specs.SetBy.{In, SameMembers};
ghost use Rattle.fl_labels.specs.Found.{Within};
ghost use Rattle.fl_labels.specs.declared.name.Name.{Name};
ghost use Rattle.fl_ops.specs.OpOrder.{op_cmp};
ghost use Rattle.fl_ops.specs.Registry.{Listed};
ghost use Rattle.fl_opset.specs.declared.intervals.Intervals.{Intervals};
ghost use Rattle.fl_opset.specs.RegistryText.{registry_text};
ghost use Rattle.fl_opset.specs.Windows.{AreWindows, in_window, lacking};
ghost use Rattle.fl_opset.specs.Catching.{HaveNoClash, KnowsOwn, MayTake};

/// A union is the least set that holds both, also of sets that clash. So neither the order, nor the
/// grouping, nor the number of merges tells.
pub fn law_join()
    ensures associative { (a b c : set.SetBy op_cmp)
        → set.union (set.union a b) c ≡ set.union a (set.union b c) }
    ensures commutative { (a b : set.SetBy op_cmp) → set.union a b ≡ set.union b a }
    ensures idempotent { (a : set.SetBy op_cmp) → set.union a a ≡ a }
    ensures upper { (a b : set.SetBy op_cmp)
        → Within (In a) (In (set.union a b)) × Within (In b) (In (set.union a b)) }
    ensures least { (a b c : set.SetBy op_cmp)
        → Within (In a) (In c) → Within (In b) (In c) → Within (In (set.union a b)) (In c) }
{}

/// Sets with the same members are the same set, and have the same text.
pub fn law_equal_text()
    ensures equal { (s t : set.SetBy op_cmp) → SameMembers s t → s ≡ t }
    ensures text { (s t : set.SetBy op_cmp) → SameMembers s t → registry_text s ≡ registry_text t }
{}

/// The windows of a set cover each name exactly once.
pub fn law_windows()
    ensures { (a : set.SetBy op_cmp) (windows : List Intervals) → AreWindows (In a) windows
        → (name : Name) → count_by (λ window. in_window window name) windows ≡ 1 }
{}

/// A set has one list of windows: its greatest runs of names, cut at each 512th. So what
/// [`OpSet::have`] answers is a function of the set.
///
/// [`OpSet::have`]: crate::set::OpSet::have
pub fn law_one_summary()
    ensures { (a : set.SetBy op_cmp) (windows others : List Intervals)
        → AreWindows (In a) windows → AreWindows (In a) others → windows ≡ others }
{}

/// Let the sets a and b not clash. Once b has answered all windows of a, and all these answers were
/// taken, all of b is there. And where b has each name once and no operation of a's own node that a
/// lacks, each of them may be taken, whatever was taken of b before.
pub fn law_caught_up()
    ensures caught_up { (a b taken : set.SetBy op_cmp) (windows : List Intervals)
        → AreWindows (In a) windows → HaveNoClash (In a) (In b) → Within (In a) (In taken)
        → ((w : Intervals) → Contains windows w → Within (Listed (lacking b w)) (In taken))
        → Within (In b) (In taken) }
    ensures may_take { (node : ℕ) (a b now : set.SetBy op_cmp)
        → HaveNoClash (In a) (In b) → HaveNoClash (In b) (In b) → KnowsOwn node (In a) (In b)
        → Within (In a) (In now) → Within (In now) (In (set.union a b))
        → (w : Intervals) → Within (Listed (lacking b w)) (MayTake node (In now)) }
{}
