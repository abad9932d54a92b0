//! Laws of what aliases stand for, and of what lines expand to.
ghost use Rattle.std.specs.Prelude.{◌≡◌, ◌≢◌, ◌<◌, ◌↔◌, ℕ, List, [], ◌∷◌, ◌++◌, None, Some, IsSome, length, slice_get};
ghost use Rattle.std.specs.List.{AllZip};
ghost use Rattle.std.specs.Map.{keys_of};
ghost use Rattle.fl_aliases.specs.Expansion.{Expands, NoDollar};
ghost use Rattle.fl_aliases.specs.Table.{Entry, Table, target_of, retargeted};
ghost use Rattle.fl_aliases.specs.TargetText.{target_text};
ghost use Rattle.fl_aliases.specs.Words.{words_of, InWord};
ghost use Rattle.fl_aliases.specs.declared.target.Target.{Target};

/// A line expands to one text at most.
pub fn law_one_expansion()
    ensures { (table : Table) (line a b : List ℕ) → Expands table line a → Expands table line b
        → a ≡ b }
{}

/// A line with no `$` expands to itself, and to nothing else.
pub fn law_plain()
    ensures itself { (table : Table) (line : List ℕ) → NoDollar line → Expands table line line }
    ensures alone { (table : Table) (line out : List ℕ) → NoDollar line → Expands table line out
        → out ≡ line }
{}

/// What an alias stands for is written as a part of a word, which is not empty, and holds no `$`.
pub fn law_target_in_word()
    ensures some { (target : Target) → 0 < length (target_text target) }
    ensures in_word { (target : Target) → InWord (target_text target) }
{}

/// The words of what a line expands to are what its words expand to.
pub fn law_words()
    ensures { (table : Table) (line out : List ℕ) →
        Expands table line out → AllZip (Expands table) (words_of line) (words_of out) }
{}

/// What a line expands to begins with `#` exactly where the line does.
pub fn law_comment()
    ensures { (table : Table) (line out : List ℕ) →
        Expands table line out → (slice_get line 0 ≡ Some 35) ↔ (slice_get out 0 ≡ Some 35) }
{}

/// Where an alias that was not set is placed last, it stands for what it was placed with, and the
/// others for what they did. Set then, it is as if it had been placed so; and where the last one is
/// taken back, the table is as it was before.
pub fn law_place()
    ensures found { (table : Table) (letters : List ℕ) (target : Target) →
        target_of table letters ≡ None
        → target_of (table ++ (letters, target) ∷ []) letters ≡ Some target }
    ensures others { (table : Table) (letters other : List ℕ) (target : Target) →
        other ≢ letters
        → target_of (table ++ (letters, target) ∷ []) other ≡ target_of table other }
    ensures set { (table : Table) (letters : List ℕ) (first then : Target) →
        target_of table letters ≡ None →
        retargeted (table ++ (letters, first) ∷ []) letters then ≡ table ++ (letters, then) ∷ [] }
    ensures taken_back { (before after : Table) (placed last : Entry) →
        before ++ placed ∷ [] ≡ after ++ last ∷ [] → after ≡ before }
{}

/// Where an alias that is set is set again, it stands for the new target, the others stand for what
/// they did, and all keep their places.
pub fn law_set()
    ensures found { (table : Table) (letters : List ℕ) (target : Target) →
        IsSome (target_of table letters)
        → target_of (retargeted table letters target) letters ≡ Some target }
    ensures others { (table : Table) (letters other : List ℕ) (target : Target) →
        IsSome (target_of table letters) → other ≢ letters →
        target_of (retargeted table letters target) other ≡ target_of table other }
    ensures places { (table : Table) (letters : List ℕ) (target : Target) →
        keys_of (retargeted table letters target) ≡ keys_of table }
{}
