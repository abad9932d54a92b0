//! Laws of the lines.
ghost use Rattle.std.specs.Prelude.{◌≡◌, ◌↔◌, List, ℕ};
ghost use Rattle.fl_aliases.specs.Table.{Table};
ghost use Rattle.fl_aliases.specs.Words.{Word, words_of};
ghost use Rattle.fl_script.specs.Grammar.{Spells};
ghost use Rattle.fl_script.specs.Reading.{IsQuiet, IsReading, SaysNothing};
ghost use Rattle.fl_script.specs.declared.line.Line.{Line};
ghost use Rattle.fl_script.specs.declared.reading.Reading.{Reading};

/// Words spell one line at most.
pub fn law_one_line()
    ensures { (a b : Line) (words : List Word) → Spells a words → Spells b words → a ≡ b }
{}

/// Bytes have one reading at most, where given aliases are set.
pub fn law_one_reading()
    ensures { (table : Table) (bytes : List ℕ) (r s : Reading) →
        IsReading table bytes r → IsReading table bytes s → r ≡ s }
{}

/// A line is quiet exactly where it has no words, or its first word begins with `#`.
pub fn law_quiet()
    ensures { (bytes : List ℕ) → IsQuiet bytes ↔ SaysNothing (words_of bytes) }
{}
