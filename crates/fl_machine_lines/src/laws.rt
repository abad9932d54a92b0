//! Laws of the lines to a machine.
ghost use Rattle.std.specs.Prelude.{List, ℕ};
ghost use Rattle.fl_machine_lines.specs.Reading.{AreAlike, IsReading};
ghost use Rattle.fl_machine_lines.specs.declared.line.MachineLine.{MachineLine};

/// Bytes say one thing at most to the machine of a number.
pub fn law_one_reading()
    ensures { (number : ℕ) (bytes : List ℕ) (r s : MachineLine) →
        IsReading number bytes r → IsReading number bytes s → AreAlike r s }
{}
