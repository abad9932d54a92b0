//! Process identifiers.
ghost use Rattle.std.specs.Prelude.{◌<◌, ◌^◌};

use crate::name::NodeNumber;
use std::fmt;

/// What a process is called: its node, the node's boot in which it was born, and its number in that
/// boot, all from 1 on. Ordered by these three in turn. Written `p1.1.1`.
#[derive(Clone, Copy, Debug, PartialEq, Eq, PartialOrd, Ord, Hash)]
pub struct Pid {
    /// From 1 to 4294967295.
    pub node: NodeNumber,
    /// From 1 to 4294967295.
    pub boot: u32,
    /// From 1 to 4294967295.
    pub serial: u32,
    pub ghost node_in_range: { (0 < node) × (node < 2 ^ 32) },
    pub ghost boot_in_range: { (0 < boot) × (boot < 2 ^ 32) },
    pub ghost serial_in_range: { (0 < serial) × (serial < 2 ^ 32) },
}

impl fmt::Display for Pid {
    ghost use Rattle.std.specs.Prelude.{Some};
    ghost use Rattle.fl_labels.specs.Text.{pid_text};

    ghost output = { λ p. Some (pid_text p) };

    fn fmt<W: fmt::Write>(&self, f: &mut fmt::Formatter<W>) -> fmt::Result {
        write!(f, "p{}.{}.{}", self.node, self.boot, self.serial)
    }
}
