//! Endpoints of processes.
ghost use Rattle.std.specs.Prelude.{◌<◌, ◌≤◌};

use std::fmt;

/// The greatest number of an endpoint.
pub const LAST_ENDPOINT: u32 = 64;

/// What an endpoint of a process is called: its number among them. Ordered by number. Written `e1`.
#[derive(Clone, Copy, Debug, PartialEq, Eq, PartialOrd, Ord, Hash)]
pub struct Endpoint {
    /// From 1 to 64. As wide as other numbers, so that what holds one is moved in whole words.
    pub number: u32,
    pub ghost number_in_range: { (0 < number) × (number ≤ 64) },
}

impl fmt::Display for Endpoint {
    ghost use Rattle.std.specs.Prelude.{Some};
    ghost use Rattle.fl_labels.specs.Text.{endpoint_text};

    ghost output = { λ e. Some (endpoint_text e) };

    fn fmt<W: fmt::Write>(&self, f: &mut fmt::Formatter<W>) -> fmt::Result {
        write!(f, "e{}", self.number)
    }
}
