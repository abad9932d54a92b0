//! How a script is run.

/// How a script is run.
#[derive(Clone, Copy, Debug, Default, PartialEq, Eq)]
pub struct Options {
    /// How many workers each node has. With none its calls are made one after another.
    pub workers: u8,
}
