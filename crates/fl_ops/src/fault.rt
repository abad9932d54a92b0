//! Why bytes are not read.

/// The place of the first byte of the first field that is cut off or out of its range.
#[derive(Clone, Copy, Debug, PartialEq, Eq)]
pub struct BadField {
    /// Counted from the first byte.
    pub place: usize,
}
