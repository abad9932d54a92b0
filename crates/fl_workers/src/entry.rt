//! What became of each item of a batch.
pub use fl_dealing::entry::{Entry, Reply};
