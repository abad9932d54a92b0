//! What stops a run.
pub use fl_stream::fault::RunFault;
