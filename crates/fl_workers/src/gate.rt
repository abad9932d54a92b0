//! What the workers call round each job.
pub use fl_worker::gate::{Gate, OpenGate};
