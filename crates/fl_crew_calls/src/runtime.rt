//! What the crews of a script run by.
use std::sync::Wait;
use std::thread::Threads;

/// What starts the threads of crews, and waits for them. Whatever does both, and may be copied into
/// threads, is one.
pub trait CrewRuntime: Threads + Wait + Sync + Send + Copy + Drop + 'static {}

impl<R: Threads + Wait + Sync + Send + Copy + Drop + 'static> CrewRuntime for R {}
