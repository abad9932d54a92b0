//! What a worker calls round each job.
ghost use Rattle.std.specs.Prelude.{◌≡◌};

use fl_replica::desk::Desk;

/// Called by all workers of a crew, each in its own thread. The calls may wait for one another, so
/// nothing is promised of them. None is made while the worker looks at the published list.
pub trait Gate: Sync {
    /// Before the job at this place.
    fn before(&self, job: usize);

    /// After it, and after the ruling on what it ordered.
    fn after(&self, job: usize);

    /// Whether none of these calls waits for another worker's.
    fn never_holds(&self) -> bool;
}

/// It does nothing.
#[derive(Clone, Copy, Debug)]
pub struct OpenGate;

impl Gate for OpenGate {
    fn before(&self, _job: usize) {}

    fn after(&self, _job: usize) {}

    fn never_holds(&self) -> bool {
        true
    }
}

/// A gate as a worker has it, who hands over its desk at each call. A look holds the desk, so none
/// is under way then.
#[derive(Drop)]
pub(crate) struct Gated<'a, G> {
    gate: &'a G,
}

impl<'a, G: Gate> Gated<'a, G> {
    /// The calls of this gate.
    pub(crate) fn new(gate: &'a G) -> Self {
        Gated { gate }
    }

    /// Calls it before the job at this place, and gives the desk back.
    pub(crate) fn before(&self, desk: Desk, job: usize) -> Desk
        ensures { result ≡ desk }
    {
        self.gate.before(job);
        desk
    }

    /// Calls it after the job, and gives the desk back.
    pub(crate) fn after(&self, desk: Desk, job: usize) -> Desk
        ensures { result ≡ desk }
    {
        self.gate.after(job);
        desk
    }
}
