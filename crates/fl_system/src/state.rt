//! Whether a node runs, and what is on its way.
ghost use Rattle.std.specs.Prelude.{◌≡◌};
ghost use Rattle.fl_system.specs.declared.state.Batch.{Batch};
ghost use Rattle.fl_system.specs.declared.state.State.TheVariants.{Running, Stopped};
ghost use Rattle.fl_system.specs.declared.state.Pending.TheVariants.{Unsaved, Due};
ghost use Rattle.fl_system.specs.Openings.{doubt_of};
ghost use Rattle.std.specs.declared.option.Option.TheVariants.{Some};

use fl_labels::pid::Pid;
use fl_ops::op::Op;
use fl_opset::batch::OpBatch;

/// Operations on their way into the saved set and the published list.
pub enum Batch {
    /// What was ordered; the process that made the order, and the desk where it did, if there are
    /// any.
    Ordered(Op, Option<Pid>, Option<u8>),
    /// Operations of other nodes.
    Received(OpBatch),
}

impl Drop for Batch {
    fn drop(self) {
        match self {
            Batch::Ordered(_, _, _) => {}
            Batch::Received(_) => {}
        }
    }
}

/// What is on its way.
#[derive(Drop)]
pub enum Pending {
    Nothing,
    /// To be saved, or cancelled.
    Unsaved(Batch),
    /// Saved, and to be published.
    Due(Batch),
}

/// A node runs, or has stopped.
pub enum State {
    Running(Pending),
    /// To be restarted. A batch in doubt is saved as a whole, or not at all.
    Stopped(Option<Batch>),
}

impl Drop for State {
    fn drop(self) {
        match self {
            State::Running(_) => {}
            State::Stopped(_) => {}
        }
    }
}

impl State {
    /// The state once what was to be saved is saved: it is to be published. Any other state is
    /// given back.
    pub fn saved(self) -> Self
        ensures { (batch : Batch) → self ≡ Running (Unsaved batch) → result ≡ Running (Due batch) }
    {
        match self {
            State::Running(Pending::Unsaved(batch)) => State::Running(Pending::Due(batch)),
            other => other,
        }
    }

    /// The state once what was to be saved may be so or not: it is in doubt. Any other state is
    /// given back.
    pub fn doubted(self) -> Self
        ensures { (batch : Batch) → self ≡ Running (Unsaved batch) → result ≡ Stopped (Some batch) }
    {
        match self {
            State::Running(Pending::Unsaved(batch)) => State::Stopped(Some(batch)),
            other => other,
        }
    }

    /// The state once nothing is on its way any more. What was in doubt is so still.
    pub fn halted(self) -> Self
        ensures { result ≡ Stopped (doubt_of self) }
    {
        match self {
            State::Running(_) => State::Stopped(None),
            State::Stopped(doubt) => State::Stopped(doubt),
        }
    }
}
