// What a node's state lets be done.
ghost use Rattle.std.specs.Option.{option_copied};
ghost use Rattle.std.specs.Prelude.{◌≡◌, IfOk, IfErr, OnOk, Some};
ghost use Rattle.fl_system.specs.declared.state.Batch.{Batch};
ghost use Rattle.fl_system.specs.declared.state.State.TheVariants.{Running, Stopped};
ghost use Rattle.fl_system.specs.declared.state.Pending.TheVariants.{Nothing, Unsaved, Due};
ghost use Rattle.fl_system.specs.State.{ops_of};
ghost use Rattle.fl_system.specs.Waiting.{IsRunning, NotRunning, IsTaken, NoneUnsaved, NoneDue};
ghost use Rattle.fl_system.specs.Openings.{doubt_of};

use fl_jobs::answer::Refusal;
use fl_ops::op::Op;
use fl_system::answer::Fault;
use fl_system::state::{Batch, Pending, State};
use std::mem::replace;
use std::slice::from_ref;

/// The operations of a batch, rising.
pub fn ops_of_batch(batch: &Batch) -> &[Op]
    ensures { result.now ≡ ops_of batch.now }
{
    match batch {
        Batch::Ordered(op, _, _) => from_ref(op),
        Batch::Received(ops) => ops.as_slice(),
    }
}

/// That the node runs, or why nothing is done.
pub fn running(state: &State) -> Result<(), Fault>
    ensures ok { OnOk result (IsRunning state.now) }
    ensures err { IfErr result (λ fault. NotRunning state.now fault) }
{
    match state {
        State::Running(_) => Ok(()),
        State::Stopped(_) => Err(Fault::Stopped),
    }
}

/// That an operation may be begun, or why not.
pub fn idle(state: &State) -> Result<(), Fault>
    ensures ok { OnOk result (state.now ≡ Running Nothing) }
    ensures err { IfErr result (λ fault. IsTaken state.now fault) }
{
    match state {
        State::Running(Pending::Nothing) => Ok(()),
        State::Running(Pending::Unsaved(_)) => Err(Fault::Refused(Refusal::Busy)),
        State::Running(Pending::Due(_)) => Err(Fault::Refused(Refusal::Busy)),
        State::Stopped(_) => Err(Fault::Stopped),
    }
}

/// What is to be saved, or why there is nothing.
pub fn unsaved(state: &State) -> Result<&Batch, Fault>
    ensures ok { IfOk result (λ batch. state.now ≡ Running (Unsaved batch.now)) }
    ensures err { IfErr result (λ fault. NoneUnsaved state.now fault) }
{
    match state {
        State::Running(Pending::Unsaved(batch)) => Ok(batch),
        State::Running(Pending::Nothing) => Err(Fault::Refused(Refusal::Busy)),
        State::Running(Pending::Due(_)) => Err(Fault::Refused(Refusal::Busy)),
        State::Stopped(_) => Err(Fault::Stopped),
    }
}

/// What is to be published, or why there is nothing.
pub fn due(state: &State) -> Result<&Batch, Fault>
    ensures ok { IfOk result (λ batch. state.now ≡ Running (Due batch.now)) }
    ensures err { IfErr result (λ fault. NoneDue state.now fault) }
{
    match state {
        State::Running(Pending::Due(batch)) => Ok(batch),
        State::Running(Pending::Nothing) => Err(Fault::Refused(Refusal::Busy)),
        State::Running(Pending::Unsaved(_)) => Err(Fault::Refused(Refusal::Busy)),
        State::Stopped(_) => Err(Fault::Stopped),
    }
}

/// The batch in doubt, where the node is stopped and there is one.
pub fn doubt(state: &State) -> Option<&Batch>
    ensures { option_copied result ≡ doubt_of state.now }
{
    match state {
        State::Running(_) => None,
        State::Stopped(None) => None,
        State::Stopped(Some(batch)) => Some(batch),
    }
}

/// What was to be saved is to be published.
pub fn saved(state: &mut State)
    ensures { (batch : Batch) → state.old ≡ Running (Unsaved batch)
        → state.new ≡ Running (Due batch) }
{
    *state = replace(state, State::Running(Pending::Nothing)).saved();
}

/// What was to be saved is in doubt.
pub fn doubted(state: &mut State)
    ensures { (batch : Batch) → state.old ≡ Running (Unsaved batch)
        → state.new ≡ Stopped (Some batch) }
{
    *state = replace(state, State::Running(Pending::Nothing)).doubted();
}

/// Nothing is on its way any more. What was in doubt is so still.
pub fn halt(state: &mut State)
    ensures { state.new ≡ Stopped (doubt_of state.old) }
{
    *state = replace(state, State::Running(Pending::Nothing)).halted();
}
