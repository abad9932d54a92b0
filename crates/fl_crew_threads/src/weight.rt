//! How much the tasks of workers are to take.

use fl_bench::process::Holding;
use fl_jobs::job::{Act, GivenLabels, Job, Mail, TooLong};
use fl_labels::label::Label;
use fl_labels::pid::Pid;
use fl_monitor::bench::Bench;
use fl_worker::task::Task;
use fl_worker::worker::Worker;

// What a job weighs that looks for no capability: some fifth of a microsecond.
const JOB: usize = 4;

// What tasks weigh at most that are soon done: some hundred microseconds, in which two threads are
// made and awaited.
const MOST: usize = 2048;

fn len_of(label: &Result<Label, TooLong>) -> usize {
    match label {
        Ok(label) => label.len(),
        Err(TooLong) => 0,
    }
}

fn len_of_both(given: &GivenLabels) -> usize {
    len_of(&given.secrecy).saturating_add(len_of(&given.integrity))
}

// For how many capabilities the act looks at most, as far as it tells itself.
fn looks_of(act: &Act) -> usize {
    match act {
        Act::Relabel(_, label) => len_of(label),
        Act::Spawn(owned) => owned.len(),
        Act::Mail(Mail::Open(_, given) | Mail::Tune(_, given)) => len_of_both(given),
        Act::Ask(_) | Act::Emit(_) | Act::Mail(Mail::Send { .. }) => 1,
        Act::Mail(Mail::Close(_) | Mail::Take) | Act::Order(_) => 0,
        Act::Exit | Act::Drop(_) | Act::Enter(_, _) => 0,
    }
}

// How many groups the process may use: a look for a capability asks each of them, unless the
// process owns it.
fn uses_of(bench: &Bench, pid: Pid) -> usize {
    let Some(process) = bench.process(pid) else {
        return 0;
    };
    match &process.owned {
        Holding::Idle(owned) => owned.caps().uses().len(),
        Holding::Ordering(_) => 0,
    }
}

fn weight_of_task(bench: &Bench, task: &Task) -> usize {
    match &task.job {
        Job::By(pid, act) => {
            let look = uses_of(bench, *pid).saturating_add(1);
            looks_of(act).saturating_mul(look).saturating_add(JOB)
        }
        Job::Proc | Job::Member(_, _) | Job::Arrive(_) => JOB,
    }
}

fn weight_of(worker: &Worker) -> usize {
    let mut weight: usize = 0;
    for task in &worker.tasks {
        weight = weight.saturating_add(weight_of_task(&worker.bench, task));
    }
    weight
}

/// Whether the tasks of the workers are soon done, in less time than threads for them would take.
/// It is told by how many there are, by the tags and capabilities that they hold, and by how many
/// groups their processes may use. Costs a search for each task's process.
pub(crate) fn is_light(workers: &[Worker]) -> bool {
    let mut weight: usize = 0;
    for worker in workers {
        weight = weight.saturating_add(weight_of(worker));
    }
    weight <= MOST
}
