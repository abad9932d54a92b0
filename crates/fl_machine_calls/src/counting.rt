//! How much is admitted by a job. It is counted, and nothing is written down of it.
ghost use Rattle.std.specs.Prelude.{◌≡◌, ◌≤◌};
ghost use Rattle.fl_machine_calls.specs.Counting.{IsNotedSo, counted};
ghost use Rattle.fl_notes.specs.Working.{is_tuning};

use fl_audit::draft::names_any;
use fl_jobs::answer::Reply;
use fl_jobs::job::{Act, Job, Mail};
use fl_system::answer::Answer;

// Whether the job tunes an endpoint.
fn tunes(job: &Job) -> bool
    ensures { result ≡ is_tuning job.now }
{
    matches!(job, Job::By(_, Act::Mail(Mail::Tune(_, _))))
}

/// Whether one entry is noted of the job, wherever it is admitted and not answered `NotYet`; else
/// none is. Who asks for it stands there then, and the endpoint that it tunes is open, so neither
/// is looked for. Takes no memory.
pub fn is_noted(job: &Job) -> bool
    ensures { IsNotedSo job.now result }
{
    match job {
        Job::Member(_, _) => true,
        _ => tunes(job) || names_any(job),
    }
}

/// How much is noted of an admitted job with this answer, where it is one that is noted, or not.
pub fn count(noted: bool, answer: &Answer) -> u64
    ensures is { result ≡ counted noted answer.now }
    ensures few { result ≤ 1 }
{
    match answer {
        Answer::Reply(Reply::NotYet) => 0,
        _ => u64::from(noted),
    }
}
