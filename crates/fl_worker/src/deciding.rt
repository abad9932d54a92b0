//! A job under one look.
ghost use Rattle.std.specs.Prelude.{◌≡◌, MatchOption};
ghost use Rattle.fl_ops.specs.Registry.{Listed};
ghost use Rattle.fl_bench.specs.Jobs.{Does};
ghost use Rattle.fl_replica.specs.Boards.{StartsWith};

use fl_jobs::answer::{Outcome, Refusal};
use fl_jobs::job::Job;
use fl_monitor::bench::Bench;
use fl_replica::desk::Desk;
use std::alloc::Global;

// Does the job at the bench under one look of the desk, which has ended then. None where the press
// is gone: nothing is done.
pub(crate) fn decide(
    alloc: Global,
    desk: Desk,
    bench: &mut Bench,
    mut job: Job,
) -> (Desk, Option<Result<Outcome, Refusal>>)
    ensures board { result.0.board ≡ desk.board }
    ensures later { StartsWith result.0.list desk.list }
    ensures does { MatchOption result.1 (bench.new ≡ bench.old)
        (λ r. Does (Listed result.0.list) bench.old job r bench.new) }
{
    match desk.look() {
        Ok(mut look) => {
            let result = bench.job(alloc, &mut look, &mut job);
            (look.done(), Some(result))
        }
        Err(desk) => (desk, None),
    }
}
