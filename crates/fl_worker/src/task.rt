//! What a worker is to do.

use fl_jobs::job::Job;

/// A job, and its place among the jobs of its batch.
#[derive(Debug, Drop)]
pub struct Task {
    pub place: usize,
    pub job: Job,
}
