//! Lines that wait for the end of their batch.
ghost use Rattle.std.specs.Prelude.{◌≡◌, ◌≢◌, ◌<◌, ◌≤◌, ◌↔◌, [], IsTrue, OnErr, OnOk, length};
ghost use Rattle.std.specs.Bool.{MatchBool};
ghost use Rattle.fl_crew_turns.specs.Held.{IsBatch, count_set, held_jobs, none_held, with_job};
ghost use Rattle.fl_crew_turns.specs.Naming.{NamesHeld};

use crate::naming::is_named_in;
use fl_aliases::alias::Alias;
use fl_jobs::job::Job;
use fl_labels::name::NodeNumber;
use fl_script::reading::MOST_LINE_BYTES;
use std::alloc::{AllocError, Global};
use std::marker::Model;

/// The most jobs of a batch.
pub const MOST_JOBS: usize = 256;

/// The jobs of a batch of one node, in the order of their lines, and of each the alias that it is
/// to set, if it is to set one.
#[derive(Drop)]
pub struct Batch {
    pub node: NodeNumber,
    pub jobs: Vec<Job>,
    pub aliases: Vec<Option<Alias>>,
}

/// The lines of a batch that has not ended, at most [`MOST_JOBS`].
#[derive(Drop)]
pub struct Held {
    batch: Batch,
}

impl Model for Held {
    ghost use Rattle.fl_crew_turns.specs.Held.{HasRoom, HeldJobs, IsBatch, coded_held, held_jobs};

    ghost Value = { HeldJobs };

    ghost coded = { coded_held };

    ghost view = { λ a. held_jobs a.batch };

    ghost invariant = { λ a. IsBatch (held_jobs a.batch) × HasRoom a.batch };
}

impl Held {
    /// No line. Takes no memory.
    pub fn new(alloc: Global) -> Self
        ensures { result ≡ none_held }
    {
        let batch = Batch {
            node: 1,
            jobs: Vec::new(alloc),
            aliases: Vec::new(alloc),
        };
        Held { batch }
    }

    /// Whether no line waits.
    pub fn is_empty(&self) -> bool
        ensures { IsTrue result ↔ (self.now.jobs ≡ []) }
    {
        self.batch.jobs.is_empty()
    }

    /// Whether as many lines wait as may.
    pub fn is_full(&self) -> bool
        ensures { MatchBool result (length self.now.jobs ≡ 256) (length self.now.jobs < 256) }
    {
        self.batch.jobs.len() == MOST_JOBS
    }

    /// Whether lines of this node wait.
    pub fn is_of(&self, node: NodeNumber) -> bool
        ensures { IsTrue result ↔ ((self.now.jobs ≢ []) × (self.now.node ≡ node)) }
    {
        !self.is_empty() && self.batch.node == node
    }

    /// How many aliases are to be set.
    pub fn count_aliases(&self) -> usize
        ensures count { result ≡ count_set self.now.aliases }
        ensures most { result ≤ 256 }
    {
        self.batch
            .aliases
            .iter()
            .filter(|alias| alias.is_some())
            .count()
    }

    /// Whether the line names an alias that is to be set, so that it can be read only then. Not
    /// where the line is none of the script anyway.
    pub fn is_named_in(&self, line: &[u8]) -> bool
        ensures { IsTrue result ↔ NamesHeld self.now line.now }
    {
        if self.is_empty() || line.len() > MOST_LINE_BYTES {
            return false;
        }
        is_named_in(line, &self.batch.aliases)
    }

    /// Begins a batch of this node with a line, and makes room for all that it may have. An error
    /// is want of memory, and leaves all.
    pub fn begin(
        &mut self,
        node: NodeNumber,
        job: Job,
        alias: Option<Alias>,
    ) -> Result<(), AllocError>
        requires { self.old.jobs ≡ [] }
        ensures ok { OnOk result (self.new ≡ with_job self.old node job alias) }
        ensures err { OnErr result (self.new ≡ self.old) }
    {
        self.batch.jobs.reserve(MOST_JOBS)?;
        self.batch.aliases.reserve(MOST_JOBS)?;
        self.batch.node = node;
        self.batch.jobs.push_reserved(job);
        self.batch.aliases.push_reserved(alias);
        Ok(())
    }

    /// Adds a line of the same node. Takes no memory.
    pub fn go_on(&mut self, job: Job, alias: Option<Alias>)
        requires some { self.old.jobs ≢ [] }
        requires few { length self.old.jobs < 256 }
        ensures { self.new ≡ with_job self.old self.old.node job alias }
    {
        self.batch.jobs.push_reserved(job);
        self.batch.aliases.push_reserved(alias);
    }

    /// The lines.
    pub fn into_batch(self) -> Batch
        ensures batch { held_jobs result ≡ self }
        ensures few { IsBatch self }
    {
        let Held { batch } = self;
        batch
    }
}
