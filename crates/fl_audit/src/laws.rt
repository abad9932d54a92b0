//! Laws of what is noted of jobs.
ghost use Rattle.std.specs.Prelude.{◌≡◌, ℕ, Ok};
ghost use Rattle.fl_message.specs.declared.message.Data.{Data};
ghost use Rattle.fl_jobs.specs.declared.job.Job.{Job};
ghost use Rattle.fl_system.specs.Jobs.{Jobs};
ghost use Rattle.fl_system.specs.Processes.{process_of};
ghost use Rattle.fl_system.specs.State.{NodeState};
ghost use Rattle.fl_system.specs.WorldJobs.{party_at};
ghost use Rattle.fl_system.specs.declared.answer.Answer.TheVariants as answers;
ghost use Rattle.fl_audit.specs.Drafts.{asker_of};
ghost use Rattle.fl_audit.specs.Senders.{sender_of};

/// Who sends a message by a job is known before the job is done: the process that asks for it.
pub fn law_sender()
    ensures { (n after : NodeState) (desk upto : ℕ) (job : Job) (d : Data) →
        Jobs n desk upto job (Ok (answers.Out d)) after →
        sender_of (asker_of n job) job ≡ party_at d.sender (process_of n d.sender) }
{}
