//! The items of a batch are dealt to those who are to see to them.
ghost use Rattle.std.specs.Prelude.{◌≡◌, ◌<◌, ℕ, suc, [], ◌∷◌, length, IfOk, OnOk, slice_index_or};
ghost use Rattle.fl_system.specs.Jobs.{bench_of, bench_for, procs_after};
ghost use Rattle.fl_dealing.specs.Dealt.{owners_of, procs_behind, tasks_of, parcels_of, AreHome, Rise};
ghost use Rattle.fl_dealing.specs.parts.Dealing.{IsOpen, IsEmpty, AddsJob, AddsPacket, Deals};

use crate::item::Item;
use fl_jobs::job::Job;
use fl_labels::pid::Pid;
use fl_wire::packet::Packet;
use fl_worker::task::Task;
use std::alloc::{AllocError, Global};

/// A packet, and its place among the items of its batch.
#[derive(Drop)]
pub struct Parcel {
    pub place: usize,
    pub packet: Packet,
}

/// What one worker is to do, in the order of the places.
#[derive(Drop)]
pub struct Queue {
    pub tasks: Vec<Task>,
}

/// The items of a batch, dealt.
#[derive(Drop)]
pub struct Dealt {
    /// One for each worker.
    pub queues: Vec<Queue>,
    /// What the registrar is to take, in the order of the places.
    pub parcels: Vec<Parcel>,
    /// Whose item stands at each place: the number of a worker, or 0 for the registrar.
    pub owners: Vec<u8>,
    /// The place of the bench that makes the next process.
    pub procs: u8,
}

// So many queues without a task, with room for so many in each.
fn empty_queues(alloc: Global, workers: u8, room: usize) -> Result<Vec<Queue>, AllocError>
    ensures count { IfOk result (λ queues. length queues.items ≡ workers) }
    ensures empty { IfOk result (λ queues. (i : ℕ) (q : Queue) → i < workers →
        (slice_index_or queues.items i q).tasks.items ≡ []) }
{
    let mut queues = Vec::new(alloc);
    for _ in 0..workers {
        queues.push(Queue {
            tasks: Vec::with_capacity(alloc, room)?,
        })?;
    }
    Ok(queues)
}

impl Dealt {
    // Nothing is dealt yet, of so many items, most of them jobs.
    fn empty(alloc: Global, workers: u8, procs: u8, items: usize) -> Result<Self, AllocError>
        ensures { IfOk result (λ dealt. IsEmpty workers procs dealt) }
    {
        let share = items / usize::from(workers.max(1));
        Ok(Dealt {
            // An even share, and a quarter more, since few batches are dealt quite evenly.
            queues: empty_queues(alloc, workers, share.saturating_add(share / 4))?,
            parcels: Vec::new(alloc),
            owners: Vec::with_capacity(alloc, items)?,
            procs,
        })
    }

    // The place of the queue of the worker with the bench of a process.
    fn home(&self, pid: Pid) -> usize
        requires { IsOpen self.now }
        ensures place { suc result ≡ bench_of (length self.now.queues.items) pid.serial }
        ensures within { result < length self.now.queues.items }
    {
        pid.serial.saturating_sub(1) as usize % self.queues.len()
    }

    // The place of the queue of the worker with the bench that does a job.
    fn queue_for(&self, job: &Job) -> usize
        requires { IsOpen self.now }
        ensures place { suc result
            ≡ bench_for (length self.now.queues.items) self.now.procs job.now }
        ensures within { result < length self.now.queues.items }
    {
        match job {
            Job::Proc => self.procs as usize,
            Job::By(pid, _) => self.home(*pid),
            Job::Member(_, _) => 0,
            Job::Arrive(message) => self.home(message.receiver),
        }
    }

    // How many births are counted behind a job.
    fn procs_behind(&self, job: &Job) -> u8
        requires { IsOpen self.now }
        ensures count { result ≡ procs_after (length self.now.queues.items) self.now.procs job.now }
        ensures within { result < length self.now.queues.items }
    {
        match job {
            Job::Proc => ((self.procs as usize + 1) % self.queues.len()) as u8,
            Job::By(_, _) | Job::Member(_, _) | Job::Arrive(_) => self.procs,
        }
    }

    // Deals a job.
    fn add_job(&mut self, job: Job) -> Result<(), AllocError>
        requires { IsOpen self.old }
        ensures { OnOk result (AddsJob self.old job self.new) }
    {
        let place = self.owners.len();
        let index = self.queue_for(&job);
        self.procs = self.procs_behind(&job);
        self.owners.push(index as u8 + 1)?;
        self.queues[index].tasks.push(Task { place, job })?;
        Ok(())
    }

    // Deals a packet.
    fn add_packet(&mut self, packet: Packet) -> Result<(), AllocError>
        requires { IsOpen self.old }
        ensures { OnOk result (AddsPacket self.old packet self.new) }
    {
        let place = self.owners.len();
        self.owners.push(0)?;
        self.parcels.push(Parcel { place, packet })?;
        Ok(())
    }

    // Deals an item.
    fn add(&mut self, item: Item) -> Result<(), AllocError>
        requires { IsOpen self.old }
        ensures { OnOk result (Deals self.old (item ∷ []) self.new) }
    {
        match item {
            Item::Job(job) => self.add_job(job),
            Item::Packet(packet) => self.add_packet(packet),
        }
    }

    // Deals all of these.
    fn add_all(&mut self, items: Vec<Item>) -> Result<(), AllocError>
        requires { IsOpen self.old }
        ensures { OnOk result (Deals self.old items.items self.new) }
    {
        for item in items {
            self.add(item)?;
        }
        Ok(())
    }
}

/// Deals the items of a batch, in the order of their places, to so many workers, of which the one
/// with the bench at the place `procs` makes the next process. A job goes to the worker with its
/// bench, a packet to the registrar. Fails only where there is not enough memory, and nothing is
/// left of the items then. Takes time and memory in proportion to their number.
pub fn deal(alloc: Global, workers: u8, procs: u8, items: Vec<Item>) -> Result<Dealt, AllocError>
    requires { procs < workers }
    ensures count { IfOk result (λ dealt. length dealt.queues.items ≡ workers) }
    ensures owners { IfOk result (λ dealt.
        dealt.owners.items ≡ owners_of workers procs items.items) }
    ensures tasks { IfOk result (λ dealt. (i : ℕ) (q : Queue) → i < workers →
        (slice_index_or dealt.queues.items i q).tasks.items
        ≡ tasks_of (suc i) 0 (owners_of workers procs items.items) items.items) }
    ensures parcels { IfOk result (λ dealt. dealt.parcels.items ≡ parcels_of 0 items.items) }
    ensures procs { IfOk result (λ dealt.
        dealt.procs ≡ procs_behind workers procs items.items) }
    ensures next { IfOk result (λ dealt. dealt.procs < workers) }
    ensures homes { IfOk result (λ dealt. (i : ℕ) (q : Queue) → i < workers →
        AreHome workers (suc i) (slice_index_or dealt.queues.items i q).tasks.items) }
    ensures rise { IfOk result (λ dealt. (i : ℕ) (q : Queue) → i < workers →
        Rise 0 (length items.items) (slice_index_or dealt.queues.items i q).tasks.items) }
{
    let mut dealt = Dealt::empty(alloc, workers, procs, items.len())?;
    dealt.add_all(items)?;
    Ok(dealt)
}
