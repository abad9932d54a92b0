//! The published list of a node, and its desks.
ghost use Rattle.std.specs.Prelude.{◌≡◌, ◌⊎◌, ◌<◌, ◌≤◌, ◌++◌, All, length, min, IfOk, OnOk, OnErr, MatchOption};
ghost use Rattle.fl_labels.specs.declared.cap.Cap.{Cap};
ghost use Rattle.fl_ops.specs.Registry.{Listed};
ghost use Rattle.fl_bench.specs.Foresight.{Could};
ghost use Rattle.fl_bench.specs.Jobs.{Does};
ghost use Rattle.fl_monitor.specs.Wanting.{AreAll, Lacks};
ghost use Rattle.fl_system.specs.declared.state.Batch.TheVariants.{Ordered};
ghost use Rattle.fl_system.specs.State.{first_ops};
ghost use Rattle.fl_system.specs.Numbered.{items_to};
ghost use Rattle.fl_desks.specs.Listing.{listing_of, IsBehind, IsDesk, HasSeen, seen_then, with_seen, extended};
ghost use Rattle.fl_desks.specs.parts.Fronts.{IsFront, views_of};

use crate::desk::Desk;
use fl_jobs::answer::{Outcome, Refusal, Reply};
use fl_jobs::job::Job;
use fl_labels::cap_set::CapSet;
use fl_monitor::bench::Bench;
use fl_ops::op::Op;
use fl_ops::view::View;
use fl_opset::set::OpSet;
use fl_system::state::Batch;
use std::alloc::{AllocError, Global};
use std::cmp::min;
use std::marker::Model;

// So many desks, each of which sees the whole list.
fn desks_of(alloc: Global, list: &[Op], count: u8) -> Result<Vec<Desk>, AllocError>
    ensures views { IfOk result (λ desks.
        views_of desks.items ≡ items_to count (λ desk. length list.now)) }
    ensures fronts { IfOk result (λ desks. All (IsFront list.now) desks.items) }
    ensures count { IfOk result (λ desks. length desks.items ≡ count) }
{
    let mut desks = Vec::new(alloc);
    for _ in 0..count {
        desks.push(Desk::new(alloc, list)?)?;
    }
    Ok(desks)
}

/// The operations that a node has published, in the order of publishing, and its desks, each of
/// which sees so many of them, from the first one on.
///
/// An operation stands here once. Of each desk that sees it, what it leads to stands here too.
pub struct Listing {
    list: Vec<Op>,
    desks: Vec<Desk>,
}

impl Model for Listing {
    ghost use Rattle.fl_desks.specs.Listing.{ListingState, coded_listing};
    ghost use Rattle.fl_desks.specs.parts.Fronts.{IsListing, views_of};

    ghost Value = { ListingState };

    ghost coded = { coded_listing };

    ghost view = { λ a. record { published = a.list.items; views = views_of a.desks.items } };

    ghost invariant = { λ a. IsListing a.list.items a.desks.items };
}

impl Drop for Listing {
    fn drop(self) {
        let Listing { list: _, desks: _ } = self;
    }
}

impl Listing {
    /// The list of what is saved, rising, with so many desks that see all of it. Copies it, and
    /// absorbs it for each desk.
    pub fn new(alloc: Global, saved: &OpSet, desks: u8) -> Result<Listing, AllocError>
        ensures made { IfOk result (λ made. made ≡ listing_of saved.now desks) }
        ensures desks { IfOk result (λ made. length made.views ≡ desks) }
    {
        let list = saved.to_vec(alloc)?;
        let desks = desks_of(alloc, &list, desks)?;
        Ok(Listing { list, desks })
    }

    /// The operations, in the order of publishing.
    pub fn list(&self) -> &[Op]
        ensures { result.now ≡ self.now.published }
    {
        &self.list
    }

    /// How many desks there are.
    pub fn desks(&self) -> u8
        ensures { length self.now.views ≡ result }
    {
        self.desks.len() as u8
    }

    /// Has the desk look at the list up to a length: it then sees so many operations, or as many as
    /// it saw before. An error, for want of memory, comes only where it is to see more, and leaves
    /// it. Absorbs what it had not seen.
    pub fn look(&mut self, alloc: Global, desk: u8, upto: u64) -> Result<(), AllocError>
        requires { IsDesk self.old desk }
        ensures ok { OnOk result ((seen : _) → HasSeen self.old desk seen
            → self.new ≡ with_seen self.old desk (seen_then self.old seen upto)) }
        ensures err { OnErr result (self.new ≡ self.old) }
        ensures wants { OnErr result ((seen : _) → HasSeen self.old desk seen
            → seen < min upto (length self.old.published)) }
        ensures desks { length self.new.views ≡ length self.old.views }
    {
        let count = min(upto, self.list.len() as u64);
        let it = &mut self.desks[desk as usize - 1];
        it.rise(alloc, &self.list, count)
    }

    // None where the desk has seen the whole list, and else another one that sees it, which absorbs
    // all of it. Fails only where the desk has not, and there is not enough memory.
    fn fresh(&self, alloc: Global, desk: u8) -> Result<Option<Desk>, AllocError>
        requires { IsDesk self.now desk }
        ensures ok { let list = self.now.published in IfOk result (λ fresh. MatchOption fresh
            (HasSeen self.now desk (length list)) (λ it. it.list ≡ list)) }
        ensures err { OnErr result (IsBehind self.now desk) }
    {
        let it = &self.desks[desk as usize - 1];
        if it.seen() >= self.list.len() as u64 {
            return Ok(None);
        }
        Ok(Some(Desk::new(alloc, &self.list)?))
    }

    /// Has the bench do a job under what the desk sees, as [`Bench::job`] has it.
    pub fn work(
        &mut self,
        alloc: Global,
        desk: u8,
        bench: &mut Bench,
        job: &mut Job,
    ) -> Result<Outcome, Refusal>
        requires { IsDesk self.old desk }
        ensures does { (seen : _) → HasSeen self.old desk seen
            → Does (first_ops seen self.old.published) bench.old job.old result bench.new }
        ensures same { self.new ≡ self.old }
    {
        let it = &mut self.desks[desk as usize - 1];
        bench.job(alloc, it, job)
    }

    /// What the bench would answer to the job now under the whole list, as [`Bench::could`] has it:
    /// by the desk where it has seen all, and else by a fresh one. Fails only where the desk has
    /// not, and there is not enough memory. Leaves the list, its desks and the bench.
    pub fn could(
        &mut self,
        alloc: Global,
        desk: u8,
        bench: &mut Bench,
        guards: bool,
        job: &Job,
    ) -> Result<Result<Reply, Refusal>, AllocError>
        requires { IsDesk self.old desk }
        ensures could { IfOk result (λ answer.
            Could guards (Listed self.old.published) bench.old job.now answer) }
        ensures err { OnErr result (IsBehind self.old desk) }
        ensures same { self.new ≡ self.old }
        ensures bench { bench.new ≡ bench.old }
    {
        match self.fresh(alloc, desk)? {
            Some(mut whole) => Ok(bench.could(&mut whole, guards, job)),
            None => {
                let it = &mut self.desks[desk as usize - 1];
                Ok(bench.could(it, guards, job))
            }
        }
    }

    // Puts an order at the end, which its desk sees, if that is there. An error leaves the list.
    fn order(&mut self, alloc: Global, op: &Op, desk: Option<u8>) -> Result<(), AllocError>
        ensures desks { length self.new.views ≡ length self.old.views }
        ensures ok { (maker : _) → OnOk result
            (self.new ≡ extended self.old (Ordered op.now maker desk)) }
        ensures err { OnErr result (self.new ≡ self.old) }
    {
        self.list.push(*op)?;
        let Some(desk) = desk else {
            return Ok(());
        };
        if desk == 0 || self.desks.len() < desk as usize {
            return Ok(());
        }
        let count = self.list.len() as u64;
        let it = &mut self.desks[desk as usize - 1];
        match it.rise(alloc, &self.list, count) {
            Ok(()) => Ok(()),
            Err(error) => {
                self.list.pop();
                Err(error)
            }
        }
    }

    /// Puts a batch at the end of the list. The desk of an order, if it has one, then sees the
    /// whole list. An error, for want of memory, leaves the list.
    pub fn extend(&mut self, alloc: Global, batch: &Batch) -> Result<(), AllocError>
        ensures desks { length self.new.views ≡ length self.old.views }
        ensures ok { OnOk result (self.new ≡ extended self.old batch.now) }
        ensures err { OnErr result (self.new ≡ self.old) }
    {
        match batch {
            Batch::Ordered(op, _, desk) => self.order(alloc, op, *desk),
            Batch::Received(ops) => self.list.extend_from_slice(ops.as_slice()),
        }
    }

    /// The capabilities that are wanting for the job at the bench under the whole list, as
    /// [`Bench::wanting`] has it: by the desk where it has seen all, and else by a fresh one. Fails
    /// only where the desk has not or a capability is wanting, and there is not enough memory.
    /// Leaves the list and its desks.
    pub fn wanting(
        &mut self,
        alloc: Global,
        desk: u8,
        bench: &Bench,
        guards: bool,
        job: &Job,
    ) -> Result<CapSet, AllocError>
        requires { IsDesk self.old desk }
        ensures ok { let V = Listed self.old.published in
            IfOk result (AreAll (Lacks guards V bench.now job.now)) }
        ensures err { let V = Listed self.old.published in OnErr result
            (IsBehind self.old desk ⊎ ((c : Cap) × Lacks guards V bench.now job.now c)) }
        ensures same { self.new ≡ self.old }
    {
        match self.fresh(alloc, desk)? {
            Some(mut whole) => bench.wanting(alloc, &mut whole, guards, job),
            None => {
                let it = &mut self.desks[desk as usize - 1];
                bench.wanting(alloc, it, guards, job)
            }
        }
    }
}
