//! How a message comes to a node.
ghost use Rattle.std.specs.Prelude.{◌≡◌, ◌<◌, length};
ghost use Rattle.fl_system.specs.Arrives.{Arrives};
ghost use Rattle.fl_system.specs.State.{first_ops};
ghost use Rattle.fl_desks.specs.Benches.{DoesAt};
ghost use Rattle.fl_desks.specs.Listing.{IsDesk, HasSeen};
ghost use Rattle.fl_node.specs.Desks.{IsDeskOf};

use crate::node::Node;
use crate::state::running;
use fl_desks::benches::Benches;
use fl_desks::listing::Listing;
use fl_jobs::answer::{Outcome, Refusal, Reply};
use fl_jobs::job::Job;
use fl_message::boxed::Boxed;
use fl_message::message::Data;
use fl_store::keeper::Keeper;
use fl_system::answer::Fault;
use std::alloc::Global;

// Has a bench do a job that is made here, under what the first desk sees, and lets go of what is
// left of it.
fn hand(
    alloc: Global,
    benches: &mut Benches,
    listing: &mut Listing,
    mut job: Job,
) -> Result<Outcome, Refusal>
    requires benches { 0 < length benches.old.benches }
    requires desk { IsDesk listing.old 1 }
    ensures does { (seen : _) → HasSeen listing.old 1 seen
        → DoesAt (first_ops seen listing.old.published) benches.old job result benches.new }
    ensures count { length benches.new.benches ≡ length benches.old.benches }
    ensures same { listing.new ≡ listing.old }
{
    benches.job(alloc, listing, 1, &mut job)
}

impl<K: Keeper> Node<K> {
    /// Hands a message that came to its receiver, as `Bench::job` has it, and says to whom. No
    /// operation is asked for, so that nothing but the receiver's inbox changes, or, where the
    /// message is refused, nothing. A stopped node answers `Stopped`. A node without a desk is
    /// given none.
    pub fn arrive(&mut self, alloc: Global, message: Boxed<Data>) -> Result<Reply, Fault>
        requires { IsDeskOf self.old.node 1 }
        ensures desks { length self.new.node.views ≡ length self.old.node.views }
        ensures arrives { Arrives self.old.node message result self.new.node }
        ensures keeper { self.new.keeper ≡ self.old.keeper }
    {
        running(&self.state)?;
        let message = Job::Arrive(message);
        match hand(alloc, &mut self.benches, &mut self.listing, message) {
            Ok(Outcome::Reply(reply)) => Ok(reply),
            Ok(Outcome::Out(_packet)) => unreachable!("an arrival sends nothing"),
            Ok(Outcome::Order(_body, _pid)) => unreachable!("an arrival is no order"),
            Err(refusal) => Err(Fault::Refused(refusal)),
        }
    }
}
