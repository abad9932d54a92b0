// What a stopped or restarted node gets back from its keeper.
ghost use Rattle.std.specs.Prelude.{◌≡◌, ◌≢◌, ◌⊎◌, ◌<◌, length, IsTrue, IfOk, IfErr, Ok, Err};
ghost use Rattle.std.specs.Option.{option_copied};
ghost use Rattle.fl_labels.specs.Found.{Tells};
ghost use Rattle.fl_labels.specs.SetBy as set;
ghost use Rattle.fl_store.specs.Kept.{Kept, HasNamesOnce, with_ops};
ghost use Rattle.fl_store.specs.Keeping.{Follows};
ghost use Rattle.fl_system.specs.State.{ops_in};
ghost use Rattle.fl_system.specs.Openings.{Opens, IsOwn, starting};
ghost use Rattle.fl_desks.specs.Benches.{benches_of};
ghost use Rattle.fl_desks.specs.Listing.{listing_of};
ghost use Rattle.fl_node.specs.Causes.{KeeperFails};

use crate::finding::{find, raise};
use crate::keeping::add_batch;
use fl_desks::benches::Benches;
use fl_desks::listing::Listing;
use fl_jobs::answer::Refusal;
use fl_labels::name::NodeNumber;
use fl_opset::set::OpSet;
use fl_store::keeper::Keeper;
use fl_system::answer::Fault;
use fl_system::state::Batch;
use std::alloc::{AllocError, Global};

/// What a node was.
#[derive(Clone, Copy)]
pub struct Had {
    pub number: NodeNumber,
    pub boot: u32,
    pub desks: u8,
}

/// What a node is opened again with.
#[derive(Drop)]
pub struct Recovered {
    pub boot: u32,
    pub saved: OpSet,
    pub listing: Listing,
    pub benches: Benches,
}

/// Whether both sets are the same.
fn same(left: &OpSet, right: &OpSet) -> bool
    ensures { Tells result (left.now ≡ right.now) }
{
    left.has_each(right) && right.has_each(left)
}

/// Whether what is found is what was saved, or that with the batch in doubt.
fn is_own(
    alloc: Global,
    found: &OpSet,
    saved: &OpSet,
    doubt: Option<&Batch>,
) -> Result<bool, AllocError>
    ensures { let both = with_ops saved.now (ops_in (option_copied doubt.entry)) in
        IfOk result (λ own. Tells own ((found.now ≡ saved.now) ⊎ (found.now ≡ both))) }
{
    if same(found, saved) {
        return Ok(true);
    }
    let Some(batch) = doubt else {
        return Ok(false);
    };
    let mut both = OpSet::new(alloc);
    both.merge(saved)?;
    add_batch(&mut both, batch)?;
    Ok(same(found, &both))
}

/// What the node of this number gets back, which had this boot and these saved operations, with a
/// batch in doubt.
pub fn recover<K: Keeper>(
    alloc: Global,
    keeper: &mut K,
    had: Had,
    saved: &OpSet,
    doubt: Option<&Batch>,
) -> Result<Recovered, Fault>
    requires { 0 < had.number }
    ensures ok { let was : Kept =
        record { number = had.number; boot = had.boot; saved = saved.now } in
        let own = IsOwn was (option_copied doubt.entry) in
        IfOk result (λ r. K.custody.is_honest keeper.new → K.custody.is_honest keeper.old
        × Follows (λ k k'. Opens had.desks own k
        (Ok (starting had.desks had.number r.boot r.saved (set.members r.saved))) k')
        (K.custody.may_hold keeper.old) (K.custody.may_hold keeper.new)) }
    ensures kept { IfOk result (λ r. K.custody.is_honest keeper.new
        → (k : Kept) → K.custody.may_hold keeper.new k
        → k ≡ record { number = had.number; boot = r.boot; saved = r.saved }) }
    ensures listing { IfOk result (λ r. r.listing ≡ listing_of r.saved had.desks) }
    ensures benches { IfOk result (λ r. r.benches ≡ benches_of had.number r.boot had.desks) }
    ensures desks { IfOk result (λ r. length r.listing.views ≡ had.desks) }
    ensures count { IfOk result (λ r. length r.benches.benches ≡ had.desks) }
    ensures names { IfOk result (λ r. HasNamesOnce r.saved) }
    ensures positive { IfOk result (λ r. 0 < r.boot) }
    ensures err { let was : Kept =
        record { number = had.number; boot = had.boot; saved = saved.now } in
        let own = IsOwn was (option_copied doubt.entry) in
        IfErr result (λ fault. K.custody.is_honest keeper.new → K.custody.is_honest keeper.old
        × Follows (λ k k'. Opens had.desks own k (Err fault) k')
        (K.custody.may_hold keeper.old) (K.custody.may_hold keeper.new)) }
    ensures cause { let bad = K.custody.has_bad_row keeper.old in
        let broken = IsTrue (K.custody.is_broken keeper.new) in
        IfErr result (KeeperFails broken (K.custody.is_honest keeper.new) bad) }
    ensures broken { IsTrue (K.custody.is_broken keeper.old)
        → K.custody.number keeper.old ≡ had.number
        → result ≡ Err Fault.KeeperFailed }
    ensures other { K.custody.number keeper.old ≢ had.number → result ≡ Err Fault.WrongNode }
    ensures whole { IfOk result (λ r. K.custody.is_honest keeper.new
        → ¬ K.custody.has_bad_row keeper.old) }
{
    let found = match find(alloc, keeper, had.number) {
        Ok(found) => found,
        Err(fault) => return Err(fault),
    };
    let Ok(own) = is_own(alloc, &found, saved, doubt) else {
        return Err(Fault::Refused(Refusal::Memory));
    };
    if !own {
        return Err(Fault::WrongNode);
    }
    let Ok(listing) = Listing::new(alloc, &found, had.desks) else {
        return Err(Fault::Refused(Refusal::Memory));
    };
    let next = match raise(keeper) {
        Ok(next) => next,
        Err(fault) => return Err(fault),
    };
    if next <= had.boot {
        return Err(Fault::WrongNode);
    }
    let Ok(benches) = Benches::new(alloc, had.number, next, had.desks) else {
        return Err(Fault::Refused(Refusal::Memory));
    };
    Ok(Recovered {
        boot: next,
        saved: found,
        listing,
        benches,
    })
}
