//! What the crews of a script and a newcomer have against one another.
ghost use Rattle.std.specs.Prelude.{◌≡◌};
ghost use Rattle.std.specs.BTreeMap.{IsOrdered};
ghost use Rattle.std.specs.Ordering.{nat_cmp};
ghost use Rattle.fl_gossip.specs.Meeting.{FindsLeast, OfSome};
ghost use Rattle.fl_crew_calls.specs.Joining.{FindsAgainst};
ghost use Rattle.fl_crew_calls.specs.parts.Places.{ClashesIn, ClashesThere, StraysIn, StraysThere};

use crate::manned::Manned;
use crate::runtime::CrewRuntime;
use fl_gossip::meeting::{least_clash, least_stray, lesser};
use fl_labels::name::{Name, NodeNumber};
use fl_opset::set::OpSet;
use fl_store::keeper::Keeper;
use fl_system::answer::Fault;
use std::collections::BTreeMap;

// The least name under which an operation of the set and one of the crew's node clash.
fn clash_in<R: CrewRuntime, K: Keeper + Drop>(
    place: &Option<Manned<R, K>>,
    saved: &OpSet,
) -> Option<Name>
    ensures { FindsLeast (ClashesIn saved.now place.now) result }
{
    match place {
        Some(manned) => least_clash(saved, manned.crew().node().saved()),
        None => None,
    }
}

// The least name of an operation of a newcomer that has the number of the crew's node and is not
// saved there, or the other way round.
fn stray_in<R: CrewRuntime, K: Keeper + Drop>(
    other: NodeNumber,
    place: &Option<Manned<R, K>>,
    number: NodeNumber,
    saved: &OpSet,
) -> Option<Name>
    ensures { FindsLeast (StraysIn number saved.now other place.now) result }
{
    match place {
        Some(manned) => {
            let theirs = manned.crew().node().saved();
            let brought = least_stray(saved, theirs, other);
            let awaited = least_stray(theirs, saved, number);
            lesser(brought, awaited)
        }
        None => None,
    }
}

// The least name under which an operation of the set and one of a crew's node clash.
fn least_clash_with<R: CrewRuntime, K: Keeper + Drop>(
    all: &BTreeMap<NodeNumber, Option<Manned<R, K>>>,
    saved: &OpSet,
) -> Option<Name>
    ensures least { FindsLeast (OfSome (ClashesThere saved.now) all.now.entries) result }
    ensures ordered { IsOrdered nat_cmp all.now }
{
    let mut least = None;
    for (_, place) in all {
        least = lesser(least, clash_in(place, saved));
    }
    least
}

// The least name of an operation that a newcomer of this number, which has saved these, and a crew's
// node do not both know, though it has the number of one of them.
fn least_stray_with<R: CrewRuntime, K: Keeper + Drop>(
    all: &BTreeMap<NodeNumber, Option<Manned<R, K>>>,
    number: NodeNumber,
    saved: &OpSet,
) -> Option<Name>
    ensures { FindsLeast (OfSome (StraysThere number saved.now) all.now.entries) result }
{
    let mut least = None;
    for (other, place) in all {
        least = lesser(least, stray_in(*other, place, number, saved));
    }
    least
}

/// Why a newcomer of this number, which has saved these, may not join the crews: something else is
/// saved under one of its names, or an operation is saved, though not by the node whose number it
/// has. Costs, for each crew, a search for each operation of the set or its node's own, whichever
/// has fewer with that operation's number, and one for each operation of the one that has the
/// number of the other. Takes no memory.
pub(crate) fn against<R: CrewRuntime, K: Keeper + Drop>(
    all: &BTreeMap<NodeNumber, Option<Manned<R, K>>>,
    number: NodeNumber,
    saved: &OpSet,
) -> Option<Fault>
    ensures found { FindsAgainst (OfSome (ClashesThere saved.now) all.now.entries)
        (OfSome (StraysThere number saved.now) all.now.entries) result }
    ensures ordered { IsOrdered nat_cmp all.now }
{
    if let Some(name) = least_clash_with(all, saved) {
        return Some(Fault::Clash(name));
    }
    match least_stray_with(all, number, saved) {
        Some(name) => Some(Fault::Impostor(name)),
        None => None,
    }
}
