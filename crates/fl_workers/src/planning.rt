//! What a batch needs before it begins. All memory that its workers and its registrar may want for
//! rows is taken here, so that a batch which lacks it is refused before any job is begun.
ghost use Rattle.std.specs.Prelude.{◌≡◌, ◌≤◌, ◌<◌, [], IfOk, map, length, vec_len, vec_capacity};
ghost use Rattle.fl_crew_threads.specs.Receiving.{place_at};
ghost use Rattle.fl_workers.specs.Plans.{IsPlan, HasRoom, place_in, packet_in, packet_at};

use fl_crew_threads::ruling::Placed;
use fl_dealing::dealing::{Dealt, Parcel as Dealing, Queue, deal};
use fl_dealing::entry::{Entry, Taken};
use fl_dealing::gathering::Lane;
use fl_dealing::item::Item;
use fl_manning::awaiting::{awaited_of, bodies_of};
use fl_registrar::awaited::Awaited;
use fl_registrar::parcel::Parcel;
use std::alloc::{AllocError, Global};

/// Room for what comes of a batch.
#[derive(Drop)]
pub(crate) struct Room {
    pub(crate) taken: Vec<Taken>,
    pub(crate) lanes: Vec<Lane>,
    pub(crate) entries: Vec<Entry>,
}

/// A batch that is dealt.
#[derive(Drop)]
pub(crate) struct Plan {
    /// The tasks of each worker.
    pub(crate) queues: Vec<Queue>,
    /// Whose item stands at each place.
    pub(crate) owners: Vec<u8>,
    /// The order that is awaited at each place, if one is.
    pub(crate) orders: Vec<Option<Awaited>>,
    /// What the registrar is to take.
    pub(crate) packets: Vec<Placed>,
    /// The place of the bench that makes the next process behind it.
    pub(crate) procs: u8,
    pub(crate) room: Room,
}

// The packets, each with its operations once more.
fn placed_all(alloc: Global, parcels: Vec<Dealing>) -> Result<Vec<Placed>, AllocError>
    ensures places { IfOk result (λ placed.
        map place_at placed.items ≡ map place_in parcels.items) }
    ensures packets { IfOk result (λ placed.
        map packet_at placed.items ≡ map packet_in parcels.items) }
{
    let mut placed = Vec::new(alloc);
    for dealt in parcels {
        let Dealing { place, packet } = dealt;
        let parcel = Parcel::new(alloc, packet)?;
        placed.push(Placed { place, parcel })?;
    }
    Ok(placed)
}

// Room for what so many workers answer at so many places, of which so many are packets.
fn room_for(
    alloc: Global,
    workers: usize,
    places: usize,
    packets: usize,
) -> Result<Room, AllocError>
    ensures { IfOk result (λ room. HasRoom workers places packets room) }
{
    Ok(Room {
        taken: Vec::with_capacity(alloc, packets)?,
        lanes: Vec::with_capacity(alloc, workers)?,
        entries: Vec::with_capacity(alloc, places)?,
    })
}

/// Deals the items of a batch to so many workers, of which the one with the bench at the place
/// `procs` makes the next process. Fails only where there is not enough memory. Takes time and
/// memory in proportion to the items.
pub(crate) fn plan_for(
    alloc: Global,
    workers: u8,
    procs: u8,
    items: Vec<Item>,
) -> Result<Plan, AllocError>
    requires { procs < workers }
    ensures { IfOk result (λ plan. IsPlan workers procs items.items plan) }
{
    let bodies = bodies_of(alloc, &items)?;
    let Dealt {
        queues,
        parcels,
        owners,
        procs,
    } = deal(alloc, workers, procs, items)?;
    let orders = awaited_of(alloc, &owners, &bodies)?;
    let packets = placed_all(alloc, parcels)?;
    let room = room_for(alloc, workers as usize, owners.len(), packets.len())?;
    Ok(Plan {
        queues,
        owners,
        orders,
        packets,
        procs,
        room,
    })
}
