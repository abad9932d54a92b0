//! The orders of a batch that are still awaited.
ghost use Rattle.std.specs.Prelude.{◌≡◌, ◌↔◌, Some, IsTrue, slice_get};
ghost use Rattle.fl_crew_model.specs.Compared.{EndBefore, decisions_of};
ghost use Rattle.fl_registrar.specs.Ruling.{worker_awaited};

use fl_crew_model::record::Deed;
use fl_labels::name::Name;
use fl_ops::op::{Body, Op};

/// An order that is awaited at a place of the batch: whose it is, and what its operation is to do.
#[derive(Clone, Copy, Debug)]
pub struct Awaited {
    pub worker: u8,
    pub body: Body,
}

// Whether two operations are one.
fn is_op(one: Op, other: Op) -> bool
    ensures { IsTrue result ↔ one ≡ other }
{
    one == other
}

// Whether two bodies are one: two operations of one name are where these are.
fn is_body(one: Body, other: Body) -> bool
    ensures { IsTrue result ↔ one ≡ other }
{
    let name = Name { node: 1, seq: 1 };
    is_op(Op { name, body: one }, Op { name, body: other })
}

/// Whether an order of this worker for this body is awaited at the place.
pub(crate) fn is_awaited(orders: &[Option<Awaited>], worker: u8, place: usize, body: Body) -> bool
    ensures { IsTrue result
        ↔ slice_get orders.now place ≡ Some (Some (record { worker = worker; body = body })) }
{
    let Some(Some(awaited)) = orders.get(place) else {
        return false;
    };
    awaited.worker == worker && is_body(awaited.body, body)
}

/// Whose order is awaited at the place, or none where none is.
pub(crate) fn worker_at(orders: &[Option<Awaited>], place: usize) -> Option<u8>
    ensures { result ≡ worker_awaited (slice_get orders.now place) }
{
    let Some(Some(awaited)) = orders.get(place) else {
        return None;
    };
    Some(awaited.worker)
}

// Whether the last of the decisions on the orders of this worker, if there is one, is on an earlier
// place. Takes as long as there are deeds behind it.
pub(crate) fn ends_before(worker: u8, place: usize, deeds: &[Deed]) -> bool
    ensures { IsTrue result ↔ EndBefore (decisions_of worker deeds.now) place }
{
    let mut rest = deeds;
    while let Some((deed, front)) = rest.split_last() {
        if let Deed::Decided(decision) = deed {
            if decision.worker == worker {
                return decision.place < place;
            }
        }
        rest = front;
    }
    true
}
