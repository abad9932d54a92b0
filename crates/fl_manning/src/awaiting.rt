//! Which orders are awaited in a batch.
ghost use Rattle.std.specs.Prelude.{◌≡◌, ◌↔◌, ℕ, List, Some, IfOk, length, map, slice_get};
ghost use Rattle.fl_crew_model.specs.Answered.{IsOrderFor};
ghost use Rattle.fl_dealing.specs.declared.item.Item.{Item as ItemValue};
ghost use Rattle.fl_registrar.specs.declared.awaited.Awaited.{Awaited as AwaitedValue};
ghost use Rattle.fl_manning.specs.Orders.{asked_by, order_by, awaited_by, job_for};

use fl_bench::orders::body_of_order;
use fl_dealing::item::Item;
use fl_jobs::job::{Act, Job};
use fl_ops::op::Body;
use fl_registrar::awaited::Awaited;
use std::alloc::{AllocError, Global};

// What the operation is to do that the item orders, or none where it is no order.
fn body_asked(item: &Item) -> Option<Body>
    ensures { result ≡ asked_by item.now }
{
    let Item::Job(Job::By(_, Act::Order(order))) = item else {
        return None;
    };
    Some(body_of_order(*order))
}

/// What is ordered at each place of a batch, before its items are dealt. Fails only where there is
/// not enough memory. Takes time and memory in proportion to their number.
pub fn bodies_of(alloc: Global, items: &[Item]) -> Result<Vec<Option<Body>>, AllocError>
    ensures { IfOk result (λ bodies. bodies.items ≡ map asked_by items.now) }
{
    let mut bodies = Vec::with_capacity(alloc, items.len())?;
    for item in items {
        bodies.push(body_asked(item))?;
    }
    Ok(bodies)
}

// What is awaited at a place of this owner.
fn awaited_at(owner: u8, body: Option<Body>) -> Option<Awaited>
    ensures { result ≡ order_by owner body }
{
    Some(Awaited {
        worker: owner,
        body: body?,
    })
}

/// What is awaited at each place of a batch, once its items are dealt: what is ordered there, of
/// the owner of the place. Fails only where there is not enough memory. Takes time and memory in
/// proportion to their number.
pub fn awaited_of(
    alloc: Global,
    owners: &[u8],
    bodies: &[Option<Body>],
) -> Result<Vec<Option<Awaited>>, AllocError>
    requires { length owners.now ≡ length bodies.now }
    ensures awaited { IfOk result (λ orders. orders.items ≡ awaited_by owners.now bodies.now) }
    ensures count { IfOk result (λ orders. length orders.items ≡ length owners.now) }
    // It is awaited of a worker exactly where that has an order for it.
    ensures orders { (items : List ItemValue) → bodies.now ≡ map asked_by items →
        IfOk result (λ orders. (place : ℕ) (order : AwaitedValue) →
        (slice_get orders.items place ≡ Some (Some order))
        ↔ IsOrderFor (job_for owners.now items order.worker place) order.body) }
{
    let mut orders = Vec::with_capacity(alloc, owners.len())?;
    for index in 0..owners.len() {
        orders.push(awaited_at(owners[index], bodies[index]))?;
    }
    Ok(orders)
}
