//! What becomes of what a bench answered.
ghost use Rattle.std.specs.Prelude.{◌≡◌, None, IfOk, IfErr, OnErr};
ghost use Rattle.fl_bench.specs.Gifts.{cancelled};
ghost use Rattle.fl_worker.specs.parts.Settled.{IsEnded, IsRuled, IsSettled, IsTakenBack};
ghost use Rattle.fl_worker.specs.Stops.{IsStop};

use crate::ask::Ordered;
use crate::checks::{does, is_pid};
use crate::ends::Ends;
use fl_crew_model::record::{Ruling, Told};
use fl_jobs::answer::{Outcome, Refusal};
use fl_labels::pid::Pid;
use fl_monitor::bench::Bench;
use fl_ops::op::Body;
use fl_system::answer::Fault;
use std::sync::Wait;

// What a job was answered, and what was ruled where an operation was ordered.
#[derive(Drop)]
pub(crate) struct Answered {
    pub(crate) told: Told,
    pub(crate) ruling: Option<Ruling>,
}

// Ends the order of this body and maker as it is ruled. `Stopped`, and the order is cancelled,
// where the ruling is on another one.
fn end_order(bench: &mut Bench, body: Body, pid: Pid, ruling: Ruling) -> Result<Told, Fault>
    ensures ok { IfOk result (λ told. IsEnded body pid bench.old ruling told bench.new) }
    ensures fault { IfErr result IsStop }
    ensures err { OnErr result (bench.new ≡ cancelled bench.old pid) }
{
    let answer = match ruling {
        Ruling::Made(op) if does(op, body) => {
            bench.finish(pid, &op);
            return Ok(Told::Published(op.name));
        }
        Ruling::Late(op, maker) if does(op, body) && is_pid(maker, pid) => {
            return Ok(Told::Refused(Fault::Refused(Refusal::Memory)));
        }
        Ruling::GivenUp(reason) => Ok(Told::Refused(Fault::Refused(reason.refusal()))),
        _ => Err(Fault::Stopped),
    };
    bench.cancel(pid);
    answer
}

// Has the registrar rule on an order, and ends it so. It is cancelled where the worker is to stop.
fn order<R: Wait>(
    rt: &R,
    bench: &mut Bench,
    ends: &mut Ends,
    ordered: Ordered,
) -> Result<Answered, Fault>
    ensures ok { IfOk result (λ a.
        IsRuled ordered.body ordered.pid bench.old a.told a.ruling bench.new) }
    ensures fault { IfErr result IsStop }
    ensures err { OnErr result (bench.new ≡ cancelled bench.old ordered.pid) }
{
    match ends.ask(rt, ordered) {
        Ok(ruling) => {
            let told = end_order(bench, ordered.body, ordered.pid, ruling)?;
            let ruling = Some(ruling);
            Ok(Answered { told, ruling })
        }
        Err(fault) => {
            bench.cancel(ordered.pid);
            Err(fault)
        }
    }
}

// What is told of a job that the bench answered alone.
fn alone(told: Told) -> Answered
    ensures { (result.told ≡ told) × (result.ruling ≡ None) }
{
    Answered { told, ruling: None }
}

// Ends a job that the bench answered so: an order goes to the registrar.
pub(crate) fn settle<R: Wait>(
    rt: &R,
    bench: &mut Bench,
    ends: &mut Ends,
    place: usize,
    answer: Result<Outcome, Refusal>,
) -> Result<Answered, Fault>
    ensures ok { IfOk result (λ a. IsSettled answer bench.old a.told a.ruling bench.new) }
    ensures fault { IfErr result IsStop }
    ensures err { OnErr result (IsTakenBack answer bench.old bench.new) }
{
    match answer {
        Ok(Outcome::Reply(reply)) => Ok(alone(Told::Reply(reply))),
        Ok(Outcome::Out(packet)) => Ok(alone(Told::Out(packet.into_inner()))),
        Ok(Outcome::Order(body, pid)) => {
            let body = body.into_inner();
            let ordered = Ordered { place, body, pid };
            order(rt, bench, ends, ordered)
        }
        Err(refusal) => Ok(alone(Told::Refused(Fault::Refused(refusal)))),
    }
}
