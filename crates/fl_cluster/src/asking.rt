//! What a line asks of the world.
ghost use Rattle.std.specs.Prelude.{◌≡◌, ◌<◌, All};
ghost use Rattle.fl_script.specs.Grammar.{nodes_of};
ghost use Rattle.fl_system.specs.WorldSteps.{node_of};
ghost use Rattle.fl_calls.specs.Answer.{shown};
ghost use Rattle.fl_calls.specs.Calls.{Asks};
ghost use Rattle.fl_calls.specs.Failing.{FailsCompleting, FailsOnceOpen, SaysFailed};
ghost use Rattle.fl_calls.specs.Over.{GoesOn};
ghost use Rattle.fl_turns.specs.Failing.{FailsAsked, FailsSaid};
ghost use Rattle.fl_turns.specs.Turn.{AsksNode, job_at};
ghost use Rattle.fl_cluster.specs.Shown.{status_said};
ghost use Rattle.fl_cluster.specs.parts.Answering.{RespondsTo};

use crate::response::Response;
use fl_calls::cluster::Cluster;
use fl_calls::response::Response as Said;
use fl_jobs::job::{Act, Job};
use fl_labels::name::NodeNumber;
use fl_makers::maker::MakesKeepers;
use fl_notes::working::Look;
use fl_script::line::Line;
use fl_script::request::Request;
use fl_system::event::Event;
use std::alloc::Global;

/// What lines look at: all that is published, at the only desk of a node.
pub const LOOK: Look = Look {
    desk: 1,
    upto: u64::MAX,
};

/// The job at the node's only desk, which looks at all that is published.
pub fn job_at(node: NodeNumber, job: Job) -> Event
    ensures { result ≡ job_at node job }
{
    Event::Job {
        node,
        desk: LOOK.desk,
        upto: LOOK.upto,
        job,
    }
}

// The event happens, as `Cluster::ask` has it.
fn ask_seldom<M: MakesKeepers>(alloc: Global, cluster: &mut Cluster<M>, event: Event) -> Said
    requires { 0 < node_of event }
    ensures goes { GoesOn M.K.custody M.making cluster.old cluster.new
        (λ openings w w'. Asks openings w event (shown cluster.new.world result) w') }
    ensures cause { SaysFailed result
        → FailsOnceOpen M.K.custody M.making cluster.old cluster.new (node_of event)
        (λ between. FailsCompleting M.K.custody between.world cluster.new.world event) }
{
    Said::Reply(cluster.ask(alloc, event))
}

// What is asked of the node is answered.
#[inline(always)]
fn respond_for<M: MakesKeepers>(
    alloc: Global,
    cluster: &mut Cluster<M>,
    node: NodeNumber,
    request: Request,
) -> Said
    requires { 0 < node }
    ensures goes { GoesOn M.K.custody M.making cluster.old cluster.new
        (λ openings w w'. AsksNode openings w node request (shown cluster.new.world result) w') }
    ensures cause { SaysFailed result
        → FailsOnceOpen M.K.custody M.making cluster.old cluster.new node
        (λ between. FailsAsked M.K.custody between.world cluster.new.world node request) }
{
    match request {
        Request::Job(job) => ask_seldom(alloc, cluster, job_at(node, job)),
        Request::Begin(pid, order) => {
            let order = Job::By(pid, Act::Order(order));
            Said::Reply(cluster.begin(alloc, job_at(node, order)))
        }
        Request::Deliver(packet) => cluster.deliver(alloc, node, packet),
        Request::BeginDeliver(packet) => cluster.begin_to_take(alloc, node, packet),
        Request::Tell => ask_seldom(alloc, cluster, Event::Tell(node)),
        Request::Save => ask_seldom(alloc, cluster, Event::Save(node)),
        Request::Publish => ask_seldom(alloc, cluster, Event::Publish(node)),
        Request::Cancel => ask_seldom(alloc, cluster, Event::Cancel(node)),
        Request::Restart { kept } => ask_seldom(alloc, cluster, Event::Restart(node, kept)),
        Request::Text => cluster.text(alloc, node),
        Request::Check(bytes) => cluster.check(alloc, node, bytes.as_slice()),
    }
}

/// Answers the line, whatever the aliases are. In line, as what it calls is, so that no line is
/// copied on its way down.
#[inline(always)]
pub fn respond_to<M: MakesKeepers>(alloc: Global, cluster: &mut Cluster<M>, line: Line) -> Response
    requires { All (λ node. 0 < node) (nodes_of line) }
    ensures responds { RespondsTo M.K.custody M.making
        cluster.old line result cluster.new }
    ensures cause { status_said result ≡ 3
        → FailsSaid M.K.custody M.making cluster.old cluster.new line }
{
    match line {
        Line::Node { node, request } => {
            Response::Said(respond_for(alloc, cluster, node, request))
        }
        Line::Union { first, second } => Response::Said(cluster.union(alloc, first, second)),
        Line::Audit => Response::Said(cluster.audit()),
        Line::Aliases => Response::Aliases,
    }
}
