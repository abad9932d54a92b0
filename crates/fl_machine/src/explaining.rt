//! What a node explains of itself. Nothing changes by it.
ghost use Rattle.std.specs.Prelude.{◌≡◌, List};
ghost use Rattle.fl_machine.specs.Shown.{why_response};
ghost use Rattle.fl_machine.specs.parts.Responding.{Responds, ShowsOne};
ghost use Rattle.fl_machine_lines.specs.declared.explaining.Explanation.TheVariants as asked;
ghost use Rattle.fl_machine_turns.specs.Explaining.{Explains, IsExplained};
ghost use Rattle.fl_machine_turns.specs.Turn.{Tells};
ghost use Rattle.fl_seal.specs.declared.seal.Key.{Key as AnyKey};

use crate::response::{Response, refused, starved};
use fl_explanations::overview::pids_of;
use fl_explanations::who::who_has;
use fl_explanations::why::{Why, why_group, why_owned};
use fl_jobs::answer::{Refusal, Reply as JobReply};
use fl_labels::cap::Cap;
use fl_labels::pid::Pid;
use fl_machine_lines::explaining::Explanation;
use fl_node::node::Node;
use fl_store::keeper::Keeper;
use fl_system::answer::Fault;
use fl_system::reply::Reply;
use std::alloc::{AllocError, Global};

/// The only bench of the node.
pub(crate) const BENCH: u8 = 1;

// What is responded where a chain was looked for.
fn told<'a>(found: Result<Option<Why>, AllocError>) -> Response<'a>
    ensures { result ≡ why_response found }
{
    match found {
        Ok(Some(why)) => Response::Why(why),
        Ok(None) => Response::Reply(Reply::Job(JobReply::NotYet)),
        Err(AllocError) => starved(),
    }
}

// Why the process has the capability in effect, under what the node has published.
fn why_process<'a, K: Keeper>(alloc: Global, node: &Node<K>, pid: Pid, cap: Cap) -> Response<'a>
    ensures { (keys : List AnyKey) → let n = node.now.node in
        ShowsOne keys n (Explains n (asked.Why pid cap)) result }
{
    let Some(process) = node.process(pid) else {
        return refused(Fault::Refused(Refusal::NoProcess(pid)));
    };
    let owned = process.owned.as_slice();
    told(why_owned(alloc, node.published(), owned, cap))
}

// Who has the capability, under what the node has published.
fn named<'a, K: Keeper>(alloc: Global, node: &Node<K>, cap: Cap) -> Response<'a>
    ensures { (keys : List AnyKey) → let n = node.now.node in
        ShowsOne keys n (Explains n (asked.Who cap)) result }
{
    let Ok(who) = who_has(alloc, node.published(), node.bench(BENCH), cap) else {
        return starved();
    };
    Response::Who(who)
}

// How the node stands, and each of its processes.
fn overview<'a, K: Keeper>(alloc: Global, node: &Node<K>) -> Response<'a>
    ensures { (keys : List AnyKey) → let n = node.now.node in
        ShowsOne keys n (Explains n asked.Show) result }
{
    let Ok(pids) = pids_of(alloc, node.bench(BENCH)) else {
        return starved();
    };
    Response::Overview(pids)
}

/// What is responded where this is to be explained: `Stopped` where the node does not run, `F1`
/// where there is no such process, and `F14` where there is no memory for a chain that has a step,
/// for those who are named, or for the pids of some processes. Costs what `why_owned`, `why_group`,
/// `who_has` or `pids_of` does.
#[inline(never)]
pub(crate) fn explain<'a, K: Keeper>(
    alloc: Global,
    node: &Node<K>,
    what: Explanation,
) -> Response<'a>
    ensures { (keys : List AnyKey) → Responds K.custody keys node.now
        (λ s. Tells s (IsExplained s what)) result 0 node.now }
{
    if let Err(fault) = node.runs() {
        return refused(fault);
    }
    match what {
        Explanation::Log(place) => Response::Log(place),
        Explanation::Why(pid, cap) => why_process(alloc, node, pid, cap),
        Explanation::WhyGroup(group, cap) => told(why_group(alloc, node.published(), group, cap)),
        Explanation::Who(cap) => named(alloc, node, cap),
        Explanation::Show => overview(alloc, node),
        Explanation::ShowProcess(pid) => Response::Process(pid),
    }
}
