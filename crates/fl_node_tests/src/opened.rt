//! What the tests of nodes share.
ghost use Rattle.std.specs.Prelude.{◌<◌};

use fl_jobs::answer::Reply;
use fl_jobs::job::Job;
use fl_labels::name::NodeNumber;
use fl_labels::pid::Pid;
use fl_node::node::Node;
use fl_store::mem::MemKeeper;
use fl_system::answer::{Answer, Fault};
use std::alloc::Global;
use std::test::Fail;

/// The first process of node 1 since this boot.
pub fn first(boot: u32) -> Pid {
    Pid {
        node: 1,
        boot: boot.max(1),
        serial: 1,
    }
}

/// What a call of a node gives that is not refused.
pub fn given<T: Drop>(said: Result<T, Fault>) -> Result<T, Fail> {
    match said {
        Ok(value) => Ok(value),
        Err(_) => Err(Fail::from("refused")),
    }
}

/// A node of one desk over a keeper.
pub fn opened(alloc: Global, keeper: MemKeeper, number: NodeNumber) -> Result<Node<MemKeeper>, Fail>
    requires { 0 < number }
{
    match Node::open(alloc, keeper, number, 1) {
        Ok(node) => Ok(node),
        Err(_) => Err(Fail::from("not opened")),
    }
}

/// What the node answers to a job at its first desk, which looks at the whole list.
pub fn asked(alloc: Global, node: &mut Node<MemKeeper>, mut job: Job) -> Result<Answer, Fault> {
    if node.desks() == 0 {
        return Err(Fault::Stopped);
    }
    node.job(alloc, 1, u64::MAX, &mut job)
}

/// Whether the node is asked for a process, and makes this one.
pub fn makes(alloc: Global, node: &mut Node<MemKeeper>, pid: Pid) -> bool {
    match &asked(alloc, node, Job::Proc) {
        Ok(Answer::Reply(Reply::Made(made))) => *made == pid,
        _ => false,
    }
}
