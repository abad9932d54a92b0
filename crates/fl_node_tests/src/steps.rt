//! Tests of orders: at the end of the names, and of a group that is opened.
use crate::opened::{asked, first, makes, opened};
use fl_jobs::answer::{Refusal, Reply};
use fl_jobs::job::{Act, Job, Order};
use fl_labels::cap::Cap;
use fl_labels::name::{Group, Name};
use fl_labels::pid::Pid;
use fl_node::node::Node;
use fl_ops::op::{Body, Op};
use fl_store::mem::MemKeeper;
use fl_system::answer::{Answer, Fault};
use std::alloc::{AllocError, Global};
use std::test::Fail;

const LAST: Name = Name {
    node: 1,
    seq: 4_294_967_295,
};

// A keeper of node 1 with one operation.
fn keeper_with(alloc: Global, op: Op) -> Result<MemKeeper, AllocError> {
    MemKeeper::with(alloc, 1, 0, &[op])
}

// What the first process is answered that orders this.
fn ordered(alloc: Global, node: &mut Node<MemKeeper>, order: Order) -> Result<Answer, Fault> {
    asked(alloc, node, Job::By(first(1), Act::Order(order)))
}

// Whether the process may use the group.
fn may_use(alloc: Global, node: &mut Node<MemKeeper>, pid: Pid, group: Group) -> bool {
    let job = Job::By(pid, Act::Ask(Cap::Use(group)));
    matches!(&asked(alloc, node, job), Ok(Answer::Reply(Reply::Yes)))
}

const LAST_BUT_ONE: Op = Op {
    name: Name {
        node: 1,
        seq: 4_294_967_294,
    },
    body: Body::MakeGroup,
};

// Whether the first process orders this under this name, and it is published as so many-th.
fn is_made(
    alloc: Global,
    node: &mut Node<MemKeeper>,
    order: Order,
    name: Name,
    count: u64,
) -> bool {
    matches!(&ordered(alloc, node, order), Ok(Answer::Begun(begun)) if *begun == name)
        && node.save() == Ok(())
        && node.publish(alloc) == Ok(count)
}

// Whether the first process is refused another group, since the names are spent.
fn is_spent(alloc: Global, node: &mut Node<MemKeeper>) -> bool {
    matches!(
        &ordered(alloc, node, Order::Group),
        Err(Fault::Refused(Refusal::NamesSpent))
    )
}

#[test]
fn last_name_is_spent(rt: HostRuntime) -> Result<(), Fail> {
    let alloc = rt.alloc();
    let mut node = opened(alloc, keeper_with(alloc, LAST_BUT_ONE)?, 1)?;
    assert!(rt; makes(alloc, &mut node, first(1)));
    assert!(rt; is_made(alloc, &mut node, Order::Group, LAST, 2));
    assert!(rt; is_spent(alloc, &mut node));
    assert!(rt; may_use(alloc, &mut node, first(1), LAST));
    Ok(())
}

const GROUP: Name = Name { node: 1, seq: 1 };

const SECOND: Pid = Pid {
    node: 1,
    boot: 1,
    serial: 2,
};

const OPENED: Name = Name { node: 1, seq: 2 };

// Whether only the first process may use the group before and after it is made, and both may once
// it is opened.
fn is_opened(alloc: Global, node: &mut Node<MemKeeper>) -> bool {
    !may_use(alloc, node, SECOND, GROUP)
        && is_made(alloc, node, Order::Group, GROUP, 1)
        && may_use(alloc, node, first(1), GROUP)
        && !may_use(alloc, node, SECOND, GROUP)
        && is_made(alloc, node, Order::OpenGroup(GROUP), OPENED, 2)
        && may_use(alloc, node, first(1), GROUP)
        && may_use(alloc, node, SECOND, GROUP)
}

#[test]
fn opened_group_is_everybodys(rt: HostRuntime) -> Result<(), Fail> {
    let alloc = rt.alloc();
    let mut node = opened(alloc, MemKeeper::new(alloc, 1), 1)?;
    assert!(rt; makes(alloc, &mut node, first(1)));
    assert!(rt; makes(alloc, &mut node, SECOND));
    assert!(rt; is_opened(alloc, &mut node));
    Ok(())
}
