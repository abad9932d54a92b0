//! Tests of keepers that break, and of nodes that are opened again.
ghost use Rattle.std.specs.Prelude.{◌<◌};

use crate::opened::{first, given, makes, opened};
use fl_jobs::answer::Refusal;
use fl_labels::name::Name;
use fl_node::node::Node;
use fl_ops::op::Body;
use fl_store::mem::MemKeeper;
use fl_system::answer::Fault;
use std::alloc::Global;
use std::test::Fail;

const FIRST: Name = Name { node: 1, seq: 1 };

const SECOND: Name = Name { node: 1, seq: 2 };

// Whether the node makes a process since this boot, which begins a group of this name.
fn begins(alloc: Global, node: &mut Node<MemKeeper>, boot: u32, name: Name) -> bool {
    makes(alloc, node, first(boot)) && node.begin(Body::MakeGroup, Some(first(boot))) == Ok(name)
}

// A node with a process that begins a group. Its keeper breaks at its second save.
fn begun(alloc: Global, keeps: bool) -> Result<Node<MemKeeper>, Fail> {
    let mut keeper = MemKeeper::new(alloc, 1);
    keeper.break_at(2, keeps);
    let mut node = opened(alloc, keeper, 1)?;
    if begins(alloc, &mut node, 1, FIRST) {
        Ok(node)
    } else {
        Err(Fail::from("no group is begun"))
    }
}

// Of the node above: its group is published, and its keeper breaks as it saves another.
fn breaks(alloc: Global, node: &mut Node<MemKeeper>) -> Result<bool, Fail> {
    given(node.save())?;
    let count = given(node.publish(alloc))?;
    let name = given(node.begin(Body::MakeGroup, Some(first(1))))?;
    Ok(count == 1 && name == SECOND && node.save() == Err(Fault::KeeperFailed))
}

// Whether the node goes on after the group, with a process of its second boot.
fn goes_on(alloc: Global, node: &mut Node<MemKeeper>) -> Result<bool, Fail> {
    let mut text = Vec::new(alloc);
    given(node.text(&mut text))??;
    Ok(text.as_slice() == b"1.1 group\n".as_slice() && begins(alloc, node, 2, SECOND))
}

#[test]
fn reopened_after_a_break(rt: HostRuntime) -> Result<(), Fail> {
    let alloc = rt.alloc();
    let node = begun(alloc, false)?;
    let (mut node, boot) = node.reopen(alloc, |keeper: MemKeeper| keeper.mend());
    assert!(rt; boot == Err(Fault::Refused(Refusal::Busy)));
    assert!(rt; breaks(alloc, &mut node)?);
    let (mut node, boot) = node.reopen(alloc, |keeper: MemKeeper| keeper.mend());
    assert!(rt; boot == Ok(2));
    assert!(rt; goes_on(alloc, &mut node)?);
    Ok(())
}

// Whether the node is stopped, and says nothing.
fn is_silent(alloc: Global, node: &Node<MemKeeper>) -> bool {
    let mut text = Vec::new(alloc);
    node.text(&mut text) == Err(Fault::Stopped) && text.is_empty()
}

#[test]
fn reopened_with_what_was_in_doubt(rt: HostRuntime) -> Result<(), Fail> {
    let alloc = rt.alloc();
    let mut node = begun(alloc, true)?;
    assert!(rt; breaks(alloc, &mut node)?);
    let empty = MemKeeper::new(alloc, 1);
    let (node, boot) = node.reopen(alloc, |_| empty);
    assert!(rt; boot == Err(Fault::WrongNode));
    let (node, boot) = node.restart(alloc, false);
    assert!(rt; boot == Err(Fault::WrongNode));
    assert!(rt; is_silent(alloc, &node));
    Ok(())
}
