//! The keepers of nodes that are served no longer.
ghost use Rattle.std.specs.Prelude.{◌≡◌, ◌<◌, None, IfNone, IfSome};
ghost use Rattle.std.specs.FinMap as map;
ghost use Rattle.fl_nodes.specs.Closing.{GivesOut};

use fl_labels::name::NodeNumber;
use fl_node::node::Node;
use fl_store::keeper::Keeper;
use std::collections::BTreeMap;
use std::marker::Model;

/// Nodes that are served no longer, of which each is to be closed for its keeper.
pub struct Keepers<K: Keeper> {
    pub(crate) all: BTreeMap<NodeNumber, Node<K>>,
}

impl<K: Keeper> Model for Keepers<K> {
    ghost use Rattle.std.specs.FinMap as map;
    ghost use Rattle.std.specs.Ordering.{nat_cmp};
    ghost use Rattle.std.specs.Coded.{coded_ℕ};
    ghost use Rattle.fl_node.specs.Over.{NodeOver, coded_over};

    ghost Value = { map.FinMap nat_cmp (NodeOver K) };

    ghost coded = { map.code coded_ℕ (coded_over K.code) };

    ghost view = { λ k. map.from_entries k.all.entries };
}

impl<K: Keeper + Drop> Drop for Keepers<K> {
    fn drop(self) {
        let Keepers { all: _ } = self;
    }
}

impl<K: Keeper> Keepers<K> {
    /// The keeper of a node, with the node's number, or none where no node is left: by rising
    /// numbers. What was on its way at the node, and its processes, are forgotten.
    pub fn pop(&mut self) -> Option<(NodeNumber, K)>
        ensures some { IfSome result (λ popped. GivesOut self.old self.new popped.0 popped.1) }
        ensures none { IfNone result (self.old ≡ map.empty) }
        ensures fewer { IfSome result (λ _. map.len self.new < map.len self.old) }
    {
        let (number, node) = self.all.pop_first()?;
        Some((number, node.into_keeper()))
    }
}
