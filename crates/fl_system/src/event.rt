//! What happens to a world.

use fl_jobs::job::Job;
use fl_labels::name::NodeNumber;

/// One event of a world. Nodes are named by their numbers, packets by theirs, from 1 on.
#[derive(Drop)]
pub enum Event {
    /// A job at a desk of a node. The desk first looks at the node's list, up to this length.
    Job {
        node: NodeNumber,
        desk: u8,
        upto: u64,
        job: Job,
    },
    /// What is to be saved at the node is saved.
    Save(NodeNumber),
    /// What is saved at the node and due is published.
    Publish(NodeNumber),
    /// What is to be saved at the node is given up.
    Cancel(NodeNumber),
    /// The node is restarted. What is to be saved is saved first where it is to be kept, and else
    /// lost.
    Restart(NodeNumber, bool),
    /// The node sends windows of what it has saved.
    Tell(NodeNumber),
    /// A packet that was sent, whenever and by whomever, comes to a node.
    Deliver {
        packet: u64,
        node: NodeNumber,
    },
}
