//! What a node lets be seen of itself, whether it runs or not.
ghost use Rattle.std.specs.Prelude.{◌≡◌, ◌<◌, length};

use crate::node::Node;
use fl_labels::name::NodeNumber;
use fl_store::keeper::Keeper;
use fl_system::state::State;

impl<K: Keeper> Node<K> {
    /// The node's number, which is not 0.
    pub fn number(&self) -> NodeNumber
        ensures number { result ≡ self.now.node.number }
        ensures positive { 0 < result }
    {
        self.number
    }

    /// How many desks the node has.
    pub fn desks(&self) -> u8
        ensures { length self.now.node.views ≡ result }
    {
        self.listing.desks()
    }

    /// How often the node was opened, this time too.
    pub fn boot(&self) -> u32
        ensures boot { result ≡ self.now.node.boot }
        ensures positive { 0 < result }
    {
        self.boot
    }

    /// Whether the node runs, and what is on its way.
    pub fn state(&self) -> &State
        ensures { result.now ≡ self.now.node.state }
    {
        &self.state
    }
}
