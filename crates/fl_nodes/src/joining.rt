//! Nodes that join the others, and stopped ones that are opened over another keeper.
ghost use Rattle.std.specs.Prelude.{◌≡◌, ◌≢◌, ◌<◌, length, is_some, IsTrue, IfOk, IfErr, OnErr, OnOk};
ghost use Rattle.std.specs.Prelude.{None, Some, Err};
ghost use Rattle.std.specs.FinMap as map;
ghost use Rattle.std.specs.Fn.{FnOnceReturnsAtMut};
ghost use Rattle.fl_gossip.specs.Meeting.{FindsLeast};
ghost use Rattle.fl_jobs.specs.declared.answer.Refusal.TheVariants.{Memory};
ghost use Rattle.fl_system.specs.declared.answer.Fault.TheVariants as faults;
ghost use Rattle.fl_system.specs.declared.reply.Reply.TheVariants as replies;
ghost use Rattle.fl_system.specs.Joins.{IsClashAt, Reopening};
ghost use Rattle.fl_system.specs.Waiting.{IsRunning};
ghost use Rattle.fl_system.specs.World.{World};
ghost use Rattle.fl_store.specs.Breaking.{IsLeftBroken};
ghost use Rattle.fl_node.specs.Causes.{KeeperFails};
ghost use Rattle.fl_node.specs.Over.{NodeOver};
ghost use Rattle.fl_nodes.specs.Goes.{Goes};
ghost use Rattle.fl_nodes.specs.Failing.{FailsAt};
ghost use Rattle.fl_nodes.specs.Joining.{DoesJoin, DoesNotJoin, GivesBack, TakesIn, spare};
ghost use Rattle.fl_nodes.specs.Joining.{ReturnsOver, TakesOver};
ghost use Rattle.fl_nodes.specs.parts.Joined.{AreNodes, IsStrayWith};
ghost use Rattle.fl_nodes.specs.parts.Joined.{opened_reply, over_with};

use crate::highest::raised;
use crate::nodes::Nodes;
use fl_jobs::answer::Refusal;
use fl_joining::searching::{least_clash_with, least_stray_with};
use fl_labels::name::{Name, NodeNumber};
use fl_node::node::Node;
use fl_opset::set::OpSet;
use fl_store::keeper::Keeper;
use fl_system::answer::Fault;
use fl_system::reply::Reply;
use std::alloc::Global;

// What an opening is answered.
fn opened(outcome: Result<u32, Fault>) -> Reply
    ensures { result ≡ opened_reply outcome }
{
    match outcome {
        Ok(boot) => Reply::Booted(boot),
        Err(fault) => Reply::Refused(fault),
    }
}

impl<K: Keeper> Nodes<K> {
    // Whether a node of this number is there.
    fn has(&self, number: NodeNumber) -> bool
        ensures { result ≡ is_some (map.get self.now.nodes number) }
    {
        self.all.contains_key(&number)
    }

    // How many desks each node has.
    fn desks(&self) -> u8
        ensures desks { result ≡ self.now.desks }
        ensures some { 0 < result }
    {
        self.desks
    }

    // The least name under which an operation of the set and one of a node clash.
    fn clash(&self, saved: &OpSet) -> Option<Name>
        ensures { (w : World) → AreNodes self.now w → FindsLeast (IsClashAt w saved.now) result }
    {
        if saved.is_empty() {
            return None;
        }
        least_clash_with(&self.all, saved)
    }

    // The least name of an operation that comes with a newcomer of this number, which has saved
    // these, and that the node of its number has not saved; or of one of the newcomer's number that
    // is saved, though not by the newcomer.
    fn stray(&self, number: NodeNumber, saved: &OpSet) -> Option<Name>
        ensures { (w : World) → AreNodes self.now w
            → FindsLeast (IsStrayWith w number saved.now) result }
    {
        if saved.is_empty() && self.highest < number {
            return None;
        }
        least_stray_with(&self.all, number, saved)
    }

    // Takes a node in, under a number that is not there, or gives its keeper back for want of
    // memory.
    fn take_in(&mut self, number: NodeNumber, node: Node<K>) -> Result<(), (Fault, K)>
        requires absent { map.get self.old.nodes number ≡ None }
        requires desks { length node.node.views ≡ self.old.desks }
        ensures ok { OnOk result (self.new ≡ over_with self.old number node) }
        ensures fault { IfErr result (λ e. e.0 ≡ faults.Refused Memory) }
        ensures given { IfErr result (λ e. e.1 ≡ node.keeper) }
        ensures same { OnErr result (self.new ≡ self.old) }
    {
        let highest = raised(self.highest, node.saved());
        match self.all.insert(number, node) {
            Ok(None) => {
                self.highest = highest;
                Ok(())
            }
            Ok(Some(_other)) => unreachable!("the number is not there"),
            Err(failed) => {
                let (_, node) = failed.value;
                Err((Fault::Refused(Refusal::Memory), node.into_keeper()))
            }
        }
    }

    /// A node of this number joins the others over its keeper, and its boot is given; or the keeper
    /// comes back with the refusal, and the nodes are as before.
    ///
    /// - `WrongNode`: a node of this number is there, or the keeper is another node's.
    /// - `Clash`: something else is saved under one of its names, of which this is the least.
    /// - `Impostor`: an operation of this name, the least, is saved, though not by the node whose
    ///   number it has.
    /// - As `Node::open`, and `KeeperFailed` from nothing else; `Memory` too where there was no
    ///   room for one more node.
    ///
    /// That all that is saved here is saved by the node whose number it has, if that is there, is
    /// not looked at again: it is so in each world that a run leads to. A refused joining may have
    /// raised the boot, but where the number is a node's. Costs what the opening does. Where
    /// nothing is saved by the newcomer, and nothing by anyone with its number or a greater one, no
    /// other node is looked at; else, for each node that is there, a search for each operation of
    /// its set or the new one's, whichever has fewer with that operation's number, and one for each
    /// operation of the one that has the number of the other.
    pub fn join(&mut self, alloc: Global, number: NodeNumber, keeper: K) -> Result<u32, (Fault, K)>
        requires { 0 < number }
        ensures joins { IfOk result (λ boot. TakesIn K.custody self.old keeper self.new
            (DoesJoin number boot)) }
        ensures refused { IfErr result (λ e.
            GivesBack K.custody self.old keeper self.new e.1 (DoesNotJoin number e.0)) }
        ensures there { (n : NodeOver K) → map.get self.old.nodes number ≡ Some n
            → result ≡ Err (Fault.WrongNode, keeper) }
        ensures cause { let bad = K.custody.has_bad_row keeper in IfErr result (λ e.
            KeeperFails (IsLeftBroken K.custody keeper e.1) (K.custody.is_honest e.1) bad e.0) }
        ensures same { OnErr result (self.new ≡ self.old) }
    {
        if self.has(number) {
            return Err((Fault::WrongNode, keeper));
        }
        let node = Node::open(alloc, keeper, number, self.desks())?;
        if let Some(name) = self.clash(node.saved()) {
            return Err((Fault::Clash(name), node.into_keeper()));
        }
        if let Some(name) = self.stray(number, node.saved()) {
            return Err((Fault::Impostor(name), node.into_keeper()));
        }
        let boot = node.boot();
        self.take_in(number, node)?;
        Ok(boot)
    }

    /// Opens a stopped node again over another keeper, as `Node::reopen_over` has it, and answers
    /// its boot, or why not: `NoSuch` where it is not there, and `Busy` where it runs. Gives too
    /// the keeper that no node has then: the one that the stopped node had, or else the one that
    /// was handed in.
    pub fn reopen(&mut self, alloc: Global, number: NodeNumber, keeper: K) -> (Reply, K)
        ensures reopens { GivesBack K.custody self.old keeper self.new result.1
            (λ w k w' k'. Reopening w number k result.0 w') }
        ensures given { result.1 ≡ spare (map.get self.old.nodes number) keeper }
        ensures cause { result.0 ≡ Reply.Refused Fault.KeeperFailed
            → FailsAt K.custody (λ n. K.custody.has_bad_row keeper) self.old self.new number }
        ensures broken { (n : NodeOver K) → map.get self.old.nodes number ≡ Some n
            → (¬ IsRunning n.node.state) → IsTrue (K.custody.is_broken keeper)
            → K.custody.number keeper ≡ n.node.number
            → result.0 ≡ replies.Refused Fault.KeeperFailed }
        ensures other { (n : NodeOver K) → map.get self.old.nodes number ≡ Some n
            → (¬ IsRunning n.node.state) → K.custody.number keeper ≢ n.node.number
            → result.0 ≡ replies.Refused Fault.WrongNode }
    {
        let Some(node) = self.all.get_mut(&number) else {
            return (Reply::NoSuch, keeper);
        };
        let (result, given) = node.reopen_over(alloc, keeper);
        self.highest = raised(self.highest, node.saved());
        (opened(result), given)
    }

    /// Has the keeper of a stopped node changed, or another put in its place, and opens the node
    /// again over it, as `Node::reopen_with` has it. Answers its boot, or why not: `NoSuch` where
    /// it is not there, and `Busy` where it runs; then nothing is made, and the nodes are as
    /// before. After any other refusal the node stays stopped, over what was made.
    ///
    /// What is made is to be trusted no further than the keeper before it: as each call of a keeper
    /// has it, where it is honest then, that was honest before.
    pub fn reopen_with<F: FnOnce(&mut K)>(
        &mut self,
        alloc: Global,
        number: NodeNumber,
        make: F,
    ) -> Reply
        requires callable { F.IsAlwaysCallable make }
        requires trusted { (n : NodeOver K) (made : K) → map.get self.old.nodes number ≡ Some n
            → (¬ IsRunning n.node.state) → FnOnceReturnsAtMut F.FnOnce make n.keeper tt made
            → TakesOver K.custody n.keeper made }
        ensures absent { map.get self.old.nodes number ≡ None
            → (self.new ≡ self.old) × (result ≡ replies.NoSuch) }
        ensures running { (n : NodeOver K) → map.get self.old.nodes number ≡ Some n
            → IsRunning n.node.state
            → (self.new ≡ self.old) × (result ≡ replies.Refused (Fault.Refused Refusal.Busy)) }
        ensures stopped { (n : NodeOver K) → map.get self.old.nodes number ≡ Some n
            → (¬ IsRunning n.node.state)
            → (made : K) × FnOnceReturnsAtMut F.FnOnce make n.keeper tt made
            × Goes K.custody self.old self.new (ReturnsOver K.custody made number result) }
        ensures cause { result ≡ Reply.Refused Fault.KeeperFailed
            → FailsAt K.custody (λ n. (made : K)
            × FnOnceReturnsAtMut F.FnOnce make n.keeper tt made × K.custody.has_bad_row made)
            self.old self.new number }
        ensures broken { (n : NodeOver K) → map.get self.old.nodes number ≡ Some n
            → (¬ IsRunning n.node.state)
            → (made : K) × FnOnceReturnsAtMut F.FnOnce make n.keeper tt made
            × (IsTrue (K.custody.is_broken made) → K.custody.number made ≡ n.node.number
            → result ≡ replies.Refused Fault.KeeperFailed) }
        ensures other { (n : NodeOver K) → map.get self.old.nodes number ≡ Some n
            → (¬ IsRunning n.node.state)
            → (made : K) × FnOnceReturnsAtMut F.FnOnce make n.keeper tt made
            × (K.custody.number made ≢ n.node.number
            → result ≡ replies.Refused Fault.WrongNode) }
    {
        let Some(node) = self.all.get_mut(&number) else {
            return Reply::NoSuch;
        };
        let result = node.reopen_with(alloc, make);
        self.highest = raised(self.highest, node.saved());
        opened(result)
    }
}
