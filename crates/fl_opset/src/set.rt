//! Sets of operations, by the node that made them.
ghost use Rattle.std.specs.Prelude.{◌≡◌, ◌≢◌, ◌≤◌, ◌<◌, ◌↔◌, IsTrue, IfOk, IfSome, IfNone, OnOk, OnErr, false, not, ◌&&◌, is_ok, length, take};
ghost use Rattle.std.specs.List.{Contains};
ghost use Rattle.std.specs.List.Sorted.{IsStrictlySortedBy};
ghost use Rattle.fl_labels.specs.Found.{Tells, Within};
ghost use Rattle.fl_labels.specs.SetBy as set;
ghost use Rattle.fl_labels.specs.SetBy.{In};
ghost use Rattle.fl_ops.specs.declared.op.Op.{Op};
ghost use Rattle.fl_ops.specs.OpOrder.{op_cmp};
ghost use Rattle.fl_ops.specs.Registry.{Listed};
ghost use Rattle.fl_ops.specs.Logins.{FindsLogin};
ghost use Rattle.fl_sink.specs.Sink.{Puts, Writes};
ghost use Rattle.fl_opset.specs.ByNode.{all_ops, AreByNode};
ghost use Rattle.fl_opset.specs.RegistryText.{registry_text};
ghost use Rattle.fl_opset.specs.Windows.{AreWindows, lacking};
ghost use Rattle.fl_opset.specs.Without.{without};

use crate::batch::OpBatch;
use crate::intervals::Intervals;
use crate::joining::{by_node_of, merge_nodes_counted};
use crate::node_ops::{NodeOps, entry, find, last_node, ops_of};
use crate::search::{first_login, has_other, place_of};
use crate::span::Span;
use crate::spans::{add_name, remove_name};
use crate::walks::{
    add_near_names, append_to, copy_of, has_each, lacking_of, spans_of, write_lines,
    write_lines_but,
};
use crate::windows::windows_of;
use fl_labels::cap::Cap;
use fl_labels::name::{Name, NodeNumber};
use fl_ops::digest::Digest;
use fl_ops::op::Op;
use fl_sink::sink::{Sink, WriteFault};
use fl_sink::writer::Writer;
use std::alloc::{AllocError, Global};
use std::marker::Model;

/// A set of operations. Two members may have one name.
#[derive(Debug, Drop)]
pub struct OpSet {
    // By the number of the node. Some may have no operation.
    nodes: Vec<NodeOps>,
    // Of all operations.
    count: usize,
    // Those of the members' names, where they are known: there was memory for them.
    spans: Vec<Span>,
    known: bool,
}

impl Model for OpSet {
    ghost use Rattle.fl_labels.specs.SetBy as set;
    ghost use Rattle.fl_ops.specs.OpOrder.{op_cmp};
    ghost use Rattle.fl_ops.specs.OpLaws.{coded_op};
    ghost use Rattle.fl_opset.specs.ByNode.{all_ops};
    ghost use Rattle.fl_opset.specs.parts.Kept.{AreKeptByNode};

    ghost Value = { set.SetBy op_cmp };

    ghost coded = { set.code coded_op };

    ghost view = { λ a. set.of_list (all_ops a.nodes.items) };

    ghost invariant = { λ a. AreKeptByNode a.nodes.items a.count a.spans.items a.known };
}

// Whether spans that were known or not are known after a change, which may have had no memory.
fn still_known(known: bool, change: Result<(), AllocError>) -> bool
    ensures { result ≡ (known && is_ok change) }
{
    known && change.is_ok()
}

impl OpSet {
    /// The set of nothing. Takes no memory.
    pub fn new(alloc: Global) -> Self
        ensures { result ≡ set.empty }
    {
        OpSet {
            nodes: Vec::new(alloc),
            count: 0,
            spans: Vec::new(alloc),
            known: true,
        }
    }

    /// The same set again. Fails only where it has a member, and there is not enough memory.
    pub fn copy(&self, alloc: Global) -> Result<Self, AllocError>
        ensures ok { IfOk result (λ made. made ≡ self.now) }
        ensures wants { OnErr result (0 < set.len self.now) }
    {
        if self.count == 0 {
            return Ok(OpSet::new(alloc));
        }
        let nodes = copy_of(alloc, &self.nodes)?;
        let spans = Vec::from_slice(alloc, &self.spans)?;
        Ok(OpSet {
            nodes,
            count: self.count,
            spans,
            known: self.known,
        })
    }

    /// How many members there are.
    pub fn len(&self) -> usize
        ensures { result ≡ set.len self.now }
    {
        self.count
    }

    /// Whether there is no operation.
    pub fn is_empty(&self) -> bool
        ensures { IsTrue result ↔ (set.len self.now ≡ 0) }
    {
        self.count == 0
    }

    /// The members by node: what each node made, by rising numbers. Some may have none.
    pub fn by_node(&self) -> &[NodeOps]
        ensures whole { all_ops result.now ≡ set.members self.now }
        ensures by_node { AreByNode result.now }
    {
        &self.nodes
    }

    /// The members, rising, in one piece. Copies them. An error says that there was no memory for
    /// them, and comes only where there is a member.
    pub fn to_vec(&self, alloc: Global) -> Result<Vec<Op>, AllocError>
        ensures ok { IfOk result (λ ops. ops.items ≡ set.members self.now) }
        ensures wants { OnErr result (0 < set.len self.now) }
    {
        let mut ops = Vec::with_capacity(alloc, self.count)?;
        append_to(&self.nodes, &mut ops)?;
        Ok(ops)
    }

    /// The operations of one node number, rising. A binary search among the nodes, or a comparison
    /// where it is the last of them; so is every search for a node.
    pub fn of_node(&self, node: NodeNumber) -> &[Op]
        ensures rise { IsStrictlySortedBy op_cmp result.now }
        ensures only { (op : Op) → Contains result.now op → In self.now op × (op.name.node ≡ node) }
        ensures all { (op : Op) → In self.now op → op.name.node ≡ node → Contains result.now op }
    {
        ops_of(&self.nodes, node)
    }

    /// The greatest number of a node that made a member, or none. Passes over the nodes above it
    /// whose members were all taken out.
    pub fn last_node(&self) -> Option<NodeNumber>
        ensures some { IfSome result (λ last. ((op : Op) → In self.now op → op.name.node ≤ last)
            × ((op : Op) × In self.now op × (op.name.node ≡ last))) }
        ensures none { IfNone result (self.now ≡ set.empty) }
    {
        last_node(&self.nodes)
    }

    /// Whether the operation is a member. A search for its node, and a binary search among the
    /// members of that.
    pub fn contains(&self, op: &Op) -> bool
        ensures { result ≡ set.contains self.now op.now }
    {
        self.of_node(op.name.node).binary_search(op).is_ok()
    }

    /// The greatest sequence number of the node's members, or 0 where it has none. A search for the
    /// node.
    pub fn last_of(&self, node: NodeNumber) -> u32
        ensures upper { (op : Op) → In self.now op → op.name.node ≡ node → op.name.seq ≤ result }
        ensures reached { 0 < result
            → (op : Op) × In self.now op × (op.name.node ≡ node) × (op.name.seq ≡ result) }
    {
        match self.of_node(node).last() {
            Some(last) => last.name.seq,
            None => 0,
        }
    }

    /// The name of the operation, where a member has that name and another body. Searches as
    /// [`OpSet::contains`] does; takes no memory.
    pub fn clash(&self, op: &Op) -> Option<Name>
        ensures some { IfSome result (λ name. (name ≡ op.now.name)
            × ((other : Op) × In self.now other × (other.name ≡ name) × (other ≢ op.now))) }
        ensures none { IfNone result
            ((other : Op) → In self.now other → other.name ≡ op.now.name → other ≡ op.now) }
    {
        has_other(self.of_node(op.name.node), op).then_some(op.name)
    }

    /// The least login of this name, as its capability and the digest of its secret, or none.
    /// Searches as [`OpSet::contains`] does; takes no memory.
    pub fn first_login(&self, name: Name) -> Option<(Cap, Digest)>
        ensures { FindsLogin (In self.now) name result }
    {
        first_login(self.of_node(name.node), name)
    }

    /// Adds an operation, and answers whether it is new. Only a new one can fail: where there is no
    /// memory, or there are as many members as a `usize` counts. An error leaves the set.
    ///
    /// A search for its node. One above all members of that is compared with the last of them
    /// alone, and none moves; else a binary search among them, and those above it move. The members
    /// of other nodes never do: the first of a node moves what stands for each node above it, of
    /// one size whatever that made. The spans of the names are kept at the cost of a binary search
    /// among them, or of a comparison where the last one grows. That never fails: where there is no
    /// memory for one, they are not known until the next merge.
    pub fn add(&mut self, op: Op) -> Result<bool, AllocError>
        ensures ok { OnOk result (self.new ≡ set.insert self.old op) }
        ensures new { IfOk result (λ new. new ≡ not (set.contains self.old op)) }
        ensures err { OnErr result (self.new ≡ self.old) }
        ensures err_only_new { OnErr result (set.contains self.old op ≡ false) }
    {
        let alloc = *self.nodes.allocator();
        let at = entry(&mut self.nodes, alloc, op.name.node)?;
        let ops = &mut self.nodes[at].ops;
        let Err(place) = place_of(ops, &op) else {
            return Ok(false);
        };
        let Some(count) = self.count.checked_add(1) else {
            return Err(AllocError);
        };
        ops.insert(place, op)?;
        self.count = count;
        let added = add_name(&mut self.spans, op.name);
        self.known = still_known(self.known, added);
        Ok(true)
    }

    /// Takes an operation out, and answers whether it was a member. Takes no memory, and gives none
    /// back. The members of its node above it move, and the spans are kept as [`OpSet::add`] keeps
    /// them. The node stays in [`OpSet::by_node`], also where this was its only member.
    pub fn remove(&mut self, op: &Op) -> bool
        ensures after { self.new ≡ set.remove self.old op.now }
        ensures was { result ≡ set.contains self.old op.now }
    {
        let Ok(at) = find(&self.nodes, op.name.node) else {
            return false;
        };
        let ops = &mut self.nodes[at].ops;
        let Ok(place) = place_of(ops, op) else {
            return false;
        };
        let shared = has_other(ops, op);
        ops.remove(place);
        self.count -= 1;
        if !shared {
            let removed = remove_name(&mut self.spans, op.name);
            self.known = still_known(self.known, removed);
        }
        true
    }

    /// Whether each member of the other is one of this set. A search for each node of the other,
    /// and a walk along what both have of it; takes no memory.
    pub fn has_each(&self, other: &OpSet) -> bool
        ensures { Tells result (Within (In other.now) (In self.now)) }
    {
        has_each(&self.nodes, &other.nodes)
    }

    /// Adds the members of another set; operations of one name all stay. Fails only where one of
    /// them is new, and there is not enough memory, or both sets have more members than a `usize`
    /// counts; and then leaves the set.
    ///
    /// The members of a node that the other has none of stay as they are. Where no member of a node
    /// is among the other's or between two of them, they are copied in where they fit: at the cost
    /// of a comparison above all members of that node, else of a binary search, and those above
    /// them move once. Else what both have of the node is walked once, into a new vector, or is
    /// sorted in place where there is no memory for that.
    ///
    /// The spans of their names are kept as [`OpSet::add`] keeps each. Where that could move more
    /// spans than there are members, or they were not known, or memory for one is refused, one walk
    /// finds them again. Where memory for the members is refused, a walk along both tells whether
    /// one is new.
    pub fn merge(&mut self, other: &OpSet) -> Result<(), AllocError>
        ensures ok { OnOk result (self.new ≡ set.union self.old other.now) }
        ensures err { OnErr result (self.new ≡ self.old) }
        ensures new { OnErr result (¬ Within (In other.now) (In self.old)) }
    {
        self.merge_counted(&other.nodes, other.count)
    }

    /// Adds the operations of a batch, as [`OpSet::merge`] adds those of a set. They are copied
    /// twice, the first time to part them by node.
    pub fn merge_batch(&mut self, batch: &OpBatch) -> Result<(), AllocError>
        ensures ok { OnOk result (self.new ≡ set.union self.old batch.now) }
        ensures err { OnErr result (self.new ≡ self.old) }
        ensures new { OnErr result (¬ Within (In batch.now) (In self.old)) }
    {
        let Ok(nodes) = by_node_of(*self.nodes.allocator(), batch.as_slice()) else {
            if self.has_all(batch.as_slice()) {
                return Ok(());
            }
            return Err(AllocError);
        };
        self.merge_counted(&nodes, batch.len())
    }

    // Whether each of the operations is a member.
    fn has_all(&self, ops: &[Op]) -> bool
        ensures { Tells result (Within (Listed ops.now) (In self.now)) }
    {
        for op in ops {
            if !self.contains(op) {
                return false;
            }
        }
        true
    }

    // Adds operations by node, of which there are so many.
    fn merge_counted(&mut self, others: &[NodeOps], more: usize) -> Result<(), AllocError>
        requires by_node { AreByNode others.now }
        requires counted { more ≡ length (all_ops others.now) }
        ensures ok { OnOk result
            (self.new ≡ set.union self.old (set.of_list (all_ops others.now))) }
        ensures err { OnErr result (self.new ≡ self.old) }
        ensures new { OnErr result
            (¬ Within (In (set.of_list {R = op_cmp} (all_ops others.now))) (In self.old)) }
    {
        let Ok(count) = merge_nodes_counted(&mut self.nodes, self.count, others, more) else {
            if has_each(&self.nodes, others) {
                return Ok(());
            }
            return Err(AllocError);
        };
        self.count = count;
        let added = add_near_names(&mut self.spans, others, count);
        self.known = still_known(self.known, added);
        self.find_spans();
        Ok(())
    }

    // Walks the members for their spans, once, where they are not known. Without memory for them
    // they stay so.
    fn find_spans(&mut self)
        ensures { self.new ≡ self.old }
    {
        if self.known {
            return;
        }
        let Ok(spans) = spans_of(*self.nodes.allocator(), &self.nodes) else {
            return;
        };
        self.spans = spans;
        self.known = true;
    }

    /// What names the members have, as windows that cover all names: each with at most 512 spans,
    /// all but the last with just so many. Copies the spans, and walks no member; where there was
    /// no memory to keep the spans, it walks all of them, once. Always takes memory, of a set of
    /// nothing too, whose one window has no span; an error says that there was none for the windows.
    pub fn have(&self, alloc: Global) -> Result<Vec<Intervals>, AllocError>
        ensures { IfOk result (λ windows. AreWindows (In self.now) windows.items) }
    {
        if self.known {
            return windows_of(alloc, &self.spans);
        }
        let spans = spans_of(alloc, &self.nodes)?;
        windows_of(alloc, &spans)
    }

    /// The first members whose name is in the window and in none of its spans, rising: as many as
    /// are wanted at most. Two binary searches find the nodes of the window. No member of another
    /// node is looked at, nor of a node behind that of the last one it answers. Of each it finds
    /// the window by searches in steps that double, walks no further than it, searches twice for
    /// each span, by the logarithm of the members in it, until it has as many as are wanted, and is
    /// then linear in what it answers, and copies that alone. An error says that there was no
    /// memory for it, and comes only where it would answer something.
    pub fn lacking(
        &self,
        alloc: Global,
        window: &Intervals,
        most: usize,
    ) -> Result<Vec<Op>, AllocError>
        ensures ok { IfOk result (λ ops. ops.items ≡ take most (lacking self.now window.now)) }
        ensures wants { OnErr result (0 < length (take most (lacking self.now window.now))) }
    {
        lacking_of(alloc, &self.nodes, window, most)
    }

    /// Puts the text of the members into a sink, a line for each, rising: `1.1 tag export`, `1.2
    /// group`. Takes no memory but the sink's.
    ///
    /// At a fault a front of what waited and the text was written, and the sink may not be used
    /// again.
    pub fn write_text<W: Writer>(&self, sink: &mut Sink, output: &mut W) -> Result<(), WriteFault>
        ensures puts { let text = registry_text self.now in
            Puts (W.contents output.old) (W.contents output.new) sink.old text sink.new result }
        ensures cause { OnErr result (W.has_failed output.new) }
    {
        write_lines(&self.nodes, sink, output)
    }

    /// Puts the text of the members into a sink, but of those, as [`OpSet::write_text`] has it.
    /// Compares each member with each of those.
    pub fn write_text_but<W: Writer>(
        &self,
        those: &[Op],
        sink: &mut Sink,
        output: &mut W,
    ) -> Result<(), WriteFault>
        ensures puts { let text = registry_text (without self.now those.now) in
            Puts (W.contents output.old) (W.contents output.new) sink.old text sink.new result }
        ensures cause { OnErr result (W.has_failed output.new) }
    {
        write_lines_but(&self.nodes, those, sink, output)
    }

    /// Writes the text of the members, but of those, as [`OpSet::write_text_but`] has it. At a
    /// fault a front of it was written.
    pub fn text_but<W: Writer>(&self, those: &[Op], output: &mut W) -> Result<(), WriteFault>
        ensures writes { let text = registry_text (without self.now those.now) in
            Writes (W.contents output.old) (W.contents output.new) text result }
        ensures cause { OnErr result (W.has_failed output.new) }
    {
        let mut sink = Sink::new(*self.nodes.allocator());
        self.write_text_but(those, &mut sink, output)?;
        sink.finish(output)
    }

    /// Writes the text of the members, as [`OpSet::write_text`] has it. At a fault a front of it
    /// was written.
    pub fn text<W: Writer>(&self, output: &mut W) -> Result<(), WriteFault>
        ensures writes { Writes (W.contents output.old) (W.contents output.new)
            (registry_text self.now) result }
        ensures cause { OnErr result (W.has_failed output.new) }
    {
        let mut sink = Sink::new(*self.nodes.allocator());
        self.write_text(&mut sink, output)?;
        sink.finish(output)
    }
}
