//! Windows that have what their node never saved.
ghost use Rattle.std.specs.Prelude.{◌≡◌, ◌≤◌, ◌<◌, ◌+◌, length, get_or, ℕ};
ghost use Rattle.std.specs.List.{All};
ghost use Rattle.fl_labels.specs.SetBy.{In};
ghost use Rattle.fl_ops.specs.declared.op.Op.{Op};
ghost use Rattle.fl_opset.specs.Catching.{HaveNoClash};
ghost use Rattle.fl_gossip.specs.Meeting.{FindsLeast};
ghost use Rattle.fl_sealed_packets.specs.Ours.{IsNotOurs};
ghost use Rattle.fl_sealed_packets.specs.parts.Rows.{IsMissing, RiseByNumber};

use fl_labels::name::{Name, NodeNumber};
use fl_ops::op::Op;
use fl_opset::intervals::Intervals;
use fl_opset::set::OpSet;
use fl_opset::span::Span;

// How many of the operations, at their front, have the numbers from this one on in a row. A binary
// search: behind the first that has not its number in the row none has, since they rise.
fn in_a_row(ops: &[Op], from: u32) -> usize
    requires rise { RiseByNumber ops.now }
    requires above { All (λ op. from ≤ op.name.seq) ops.now }
    ensures inside { result ≤ length ops.now }
    ensures row { (k : ℕ) (d : Op) → k < result → (get_or ops.now k d).name.seq ≡ from + k }
    ensures others { (k : ℕ) (d : Op) → result ≤ k → k < length ops.now
        → from + k < (get_or ops.now k d).name.seq }
{
    let mut low = 0;
    let mut high = ops.len();
    while low < high {
        let middle = low + (high - low) / 2;
        if (ops[middle].name.seq - from) as usize == middle {
            low = middle + 1;
        } else {
            high = middle;
        }
    }
    low
}

// The least name of the span that none of the operations, which are of its node, has.
fn least_missing(span: &Span, ops: &[Op]) -> Option<Name>
    requires rise { RiseByNumber ops.now }
    requires node { All (λ op. op.name.node ≡ span.now.first.node) ops.now }
    ensures { FindsLeast (IsMissing span.now ops.now) result }
{
    let first = span.first.seq;
    let (_, ops) = ops.split_at(ops.partition_point(|op| op.name.seq < first));
    let row = in_a_row(ops, first);
    if row > (span.last - first) as usize {
        return None;
    }
    Some(Name {
        node: span.first.node,
        seq: first + row as u32,
    })
}

/// The least name of this number that the window has and that no operation of the set has, or none.
/// The set has each name once. Who sent such a window to the node of that number has an operation
/// of another node that has the number too, or the node has lost it. Two binary searches for each
/// span of that number, up to the first of which a name is missing, and a look at each other span;
/// takes no memory.
pub fn least_not_ours(number: NodeNumber, saved: &OpSet, window: &Intervals) -> Option<Name>
    requires { HaveNoClash (In saved.now) (In saved.now) }
    ensures { FindsLeast (IsNotOurs number saved.now window.now) result }
{
    let ops = saved.of_node(number);
    let spans = window.spans.as_slice();
    for span in spans {
        if span.first.node == number {
            if let Some(name) = least_missing(span, ops) {
                return Some(name);
            }
        }
    }
    None
}
