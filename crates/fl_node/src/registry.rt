//! What a node has published, as a set: what is saved, but for what is due.
ghost use Rattle.std.specs.Prelude.{◌≡◌, ◌<◌, IfOk, IfErr, OnOk, OnErr, length};
ghost use Rattle.fl_labels.specs.SetBy as set;
ghost use Rattle.fl_opset.specs.RegistryText.{registry_text};
ghost use Rattle.fl_sink.specs.Sink.{Puts, Writes};
ghost use Rattle.fl_system.specs.Waiting.{IsRunning, NotRunning};
ghost use Rattle.fl_node.specs.Sound.{unpublished};

use crate::keeping::remove_all;
use crate::node::Node;
use crate::state::{ops_of_batch, running};
use fl_ops::op::Op;
use fl_opset::set::OpSet;
use fl_sink::sink::{Sink, WriteFault};
use fl_sink::writer::Writer;
use fl_store::keeper::Keeper;
use fl_system::answer::Fault;
use fl_system::state::{Pending, State};
use std::alloc::{AllocError, Global};
use std::io::Write;

// What is saved and not published.
fn due_ops(state: &State) -> &[Op]
    ensures { result.now ≡ unpublished state.now }
{
    match state {
        State::Running(Pending::Due(batch)) => ops_of_batch(batch),
        State::Running(Pending::Nothing) => &[],
        State::Running(Pending::Unsaved(_)) => &[],
        State::Stopped(_) => &[],
    }
}

impl<K: Keeper> Node<K> {
    /// That the node runs, or `Stopped`.
    pub fn runs(&self) -> Result<(), Fault>
        ensures ok { OnOk result (IsRunning self.now.node.state) }
        ensures err { IfErr result (λ fault. NotRunning self.now.node.state fault) }
    {
        running(&self.state)
    }

    /// Puts the text of the published operations of a node that runs into a sink, a line for each,
    /// rising: `1.1 tag export`, `1.2 group`. Takes no memory but the sink's. While something is
    /// due, each operation is compared with each of that.
    ///
    /// At a fault a front of what waited and the text was written, and the sink may not be used
    /// again.
    pub fn write_text<W: Writer>(&self, sink: &mut Sink, output: &mut W) -> Result<(), WriteFault>
        requires { IsRunning self.now.node.state }
        ensures puts { let text = registry_text (set.of_list self.now.node.published) in
            Puts (W.contents output.old) (W.contents output.new) sink.old text sink.new result }
        ensures cause { OnErr result (W.has_failed output.new) }
    {
        self.saved
            .write_text_but(due_ops(&self.state), sink, output)
    }

    /// Writes the text of the published operations, as [`Node::write_text`] has it. A stopped node
    /// answers `Stopped`, and writes nothing. At a fault of the writer a front of the text was
    /// written.
    pub fn text<W: Write>(&self, output: &mut W) -> Result<Result<(), WriteFault>, Fault>
        ensures running { IfOk result (λ written. IsRunning self.now.node.state) }
        ensures ok { let text = registry_text (set.of_list self.now.node.published) in
            IfOk result (λ written.
            Writes (W.contents output.old) (W.contents output.new) text written) }
        ensures err { IfErr result (λ fault. NotRunning self.now.node.state fault) }
        ensures nothing { OnErr result (W.contents output.new ≡ W.contents output.old) }
    {
        match running(&self.state) {
            Ok(()) => Ok(self.saved.text_but(due_ops(&self.state), output)),
            Err(fault) => Err(fault),
        }
    }

    /// Adds the published operations of a node that runs to a set. Wants memory only where there
    /// are some, and an error says that there was not enough. Costs what [`OpSet::merge`] does, and
    /// a copy of what is saved while something is due.
    pub fn add_to(&self, alloc: Global, all: &mut OpSet) -> Result<(), AllocError>
        requires { IsRunning self.now.node.state }
        ensures ok { let published = set.of_list self.now.node.published in
            OnOk result (all.new ≡ set.union all.old published) }
        ensures wants { OnErr result (0 < length self.now.node.published) }
    {
        if self.listing.list().is_empty() {
            return Ok(());
        }
        let due = due_ops(&self.state);
        if due.is_empty() {
            return all.merge(&self.saved);
        }
        let mut published = self.saved.copy(alloc)?;
        remove_all(&mut published, due);
        all.merge(&published)
    }
}
