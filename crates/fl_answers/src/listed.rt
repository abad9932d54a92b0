//! Lists in braces. Writing takes no memory but the sink's. At a fault a front of what waited and
//! of the list was written, and the sink may not be used again.
ghost use Rattle.std.specs.Prelude.{◌++◌, ◌∷◌, OnErr};
ghost use Rattle.std.specs.List.{flat_map};
ghost use Rattle.fl_labels.specs.Text.{braces, caps_text, label_text};
ghost use Rattle.fl_sink.specs.Sink.{Puts};

use crate::text::{put_cap, put_name};
use fl_labels::cap::Cap;
use fl_labels::cap_set::CapSet;
use fl_labels::label::Label;
use fl_labels::name::Name;
use fl_sink::sink::{Sink, WriteFault};
use fl_sink::writer::Writer;

/// What lists in braces are written of.
pub trait Listed {
    ghost use Rattle.std.specs.Prelude.{◌++◌, ℕ, List, OnErr};
    ghost use Rattle.fl_sink.specs.Sink.{Puts};

    ghost text: { Self → List ℕ };

    /// Puts these bytes and its text into the sink.
    fn put_behind<W: Writer>(
        &self,
        front: &[u8],
        sink: &mut Sink,
        output: &mut W,
    ) -> Result<(), WriteFault>
        ensures puts { let text = front.now ++ text self.now in
            Puts (W.contents output.old) (W.contents output.new) sink.old text sink.new result }
        ensures cause { OnErr result (W.has_failed output.new) };
}

impl Listed for Cap {
    ghost use Rattle.fl_labels.specs.Text.{cap_text};

    ghost text = { cap_text };

    fn put_behind<W: Writer>(
        &self,
        front: &[u8],
        sink: &mut Sink,
        output: &mut W,
    ) -> Result<(), WriteFault> {
        put_cap(front, *self, sink, output)
    }
}

impl Listed for Name {
    ghost use Rattle.fl_labels.specs.Text.{name_text};

    ghost text = { name_text };

    fn put_behind<W: Writer>(
        &self,
        front: &[u8],
        sink: &mut Sink,
        output: &mut W,
    ) -> Result<(), WriteFault> {
        put_name(front, *self, sink, output)
    }
}

// Items, each after a comma.
fn put_more<T: Listed, W: Writer>(
    items: &[T],
    sink: &mut Sink,
    output: &mut W,
) -> Result<(), WriteFault>
    ensures puts { let text = flat_map (λ item. 44 ∷ T.text item) items.now in
        Puts (W.contents output.old) (W.contents output.new) sink.old text sink.new result }
    ensures cause { OnErr result (W.has_failed output.new) }
{
    for item in items {
        item.put_behind(b",", sink, output)?;
    }
    Ok(())
}

/// Puts items in braces into the sink, in this order.
pub fn put_items<T: Listed, W: Writer>(
    items: &[T],
    sink: &mut Sink,
    output: &mut W,
) -> Result<(), WriteFault>
    ensures puts { let text = braces T.text items.now in
        Puts (W.contents output.old) (W.contents output.new) sink.old text sink.new result }
    ensures cause { OnErr result (W.has_failed output.new) }
{
    match items.split_first() {
        None => sink.put(output, b"{}"),
        Some((first, rest)) => {
            first.put_behind(b"{", sink, output)?;
            put_more(rest, sink, output)?;
            sink.put(output, b"}")
        }
    }
}

/// Puts capabilities in braces into the sink, as these rise.
pub fn put_caps<W: Writer>(caps: &CapSet, sink: &mut Sink, output: &mut W) -> Result<(), WriteFault>
    ensures puts { let text = caps_text caps.now in
        Puts (W.contents output.old) (W.contents output.new) sink.old text sink.new result }
    ensures cause { OnErr result (W.has_failed output.new) }
{
    put_items(caps.as_slice(), sink, output)
}

/// Puts the tags of a label in braces into the sink, as these rise.
pub fn put_label<W: Writer>(
    label: &Label,
    sink: &mut Sink,
    output: &mut W,
) -> Result<(), WriteFault>
    ensures puts { let text = label_text label.now in
        Puts (W.contents output.old) (W.contents output.new) sink.old text sink.new result }
    ensures cause { OnErr result (W.has_failed output.new) }
{
    put_items(label.as_slice(), sink, output)
}
