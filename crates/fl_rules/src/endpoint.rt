//! When an endpoint of a process is safe.
ghost use Rattle.std.specs.Prelude.{◌≡◌, Some};
ghost use Rattle.fl_labels.specs.Name.{name_cmp};
ghost use Rattle.fl_labels.specs.declared.cap.Cap.TheVariants.{Minus};
ghost use Rattle.fl_labels.specs.SetBy.{IsMissing};
ghost use Rattle.fl_labels.specs.Found.{Found, Finds};
ghost use Rattle.fl_labels.specs.parts.First.{lesser_of};
ghost use Rattle.fl_labels.specs.Caps.{Dual};
ghost use Rattle.fl_rules.specs.Judges.{Judges};
ghost use Rattle.fl_rules.specs.Labels.{sets_of};
ghost use Rattle.fl_rules.specs.Endpoint.{reads, writes, Loosens, Crosses, SafeEndpoint};

use crate::has::{Has, has_both};
use crate::labels::LabelsRef;
use crate::walk::split_loss;
use fl_labels::cap::Cap;
use fl_labels::label::Label;
use fl_labels::name::Name;

/// Which way messages go through an endpoint.
#[derive(Clone, Copy, Debug, PartialEq, Eq)]
pub enum Mode {
    /// To the process.
    Read,
    /// From the process.
    Write,
    /// Either way.
    Both,
}

impl Mode {
    /// Whether messages go to the process.
    pub fn reads(self) -> bool
        ensures { result ≡ reads self }
    {
        match self {
            Mode::Read | Mode::Both => true,
            Mode::Write => false,
        }
    }

    /// Whether messages go from the process.
    pub fn writes(self) -> bool
        ensures { result ≡ writes self }
    {
        match self {
            Mode::Write | Mode::Both => true,
            Mode::Read => false,
        }
    }
}

// The tag of a step that loses one.
fn tag_lost(cap: Option<Cap>) -> Option<Name>
    ensures { Finds result (λ tag. cap ≡ Some (Minus tag)) }
{
    match cap {
        Some(Cap::Minus(tag)) => Some(tag),
        _ => None,
    }
}

// The least tag of the first label that the second lacks and that may not be both added and
// removed.
fn first_lost<H: Has>(has: &mut H, from: &Label, to: &Label) -> Option<Name>
    ensures found { Found name_cmp (IsMissing from.now to.now) (Dual (H.effective has.old)) result }
    ensures same { H.keeps has.old has.new }
{
    let mut old = from.as_slice();
    let mut new = to.as_slice();
    while let Some(step) = split_loss(old, new) {
        if let Some(tag) = tag_lost(step.cap) {
            if !has_both(has, tag) {
                return Some(tag);
            }
        }
        old = step.from;
        new = step.to;
    }
    None
}

// The lesser of two tags, where they are there.
fn lesser(a: Option<Name>, b: Option<Name>) -> Option<Name>
    ensures { result ≡ lesser_of name_cmp a b }
{
    match (a, b) {
        (Some(a), Some(b)) => Some(if b.cmp(&a).is_lt() { b } else { a }),
        (Some(a), None) => Some(a),
        (None, b) => b,
    }
}

// The least tag of secrecy lost, or of integrity gained, on the way from the first labels to the
// second, that may not be both added and removed.
fn first_loosened<H: Has>(has: &mut H, from: LabelsRef<'_>, to: LabelsRef<'_>) -> Option<Name>
    ensures found { let D = Dual (H.effective has.old) in
        Found name_cmp (Loosens (sets_of from.entry) (sets_of to.entry)) D result }
    ensures same { H.keeps has.old has.new }
{
    let lost = first_lost(has, from.secrecy, to.secrecy);
    let gained = first_lost(has, to.integrity, from.integrity);
    lesser(lost, gained)
}

/// The least tag, over all differences that the mode looks at, that may not be both added and
/// removed, or none where an endpoint with these labels is safe beside those of its process. At
/// most four walks, each along two labels. Takes no memory.
pub fn safe_endpoint<H: Has>(
    has: &mut H,
    mode: Mode,
    process: LabelsRef<'_>,
    endpoint: LabelsRef<'_>,
) -> Option<Name>
    ensures found { let E = H.effective has.old in
        let p = sets_of process.entry in let e = sets_of endpoint.entry in
        Judges name_cmp (SafeEndpoint E mode p e) (Crosses mode p e) (Dual E) result }
    ensures same { H.keeps has.old has.new }
{
    match mode {
        Mode::Read => first_loosened(has, endpoint, process),
        Mode::Write => first_loosened(has, process, endpoint),
        Mode::Both => {
            let read = first_loosened(has, endpoint, process);
            let written = first_loosened(has, process, endpoint);
            lesser(read, written)
        }
    }
}
