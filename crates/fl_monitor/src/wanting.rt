//! Which capabilities are wanting for an act.
ghost use Rattle.std.specs.Prelude.{◌≡◌, IfOk, OnOk, OnErr};
ghost use Rattle.fl_labels.specs.Cap.{cap_cmp};
ghost use Rattle.fl_labels.specs.Name.{name_cmp};
ghost use Rattle.fl_labels.specs.SetBy as set;
ghost use Rattle.fl_labels.specs.SetBy.{In};
ghost use Rattle.fl_labels.specs.declared.cap.Cap.{Cap};
ghost use Rattle.fl_ops.specs.Registry.{Listed};
ghost use Rattle.fl_rules.specs.Safety.{Takes};
ghost use Rattle.fl_bench.specs.Foresight.{Both, Demands};
ghost use Rattle.fl_monitor.specs.Wanting.{AreAll, LacksBy};
ghost use Rattle.fl_monitor.specs.parts.Gathers.{Gathers, IsLacking, OfMissing, OrderDemands, signed};

use crate::holder::{Holder, Runs};
use crate::relabel::label_of;
use fl_bench::process::{Holding, Process};
use fl_bench::taken::Taken;
use fl_jobs::job::{Act, Mail, Order};
use fl_labels::cap::Cap;
use fl_labels::cap_set::CapSet;
use fl_labels::label::Label;
use fl_labels::name::Name;
use fl_ops::view::View;
use fl_rules::has::Has;
use fl_rules::labels::Labels;
use std::alloc::{AllocError, Global};

/// Which of the two capabilities of a tag.
#[derive(Clone, Copy, Debug)]
pub enum Sign {
    Plus,
    Minus,
}

impl Sign {
    // The capability of the tag that has this sign.
    fn of(self, tag: Name) -> Cap
        ensures { result ≡ signed self tag }
    {
        match self {
            Sign::Plus => Cap::Plus(tag),
            Sign::Minus => Cap::Minus(tag),
        }
    }
}

// Adds the capability where it is not in effect. Fails only where it is not, and there is not
// enough memory. One question.
fn note<H: Has>(has: &mut H, cap: Cap, wanting: &mut CapSet) -> Result<(), AllocError>
    ensures ok { let E = H.effective has.old in
        OnOk result (Gathers E (λ c. c ≡ cap) wanting.old wanting.new) }
    ensures err { OnErr result (¬ H.effective has.old cap) }
    ensures same { H.keeps has.old has.new }
{
    if !has.has(cap) {
        wanting.insert(cap)?;
    }
    Ok(())
}

// Adds those of these capabilities that are not in effect, as `note` does.
fn note_all<H: Has>(has: &mut H, caps: &[Cap], wanting: &mut CapSet) -> Result<(), AllocError>
    ensures ok { let E = H.effective has.old in
        OnOk result (Gathers E (In (set.of_list {R = cap_cmp} caps.now)) wanting.old wanting.new) }
    ensures err { let E = H.effective has.old in
        OnErr result (IsLacking E (In (set.of_list {R = cap_cmp} caps.now))) }
    ensures same { H.keeps has.old has.new }
{
    for cap in caps {
        note(has, *cap, wanting)?;
    }
    Ok(())
}

// The same of the capabilities of this sign, of each tag that the label lacks.
fn note_tags<H: Has>(
    has: &mut H,
    sign: Sign,
    tags: &[Name],
    label: &Label,
    wanting: &mut CapSet,
) -> Result<(), AllocError>
    ensures ok { let E = H.effective has.old in
        let tags = set.of_list {R = name_cmp} tags.now in
        OnOk result (Gathers E (OfMissing sign tags label.now) wanting.old wanting.new) }
    ensures err { let E = H.effective has.old in
        let tags = set.of_list {R = name_cmp} tags.now in
        OnErr result (IsLacking E (OfMissing sign tags label.now)) }
    ensures same { H.keeps has.old has.new }
{
    for tag in tags {
        if !label.contains(*tag) {
            note(has, sign.of(*tag), wanting)?;
        }
    }
    Ok(())
}

// The same of what the change of the first label into the second takes.
fn note_change<H: Has>(
    has: &mut H,
    from: &Label,
    to: &Label,
    wanting: &mut CapSet,
) -> Result<(), AllocError>
    ensures ok { let E = H.effective has.old in
        OnOk result (Gathers E (Takes from.now to.now) wanting.old wanting.new) }
    ensures err { OnErr result (IsLacking (H.effective has.old) (Takes from.now to.now)) }
    ensures same { H.keeps has.old has.new }
{
    note_tags(has, Sign::Plus, to.as_slice(), from, wanting)?;
    note_tags(has, Sign::Minus, from.as_slice(), to, wanting)
}

// The same of both capabilities of each tag of the label: of what it takes to become this label
// from nothing, and nothing again.
fn note_both<H: Has>(
    has: &mut H,
    alloc: Global,
    label: &Label,
    wanting: &mut CapSet,
) -> Result<(), AllocError>
    ensures ok { let E = H.effective has.old in
        OnOk result (Gathers E (Both label.now) wanting.old wanting.new) }
    ensures err { OnErr result (IsLacking (H.effective has.old) (Both label.now)) }
    ensures same { H.keeps has.old has.new }
{
    let nothing = Label::new(alloc);
    note_change(has, &nothing, label, wanting)?;
    note_change(has, label, &nothing, wanting)
}

// The same of what the order of a process of these labels demands.
fn note_order<H: Has>(
    has: &mut H,
    alloc: Global,
    guards: bool,
    labels: &Labels,
    order: Order,
    wanting: &mut CapSet,
) -> Result<(), AllocError>
    ensures ok { let E = H.effective has.old in
        OnOk result (Gathers E (OrderDemands guards labels.now order) wanting.old wanting.new) }
    ensures err { OnErr result
        (IsLacking (H.effective has.old) (OrderDemands guards labels.now order)) }
    ensures same { H.keeps has.old has.new }
{
    let taken = Taken::by(order);
    note_all(has, taken.as_slice(), wanting)?;
    if guards {
        note_both(has, alloc, &labels.secrecy, wanting)?;
    }
    Ok(())
}

// The same of what the act of the process demands.
fn note_act<H: Has>(
    has: &mut H,
    alloc: Global,
    guards: bool,
    process: &Process,
    act: &Act,
    wanting: &mut CapSet,
) -> Result<(), AllocError>
    ensures ok { let E = H.effective has.old in
        OnOk result (Gathers E (Demands guards process.now act.now) wanting.old wanting.new) }
    ensures err { OnErr result
        (IsLacking (H.effective has.old) (Demands guards process.now act.now)) }
    ensures same { H.keeps has.old has.new }
{
    let labels = &process.labels;
    match act {
        Act::Order(order) => note_order(has, alloc, guards, labels, *order, wanting),
        Act::Relabel(side, label) => {
            let Ok(label) = label else {
                return Ok(());
            };
            note_change(has, label_of(labels, *side), label, wanting)
        }
        Act::Spawn(caps) => note_all(has, caps.as_slice(), wanting),
        Act::Emit(_) => note_both(has, alloc, &labels.secrecy, wanting),
        Act::Mail(mail) => {
            let Mail::Send { message, .. } = mail else {
                return Ok(());
            };
            note_all(has, message.caps.as_slice(), wanting)
        }
        Act::Ask(_) | Act::Exit | Act::Drop(_) | Act::Enter(_, _) => Ok(()),
    }
}

/// The capabilities that are wanting for the act of the process. Fails only where one is, and there
/// is not enough memory.
pub(crate) fn wanting<V: View>(
    alloc: Global,
    view: &mut V,
    guards: bool,
    process: &Process,
    act: &Act,
) -> Result<CapSet, AllocError>
    ensures ok { let V = Listed (V.list view.old) in
        IfOk result (AreAll (LacksBy guards V process.now act.now)) }
    ensures err { let V = Listed (V.list view.old) in
        OnErr result ((c : Cap) × LacksBy guards V process.now act.now c) }
    ensures same { view.new ≡ view.old }
{
    let mut wanting = CapSet::new(alloc);
    let Holding::Idle(owned) = &process.owned else {
        return Ok(wanting);
    };
    let mut holder = Holder {
        view,
        owned: owned.caps(),
        runs: Runs::new(),
    };
    note_act(&mut holder, alloc, guards, process, act, &mut wanting)?;
    Ok(wanting)
}
