//! Messages that come.
ghost use Rattle.std.specs.Prelude.{◌≡◌, ◌++◌, ◌∷◌, [], OnOk, OnErr};
ghost use Rattle.fl_labels.specs.SetBy as set;
ghost use Rattle.fl_rules.specs.Pair as pairs;
ghost use Rattle.fl_bench.specs.Guards.{sent_from, entry_refusal};
ghost use Rattle.fl_bench.specs.Mailbox.{arrival_checks};
ghost use Rattle.fl_monitor.specs.parts.Acts.{Arrives};
ghost use Rattle.fl_monitor.specs.parts.Checked.{Checked};

use fl_bench::owned::Owned;
use fl_bench::process::{Holding, Process};
use fl_jobs::answer::{Outcome, Refusal, Reply};
use fl_labels::endpoint::Endpoint;
use fl_mailbox::inbox::Inbox;
use fl_mailbox::mailbox::Mailbox;
use fl_message::message::{Data, Letter};
use fl_rules::endpoint::Mode;
use fl_rules::labels::LabelsRef;
use fl_rules::pair::{EndRef, PairFault, safe_pair};
use std::alloc::AllocError;

// The end that a message left, which was for writing.
fn end_left(data: &Data) -> EndRef<'_>
    ensures { pairs.end_of result ≡ sent_from «data».now }
{
    EndRef {
        mode: Mode::Write,
        labels: LabelsRef {
            secrecy: &data.secrecy,
            integrity: &data.integrity,
        },
    }
}

// What a message is refused with that may not enter the endpoint.
fn refused_entry(endpoint: Endpoint, fault: PairFault) -> Refusal
    ensures { result ≡ entry_refusal endpoint fault }
{
    match fault {
        PairFault::NotWritable => Refusal::NotWritable(endpoint),
        PairFault::NotReadable => Refusal::NotReadable(endpoint),
        PairFault::Secrecy(tag) => Refusal::Secrecy(tag),
        PairFault::Integrity(tag) => Refusal::Integrity(tag),
    }
}

// Makes the message wait, once its capabilities are owned: both, or an error, which leaves all as
// it was.
fn take_in(inbox: &mut Inbox, owned: &mut Owned, letter: Letter) -> Result<(), AllocError>
    ensures waits { OnOk result (inbox.new ≡ inbox.old ++ letter ∷ []) }
    ensures owns { OnOk result (owned.new ≡ set.union owned.old letter.message.caps) }
    ensures err { OnErr result ((inbox.new ≡ inbox.old) × (owned.new ≡ owned.old)) }
{
    inbox.push_with(
        letter,
        owned,
        |owned, letter|
            ensures ok { OnOk result (owned.new ≡ set.union owned.old letter.now.message.caps) }
            ensures err { OnErr result (owned.new ≡ owned.old) }
        { owned.insert_all(&letter.message.caps) },
    )
}

/// Whether the message may enter the endpoint that it is for, and there is room for it to wait, or
/// else why not. Takes no memory.
pub(crate) fn check_arrival(mailbox: &Mailbox, data: &Data) -> Result<(), Refusal>
    ensures { Checked (arrival_checks mailbox.now «data».now) result }
{
    let Some(opened) = mailbox.endpoints.get(data.to) else {
        return Err(Refusal::NoEndpoint(data.to));
    };
    if let Some(fault) = safe_pair(end_left(data), opened.lend()) {
        return Err(refused_entry(data.to, fault));
    }
    if mailbox.inbox.is_full() {
        return Err(Refusal::InboxFull);
    }
    Ok(())
}

/// Takes a message in, where it may enter the endpoint that it is for: its capabilities are then
/// owned, and it waits behind those that came before. Looks along the labels of both ends, and
/// copies nothing that is owned.
pub(crate) fn arrive(process: &mut Process, data: Data) -> Result<Outcome, Refusal>
    ensures { Arrives process.old «data» result process.new }
{
    let Holding::Idle(owned) = &mut process.owned else {
        return Err(Refusal::Busy);
    };
    check_arrival(&process.mailbox, &data)?;
    let inbox = &mut process.mailbox.inbox;
    let receiver = data.receiver;
    let Ok(()) = take_in(inbox, owned, data.into_letter()) else {
        return Err(Refusal::Memory);
    };
    Ok(Outcome::Reply(Reply::Arrived(receiver)))
}
