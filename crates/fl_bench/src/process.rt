//! Processes, and what an operation of theirs does to what they own.
ghost use Rattle.std.specs.Prelude.{◌≡◌, [], false, IfOk, OnOk, OnErr};
ghost use Rattle.fl_labels.specs.SetBy as set;
ghost use Rattle.fl_bench.specs.declared.process.Holding.TheVariants.{Ordering};
ghost use Rattle.fl_bench.specs.Process.{newborn, held, standing_of, is_under_way};
ghost use Rattle.fl_bench.specs.Gifts.{given, settled};

use crate::owned::{Owned, RoomyOwned};
use crate::standing::Standing;
use fl_labels::cap::Cap;
use fl_labels::cap_set::CapSet;
use fl_mailbox::mailbox::Mailbox;
use fl_message::shared::Shared;
use fl_ops::op::{Body, Op};
use fl_rules::labels::Labels;
use std::alloc::{AllocError, Global};
use std::mem::replace;

/// The capabilities that a process owns.
#[derive(Drop)]
pub enum Holding {
    /// No operation of the process is under way.
    Idle(Owned),
    /// One is, and there is room for what it gives.
    Ordering(RoomyOwned),
}

/// A process: its labels, the capabilities that it owns, its open endpoints, and the messages that
/// wait for it.
pub struct Process {
    pub labels: Labels,
    pub owned: Holding,
    pub mailbox: Mailbox,
}

impl Drop for Process {
    fn drop(self) {
        let Process {
            labels: _,
            owned: _,
            mailbox: _,
        } = self;
    }
}

impl Holding {
    /// The capabilities that are held, rising.
    pub fn as_slice(&self) -> &[Cap]
        ensures { result.now ≡ set.members (held self.now) }
    {
        match self {
            Holding::Idle(owned) => owned.caps().as_slice(),
            Holding::Ordering(owned) => owned.as_slice(),
        }
    }

    /// Whether an operation of the process is under way.
    pub fn is_under_way(&self) -> bool
        ensures { result ≡ is_under_way self.now }
    {
        matches!(self, Holding::Ordering(_))
    }

    // What is held, which leaves nothing.
    fn take(&mut self, alloc: Global) -> Self
        ensures { result ≡ self.old }
    {
        replace(self, Holding::Idle(Owned::new(CapSet::new(alloc))))
    }

    // With an operation under way, or as before where none was and there is no room for what it may
    // give.
    fn begun(self) -> (Self, Result<(), AllocError>)
        ensures ok { OnOk result.1 (result.0 ≡ Ordering (held self)) }
        ensures err { OnErr result.1 (result.0 ≡ self) }
        ensures idle { OnErr result.1 (is_under_way self ≡ false) }
    {
        match self {
            Holding::Idle(owned) => match owned.with_room() {
                Ok(owned) => (Holding::Ordering(owned), Ok(())),
                Err(owned) => (Holding::Idle(owned), Err(AllocError)),
            },
            ordering => (ordering, Ok(())),
        }
    }

    /// With an operation under way. An error says that none was and that there is no room for what
    /// it may give, and leaves them.
    pub fn begin(&mut self, alloc: Global) -> Result<(), AllocError>
        ensures ok { OnOk result (self.new ≡ Ordering (held self.old)) }
        ensures err { OnErr result (self.new ≡ self.old) }
        ensures idle { OnErr result (is_under_way self.old ≡ false) }
    {
        let (begun, result) = self.take(alloc).begun();
        *self = begun;
        result
    }

    // With what the operation gives, where one was under way.
    fn finished(self, op: &Op) -> Self
        ensures { result ≡ settled self (given op.now) }
    {
        match self {
            Holding::Idle(owned) => Holding::Idle(owned),
            Holding::Ordering(owned) => Holding::Idle(receive(owned, op)),
        }
    }

    // With no operation under way.
    fn cancelled(self) -> Self
        ensures { result ≡ settled self [] }
    {
        match self {
            Holding::Idle(owned) => Holding::Idle(owned),
            Holding::Ordering(owned) => Holding::Idle(owned.without_room()),
        }
    }
}

// With what the operation gives its maker.
fn receive(owned: RoomyOwned, op: &Op) -> Owned
    ensures { result ≡ set.insert_all owned (given op.now) }
{
    match op.body {
        Body::MakeTag(_) => owned.with_both(Cap::Plus(op.name), Cap::Minus(op.name)),
        Body::MakeGroup => owned.with_both(Cap::Use(op.name), Cap::Grow(op.name)),
        Body::Put(_, _) | Body::MakeLogin(_, _) | Body::Open(_) => owned.without_room(),
    }
}

impl Process {
    /// A process with nothing. Takes no memory.
    pub fn new(alloc: Global) -> Self
        ensures { result ≡ newborn }
    {
        Process {
            labels: Labels::new(alloc),
            owned: Holding::Idle(Owned::new(CapSet::new(alloc))),
            mailbox: Mailbox::new(alloc),
        }
    }

    /// How the process stands, for whoever notes it. Fails only where there is not enough memory.
    /// Costs what `Owned::share` does.
    pub fn share(&mut self, alloc: Global) -> Result<Shared<Standing>, AllocError>
        ensures shared { IfOk result (λ made. made ≡ standing_of self.old) }
        ensures same { self.new ≡ self.old }
    {
        match &mut self.owned {
            Holding::Idle(owned) => owned.share(alloc, &self.labels),
            Holding::Ordering(owned) => owned.share(alloc, &self.labels),
        }
    }

    /// With what the operation gives, where one was under way. Takes no memory.
    pub fn finish(&mut self, alloc: Global, op: &Op)
        ensures { self.new ≡ record self.old { owned = settled self.old.owned (given op.now) } }
    {
        self.owned = self.owned.take(alloc).finished(op);
    }

    /// With no operation under way. Takes no memory.
    pub fn cancel(&mut self, alloc: Global)
        ensures { self.new ≡ record self.old { owned = settled self.old.owned [] } }
    {
        self.owned = self.owned.take(alloc).cancelled();
    }
}
