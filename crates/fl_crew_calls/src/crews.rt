//! The crews of a script, and the packets that they sent.
ghost use Rattle.std.specs.Prelude.{◌≡◌, ◌<◌, ◌≤◌, ◌+◌, ◌∷◌, [], ℕ, Err, None, Ok, Some};
ghost use Rattle.std.specs.Prelude.{IfErr, IfNone, IfOk, IfSome, MatchOption, OnOk};
ghost use Rattle.std.specs.Prelude.{false, length};
ghost use Rattle.fl_calls.specs.Answer.{replied};
ghost use Rattle.fl_crew_calls.specs.Asking.{Comes, IsServing, Opens, RestartsAt, SendsAll};
ghost use Rattle.fl_crew_calls.specs.Asking.{boot_reply, is_window};
ghost use Rattle.fl_crew_calls.specs.Batches.{ServesBatch};
ghost use Rattle.fl_crew_calls.specs.Closing.{MayBeLeft};
ghost use Rattle.fl_crew_calls.specs.Over.{IsCrewAt, IsUnopened, begun_crews};
ghost use Rattle.fl_store.specs.Kept.{Kept};
ghost use Rattle.fl_system.specs.Numbered.{item_at};
ghost use Rattle.fl_workers.specs.Over.{CrewOver};

use crate::joining::against;
use crate::manned::Manned;
use crate::runtime::CrewRuntime;
use crate::telling::tell_all;
use fl_jobs::answer::Refusal;
use fl_jobs::job::Job;
use fl_labels::name::NodeNumber;
use fl_makers::maker::MakesKeepers;
use fl_node::node::Node;
use fl_system::answer::Fault;
use fl_system::reply::Reply;
use fl_wire::packet::Packet;
use fl_workers::crew::Crew;
use fl_workers::fault::CrewFault;
use fl_workers::gate::OpenGate;
use std::alloc::{AllocError, Global};
use std::collections::BTreeMap;
use std::marker::Model;
use std::sync::Wait;

/// There was not enough memory.
pub const STARVED: Fault = Fault::Refused(Refusal::Memory);

// Why none of a batch was begun.
fn fault_of(fault: CrewFault) -> Fault
    ensures stopped { fault ≡ CrewFault.Stopped → result ≡ Fault.Stopped }
    ensures memory { fault ≡ CrewFault.Memory → result ≡ Fault.Refused Refusal.Memory }
{
    match fault {
        CrewFault::Memory => STARVED,
        CrewFault::Stopped => Fault::Stopped,
    }
}

/// Crews by the numbers of their nodes, with who makes their keepers, and every packet that they
/// sent.
///
/// Contracts see what [`Crew`] lets them see of each crew.
pub struct Crews<R: Wait, M: MakesKeepers> {
    rt: R,
    maker: M,
    workers: u8,
    // None only while it is restarted.
    all: BTreeMap<NodeNumber, Option<Manned<R, M::K>>>,
    sent: Vec<Packet>,
}

impl<R: Wait, M: MakesKeepers> Model for Crews<R, M> {
    ghost use Rattle.std.specs.FinMap as map;
    ghost use Rattle.std.specs.Prelude.{◌≤◌};
    ghost use Rattle.fl_crew_calls.specs.Over.{AreThere, CrewsOver, coded_crews};

    ghost Value = { CrewsOver M.K M };

    ghost coded = { coded_crews M.K.code M.code };

    ghost view = { λ c. record {
      maker = c.maker;
      workers = c.workers;
      crews = map.from_entries c.all.entries;
      sent = c.sent.items;
    } };

    ghost invariant = { λ c. (1 ≤ c.workers) × (c.workers ≤ 16)
        × AreThere (map.from_entries c.all.entries) };
}

impl<R: Wait + Drop, M: MakesKeepers + Drop> Drop for Crews<R, M> {
    fn drop(self) {
        let Crews {
            rt: _,
            maker: _,
            workers: _,
            all: _,
            sent: _,
        } = self;
    }
}

impl<R: CrewRuntime, M: MakesKeepers> Crews<R, M> {
    /// No crew and no packet; each crew will have so many workers. Takes no memory.
    pub fn new(rt: R, alloc: Global, workers: u8, maker: M) -> Self
        requires some { 1 ≤ workers }
        requires few { workers ≤ 16 }
        ensures { result ≡ begun_crews maker workers }
    {
        Crews {
            rt,
            maker,
            workers,
            all: BTreeMap::new(alloc),
            sent: Vec::new(alloc),
        }
    }

    /// Ends each crew, gives its keeper back to the maker, by rising numbers, and gives the maker.
    /// What was on its way, and all processes, are forgotten. What the maker finds from then on it
    /// found before, or the keeper of the crew of that number may hold it.
    pub fn close(self) -> M
        ensures { (number : ℕ) (k : Kept) → M.making.finds result number k
            → MayBeLeft M.K.custody M.making self number k }
    {
        let Crews {
            rt: _,
            mut maker,
            workers: _,
            mut all,
            sent: _,
        } = self;
        while let Some((number, place)) = all.pop_first() {
            if let Some(manned) = place {
                maker.close(number, manned.into_keeper());
            }
        }
        maker
    }

    /// The crew of this node, or none where no line has opened it.
    pub fn crew(&self, number: NodeNumber) -> Option<&Crew<M::K, OpenGate>>
        ensures some { IfSome result (λ crew. IsCrewAt self.now number crew.now) }
        ensures none { IfNone result (IsUnopened self.now number) }
    {
        match self.all.get(&number)? {
            Some(manned) => Some(manned.crew()),
            None => None,
        }
    }

    /// The node of a crew that serves. `Stopped` of a stopped one.
    pub fn serving(&self, number: NodeNumber) -> Result<&Node<M::K>, Fault>
        requires { (crew : CrewOver M.K) × IsCrewAt self.now number crew }
        ensures ok { IfOk result (λ node. (crew : CrewOver M.K) × IsCrewAt self.now number crew
            × IsServing crew × (node.now ≡ crew.node)) }
        ensures err { IfErr result (λ fault. (fault ≡ Fault.Stopped) × ((crew : CrewOver M.K)
            → IsCrewAt self.now number crew → IsServing crew → ⊥)) }
    {
        let Some(crew) = self.crew(number) else {
            return Err(Fault::Stopped);
        };
        if crew.is_stopped() {
            return Err(Fault::Stopped);
        }
        let node = crew.node();
        node.runs()?;
        Ok(node)
    }

    /// The packet that was sent as the one of this number, counted from 1.
    pub fn packet(&self, number: u32) -> Option<&Packet>
        ensures { MatchOption result (item_at self.now.sent number ≡ None)
            (λ packet. item_at self.now.sent number ≡ Some packet.now) }
    {
        let before = number.checked_sub(1)?;
        self.sent.get(before as usize)
    }

    /// Opens the node of this number where it is not open. An error leaves it so.
    ///
    /// As [`Crew::open`], and refused with `Clash` where something else is saved at an open node
    /// under one of its names, and with `Impostor` where an operation is saved, though not by the
    /// node whose number it has, each with the least such name. The keeper is given back then.
    /// Costs what that does, and for each open node what [`against`] says.
    pub fn open(&mut self, alloc: Global, number: NodeNumber) -> Result<(), Fault>
        requires { 0 < number }
        ensures opens { Opens M.K.custody M.making self.old number result self.new }
        ensures there { OnOk result ((crew : CrewOver M.K) × IsCrewAt self.new number crew) }
    {
        if self.all.contains_key(&number) {
            return Ok(());
        }
        let keeper = self.maker.make(alloc, number)?;
        let manned = Manned::open(self.rt, alloc, keeper, number, self.workers)?;
        if let Some(fault) = against(&self.all, number, manned.crew().node().saved()) {
            self.maker.take_back(number, manned.into_keeper(), fault);
            return Err(fault);
        }
        match self.all.insert(number, Some(manned)) {
            Ok(_) => Ok(()),
            Err(_) => Err(STARVED),
        }
    }

    // Has the crew of the node do the jobs and take the packets, so many together, and gives what
    // each is replied in its place. Room for these replies, and for a packet of each, is made
    // before, so that each job that is done is told. An error is what each of them is refused with:
    // nothing was begun then.
    fn batch(
        &mut self,
        alloc: Global,
        number: NodeNumber,
        jobs: Vec<Job>,
        packets: Vec<Packet>,
        count: usize,
    ) -> Result<Vec<Reply>, Fault>
        requires { length jobs.items + length packets.items ≡ count }
        ensures ok { IfOk result (λ replies. ServesBatch M.K.custody self.old number
            jobs.items packets.items (Ok replies.items) self.new) }
        ensures err { IfErr result (λ fault. ServesBatch M.K.custody self.old number
            jobs.items packets.items (Err fault) self.new) }
    {
        let Ok(()) = self.sent.reserve(count) else {
            return Err(STARVED);
        };
        let Ok(mut replies) = Vec::with_capacity(alloc, count) else {
            return Err(STARVED);
        };
        let Some(place) = self.all.get_mut(&number) else {
            return Err(Fault::Stopped);
        };
        let Some(manned) = place else {
            return Err(Fault::Stopped);
        };
        match manned.batch(alloc, jobs, packets) {
            Ok(entries) => {
                tell_all(&mut self.sent, entries, &mut replies);
                Ok(replies)
            }
            Err(fault) => Err(fault_of(fault)),
        }
    }

    /// Has the crew of the node do the jobs as one batch, and gives what each is replied, in its
    /// place. A message that is sent is the next packet.
    ///
    /// An error is what each of them is refused with, and none was begun: `Stopped` of a stopped
    /// crew, and where there is none; `Memory` also where there is no room for the replies and the
    /// packets.
    pub fn do_jobs(
        &mut self,
        alloc: Global,
        number: NodeNumber,
        jobs: Vec<Job>,
    ) -> Result<Vec<Reply>, Fault>
        ensures ok { IfOk result (λ replies. ServesBatch M.K.custody self.old number
            jobs.items [] (Ok replies.items) self.new) }
        ensures err { IfErr result (λ fault. ServesBatch M.K.custody self.old number
            jobs.items [] (Err fault) self.new) }
    {
        let count = jobs.len();
        self.batch(alloc, number, jobs, Vec::new(alloc), count)
    }

    /// Takes a packet that is no window as a batch of its own, and gives what it is replied.
    pub fn take(&mut self, alloc: Global, number: NodeNumber, packet: Packet) -> Reply
        requires { is_window packet ≡ false }
        ensures { Comes M.K.custody self.old number packet result self.new }
    {
        let Ok(packets) = Vec::from_array(alloc, [packet]) else {
            return Reply::Refused(STARVED);
        };
        match self.batch(alloc, number, Vec::new(alloc), packets, 1) {
            Ok(mut replies) => match replies.pop() {
                Some(reply) => reply,
                None => Reply::Refused(Fault::Stopped),
            },
            Err(fault) => Reply::Refused(fault),
        }
    }

    /// Restarts the crew of the node, and gives its boot, as [`Crew::restart`] has it.
    pub fn restart(&mut self, alloc: Global, number: NodeNumber, keeps: bool) -> Result<u32, Fault>
        requires { (crew : CrewOver M.K) × IsCrewAt self.old number crew }
        ensures { RestartsAt M.K.custody self.old number keeps (replied (boot_reply result))
            self.new }
    {
        let Some(place) = self.all.get_mut(&number) else {
            return Err(Fault::Stopped);
        };
        let Some(manned) = place.take() else {
            return Err(Fault::Stopped);
        };
        let (manned, booted) = manned.restart(alloc, keeps);
        *place = Some(manned);
        booted
    }

    /// Sends these packets, which are numbered after those that were sent before. Where there is
    /// not enough memory for all of them, none is.
    pub fn send_all(&mut self, packets: Vec<Packet>) -> Reply
        ensures { SendsAll self.old packets.items result self.new }
    {
        let first = self.sent.len() as u64 + 1;
        let count = packets.len() as u64;
        let mut packets = packets;
        match self.sent.append(&mut packets) {
            Ok(()) => Reply::Sent { first, count },
            Err(AllocError) => Reply::Refused(STARVED),
        }
    }
}
