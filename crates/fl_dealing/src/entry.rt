//! What is shown of each place of a batch.
ghost use Rattle.std.specs.Prelude.{◌≡◌};

use fl_crew_model::record;
use fl_crew_model::record::Told;
use fl_system::answer::Fault;

/// The answer to an item of a batch.
#[derive(Drop)]
pub enum Reply {
    /// A job was answered so, or a packet was refused so.
    Told(Told),
    /// So many operations of the packet were new, and are taken.
    Took(u64),
}

/// What became of an item of a batch.
#[derive(Drop)]
pub struct Entry {
    /// Its place.
    pub job: usize,
    pub reply: Reply,
    /// How many operations of the list were seen.
    pub seen: u64,
}

/// What the registrar says of a packet.
#[derive(Clone, Copy, Debug)]
pub struct Taken {
    pub place: usize,
    /// How many operations were new, or why none was taken.
    pub answer: Result<u64, Fault>,
    pub seen: u64,
}

impl From<record::Entry> for Entry {
    ghost use Rattle.fl_dealing.specs.Shown.{shown};

    ghost from_gives = { λ entry made. made ≡ shown entry };

    fn from(entry: record::Entry) -> Self {
        Entry {
            job: entry.place,
            reply: Reply::Told(entry.told),
            seen: entry.seen,
        }
    }
}

impl From<Taken> for Entry {
    ghost use Rattle.fl_dealing.specs.Shown.{shown_taken};

    ghost from_gives = { λ taken made. made ≡ shown_taken taken };

    fn from(taken: Taken) -> Self {
        let reply = match taken.answer {
            Ok(count) => Reply::Took(count),
            Err(fault) => Reply::Told(Told::Refused(fault)),
        };
        Entry {
            job: taken.place,
            reply,
            seen: taken.seen,
        }
    }
}
