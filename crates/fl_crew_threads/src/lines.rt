//! The channels of a crew.
ghost use Rattle.std.specs.Prelude.{◌≡◌, IfOk, length};

use fl_worker::ask::Ask;
use fl_worker::ends::Ends;
use fl_worker::hearing::Hearing;
use fl_worker::line::line;
use std::alloc::{AllocError, Global};

// How many messages may wait to be heard by the registrar: what one worker asks, and that it is
// done, of each.
const ASKS: usize = 64;

/// What the registrar of a crew has of its channels.
#[derive(Drop)]
pub struct Lines {
    /// It hears the workers on it.
    pub hearing: Hearing,
    /// How many there are: none where the lines are closed.
    pub workers: u8,
}

impl Lines {
    /// Lets the end go on which the registrar hears: who asks is told that it is gone, and waits
    /// for no ruling. To be called while no worker is at work.
    pub fn close(&mut self)
        ensures { self.new.workers ≡ 0 }
    {
        self.hearing.close();
        self.workers = 0;
    }
}

/// The channels between a registrar and so many workers: what it has of them, and the ends of each
/// worker. Fails only where there is not enough memory.
pub fn lines_for(alloc: Global, workers: u8) -> Result<(Lines, Vec<Ends>), AllocError>
    ensures workers { IfOk result (λ made. made.0.workers ≡ workers) }
    ensures ends { IfOk result (λ made. length made.1.items ≡ workers) }
{
    let (mut first, asks) = line::<Ask>(alloc, ASKS)?;
    let mut ends = Vec::new(alloc);
    for _ in 0..workers {
        ends.push(Ends::new(alloc, first.another()?)?)?;
    }
    let hearing = Hearing::new(asks);
    Ok((Lines { hearing, workers }, ends))
}
