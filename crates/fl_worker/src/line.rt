//! A channel of messages, of which nothing is asked and nothing is promised.
ghost use Rattle.crossbeam_channel.specs.Claims.{IsSeatAt};
ghost use Rattle.crossbeam_channel.specs.Ends.{sends_on, receives_on};
ghost use Rattle.std.specs.Prelude.{◌<◌};

use crossbeam_channel::protocol::{Free, Split};
use crossbeam_channel::{Pass, RuledReceiver, RuledSender, bounded_with};
use std::alloc::{AllocError, Global};
use std::sync::Wait;

/// An end that sends.
#[derive(Drop)]
pub struct Out<T: Drop> {
    end: RuledSender<T, (), Free>,
    pass: Pass<T, ()>,
    ghost seated: { IsSeatAt (sends_on end) pass },
}

/// An end that receives.
#[derive(Drop)]
pub struct In<T: Drop> {
    end: RuledReceiver<T, (), Free>,
    pass: Pass<T, ()>,
    ghost seated: { IsSeatAt (receives_on end) pass },
}

// Each of two passes knows nothing.
struct Same;

impl Split<()> for Same {
    ghost left = { λ v. v };

    ghost right = { λ v. v };
}

/// A channel with room for so many messages. Fails only where there is not enough memory.
pub fn line<T: Drop>(alloc: Global, room: usize) -> Result<(Out<T>, In<T>), AllocError>
    requires { 0 < room }
{
    let (end, receiver, mut pass) = bounded_with::<T, (), Free, Global>(alloc, room)?;
    let other = end.another::<Same>(&mut pass);
    Ok((
        Out { end, pass },
        In {
            end: receiver,
            pass: other,
        },
    ))
}

impl<T: Drop> Out<T> {
    /// One more end that sends on this channel. Fails only where there is not enough memory.
    pub fn another(&mut self) -> Result<Out<T>, AllocError> {
        let end = self.end.try_clone()?;
        let pass = self.end.another::<Same>(&mut self.pass);
        Ok(Out { end, pass })
    }

    /// Sends the message, and answers whether it did: not where the other end is gone. Waits while
    /// the channel is full.
    pub fn send<R: Wait>(&mut self, rt: &R, message: T) -> bool {
        self.end
            .send_as::<Free, R>(rt, &mut self.pass, message)
            .is_ok()
    }
}

impl<T: Drop> In<T> {
    /// Waits for the next message. None where the other ends are gone.
    pub fn receive<R: Wait>(&mut self, rt: &R) -> Option<T> {
        self.end.recv_as::<Free, R>(rt, &mut self.pass).ok()
    }
}
