//! How the registrar of a crew hears its workers, and answers them.

use crate::ask::{Ask, Ordered, Ruled};
use crate::line::{In, Out};
use std::sync::Wait;

/// The end on which the registrar hears the workers of a crew, until it is closed.
#[derive(Drop)]
pub struct Hearing {
    asks: Option<In<Ask>>,
}

/// What it heard from one of them.
pub enum Heard {
    /// An order, which has to be answered.
    Order(Ordered, Unanswered),
    /// The worker is done.
    Done,
}

/// What has to be answered: it is not dropped, [`Unanswered::answer`] alone ends it. So each order
/// that was heard is answered once, on the end that came with it.
pub struct Unanswered {
    to: Out<Ruled>,
}

impl Unanswered {
    /// Answers the worker that ordered, or nobody where that is gone.
    pub fn answer<R: Wait>(self, rt: &R, ruled: Ruled) {
        let Unanswered { mut to } = self;
        to.send(rt, ruled);
    }
}

impl Hearing {
    /// Hears on this end.
    pub fn new(asks: In<Ask>) -> Hearing {
        Hearing { asks: Some(asks) }
    }

    /// Waits for what a worker tells next. None where all of them are gone, and where it is closed.
    pub fn hear<R: Wait>(&mut self, rt: &R) -> Option<Heard> {
        let Some(asks) = &mut self.asks else {
            return None;
        };
        match asks.receive(rt)? {
            Ask::Order(ordered, to) => Some(Heard::Order(ordered, Unanswered { to })),
            Ask::Done => Some(Heard::Done),
        }
    }

    /// Lets its end go: from then on nobody is heard, and who asks is told so. No order may lie
    /// unheard then, since who gave it would wait for ever.
    pub fn close(&mut self) {
        self.asks = None;
    }
}
