//! The messages that wait for a process.
ghost use Rattle.std.specs.Prelude.{◌≡◌, ◌++◌, ◌∷◌, [], length, nat_le, OnOk, OnErr};
ghost use Rattle.std.specs.Iterator.Runs.{YieldsRefsInOrder};
ghost use Rattle.std.specs.VecDeque.Iter.{deque_iter_rest, deque_iter_steps};
ghost use Rattle.fl_message.specs.declared.message.Letter.{Letter as LetterValue};
ghost use Rattle.fl_mailbox.specs.Mailbox.{oldest, without_oldest};
ghost use Rattle.fl_mailbox.specs.Pushes.{Pushes};

use fl_message::boxed::Boxed;
use fl_message::message::Letter;
use std::alloc::{AllocError, Global};
use std::collections::VecDeque;
use std::collections::vec_deque::Iter;
use std::marker::Model;

/// How many messages wait at most.
pub const MOST_LETTERS: usize = 256;

/// The messages that wait for a process, the oldest first.
#[derive(Debug, Drop)]
pub struct Inbox {
    letters: VecDeque<Boxed<Letter>>,
}

impl Model for Inbox {
    ghost use Rattle.std.specs.Prelude.{List};
    ghost use Rattle.std.specs.Coded.{codes};
    ghost use Rattle.fl_message.specs.contracts.message.Letter as letter_row;
    ghost use Rattle.fl_message.specs.declared.message.Letter.{Letter};

    ghost Value = { List Letter };

    ghost coded = { Prim.hlevel (codes, letter_row.the_row.coded) };

    ghost view = { λ a. a.letters.items };
}

impl Inbox {
    /// No message. Takes no memory.
    pub fn new(alloc: Global) -> Self
        ensures { result ≡ [] }
    {
        Inbox {
            letters: VecDeque::new(alloc),
        }
    }

    /// Whether as many messages wait as may: 256.
    pub fn is_full(&self) -> bool
        ensures { result ≡ nat_le 256 (length self.now) }
    {
        self.letters.len() >= MOST_LETTERS
    }

    /// Has a message wait behind the others. Fails only where there is not enough memory, and lets
    /// the message go then.
    pub fn push(&mut self, letter: Letter) -> Result<(), AllocError>
        ensures ok { OnOk result (self.new ≡ self.old ++ letter ∷ []) }
        ensures err { OnErr result (self.new ≡ self.old) }
    {
        let letter = Boxed::new(*self.letters.allocator(), letter)?;
        self.letters.push_back(letter)?;
        Ok(())
    }

    /// Has the owner receive a message, which then waits behind the others: both, or an error. The
    /// room is taken first, so that after an error the others wait as before, and the owner is as
    /// what received left it, or as it was where there was no memory for the room.
    pub fn push_with<C, F: FnOnce(&mut C, &Letter) -> Result<(), AllocError>>(
        &mut self,
        letter: Letter,
        owner: &mut C,
        receive: F,
    ) -> Result<(), AllocError>
        requires { F.IsAlwaysCallable receive }
        ensures { Pushes F.FnOnce receive letter self.old owner.old result self.new owner.new }
    {
        self.letters.reserve(1)?;
        let letter = Boxed::new(*self.letters.allocator(), letter)?;
        receive(owner, &letter)?;
        let Ok(()) = self.letters.push_back(letter) else {
            unreachable!("there is room");
        };
        Ok(())
    }

    /// The messages that wait, the oldest first. Each step takes the same time.
    pub fn iter(&self) -> Iter<'_, Boxed<Letter>>
        ensures rest { deque_iter_rest result ≡ self.now }
        ensures runs { YieldsRefsInOrder (deque_iter_steps {X = LetterValue}) deque_iter_rest }
    {
        self.letters.iter()
    }

    /// Takes out the oldest message, or nothing where none waits. Takes no memory.
    pub fn take(&mut self) -> Option<Boxed<Letter>>
        ensures value { result ≡ oldest self.old }
        ensures rest { self.new ≡ without_oldest self.old }
    {
        self.letters.pop_front()
    }
}
