//! Calls to which memory may be refused, over a state of their own.
use crate::ending::{Ending, NotBegun};
use std::alloc::{AllocError, Global};

/// A call over a state. Its questions after the call take no memory that they cannot do without.
pub trait Trial {
    /// What the call is made over.
    type State: Drop;

    /// Makes the state.
    fn begin(alloc: Global) -> Result<Self::State, NotBegun>;

    /// Calls, once.
    fn call(alloc: Global, state: &mut Self::State) -> Result<(), AllocError>;

    /// Whether a refused call left all as it was.
    fn is_kept(alloc: Global, state: &mut Self::State) -> bool;

    /// Whether a call that went well left what it must.
    fn is_done(alloc: Global, state: &mut Self::State) -> bool;
}

// Looks at what a call left that went well. Where that is what it must be, the ending is this.
fn done<T: Trial>(alloc: Global, state: &mut T::State, ending: Ending) -> Ending {
    if T::is_done(alloc, state) {
        ending
    } else {
        Ending::Wrong("the call left something else")
    }
}

// Looks at what a refused call left, and calls once more.
fn refused<T: Trial>(alloc: Global, state: &mut T::State) -> Ending {
    if !T::is_kept(alloc, state) {
        return Ending::Wrong("the refused call left something else");
    }
    match T::call(alloc, state) {
        Ok(()) => done::<T>(alloc, state, Ending::Refused("all is as it was")),
        Err(AllocError) => Ending::Wrong("once more, the call was refused"),
    }
}

/// Makes the state, and calls; where that is refused, once more. At most one request for memory
/// may be refused in all.
pub fn run<T: Trial>(alloc: Global) -> Ending {
    let Ok(mut state) = T::begin(alloc) else {
        return Ending::NotBegun;
    };
    match T::call(alloc, &mut state) {
        Ok(()) => done::<T>(alloc, &mut state, Ending::Done),
        Err(AllocError) => refused::<T>(alloc, &mut state),
    }
}
