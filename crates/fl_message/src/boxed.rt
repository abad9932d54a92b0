//! Values that stand apart from what holds them.
ghost use Rattle.std.specs.Prelude.{◌≡◌, IfOk};

use std::alloc::{AllocError, Global};
use std::marker::Model;
use std::ops::Deref;

/// A `Box` that contracts see as its value. What is large stands in one, so that those who hold it
/// stay small.
#[derive(Debug, Drop)]
pub struct Boxed<T> {
    inner: Box<T>,
}

impl<T> Model for Boxed<T> {
    ghost Value = { T };

    ghost coded = { T.code };

    ghost view = { λ b. b.inner.value };
}

impl<T: Drop> Boxed<T> {
    /// The value in a box. Fails only where there is not enough memory; the value is then let go.
    pub fn new(alloc: Global, value: T) -> Result<Self, AllocError>
        ensures { IfOk result (λ boxed. boxed ≡ value) }
    {
        Ok(Boxed {
            inner: Box::new(alloc, value)?,
        })
    }
}

impl<T> Boxed<T> {
    /// The box itself. Takes no memory.
    pub fn into_box(self) -> Box<T>
        ensures { result.value ≡ self }
    {
        let Boxed { inner } = self;
        inner
    }

    /// The value itself, out of its box. Takes no memory.
    pub fn into_inner(self) -> T
        ensures { result ≡ self }
    {
        let Boxed { inner } = self;
        Box::into_inner(inner)
    }
}

impl<T> Deref for Boxed<T> {
    type Target = T;

    ghost deref_gives = { λ b x. x ≡ b };

    fn deref(&self) -> &T
        ensures { result.now ≡ self.now }
    {
        &self.inner
    }
}

impl<T: PartialEq> PartialEq for Boxed<T> {
    ghost eq = { λ a b. T.eq a b };

    ghost laws = { T.laws };

    fn eq(&self, other: &Self) -> bool {
        **self == **other
    }
}

impl<T: Eq> Eq for Boxed<T> {
    ghost laws = { T.Eq.laws };
}
