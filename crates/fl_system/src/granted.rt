//! Capabilities that were handed on.
ghost use Rattle.std.specs.Prelude.{◌≡◌, IfOk};
ghost use Rattle.fl_labels.specs.SetBy as set;

use fl_labels::cap::Cap;
use std::alloc::{AllocError, Global};
use std::marker::Model;

// What is kept of a set, so that one of a single capability takes no block.
#[derive(Drop)]
enum Kept {
    One(Cap),
    Many(Vec<Cap>),
}

/// A set of capabilities that were handed on together, which stays as it is.
#[derive(Drop)]
pub struct Granted {
    kept: Kept,
}

impl Model for Granted {
    ghost use Rattle.fl_labels.specs.SetBy as set;
    ghost use Rattle.fl_labels.specs.Cap.{cap_cmp};
    ghost use Rattle.fl_labels.specs.CapOrder.{coded_cap};
    ghost use Rattle.fl_system.specs.parts.Granted.{items};

    ghost Value = { set.SetBy cap_cmp };

    ghost coded = { set.code coded_cap };

    ghost view = { λ a. set.of_list (items a.kept) };
}

impl Granted {
    /// The set of these capabilities. Fails only where there is not enough memory. One capability
    /// takes none; others are copied.
    pub fn new(alloc: Global, caps: &[Cap]) -> Result<Self, AllocError>
        ensures { IfOk result (λ made. made ≡ set.of_list caps.now) }
    {
        let kept = match caps {
            [cap] => Kept::One(*cap),
            _ => Kept::Many(Vec::from_slice(alloc, caps)?),
        };
        Ok(Granted { kept })
    }
}
