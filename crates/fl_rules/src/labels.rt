//! The two labels of a process, or of one of its endpoints.
ghost use Rattle.std.specs.Prelude.{◌≡◌, IfOk};
ghost use Rattle.fl_labels.specs.SetBy as set;
ghost use Rattle.fl_rules.specs.Labels.{sets_of};

use fl_labels::label::Label;
use std::alloc::{AllocError, Global};

/// Both labels of a process, or of one of its endpoints.
#[derive(Debug, PartialEq, Eq)]
pub struct Labels {
    pub secrecy: Label,
    pub integrity: Label,
}

impl Drop for Labels {
    fn drop(self) {
        let Labels {
            secrecy: _,
            integrity: _,
        } = self;
    }
}

/// Both labels of a process, or of one of its endpoints, on loan.
#[derive(Clone, Copy, Debug)]
pub struct LabelsRef<'a> {
    pub secrecy: &'a Label,
    pub integrity: &'a Label,
}

impl Labels {
    /// No tag on either side. Takes no memory.
    pub fn new(alloc: Global) -> Self
        ensures { result ≡ record { secrecy = set.empty; integrity = set.empty } }
    {
        Labels {
            secrecy: Label::new(alloc),
            integrity: Label::new(alloc),
        }
    }

    /// The two labels on loan.
    pub fn lend(&self) -> LabelsRef<'_>
        ensures { sets_of result ≡ self.now }
    {
        LabelsRef {
            secrecy: &self.secrecy,
            integrity: &self.integrity,
        }
    }

    /// The same labels again. Fails only where there is not enough memory.
    pub fn copy(&self, alloc: Global) -> Result<Self, AllocError>
        ensures { IfOk result (λ made. made ≡ self.now) }
    {
        Ok(Labels {
            secrecy: self.secrecy.copy(alloc)?,
            integrity: self.integrity.copy(alloc)?,
        })
    }
}
