//! Processes as they stand.

use crate::shared::SharedCaps;
use fl_rules::labels::Labels;

/// How a process stands: its labels, and what it owns.
pub struct Standing {
    pub labels: Labels,
    pub owned: SharedCaps,
}

impl Drop for Standing {
    fn drop(self) {
        let Standing {
            labels: _,
            owned: _,
        } = self;
    }
}
