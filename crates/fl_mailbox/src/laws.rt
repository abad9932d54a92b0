//! Laws of the open endpoints of a process.
ghost use Rattle.std.specs.Prelude.{◌↔◌};
ghost use Rattle.fl_labels.specs.Found.{Within};
ghost use Rattle.fl_rules.specs.declared.labels.Labels.{Labels};
ghost use Rattle.fl_mailbox.specs.Endpoints.{Table};
ghost use Rattle.fl_mailbox.specs.Offenders.{AllSafe, CrossesAt, DualAt};

use fl_rules::has::Has;

/// Each open endpoint is safe exactly where each tag that one of them crosses may be both added and
/// removed: so `first_unsafe` answers none exactly where each is safe.
pub fn law_open_endpoints<H: Has>()
    ensures { (h : H) (process : Labels) (table : Table)
        → AllSafe (H.effective h) process table
        ↔ Within (CrossesAt process table) (DualAt (H.effective h)) }
{}
