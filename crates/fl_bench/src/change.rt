//! Changes of a set of capabilities.
ghost use Rattle.std.specs.Prelude.{◌≡◌, IfOk, OnOk, map, reverse};
ghost use Rattle.fl_bench.specs.parts.Changes.{changed, after};

use fl_labels::cap::Cap;
use fl_labels::cap_set::CapSet;
use std::alloc::{AllocError, Global};

/// What happened to a set of capabilities.
#[derive(Clone, Copy)]
pub enum Change {
    Gained(Cap),
    Dropped(Cap),
}

impl Change {
    // Does to the set what happened. Fails only where there is not enough memory.
    fn apply(self, caps: &mut CapSet) -> Result<(), AllocError>
        ensures { OnOk result (caps.new ≡ changed caps.old self) }
    {
        match self {
            Change::Gained(cap) => {
                caps.insert(cap)?;
            }
            Change::Dropped(cap) => {
                caps.remove(cap);
            }
        }
        Ok(())
    }
}

/// Does to the set what happened, in turn. Fails only where there is not enough memory, and then
/// may have done some of it.
pub fn apply_all(caps: &mut CapSet, changes: &[Change]) -> Result<(), AllocError>
    ensures { OnOk result (caps.new ≡ after caps.old changes.now) }
{
    for change in changes {
        change.apply(caps)?;
    }
    Ok(())
}

/// That each of these capabilities was gained, the last one first. Fails only where there is not
/// enough memory.
pub fn gains(alloc: Global, caps: &[Cap]) -> Result<Vec<Change>, AllocError>
    ensures { IfOk result (λ made. made.items ≡ map Change.Gained (reverse caps.now)) }
{
    caps.iter()
        .rev()
        .map(|cap| Change::Gained(*cap))
        .collect(alloc)
}
