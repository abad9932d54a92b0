//! Aliases with room for more of them.
ghost use Rattle.std.specs.Prelude.{◌≡◌, ◌+◌, ◌<◌, ◌≤◌, None, length};
ghost use Rattle.fl_aliases.specs.Table.{IsTable, target_of, with_alias};

use crate::alias::Alias;
use crate::placed::Placed;
use crate::table::Aliases;
use crate::target::Target;
use indexmap::IndexMap;
use std::marker::Model;

/// The aliases of a script, and room for more of them: one is set with no memory as long as there
/// is room. Contracts see the aliases, and for how many more there is room at least.
#[derive(Drop)]
pub struct RoomyAliases {
    pub(crate) targets: IndexMap<Alias, Placed>,
}

impl Model for RoomyAliases {
    ghost use Rattle.indexmap.specs.IndexMap.{spare};
    ghost use Rattle.fl_aliases.specs.Roomy.{RoomyTable};
    ghost use Rattle.fl_aliases.specs.Table.{IsTable};

    ghost Value = { RoomyTable };

    ghost view = { λ a. record { table = a.targets.entries; room = spare a.targets } };

    ghost invariant = { λ a. IsTable a.targets.entries };
}

impl RoomyAliases {
    /// Has the alias stand for this: in its place where it is set, else as the last one. Takes no
    /// memory.
    pub fn set(&mut self, alias: Alias, target: Target)
        requires room { target_of self.old.table alias ≡ None → 0 < self.old.room }
        requires few { target_of self.old.table alias ≡ None → length self.old.table < 1024 }
        ensures table { self.new.table ≡ with_alias self.old.table alias target }
        ensures room { self.old.room ≤ self.new.room + 1 }
    {
        let _ = self.targets.insert(alias, Placed::new(target));
    }

    /// The aliases that are set. Takes no memory.
    pub fn into_aliases(self) -> Aliases
        ensures aliases { result ≡ self.table }
        ensures table { IsTable self.table }
    {
        Aliases {
            targets: self.targets,
        }
    }
}
