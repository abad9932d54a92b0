//! The aliases that are set.
ghost use Rattle.std.specs.Prelude.{◌≡◌, ◌<◌, ◌≤◌, ◌++◌, [], ◌∷◌, IfOk, IfErr, MatchOption, OnErr, IsTrue, IsSome, IsNone, ◌↔◌, None, Some, length};
ghost use Rattle.std.specs.Bool.{MatchBool};
ghost use Rattle.fl_sink.specs.Sink.{Puts};
ghost use Rattle.fl_aliases.specs.Table.{Entry, IsTable, target_of, retargeted, table_text};
ghost use Rattle.fl_aliases.specs.TargetText.{target_text};
ghost use Rattle.fl_aliases.specs.declared.target.Target.{Target};

use crate::alias::Alias;
use crate::placed::Placed;
use crate::roomy::RoomyAliases;
use crate::target::Target;
use crate::text::write_line;
use fl_sink::sink::{Sink, WriteFault};
use fl_sink::writer::Writer;
use indexmap::IndexMap;
use std::alloc::{AllocError, Global};
use std::marker::Model;

/// The most aliases that are set.
pub const MOST_ALIASES: usize = 1024;

/// What the aliases of a script stand for, in the order of their first setting. At most
/// [`MOST_ALIASES`] are set.
#[derive(Drop)]
pub struct Aliases {
    pub(crate) targets: IndexMap<Alias, Placed>,
}

impl Model for Aliases {
    ghost use Rattle.fl_aliases.specs.Table.{Table, IsTable};

    ghost Value = { Table };

    ghost view = { λ a. a.targets.entries };

    ghost invariant = { λ a. IsTable a.targets.entries };
}

impl Aliases {
    /// No aliases. Takes no memory.
    pub fn new(alloc: Global) -> Self
        ensures { result ≡ [] }
    {
        Aliases {
            targets: IndexMap::new(alloc),
        }
    }

    /// How many aliases are set.
    pub fn len(&self) -> usize
        ensures count { result ≡ length self.now }
        ensures table { IsTable self.now }
    {
        self.targets.len()
    }

    /// Whether no alias is set.
    pub fn is_empty(&self) -> bool
        ensures { IsTrue result ↔ (length self.now ≡ 0) }
    {
        self.targets.is_empty()
    }

    /// Whether as many aliases are set as may be.
    pub fn is_full(&self) -> bool
        ensures { MatchBool result (length self.now ≡ 1024) (length self.now < 1024) }
    {
        self.len() == MOST_ALIASES
    }

    /// What the alias stands for, or `None` where it is not set. One look-up.
    pub fn get(&self, alias: &Alias) -> Option<Target>
        ensures { result ≡ target_of self.now alias.now }
    {
        let placed = self.targets.get(alias)?;
        Some(placed.target())
    }

    /// How what the alias stands for is written, or `None` where it is not set. One look-up.
    pub(crate) fn text_of(&self, alias: &Alias) -> Option<&str>
        ensures { let found = target_of self.now alias.now in
            MatchOption result (found ≡ None) (λ text. (target : Target) × (found ≡ Some target)
            × (text.now ≡ target_text target)) }
    {
        let placed = self.targets.get(alias)?;
        Some(placed.text())
    }

    /// Sets an alias that is not set, as the last one, and answers whether it did: one that is set
    /// is left. An error leaves all.
    pub fn place(&mut self, alias: Alias, target: Target) -> Result<bool, AllocError>
        requires room { target_of self.old alias ≡ None → length self.old < 1024 }
        ensures new { let found = target_of self.old alias in
            IfOk result (λ new. MatchBool new (IsNone found) (IsSome found)) }
        ensures ok { let placed = self.old ++ (alias, target) ∷ [] in
            IfOk result (λ new. MatchBool new (self.new ≡ placed) (self.new ≡ self.old)) }
        ensures err { OnErr result (self.new ≡ self.old) }
        ensures absent { OnErr result (target_of self.old alias ≡ None) }
    {
        if self.targets.contains_key(&alias) {
            return Ok(false);
        }
        let placed = Placed::new(target);
        self.targets.insert(alias, placed)?;
        Ok(true)
    }

    /// The same aliases with room for so many more, which are set with no memory then. An error is
    /// want of memory, and gives the aliases back.
    pub fn with_room(self, count: usize) -> Result<RoomyAliases, Aliases>
        ensures ok { IfOk result (λ roomy. (roomy.table ≡ self) × (count ≤ roomy.room)) }
        ensures err { IfErr result (λ aliases. aliases ≡ self) }
        ensures some { OnErr result (0 < count) }
    {
        let Aliases { mut targets } = self;
        match targets.reserve(count) {
            Ok(()) => Ok(RoomyAliases { targets }),
            Err(AllocError) => Err(Aliases { targets }),
        }
    }

    /// Has an alias that is set stand for this, in its place. Takes no memory.
    pub fn set(&mut self, alias: Alias, target: Target)
        requires { IsSome (target_of self.old alias) }
        ensures { self.new ≡ retargeted self.old alias target }
    {
        *self.targets.get_mut(&alias).unwrap() = Placed::new(target);
    }

    /// Takes the last alias out, by the order of first setting. Takes no memory.
    pub fn take_back(&mut self)
        requires { 0 < length self.old }
        ensures { (last : Entry) × (self.old ≡ self.new ++ last ∷ []) }
    {
        self.targets.pop();
    }

    /// Puts the text of the aliases into a sink, a line for each in order: `$a p1.1.1`. Takes no
    /// memory but the sink's.
    ///
    /// At a fault a front of what waited and the text was written, and the sink may not be used
    /// again.
    pub fn write_text<W: Writer>(&self, sink: &mut Sink, output: &mut W) -> Result<(), WriteFault>
        ensures puts { let text = table_text self.now in
            Puts (W.contents output.old) (W.contents output.new) sink.old text sink.new result }
        ensures cause { OnErr result (W.has_failed output.new) }
    {
        for (alias, placed) in self.targets.iter() {
            write_line(alias, placed.target(), sink, output)?;
        }
        Ok(())
    }
}
