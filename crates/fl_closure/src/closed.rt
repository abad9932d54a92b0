//! What each group reaches and what everybody does, and who reaches the use of a group.
ghost use Rattle.std.specs.Prelude.{◌≡◌, ◌↔◌, ◌⊎◌, Some, IfOk, OnOk, MatchOption, []};
ghost use Rattle.std.specs.List.{Contains};
ghost use Rattle.fl_labels.specs.Found.{Tells};
ghost use Rattle.fl_labels.specs.declared.name.Name.{Name};
ghost use Rattle.fl_closure.specs.declared.rows.Owner.{Owner};
ghost use Rattle.fl_closure.specs.declared.rows.Owner.TheVariants.{Everybody, Group};
ghost use Rattle.fl_labels.specs.declared.cap.Cap.{Cap};
ghost use Rattle.fl_labels.specs.declared.cap.Cap.TheVariants.{Use};
ghost use Rattle.fl_closure.specs.parts.Block.{AreIn};
ghost use Rattle.fl_closure.specs.parts.Rows.{Holds, Adds, OfOne, ComesUpon};
ghost use Rattle.fl_closure.specs.parts.Closed.{entry, Gives, Behind, ComesBehind, Leads, IsAbove, AreTransitive, AreMirrored, AreLed, AreAbove, Renews, ClosesWith};
ghost use Rattle.fl_closure.specs.parts.Noted.{GainsBoth, LosesBoth, NotesBoth};

use crate::block::{Block, used};
use crate::rows::{Note, Owner, Rows};
use crate::witness::Witness;
use fl_labels::cap::Cap;
use fl_labels::name::Name;
use fl_ops::op::{Body, Op, Policy};
use std::alloc::{AllocError, Global};

/// A capability for a row.
#[derive(Clone, Copy, Debug)]
pub struct Entry {
    pub owner: Owner,
    pub cap: Cap,
}

/// What is new in closed rows.
#[derive(Debug, Drop)]
pub struct Notes {
    pub reached: Vec<Note>,
    pub users: Vec<Note>,
}

impl Notes {
    /// Nothing. Takes no memory.
    pub fn new(alloc: Global) -> Self
        ensures reached { result.reached.items ≡ [] }
        ensures users { result.users.items ≡ [] }
    {
        Notes {
            reached: Vec::new(alloc),
            users: Vec::new(alloc),
        }
    }
}

/// For each group what it reaches, and the groups that reach the use of it; and what everybody
/// reaches.
#[derive(Debug, Drop)]
pub struct ClosedRows {
    reached: Rows,
    // In the row of a group, the uses of the groups that have the use of it in their rows.
    users: Rows,
    alloc: Global,
}

/// What the operation gives, and to whom.
pub(crate) fn gift(op: &Op) -> Option<Entry>
    ensures { (owner : Owner) (c : Cap) → Gives op.now owner c ↔ (result ≡ Some (entry owner c)) }
{
    let (owner, cap) = match op.body {
        Body::MakeTag(Policy::Export) => (Owner::Everybody, Cap::Plus(op.name)),
        Body::MakeTag(Policy::Integrity) => (Owner::Everybody, Cap::Minus(op.name)),
        Body::Put(group, cap) => (Owner::Group(group), cap),
        Body::Open(group) => (Owner::Everybody, Cap::Use(group)),
        Body::MakeTag(Policy::Read) | Body::MakeGroup | Body::MakeLogin(_, _) => return None,
    };
    Some(Entry { owner, cap })
}

/// What the operation gives to everybody.
pub(crate) fn global_gift(op: &Op) -> Option<Cap>
    ensures { (c : Cap) → Gives op.now Everybody c ↔ (result ≡ Some c) }
{
    let entry = gift(op)?;
    match entry.owner {
        Owner::Everybody => Some(entry.cap),
        Owner::Group(_) => None,
    }
}

impl ClosedRows {
    /// No group reaches anything. Takes no memory.
    pub fn new(alloc: Global) -> Self
        ensures nothing { (owner : Owner) (c : Cap) → ¬ Holds result.reached owner c }
        ensures mirrored { AreMirrored result }
    {
        ClosedRows {
            reached: Rows::new(alloc),
            users: Rows::new(alloc),
            alloc,
        }
    }

    /// Whether everybody reaches the capability. One search by hash.
    pub fn is_everybodys(&self, cap: Cap) -> bool
        ensures { Tells result (Holds self.now.reached Everybody cap) }
    {
        self.reached.has(Owner::Everybody, cap)
    }

    /// Whether the one capability leads to the other: it is the same one, or the use of a group
    /// that reaches it. A search by hash and one by order.
    pub fn leads(&self, root: Cap, cap: Cap) -> bool
        ensures { Tells result (Leads self.now.reached root cap) }
    {
        if root == cap {
            return true;
        }
        match root {
            Cap::Use(group) => self.reached.has(Owner::Group(group), cap),
            Cap::Plus(_) | Cap::Minus(_) | Cap::Grow(_) => false,
        }
    }

    /// What everybody reaches at the place of the capability, where everybody reaches that. One
    /// search by hash.
    pub fn everybodys(&self, cap: Cap) -> Option<Witness>
        ensures { let rows = self.now.reached in
            MatchOption result (¬ Holds rows Everybody cap) (ComesUpon rows Everybody cap) }
    {
        self.reached.witness(Owner::Everybody, cap)
    }

    // What the group reaches at the place of the capability, where the first one is the use of a
    // group that reaches that. A search by hash and one by order.
    fn behind(&self, root: Cap, cap: Cap) -> Option<Witness>
        ensures { let rows = self.now.reached in
            MatchOption result (¬ Behind rows root cap) (ComesBehind rows root cap) }
    {
        match root {
            Cap::Use(group) => self.reached.witness(Owner::Group(group), cap),
            Cap::Plus(_) | Cap::Minus(_) | Cap::Grow(_) => None,
        }
    }

    /// What the first of these groups reaches at the place of the capability that reaches it, where
    /// one of these is the use of such a group. For each that is the use of a group a search by
    /// hash and one by order, up to that one, and a glance at each other one.
    pub fn one_behind(&self, roots: &[Cap], cap: Cap) -> Option<Witness>
        ensures { let rows = self.now.reached in MatchOption result
            ((root : Cap) → Contains roots.now root → ¬ Behind rows root cap)
            (λ w. (root : Cap) × Contains roots.now root × ComesBehind rows root cap w) }
    {
        for root in roots {
            if let Some(witness) = self.behind(*root, cap) {
                return Some(witness);
            }
        }
        None
    }

    /// Whether the owner reaches the capability. A search by hash, and then for a group one by
    /// order.
    pub fn has(&self, owner: Owner, cap: Cap) -> bool
        ensures { Tells result (Holds self.now.reached owner cap) }
    {
        self.reached.has(owner, cap)
    }

    // The capability, and what it leads to.
    fn led(&self, cap: Cap) -> Result<Vec<Block>, AllocError>
        ensures { IfOk result (λ led. AreLed self.now.reached cap led.items) }
    {
        if let Cap::Use(group) = cap {
            return self.reached.blocks_with(cap, group);
        }
        let mut blocks = Vec::new(self.alloc);
        blocks.push(Block::only(cap))?;
        Ok(blocks)
    }

    // The uses of the group, and of each group that reaches the use of it, but of those that reach
    // the capability if that is the use of a group. Who reaches it reaches what it leads to.
    fn above(&self, group: Name, cap: Cap) -> Result<Vec<Block>, AllocError>
        requires { AreMirrored self.now }
        ensures { IfOk result (λ above. AreAbove self.now.reached group cap above.items) }
    {
        let above = self.users.blocks_with(Cap::Use(group), group)?;
        let Cap::Use(used) = cap else {
            return Ok(above);
        };
        self.users.lacking(Owner::Group(used), &above)
    }

    // Gives the owner of a group a capability, which leads to these, and notes what that adds to
    // its row, to that of each group that reaches the use of it, and to everybody's where everybody
    // does.
    fn give_above(
        &mut self,
        group: Name,
        cap: Cap,
        led: &[Block],
        notes: &mut Notes,
    ) -> Result<(), AllocError>
        requires transitive { AreTransitive self.old.reached }
        requires mirrored { AreMirrored self.old }
        requires led { AreLed self.old.reached cap led.now }
        ensures ok { OnOk result (Renews self.old.reached (Group group) cap self.new.reached) }
        ensures mirrored { OnOk result (AreMirrored self.new) }
        ensures notes { NotesBoth notes.old self.old notes.new self.new }
    {
        let above = self.above(group, cap)?;
        let new = self.reached.lacking(Owner::Group(group), led)?;
        let users = used(self.alloc, &above)?;
        let groups = used(self.alloc, &new)?;
        self.users.note_each(&groups, &above, &mut notes.users)?;
        self.reached.note_each(&users, &new, &mut notes.reached)?;
        if self.is_everybodys(Cap::Use(group)) {
            self.reached
                .note_all(Owner::Everybody, &new, &mut notes.reached)?;
        }
        Ok(())
    }

    // Gives a capability to the owner, and notes what that adds to the rows.
    fn give(&mut self, owner: Owner, cap: Cap, notes: &mut Notes) -> Result<(), AllocError>
        requires transitive { AreTransitive self.old.reached }
        requires mirrored { AreMirrored self.old }
        ensures ok { OnOk result (Renews self.old.reached owner cap self.new.reached) }
        ensures mirrored { OnOk result (AreMirrored self.new) }
        ensures notes { NotesBoth notes.old self.old notes.new self.new }
    {
        if self.reached.has(owner, cap) {
            return Ok(());
        }
        let led = self.led(cap)?;
        match owner {
            Owner::Group(group) => self.give_above(group, cap, &led, notes),
            Owner::Everybody => {
                let notes = &mut notes.reached;
                self.reached.note_all(Owner::Everybody, &led, notes)
            }
        }
    }

    /// Gives what the operations give, and notes what that adds to the rows: after an error too, so
    /// that it can be taken out again. Fails only where there is not enough memory.
    pub fn give_all(&mut self, ops: &[Op], notes: &mut Notes) -> Result<(), AllocError>
        requires transitive { AreTransitive self.old.reached }
        requires mirrored { AreMirrored self.old }
        requires reached { notes.old.reached.items ≡ [] }
        requires users { notes.old.users.items ≡ [] }
        ensures ok { OnOk result (ClosesWith self.old.reached ops.now self.new.reached) }
        ensures mirrored { OnOk result (AreMirrored self.new) }
        ensures notes { GainsBoth self.old notes.new self.new }
    {
        for op in ops {
            if let Some(entry) = gift(op) {
                self.give(entry.owner, entry.cap, notes)?;
            }
        }
        Ok(())
    }

    /// Takes out what was noted. Takes no memory.
    pub fn take_all(&mut self, notes: &Notes)
        ensures { LosesBoth self.old notes.now self.new }
    {
        self.reached.take_all(&notes.reached);
        self.users.take_all(&notes.users);
    }
}
