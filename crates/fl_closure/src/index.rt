//! The index of who reaches what.
ghost use Rattle.std.specs.Prelude.{◌≡◌, OnOk, OnErr, MatchOption, false};
ghost use Rattle.std.specs.List.{Contains};
ghost use Rattle.fl_labels.specs.Found.{Tells, Within};
ghost use Rattle.fl_labels.specs.SetBy as set;
ghost use Rattle.fl_labels.specs.SetBy.{In};
ghost use Rattle.fl_ops.specs.declared.op.Op.{Op};
ghost use Rattle.fl_ops.specs.OpOrder.{op_cmp};
ghost use Rattle.fl_ops.specs.Logins.{FindsLogin};
ghost use Rattle.fl_ops.specs.Registry.{Reach, From, IsGlobal, InEffect, Listed};
ghost use Rattle.fl_closure.specs.Witness.{IsWitness, Shows};
ghost use Rattle.fl_closure.specs.parts.Knowing.{IsKnown};

use crate::absorbed::Absorbed;
use crate::closure::{Closure, News};
use crate::logins::logins_of;
use crate::witness::Witness;
use fl_labels::cap::Cap;
use fl_labels::cap_set::CapSet;
use fl_labels::name::Name;
use fl_ops::digest::Digest;
use fl_ops::op::{Body, Op};
use fl_opset::set::OpSet;
use std::alloc::{AllocError, Global};
use std::marker::Model;

/// A set of operations, by all that each group and everybody reaches through them, so that a
/// question is a look into a row or two. The operations themselves are not kept, but for the logins
/// among them. Contracts see the set.
///
/// What a group reaches stands in blocks, of up to 32 capabilities of one kind and one node whose
/// numbers, divided by 32, are the same. Each block takes some 20 bytes, and of uses of groups the
/// groups that are used have blocks of their users, as much again: ten thousand groups in a chain
/// would have fifty million pairs in three million blocks. What everybody reaches takes 30 to 40
/// bytes a block, and what operations give to everybody as much.
pub struct Index {
    closure: Closure,
    logins: OpSet,
    absorbed: Absorbed,
    alloc: Global,
}

impl Drop for Index {
    fn drop(self) {
        let Index {
            closure: _,
            logins: _,
            absorbed: _,
            alloc: _,
        } = self;
    }
}

impl Model for Index {
    ghost use Rattle.fl_labels.specs.SetBy as set;
    ghost use Rattle.fl_ops.specs.OpOrder.{op_cmp};
    ghost use Rattle.fl_ops.specs.OpLaws.{coded_op};
    ghost use Rattle.fl_closure.specs.parts.Knowing.{IsIndex};

    ghost Value = { set.SetBy op_cmp };

    ghost coded = { set.code coded_op };

    ghost view = { λ a. set.of_list a.absorbed };

    ghost invariant = { λ a. IsIndex a.absorbed a.closure a.logins };
}

// Whether all that follows from the operation is there.
fn knows(closure: &Closure, logins: &OpSet, op: &Op) -> bool
    ensures { Tells result (IsKnown closure.now logins.now op.now) }
{
    if !closure.follows(op) {
        return false;
    }
    match op.body {
        Body::MakeLogin(_, _) => logins.contains(op),
        _ => true,
    }
}

// Whether all that follows from the operations is there. Looks for each, up to the first of which
// it is not.
fn knows_all(closure: &Closure, logins: &OpSet, ops: &[Op]) -> bool
    ensures { Tells result (Within (Listed ops.now) (IsKnown closure.now logins.now)) }
{
    for op in ops {
        if !knows(closure, logins, op) {
            return false;
        }
    }
    true
}

impl Index {
    /// The index of no operation. Takes no memory.
    pub fn new(alloc: Global) -> Self
        ensures { result ≡ set.empty }
    {
        Index {
            closure: Closure::new(alloc),
            logins: OpSet::new(alloc),
            absorbed: Absorbed::new(),
            alloc,
        }
    }

    /// The least login of this name, as its capability and the digest of its secret, or none. A
    /// binary search; takes no memory.
    pub fn login(&self, name: Name) -> Option<(Cap, Digest)>
        ensures { FindsLogin (In self.now) name result }
    {
        self.logins.first_login(name)
    }

    /// Adds an operation; one that is there already changes nothing. Fails only of a new one for
    /// which there is not enough memory, and then leaves the index. Costs what `absorb_all` does.
    pub fn absorb(&mut self, op: &Op) -> Result<(), AllocError>
        ensures ok { OnOk result (self.new ≡ set.insert self.old op.now) }
        ensures err { OnErr result (self.new ≡ self.old) }
        ensures absent { OnErr result (set.contains self.old op.now ≡ false) }
    {
        let alloc = self.alloc;
        self.absorb_all(alloc, &[*op])
    }

    /// Adds operations, all or none. Fails only where one of them is new and there is not enough
    /// memory, and then leaves the index.
    ///
    /// A look for each, up to the first of which not all is there that follows from it; where there
    /// is none, no memory is taken. Else a put of what its group lacks renews the rows of that
    /// group, of each group that reaches the use of it, and of everybody where everybody does; but
    /// where a use is put, of none that reaches it already. That costs each of these rows a search
    /// by hash and one by order for each block that the group gains, and each group whose use it
    /// gains as much for each block of those groups. A put of what its group reaches already looks
    /// into the one row. An operation that gives something to everybody so renews everybody's row
    /// alone, and what it gives is also looked for among what others gave. A login is put among the
    /// others. Until it ends, what is new is also in a list, so that it can be taken out again
    /// without memory.
    pub fn absorb_all(&mut self, alloc: Global, ops: &[Op]) -> Result<(), AllocError>
        ensures ok { OnOk result (self.new ≡ set.union self.old (set.of_list ops.now)) }
        ensures err { OnErr result (self.new ≡ self.old) }
        ensures absent { OnErr result
            ((op : Op) × Contains ops.now op × (set.contains self.old op ≡ false)) }
    {
        if knows_all(&self.closure, &self.logins, ops) {
            self.absorbed.add_all(ops);
            return Ok(());
        }
        let logins = logins_of(alloc, ops)?;
        let mut news = News::new(alloc);
        if let Err(error) = self.closure.give_all(ops, &mut news) {
            self.closure.take_all(&news);
            return Err(error);
        }
        if let Err(error) = self.logins.merge(&logins) {
            self.closure.take_all(&news);
            return Err(error);
        }
        self.absorbed.add_all(ops);
        Ok(())
    }

    /// Whether the owner of the one capability reaches the other: it is the same one, or was put
    /// into a group of which the owner reaches the use. A search by hash and one by order; takes no
    /// memory.
    pub fn reaches(&self, root: Cap, cap: Cap) -> bool
        ensures { Tells result (Reach (In self.now) (From root) cap) }
    {
        self.closure.rows.leads(root, cap)
    }

    /// Whether everybody has the capability: to add an export tag, to remove an integrity tag, or
    /// to use an opened group. What these lead to is in effect for everybody, but not told here. A
    /// search by hash; takes no memory.
    pub fn global(&self, cap: Cap) -> bool
        ensures { Tells result (IsGlobal (In self.now) cap) }
    {
        self.closure.globals.has(cap)
    }

    /// What shows that the owner of these capabilities has this one in effect, which it does not
    /// own, or none where it has not. Takes no memory.
    ///
    /// A search by hash in what everybody reaches. Where it is not there, then one by hash and one
    /// by order for each use of a group that is owned, up to the first that reaches it.
    pub fn witness(&self, owned: &CapSet, cap: Cap) -> Option<Witness>
        requires { set.contains owned.now cap ≡ false }
        ensures { let U = In self.now in let O = In owned.now in
            MatchOption result (¬ InEffect U O cap) (λ w. IsWitness U w × Shows w O cap) }
    {
        match self.closure.rows.everybodys(cap) {
            Some(witness) => Some(witness),
            None => self.closure.rows.one_behind(owned.uses(), cap),
        }
    }

    /// Whether the owner of these capabilities has this one in effect: reaches it from what it
    /// owns, or from what everybody has. Takes no memory. A binary search in what is owned, and
    /// where it is not there, what `witness` costs.
    pub fn effective(&self, owned: &CapSet, cap: Cap) -> bool
        ensures { Tells result (InEffect (In self.now) (In owned.now) cap) }
    {
        owned.contains(cap) || self.witness(owned, cap).is_some()
    }
}
