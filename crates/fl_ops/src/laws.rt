//! Laws of operations, their bytes and registries.
ghost use Rattle.std.specs.Prelude.{◌≡◌, ◌↔◌, ◌⊎◌, ◌++◌, List, ℕ, Bool, IsTrue, Option, None};
ghost use Rattle.std.specs.Ordering.{nat_cmp, ordering_then};
ghost use Rattle.std.specs.declared.cmp.Ordering.TheVariants.{Equal};
ghost use Rattle.std.specs.Cmp.Lexicographic.{slice_cmp};
ghost use Rattle.fl_labels.specs.Caps.{Among, Dual};
ghost use Rattle.fl_labels.specs.declared.cap.Cap.{Cap};
ghost use Rattle.fl_labels.specs.declared.name.Name.{Name};
ghost use Rattle.fl_labels.specs.Name.{name_cmp};
ghost use Rattle.fl_labels.specs.Found.{Within};
ghost use Rattle.fl_ops.specs.declared.digest.Digest.{Digest};
ghost use Rattle.fl_ops.specs.declared.op.Op.{Op};
ghost use Rattle.fl_ops.specs.declared.format.Format.{Format};
ghost use Rattle.fl_ops.specs.declared.format.Format.TheVariants.{Two};
ghost use Rattle.fl_ops.specs.Bytes.{op_bytes};
ghost use Rattle.fl_ops.specs.Fits.{HasOp};
ghost use Rattle.fl_ops.specs.Grammar.{op_fault};
ghost use Rattle.fl_ops.specs.OpOrder.{op_cmp};
ghost use Rattle.fl_ops.specs.Logins.{IsFirstLogin, FindsLogin};
ghost use Rattle.fl_ops.specs.Registry.{Effective, IsClosed, IsGlobal, OpensNone, Reach, Reached};

use crate::op::Op;

/// Operations are ordered by name, and then by their bytes. Only equal ones tie, and `==` holds of
/// those alone.
pub fn law_order()
    ensures bytes { (a b : Op)
        → op_cmp a b ≡ ordering_then (name_cmp a.name b.name)
        (slice_cmp nat_cmp (op_bytes Two a) (op_bytes Two b)) }
    ensures ties { (a b : Op) → (⟦<Op as Ord>⟧.cmp a b ≡ Equal) ↔ (a ≡ b) }
    ensures equality { (a b : Op) → IsTrue (⟦<Op as PartialEq>⟧.eq a b) ↔ (a ≡ b) }
{}

/// What an operation spells is read, in each format that has it, whatever follows it; and no
/// spelling begins another.
pub fn law_one_spelling()
    ensures read { (f : Format) (op : Op) (rest : List ℕ) → HasOp f op
        → op_fault (op_bytes f op ++ rest) ≡ None }
    ensures one { (f g : Format) (a b : Op) (x y : List ℕ) → HasOp f a → HasOp g b
        → op_bytes f a ++ x ≡ op_bytes g b ++ y → (f ≡ g) × (a ≡ b) × (x ≡ y) }
    ensures written { (op : Op) → HasOp Two op }
{}

/// What is reached through a registry is the least set that holds what is owned and, with the use
/// of a group, all that the registry puts into the group. So more operations and more that is owned
/// reach no less, and what is reached reaches no more.
pub fn law_reach()
    ensures roots { (ops : Op → Bool) (owned : Cap → Bool)
        → Within (Among owned) (Reached ops owned) }
    ensures closed { (ops : Op → Bool) (owned : Cap → Bool)
        → IsClosed (Among ops) (Reached ops owned) }
    ensures least { (ops : Op → Bool) (owned kept : Cap → Bool)
        → Within (Among owned) (Among kept) → IsClosed (Among ops) (Among kept)
        → Within (Reached ops owned) (Among kept) }
    ensures grows { (ops more : Op → Bool) (owned held : Cap → Bool)
        → Within (Among ops) (Among more) → Within (Among owned) (Among held)
        → Within (Reached ops owned) (Reached more held) }
    ensures composes { (ops : Op → Bool) (owned : Cap → Bool)
        → Within (Reach (Among ops) (Reached ops owned)) (Reached ops owned) }
{}

/// What everybody has, what is in effect for an owner, and the tags that the owner may both add and
/// remove: more operations and more that is owned take none of it away.
pub fn law_effective()
    ensures global { (ops more : Op → Bool) → Within (Among ops) (Among more)
        → Within (IsGlobal (Among ops)) (IsGlobal (Among more)) }
    ensures effective { (ops more : Op → Bool) (owned held : Cap → Bool)
        → Within (Among ops) (Among more) → Within (Among owned) (Among held)
        → Within (Effective ops owned) (Effective more held) }
    ensures dual { (ops more : Op → Bool) (owned held : Cap → Bool)
        → Within (Among ops) (Among more) → Within (Among owned) (Among held)
        → Within (Dual (Effective ops owned)) (Dual (Effective more held)) }
{}

/// Where no group is opened, what is in effect for an owner is what is reached from what is owned,
/// and what everybody has.
pub fn law_no_open()
    ensures { (ops : Op → Bool) (owned : Cap → Bool) → OpensNone (Among ops) → (c : Cap)
        → Effective ops owned c ↔ (Reached ops owned c ⊎ IsGlobal (Among ops) c) }
{}

/// A name has no more than one first login in a registry: one capability, and one digest.
/// Registries with the same operations have the same.
pub fn law_login()
    ensures one { (ops : Op → Bool) (login : Name) (c d : Cap) (x y : Digest)
        → IsFirstLogin (Among ops) login c x → IsFirstLogin (Among ops) login d y
        → (c ≡ d) × (x ≡ y) }
    ensures same { (ops others : Op → Bool) (login : Name) (found : Option (Cap × Digest))
        → Within (Among ops) (Among others) → Within (Among others) (Among ops)
        → FindsLogin (Among ops) login found → FindsLogin (Among others) login found }
{}
