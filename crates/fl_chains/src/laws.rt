//! Laws of chains, and of what is given for an answer.
ghost use Rattle.std.specs.Prelude.{◌≡◌, ◌↔◌, ◌≤◌, List, Bool, Option, IsSome, length};
ghost use Rattle.fl_labels.specs.Caps.{Among};
ghost use Rattle.fl_labels.specs.Cap.{cap_cmp};
ghost use Rattle.fl_labels.specs.SetBy.{SetBy, In};
ghost use Rattle.fl_labels.specs.declared.cap.Cap.{Cap};
ghost use Rattle.fl_labels.specs.declared.cap.Cap.TheVariants.{Use};
ghost use Rattle.fl_labels.specs.declared.name.Name.{Name};
ghost use Rattle.fl_ops.specs.declared.op.Op.{Op};
ghost use Rattle.fl_ops.specs.Registry.{Chain as Leads, From, InEffect, IsGlobal, Listed, Reach, WithGlobal};
ghost use Rattle.fl_chains.specs.declared.chain.Chain.{Chain};
ghost use Rattle.fl_chains.specs.declared.step.Step.{Step};
ghost use Rattle.fl_chains.specs.Chain.{ChainBy, FindsChain, IsLeastChain};
ghost use Rattle.fl_chains.specs.Giver.{IsGiver};

/// A chain is given exactly where the capability is reached: for who owns some, where it is in
/// effect, and for who may use a group, where the use of the group leads to it.
pub fn law_given()
    ensures owner { (ops : List Op) (owned : SetBy cap_cmp) (c : Cap) (r : Option Chain)
        → FindsChain (Listed ops) (WithGlobal (Listed ops) (In owned)) c r
        → IsSome r ↔ InEffect (Listed ops) (In owned) c }
    ensures group { (ops : List Op) (group : Name) (c : Cap) (r : Option Chain)
        → FindsChain (Listed ops) (From (Use group)) c r
        → IsSome r ↔ Reach (Listed ops) (From (Use group)) c }
{}

/// Steps lead from one capability to another exactly where a chain of the registry does.
pub fn law_steps()
    ensures { (ops : Op → Bool) (b c : Cap)
        → ((steps : List Step) × ChainBy (Among ops) b steps c) ↔ Leads (Among ops) b c }
{}

/// The least chain is one of the shortest, and there is no second.
pub fn law_least()
    ensures shortest { (ops : Op → Bool) (roots : Cap → Bool) (c root other : Cap)
        (steps others : List Step) → IsLeastChain (Among ops) (Among roots) c root steps
        → Among roots other → ChainBy (Among ops) other others c
        → length steps ≤ length others }
    ensures one { (ops : Op → Bool) (roots : Cap → Bool) (c root other : Cap)
        (steps others : List Step) → IsLeastChain (Among ops) (Among roots) c root steps
        → IsLeastChain (Among ops) (Among roots) c other others
        → (root ≡ other) × (steps ≡ others) }
{}

/// Everybody has a capability exactly where some operation gives it to everybody by itself.
pub fn law_giver()
    ensures { (ops : Op → Bool) (c : Cap)
        → ((name : Name) × IsGiver (Among ops) c name) ↔ IsGlobal (Among ops) c }
{}
