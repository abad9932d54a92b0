//! Looks at published operations.
use crate::digest::Digest;
use fl_labels::cap::Cap;
use fl_labels::cap_set::CapSet;
use fl_labels::name::Name;

/// A list of operations. Questions leave the view as it was, and take no memory.
pub trait View {
    ghost use Rattle.std.specs.Prelude.{◌≡◌, List, length};
    ghost use Rattle.fl_labels.specs.Found.{Tells};
    ghost use Rattle.fl_labels.specs.SetBy.{In};
    ghost use Rattle.fl_ops.specs.declared.op.Op.{Op};
    ghost use Rattle.fl_ops.specs.Registry.{Reach, From, InEffect, Listed};
    ghost use Rattle.fl_ops.specs.Logins.{FindsLogin};

    // the operations
    ghost list: { Self → List Op };

    /// How many operations the list has.
    fn seen(&self) -> u64
        ensures { result ≡ length (list self.now) };

    /// Whether the owner of these capabilities has this one in effect.
    fn effective(&mut self, owned: &CapSet, cap: Cap) -> bool
        ensures answer { Tells result (InEffect (Listed (list self.old)) (In owned.now) cap) }
        ensures same { self.new ≡ self.old };

    /// Whether the capability is reached from the root.
    fn reaches(&mut self, root: Cap, cap: Cap) -> bool
        ensures answer { Tells result (Reach (Listed (list self.old)) (From root) cap) }
        ensures same { self.new ≡ self.old };

    /// The least login of this name, as its capability and the digest of its secret, or none.
    fn login(&mut self, name: Name) -> Option<(Cap, Digest)>
        ensures answer { FindsLogin (Listed (list self.old)) name result }
        ensures same { self.new ≡ self.old };
}
