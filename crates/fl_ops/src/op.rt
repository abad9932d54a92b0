//! Operations and their order.
ghost use Rattle.std.specs.Prelude.{◌≡◌, refl, length};
ghost use Rattle.std.specs.Ordering.{nat_cmp, ordering_then, as_partial_cmp, eq_by_cmp};
ghost use Rattle.std.specs.Cmp.Lexicographic.{slice_cmp};
ghost use Rattle.fl_labels.specs.Cap.{cap_name, cap_rank};
ghost use Rattle.fl_labels.specs.Name.{name_cmp};
ghost use Rattle.fl_ops.specs.Bytes.{policy_byte, kind_byte, op_bytes};
ghost use Rattle.fl_ops.specs.PolicyText.{policy_text};
ghost use Rattle.fl_ops.specs.OpOrder.{body_key, op_cmp};

use crate::digest::Digest;
use crate::format::Format;
use fl_labels::cap::Cap;
use fl_labels::name::{Group, Name};
use std::cmp::Ordering;

/// Which capability of a new tag everyone gets: to add it, none, or to remove it.
#[derive(Clone, Copy, Debug, PartialEq, Eq)]
pub enum Policy {
    /// Everyone may add the tag.
    Export,
    /// Nobody else may add or remove the tag.
    Read,
    /// Everyone may remove the tag.
    Integrity,
}

/// What an operation does.
#[derive(Clone, Copy, Debug, PartialEq, Eq)]
pub enum Body {
    /// Makes the tag of the operation's name.
    MakeTag(Policy),
    /// Makes the group of the operation's name.
    MakeGroup,
    /// Puts the capability into the group: who may use the group has it.
    Put(Group, Cap),
    /// Makes the login of the operation's name: who knows the secret of this digest gets the
    /// capability.
    MakeLogin(Cap, Digest),
    /// Opens the group: everybody may use it.
    Open(Group),
}

/// An entry of the tag registry. Ordered by name, then by its bytes.
#[derive(Clone, Copy, Debug)]
pub struct Op {
    /// What it is called, and so the tag, the group or the login that it makes.
    pub name: Name,
    /// What it does.
    pub body: Body,
}

impl Policy {
    /// Its number in the bytes of an operation.
    pub fn number(self) -> u8
        ensures { result ≡ policy_byte self }
    {
        match self {
            Policy::Export => 1,
            Policy::Read => 2,
            Policy::Integrity => 3,
        }
    }

    /// Its word: `export`, `read` or `integrity`.
    pub fn text(self) -> &'static str
        ensures { result.now ≡ policy_text self }
    {
        match self {
            Policy::Export => "export",
            Policy::Read => "read",
            Policy::Integrity => "integrity",
        }
    }
}

impl Body {
    /// The number of its kind in the bytes of an operation.
    pub fn kind(&self) -> u8
        ensures { result ≡ kind_byte self.now }
    {
        match self {
            Body::MakeTag(_) => 1,
            Body::MakeGroup => 2,
            Body::Put(_, _) => 3,
            Body::MakeLogin(_, _) => 4,
            Body::Open(_) => 5,
        }
    }
}

impl Op {
    /// How many bytes its spelling takes in this format.
    pub fn length(&self, format: Format) -> usize
        ensures { result ≡ length (op_bytes format self.now) }
    {
        let body = match self.body {
            Body::MakeTag(_) => 1,
            Body::MakeGroup => 0,
            Body::Put(_, _) => format.name_size() + format.cap_size(),
            Body::MakeLogin(_, _) => format.cap_size() + 32,
            Body::Open(_) => format.name_size(),
        };
        format.body_place() + body
    }
}

// As the bytes of the capabilities: by kind, and then by name.
fn cmp_caps(a: Cap, b: Cap) -> Ordering
    ensures { result ≡ ordering_then (nat_cmp (cap_rank a) (cap_rank b))
        (name_cmp (cap_name a) (cap_name b)) }
{
    a.rank().cmp(&b.rank()).then(a.name().cmp(&b.name()))
}

// As the bytes of the bodies.
fn cmp_bodies(a: &Body, b: &Body) -> Ordering
    ensures { result ≡ slice_cmp nat_cmp (body_key a.now) (body_key b.now) }
{
    match (a, b) {
        (Body::MakeTag(p), Body::MakeTag(q)) => p.number().cmp(&q.number()),
        (Body::Put(g, c), Body::Put(h, d)) => g.cmp(h).then(cmp_caps(*c, *d)),
        (Body::Open(g), Body::Open(h)) => g.cmp(h),
        (Body::MakeLogin(c, x), Body::MakeLogin(d, y)) => {
            cmp_caps(*c, *d).then(x.bytes.as_slice().cmp(y.bytes.as_slice()))
        }
        _ => a.kind().cmp(&b.kind()),
    }
}

// Equal where the order does not tell them apart.
impl PartialEq for Op {
    ghost use Rattle.fl_ops.specs.OpLaws.{op_partial_equivalence};

    ghost eq = { eq_by_cmp op_cmp };

    ghost laws = { op_partial_equivalence };

    fn eq(&self, other: &Self) -> bool {
        self.cmp(other).is_eq()
    }
}

impl Eq for Op {
    ghost use Rattle.fl_ops.specs.OpLaws.{op_equivalence};

    ghost laws = { op_equivalence };
}

impl Ord for Op {
    ghost use Rattle.fl_ops.specs.OpLaws.{op_total};

    ghost cmp = { op_cmp };

    ghost total = { op_total };

    ghost matches_partial_cmp = { λ _ _. refl };

    ghost matches_eq = { λ _ _. refl };

    fn cmp(&self, other: &Self) -> Ordering {
        self.name
            .cmp(&other.name)
            .then(cmp_bodies(&self.body, &other.body))
    }
}

impl PartialOrd for Op {
    ghost use Rattle.fl_ops.specs.OpLaws.{op_partial};

    ghost partial_cmp = { as_partial_cmp op_cmp };

    ghost laws = { op_partial };

    fn partial_cmp(&self, other: &Self) -> Option<Ordering> {
        Some(self.cmp(other))
    }
}
