//! The logins whose capability leads to another.
ghost use Rattle.std.specs.Prelude.{◌≡◌, ◌↔◌, Some, IfOk, OnErr};
ghost use Rattle.fl_ops.specs.Registry.{Listed};
ghost use Rattle.fl_chains.specs.declared.logins.Login.{Login};
ghost use Rattle.fl_chains.specs.Leading.{IsTarget, LoginLeads, login_cmp};
ghost use Rattle.fl_chains.specs.Rising.{AreRising};
ghost use Rattle.fl_chains.specs.parts.Logins.{MakesLogin};

use crate::groups::{Target, leads};
use fl_labels::cap::Cap;
use fl_labels::name::Name;
use fl_labels::sorted::arrange;
use fl_ops::op::{Body, Op};
use std::alloc::{AllocError, Global};

/// A login, and the capability that who knows its secret gets. Ordered by the name, and then by the
/// capability.
#[derive(Clone, Copy, Debug, PartialEq, Eq, PartialOrd, Ord)]
pub struct Login {
    pub name: Name,
    pub cap: Cap,
}

// The login that the operation makes.
fn login_of(op: &Op) -> Option<Login>
    ensures { (login : Login) → (result ≡ Some login) ↔ MakesLogin op.now login }
{
    match op.body {
        Body::MakeLogin(cap, _) => Some(Login { name: op.name, cap }),
        Body::MakeTag(_) | Body::MakeGroup | Body::Put(_, _) | Body::Open(_) => None,
    }
}

/// The logins whose capability leads to the target, rising.
///
/// Fails only where there is such a login, and not enough memory. A binary search for each login,
/// and a sort of those that it gives.
pub fn logins_to(alloc: Global, target: Target<'_>) -> Result<Vec<Login>, AllocError>
    requires { IsTarget target }
    ensures found { let t = target.entry in IfOk result (λ made.
        AreRising login_cmp (LoginLeads (Listed t.ops.now) t.cap) made.items) }
    ensures memory { let t = target.entry in
        OnErr result ((login : Login) × LoginLeads (Listed t.ops.now) t.cap login) }
{
    let mut logins = Vec::new(alloc);
    for op in target.ops {
        if let Some(login) = login_of(op) {
            if leads(target, login.cap) {
                logins.push(login)?;
            }
        }
    }
    arrange(&mut logins);
    Ok(logins)
}
