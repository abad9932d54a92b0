//! Tests of secrets.
use fl_jobs::job::{Act, Order};
use fl_jobs::secret::Secret;
use fl_labels::cap::Cap;
use fl_labels::name::Name;
use std::alloc::AllocError;

fn show(out: &mut String, act: &Act, order: &Order) -> Result<(), AllocError> {
    write!(out, "{act:?} {order:?}")
}

/// No text shows a secret, nor an act or an order that holds one.
#[test]
fn secrets_are_hidden(rt: HostRuntime) -> Result<(), AllocError> {
    let name = Name { node: 1, seq: 2 };
    let secret = Secret { bytes: [171; 32] };
    let act = Act::Enter(name, secret);
    let mut out = String::new(rt.alloc());
    show(&mut out, &act, &Order::MakeLogin(Cap::Plus(name), secret))?;
    assert_eq!(rt;
        out.as_str(),
        "Enter(Name { node: 1, seq: 2 }, Secret) \
MakeLogin(Plus(Name { node: 1, seq: 2 }), Secret)"
    );
    Ok(())
}
