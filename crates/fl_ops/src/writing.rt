//! Operations to bytes, in the second format.
ghost use Rattle.std.specs.Prelude.{◌≡◌, ◌+◌, ◌<◌, ◌++◌, length, IfOk, OnOk, OnErr};
ghost use Rattle.std.specs.Vec.{vec_len, vec_capacity};
ghost use Rattle.fl_ops.specs.Bytes.{body_bytes, op_bytes};
ghost use Rattle.fl_ops.specs.declared.format.Format.TheVariants.{Two};

use crate::fields::{push_cap, push_name};
use crate::format::Format;
use crate::op::{Body, Op};
use std::alloc::{AllocError, Global};

// Adds what follows the name.
fn push_body(out: &mut Vec<u8>, body: &Body) -> Result<(), AllocError>
    ensures ok { OnOk result (out.new.items ≡ out.old.items ++ body_bytes Two body.now) }
    ensures full { OnErr result
        (vec_capacity out.old < vec_len out.old + length (body_bytes Two body.now)) }
{
    match body {
        Body::MakeTag(policy) => out.push(policy.number())?,
        Body::MakeGroup => (),
        Body::Put(group, cap) => {
            push_name(out, *group)?;
            push_cap(out, *cap)?;
        }
        Body::MakeLogin(cap, digest) => {
            push_cap(out, *cap)?;
            out.extend_from_slice(&digest.bytes)?;
        }
        Body::Open(group) => push_name(out, *group)?,
    }
    Ok(())
}

/// Adds the spelling of an operation at the end. Where the vector cannot grow for it, it is as
/// before.
pub fn push_op(out: &mut Vec<u8>, op: &Op) -> Result<(), AllocError>
    ensures ok { OnOk result (out.new.items ≡ out.old.items ++ op_bytes Two op.now) }
    ensures err { OnErr result (out.new.items ≡ out.old.items) }
    ensures full { OnErr result
        (vec_capacity out.old < vec_len out.old + length (op_bytes Two op.now)) }
{
    out.reserve(op.length(Format::Two))?;
    out.push(Format::Two.number())?;
    out.push(op.body.kind())?;
    push_name(out, op.name)?;
    push_body(out, &op.body)
}

/// The spelling of an operation. An error says that there was no memory for it.
pub fn encode(alloc: Global, op: &Op) -> Result<Vec<u8>, AllocError>
    ensures { IfOk result (λ bytes. bytes.items ≡ op_bytes Two op.now) }
{
    let mut bytes = Vec::new(alloc);
    push_op(&mut bytes, op)?;
    Ok(bytes)
}
