//! Packets to bytes, in the second format.
ghost use Rattle.std.specs.Prelude.{◌≡◌, ◌≤◌, ◌++◌, ◌∷◌, [], IfOk, OnOk, length};
ghost use Rattle.std.specs.Int.{w16, to_be_bytes};
ghost use Rattle.std.specs.List.{flat_map};
ghost use Rattle.fl_labels.specs.SetBy.{len};
ghost use Rattle.fl_ops.specs.declared.format.Format.TheVariants.{Two};
ghost use Rattle.fl_wire.specs.PacketBytes.{pid_bytes, label_bytes, caps_bytes, message_bytes, data_bytes, batch_bytes, span_bytes, intervals_bytes, packet_bytes};

use crate::batch::Batch;
use crate::packet::Packet;
use fl_labels::cap_set::CapSet;
use fl_labels::endpoint::Endpoint;
use fl_labels::label::Label;
use fl_labels::pid::Pid;
use fl_message::message::{Data, Message};
use fl_message::shared::Shared;
use fl_ops::fields::{push_cap, push_name};
use fl_ops::writing::push_op;
use fl_opset::intervals::Intervals;
use fl_opset::span::Span;
use std::alloc::{AllocError, Global};

// A process and one of its endpoints.
fn push_end(out: &mut Vec<u8>, pid: Pid, endpoint: Endpoint) -> Result<(), AllocError>
    ensures { OnOk result
        (out.new.items ≡ out.old.items ++ (pid_bytes Two pid ++ endpoint.number ∷ [])) }
{
    out.extend_from_slice(&pid.node.to_be_bytes())?;
    out.extend_from_slice(&pid.boot.to_be_bytes())?;
    out.extend_from_slice(&pid.serial.to_be_bytes())?;
    out.push(endpoint.number as u8)?;
    Ok(())
}

// How many tags a label has, and the tags.
fn push_label(out: &mut Vec<u8>, label: &Label) -> Result<(), AllocError>
    ensures { OnOk result (out.new.items ≡ out.old.items ++ label_bytes Two label.now) }
{
    let count = label.len() as u16;
    out.extend_from_slice(&count.to_be_bytes())?;
    let tags = label.as_slice();
    for tag in tags {
        push_name(out, *tag)?;
    }
    Ok(())
}

// How many capabilities there are, and each.
fn push_caps(out: &mut Vec<u8>, caps: &CapSet) -> Result<(), AllocError>
    requires { len caps.now ≤ 64 }
    ensures { OnOk result (out.new.items ≡ out.old.items ++ caps_bytes Two caps.now) }
{
    out.push(caps.len() as u8)?;
    let members = caps.as_slice();
    for cap in members {
        push_cap(out, *cap)?;
    }
    Ok(())
}

// The capabilities of a message, how many bytes it has, and the bytes.
fn push_message(out: &mut Vec<u8>, message: &Shared<Message>) -> Result<(), AllocError>
    ensures { OnOk result (out.new.items ≡ out.old.items ++ message_bytes Two message.now) }
{
    push_caps(out, &message.caps)?;
    let bytes = message.payload.as_slice();
    let count = bytes.len() as u16;
    out.extend_from_slice(&count.to_be_bytes())?;
    out.extend_from_slice(bytes)
}

// A message with its ends and its labels.
fn push_data(out: &mut Vec<u8>, sent: &Data) -> Result<(), AllocError>
    ensures { OnOk result (out.new.items ≡ out.old.items ++ data_bytes Two sent.now) }
{
    push_end(out, sent.sender, sent.from)?;
    push_end(out, sent.receiver, sent.to)?;
    push_label(out, &sent.secrecy)?;
    push_label(out, &sent.integrity)?;
    push_message(out, &sent.message)
}

// How many operations there are, and each.
fn push_batch(out: &mut Vec<u8>, batch: &Batch) -> Result<(), AllocError>
    ensures { OnOk result (out.new.items ≡ out.old.items ++ batch_bytes Two batch.now.ops) }
{
    let ops = batch.ops.as_slice();
    out.push(ops.len() as u8)?;
    for op in ops {
        push_op(out, op)?;
    }
    Ok(())
}

// The first name of a span, and the number of its last one.
fn push_span(out: &mut Vec<u8>, span: &Span) -> Result<(), AllocError>
    ensures { OnOk result (out.new.items ≡ out.old.items ++ span_bytes Two span.now) }
{
    push_name(out, span.first)?;
    out.extend_from_slice(&span.last.to_be_bytes())
}

// How many spans there are, and each.
fn push_spans(out: &mut Vec<u8>, spans: &[Span]) -> Result<(), AllocError>
    requires { length spans.now ≤ 512 }
    ensures { let count = to_be_bytes w16 (length spans.now) in
        OnOk result (out.new.items
        ≡ out.old.items ++ (count ++ flat_map (span_bytes Two) spans.now)) }
{
    let count = spans.len() as u16;
    out.extend_from_slice(&count.to_be_bytes())?;
    for span in spans {
        push_span(out, span)?;
    }
    Ok(())
}

// The two ends of a window, and its spans.
fn push_intervals(out: &mut Vec<u8>, window: &Intervals) -> Result<(), AllocError>
    ensures { OnOk result (out.new.items ≡ out.old.items ++ intervals_bytes Two window.now) }
{
    push_name(out, window.from)?;
    push_name(out, window.to)?;
    push_spans(out, window.spans.as_slice())
}

/// The spelling of a packet. Linear in it. An error says that there was no memory for it.
pub fn encode(alloc: Global, packet: &Packet) -> Result<Vec<u8>, AllocError>
    ensures { IfOk result (λ bytes. bytes.items ≡ packet_bytes Two packet.now) }
{
    let mut bytes = Vec::new(alloc);
    bytes.push(0xf2)?;
    match packet {
        Packet::Full(batch) => {
            bytes.push(1)?;
            push_batch(&mut bytes, batch)?;
        }
        Packet::Have(window) => {
            bytes.push(2)?;
            push_intervals(&mut bytes, window)?;
        }
        Packet::Delta(batch) => {
            bytes.push(3)?;
            push_batch(&mut bytes, batch)?;
        }
        Packet::Data(sent) => {
            bytes.push(4)?;
            push_data(&mut bytes, sent)?;
        }
    }
    Ok(bytes)
}
