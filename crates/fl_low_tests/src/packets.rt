//! Packets and their bytes, both ways.
use crate::rows::push_hex;
use fl_message::message::Data;
use fl_wire::fault::ReadFault;
use fl_wire::packet::Packet;
use fl_wire::reading::decode;
use fl_wire::writing::encode;
use std::alloc::{AllocError, Global};

/// How the packet is written that the bytes are, or a copy of it, or its parts; or the place of the
/// fault.
pub fn read(alloc: Global, out: &mut String, what: &str, bytes: &[u8]) -> Result<(), AllocError> {
    match decode(alloc, bytes) {
        Ok(packet) => say(alloc, out, what, &packet, bytes),
        Err(fault) => push_fault(out, fault),
    }
}

fn say(
    alloc: Global,
    out: &mut String,
    what: &str,
    packet: &Packet,
    bytes: &[u8],
) -> Result<(), AllocError> {
    match (what, packet) {
        ("copy", Packet::Data(sent)) => push_copy(alloc, out, sent, bytes),
        ("parts", Packet::Data(sent)) => push_parts(out, sent),
        _ => push_packet(alloc, out, packet, bytes),
    }
}

fn push_copy(alloc: Global, out: &mut String, sent: &Data, bytes: &[u8]) -> Result<(), AllocError> {
    let copy = Packet::Data(sent.copy(alloc)?);
    push_packet(alloc, out, &copy, bytes)
}

fn push_parts(out: &mut String, sent: &Data) -> Result<(), AllocError> {
    write!(
        out,
        "{} {} {} {} ",
        sent.sender, sent.from, sent.receiver, sent.to
    )?;
    write!(out, "{} {} ", sent.secrecy, sent.integrity)?;
    write!(out, "{} ", sent.message.caps)?;
    push_hex(out, sent.message.payload.as_slice())
}

/// The place of the fault.
pub fn push_fault(out: &mut String, fault: ReadFault) -> Result<(), AllocError> {
    match fault {
        ReadFault::BadPacket { place } => write!(out, "{place}"),
        ReadFault::Memory => Err(AllocError),
    }
}

/// The bytes that a packet is written as, or how many they are where they are many. `same` where
/// they are those that were read.
pub fn push_packet(
    alloc: Global,
    out: &mut String,
    packet: &Packet,
    bytes: &[u8],
) -> Result<(), AllocError> {
    let written = encode(alloc, packet)?;
    if written.as_slice() == bytes {
        return write!(out, "same {}", written.len());
    }
    if written.len() > 64 {
        return write!(out, "{} ", written.len());
    }
    push_hex(out, &written)
}
