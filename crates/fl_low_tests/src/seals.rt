//! Tests of seals, and of packets that are sent sealed or bare.
use crate::bytes::bytes_of;
use crate::packets::{push_fault, push_packet};
use crate::rows::parts;
use fl_seal::seal::{Key, hmac_of, put_seal, unsealed};
use fl_sealed_packets::coming::read_packet;
use fl_sealed_packets::going::each_to_send;
use fl_wire::reading::decode;
use sha2::{Digest, Sha256};
use std::alloc::{AllocError, Global};

// The key of 32 bytes that stands for one of any length: zeros behind it change nothing, and a long
// one stands for its digest.
fn key_of(bytes: &[u8]) -> Key {
    if bytes.len() > 32 {
        return Key {
            bytes: Sha256::digest(bytes),
        };
    }
    let mut key = [0; 32];
    key[..bytes.len()].copy_from_slice(bytes);
    Key { bytes: key }
}

/// The vectors of RFC 4231: a key, a text, and its HMAC-SHA256.
#[test]
fn known_macs(rt: HostRuntime) -> Result<(), AllocError> {
    let counted: [u8; 25] = *b"\x01\x02\x03\x04\x05\x06\x07\x08\x09\x0a\x0b\x0c\x0d\x0e\x0f\
\x10\x11\x12\x13\x14\x15\x16\x17\x18\x19";
    let rows: [(&[u8], &[u8], &str); 7] = [
        (
            &[0x0b; 20],
            b"Hi There",
            "b0344c61d8db38535ca8afceaf0bf12b881dc200c9833da726e9376c2e32cff7",
        ),
        (
            b"Jefe",
            b"what do ya want for nothing?",
            "5bdcc146bf60754e6a042426089575c75a003f089d2739839dec58b964ec3843",
        ),
        (
            &[0xaa; 20],
            &[0xdd; 50],
            "773ea91e36800e46854db8ebd09181a72959098b3ef8c122d9635514ced565fe",
        ),
        (
            &counted,
            &[0xcd; 50],
            "82558a389a443c0ea4cc819899f2083a85f0faa3e578f8077a2e3ff46729665b",
        ),
        (
            &[0x0c; 20],
            b"Test With Truncation",
            "a3b6167473100ee06e0c796c2955552bfa6f7c0a6a8aef8b93f860aab0cd20c5",
        ),
        (
            &[0xaa; 131],
            b"Test Using Larger Than Block-Size Key - Hash Key First",
            "60e431591ee0b67f0d8a26aacbf5b77f8e0bc6213728c5140546040f0ee37f54",
        ),
        (
            &[0xaa; 131],
            b"This is a test using a larger than block-size key and a larger than block-size data. \
The key needs to be hashed before being used by the HMAC algorithm.",
            "9b09ffa71b942fcb27635fbcd5b0e944bfdc63644f0713938a7f51535c3a35e2",
        ),
    ];
    for (key, text, mac) in rows {
        let (first, second) = text.split_at(text.len() / 2);
        let made = hmac_of(key_of(key), first, second);
        assert_eq!(rt; hex::encode(rt.alloc(), made)?.as_str(), mac);
    }
    Ok(())
}

// Whether the bytes are the packet of the test below, sealed by one of the keys.
fn opens(keys: &[Key], bytes: &[u8]) -> bool {
    match unsealed(keys, bytes) {
        Some(packet) => packet == b"packet".as_slice(),
        None => false,
    }
}

// Whether the bytes are sealed by none of the keys.
fn is_closed(keys: &[Key], bytes: &[u8]) -> bool {
    unsealed(keys, bytes).is_none()
}

// Whether the key opens nothing where a byte is another one, nor where some lack.
fn is_closed_once_changed(key: Key, bytes: &mut [u8]) -> bool {
    for at in 0..bytes.len() {
        bytes[at] ^= 1;
        if !is_closed(&[key], bytes) || !is_closed(&[key], &bytes[..at]) {
            return false;
        }
        bytes[at] ^= 1;
    }
    true
}

/// What one key sealed is opened by it, whichever it is of those given, and by no other; nor where
/// a byte is another one, or lacks.
#[test]
fn packets_are_sealed(rt: HostRuntime) -> Result<(), AllocError> {
    let (one, other) = (key_of(b"one"), key_of(b"other"));
    let mut bytes = Vec::new(rt.alloc());
    bytes.extend_from_slice(b"packet")?;
    put_seal(one, &mut bytes)?;
    assert!(rt; opens(&[one], &bytes));
    assert!(rt; opens(&[other, one], &bytes));
    assert!(rt; is_closed(&[other], &bytes));
    assert!(rt; is_closed(&[], &bytes));
    assert!(rt; is_closed_once_changed(one, &mut bytes));
    assert!(rt; opens(&[one], &bytes));
    Ok(())
}

// The keys of some words, between which a comma stands; none of `-`.
fn keys_of(alloc: Global, words: &str) -> Result<Vec<Key>, AllocError> {
    let mut keys = Vec::new(alloc);
    if words == "-" {
        return Ok(keys);
    }
    for word in words.split(',') {
        keys.push(key_of(word.as_bytes()))?;
    }
    Ok(keys)
}

/// What is read by the second keys of the packet of these bytes, which is sent by the first ones:
/// `same` and how many bytes it has, or the place of the fault.
pub fn send(alloc: Global, out: &mut String, rest: &str) -> Result<(), AllocError> {
    let (first, rest) = parts(rest);
    let (second, digits) = parts(rest);
    let bytes = bytes_of(alloc, digits)?;
    let mut packets = Vec::new(alloc);
    if let Ok(packet) = decode(alloc, &bytes) {
        packets.push(packet)?;
    }
    let keys = keys_of(alloc, second)?;
    for sent in each_to_send(alloc, &keys_of(alloc, first)?, &packets)? {
        push_read(alloc, out, &keys, &sent, &bytes)?;
    }
    Ok(())
}

fn push_read(
    alloc: Global,
    out: &mut String,
    keys: &[Key],
    sent: &[u8],
    bytes: &[u8],
) -> Result<(), AllocError> {
    match read_packet(alloc, keys, sent) {
        Ok(packet) => push_packet(alloc, out, &packet, bytes),
        Err(fault) => push_fault(out, fault),
    }
}

/// Packets of 13 bytes, sent by some keys, or bare, and read by others.
pub const SENT: &str = "\
send - - f2030102020000000100000001 => same 13
send one one f2030102020000000100000001 => same 13
send one,two one,two f2030102020000000100000001 => same 13
send one,two two,one f2030102020000000100000001 => same 13
send one,two one f2030102020000000100000001 => same 13
send one,two two f2030102020000000100000001 => 0
send one,two three,four f2030102020000000100000001 => 0
send - one f2030102020000000100000001 => 0
send one - f2030102020000000100000001 => 13";
