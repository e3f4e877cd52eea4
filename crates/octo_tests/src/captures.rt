// Captures that are written as words: `LH 2*tcp tcp/9` is the little-endian header, two records of
// the TCP frame, and the first 9 bytes of a third one.

use crate::bytes::{
    ARP_FRAME, BIG_HEAD_OF_54, BIG_HEADER, ENHANCED_HEAD, ENHANCED_TAIL, FRAGMENT, HEAD_OF_42,
    HEAD_OF_50, HEAD_OF_54, HEAD_OF_62, HEAD_OF_MOST, HEAD_OF_NONE, ICMP_FRAME, INTERFACE,
    IPV6_FRAME, LITTLE_HEADER, SECTION, SIMPLE_HEAD, SIMPLE_TAIL, TAGGED_FRAME, TCP_FRAME,
};
use std::alloc::{AllocError, Global};
use std::test::Fail;

/// The head and the frame of a record or a packet block with this name, or a header.
fn named(name: &str) -> Option<(&'static [u8], &'static [u8])> {
    match name {
        "LH" => Some((LITTLE_HEADER, &[])),
        "BH" => Some((BIG_HEADER, &[])),
        "frame" => Some((&[], TCP_FRAME)),
        "tcp" => Some((HEAD_OF_54, TCP_FRAME)),
        "tcp-of-none" => Some((HEAD_OF_NONE, TCP_FRAME)),
        "tcp-of-most" => Some((HEAD_OF_MOST, TCP_FRAME)),
        "big-tcp" => Some((BIG_HEAD_OF_54, TCP_FRAME)),
        "tagged" => Some((HEAD_OF_50, TAGGED_FRAME)),
        "arp" => Some((HEAD_OF_42, ARP_FRAME)),
        "fragment" => Some((HEAD_OF_42, FRAGMENT)),
        "icmp" => Some((HEAD_OF_42, ICMP_FRAME)),
        "ipv6" => Some((HEAD_OF_62, IPV6_FRAME)),
        "SB" => Some((SECTION, &[])),
        "IB" => Some((INTERFACE, &[])),
        "EB" => Some((ENHANCED_HEAD, TCP_FRAME)),
        "PB" => Some((SIMPLE_HEAD, TCP_FRAME)),
        _ => None,
    }
}

/// What stands behind the frame.
fn tail(name: &str) -> &'static [u8] {
    match name {
        "EB" => ENHANCED_TAIL,
        "PB" => SIMPLE_TAIL,
        _ => &[],
    }
}

fn digit(byte: u8) -> Option<u8> {
    match byte {
        b'0'..=b'9' => Some(byte - b'0'),
        b'a'..=b'f' => Some(byte - b'a' + 10),
        _ => None,
    }
}

// The bytes of hexadecimal digits, two for each.
fn of_digits(alloc: Global, digits: &str) -> Result<Vec<u8>, Fail> {
    let mut bytes = Vec::new(alloc);
    for pair in digits.as_bytes().chunks(2) {
        let [high, low] = pair else {
            return Err(Fail::from("half a byte"));
        };
        match (digit(*high), digit(*low)) {
            (Some(high), Some(low)) => bytes.push((high << 4) | low)?,
            _ => return Err(Fail::from("no hexadecimal digit")),
        }
    }
    Ok(bytes)
}

fn of_name(alloc: Global, name: &str) -> Result<Vec<u8>, Fail> {
    match named(name) {
        Some((head, frame)) => {
            let mut bytes = Vec::new(alloc);
            bytes.extend_from_slice(head)?;
            bytes.extend_from_slice(frame)?;
            bytes.extend_from_slice(tail(name))?;
            Ok(bytes)
        }
        None => of_digits(alloc, name),
    }
}

// The bytes of one word: a name or digits, as often as the number before `*` says, the first so
// many where a number stands behind `/`.
fn add_word(alloc: Global, word: &str, bytes: &mut Vec<u8>) -> Result<(), Fail> {
    let (times, word) = match word.split_once('*') {
        Some((times, word)) => (times.parse::<usize>()?, word),
        None => (1, word),
    };
    let (name, most) = match word.split_once('/') {
        Some((name, most)) => (name, most.parse::<usize>()?),
        None => (word, usize::MAX),
    };
    let one = of_name(alloc, name)?;
    let front = &one[..most.min(one.len())];
    for _ in 0..times {
        bytes.extend_from_slice(front)?;
    }
    Ok(())
}

/// The bytes of a capture.
pub fn capture(alloc: Global, line: &str) -> Result<Vec<u8>, Fail> {
    let mut bytes = Vec::new(alloc);
    for word in line.split(' ') {
        if !word.is_empty() {
            add_word(alloc, word, &mut bytes)?;
        }
    }
    Ok(bytes)
}
