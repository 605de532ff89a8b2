//! Certificates as bytes: where they are malformed, and that what is read is written as the same bytes.

ghost use Rattle.std.specs.Prelude.{◌<◌, ◌^◌, length};
ghost use Rattle.cert_codec.specs.Tree.{certificate_tree};
ghost use Rattle.cert_codec.specs.Spelling.{IsBuilt};

use cert_codec::{Certificate, DecodeFault, RawCertificate, decode, encode};
use ck_base::{Decls, List, NoMemory};
use std::alloc::{AllocError, Global};
use std::test::*;

/// The program skip with `true` before and after, and a proof that `true` implies `true`.
const SPELLED: [u8; 15] = [
    0x43, 0x4B, 0x54, 0x31, 0x00, 0x31, 0x18, 0x31, 0x18, 0x60, 0x41, 0x31, 0x18, 0x40, 0x00,
];

/// The bytes before the precondition.
const BEFORE_PRE: usize = 5;

/// The bytes before the postcondition.
const BEFORE_POST: usize = 7;

/// The bytes before the first tag of the node's proof.
const BEFORE_PROOF: usize = 10;

/// Where the bytes are malformed; none where they are read.
fn place_of(alloc: Global, bytes: &[u8]) -> Result<Option<u32>, DecodeFault>
    requires { length bytes.now < 2 ^ 32 }
{
    match decode(alloc, bytes) {
        Ok(_) => Ok(None),
        Err(DecodeFault::Malformed { at }) => Ok(Some(at)),
        Err(fault) => Err(fault),
    }
}

#[test]
fn places(rt: HostRuntime) -> Result<(), Fail> {
    let table: [(&[u8], Option<u32>); 11] = [
        (&SPELLED, None),
        (&[], Some(0)),
        (&SPELLED[..14], Some(14)),
        (
            b"CKT1\x00\x31\x18\x31\x18\x60\x41\x31\x18\x40\x00\x00",
            Some(15),
        ),
        (b"CKT2\x00\x31\x18\x31\x18\x60\x41\x31\x18\x40\x00", Some(3)),
        (b"CKT1\x00\x31\x19\x31\x18\x60\x41\x31\x18\x40\x00", Some(6)),
        // The identity, applied to the hypothesis.
        (
            b"CKT1\x00\x31\x18\x31\x18\x60\x41\x31\x18\x42\x41\x31\x18\x40\x00\x40\x00",
            None,
        ),
        // A last byte that adds nothing, the largest number, one more than that, and a number with no end.
        (
            b"CKT1\x00\x31\x18\x31\x18\x60\x41\x31\x18\x40\x81\x00",
            Some(15),
        ),
        (
            b"CKT1\x00\x31\x18\x31\x18\x60\x40\xFF\xFF\xFF\xFF\x0F",
            None,
        ),
        (
            b"CKT1\x00\x31\x18\x31\x18\x60\x40\xFF\xFF\xFF\xFF\x10",
            Some(15),
        ),
        (
            b"CKT1\x00\x31\x18\x31\x18\x60\x40\xFF\xFF\xFF\xFF",
            Some(15),
        ),
    ];
    for (bytes, place) in table {
        assert!(rt; bytes.len() < 100);
        assert_eq!(rt; place_of(rt.alloc(), bytes)?, place, "for {bytes:?}");
    }
    Ok(())
}

/// One byte is wrong, at each place.
#[test]
fn wrong_byte(rt: HostRuntime) -> Result<(), Fail> {
    for k in 0..15 {
        let mut bytes = SPELLED;
        bytes[k] = 0xFF;
        // The last byte says with 0xFF that the number goes on.
        let place = if k == 14 { 15 } else { k as u32 };
        assert_eq!(rt; place_of(rt.alloc(), &bytes)?, Some(place));
    }
    Ok(())
}

/// A certificate whose proof has one hypothesis under that many lambdas.
fn lambdas(alloc: Global, count: usize) -> Result<Vec<u8>, AllocError> {
    let mut bytes = Vec::new(alloc);
    bytes.extend_from_slice(&SPELLED[..BEFORE_PROOF])?;
    for _ in 0..count {
        bytes.extend_from_slice(b"\x41\x30")?;
    }
    bytes.extend_from_slice(b"\x40\x00")?;
    Ok(bytes)
}

#[test]
fn levels(rt: HostRuntime) -> Result<(), Fail> {
    let bytes = lambdas(rt.alloc(), 2_047)?;
    assert!(rt; bytes.len() < 10_000);
    assert_eq!(rt; place_of(rt.alloc(), &bytes)?, None);
    let bytes = lambdas(rt.alloc(), 2_048)?;
    assert!(rt; bytes.len() < 10_000);
    // The tag of the 2,049th level.
    assert_eq!(rt; place_of(rt.alloc(), &bytes)?, Some(10 + 2 * 2_048));
    Ok(())
}

/// A certificate whose precondition has that many implications, each the left part of the one before.
fn implications(alloc: Global, count: usize) -> Result<Vec<u8>, AllocError> {
    let mut bytes = Vec::new(alloc);
    bytes.extend_from_slice(&SPELLED[..BEFORE_PRE])?;
    for _ in 0..count {
        bytes.extend_from_slice(b"\x32")?;
    }
    for _ in 0..=count {
        bytes.extend_from_slice(b"\x30")?;
    }
    bytes.extend_from_slice(&SPELLED[BEFORE_POST..])?;
    Ok(bytes)
}

#[test]
fn formula_levels(rt: HostRuntime) -> Result<(), Fail> {
    let bytes = implications(rt.alloc(), 255)?;
    assert!(rt; bytes.len() < 10_000);
    assert_eq!(rt; place_of(rt.alloc(), &bytes)?, None);
    let bytes = implications(rt.alloc(), 257)?;
    assert!(rt; bytes.len() < 10_000);
    // The tag of the 257th level.
    assert_eq!(rt; place_of(rt.alloc(), &bytes)?, Some(5 + 256));
    Ok(())
}

fn encoded(alloc: Global, raw: RawCertificate) -> Result<List<u8>, NoMemory>
    requires { IsBuilt (certificate_tree raw) }
{
    let c = Certificate {
        decls: Decls::new(alloc),
        pre: raw.pre,
        post: raw.post,
        node: raw.node,
    };
    encode(alloc, &c)
}

/// What is decoded is encoded as the same bytes: at the greatest depth, and with all tags and a number of
/// five bytes.
#[test]
fn encoded_again(rt: HostRuntime) -> Result<(), Fail> {
    let deep = lambdas(rt.alloc(), 2_047)?;
    let table: [&[u8]; 2] = [
        &deep,
        b"CKT1\x00\x31\x18\x32\x30\x31\x17\x60\x41\x31\x18\x42\x40\xFF\xFF\xFF\xFF\x0F\x40\x00",
    ];
    for bytes in table {
        assert!(rt; bytes.len() < 10_000);
        let raw = decode(rt.alloc(), bytes)?;
        let again = encoded(rt.alloc(), raw)?;
        assert_eq!(rt; again.as_slice(), bytes);
    }
    Ok(())
}
