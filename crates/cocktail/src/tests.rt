//! One test of each real adapter. The rows of the commands are tried over an outside in memory, in a crate of their
//! own.

use crate::adapters::{FileOrigin, FileTarget, StdSink};
use ck_base::{Origin, Sink, Target};
use std::fs;
use std::test::Fail;

// `{ true } skip { true }`
const SKIP: [u8; 15] = [
    0x43, 0x4B, 0x54, 0x31, 0x00, 0x31, 0x18, 0x31, 0x18, 0x60, 0x41, 0x31, 0x18, 0x40, 0x00,
];

#[test]
fn a_real_file(rt: HostRuntime) -> Result<(), Fail> {
    fs::write(&rt, "a_real_file.ckt", &SKIP)?;
    let mut origin = FileOrigin::new(&rt);
    assert!(rt; origin.begin("no such file").is_err());
    assert!(rt; origin.begin("a_real_file.ckt").is_ok());
    let mut buf = [0; 16];
    assert!(rt; origin.read(&mut buf) == Ok(15));
    assert_eq!(rt; &buf[..15], SKIP.as_slice());
    assert!(rt; origin.read(&mut buf) == Ok(0));
    fs::remove_file(&rt, "a_real_file.ckt")?;
    Ok(())
}

#[test]
fn a_real_target(rt: HostRuntime) -> Result<(), Fail> {
    let mut target = FileTarget::new(&rt);
    assert!(rt; target.create("a_real_target.ckt").is_ok());
    assert!(rt; target.put(&SKIP) == Ok(15));
    let written = fs::read(&rt, "a_real_target.ckt")?;
    assert_eq!(rt; written.as_slice(), SKIP.as_slice());
    fs::remove_file(&rt, "a_real_target.ckt")?;
    Ok(())
}

#[test]
fn standard_output(rt: HostRuntime) {
    assert!(rt; StdSink::new(&rt).put(b"valid\n") == Ok(6));
}
