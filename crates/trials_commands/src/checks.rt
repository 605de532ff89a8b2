//! The rows of `check`, and of words that are no command.

use crate::asking::{Ending, NO_FAULTS, checks, ends, put_fails, read_fails};
use ck_base::NoMemory;
use commands::Status;
use std::alloc::Global;
use std::test::Fail;

/// `{ true } skip { true }`.
pub(crate) const SKIP: [u8; 15] = [
    0x43, 0x4B, 0x54, 0x31, 0x00, 0x31, 0x18, 0x31, 0x18, 0x60, 0x41, 0x31, 0x18, 0x40, 0x00,
];

// Its four lines.
const VALID: &[u8] = b"valid\n{ true }\nskip\n{ true }\n";

/// A certificate whose proof has that many lambdas over `bottom`.
fn nested(alloc: Global, lambdas: u32) -> Result<Vec<u8>, NoMemory> {
    let mut bytes = Vec::from_slice(alloc, &SKIP[..10])?;
    for _level in 0..lambdas {
        bytes.extend_from_slice(&[0x41, 0x30])?;
    }
    bytes.extend_from_slice(&[0x40, 0x00])?;
    Ok(bytes)
}

/// `{ true } skip { Q }` where Q is an implication of 8,193 leaves `bottom`, that is of 16,385 nodes.
fn too_large(alloc: Global) -> Result<Vec<u8>, NoMemory> {
    let mut tree = Vec::from_slice(alloc, &[0x30])?;
    for _level in 0..13u8 {
        let mut joined = Vec::from_slice(alloc, &[0x32])?;
        joined.extend_from_slice(&tree)?;
        joined.extend_from_slice(&tree)?;
        tree = joined;
    }
    let mut bytes = Vec::from_slice(alloc, &SKIP[..7])?;
    bytes.extend_from_slice(&[0x32, 0x30])?;
    bytes.extend_from_slice(&tree)?;
    bytes.extend_from_slice(&SKIP[9..])?;
    Ok(bytes)
}

#[test]
fn files_are_judged(rt: HostRuntime) -> Result<(), Fail> {
    let rows: [(&[u8], Status, &[u8]); 6] = [
        (&SKIP, Status::Done, VALID),
        // The proof is the identity on `true` applied to itself.
        (
            b"CKT1\x00\x31\x18\x31\x18\x60\x41\x31\x18\x42\x41\x31\x18\x40\x00\x40\x00",
            Status::Done,
            VALID,
        ),
        (&[], Status::Refused, b"refused Malformed\n"),
        (&SKIP[..14], Status::Refused, b"refused Malformed\n"),
        // A hypothesis that is not there.
        (
            b"CKT1\x00\x31\x18\x31\x18\x60\x41\x31\x18\x40\x01",
            Status::Refused,
            b"refused Unproved\n",
        ),
        // A proof of another formula.
        (
            b"CKT1\x00\x31\x18\x31\x18\x60\x41\x30\x40\x00",
            Status::Refused,
            b"refused Unproved\n",
        ),
    ];
    for (bytes, status, printed) in rows {
        assert!(rt;
            checks(rt.alloc(), bytes, NO_FAULTS, status, printed)?,
            "{bytes:?}"
        );
    }
    Ok(())
}

/// A formula of 16,385 nodes, and proofs of 2,048 and 2,049 levels.
#[test]
fn large_files_are_judged(rt: HostRuntime) -> Result<(), Fail> {
    let alloc = rt.alloc();
    let large = too_large(alloc)?;
    assert!(rt;
        checks(
            alloc,
            &large,
            NO_FAULTS,
            Status::Refused,
            b"refused Limits\n"
        )?
    );
    let deepest = nested(alloc, 2_047)?;
    assert!(rt;
        checks(
            alloc,
            &deepest,
            NO_FAULTS,
            Status::Refused,
            b"refused Unproved\n"
        )?
    );
    let deeper = nested(alloc, 2_048)?;
    assert!(rt;
        checks(
            alloc,
            &deeper,
            NO_FAULTS,
            Status::Refused,
            b"refused Malformed\n"
        )?
    );
    Ok(())
}

/// Words that are no command are refused as they stand, and so is a file that the origin has not.
#[test]
fn words(rt: HostRuntime) -> Result<(), Fail> {
    let lines: [&[&str]; 11] = [
        &[],
        &["check"],
        &["check", ""],
        &["check", "-c"],
        &["check", "c", "c"],
        &["run", "c"],
        &["derive", "c"],
        &["derive", "", "d"],
        &["derive", "c", "-d"],
        &["derive", "c", "d", "e"],
        &["Derive", "c", "d"],
    ];
    let refused = Ending {
        status: Status::Words,
        printed: b"refused words\n",
        written: b"",
    };
    for line in lines {
        assert!(rt;
            ends(rt.alloc(), line, &SKIP, NO_FAULTS, refused)?,
            "{line:?}"
        );
    }
    let missing = Ending {
        status: Status::ReadFault,
        printed: b"",
        written: b"",
    };
    assert!(rt; ends(rt.alloc(), &["check", "d"], &SKIP, NO_FAULTS, missing)?);
    assert!(rt; ends(rt.alloc(), &["derive", "d", "d"], &SKIP, NO_FAULTS, missing)?);
    Ok(())
}

/// Each call on the origin in turn fails: opening, the one piece, and the end. There is no fourth.
#[test]
fn reads_fail(rt: HostRuntime) -> Result<(), Fail> {
    for call in 0..3u64 {
        let faults = [call];
        assert!(rt;
            checks(
                rt.alloc(),
                &SKIP,
                read_fails(&faults),
                Status::ReadFault,
                b""
            )?,
            "call {call}"
        );
    }
    assert!(rt; checks(rt.alloc(), &SKIP, read_fails(&[3]), Status::Done, VALID)?);
    Ok(())
}

/// Each put in turn fails. What was put before is a front of the lines, and what the bytes decided stays.
#[test]
fn puts_fail(rt: HostRuntime) -> Result<(), Fail> {
    let rows: [(&[u8], u64, Status, &[u8]); 12] = [
        (&SKIP, 0, Status::OutFault, b""),
        (&SKIP, 1, Status::OutFault, b"valid"),
        (&SKIP, 2, Status::OutFault, b"valid\n{ tr"),
        (&SKIP, 3, Status::OutFault, b"valid\n{ true }\n"),
        (&SKIP, 4, Status::OutFault, b"valid\n{ true }\nskip\n"),
        (&SKIP, 5, Status::OutFault, b"valid\n{ true }\nskip\n{ tru"),
        (&SKIP, 6, Status::Done, VALID),
        (&[], 0, Status::Refused, b""),
        (&[], 1, Status::Refused, b"refus"),
        (&[], 2, Status::Refused, b"refused Ma"),
        (&[], 3, Status::Refused, b"refused Malform"),
        (&[], 4, Status::Refused, b"refused Malformed\n"),
    ];
    for (bytes, call, status, printed) in rows {
        let faults = [call];
        assert!(rt;
            checks(rt.alloc(), bytes, put_fails(&faults), status, printed)?,
            "put {call}"
        );
    }
    Ok(())
}

/// The same of words that are no command, and of a file that is too long.
#[test]
fn puts_fail_after_refusals(rt: HostRuntime) -> Result<(), Fail> {
    let alloc = rt.alloc();
    let long = vec![in alloc; 0u8; 4_194_305]?;
    let rows: [(u64, &[u8], &[u8]); 4] = [
        (0, b"", b""),
        (1, b"refus", b"refus"),
        (2, b"refused wo", b"refused To"),
        (3, b"refused words\n", b"refused TooLong"),
    ];
    for (call, of_words, of_length) in rows {
        let faults = [call];
        let wanted = Ending {
            status: Status::Words,
            printed: of_words,
            written: b"",
        };
        assert!(rt;
            ends(alloc, &["check"], &SKIP, put_fails(&faults), wanted)?,
            "put {call}"
        );
        assert!(rt;
            checks(alloc, &long, put_fails(&faults), Status::TooLong, of_length)?,
            "put {call}"
        );
    }
    Ok(())
}

/// At the limit the bytes are judged, and with one more they are too long.
#[test]
fn the_limit(rt: HostRuntime) -> Result<(), Fail> {
    let alloc = rt.alloc();
    let long = vec![in alloc; 0u8; 4_194_305]?;
    let whole = long.get(..4_194_304).ok_or("room for the limit")?;
    assert!(rt;
        checks(
            alloc,
            whole,
            NO_FAULTS,
            Status::Refused,
            b"refused Malformed\n"
        )?
    );
    assert!(rt;
        checks(
            alloc,
            &long,
            NO_FAULTS,
            Status::TooLong,
            b"refused TooLong\n"
        )?
    );
    Ok(())
}
