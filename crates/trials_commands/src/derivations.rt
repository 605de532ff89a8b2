//! The rows of `derive`: scripts with their transcripts, and what is printed and written where a call fails.

use crate::asking::{Ending, Faults, NO_FAULTS, derives, ends, put_fails, read_fails, write_fails};
use crate::checks::SKIP;
use ck_base::NoMemory;
use commands::Status;
use std::alloc::Global;
use std::test::Fail;

/// The script of the certificate `SKIP`.
const SCRIPT: &[u8] = b"spec { true } { true }\n1: skip\n2: intro\n3: exact #0\nexport\n";

/// Its transcript before the last reply: 16 puts of five bytes.
const TRANSCRIPT: &[u8] =
    b"ok\n  1: { true } { true }\nok\n  2: |- true => true\nok\n  3: #0: true |- true\nok\n";

/// The last reply: 4 puts.
const REPLY: &[u8] = b"exported 15 bytes\n";

/// The script has no accepted `export`, and is answered so.
fn answers(alloc: Global, script: &[u8], printed: &[u8]) -> Result<bool, NoMemory> {
    let wanted = Ending {
        status: Status::Refused,
        printed,
        written: b"",
    };
    derives(alloc, script, NO_FAULTS, wanted)
}

#[test]
fn scripts(rt: HostRuntime) -> Result<(), Fail> {
    let alloc = rt.alloc();
    assert!(rt; answers(alloc, b"", b"not exported\n")?);
    assert!(rt; answers(alloc, b"\n// nothing\n \t\r\n", b"not exported\n")?);
    assert!(rt; answers(alloc, b"export", b"refused Line\nnot exported\n")?);
    assert!(rt;
        answers(
            alloc,
            b"spec { true } { bottom }\n1: intro\n2: skip\n1: skip\nexport\n",
            b"ok\n  1: { true } { bottom }\nrefused Line\nrefused Line\nok\n  2: |- ~true\nrefused Unfinished 2\nnot exported\n",
        )?
    );
    Ok(())
}

/// A proof of another formula leaves its hole open, which `export` names.
#[test]
fn refused_proofs(rt: HostRuntime) -> Result<(), Fail> {
    let alloc = rt.alloc();
    assert!(rt;
        answers(
            alloc,
            b"spec { true } { true }\n1: skip\n2: intro\n3: exact lam(true, #0)\nexport\n",
            b"ok\n  1: { true } { true }\nok\n  2: |- true => true\nok\n  3: #0: true |- true\nrefused Line\nrefused Unfinished 3\nnot exported\n",
        )?
    );
    Ok(())
}

/// Two hypotheses, a second triple, and proofs of another formula.
#[test]
fn proofs(rt: HostRuntime) -> Result<(), Fail> {
    let alloc = rt.alloc();
    assert!(rt;
        answers(
            alloc,
            b"spec { true } { true => true }\n1:skip\n2:intro\n3:intro\n4:exact #1\n",
            b"ok\n  1: { true } { true => true }\nok\n  2: |- true => true => true\nok\n  3: #0: true |- true => true\nok\n  4: #0: true, #1: true |- true\nok\nnot exported\n",
        )?
    );
    assert!(rt;
        answers(
            alloc,
            b"spec { true } { true }\nspec { true } { true }\n1:skip\n2:exact lam(false, #0)\n2:exact lam(true, #0)\nundo\n",
            b"ok\n  1: { true } { true }\nrefused Line\nok\n  2: |- true => true\nrefused Line\nok\nrefused Line\nnot exported\n",
        )?
    );
    Ok(())
}

/// Whether the script whose certificate is `SKIP` ends with this status, the front of its transcript, so many
/// bytes of its last reply, and the front of its file.
fn exports(
    alloc: Global,
    faults: Faults,
    status: Status,
    printed: (usize, usize),
    written: usize,
) -> Result<bool, NoMemory> {
    let mut lines = Vec::new(alloc);
    lines.extend_from_slice(TRANSCRIPT.get(..printed.0).unwrap_or(TRANSCRIPT))?;
    lines.extend_from_slice(REPLY.get(..printed.1).unwrap_or(REPLY))?;
    let wanted = Ending {
        status,
        printed: lines.as_slice(),
        written: SKIP.get(..written).unwrap_or(&SKIP),
    };
    derives(alloc, SCRIPT, faults, wanted)
}

/// What is exported is the first certificate of the rows of `check`. Lines behind it are not played.
#[test]
fn an_export(rt: HostRuntime) -> Result<(), Fail> {
    let alloc = rt.alloc();
    assert!(rt; exports(alloc, NO_FAULTS, Status::Done, (80, 18), 15)?);
    let mut script = Vec::from_slice(alloc, SCRIPT)?;
    script.extend_from_slice(b"nonsense\n")?;
    let mut printed = Vec::from_slice(alloc, TRANSCRIPT)?;
    printed.extend_from_slice(REPLY)?;
    let wanted = Ending {
        status: Status::Done,
        printed: printed.as_slice(),
        written: &SKIP,
    };
    assert!(rt; derives(alloc, script.as_slice(), NO_FAULTS, wanted)?);
    Ok(())
}

/// Each call on the origin in turn fails: opening, the one piece, and the end. There is no fourth.
#[test]
fn reads_fail(rt: HostRuntime) -> Result<(), Fail> {
    for call in 0..3u64 {
        let faults = [call];
        assert!(rt;
            exports(
                rt.alloc(),
                read_fails(&faults),
                Status::ReadFault,
                (0, 0),
                0
            )?,
            "call {call}"
        );
    }
    assert!(rt; exports(rt.alloc(), read_fails(&[3]), Status::Done, (80, 18), 15)?);
    Ok(())
}

/// Each call on the target in turn fails: the creation, and the puts of ten bytes and of five. The transcript is
/// printed, and the file has what was put before.
#[test]
fn writes_fail(rt: HostRuntime) -> Result<(), Fail> {
    for (call, written) in [(0u64, 0usize), (1, 0), (2, 10)] {
        let faults = [call];
        assert!(rt;
            exports(
                rt.alloc(),
                write_fails(&faults),
                Status::TargetFault,
                (80, 0),
                written
            )?,
            "call {call}"
        );
    }
    assert!(rt; exports(rt.alloc(), write_fails(&[3]), Status::Done, (80, 18), 15)?);
    Ok(())
}

/// The target has another name. The transcript is printed, and nothing is written.
#[test]
fn a_foreign_target(rt: HostRuntime) -> Result<(), Fail> {
    let wanted = Ending {
        status: Status::TargetFault,
        printed: TRANSCRIPT,
        written: b"",
    };
    assert!(rt; ends(rt.alloc(), &["derive", "c", "e"], SCRIPT, NO_FAULTS, wanted)?);
    Ok(())
}

/// Each put on the sink in turn fails. Before the last reply nothing is written, and with it the file is whole.
#[test]
fn replies_fail(rt: HostRuntime) -> Result<(), Fail> {
    for call in 0..16u64 {
        let faults = [call];
        let printed = call as usize * 5;
        assert!(rt;
            exports(
                rt.alloc(),
                put_fails(&faults),
                Status::OutFault,
                (printed, 0),
                0
            )?,
            "put {call}"
        );
    }
    for call in 0..4u64 {
        let faults = [call + 16];
        let printed = call as usize * 5;
        assert!(rt;
            exports(
                rt.alloc(),
                put_fails(&faults),
                Status::OutFault,
                (80, printed),
                15
            )?,
            "put {call} of the reply"
        );
    }
    assert!(rt; exports(rt.alloc(), put_fails(&[20]), Status::Done, (80, 18), 15)?);
    Ok(())
}

/// A put fails where nothing is exported, within the transcript and within the last line.
#[test]
fn last_lines_fail(rt: HostRuntime) -> Result<(), Fail> {
    let rows: [(u64, Status, &[u8]); 5] = [
        (0, Status::OutFault, b""),
        (2, Status::OutFault, b"refused Li"),
        (3, Status::OutFault, b"refused Line\n"),
        (5, Status::OutFault, b"refused Line\nnot export"),
        (6, Status::Refused, b"refused Line\nnot exported\n"),
    ];
    for (call, status, printed) in rows {
        let faults = [call];
        let wanted = Ending {
            status,
            printed,
            written: b"",
        };
        assert!(rt;
            derives(rt.alloc(), b"export", put_fails(&faults), wanted)?,
            "put {call}"
        );
    }
    Ok(())
}

/// A script of line feeds at its limit, and one byte past it.
#[test]
fn long_scripts(rt: HostRuntime) -> Result<(), Fail> {
    let alloc = rt.alloc();
    let long = vec![in alloc; b'\n'; 1_048_577]?;
    let whole = long.get(..1_048_576).ok_or("room for the limit")?;
    assert!(rt; answers(alloc, whole, b"not exported\n")?);
    let wanted = Ending {
        status: Status::TooLong,
        printed: b"refused TooLong\n",
        written: b"",
    };
    assert!(rt; derives(alloc, long.as_slice(), NO_FAULTS, wanted)?);
    let wanted = Ending {
        status: Status::TooLong,
        printed: b"refused To",
        written: b"",
    };
    assert!(rt; derives(alloc, long.as_slice(), put_fails(&[2]), wanted)?);
    Ok(())
}
