//! Lines and texts of scripts, with values worked out by hand from the grammar.

use crate::asking::{CLOSED, joined, nested};
use ck_base::{Decls, NoMemory, Scope, Text};
use ck_text::{print_formula, print_proof};
use formulas::Formula;
use script_reader::{Line, LineFault, OpenHole, is_blank_line, next_line, read_line};
use std::alloc::Global;
use std::test::Fail;

// Hole 3 is open, under two hypotheses.
const OPENED: Option<OpenHole> = Some(OpenHole {
    number: 3,
    hypotheses: 2,
});

const SCOPE: Scope = Scope { sorts: 0, hyps: 2 };

/// What a line asks for, printed.
fn asked(alloc: Global, line: &Line) -> Result<Text, NoMemory> {
    match line {
        Line::Spec { pre, post } => spec(alloc, pre, post),
        Line::Skip { hole } => step(alloc, *hole, b"skip"),
        Line::Intro { hole } => step(alloc, *hole, b"intro"),
        Line::Exact { hole, proof } => {
            let mut text = step(alloc, *hole, b"exact ")?;
            print_proof(&Decls::new(alloc), SCOPE, proof, &mut text)?;
            Ok(text)
        }
        Line::Export => joined(alloc, &[b"export"]),
    }
}

/// `spec { P } { Q }`.
fn spec(alloc: Global, pre: &Formula, post: &Formula) -> Result<Text, NoMemory> {
    let decls = Decls::new(alloc);
    let mut text = joined(alloc, &[b"spec { "])?;
    print_formula(&decls, CLOSED, pre, &mut text)?;
    text.append(b" } { ")?;
    print_formula(&decls, CLOSED, post, &mut text)?;
    text.append(b" }")?;
    Ok(text)
}

/// The hole, and what is done at it.
fn step(alloc: Global, hole: u32, word: &[u8]) -> Result<Text, NoMemory> {
    joined(alloc, &[format!(in alloc; "{hole}: ")?.as_bytes(), word])
}

/// Whether the line asks for that, where hole 3 is open under two hypotheses.
fn asks(alloc: Global, line: &[u8], wanted: &[u8]) -> Result<bool, NoMemory> {
    match read_line(alloc, OPENED, line) {
        Ok(line) => Ok(asked(alloc, &line)?.as_bytes() == wanted),
        Err(LineFault::Unread) => Ok(wanted == b"unread".as_slice()),
        Err(LineFault::NoMemory) => Err(NoMemory),
    }
}

/// Whether the line means nothing.
fn is_unread(alloc: Global, line: &[u8]) -> Result<bool, NoMemory> {
    asks(alloc, line, b"unread")
}

/// The line `spec { P } { P }` where P is that.
fn spec_of(alloc: Global, formula: &[u8]) -> Result<Text, NoMemory> {
    joined(alloc, &[b"spec { ", formula, b" } { ", formula, b" }"])
}

/// Whether the formula is read in both places, and printed so; and what is printed is read again as it stands.
fn reads_and_prints(alloc: Global, formula: &[u8], wanted: &[u8]) -> Result<bool, NoMemory> {
    let line = spec_of(alloc, formula)?;
    let printed = spec_of(alloc, wanted)?;
    Ok(
        asks(alloc, line.as_bytes(), printed.as_bytes())?
            && asks(alloc, printed.as_bytes(), printed.as_bytes())?,
    )
}

#[test]
fn formulas_are_read_and_printed(rt: HostRuntime) -> Result<(), Fail> {
    let alloc = rt.alloc();
    assert!(rt; reads_and_prints(alloc, b" (( bottom)) ", b"bottom")?);
    assert!(rt; reads_and_prints(alloc, b"true=>false=>bottom", b"true => ~false")?);
    assert!(rt;
        reads_and_prints(
            alloc,
            b"(true => false) => true",
            b"(true => false) => true"
        )?
    );
    assert!(rt; reads_and_prints(alloc, b"~(true => bottom)", b"~~true")?);
    assert!(rt;
        reads_and_prints(
            alloc,
            b"~true => (false => true)",
            b"~true => false => true"
        )?
    );
    assert!(rt; reads_and_prints(alloc, b"~(true => false)", b"~(true => false)")?);
    Ok(())
}

#[test]
fn lines_that_mean_nothing(rt: HostRuntime) -> Result<(), Fail> {
    let alloc = rt.alloc();
    assert!(rt; is_unread(alloc, b"spec { true }")?);
    assert!(rt; is_unread(alloc, b"spec { true } { true } true")?);
    assert!(rt; is_unread(alloc, b"spec { ~(true } { true }")?);
    assert!(rt; is_unread(alloc, b"spec { truex } { true }")?);
    assert!(rt; is_unread(alloc, b"1:= skip")?);
    assert!(rt; is_unread(alloc, b"4294967296: skip")?);
    assert!(rt; is_unread(alloc, b"3: exact #2")?);
    assert!(rt; is_unread(alloc, b"3: exact app(#0, #1")?);
    assert!(rt; is_unread(alloc, b"export export")?);
    Ok(())
}

#[test]
fn steps(rt: HostRuntime) -> Result<(), Fail> {
    let alloc = rt.alloc();
    assert!(rt; asks(alloc, b"007 :skip", b"7: skip")?);
    assert!(rt; asks(alloc, b"4294967295:intro", b"4294967295: intro")?);
    assert!(rt; asks(alloc, b"\texport ", b"export")?);
    assert!(rt; asks(alloc, b"3: exact #01", b"3: exact #1")?);
    assert!(rt;
        asks(
            alloc,
            b"3: exact lam(true,app(#2, #0))",
            b"3: exact lam(true, app(#2, #0))"
        )?
    );
    assert!(rt; is_unread(alloc, b"2: exact #0")?);
    Ok(())
}

/// So many spaces before `export`.
fn far_export(alloc: Global, spaces: u32) -> Result<Text, NoMemory> {
    nested(alloc, spaces, b" ", b"export", b"")
}

/// 256 levels of depth, each at its limit and past it.
#[test]
fn limits_of_depth(rt: HostRuntime) -> Result<(), Fail> {
    let alloc = rt.alloc();
    let most = nested(alloc, 254, b"~", b"true", b"")?;
    assert!(rt; reads_and_prints(alloc, most.as_bytes(), most.as_bytes())?);
    let more = nested(alloc, 255, b"~", b"true", b"")?;
    assert!(rt; is_unread(alloc, spec_of(alloc, more.as_bytes())?.as_bytes())?);
    let most = nested(alloc, 512, b"(", b"true", b")")?;
    assert!(rt; reads_and_prints(alloc, most.as_bytes(), b"true")?);
    let more = nested(alloc, 513, b"(", b"true", b")")?;
    assert!(rt; is_unread(alloc, spec_of(alloc, more.as_bytes())?.as_bytes())?);
    Ok(())
}

/// 8,192 bytes, at their limit and past it, and bytes that are no text.
#[test]
fn limits_of_bytes(rt: HostRuntime) -> Result<(), Fail> {
    let alloc = rt.alloc();
    assert!(rt; asks(alloc, far_export(alloc, 8_186)?.as_bytes(), b"export")?);
    assert!(rt; is_unread(alloc, far_export(alloc, 8_187)?.as_bytes())?);
    assert!(rt; is_unread(alloc, b"export\r")?);
    assert!(rt; is_unread(alloc, b"export\x7F")?);
    Ok(())
}

#[test]
fn blank_lines(rt: HostRuntime) -> Result<(), Fail> {
    assert!(rt; is_blank_line(b""));
    assert!(rt; is_blank_line(b"  // export"));
    assert!(rt; !is_blank_line(b"/ /"));
    assert!(rt; !is_blank_line(b"// \x7F"));
    let alloc = rt.alloc();
    assert!(rt; is_blank_line(nested(alloc, 8_192, b" ", b"", b"")?.as_bytes()));
    assert!(rt; !is_blank_line(nested(alloc, 8_193, b" ", b"", b"")?.as_bytes()));
    Ok(())
}

/// Whether these are the first line of the script and the rest.
fn begins(script: &[u8], first: &[u8], rest: &[u8]) -> bool {
    match next_line(script) {
        Some((line, more)) => line == first && more == rest,
        None => false,
    }
}

#[test]
fn scripts(rt: HostRuntime) {
    assert!(rt; next_line(b"").is_none());
    assert!(rt; begins(b"\n", b"", b""));
    assert!(rt; begins(b"a\r\n\n", b"a", b"\n"));
    assert!(rt; begins(b"a\r\r\nb", b"a\r", b"b"));
    assert!(rt; begins(b"a\r", b"a\r", b""));
}
