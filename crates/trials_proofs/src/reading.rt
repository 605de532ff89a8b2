//! Texts that are read, with trees and columns worked out by hand from the grammar.

use crate::asking::{names, nested};
use ck_base::{DeclFault, Scope, Text};
use ck_text::{print_formula, print_term, read_formula, read_term};
use std::alloc::Global;
use std::test::Fail;

// The most bytes of a text that a test reads.
const MOST: usize = 4_096;

/// The printed term that the text is read as, where so many variables are in scope, or the fault.
pub(crate) fn term(alloc: Global, sorts: u32, text: &[u8]) -> Result<Text, DeclFault> {
    let decls = names(alloc)?;
    let mut out = Text::new(alloc);
    if text.len() > MOST || sorts > 9 {
        return Ok(out);
    }
    let scope = Scope { sorts, hyps: 0 };
    match read_term(alloc, &decls, scope, text) {
        Ok(t) => print_term(&decls, scope, &t, &mut out)?,
        Err(fault) => out.append(format!(in alloc; "{fault}")?.as_bytes())?,
    }
    Ok(out)
}

/// The same of a formula, behind what stands there.
pub(crate) fn formula(
    alloc: Global,
    sorts: u32,
    before: &[u8],
    text: &[u8],
) -> Result<Text, DeclFault> {
    let decls = names(alloc)?;
    let mut out = Text::new(alloc);
    if text.len() > MOST || sorts > 9 {
        return Ok(out);
    }
    out.append(before)?;
    let scope = Scope { sorts, hyps: 0 };
    match read_formula(alloc, &decls, scope, text) {
        Ok(a) => print_formula(&decls, scope, &a, &mut out)?,
        Err(fault) => out.append(format!(in alloc; "{fault}")?.as_bytes())?,
    }
    Ok(out)
}

/// Whether a term is read so, with nothing in scope.
fn reads(alloc: Global, text: &[u8], wanted: &[u8]) -> Result<bool, DeclFault> {
    Ok(term(alloc, 0, text)?.as_bytes() == wanted)
}

/// Whether a formula is read so, with nothing in scope.
fn means(alloc: Global, text: &[u8], wanted: &[u8]) -> Result<bool, DeclFault> {
    Ok(formula(alloc, 0, b"", text)?.as_bytes() == wanted)
}

/// Whether a formula is read so, with one variable in scope.
fn means_under(alloc: Global, text: &[u8], wanted: &[u8]) -> Result<bool, DeclFault> {
    Ok(formula(alloc, 1, b"", text)?.as_bytes() == wanted)
}

#[test]
fn terms_are_read(rt: HostRuntime) -> Result<(), Fail> {
    let alloc = rt.alloc();
    assert!(rt; reads(alloc, b" \tx ", b"x")?);
    assert!(rt; reads(alloc, b"((true))", b"true")?);
    assert!(rt; reads(alloc, b"x+y*x-2", b"x + y * x - 2")?);
    assert!(rt;
        reads(
            alloc,
            b"(x + y) * (x - (y - 1))",
            b"(x + y) * (x - (y - 1))"
        )?
    );
    assert!(rt; reads(alloc, b"-(5)", b"-(5)")?);
    assert!(rt; reads(alloc, b"--5", b"-(-5)")?);
    assert!(rt; reads(alloc, b"-x - -5", b"-x - -5")?);
    assert!(rt; reads(alloc, b"not b or b and x<=y", b"not b or b and x <= y")?);
    assert!(rt;
        reads(
            alloc,
            b"not (x = y) and (b or false)",
            b"not x = y and (b or false)"
        )?
    );
    assert!(rt; reads(alloc, b"x < y", b"x < y")?);
    Ok(())
}

#[test]
fn numbers_are_read(rt: HostRuntime) -> Result<(), Fail> {
    let alloc = rt.alloc();
    assert!(rt; reads(alloc, b"-0", b"0")?);
    assert!(rt;
        reads(
            alloc,
            b"0000000000000000000000000000000000000000000000007",
            b"7"
        )?
    );
    assert!(rt;
        reads(
            alloc,
            b"-170141183460469231731687303715884105727",
            b"-170141183460469231731687303715884105727"
        )?
    );
    assert!(rt;
        reads(
            alloc,
            b"x + 170141183460469231731687303715884105728",
            b"syntax, column 5"
        )?
    );
    assert!(rt;
        reads(
            alloc,
            b"99999999999999999999999999999999999999999999999999",
            b"syntax, column 1"
        )?
    );
    Ok(())
}

#[test]
fn formulas_are_read(rt: HostRuntime) -> Result<(), Fail> {
    let alloc = rt.alloc();
    assert!(rt;
        means(
            alloc,
            b"all x. x < y => ~ x = 3 - -2",
            b"all _0:int. _0 < y => ~_0 = 3 - -2"
        )?
    );
    assert!(rt;
        means(
            alloc,
            b"ex z:bool.z/\\b\\/bottom",
            b"ex _0:bool. _0 /\\ b \\/ bottom"
        )?
    );
    assert!(rt; means(alloc, b"b => (b => bottom) => b", b"b => ~b => b")?);
    assert!(rt;
        means(
            alloc,
            b"~(b => b) /\\ (b \\/ b)",
            b"~(b => b) /\\ (b \\/ b)"
        )?
    );
    assert!(rt;
        means(
            alloc,
            b"all z. all z : bool. z",
            b"all _0:int. all _1:bool. _1"
        )?
    );
    assert!(rt; means_under(alloc, b"all z. _0 = z", b"all _1:int. _0 = _1")?);
    assert!(rt; means_under(alloc, b"all _0. _0 = y", b"all _1:int. _1 = y")?);
    Ok(())
}

#[test]
fn faults_have_columns(rt: HostRuntime) -> Result<(), Fail> {
    let alloc = rt.alloc();
    assert!(rt; reads(alloc, b"", b"syntax, column 1")?);
    assert!(rt; reads(alloc, b"x + ", b"syntax, column 5")?);
    assert!(rt; reads(alloc, b"x < y < x", b"syntax, column 7")?);
    assert!(rt; reads(alloc, b"(x => y)", b"syntax, column 4")?);
    assert!(rt; reads(alloc, b"x % y", b"syntax, column 3")?);
    assert!(rt; reads(alloc, b"x mod y", b"syntax, column 3")?);
    assert!(rt; means(alloc, b"(x => y) + 1", b"syntax, column 10")?);
    assert!(rt; means(alloc, b"all x : y. b", b"syntax, column 9")?);
    assert!(rt; reads(alloc, b"x + q", b"unknown name, column 5")?);
    assert!(rt; means_under(alloc, b"_0 = _00 \\/ q", b"unknown name, column 6")?);
    Ok(())
}

#[test]
fn levels_are_counted(rt: HostRuntime) -> Result<(), Fail> {
    let alloc = rt.alloc();
    let within = nested(alloc, 512, b"(", b"x", b")")?;
    assert!(rt; reads(alloc, within.as_bytes(), b"x")?);
    let within = nested(alloc, 513, b"(", b"x", b")")?;
    assert!(rt; reads(alloc, within.as_bytes(), b"syntax, column 513")?);
    let negated = nested(alloc, 255, b"-", b"x", b"")?;
    assert!(rt; reads(alloc, negated.as_bytes(), negated.as_bytes())?);
    assert!(rt; means(alloc, negated.as_bytes(), b"too deep, column 1")?);
    let sum = nested(alloc, 255, b"", b"x", b" + x")?;
    assert!(rt; reads(alloc, sum.as_bytes(), sum.as_bytes())?);
    let sum = nested(alloc, 256, b"", b"x", b" + q")?;
    assert!(rt; reads(alloc, sum.as_bytes(), b"too deep, column 1")?);
    Ok(())
}
