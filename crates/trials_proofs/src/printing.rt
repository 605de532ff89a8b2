//! Printed terms and formulas. A row has a text that is read, mostly with more parentheses than it needs, and what
//! is printed of its tree, worked out by hand from the grammar and the table of levels.

use crate::asking::nested;
use crate::reading::{formula, term};
use ck_base::DeclFault;
use std::alloc::Global;
use std::test::Fail;

/// Whether the term is printed so, where two variables are in scope.
fn prints(alloc: Global, text: &[u8], wanted: &[u8]) -> Result<bool, DeclFault> {
    Ok(term(alloc, 2, text)?.as_bytes() == wanted)
}

/// Whether the formula is printed so, behind what stands there, where so many variables are in scope.
fn prints_under(alloc: Global, sorts: u32, text: &[u8], wanted: &[u8]) -> Result<bool, DeclFault> {
    Ok(
        formula(alloc, sorts, b"T ", text)?
            .as_bytes()
            .strip_prefix(b"T ")
            == Some(wanted),
    )
}

#[test]
fn leaves_are_printed(rt: HostRuntime) -> Result<(), Fail> {
    let alloc = rt.alloc();
    assert!(rt; prints(alloc, b"(y)", b"y")?);
    assert!(rt; prints(alloc, b"(_1)", b"_1")?);
    assert!(rt; prints(alloc, b"(_0)", b"_0")?);
    assert!(rt; prints(alloc, b"(true)", b"true")?);
    assert!(rt; prints(alloc, b"(false)", b"false")?);
    assert!(rt; prints(alloc, b"(0)", b"0")?);
    assert!(rt; prints(alloc, b"(-0120)", b"-120")?);
    assert!(rt;
        prints(
            alloc,
            b"(-170141183460469231731687303715884105727)",
            b"-170141183460469231731687303715884105727"
        )?
    );
    Ok(())
}

#[test]
fn integer_terms_are_printed(rt: HostRuntime) -> Result<(), Fail> {
    let alloc = rt.alloc();
    assert!(rt; prints(alloc, b"-(x)", b"-x")?);
    assert!(rt; prints(alloc, b"-(-(x))", b"--x")?);
    assert!(rt; prints(alloc, b"-((5))", b"-(5)")?);
    assert!(rt; prints(alloc, b"--5", b"-(-5)")?);
    assert!(rt; prints(alloc, b"(-((x + y)))", b"-(x + y)")?);
    assert!(rt; prints(alloc, b"((x - y) - (-2))", b"x - y - -2")?);
    assert!(rt; prints(alloc, b"x - ((y - (1)))", b"x - (y - 1)")?);
    assert!(rt; prints(alloc, b"((x + 1)) * ((x * y))", b"(x + 1) * (x * y)")?);
    assert!(rt; prints(alloc, b"x * (-(y))", b"x * -y")?);
    Ok(())
}

#[test]
fn truth_terms_are_printed(rt: HostRuntime) -> Result<(), Fail> {
    let alloc = rt.alloc();
    assert!(rt; prints(alloc, b"not (x = y)", b"not x = y")?);
    assert!(rt; prints(alloc, b"not (not ((b or b)))", b"not not (b or b)")?);
    assert!(rt; prints(alloc, b"(b or (b and b)) or b", b"b or b and b or b")?);
    assert!(rt;
        prints(
            alloc,
            b"((b or b) and ((b and b)))",
            b"(b or b) and (b and b)"
        )?
    );
    assert!(rt; prints(alloc, b"(x + y) <= (_1)", b"x + y <= _1")?);
    assert!(rt; prints(alloc, b"((x < y)) = (b)", b"(x < y) = b")?);
    Ok(())
}

#[test]
fn connectives_are_printed(rt: HostRuntime) -> Result<(), Fail> {
    let alloc = rt.alloc();
    assert!(rt; prints_under(alloc, 0, b"b => bottom", b"~b")?);
    assert!(rt; prints_under(alloc, 0, b"(b => b) => bottom", b"~(b => b)")?);
    assert!(rt; prints_under(alloc, 0, b"(b => bottom) => (b => b)", b"~b => b => b")?);
    assert!(rt; prints_under(alloc, 0, b"((b => b)) => true", b"(b => b) => true")?);
    assert!(rt;
        prints_under(
            alloc,
            0,
            b"(b /\\ (b /\\ b)) \\/ (b \\/ b)",
            b"b /\\ b /\\ b \\/ b \\/ b"
        )?
    );
    assert!(rt;
        prints_under(
            alloc,
            0,
            b"((b \\/ b) /\\ ((b \\/ b)))",
            b"(b \\/ b) /\\ (b \\/ b)"
        )?
    );
    assert!(rt; prints_under(alloc, 0, b"(bottom) => b", b"bottom => b")?);
    Ok(())
}

#[test]
fn quantifiers_are_printed(rt: HostRuntime) -> Result<(), Fail> {
    let alloc = rt.alloc();
    assert!(rt;
        prints_under(
            alloc,
            0,
            b"all z. (z < y => (z = 3 - -2 => bottom))",
            b"all _0:int. _0 < y => ~_0 = 3 - -2"
        )?
    );
    assert!(rt;
        prints_under(
            alloc,
            0,
            b"(all z. ex w. z < w) => (all z. (ex w. z < w))",
            b"(all _0:int. ex _1:int. _0 < _1) => all _0:int. ex _1:int. _0 < _1"
        )?
    );
    assert!(rt; prints_under(alloc, 9, b"ex z:bool. (z)", b"ex _9:bool. _9")?);
    assert!(rt; prints_under(alloc, 2, b"all z:bool. (_0)", b"all _2:bool. _0")?);
    Ok(())
}

/// 254 implications, each on the left of the next.
#[test]
fn deep_formulas_are_printed(rt: HostRuntime) -> Result<(), Fail> {
    let alloc = rt.alloc();
    let text = nested(alloc, 253, b"(", b"bottom => b", b") => b")?;
    assert!(rt; prints_under(alloc, 0, text.as_bytes(), text.as_bytes())?);
    Ok(())
}
