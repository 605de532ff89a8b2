//! Proofs as their texts give them: copies, holes and what fills them, and the most levels. What is expected was
//! worked out by hand.

use crate::asking::{Ask, answers, copies, has, joined, lacks, nested};
use std::test::Fail;

/// Each rule once.
#[test]
fn proofs_are_copied(rt: HostRuntime) -> Result<(), Fail> {
    let alloc = rt.alloc();
    assert!(rt; copies(alloc, b"lam(a => b, app(#9, ?7))")?);
    assert!(rt; copies(alloc, b"gen(bool, inst(#0, _0 or x = 2))")?);
    assert!(rt; copies(alloc, b"pair(first(#1), second(#2))")?);
    assert!(rt; copies(alloc, b"cases(#0, left(~a, #9), right(b /\\ a, #9))")?);
    assert!(rt;
        copies(
            alloc,
            b"pack(int, x < _0, -3, unpack(#0, absurd(_0 = x, stable(#9))))"
        )?
    );
    assert!(rt; copies(alloc, b"rewrite(_0 = x, refl(x + 1), axiom(26))")?);
    assert!(rt;
        copies(
            alloc,
            b"pair(induct(0 <= _0), pair(compute(1 < 2), ring(x, x * 1)))"
        )?
    );
    Ok(())
}

#[test]
fn holes_are_filled(rt: HostRuntime) -> Result<(), Fail> {
    let alloc = rt.alloc();
    let p = b"pair(?3, cases(?1, lam(a, ?2), ?5))";
    assert!(rt; answers(alloc, Ask::Measures, p, b"levels 4, nodes 9, holes 3 1 2 5")?);
    assert!(rt;
        answers(
            alloc,
            Ask::Fill(2, b"first(?4)"),
            p,
            b"pair(?3, cases(?1, lam(a, first(?4)), ?5))"
        )?
    );
    assert!(rt;
        answers(
            alloc,
            Ask::Fill(4, b"refl(x)"),
            p,
            b"pair(?3, cases(?1, lam(a, ?2), ?5)) and refl(x)"
        )?
    );
    assert!(rt;
        answers(
            alloc,
            Ask::Unfill(2),
            p,
            b"1 1 0 pair(?3, cases(?1, lam(a, ?9), ?5)) for ?2"
        )?
    );
    assert!(rt; answers(alloc, Ask::Unfill(4), p, b"no path")?);
    Ok(())
}

/// A formula of 256 levels is read, and one of 257 is too deep, before a name that means nothing.
#[test]
fn deep_formulas(rt: HostRuntime) -> Result<(), Fail> {
    let alloc = rt.alloc();
    let text = nested(alloc, 254, b"~", b"true", b"")?;
    let text = joined(alloc, &[b"lam(", text.as_bytes(), b", refl(true))"])?;
    assert!(rt; has(alloc, text.as_bytes(), b"place 0")?);
    let text = nested(alloc, 255, b"~", b"true", b"")?;
    let text = joined(alloc, &[b"pair(refl(q), lam(", text.as_bytes(), b", #0))"])?;
    assert!(rt; has(alloc, text.as_bytes(), b"too deep, column 19")?);
    Ok(())
}

/// 2,048 levels are read, typed, copied, printed, filled and dropped within a stack of 8 MiB, and no more are read.
#[test]
fn deep_proofs(rt: HostRuntime) -> Result<(), Fail> {
    let alloc = rt.alloc();
    let text = nested(alloc, 2_047, b"stable(", b"?1", b")")?;
    let deepest = text.as_bytes();
    assert!(rt; has(alloc, deepest, b"place 0")?);
    assert!(rt; copies(alloc, deepest)?);
    assert!(rt;
        answers(
            alloc,
            Ask::Measures,
            deepest,
            b"levels 2048, nodes 2048, holes 1"
        )?
    );
    let filled = nested(alloc, 2_047, b"stable(", b"axiom(3)", b")")?;
    assert!(rt; answers(alloc, Ask::Fill(1, b"axiom(3)"), deepest, filled.as_bytes())?);
    let text = nested(alloc, 2_048, b"stable(", b"?1", b")")?;
    assert!(rt; has(alloc, text.as_bytes(), b"syntax, column 14337")?);
    Ok(())
}

/// A proof of 2,048 levels that has a formula: the oldest hypothesis is opened 2,046 times, and each time one
/// more variable and hypothesis stand around the rest.
#[test]
fn deep_proofs_of_formulas(rt: HostRuntime) -> Result<(), Fail> {
    let alloc = rt.alloc();
    let rest = nested(alloc, 2_046, b"unpack(#0, ", b"refl(3)", b")")?;
    let text = joined(alloc, &[b"lam(ex x. x = x, ", rest.as_bytes(), b")"])?;
    assert!(rt; has(alloc, text.as_bytes(), b"(ex _0:int. _0 = _0) => 3 = 3")?);
    // The newest hypothesis is about the newest variable, which would escape.
    let rest = nested(alloc, 2_046, b"unpack(#0, ", b"#2046", b")")?;
    let text = joined(alloc, &[b"lam(ex x. x = x, ", rest.as_bytes(), b")"])?;
    assert!(rt; lacks(alloc, text.as_bytes(), 2_047)?);
    Ok(())
}
