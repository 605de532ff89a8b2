//! Printed proofs. The texts were worked out by hand from the table of rules, and are read, copied and printed again.

use crate::asking::{copies_under, nested};
use ck_base::Scope;
use std::test::Fail;

/// Each rule once, around the newest hypothesis.
#[test]
fn each_rule_is_printed(rt: HostRuntime) -> Result<(), Fail> {
    let alloc = rt.alloc();
    assert!(rt;
        copies_under(
            alloc,
            Scope { sorts: 1, hyps: 2 },
            b"lam(_0, gen(bool, unpack(induct(_2), cases(ring(x, y), rewrite(_3, compute(y), pack(int, _3, -5, inst(pair(axiom(24), app(absurd(bottom, right(bottom, left(true, second(first(stable(#4)))))), ?7)), _2))), refl(x)))))"
        )?
    );
    Ok(())
}

/// 2,047 lambdas around a hypothesis, the deepest proof that is read.
#[test]
fn deep_proofs_are_printed(rt: HostRuntime) -> Result<(), Fail> {
    let alloc = rt.alloc();
    let text = nested(alloc, 2_047, b"lam(_0, ", b"#2046", b")")?;
    assert!(rt; copies_under(alloc, Scope { sorts: 1, hyps: 0 }, text.as_bytes())?);
    Ok(())
}
