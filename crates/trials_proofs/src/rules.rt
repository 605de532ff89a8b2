//! Rows of the typing rules: the formula that each rule gives, where a proof has none, and which formulas are too
//! large to be given. What is expected was worked out by hand.

use crate::asking::{Ask, answer, has, joined, lacks, nested};
use ck_base::{DeclFault, Scope};
use std::alloc::Global;
use std::test::Fail;

#[test]
fn implications(rt: HostRuntime) -> Result<(), Fail> {
    let alloc = rt.alloc();
    // Peirce's law.
    assert!(rt;
        has(
            alloc,
            b"lam((a => b) => a, stable(lam(~a, app(#1, app(#0, lam(a, absurd(b, app(#1, #2))))))))",
            b"((a => b) => a) => a"
        )?
    );
    // A hypothesis that is not there.
    let one = Scope { sorts: 0, hyps: 1 };
    assert!(rt; answer(alloc, Ask::Formula, one, b"#0")?.as_bytes() == b"place 0".as_slice());
    assert!(rt; lacks(alloc, b"lam(7, #0)", 1)?);
    // The part of a lambda over no formula is passed over.
    assert!(rt; lacks(alloc, b"lam(7, first(#0))", 2)?);
    assert!(rt; lacks(alloc, b"lam(a, first(#0))", 1)?);
    assert!(rt; lacks(alloc, b"lam(a, app(#0, #0))", 2)?);
    assert!(rt; lacks(alloc, b"lam(a => b, lam(b, app(#0, #1)))", 2)?);
    assert!(rt; lacks(alloc, b"lam(a, app(first(#0), #0))", 1)?);
    assert!(rt; lacks(alloc, b"lam(a => b, app(#0, first(#0)))", 2)?);
    Ok(())
}

#[test]
fn quantifiers(rt: HostRuntime) -> Result<(), Fail> {
    let alloc = rt.alloc();
    assert!(rt;
        has(
            alloc,
            b"lam(all x. ex y. x < y, gen(int, inst(#0, _0 + 1)))",
            b"(all _0:int. ex _1:int. _0 < _1) => all _0:int. ex _1:int. _0 + 1 < _1"
        )?
    );
    assert!(rt;
        has(
            alloc,
            b"lam(all x. ex y. x < y, gen(int, inst(#0, _0)))",
            b"(all _0:int. ex _1:int. _0 < _1) => all _0:int. ex _1:int. _0 < _1"
        )?
    );
    assert!(rt; has(alloc, b"gen(bool, lam(_0, #0))", b"all _0:bool. _0 => _0")?);
    assert!(rt; lacks(alloc, b"gen(int, refl(true))", 0)?);
    assert!(rt; lacks(alloc, b"lam(a, inst(#0, 3))", 1)?);
    assert!(rt; lacks(alloc, b"lam(all x. x = x, inst(#0, true))", 1)?);
    assert!(rt; lacks(alloc, b"inst(refl(true), 3)", 0)?);
    Ok(())
}

#[test]
fn existential_formulas(rt: HostRuntime) -> Result<(), Fail> {
    let alloc = rt.alloc();
    assert!(rt;
        has(
            alloc,
            b"pack(int, _0 = _0, 3, refl(3))",
            b"ex _0:int. _0 = _0"
        )?
    );
    assert!(rt; lacks(alloc, b"pack(bool, _0 = _0, true, refl(3))", 1)?);
    assert!(rt; lacks(alloc, b"pack(int, _0 = _0, true, refl(3))", 1)?);
    assert!(rt; lacks(alloc, b"pack(int, _0 = _0, 4, refl(3))", 1)?);
    assert!(rt; lacks(alloc, b"pack(int, _0 = _0, 3, refl(true))", 0)?);
    assert!(rt;
        has(
            alloc,
            b"lam(ex x. x = x /\\ a, unpack(#0, second(#1)))",
            b"(ex _0:int. _0 = _0 /\\ a) => a"
        )?
    );
    // The variable would escape.
    assert!(rt; lacks(alloc, b"lam(ex x. x = 0, unpack(#0, #1))", 2)?);
    assert!(rt; lacks(alloc, b"lam(ex x. x = 0, unpack(#0, first(#1)))", 2)?);
    // The second part is passed over where the first is no existential formula.
    assert!(rt; lacks(alloc, b"lam(a, unpack(#0, first(#1)))", 3)?);
    assert!(rt; lacks(alloc, b"unpack(refl(true), refl(3))", 0)?);
    Ok(())
}

#[test]
fn pairs_and_cases(rt: HostRuntime) -> Result<(), Fail> {
    let alloc = rt.alloc();
    assert!(rt;
        has(
            alloc,
            b"lam(a /\\ b, pair(second(#0), first(#0)))",
            b"a /\\ b => b /\\ a"
        )?
    );
    assert!(rt; lacks(alloc, b"lam(a, pair(first(#0), #0))", 1)?);
    assert!(rt; lacks(alloc, b"lam(a, pair(#0, second(#0)))", 2)?);
    assert!(rt;
        has(
            alloc,
            b"lam(a \\/ b, cases(#0, right(b, #1), left(a, #1)))",
            b"a \\/ b => b \\/ a"
        )?
    );
    assert!(rt; lacks(alloc, b"lam(a, left(7, #0))", 1)?);
    assert!(rt; lacks(alloc, b"left(b, refl(true))", 0)?);
    assert!(rt; lacks(alloc, b"lam(a, right(7, #0))", 1)?);
    assert!(rt; lacks(alloc, b"right(b, refl(true))", 0)?);
    assert!(rt; lacks(alloc, b"lam(a \\/ b, cases(#0, #1, #1))", 3)?);
    assert!(rt; lacks(alloc, b"lam(a \\/ b, cases(#0, first(#1), #1))", 2)?);
    assert!(rt; lacks(alloc, b"lam(a \\/ b, cases(#0, #1, first(#1)))", 3)?);
    // Both branches are passed over where the first part is no disjunction.
    assert!(rt; lacks(alloc, b"lam(a, cases(#0, first(#1), second(#1)))", 5)?);
    Ok(())
}

#[test]
fn falsity_and_equality(rt: HostRuntime) -> Result<(), Fail> {
    let alloc = rt.alloc();
    assert!(rt; has(alloc, b"lam(bottom, absurd(a, #0))", b"bottom => a")?);
    assert!(rt; lacks(alloc, b"lam(bottom, absurd(7, #0))", 1)?);
    assert!(rt; lacks(alloc, b"lam(a, absurd(b, #0))", 1)?);
    assert!(rt; has(alloc, b"lam(~~a, stable(#0))", b"~~a => a")?);
    assert!(rt; lacks(alloc, b"lam(~a, stable(#0))", 1)?);
    assert!(rt; lacks(alloc, b"lam((a => b) => bottom, stable(#0))", 1)?);
    assert!(rt; has(alloc, b"refl(3)", b"3 = 3")?);
    // Nodes of terms are not counted.
    assert!(rt; lacks(alloc, b"pair(refl(1 + 2 + 3), refl(true))", 1)?);
    assert!(rt;
        has(
            alloc,
            b"lam(0 = 1, rewrite(_0 = 0, #0, refl(0)))",
            b"0 = 1 => 1 = 0"
        )?
    );
    assert!(rt; lacks(alloc, b"lam(1 = 0, rewrite(_0 = 0, #0, refl(0)))", 2)?);
    assert!(rt; lacks(alloc, b"lam(0 = 1, rewrite(_0, #0, refl(0)))", 2)?);
    assert!(rt; lacks(alloc, b"lam(a, rewrite(_0 = 0, #0, refl(0)))", 2)?);
    Ok(())
}

#[test]
fn arithmetic(rt: HostRuntime) -> Result<(), Fail> {
    let alloc = rt.alloc();
    assert!(rt;
        has(
            alloc,
            b"axiom(6)",
            b"all _0:int. all _1:int. all _2:int. 0 <= _2 => _0 <= _1 => _0 * _2 <= _1 * _2"
        )?
    );
    assert!(rt; lacks(alloc, b"axiom(0)", 0)?);
    assert!(rt; lacks(alloc, b"axiom(27)", 0)?);
    assert!(rt;
        has(
            alloc,
            b"induct(0 <= _0 * _0)",
            b"0 <= 0 * 0 => (all _0:int. 0 <= _0 => 0 <= _0 * _0 => 0 <= (_0 + 1) * (_0 + 1)) => all _0:int. 0 <= _0 => 0 <= _0 * _0"
        )?
    );
    assert!(rt; lacks(alloc, b"induct(_0)", 0)?);
    assert!(rt; has(alloc, b"compute(2 * 3 = 6)", b"2 * 3 = 6")?);
    assert!(rt; lacks(alloc, b"compute(1 = 2)", 0)?);
    assert!(rt; lacks(alloc, b"compute(7)", 0)?);
    assert!(rt; lacks(alloc, b"gen(int, compute(_0 = _0))", 0)?);
    assert!(rt;
        has(
            alloc,
            b"gen(int, ring((_0 + 1) * (_0 - 1), _0 * _0 - 1))",
            b"all _0:int. (_0 + 1) * (_0 - 1) = _0 * _0 - 1"
        )?
    );
    assert!(rt; lacks(alloc, b"gen(int, ring(_0 + 1, _0))", 0)?);
    assert!(rt; lacks(alloc, b"ring(true, 0)", 0)?);
    assert!(rt; lacks(alloc, b"ring(0, true)", 0)?);
    assert!(rt; lacks(alloc, b"lam(a, pair(#0, ?1))", 1)?);
    Ok(())
}

/// Weights below 2^127, and at most 4,096 products, are within the bounds of `compute` and `ring`.
#[test]
fn arithmetic_within_bounds(rt: HostRuntime) -> Result<(), Fail> {
    let alloc = rt.alloc();
    assert!(rt;
        has(
            alloc,
            b"compute(85070591730234615865843651857942052863 <= 85070591730234615865843651857942052864)",
            b"85070591730234615865843651857942052863 <= 85070591730234615865843651857942052864"
        )?
    );
    assert!(rt;
        lacks(
            alloc,
            b"compute(85070591730234615865843651857942052864 <= 85070591730234615865843651857942052864)",
            0
        )?
    );
    assert!(rt;
        has(
            alloc,
            b"ring(85070591730234615865843651857942052863 + 0, 85070591730234615865843651857942052863)",
            b"85070591730234615865843651857942052863 + 0 = 85070591730234615865843651857942052863"
        )?
    );
    assert!(rt;
        lacks(
            alloc,
            b"ring(85070591730234615865843651857942052864, 85070591730234615865843651857942052864)",
            0
        )?
    );
    // Eleven factors on each side, and then twelve.
    let most = nested(alloc, 10, b"(x + 1) * ", b"(x + 1)", b"")?;
    assert!(rt; equal_to_itself(alloc, most.as_bytes(), 1)?);
    let more = nested(alloc, 11, b"(x + 1) * ", b"(x + 1)", b"")?;
    assert!(rt; equal_to_itself(alloc, more.as_bytes(), 0)?);
    Ok(())
}

/// `first` around `ring` of the term and itself has its fault there.
fn equal_to_itself(alloc: Global, t: &[u8], place: u32) -> Result<bool, DeclFault> {
    let text = joined(alloc, &[b"first(ring(", t, b", ", t, b"))"])?;
    lacks(alloc, text.as_bytes(), place)
}

/// A formula of 257 levels, or of more than 16,384 nodes, is given by no rule.
#[test]
fn formulas_that_do_not_fit(rt: HostRuntime) -> Result<(), Fail> {
    let alloc = rt.alloc();
    assert!(rt; adds_a_level(alloc, b"first(gen(int, #0))", 1, 2)?);
    assert!(rt; adds_a_level(alloc, b"stable(pair(#0, #0))", 2, 3)?);
    assert!(rt; adds_a_level(alloc, b"first(left(a, #0))", 1, 2)?);
    assert!(rt; adds_a_level(alloc, b"first(right(a, #0))", 1, 2)?);
    Ok(())
}

/// Over a hypothesis of 255 levels the rule, whose number is `place`, has a formula, and so the fault is at what
/// stands around it; over one of 256 levels the rule has none.
fn adds_a_level(alloc: Global, rule: &[u8], place: u32, around: u32) -> Result<bool, DeclFault> {
    let low = nested(alloc, 253, b"~", b"true", b"")?;
    let high = nested(alloc, 254, b"~", b"true", b"")?;
    Ok(
        faulty_over(alloc, low.as_bytes(), rule, around)?
            && faulty_over(alloc, high.as_bytes(), rule, place)?,
    )
}

#[test]
fn existential_formulas_that_do_not_fit(rt: HostRuntime) -> Result<(), Fail> {
    let alloc = rt.alloc();
    let low = nested(alloc, 253, b"~", b"true", b"")?;
    let rule = joined(alloc, &[b"first(pack(int, ", low.as_bytes(), b", 0, #0))"])?;
    assert!(rt; faulty_over(alloc, low.as_bytes(), rule.as_bytes(), 2)?);
    let high = nested(alloc, 254, b"~", b"true", b"")?;
    let rule = joined(alloc, &[b"first(pack(int, ", high.as_bytes(), b", 0, #0))"])?;
    assert!(rt; faulty_over(alloc, high.as_bytes(), rule.as_bytes(), 1)?);
    Ok(())
}

#[test]
fn equations_that_do_not_fit(rt: HostRuntime) -> Result<(), Fail> {
    let alloc = rt.alloc();
    let low = nested(alloc, 253, b"", b"0", b" + 1")?;
    let high = nested(alloc, 254, b"", b"0", b" + 1")?;
    assert!(rt; faulty_around(alloc, &[b"refl(", low.as_bytes(), b")"], 1)?);
    assert!(rt; faulty_around(alloc, &[b"refl(", high.as_bytes(), b")"], 0)?);
    assert!(rt; equal_to_itself(alloc, low.as_bytes(), 1)?);
    assert!(rt; equal_to_itself(alloc, high.as_bytes(), 0)?);
    assert!(rt; faulty_around(alloc, &[b"compute(0 <= ", low.as_bytes(), b")"], 1)?);
    assert!(rt; faulty_around(alloc, &[b"compute(0 <= ", high.as_bytes(), b")"], 0)?);
    Ok(())
}

/// A term of four levels in place of a variable at level 253 fits, and one of five does not.
#[test]
fn instances_that_do_not_fit(rt: HostRuntime) -> Result<(), Fail> {
    let alloc = rt.alloc();
    let all = nested(alloc, 250, b"~", b"(y = 0)", b"")?;
    let all = joined(alloc, &[b"all y. ", all.as_bytes()])?;
    assert!(rt; faulty_over(alloc, all.as_bytes(), b"first(inst(#0, x + 1 + 1 + 1))", 2)?);
    assert!(rt;
        faulty_over(
            alloc,
            all.as_bytes(),
            b"first(inst(#0, x + 1 + 1 + 1 + 1))",
            1
        )?
    );
    let rule = nested(alloc, 250, b"~", b"(_0 = 0)", b"")?;
    let given = nested(alloc, 250, b"~", b"(0 = 0)", b"")?;
    assert!(rt;
        rewritten(
            alloc,
            b"x + 1 + 1 + 1",
            given.as_bytes(),
            rule.as_bytes(),
            3
        )?
    );
    assert!(rt;
        rewritten(
            alloc,
            b"x + 1 + 1 + 1 + 1",
            given.as_bytes(),
            rule.as_bytes(),
            2
        )?
    );
    // In the induction form it stands five levels lower, with a term of one level more.
    let low = nested(alloc, 247, b"~", b"(0 <= _0)", b"")?;
    assert!(rt; faulty_around(alloc, &[b"induct(", low.as_bytes(), b")"], 1)?);
    let high = nested(alloc, 248, b"~", b"(0 <= _0)", b"")?;
    assert!(rt; faulty_around(alloc, &[b"induct(", high.as_bytes(), b")"], 0)?);
    Ok(())
}

/// What was given of 0 is rewritten by 0 = t, with `first` around it, and has its fault there.
fn rewritten(
    alloc: Global,
    t: &[u8],
    given: &[u8],
    rule: &[u8],
    place: u32,
) -> Result<bool, DeclFault> {
    let rule = joined(alloc, &[b"rewrite(", rule, b", #0, #1)"])?;
    let text = joined(
        alloc,
        &[
            b"lam(0 = ",
            t,
            b", lam(",
            given,
            b", first(",
            rule.as_bytes(),
            b")))",
        ],
    )?;
    lacks(alloc, text.as_bytes(), place)
}

/// 12,287 nodes fit, and twice as many do not.
#[test]
fn large_formulas_of_proofs(rt: HostRuntime) -> Result<(), Fail> {
    let alloc = rt.alloc();
    let mut tree = joined(alloc, &[b"a"])?;
    for _ in 0..12 {
        tree = joined(
            alloc,
            &[b"(", tree.as_bytes(), b" => ", tree.as_bytes(), b")"],
        )?;
    }
    let rule = joined(alloc, &[b"first(absurd(", tree.as_bytes(), b", #0))"])?;
    assert!(rt; faulty_over(alloc, b"bottom", rule.as_bytes(), 2)?);
    let tree = joined(alloc, &[tree.as_bytes(), b" => ", tree.as_bytes()])?;
    let rule = joined(alloc, &[b"first(absurd(", tree.as_bytes(), b", #0))"])?;
    assert!(rt; faulty_over(alloc, b"bottom", rule.as_bytes(), 1)?);
    Ok(())
}

/// The formula of 255 lambdas has 256 levels, the most that fit. That of the lambda around them, whose number is
/// 256, does not fit.
#[test]
fn deep_formulas_of_proofs(rt: HostRuntime) -> Result<(), Fail> {
    let alloc = rt.alloc();
    let text = nested(alloc, 255, b"lam(bottom, ", b"#254", b")")?;
    let formula = nested(alloc, 254, b"bottom => ", b"~bottom", b"")?;
    assert!(rt; has(alloc, text.as_bytes(), formula.as_bytes())?);
    let text = nested(alloc, 2_047, b"lam(bottom, ", b"#2046", b")")?;
    assert!(rt; lacks(alloc, text.as_bytes(), 256)?);
    Ok(())
}

fn faulty_over(alloc: Global, a: &[u8], rule: &[u8], place: u32) -> Result<bool, DeclFault> {
    let text = joined(alloc, &[b"lam(", a, b", ", rule, b")"])?;
    lacks(alloc, text.as_bytes(), place)
}

/// `first` around the rule has its fault there.
fn faulty_around(alloc: Global, rule: &[&[u8]], place: u32) -> Result<bool, DeclFault> {
    let rule = joined(alloc, rule)?;
    let text = joined(alloc, &[b"first(", rule.as_bytes(), b")"])?;
    lacks(alloc, text.as_bytes(), place)
}
