//! Arithmetic: axioms, induction, computing, and terms as polynomials.

use crate::asking::{self, formula, product, term};
use arith_axioms::{
    Factor, NoCompute, NoRing, axiom, compute, induction, is_axiom, is_closed, ring,
};
use ck_base::{DeclFault, Decls, List};
use std::alloc::Global;
use std::test::Fail;

/// 2^126, and one less.
const HALF: &str = "85070591730234615865843651857942052864";

const BELOW_HALF: &str = "85070591730234615865843651857942052863";

#[test]
fn axioms_are_well_sorted(rt: HostRuntime) -> Result<(), Fail> {
    let alloc = rt.alloc();
    let decls = Decls::new(alloc);
    for i in 0..28 {
        let found = axiom(alloc, i)?;
        assert_eq!(rt; found.is_some(), is_axiom(i), "axiom {i}");
        assert_eq!(rt; is_axiom(i), (1..27).contains(&i), "axiom {i}");
        if let Some(a) = found {
            assert!(rt;
                formulas::well_sorted(&decls, &List::new(alloc), &a)?,
                "axiom {i}"
            );
        }
    }
    Ok(())
}

/// Whether the axiom of that number is the wanted formula.
fn is_the_axiom(alloc: Global, i: u32, wanted: &str) -> Result<bool, DeclFault> {
    match axiom(alloc, i)? {
        Some(a) => asking::is_formula(alloc, 0, &a, wanted),
        None => Ok(false),
    }
}

#[test]
fn one_axiom(rt: HostRuntime) -> Result<(), Fail> {
    assert!(rt; is_the_axiom(rt.alloc(), 1, "all u. u <= u")?);
    Ok(())
}

/// Whether the induction form of a formula about `_0` is the wanted one.
fn inducts(alloc: Global, text: &str, wanted: &str) -> Result<bool, DeclFault> {
    let a = formula(alloc, 1, text)?;
    let form = induction(alloc, &a)?;
    asking::is_formula(alloc, 1, &form, wanted)
}

#[test]
fn induction_on_a_square(rt: HostRuntime) -> Result<(), Fail> {
    let wanted =
        "0 <= 0 * 0 => (all n. 0 <= n => 0 <= n * n => 0 <= (n + 1) * (n + 1)) => all n. 0 <= n => 0 <= n * n";
    assert!(rt; inducts(rt.alloc(), "0 <= _0 * _0", wanted)?);
    Ok(())
}

/// What computing a term tells, and whether it is closed.
fn computed(alloc: Global, text: &str) -> Result<(Result<(), NoCompute>, bool), DeclFault> {
    let t = term(alloc, 1, text)?;
    Ok((compute(&t), is_closed(&t)))
}

#[test]
fn computes(rt: HostRuntime) -> Result<(), Fail> {
    let alloc = rt.alloc();
    assert_eq!(rt; computed(alloc, "2 * 3 = 6")?, (Ok(()), true));
    assert_eq!(rt;
        computed(alloc, "x = x")?,
        (Err(NoCompute::NotClosed), false)
    );
    let below = format!(in alloc; "{HALF} <= {BELOW_HALF}")?;
    assert_eq!(rt;
        computed(alloc, below.as_str())?,
        (Err(NoCompute::False), true)
    );
    let wide = format!(in alloc; "{HALF} <= {HALF}")?;
    assert_eq!(rt;
        computed(alloc, wide.as_str())?,
        (Err(NoCompute::Wide), true)
    );
    Ok(())
}

/// What `ring` tells of two terms.
fn told(alloc: Global, s: &str, t: &str) -> Result<Result<(), NoRing>, DeclFault> {
    let s = term(alloc, 0, s)?;
    let t = term(alloc, 0, t)?;
    Ok(ring(alloc, &s, &t))
}

fn is_wide(alloc: Global, s: &str, t: &str) -> Result<bool, DeclFault> {
    Ok(matches!(told(alloc, s, t)?, Err(NoRing::Wide)))
}

/// Whether the terms are the same polynomial.
fn is_ring(alloc: Global, s: &str, t: &str) -> Result<bool, DeclFault> {
    Ok(told(alloc, s, t)?.is_ok())
}

/// Whether both together have that many monomials, which are too many.
fn are_many(alloc: Global, s: &str, t: &str, wanted: u32) -> Result<bool, DeclFault> {
    match told(alloc, s, t)? {
        Err(NoRing::Many(count)) => Ok(count == wanted),
        _ => Ok(false),
    }
}

/// Whether they differ first in that product, which has the one coefficient and the other.
fn differ(
    alloc: Global,
    s: &str,
    t: &str,
    factors: &[Factor],
    wanted: (i128, i128),
) -> Result<bool, DeclFault> {
    match told(alloc, s, t)? {
        Err(
            NoRing::Differ {
                product,
                left,
                right,
            },
        ) => Ok(product.as_slice() == factors && (left, right) == wanted),
        _ => Ok(false),
    }
}

#[test]
fn rings(rt: HostRuntime) -> Result<(), Fail> {
    let alloc = rt.alloc();
    assert!(rt; is_ring(alloc, "(x + 1) * (x + -1)", "x * x - 1")?);
    assert!(rt; is_ring(alloc, "(x + 1) * (x - 1)", "x * x - 1")?);
    assert!(rt; is_ring(alloc, "a * (i + 1)", "a * i + a")?);
    // The names `x`, `a` and `i` have the numbers 0, 3 and 4.
    let other = "a * i + 2 * a";
    assert!(rt; differ(alloc, "a * (i + 1)", other, &[Factor::Name(3)], (1, 2))?);
    assert!(rt; differ(alloc, "3 * x + y", "y - 5 * x", &[Factor::Name(0)], (3, -5))?);
    Ok(())
}

#[test]
fn rings_at_the_bounds(rt: HostRuntime) -> Result<(), Fail> {
    let alloc = rt.alloc();
    // 2048 monomials, 2048 others, and 4096.
    let power = product(alloc, "(x + 1)", 10)?;
    let other = product(alloc, "(x + 2)", 10)?;
    let large = product(alloc, "(x + 1)", 11)?;
    assert!(rt;
        differ(alloc, power.as_str(), "0", &[], (1, 0))?,
        "2048 and 1"
    );
    assert!(rt; are_many(alloc, large.as_str(), "0", 4_097)?, "4096 and 1");
    assert!(rt;
        is_ring(alloc, power.as_str(), power.as_str())?,
        "2048 and 2048"
    );
    assert!(rt;
        differ(alloc, power.as_str(), other.as_str(), &[], (1, 2))?,
        "2048 and 2048 others"
    );
    let sum = format!(in alloc; "{BELOW_HALF} + 0")?;
    assert!(rt; is_ring(alloc, sum.as_str(), BELOW_HALF)?, "2^127 - 1");
    assert!(rt; is_wide(alloc, HALF, HALF)?, "2^127");
    Ok(())
}
