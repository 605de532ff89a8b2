//! Whether two terms are the same polynomial.

ghost use Rattle.std.specs.Prelude.{◌≡◌, ◌≢◌, ◌↔◌, ◌++◌, ◌+◌, ◌^◌, ◌<◌, ℕ, ℤ, map, Ok, Err, IsOk, IfOk, OnOk, IfErr, MatchOption};
ghost use Rattle.sorted_terms.specs.Tree.{term_tree};
ghost use Rattle.arith_axioms.specs.declared.no_ring.NoRing.TheVariants as no_ring;
ghost use Rattle.arith_axioms.specs.Polynomials.{Product, IsSamePolynomial, total_in, absolute_sum};
ghost use Rattle.arith_axioms.specs.Ring.{IsWide, AreMany, AreWithin, IsBound, IsComparison, IsRingEquation, IsRingDifference};
ghost use Rattle.arith_axioms.specs.Gathering.{shown, IsRising, begins, IsZero, IsLeastNonzero};

use crate::expanding::{Monomial, expand};
use crate::factor::Factor;
use crate::no_ring::NoRing;
use crate::products::{copied, order, same};
use ck_base::NoMemory;
use sorted_terms::{Term, expansions, weight};
use std::alloc::Global;

/// Where weights end.
const MOST_WEIGHT: u128 = 1 << 127;

/// Where counts of monomials end.
const MOST_COUNTED: u32 = 1_000_000;

/// How many monomials both expansions may have together.
const MOST_MONOMIALS: u32 = 4096;

/// A coefficient and the product that it stands before, which is borrowed.
type Entry<'a> = (i128, &'a [Factor]);

/// Whether the terms are the same polynomial. In this order: `Wide` where their weights together are 2^127 or
/// more; `Many` with the count of the monomials of both expansions where these are more than 4,096; `Differ`
/// with the least product whose totals differ. `NoMemory` where memory was refused.
pub fn ring(alloc: Global, s: &Term, t: &Term) -> Result<(), NoRing>
    ensures ok { IsOk result → IsRingEquation (term_tree s.now) (term_tree t.now) }
    ensures refused { IfErr result (λ e. e ≢ no_ring.NoMemory → IsRingEquation (term_tree s.now) (term_tree t.now) → ⊥) }
    ensures wide { (result ≡ Err no_ring.Wide) ↔ IsWide (term_tree s.now) (term_tree t.now) }
    ensures many { (count : ℕ) → (result ≡ Err (no_ring.Many count)) ↔ AreMany (term_tree s.now) (term_tree t.now) count }
    ensures differ { (p : Product) (left right : ℤ) → result ≡ Err (no_ring.Differ p left right) → IsRingDifference (term_tree s.now) (term_tree t.now) p left right }
{
    bounds(s, t)?;
    compare(alloc, s, t)
}

// Whether the weights and the monomials of both are within their bounds.
fn bounds(s: &Term, t: &Term) -> Result<(), NoRing>
    ensures ok { IsOk result → AreWithin (term_tree s.now) (term_tree t.now) }
    ensures wide { (result ≡ Err no_ring.Wide) ↔ IsWide (term_tree s.now) (term_tree t.now) }
    ensures many { (count : ℕ) → (result ≡ Err (no_ring.Many count)) ↔ AreMany (term_tree s.now) (term_tree t.now) count }
    ensures err { IfErr result IsBound }
{
    if weight(s).saturating_add(weight(t)) >= MOST_WEIGHT {
        return Err(NoRing::Wide);
    }
    let count = (expansions(s) + expansions(t)).min(MOST_COUNTED);
    if count > MOST_MONOMIALS {
        return Err(NoRing::Many(count));
    }
    Ok(())
}

// Whether two terms within the bounds are the same polynomial.
fn compare(alloc: Global, s: &Term, t: &Term) -> Result<(), NoRing>
    requires { AreWithin (term_tree s.now) (term_tree t.now) }
    ensures ok { IsOk result → IsSamePolynomial (term_tree s.now) (term_tree t.now) }
    ensures err { IfErr result (IsComparison (term_tree s.now) (term_tree t.now)) }
{
    let left = expand(alloc, s, false)?;
    let right = expand(alloc, t, true)?;
    let Some(product) = difference(alloc, &left, &right)? else {
        return Ok(());
    };
    Err(NoRing::Differ {
        left: total(&left, product),
        right: -total(&right, product),
        product: copied(alloc, product)?,
    })
}

// The least product whose total in both together is not 0.
fn difference<'a>(
    alloc: Global,
    left: &'a [Monomial],
    right: &'a [Monomial],
) -> Result<Option<&'a [Factor]>, NoMemory>
    requires { absolute_sum left.now + absolute_sum right.now < 2 ^ 127 }
    ensures { IfOk result (λ found. MatchOption found (IsZero (left.now ++ right.now)) (λ p. IsLeastNonzero (left.now ++ right.now) p.now)) }
{
    let mut entries = Vec::new(alloc);
    lend(left, &mut entries)?;
    lend(right, &mut entries)?;
    sort(&mut entries);
    Ok(least_nonzero(entries.as_slice()))
}

// Adds the monomials to the entries.
fn lend<'a>(monomials: &'a [Monomial], entries: &mut Vec<Entry<'a>>) -> Result<(), NoMemory>
    ensures { OnOk result (map shown entries.new.items ≡ map shown entries.old.items ++ monomials.now) }
{
    for (coefficient, product) in monomials {
        entries.push((*coefficient, product.as_slice()))?;
    }
    Ok(())
}

// Sorts the entries by their products.
fn sort<'a>(entries: &mut Vec<Entry<'a>>)
    ensures rising { IsRising (map shown entries.new.items) }
    ensures totals { (p : Product) → total_in (map shown entries.new.items) p ≡ total_in (map shown entries.old.items) p }
    ensures sum { absolute_sum (map shown entries.new.items) ≡ absolute_sum (map shown entries.old.items) }
{
    entries.sort_unstable_by(|a, b| order(a.1, b.1));
}

// The least product whose total is not 0. The sum is over the entries of one product, which stand side by side.
fn least_nonzero<'a>(entries: &[Entry<'a>]) -> Option<&'a [Factor]>
    requires rising { IsRising (map shown entries.now) }
    requires room { absolute_sum (map shown entries.now) < 2 ^ 127 }
    ensures { MatchOption result (IsZero (map shown entries.now)) (λ p. IsLeastNonzero (map shown entries.now) p.now) }
{
    let mut sum = 0;
    let mut rest = entries;
    while let [(coefficient, product), more @ ..] = rest {
        sum += *coefficient;
        if sum != 0 && !begins(more, product) {
            return Some(*product);
        }
        rest = more;
    }
    None
}

// Whether the product is that of the first entry.
fn begins(entries: &[Entry], product: &[Factor]) -> bool
    ensures { result ≡ begins product.now (map shown entries.now) }
{
    match entries {
        [(_, other), ..] => same(product, other),
        [] => false,
    }
}

// The sum of the coefficients of the product.
fn total(monomials: &[Monomial], product: &[Factor]) -> i128
    requires { absolute_sum monomials.now < 2 ^ 127 }
    ensures { result ≡ total_in monomials.now product.now }
{
    let mut sum = 0;
    let mut rest = monomials;
    while let [(coefficient, other), more @ ..] = rest {
        if same(product, other.as_slice()) {
            sum += *coefficient;
        }
        rest = more;
    }
    sum
}
