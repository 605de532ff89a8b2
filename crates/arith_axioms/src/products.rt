//! Products of factors: their order, and two of them joined to one.

ghost use Rattle.std.specs.Prelude.{◌≡◌, ◌++◌, IfOk, OnOk};
ghost use Rattle.arith_axioms.specs.Polynomials.{lower_factor, same_product, joined_products};
ghost use Rattle.arith_axioms.specs.Gathering.{IsInOrder, factors_order, product_order};

use crate::factor::Factor;
use ck_base::{List, NoMemory};
use std::alloc::Global;
use std::cmp::Ordering;

/// How two products compare: the shorter one is lower, and of two that are as long the one that is lower at
/// the first factor where they differ. It takes no memory.
#[tactic(auto, using(crate::proofs::Orders::order_shorter, crate::proofs::Orders::order_longer, crate::proofs::Orders::order_alike))]
pub fn order(p: &[Factor], q: &[Factor]) -> Ordering
    ensures { result ≡ product_order p.now q.now }
{
    if p.len() < q.len() {
        return Ordering::Less;
    }
    if q.len() < p.len() {
        return Ordering::Greater;
    }
    order_factors(p, q)
}

// How two products compare that are as long.
fn order_factors(p: &[Factor], q: &[Factor]) -> Ordering
    ensures { result ≡ factors_order p.now q.now }
{
    let mut left = p;
    let mut right = q;
    while let [f, more @ ..] = left {
        let [g, others @ ..] = right else {
            return Ordering::Equal;
        };
        if lower(*f, *g) {
            return Ordering::Less;
        }
        if lower(*g, *f) {
            return Ordering::Greater;
        }
        left = more;
        right = others;
    }
    Ordering::Equal
}

/// Whether the products are the same. It takes no memory.
#[tactic(auto, using(crate::proofs::Orders::same_is))]
pub fn same(p: &[Factor], q: &[Factor]) -> bool
    ensures { result ≡ same_product p.now q.now }
{
    order(p, q) == Ordering::Equal
}

fn lower(f: Factor, g: Factor) -> bool
    ensures { result ≡ lower_factor f g }
{
    match (f, g) {
        (Factor::Name(m), Factor::Name(n)) => m < n,
        (Factor::Name(_), Factor::Index(_)) => true,
        (Factor::Index(_), Factor::Name(_)) => false,
        (Factor::Index(m), Factor::Index(n)) => m < n,
    }
}

/// The factors of both products in order; `NoMemory` where memory was refused.
pub fn joined(alloc: Global, p: &[Factor], q: &[Factor]) -> Result<List<Factor>, NoMemory>
    requires left { IsInOrder p.now }
    requires right { IsInOrder q.now }
    ensures { IfOk result (λ r. r ≡ joined_products p.now q.now) }
{
    let mut all = List::new(alloc);
    let mut left = p;
    let mut right = q;
    while let [f, more @ ..] = left {
        if let [g, others @ ..] = right
            && lower(*g, *f)
        {
            all.push(*g)?;
            right = others;
            continue;
        }
        all.push(*f)?;
        left = more;
    }
    append(&mut all, right)?;
    Ok(all)
}

/// A copy of the product; `NoMemory` where memory was refused.
pub fn copied(alloc: Global, p: &[Factor]) -> Result<List<Factor>, NoMemory>
    ensures { IfOk result (λ r. r ≡ p.now) }
{
    let mut all = List::new(alloc);
    append(&mut all, p)?;
    Ok(all)
}

fn append(all: &mut List<Factor>, p: &[Factor]) -> Result<(), NoMemory>
    ensures { OnOk result (all.new ≡ all.old ++ p.now) }
{
    for f in p {
        all.push(*f)?;
    }
    Ok(())
}
