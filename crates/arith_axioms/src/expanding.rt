//! The expansion of a term.

ghost use Rattle.std.specs.Prelude.{◌≡◌, ◌++◌, ◌^◌, ◌*◌, ◌<◌, unsigned_abs, pos, [], ◌∷◌, IfOk, OnOk};
ghost use Rattle.sorted_terms.specs.Tree.{term_tree};
ghost use Rattle.sorted_terms.specs.Weights.{term_weight};
ghost use Rattle.arith_axioms.specs.Polynomials.{times_each, all_pairs, expansion, absolute_sum};
ghost use Rattle.arith_axioms.specs.Gathering.{signed, IsInOrder, AreInOrder};

use crate::factor::Factor;
use crate::products::joined;
use ck_base::{List, NoMemory};
use sorted_terms::Term;
use std::alloc::Global;

/// A coefficient and the product that it stands before.
pub type Monomial = (i128, List<Factor>);

/// The expansion of the term, whose weight is below 2^127, with the other sign where `negative` says so;
/// `NoMemory` where memory was refused.
pub fn expand(alloc: Global, t: &Term, negative: bool) -> Result<Vec<Monomial>, NoMemory>
    requires { term_weight (term_tree t.now) < 2 ^ 127 }
    ensures { IfOk result (λ es. es.items ≡ signed negative (expansion (term_tree t.now))) }
{
    match t {
        Term::Var(x) => one_factor(alloc, Factor::Name(*x), negative),
        Term::Bound(k) => one_factor(alloc, Factor::Index(*k), negative),
        Term::Int(n) => constant(alloc, *n, negative),
        Term::Neg(t) => expand(alloc, t, !negative),
        Term::Add(s, t) => both(expand(alloc, s, negative)?, expand(alloc, t, negative)?),
        Term::Sub(s, t) => both(expand(alloc, s, negative)?, expand(alloc, t, !negative)?),
        Term::Mul(s, t) => pairs(
            alloc,
            &expand(alloc, s, negative)?,
            &expand(alloc, t, false)?,
        ),
        _ => constant(alloc, 0, negative),
    }
}

fn one_factor(alloc: Global, f: Factor, negative: bool) -> Result<Vec<Monomial>, NoMemory>
    ensures { IfOk result (λ es. es.items ≡ signed negative ((pos 1, f ∷ []) ∷ [])) }
{
    let mut product = List::new(alloc);
    product.push(f)?;
    single(alloc, 1, product, negative)
}

fn constant(alloc: Global, n: i128, negative: bool) -> Result<Vec<Monomial>, NoMemory>
    requires { unsigned_abs n < 2 ^ 127 }
    ensures { IfOk result (λ es. es.items ≡ signed negative ((n, []) ∷ [])) }
{
    single(alloc, n, List::new(alloc), negative)
}

#[tactic(auto, using(crate::proofs::Constants::negation_fits))]
fn single(
    alloc: Global,
    n: i128,
    product: List<Factor>,
    negative: bool,
) -> Result<Vec<Monomial>, NoMemory>
    requires { unsigned_abs n < 2 ^ 127 }
    ensures { IfOk result (λ es. es.items ≡ signed negative ((n, product) ∷ [])) }
{
    let mut all = Vec::new(alloc);
    let coefficient = if negative { -n } else { n };
    all.push((coefficient, product))?;
    Ok(all)
}

fn both(mut all: Vec<Monomial>, mut others: Vec<Monomial>) -> Result<Vec<Monomial>, NoMemory>
    ensures { IfOk result (λ es. es.items ≡ all.items ++ others.items) }
{
    all.append(&mut others)?;
    Ok(all)
}

// Each monomial times each of others, a row for each one.
fn pairs(
    alloc: Global,
    monomials: &[Monomial],
    others: &[Monomial],
) -> Result<Vec<Monomial>, NoMemory>
    requires room { absolute_sum monomials.now * absolute_sum others.now < 2 ^ 127 }
    requires left { AreInOrder monomials.now }
    requires right { AreInOrder others.now }
    ensures { IfOk result (λ es. es.items ≡ all_pairs monomials.now others.now) }
{
    let mut all = Vec::new(alloc);
    let mut rest = monomials;
    while let [(coefficient, product), more @ ..] = rest {
        add_row(alloc, *coefficient, product.as_slice(), others, &mut all)?;
        rest = more;
    }
    Ok(all)
}

// Adds one monomial times each of others.
fn add_row(
    alloc: Global,
    coefficient: i128,
    product: &[Factor],
    others: &[Monomial],
    all: &mut Vec<Monomial>,
) -> Result<(), NoMemory>
    requires room { unsigned_abs coefficient * absolute_sum others.now < 2 ^ 127 }
    requires left { IsInOrder product.now }
    requires right { AreInOrder others.now }
    ensures { OnOk result (all.new.items ≡ all.old.items ++ times_each coefficient product.now others.now) }
{
    let mut rest = others;
    while let [(other, factors), more @ ..] = rest {
        let factors = joined(alloc, product, factors.as_slice())?;
        all.push((coefficient * *other, factors))?;
        rest = more;
    }
    Ok(())
}
