//! Copies of formulas, and whether two formulas are the same.

ghost use Rattle.std.specs.Prelude.{◌≡◌, ◌↔◌, ◌^◌, IsTrue, IfOk, OnOk};
ghost use Rattle.formulas.specs.Tree.{formula_tree};
ghost use Rattle.formulas.specs.Substitution.{HasIndicesBelow};

use crate::formula::Formula;
use crate::signs::{with_part, with_parts};
use ck_base::NoMemory;
use std::alloc::Global;

/// A copy of the formula, whose indices are words of 32 bits; `NoMemory` where memory for a node was refused.
pub fn copy(alloc: Global, a: &Formula) -> Result<Formula, NoMemory>
    ensures copy { IfOk result (λ r. formula_tree r ≡ formula_tree a.now) }
    ensures words { OnOk result (HasIndicesBelow (2 ^ 32) (formula_tree a.now)) }
{
    match a {
        Formula::Bottom => Ok(Formula::Bottom),
        Formula::Holds(t) => Ok(Formula::Holds(sorted_terms::copy(alloc, t)?)),
        Formula::Imp(left, right) | Formula::Conj(left, right) | Formula::Disj(left, right) => {
            let left = copy(alloc, left)?;
            let right = copy(alloc, right)?;
            with_parts(alloc, a, left, right)
        }
        Formula::All(_, part) | Formula::Ex(_, part) => {
            let part = copy(alloc, part)?;
            with_part(alloc, a, part)
        }
    }
}

/// Whether two formulas are the same. It takes no memory.
pub fn same(a: &Formula, b: &Formula) -> bool
    ensures { IsTrue result ↔ (formula_tree a.now ≡ formula_tree b.now) }
{
    match (a, b) {
        (Formula::Bottom, Formula::Bottom) => true,
        (Formula::Holds(s), Formula::Holds(t)) => sorted_terms::same(s, t),
        (Formula::Imp(a, b), Formula::Imp(c, d)) => same(a, c) && same(b, d),
        (Formula::Conj(a, b), Formula::Conj(c, d)) => same(a, c) && same(b, d),
        (Formula::Disj(a, b), Formula::Disj(c, d)) => same(a, c) && same(b, d),
        (Formula::All(s, a), Formula::All(t, b)) => *s == *t && same(a, b),
        (Formula::Ex(s, a), Formula::Ex(t, b)) => *s == *t && same(a, b),
        _ => false,
    }
}
