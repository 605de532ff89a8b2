//! Substitution on formulas, with de Bruijn indices (de Bruijn 1972). Under a quantifier every place is
//! one further in.

ghost use Rattle.std.specs.Prelude.{◌≡◌, ◌^◌, true, false, IfOk, IfSome, IfNone};
ghost use Rattle.sorted_terms.specs.Tree.{term_tree};
ghost use Rattle.formulas.specs.Tree.{formula_tree};
ghost use Rattle.formulas.specs.Substitution.{HasIndicesBelow, occurs, shift as shifted, instance, replaced};

use crate::copying::copy;
use crate::formula::Formula;
use crate::signs::{with_part, with_parts};
use ck_base::NoMemory;
use sorted_terms::Term;
use std::alloc::Global;

/// The formula where each index that is at least `above` is higher by `by`. No index of it may pass
/// 2^32 - 1. `NoMemory` where memory for a node was refused.
#[tactic(auto, using(crate::proofs::Places::shift_past))]
pub fn shift(alloc: Global, a: &Formula, by: u32, above: u32) -> Result<Formula, NoMemory>
    requires { HasIndicesBelow (2 ^ 32) (shifted (formula_tree a.now) by above) }
    ensures { IfOk result (λ r. formula_tree r ≡ shifted (formula_tree a.now) by above) }
{
    match a {
        Formula::Bottom => Ok(Formula::Bottom),
        Formula::Holds(t) => Ok(Formula::Holds(sorted_terms::shift(alloc, t, by, above)?)),
        Formula::Imp(left, right) | Formula::Conj(left, right) | Formula::Disj(left, right) => {
            let left = shift(alloc, left, by, above)?;
            let right = shift(alloc, right, by, above)?;
            with_parts(alloc, a, left, right)
        }
        Formula::All(_, part) | Formula::Ex(_, part) => {
            let part = match above.checked_add(1) {
                Some(above) => shift(alloc, part, by, above)?,
                // No index is that high.
                None => copy(alloc, part)?,
            };
            with_part(alloc, a, part)
        }
    }
}

/// The formula with `with`, shifted by `at`, in place of index `at`, and each higher index lower by one.
/// No index of it may pass 2^32 - 1. `NoMemory` where memory for a node was refused.
#[tactic(auto, using(crate::proofs::Places::instance_past))]
pub fn instantiate(alloc: Global, a: &Formula, with: &Term, at: u32) -> Result<Formula, NoMemory>
    requires { HasIndicesBelow (2 ^ 32) (instance (formula_tree a.now) (term_tree with.now) at) }
    ensures { IfOk result (λ r. formula_tree r ≡ instance (formula_tree a.now) (term_tree with.now) at) }
{
    match a {
        Formula::Bottom => Ok(Formula::Bottom),
        Formula::Holds(t) => Ok(Formula::Holds(sorted_terms::instantiate(alloc, t, with, at)?)),
        Formula::Imp(left, right) | Formula::Conj(left, right) | Formula::Disj(left, right) => {
            let left = instantiate(alloc, left, with, at)?;
            let right = instantiate(alloc, right, with, at)?;
            with_parts(alloc, a, left, right)
        }
        Formula::All(_, part) | Formula::Ex(_, part) => {
            let part = match at.checked_add(1) {
                Some(at) => instantiate(alloc, part, with, at)?,
                // No index is that high.
                None => copy(alloc, part)?,
            };
            with_part(alloc, a, part)
        }
    }
}

/// The formula with `with`, shifted by `under`, in place of the declared name. No index of it may pass
/// 2^32 - 1. `NoMemory` where memory for a node was refused.
#[tactic(auto, using(crate::proofs::Places::replaced_past, crate::proofs::Places::replaced_room))]
pub fn replace_var(
    alloc: Global,
    a: &Formula,
    name: u32,
    with: &Term,
    under: u32,
) -> Result<Formula, NoMemory>
    requires { HasIndicesBelow (2 ^ 32) (replaced (formula_tree a.now) name (term_tree with.now) under) }
    ensures { IfOk result (λ r. formula_tree r ≡ replaced (formula_tree a.now) name (term_tree with.now) under) }
{
    match a {
        Formula::Bottom => Ok(Formula::Bottom),
        Formula::Holds(t) => {
            let t = sorted_terms::replace_var(alloc, t, name, with, under)?;
            Ok(Formula::Holds(t))
        }
        Formula::Imp(left, right) | Formula::Conj(left, right) | Formula::Disj(left, right) => {
            let left = replace_var(alloc, left, name, with, under)?;
            let right = replace_var(alloc, right, name, with, under)?;
            with_parts(alloc, a, left, right)
        }
        Formula::All(_, part) | Formula::Ex(_, part) => {
            let part = match under.checked_add(1) {
                Some(under) => replace_var(alloc, part, name, with, under)?,
                // The name does not occur, or `with` has no index that a shift could change.
                None => replace_var(alloc, part, name, with, under)?,
            };
            with_part(alloc, a, part)
        }
    }
}

/// The formula whose shift by one is `a`; `None` exactly where index 0 occurs free in `a`. `NoMemory`
/// where memory for a node was refused.
pub fn unshift(alloc: Global, a: &Formula) -> Result<Option<Formula>, NoMemory>
    ensures some { IfOk result (λ o. IfSome o (λ r. shifted (formula_tree r) 1 0 ≡ formula_tree a.now)) }
    ensures absent { IfOk result (λ o. IfSome o (λ _. occurs 0 (formula_tree a.now) ≡ false)) }
    ensures none { IfOk result (λ o. IfNone o (occurs 0 (formula_tree a.now) ≡ true)) }
{
    lower(alloc, a, 0)
}

// The formula whose shift by one from `above` on is `a`.
#[tactic(auto, using(crate::proofs::Places::shift_past, crate::proofs::Places::absent_past))]
fn lower(alloc: Global, a: &Formula, above: u32) -> Result<Option<Formula>, NoMemory>
    ensures some { IfOk result (λ o. IfSome o (λ r. shifted (formula_tree r) 1 above ≡ formula_tree a.now)) }
    ensures absent { IfOk result (λ o. IfSome o (λ _. occurs above (formula_tree a.now) ≡ false)) }
    ensures none { IfOk result (λ o. IfNone o (occurs above (formula_tree a.now) ≡ true)) }
{
    match a {
        Formula::Bottom => Ok(Some(Formula::Bottom)),
        Formula::Holds(t) => {
            let Some(t) = sorted_terms::unshift(alloc, t, above)? else {
                return Ok(None);
            };
            Ok(Some(Formula::Holds(t)))
        }
        Formula::Imp(left, right) | Formula::Conj(left, right) | Formula::Disj(left, right) => {
            let Some(left) = lower(alloc, left, above)? else {
                return Ok(None);
            };
            let Some(right) = lower(alloc, right, above)? else {
                return Ok(None);
            };
            Ok(Some(with_parts(alloc, a, left, right)?))
        }
        Formula::All(_, part) | Formula::Ex(_, part) => {
            let part = match above.checked_add(1) {
                Some(above) => lower(alloc, part, above)?,
                // No index is that high.
                None => Some(copy(alloc, part)?),
            };
            let Some(part) = part else {
                return Ok(None);
            };
            Ok(Some(with_part(alloc, a, part)?))
        }
    }
}
