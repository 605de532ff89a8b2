//! Substitution on terms, with de Bruijn indices (de Bruijn 1972).

ghost use Rattle.std.specs.Prelude.{◌≡◌, ◌^◌, true, false, IfOk, IfSome, IfNone};
ghost use Rattle.sorted_terms.specs.Tree.{term_tree};
ghost use Rattle.sorted_terms.specs.Substitution.{HasTermIndicesBelow, occurs_term, shift_term, instance_term, replace_term};

use crate::signs::{with_part, with_parts};
use crate::term::Term;
use ck_base::NoMemory;
use std::alloc::Global;

/// The term where each index that is at least `above` is higher by `by`. No index of it may pass
/// 2^32 - 1. `NoMemory` where memory for a node was refused.
pub fn shift(alloc: Global, t: &Term, by: u32, above: u32) -> Result<Term, NoMemory>
    requires { HasTermIndicesBelow (2 ^ 32) (shift_term (term_tree t.now) by above) }
    ensures { IfOk result (λ r. term_tree r ≡ shift_term (term_tree t.now) by above) }
{
    match t {
        Term::Var(x) => Ok(Term::Var(*x)),
        Term::Bound(k) if *k < above => Ok(Term::Bound(*k)),
        Term::Bound(k) => Ok(Term::Bound(*k + by)),
        Term::Int(n) => Ok(Term::Int(*n)),
        Term::Truth(b) => Ok(Term::Truth(*b)),
        Term::Neg(part) | Term::Not(part) => {
            let part = shift(alloc, part, by, above)?;
            with_part(alloc, t, part)
        }
        Term::Add(left, right)
        | Term::Sub(left, right)
        | Term::Mul(left, right)
        | Term::Eq(left, right)
        | Term::Less(left, right)
        | Term::AtMost(left, right)
        | Term::Both(left, right)
        | Term::Either(left, right) => {
            let left = shift(alloc, left, by, above)?;
            let right = shift(alloc, right, by, above)?;
            with_parts(alloc, t, left, right)
        }
    }
}

/// The term with `with`, shifted by `at`, in place of index `at`, and each higher index lower by one. No
/// index of it may pass 2^32 - 1. `NoMemory` where memory for a node was refused.
pub fn instantiate(alloc: Global, t: &Term, with: &Term, at: u32) -> Result<Term, NoMemory>
    requires { HasTermIndicesBelow (2 ^ 32) (instance_term (term_tree t.now) (term_tree with.now) at) }
    ensures { IfOk result (λ r. term_tree r ≡ instance_term (term_tree t.now) (term_tree with.now) at) }
{
    match t {
        Term::Var(x) => Ok(Term::Var(*x)),
        Term::Bound(k) if *k < at => Ok(Term::Bound(*k)),
        Term::Bound(k) if *k == at => shift(alloc, with, at, 0),
        Term::Bound(k) => Ok(Term::Bound(*k - 1)),
        Term::Int(n) => Ok(Term::Int(*n)),
        Term::Truth(b) => Ok(Term::Truth(*b)),
        Term::Neg(part) | Term::Not(part) => {
            let part = instantiate(alloc, part, with, at)?;
            with_part(alloc, t, part)
        }
        Term::Add(left, right)
        | Term::Sub(left, right)
        | Term::Mul(left, right)
        | Term::Eq(left, right)
        | Term::Less(left, right)
        | Term::AtMost(left, right)
        | Term::Both(left, right)
        | Term::Either(left, right) => {
            let left = instantiate(alloc, left, with, at)?;
            let right = instantiate(alloc, right, with, at)?;
            with_parts(alloc, t, left, right)
        }
    }
}

/// The term with `with`, shifted by `under`, in place of the declared name. No index of it may pass
/// 2^32 - 1. `NoMemory` where memory for a node was refused.
pub fn replace_var(
    alloc: Global,
    t: &Term,
    name: u32,
    with: &Term,
    under: u32,
) -> Result<Term, NoMemory>
    requires { HasTermIndicesBelow (2 ^ 32) (replace_term (term_tree t.now) name (term_tree with.now) under) }
    ensures { IfOk result (λ r. term_tree r ≡ replace_term (term_tree t.now) name (term_tree with.now) under) }
{
    match t {
        Term::Var(x) if *x == name => shift(alloc, with, under, 0),
        Term::Var(x) => Ok(Term::Var(*x)),
        Term::Bound(k) => Ok(Term::Bound(*k)),
        Term::Int(n) => Ok(Term::Int(*n)),
        Term::Truth(b) => Ok(Term::Truth(*b)),
        Term::Neg(part) | Term::Not(part) => {
            let part = replace_var(alloc, part, name, with, under)?;
            with_part(alloc, t, part)
        }
        Term::Add(left, right)
        | Term::Sub(left, right)
        | Term::Mul(left, right)
        | Term::Eq(left, right)
        | Term::Less(left, right)
        | Term::AtMost(left, right)
        | Term::Both(left, right)
        | Term::Either(left, right) => {
            let left = replace_var(alloc, left, name, with, under)?;
            let right = replace_var(alloc, right, name, with, under)?;
            with_parts(alloc, t, left, right)
        }
    }
}

/// The term whose shift by one from `above` on is `t`; `None` exactly where index `above` stands in `t`.
/// `NoMemory` where memory for a node was refused.
pub fn unshift(alloc: Global, t: &Term, above: u32) -> Result<Option<Term>, NoMemory>
    ensures some { IfOk result (λ o. IfSome o (λ r. shift_term (term_tree r) 1 above ≡ term_tree t.now)) }
    ensures absent { IfOk result (λ o. IfSome o (λ _. occurs_term above (term_tree t.now) ≡ false)) }
    ensures none { IfOk result (λ o. IfNone o (occurs_term above (term_tree t.now) ≡ true)) }
{
    match t {
        Term::Var(x) => Ok(Some(Term::Var(*x))),
        Term::Bound(k) if *k == above => Ok(None),
        Term::Bound(k) if *k < above => Ok(Some(Term::Bound(*k))),
        Term::Bound(k) => Ok(Some(Term::Bound(*k - 1))),
        Term::Int(n) => Ok(Some(Term::Int(*n))),
        Term::Truth(b) => Ok(Some(Term::Truth(*b))),
        Term::Neg(part) | Term::Not(part) => {
            let Some(part) = unshift(alloc, part, above)? else {
                return Ok(None);
            };
            Ok(Some(with_part(alloc, t, part)?))
        }
        Term::Add(left, right)
        | Term::Sub(left, right)
        | Term::Mul(left, right)
        | Term::Eq(left, right)
        | Term::Less(left, right)
        | Term::AtMost(left, right)
        | Term::Both(left, right)
        | Term::Either(left, right) => {
            let Some(left) = unshift(alloc, left, above)? else {
                return Ok(None);
            };
            let Some(right) = unshift(alloc, right, above)? else {
                return Ok(None);
            };
            Ok(Some(with_parts(alloc, t, left, right)?))
        }
    }
}
