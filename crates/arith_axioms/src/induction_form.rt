//! The induction form.

ghost use Rattle.std.specs.Prelude.{◌≡◌, IfOk};
ghost use Rattle.sorted_terms.specs.Tree.{term_tree, index};
ghost use Rattle.formulas.specs.Tree.{formula_tree};
ghost use Rattle.arith_axioms.specs.Axioms.{◌<='◌, 0', induction as induction_form, next_at, next_term};

use crate::making::Maker;
use ck_base::NoMemory;
use formulas::Formula;
use sorted_terms::Term;
use std::alloc::Global;

/// The induction form of a formula about one integer variable, index 0: `A[0] => (all x:int. 0 <= x => A =>
/// A') => all x:int. 0 <= x => A`, where A' is A about x + 1. `NoMemory` where memory for a node was refused.
#[tactic(auto, using(crate::proofs::Next::zero_room))]
pub fn induction(alloc: Global, a: &Formula) -> Result<Formula, NoMemory>
    ensures { IfOk result (λ r. formula_tree r ≡ induction_form (formula_tree a.now)) }
{
    let make = Maker { alloc };
    let here = formulas::copy(alloc, a)?;
    let first = formulas::instantiate(alloc, a, &Term::Int(0), 0)?;
    let step = make.implies(here, about_next(alloc, a, 0)?)?;
    let step = make.all_int(make.implies(not_negative(make)?, step)?)?;
    let every = make.implies(not_negative(make)?, formulas::copy(alloc, a)?)?;
    let every = make.all_int(every)?;
    make.implies(first, make.implies(step, every)?)
}

// `0 <= x`, where x has the index 0.
fn not_negative(make: Maker) -> Result<Formula, NoMemory>
    ensures { IfOk result (λ r. formula_tree r ≡ 0' <=' index 0) }
{
    make.at_most(Term::Int(0), Term::Bound(0))
}

// The formula about x + 1, where x has the index `at`.
#[tactic(auto, using(crate::proofs::Next::next_past))]
fn about_next(alloc: Global, a: &Formula, at: u32) -> Result<Formula, NoMemory>
    ensures { IfOk result (λ r. formula_tree r ≡ next_at at (formula_tree a.now)) }
{
    match a {
        Formula::Bottom => Ok(Formula::Bottom),
        Formula::Holds(t) => Ok(Formula::Holds(term_about_next(alloc, t, at)?)),
        Formula::Imp(left, right) | Formula::Conj(left, right) | Formula::Disj(left, right) => {
            let left = about_next(alloc, left, at)?;
            let right = about_next(alloc, right, at)?;
            formulas::signs::with_parts(alloc, a, left, right)
        }
        Formula::All(_, part) | Formula::Ex(_, part) => {
            let part = match at.checked_add(1) {
                Some(at) => about_next(alloc, part, at)?,
                // No index is that high.
                None => formulas::copy(alloc, part)?,
            };
            formulas::signs::with_part(alloc, a, part)
        }
    }
}

// The same for a term.
#[tactic(auto, using(crate::proofs::Next::next_here, crate::proofs::Next::next_elsewhere))]
fn term_about_next(alloc: Global, t: &Term, at: u32) -> Result<Term, NoMemory>
    ensures { IfOk result (λ r. term_tree r ≡ next_term at (term_tree t.now)) }
{
    match t {
        Term::Var(x) => Ok(Term::Var(*x)),
        Term::Bound(k) => match *k == at {
            true => Maker { alloc }.sum(Term::Bound(at), Term::Int(1)),
            false => Ok(Term::Bound(*k)),
        },
        Term::Int(n) => Ok(Term::Int(*n)),
        Term::Truth(b) => Ok(Term::Truth(*b)),
        Term::Neg(part) | Term::Not(part) => {
            let part = term_about_next(alloc, part, at)?;
            sorted_terms::signs::with_part(alloc, t, part)
        }
        Term::Add(left, right)
        | Term::Sub(left, right)
        | Term::Mul(left, right)
        | Term::Eq(left, right)
        | Term::Less(left, right)
        | Term::AtMost(left, right)
        | Term::Both(left, right)
        | Term::Either(left, right) => {
            let left = term_about_next(alloc, left, at)?;
            let right = term_about_next(alloc, right, at)?;
            sorted_terms::signs::with_parts(alloc, t, left, right)
        }
    }
}
