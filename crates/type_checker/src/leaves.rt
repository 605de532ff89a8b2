//! The rules without parts.

ghost use Rattle.std.specs.Prelude.{◌≡◌, ◌∷◌, ◌&&◌, ◌+◌, ◌<◌, ◌≤◌, ◌^◌, length, Some, IfOk};
ghost use Rattle.std.specs.Option.{option_map};
ghost use Rattle.ck_base.specs.declared.decl.Sort.TheVariants as sorts;
ghost use Rattle.sorted_terms.specs.Tree.{term_tree, binary, equal};
ghost use Rattle.sorted_terms.specs.Variables.{sorts_in};
ghost use Rattle.sorted_terms.specs.Sorts.{sort_of, has_sort};
ghost use Rattle.formulas.specs.Tree.{formula_tree, holds};
ghost use Rattle.formulas.specs.Sorts.{well_sorted, fits as fits_tree};
ghost use Rattle.arith_axioms.specs.Axioms.{axiom_at, induction as induction_form};
ghost use Rattle.arith_axioms.specs.Computing.{computing};
ghost use Rattle.proof_terms.specs.Tree.{proof_tree};
ghost use Rattle.type_checker.specs.Found.{found_tree};
ghost use Rattle.type_checker.specs.Place.{AreAssumable};
ghost use Rattle.type_checker.specs.Rules as rules;
ghost use Rattle.type_checker.specs.Scope.{hypotheses_under, variables_over};

use crate::instances::is_of;
use crate::interner::Interner;
use crate::making::built;
use crate::scope::{Scope, hypothesis};
use crate::typed::Found;
use arith_axioms::{NoRing, axiom, compute, induction, ring};
use ck_base::limits::{FORMULA_DEPTH, FORMULA_NODES};
use ck_base::{Decls, NoMemory, Sort};
use formulas::{Formula, fits, well_sorted_under};
use proof_terms::Proof;
use sorted_terms::{Term, Variables, copy, spend};
use std::alloc::Global;

/// The formula of a node without parts, where it has one that fits. `NoMemory`, here and below, where
/// memory was refused.
#[tactic(auto, using(crate::proofs::Ruled::hypothesis_kept, crate::proofs::Ruled::hypotheses_room))]
pub fn of_leaf<'f>(
    alloc: Global,
    interner: &Interner<'f>,
    decls: &Decls,
    variables: &Variables,
    scope: &Scope<'f, '_>,
    p: &'f Proof,
) -> Result<Option<Found<'f>>, NoMemory>
    requires assumed { AreAssumable decls.now (sorts_in variables.now) (hypotheses_under interner.now scope.now) }
    requires over { variables_over scope.now ≤ length (sorts_in variables.now) }
    requires few { length (sorts_in variables.now) < 2 ^ 31 + 2 ^ 30 }
    ensures { IfOk result (λ o. option_map (found_tree interner.now) o ≡ rules.fitting (rules.of_leaf decls.now (sorts_in variables.now) (hypotheses_under interner.now scope.now) (proof_tree p.now))) }
{
    match p {
        Proof::Hyp(index) => hypothesis(alloc, interner, scope, *index),
        Proof::Refl(t) => Ok(built(interner, reflexive(alloc, decls, variables, t)?)),
        Proof::Axiom(i) => Ok(built(interner, axiom_formula(alloc, *i)?)),
        Proof::Induct(a) => Ok(built(interner, induction_formula(alloc, decls, variables, a)?)),
        Proof::Compute(t) => Ok(built(interner, computed(alloc, decls, variables, t)?)),
        Proof::Ring(s, t) => Ok(built(interner, ring_formula(alloc, decls, variables, s, t)?)),
        _ => Ok(None),
    }
}

// An integer term is equal to itself.
fn reflexive(
    alloc: Global,
    decls: &Decls,
    variables: &Variables,
    t: &Term,
) -> Result<Option<Formula>, NoMemory>
    ensures { IfOk result (λ o. option_map formula_tree o ≡ rules.fitting (rules.given (has_sort (sort_of decls.now (sorts_in variables.now) (term_tree t.now)) sorts.Int) (holds (binary equal (term_tree t.now) (term_tree t.now))))) }
{
    if !is_of(decls, variables, t, Sort::Int) || !fits_equation(t, t) {
        return Ok(None);
    }
    let left = Box::new(alloc, copy(alloc, t)?)?;
    let right = Box::new(alloc, copy(alloc, t)?)?;
    Ok(Some(Formula::Holds(Term::Eq(left, right))))
}

// Whether the equation of the terms fits.
#[tactic(auto, unfolding(formulas::specs::Sorts::fits))]
fn fits_equation(s: &Term, t: &Term) -> bool
    ensures { result ≡ fits_tree (holds (binary equal (term_tree s.now) (term_tree t.now))) }
{
    match spend(s, FORMULA_NODES - 2, FORMULA_DEPTH - 2) {
        Some(left) => spend(t, left, FORMULA_DEPTH - 2).is_some(),
        None => false,
    }
}

fn where_it_fits(a: Formula) -> Option<Formula>
    ensures { option_map formula_tree result ≡ rules.fitting (Some (formula_tree a)) }
{
    if fits(&a) { Some(a) } else { None }
}

fn axiom_formula(alloc: Global, i: u32) -> Result<Option<Formula>, NoMemory>
    ensures { IfOk result (λ o. option_map formula_tree o ≡ rules.fitting (axiom_at i)) }
{
    match axiom(alloc, i)? {
        Some(a) => Ok(where_it_fits(a)),
        None => Ok(None),
    }
}

// The induction form. It has a few times the nodes of its formula, which is looked at first.
#[tactic(auto, using(crate::proofs::Ruled::unfit_induction))]
fn induction_formula(
    alloc: Global,
    decls: &Decls,
    variables: &Variables,
    a: &Formula,
) -> Result<Option<Formula>, NoMemory>
    ensures { IfOk result (λ o. option_map formula_tree o ≡ rules.fitting (rules.given (well_sorted decls.now (sorts.Int ∷ sorts_in variables.now) (formula_tree a.now)) (induction_form (formula_tree a.now)))) }
{
    let under = Variables::Under(Sort::Int, &*variables);
    if !fits(a) || !well_sorted_under(decls, &under, a) {
        return Ok(None);
    }
    Ok(where_it_fits(induction(alloc, a)?))
}

// A term whose computed value is true.
fn computed(
    alloc: Global,
    decls: &Decls,
    variables: &Variables,
    t: &Term,
) -> Result<Option<Formula>, NoMemory>
    ensures { IfOk result (λ o. option_map formula_tree o ≡ rules.fitting (rules.given (has_sort (sort_of decls.now (sorts_in variables.now) (term_tree t.now)) sorts.Bool && rules.computes (computing (term_tree t.now))) (holds (term_tree t.now)))) }
{
    if !fits_alone(t) || !is_of(decls, variables, t, Sort::Bool) || !is_computed(t) {
        return Ok(None);
    }
    Ok(Some(Formula::Holds(copy(alloc, t)?)))
}

// Whether the term fits as a formula.
#[tactic(auto, unfolding(formulas::specs::Sorts::fits))]
fn fits_alone(t: &Term) -> bool
    ensures { result ≡ fits_tree (holds (term_tree t.now)) }
{
    spend(t, FORMULA_NODES - 1, FORMULA_DEPTH - 1).is_some()
}

fn is_computed(t: &Term) -> bool
    ensures { result ≡ rules.computes (computing (term_tree t.now)) }
{
    compute(t).is_ok()
}

// Two integer terms that are the same polynomial are equal.
fn ring_formula(
    alloc: Global,
    decls: &Decls,
    variables: &Variables,
    s: &Term,
    t: &Term,
) -> Result<Option<Formula>, NoMemory>
    ensures { IfOk result (λ o. option_map formula_tree o ≡ rules.fitting (rules.given (has_sort (sort_of decls.now (sorts_in variables.now) (term_tree s.now)) sorts.Int && (has_sort (sort_of decls.now (sorts_in variables.now) (term_tree t.now)) sorts.Int && rules.is_ring_equation (term_tree s.now) (term_tree t.now))) (holds (binary equal (term_tree s.now) (term_tree t.now))))) }
{
    if !fits_equation(s, t)
        || !are_integers(decls, variables, s, t)
        || !ring_equation(alloc, s, t)?
    {
        return Ok(None);
    }
    let left = Box::new(alloc, copy(alloc, s)?)?;
    let right = Box::new(alloc, copy(alloc, t)?)?;
    Ok(Some(Formula::Holds(Term::Eq(left, right))))
}

fn are_integers(decls: &Decls, variables: &Variables, s: &Term, t: &Term) -> bool
    ensures { result ≡ (has_sort (sort_of decls.now (sorts_in variables.now) (term_tree s.now)) sorts.Int && has_sort (sort_of decls.now (sorts_in variables.now) (term_tree t.now)) sorts.Int) }
{
    is_of(decls, variables, s, Sort::Int) && is_of(decls, variables, t, Sort::Int)
}

// Whether the terms are the same polynomial, within the bounds.
#[tactic(auto, using(crate::proofs::Rings::is_ring, crate::proofs::Rings::not_ring))]
fn ring_equation(alloc: Global, s: &Term, t: &Term) -> Result<bool, NoMemory>
    ensures { IfOk result (λ b. b ≡ rules.is_ring_equation (term_tree s.now) (term_tree t.now)) }
{
    match ring(alloc, s, t) {
        Ok(()) => Ok(true),
        Err(NoRing::NoMemory) => Err(NoMemory),
        Err(_) => Ok(false),
    }
}
