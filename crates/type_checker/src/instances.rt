//! Instances of formulas, where they fit: nothing is built that does not.

ghost use Rattle.std.specs.Prelude.{◌≡◌, ◌^◌, true, Some, IfOk};
ghost use Rattle.std.specs.Option.{option_map};
ghost use Rattle.sorted_terms.specs.Tree.{term_tree};
ghost use Rattle.sorted_terms.specs.Variables.{sorts_in};
ghost use Rattle.sorted_terms.specs.Sorts.{sort_of, has_sort};
ghost use Rattle.formulas.specs.Tree.{formula_tree};
ghost use Rattle.formulas.specs.Sorts.{fits};
ghost use Rattle.formulas.specs.Substitution.{HasIndicesBelow, instance};
ghost use Rattle.type_checker.specs.Found.{found_tree};
ghost use Rattle.type_checker.specs.Rules.{fitting};
ghost use Rattle.type_checker.specs.Same.{same_formula};

use crate::interner::Interner;
use crate::matching::matches;
use crate::typed::{Found, as_formula, owned};
use ck_base::{Decls, NoMemory, Sort};
use formulas::{Formula, fits_instance, instantiate};
use sorted_terms::{Term, Variables, sort_under};
use std::alloc::Global;

/// Whether the term has that sort. It takes no memory.
pub fn is_of(decls: &Decls, variables: &Variables, t: &Term, sort: Sort) -> bool
    ensures { result ≡ has_sort (sort_of decls.now (sorts_in variables.now) (term_tree t.now)) sort }
{
    match (sort_under(decls, variables, t), sort) {
        (Some(Sort::Int), Sort::Int) | (Some(Sort::Bool), Sort::Bool) => true,
        _ => false,
    }
}

/// The formula with the term in place of index 0, where that fits. Its indices are then below 2^32.
/// `NoMemory`, here and below, where memory was refused.
pub fn instance_of(alloc: Global, a: &Formula, t: &Term) -> Result<Option<Formula>, NoMemory>
    requires { fits (instance (formula_tree a.now) (term_tree t.now) 0) ≡ true → HasIndicesBelow (2 ^ 32) (instance (formula_tree a.now) (term_tree t.now) 0) }
    ensures { IfOk result (λ o. option_map formula_tree o ≡ fitting (Some (instance (formula_tree a.now) (term_tree t.now) 0))) }
{
    if !fits_instance(a, t) {
        return Ok(None);
    }
    Ok(Some(instantiate(alloc, a, t, 0)?))
}

/// The same of a found formula.
pub fn found_instance<'f>(
    alloc: Global,
    interner: &Interner<'f>,
    a: Found<'f>,
    t: &Term,
) -> Result<Option<Formula>, NoMemory>
    requires { fits (instance (found_tree interner.now a) (term_tree t.now) 0) ≡ true → HasIndicesBelow (2 ^ 32) (instance (found_tree interner.now a) (term_tree t.now) 0) }
    ensures { IfOk result (λ o. option_map formula_tree o ≡ fitting (Some (instance (found_tree interner.now a.entry) (term_tree t.now) 0))) }
{
    if let Some(a) = as_formula(interner, &a) {
        return instance_of(alloc, a, t);
    }
    let a = owned(alloc, interner, a)?;
    instance_of(alloc, &a, t)
}

/// Whether the found formula, which fits, is the formula with the term in place of index 0.
#[tactic(auto, using(crate::proofs::Ruled::unfit_differs))]
pub fn is_instance(
    alloc: Global,
    interner: &Interner,
    a: &Formula,
    t: &Term,
    f: &Found,
) -> Result<bool, NoMemory>
    requires room { fits (instance (formula_tree a.now) (term_tree t.now) 0) ≡ true → HasIndicesBelow (2 ^ 32) (instance (formula_tree a.now) (term_tree t.now) 0) }
    requires fitting { fits (found_tree interner.now f.now) ≡ true }
    ensures { IfOk result (λ b. b ≡ same_formula (instance (formula_tree a.now) (term_tree t.now) 0) (found_tree interner.now f.now)) }
{
    let Some(b) = instance_of(alloc, a, t)? else {
        return Ok(false);
    };
    Ok(matches(interner, &b, f))
}
