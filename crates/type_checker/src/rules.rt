//! The rules with one part or two that stand under the hypotheses and variables of the whole.

ghost use Rattle.std.specs.Prelude.{◌≡◌, ◌∷◌, ◌&&◌, ◌+◌, ◌<◌, ◌^◌, true, length, IfOk};
ghost use Rattle.std.specs.Option.{option_map};
ghost use Rattle.ck_base.specs.declared.decl.Sort.TheVariants as sorts;
ghost use Rattle.sorted_terms.specs.Tree.{term_tree};
ghost use Rattle.sorted_terms.specs.Variables.{sorts_in};
ghost use Rattle.sorted_terms.specs.Sorts.{sort_of, has_sort};
ghost use Rattle.formulas.specs.Tree.{formula_tree, bottom, holds, joined, or_else, quantified, there_is};
ghost use Rattle.formulas.specs.Sorts.{well_sorted, fits};
ghost use Rattle.formulas.specs.Substitution.{instance};
ghost use Rattle.proof_terms.specs.Tree.{proof_tree};
ghost use Rattle.type_checker.specs.Found.{found_tree};
ghost use Rattle.type_checker.specs.Place.{is_assumable};
ghost use Rattle.type_checker.specs.Rules as rules;
ghost use Rattle.type_checker.specs.Same.{same_formula};

use crate::fitting::fitted;
use crate::heads::{Head, opened};
use crate::instances::{found_instance, instance_of, is_instance, is_of};
use crate::interner::Interner;
use crate::making::{built, conjunction, disjunction, existential};
use crate::matching::{is_bottom, same_found};
use crate::typed::{Found, as_formula, known, owned};
use ck_base::{Decls, NoMemory, Sort};
use formulas::{Formula, unshift, well_sorted_under};
use proof_terms::Proof;
use sorted_terms::{Term, Variables};
use std::alloc::Global;

/// The formula of a node whose one part has the formula `f`, where the node has one that fits. `NoMemory`,
/// here and below, where memory was refused.
#[tactic(auto, using(crate::proofs::Sorted::assumable_fits, crate::proofs::Ruled::first_kept, crate::proofs::Ruled::second_kept, crate::proofs::Ruled::stable_kept))]
pub fn of_one<'f>(
    alloc: Global,
    interner: &Interner<'f>,
    decls: &Decls,
    variables: &Variables,
    p: &'f Proof,
    f: Found<'f>,
) -> Result<Option<Found<'f>>, NoMemory>
    requires good { is_assumable decls.now (sorts_in variables.now) (found_tree interner.now f) ≡ true }
    requires few { length (sorts_in variables.now) < 2 ^ 31 + 2 ^ 30 }
    ensures { IfOk result (λ o. option_map (found_tree interner.now) o ≡ rules.fitting (rules.of_one decls.now (sorts_in variables.now) (proof_tree p.now) (found_tree interner.now f.entry))) }
{
    match p {
        Proof::Inst(_, t) => Ok(built(interner, special(alloc, interner, decls, variables, t, f)?)),
        Proof::First(_) => Ok(first(interner, f)),
        Proof::Second(_) => Ok(second(interner, f)),
        Proof::LeftOf(b, _) => left_of(alloc, interner, decls, variables, b, f),
        Proof::RightOf(a, _) => right_of(alloc, interner, decls, variables, a, f),
        Proof::Pack(sort, a, t, _) => packed(alloc, interner, decls, variables, *sort, a, t, &f),
        Proof::Absurd(a, _) => Ok(from_bottom(interner, decls, variables, a, &f)),
        Proof::Stable(_) => Ok(stable(interner, f)),
        _ => Ok(None),
    }
}

/// The same for a node whose two parts have the formulas `f` and `g`.
#[tactic(auto, using(crate::proofs::Sorted::assumable_fits, crate::proofs::Ruled::applied_kept))]
pub fn of_two<'f>(
    alloc: Global,
    interner: &Interner<'f>,
    decls: &Decls,
    variables: &Variables,
    p: &'f Proof,
    f: Found<'f>,
    g: Found<'f>,
) -> Result<Option<Found<'f>>, NoMemory>
    requires good { is_assumable decls.now (sorts_in variables.now) (found_tree interner.now f) ≡ true }
    requires fitting { fits (found_tree interner.now g) ≡ true }
    requires few { length (sorts_in variables.now) < 2 ^ 31 + 2 ^ 30 }
    ensures { IfOk result (λ o. option_map (found_tree interner.now) o ≡ rules.fitting (rules.of_two decls.now (sorts_in variables.now) (proof_tree p.now) (found_tree interner.now f.entry) (found_tree interner.now g.entry))) }
{
    match p {
        Proof::App(_, _) => Ok(applied(interner, f, &g)),
        Proof::Pair(_, _) => conjunction(alloc, interner, f, g),
        Proof::Rewrite(a, _, _) => {
            Ok(built(
                interner,
                rewritten(alloc, interner, decls, variables, a, f, &g)?,
            ))
        }
        _ => Ok(None),
    }
}

/// The formula of both cases, where they have the same.
#[tactic(auto, using(crate::proofs::Ruled::cases_kept))]
pub fn of_cases<'f>(interner: &Interner<'f>, f: Found<'f>, g: &Found<'f>) -> Option<Found<'f>>
    requires { fits (found_tree interner.now f) ≡ true }
    ensures { option_map (found_tree interner.now) result ≡ rules.fitting (rules.of_cases (found_tree interner.now f.entry) (found_tree interner.now g.now)) }
{
    if same_found(interner, &f, g) {
        Some(f)
    } else {
        None
    }
}

/// The formula without the innermost variable, where that does not occur.
pub fn of_unpacked<'f>(
    alloc: Global,
    interner: &Interner<'f>,
    f: Found<'f>,
) -> Result<Option<Formula>, NoMemory>
    requires { fits (found_tree interner.now f) ≡ true }
    ensures { IfOk result (λ o. option_map formula_tree o ≡ rules.fitting (rules.of_unpacked (found_tree interner.now f.entry))) }
{
    if let Some(a) = as_formula(interner, &f) {
        return lowered(alloc, a);
    }
    let a = owned(alloc, interner, f)?;
    lowered(alloc, &a)
}

#[tactic(auto, using(crate::proofs::Ruled::lowered_some, crate::proofs::Ruled::lowered_none))]
fn lowered(alloc: Global, a: &Formula) -> Result<Option<Formula>, NoMemory>
    requires { fits (formula_tree a.now) ≡ true }
    ensures { IfOk result (λ o. option_map formula_tree o ≡ rules.fitting (rules.of_unpacked (formula_tree a.now))) }
{
    match unshift(alloc, a)? {
        Some(a) => Ok(Some(a)),
        None => Ok(None),
    }
}

// The body of a universal formula, at a term of its sort.
#[tactic(auto, using(crate::proofs::Ruled::special_room))]
fn special<'f>(
    alloc: Global,
    interner: &Interner<'f>,
    decls: &Decls,
    variables: &Variables,
    t: &Term,
    f: Found<'f>,
) -> Result<Option<Formula>, NoMemory>
    requires good { is_assumable decls.now (sorts_in variables.now) (found_tree interner.now f) ≡ true }
    requires few { length (sorts_in variables.now) < 2 ^ 31 + 2 ^ 30 }
    ensures { IfOk result (λ o. option_map formula_tree o ≡ rules.fitting (rules.special_of decls.now (sorts_in variables.now) (term_tree t.now) (found_tree interner.now f.entry))) }
{
    match opened(interner, f) {
        Head::All(sort, a) => {
            if !is_of(decls, variables, t, sort) {
                return Ok(None);
            }
            found_instance(alloc, interner, a, t)
        }
        _ => Ok(None),
    }
}

fn first<'f>(interner: &Interner<'f>, f: Found<'f>) -> Option<Found<'f>>
    ensures { option_map (found_tree interner.now) result ≡ rules.first_of (found_tree interner.now f.entry) }
{
    match opened(interner, f) {
        Head::Conj(a, _) => Some(a),
        _ => None,
    }
}

fn second<'f>(interner: &Interner<'f>, f: Found<'f>) -> Option<Found<'f>>
    ensures { option_map (found_tree interner.now) result ≡ rules.second_of (found_tree interner.now f.entry) }
{
    match opened(interner, f) {
        Head::Conj(_, b) => Some(b),
        _ => None,
    }
}

// A well-sorted formula on the right.
fn left_of<'f>(
    alloc: Global,
    interner: &Interner<'f>,
    decls: &Decls,
    variables: &Variables,
    b: &'f Formula,
    f: Found<'f>,
) -> Result<Option<Found<'f>>, NoMemory>
    ensures { IfOk result (λ o. option_map (found_tree interner.now) o ≡ rules.fitting (rules.given (well_sorted decls.now (sorts_in variables.now) (formula_tree b.now)) (joined or_else (found_tree interner.now f.entry) (formula_tree b.now)))) }
{
    if !well_sorted_under(decls, variables, b) {
        return Ok(None);
    }
    disjunction(alloc, interner, f, known(interner, b))
}

// A well-sorted formula on the left.
fn right_of<'f>(
    alloc: Global,
    interner: &Interner<'f>,
    decls: &Decls,
    variables: &Variables,
    a: &'f Formula,
    f: Found<'f>,
) -> Result<Option<Found<'f>>, NoMemory>
    ensures { IfOk result (λ o. option_map (found_tree interner.now) o ≡ rules.fitting (rules.given (well_sorted decls.now (sorts_in variables.now) (formula_tree a.now)) (joined or_else (formula_tree a.now) (found_tree interner.now f.entry)))) }
{
    if !well_sorted_under(decls, variables, a) {
        return Ok(None);
    }
    disjunction(alloc, interner, known(interner, a), f)
}

// A formula of which a term of that sort gives the part's holds of some value.
#[tactic(auto, using(crate::proofs::Ruled::given_room))]
fn packed<'f>(
    alloc: Global,
    interner: &Interner<'f>,
    decls: &Decls,
    variables: &Variables,
    sort: Sort,
    a: &'f Formula,
    t: &Term,
    f: &Found<'f>,
) -> Result<Option<Found<'f>>, NoMemory>
    requires fitting { fits (found_tree interner.now f.now) ≡ true }
    requires few { length (sorts_in variables.now) < 2 ^ 31 + 2 ^ 30 }
    ensures { IfOk result (λ o. option_map (found_tree interner.now) o ≡ rules.fitting (rules.given (well_sorted decls.now (sort ∷ sorts_in variables.now) (formula_tree a.now) && (has_sort (sort_of decls.now (sorts_in variables.now) (term_tree t.now)) sort && same_formula (instance (formula_tree a.now) (term_tree t.now) 0) (found_tree interner.now f.now))) (quantified there_is sort (formula_tree a.now)))) }
{
    let under = Variables::Under(sort, &*variables);
    if !well_sorted_under(decls, &under, a) || !is_of(decls, variables, t, sort) {
        return Ok(None);
    }
    if !is_instance(alloc, interner, a, t, f)? {
        return Ok(None);
    }
    existential(alloc, interner, sort, known(interner, a))
}

// Every well-sorted formula, from falsity.
fn from_bottom<'f>(
    interner: &Interner<'f>,
    decls: &Decls,
    variables: &Variables,
    a: &'f Formula,
    f: &Found<'f>,
) -> Option<Found<'f>>
    ensures { option_map (found_tree interner.now) result ≡ rules.fitting (rules.given (well_sorted decls.now (sorts_in variables.now) (formula_tree a.now) && same_formula bottom (found_tree interner.now f.now)) (formula_tree a.now)) }
{
    if well_sorted_under(decls, variables, a) && is_bottom(interner, f) {
        fitted(interner, known(interner, a))
    } else {
        None
    }
}

// What is not false.
fn stable<'f>(interner: &Interner<'f>, f: Found<'f>) -> Option<Found<'f>>
    ensures { option_map (found_tree interner.now) result ≡ rules.and_then (rules.denied_of (found_tree interner.now f.entry)) rules.denied_of }
{
    let denial = denied(interner, f)?;
    denied(interner, denial)
}

// What is denied.
#[tactic(auto, using(crate::proofs::Ruled::denied_given))]
fn denied<'f>(interner: &Interner<'f>, f: Found<'f>) -> Option<Found<'f>>
    ensures { option_map (found_tree interner.now) result ≡ rules.denied_of (found_tree interner.now f.entry) }
{
    match opened(interner, f) {
        Head::Imp(a, b) => {
            if is_bottom(interner, &b) {
                Some(a)
            } else {
                None
            }
        }
        _ => None,
    }
}

// The right side of an implication that has that left side.
fn applied<'f>(interner: &Interner<'f>, f: Found<'f>, g: &Found<'f>) -> Option<Found<'f>>
    ensures { option_map (found_tree interner.now) result ≡ rules.applied (found_tree interner.now f.entry) (found_tree interner.now g.now) }
{
    match opened(interner, f) {
        Head::Imp(a, b) => {
            if same_found(interner, &a, g) {
                Some(b)
            } else {
                None
            }
        }
        _ => None,
    }
}

// An instance at the right side of the equation `f`, from the one at its left side.
#[tactic(auto, using(crate::proofs::Sorted::assumable_sorted))]
fn rewritten<'f>(
    alloc: Global,
    interner: &Interner<'f>,
    decls: &Decls,
    variables: &Variables,
    a: &Formula,
    f: Found<'f>,
    g: &Found<'f>,
) -> Result<Option<Formula>, NoMemory>
    requires good { is_assumable decls.now (sorts_in variables.now) (found_tree interner.now f) ≡ true }
    requires fitting { fits (found_tree interner.now g.now) ≡ true }
    requires few { length (sorts_in variables.now) < 2 ^ 31 + 2 ^ 30 }
    ensures { IfOk result (λ o. option_map formula_tree o ≡ rules.fitting (rules.rewritten decls.now (sorts_in variables.now) (formula_tree a.now) (found_tree interner.now f.entry) (found_tree interner.now g.now))) }
{
    match opened(interner, f) {
        Head::Holds(t) => equated(alloc, interner, decls, variables, a, t, g),
        Head::Owned(t) => equated(alloc, interner, decls, variables, a, &t, g),
        _ => Ok(None),
    }
}

#[tactic(auto, using(crate::proofs::Ruled::equation_left, crate::proofs::Ruled::equation_right))]
fn equated<'f>(
    alloc: Global,
    interner: &Interner<'f>,
    decls: &Decls,
    variables: &Variables,
    a: &Formula,
    equation: &Term,
    g: &Found<'f>,
) -> Result<Option<Formula>, NoMemory>
    requires sorted { well_sorted decls.now (sorts_in variables.now) (holds (term_tree equation.now)) ≡ true }
    requires fitting { fits (found_tree interner.now g.now) ≡ true }
    requires few { length (sorts_in variables.now) < 2 ^ 31 + 2 ^ 30 }
    ensures { IfOk result (λ o. option_map formula_tree o ≡ rules.fitting (rules.rewritten decls.now (sorts_in variables.now) (formula_tree a.now) (holds (term_tree equation.now)) (found_tree interner.now g.now))) }
{
    match equation {
        Term::Eq(s, t) => moved(alloc, interner, decls, variables, a, s, t, g),
        _ => Ok(None),
    }
}

// The instance at `t`, from the one at `s`.
#[tactic(auto, using(crate::proofs::Ruled::given_room))]
fn moved<'f>(
    alloc: Global,
    interner: &Interner<'f>,
    decls: &Decls,
    variables: &Variables,
    a: &Formula,
    s: &Term,
    t: &Term,
    g: &Found<'f>,
) -> Result<Option<Formula>, NoMemory>
    requires left { has_sort (sort_of decls.now (sorts_in variables.now) (term_tree s.now)) sorts.Int ≡ true }
    requires right { has_sort (sort_of decls.now (sorts_in variables.now) (term_tree t.now)) sorts.Int ≡ true }
    requires fitting { fits (found_tree interner.now g.now) ≡ true }
    requires few { length (sorts_in variables.now) < 2 ^ 31 + 2 ^ 30 }
    ensures { IfOk result (λ o. option_map formula_tree o ≡ rules.fitting (rules.given (well_sorted decls.now (sorts.Int ∷ sorts_in variables.now) (formula_tree a.now) && same_formula (instance (formula_tree a.now) (term_tree s.now) 0) (found_tree interner.now g.now)) (instance (formula_tree a.now) (term_tree t.now) 0))) }
{
    let under = Variables::Under(Sort::Int, &*variables);
    if !well_sorted_under(decls, &under, a) {
        return Ok(None);
    }
    if !is_instance(alloc, interner, a, s, g)? {
        return Ok(None);
    }
    instance_of(alloc, a, t)
}
