//! The walk over a proof. It gives each subproof its formula, or finds the first that has none.

ghost use Rattle.std.specs.Prelude.{◌≡◌, ℕ, ◌+◌, ◌<◌, ◌≤◌, ◌^◌, true, length, Some, Err, IfOk, IfSome, IfNone};
ghost use Rattle.std.specs.Option.{option_map};
ghost use Rattle.ck_base.specs.declared.decl.Sort.{Sort as SortTree};
ghost use Rattle.sorted_terms.specs.Variables.{sorts_in};
ghost use Rattle.formulas.specs.Tree.{FormulaTree, formula_tree, joined, implies, or_else, quantified, for_all, there_is};
ghost use Rattle.formulas.specs.Sorts.{fits as fits_tree};
ghost use Rattle.proof_terms.specs.Tree.{proof_tree};
ghost use Rattle.type_checker.specs.Found.{found_tree};
ghost use Rattle.type_checker.specs.Gives.{Gives};
ghost use Rattle.type_checker.specs.Place as place;
ghost use Rattle.type_checker.specs.Rules as rules;
ghost use Rattle.type_checker.specs.Scope.{hypotheses_under, variables_over};
ghost use Rattle.type_checker.specs.Walk.{Walk, found, found_at, walked, with_body, with_sides};

use crate::heads::{Head, opened};
use crate::interner::Interner;
use crate::leaves::of_leaf;
use crate::making::{built, implication, universal};
use crate::nodes::nodes;
use crate::rules::{of_cases, of_one, of_two, of_unpacked};
use crate::scope::Scope;
use crate::typed::{Found, known};
use crate::untyped::Untyped;
use ck_base::{Decls, Sort};
use formulas::{Formula, fits, well_sorted_under};
use proof_terms::Proof;
use sorted_terms::Variables;
use std::alloc::Global;

/// The formula of a proof whose first node has number `n`, and the number of the node after its last. Where
/// it has none, the number of the first of its subproofs that has none.
#[tactic(auto, using(crate::proofs::Exact::walked_assumable, crate::proofs::Sorted::raised_assumable, crate::proofs::Sorted::assumable_fits))]
pub fn walk<'f>(
    alloc: Global,
    interner: &Interner<'f>,
    decls: &Decls,
    variables: &Variables,
    scope: &Scope<'f, '_>,
    p: &'f Proof,
    n: u32,
) -> Result<(Found<'f>, u32), Untyped>
    requires assumed { place.AreAssumable decls.now (sorts_in variables.now) (hypotheses_under interner.now scope.now) }
    requires over { variables_over scope.now ≤ length (sorts_in variables.now) }
    requires few { length (sorts_in variables.now) + place.proof_nodes (proof_tree p.now) < 2 ^ 31 + 2 ^ 30 }
    requires numbers { n + place.proof_nodes (proof_tree p.now) < 2 ^ 32 }

    ensures gives { Gives interner.now result (walked decls.now (sorts_in variables.now) (hypotheses_under interner.now scope.now) (proof_tree p.now) n) }
    ensures next { IfOk result (λ r. r.1 ≡ n + place.proof_nodes (proof_tree p.now)) }
{
    match p {
        Proof::Hyp(_)
        | Proof::Refl(_)
        | Proof::Axiom(_)
        | Proof::Induct(_)
        | Proof::Compute(_)
        | Proof::Ring(_, _)
        | Proof::Hole(_) => leaf(alloc, interner, decls, variables, scope, p, n),
        Proof::Inst(part, _)
        | Proof::First(part)
        | Proof::Second(part)
        | Proof::LeftOf(_, part)
        | Proof::RightOf(_, part)
        | Proof::Pack(_, _, _, part)
        | Proof::Absurd(_, part)
        | Proof::Stable(part) => {
            let (f, n) = walk(alloc, interner, decls, variables, scope, part, n)?;
            one(alloc, interner, decls, variables, p, f, n)
        }
        Proof::App(left, right) | Proof::Pair(left, right) | Proof::Rewrite(_, left, right) => {
            let (f, n) = walk(alloc, interner, decls, variables, scope, left, n)?;
            let (g, n) = walk(alloc, interner, decls, variables, scope, right, n)?;
            two(alloc, interner, decls, variables, p, f, g, n)
        }
        Proof::Lam(a, part) => {
            if !is_assumable(decls, variables, a) {
                return Err(Untyped::At {
                    place: n + nodes(part),
                });
            }
            let assumed = known(interner, a);
            let scope = Scope::Under(&assumed, &*scope);
            let (b, n) = walk(alloc, interner, decls, variables, &scope, part, n)?;
            lambda(alloc, interner, a, b, n)
        }
        Proof::Gen(sort, part) => {
            let variables = Variables::Under(*sort, &*variables);
            let scope = Scope::Over(&*scope);
            let (a, n) = walk(alloc, interner, decls, &variables, &scope, part, n)?;
            general(alloc, interner, *sort, a, n)
        }
        Proof::Cases(part, left, right) => {
            let (f, n) = walk(alloc, interner, decls, variables, scope, part, n)?;
            let Some((a, b)) = sides(interner, f) else {
                return Err(Untyped::At {
                    place: n + nodes(left) + nodes(right),
                });
            };
            let under = Scope::Under(&a, &*scope);
            let (c, n) = walk(alloc, interner, decls, variables, &under, left, n)?;
            let under = Scope::Under(&b, &*scope);
            let (d, n) = walk(alloc, interner, decls, variables, &under, right, n)?;
            cases(interner, c, &d, n)
        }
        Proof::Unpack(part, rest) => {
            let (f, n) = walk(alloc, interner, decls, variables, scope, part, n)?;
            let Some((sort, a)) = body(interner, f) else {
                return Err(Untyped::At {
                    place: n + nodes(rest),
                });
            };
            let variables = Variables::Under(sort, &*variables);
            let over = Scope::Over(&*scope);
            let under = Scope::Under(&a, &over);
            let (c, n) = walk(alloc, interner, decls, &variables, &under, rest, n)?;
            unpacked(alloc, interner, c, n)
        }
    }
}

fn is_assumable(decls: &Decls, variables: &Variables, a: &Formula) -> bool
    ensures { result ≡ place.is_assumable decls.now (sorts_in variables.now) (formula_tree a.now) }
{
    fits(a) && well_sorted_under(decls, variables, a)
}

// The answer at node `n`.
fn at<'f>(
    interner: &Interner<'f>,
    a: Option<Found<'f>>,
    n: u32,
) -> Result<(Found<'f>, u32), Untyped>
    requires { n + 1 < 2 ^ 32 }
    ensures gives { Gives interner.now result (found_at (option_map (found_tree interner.now) a.entry) n) }
    ensures next { IfOk result (λ r. r.1 ≡ n + 1) }
{
    match a {
        Some(a) => Ok((a, n + 1)),
        None => Err(Untyped::At { place: n }),
    }
}

// A node without parts.
#[inline(never)]
fn leaf<'f>(
    alloc: Global,
    interner: &Interner<'f>,
    decls: &Decls,
    variables: &Variables,
    scope: &Scope<'f, '_>,
    p: &'f Proof,
    n: u32,
) -> Result<(Found<'f>, u32), Untyped>
    requires assumed { place.AreAssumable decls.now (sorts_in variables.now) (hypotheses_under interner.now scope.now) }
    requires over { variables_over scope.now ≤ length (sorts_in variables.now) }
    requires few { length (sorts_in variables.now) < 2 ^ 31 + 2 ^ 30 }
    requires numbers { n + 1 < 2 ^ 32 }
    ensures gives { Gives interner.now result (found (rules.of_leaf decls.now (sorts_in variables.now) (hypotheses_under interner.now scope.now) (proof_tree p.now)) n) }
    ensures next { IfOk result (λ r. r.1 ≡ n + 1) }
{
    at(
        interner,
        of_leaf(alloc, interner, decls, variables, scope, p)?,
        n,
    )
}

// A node whose part has the formula `f`.
#[inline(never)]
fn one<'f>(
    alloc: Global,
    interner: &Interner<'f>,
    decls: &Decls,
    variables: &Variables,
    p: &'f Proof,
    f: Found<'f>,
    n: u32,
) -> Result<(Found<'f>, u32), Untyped>
    requires good { place.is_assumable decls.now (sorts_in variables.now) (found_tree interner.now f) ≡ true }
    requires few { length (sorts_in variables.now) < 2 ^ 31 + 2 ^ 30 }
    requires numbers { n + 1 < 2 ^ 32 }
    ensures gives { Gives interner.now result (found (rules.of_one decls.now (sorts_in variables.now) (proof_tree p.now) (found_tree interner.now f.entry)) n) }
    ensures next { IfOk result (λ r. r.1 ≡ n + 1) }
{
    at(
        interner,
        of_one(alloc, interner, decls, variables, p, f)?,
        n,
    )
}

// A node whose parts have the formulas `f` and `g`.
#[inline(never)]
#[tactic(auto, using(crate::proofs::Sorted::assumable_fits))]
fn two<'f>(
    alloc: Global,
    interner: &Interner<'f>,
    decls: &Decls,
    variables: &Variables,
    p: &'f Proof,
    f: Found<'f>,
    g: Found<'f>,
    n: u32,
) -> Result<(Found<'f>, u32), Untyped>
    requires left { place.is_assumable decls.now (sorts_in variables.now) (found_tree interner.now f) ≡ true }
    requires right { place.is_assumable decls.now (sorts_in variables.now) (found_tree interner.now g) ≡ true }
    requires few { length (sorts_in variables.now) < 2 ^ 31 + 2 ^ 30 }
    requires numbers { n + 1 < 2 ^ 32 }
    ensures gives { Gives interner.now result (found (rules.of_two decls.now (sorts_in variables.now) (proof_tree p.now) (found_tree interner.now f.entry) (found_tree interner.now g.entry)) n) }
    ensures next { IfOk result (λ r. r.1 ≡ n + 1) }
{
    at(
        interner,
        of_two(alloc, interner, decls, variables, p, f, g)?,
        n,
    )
}

// The implication of what was assumed.
#[inline(never)]
fn lambda<'f>(
    alloc: Global,
    interner: &Interner<'f>,
    a: &'f Formula,
    b: Found<'f>,
    n: u32,
) -> Result<(Found<'f>, u32), Untyped>
    requires { n + 1 < 2 ^ 32 }
    ensures gives { Gives interner.now result (found (Some (joined implies (formula_tree a.now) (found_tree interner.now b.entry))) n) }
    ensures next { IfOk result (λ r. r.1 ≡ n + 1) }
{
    at(
        interner,
        implication(alloc, interner, known(interner, a), b)?,
        n,
    )
}

// The universal formula over what was proved of a new variable.
#[inline(never)]
fn general<'f>(
    alloc: Global,
    interner: &Interner<'f>,
    sort: Sort,
    a: Found<'f>,
    n: u32,
) -> Result<(Found<'f>, u32), Untyped>
    requires { n + 1 < 2 ^ 32 }
    ensures gives { Gives interner.now result (found (Some (quantified for_all sort (found_tree interner.now a.entry))) n) }
    ensures next { IfOk result (λ r. r.1 ≡ n + 1) }
{
    at(interner, universal(alloc, interner, sort, a)?, n)
}

// What both cases have.
#[inline(never)]
fn cases<'f>(
    interner: &Interner<'f>,
    c: Found<'f>,
    d: &Found<'f>,
    n: u32,
) -> Result<(Found<'f>, u32), Untyped>
    requires fitting { fits_tree (found_tree interner.now c) ≡ true }
    requires numbers { n + 1 < 2 ^ 32 }
    ensures gives { Gives interner.now result (found (rules.of_cases (found_tree interner.now c.entry) (found_tree interner.now d.now)) n) }
    ensures next { IfOk result (λ r. r.1 ≡ n + 1) }
{
    at(interner, of_cases(interner, c, d), n)
}

// What follows for the new variable, without it.
#[inline(never)]
fn unpacked<'f>(
    alloc: Global,
    interner: &Interner<'f>,
    c: Found<'f>,
    n: u32,
) -> Result<(Found<'f>, u32), Untyped>
    requires fitting { fits_tree (found_tree interner.now c) ≡ true }
    requires numbers { n + 1 < 2 ^ 32 }
    ensures gives { Gives interner.now result (found (rules.of_unpacked (found_tree interner.now c.entry)) n) }
    ensures next { IfOk result (λ r. r.1 ≡ n + 1) }
{
    at(
        interner,
        built(interner, of_unpacked(alloc, interner, c)?),
        n,
    )
}

// The sides of a disjunction.
#[inline(never)]
fn sides<'f>(interner: &Interner<'f>, f: Found<'f>) -> Option<(Found<'f>, Found<'f>)>
    ensures some { IfSome result (λ r. found_tree interner.now f.entry ≡ joined or_else (found_tree interner.now r.0) (found_tree interner.now r.1)) }
    ensures none { IfNone result ((place : ℕ) (next : FormulaTree → FormulaTree → Walk) → with_sides (found_tree interner.now f.entry) place next ≡ Err place) }
{
    match opened(interner, f) {
        Head::Disj(a, b) => Some((a, b)),
        _ => None,
    }
}

// The sort and the body of an existential formula.
#[inline(never)]
fn body<'f>(interner: &Interner<'f>, f: Found<'f>) -> Option<(Sort, Found<'f>)>
    ensures some { IfSome result (λ r. found_tree interner.now f.entry ≡ quantified there_is r.0 (found_tree interner.now r.1)) }
    ensures none { IfNone result ((place : ℕ) (next : SortTree → FormulaTree → Walk) → with_body (found_tree interner.now f.entry) place next ≡ Err place) }
{
    match opened(interner, f) {
        Head::Ex(sort, a) => Some((sort, a)),
        _ => None,
    }
}
