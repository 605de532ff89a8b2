//! What the tables of texts ask: each question reads its texts, makes one call and compares.

ghost use Rattle.std.specs.Prelude.{◌<◌, ◌^◌, IfOk};
ghost use Rattle.sorted_terms.specs.Tree.{term_tree};
ghost use Rattle.sorted_terms.specs.Sorts.{term_size};
ghost use Rattle.formulas.specs.Tree.{formula_tree};
ghost use Rattle.formulas.specs.Sorts.{size as nodes_of};

use crate::rooms::{
    fills_formula, fills_term, replaces_formula, replaces_term, shifts_formula, shifts_term,
};
use ck_base::{DeclFault, Decls, Kind, List, Scope, Sort};
use ck_text::{TextFault, read_formula, read_term};
use formulas::{Context, Formula};
use sorted_terms::{Term, Variables};
use std::alloc::Global;

/// The most bytes of a text that a test reads.
const MOST_BYTES: usize = 1_000_000;

/// The most variables in scope of one.
const MOST_SORTS: u32 = 100;

/// The declared names of all tests: `x` and `y`, `b` of sort bool, `a` and `i`, by their numbers from 0.
pub(crate) fn names(alloc: Global) -> Result<Decls, DeclFault> {
    let mut decls = Decls::new(alloc);
    for (name, sort) in [
        ("x", Sort::Int),
        ("y", Sort::Int),
        ("b", Sort::Bool),
        ("a", Sort::Int),
        ("i", Sort::Int),
    ] {
        decls.add(name, Kind::Variable, sort)?;
    }
    Ok(decls)
}

/// Texts that mean nothing are told as what is no name.
pub(crate) fn unread(fault: TextFault) -> DeclFault {
    match fault {
        TextFault::NoMemory => DeclFault::NoMemory,
        _ => DeclFault::BadName,
    }
}

/// The term of a text, where so many variables are in scope: `_0` is the outermost.
pub(crate) fn term(alloc: Global, sorts: u32, text: &str) -> Result<Term, DeclFault>
    ensures { IfOk result (λ t. term_size (term_tree t) < 2 ^ 32) }
{
    let bytes = text.as_bytes();
    if bytes.len() > MOST_BYTES || sorts > MOST_SORTS {
        return Err(DeclFault::TooMany);
    }
    match read_term(alloc, &names(alloc)?, Scope { sorts, hyps: 0 }, bytes) {
        Ok(t) => Ok(t),
        Err(fault) => Err(unread(fault)),
    }
}

/// The formula of a text in the same scope.
pub(crate) fn formula(alloc: Global, sorts: u32, text: &str) -> Result<Formula, DeclFault>
    ensures { IfOk result (λ a. nodes_of (formula_tree a) < 2 ^ 32) }
{
    let bytes = text.as_bytes();
    if bytes.len() > MOST_BYTES || sorts > MOST_SORTS {
        return Err(DeclFault::TooMany);
    }
    match read_formula(alloc, &names(alloc)?, Scope { sorts, hyps: 0 }, bytes) {
        Ok(a) => Ok(a),
        Err(fault) => Err(unread(fault)),
    }
}

/// Whether that term was found.
fn is_term(alloc: Global, sorts: u32, found: Term, wanted: &str) -> Result<bool, DeclFault> {
    let wanted = term(alloc, sorts, wanted)?;
    Ok(sorted_terms::same(&found, &wanted))
}

/// Whether that formula was found.
pub(crate) fn is_formula(
    alloc: Global,
    sorts: u32,
    found: &Formula,
    wanted: &str,
) -> Result<bool, DeclFault> {
    let wanted = formula(alloc, sorts, wanted)?;
    Ok(formulas::same(found, &wanted))
}

/// Whether a copy of the first term is the same as the second.
pub(crate) fn copies(
    alloc: Global,
    sorts: u32,
    text: &str,
    other: &str,
) -> Result<bool, DeclFault> {
    let t = term(alloc, sorts, text)?;
    is_term(alloc, sorts, sorted_terms::copy(alloc, &t)?, other)
}

/// The levels and nodes of a term.
pub(crate) fn measures(alloc: Global, sorts: u32, text: &str) -> Result<String, DeclFault> {
    let t = term(alloc, sorts, text)?;
    let levels = sorted_terms::depth(&t);
    let nodes = sorted_terms::size(&t);
    Ok(format!(in alloc; "levels {levels}, nodes {nodes}")?)
}

/// What is left of the nodes after those of a term.
pub(crate) fn spends(
    alloc: Global,
    sorts: u32,
    text: &str,
    nodes: u32,
    levels: u32,
) -> Result<Option<u32>, DeclFault> {
    let t = term(alloc, sorts, text)?;
    Ok(sorted_terms::spend(&t, nodes, levels))
}

/// The sorts bool for `_0` and int for `_1`, where two variables are in scope.
pub(crate) fn two_sorts(alloc: Global) -> Result<List<Sort>, DeclFault> {
    let mut sorts = List::new(alloc);
    sorts.push(Sort::Bool)?;
    sorts.push(Sort::Int)?;
    Ok(sorts)
}

fn word(sort: Sort) -> &'static str {
    match sort {
        Sort::Int => "int",
        Sort::Bool => "bool",
    }
}

/// The sort of a term under these two, without declared names, or the place where it has none. The text is
/// read with so many variables in scope.
pub(crate) fn sort_of(alloc: Global, sorts: u32, text: &str) -> Result<String, DeclFault> {
    let t = term(alloc, sorts, text)?;
    let two = two_sorts(alloc)?;
    match sorted_terms::sort_of(&Decls::new(alloc), &two, &t) {
        Ok(sort) => Ok(String::from_str(alloc, word(sort))?),
        Err(fault) => {
            let place = fault.place;
            Ok(format!(in alloc; "place {place}")?)
        }
    }
}

/// The sort of a term in that scope, where `x` alone is declared, of sort bool; `none` where it has none.
pub(crate) fn sort_under(
    alloc: Global,
    variables: &Variables,
    sorts: u32,
    text: &str,
) -> Result<&'static str, DeclFault> {
    let mut decls = Decls::new(alloc);
    decls.add("x", Kind::Constant, Sort::Bool)?;
    let t = term(alloc, sorts, text)?;
    match sorted_terms::sort_under(&decls, variables, &t) {
        Some(sort) => Ok(word(sort)),
        None => Ok("none"),
    }
}

/// Whether the term is the wanted one, where each index that is at least `above` is higher by `by`.
pub(crate) fn shifts(
    alloc: Global,
    sorts: u32,
    text: &str,
    by: u32,
    above: u32,
    wanted: &str,
) -> Result<bool, DeclFault> {
    let t = term(alloc, sorts, text)?;
    if !shifts_term(&t, by, above) {
        return Ok(false);
    }
    is_term(
        alloc,
        sorts,
        sorted_terms::shift(alloc, &t, by, above)?,
        wanted,
    )
}

/// Whether the wanted term is the one whose shift by one from `above` on is the term; `none` where none is
/// wanted.
pub(crate) fn unshifts(
    alloc: Global,
    sorts: u32,
    text: &str,
    above: u32,
    wanted: &str,
) -> Result<bool, DeclFault> {
    let t = term(alloc, sorts, text)?;
    match sorted_terms::unshift(alloc, &t, above)? {
        Some(back) => is_term(alloc, sorts, back, wanted),
        None => Ok(wanted == "none"),
    }
}

/// Whether the term is the wanted one, where `with` stands for index `at`.
pub(crate) fn instantiates(
    alloc: Global,
    sorts: u32,
    text: &str,
    with: &str,
    at: u32,
    wanted: &str,
) -> Result<bool, DeclFault> {
    let t = term(alloc, sorts, text)?;
    let with = term(alloc, sorts, with)?;
    if !fills_term(&t, &with, at) {
        return Ok(false);
    }
    let instance = sorted_terms::instantiate(alloc, &t, &with, at)?;
    is_term(alloc, sorts, instance, wanted)
}

/// Whether the term is the wanted one, where `with`, shifted by `under`, stands for the name of that number.
pub(crate) fn replaces(
    alloc: Global,
    sorts: u32,
    text: &str,
    (name, with, under): (u32, &str, u32),
    wanted: &str,
) -> Result<bool, DeclFault> {
    let t = term(alloc, sorts, text)?;
    let with = term(alloc, sorts, with)?;
    if !replaces_term(&t, name, &with, under) {
        return Ok(false);
    }
    let replaced = sorted_terms::replace_var(alloc, &t, name, &with, under)?;
    is_term(alloc, sorts, replaced, wanted)
}

/// The weight of a term.
pub(crate) fn weight(alloc: Global, text: &str) -> Result<u128, DeclFault> {
    let t = term(alloc, 0, text)?;
    Ok(sorted_terms::weight(&t))
}

/// The products in the expansion of a term.
pub(crate) fn expansions(alloc: Global, text: &str) -> Result<u32, DeclFault> {
    let t = term(alloc, 0, text)?;
    Ok(sorted_terms::expansions(&t))
}

/// Doublings of a text in parentheses, with a sign between.
pub(crate) fn doubled(
    alloc: Global,
    text: &str,
    sign: &str,
    doublings: u32,
) -> Result<String, DeclFault> {
    let mut doubled = String::from_str(alloc, text)?;
    for _ in 0..doublings {
        doubled = format!(in alloc; "({doubled} {sign} {doubled})")?;
    }
    Ok(doubled)
}

/// A product of that first factor and so many factors `x + 1`.
pub(crate) fn product(alloc: Global, first: &str, count: u32) -> Result<String, DeclFault> {
    let mut product = String::from_str(alloc, first)?;
    for _ in 0..count {
        product.push_str(" * (x + 1)")?;
    }
    Ok(product)
}

/// Whether a copy of the first formula is the same as the second.
pub(crate) fn formula_copies(alloc: Global, text: &str, other: &str) -> Result<bool, DeclFault> {
    let a = formula(alloc, 0, text)?;
    let copied = formulas::copy(alloc, &a)?;
    is_formula(alloc, 0, &copied, other)
}

/// The levels and nodes of a formula.
pub(crate) fn formula_measures(alloc: Global, text: &str) -> Result<String, DeclFault> {
    let a = formula(alloc, 0, text)?;
    let levels = formulas::depth(&a);
    let nodes = formulas::size(&a);
    Ok(format!(in alloc; "levels {levels}, nodes {nodes}")?)
}

/// Whether a formula fits.
pub(crate) fn fits(alloc: Global, text: &str) -> Result<bool, DeclFault> {
    let a = formula(alloc, 0, text)?;
    Ok(formulas::fits(&a))
}

/// Whether each term of a formula has its sort, under the names of all tests.
pub(crate) fn well_sorted(alloc: Global, text: &str) -> Result<bool, DeclFault> {
    let a = formula(alloc, 0, text)?;
    Ok(formulas::well_sorted(&names(alloc)?, &List::new(alloc), &a)?)
}

/// Whether a formula fits with `with` for index 0, which is `_0`.
pub(crate) fn fits_instance(alloc: Global, text: &str, with: &str) -> Result<bool, DeclFault> {
    let a = formula(alloc, 1, text)?;
    let with = term(alloc, 1, with)?;
    Ok(formulas::fits_instance(&a, &with))
}

/// Whether a formula fits with `with` for the name of that number.
pub(crate) fn fits_replace(
    alloc: Global,
    text: &str,
    name: u32,
    with: &str,
) -> Result<bool, DeclFault> {
    let a = formula(alloc, 1, text)?;
    let with = term(alloc, 1, with)?;
    Ok(formulas::fits_replace(&a, name, &with))
}

/// Whether the formula is the wanted one, where each index that is at least `above` is higher by `by`.
pub(crate) fn formula_shifts(
    alloc: Global,
    sorts: u32,
    text: &str,
    by: u32,
    above: u32,
    wanted: &str,
) -> Result<bool, DeclFault> {
    let a = formula(alloc, sorts, text)?;
    if !shifts_formula(&a, by, above) {
        return Ok(false);
    }
    let shifted = formulas::shift(alloc, &a, by, above)?;
    is_formula(alloc, sorts, &shifted, wanted)
}

/// Whether the wanted formula is the one whose shift by one is the formula; `none` where none is wanted.
pub(crate) fn formula_unshifts(
    alloc: Global,
    sorts: u32,
    text: &str,
    wanted: &str,
) -> Result<bool, DeclFault> {
    let a = formula(alloc, sorts, text)?;
    match formulas::unshift(alloc, &a)? {
        Some(back) => is_formula(alloc, sorts, &back, wanted),
        None => Ok(wanted == "none"),
    }
}

/// Whether the formula is the wanted one, where `with` stands for index `at`.
pub(crate) fn formula_instantiates(
    alloc: Global,
    sorts: u32,
    text: &str,
    with: &str,
    at: u32,
    wanted: &str,
) -> Result<bool, DeclFault> {
    let a = formula(alloc, sorts, text)?;
    let with = term(alloc, sorts, with)?;
    if !fills_formula(&a, &with, at) {
        return Ok(false);
    }
    let instance = formulas::instantiate(alloc, &a, &with, at)?;
    is_formula(alloc, sorts, &instance, wanted)
}

/// Whether the formula is the wanted one, where `with`, shifted by `under`, stands for the name of that number.
pub(crate) fn formula_replaces(
    alloc: Global,
    sorts: u32,
    text: &str,
    (name, with, under): (u32, &str, u32),
    wanted: &str,
) -> Result<bool, DeclFault> {
    let a = formula(alloc, sorts, text)?;
    let with = term(alloc, sorts, with)?;
    if !replaces_formula(&a, name, &with, under) {
        return Ok(false);
    }
    let replaced = formulas::replace_var(alloc, &a, name, &with, under)?;
    is_formula(alloc, sorts, &replaced, wanted)
}

/// Whether a context has the sorts, the outermost first, and the hypotheses of the texts, the oldest first.
pub(crate) fn is_context(
    alloc: Global,
    context: &Context,
    sorts: &[Sort],
    hypotheses: &[&str],
) -> Result<bool, DeclFault> {
    let scope = sorts.len();
    if scope > 9 || context.sorts.as_slice() != sorts || context.hyps.len() != hypotheses.len() {
        return Ok(false);
    }
    for (found, wanted) in context.hyps.as_slice().iter().zip(hypotheses) {
        if !is_formula(alloc, scope as u32, found, wanted)? {
            return Ok(false);
        }
    }
    Ok(true)
}
