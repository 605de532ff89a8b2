//! Formulas: copies, measures, what fits, sorts, substitution and contexts.

ghost use Rattle.std.specs.Prelude.{◌≡◌, ◌≤◌, ◌∷◌, [], map, IfOk};
ghost use Rattle.formulas.specs.Tree.{formula_tree};
ghost use Rattle.formulas.specs.Substitution.{HasIndicesBelow};
ghost use Rattle.formulas.specs.Sorts.{size as nodes_of};

use crate::asking;
use crate::rooms::shifts_formula;
use ck_base::{DeclFault, Decls, List, NoMemory, Sort};
use formulas::{
    Context, Formula, copy, depth, fits, fits_instance, fits_replace, instantiate, replace_var,
    same, shift, size, unshift, well_sorted,
};
use sorted_terms::Term;
use std::alloc::Global;
use std::test::Fail;

const NEVER_THREE: &str = "all u. ~u = 3";

#[test]
fn copies(rt: HostRuntime) -> Result<(), Fail> {
    let alloc = rt.alloc();
    assert!(rt; asking::formula_copies(alloc, NEVER_THREE, NEVER_THREE)?);
    assert!(rt; !asking::formula_copies(alloc, NEVER_THREE, "bottom")?);
    assert!(rt; !asking::formula_copies(alloc, NEVER_THREE, "all u:bool. ~u = 3")?);
    Ok(())
}

#[test]
fn measures(rt: HostRuntime) -> Result<(), Fail> {
    let alloc = rt.alloc();
    assert!(rt; asking::fits(alloc, "x = 3")?);
    let told = asking::formula_measures(alloc, "x = 3")?;
    assert_eq!(rt; told.as_str(), "levels 3, nodes 4");
    Ok(())
}

#[test]
fn sorts(rt: HostRuntime) -> Result<(), Fail> {
    let alloc = rt.alloc();
    assert!(rt; asking::well_sorted(alloc, NEVER_THREE)?);
    assert!(rt; !asking::well_sorted(alloc, "3")?);
    Ok(())
}

#[test]
fn fits_up_to_16384_nodes(rt: HostRuntime) -> Result<(), Fail> {
    let alloc = rt.alloc();
    // Over 8,192 leaves there are 16,383 nodes.
    let leaves = asking::doubled(alloc, "bottom", "/\\", 13)?;
    let most = format!(in alloc; "all u. {leaves}")?;
    assert!(rt; asking::fits(alloc, most.as_str())?);
    let more = format!(in alloc; "all u. {most}")?;
    assert!(rt; !asking::fits(alloc, more.as_str())?);
    Ok(())
}

#[test]
fn fits_after_substitution(rt: HostRuntime) -> Result<(), Fail> {
    let alloc = rt.alloc();
    // Twice 8,191 nodes and two of the formula's own. The name `i` has the number 4.
    let most = asking::doubled(alloc, "1", "+", 12)?;
    assert!(rt; asking::fits_instance(alloc, "_0 = _0", most.as_str())?);
    assert!(rt; asking::fits_replace(alloc, "i = i", 4, most.as_str())?);
    let more = format!(in alloc; "-{most}")?;
    assert!(rt; !asking::fits_instance(alloc, "_0 = _0", more.as_str())?);
    assert!(rt; !asking::fits_replace(alloc, "i = i", 4, more.as_str())?);

    // The term is too large by itself, and does not come in.
    let large = asking::doubled(alloc, "1", "+", 14)?;
    assert!(rt; asking::fits_instance(alloc, "i = i", large.as_str())?);
    assert!(rt; asking::fits_replace(alloc, "i = i", 3, large.as_str())?);
    Ok(())
}

/// Under two quantifiers index 2 is the one that stands for the outermost variable of the body, and index 3
/// for the next.
#[test]
fn substitutes_under_quantifiers(rt: HostRuntime) -> Result<(), Fail> {
    let alloc = rt.alloc();
    let a = "ex u. ex v. _1 < v";
    assert!(rt; asking::formula_instantiates(alloc, 2, a, "_0", 0, "ex u. ex v. _0 < v")?);
    // Index 3 is lowered.
    let both = "ex u. ex v. _0 + _1 < v";
    assert!(rt;
        asking::formula_instantiates(alloc, 2, both, "_0 + 1", 0, "ex u. ex v. _1 + (_0 + 1) < v")?
    );
    assert!(rt; asking::formula_unshifts(alloc, 2, a, "none")?);
    Ok(())
}

#[test]
fn shifts_under_quantifiers(rt: HostRuntime) -> Result<(), Fail> {
    let alloc = rt.alloc();
    let (a, shifted) = ("ex u. ex v. _1 < v", "ex u. ex v. _0 < v");
    assert!(rt; asking::formula_shifts(alloc, 2, a, 1, 0, shifted)?);
    assert!(rt; asking::formula_unshifts(alloc, 2, shifted, a)?);
    Ok(())
}

#[test]
fn replaces_under_quantifiers(rt: HostRuntime) -> Result<(), Fail> {
    let alloc = rt.alloc();
    let (a, wanted) = ("ex u. ex v. x < v", "ex u. ex v. _1 < v");
    assert!(rt; asking::formula_replaces(alloc, 2, a, (0, "_1", 0), wanted)?);
    Ok(())
}

/// The context of a variable of sort int with the hypothesis of the text.
fn context(alloc: Global, a: Formula) -> Result<Context, NoMemory>
    ensures { IfOk result (λ c. map formula_tree c.hyps ≡ formula_tree a ∷ []) }
{
    let mut sorts = List::new(alloc);
    sorts.push(Sort::Int)?;
    let mut hyps = List::new(alloc);
    hyps.push(a)?;
    Ok(Context { sorts, hyps })
}

/// Whether the context with one more hypothesis, and a copy of that, are the wanted ones.
fn assumes(alloc: Global, text: &str, other: &str) -> Result<bool, DeclFault> {
    let context = context(alloc, asking::formula(alloc, 1, text)?)?;
    let more = context.with_hyp(alloc, &asking::formula(alloc, 1, other)?)?;
    let copied = more.copy(alloc)?;
    let wanted = [text, other];
    Ok(
        asking::is_context(alloc, &more, &[Sort::Int], &wanted)?
            && asking::is_context(alloc, &copied, &[Sort::Int], &wanted)?,
    )
}

/// Whether the hypothesis of the context with one more variable is the wanted one.
fn opens(alloc: Global, text: &str, wanted: &str) -> Result<bool, DeclFault> {
    let a = asking::formula(alloc, 1, text)?;
    if !shifts_formula(&a, 1, 0) {
        return Ok(false);
    }
    let context = context(alloc, a)?;
    let more = context.with_sort(alloc, Sort::Bool)?;
    asking::is_context(alloc, &more, &[Sort::Int, Sort::Bool], &[wanted])
}

#[test]
fn extends_contexts(rt: HostRuntime) -> Result<(), Fail> {
    let alloc = rt.alloc();
    assert!(rt; assumes(alloc, "0 < _0", NEVER_THREE)?);
    // `_0` is the same variable, and has the index 1 now.
    assert!(rt; opens(alloc, "0 < _0", "0 < _0")?);
    assert!(rt; !opens(alloc, "0 < _0", "0 < _1")?);
    Ok(())
}

/// Quantifiers over `Bottom`, without any index.
fn levels(alloc: Global, count: u32) -> Result<Formula, NoMemory>
    requires { 1 ≤ count }
    ensures closed { IfOk result (λ a. HasIndicesBelow 0 (formula_tree a)) }
    ensures size { IfOk result (λ a. nodes_of (formula_tree a) ≡ count) }
{
    let mut a = Formula::Bottom;
    for _ in 1..count {
        a = Formula::Ex(Sort::Int, Box::new(alloc, a)?);
    }
    Ok(a)
}

#[test]
fn fits_up_to_256_levels(rt: HostRuntime) -> Result<(), Fail> {
    for (count, wanted) in [(256, true), (257, false)] {
        let a = levels(rt.alloc(), count)?;
        assert_eq!(rt; fits(&a), wanted, "{count} levels");
    }
    Ok(())
}

#[test]
fn goes_deep(rt: HostRuntime) -> Result<(), Fail> {
    let alloc = rt.alloc();
    let a = levels(alloc, 1_024)?;
    let one = Term::Int(1);
    assert_eq!(rt; size(&a), 1_024);
    assert_eq!(rt; depth(&a), 1_024);
    assert!(rt; !fits(&a));
    assert!(rt; !fits_instance(&a, &one));
    assert!(rt; !fits_replace(&a, 0, &one));
    assert!(rt; well_sorted(&Decls::new(alloc), &List::new(alloc), &a)?);
    assert!(rt; same(&copy(alloc, &a)?, &a));
    assert!(rt; same(&shift(alloc, &a, 1, 0)?, &a));
    assert!(rt; same(&instantiate(alloc, &a, &one, 0)?, &a));
    assert!(rt; same(&replace_var(alloc, &a, 0, &one, 0)?, &a));
    assert!(rt; unshift(alloc, &a)?.is_some());
    Ok(())
}
