//! A connective or quantifier on top of found formulas, where the whole fits.

ghost use Rattle.std.specs.Prelude.{◌≡◌, Some, IfOk};
ghost use Rattle.std.specs.Option.{option_map};
ghost use Rattle.formulas.specs.Tree.{formula_tree, joined, quantified, implies, and_also, or_else, for_all, there_is};
ghost use Rattle.type_checker.specs.Found.{found_tree};
ghost use Rattle.type_checker.specs.Rules.{fitting};

use crate::fitting::fitted;
use crate::interner::Interner;
use crate::typed::Found;
use ck_base::{NoMemory, Sort};
use formulas::Formula;
use std::alloc::Global;

/// A formula that was built, as a found one.
pub fn built<'f>(interner: &Interner<'f>, a: Option<Formula>) -> Option<Found<'f>>
    ensures { option_map (found_tree interner.now) result ≡ option_map formula_tree a }
{
    match a {
        Some(a) => Some(Found::Built(a)),
        None => None,
    }
}

/// `NoMemory`, here and below, where memory for a part was refused.
pub fn implication<'f>(
    alloc: Global,
    interner: &Interner<'f>,
    a: Found<'f>,
    b: Found<'f>,
) -> Result<Option<Found<'f>>, NoMemory>
    ensures { IfOk result (λ o. option_map (found_tree interner.now) o ≡ fitting (Some (joined implies (found_tree interner.now a.entry) (found_tree interner.now b.entry)))) }
{
    let a = Box::new(alloc, a)?;
    let b = Box::new(alloc, b)?;
    Ok(fitted(interner, Found::Imp(a, b)))
}

pub fn conjunction<'f>(
    alloc: Global,
    interner: &Interner<'f>,
    a: Found<'f>,
    b: Found<'f>,
) -> Result<Option<Found<'f>>, NoMemory>
    ensures { IfOk result (λ o. option_map (found_tree interner.now) o ≡ fitting (Some (joined and_also (found_tree interner.now a.entry) (found_tree interner.now b.entry)))) }
{
    let a = Box::new(alloc, a)?;
    let b = Box::new(alloc, b)?;
    Ok(fitted(interner, Found::Conj(a, b)))
}

pub fn disjunction<'f>(
    alloc: Global,
    interner: &Interner<'f>,
    a: Found<'f>,
    b: Found<'f>,
) -> Result<Option<Found<'f>>, NoMemory>
    ensures { IfOk result (λ o. option_map (found_tree interner.now) o ≡ fitting (Some (joined or_else (found_tree interner.now a.entry) (found_tree interner.now b.entry)))) }
{
    let a = Box::new(alloc, a)?;
    let b = Box::new(alloc, b)?;
    Ok(fitted(interner, Found::Disj(a, b)))
}

pub fn universal<'f>(
    alloc: Global,
    interner: &Interner<'f>,
    sort: Sort,
    a: Found<'f>,
) -> Result<Option<Found<'f>>, NoMemory>
    ensures { IfOk result (λ o. option_map (found_tree interner.now) o ≡ fitting (Some (quantified for_all sort (found_tree interner.now a.entry)))) }
{
    let a = Box::new(alloc, a)?;
    Ok(fitted(interner, Found::All(sort, a)))
}

pub fn existential<'f>(
    alloc: Global,
    interner: &Interner<'f>,
    sort: Sort,
    a: Found<'f>,
) -> Result<Option<Found<'f>>, NoMemory>
    ensures { IfOk result (λ o. option_map (found_tree interner.now) o ≡ fitting (Some (quantified there_is sort (found_tree interner.now a.entry)))) }
{
    let a = Box::new(alloc, a)?;
    Ok(fitted(interner, Found::Ex(sort, a)))
}
