//! A formula that the walk found, without a copy of what the proof and its context say.

ghost use Rattle.std.specs.Prelude.{◌≡◌, IfOk, IfSome};
ghost use Rattle.formulas.specs.Tree.{formula_tree};
ghost use Rattle.std.specs.Option.{option_copied};
ghost use Rattle.type_checker.specs.Found.{found_tree, standing};
ghost use Rattle.type_checker.specs.Interner.{formula_at};

use crate::interner::Interner;
use ck_base::{NoMemory, Sort};
use formulas::{Formula, copy};
use std::alloc::Global;

/// A formula that the interner holds under that number, another one of the proof or its context, one that a
/// substitution or an axiom made, or a connective or quantifier that a rule put on top of found formulas.
#[derive(Drop)]
pub enum Found<'f> {
    Interned(usize),
    Known(&'f Formula),
    Built(Formula),
    Imp(Box<Found<'f>>, Box<Found<'f>>),
    Conj(Box<Found<'f>>, Box<Found<'f>>),
    Disj(Box<Found<'f>>, Box<Found<'f>>),
    All(Sort, Box<Found<'f>>),
    Ex(Sort, Box<Found<'f>>),
}

/// A formula of the proof: its number, where it has one.
pub fn known<'f>(interner: &Interner<'f>, a: &'f Formula) -> Found<'f>
    ensures { found_tree interner.now result ≡ formula_tree a.now }
{
    match interner.number(a) {
        Some(number) => Found::Interned(number),
        None => Found::Known(a),
    }
}

/// The formula of the proof or its context that the found one is; `None` exactly where it was made. It takes no
/// memory.
pub fn as_formula<'f>(interner: &Interner<'f>, a: &Found<'f>) -> Option<&'f Formula>
    ensures standing { option_copied result ≡ standing interner.now a.now }
    ensures same { IfSome result (λ r. formula_tree r.now ≡ found_tree interner.now a.now) }
{
    match a {
        Found::Interned(number) => {
            let node = interner.node(*number)?;
            Some(node.formula)
        }
        Found::Known(a) => Some(a),
        _ => None,
    }
}

fn boxed(alloc: Global, a: Formula) -> Result<Box<Formula>, NoMemory>
    ensures { IfOk result (λ b. b.value ≡ a) }
{
    Ok(Box::new(alloc, a)?)
}

// A copy of the formula with that number.
#[inline(never)]
fn copy_at(alloc: Global, interner: &Interner, number: usize) -> Result<Formula, NoMemory>
    ensures { IfOk result (λ r. formula_tree r ≡ formula_at interner.now number) }
{
    match interner.node(number) {
        Some(node) => copy(alloc, node.formula),
        None => Ok(Formula::Bottom),
    }
}

/// The found formula as one of its own; its known parts are copied. `NoMemory` where memory was refused.
pub fn owned(alloc: Global, interner: &Interner, a: Found) -> Result<Formula, NoMemory>
    ensures { IfOk result (λ r. formula_tree r ≡ found_tree interner.now a.entry) }
{
    match a {
        Found::Interned(number) => copy_at(alloc, interner, number),
        Found::Known(a) => copy(alloc, a),
        Found::Built(a) => Ok(a),
        Found::Imp(a, b) => {
            let a = boxed(alloc, owned(alloc, interner, Box::into_inner(a))?)?;
            let b = boxed(alloc, owned(alloc, interner, Box::into_inner(b))?)?;
            Ok(Formula::Imp(a, b))
        }
        Found::Conj(a, b) => {
            let a = boxed(alloc, owned(alloc, interner, Box::into_inner(a))?)?;
            let b = boxed(alloc, owned(alloc, interner, Box::into_inner(b))?)?;
            Ok(Formula::Conj(a, b))
        }
        Found::Disj(a, b) => {
            let a = boxed(alloc, owned(alloc, interner, Box::into_inner(a))?)?;
            let b = boxed(alloc, owned(alloc, interner, Box::into_inner(b))?)?;
            Ok(Formula::Disj(a, b))
        }
        Found::All(sort, a) => {
            let a = boxed(alloc, owned(alloc, interner, Box::into_inner(a))?)?;
            Ok(Formula::All(sort, a))
        }
        Found::Ex(sort, a) => {
            let a = boxed(alloc, owned(alloc, interner, Box::into_inner(a))?)?;
            Ok(Formula::Ex(sort, a))
        }
    }
}

/// A copy of the found formula as one of its own. `NoMemory` where memory was refused.
pub fn copied(alloc: Global, interner: &Interner, a: &Found) -> Result<Formula, NoMemory>
    ensures { IfOk result (λ r. formula_tree r ≡ found_tree interner.now a.now) }
{
    match a {
        Found::Interned(number) => copy_at(alloc, interner, *number),
        Found::Known(a) => copy(alloc, a),
        Found::Built(a) => copy(alloc, a),
        Found::Imp(a, b) => {
            let a = boxed(alloc, copied(alloc, interner, a)?)?;
            let b = boxed(alloc, copied(alloc, interner, b)?)?;
            Ok(Formula::Imp(a, b))
        }
        Found::Conj(a, b) => {
            let a = boxed(alloc, copied(alloc, interner, a)?)?;
            let b = boxed(alloc, copied(alloc, interner, b)?)?;
            Ok(Formula::Conj(a, b))
        }
        Found::Disj(a, b) => {
            let a = boxed(alloc, copied(alloc, interner, a)?)?;
            let b = boxed(alloc, copied(alloc, interner, b)?)?;
            Ok(Formula::Disj(a, b))
        }
        Found::All(sort, a) => Ok(Formula::All(*sort, boxed(alloc, copied(alloc, interner, a)?)?)),
        Found::Ex(sort, a) => Ok(Formula::Ex(*sort, boxed(alloc, copied(alloc, interner, a)?)?)),
    }
}
