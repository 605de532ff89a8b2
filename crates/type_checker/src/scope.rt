//! The hypotheses that a subproof stands under, without a copy of them.

ghost use Rattle.std.specs.Prelude.{◌≡◌, ◌<◌, ◌≤◌, ◌^◌, IfOk, IfSome, slice_get};
ghost use Rattle.std.specs.Option.{option_map};
ghost use Rattle.formulas.specs.Tree.{formula_tree};
ghost use Rattle.formulas.specs.Substitution.{HasIndicesBelow, shift as shifted};
ghost use Rattle.formulas.specs.Context.{AllIndicesBelow, hypotheses_of};
ghost use Rattle.type_checker.specs.Found.{found_tree};
ghost use Rattle.type_checker.specs.Scope.{assumed_tree, hypotheses_under, variables_over};

use crate::interner::Interner;
use crate::typed::{Found, as_formula, copied};
use ck_base::NoMemory;
use formulas::{Context, Formula, shift};
use std::alloc::Global;

/// The hypotheses of a context, and on them those that rules add. `Under` is one more hypothesis; `Over`
/// is one more variable, which raises every hypothesis below it by one.
#[derive(Clone, Copy)]
pub enum Scope<'f, 's> {
    Outer(&'f Context),
    Under(&'s Found<'f>, &'s Scope<'f, 's>),
    Over(&'s Scope<'f, 's>),
}

/// A hypothesis as it stood when it was assumed: one of the context, or a found formula.
#[derive(Clone, Copy)]
pub enum Assumed<'f, 's> {
    Given(&'f Formula),
    Found(&'s Found<'f>),
}

/// The hypothesis of that index, 0 the newest; `None` exactly where there is none. No index of a hypothesis
/// may pass 2^32 - 1. `NoMemory` where memory was refused: a hypothesis that was not built by a rule and
/// over which no variable stands takes none.
#[tactic(auto, using(crate::proofs::Raising::held_below))]
pub fn hypothesis<'f>(
    alloc: Global,
    interner: &Interner<'f>,
    scope: &Scope<'f, '_>,
    index: u32,
) -> Result<Option<Found<'f>>, NoMemory>
    requires room { AllIndicesBelow (2 ^ 32) (hypotheses_under interner.now scope.now) }
    requires few { variables_over scope.now < 2 ^ 32 }
    ensures { IfOk result (λ o. option_map (found_tree interner.now) o ≡ slice_get (hypotheses_under interner.now scope.now) index) }
{
    let Some((assumed, passed)) = held(interner, scope, index) else {
        return Ok(None);
    };
    Ok(Some(raised(alloc, interner, assumed, passed)?))
}

// The hypothesis of that index as it stood, and how many variables were bound since.
#[tactic(auto, using(crate::proofs::Raising::get_raised, crate::proofs::Raising::shift_none, crate::proofs::Lowering::shifted_again))]
fn held<'f, 's>(
    interner: &Interner<'f>,
    scope: &Scope<'f, 's>,
    index: u32,
) -> Option<(Assumed<'f, 's>, u32)>
    requires { variables_over scope.now < 2 ^ 32 }
    ensures found { option_map (λ r. shifted (assumed_tree interner.now r.0) r.1 0) result ≡ slice_get (hypotheses_under interner.now scope.now) index }
    ensures few { IfSome result (λ r. r.1 ≤ variables_over scope.now) }
{
    match scope {
        Scope::Outer(context) => {
            let a = newest(context, index)?;
            Some((Assumed::Given(a), 0))
        }
        Scope::Under(a, rest) => match index.checked_sub(1) {
            None => Some((Assumed::Found(a), 0)),
            Some(index) => held(interner, rest, index),
        },
        Scope::Over(rest) => {
            let (assumed, passed) = held(interner, rest, index)?;
            Some((assumed, passed + 1))
        }
    }
}

fn newest<'a>(context: &'a Context, index: u32) -> Option<&'a Formula>
    ensures { option_map (λ a. formula_tree a.now) result ≡ slice_get (hypotheses_of context.now) index }
{
    let count = context.hyps.len();
    let index = index as usize;
    if index < count {
        context.hyps.get(count - 1 - index)
    } else {
        None
    }
}

// The hypothesis under `by` more variables.
fn raised<'f>(
    alloc: Global,
    interner: &Interner<'f>,
    assumed: Assumed<'f, '_>,
    by: u32,
) -> Result<Found<'f>, NoMemory>
    requires { HasIndicesBelow (2 ^ 32) (shifted (assumed_tree interner.now assumed) by 0) }
    ensures { IfOk result (λ r. found_tree interner.now r ≡ shifted (assumed_tree interner.now assumed.entry) by 0) }
{
    match assumed {
        Assumed::Given(a) => raised_known(alloc, interner, a, by),
        Assumed::Found(a) => raised_found(alloc, interner, a, by),
    }
}

#[tactic(auto, using(crate::proofs::Raising::shift_none))]
fn raised_found<'f>(
    alloc: Global,
    interner: &Interner<'f>,
    a: &Found<'f>,
    by: u32,
) -> Result<Found<'f>, NoMemory>
    requires { HasIndicesBelow (2 ^ 32) (shifted (found_tree interner.now a.now) by 0) }
    ensures { IfOk result (λ r. found_tree interner.now r ≡ shifted (found_tree interner.now a.now) by 0) }
{
    if let (Found::Interned(number), 0) = (a, by) {
        return Ok(Found::Interned(*number));
    }
    if let Some(a) = as_formula(interner, a) {
        return raised_known(alloc, interner, a, by);
    }
    let a = copied(alloc, interner, a)?;
    if by == 0 {
        return Ok(Found::Built(a));
    }
    Ok(Found::Built(shift(alloc, &a, by, 0)?))
}

#[tactic(auto, using(crate::proofs::Raising::shift_none))]
fn raised_known<'f>(
    alloc: Global,
    interner: &Interner<'f>,
    a: &'f Formula,
    by: u32,
) -> Result<Found<'f>, NoMemory>
    requires { HasIndicesBelow (2 ^ 32) (shifted (formula_tree a.now) by 0) }
    ensures { IfOk result (λ r. found_tree interner.now r ≡ shifted (formula_tree a.now) by 0) }
{
    if by == 0 {
        return Ok(Found::Known(a));
    }
    Ok(Found::Built(shift(alloc, a, by, 0)?))
}
