//! The connective or quantifier of one formula, over other parts.

ghost use Rattle.std.specs.Prelude.{◌≡◌, IfOk};
ghost use Rattle.formulas.specs.Tree.{formula_tree, IsJoined, IsQuantified, with_part as over_part, with_parts as over_parts};

use crate::formula::Formula;
use ck_base::NoMemory;
use std::alloc::Global;

/// The connective of `a` between two other parts.
#[inline(never)]
pub fn with_parts(
    alloc: Global,
    a: &Formula,
    left: Formula,
    right: Formula,
) -> Result<Formula, NoMemory>
    requires { IsJoined (formula_tree a.now) }
    ensures { IfOk result (λ r. formula_tree r ≡ over_parts (formula_tree a.now) (formula_tree left) (formula_tree right)) }
{
    let left = Box::new(alloc, left)?;
    let right = Box::new(alloc, right)?;
    match a {
        Formula::Imp(_, _) => Ok(Formula::Imp(left, right)),
        Formula::Conj(_, _) => Ok(Formula::Conj(left, right)),
        Formula::Disj(_, _) => Ok(Formula::Disj(left, right)),
        _ => unreachable!(),
    }
}

/// The quantifier of `a` over another part.
#[inline(never)]
pub fn with_part(alloc: Global, a: &Formula, part: Formula) -> Result<Formula, NoMemory>
    requires { IsQuantified (formula_tree a.now) }
    ensures { IfOk result (λ r. formula_tree r ≡ over_part (formula_tree a.now) (formula_tree part)) }
{
    let part = Box::new(alloc, part)?;
    match a {
        Formula::All(sort, _) => Ok(Formula::All(*sort, part)),
        Formula::Ex(sort, _) => Ok(Formula::Ex(*sort, part)),
        _ => unreachable!(),
    }
}
