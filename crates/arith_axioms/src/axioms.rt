//! The axioms by their numbers.

ghost use Rattle.std.specs.Prelude.{◌≡◌, ◌≤◌, IfOk, Some, is_some};
ghost use Rattle.std.specs.Option.{option_map};
ghost use Rattle.formulas.specs.Tree.{formula_tree};
ghost use Rattle.arith_axioms.specs.Axioms.{axiom_at};

use crate::making::Maker;
use crate::table::{
    above, antisymmetry, below_next, both_from_parts, both_parts, cancellation, denial, denied,
    either_from_left, either_from_right, either_part, equal_at_most, irreflexivity, less_at_most,
    next_within, no_falsity, no_zero_divisors, not_back, not_below, products, reflexivity, sums,
    symmetry, totality, transitivity, truth,
};
use ck_base::NoMemory;
use formulas::Formula;
use std::alloc::Global;

/// The axiom with this number, from 1 to 26; `None` exactly where the table has no such number. `NoMemory`
/// where memory for a node was refused.
#[tactic(auto, using(crate::proofs::Numbers::listed_first, crate::proofs::Numbers::listed_last, crate::proofs::Numbers::not_listed))]
pub fn axiom(alloc: Global, i: u32) -> Result<Option<Formula>, NoMemory>
    ensures { IfOk result (λ o. option_map formula_tree o ≡ axiom_at i) }
{
    if !is_axiom(i) {
        return Ok(None);
    }
    let make = Maker { alloc };
    if i <= 13 {
        Ok(Some(first_half(make, i)?))
    } else {
        Ok(Some(second_half(make, i)?))
    }
}

/// Whether the table of axioms has this number. It takes no memory.
#[tactic(auto, using(crate::proofs::Numbers::from_one, crate::proofs::Numbers::below_one))]
pub fn is_axiom(i: u32) -> bool
    ensures { result ≡ is_some (axiom_at i) }
{
    1 <= i && i <= 26
}

fn first_half(make: Maker, i: u32) -> Result<Formula, NoMemory>
    requires first { 1 ≤ i }
    requires last { i ≤ 13 }
    ensures { IfOk result (λ a. axiom_at i ≡ Some (formula_tree a)) }
{
    match i {
        1 => reflexivity(make),
        2 => transitivity(make),
        3 => antisymmetry(make),
        4 => totality(make),
        5 => sums(make),
        6 => products(make),
        7 => next_within(make),
        8 => below_next(make),
        9 => irreflexivity(make),
        10 => above(make),
        11 => not_below(make),
        12 => not_back(make),
        13 => equal_at_most(make),
        _ => unreachable!(),
    }
}

fn second_half(make: Maker, i: u32) -> Result<Formula, NoMemory>
    requires first { 14 ≤ i }
    requires last { i ≤ 26 }
    ensures { IfOk result (λ a. axiom_at i ≡ Some (formula_tree a)) }
{
    match i {
        14 => less_at_most(make),
        15 => no_zero_divisors(make),
        16 => cancellation(make),
        17 => symmetry(make),
        18 => truth(make),
        19 => no_falsity(make),
        20 => denied(make),
        21 => denial(make),
        22 => both_parts(make),
        23 => both_from_parts(make),
        24 => either_part(make),
        25 => either_from_left(make),
        26 => either_from_right(make),
        _ => unreachable!(),
    }
}
