//! Which found formulas fit.

ghost use Rattle.std.specs.Prelude.{◌≡◌, ◌+◌, ◌<◌, ◌≤◌, ◌⊎◌, Some, IfSome, IfNone};
ghost use Rattle.std.specs.Option.{option_map};
ghost use Rattle.formulas.specs.Tree.{formula_tree};
ghost use Rattle.formulas.specs.Sorts.{size as nodes_of, depth as levels_of, fits as fits_tree};
ghost use Rattle.type_checker.specs.Found.{found_tree};
ghost use Rattle.type_checker.specs.Interner.{formula_at};
ghost use Rattle.type_checker.specs.Rules.{fitting};

use crate::interner::Interner;
use crate::typed::Found;
use ck_base::limits::{FORMULA_DEPTH, FORMULA_NODES};
use formulas::{Formula, depth, fits, size};

/// The found formula, where it fits. It takes no memory.
pub fn fitted<'f>(interner: &Interner<'f>, a: Found<'f>) -> Option<Found<'f>>
    ensures { option_map (found_tree interner.now) result ≡ fitting (Some (found_tree interner.now a.entry)) }
{
    if fits_found(interner, &a) {
        Some(a)
    } else {
        None
    }
}

#[tactic(auto, unfolding(formulas::specs::Sorts::fits))]
fn fits_found(interner: &Interner, a: &Found) -> bool
    ensures { result ≡ fits_tree (found_tree interner.now a.now) }
{
    spend(interner, a, FORMULA_NODES, FORMULA_DEPTH).is_some()
}

// What is left of `nodes` after those of the formula; `None` where it has more of them, or more than
// `levels` levels.
#[tactic(auto, using(formulas::proofs::Sizes::size_positive, formulas::proofs::Sizes::depth_positive))]
fn spend(interner: &Interner, a: &Found, nodes: u32, levels: u32) -> Option<u32>
    requires nodes { nodes ≤ 16384 }
    requires levels { levels ≤ 256 }
    ensures within { IfSome result (λ left. (nodes_of (found_tree interner.now a.now) + left ≡ nodes) × (levels_of (found_tree interner.now a.now) ≤ levels)) }
    ensures beyond { IfNone result ((nodes < nodes_of (found_tree interner.now a.now)) ⊎ (levels < levels_of (found_tree interner.now a.now))) }
{
    match a {
        Found::Interned(number) => spend_interned(interner, *number, nodes, levels),
        Found::Known(a) => spend_known(a, nodes, levels),
        Found::Built(a) => spend_known(a, nodes, levels),
        Found::Imp(a, b) | Found::Conj(a, b) | Found::Disj(a, b) => {
            let nodes = nodes.checked_sub(1)?;
            let levels = levels.checked_sub(1)?;
            let nodes = spend(interner, a, nodes, levels)?;
            spend(interner, b, nodes, levels)
        }
        Found::All(_, a) | Found::Ex(_, a) => {
            let nodes = nodes.checked_sub(1)?;
            let levels = levels.checked_sub(1)?;
            spend(interner, a, nodes, levels)
        }
    }
}

// The same for the formula with that number, which is not looked at.
fn spend_interned(interner: &Interner, number: usize, nodes: u32, levels: u32) -> Option<u32>
    ensures within { IfSome result (λ left. (nodes_of (formula_at interner.now number) + left ≡ nodes) × (levels_of (formula_at interner.now number) ≤ levels)) }
    ensures beyond { IfNone result ((nodes < nodes_of (formula_at interner.now number)) ⊎ (levels < levels_of (formula_at interner.now number))) }
{
    let extent = interner.extent(number);
    if extent.levels > levels {
        return None;
    }
    nodes.checked_sub(extent.nodes)
}

// The same for a formula. That it fits is told first, so that no more is counted.
#[tactic(auto, unfolding(formulas::specs::Sorts::fits))]
fn spend_known(a: &Formula, nodes: u32, levels: u32) -> Option<u32>
    requires nodes { nodes ≤ 16384 }
    requires levels { levels ≤ 256 }
    ensures within { IfSome result (λ left. (nodes_of (formula_tree a.now) + left ≡ nodes) × (levels_of (formula_tree a.now) ≤ levels)) }
    ensures beyond { IfNone result ((nodes < nodes_of (formula_tree a.now)) ⊎ (levels < levels_of (formula_tree a.now))) }
{
    if !fits(a) || depth(a) > levels {
        return None;
    }
    nodes.checked_sub(size(a))
}
