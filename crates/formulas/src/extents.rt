//! Whether a formula would fit after a substitution, told by counts before it is built.

ghost use Rattle.std.specs.Prelude.{◌≡◌, ◌+◌, ◌^◌, ◌<◌, ◌≤◌, ◌⊎◌, IfSome, IfNone};
ghost use Rattle.sorted_terms.specs.Tree.{term_tree};
ghost use Rattle.sorted_terms.specs.Extents.{IsExtent};
ghost use Rattle.formulas.specs.Tree.{formula_tree};
ghost use Rattle.formulas.specs.Sorts.{size as nodes_of, depth as levels_of, fits as fits_tree};
ghost use Rattle.formulas.specs.Substitution.{instance, replaced};

use crate::formula::Formula;
use ck_base::limits::{FORMULA_DEPTH, FORMULA_NODES};
use sorted_terms::{Extent, Term, extent_of};

/// Whether the formula with `with` in place of index 0 fits. It takes no memory, and looks once at each
/// node of the formula and at each node of the term.
#[tactic(auto, unfolding(crate::specs::Sorts::fits))]
pub fn fits_instance(a: &Formula, with: &Term) -> bool
    ensures { result ≡ fits_tree (instance (formula_tree a.now) (term_tree with.now) 0) }
{
    let extent = extent_of(with);
    spend_instance(a, with, extent, 0, FORMULA_NODES, FORMULA_DEPTH).is_some()
}

/// Whether the formula with `with` in place of the declared name fits. It takes no memory, and looks once
/// at each node of the formula and at each node of the term.
#[tactic(auto, unfolding(crate::specs::Sorts::fits))]
pub fn fits_replace(a: &Formula, name: u32, with: &Term) -> bool
    ensures { result ≡ fits_tree (replaced (formula_tree a.now) name (term_tree with.now) 0) }
{
    let extent = extent_of(with);
    spend_replaced(a, name, with, extent, 0, FORMULA_NODES, FORMULA_DEPTH).is_some()
}

// What is left of `nodes` after those of the instance; `None` where it has more of them, or more than
// `levels` levels.
#[tactic(auto, using(crate::proofs::Sizes::size_positive, crate::proofs::Sizes::depth_positive))]
fn spend_instance(
    a: &Formula,
    with: &Term,
    extent: Option<Extent>,
    at: u32,
    nodes: u32,
    levels: u32,
) -> Option<u32>
    requires extent { IsExtent extent (term_tree with.now) }
    requires nodes { nodes ≤ 16384 }
    requires levels { levels ≤ 256 }
    requires room { at + levels < 2 ^ 32 }
    ensures within { IfSome result (λ left. (nodes_of (instance (formula_tree a.now) (term_tree with.now) at) + left ≡ nodes) × (levels_of (instance (formula_tree a.now) (term_tree with.now) at) ≤ levels)) }
    ensures beyond { IfNone result ((nodes < nodes_of (instance (formula_tree a.now) (term_tree with.now) at)) ⊎ (levels < levels_of (instance (formula_tree a.now) (term_tree with.now) at))) }
{
    let nodes = nodes.checked_sub(1)?;
    let levels = levels.checked_sub(1)?;
    match a {
        Formula::Bottom => Some(nodes),
        Formula::Holds(t) => sorted_terms::spend_instance(t, with, extent, at, nodes, levels),
        Formula::Imp(a, b) | Formula::Conj(a, b) | Formula::Disj(a, b) => {
            let nodes = spend_instance(a, with, extent, at, nodes, levels)?;
            spend_instance(b, with, extent, at, nodes, levels)
        }
        Formula::All(_, a) | Formula::Ex(_, a) => {
            spend_instance(a, with, extent, at + 1, nodes, levels)
        }
    }
}

// The same for a declared name.
#[tactic(auto, using(crate::proofs::Sizes::size_positive, crate::proofs::Sizes::depth_positive))]
fn spend_replaced(
    a: &Formula,
    name: u32,
    with: &Term,
    extent: Option<Extent>,
    under: u32,
    nodes: u32,
    levels: u32,
) -> Option<u32>
    requires extent { IsExtent extent (term_tree with.now) }
    requires nodes { nodes ≤ 16384 }
    requires levels { levels ≤ 256 }
    requires room { under + levels < 2 ^ 32 }
    ensures within { IfSome result (λ left. (nodes_of (replaced (formula_tree a.now) name (term_tree with.now) under) + left ≡ nodes) × (levels_of (replaced (formula_tree a.now) name (term_tree with.now) under) ≤ levels)) }
    ensures beyond { IfNone result ((nodes < nodes_of (replaced (formula_tree a.now) name (term_tree with.now) under)) ⊎ (levels < levels_of (replaced (formula_tree a.now) name (term_tree with.now) under))) }
{
    let nodes = nodes.checked_sub(1)?;
    let levels = levels.checked_sub(1)?;
    match a {
        Formula::Bottom => Some(nodes),
        Formula::Holds(t) => sorted_terms::spend_replaced(
            t, name, with, extent, under, nodes, levels,
        ),
        Formula::Imp(a, b) | Formula::Conj(a, b) | Formula::Disj(a, b) => {
            let nodes = spend_replaced(a, name, with, extent, under, nodes, levels)?;
            spend_replaced(b, name, with, extent, under, nodes, levels)
        }
        Formula::All(_, a) | Formula::Ex(_, a) => {
            spend_replaced(a, name, with, extent, under + 1, nodes, levels)
        }
    }
}
