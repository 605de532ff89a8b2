//! Size and depth of formulas, and which formulas fit.

ghost use Rattle.std.specs.Prelude.{◌≡◌, ◌+◌, ◌^◌, ◌<◌, ◌≤◌, ◌⊎◌, IfSome, IfNone};
ghost use Rattle.formulas.specs.Tree.{formula_tree};
ghost use Rattle.formulas.specs.Sorts.{size as nodes_of, depth as levels_of, fits as fits_tree};

use crate::formula::Formula;
use ck_base::limits::{FORMULA_DEPTH, FORMULA_NODES};

/// The number of formula and term nodes.
pub fn size(a: &Formula) -> u32
    requires { nodes_of (formula_tree a.now) < 2 ^ 32 }
    ensures { result ≡ nodes_of (formula_tree a.now) }
{
    match a {
        Formula::Bottom => 1,
        Formula::Holds(t) => 1 + sorted_terms::size(t),
        Formula::Imp(a, b) | Formula::Conj(a, b) | Formula::Disj(a, b) => 1 + size(a) + size(b),
        Formula::All(_, a) | Formula::Ex(_, a) => 1 + size(a),
    }
}

/// The number of levels: of nodes on the longest path from the root.
#[tactic(auto, using(crate::proofs::Sizes::depth_within_size, sorted_terms::proofs::Sizes::term_depth_within_size))]
pub fn depth(a: &Formula) -> u32
    requires { nodes_of (formula_tree a.now) < 2 ^ 32 }
    ensures { result ≡ levels_of (formula_tree a.now) }
{
    match a {
        Formula::Bottom => 1,
        Formula::Holds(t) => 1 + sorted_terms::depth(t),
        Formula::Imp(a, b) | Formula::Conj(a, b) | Formula::Disj(a, b) => {
            1 + depth(a).max(depth(b))
        }
        Formula::All(_, a) | Formula::Ex(_, a) => 1 + depth(a),
    }
}

/// Whether the formula fits: it has at most 16,384 nodes and 256 levels. It stops at the first node
/// beyond either, and takes no memory.
#[tactic(auto, unfolding(crate::specs::Sorts::fits))]
pub fn fits(a: &Formula) -> bool
    ensures { result ≡ fits_tree (formula_tree a.now) }
{
    spend(a, FORMULA_NODES, FORMULA_DEPTH).is_some()
}

/// What is left of `nodes` after those of the formula; `None` where it has more of them, or more than
/// `levels` levels.
#[tactic(auto, using(crate::proofs::Sizes::size_positive, crate::proofs::Sizes::depth_positive))]
fn spend(a: &Formula, nodes: u32, levels: u32) -> Option<u32>
    ensures within { IfSome result (λ left. (nodes_of (formula_tree a.now) + left ≡ nodes) × (levels_of (formula_tree a.now) ≤ levels)) }
    ensures beyond { IfNone result ((nodes < nodes_of (formula_tree a.now)) ⊎ (levels < levels_of (formula_tree a.now))) }
{
    let nodes = nodes.checked_sub(1)?;
    let levels = levels.checked_sub(1)?;
    match a {
        Formula::Bottom => Some(nodes),
        Formula::Holds(t) => sorted_terms::spend(t, nodes, levels),
        Formula::Imp(a, b) | Formula::Conj(a, b) | Formula::Disj(a, b) => {
            let nodes = spend(a, nodes, levels)?;
            spend(b, nodes, levels)
        }
        Formula::All(_, a) | Formula::Ex(_, a) => spend(a, nodes, levels),
    }
}
