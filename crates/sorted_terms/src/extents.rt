//! How large a term would be after a substitution, told by counts before it is built.

ghost use Rattle.std.specs.Prelude.{◌≡◌, ◌+◌, ◌<◌, ◌≤◌, ◌⊎◌, IfSome, IfNone, IsSome};
ghost use Rattle.sorted_terms.specs.Tree.{term_tree};
ghost use Rattle.sorted_terms.specs.Sorts.{term_size, term_depth};
ghost use Rattle.sorted_terms.specs.Substitution.{instance_term, replace_term};
ghost use Rattle.sorted_terms.specs.Extents.{IsExtent};

use crate::measures::{depth, size, spend};
use crate::term::Term;
use ck_base::limits::{FORMULA_DEPTH, FORMULA_NODES};

/// How large a term that fits is.
#[derive(Clone, Copy, Debug)]
pub struct Extent {
    pub nodes: u32,
    pub levels: u32,
}

/// How large the term is; `None` where it has more than 16,384 nodes or 256 levels. It takes no memory.
pub fn extent_of(t: &Term) -> Option<Extent>
    ensures { IsExtent result (term_tree t.now) }
{
    spend(t, FORMULA_NODES, FORMULA_DEPTH)?;
    Some(Extent {
        nodes: size(t),
        levels: depth(t),
    })
}

/// What is left of `nodes` after those of `t` with `with` in place of index `at`, where `extent` is how
/// large `with` is; `None` where that term has more of them, or more than `levels` levels. It takes no
/// memory, and its time does not depend on how large `with` is.
#[tactic(auto, using(crate::proofs::Sizes::shift_keeps_size, crate::proofs::Sizes::shift_keeps_depth, crate::proofs::Sizes::term_size_positive, crate::proofs::Sizes::term_depth_positive))]
pub fn spend_instance(
    t: &Term,
    with: &Term,
    extent: Option<Extent>,
    at: u32,
    nodes: u32,
    levels: u32,
) -> Option<u32>
    requires extent { IsExtent extent (term_tree with.now) }
    requires nodes { nodes ≤ 16384 }
    requires levels { levels ≤ 256 }
    ensures within { IfSome result (λ left. (term_size (instance_term (term_tree t.now) (term_tree with.now) at) + left ≡ nodes) × (term_depth (instance_term (term_tree t.now) (term_tree with.now) at) ≤ levels)) }
    ensures beyond { IfNone result ((nodes < term_size (instance_term (term_tree t.now) (term_tree with.now) at)) ⊎ (levels < term_depth (instance_term (term_tree t.now) (term_tree with.now) at))) }
{
    match t {
        Term::Bound(k) if *k == at => spend_extent(extent, nodes, levels),
        Term::Var(_) | Term::Bound(_) | Term::Int(_) | Term::Truth(_) => spend_leaf(nodes, levels),
        Term::Neg(t) | Term::Not(t) => {
            let nodes = nodes.checked_sub(1)?;
            let levels = levels.checked_sub(1)?;
            spend_instance(t, with, extent, at, nodes, levels)
        }
        Term::Add(s, t)
        | Term::Sub(s, t)
        | Term::Mul(s, t)
        | Term::Eq(s, t)
        | Term::Less(s, t)
        | Term::AtMost(s, t)
        | Term::Both(s, t)
        | Term::Either(s, t) => {
            let nodes = nodes.checked_sub(1)?;
            let levels = levels.checked_sub(1)?;
            let nodes = spend_instance(s, with, extent, at, nodes, levels)?;
            spend_instance(t, with, extent, at, nodes, levels)
        }
    }
}

/// The same for `t` with `with` in place of the declared name.
#[tactic(auto, using(crate::proofs::Sizes::shift_keeps_size, crate::proofs::Sizes::shift_keeps_depth, crate::proofs::Sizes::term_size_positive, crate::proofs::Sizes::term_depth_positive))]
pub fn spend_replaced(
    t: &Term,
    name: u32,
    with: &Term,
    extent: Option<Extent>,
    under: u32,
    nodes: u32,
    levels: u32,
) -> Option<u32>
    requires extent { IsExtent extent (term_tree with.now) }
    requires nodes { nodes ≤ 16384 }
    requires levels { levels ≤ 256 }
    ensures within { IfSome result (λ left. (term_size (replace_term (term_tree t.now) name (term_tree with.now) under) + left ≡ nodes) × (term_depth (replace_term (term_tree t.now) name (term_tree with.now) under) ≤ levels)) }
    ensures beyond { IfNone result ((nodes < term_size (replace_term (term_tree t.now) name (term_tree with.now) under)) ⊎ (levels < term_depth (replace_term (term_tree t.now) name (term_tree with.now) under))) }
{
    match t {
        Term::Var(x) if *x == name => spend_extent(extent, nodes, levels),
        Term::Var(_) | Term::Bound(_) | Term::Int(_) | Term::Truth(_) => spend_leaf(nodes, levels),
        Term::Neg(t) | Term::Not(t) => {
            let nodes = nodes.checked_sub(1)?;
            let levels = levels.checked_sub(1)?;
            spend_replaced(t, name, with, extent, under, nodes, levels)
        }
        Term::Add(s, t)
        | Term::Sub(s, t)
        | Term::Mul(s, t)
        | Term::Eq(s, t)
        | Term::Less(s, t)
        | Term::AtMost(s, t)
        | Term::Both(s, t)
        | Term::Either(s, t) => {
            let nodes = nodes.checked_sub(1)?;
            let levels = levels.checked_sub(1)?;
            let nodes = spend_replaced(s, name, with, extent, under, nodes, levels)?;
            spend_replaced(t, name, with, extent, under, nodes, levels)
        }
    }
}

/// What is left of `nodes` after one node; `None` where there is none, or no level for it.
fn spend_leaf(nodes: u32, levels: u32) -> Option<u32>
    ensures within { IfSome result (λ left. (1 + left ≡ nodes) × (1 ≤ levels)) }
    ensures beyond { IfNone result ((nodes < 1) ⊎ (levels < 1)) }
{
    levels.checked_sub(1)?;
    nodes.checked_sub(1)
}

/// What is left of `nodes` after those of the extent; `None` where it has more, or more levels, or is of a
/// term that does not fit.
fn spend_extent(extent: Option<Extent>, nodes: u32, levels: u32) -> Option<u32>
    ensures within { IfSome result (λ left. IfSome extent (λ e. (e.nodes + left ≡ nodes) × (e.levels ≤ levels))) }
    ensures some { IfSome result (λ _. IsSome extent) }
    ensures beyond { IfNone result (IfSome extent (λ e. (nodes < e.nodes) ⊎ (levels < e.levels))) }
{
    let extent = extent?;
    levels.checked_sub(extent.levels)?;
    nodes.checked_sub(extent.nodes)
}
