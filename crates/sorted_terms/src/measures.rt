//! Size and depth of terms.

ghost use Rattle.std.specs.Prelude.{◌≡◌, ◌+◌, ◌^◌, ◌<◌, ◌≤◌, ◌⊎◌, IfSome, IfNone};
ghost use Rattle.sorted_terms.specs.Tree.{term_tree};
ghost use Rattle.sorted_terms.specs.Sorts.{term_size, term_depth};

use crate::term::Term;

/// The number of nodes.
pub fn size(t: &Term) -> u32
    requires { term_size (term_tree t.now) < 2 ^ 32 }
    ensures { result ≡ term_size (term_tree t.now) }
{
    match t {
        Term::Var(_) | Term::Bound(_) | Term::Int(_) | Term::Truth(_) => 1,
        Term::Neg(t) | Term::Not(t) => 1 + size(t),
        Term::Add(s, t)
        | Term::Sub(s, t)
        | Term::Mul(s, t)
        | Term::Eq(s, t)
        | Term::Less(s, t)
        | Term::AtMost(s, t)
        | Term::Both(s, t)
        | Term::Either(s, t) => 1 + size(s) + size(t),
    }
}

/// The number of levels: of nodes on the longest path from the root.
#[tactic(auto, using(crate::proofs::Sizes::term_depth_within_size))]
pub fn depth(t: &Term) -> u32
    requires { term_size (term_tree t.now) < 2 ^ 32 }
    ensures { result ≡ term_depth (term_tree t.now) }
{
    match t {
        Term::Var(_) | Term::Bound(_) | Term::Int(_) | Term::Truth(_) => 1,
        Term::Neg(t) | Term::Not(t) => 1 + depth(t),
        Term::Add(s, t)
        | Term::Sub(s, t)
        | Term::Mul(s, t)
        | Term::Eq(s, t)
        | Term::Less(s, t)
        | Term::AtMost(s, t)
        | Term::Both(s, t)
        | Term::Either(s, t) => 1 + depth(s).max(depth(t)),
    }
}

/// What is left of `nodes` after those of the term; `None` where the term has more of them, or more
/// than `levels` levels. It stops at the first node beyond either, and takes no memory.
#[tactic(auto, using(crate::proofs::Sizes::term_size_positive, crate::proofs::Sizes::term_depth_positive))]
pub fn spend(t: &Term, nodes: u32, levels: u32) -> Option<u32>
    ensures within { IfSome result (λ left. (term_size (term_tree t.now) + left ≡ nodes) × (term_depth (term_tree t.now) ≤ levels)) }
    ensures beyond { IfNone result ((nodes < term_size (term_tree t.now)) ⊎ (levels < term_depth (term_tree t.now))) }
{
    let nodes = nodes.checked_sub(1)?;
    let levels = levels.checked_sub(1)?;
    match t {
        Term::Var(_) | Term::Bound(_) | Term::Int(_) | Term::Truth(_) => Some(nodes),
        Term::Neg(t) | Term::Not(t) => spend(t, nodes, levels),
        Term::Add(s, t)
        | Term::Sub(s, t)
        | Term::Mul(s, t)
        | Term::Eq(s, t)
        | Term::Less(s, t)
        | Term::AtMost(s, t)
        | Term::Both(s, t)
        | Term::Either(s, t) => {
            let nodes = spend(s, nodes, levels)?;
            spend(t, nodes, levels)
        }
    }
}
