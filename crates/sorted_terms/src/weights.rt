//! Two bounds on a term as a polynomial. They are our own.

ghost use Rattle.std.specs.Prelude.{◌≡◌, ◌^◌, min};
ghost use Rattle.sorted_terms.specs.Tree.{term_tree};
ghost use Rattle.sorted_terms.specs.Weights.{term_weight, term_expansions};

use crate::term::Term;

/// Where weights end: 2^127.
const MOST_WEIGHT: u128 = 1 << 127;

/// Where numbers of expansions end.
const MOST_EXPANSIONS: u32 = 1_000_000;

/// The weight of the term, or 2^127 where it is more: no value of a term without names and indices, and no
/// sum of the absolute coefficients of a term's expansion, is above it. It takes no memory.
#[tactic(auto, using(crate::proofs::Saturation::saturated_product))]
pub fn weight(t: &Term) -> u128
    ensures { result ≡ min (term_weight (term_tree t.now)) (2 ^ 127) }
{
    match t {
        Term::Int(n) => n.unsigned_abs().max(1).min(MOST_WEIGHT),
        Term::Var(_) | Term::Bound(_) | Term::Truth(_) => 1,
        Term::Neg(t) | Term::Not(t) => weight(t),
        Term::Mul(s, t) => weight(s).saturating_mul(weight(t)).min(MOST_WEIGHT),
        Term::Add(s, t)
        | Term::Sub(s, t)
        | Term::Eq(s, t)
        | Term::Less(s, t)
        | Term::AtMost(s, t)
        | Term::Both(s, t)
        | Term::Either(s, t) => weight(s).saturating_add(weight(t)).min(MOST_WEIGHT),
    }
}

/// The number of products in the expansion of the term, equal ones counted each, or 1,000,000 where it
/// is more. It takes no memory.
#[tactic(auto, using(crate::proofs::Saturation::saturated_product))]
pub fn expansions(t: &Term) -> u32
    ensures { result ≡ min (term_expansions (term_tree t.now)) 1000000 }
{
    match t {
        Term::Neg(t) => expansions(t),
        Term::Add(s, t) | Term::Sub(s, t) => (expansions(s) + expansions(t)).min(MOST_EXPANSIONS),
        Term::Mul(s, t) => expansions(s)
            .saturating_mul(expansions(t))
            .min(MOST_EXPANSIONS),
        _ => 1,
    }
}
