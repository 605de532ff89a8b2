//! Size and depth of proofs.

ghost use Rattle.std.specs.Prelude.{◌≡◌, ◌<◌, ◌^◌};
ghost use Rattle.proof_terms.specs.Tree.{proof_tree};
ghost use Rattle.proof_terms.specs.Size.{proof_size, proof_depth};

use crate::proof::Proof;

/// The number of proof, formula and term nodes. It takes no memory.
pub fn size(p: &Proof) -> u32
    requires { proof_size (proof_tree p.now) < 2 ^ 32 }
    ensures { result ≡ proof_size (proof_tree p.now) }
{
    match p {
        Proof::Hyp(_) | Proof::Axiom(_) | Proof::Hole(_) => 1,
        Proof::Refl(t) | Proof::Compute(t) => 1 + sorted_terms::size(t),
        Proof::Ring(s, t) => 1 + sorted_terms::size(s) + sorted_terms::size(t),
        Proof::Induct(a) => 1 + formulas::size(a),
        Proof::Gen(_, p) | Proof::First(p) | Proof::Second(p) | Proof::Stable(p) => 1 + size(p),
        Proof::Inst(p, t) => 1 + size(p) + sorted_terms::size(t),
        Proof::Lam(a, p) | Proof::LeftOf(a, p) | Proof::RightOf(a, p) | Proof::Absurd(a, p) => {
            1 + formulas::size(a) + size(p)
        }
        Proof::Pack(_, a, t, p) => 1 + formulas::size(a) + sorted_terms::size(t) + size(p),
        Proof::App(p, q) | Proof::Pair(p, q) | Proof::Unpack(p, q) => 1 + size(p) + size(q),
        Proof::Rewrite(a, p, q) => 1 + formulas::size(a) + size(p) + size(q),
        Proof::Cases(p, q, r) => 1 + size(p) + size(q) + size(r),
    }
}

/// The number of levels: of proof nodes on the longest path from the root. It takes no memory.
#[tactic(auto, using(crate::proofs::Sizes::depth_within_size))]
pub fn depth(p: &Proof) -> u32
    requires { proof_size (proof_tree p.now) < 2 ^ 32 }
    ensures { result ≡ proof_depth (proof_tree p.now) }
{
    match p {
        Proof::Hyp(_)
        | Proof::Refl(_)
        | Proof::Axiom(_)
        | Proof::Induct(_)
        | Proof::Compute(_)
        | Proof::Ring(_, _)
        | Proof::Hole(_) => 1,
        Proof::Lam(_, p)
        | Proof::Gen(_, p)
        | Proof::Inst(p, _)
        | Proof::First(p)
        | Proof::Second(p)
        | Proof::LeftOf(_, p)
        | Proof::RightOf(_, p)
        | Proof::Pack(_, _, _, p)
        | Proof::Absurd(_, p)
        | Proof::Stable(p) => 1 + depth(p),
        Proof::App(p, q) | Proof::Pair(p, q) | Proof::Unpack(p, q) | Proof::Rewrite(_, p, q) => {
            1 + depth(p).max(depth(q))
        }
        Proof::Cases(p, q, r) => 1 + depth(p).max(depth(q).max(depth(r))),
    }
}
