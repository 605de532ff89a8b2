//! How many nodes a proof has.

ghost use Rattle.std.specs.Prelude.{◌≡◌, ◌<◌, ◌^◌};
ghost use Rattle.proof_terms.specs.Tree.{proof_tree};
ghost use Rattle.type_checker.specs.Place.{proof_nodes};

use proof_terms::Proof;

/// The number of proof nodes; formula and term nodes are not counted.
pub fn nodes(p: &Proof) -> u32
    requires { proof_nodes (proof_tree p.now) < 2 ^ 32 }
    ensures { result ≡ proof_nodes (proof_tree p.now) }
{
    match p {
        Proof::Hyp(_)
        | Proof::Refl(_)
        | Proof::Axiom(_)
        | Proof::Induct(_)
        | Proof::Compute(_)
        | Proof::Ring(_, _)
        | Proof::Hole(_) => 1,
        Proof::Lam(_, p)
        | Proof::Gen(_, p)
        | Proof::Inst(p, _)
        | Proof::First(p)
        | Proof::Second(p)
        | Proof::LeftOf(_, p)
        | Proof::RightOf(_, p)
        | Proof::Pack(_, _, _, p)
        | Proof::Absurd(_, p)
        | Proof::Stable(p) => 1 + nodes(p),
        Proof::App(p, q) | Proof::Pair(p, q) | Proof::Unpack(p, q) | Proof::Rewrite(_, p, q) => 1
            + nodes(p)
            + nodes(q),
        Proof::Cases(p, q, r) => 1 + nodes(p) + nodes(q) + nodes(r),
    }
}
