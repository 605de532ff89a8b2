//! Copies of proofs.

ghost use Rattle.std.specs.Prelude.{◌≡◌, IfOk};
ghost use Rattle.proof_terms.specs.Tree.{proof_tree};

use crate::proof::Proof;
use crate::rules::{as_leaf, with_part, with_three_parts, with_two_parts};
use ck_base::NoMemory;
use std::alloc::Global;

/// A copy of the proof; `NoMemory` where memory for a node was refused.
pub fn copy(alloc: Global, p: &Proof) -> Result<Proof, NoMemory>
    ensures { IfOk result (λ r. proof_tree r ≡ proof_tree p.now) }
{
    match p {
        Proof::Hyp(_)
        | Proof::Refl(_)
        | Proof::Axiom(_)
        | Proof::Induct(_)
        | Proof::Compute(_)
        | Proof::Ring(_, _)
        | Proof::Hole(_) => as_leaf(alloc, p),
        Proof::Lam(_, q)
        | Proof::Gen(_, q)
        | Proof::Inst(q, _)
        | Proof::First(q)
        | Proof::Second(q)
        | Proof::LeftOf(_, q)
        | Proof::RightOf(_, q)
        | Proof::Pack(_, _, _, q)
        | Proof::Absurd(_, q)
        | Proof::Stable(q) => {
            let q = copy(alloc, q)?;
            with_part(alloc, p, q)
        }
        Proof::App(q, r) | Proof::Pair(q, r) | Proof::Unpack(q, r) | Proof::Rewrite(_, q, r) => {
            let q = copy(alloc, q)?;
            let r = copy(alloc, r)?;
            with_two_parts(alloc, p, q, r)
        }
        Proof::Cases(q, r, s) => {
            let q = copy(alloc, q)?;
            let r = copy(alloc, r)?;
            let s = copy(alloc, s)?;
            with_three_parts(alloc, q, r, s)
        }
    }
}
