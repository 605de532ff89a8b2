//! Filling a hole of a proof, and taking a part out again.

ghost use Rattle.std.specs.Prelude.{◌≡◌, ◌≤◌, Some, None, OnOk, IfErr, IsSome, IsTrue, IsFalse};
ghost use Rattle.proof_terms.specs.Tree.{proof_tree};
ghost use Rattle.proof_terms.specs.Holes.{filled, hole_count};
ghost use Rattle.proof_terms.specs.Paths.{at_path, put_at, holed};
ghost use Rattle.proof_terms.specs.Search.{first_filled};

use crate::proof::Proof;
use ck_base::List;
use std::mem;

/// Puts the fragment in the place of hole `k`, which `p` has at most once. Where `p` has no hole `k`, it
/// stays as it is, and the fragment is handed back. It takes no memory.
#[tactic(auto, using(crate::proofs::Filled::had_one, crate::proofs::Filled::gave_filled, crate::proofs::Filled::had_none))]
pub fn fill(p: &mut Proof, k: u32, fragment: Proof) -> Result<(), Proof>
    requires { hole_count (proof_tree p.old) k ≤ 1 }
    ensures had { OnOk result (hole_count (proof_tree p.old) k ≡ 1) }
    ensures filled { OnOk result (proof_tree p.new ≡ filled (proof_tree p.old) k (proof_tree fragment)) }
    ensures missed { IfErr result (λ f. hole_count (proof_tree p.old) k ≡ 0) }
    ensures unchanged { IfErr result (λ f. proof_tree p.new ≡ proof_tree p.old) }
    ensures back { IfErr result (λ f. f ≡ fragment) }
{
    let mut fragment = fragment;
    if fill_first(p, k, &mut fragment) {
        Ok(())
    } else {
        Err(fragment)
    }
}

// Puts the fragment in the place of the first hole `k`, and tells whether there is one. The hole is then
// what is left of the fragment.
fn fill_first(p: &mut Proof, k: u32, fragment: &mut Proof) -> bool
    ensures filled { IsTrue result → first_filled (proof_tree p.old) k (proof_tree fragment.old) ≡ Some (proof_tree p.new) }
    ensures missed { IsFalse result → first_filled (proof_tree p.old) k (proof_tree fragment.old) ≡ None }
    ensures unchanged { IsFalse result → proof_tree p.new ≡ proof_tree p.old }
    ensures back { IsFalse result → fragment.new ≡ fragment.old }
{
    match p {
        Proof::Hole(n) => {
            if *n != k {
                return false;
            }
            mem::swap(p, fragment);
            true
        }
        Proof::Lam(_, q) => fill_first(q, k, fragment),
        Proof::App(q, r) => fill_first(q, k, fragment) || fill_first(r, k, fragment),
        Proof::Gen(_, q) => fill_first(q, k, fragment),
        Proof::Inst(q, _) => fill_first(q, k, fragment),
        Proof::Pair(q, r) => fill_first(q, k, fragment) || fill_first(r, k, fragment),
        Proof::First(q) => fill_first(q, k, fragment),
        Proof::Second(q) => fill_first(q, k, fragment),
        Proof::LeftOf(_, q) => fill_first(q, k, fragment),
        Proof::RightOf(_, q) => fill_first(q, k, fragment),
        Proof::Cases(q, r, s) => {
            fill_first(q, k, fragment) || fill_first(r, k, fragment) || fill_first(s, k, fragment)
        }
        Proof::Pack(_, _, _, q) => fill_first(q, k, fragment),
        Proof::Unpack(q, r) => fill_first(q, k, fragment) || fill_first(r, k, fragment),
        Proof::Absurd(_, q) => fill_first(q, k, fragment),
        Proof::Stable(q) => fill_first(q, k, fragment),
        Proof::Rewrite(_, q, r) => fill_first(q, k, fragment) || fill_first(r, k, fragment),
        _ => false,
    }
}

/// Puts hole `k` at the path, which names a node of `p`, and answers what stood there. It takes no memory.
pub fn unfill(p: &mut Proof, path: &List<u8>, k: u32) -> Proof
    requires { IsSome (at_path (proof_tree p.old) path.now) }
    ensures former { at_path (proof_tree p.old) path.now ≡ Some (proof_tree result) }
    ensures holed { proof_tree p.new ≡ holed (proof_tree p.old) path.now k }
{
    let mut other = Proof::Hole(k);
    swap_at(p, path.as_slice(), &mut other);
    other
}

/// Puts the other proof at the path, which names a node of `p`, and what stood there in its place. It takes
/// no memory.
#[tactic(auto, using(crate::proofs::Reached::few_numbers))]
pub fn swap_at(p: &mut Proof, path: &[u8], other: &mut Proof)
    requires { IsSome (at_path (proof_tree p.old) path.now) }
    ensures former { at_path (proof_tree p.old) path.now ≡ Some (proof_tree other.new) }
    ensures put { proof_tree p.new ≡ put_at (proof_tree p.old) path.now (proof_tree other.old) }
{
    let [i, rest @ ..] = path else {
        mem::swap(p, other);
        return;
    };
    match *i {
        0 => match p {
            Proof::Lam(_, q) => swap_at(q, rest, other),
            Proof::App(q, _) => swap_at(q, rest, other),
            Proof::Gen(_, q) => swap_at(q, rest, other),
            Proof::Inst(q, _) => swap_at(q, rest, other),
            Proof::Pair(q, _) => swap_at(q, rest, other),
            Proof::First(q) => swap_at(q, rest, other),
            Proof::Second(q) => swap_at(q, rest, other),
            Proof::LeftOf(_, q) => swap_at(q, rest, other),
            Proof::RightOf(_, q) => swap_at(q, rest, other),
            Proof::Cases(q, _, _) => swap_at(q, rest, other),
            Proof::Pack(_, _, _, q) => swap_at(q, rest, other),
            Proof::Unpack(q, _) => swap_at(q, rest, other),
            Proof::Absurd(_, q) => swap_at(q, rest, other),
            Proof::Stable(q) => swap_at(q, rest, other),
            Proof::Rewrite(_, q, _) => swap_at(q, rest, other),
            _ => unreachable!(),
        },
        1 => match p {
            Proof::App(_, r) => swap_at(r, rest, other),
            Proof::Pair(_, r) => swap_at(r, rest, other),
            Proof::Cases(_, r, _) => swap_at(r, rest, other),
            Proof::Unpack(_, r) => swap_at(r, rest, other),
            Proof::Rewrite(_, _, r) => swap_at(r, rest, other),
            _ => unreachable!(),
        },
        2 => match p {
            Proof::Cases(_, _, s) => swap_at(s, rest, other),
            _ => unreachable!(),
        },
        _ => unreachable!(),
    }
}
