//! The holes of a proof, and the path of one.

ghost use Rattle.std.specs.Prelude.{◌≡◌, ◌∷◌, ◌++◌, ◌≤◌, Some, reverse, OnOk, IfOk, IfSome, IfNone};
ghost use Rattle.proof_terms.specs.Tree.{proof_tree, hole};
ghost use Rattle.proof_terms.specs.Holes.{holes_of, hole_count};
ghost use Rattle.proof_terms.specs.Paths.{at_path};

use crate::proof::Proof;
use ck_base::{List, NoMemory};
use std::alloc::Global;

/// The numbers of the holes, in preorder; `NoMemory` where memory for the list was refused.
pub fn holes(alloc: Global, p: &Proof) -> Result<List<u32>, NoMemory>
    ensures { IfOk result (λ r. r ≡ holes_of (proof_tree p.now)) }
{
    let mut found = List::new(alloc);
    add_holes(p, &mut found)?;
    Ok(found)
}

#[tactic(auto, using(crate::proofs::Joined::joined_nil, crate::proofs::Joined::joined_twice, crate::proofs::Joined::joined_thrice))]
fn add_holes(p: &Proof, found: &mut List<u32>) -> Result<(), NoMemory>
    ensures { OnOk result (found.new ≡ found.old ++ holes_of (proof_tree p.now)) }
{
    match p {
        Proof::Hole(k) => found.push(*k),
        Proof::Lam(_, q)
        | Proof::Gen(_, q)
        | Proof::Inst(q, _)
        | Proof::First(q)
        | Proof::Second(q)
        | Proof::LeftOf(_, q)
        | Proof::RightOf(_, q)
        | Proof::Pack(_, _, _, q)
        | Proof::Absurd(_, q)
        | Proof::Stable(q) => add_holes(q, found),
        Proof::App(q, r) | Proof::Pair(q, r) | Proof::Unpack(q, r) | Proof::Rewrite(_, q, r) => {
            add_holes(q, found)?;
            add_holes(r, found)
        }
        Proof::Cases(q, r, s) => {
            add_holes(q, found)?;
            add_holes(r, found)?;
            add_holes(s, found)
        }
        Proof::Hyp(_)
        | Proof::Refl(_)
        | Proof::Axiom(_)
        | Proof::Induct(_)
        | Proof::Compute(_)
        | Proof::Ring(_, _) => Ok(()),
    }
}

/// The path of hole `k`, which `p` has at most once; `None` exactly where `p` has no hole `k`, and
/// `NoMemory` where memory for the path was refused.
#[tactic(auto, using(crate::proofs::Reached::one_hole))]
pub fn path_to(alloc: Global, p: &Proof, k: u32) -> Result<Option<List<u8>>, NoMemory>
    requires { hole_count (proof_tree p.now) k ≤ 1 }
    ensures path { IfOk result (λ r. IfSome r (λ path. at_path (proof_tree p.now) path ≡ Some (hole k))) }
    ensures had { IfOk result (λ r. IfSome r (λ path. hole_count (proof_tree p.now) k ≡ 1)) }
    ensures missed { IfOk result (λ r. IfNone r (hole_count (proof_tree p.now) k ≡ 0)) }
{
    match climbed(alloc, p, k)? {
        Some(path) => Ok(Some(reversed(alloc, path)?)),
        None => Ok(None),
    }
}

// The path of the first hole `k`, its last number first.
#[tactic(auto, using(crate::proofs::Joined::no_more))]
fn climbed(alloc: Global, p: &Proof, k: u32) -> Result<Option<List<u8>>, NoMemory>
    ensures path { IfOk result (λ r. IfSome r (λ path. at_path (proof_tree p.now) (reverse path) ≡ Some (hole k))) }
    ensures missed { IfOk result (λ r. IfNone r (hole_count (proof_tree p.now) k ≡ 0)) }
{
    match p {
        Proof::Hole(n) => {
            if *n != k {
                return Ok(None);
            }
            Ok(Some(List::new(alloc)))
        }
        Proof::Lam(_, q)
        | Proof::Gen(_, q)
        | Proof::Inst(q, _)
        | Proof::First(q)
        | Proof::Second(q)
        | Proof::LeftOf(_, q)
        | Proof::RightOf(_, q)
        | Proof::Pack(_, _, _, q)
        | Proof::Absurd(_, q)
        | Proof::Stable(q) => match climbed(alloc, q, k)? {
            Some(path) => Ok(Some(longer(path, 0)?)),
            None => Ok(None),
        },
        Proof::App(q, r) | Proof::Pair(q, r) | Proof::Unpack(q, r) | Proof::Rewrite(_, q, r) => {
            if let Some(path) = climbed(alloc, q, k)? {
                return Ok(Some(longer(path, 0)?));
            }
            match climbed(alloc, r, k)? {
                Some(path) => Ok(Some(longer(path, 1)?)),
                None => Ok(None),
            }
        }
        Proof::Cases(q, r, s) => {
            if let Some(path) = climbed(alloc, q, k)? {
                return Ok(Some(longer(path, 0)?));
            }
            if let Some(path) = climbed(alloc, r, k)? {
                return Ok(Some(longer(path, 1)?));
            }
            match climbed(alloc, s, k)? {
                Some(path) => Ok(Some(longer(path, 2)?)),
                None => Ok(None),
            }
        }
        Proof::Hyp(_)
        | Proof::Refl(_)
        | Proof::Axiom(_)
        | Proof::Induct(_)
        | Proof::Compute(_)
        | Proof::Ring(_, _) => Ok(None),
    }
}

#[inline(never)]
#[tactic(auto, using(crate::proofs::Joined::reverse_longer))]
fn longer(path: List<u8>, i: u8) -> Result<List<u8>, NoMemory>
    ensures { IfOk result (λ r. reverse r ≡ i ∷ reverse path) }
{
    let mut path = path;
    path.push(i)?;
    Ok(path)
}

#[tactic(auto, using(crate::proofs::Joined::reverse_longer, crate::proofs::Joined::joined_nil))]
fn reversed(alloc: Global, path: List<u8>) -> Result<List<u8>, NoMemory>
    ensures { IfOk result (λ r. r ≡ reverse path) }
{
    let mut left = path;
    let mut forward = List::new(alloc);
    while let Some(i) = left.pop() {
        forward.push(i)?;
    }
    Ok(forward)
}
