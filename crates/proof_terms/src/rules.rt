//! The rule of one proof node, copied over other parts.

ghost use Rattle.std.specs.Prelude.{◌≡◌, [], ◌∷◌, length, IfOk};
ghost use Rattle.proof_terms.specs.Tree.{proof_tree, by_cases};
ghost use Rattle.proof_terms.specs.Paths.{parts, with_parts};

use crate::proof::Proof;
use ck_base::NoMemory;
use std::alloc::Global;

/// A copy of a proof without parts.
#[inline(never)]
pub fn as_leaf(alloc: Global, p: &Proof) -> Result<Proof, NoMemory>
    requires { length (parts (proof_tree p.now)) ≡ 0 }
    ensures { IfOk result (λ r. proof_tree r ≡ proof_tree p.now) }
{
    match p {
        Proof::Hyp(i) => Ok(Proof::Hyp(*i)),
        Proof::Axiom(n) => Ok(Proof::Axiom(*n)),
        Proof::Hole(k) => Ok(Proof::Hole(*k)),
        Proof::Refl(t) => Ok(Proof::Refl(sorted_terms::copy(alloc, t)?)),
        Proof::Compute(t) => Ok(Proof::Compute(sorted_terms::copy(alloc, t)?)),
        Proof::Ring(s, t) => {
            let s = sorted_terms::copy(alloc, s)?;
            let t = sorted_terms::copy(alloc, t)?;
            Ok(Proof::Ring(s, t))
        }
        Proof::Induct(a) => Ok(Proof::Induct(formulas::copy(alloc, a)?)),
        _ => unreachable!(),
    }
}

/// The rule of `p` over another part.
#[inline(never)]
pub fn with_part(alloc: Global, p: &Proof, q: Proof) -> Result<Proof, NoMemory>
    requires { length (parts (proof_tree p.now)) ≡ 1 }
    ensures { IfOk result (λ r. proof_tree r ≡ with_parts (proof_tree p.now) (proof_tree q ∷ [])) }
{
    let q = Box::new(alloc, q)?;
    match p {
        Proof::Lam(a, _) => Ok(Proof::Lam(formulas::copy(alloc, a)?, q)),
        Proof::Gen(s, _) => Ok(Proof::Gen(*s, q)),
        Proof::Inst(_, t) => Ok(Proof::Inst(q, sorted_terms::copy(alloc, t)?)),
        Proof::First(_) => Ok(Proof::First(q)),
        Proof::Second(_) => Ok(Proof::Second(q)),
        Proof::LeftOf(b, _) => Ok(Proof::LeftOf(formulas::copy(alloc, b)?, q)),
        Proof::RightOf(a, _) => Ok(Proof::RightOf(formulas::copy(alloc, a)?, q)),
        Proof::Pack(s, a, t, _) => {
            let a = formulas::copy(alloc, a)?;
            let t = sorted_terms::copy(alloc, t)?;
            Ok(Proof::Pack(*s, a, t, q))
        }
        Proof::Absurd(a, _) => Ok(Proof::Absurd(formulas::copy(alloc, a)?, q)),
        Proof::Stable(_) => Ok(Proof::Stable(q)),
        _ => unreachable!(),
    }
}

/// The rule of `p` over two other parts.
#[inline(never)]
pub fn with_two_parts(alloc: Global, p: &Proof, q: Proof, r: Proof) -> Result<Proof, NoMemory>
    requires { length (parts (proof_tree p.now)) ≡ 2 }
    ensures { IfOk result (λ n. proof_tree n ≡ with_parts (proof_tree p.now) (proof_tree q ∷ proof_tree r ∷ [])) }
{
    let q = Box::new(alloc, q)?;
    let r = Box::new(alloc, r)?;
    match p {
        Proof::App(_, _) => Ok(Proof::App(q, r)),
        Proof::Pair(_, _) => Ok(Proof::Pair(q, r)),
        Proof::Unpack(_, _) => Ok(Proof::Unpack(q, r)),
        Proof::Rewrite(a, _, _) => Ok(Proof::Rewrite(formulas::copy(alloc, a)?, q, r)),
        _ => unreachable!(),
    }
}

/// The rule for cases over three parts.
#[inline(never)]
pub fn with_three_parts(alloc: Global, q: Proof, r: Proof, s: Proof) -> Result<Proof, NoMemory>
    ensures { IfOk result (λ n. proof_tree n ≡ by_cases (proof_tree q) (proof_tree r) (proof_tree s)) }
{
    let q = Box::new(alloc, q)?;
    let r = Box::new(alloc, r)?;
    let s = Box::new(alloc, s)?;
    Ok(Proof::Cases(q, r, s))
}
