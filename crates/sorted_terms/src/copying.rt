//! Copies of terms, and whether two terms are the same.

ghost use Rattle.std.specs.Prelude.{◌≡◌, ◌↔◌, ◌^◌, IsTrue, IfOk, OnOk};
ghost use Rattle.sorted_terms.specs.Tree.{term_tree};
ghost use Rattle.sorted_terms.specs.Substitution.{HasTermIndicesBelow};

use crate::signs::{with_part, with_parts};
use crate::term::Term;
use ck_base::NoMemory;
use std::alloc::Global;

/// A copy of the term, whose indices are words of 32 bits; `NoMemory` where memory for a node was refused.
pub fn copy(alloc: Global, t: &Term) -> Result<Term, NoMemory>
    ensures copy { IfOk result (λ r. term_tree r ≡ term_tree t.now) }
    ensures words { OnOk result (HasTermIndicesBelow (2 ^ 32) (term_tree t.now)) }
{
    match t {
        Term::Var(x) => Ok(Term::Var(*x)),
        Term::Bound(k) => Ok(Term::Bound(*k)),
        Term::Int(n) => Ok(Term::Int(*n)),
        Term::Truth(b) => Ok(Term::Truth(*b)),
        Term::Neg(part) | Term::Not(part) => {
            let part = copy(alloc, part)?;
            with_part(alloc, t, part)
        }
        Term::Add(left, right)
        | Term::Sub(left, right)
        | Term::Mul(left, right)
        | Term::Eq(left, right)
        | Term::Less(left, right)
        | Term::AtMost(left, right)
        | Term::Both(left, right)
        | Term::Either(left, right) => {
            let left = copy(alloc, left)?;
            let right = copy(alloc, right)?;
            with_parts(alloc, t, left, right)
        }
    }
}

/// Whether two terms are the same. It takes no memory.
pub fn same(a: &Term, b: &Term) -> bool
    ensures { IsTrue result ↔ (term_tree a.now ≡ term_tree b.now) }
{
    match (a, b) {
        (Term::Var(x), Term::Var(y)) => *x == *y,
        (Term::Bound(j), Term::Bound(k)) => *j == *k,
        (Term::Int(m), Term::Int(n)) => *m == *n,
        (Term::Add(s, t), Term::Add(u, v)) => same(s, u) && same(t, v),
        (Term::Sub(s, t), Term::Sub(u, v)) => same(s, u) && same(t, v),
        (Term::Mul(s, t), Term::Mul(u, v)) => same(s, u) && same(t, v),
        (Term::Neg(t), Term::Neg(v)) => same(t, v),
        (Term::Truth(c), Term::Truth(d)) => *c == *d,
        (Term::Eq(s, t), Term::Eq(u, v)) => same(s, u) && same(t, v),
        (Term::Less(s, t), Term::Less(u, v)) => same(s, u) && same(t, v),
        (Term::AtMost(s, t), Term::AtMost(u, v)) => same(s, u) && same(t, v),
        (Term::Not(t), Term::Not(v)) => same(t, v),
        (Term::Both(s, t), Term::Both(u, v)) => same(s, u) && same(t, v),
        (Term::Either(s, t), Term::Either(u, v)) => same(s, u) && same(t, v),
        _ => false,
    }
}
