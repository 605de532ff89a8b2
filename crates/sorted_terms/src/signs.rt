//! The sign of one term, over other parts.

ghost use Rattle.std.specs.Prelude.{◌≡◌, IfOk};
ghost use Rattle.sorted_terms.specs.Tree.{term_tree, IsUnary, IsBinary, with_part as over_part, with_parts as over_parts};

use crate::term::Term;
use ck_base::NoMemory;
use std::alloc::Global;

/// The sign of `t` before another part.
#[inline(never)]
pub fn with_part(alloc: Global, t: &Term, part: Term) -> Result<Term, NoMemory>
    requires { IsUnary (term_tree t.now) }
    ensures { IfOk result (λ r. term_tree r ≡ over_part (term_tree t.now) (term_tree part)) }
{
    let part = Box::new(alloc, part)?;
    match t {
        Term::Neg(_) => Ok(Term::Neg(part)),
        Term::Not(_) => Ok(Term::Not(part)),
        _ => unreachable!(),
    }
}

/// The sign of `t` between two other parts.
#[inline(never)]
pub fn with_parts(alloc: Global, t: &Term, left: Term, right: Term) -> Result<Term, NoMemory>
    requires { IsBinary (term_tree t.now) }
    ensures { IfOk result (λ r. term_tree r ≡ over_parts (term_tree t.now) (term_tree left) (term_tree right)) }
{
    let left = Box::new(alloc, left)?;
    let right = Box::new(alloc, right)?;
    match t {
        Term::Add(_, _) => Ok(Term::Add(left, right)),
        Term::Sub(_, _) => Ok(Term::Sub(left, right)),
        Term::Mul(_, _) => Ok(Term::Mul(left, right)),
        Term::Eq(_, _) => Ok(Term::Eq(left, right)),
        Term::Less(_, _) => Ok(Term::Less(left, right)),
        Term::AtMost(_, _) => Ok(Term::AtMost(left, right)),
        Term::Both(_, _) => Ok(Term::Both(left, right)),
        Term::Either(_, _) => Ok(Term::Either(left, right)),
        _ => unreachable!(),
    }
}
