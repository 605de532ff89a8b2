//! The type of proof terms.

use ck_base::Sort;
use formulas::Formula;
use sorted_terms::Term;

/// A proof term. `Hyp` is a hypothesis by its index, 0 the newest. `Hole` is a part still to be proved,
/// and has no formula.
#[derive(Drop)]
pub enum Proof {
    Hyp(u32),
    Lam(Formula, Box<Proof>),
    App(Box<Proof>, Box<Proof>),
    Gen(Sort, Box<Proof>),
    Inst(Box<Proof>, Term),
    Pair(Box<Proof>, Box<Proof>),
    First(Box<Proof>),
    Second(Box<Proof>),
    LeftOf(Formula, Box<Proof>),
    RightOf(Formula, Box<Proof>),
    Cases(Box<Proof>, Box<Proof>, Box<Proof>),
    Pack(Sort, Formula, Term, Box<Proof>),
    Unpack(Box<Proof>, Box<Proof>),
    Absurd(Formula, Box<Proof>),
    Stable(Box<Proof>),
    Refl(Term),
    Rewrite(Formula, Box<Proof>, Box<Proof>),
    Axiom(u32),
    Induct(Formula),
    Compute(Term),
    Ring(Term, Term),
    Hole(u32),
}
