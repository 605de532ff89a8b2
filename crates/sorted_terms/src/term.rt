//! The type of terms.

/// A term. `Var` is a declared name by its number, `Bound` a bound variable by its de Bruijn index, 0
/// the innermost. Every `Int(n)` has an absolute value of at most 2^127 - 1.
#[derive(Drop)]
pub enum Term {
    Var(u32),
    Bound(u32),
    Int(i128),
    Add(Box<Term>, Box<Term>),
    Sub(Box<Term>, Box<Term>),
    Mul(Box<Term>, Box<Term>),
    Neg(Box<Term>),
    Truth(bool),
    Eq(Box<Term>, Box<Term>),
    Less(Box<Term>, Box<Term>),
    AtMost(Box<Term>, Box<Term>),
    Not(Box<Term>),
    Both(Box<Term>, Box<Term>),
    Either(Box<Term>, Box<Term>),
}
