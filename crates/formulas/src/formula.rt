//! The type of formulas.

use ck_base::Sort;
use sorted_terms::Term;

/// A formula. `Holds` is a term of sort bool as a formula; negation is an implication of `Bottom`. `All`
/// and `Ex` bind index 0 of their part.
#[derive(Drop)]
pub enum Formula {
    Bottom,
    Holds(Term),
    Imp(Box<Formula>, Box<Formula>),
    Conj(Box<Formula>, Box<Formula>),
    Disj(Box<Formula>, Box<Formula>),
    All(Sort, Box<Formula>),
    Ex(Sort, Box<Formula>),
}
