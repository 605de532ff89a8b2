//! Whether an index passes 2^32 - 1 in what substitution gives, asked before each call.

ghost use Rattle.std.specs.Prelude.{◌≡◌, ◌^◌, true};
ghost use Rattle.sorted_terms.specs.Tree.{term_tree};
ghost use Rattle.sorted_terms.specs.Substitution.{HasTermIndicesBelow, instance_term, replace_term, shift_term};
ghost use Rattle.formulas.specs.Tree.{formula_tree};
ghost use Rattle.formulas.specs.Substitution.{HasIndicesBelow, instance, replaced, shift as shifted};

use formulas::Formula;
use sorted_terms::Term;

/// Whether each index of the shifted term is a word of 32 bits.
pub(crate) fn shifts_term(t: &Term, by: u32, above: u32) -> bool
    ensures { result ≡ true → HasTermIndicesBelow (2 ^ 32) (shift_term (term_tree t.now) by above) }
{
    match t {
        Term::Var(_) | Term::Int(_) | Term::Truth(_) => true,
        Term::Bound(k) => *k < above || k.checked_add(by).is_some(),
        Term::Neg(t) | Term::Not(t) => shifts_term(t, by, above),
        Term::Add(s, t)
        | Term::Sub(s, t)
        | Term::Mul(s, t)
        | Term::Eq(s, t)
        | Term::Less(s, t)
        | Term::AtMost(s, t)
        | Term::Both(s, t)
        | Term::Either(s, t) => shifts_term(s, by, above) && shifts_term(t, by, above),
    }
}

/// Whether each index of the instance is a word of 32 bits.
pub(crate) fn fills_term(t: &Term, with: &Term, at: u32) -> bool
    ensures { result ≡ true → HasTermIndicesBelow (2 ^ 32) (instance_term (term_tree t.now) (term_tree with.now) at) }
{
    match t {
        Term::Var(_) | Term::Int(_) | Term::Truth(_) => true,
        Term::Bound(k) => *k != at || shifts_term(with, at, 0),
        Term::Neg(t) | Term::Not(t) => fills_term(t, with, at),
        Term::Add(s, t)
        | Term::Sub(s, t)
        | Term::Mul(s, t)
        | Term::Eq(s, t)
        | Term::Less(s, t)
        | Term::AtMost(s, t)
        | Term::Both(s, t)
        | Term::Either(s, t) => fills_term(s, with, at) && fills_term(t, with, at),
    }
}

/// Whether each index of the term with `with` for a name is a word of 32 bits.
pub(crate) fn replaces_term(t: &Term, name: u32, with: &Term, under: u32) -> bool
    ensures { result ≡ true → HasTermIndicesBelow (2 ^ 32) (replace_term (term_tree t.now) name (term_tree with.now) under) }
{
    match t {
        Term::Int(_) | Term::Truth(_) => true,
        // Every index is; asking it tells the proof so.
        Term::Bound(k) => *k <= u32::MAX,
        Term::Var(x) => *x != name || shifts_term(with, under, 0),
        Term::Neg(t) | Term::Not(t) => replaces_term(t, name, with, under),
        Term::Add(s, t)
        | Term::Sub(s, t)
        | Term::Mul(s, t)
        | Term::Eq(s, t)
        | Term::Less(s, t)
        | Term::AtMost(s, t)
        | Term::Both(s, t)
        | Term::Either(s, t) => {
            replaces_term(s, name, with, under) && replaces_term(t, name, with, under)
        }
    }
}

/// The same of a formula that is shifted.
pub(crate) fn shifts_formula(a: &Formula, by: u32, above: u32) -> bool
    ensures { result ≡ true → HasIndicesBelow (2 ^ 32) (shifted (formula_tree a.now) by above) }
{
    match a {
        Formula::Bottom => true,
        Formula::Holds(t) => shifts_term(t, by, above),
        Formula::Imp(a, b) | Formula::Conj(a, b) | Formula::Disj(a, b) => {
            shifts_formula(a, by, above) && shifts_formula(b, by, above)
        }
        Formula::All(_, a) | Formula::Ex(_, a) => match above.checked_add(1) {
            Some(above) => shifts_formula(a, by, above),
            None => false,
        },
    }
}

/// The same of an instance of a formula.
pub(crate) fn fills_formula(a: &Formula, with: &Term, at: u32) -> bool
    ensures { result ≡ true → HasIndicesBelow (2 ^ 32) (instance (formula_tree a.now) (term_tree with.now) at) }
{
    match a {
        Formula::Bottom => true,
        Formula::Holds(t) => fills_term(t, with, at),
        Formula::Imp(a, b) | Formula::Conj(a, b) | Formula::Disj(a, b) => {
            fills_formula(a, with, at) && fills_formula(b, with, at)
        }
        Formula::All(_, a) | Formula::Ex(_, a) => match at.checked_add(1) {
            Some(at) => fills_formula(a, with, at),
            None => false,
        },
    }
}

/// The same of a formula with `with` for a name.
pub(crate) fn replaces_formula(a: &Formula, name: u32, with: &Term, under: u32) -> bool
    ensures { result ≡ true → HasIndicesBelow (2 ^ 32) (replaced (formula_tree a.now) name (term_tree with.now) under) }
{
    match a {
        Formula::Bottom => true,
        Formula::Holds(t) => replaces_term(t, name, with, under),
        Formula::Imp(a, b) | Formula::Conj(a, b) | Formula::Disj(a, b) => {
            replaces_formula(a, name, with, under) && replaces_formula(b, name, with, under)
        }
        Formula::All(_, a) | Formula::Ex(_, a) => match under.checked_add(1) {
            Some(under) => replaces_formula(a, name, with, under),
            None => false,
        },
    }
}
