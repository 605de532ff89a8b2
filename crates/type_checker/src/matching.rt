//! Which found formulas are the same. It takes no memory. Two formulas with the same number are the same, and
//! nothing more is looked at; so what costs is a formula without a number, or a difference.

ghost use Rattle.std.specs.Prelude.{◌≡◌};
ghost use Rattle.formulas.specs.Tree.{formula_tree, bottom};
ghost use Rattle.type_checker.specs.Found.{found_tree};
ghost use Rattle.type_checker.specs.Interner.{formula_at};
ghost use Rattle.type_checker.specs.Same.{same_formula};

use crate::hashed::is_same;
use crate::interner::Interner;
use crate::typed::Found;
use formulas::Formula;

/// Whether the formula is the found one.
pub fn matches(interner: &Interner, a: &Formula, b: &Found) -> bool
    ensures { result ≡ same_formula (formula_tree a.now) (found_tree interner.now b.now) }
{
    match (a, b) {
        (_, Found::Interned(number)) => is_at(interner, a, *number),
        (_, Found::Known(b)) => is_same(a, b),
        (_, Found::Built(b)) => is_same(a, b),
        (Formula::Imp(a, b), Found::Imp(c, d)) => matches(interner, a, c)
            && matches(interner, b, d),
        (Formula::Conj(a, b), Found::Conj(c, d)) => matches(interner, a, c)
            && matches(interner, b, d),
        (Formula::Disj(a, b), Found::Disj(c, d)) => matches(interner, a, c)
            && matches(interner, b, d),
        (Formula::All(r, a), Found::All(s, b)) => *r == *s && matches(interner, a, b),
        (Formula::Ex(r, a), Found::Ex(s, b)) => *r == *s && matches(interner, a, b),
        _ => false,
    }
}

/// Whether the two found formulas are the same.
pub fn same_found(interner: &Interner, a: &Found, b: &Found) -> bool
    ensures { result ≡ same_formula (found_tree interner.now a.now) (found_tree interner.now b.now) }
{
    match (a, b) {
        (Found::Interned(number), _) => is_numbered(interner, *number, b),
        (_, Found::Interned(number)) => has_number(interner, a, *number),
        (Found::Known(a), _) => matches(interner, a, b),
        (Found::Built(a), _) => matches(interner, a, b),
        (_, Found::Known(b)) => is_found(interner, a, b),
        (_, Found::Built(b)) => is_found(interner, a, b),
        (Found::Imp(a, b), Found::Imp(c, d)) => {
            same_found(interner, a, c) && same_found(interner, b, d)
        }
        (Found::Conj(a, b), Found::Conj(c, d)) => {
            same_found(interner, a, c) && same_found(interner, b, d)
        }
        (Found::Disj(a, b), Found::Disj(c, d)) => {
            same_found(interner, a, c) && same_found(interner, b, d)
        }
        (Found::All(r, a), Found::All(s, b)) => *r == *s && same_found(interner, a, b),
        (Found::Ex(r, a), Found::Ex(s, b)) => *r == *s && same_found(interner, a, b),
        _ => false,
    }
}

/// Whether the found formula is falsity.
pub fn is_bottom(interner: &Interner, f: &Found) -> bool
    ensures { result ≡ same_formula bottom (found_tree interner.now f.now) }
{
    match f {
        Found::Known(Formula::Bottom) | Found::Built(Formula::Bottom) => true,
        Found::Interned(number) => is_bottom_at(interner, *number),
        _ => false,
    }
}

fn is_bottom_at(interner: &Interner, number: usize) -> bool
    ensures { result ≡ same_formula bottom (formula_at interner.now number) }
{
    match interner.node(number) {
        Some(node) => match node.formula {
            Formula::Bottom => true,
            _ => false,
        },
        None => true,
    }
}

// Whether the formula with that number is the found one.
fn is_numbered(interner: &Interner, number: usize, b: &Found) -> bool
    ensures { result ≡ same_formula (formula_at interner.now number) (found_tree interner.now b.now) }
{
    let Some(node) = interner.node(number) else {
        return is_bottom(interner, b);
    };
    match (node.formula, b) {
        (_, Found::Interned(other)) => same_numbered(interner, number, *other),
        (a, Found::Known(b)) => is_same(a, b),
        (a, Found::Built(b)) => is_same(a, b),
        (Formula::Imp(_, _), Found::Imp(c, d)) => {
            is_numbered(interner, node.left, c) && is_numbered(interner, node.right, d)
        }
        (Formula::Conj(_, _), Found::Conj(c, d)) => {
            is_numbered(interner, node.left, c) && is_numbered(interner, node.right, d)
        }
        (Formula::Disj(_, _), Found::Disj(c, d)) => {
            is_numbered(interner, node.left, c) && is_numbered(interner, node.right, d)
        }
        (Formula::All(r, _), Found::All(s, b)) => *r == *s && is_numbered(interner, node.left, b),
        (Formula::Ex(r, _), Found::Ex(s, b)) => *r == *s && is_numbered(interner, node.left, b),
        _ => false,
    }
}

// Whether the formulas with these numbers are the same.
#[tactic(auto, using(crate::specs::SameLaws::formula_same))]
fn same_numbered(interner: &Interner, number: usize, other: usize) -> bool
    ensures { result ≡ same_formula (formula_at interner.now number) (formula_at interner.now other) }
{
    if number == other {
        return true;
    }
    match interner.node(number) {
        Some(node) => is_at(interner, node.formula, other),
        None => is_bottom_at(interner, other),
    }
}

#[tactic(auto, using(crate::proofs::Symmetry::same_either_way))]
fn has_number(interner: &Interner, a: &Found, number: usize) -> bool
    ensures { result ≡ same_formula (found_tree interner.now a.now) (formula_at interner.now number) }
{
    is_numbered(interner, number, a)
}

#[tactic(auto, using(crate::proofs::Symmetry::same_either_way))]
fn is_found(interner: &Interner, a: &Found, b: &Formula) -> bool
    ensures { result ≡ same_formula (found_tree interner.now a.now) (formula_tree b.now) }
{
    matches(interner, b, a)
}

// Whether the formula is the one with that number.
fn is_at(interner: &Interner, a: &Formula, number: usize) -> bool
    ensures { result ≡ same_formula (formula_tree a.now) (formula_at interner.now number) }
{
    match interner.node(number) {
        Some(node) => is_same(a, node.formula),
        None => match a {
            Formula::Bottom => true,
            _ => false,
        },
    }
}
