//! A formula with the numbers of its parts, as the table of an interner finds it.

ghost use Rattle.std.specs.Prelude.{◌≡◌, fold};
ghost use Rattle.sorted_terms.specs.Tree.{term_tree};
ghost use Rattle.formulas.specs.Tree.{formula_tree};
ghost use Rattle.type_checker.specs.Same.{same_formula};
ghost use Rattle.type_checker.specs.Keys.{head_of, key_of, same_key, key_writes, head_writes, term_writes, sign_number, sort_number};

use ck_base::Sort;
use formulas::{Formula, same};
use sorted_terms::Term;
use std::hash::{Hash, Hasher};

/// A formula with the numbers of its parts. `left` is the part of a quantifier; a number that is not used is 0.
/// Two are equal where these numbers are, and the heads of their formulas.
#[derive(Clone, Copy)]
pub struct Node<'f> {
    pub formula: &'f Formula,
    pub left: usize,
    pub right: usize,
}

impl<'f> PartialEq for Node<'f> {
    ghost use Rattle.std.specs.Ordering.{on};
    ghost use Rattle.type_checker.specs.KeyLaws.{nodes_partly};

    ghost eq = { on key_of same_key };

    ghost laws = { nodes_partly };

    fn eq(&self, other: &Node<'f>) -> bool {
        has_same_head(self.formula, other.formula)
            && self.left == other.left
            && self.right == other.right
    }
}

impl<'f> Eq for Node<'f> {
    ghost use Rattle.type_checker.specs.KeyLaws.{nodes_wholly};

    ghost laws = { nodes_wholly };
}

impl<'f> Hash for Node<'f> {
    ghost use Rattle.type_checker.specs.KeyLaws.{nodes_alike};

    ghost hash_input = { λ node. key_writes (key_of node) };

    ghost respects_eq = { nodes_alike };

    fn hash<H: Hasher>(&self, state: &mut H) {
        hash_head(self.formula, state);
        state.write_usize(self.left);
        state.write_usize(self.right);
    }
}

fn has_same_head(a: &Formula, b: &Formula) -> bool
    ensures { result ≡ same_formula (head_of (formula_tree a.now)) (head_of (formula_tree b.now)) }
{
    match (a, b) {
        (Formula::Bottom, Formula::Bottom) => true,
        (Formula::Holds(_), Formula::Holds(_)) => is_same(a, b),
        (Formula::Imp(_, _), Formula::Imp(_, _)) => true,
        (Formula::Conj(_, _), Formula::Conj(_, _)) => true,
        (Formula::Disj(_, _), Formula::Disj(_, _)) => true,
        (Formula::All(r, _), Formula::All(s, _)) => *r == *s,
        (Formula::Ex(r, _), Formula::Ex(s, _)) => *r == *s,
        _ => false,
    }
}

/// Whether the formulas are the same.
pub fn is_same(a: &Formula, b: &Formula) -> bool
    ensures { result ≡ same_formula (formula_tree a.now) (formula_tree b.now) }
{
    same(a, b)
}

fn hash_head<H: Hasher>(a: &Formula, state: &mut H)
    ensures { state.new ≡ fold H.write state.old (head_writes (head_of (formula_tree a.now))) }
{
    match a {
        Formula::Bottom => state.write_u8(0),
        Formula::Holds(t) => {
            state.write_u8(1);
            hash_term(t, state);
        }
        Formula::Imp(_, _) => state.write_u8(2),
        Formula::Conj(_, _) => state.write_u8(3),
        Formula::Disj(_, _) => state.write_u8(4),
        Formula::All(sort, _) => {
            state.write_u8(5);
            state.write_u8(number_of(*sort));
        }
        Formula::Ex(sort, _) => {
            state.write_u8(6);
            state.write_u8(number_of(*sort));
        }
    }
}

fn number_of(sort: Sort) -> u8
    ensures { result ≡ sort_number sort }
{
    match sort {
        Sort::Int => 0,
        Sort::Bool => 1,
    }
}

fn hash_term<H: Hasher>(t: &Term, state: &mut H)
    ensures { state.new ≡ fold H.write state.old (term_writes (term_tree t.now)) }
{
    state.write_u8(sign(t));
    match t {
        Term::Var(number) | Term::Bound(number) => state.write_u32(*number),
        Term::Int(n) => state.write_i128(*n),
        Term::Truth(b) => b.hash(state),
        Term::Neg(s) | Term::Not(s) => hash_term(s, state),
        Term::Add(s, t)
        | Term::Sub(s, t)
        | Term::Mul(s, t)
        | Term::Eq(s, t)
        | Term::Less(s, t)
        | Term::AtMost(s, t)
        | Term::Both(s, t)
        | Term::Either(s, t) => {
            hash_term(s, state);
            hash_term(t, state);
        }
    }
}

fn sign(t: &Term) -> u8
    ensures { result ≡ sign_number (term_tree t.now) }
{
    match t {
        Term::Var(_) => 0,
        Term::Bound(_) => 1,
        Term::Int(_) => 2,
        Term::Truth(_) => 3,
        Term::Neg(_) => 4,
        Term::Not(_) => 5,
        Term::Add(_, _) => 6,
        Term::Sub(_, _) => 7,
        Term::Mul(_, _) => 8,
        Term::Eq(_, _) => 9,
        Term::Less(_, _) => 10,
        Term::AtMost(_, _) => 11,
        Term::Both(_, _) => 12,
        Term::Either(_, _) => 13,
    }
}
