//! The head of a found formula: its connective or quantifier, over parts by value.

ghost use Rattle.std.specs.Prelude.{◌≡◌};
ghost use Rattle.formulas.specs.Tree.{formula_tree};
ghost use Rattle.type_checker.specs.Found.{found_tree, head_tree};
ghost use Rattle.type_checker.specs.Interner.{formula_at};

use crate::interner::Interner;
use crate::typed::Found;
use ck_base::Sort;
use formulas::Formula;
use sorted_terms::Term;

/// One level of a found formula. `Holds` borrows the term of a known formula, `Owned` has that of a built one.
#[derive(Drop)]
pub enum Head<'f> {
    Bottom,
    Holds(&'f Term),
    Owned(Term),
    Imp(Found<'f>, Found<'f>),
    Conj(Found<'f>, Found<'f>),
    Disj(Found<'f>, Found<'f>),
    All(Sort, Found<'f>),
    Ex(Sort, Found<'f>),
}

/// The found formula, opened by one level. It takes no memory.
pub fn opened<'f>(interner: &Interner<'f>, f: Found<'f>) -> Head<'f>
    ensures { head_tree interner.now result ≡ found_tree interner.now f.entry }
{
    match f {
        Found::Interned(number) => interned_head(interner, number),
        Found::Known(a) => known_head(interner, a),
        Found::Built(a) => built_head(interner, a),
        Found::Imp(a, b) => Head::Imp(Box::into_inner(a), Box::into_inner(b)),
        Found::Conj(a, b) => Head::Conj(Box::into_inner(a), Box::into_inner(b)),
        Found::Disj(a, b) => Head::Disj(Box::into_inner(a), Box::into_inner(b)),
        Found::All(sort, a) => Head::All(sort, Box::into_inner(a)),
        Found::Ex(sort, a) => Head::Ex(sort, Box::into_inner(a)),
    }
}

// The formula with that number. Its parts are known by theirs.
fn interned_head<'f>(interner: &Interner<'f>, number: usize) -> Head<'f>
    ensures { head_tree interner.now result ≡ formula_at interner.now number }
{
    let Some(node) = interner.node(number) else {
        return Head::Bottom;
    };
    let left = Found::Interned(node.left);
    let right = Found::Interned(node.right);
    match node.formula {
        Formula::Bottom => Head::Bottom,
        Formula::Holds(t) => Head::Holds(t),
        Formula::Imp(_, _) => Head::Imp(left, right),
        Formula::Conj(_, _) => Head::Conj(left, right),
        Formula::Disj(_, _) => Head::Disj(left, right),
        Formula::All(sort, _) => Head::All(*sort, left),
        Formula::Ex(sort, _) => Head::Ex(*sort, left),
    }
}

fn known_head<'f>(interner: &Interner<'f>, a: &'f Formula) -> Head<'f>
    ensures { head_tree interner.now result ≡ formula_tree a.now }
{
    match a {
        Formula::Bottom => Head::Bottom,
        Formula::Holds(t) => Head::Holds(t),
        Formula::Imp(a, b) => Head::Imp(Found::Known(a), Found::Known(b)),
        Formula::Conj(a, b) => Head::Conj(Found::Known(a), Found::Known(b)),
        Formula::Disj(a, b) => Head::Disj(Found::Known(a), Found::Known(b)),
        Formula::All(sort, a) => Head::All(*sort, Found::Known(a)),
        Formula::Ex(sort, a) => Head::Ex(*sort, Found::Known(a)),
    }
}

fn built_head<'f>(interner: &Interner<'f>, a: Formula) -> Head<'f>
    ensures { head_tree interner.now result ≡ formula_tree a }
{
    match a {
        Formula::Bottom => Head::Bottom,
        Formula::Holds(t) => Head::Owned(t),
        Formula::Imp(a, b) => Head::Imp(
            Found::Built(Box::into_inner(a)),
            Found::Built(Box::into_inner(b)),
        ),
        Formula::Conj(a, b) => Head::Conj(
            Found::Built(Box::into_inner(a)),
            Found::Built(Box::into_inner(b)),
        ),
        Formula::Disj(a, b) => Head::Disj(
            Found::Built(Box::into_inner(a)),
            Found::Built(Box::into_inner(b)),
        ),
        Formula::All(sort, a) => Head::All(sort, Found::Built(Box::into_inner(a))),
        Formula::Ex(sort, a) => Head::Ex(sort, Found::Built(Box::into_inner(a))),
    }
}
