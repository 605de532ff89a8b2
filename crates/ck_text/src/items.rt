//! What the reader keeps of each text, and the frames that take it as an operand.

ghost use Rattle.std.specs.Prelude.{◌≡◌, true, false, ◌<◌, ◌^◌, ◌+◌, ◌≤◌, length, max, List, IfOk, OnOk};
ghost use Rattle.sorted_terms.specs.Tree.{term_tree};
ghost use Rattle.formulas.specs.Tree.{formula_tree};
ghost use Rattle.ck_base.specs.declared.limits.TheConstants.{FORMULA_DEPTH};
ghost use Rattle.ck_text.specs.Items as spec;
ghost use Rattle.ck_text.specs.Texts as grammar;
ghost use Rattle.ck_text.specs.Views as views;
ghost use Rattle.ck_text.specs.declared.token.Prefix.TheVariants as prefixes;

use crate::token::{Prefix, Quantifier, Sign};
use ck_base::limits::FORMULA_DEPTH;
use ck_base::{List, NoMemory, Sort};
use formulas::Formula;
use sorted_terms::Term;
use std::alloc::Global;

/// A term, or a formula.
#[derive(Drop)]
pub(crate) enum Tree {
    Term(Term),
    Formula(Formula),
}

/// What is kept of a text: its level by the grammar, for a number alone the literal with `-` before it,
/// its levels, counted to one more than the most, and its tree where they are no more.
#[derive(Drop)]
pub(crate) struct Item {
    pub(crate) rank: u32,
    pub(crate) negative: Option<i128>,
    pub(crate) levels: u32,
    pub(crate) tree: Tree,
}

/// What stands before an operand.
#[derive(Clone, Copy)]
pub(crate) enum Lead<'a> {
    Prefix(Prefix),
    Binder(Quantifier, &'a [u8], Option<Sort>),
}

/// What waits for an operand.
#[derive(Drop)]
pub(crate) enum Held<'a> {
    Leading(Lead<'a>),
    Operand(Sign, Item),
    Parenthesis,
}

/// With what is asked of that operand.
#[derive(Drop)]
pub(crate) struct Frame<'a> {
    pub(crate) held: Held<'a>,
    pub(crate) asks: bool,
    pub(crate) opened: u32,
}

// One level more.
fn grown(levels: u32) -> u32
    ensures { result ≡ spec.grown FORMULA_DEPTH levels }
{
    if levels <= FORMULA_DEPTH {
        levels + 1
    } else {
        FORMULA_DEPTH + 1
    }
}

// The levels as a formula.
pub(crate) fn height(i: &Item) -> u32
    ensures { result ≡ spec.height FORMULA_DEPTH (views.item i.now) }
{
    match &i.tree {
        Tree::Term(_) => grown(i.levels),
        Tree::Formula(_) => i.levels,
    }
}

pub(crate) fn as_term(tree: Tree) -> Term
    ensures { term_tree result ≡ spec.as_term (views.tree tree) }
{
    match tree {
        Tree::Term(t) => t,
        Tree::Formula(_) => Term::Bound(0),
    }
}

pub(crate) fn as_formula(tree: Tree) -> Formula
    ensures { formula_tree result ≡ spec.as_formula (views.tree tree) }
{
    match tree {
        Tree::Term(t) => Formula::Holds(t),
        Tree::Formula(a) => a,
    }
}

fn term_item(rank: u32, levels: u32, t: Term) -> Item
    ensures { views.item result ≡ spec.term_item FORMULA_DEPTH rank levels (term_tree t) }
{
    let tree = if levels <= FORMULA_DEPTH {
        Tree::Term(t)
    } else {
        Tree::Term(Term::Bound(0))
    };
    Item {
        rank,
        negative: None,
        levels,
        tree,
    }
}

fn formula_item(rank: u32, levels: u32, a: Formula) -> Item
    ensures { views.item result ≡ spec.formula_item FORMULA_DEPTH rank levels (formula_tree a) }
{
    let tree = if levels <= FORMULA_DEPTH {
        Tree::Formula(a)
    } else {
        Tree::Formula(Formula::Bottom)
    };
    Item {
        rank,
        negative: None,
        levels,
        tree,
    }
}

fn larger(a: u32, b: u32) -> u32
    ensures { result ≡ max a b }
{
    if a <= b { b } else { a }
}

pub(crate) fn leaf(t: Term) -> Item
    ensures { views.item result ≡ spec.leaf_item (term_tree t) }
{
    Item {
        rank: 11,
        negative: None,
        levels: 1,
        tree: Tree::Term(t),
    }
}

pub(crate) fn closed(i: Item) -> Item
    ensures { views.item result ≡ spec.closed_item (views.item i) }
{
    Item {
        rank: 11,
        negative: None,
        levels: i.levels,
        tree: i.tree,
    }
}

pub(crate) fn falsity() -> Item
    ensures { views.item result ≡ spec.falsity_item }
{
    Item {
        rank: 11,
        negative: None,
        levels: 1,
        tree: Tree::Formula(Formula::Bottom),
    }
}

pub(crate) fn number(n: u128) -> Item
    requires { n < 2 ^ 127 }
    ensures { views.item result ≡ spec.number_item n }
{
    let n = n as i128;
    Item {
        rank: 11,
        negative: Some(-n),
        levels: 1,
        tree: Tree::Term(Term::Int(n)),
    }
}

// `-t`, or the literal.
fn negated(alloc: Global, i: Item) -> Result<Item, NoMemory>
    ensures { IfOk result (λ j. views.item j ≡ spec.negated_item FORMULA_DEPTH i.negative (views.item i)) }
{
    if let Some(n) = i.negative {
        return Ok(Item {
            rank: 10,
            negative: None,
            levels: 1,
            tree: Tree::Term(Term::Int(n)),
        });
    }
    let levels = grown(i.levels);
    let t = as_term(i.tree);
    Ok(term_item(10, levels, Term::Neg(Box::new(alloc, t)?)))
}

fn denied(alloc: Global, i: Item) -> Result<Item, NoMemory>
    ensures { IfOk result (λ j. views.item j ≡ spec.led_item FORMULA_DEPTH (grammar.prefix prefixes.Not) (views.item i)) }
{
    let levels = grown(i.levels);
    let t = as_term(i.tree);
    Ok(term_item(6, levels, Term::Not(Box::new(alloc, t)?)))
}

fn refuted(alloc: Global, i: Item) -> Result<Item, NoMemory>
    ensures { IfOk result (λ j. views.item j ≡ spec.led_item FORMULA_DEPTH (grammar.prefix prefixes.Tilde) (views.item i)) }
{
    let levels = grown(height(&i));
    let a = as_formula(i.tree);
    let a = Box::new(alloc, a)?;
    let bottom = Box::new(alloc, Formula::Bottom)?;
    Ok(formula_item(3, levels, Formula::Imp(a, bottom)))
}

fn quantified(alloc: Global, q: Quantifier, s: Option<Sort>, i: Item) -> Result<Item, NoMemory>
    ensures { IfOk result (λ j. views.item j ≡ spec.quantified_item FORMULA_DEPTH q s (views.item i)) }
{
    let levels = grown(height(&i));
    let a = Box::new(alloc, as_formula(i.tree))?;
    let s = match s {
        Some(s) => s,
        None => Sort::Int,
    };
    let a = match q {
        Quantifier::All => Formula::All(s, a),
        Quantifier::Ex => Formula::Ex(s, a),
    };
    Ok(formula_item(0, levels, a))
}

fn led(alloc: Global, l: Lead, i: Item) -> Result<Item, NoMemory>
    ensures { IfOk result (λ j. views.item j ≡ spec.led_item FORMULA_DEPTH (views.lead l.entry) (views.item i)) }
{
    match l {
        Lead::Prefix(Prefix::Tilde) => refuted(alloc, i),
        Lead::Prefix(Prefix::Not) => denied(alloc, i),
        Lead::Prefix(Prefix::Minus) => negated(alloc, i),
        Lead::Binder(q, _, s) => quantified(alloc, q, s, i),
    }
}

fn binary(alloc: Global, o: Sign, i: Item, j: Item) -> Result<Item, NoMemory>
    requires { grammar.on_terms o ≡ true }
    ensures { IfOk result (λ k. views.item k ≡ spec.joined_item FORMULA_DEPTH o (views.item i) (views.item j)) }
{
    let levels = grown(larger(i.levels, j.levels));
    let s = Box::new(alloc, as_term(i.tree))?;
    let t = Box::new(alloc, as_term(j.tree))?;
    Ok(match o {
        Sign::Either => term_item(4, levels, Term::Either(s, t)),
        Sign::Both => term_item(5, levels, Term::Both(s, t)),
        Sign::Equal => term_item(7, levels, Term::Eq(s, t)),
        Sign::Less => term_item(7, levels, Term::Less(s, t)),
        Sign::AtMost => term_item(7, levels, Term::AtMost(s, t)),
        Sign::Plus => term_item(8, levels, Term::Add(s, t)),
        Sign::Minus => term_item(8, levels, Term::Sub(s, t)),
        Sign::Times => term_item(9, levels, Term::Mul(s, t)),
        _ => term_item(11, 1, Term::Bound(0)),
    })
}

fn connected(alloc: Global, o: Sign, i: Item, j: Item) -> Result<Item, NoMemory>
    requires { grammar.on_terms o ≡ false }
    ensures { IfOk result (λ k. views.item k ≡ spec.joined_item FORMULA_DEPTH o (views.item i) (views.item j)) }
{
    let levels = grown(larger(height(&i), height(&j)));
    let a = Box::new(alloc, as_formula(i.tree))?;
    let b = Box::new(alloc, as_formula(j.tree))?;
    Ok(match o {
        Sign::Implies => formula_item(0, levels, Formula::Imp(a, b)),
        Sign::OrElse => formula_item(1, levels, Formula::Disj(a, b)),
        Sign::AndAlso => formula_item(2, levels, Formula::Conj(a, b)),
        _ => formula_item(11, 1, Formula::Bottom),
    })
}

pub(crate) fn on_terms(o: Sign) -> bool
    ensures { result ≡ grammar.on_terms o }
{
    match o {
        Sign::Implies | Sign::OrElse | Sign::AndAlso => false,
        _ => true,
    }
}

pub(crate) fn joined(alloc: Global, o: Sign, i: Item, j: Item) -> Result<Item, NoMemory>
    ensures { IfOk result (λ k. views.item k ≡ spec.joined_item FORMULA_DEPTH o (views.item i) (views.item j)) }
{
    if on_terms(o) {
        binary(alloc, o, i, j)
    } else {
        connected(alloc, o, i, j)
    }
}

fn taken(alloc: Global, held: Held, i: Item) -> Result<Item, NoMemory>
    ensures { IfOk result (λ j. views.item j ≡ spec.taken FORMULA_DEPTH (views.held held.entry) (views.item i)) }
{
    match held {
        Held::Leading(l) => led(alloc, l, i),
        Held::Operand(o, left) => joined(alloc, o, left, i),
        Held::Parenthesis => Ok(i),
    }
}

pub(crate) fn lead_level(l: Lead) -> u32
    ensures { result ≡ grammar.lead_level (views.lead l.entry) }
{
    match l {
        Lead::Prefix(Prefix::Tilde) => 3,
        Lead::Prefix(Prefix::Not) => 6,
        Lead::Prefix(Prefix::Minus) => 10,
        Lead::Binder(_, _, _) => 0,
    }
}

pub(crate) fn right_want(o: Sign) -> u32
    ensures { result ≡ grammar.right_want o }
{
    match o {
        Sign::Implies => 0,
        Sign::OrElse => 1,
        Sign::AndAlso => 2,
        Sign::Either => 5,
        Sign::Both => 6,
        Sign::Equal | Sign::Less | Sign::AtMost => 8,
        Sign::Plus | Sign::Minus => 9,
        Sign::Times => 10,
    }
}

fn takes(least: u32, held: &Held) -> bool
    ensures { result ≡ spec.takes least (views.held held.now) }
{
    match held {
        Held::Leading(l) => least <= lead_level(*l),
        Held::Operand(o, _) => least <= right_want(*o),
        Held::Parenthesis => false,
    }
}

fn takes_top(least: u32, frames: &[Frame]) -> bool
    ensures { result ≡ views.takes_top least frames.now }
{
    match frames {
        [.., top] => takes(least, &top.held),
        [] => false,
    }
}

// The frames that want at least that level take the item as their operand, up to a `(`.
pub(crate) fn reduced<'a>(
    alloc: Global,
    stack: &mut List<Frame<'a>>,
    least: u32,
    i: Item,
) -> Result<Item, NoMemory>
    ensures taken { IfOk result (λ j. (views.stack stack.new, views.item j) ≡ spec.reduced FORMULA_DEPTH least (views.stack stack.old) (views.item i)) }
    ensures few { OnOk result (length stack.new ≤ length stack.old) }
{
    let mut i = i;
    while takes_top(least, stack.as_slice()) {
        match stack.pop() {
            Some(frame) => i = taken(alloc, frame.held, i)?,
            None => return Ok(i),
        }
    }
    Ok(i)
}
