//! The reader of texts over tokens.

ghost use Rattle.std.specs.Prelude.{◌≡◌, suc, true, false, ◌+◌, ◌≤◌, ◌<◌, ◌^◌, ◌&&◌, length, map, List, [], Some, None, IfOk, OnOk};
ghost use Rattle.std.specs.Option.{option_map};
ghost use Rattle.sorted_terms.specs.Tree.{term_tree};
ghost use Rattle.ck_base.specs.declared.limits.TheConstants.{FORMULA_DEPTH, NESTING};
ghost use Rattle.ck_text.specs.Items as spec;
ghost use Rattle.ck_text.specs.Texts as grammar;
ghost use Rattle.ck_text.specs.Views as views;
ghost use Rattle.ck_text.specs.Reading as reading;

use crate::items::{
    Frame, Held, Item, Lead, Tree, closed, falsity, height, lead_level, leaf, number, on_terms,
    reduced, right_want,
};
use crate::names::meaning;
use crate::scan::{Placed, Token, tokens};
use crate::text_fault::TextFault;
use crate::token::{Mark, Prefix, Quantifier, Sign};
use ck_base::limits::{FORMULA_DEPTH, NESTING};
use ck_base::{Decls, List, NoMemory, Sort};
use sorted_terms::Term;
use std::alloc::Global;

/// What comes next.
#[derive(Drop)]
pub(crate) enum Mode<'a> {
    Wanting,
    Having(Item),
    Naming(Quantifier),
    Named(Quantifier, &'a [u8]),
    Sorting(Quantifier, &'a [u8]),
    Sorted(Quantifier, &'a [u8], Sort),
}

fn want(frames: &[Frame]) -> u32
    ensures { result ≡ spec.want (views.stack frames.now) }
{
    match frames {
        [] => 0,
        [.., top] => match &top.held {
            Held::Leading(l) => lead_level(*l),
            Held::Operand(o, _) => right_want(*o),
            Held::Parenthesis => 0,
        },
    }
}

fn asks(asked: bool, frames: &[Frame]) -> bool
    ensures { result ≡ spec.asks asked (views.stack frames.now) }
{
    match frames {
        [] => asked,
        [.., top] => top.asks,
    }
}

fn opened(frames: &[Frame]) -> u32
    ensures { result ≡ spec.opened (views.stack frames.now) }
{
    match frames {
        [] => 0,
        [.., top] => top.opened,
    }
}

fn suits(asked: bool, term: bool) -> bool
    ensures { result ≡ grammar.suits asked term }
{
    !asked || term
}

fn left_want(o: Sign) -> u32
    ensures { result ≡ grammar.left_want o }
{
    match o {
        Sign::Implies => 1,
        Sign::OrElse => 2,
        Sign::AndAlso => 3,
        Sign::Either => 4,
        Sign::Both => 5,
        Sign::Equal | Sign::Less | Sign::AtMost | Sign::Plus | Sign::Minus => 8,
        Sign::Times => 9,
    }
}

fn next_level(o: Sign) -> u32
    ensures { result ≡ suc (grammar.level o) }
{
    match o {
        Sign::Implies => 1,
        Sign::OrElse => 2,
        Sign::AndAlso => 3,
        Sign::Either => 5,
        Sign::Both => 6,
        Sign::Equal | Sign::Less | Sign::AtMost => 8,
        Sign::Plus | Sign::Minus => 9,
        Sign::Times => 10,
    }
}

fn lead_on_terms(l: Lead) -> bool
    ensures { result ≡ grammar.lead_on_terms (views.lead l.entry) }
{
    match l {
        Lead::Prefix(Prefix::Tilde) => false,
        Lead::Prefix(Prefix::Not) => true,
        Lead::Prefix(Prefix::Minus) => true,
        Lead::Binder(_, _, _) => false,
    }
}

fn is_term(i: &Item) -> bool
    ensures { result ≡ spec.is_term_tree (views.item i.now).tree }
{
    match &i.tree {
        Tree::Term(_) => true,
        Tree::Formula(_) => false,
    }
}

// Whether a lead may stand here.
fn may_lead(asked: bool, frames: &[Frame], l: Lead) -> bool
    ensures { result ≡ spec.may_lead NESTING asked (views.lead l.entry) (views.stack frames.now) }
{
    want(frames) <= lead_level(l)
        && suits(asks(asked, frames), lead_on_terms(l))
        && opened(frames) < NESTING
}

fn with_lead<'a>(stack: &mut List<Frame<'a>>, l: Lead<'a>) -> Result<(), NoMemory>
    requires { spec.opened (views.stack stack.old) < NESTING }
    ensures few { OnOk result (length stack.new ≡ length stack.old + 1) }
    ensures pushed { OnOk result (views.stack stack.new ≡ spec.with_lead (views.lead l.entry) (views.stack stack.old)) }
{
    let opened = opened(stack.as_slice()) + 1;
    let asks = lead_on_terms(l);
    stack.push(Frame {
        held: Held::Leading(l),
        asks,
        opened,
    })
}

fn with_parenthesis(stack: &mut List<Frame>, asked: bool) -> Result<(), NoMemory>
    requires { spec.opened (views.stack stack.old) < NESTING }
    ensures few { OnOk result (length stack.new ≡ length stack.old + 1) }
    ensures pushed { OnOk result (views.stack stack.new ≡ spec.with_parenthesis asked (views.stack stack.old)) }
{
    let opened = opened(stack.as_slice()) + 1;
    let asks = asks(asked, stack.as_slice());
    stack.push(Frame {
        held: Held::Parenthesis,
        asks,
        opened,
    })
}

// A prefix sign.
fn led<'a>(
    asked: bool,
    stack: &mut List<Frame<'a>>,
    p: Prefix,
) -> Result<Option<Mode<'a>>, NoMemory>
    ensures few { OnOk result (length stack.new ≤ length stack.old + 1) }
    ensures state { IfOk result (λ m. views.maybe_state m stack.new ≡ spec.leads NESTING asked (grammar.prefix p) (views.stack stack.old) (spec.wanting (spec.with_lead (grammar.prefix p) (views.stack stack.old)))) }
{
    let l = Lead::Prefix(p);
    if !may_lead(asked, stack.as_slice(), l) {
        return Ok(None);
    }
    with_lead(stack, l)?;
    Ok(Some(Mode::Wanting))
}

// A sign after an operand.
fn joins<'a>(
    alloc: Global,
    asked: bool,
    stack: &mut List<Frame<'a>>,
    i: Item,
    o: Sign,
) -> Result<Option<Mode<'a>>, NoMemory>
    ensures few { OnOk result (length stack.new ≤ length stack.old + 1) }
    ensures state { IfOk result (λ m. views.maybe_state m stack.new ≡ spec.joins NESTING asked o (spec.reduced FORMULA_DEPTH (suc (grammar.level o)) (views.stack stack.old) (views.item i))) }
{
    let i = reduced(alloc, stack, next_level(o), i)?;
    let on = on_terms(o);
    let opens = if on { 0 } else { 1 };
    let around = opened(stack.as_slice());
    if left_want(o) <= i.rank
        && suits(on, is_term(&i))
        && suits(asks(asked, stack.as_slice()), on)
        && around <= NESTING - opens
    {
        stack.push(Frame {
            held: Held::Operand(o, i),
            asks: on,
            opened: opens + around,
        })?;
        return Ok(Some(Mode::Wanting));
    }
    Ok(None)
}

// A `)` after an operand.
fn closes<'a>(
    alloc: Global,
    stack: &mut List<Frame<'a>>,
    i: Item,
) -> Result<Option<Mode<'a>>, NoMemory>
    ensures few { OnOk result (length stack.new ≤ length stack.old + 1) }
    ensures state { IfOk result (λ m. views.maybe_state m stack.new ≡ spec.closes (spec.reduced FORMULA_DEPTH 0 (views.stack stack.old) (views.item i))) }
{
    let i = reduced(alloc, stack, 0, i)?;
    match stack.pop() {
        Some(frame) => match frame.held {
            Held::Parenthesis => Ok(Some(Mode::Having(closed(i)))),
            _ => Ok(None),
        },
        None => Ok(None),
    }
}

// The mode after a token where an operand is wanted.
fn operand<'a>(
    alloc: Global,
    names: &Decls,
    variables: u32,
    asked: bool,
    stack: &mut List<Frame<'a>>,
    t: Token<'a>,
) -> Result<Option<Mode<'a>>, NoMemory>
    requires indices { length stack.old + variables < 2 ^ 32 }
    requires small { views.IsSmall (views.token t) }
    ensures few { OnOk result (length stack.new ≤ length stack.old + 1) }
    ensures state { IfOk result (λ m. views.maybe_state m stack.new ≡ spec.step NESTING FORMULA_DEPTH asked (grammar.whole_scope names.now variables) (spec.wanting (views.stack stack.old)) (views.token t.entry)) }
{
    match t {
        Token::Truth(b) => Ok(Some(Mode::Having(leaf(Term::Truth(b))))),
        Token::Word(name) => Ok(Some(Mode::Having(name_item(meaning(
            names,
            variables,
            stack.as_slice(),
            name,
        ))))),
        Token::Number(n) => Ok(Some(Mode::Having(number(n)))),
        Token::Mark(Mark::Bottom) if suits(asks(asked, stack.as_slice()), false) => Ok(Some(
            Mode::Having(falsity()),
        )),
        Token::Mark(Mark::Open) if opened(stack.as_slice()) < NESTING => {
            with_parenthesis(stack, asked)?;
            Ok(Some(Mode::Wanting))
        }
        Token::Mark(Mark::Tilde) => led(asked, stack, Prefix::Tilde),
        Token::Mark(Mark::Not) => led(asked, stack, Prefix::Not),
        Token::Joining(Sign::Minus) => led(asked, stack, Prefix::Minus),
        Token::Quantifier(q) if may_lead(asked, stack.as_slice(), Lead::Binder(q, b"", None)) => Ok(
            Some(Mode::Naming(q)),
        ),
        _ => Ok(None),
    }
}

fn name_item(meaning: Option<Term>) -> Item
    ensures { views.item result ≡ spec.name_item (option_map term_tree meaning) }
{
    match meaning {
        Some(t) => leaf(t),
        None => leaf(Term::Bound(0)),
    }
}

// A quantifier with its name and sort.
fn bound<'a>(
    stack: &mut List<Frame<'a>>,
    q: Quantifier,
    name: &'a [u8],
    s: Option<Sort>,
) -> Result<Option<Mode<'a>>, NoMemory>
    requires { spec.opened (views.stack stack.old) < NESTING }
    ensures few { OnOk result (length stack.new ≤ length stack.old + 1) }
    ensures state { IfOk result (λ m. views.maybe_state m stack.new ≡ Some (spec.wanting (spec.with_lead (grammar.binder q name.now s) (views.stack stack.old)))) }
{
    with_lead(stack, Lead::Binder(q, name, s))?;
    Ok(Some(Mode::Wanting))
}

/// The mode after a token.
pub(crate) fn step<'a>(
    alloc: Global,
    names: &Decls,
    variables: u32,
    asked: bool,
    stack: &mut List<Frame<'a>>,
    mode: Mode<'a>,
    t: Token<'a>,
) -> Result<Option<Mode<'a>>, NoMemory>
    requires indices { length stack.old + variables < 2 ^ 32 }
    requires small { views.IsSmall (views.token t) }
    requires room { views.HasRoom (views.state mode stack.old) }
    ensures few { OnOk result (length stack.new ≤ length stack.old + 1) }
    ensures state { IfOk result (λ m. views.maybe_state m stack.new ≡ spec.step NESTING FORMULA_DEPTH asked (grammar.whole_scope names.now variables) (views.state mode.entry stack.old) (views.token t.entry)) }
{
    match mode {
        Mode::Wanting => operand(alloc, names, variables, asked, stack, t),
        Mode::Having(i) => match t {
            Token::Joining(o) => joins(alloc, asked, stack, i, o),
            Token::Mark(Mark::Close) => closes(alloc, stack, i),
            _ => Ok(None),
        },
        Mode::Naming(q) => match t {
            Token::Word(name) => Ok(Some(Mode::Named(q, name))),
            _ => Ok(None),
        },
        Mode::Named(q, name) => match t {
            Token::Mark(Mark::Colon) => Ok(Some(Mode::Sorting(q, name))),
            Token::Mark(Mark::Dot) => bound(stack, q, name, None),
            _ => Ok(None),
        },
        Mode::Sorting(q, name) => match t {
            Token::Sort(s) => Ok(Some(Mode::Sorted(q, name, s))),
            _ => Ok(None),
        },
        Mode::Sorted(q, name, s) => match t {
            Token::Mark(Mark::Dot) => bound(stack, q, name, Some(s)),
            _ => Ok(None),
        },
    }
}

/// What a token does to a term or formula inside a longer text: it goes on with it, or it ended before it.
pub(crate) enum Going<'a> {
    On(Mode<'a>),
    Ended(Item),
    Refused,
}

// A `)` after a text that no frame above a `(` takes.
fn after_close<'a>(stack: &mut List<Frame<'a>>, i: Item) -> Going<'a>
    ensures few { length stack.new ≤ length stack.old }
    ensures state { views.Goes result stack.new (spec.closes (views.stack stack.old, views.item i)) (spec.alone (views.stack stack.old, views.item i)) true }
{
    match stack.pop() {
        Some(frame) => match frame.held {
            Held::Parenthesis => Going::On(Mode::Having(closed(i))),
            _ => Going::Refused,
        },
        None => Going::Ended(i),
    }
}

/// A token inside a longer text, where a term or formula may end before `,` or `)`.
pub(crate) fn go_on<'a>(
    alloc: Global,
    names: &Decls,
    variables: u32,
    asked: bool,
    stack: &mut List<Frame<'a>>,
    mode: Mode<'a>,
    t: Token<'a>,
) -> Result<Going<'a>, NoMemory>
    requires indices { length stack.old + variables < 2 ^ 32 }
    requires small { views.IsSmall (views.token t) }
    requires room { views.HasRoom (views.state mode stack.old) }
    ensures few { OnOk result (length stack.new ≤ length stack.old + 1) }
    ensures state { IfOk result (λ g. views.Goes g stack.new (spec.step NESTING FORMULA_DEPTH asked (grammar.whole_scope names.now variables) (views.state mode.entry stack.old) (views.token t.entry)) (spec.finished FORMULA_DEPTH (views.state mode.entry stack.old)) (views.is_separator (views.token t.entry))) }
{
    match t {
        Token::Mark(Mark::Comma) => match finished(alloc, stack, mode)? {
            Some(i) => Ok(Going::Ended(i)),
            None => Ok(Going::Refused),
        },
        Token::Mark(Mark::Close) => match mode {
            Mode::Having(i) => {
                let i = reduced(alloc, stack, 0, i)?;
                Ok(after_close(stack, i))
            }
            _ => Ok(Going::Refused),
        },
        _ => match step(alloc, names, variables, asked, stack, mode, t)? {
            Some(next) => Ok(Going::On(next)),
            None => Ok(Going::Refused),
        },
    }
}

/// What stops the reader: a token, by its place, or memory.
pub(crate) enum Stop {
    At(usize),
    NoMemory,
}

impl From<NoMemory> for Stop {
    ghost use Rattle.std.specs.Prelude.{◌≡◌};
    ghost use Rattle.ck_text.specs.declared.reader.Stop.TheVariants.{NoMemory};

    ghost from_gives = { λ _ e. e ≡ NoMemory };

    fn from(_e: NoMemory) -> Stop {
        Stop::NoMemory
    }
}

/// The place of the token, where it is a name that means nothing.
pub(crate) fn unknown_here(
    names: &Decls,
    variables: u32,
    frames: &[Frame],
    mode: &Mode,
    p: Placed,
) -> Option<usize>
    requires indices { length frames.now + variables < 2 ^ 32 }
    ensures { result ≡ spec.unknown_here (grammar.whole_scope names.now variables) (views.state mode.now frames.now) (views.token p.entry.token) p.entry.left }
{
    match mode {
        Mode::Wanting => match p.token {
            Token::Word(name) => match meaning(names, variables, frames, name) {
                Some(_) => None,
                None => Some(p.left),
            },
            _ => None,
        },
        _ => None,
    }
}

// The first place of a name that means nothing, with this token.
fn first_unknown(
    names: &Decls,
    variables: u32,
    frames: &[Frame],
    mode: &Mode,
    p: Placed,
    unknown: Option<usize>,
) -> Option<usize>
    requires indices { length frames.now + variables < 2 ^ 32 }
    ensures { result ≡ grammar.first_of unknown (spec.unknown_here (grammar.whole_scope names.now variables) (views.state mode.now frames.now) (views.token p.entry.token) p.entry.left) }
{
    match unknown {
        Some(left) => Some(left),
        None => unknown_here(names, variables, frames, mode, p),
    }
}

// The item that ends here.
fn finished<'a>(
    alloc: Global,
    stack: &mut List<Frame<'a>>,
    mode: Mode<'a>,
) -> Result<Option<Item>, NoMemory>
    ensures few { OnOk result (length stack.new ≤ length stack.old) }
    ensures item { IfOk result (λ i. option_map views.item i ≡ spec.finished FORMULA_DEPTH (views.state mode.entry stack.old)) }
{
    match mode {
        Mode::Having(i) => {
            let i = reduced(alloc, stack, 0, i)?;
            match stack.pop() {
                Some(_) => Ok(None),
                None => Ok(Some(i)),
            }
        }
        _ => Ok(None),
    }
}

// The item of the tokens and the place of its first name that means nothing, or where the reader stops.
fn run(
    alloc: Global,
    names: &Decls,
    variables: u32,
    asked: bool,
    placed: &[Placed],
) -> Result<(Item, Option<usize>), Stop>
    requires indices { length placed.now + variables < 2 ^ 32 }
    requires small { views.AreSmall (map views.placed placed.now) }
    ensures { views.Runs result (spec.run NESTING FORMULA_DEPTH asked (grammar.whole_scope names.now variables) (map views.placed placed.now) (spec.wanting []) None) }
{
    let mut stack = List::new(alloc);
    let mut mode = Mode::Wanting;
    let mut unknown = None;
    let mut rest = placed;
    while let [p, more @ ..] = rest {
        unknown = first_unknown(names, variables, stack.as_slice(), &mode, *p, unknown);
        match step(alloc, names, variables, asked, &mut stack, mode, p.token)? {
            Some(next) => mode = next,
            None => return Err(Stop::At(p.left)),
        }
        rest = more;
    }
    match finished(alloc, &mut stack, mode)? {
        Some(i) => Ok((i, unknown)),
        None => Err(Stop::At(0)),
    }
}

/// The column of the byte that has so many bytes from it to the end.
pub(crate) fn column(bytes: &[u8], left: usize) -> u32
    requires { length bytes.now < 2 ^ 31 }
    ensures { result ≡ reading.column_of bytes.now left }
{
    (bytes.len() + 1).saturating_sub(left) as u32
}

fn left_of(placed: &[Placed]) -> usize
    ensures { result ≡ reading.left_of (map views.placed placed.now) }
{
    match placed {
        [] => 0,
        [p, ..] => p.left,
    }
}

/// The levels of the asked form.
pub(crate) fn levels(asked: bool, i: &Item) -> u32
    ensures { result ≡ spec.levels_asked FORMULA_DEPTH asked (views.item i.now) }
{
    if asked { i.levels } else { height(i) }
}

/// The item of the asked form that the bytes are, or why they are none.
pub(crate) fn item(
    alloc: Global,
    names: &Decls,
    variables: u32,
    asked: bool,
    bytes: &[u8],
) -> Result<Item, TextFault>
    requires few { length bytes.now < 2 ^ 31 }
    requires variables { variables < 2 ^ 31 }
    ensures { views.Reads asked result (spec.read_bytes NESTING FORMULA_DEPTH asked (grammar.whole_scope names.now variables) bytes.now) }
{
    let placed = tokens(alloc, bytes)?;
    match run(alloc, names, variables, asked, placed.as_slice()) {
        Ok((i, unknown)) => {
            if levels(asked, &i) > FORMULA_DEPTH {
                let column = column(bytes, left_of(placed.as_slice()));
                return Err(TextFault::Deep { column });
            }
            match unknown {
                Some(left) => Err(TextFault::Unknown {
                    column: column(bytes, left),
                }),
                None => Ok(i),
            }
        }
        Err(Stop::At(left)) => Err(TextFault::Syntax {
            column: column(bytes, left),
        }),
        Err(Stop::NoMemory) => Err(TextFault::NoMemory),
    }
}
