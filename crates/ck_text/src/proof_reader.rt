//! The reader of proofs over tokens. It keeps the rules with an argument that is being read on a stack, so
//! nothing in it calls itself as deep as a proof nests.

ghost use Rattle.std.specs.Prelude.{◌≡◌, ◌+◌, ◌<◌, ◌≤◌, ◌^◌, true, List, [], Some, None, length, map, IfOk, IfSome};
ghost use Rattle.std.specs.Option.{option_map};
ghost use Rattle.proof_terms.specs.Tree.{proof_tree};
ghost use Rattle.ck_base.specs.declared.limits.TheConstants.{FORMULA_DEPTH, NESTING, PROOF_DEPTH};
ghost use Rattle.ck_text.specs.declared.token.Mark.TheVariants as marks;
ghost use Rattle.ck_text.specs.declared.proof_calls.Call as code_call;
ghost use Rattle.ck_text.specs.Tokens as token;
ghost use Rattle.ck_text.specs.Texts.{first_of};
ghost use Rattle.ck_text.specs.Views as expression_views;
ghost use Rattle.ck_text.specs.ProofItems as spec;
ghost use Rattle.ck_text.specs.ProofViews as views;

use crate::head::Head;
use crate::items::{Frame, Item, as_formula, as_term};
use crate::proof_calls::{
    Call, ProofScope, asked, enter, expression_scope, proof_scope, wants_term,
};
use crate::proof_parts::{Kind, Part, built, count, head_of, kind_at, with};
use crate::reader::{
    Going, Mode, Stop, go_on, levels, step as expression_step, unknown_here as unknown_name,
};
use crate::scan::{Placed, Token};
use crate::token::Mark;
use ck_base::limits::{FORMULA_DEPTH, PROOF_DEPTH};
use ck_base::{List, NoMemory};
use proof_terms::Proof;
use std::alloc::Global;

/// Some of a term or formula, and where it begins.
#[derive(Drop)]
pub(crate) struct Inner<'a> {
    pub(crate) stack: List<Frame<'a>>,
    pub(crate) mode: Mode<'a>,
    pub(crate) left: usize,
}

/// What comes next: an argument or the whole proof; the number after `#` or `?`; `(` after the name of a rule;
/// more of a term or formula; what follows an argument.
#[derive(Drop)]
pub(crate) enum Stage<'a> {
    Expecting,
    Marked { hole: bool, left: usize },
    Opening(Head),
    Within(Inner<'a>),
    Complete(Part),
}

/// The stage after a token, and where a term or formula begins that ended there and is too deep.
#[derive(Drop)]
pub(crate) struct Next<'a> {
    pub(crate) stage: Stage<'a>,
    pub(crate) deep: Option<usize>,
}

// The first token of a proof.
fn begin_proof<'a>(holes: bool, calls: &[Call<'a>], p: Placed<'a>) -> Option<Stage<'a>>
    ensures { views.maybe_state result calls.now ≡ spec.begins_proof holes (views.calls calls.now) p.entry.left (expression_views.token p.entry.token) }
{
    match p.token {
        Token::Mark(Mark::Hash) => Some(Stage::Marked {
            hole: false,
            left: p.left,
        }),
        Token::Mark(Mark::Question) if holes => Some(Stage::Marked {
            hole: true,
            left: p.left,
        }),
        Token::Word(name) => match head_of(name) {
            Some(head) => Some(Stage::Opening(head)),
            None => None,
        },
        _ => None,
    }
}

// The first token of a term or formula.
fn begin_expression<'a>(
    alloc: Global,
    outer: ProofScope<'a>,
    term: bool,
    calls: &[Call<'a>],
    p: Placed<'a>,
) -> Result<Option<Stage<'a>>, NoMemory>
    requires space { views.HasSpace (views.scope outer) (views.calls calls.now) }
    requires small { expression_views.IsSmall (expression_views.token p.token) }
    ensures few { IfOk result (λ s. views.weight s ≤ 1) }
    ensures state { IfOk result (λ s. views.maybe_state s calls.now ≡ spec.begins_expression NESTING FORMULA_DEPTH term (spec.bindings (views.scope outer.entry) (views.calls calls.now)) (views.calls calls.now) (expression_views.placed p.entry)) }
{
    let scope = expression_scope(outer, calls);
    let mut stack = List::new(alloc);
    match expression_step(
        alloc,
        scope.names,
        scope.variables,
        term,
        &mut stack,
        Mode::Wanting,
        p.token,
    )? {
        Some(mode) => Ok(Some(Stage::Within(Inner {
            stack,
            mode,
            left: p.left,
        }))),
        None => Ok(None),
    }
}

fn begin_sort<'a>(calls: &[Call], t: Token<'a>) -> Option<Stage<'a>>
    ensures { views.maybe_state result calls.now ≡ spec.begins_sort (views.calls calls.now) (expression_views.token t.entry) }
{
    match t {
        Token::Sort(s) => Some(Stage::Complete(Part::Sort(s))),
        _ => None,
    }
}

fn begin_number<'a>(calls: &[Call], t: Token<'a>) -> Option<Stage<'a>>
    ensures { views.maybe_state result calls.now ≡ spec.begins_number (views.calls calls.now) (expression_views.token t.entry) }
{
    match t {
        Token::Number(n) if n <= u128::from(u32::MAX) => Some(Stage::Complete(Part::Number(
            n as u32,
        ))),
        _ => None,
    }
}

// The first token of what is wanted.
fn begin<'a>(
    alloc: Global,
    holes: bool,
    outer: ProofScope<'a>,
    calls: &[Call<'a>],
    p: Placed<'a>,
) -> Result<Option<Stage<'a>>, NoMemory>
    requires space { views.HasSpace (views.scope outer) (views.calls calls.now) }
    requires small { expression_views.IsSmall (expression_views.token p.token) }
    ensures few { IfOk result (λ s. views.weight s ≤ 1) }
    ensures state { IfOk result (λ s. views.maybe_state s calls.now ≡ spec.begins NESTING PROOF_DEPTH FORMULA_DEPTH holes (views.scope outer.entry) (spec.asked (views.calls calls.now)) (views.calls calls.now) (expression_views.placed p.entry)) }
{
    match asked(calls) {
        Some(Kind::Sort) => Ok(begin_sort(calls, p.token)),
        Some(Kind::Number) => Ok(begin_number(calls, p.token)),
        Some(Kind::Term) => begin_expression(alloc, outer, true, calls, p),
        Some(Kind::Formula { .. }) => begin_expression(alloc, outer, false, calls, p),
        Some(Kind::Proof { .. }) if calls.len() < PROOF_DEPTH as usize => Ok(begin_proof(
            holes, calls, p,
        )),
        _ => Ok(None),
    }
}

// The number after `#` or `?`.
fn numbered<'a>(
    alloc: Global,
    outer: ProofScope<'a>,
    hole: bool,
    calls: &[Call<'a>],
    t: Token<'a>,
) -> Result<Option<Stage<'a>>, NoMemory>
    requires space { views.HasSpace (views.scope outer) (views.calls calls.now) }
    ensures few { IfOk result (λ s. views.weight s ≤ 1) }
    ensures state { IfOk result (λ s. views.maybe_state s calls.now ≡ spec.numbers_mark (views.scope outer.entry) hole (views.calls calls.now) (expression_views.token t.entry)) }
{
    match t {
        Token::Number(n) if n <= u128::from(u32::MAX) => {
            let proof = marked(hole, proof_scope(outer, calls), n as u32);
            Ok(Some(Stage::Complete(Part::Proof(Box::new(alloc, proof)?))))
        }
        _ => Ok(None),
    }
}

// The hypothesis or the hole with that number.
fn marked(hole: bool, scope: ProofScope, n: u32) -> Proof
    ensures { proof_tree result ≡ spec.marked_tree hole (views.scope scope.entry) n }
{
    if hole {
        Proof::Hole(n)
    } else if n < scope.hypotheses {
        Proof::Hyp(scope.hypotheses - 1 - n)
    } else {
        Proof::Hyp(0)
    }
}

// The token after the name of a rule.
fn open<'a>(
    outer: ProofScope<'a>,
    head: Head,
    calls: &mut List<Call<'a>>,
    t: Token<'a>,
) -> Result<Option<Stage<'a>>, NoMemory>
    requires space { views.HasSpace (views.scope outer) (views.calls calls.old) }
    ensures few { IfOk result (λ s. views.weight s + length calls.new ≤ length calls.old + 1) }
    ensures state { IfOk result (λ s. views.maybe_state s calls.new ≡ spec.opens (views.scope outer.entry) head (views.calls calls.old) (expression_views.token t.entry)) }
{
    match t {
        Token::Mark(Mark::Open) => {
            enter(outer, calls, head)?;
            Ok(Some(Stage::Expecting))
        }
        _ => Ok(None),
    }
}

// A `,` after an argument.
fn next_argument<'a>(calls: &mut List<Call<'a>>, part: Part) -> Result<Option<Stage<'a>>, NoMemory>
    ensures few { IfOk result (λ s. views.weight s + length calls.new ≤ length calls.old) }
    ensures state { IfOk result (λ s. views.maybe_state s calls.new ≡ spec.separated (views.calls calls.old) (views.part part) (token.mark marks.Comma)) }
{
    let Some(call) = calls.pop() else {
        return Ok(None);
    };
    let Some(done) = with(call.done, part) else {
        return Ok(None);
    };
    if kind_at(call.head, count(&done)).is_none() {
        return Ok(None);
    }
    calls.push(Call {
        head: call.head,
        done,
        scope: call.scope,
    })?;
    Ok(Some(Stage::Expecting))
}

// A `)` after an argument.
fn close<'a>(
    alloc: Global,
    calls: &mut List<Call<'a>>,
    part: Part,
) -> Result<Option<Stage<'a>>, NoMemory>
    ensures few { IfOk result (λ s. views.weight s + length calls.new ≤ length calls.old) }
    ensures state { IfOk result (λ s. views.maybe_state s calls.new ≡ spec.separated (views.calls calls.old) (views.part part) (token.mark marks.Close)) }
{
    let Some(call) = calls.pop() else {
        return Ok(None);
    };
    if kind_at(call.head, count(&call.done) + 1).is_some() {
        return Ok(None);
    }
    let proof = built(call.head, call.done, part);
    Ok(Some(Stage::Complete(Part::Proof(Box::new(alloc, proof)?))))
}

// The token after an argument.
fn separated<'a>(
    alloc: Global,
    calls: &mut List<Call<'a>>,
    part: Part,
    t: Token<'a>,
) -> Result<Option<Stage<'a>>, NoMemory>
    ensures few { IfOk result (λ s. views.weight s + length calls.new ≤ length calls.old) }
    ensures state { IfOk result (λ s. views.maybe_state s calls.new ≡ spec.separated (views.calls calls.old) (views.part part) (expression_views.token t.entry)) }
{
    match t {
        Token::Mark(Mark::Comma) => next_argument(calls, part),
        Token::Mark(Mark::Close) => close(alloc, calls, part),
        _ => Ok(None),
    }
}

// An expression as an argument.
fn expression_part(term: bool, i: Item) -> Part
    ensures { views.part result ≡ spec.expression_part term (expression_views.item i) }
{
    if term {
        Part::Term(as_term(i.tree))
    } else {
        Part::Formula(as_formula(i.tree))
    }
}

// Where an expression begins that is too deep.
fn too_deep(term: bool, left: usize, i: &Item) -> Option<usize>
    ensures { result ≡ spec.too_deep_at FORMULA_DEPTH term left (Some (expression_views.item i.now)) }
{
    if levels(term, i) <= FORMULA_DEPTH {
        None
    } else {
        Some(left)
    }
}

// A token inside a term or formula, which goes on with it or ends before it.
fn inside<'a>(
    alloc: Global,
    outer: ProofScope<'a>,
    calls: &mut List<Call<'a>>,
    inner: Inner<'a>,
    t: Token<'a>,
) -> Result<Option<Next<'a>>, NoMemory>
    requires space { views.HasSpace (views.scope outer) (views.calls calls.old) }
    requires indices { length inner.stack + views.variables_around (views.scope outer) (views.calls calls.old) + 1 < 2 ^ 32 }
    requires small { expression_views.IsSmall (expression_views.token t) }
    requires room { expression_views.HasRoom (expression_views.state inner.mode inner.stack) }
    ensures few { IfOk result (λ n. views.weight_after n + length calls.new ≤ length inner.entry.stack + length calls.old + 1) }
    ensures state { IfOk result (λ n. views.maybe_next n calls.new ≡ spec.step_inside NESTING FORMULA_DEPTH (spec.wants_term (spec.asked (views.calls calls.old))) (spec.bindings (views.scope outer.entry) (views.calls calls.old)) (expression_views.state inner.entry.mode inner.entry.stack) inner.entry.left (views.calls calls.old) (expression_views.token t.entry)) }
    ensures deep { IfOk result (λ n. IfSome n (λ n. n.deep ≡ spec.deep_here NESTING FORMULA_DEPTH (views.scope outer.entry) (spec.within (expression_views.state inner.entry.mode inner.entry.stack) inner.entry.left (views.calls calls.old)) (expression_views.token t.entry))) }
{
    let term = wants_term(calls.as_slice());
    let scope = expression_scope(outer, calls.as_slice());
    let mut stack = inner.stack;
    let left = inner.left;
    match go_on(
        alloc,
        scope.names,
        scope.variables,
        term,
        &mut stack,
        inner.mode,
        t,
    )? {
        Going::On(mode) => Ok(Some(Next {
            stage: Stage::Within(Inner { stack, mode, left }),
            deep: None,
        })),
        Going::Ended(i) => ended(alloc, calls, term, left, i, t),
        Going::Refused => Ok(None),
    }
}

// A token after a term or formula.
fn ended<'a>(
    alloc: Global,
    calls: &mut List<Call<'a>>,
    term: bool,
    left: usize,
    i: Item,
    t: Token<'a>,
) -> Result<Option<Next<'a>>, NoMemory>
    ensures few { IfOk result (λ n. views.weight_after n + length calls.new ≤ length calls.old) }
    ensures state { IfOk result (λ n. views.maybe_next n calls.new ≡ spec.ends term (Some (expression_views.item i)) (views.calls calls.old) (expression_views.token t.entry)) }
    ensures deep { IfOk result (λ n. IfSome n (λ n. n.deep ≡ spec.too_deep_at FORMULA_DEPTH term left (Some (expression_views.item i)))) }
{
    let deep = too_deep(term, left, &i);
    match separated(alloc, calls, expression_part(term, i), t)? {
        Some(stage) => Ok(Some(Next { stage, deep })),
        None => Ok(None),
    }
}

// A stage in which no term or formula has ended.
fn shallow<'a>(stage: Option<Stage<'a>>) -> Option<Next<'a>>
    ensures state { (calls : List code_call.Call) → views.maybe_next result calls ≡ views.maybe_state stage.entry calls }
    ensures deep { IfSome result (λ n. n.deep ≡ None) }
    ensures weight { views.weight_after result ≡ views.weight stage.entry }
{
    match stage {
        Some(stage) => Some(Next { stage, deep: None }),
        None => None,
    }
}

// The stage after a token.
fn step<'a>(
    alloc: Global,
    holes: bool,
    outer: ProofScope<'a>,
    calls: &mut List<Call<'a>>,
    stage: Stage<'a>,
    p: Placed<'a>,
) -> Result<Option<Next<'a>>, NoMemory>
    requires space { views.HasSpace (views.scope outer) (views.calls calls.old) }
    requires indices { views.held stage + views.variables_around (views.scope outer) (views.calls calls.old) + 1 < 2 ^ 32 }
    requires small { expression_views.IsSmall (expression_views.token p.token) }
    requires room { views.HasRoom (views.state stage calls.old) }
    ensures few { IfOk result (λ n. views.weight_after n + length calls.new ≤ views.held stage.entry + length calls.old + 1) }
    ensures state { IfOk result (λ n. views.maybe_next n calls.new ≡ spec.step NESTING PROOF_DEPTH FORMULA_DEPTH holes (views.scope outer.entry) (views.state stage.entry calls.old) (expression_views.placed p.entry)) }
    ensures deep { IfOk result (λ n. IfSome n (λ n. n.deep ≡ spec.deep_here NESTING FORMULA_DEPTH (views.scope outer.entry) (views.state stage.entry calls.old) (expression_views.token p.entry.token))) }
{
    match stage {
        Stage::Expecting => Ok(shallow(begin(alloc, holes, outer, calls.as_slice(), p)?)),
        Stage::Marked { hole, .. } => Ok(shallow(numbered(
            alloc,
            outer,
            hole,
            calls.as_slice(),
            p.token,
        )?)),
        Stage::Opening(head) => Ok(shallow(open(outer, head, calls, p.token)?)),
        Stage::Within(inner) => inside(alloc, outer, calls, inner, p.token),
        Stage::Complete(part) => Ok(shallow(separated(alloc, calls, part, p.token)?)),
    }
}

// The place of `#`, where its number is that of no hypothesis.
fn no_hypothesis(scope: ProofScope, hole: bool, left: usize, t: Token) -> Option<usize>
    ensures { result ≡ spec.no_hypothesis (views.scope scope.entry) hole left (expression_views.token t.entry) }
{
    match t {
        Token::Number(n) if !hole && n >= u128::from(scope.hypotheses) => Some(left),
        _ => None,
    }
}

// The place of a name where a term or formula begins.
fn unknown_first<'a>(outer: ProofScope<'a>, calls: &[Call<'a>], p: Placed<'a>) -> Option<usize>
    requires space { views.HasSpace (views.scope outer) (views.calls calls.now) }
    ensures { result ≡ spec.unknown_first (views.scope outer.entry) (views.calls calls.now) (spec.asked (views.calls calls.now)) (expression_views.placed p.entry) }
{
    match asked(calls) {
        Some(Kind::Term) | Some(Kind::Formula { .. }) => {
            let scope = expression_scope(outer, calls);
            unknown_name(scope.names, scope.variables, &[], &Mode::Wanting, p)
        }
        _ => None,
    }
}

// The place of a name or `#k` that means nothing.
fn unknown_here<'a>(
    outer: ProofScope<'a>,
    calls: &[Call<'a>],
    stage: &Stage<'a>,
    p: Placed<'a>,
) -> Option<usize>
    requires space { views.HasSpace (views.scope outer) (views.calls calls.now) }
    requires indices { views.held stage.now + views.variables_around (views.scope outer) (views.calls calls.now) + 1 < 2 ^ 32 }
    ensures { result ≡ spec.unknown_here (views.scope outer.entry) (views.state stage.now calls.now) (expression_views.placed p.entry) }
{
    match stage {
        Stage::Expecting => unknown_first(outer, calls, p),
        Stage::Marked { hole, left } => {
            no_hypothesis(proof_scope(outer, calls), *hole, *left, p.token)
        }
        Stage::Within(inner) => {
            let scope = expression_scope(outer, calls);
            unknown_name(
                scope.names,
                scope.variables,
                inner.stack.as_slice(),
                &inner.mode,
                p,
            )
        }
        _ => None,
    }
}

fn first(a: Option<usize>, b: Option<usize>) -> Option<usize>
    ensures { result ≡ first_of a b }
{
    match a {
        Some(left) => Some(left),
        None => b,
    }
}

// The proof that ends here.
fn finished(calls: &[Call], stage: Stage) -> Option<Box<Proof>>
    ensures { option_map (λ p. proof_tree p.value) result ≡ spec.finished (views.state stage.entry calls.now) }
{
    match calls {
        [] => last(stage),
        [.., _] => None,
    }
}

fn last(stage: Stage) -> Option<Box<Proof>>
    ensures { option_map (λ p. proof_tree p.value) result ≡ spec.finished (views.state stage.entry []) }
{
    match stage {
        Stage::Complete(part) => alone(part),
        Stage::Expecting => None,
        Stage::Marked { .. } => None,
        Stage::Opening(_) => None,
        Stage::Within(_) => None,
    }
}

fn alone(part: Part) -> Option<Box<Proof>>
    ensures { option_map (λ p. proof_tree p.value) result ≡ spec.finished (spec.complete [] (views.part part)) }
{
    match part {
        Part::Proof(p) => Some(p),
        _ => None,
    }
}

/// What is read, with the places of what is too deep and of what means nothing.
#[derive(Drop)]
pub(crate) struct Whole {
    pub(crate) proof: Box<Proof>,
    pub(crate) deep: Option<usize>,
    pub(crate) unknown: Option<usize>,
}

/// The proof of the tokens, or where the reader stops.
pub(crate) fn run(
    alloc: Global,
    holes: bool,
    outer: ProofScope,
    placed: &[Placed],
) -> Result<Whole, Stop>
    requires variables { length placed.now + outer.variables < 2 ^ 32 }
    requires hypotheses { length placed.now + outer.hypotheses < 2 ^ 32 }
    requires small { expression_views.AreSmall (map expression_views.placed placed.now) }
    ensures { views.Runs result (spec.run NESTING PROOF_DEPTH FORMULA_DEPTH holes (views.scope outer.entry) (map expression_views.placed placed.now) (spec.expecting []) None None) }
{
    let mut calls = List::new(alloc);
    let mut stage = Stage::Expecting;
    let mut deep = None;
    let mut unknown = None;
    let mut rest = placed;
    while let [p, more @ ..] = rest {
        unknown = first(unknown, unknown_here(outer, calls.as_slice(), &stage, *p));
        match step(alloc, holes, outer, &mut calls, stage, *p)? {
            Some(next) => {
                deep = first(deep, next.deep);
                stage = next.stage;
            }
            None => return Err(Stop::At(p.left)),
        }
        rest = more;
    }
    match finished(calls.as_slice(), stage) {
        Some(proof) => Ok(Whole {
            proof,
            deep,
            unknown,
        }),
        None => Err(Stop::At(0)),
    }
}
