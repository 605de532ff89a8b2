//! Formulas and proofs out of tokens, each with the tokens after it.

ghost use Rattle.std.specs.Prelude.{◌≡◌, ◌<◌, ◌^◌, ◌+◌, IfOk, IfErr};
ghost use Rattle.formulas.specs.Tree.{formula_tree, joined, implies};
ghost use Rattle.proof_terms.specs.Tree.{proof_tree, lambda, application};
ghost use Rattle.script_reader.specs.declared.stop.Stop.TheVariants as stops;
ghost use Rattle.std.specs.Option.{option_copied};
ghost use Rattle.script_reader.specs.Reading as spec;
ghost use Rattle.script_reader.specs.Reading.{Gives, after_open, after_close, after_comma, after_colon, after_brace, after_open_brace, formula_at, operand_at, fitting_at, hypothesis_at, lambda_by, application_by, proof_at};

use crate::stop::Stop;
use crate::token::Token;
use ck_base::limits::NESTING;
use formulas::{Formula, fits};
use proof_terms::Proof;
use sorted_terms::Term;
use std::alloc::Global;

/// The tokens after `(`.
pub(crate) fn open(tokens: &[Token]) -> Result<&[Token], Stop>
    ensures { Gives (λ rest. rest.now) result (after_open tokens.now) }
{
    match tokens {
        [Token::Open, rest @ ..] => Ok(rest),
        _ => Err(Stop::Unread),
    }
}

/// The tokens after `)`.
pub(crate) fn close(tokens: &[Token]) -> Result<&[Token], Stop>
    ensures { Gives (λ rest. rest.now) result (after_close tokens.now) }
{
    match tokens {
        [Token::Close, rest @ ..] => Ok(rest),
        _ => Err(Stop::Unread),
    }
}

/// The tokens after `,`.
pub(crate) fn comma(tokens: &[Token]) -> Result<&[Token], Stop>
    ensures { Gives (λ rest. rest.now) result (after_comma tokens.now) }
{
    match tokens {
        [Token::Comma, rest @ ..] => Ok(rest),
        _ => Err(Stop::Unread),
    }
}

/// The tokens after `:`.
pub(crate) fn colon(tokens: &[Token]) -> Result<&[Token], Stop>
    ensures { Gives (λ rest. rest.now) result (after_colon tokens.now) }
{
    match tokens {
        [Token::Colon, rest @ ..] => Ok(rest),
        _ => Err(Stop::Unread),
    }
}

/// The tokens after `{`.
pub(crate) fn open_brace(tokens: &[Token]) -> Result<&[Token], Stop>
    ensures { Gives (λ rest. rest.now) result (after_open_brace tokens.now) }
{
    match tokens {
        [Token::OpenBrace, rest @ ..] => Ok(rest),
        _ => Err(Stop::Unread),
    }
}

/// The tokens after `}`.
pub(crate) fn close_brace(tokens: &[Token]) -> Result<&[Token], Stop>
    ensures { Gives (λ rest. rest.now) result (after_brace tokens.now) }
{
    match tokens {
        [Token::CloseBrace, rest @ ..] => Ok(rest),
        _ => Err(Stop::Unread),
    }
}

// The implication. Apart from the recursion, which keeps its frame small.
#[inline(never)]
fn implied(alloc: Global, a: Formula, b: Formula) -> Result<Formula, Stop>
    ensures made { IfOk result (λ c. formula_tree c ≡ joined implies (formula_tree a) (formula_tree b)) }
    ensures fault { IfErr result (λ e. e ≡ stops.NoMemory) }
{
    Ok(Formula::Imp(Box::new(alloc, a)?, Box::new(alloc, b)?))
}

// A formula within so many levels of nesting.
#[cycle(formula)]
#[tactic(auto, unfolding(crate::specs::Reading::formula_at))]
fn formula(alloc: Global, levels: u32, tokens: &[Token]) -> Result<(Formula, &[Token]), Stop>
    ensures { Gives (λ x. (formula_tree x.0, x.1.now)) result (formula_at levels tokens.now) }
{
    let (a, rest) = operand(alloc, levels, tokens)?;
    match after_implies(rest) {
        Some(rest) => {
            let levels = one_less(levels)?;
            let (b, rest) = formula(alloc, levels, rest)?;
            Ok((implied(alloc, a, b)?, rest))
        }
        None => Ok((a, rest)),
    }
}

// The tokens after `=>`, where that is next.
fn after_implies(tokens: &[Token]) -> Option<&[Token]>
    ensures { option_copied result ≡ spec.after_implies tokens.now }
{
    match tokens {
        [Token::Implies, rest @ ..] => Some(rest),
        _ => None,
    }
}

// What binds more tightly than `=>`.
#[cycle(formula)]
#[tactic(auto, unfolding(crate::specs::Reading::operand_at))]
fn operand(alloc: Global, levels: u32, tokens: &[Token]) -> Result<(Formula, &[Token]), Stop>
    ensures { Gives (λ x. (formula_tree x.0, x.1.now)) result (operand_at levels tokens.now) }
{
    match tokens {
        [Token::True, rest @ ..] => Ok((Formula::Holds(Term::Truth(true)), rest)),
        [Token::False, rest @ ..] => Ok((Formula::Holds(Term::Truth(false)), rest)),
        [Token::Bottom, rest @ ..] => Ok((Formula::Bottom, rest)),
        [Token::Open, rest @ ..] => {
            let levels = one_less(levels)?;
            let (a, rest) = formula(alloc, levels, rest)?;
            Ok((a, close(rest)?))
        }
        [Token::Not, rest @ ..] => {
            let levels = one_less(levels)?;
            let (a, rest) = operand(alloc, levels, rest)?;
            Ok((implied(alloc, a, Formula::Bottom)?, rest))
        }
        _ => Err(Stop::Unread),
    }
}

fn one_less(levels: u32) -> Result<u32, Stop>
    ensures ok { IfOk result (λ less. levels ≡ less + 1) }
    ensures none { IfErr result (λ e. (e ≡ stops.Unread) × (levels ≡ 0)) }
{
    levels.checked_sub(1).ok_or(Stop::Unread)
}

/// A formula that fits.
#[tactic(auto, unfolding(crate::specs::Reading::fitting_at))]
pub(crate) fn fitting(alloc: Global, tokens: &[Token]) -> Result<(Formula, &[Token]), Stop>
    ensures { Gives (λ x. (formula_tree x.0, x.1.now)) result (fitting_at tokens.now) }
{
    let (a, rest) = formula(alloc, NESTING, tokens)?;
    if !fits(&a) {
        return Err(Stop::Unread);
    }
    Ok((a, rest))
}

// The hypothesis of that number from the oldest, under so many.
fn hypothesis(hypotheses: u32, tokens: &[Token]) -> Result<(Proof, &[Token]), Stop>
    ensures { Gives (λ x. (proof_tree x.0, x.1.now)) result (hypothesis_at hypotheses tokens.now) }
{
    match tokens {
        [Token::Number(number), rest @ ..] if *number < hypotheses => {
            Ok((Proof::Hyp(hypotheses - 1 - *number), rest))
        }
        _ => Err(Stop::Unread),
    }
}

#[inline(never)]
fn abstracted(alloc: Global, a: Formula, p: Proof) -> Result<Proof, Stop>
    ensures made { IfOk result (λ c. proof_tree c ≡ lambda (formula_tree a) (proof_tree p)) }
    ensures fault { IfErr result (λ e. e ≡ stops.NoMemory) }
{
    Ok(Proof::Lam(a, Box::new(alloc, p)?))
}

#[inline(never)]
fn applied(alloc: Global, p: Proof, q: Proof) -> Result<Proof, Stop>
    ensures made { IfOk result (λ c. proof_tree c ≡ application (proof_tree p) (proof_tree q)) }
    ensures fault { IfErr result (λ e. e ≡ stops.NoMemory) }
{
    Ok(Proof::App(Box::new(alloc, p)?, Box::new(alloc, q)?))
}

/// A proof of at most so many levels under so many hypotheses.
#[cycle(proof)]
#[tactic(auto, unfolding(crate::specs::Reading::proof_at))]
pub(crate) fn proof(
    alloc: Global,
    levels: u32,
    hypotheses: u32,
    tokens: &[Token],
) -> Result<(Proof, &[Token]), Stop>
    requires { hypotheses + levels < 2 ^ 32 }
    ensures { Gives (λ x. (proof_tree x.0, x.1.now)) result (proof_at levels hypotheses tokens.now) }
{
    let levels = one_less(levels)?;
    match tokens {
        [Token::Hash, rest @ ..] => hypothesis(hypotheses, rest),
        [Token::Lam, rest @ ..] => abstraction(alloc, levels, hypotheses + 1, rest),
        [Token::App, rest @ ..] => application(alloc, levels, hypotheses, rest),
        _ => Err(Stop::Unread),
    }
}

// What follows `lam`; the hypotheses are those of the part.
#[cycle(proof)]
fn abstraction(
    alloc: Global,
    levels: u32,
    hypotheses: u32,
    tokens: &[Token],
) -> Result<(Proof, &[Token]), Stop>
    requires { hypotheses + levels < 2 ^ 32 }
    ensures { Gives (λ x. (proof_tree x.0, x.1.now)) result (lambda_by (proof_at levels hypotheses) tokens.now) }
{
    let (a, rest) = fitting(alloc, open(tokens)?)?;
    let (p, rest) = proof(alloc, levels, hypotheses, comma(rest)?)?;
    let rest = close(rest)?;
    Ok((abstracted(alloc, a, p)?, rest))
}

// What follows `app`.
#[cycle(proof)]
fn application(
    alloc: Global,
    levels: u32,
    hypotheses: u32,
    tokens: &[Token],
) -> Result<(Proof, &[Token]), Stop>
    requires { hypotheses + levels < 2 ^ 32 }
    ensures { Gives (λ x. (proof_tree x.0, x.1.now)) result (application_by (proof_at levels hypotheses) tokens.now) }
{
    let (p, rest) = proof(alloc, levels, hypotheses, open(tokens)?)?;
    let (q, rest) = proof(alloc, levels, hypotheses, comma(rest)?)?;
    let rest = close(rest)?;
    Ok((applied(alloc, p, q)?, rest))
}
