//! The parts of certificates, each with the bytes after it.

ghost use Rattle.std.specs.Prelude.{◌≡◌, ◌<◌, ◌≤◌, ◌*◌, ◌^◌, ◌==◌, IfOk, IfErr};
ghost use Rattle.sorted_terms.specs.Tree.{term_tree};
ghost use Rattle.formulas.specs.Tree.{formula_tree};
ghost use Rattle.proof_terms.specs.Tree.{lambda, application, proof_tree};
ghost use Rattle.cert_codec.specs.declared.stop.Stop.TheVariants as stops;
ghost use Rattle.cert_codec.specs.Tree.{node_tree, certificate_tree};
ghost use Rattle.cert_codec.specs.Reading.{Gives, one, high_at, number_at, term_at, implication, formula_at, proof_at, node_at, certificate_at};

use crate::certificate::{Node, RawCertificate};
use crate::stop::{Stop, malformed};
use crate::tags::{
    APP, BOTTOM, FALSE, HIGH_BIT, HOLDS, HYP, IMP, LAM, MAGIC, NO_NAMES, SKIP, TRUE,
};
use ck_base::List;
use formulas::Formula;
use proof_terms::Proof;
use sorted_terms::Term;
use std::alloc::Global;

/// At most so many bytes follow the second one of a number.
const MORE_DIGITS: u32 = 3;

/// No formula has more levels.
const MAX_FORMULA_LEVELS: u32 = 256;

/// No proof of a node has more levels.
const MAX_LEVELS: u32 = 2_048;

/// The bytes after this one.
fn expect(tag: u8, bytes: &[u8]) -> Result<&[u8], Stop>
    ensures { Gives (λ rest. (tag, rest.now)) result (one (λ x. x == tag) bytes.now) }
{
    match bytes {
        [first, rest @ ..] if *first == tag => Ok(rest),
        _ => Err(malformed(bytes)),
    }
}

/// What a number's bytes after the first add up to, seven bits each: one byte and at most `more` others.
/// The last one is not 0, since the number has a spelling of fewer bytes then.
#[tactic(auto, unfolding(crate::specs::Reading::high_at))]
fn high_of(more: u32, bytes: &[u8]) -> Result<(u32, &[u8]), Stop>
    requires { more ≤ 3 }
    ensures gives { Gives (λ x. (x.0, x.1.now)) result (high_at more bytes.now) }
    ensures below { IfOk result (λ x. x.0 < 16 * 128 ^ more) }
{
    let [first, rest @ ..] = bytes else {
        return Err(malformed(bytes));
    };
    let first = *first;
    let limit = if more == 0 { 16 } else { HIGH_BIT };
    if first == 0 {
        return Err(malformed(bytes));
    }
    if first < limit {
        return Ok((u32::from(first), rest));
    }
    if more == 0 {
        return Err(malformed(bytes));
    }
    let (high, rest) = high_of(more - 1, rest)?;
    Ok((128 * high + u32::from(first - HIGH_BIT), rest))
}

#[tactic(auto, unfolding(crate::specs::Reading::number_at))]
fn number_of(bytes: &[u8]) -> Result<(u32, &[u8]), Stop>
    ensures { Gives (λ x. (x.0, x.1.now)) result (number_at bytes.now) }
{
    let [first, rest @ ..] = bytes else {
        return Err(malformed(bytes));
    };
    let first = *first;
    if first < HIGH_BIT {
        return Ok((u32::from(first), rest));
    }
    let (high, rest) = high_of(MORE_DIGITS, rest)?;
    Ok((128 * high + u32::from(first - HIGH_BIT), rest))
}

#[tactic(auto, unfolding(crate::specs::Reading::term_at))]
fn term_of(levels: u32, bytes: &[u8]) -> Result<(Term, &[u8]), Stop>
    ensures { Gives (λ x. (term_tree x.0, x.1.now)) result (term_at levels bytes.now) }
{
    if levels == 0 {
        return Err(malformed(bytes));
    }
    match bytes {
        [FALSE, rest @ ..] => Ok((Term::Truth(false), rest)),
        [TRUE, rest @ ..] => Ok((Term::Truth(true), rest)),
        _ => Err(malformed(bytes)),
    }
}

/// The implication. Apart from the recursion, which keeps its frame small.
#[inline(never)]
fn implied(alloc: Global, a: Formula, b: Formula) -> Result<Formula, Stop>
    ensures made { IfOk result (λ c. formula_tree c ≡ implication (formula_tree a) (formula_tree b)) }
    ensures fault { IfErr result (λ e. e ≡ stops.NoMemory) }
{
    Ok(Formula::Imp(Box::new(alloc, a)?, Box::new(alloc, b)?))
}

#[tactic(auto, unfolding(crate::specs::Reading::formula_at))]
fn formula_of(alloc: Global, levels: u32, bytes: &[u8]) -> Result<(Formula, &[u8]), Stop>
    ensures { Gives (λ x. (formula_tree x.0, x.1.now)) result (formula_at levels bytes.now) }
{
    if levels == 0 {
        return Err(malformed(bytes));
    }
    match bytes {
        [BOTTOM, rest @ ..] => Ok((Formula::Bottom, rest)),
        [HOLDS, rest @ ..] => {
            let (t, rest) = term_of(levels - 1, rest)?;
            Ok((Formula::Holds(t), rest))
        }
        [IMP, rest @ ..] => {
            let (a, rest) = formula_of(alloc, levels - 1, rest)?;
            let (b, rest) = formula_of(alloc, levels - 1, rest)?;
            Ok((implied(alloc, a, b)?, rest))
        }
        _ => Err(malformed(bytes)),
    }
}

#[inline(never)]
fn abstracted(alloc: Global, a: Formula, p: Proof) -> Result<Proof, Stop>
    ensures made { IfOk result (λ c. proof_tree c ≡ lambda (formula_tree a) (proof_tree p)) }
    ensures fault { IfErr result (λ e. e ≡ stops.NoMemory) }
{
    Ok(Proof::Lam(a, Box::new(alloc, p)?))
}

#[inline(never)]
fn applied(alloc: Global, p: Proof, q: Proof) -> Result<Proof, Stop>
    ensures made { IfOk result (λ c. proof_tree c ≡ application (proof_tree p) (proof_tree q)) }
    ensures fault { IfErr result (λ e. e ≡ stops.NoMemory) }
{
    Ok(Proof::App(Box::new(alloc, p)?, Box::new(alloc, q)?))
}

#[tactic(auto, unfolding(crate::specs::Reading::proof_at))]
fn proof_of(alloc: Global, levels: u32, bytes: &[u8]) -> Result<(Proof, &[u8]), Stop>
    ensures { Gives (λ x. (proof_tree x.0, x.1.now)) result (proof_at levels bytes.now) }
{
    if levels == 0 {
        return Err(malformed(bytes));
    }
    match bytes {
        [HYP, rest @ ..] => {
            let (place, rest) = number_of(rest)?;
            Ok((Proof::Hyp(place), rest))
        }
        [LAM, rest @ ..] => {
            let (a, rest) = formula_of(alloc, MAX_FORMULA_LEVELS, rest)?;
            let (p, rest) = proof_of(alloc, levels - 1, rest)?;
            Ok((abstracted(alloc, a, p)?, rest))
        }
        [APP, rest @ ..] => {
            let (p, rest) = proof_of(alloc, levels - 1, rest)?;
            let (q, rest) = proof_of(alloc, levels - 1, rest)?;
            Ok((applied(alloc, p, q)?, rest))
        }
        _ => Err(malformed(bytes)),
    }
}

#[tactic(auto, unfolding(crate::specs::Reading::node_at))]
fn node_of(alloc: Global, bytes: &[u8]) -> Result<(Node, &[u8]), Stop>
    ensures { Gives (λ x. (node_tree x.0, x.1.now)) result (node_at bytes.now) }
{
    let rest = expect(SKIP, bytes)?;
    let (p, rest) = proof_of(alloc, MAX_LEVELS, rest)?;
    Ok((Node::Skip(p), rest))
}

#[tactic(auto, unfolding(crate::specs::Reading::certificate_at))]
pub(crate) fn certificate_of(alloc: Global, bytes: &[u8]) -> Result<(RawCertificate, &[u8]), Stop>
    ensures { Gives (λ x. (certificate_tree x.0, x.1.now)) result (certificate_at bytes.now) }
{
    let rest = expect(MAGIC[0], bytes)?;
    let rest = expect(MAGIC[1], rest)?;
    let rest = expect(MAGIC[2], rest)?;
    let rest = expect(MAGIC[3], rest)?;
    let rest = expect(NO_NAMES, rest)?;
    let (pre, rest) = formula_of(alloc, MAX_FORMULA_LEVELS, rest)?;
    let (post, rest) = formula_of(alloc, MAX_FORMULA_LEVELS, rest)?;
    let (node, rest) = node_of(alloc, rest)?;
    let decls = List::new(alloc);
    Ok((
        RawCertificate {
            decls,
            pre,
            post,
            node,
        },
        rest,
    ))
}
