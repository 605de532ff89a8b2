//! What the tests of proofs ask: a proof is read from its text, and the answer is a text too.

ghost use Rattle.std.specs.Prelude.{◌≡◌, ◌<◌, ◌≤◌, ◌^◌, IfOk, IsTrue};
ghost use Rattle.proof_terms.specs.Tree.{proof_tree};
ghost use Rattle.proof_terms.specs.Size.{proof_size};
ghost use Rattle.proof_terms.specs.Holes.{hole_count, times};

use ck_base::{DeclFault, Decls, Kind, List, NoMemory, Scope, Sort, Text};
use ck_text::{print_formula, print_proof, read_proof};
use formulas::Context;
use proof_terms::{Proof, copy, depth, fill, holes, path_to, size, unfill};
use std::alloc::Global;
use type_checker::{Untyped, type_of};

// The most bytes of a text that a test reads.
const MOST: usize = 65_536;

/// What is asked of a proof.
#[derive(Clone, Copy)]
pub(crate) enum Ask<'a> {
    /// Its formula without variables and hypotheses, or the place where it has none.
    Formula,
    /// A copy, printed in the scope that the proof is read in.
    Copy,
    /// Its levels and nodes, and its holes in preorder.
    Measures,
    /// The proof with the hole filled by another, or what is handed back.
    Fill(u32, &'a [u8]),
    /// The path of the hole, and the proof where hole 9 stands there.
    Unfill(u32),
}

/// No variable and no hypothesis.
pub(crate) const CLOSED: Scope = Scope { sorts: 0, hyps: 0 };

// Nine hypotheses.
const WIDE: Scope = Scope { sorts: 0, hyps: 9 };

/// The question about the proof of that text has that answer.
pub(crate) fn answers(
    alloc: Global,
    ask: Ask,
    text: &[u8],
    wanted: &[u8],
) -> Result<bool, DeclFault> {
    Ok(answer(alloc, ask, CLOSED, text)?.as_bytes() == wanted)
}

/// The proof of that text has the printed formula.
pub(crate) fn has(alloc: Global, text: &[u8], wanted: &[u8]) -> Result<bool, DeclFault> {
    answers(alloc, Ask::Formula, text, wanted)
}

/// The proof of that text has no formula, by its part with that number.
pub(crate) fn lacks(alloc: Global, text: &[u8], place: u32) -> Result<bool, DeclFault> {
    answers(
        alloc,
        Ask::Formula,
        text,
        format!(in alloc; "place {place}")?.as_bytes(),
    )
}

/// The text is read as a proof, and printed and copied as it stands.
pub(crate) fn copies(alloc: Global, text: &[u8]) -> Result<bool, DeclFault> {
    copies_under(alloc, WIDE, text)
}

/// The same in a scope.
pub(crate) fn copies_under(alloc: Global, scope: Scope, text: &[u8]) -> Result<bool, DeclFault> {
    Ok(answer(alloc, Ask::Copy, scope, text)?.as_bytes() == text)
}

/// What is answered to the question about the proof of that text in that scope, or the fault of the text.
pub(crate) fn answer(
    alloc: Global,
    ask: Ask,
    scope: Scope,
    text: &[u8],
) -> Result<Text, DeclFault> {
    let decls = names(alloc)?;
    let mut out = Text::new(alloc);
    if text.len() > MOST || scope.sorts > 9 || scope.hyps > 9 {
        return Ok(out);
    }
    match read_proof(alloc, &decls, scope, text) {
        Ok(p) => asked(alloc, &decls, ask, scope, p, &mut out)?,
        Err(fault) => out.append(format!(in alloc; "{fault}")?.as_bytes())?,
    }
    Ok(out)
}

/// Two truth values and two integers.
pub(crate) fn names(alloc: Global) -> Result<Decls, DeclFault> {
    let mut decls = Decls::new(alloc);
    decls.add("a", Kind::Constant, Sort::Bool)?;
    decls.add("b", Kind::Constant, Sort::Bool)?;
    decls.add("x", Kind::Variable, Sort::Int)?;
    decls.add("y", Kind::Variable, Sort::Int)?;
    Ok(decls)
}

// The answer.
fn asked(
    alloc: Global,
    decls: &Decls,
    ask: Ask,
    scope: Scope,
    p: Proof,
    out: &mut Text,
) -> Result<(), NoMemory>
    requires { proof_size (proof_tree p) < 2 ^ 31 }
{
    let mut p = p;
    match ask {
        Ask::Formula => formula(alloc, decls, &p, out),
        Ask::Copy => print_proof(decls, scope, &copy(alloc, &p)?, out),
        Ask::Measures => measured(alloc, &p, out),
        Ask::Fill(k, text) => filled(alloc, decls, &mut p, k, text, out),
        Ask::Unfill(k) => unfilled(alloc, decls, &mut p, k, out),
    }
}

fn printed(decls: &Decls, p: &Proof, out: &mut Text) -> Result<(), NoMemory> {
    print_proof(decls, WIDE, p, out)
}

#[tactic(auto, using(cert_check::proofs::Built::nodes_within_size))]
fn formula(alloc: Global, decls: &Decls, p: &Proof, out: &mut Text) -> Result<(), NoMemory>
    requires { proof_size (proof_tree p.now) < 2 ^ 31 }
{
    let context = Context {
        sorts: List::new(alloc),
        hyps: List::new(alloc),
    };
    match type_of(alloc, decls, &context, p) {
        Ok(a) => print_formula(decls, CLOSED, &a, out),
        Err(Untyped::At { place }) => out.append(format!(in alloc; "place {place}")?.as_bytes()),
        Err(Untyped::NoMemory) => Err(NoMemory),
    }
}

// `levels 3, nodes 7, holes 1 2`
fn measured(alloc: Global, p: &Proof, out: &mut Text) -> Result<(), NoMemory>
    requires { proof_size (proof_tree p.now) < 2 ^ 31 }
{
    let (levels, nodes) = (depth(p), size(p));
    out.append(format!(in alloc; "levels {levels}, nodes {nodes}, holes")?.as_bytes())?;
    for k in holes(alloc, p)?.as_slice() {
        out.append(format!(in alloc; " {k}")?.as_bytes())?;
    }
    Ok(())
}

// The proof with the hole filled, or what is handed back.
fn filled(
    alloc: Global,
    decls: &Decls,
    p: &mut Proof,
    k: u32,
    text: &[u8],
    out: &mut Text,
) -> Result<(), NoMemory> {
    if text.len() > MOST || !has_once(alloc, p, k)? {
        return Ok(());
    }
    match read_proof(alloc, decls, WIDE, text) {
        Ok(fragment) => match fill(p, k, fragment) {
            Ok(()) => printed(decls, p, out),
            Err(fragment) => {
                printed(decls, p, out)?;
                out.append(b" and ")?;
                printed(decls, &fragment, out)
            }
        },
        Err(_) => Ok(()),
    }
}

// The path of the hole, and the proof where hole 9 stands there.
fn unfilled(
    alloc: Global,
    decls: &Decls,
    p: &mut Proof,
    k: u32,
    out: &mut Text,
) -> Result<(), NoMemory> {
    if !has_once(alloc, p, k)? {
        return Ok(());
    }
    let Some(path) = path_to(alloc, p, k)? else {
        return out.append(b"no path");
    };
    for part in path.as_slice() {
        out.append(format!(in alloc; "{part} ")?.as_bytes())?;
    }
    let former = unfill(p, &path, 9);
    printed(decls, p, out)?;
    out.append(b" for ")?;
    printed(decls, &former, out)
}

fn has_once(alloc: Global, p: &Proof, k: u32) -> Result<bool, NoMemory>
    ensures { IfOk result (λ once. IsTrue once → hole_count (proof_tree p.now) k ≤ 1) }
{
    Ok(is_single(holes(alloc, p)?.as_slice(), k))
}

// The number is at most once in the list.
fn is_single(numbers: &[u32], k: u32) -> bool
    ensures { IsTrue result → times k numbers.now ≤ 1 }
{
    match numbers {
        [] => true,
        [n, more @ ..] => {
            if *n == k {
                is_absent(more, k)
            } else {
                is_single(more, k)
            }
        }
    }
}

// The number is not in the list.
fn is_absent(numbers: &[u32], k: u32) -> bool
    ensures { IsTrue result → times k numbers.now ≡ 0 }
{
    match numbers {
        [] => true,
        [n, more @ ..] => *n != k && is_absent(more, k),
    }
}

/// `before` so many times, then the middle, then `after` as many times.
pub(crate) fn nested(
    alloc: Global,
    count: u32,
    before: &[u8],
    middle: &[u8],
    after: &[u8],
) -> Result<Text, NoMemory> {
    let mut text = Text::new(alloc);
    for _ in 0..count {
        text.append(before)?;
    }
    text.append(middle)?;
    for _ in 0..count {
        text.append(after)?;
    }
    Ok(text)
}

/// The parts, one after the other.
pub(crate) fn joined(alloc: Global, parts: &[&[u8]]) -> Result<Text, NoMemory> {
    let mut text = Text::new(alloc);
    for part in parts {
        text.append(part)?;
    }
    Ok(text)
}
