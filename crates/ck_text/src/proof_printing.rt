//! The printed bytes of proofs.

ghost use Rattle.std.specs.Prelude.{◌≡◌, ◌++◌, OnOk, OnErr, codes};
ghost use Rattle.formulas.specs.Tree.{formula_tree};
ghost use Rattle.proof_terms.specs.Tree.{proof_tree};
ghost use Rattle.sorted_terms.specs.Tree.{term_tree};
ghost use Rattle.ck_text.specs.Printing.{term_bytes, formula_bytes};
ghost use Rattle.ck_text.specs.Printers.{Extends};
ghost use Rattle.ck_text.specs.ProofPrinting.{sort_word, proof_bytes};
ghost use Rattle.ck_text.specs.ProofPrinters.{opening as opening_bytes, before_parts};

use crate::printing::{inside, place, write_bare_formula, write_bare_term, write_decimal};
use ck_base::{Decls, NoMemory, Scope, Sort, Text};
use formulas::Formula;
use proof_terms::Proof;
use sorted_terms::Term;

/// Adds the text of the proof, as it stands alone in the scope. Where its names are declared, its indices are
/// those of variables and hypotheses around, and it has at most 2,048 levels, that text means the proof. After
/// `NoMemory` the text is as before.
pub fn print_proof(decls: &Decls, scope: Scope, p: &Proof, out: &mut Text) -> Result<(), NoMemory>
    ensures ok { OnOk result (out.new ≡ out.old ++ proof_bytes decls.now scope.sorts scope.hyps (proof_tree p.now)) }
    ensures err { OnErr result (out.new ≡ out.old) }
{
    let len = out.as_bytes().len();
    match write_proof(decls, scope.sorts as u64, scope.hyps as u64, p, out) {
        Ok(()) => Ok(()),
        Err(fault) => {
            out.cut(len);
            Err(fault)
        }
    }
}

// The proof under so many variables and hypotheses.
fn write_proof(
    decls: &Decls,
    variables: u64,
    hypotheses: u64,
    p: &Proof,
    out: &mut Text,
) -> Result<(), NoMemory>
    ensures ok { OnOk result (out.new ≡ out.old ++ proof_bytes decls.now variables hypotheses (proof_tree p.now)) }
    ensures err { OnErr result (Extends out.old out.new) }
{
    write_front(decls, variables, hypotheses, p, out)?;
    match p {
        Proof::Hyp(_)
        | Proof::Refl(_)
        | Proof::Axiom(_)
        | Proof::Induct(_)
        | Proof::Compute(_)
        | Proof::Ring(_, _)
        | Proof::Hole(_) => Ok(()),
        Proof::First(part)
        | Proof::Second(part)
        | Proof::LeftOf(_, part)
        | Proof::RightOf(_, part)
        | Proof::Pack(_, _, _, part)
        | Proof::Absurd(_, part)
        | Proof::Stable(part) => {
            write_proof(decls, variables, hypotheses, part, out)?;
            out.append(b")")
        }
        Proof::Lam(_, part) => {
            write_proof(decls, variables, inside(hypotheses)?, part, out)?;
            out.append(b")")
        }
        Proof::Gen(_, part) => {
            write_proof(decls, inside(variables)?, hypotheses, part, out)?;
            out.append(b")")
        }
        Proof::Inst(part, t) => {
            write_proof(decls, variables, hypotheses, part, out)?;
            out.append(b", ")?;
            write_last_term(decls, variables, t, out)
        }
        Proof::App(left, right) | Proof::Pair(left, right) | Proof::Rewrite(_, left, right) => {
            write_proof(decls, variables, hypotheses, left, out)?;
            out.append(b", ")?;
            write_proof(decls, variables, hypotheses, right, out)?;
            out.append(b")")
        }
        Proof::Unpack(part, rest) => {
            write_proof(decls, variables, hypotheses, part, out)?;
            out.append(b", ")?;
            write_proof(decls, inside(variables)?, inside(hypotheses)?, rest, out)?;
            out.append(b")")
        }
        Proof::Cases(part, left, right) => {
            write_proof(decls, variables, hypotheses, part, out)?;
            out.append(b", ")?;
            write_proof(decls, variables, inside(hypotheses)?, left, out)?;
            out.append(b", ")?;
            write_proof(decls, variables, inside(hypotheses)?, right, out)?;
            out.append(b")")
        }
    }
}

// All that stands before the first proof in it; the whole proof where there is none.
#[inline(never)]
fn write_front(
    decls: &Decls,
    variables: u64,
    hypotheses: u64,
    p: &Proof,
    out: &mut Text,
) -> Result<(), NoMemory>
    ensures ok { OnOk result (out.new ≡ out.old ++ (opening_bytes (proof_tree p.now) ++ before_parts decls.now variables hypotheses (proof_tree p.now))) }
    ensures err { OnErr result (Extends out.old out.new) }
{
    out.append(opening(p))?;
    match p {
        Proof::Hyp(index) => write_decimal(place(hypotheses, *index) as u128, out),
        Proof::Hole(number) => write_decimal(*number as u128, out),
        Proof::Axiom(number) => {
            write_decimal(*number as u128, out)?;
            out.append(b")")
        }
        Proof::Refl(t) | Proof::Compute(t) => write_last_term(decls, variables, t, out),
        Proof::Ring(s, t) => {
            write_term(decls, variables, s, out)?;
            write_last_term(decls, variables, t, out)
        }
        Proof::Induct(a) => {
            write_bare_formula(decls, inside(variables)?, a, out)?;
            out.append(b")")
        }
        Proof::Gen(sort, _) => write_sort(*sort, out),
        Proof::Pack(sort, a, t, _) => {
            write_sort(*sort, out)?;
            write_formula(decls, inside(variables)?, a, out)?;
            write_term(decls, variables, t, out)
        }
        Proof::Rewrite(a, _, _) => write_formula(decls, inside(variables)?, a, out),
        Proof::Lam(a, _) | Proof::LeftOf(a, _) | Proof::RightOf(a, _) | Proof::Absurd(a, _) => {
            write_formula(decls, variables, a, out)
        }
        _ => Ok(()),
    }
}

// What a proof begins with.
fn opening(p: &Proof) -> &'static [u8]
    ensures { result.now ≡ opening_bytes (proof_tree p.now) }
{
    match p {
        Proof::Hyp(_) => b"#",
        Proof::Lam(_, _) => b"lam(",
        Proof::App(_, _) => b"app(",
        Proof::Gen(_, _) => b"gen(",
        Proof::Inst(_, _) => b"inst(",
        Proof::Pair(_, _) => b"pair(",
        Proof::First(_) => b"first(",
        Proof::Second(_) => b"second(",
        Proof::LeftOf(_, _) => b"left(",
        Proof::RightOf(_, _) => b"right(",
        Proof::Cases(_, _, _) => b"cases(",
        Proof::Pack(_, _, _, _) => b"pack(",
        Proof::Unpack(_, _) => b"unpack(",
        Proof::Absurd(_, _) => b"absurd(",
        Proof::Stable(_) => b"stable(",
        Proof::Refl(_) => b"refl(",
        Proof::Rewrite(_, _, _) => b"rewrite(",
        Proof::Axiom(_) => b"axiom(",
        Proof::Induct(_) => b"induct(",
        Proof::Compute(_) => b"compute(",
        Proof::Ring(_, _) => b"ring(",
        Proof::Hole(_) => b"?",
    }
}

// A sort, a formula or a term with more arguments behind it.
fn write_sort(sort: Sort, out: &mut Text) -> Result<(), NoMemory>
    ensures ok { OnOk result (out.new ≡ out.old ++ (sort_word sort ++ codes ", ")) }
    ensures err { OnErr result (Extends out.old out.new) }
{
    match sort {
        Sort::Int => out.append(b"int, "),
        Sort::Bool => out.append(b"bool, "),
    }
}

fn write_formula(decls: &Decls, variables: u64, a: &Formula, out: &mut Text) -> Result<(), NoMemory>
    ensures ok { OnOk result (out.new ≡ out.old ++ (formula_bytes decls.now variables (formula_tree a.now) ++ codes ", ")) }
    ensures err { OnErr result (Extends out.old out.new) }
{
    write_bare_formula(decls, variables, a, out)?;
    out.append(b", ")
}

fn write_term(decls: &Decls, variables: u64, t: &Term, out: &mut Text) -> Result<(), NoMemory>
    ensures ok { OnOk result (out.new ≡ out.old ++ (term_bytes decls.now variables (term_tree t.now) ++ codes ", ")) }
    ensures err { OnErr result (Extends out.old out.new) }
{
    write_bare_term(decls, variables, t, out)?;
    out.append(b", ")
}

// A term as the last argument.
fn write_last_term(decls: &Decls, variables: u64, t: &Term, out: &mut Text) -> Result<(), NoMemory>
    ensures ok { OnOk result (out.new ≡ out.old ++ (term_bytes decls.now variables (term_tree t.now) ++ codes ")")) }
    ensures err { OnErr result (Extends out.old out.new) }
{
    write_bare_term(decls, variables, t, out)?;
    out.append(b")")
}
