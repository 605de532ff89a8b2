//! Proofs out of their texts.

ghost use Rattle.std.specs.Prelude.{◌<◌, ◌≤◌, ◌*◌, ◌^◌, ℕ, true, length, IfOk, IsErrOf};
ghost use Rattle.proof_terms.specs.Tree.{proof_tree};
ghost use Rattle.proof_terms.specs.Size.{proof_depth, proof_size};
ghost use Rattle.ck_base.specs.declared.limits.TheConstants.{FORMULA_DEPTH, NESTING, PROOF_DEPTH};
ghost use Rattle.ck_text.specs.declared.text_fault.TextFault.TheVariants as fault;
ghost use Rattle.ck_text.specs.ProofTexts.{whole_proof_scope};
ghost use Rattle.ck_text.specs.ProofReading.{ProofMeans, IsProofSyntaxFault, IsProofDepthFault, IsProofNameFault};
ghost use Rattle.ck_text.specs.ProofItems as spec;
ghost use Rattle.ck_text.specs.ProofViews as views;

use crate::proof_calls::ProofScope;
use crate::proof_reader::{Whole, run};
use crate::reader::{Stop, column};
use crate::scan::tokens;
use crate::text_fault::TextFault;
use ck_base::{Decls, Scope};
use proof_terms::Proof;
use std::alloc::Global;

/// The proof term that the text means in a scope.
///
/// `#k` is hypothesis `k` of the scope and of the rules around it, the oldest being 0; `?k` is hole `k`.
///
/// `Syntax` where the text is no proof, at the first token with which none begins, also where more than 2,048
/// proofs are open at once; `Deep` where a term or formula in it has more than 256 levels, at the first token
/// of the first such one; `Unknown` where a name or `#k` in it means nothing; `NoMemory`.
pub fn read_proof(
    alloc: Global,
    decls: &Decls,
    scope: Scope,
    text: &[u8],
) -> Result<Proof, TextFault>
    requires few { length text.now < 2 ^ 31 }
    requires variables { scope.sorts < 2 ^ 31 }
    requires hypotheses { scope.hyps < 2 ^ 31 }
    ensures means { IfOk result (λ p. ProofMeans NESTING PROOF_DEPTH FORMULA_DEPTH true (whole_proof_scope decls.now scope.sorts scope.hyps) text.now (proof_tree p)) }
    ensures levels { IfOk result (λ p. proof_depth (proof_tree p) ≤ PROOF_DEPTH) }
    ensures nodes { IfOk result (λ p. proof_size (proof_tree p) ≤ 2 * length text.now) }
    ensures syntax { (column : ℕ) → IsErrOf result (fault.Syntax column) → IsProofSyntaxFault NESTING PROOF_DEPTH true text.now column }
    ensures deep { (column : ℕ) → IsErrOf result (fault.Deep column) → IsProofDepthFault NESTING PROOF_DEPTH FORMULA_DEPTH true text.now column }
    ensures unknown { (column : ℕ) → IsErrOf result (fault.Unknown column) → IsProofNameFault NESTING PROOF_DEPTH FORMULA_DEPTH true (whole_proof_scope decls.now scope.sorts scope.hyps) text.now column }
{
    proof(alloc, decls, scope, true, text)
}

// The proof term, with holes or without.
fn proof(
    alloc: Global,
    decls: &Decls,
    scope: Scope,
    holes: bool,
    text: &[u8],
) -> Result<Proof, TextFault>
    requires few { length text.now < 2 ^ 31 }
    requires variables { scope.sorts < 2 ^ 31 }
    requires hypotheses { scope.hyps < 2 ^ 31 }
    ensures { views.ReadsProof result (spec.read_proof_bytes NESTING PROOF_DEPTH FORMULA_DEPTH holes (whole_proof_scope decls.now scope.sorts scope.hyps) text.now) }
{
    let outer = ProofScope {
        names: &*decls,
        variables: scope.sorts,
        hypotheses: scope.hyps,
    };
    let placed = tokens(alloc, text)?;
    match run(alloc, holes, outer, placed.as_slice()) {
        Ok(whole) => answer(text, whole),
        Err(Stop::At(left)) => Err(TextFault::Syntax {
            column: column(text, left),
        }),
        Err(Stop::NoMemory) => Err(TextFault::NoMemory),
    }
}

// The proof, or the first of its faults.
fn answer(text: &[u8], whole: Whole) -> Result<Proof, TextFault>
    requires { length text.now < 2 ^ 31 }
    ensures { views.ReadsProof result (spec.or_deep text.now (proof_tree whole.proof.value) whole.deep whole.unknown) }
{
    if let Some(left) = whole.deep {
        return Err(TextFault::Deep {
            column: column(text, left),
        });
    }
    match whole.unknown {
        Some(left) => Err(TextFault::Unknown {
            column: column(text, left),
        }),
        None => Ok(Box::into_inner(whole.proof)),
    }
}
