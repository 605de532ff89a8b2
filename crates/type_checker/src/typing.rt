//! The formula of a proof.

ghost use Rattle.std.specs.Prelude.{◌<◌, ◌^◌, length, IfOk, IfErr};
ghost use Rattle.formulas.specs.Tree.{FormulaTree, formula_tree};
ghost use Rattle.formulas.specs.Context.{variables_of, hypotheses_of};
ghost use Rattle.proof_terms.specs.Tree.{proof_tree};
ghost use Rattle.type_checker.specs.Place.{proof_nodes, AreAssumable, IsFirstUntyped, IfAt};
ghost use Rattle.type_checker.specs.Typing.{Has};

use crate::gather::gathered;
use crate::scope::Scope;
use crate::typed::owned;
use crate::untyped::Untyped;
use crate::walk::walk;
use ck_base::Decls;
use formulas::{Context, Formula};
use proof_terms::Proof;
use sorted_terms::Variables;
use std::alloc::Global;

/// The formula that the proof has in the context, by the rules of formulas as types (Barendregt 1992) with
/// those of disjunctions, existential formulas, equality, induction and computing.
///
/// `Untyped::At` where it has none: `place` is the number of the first subproof that has none in its own
/// context. Proof nodes are numbered from 0 in post-order. A part is counted and passed over where its
/// context is not determined: under a formula that does not fit or is not well-sorted, and in `Cases` and
/// `Unpack` where the first part is no disjunction or existential formula. `Untyped::NoMemory` where a
/// request for memory was refused.
pub fn type_of<'f>(
    alloc: Global,
    decls: &Decls,
    context: &'f Context,
    p: &'f Proof,
) -> Result<Formula, Untyped>
    requires sorts { length (variables_of context.now) < 2 ^ 30 }
    requires assumed { AreAssumable decls.now (variables_of context.now) (hypotheses_of context.now) }
    requires few { proof_nodes (proof_tree p.now) < 2 ^ 31 }

    ensures ok { IfOk result (λ a. Has decls.now (variables_of context.now) (hypotheses_of context.now) (proof_tree p.now) (formula_tree a)) }
    ensures none { IfErr result (λ e. IfAt e (λ _. (a : FormulaTree) → Has decls.now (variables_of context.now) (hypotheses_of context.now) (proof_tree p.now) a → ⊥)) }
    ensures place { IfErr result (λ e. IfAt e (IsFirstUntyped decls.now (variables_of context.now) (hypotheses_of context.now) (proof_tree p.now))) }
{
    let variables = Variables::Outer(&context.sorts);
    let interner = gathered(alloc, p)?;
    let scope = Scope::Outer(&*context);
    let (found, _) = walk(alloc, &interner, decls, &variables, &scope, p, 0)?;
    Ok(owned(alloc, &interner, found)?)
}
