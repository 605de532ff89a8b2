//! Terms and formulas out of their texts.

ghost use Rattle.std.specs.Prelude.{◌≡◌, ◌<◌, ◌≤◌, ◌*◌, ◌^◌, ℕ, true, false, length, IfOk, IsErrOf};
ghost use Rattle.sorted_terms.specs.Tree.{term_tree};
ghost use Rattle.formulas.specs.Tree.{formula_tree};
ghost use Rattle.sorted_terms.specs.Sorts.{term_size, term_depth};
ghost use Rattle.formulas.specs.Sorts.{size, depth, fits};
ghost use Rattle.ck_base.specs.declared.limits.TheConstants.{FORMULA_DEPTH, LINE_BYTES, NESTING};
ghost use Rattle.ck_text.specs.declared.text_fault.TextFault.TheVariants as fault;
ghost use Rattle.ck_text.specs.Texts.{whole_scope};
ghost use Rattle.ck_text.specs.Reading.{of_term, of_formula, Means, IsSyntaxFault, IsDepthFault, IsNameFault};

use crate::items::{as_formula, as_term};
use crate::reader::item;
use crate::text_fault::TextFault;
use ck_base::{Decls, Scope};
use formulas::Formula;
use sorted_terms::Term;
use std::alloc::Global;

/// The term that the text means in a scope.
///
/// `Syntax` where the text is no term, at the first token with which none begins; `Deep` where its tree has
/// more than 256 levels; `Unknown` where a name in it means nothing; `NoMemory`.
pub fn read_term(alloc: Global, decls: &Decls, scope: Scope, text: &[u8]) -> Result<Term, TextFault>
    requires few { length text.now < 2 ^ 31 }
    requires variables { scope.sorts < 2 ^ 31 }
    ensures means { IfOk result (λ t. Means NESTING FORMULA_DEPTH true (whole_scope decls.now scope.sorts) text.now (of_term (term_tree t))) }
    ensures levels { IfOk result (λ t. term_depth (term_tree t) ≤ FORMULA_DEPTH) }
    ensures nodes { IfOk result (λ t. term_size (term_tree t) ≤ length text.now) }
    ensures syntax { (column : ℕ) → IsErrOf result (fault.Syntax column) → IsSyntaxFault NESTING true text.now column }
    ensures deep { (column : ℕ) → IsErrOf result (fault.Deep column) → IsDepthFault NESTING FORMULA_DEPTH true text.now column }
    ensures unknown { (column : ℕ) → IsErrOf result (fault.Unknown column) → IsNameFault NESTING FORMULA_DEPTH true (whole_scope decls.now scope.sorts) text.now column }
{
    match item(alloc, decls, scope.sorts, true, text) {
        Ok(i) => Ok(as_term(i.tree)),
        Err(fault) => Err(fault),
    }
}

/// The formula that the text means in a scope, a quantifier without a sort being over int.
///
/// `Syntax` where the text is no formula, at the first token with which none begins; `Deep` where its tree has
/// more than 256 levels; `Unknown` where a name in it means nothing; `NoMemory`. A formula out of a text of at
/// most 8,192 bytes fits.
pub fn read_formula(
    alloc: Global,
    decls: &Decls,
    scope: Scope,
    text: &[u8],
) -> Result<Formula, TextFault>
    requires few { length text.now < 2 ^ 31 }
    requires variables { scope.sorts < 2 ^ 31 }
    ensures means { IfOk result (λ a. Means NESTING FORMULA_DEPTH false (whole_scope decls.now scope.sorts) text.now (of_formula (formula_tree a))) }
    ensures levels { IfOk result (λ a. depth (formula_tree a) ≤ FORMULA_DEPTH) }
    ensures nodes { IfOk result (λ a. size (formula_tree a) ≤ 2 * length text.now) }
    ensures fits { length text.now ≤ LINE_BYTES → IfOk result (λ a. fits (formula_tree a) ≡ true) }
    ensures syntax { (column : ℕ) → IsErrOf result (fault.Syntax column) → IsSyntaxFault NESTING false text.now column }
    ensures deep { (column : ℕ) → IsErrOf result (fault.Deep column) → IsDepthFault NESTING FORMULA_DEPTH false text.now column }
    ensures unknown { (column : ℕ) → IsErrOf result (fault.Unknown column) → IsNameFault NESTING FORMULA_DEPTH false (whole_scope decls.now scope.sorts) text.now column }
{
    match item(alloc, decls, scope.sorts, false, text) {
        Ok(i) => Ok(as_formula(i.tree)),
        Err(fault) => Err(fault),
    }
}
