//! The context of a place in a proof.

ghost use Rattle.std.specs.Prelude.{◌≡◌, ◌∷◌, ◌^◌, map, IfOk};
ghost use Rattle.formulas.specs.Tree.{formula_tree};
ghost use Rattle.formulas.specs.Context.{variables_of, hypotheses_of, raised, AllIndicesBelow};

use crate::copying::copy;
use crate::formula::Formula;
use crate::substitution::shift;
use ck_base::{List, NoMemory, Sort};
use std::alloc::Global;

/// What stands at a place in a proof: the sorts of the bound variables, the outermost first, and the
/// hypotheses, the oldest first.
#[derive(Drop)]
pub struct Context {
    pub sorts: List<Sort>,
    pub hyps: List<Formula>,
}

impl Context {
    /// An equal context; `NoMemory` where memory was refused.
    pub fn copy(&self, alloc: Global) -> Result<Context, NoMemory>
        ensures variables { IfOk result (λ c. variables_of c ≡ variables_of self.now) }
        ensures hypotheses { IfOk result (λ c. hypotheses_of c ≡ hypotheses_of self.now) }
    {
        Ok(Context {
            sorts: copied_sorts(alloc, self.sorts.as_slice())?,
            hyps: copied_formulas(alloc, self.hyps.as_slice())?,
        })
    }

    /// The context with the formula as the newest hypothesis; `NoMemory` where memory was refused.
    pub fn with_hyp(&self, alloc: Global, a: &Formula) -> Result<Context, NoMemory>
        ensures variables { IfOk result (λ c. variables_of c ≡ variables_of self.now) }
        ensures hypotheses { IfOk result (λ c. hypotheses_of c ≡ formula_tree a.now ∷ hypotheses_of self.now) }
    {
        let sorts = copied_sorts(alloc, self.sorts.as_slice())?;
        let mut hyps = copied_formulas(alloc, self.hyps.as_slice())?;
        hyps.push(copy(alloc, a)?)?;
        Ok(Context { sorts, hyps })
    }

    /// The context with one more bound variable, the innermost: every hypothesis is shifted by one, and no
    /// index of it may pass 2^32 - 1. `NoMemory` where memory was refused.
    pub fn with_sort(&self, alloc: Global, s: Sort) -> Result<Context, NoMemory>
        requires { AllIndicesBelow (2 ^ 32) (raised (map formula_tree self.now.hyps)) }
        ensures variables { IfOk result (λ c. variables_of c ≡ s ∷ variables_of self.now) }
        ensures hypotheses { IfOk result (λ c. hypotheses_of c ≡ raised (hypotheses_of self.now)) }
    {
        let mut sorts = copied_sorts(alloc, self.sorts.as_slice())?;
        sorts.push(s)?;
        let hyps = raised_formulas(alloc, self.hyps.as_slice())?;
        Ok(Context { sorts, hyps })
    }
}

fn copied_sorts(alloc: Global, sorts: &[Sort]) -> Result<List<Sort>, NoMemory>
    ensures { IfOk result (λ r. r ≡ sorts.now) }
{
    let mut copied = List::new(alloc);
    for sort in sorts {
        copied.push(*sort)?;
    }
    Ok(copied)
}

fn copied_formulas(alloc: Global, formulas: &[Formula]) -> Result<List<Formula>, NoMemory>
    ensures { IfOk result (λ r. map formula_tree r ≡ map formula_tree formulas.now) }
{
    let mut copied = List::new(alloc);
    for formula in formulas {
        copied.push(copy(alloc, formula)?)?;
    }
    Ok(copied)
}

fn raised_formulas(alloc: Global, formulas: &[Formula]) -> Result<List<Formula>, NoMemory>
    requires { AllIndicesBelow (2 ^ 32) (raised (map formula_tree formulas.now)) }
    ensures { IfOk result (λ r. map formula_tree r ≡ raised (map formula_tree formulas.now)) }
{
    let mut raised = List::new(alloc);
    for formula in formulas {
        raised.push(shift(alloc, formula, 1, 0)?)?;
    }
    Ok(raised)
}
