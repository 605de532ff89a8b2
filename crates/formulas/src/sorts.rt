//! Whether every term of a formula has its sort.

ghost use Rattle.std.specs.Prelude.{◌≡◌, reverse, IsOk, IfOk};
ghost use Rattle.sorted_terms.specs.Variables.{sorts_in};
ghost use Rattle.formulas.specs.Tree.{formula_tree};
ghost use Rattle.formulas.specs.Sorts.{well_sorted as well_sorted_tree};

use crate::formula::Formula;
use ck_base::{Decls, List, NoMemory, Sort};
use sorted_terms::{Variables, sort_under};

/// Whether every term of the formula has its sort, under declarations and the sorts of the bound
/// variables, the outermost first. It takes no memory.
pub fn well_sorted(decls: &Decls, vars: &List<Sort>, a: &Formula) -> Result<bool, NoMemory>
    ensures value { IfOk result (λ b. b ≡ well_sorted_tree decls.now (reverse vars.now) (formula_tree a.now)) }
    ensures ok { IsOk result }
{
    Ok(well_sorted_under(decls, &Variables::Outer(&*vars), a))
}

/// The same, in a scope that borrows.
pub fn well_sorted_under(decls: &Decls, variables: &Variables, a: &Formula) -> bool
    ensures { result ≡ well_sorted_tree decls.now (sorts_in variables.now) (formula_tree a.now) }
{
    match a {
        Formula::Bottom => true,
        Formula::Holds(t) => match sort_under(decls, variables, t) {
            Some(Sort::Bool) => true,
            Some(Sort::Int) | None => false,
        },
        Formula::Imp(a, b) | Formula::Conj(a, b) | Formula::Disj(a, b) => {
            well_sorted_under(decls, variables, a) && well_sorted_under(decls, variables, b)
        }
        Formula::All(sort, a) | Formula::Ex(sort, a) => {
            well_sorted_under(decls, &Variables::Under(*sort, &*variables), a)
        }
    }
}
