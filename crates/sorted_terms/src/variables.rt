//! The sorts of bound variables, as a scope that borrows.

ghost use Rattle.std.specs.Prelude.{◌≡◌, reverse, slice_get};
ghost use Rattle.sorted_terms.specs.Variables.{sorts_in};

use ck_base::{List, Sort};

/// The sorts of the bound variables of a place. `Outer` has them in a list, the outermost first; `Under`
/// is one binder further in.
#[derive(Clone, Copy)]
pub enum Variables<'a> {
    Outer(&'a List<Sort>),
    Under(Sort, &'a Variables<'a>),
}

/// The sort of the bound variable of that de Bruijn index; `None` exactly where there is none. It takes
/// no memory.
pub fn sort_at(variables: &Variables, index: u32) -> Option<Sort>
    ensures { result ≡ slice_get (sorts_in variables.now) index }
{
    match variables {
        Variables::Outer(sorts) => from_last(sorts, index),
        Variables::Under(sort, outer) => match index.checked_sub(1) {
            Some(index) => sort_at(outer, index),
            None => Some(*sort),
        },
    }
}

#[tactic(auto, using(crate::proofs::Reversal::slice_get_reverse, crate::proofs::Reversal::slice_get_reverse_past))]
fn from_last(sorts: &List<Sort>, index: u32) -> Option<Sort>
    ensures { result ≡ slice_get (reverse sorts.now) index }
{
    let place = sorts.len().checked_sub(index as usize + 1)?;
    sorts.get(place).copied()
}
