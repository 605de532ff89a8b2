//! The sort of a term, and where a term has none.

ghost use Rattle.std.specs.Prelude.{◌≡◌, ◌+◌, ◌^◌, ◌<◌, true, false, if◌then◌else◌, reverse, IfOk, IfErr, OnErr};
ghost use Rattle.sorted_terms.specs.Tree.{term_tree};
ghost use Rattle.sorted_terms.specs.Sorts.{sort_of as sort_of_tree, has_sort, term_size, bad_place, bad_place_from};
ghost use Rattle.sorted_terms.specs.Variables.{sorts_in};

use crate::term::Term;
use crate::variables::{Variables, sort_at};
use ck_base::{Decls, List, Sort};

/// A term has no sort: a name or index means nothing, or a sign has a part of another sort.
#[derive(Debug, Drop)]
pub struct BadSort {
    /// The first subterm that has none, by its number in post-order (parts first, the left one before
    /// the right one), from 0.
    pub place: u32,
}

/// The sort of a term under declarations and the sorts of the bound variables, the outermost first. It
/// takes no memory. `BadSort` where the term has no sort.
pub fn sort_of(decls: &Decls, vars: &List<Sort>, t: &Term) -> Result<Sort, BadSort>
    requires { term_size (term_tree t.now) < 2 ^ 32 }
    ensures sort { IfOk result (λ s. sort_of_tree decls.now (reverse vars.now) (term_tree t.now) ≡ Some s) }
    ensures none { OnErr result (sort_of_tree decls.now (reverse vars.now) (term_tree t.now) ≡ None) }
    ensures place { IfErr result (λ e. bad_place decls.now (reverse vars.now) (term_tree t.now) ≡ Some e.place) }
{
    let (sort, _) = numbered(decls, &Variables::Outer(&*vars), t, 0)?;
    Ok(sort)
}

/// The sort of a term under declarations and the sorts of the bound variables; `None` where it has none.
/// It takes no memory.
pub fn sort_under(decls: &Decls, variables: &Variables, t: &Term) -> Option<Sort>
    ensures { result ≡ sort_of_tree decls.now (sorts_in variables.now) (term_tree t.now) }
{
    match t {
        Term::Var(x) => Some(decls.at(*x)?.sort),
        Term::Bound(k) => sort_at(variables, *k),
        Term::Int(_) => Some(Sort::Int),
        Term::Truth(_) => Some(Sort::Bool),
        Term::Neg(t) => applied(is(sort_under(decls, variables, t), Sort::Int), Sort::Int),
        Term::Not(t) => applied(is(sort_under(decls, variables, t), Sort::Bool), Sort::Bool),
        Term::Add(s, t) | Term::Sub(s, t) | Term::Mul(s, t) => {
            let fit = is(sort_under(decls, variables, s), Sort::Int)
                && is(sort_under(decls, variables, t), Sort::Int);
            applied(fit, Sort::Int)
        }
        Term::Eq(s, t) | Term::Less(s, t) | Term::AtMost(s, t) => {
            let fit = is(sort_under(decls, variables, s), Sort::Int)
                && is(sort_under(decls, variables, t), Sort::Int);
            applied(fit, Sort::Bool)
        }
        Term::Both(s, t) | Term::Either(s, t) => {
            let fit = is(sort_under(decls, variables, s), Sort::Bool)
                && is(sort_under(decls, variables, t), Sort::Bool);
            applied(fit, Sort::Bool)
        }
    }
}

/// The sort of the term, and the number after the term's own, where its first subterm in post-order has
/// the number `first`.
#[tactic(auto, using(crate::proofs::Places::name_itself, crate::proofs::Places::index_itself, crate::proofs::Places::unary_part, crate::proofs::Places::unary_itself, crate::proofs::Places::binary_left, crate::proofs::Places::binary_right, crate::proofs::Places::binary_itself))]
fn numbered(
    decls: &Decls,
    variables: &Variables,
    t: &Term,
    first: u32,
) -> Result<(Sort, u32), BadSort>
    requires { first + term_size (term_tree t.now) < 2 ^ 32 }
    ensures sort { IfOk result (λ r. sort_of_tree decls.now (sorts_in variables.now) (term_tree t.now) ≡ Some r.0) }
    ensures next { IfOk result (λ r. r.1 ≡ first + term_size (term_tree t.now)) }
    ensures none { OnErr result (sort_of_tree decls.now (sorts_in variables.now) (term_tree t.now) ≡ None) }
    ensures place { IfErr result (λ e. bad_place_from decls.now (sorts_in variables.now) first (term_tree t.now) ≡ Some e.place) }
{
    match t {
        Term::Var(x) => match decls.at(*x) {
            Some(decl) => Ok((decl.sort, first + 1)),
            None => Err(BadSort { place: first }),
        },
        Term::Bound(k) => match sort_at(variables, *k) {
            Some(sort) => Ok((sort, first + 1)),
            None => Err(BadSort { place: first }),
        },
        Term::Int(_) => Ok((Sort::Int, first + 1)),
        Term::Truth(_) => Ok((Sort::Bool, first + 1)),
        Term::Neg(t) => {
            let (sort, place) = numbered(decls, variables, t, first)?;
            given(sort == Sort::Int, Sort::Int, place)
        }
        Term::Not(t) => {
            let (sort, place) = numbered(decls, variables, t, first)?;
            given(sort == Sort::Bool, Sort::Bool, place)
        }
        Term::Add(s, t) | Term::Sub(s, t) | Term::Mul(s, t) => {
            let (left, next) = numbered(decls, variables, s, first)?;
            let (right, place) = numbered(decls, variables, t, next)?;
            given(left == Sort::Int && right == Sort::Int, Sort::Int, place)
        }
        Term::Eq(s, t) | Term::Less(s, t) | Term::AtMost(s, t) => {
            let (left, next) = numbered(decls, variables, s, first)?;
            let (right, place) = numbered(decls, variables, t, next)?;
            given(left == Sort::Int && right == Sort::Int, Sort::Bool, place)
        }
        Term::Both(s, t) | Term::Either(s, t) => {
            let (left, next) = numbered(decls, variables, s, first)?;
            let (right, place) = numbered(decls, variables, t, next)?;
            given(left == Sort::Bool && right == Sort::Bool, Sort::Bool, place)
        }
    }
}

fn is(sort: Option<Sort>, wanted: Sort) -> bool
    ensures { result ≡ has_sort sort wanted }
{
    match (sort, wanted) {
        (Some(Sort::Int), Sort::Int) | (Some(Sort::Bool), Sort::Bool) => true,
        _ => false,
    }
}

/// What a sign gives, where its parts fit it.
fn applied(fit: bool, gives: Sort) -> Option<Sort>
    ensures { result ≡ (if fit then Some gives else None) }
{
    if fit { Some(gives) } else { None }
}

/// What a sign gives, where its parts fit it, and the number after the sign's own.
fn given(fit: bool, gives: Sort, place: u32) -> Result<(Sort, u32), BadSort>
    requires { place + 1 < 2 ^ 32 }
    ensures ok { IfOk result (λ r. (fit ≡ true) × (r.0 ≡ gives) × (r.1 ≡ place + 1)) }
    ensures err { IfErr result (λ e. (fit ≡ false) × (e.place ≡ place)) }
{
    if fit {
        Ok((gives, place + 1))
    } else {
        Err(BadSort { place })
    }
}
