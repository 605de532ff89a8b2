//! What the names of a text stand for.

ghost use Rattle.std.specs.Prelude.{◌≡◌, ◌+◌, ◌-◌, ◌≤◌, ◌<◌, ◌^◌, length, Some, None, [], IfOk, IfErr};
ghost use Rattle.std.specs.List.{list_all};
ghost use Rattle.std.specs.Option.{option_map};
ghost use Rattle.ck_base.specs.Names.{is_digit, number_of};
ghost use Rattle.sorted_terms.specs.Tree.{term_tree};
ghost use Rattle.ck_text.specs.Texts as grammar;
ghost use Rattle.ck_text.specs.Items as spec;
ghost use Rattle.ck_text.specs.Views as views;

use crate::digits::{is_digit, value};
use crate::items::{Frame, Held, Lead};
use ck_base::Decls;
use sorted_terms::Term;

// The place of the quantifier of the stack that binds the name, or how many there are.
fn bound_place(frames: &[Frame], name: &[u8]) -> Result<u32, u32>
    requires { length frames.now < 2 ^ 32 }
    ensures found { IfOk result (λ k. grammar.place_of name.now (spec.bound_by [] (views.stack frames.now)) ≡ Some k) }
    ensures none { IfErr result (λ n. (grammar.place_of name.now (spec.bound_by [] (views.stack frames.now)) ≡ None) × (length (spec.bound_by [] (views.stack frames.now)) ≡ n) × (n ≤ length frames.now)) }
{
    let mut count: u32 = 0;
    let mut rest = frames;
    while let [below @ .., top] = rest {
        if let Held::Leading(Lead::Binder(_, bytes, _)) = &top.held {
            if name == *bytes {
                return Ok(count);
            }
            count += 1;
        }
        rest = below;
    }
    Err(count)
}

// The number of the declared name.
fn declared(names: &Decls, name: &[u8]) -> Option<u32>
    ensures { result ≡ number_of name.now names.now }
{
    let count = names.len();
    let mut number = 0;
    while number < count {
        let Some(decl) = names.at(number) else {
            return None;
        };
        if name == decl.name.as_bytes() {
            return Some(number);
        }
        number += 1;
    }
    None
}

fn are_digits(bytes: &[u8]) -> bool
    ensures { result ≡ list_all is_digit bytes.now }
{
    bytes.iter().all(|b| is_digit(*b))
}

fn is_decimal(digits: &[u8]) -> bool
    ensures value { result ≡ grammar.is_decimal digits.now }
{
    match digits {
        [] => false,
        [b] => is_digit(*b),
        [b, more @ ..] => is_digit(*b) && *b != b'0' && are_digits(more),
    }
}

// The number of the variable that is written `_k`.
fn variable(variables: u32, name: &[u8]) -> Option<u32>
    ensures { result ≡ grammar.variable_of variables name.now }
{
    match name {
        [b'_', digits @ ..] if is_decimal(digits) => match value(digits) {
            Some(k) if k < u128::from(variables) => Some(k as u32),
            _ => None,
        },
        _ => None,
    }
}

/// What a name means where the stack waits for an operand.
pub(crate) fn meaning(names: &Decls, variables: u32, frames: &[Frame], name: &[u8]) -> Option<Term>
    requires indices { length frames.now + variables < 2 ^ 32 }
    ensures { option_map term_tree result ≡ grammar.meaning_of (spec.scope_at (grammar.whole_scope names.now variables) (views.stack frames.now)) name.now }
{
    match bound_place(frames, name) {
        Ok(k) => Some(Term::Bound(k)),
        Err(bound) => match variable(variables, name) {
            Some(k) => Some(Term::Bound(bound + (variables - 1 - k))),
            None => match declared(names, name) {
                Some(number) => Some(Term::Var(number)),
                None => None,
            },
        },
    }
}
