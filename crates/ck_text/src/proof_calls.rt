//! The rules of a proof with an argument that is being read, and what is wanted next.

ghost use Rattle.std.specs.Prelude.{◌≡◌, ◌+◌, ◌<◌, ◌≤◌, ◌^◌, length, OnOk};
ghost use Rattle.std.specs.Option.{option_map};
ghost use Rattle.ck_text.specs.Texts.{whole_scope};
ghost use Rattle.ck_text.specs.ProofTexts as grammar;
ghost use Rattle.ck_text.specs.ProofItems as spec;
ghost use Rattle.ck_text.specs.ProofViews as views;

use crate::head::Head;
use crate::proof_parts::{Kind, Parts, count, kind_at};
use ck_base::{Decls, List, NoMemory};

/// What names and `#k` stand for: the declared names, and how many variables and hypotheses are in scope.
#[derive(Clone, Copy)]
pub(crate) struct ProofScope<'a> {
    pub(crate) names: &'a Decls,
    pub(crate) variables: u32,
    pub(crate) hypotheses: u32,
}

/// A rule with an argument that is being read, what is kept of the arguments before it, and the scope of the rule.
#[derive(Drop)]
pub(crate) struct Call<'a> {
    pub(crate) head: Head,
    pub(crate) done: Parts,
    pub(crate) scope: ProofScope<'a>,
}

/// The kind of what is wanted: the next argument of the newest rule, or the whole proof.
pub(crate) fn asked(calls: &[Call]) -> Option<Kind>
    ensures { option_map views.kind result ≡ spec.asked (views.calls calls.now) }
{
    match calls {
        [] => Some(Kind::Proof {
            variable: false,
            hypothesis: false,
        }),
        [.., call] => kind_at(call.head, count(&call.done)),
    }
}

/// Whether what is wanted has to be a term.
pub(crate) fn wants_term(calls: &[Call]) -> bool
    ensures { result ≡ spec.wants_term (spec.asked (views.calls calls.now)) }
{
    match asked(calls) {
        Some(Kind::Term) => true,
        _ => false,
    }
}

fn one_if(further: bool) -> u32
    ensures value { result ≡ views.one_if further }
    ensures small { result ≤ 1 }
{
    if further { 1 } else { 0 }
}

// The scope with a further variable, with a further hypothesis, or with both.
fn grown<'a>(variable: bool, hypothesis: bool, scope: ProofScope<'a>) -> ProofScope<'a>
    requires variables { scope.variables + 1 < 2 ^ 32 }
    requires hypotheses { scope.hypotheses + 1 < 2 ^ 32 }
    ensures value { views.scope result ≡ grammar.grown (views.one_if variable) (views.one_if hypothesis) (views.scope scope.entry) }
    ensures few { result.variables ≤ scope.entry.variables + 1 }
{
    ProofScope {
        names: scope.names,
        variables: one_if(variable) + scope.variables,
        hypotheses: one_if(hypothesis) + scope.hypotheses,
    }
}

/// The scope of the proof that is wanted.
pub(crate) fn proof_scope<'a>(outer: ProofScope<'a>, calls: &[Call<'a>]) -> ProofScope<'a>
    requires { views.HasSpace (views.scope outer) (views.calls calls.now) }
    ensures { views.scope result ≡ spec.proof_scope (views.scope outer.entry) (views.calls calls.now) }
{
    match calls {
        [] => outer,
        [.., call] => match asked(calls) {
            Some(
                Kind::Proof {
                    variable,
                    hypothesis,
                },
            ) => grown(variable, hypothesis, call.scope),
            _ => call.scope,
        },
    }
}

/// The scope of the term or formula that is wanted.
pub(crate) fn expression_scope<'a>(outer: ProofScope<'a>, calls: &[Call<'a>]) -> ProofScope<'a>
    requires { views.HasSpace (views.scope outer) (views.calls calls.now) }
    ensures value { whole_scope result.names.now result.variables ≡ spec.bindings (views.scope outer.entry) (views.calls calls.now) }
    ensures few { result.variables ≤ views.variables_around (views.scope outer.entry) (views.calls calls.now) + 1 }
{
    match calls {
        [] => outer,
        [.., call] => match asked(calls) {
            Some(Kind::Formula { variable }) => grown(variable, false, call.scope),
            _ => call.scope,
        },
    }
}

/// Goes on to the first argument of a rule.
pub(crate) fn enter<'a>(
    outer: ProofScope<'a>,
    calls: &mut List<Call<'a>>,
    head: Head,
) -> Result<(), NoMemory>
    requires { views.HasSpace (views.scope outer) (views.calls calls.old) }
    ensures few { OnOk result (length calls.new ≡ length calls.old + 1) }
    ensures state { OnOk result (spec.expecting (views.calls calls.new) ≡ spec.entered (views.scope outer.entry) head (views.calls calls.old)) }
{
    let scope = proof_scope(outer, calls.as_slice());
    calls.push(Call {
        head,
        done: Parts::None,
        scope,
    })
}
