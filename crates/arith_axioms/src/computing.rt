//! Truth of a closed term by computing its value.

ghost use Rattle.std.specs.Prelude.{◌≡◌, ◌^◌, ◌+◌, ◌*◌, ◌<◌, unsigned_abs, true, []};
ghost use Rattle.sorted_terms.specs.Tree.{term_tree, minus, plus, difference, times};
ghost use Rattle.sorted_terms.specs.Values.{as_number, as_truth, same_value, unary_value, binary_value, value};
ghost use Rattle.sorted_terms.specs.Weights.{is_closed as has_no_variable};
ghost use Rattle.arith_axioms.specs.Computing.{computing, computed_value, HasRoom};

use crate::no_compute::NoCompute;
use sorted_terms::Term;

/// Whether the term is true by its value, as a term without names and indices. In this order: `NotClosed`
/// where it has one, `Wide` where its weight is 2^127 or more, `False` where its value is false. It takes no
/// memory, and no number that it computes overflows.
#[tactic(auto, using(crate::proofs::Constants::has_room))]
pub fn compute(t: &Term) -> Result<(), NoCompute>
    ensures { result ≡ computing (term_tree t.now) }
{
    if !is_closed(t) {
        return Err(NoCompute::NotClosed);
    }
    if sorted_terms::weight(t) >= 1 << 127 {
        return Err(NoCompute::Wide);
    }
    if !evaluate(t).truth() {
        return Err(NoCompute::False);
    }
    Ok(())
}

/// Whether neither a name nor an index stands in the term. It takes no memory.
pub fn is_closed(t: &Term) -> bool
    ensures { result ≡ has_no_variable (term_tree t.now) }
{
    match t {
        Term::Var(_) | Term::Bound(_) => false,
        Term::Int(_) | Term::Truth(_) => true,
        Term::Neg(t) | Term::Not(t) => is_closed(t),
        Term::Add(s, t)
        | Term::Sub(s, t)
        | Term::Mul(s, t)
        | Term::Eq(s, t)
        | Term::Less(s, t)
        | Term::AtMost(s, t)
        | Term::Both(s, t)
        | Term::Either(s, t) => is_closed(s) && is_closed(t),
    }
}

// The value of a closed term.
#[derive(Clone, Copy)]
enum Computed {
    Number(i128),
    Truth(bool),
}

impl Computed {
    fn number(self) -> i128
        ensures { result ≡ as_number (computed_value self) }
    {
        match self {
            Computed::Number(n) => n,
            Computed::Truth(_) => 0,
        }
    }

    fn truth(self) -> bool
        ensures { result ≡ as_truth (computed_value self) }
    {
        match self {
            Computed::Number(_) => false,
            Computed::Truth(b) => b,
        }
    }

    fn same(self, other: Computed) -> bool
        ensures { result ≡ same_value (computed_value self) (computed_value other) }
    {
        match (self, other) {
            (Computed::Number(m), Computed::Number(n)) => m == n,
            (Computed::Truth(a), Computed::Truth(b)) => a == b,
            _ => false,
        }
    }

    // The absolute value of the number is below 2^127.
    #[tactic(auto, using(crate::proofs::Constants::negation_fits))]
    fn minus(self) -> Computed
        requires { unsigned_abs (as_number (computed_value self)) < 2 ^ 127 }
        ensures { computed_value result ≡ unary_value minus (computed_value self) }
    {
        Computed::Number(-self.number())
    }

    // Here and below both numbers together, by the sign between them, are below 2^127.
    #[tactic(auto, using(crate::proofs::Constants::sum_fits))]
    fn plus(self, other: Computed) -> Computed
        requires { unsigned_abs (as_number (computed_value self)) + unsigned_abs (as_number (computed_value other)) < 2 ^ 127 }
        ensures { computed_value result ≡ binary_value plus (computed_value self) (computed_value other) }
    {
        Computed::Number(self.number() + other.number())
    }

    #[tactic(auto, using(crate::proofs::Constants::difference_fits))]
    fn less(self, other: Computed) -> Computed
        requires { unsigned_abs (as_number (computed_value self)) + unsigned_abs (as_number (computed_value other)) < 2 ^ 127 }
        ensures { computed_value result ≡ binary_value difference (computed_value self) (computed_value other) }
    {
        Computed::Number(self.number() - other.number())
    }

    #[tactic(auto, using(crate::proofs::Constants::product_fits))]
    fn times(self, other: Computed) -> Computed
        requires { unsigned_abs (as_number (computed_value self)) * unsigned_abs (as_number (computed_value other)) < 2 ^ 127 }
        ensures { computed_value result ≡ binary_value times (computed_value self) (computed_value other) }
    {
        Computed::Number(self.number() * other.number())
    }
}

// The value of a term without names and indices, where no number on the way passes 2^127 - 1.
fn evaluate(t: &Term) -> Computed
    requires { HasRoom (term_tree t.now) }
    ensures { computed_value result ≡ value (term_tree t.now) [] [] }
{
    match t {
        Term::Var(_) | Term::Bound(_) => unreachable!(),
        Term::Int(n) => Computed::Number(*n),
        Term::Truth(b) => Computed::Truth(*b),
        Term::Neg(t) => evaluate(t).minus(),
        Term::Not(t) => Computed::Truth(!evaluate(t).truth()),
        Term::Add(s, t) => evaluate(s).plus(evaluate(t)),
        Term::Sub(s, t) => evaluate(s).less(evaluate(t)),
        Term::Mul(s, t) => evaluate(s).times(evaluate(t)),
        Term::Eq(s, t) => Computed::Truth(evaluate(s).same(evaluate(t))),
        Term::Less(s, t) => Computed::Truth(evaluate(s).number() < evaluate(t).number()),
        Term::AtMost(s, t) => Computed::Truth(evaluate(s).number() <= evaluate(t).number()),
        Term::Both(s, t) => {
            let (a, b) = (evaluate(s).truth(), evaluate(t).truth());
            Computed::Truth(a && b)
        }
        Term::Either(s, t) => {
            let (a, b) = (evaluate(s).truth(), evaluate(t).truth());
            Computed::Truth(a || b)
        }
    }
}
