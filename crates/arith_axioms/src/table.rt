//! The axioms, one by one.

ghost use Rattle.std.specs.Prelude.{◌≡◌, IfOk, Some};
ghost use Rattle.sorted_terms.specs.Tree.{term_tree, index};
ghost use Rattle.formulas.specs.Tree.{formula_tree};
ghost use Rattle.arith_axioms.specs.Axioms.{axiom_at};

use crate::making::Maker;
use ck_base::NoMemory;
use formulas::Formula;
use sorted_terms::Term;

// The variable with the index.
fn var(k: u32) -> Term
    ensures { term_tree result ≡ index k }
{
    Term::Bound(k)
}

// x <= x
#[tactic(auto, unfolding(crate::specs::Axioms::axiom_at))]
pub fn reflexivity(make: Maker) -> Result<Formula, NoMemory>
    ensures { IfOk result (λ a. axiom_at 1 ≡ Some (formula_tree a)) }
{
    let x = 0;
    make.all_int(make.at_most(var(x), var(x))?)
}

// x <= y => y <= z => x <= z
#[tactic(auto, unfolding(crate::specs::Axioms::axiom_at))]
pub fn transitivity(make: Maker) -> Result<Formula, NoMemory>
    ensures { IfOk result (λ a. axiom_at 2 ≡ Some (formula_tree a)) }
{
    let (x, y, z) = (2, 1, 0);
    let rest = make.implies(make.at_most(var(y), var(z))?, make.at_most(var(x), var(z))?)?;
    make.three_integers(make.implies(make.at_most(var(x), var(y))?, rest)?)
}

// x <= y => y <= x => x = y
#[tactic(auto, unfolding(crate::specs::Axioms::axiom_at))]
pub fn antisymmetry(make: Maker) -> Result<Formula, NoMemory>
    ensures { IfOk result (λ a. axiom_at 3 ≡ Some (formula_tree a)) }
{
    let (x, y) = (1, 0);
    let rest = make.implies(make.at_most(var(y), var(x))?, make.equal(var(x), var(y))?)?;
    make.two_integers(make.implies(make.at_most(var(x), var(y))?, rest)?)
}

// x <= y \/ y <= x
#[tactic(auto, unfolding(crate::specs::Axioms::axiom_at))]
pub fn totality(make: Maker) -> Result<Formula, NoMemory>
    ensures { IfOk result (λ a. axiom_at 4 ≡ Some (formula_tree a)) }
{
    let (x, y) = (1, 0);
    make.two_integers(make.or(make.at_most(var(x), var(y))?, make.at_most(var(y), var(x))?)?)
}

// x <= y => u <= v => x + u <= y + v
#[tactic(auto, unfolding(crate::specs::Axioms::axiom_at))]
pub fn sums(make: Maker) -> Result<Formula, NoMemory>
    ensures { IfOk result (λ a. axiom_at 5 ≡ Some (formula_tree a)) }
{
    let (x, y, u, v) = (3, 2, 1, 0);
    let last = make.at_most(make.sum(var(x), var(u))?, make.sum(var(y), var(v))?)?;
    let rest = make.implies(make.at_most(var(u), var(v))?, last)?;
    let closed = make.three_integers(make.implies(make.at_most(var(x), var(y))?, rest)?)?;
    make.all_int(closed)
}

// 0 <= z => x <= y => x * z <= y * z
#[tactic(auto, unfolding(crate::specs::Axioms::axiom_at))]
pub fn products(make: Maker) -> Result<Formula, NoMemory>
    ensures { IfOk result (λ a. axiom_at 6 ≡ Some (formula_tree a)) }
{
    let (x, y, z) = (2, 1, 0);
    let last = make.at_most(make.product(var(x), var(z))?, make.product(var(y), var(z))?)?;
    let rest = make.implies(make.at_most(var(x), var(y))?, last)?;
    make.three_integers(make.implies(make.at_most(Term::Int(0), var(z))?, rest)?)
}

// x < y => x + 1 <= y
#[tactic(auto, unfolding(crate::specs::Axioms::axiom_at))]
pub fn next_within(make: Maker) -> Result<Formula, NoMemory>
    ensures { IfOk result (λ a. axiom_at 7 ≡ Some (formula_tree a)) }
{
    let (x, y) = (1, 0);
    make.two_integers(make.implies(
        make.less(var(x), var(y))?,
        make.at_most(make.sum(var(x), Term::Int(1))?, var(y))?,
    )?)
}

// x + 1 <= y => x < y
#[tactic(auto, unfolding(crate::specs::Axioms::axiom_at))]
pub fn below_next(make: Maker) -> Result<Formula, NoMemory>
    ensures { IfOk result (λ a. axiom_at 8 ≡ Some (formula_tree a)) }
{
    let (x, y) = (1, 0);
    make.two_integers(make.implies(
        make.at_most(make.sum(var(x), Term::Int(1))?, var(y))?,
        make.less(var(x), var(y))?,
    )?)
}

// ~x < x
#[tactic(auto, unfolding(crate::specs::Axioms::axiom_at))]
pub fn irreflexivity(make: Maker) -> Result<Formula, NoMemory>
    ensures { IfOk result (λ a. axiom_at 9 ≡ Some (formula_tree a)) }
{
    let x = 0;
    make.all_int(make.not(make.less(var(x), var(x))?)?)
}

// ~x <= y => y < x
#[tactic(auto, unfolding(crate::specs::Axioms::axiom_at))]
pub fn above(make: Maker) -> Result<Formula, NoMemory>
    ensures { IfOk result (λ a. axiom_at 10 ≡ Some (formula_tree a)) }
{
    let (x, y) = (1, 0);
    make.two_integers(make.implies(
        make.not(make.at_most(var(x), var(y))?)?,
        make.less(var(y), var(x))?,
    )?)
}

// ~x < y => y <= x
#[tactic(auto, unfolding(crate::specs::Axioms::axiom_at))]
pub fn not_below(make: Maker) -> Result<Formula, NoMemory>
    ensures { IfOk result (λ a. axiom_at 11 ≡ Some (formula_tree a)) }
{
    let (x, y) = (1, 0);
    make.two_integers(make.implies(
        make.not(make.less(var(x), var(y))?)?,
        make.at_most(var(y), var(x))?,
    )?)
}

// x < y => ~y <= x
#[tactic(auto, unfolding(crate::specs::Axioms::axiom_at))]
pub fn not_back(make: Maker) -> Result<Formula, NoMemory>
    ensures { IfOk result (λ a. axiom_at 12 ≡ Some (formula_tree a)) }
{
    let (x, y) = (1, 0);
    make.two_integers(make.implies(
        make.less(var(x), var(y))?,
        make.not(make.at_most(var(y), var(x))?)?,
    )?)
}

// x = y => x <= y
#[tactic(auto, unfolding(crate::specs::Axioms::axiom_at))]
pub fn equal_at_most(make: Maker) -> Result<Formula, NoMemory>
    ensures { IfOk result (λ a. axiom_at 13 ≡ Some (formula_tree a)) }
{
    let (x, y) = (1, 0);
    make.two_integers(make.implies(make.equal(var(x), var(y))?, make.at_most(var(x), var(y))?)?)
}

// x < y => x <= y
#[tactic(auto, unfolding(crate::specs::Axioms::axiom_at))]
pub fn less_at_most(make: Maker) -> Result<Formula, NoMemory>
    ensures { IfOk result (λ a. axiom_at 14 ≡ Some (formula_tree a)) }
{
    let (x, y) = (1, 0);
    make.two_integers(make.implies(make.less(var(x), var(y))?, make.at_most(var(x), var(y))?)?)
}

// x * y = 0 => x = 0 \/ y = 0
#[tactic(auto, unfolding(crate::specs::Axioms::axiom_at))]
pub fn no_zero_divisors(make: Maker) -> Result<Formula, NoMemory>
    ensures { IfOk result (λ a. axiom_at 15 ≡ Some (formula_tree a)) }
{
    let (x, y) = (1, 0);
    let some = make.or(
        make.equal(var(x), Term::Int(0))?,
        make.equal(var(y), Term::Int(0))?,
    )?;
    make.two_integers(make.implies(
        make.equal(make.product(var(x), var(y))?, Term::Int(0))?,
        some,
    )?)
}

// x + z <= y + z => x <= y
#[tactic(auto, unfolding(crate::specs::Axioms::axiom_at))]
pub fn cancellation(make: Maker) -> Result<Formula, NoMemory>
    ensures { IfOk result (λ a. axiom_at 16 ≡ Some (formula_tree a)) }
{
    let (x, y, z) = (2, 1, 0);
    make.three_integers(make.implies(
        make.at_most(make.sum(var(x), var(z))?, make.sum(var(y), var(z))?)?,
        make.at_most(var(x), var(y))?,
    )?)
}

// x = y => y = x
#[tactic(auto, unfolding(crate::specs::Axioms::axiom_at))]
pub fn symmetry(make: Maker) -> Result<Formula, NoMemory>
    ensures { IfOk result (λ a. axiom_at 17 ≡ Some (formula_tree a)) }
{
    let (x, y) = (1, 0);
    make.two_integers(make.implies(make.equal(var(x), var(y))?, make.equal(var(y), var(x))?)?)
}

// true
#[tactic(auto, unfolding(crate::specs::Axioms::axiom_at))]
pub fn truth(make: Maker) -> Result<Formula, NoMemory>
    ensures { IfOk result (λ a. axiom_at 18 ≡ Some (formula_tree a)) }
{
    Ok(Formula::Holds(Term::Truth(true)))
}

// ~false
#[tactic(auto, unfolding(crate::specs::Axioms::axiom_at))]
pub fn no_falsity(make: Maker) -> Result<Formula, NoMemory>
    ensures { IfOk result (λ a. axiom_at 19 ≡ Some (formula_tree a)) }
{
    make.not(Formula::Holds(Term::Truth(false)))
}

// not b => ~b
#[tactic(auto, unfolding(crate::specs::Axioms::axiom_at))]
pub fn denied(make: Maker) -> Result<Formula, NoMemory>
    ensures { IfOk result (λ a. axiom_at 20 ≡ Some (formula_tree a)) }
{
    let b = 0;
    make.all_bool(make.implies(make.denial(var(b))?, make.not(Formula::Holds(var(b)))?)?)
}

// ~b => not b
#[tactic(auto, unfolding(crate::specs::Axioms::axiom_at))]
pub fn denial(make: Maker) -> Result<Formula, NoMemory>
    ensures { IfOk result (λ a. axiom_at 21 ≡ Some (formula_tree a)) }
{
    let b = 0;
    make.all_bool(make.implies(make.not(Formula::Holds(var(b)))?, make.denial(var(b))?)?)
}

// a and b => a /\ b
#[tactic(auto, unfolding(crate::specs::Axioms::axiom_at))]
pub fn both_parts(make: Maker) -> Result<Formula, NoMemory>
    ensures { IfOk result (λ a. axiom_at 22 ≡ Some (formula_tree a)) }
{
    let (a, b) = (1, 0);
    make.two_truth_values(make.implies(
        make.both(var(a), var(b))?,
        make.and(Formula::Holds(var(a)), Formula::Holds(var(b)))?,
    )?)
}

// a => b => a and b
#[tactic(auto, unfolding(crate::specs::Axioms::axiom_at))]
pub fn both_from_parts(make: Maker) -> Result<Formula, NoMemory>
    ensures { IfOk result (λ a. axiom_at 23 ≡ Some (formula_tree a)) }
{
    let (a, b) = (1, 0);
    let rest = make.implies(Formula::Holds(var(b)), make.both(var(a), var(b))?)?;
    make.two_truth_values(make.implies(Formula::Holds(var(a)), rest)?)
}

// a or b => a \/ b
#[tactic(auto, unfolding(crate::specs::Axioms::axiom_at))]
pub fn either_part(make: Maker) -> Result<Formula, NoMemory>
    ensures { IfOk result (λ a. axiom_at 24 ≡ Some (formula_tree a)) }
{
    let (a, b) = (1, 0);
    make.two_truth_values(make.implies(
        make.either(var(a), var(b))?,
        make.or(Formula::Holds(var(a)), Formula::Holds(var(b)))?,
    )?)
}

// a => a or b
#[tactic(auto, unfolding(crate::specs::Axioms::axiom_at))]
pub fn either_from_left(make: Maker) -> Result<Formula, NoMemory>
    ensures { IfOk result (λ a. axiom_at 25 ≡ Some (formula_tree a)) }
{
    let (a, b) = (1, 0);
    make.two_truth_values(make.implies(Formula::Holds(var(a)), make.either(var(a), var(b))?)?)
}

// b => a or b
#[tactic(auto, unfolding(crate::specs::Axioms::axiom_at))]
pub fn either_from_right(make: Maker) -> Result<Formula, NoMemory>
    ensures { IfOk result (λ a. axiom_at 26 ≡ Some (formula_tree a)) }
{
    let (a, b) = (1, 0);
    make.two_truth_values(make.implies(Formula::Holds(var(b)), make.either(var(a), var(b))?)?)
}
