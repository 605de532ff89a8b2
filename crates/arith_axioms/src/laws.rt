//! The axioms, induction forms, computed terms and ring equations are true, and the expansion of a term tells
//! its value: laws that are proved.

ghost use Rattle.arith_axioms.specs.Laws.{AxiomsAreSorted, AxiomsAreTrue, ComputedTermsAreTrue, ExpansionKeepsValue, ExpansionLength, InductionIsTrue, InductionKeepsSorts, LeastDifferenceIsOne, RingEquationsAreTrue, SamePolynomialsAreEqual, SamePolynomialsHaveOneValue, WeightBoundsCoefficients, WeightBoundsTotals};

/// Every axiom is true in every state and environment.
pub fn axioms_are_true()
    ensures { AxiomsAreTrue }
{}

/// Every axiom is well-sorted, and so is the induction form of a formula that is well-sorted about an integer.
pub fn axioms_are_sorted()
    ensures table { AxiomsAreSorted }
    ensures induction { InductionKeepsSorts }
{}

/// The induction form of every formula is true in every state and environment.
pub fn induction_is_true()
    ensures { InductionIsTrue }
{}

/// A term that `compute` allows is true in every state and environment.
pub fn computed_terms_are_true()
    ensures { ComputedTermsAreTrue }
{}

/// The value of a term as an integer is that of its expansion.
pub fn expansion_keeps_value()
    ensures { ExpansionKeepsValue }
{}

/// Two integer terms that are the same polynomial are equal in every state and environment.
pub fn same_polynomials_are_equal()
    ensures equal { SamePolynomialsAreEqual }
    ensures value { SamePolynomialsHaveOneValue }
{}

/// Where `ring` allows it, the equation of two integer terms is true in every state and environment.
pub fn ring_equations_are_true()
    ensures { RingEquationsAreTrue }
{}

/// Two terms have at most one least product with different totals.
pub fn least_difference_is_one()
    ensures { LeastDifferenceIsOne }
{}

/// The expansion of a term has as many monomials as its number of expansions tells.
pub fn expansion_length()
    ensures { ExpansionLength }
{}

/// The sum of the absolute coefficients of an expansion, and so each total, is at most the weight.
pub fn totals_are_bounded()
    ensures sum { WeightBoundsCoefficients }
    ensures each { WeightBoundsTotals }
{}
