//! What the typing rules are worth: laws that are proved.

ghost use Rattle.type_checker.specs.Laws.{FormulasAreAssumable, NotBoth, OneFormula, OnePlace, TypedOrNot, TypingIsSound};

/// The formula of a proof is true wherever all hypotheses are true.
pub fn typing_is_sound()
    ensures { TypingIsSound }
{}

/// A proof has at most one formula.
pub fn one_formula()
    ensures { OneFormula }
{}

/// Where all hypotheses fit and are well-sorted, the formula of a proof fits and is well-sorted.
pub fn formulas_are_assumable()
    ensures { FormulasAreAssumable }
{}

/// A proof has a formula, or one place where it has a fault, and not both.
pub fn one_fault()
    ensures some { TypedOrNot }
    ensures apart { NotBoth }
    ensures single { OnePlace }
{}
