//! What substitution does to the truth and sorts of formulas, and that truth is stable and, without
//! quantifiers, computed: laws that are proved.

ghost use Rattle.formulas.specs.Laws.{InstanceKeepsSorts, InstanceUndoesShift, ReplacementKeepsSorts, ShiftIsUndone, ShiftKeepsSorts, ShiftMakesRoom, TruthIsComputed, TruthIsStable, TruthOfInstance, TruthOfReplacement, TruthOfShift};

/// An instance is true where the formula is with the value of what was inserted for its innermost variable.
pub fn truth_of_instance()
    ensures { TruthOfInstance }
{}

/// A shifted formula is true where the formula is, whatever values the new variables have.
pub fn truth_of_shift()
    ensures { TruthOfShift }
{}

/// A formula where a term stands for a declared name is true where the formula is after the term's value
/// was assigned to the name.
pub fn truth_of_replacement()
    ensures { TruthOfReplacement }
{}

/// A formula that cannot be false is true.
pub fn truth_is_stable()
    ensures { TruthIsStable }
{}

/// A formula without quantifiers is true exactly where its computed truth value is.
pub fn truth_is_computed()
    ensures { TruthIsComputed }
{}

/// Shift, instance and replacement keep a formula well-sorted.
pub fn substitution_keeps_sorts()
    ensures shift { ShiftKeepsSorts }
    ensures instance { InstanceKeepsSorts }
    ensures replacement { ReplacementKeepsSorts }
{}

/// Two formulas that a shift by one makes equal are equal: an instance undoes the shift.
pub fn shift_is_undone()
    ensures by_instance { InstanceUndoesShift }
    ensures one_to_one { ShiftIsUndone }
{}

/// The index that a shift by one makes room for does not occur.
pub fn shift_makes_room()
    ensures { ShiftMakesRoom }
{}
