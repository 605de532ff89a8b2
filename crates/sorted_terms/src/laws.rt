//! What substitution does to the values and sorts of terms, as laws that are proved.

ghost use Rattle.sorted_terms.specs.Laws.{InstanceKeepsSorts, InstanceKeepsValues, InstanceUndoesShift, ReplacementKeepsSorts, ReplacementKeepsValues, ShiftIsUndone, ShiftKeepsSorts, ShiftKeepsValues, ShiftMakesRoom, ValuesHaveSorts, WeightBoundsValues};

/// An instance has the value of the term where the innermost variable has the value of what was inserted.
pub fn instance_keeps_values()
    ensures { InstanceKeepsValues }
{}

/// A shifted term has the value of the term, whatever values the new variables have.
pub fn shift_keeps_values()
    ensures { ShiftKeepsValues }
{}

/// A term where another stands for a declared name has the value of the term after the other's value
/// was assigned to the name.
pub fn replacement_keeps_values()
    ensures { ReplacementKeepsValues }
{}

/// Shift, instance and replacement keep the sort of a term.
pub fn substitution_keeps_sorts()
    ensures shift { ShiftKeepsSorts }
    ensures instance { InstanceKeepsSorts }
    ensures replacement { ReplacementKeepsSorts }
{}

/// The value of a term that has a sort is of that sort.
pub fn values_have_sorts()
    ensures { ValuesHaveSorts }
{}

/// Two terms that a shift by one makes equal are equal: an instance undoes the shift.
pub fn shift_is_undone()
    ensures by_instance { InstanceUndoesShift }
    ensures one_to_one { ShiftIsUndone }
{}

/// The index that a shift by one makes room for does not occur.
pub fn shift_makes_room()
    ensures { ShiftMakesRoom }
{}

/// The absolute value of a term without names and indices is at most its weight.
pub fn weight_bounds_values()
    ensures { WeightBoundsValues }
{}
