//! What filling does to the holes of a proof, and at the path of a hole: laws that are proved.

ghost use Rattle.proof_terms.specs.Laws.{FillIsAtPath, FillIsUndone, FillWithoutHole, FragmentHolesReplaceHole, PathIsUnique, PathLeadsToHole};

/// Where a path leads to hole k, the proof has it.
pub fn path_leads_to_hole()
    ensures { PathLeadsToHole }
{}

/// One path leads to a hole that occurs once.
pub fn path_is_unique()
    ensures { PathIsUnique }
{}

/// Filling puts the fragment at the path of the hole, and changes nothing else. Where the proof has no such
/// hole, nothing changes.
pub fn fill_is_at_path()
    ensures at_path { FillIsAtPath }
    ensures without_hole { FillWithoutHole }
{}

/// After filling, the fragment stands at the path of the hole, and the hole put there again gives the
/// former proof.
pub fn fill_is_undone()
    ensures { FillIsUndone }
{}

/// The fragment's holes stand in the place of the hole that was filled.
pub fn fragment_holes_replace_hole()
    ensures { FragmentHolesReplaceHole }
{}
