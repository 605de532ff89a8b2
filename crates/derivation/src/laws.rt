//! What is proved of derivations beyond single steps. The statement is in `specs/Laws.antt`.

ghost use Rattle.derivation.specs.Laws.{ExportsAreValid};

/// What a derivation exports is a valid file.
pub fn exports_are_valid()
    ensures { ExportsAreValid }
{}
