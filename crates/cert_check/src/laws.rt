//! Soundness of derived programs, as contracts of calls that do nothing.

ghost use Rattle.cert_check.specs.Laws.{DerivingIsSound, ValidFilesKeepTheirPromise};

/// A node that proves its triple derives a program that meets it (Hoare 1969): no run is stuck, and one
/// that has ended makes the postcondition true.
pub fn deriving_is_sound()
    ensures { DerivingIsSound }
{}

/// Whatever certificate a valid file spells, its program keeps its promise.
pub fn valid_files_keep_their_promise()
    ensures { ValidFilesKeepTheirPromise }
{}
