//! What is proved of the spellings of certificates. Each statement is in `specs/Laws.antt`.

ghost use Rattle.cert_codec.specs.Laws.{OneSpelling, NoProperPrefix};

/// Certificates that are spelled alike are the same.
pub fn one_spelling()
    ensures { OneSpelling }
{}

/// A spelling followed by more bytes is none.
pub fn no_proper_prefix()
    ensures { NoProperPrefix }
{}
