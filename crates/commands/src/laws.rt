//! What is proved of sessions beyond single scripts. Each statement is in `specs/Laws.antt`.

ghost use Rattle.commands.specs.Laws.{ExportIsExact, ExportIsValid, OneSession, RefusalsChangeNothing, SessionsAreExact};

/// `export` is accepted exactly where no hole is open and every obligation's proof has its formula.
pub fn export_is_exact()
    ensures { ExportIsExact }
{}

/// What is exported is a valid file.
pub fn export_is_valid()
    ensures { ExportIsValid }
{}

/// A line whose reply is a refusal leaves the session's state as it was.
pub fn refusals_change_nothing()
    ensures { RefusalsChangeNothing }
{}

/// A script has at most one session.
pub fn one_session()
    ensures { OneSession }
{}

/// What a session exported was complete, and where it exported nothing no `export` met a complete derivation.
pub fn sessions_are_exact()
    ensures { SessionsAreExact }
{}
