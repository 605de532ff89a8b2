//! What is proved of lines beyond single calls. The statement is in `specs/Laws.antt`.

ghost use Rattle.script_reader.specs.Laws.{OneMeaning};

/// A line means at most one thing.
pub fn one_meaning()
    ensures { OneMeaning }
{}
