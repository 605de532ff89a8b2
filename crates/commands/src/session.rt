//! The session: a script is played line by line.

ghost use Rattle.std.specs.Prelude.{◌≡◌, ◌≢◌, ◌<◌, ◌^◌, ◌++◌, None, IfOk, IfSome, OnOk, IsErrOf, codes, Some};
ghost use Rattle.cert_codec.specs.Tree.{checked_tree};
ghost use Rattle.cert_codec.specs.Spelling.{spell};
ghost use Rattle.cert_check.specs.Valid.{IsFileOf};
ghost use Rattle.script_reader.specs.Lines.{lines_of, line_tree, skip, intro, exact, export};
ghost use Rattle.derivation.specs.declared.derivation.StepFault.TheVariants as faults;
ghost use Rattle.derivation.specs.Derivation.{DerivationTree, derivation_tree};
ghost use Rattle.derivation.specs.Derived.{IsKept};
ghost use Rattle.derivation.specs.Printing.{open_text};
ghost use Rattle.commands.specs.Session.{Plays, unfinished_line, open_of, state_of, certificate_tree_of};
ghost use Rattle.commands.specs.Session.{Accepts};
ghost use Rattle.commands.specs.Answers.{IsKeptSession, MayBe, AnswersTo, Answers};

use cert_codec::Certificate;
use ck_base::{NoMemory, Text};
use derivation::{Derivation, StepFault};
use script_reader::{Line, LineFault, OpenHole, is_blank_line, next_line, read_line};
use std::alloc::Global;

/// What a script gave.
#[derive(Drop)]
pub struct Played {
    /// The replies to its lines up to its end, or up to the first accepted `export`.
    pub transcript: Text,
    /// The certificate of that `export`.
    pub exported: Option<Certificate>,
}

/// What a line gave.
#[derive(Drop)]
pub enum Answer {
    /// The session goes on.
    Next(Option<Derivation>),
    /// The session is over.
    Exported(Certificate),
}

/// Plays the script.
pub fn play(alloc: Global, script: &[u8]) -> Result<Played, NoMemory>
    ensures plays { IfOk result (λ played. Plays (lines_of script.now) played.transcript (certificate_tree_of played.exported)) }
    ensures valid { IfOk result (λ played. IfSome played.exported (λ c. IsFileOf (checked_tree c) (spell (checked_tree c)))) }
{
    let mut session = None;
    let mut transcript = Text::new(alloc);
    let mut rest = script;
    while let Some((line, more)) = next_line(rest) {
        match answer_line(alloc, session, line, &mut transcript)? {
            Answer::Next(next) => session = next,
            Answer::Exported(certificate) => {
                return Ok(Played {
                    transcript,
                    exported: Some(certificate),
                });
            }
        }
        rest = more;
    }
    Ok(Played {
        transcript,
        exported: None,
    })
}

// Answers one line, and adds its reply to the transcript.
fn answer_line(
    alloc: Global,
    session: Option<Derivation>,
    line: &[u8],
    out: &mut Text,
) -> Result<Answer, NoMemory>
    requires { IsKeptSession session }
    ensures { IfOk result (λ answer. Answers (state_of session) line.now out.old out.new answer) }
{
    if is_blank_line(line) {
        return Ok(Answer::Next(session));
    }
    match read_line(alloc, opened(&session), line) {
        Ok(meant) => Ok(answer_to(alloc, session, meant, out)?),
        Err(LineFault::Unread) => {
            out.append(b"refused Line\n")?;
            Ok(Answer::Next(session))
        }
        Err(LineFault::NoMemory) => Err(NoMemory),
    }
}

// The hole that is open.
fn opened(session: &Option<Derivation>) -> Option<OpenHole>
    requires { IsKeptSession session.now }
    ensures hole { result ≡ open_of (state_of session.now) }
    ensures few { IfSome result (λ h. h.hypotheses < 2 ^ 31) }
{
    match session {
        Some(derivation) => derivation.opened(),
        None => None,
    }
}

// Answers what a line asks for.
fn answer_to(
    alloc: Global,
    session: Option<Derivation>,
    line: Line,
    out: &mut Text,
) -> Result<Answer, NoMemory>
    requires kept { IsKeptSession session }
    requires meant { MayBe (line_tree line) }
    ensures { IfOk result (λ answer. AnswersTo (state_of session) (line_tree line) out.old out.new answer) }
{
    match session {
        None => begin(alloc, line, out),
        Some(derivation) => match line {
            Line::Export => export(alloc, derivation, out),
            line => step(alloc, derivation, line, out),
        },
    }
}

// Answers what a line asks for before a triple is stated.
fn begin(alloc: Global, line: Line, out: &mut Text) -> Result<Answer, NoMemory>
    requires { MayBe (line_tree line) }
    ensures { IfOk result (λ answer. AnswersTo None (line_tree line) out.old out.new answer) }
{
    match line {
        Line::Spec { pre, post } => {
            let derivation = Derivation::begin(pre, post);
            add_accepted(alloc, &derivation, out)?;
            Ok(Answer::Next(Some(derivation)))
        }
        _ => {
            out.append(b"refused Line\n")?;
            Ok(Answer::Next(None))
        }
    }
}

// Answers a step, or a second triple, which is refused.
fn step(
    alloc: Global,
    derivation: Derivation,
    line: Line,
    out: &mut Text,
) -> Result<Answer, NoMemory>
    requires kept { IsKept derivation }
    requires meant { MayBe (line_tree line) }
    requires step { line_tree line ≢ export }
    ensures { IfOk result (λ answer. AnswersTo (Some (derivation_tree derivation)) (line_tree line) out.old out.new answer) }
{
    let mut derivation = derivation;
    match taken(alloc, &mut derivation, line) {
        Ok(()) => {
            add_accepted(alloc, &derivation, out)?;
            Ok(Answer::Next(Some(derivation)))
        }
        Err(StepFault::Refused) => {
            out.append(b"refused Line\n")?;
            Ok(Answer::Next(Some(derivation)))
        }
        Err(StepFault::NoMemory) => Err(NoMemory),
    }
}

// Takes the step that the line asks for. No other line is accepted within a derivation.
fn taken(alloc: Global, derivation: &mut Derivation, line: Line) -> Result<(), StepFault>
    requires kept { IsKept derivation.old }
    requires meant { MayBe (line_tree line) }
    ensures taken { OnOk result (Accepts (Some (derivation_tree derivation.old)) (line_tree line) (derivation_tree derivation.new)) }
    ensures refused { IsErrOf result faults.Refused → (next : DerivationTree) → Accepts (Some (derivation_tree derivation.old)) (line_tree line) next → ⊥ }
    ensures unchanged { IsErrOf result faults.Refused → derivation.new ≡ derivation.old }
    ensures kept { OnOk result (IsKept derivation.new) }
{
    match line {
        Line::Skip { hole } => derivation.skip(alloc, hole),
        Line::Intro { hole } => derivation.intro(hole),
        Line::Exact { hole, proof } => derivation.exact(alloc, hole, proof),
        Line::Spec { .. } | Line::Export => Err(StepFault::Refused),
    }
}

// Answers `export`.
fn export(alloc: Global, derivation: Derivation, out: &mut Text) -> Result<Answer, NoMemory>
    requires { IsKept derivation }
    ensures { IfOk result (λ answer. AnswersTo (Some (derivation_tree derivation)) export out.old out.new answer) }
{
    match derivation.certificate(alloc) {
        Ok(certificate) => Ok(Answer::Exported(certificate)),
        Err(derivation) => {
            let Some(hole) = derivation.opened() else {
                unreachable!()
            };
            add_unfinished(alloc, hole.number, out)?;
            Ok(Answer::Next(Some(derivation)))
        }
    }
}

// Adds the reply to an accepted line: `ok`, and the line of the hole that it opens.
fn add_accepted(alloc: Global, derivation: &Derivation, out: &mut Text) -> Result<(), NoMemory>
    requires { IsKept derivation.now }
    ensures { OnOk result (out.new ≡ out.old ++ (codes "ok\n" ++ open_text (derivation_tree derivation.now))) }
{
    out.append(b"ok\n")?;
    derivation.print_open(alloc, out)
}

// Adds the refusal of an `export` with that hole open.
fn add_unfinished(alloc: Global, hole: u32, out: &mut Text) -> Result<(), NoMemory>
    ensures { OnOk result (out.new ≡ out.old ++ unfinished_line hole) }
{
    let number = hole.to_string(alloc)?;
    out.append(b"refused Unfinished ")?;
    out.append(number.as_bytes())?;
    out.append(b"\n")
}
