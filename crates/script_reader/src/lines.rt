//! Scripts as lines, and what a line asks for.

ghost use Rattle.std.specs.Prelude.{◌≡◌, ◌<◌, ◌≤◌, ◌^◌, ◌==◌, [], ◌∷◌, length, take, drop, true, IfOk, IfSome, IsErrOf, MatchOption};
ghost use Rattle.std.specs.List.{list_all};
ghost use Rattle.script_reader.specs.Lines.{Means, LineTree, line_tree, lines_of, is_inside, without_return, is_plain, is_comment, is_blank_line as is_blank_line_of, is_text_byte, hypotheses_at};
ghost use Rattle.script_reader.specs.Tokens.{count_while, scan};
ghost use Rattle.script_reader.specs.Reading.{Gives, spec_at, step_at, line_at, after_all};

use crate::reading::{close_brace, colon, fitting, open_brace, proof};
use crate::stop::Stop;
use crate::token::{Token, is_blank, tokens};
use ck_base::limits::{LINE_BYTES, PROOF_DEPTH};
use formulas::Formula;
use proof_terms::Proof;
use std::alloc::Global;

/// A hole that is open, by its number, and how many hypotheses it stands under.
#[derive(Clone, Copy, Debug, PartialEq, Eq)]
pub struct OpenHole {
    pub number: u32,
    pub hypotheses: u32,
}

/// What a line asks for.
#[derive(Drop)]
pub enum Line {
    /// `spec { P } { Q }`: the pre- and postcondition.
    Spec { pre: Formula, post: Formula },
    /// `k: skip`.
    Skip { hole: u32 },
    /// `k: intro`.
    Intro { hole: u32 },
    /// `k: exact p`.
    Exact { hole: u32, proof: Proof },
    /// `export`.
    Export,
}

/// Why a line asks for nothing.
#[derive(Debug, Drop)]
pub enum LineFault {
    /// It is too long, has a byte that is no text, or means nothing.
    Unread,
    /// A request for memory was refused.
    NoMemory,
}

impl From<Stop> for LineFault {
    ghost use Rattle.script_reader.specs.Reading.{fault_of};
    ghost use Rattle.std.specs.Prelude.{◌≡◌};

    ghost from_gives = { λ stop e. e ≡ fault_of stop };

    fn from(stop: Stop) -> LineFault {
        match stop {
            Stop::Unread => LineFault::Unread,
            Stop::NoMemory => LineFault::NoMemory,
        }
    }
}

/// The first line of a script and the bytes after it; `None` where no line is left. Lines end with a line
/// feed, and one carriage return before it is no part of them; what is left at the end is a line as it is.
pub fn next_line(script: &[u8]) -> Option<(&[u8], &[u8])>
    ensures lines { MatchOption result (lines_of script.now ≡ []) (λ x. lines_of script.now ≡ x.0.now ∷ lines_of x.1.now) }
    ensures shorter { IfSome result (λ x. length x.1.now < length script.now) }
{
    if script.is_empty() {
        return None;
    }
    let end = line_end(script);
    if end < script.len() {
        Some((without_return(front(script, end)), behind(script, end + 1)))
    } else {
        Some((script, &[]))
    }
}

// How many bytes there are before the first line feed.
fn line_end(script: &[u8]) -> usize
    ensures count { result ≡ count_while is_inside script.now }
    ensures within { result ≤ length script.now }
{
    let mut count = 0;
    let mut rest = script;
    while let [first, more @ ..] = rest
        && *first != b'\n'
    {
        count += 1;
        rest = more;
    }
    count
}

fn front(bytes: &[u8], end: usize) -> &[u8]
    requires { end ≤ length bytes.now }
    ensures { result.now ≡ take end bytes.now }
{
    &bytes[..end]
}

fn behind(bytes: &[u8], at: usize) -> &[u8]
    requires { at ≤ length bytes.now }
    ensures { result.now ≡ drop at bytes.now }
{
    &bytes[at..]
}

fn without_return(line: &[u8]) -> &[u8]
    ensures { result.now ≡ without_return line.now }
{
    let Some(last) = line.len().checked_sub(1) else {
        return line;
    };
    if line[last] == b'\r' {
        front(line, last)
    } else {
        line
    }
}

/// Whether the line is blank: at most 8,192 bytes of text, spaces and tabs alone or a comment behind them.
pub fn is_blank_line(line: &[u8]) -> bool
    ensures { result ≡ is_blank_line_of line.now }
{
    is_plain(line) && is_comment(line)
}

fn is_plain(line: &[u8]) -> bool
    ensures { result ≡ is_plain line.now }
{
    line.len() <= LINE_BYTES && is_text(line)
}

fn is_text(line: &[u8]) -> bool
    ensures { result ≡ list_all is_text_byte line.now }
{
    line.iter().all(|b| is_text_byte(*b))
}

fn is_text_byte(b: u8) -> bool
    ensures { result ≡ is_text_byte b }
{
    b == b'\t' || (32..=126).contains(&b)
}

fn is_comment(line: &[u8]) -> bool
    ensures { result ≡ is_comment line.now }
{
    let mut rest = line;
    while let [first, more @ ..] = rest
        && is_blank(*first)
    {
        rest = more;
    }
    match rest {
        [] => true,
        [b'/', b'/', ..] => true,
        _ => false,
    }
}

/// What the line asks for, where that hole is open.
pub fn read_line(alloc: Global, opened: Option<OpenHole>, line: &[u8]) -> Result<Line, LineFault>
    requires { IfSome opened (λ h. h.hypotheses < 2 ^ 31) }
    ensures read { IfOk result (λ l. Means opened line.now (line_tree l)) }
    ensures unread { IsErrOf result LineFault.Unread → (tree : LineTree) → Means opened line.now tree → ⊥ }
{
    if !is_plain(line) {
        return Err(LineFault::Unread);
    }
    Ok(scanned(alloc, opened, line)?)
}

fn scanned(alloc: Global, opened: Option<OpenHole>, line: &[u8]) -> Result<Line, Stop>
    requires { IfSome opened (λ h. h.hypotheses < 2 ^ 31) }
    ensures { Gives line_tree result (line_at opened (scan 0 line.now)) }
{
    let tokens = tokens(alloc, line)?;
    line_of(alloc, opened, tokens.as_slice())
}

fn line_of(alloc: Global, opened: Option<OpenHole>, tokens: &[Token]) -> Result<Line, Stop>
    requires { IfSome opened (λ h. h.hypotheses < 2 ^ 31) }
    ensures { Gives line_tree result (line_at opened tokens.now) }
{
    match tokens {
        [Token::Spec, rest @ ..] => spec(alloc, rest),
        [Token::Number(hole), rest @ ..] => {
            let hypotheses = hypotheses_at(opened, *hole);
            step(alloc, *hole, hypotheses, colon(rest)?)
        }
        [Token::Export] => Ok(Line::Export),
        _ => Err(Stop::Unread),
    }
}

fn hypotheses_at(opened: Option<OpenHole>, hole: u32) -> u32
    requires { IfSome opened (λ h. h.hypotheses < 2 ^ 31) }
    ensures value { result ≡ hypotheses_at opened hole }
    ensures few { result < 2 ^ 31 }
{
    match opened {
        Some(place) if place.number == hole => place.hypotheses,
        _ => 0,
    }
}

fn spec(alloc: Global, tokens: &[Token]) -> Result<Line, Stop>
    ensures { Gives line_tree result (spec_at tokens.now) }
{
    let (pre, rest) = fitting(alloc, open_brace(tokens)?)?;
    let rest = close_brace(rest)?;
    let (post, rest) = fitting(alloc, open_brace(rest)?)?;
    ended(close_brace(rest)?)?;
    Ok(Line::Spec { pre, post })
}

fn step(alloc: Global, hole: u32, hypotheses: u32, tokens: &[Token]) -> Result<Line, Stop>
    requires { hypotheses < 2 ^ 31 }
    ensures { Gives line_tree result (step_at hole hypotheses tokens.now) }
{
    match tokens {
        [Token::Skip] => Ok(Line::Skip { hole }),
        [Token::Intro] => Ok(Line::Intro { hole }),
        [Token::Exact, rest @ ..] => {
            let (proof, rest) = proof(alloc, PROOF_DEPTH, hypotheses, rest)?;
            ended(rest)?;
            Ok(Line::Exact { hole, proof })
        }
        _ => Err(Stop::Unread),
    }
}

// No token is left.
fn ended(tokens: &[Token]) -> Result<(), Stop>
    ensures { Gives {Y = Unit {0}} (λ _. tt) result (after_all tokens.now) }
{
    if tokens.is_empty() {
        Ok(())
    } else {
        Err(Stop::Unread)
    }
}
