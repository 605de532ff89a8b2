//! The tokens of a text, by longest match.

ghost use Rattle.std.specs.Prelude.{◌≡◌, ◌<◌, ◌≤◌, suc, true, ◌∷◌, length, map, take, drop, IfOk};
ghost use Rattle.std.specs.List.{list_all};
ghost use Rattle.std.specs.Option.{option_map};
ghost use Rattle.ck_base.specs.Names.{is_digit, is_name_byte};
ghost use Rattle.ck_text.specs.Tokens as grammar;
ghost use Rattle.ck_text.specs.Views as views;

use crate::digits::{is_digit, value};
use crate::token::{Mark, Quantifier, Sign};
use ck_base::{List, NoMemory, Sort};
use std::alloc::Global;

/// A token. `None` stands for a byte that begins no token, and for a number that is too large.
#[derive(Clone, Copy)]
pub(crate) enum Token<'a> {
    Word(&'a [u8]),
    Number(u128),
    Truth(bool),
    Sort(Sort),
    Quantifier(Quantifier),
    Joining(Sign),
    Mark(Mark),
    None,
}

/// A token, and how many bytes there are from its first one to the end of the text.
#[derive(Clone, Copy)]
pub(crate) struct Placed<'a> {
    pub(crate) left: usize,
    pub(crate) token: Token<'a>,
}

/// The tokens of the text. Spaces and tabs separate them and mean nothing else.
pub(crate) fn tokens<'a>(alloc: Global, bytes: &'a [u8]) -> Result<List<Placed<'a>>, NoMemory>
    ensures { IfOk result (λ placed. map views.placed placed ≡ grammar.scan 0 bytes.now) }
{
    let mut placed = List::new(alloc);
    let mut rest = bytes;
    while let [first, more @ ..] = rest {
        if is_blank(*first) {
            rest = more;
        } else {
            let (token, taken) = first_token(*first, more, rest);
            placed.push(Placed {
                left: rest.len(),
                token,
            })?;
            rest = tail(more, taken);
        }
    }
    Ok(placed)
}

// The bytes from `at` on.
fn tail(bytes: &[u8], at: usize) -> &[u8]
    requires { at ≤ length bytes.now }
    ensures { result.now ≡ drop at bytes.now }
{
    &bytes[at..]
}

// The token that the bytes begin with, and how many of those after the first belong to it.
fn first_token<'a>(first: u8, more: &[u8], bytes: &'a [u8]) -> (Token<'a>, usize)
    requires { bytes.now ≡ first ∷ more.now }
    ensures token { (views.token result.0, result.1) ≡ grammar.first_token first more.now }
    ensures within { result.1 ≤ length more.now }
{
    if begins_word(first) {
        let taken = word_bytes(more);
        return (word(front(bytes, taken)), taken);
    }
    if is_digit(first) {
        let taken = digits(more);
        return (number(front(bytes, taken)), taken);
    }
    sign(first, more)
}

// The first byte and so many after it.
fn front(bytes: &[u8], after: usize) -> &[u8]
    requires { after < length bytes.now }
    ensures { result.now ≡ take (suc after) bytes.now }
{
    &bytes[..=after]
}

fn word<'a>(word: &'a [u8]) -> Token<'a>
    ensures { views.token result ≡ grammar.word_token word.now }
{
    if word == b"true".as_slice() {
        Token::Truth(true)
    } else if word == b"false".as_slice() {
        Token::Truth(false)
    } else if word == b"int".as_slice() {
        Token::Sort(Sort::Int)
    } else if word == b"bool".as_slice() {
        Token::Sort(Sort::Bool)
    } else if word == b"all".as_slice() {
        Token::Quantifier(Quantifier::All)
    } else if word == b"ex".as_slice() {
        Token::Quantifier(Quantifier::Ex)
    } else if word == b"or".as_slice() {
        Token::Joining(Sign::Either)
    } else if word == b"and".as_slice() {
        Token::Joining(Sign::Both)
    } else if word == b"not".as_slice() {
        Token::Mark(Mark::Not)
    } else if word == b"bottom".as_slice() {
        Token::Mark(Mark::Bottom)
    } else if word == b"div".as_slice() {
        Token::Mark(Mark::Div)
    } else if word == b"mod".as_slice() {
        Token::Mark(Mark::Mod)
    } else {
        Token::Word(word)
    }
}

fn number<'a>(digits: &[u8]) -> Token<'a>
    requires { list_all is_digit digits.now ≡ true }
    ensures { views.token result ≡ grammar.number_token digits.now }
{
    match value(digits) {
        Some(value) if value < 1 << 127 => Token::Number(value),
        _ => Token::None,
    }
}

// A sign, and how many of the bytes after its first one belong to it.
fn sign<'a>(first: u8, more: &[u8]) -> (Token<'a>, usize)
    ensures token { (views.token result.0, result.1) ≡ grammar.sign_token first more.now }
    ensures within { result.1 ≤ length more.now }
{
    match more {
        [] => (short_sign(first), 0),
        [second, ..] => match long_sign(first, *second) {
            Some(long) => (long, 1),
            None => (short_sign(first), 0),
        },
    }
}

fn long_sign<'a>(first: u8, second: u8) -> Option<Token<'a>>
    ensures { option_map views.token result ≡ grammar.long_sign first second }
{
    match (first, second) {
        (b'=', b'>') => Some(Token::Joining(Sign::Implies)),
        (b'<', b'=') => Some(Token::Joining(Sign::AtMost)),
        (b'/', b'\\') => Some(Token::Joining(Sign::AndAlso)),
        (b'\\', b'/') => Some(Token::Joining(Sign::OrElse)),
        (b':', b'=') => Some(Token::Mark(Mark::Becomes)),
        _ => None,
    }
}

fn short_sign<'a>(b: u8) -> Token<'a>
    ensures { views.token result ≡ grammar.short_sign b }
{
    match b {
        b'(' => Token::Mark(Mark::Open),
        b')' => Token::Mark(Mark::Close),
        b':' => Token::Mark(Mark::Colon),
        b'.' => Token::Mark(Mark::Dot),
        b'=' => Token::Joining(Sign::Equal),
        b'<' => Token::Joining(Sign::Less),
        b'+' => Token::Joining(Sign::Plus),
        b'-' => Token::Joining(Sign::Minus),
        b'*' => Token::Joining(Sign::Times),
        b'~' => Token::Mark(Mark::Tilde),
        b'{' => Token::Mark(Mark::OpenBrace),
        b'}' => Token::Mark(Mark::CloseBrace),
        b',' => Token::Mark(Mark::Comma),
        b';' => Token::Mark(Mark::Semicolon),
        b'|' => Token::Mark(Mark::Bar),
        b'#' => Token::Mark(Mark::Hash),
        b'?' => Token::Mark(Mark::Question),
        _ => Token::None,
    }
}

fn is_blank(b: u8) -> bool
    ensures { result ≡ grammar.is_blank b }
{
    b == b' ' || b == b'\t'
}

fn begins_word(b: u8) -> bool
    ensures { result ≡ grammar.begins_word b }
{
    b.is_ascii_lowercase() || b == b'_'
}

fn is_word_byte(b: u8) -> bool
    ensures { result ≡ is_name_byte b }
{
    b.is_ascii_lowercase() || b.is_ascii_digit() || b == b'_'
}

// How many bytes of a word there are before any other byte.
fn word_bytes(bytes: &[u8]) -> usize
    ensures count { result ≡ grammar.count_while is_name_byte bytes.now }
    ensures within { result ≤ length bytes.now }
{
    let mut count = 0;
    let mut rest = bytes;
    while let [first, more @ ..] = rest
        && is_word_byte(*first)
    {
        count += 1;
        rest = more;
    }
    count
}

// How many digits there are before any other byte.
fn digits(bytes: &[u8]) -> usize
    ensures count { result ≡ grammar.count_while is_digit bytes.now }
    ensures within { result ≤ length bytes.now }
{
    let mut count = 0;
    let mut rest = bytes;
    while let [first, more @ ..] = rest
        && is_digit(*first)
    {
        count += 1;
        rest = more;
    }
    count
}
