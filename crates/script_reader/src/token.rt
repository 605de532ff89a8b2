//! The tokens of a line, by longest match.

ghost use Rattle.std.specs.Prelude.{◌≡◌, ◌<◌, ◌≤◌, ◌^◌, suc, true, nat_lt, if◌then◌else◌, Some, None, ◌∷◌, length, take, drop, IfOk};
ghost use Rattle.std.specs.List.{list_all};
ghost use Rattle.ck_base.specs.Names.{is_digit, is_name_byte};
ghost use Rattle.script_reader.specs.Tokens.{is_blank, begins_word, count_while, value_from, word_token, number_token, sign_token, first_token as first_token_of, scan};

use ck_base::{List, NoMemory};
use std::alloc::Global;

/// What a line is made of. `Other` is every token and every byte that no line which is built has; a number
/// is below 2^32.
#[derive(Clone, Copy, Debug, PartialEq, Eq)]
pub enum Token {
    True,
    False,
    Bottom,
    Lam,
    App,
    Spec,
    Skip,
    Intro,
    Exact,
    Export,
    Number(u32),
    Open,
    Close,
    OpenBrace,
    CloseBrace,
    Comma,
    Colon,
    Hash,
    Not,
    Implies,
    Other,
}

/// The tokens of the line. Spaces and tabs separate them and mean nothing else.
pub(crate) fn tokens(alloc: Global, line: &[u8]) -> Result<List<Token>, NoMemory>
    ensures { IfOk result (λ tokens. tokens ≡ scan 0 line.now) }
{
    let mut tokens = List::new(alloc);
    let mut rest = line;
    while let [first, more @ ..] = rest {
        if is_blank(*first) {
            rest = more;
        } else {
            let (token, taken) = first_token(*first, more, rest);
            tokens.push(token)?;
            rest = tail(more, taken);
        }
    }
    Ok(tokens)
}

// The bytes from `at` on.
fn tail(bytes: &[u8], at: usize) -> &[u8]
    requires { at ≤ length bytes.now }
    ensures { result.now ≡ drop at bytes.now }
{
    &bytes[at..]
}

// The token that the bytes begin with, and how many of those after the first belong to it.
fn first_token(first: u8, more: &[u8], bytes: &[u8]) -> (Token, usize)
    requires { bytes.now ≡ first ∷ more.now }
    ensures token { result ≡ first_token_of first more.now }
    ensures within { result.1 ≤ length more.now }
{
    if begins_word(first) {
        let taken = word_bytes(more);
        return (word(front(bytes, taken)), taken);
    }
    if is_digit(first) {
        let taken = digits(more);
        return (number(front(bytes, taken)), taken);
    }
    match more {
        [b'>', ..] if first == b'=' => (Token::Implies, 1),
        _ => (sign(first), 0),
    }
}

// The first byte and so many after it.
fn front(bytes: &[u8], after: usize) -> &[u8]
    requires { after < length bytes.now }
    ensures { result.now ≡ take (suc after) bytes.now }
{
    &bytes[..=after]
}

fn word(word: &[u8]) -> Token
    ensures { result ≡ word_token word.now }
{
    if word == b"true".as_slice() {
        Token::True
    } else if word == b"false".as_slice() {
        Token::False
    } else if word == b"bottom".as_slice() {
        Token::Bottom
    } else if word == b"lam".as_slice() {
        Token::Lam
    } else if word == b"app".as_slice() {
        Token::App
    } else if word == b"spec".as_slice() {
        Token::Spec
    } else if word == b"skip".as_slice() {
        Token::Skip
    } else if word == b"intro".as_slice() {
        Token::Intro
    } else if word == b"exact".as_slice() {
        Token::Exact
    } else if word == b"export".as_slice() {
        Token::Export
    } else {
        Token::Other
    }
}

fn number(digits: &[u8]) -> Token
    requires { list_all is_digit digits.now ≡ true }
    ensures { result ≡ number_token digits.now }
{
    match value(digits) {
        Some(value) => Token::Number(value),
        None => Token::Other,
    }
}

// The value of the digits, where it is below 2^32.
fn value(digits: &[u8]) -> Option<u32>
    requires { list_all is_digit digits.now ≡ true }
    ensures { result ≡ (if nat_lt (value_from 0 digits.now) (2 ^ 32) then Some (value_from 0 digits.now) else None) }
{
    let mut value: u32 = 0;
    let mut rest = digits;
    while let [digit, more @ ..] = rest {
        value = value
            .checked_mul(10)?
            .checked_add(u32::from(*digit - b'0'))?;
        rest = more;
    }
    Some(value)
}

fn sign(b: u8) -> Token
    ensures { result ≡ sign_token b }
{
    match b {
        b'(' => Token::Open,
        b')' => Token::Close,
        b'{' => Token::OpenBrace,
        b'}' => Token::CloseBrace,
        b',' => Token::Comma,
        b':' => Token::Colon,
        b'#' => Token::Hash,
        b'~' => Token::Not,
        _ => Token::Other,
    }
}

pub(crate) fn is_blank(b: u8) -> bool
    ensures { result ≡ is_blank b }
{
    b == b' ' || b == b'\t'
}

fn begins_word(b: u8) -> bool
    ensures { result ≡ begins_word b }
{
    b.is_ascii_lowercase() || b == b'_'
}

fn is_digit(b: u8) -> bool
    ensures { result ≡ is_digit b }
{
    b.is_ascii_digit()
}

fn is_word_byte(b: u8) -> bool
    ensures { result ≡ is_name_byte b }
{
    b.is_ascii_lowercase() || b.is_ascii_digit() || b == b'_'
}

// How many bytes of a word there are before any other byte.
fn word_bytes(bytes: &[u8]) -> usize
    ensures count { result ≡ count_while is_name_byte bytes.now }
    ensures within { result ≤ length bytes.now }
{
    let mut count = 0;
    let mut rest = bytes;
    while let [first, more @ ..] = rest
        && is_word_byte(*first)
    {
        count += 1;
        rest = more;
    }
    count
}

// How many digits there are before any other byte.
fn digits(bytes: &[u8]) -> usize
    ensures count { result ≡ count_while is_digit bytes.now }
    ensures within { result ≤ length bytes.now }
{
    let mut count = 0;
    let mut rest = bytes;
    while let [first, more @ ..] = rest
        && is_digit(*first)
    {
        count += 1;
        rest = more;
    }
    count
}
