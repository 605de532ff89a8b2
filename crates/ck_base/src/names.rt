//! The rule for declared names.

ghost use Rattle.std.specs.Prelude.{◌≡◌};
ghost use Rattle.std.specs.List.{list_all, list_any};
ghost use Rattle.std.specs.Str.{bytes_eq};
ghost use Rattle.ck_base.specs.Names.{is_letter, is_name, is_name_byte, reserved_words};

use crate::limits::NAME_BYTES;

/// Whether the bytes are a name: `[a-z][a-z0-9_]*` of at most `NAME_BYTES` bytes, and no word of the
/// language. It takes no memory.
#[tactic(auto, unfolding(crate::specs::Names::is_name))]
pub fn is_name(bytes: &[u8]) -> bool
    ensures { result ≡ is_name bytes.now }
{
    let [first, rest @ ..] = bytes else {
        return false;
    };
    is_letter(*first) && are_name_bytes(rest) && rest.len() < NAME_BYTES && !is_reserved(bytes)
}

fn is_letter(b: u8) -> bool
    ensures { result ≡ is_letter b }
{
    b.is_ascii_lowercase()
}

fn is_name_byte(b: u8) -> bool
    ensures { result ≡ is_name_byte b }
{
    b.is_ascii_lowercase() || b.is_ascii_digit() || b == b'_'
}

fn are_name_bytes(bytes: &[u8]) -> bool
    ensures { result ≡ list_all is_name_byte bytes.now }
{
    bytes.iter().all(|b| is_name_byte(*b))
}

/// Whether the bytes are a word of the language, which names nothing else.
fn is_reserved(bytes: &[u8]) -> bool
    ensures { result ≡ list_any (bytes_eq bytes.now) reserved_words }
{
    is_among(
        bytes,
        &[
            "true", "false", "bottom", "not", "and", "or", "all", "ex", "int", "bool", "div", "mod",
        ],
    )
}

fn is_among(bytes: &[u8], words: &[&str]) -> bool
    ensures { result ≡ list_any (λ word. bytes_eq bytes.now word.now) words.now }
{
    words.iter().any(|word| bytes == word.as_bytes())
}
