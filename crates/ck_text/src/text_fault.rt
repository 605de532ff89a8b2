//! Why a text is not read.

ghost use Rattle.std.specs.Prelude.{◌≡◌};
ghost use Rattle.ck_text.specs.declared.text_fault.TextFault.TheVariants as fault;

use ck_base::NoMemory;
use thiserror::Error;

/// Why a text is not read as a term, a formula or a proof. Columns count its bytes from 1.
#[derive(Debug, Drop, Error)]
pub enum TextFault {
    /// No text of the asked form begins with the tokens up to the one at the column. One past the last
    /// byte, the text ends too early.
    #[error("syntax, column {column}")]
    Syntax { column: u32 },
    /// The tree of the term or formula has more than 256 levels. The column is that of its first token; in a
    /// proof, that of the first token of the first such term or formula.
    #[error("too deep, column {column}")]
    Deep { column: u32 },
    /// The name or `#k` at the column means nothing, and is the first such one.
    #[error("unknown name, column {column}")]
    Unknown { column: u32 },
    /// The allocator refused.
    #[error("out of memory")]
    NoMemory,
}

impl From<NoMemory> for TextFault {
    ghost from_gives = { λ _ e. e ≡ fault.NoMemory };

    fn from(_e: NoMemory) -> TextFault {
        TextFault::NoMemory
    }
}
