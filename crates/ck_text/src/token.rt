//! The signs that tokens are made of.

/// A sign between two operands. `Minus` stands also before one.
#[derive(Clone, Copy, Debug, PartialEq, Eq)]
pub enum Sign {
    /// `=>`
    Implies,
    /// `\/`
    OrElse,
    /// `/\`
    AndAlso,
    /// `or`
    Either,
    /// `and`
    Both,
    /// `=`
    Equal,
    /// `<`
    Less,
    /// `<=`
    AtMost,
    /// `+`
    Plus,
    /// `-`
    Minus,
    /// `*`
    Times,
}

/// A sign before one operand.
#[derive(Clone, Copy, Debug, PartialEq, Eq)]
pub enum Prefix {
    /// `~`
    Tilde,
    /// `not`
    Not,
    /// `-`
    Minus,
}

/// A word that binds a name.
#[derive(Clone, Copy, Debug, PartialEq, Eq)]
pub enum Quantifier {
    /// `all`
    All,
    /// `ex`
    Ex,
}

/// The other signs and reserved words. From `OpenBrace` on they stand in no term and no formula.
#[derive(Clone, Copy, Debug, PartialEq, Eq)]
pub enum Mark {
    /// `(`
    Open,
    /// `)`
    Close,
    /// `:`
    Colon,
    /// `.`
    Dot,
    /// `~`
    Tilde,
    /// `not`
    Not,
    /// `bottom`
    Bottom,
    /// `{`
    OpenBrace,
    /// `}`
    CloseBrace,
    /// `,`
    Comma,
    /// `;`
    Semicolon,
    /// `:=`
    Becomes,
    /// `|`
    Bar,
    /// `#`
    Hash,
    /// `?`
    Question,
    /// `div`
    Div,
    /// `mod`
    Mod,
}
