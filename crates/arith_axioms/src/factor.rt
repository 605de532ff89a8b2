//! What the products of a polynomial are made of.

/// A factor of a product: a declared name by its number, or a bound variable by its index, 0 the innermost.
#[derive(Clone, Copy, PartialEq, Eq, Debug)]
pub enum Factor {
    Name(u32),
    Index(u32),
}
