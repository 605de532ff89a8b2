//! Why a term is not true by computing.

/// Why `compute` does not allow a term.
#[derive(Clone, Copy, PartialEq, Eq, Debug)]
pub enum NoCompute {
    /// A name or an index stands in it.
    NotClosed,
    /// Its weight is 2^127 or more.
    Wide,
    /// Its value is false.
    False,
}
