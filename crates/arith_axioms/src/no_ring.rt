//! Why two terms are not equal as polynomials.

use crate::factor::Factor;
use ck_base::{List, NoMemory};

/// Why `ring` does not allow an equation.
#[derive(Debug, Drop)]
pub enum NoRing {
    /// The weights of both sides together are 2^127 or more.
    Wide,
    /// Both expansions together have this many monomials, more than 4,096. The count ends at 1,000,000.
    Many(u32),
    /// The sides are different polynomials: `product`, the least such one, has the total `left` on the left
    /// side and the total `right` on the right side.
    Differ {
        product: List<Factor>,
        left: i128,
        right: i128,
    },
    /// A request for memory was refused.
    NoMemory,
}

impl From<NoMemory> for NoRing {
    ghost use Rattle.std.specs.Prelude.{◌≡◌};
    ghost use Rattle.arith_axioms.specs.declared.no_ring.NoRing.TheVariants.{NoMemory};

    ghost from_gives = { λ _ e. e ≡ NoMemory };

    fn from(_e: NoMemory) -> NoRing {
        NoRing::NoMemory
    }
}
