//! Why a proof has no formula.

use ck_base::NoMemory;

/// Why `type_of` gives no formula.
#[derive(Debug, Drop)]
pub enum Untyped {
    /// The proof has none. `place` is the number of the first subproof that has none in its own context:
    /// proof nodes are numbered from 0 in post-order.
    At { place: u32 },
    /// A request for memory was refused.
    NoMemory,
}

impl From<NoMemory> for Untyped {
    ghost use Rattle.type_checker.specs.declared.untyped.Untyped.TheVariants.{NoMemory};
    ghost use Rattle.std.specs.Prelude.{◌≡◌};

    ghost from_gives = { λ _ e. e ≡ NoMemory };

    fn from(_e: NoMemory) -> Untyped {
        Untyped::NoMemory
    }
}
