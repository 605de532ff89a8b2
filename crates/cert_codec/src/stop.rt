//! Why a part of a certificate could not be read.

ghost use Rattle.std.specs.Prelude.{◌≡◌, length};
ghost use Rattle.cert_codec.specs.declared.stop.Stop.TheVariants as stops;

use std::alloc::{AllocError, AllocFailed};

#[derive(Drop)]
pub(crate) enum Stop {
    /// Among the bytes, the first one that does not go on, or their end, has `left` bytes from it on.
    Malformed { left: usize },
    NoMemory,
}

impl From<AllocError> for Stop {
    ghost from_gives = { λ _ e. e ≡ stops.NoMemory };

    fn from(_e: AllocError) -> Stop {
        Stop::NoMemory
    }
}

impl<T: Drop> From<AllocFailed<T>> for Stop {
    ghost from_gives = { λ _ e. e ≡ stops.NoMemory };

    fn from(_e: AllocFailed<T>) -> Stop {
        Stop::NoMemory
    }
}

/// The first of these bytes does not go on, or there is none.
pub(crate) fn malformed(bytes: &[u8]) -> Stop
    ensures { result ≡ stops.Malformed (length bytes.now) }
{
    Stop::Malformed { left: bytes.len() }
}
