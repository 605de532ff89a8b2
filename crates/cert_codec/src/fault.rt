//! Why bytes are no certificate.

ghost use Rattle.std.specs.Prelude.{◌≡◌};
ghost use Rattle.cert_codec.specs.declared.fault.DecodeFault.TheVariants as fault;

use std::alloc::{AllocError, AllocFailed};
use thiserror::Error;

/// Why `decode` gives no certificate.
#[derive(Debug, Drop, Error)]
pub enum DecodeFault {
    /// The bytes spell no certificate. `at` is the offset, in bytes from 0, of the first byte with which
    /// no spelling goes on; it is the number of bytes where more bytes would be needed.
    #[error("malformed at byte {at}")]
    Malformed { at: u32 },
    /// The allocator refused, so the bytes were not read to their end.
    #[error("out of memory")]
    NoMemory,
}

impl From<AllocError> for DecodeFault {
    ghost from_gives = { λ _ e. e ≡ fault.NoMemory };

    fn from(_e: AllocError) -> DecodeFault {
        DecodeFault::NoMemory
    }
}

impl<T: Drop> From<AllocFailed<T>> for DecodeFault {
    ghost from_gives = { λ _ e. e ≡ fault.NoMemory };

    fn from(_e: AllocFailed<T>) -> DecodeFault {
        DecodeFault::NoMemory
    }
}
