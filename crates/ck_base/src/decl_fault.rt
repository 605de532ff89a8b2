//! Why a declaration is not taken.

ghost use Rattle.std.specs.Prelude.{◌≡◌};
ghost use Rattle.ck_base.specs.declared.decl_fault.DeclFault.TheVariants as fault;

use crate::no_memory::NoMemory;
use std::alloc::{AllocError, AllocFailed};
use thiserror::Error;

/// Why `Decls::add` takes no declaration. The first of these that is so is answered.
#[derive(Debug, Drop, Error)]
pub enum DeclFault {
    /// The name is not `[a-z][a-z0-9_]*` of at most 32 bytes, or is a word of the language.
    #[error("not a name")]
    BadName,
    /// The name is declared already, with this number.
    #[error("declared already, as number {0}")]
    Duplicate(u32),
    /// As many names as there may be are declared.
    #[error("too many names")]
    TooMany,
    /// The allocator refused.
    #[error("out of memory")]
    NoMemory,
}

impl From<NoMemory> for DeclFault {
    ghost from_gives = { λ _ e. e ≡ fault.NoMemory };

    fn from(_e: NoMemory) -> DeclFault {
        DeclFault::NoMemory
    }
}

impl From<AllocError> for DeclFault {
    ghost from_gives = { λ _ e. e ≡ fault.NoMemory };

    fn from(_e: AllocError) -> DeclFault {
        DeclFault::NoMemory
    }
}

impl<T: Drop> From<AllocFailed<T>> for DeclFault {
    ghost from_gives = { λ _ e. e ≡ fault.NoMemory };

    fn from(_e: AllocFailed<T>) -> DeclFault {
        DeclFault::NoMemory
    }
}
