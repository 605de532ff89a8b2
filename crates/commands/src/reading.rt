//! Reading a file whole.

ghost use Rattle.std.specs.Prelude.{◌≡◌, ◌+◌, ◌^◌, ◌<◌, ◌≤◌, ◌⊎◌, Err, [], length, drop, List, ℕ, IfOk};
ghost use Rattle.ck_base.specs.Outside.{Rose, Holds, IsMissing};
ghost use Rattle.commands.specs.Commands.{Leaves};
ghost use Rattle.commands.specs.declared.reading.ReadFault.TheVariants.{NoMemory};

use ck_base::Origin;
use std::alloc::{AllocError, Global};

/// Why a file was not read.
#[derive(Debug, Drop)]
pub enum ReadFault {
    /// A call on the origin failed.
    Failed,
    /// The file has more bytes than the limit.
    TooLong,
    /// A request for memory was refused.
    NoMemory,
}

impl From<AllocError> for ReadFault {
    ghost from_gives = { λ _ e. e ≡ NoMemory };

    fn from(_e: AllocError) -> ReadFault {
        ReadFault::NoMemory
    }
}

// How many bytes one read asks for.
const PIECE: usize = 65_536;

/// The bytes of the file of that name, read to its end. `TooLong` where it has more than `limit` bytes; one
/// byte past the limit was then read. `Failed` where a call on the origin failed. Each read offers room for
/// 65,536 bytes, or for all that is left to one byte past the limit.
pub fn read_whole<I: Origin>(
    alloc: Global,
    input: &mut I,
    name: &str,
    limit: usize,
) -> Result<Vec<u8>, ReadFault>
    requires { limit < 2 ^ 32 }
    ensures short { IfOk result (λ v. length v.items ≤ limit) }
    ensures whole { IfOk result (λ v. Holds (I.files input.old) name.now v.items) }
    ensures end { IfOk result (λ v. Leaves (I.files input.old) (I.left input.new) []) }
    ensures failed { result ≡ Err ReadFault.Failed → Rose (I.faults input.old) (I.faults input.new) ⊎ IsMissing (I.files input.old) name.now }
    ensures long { result ≡ Err ReadFault.TooLong → (bytes : List ℕ) × Holds (I.files input.old) name.now bytes
        × (limit < length bytes) × Leaves (I.files input.old) (I.left input.new) (drop (limit + 1) bytes) }
{
    if input.begin(name).is_err() {
        return Err(ReadFault::Failed);
    }
    let mut bytes = Vec::new(alloc);
    let mut piece = [0; PIECE];
    while bytes.len() <= limit {
        let room = PIECE.min(limit + 1 - bytes.len());
        let Ok(read) = input.read(&mut piece[..room]) else {
            return Err(ReadFault::Failed);
        };
        if read == 0 {
            return Ok(bytes);
        }
        bytes.extend_from_slice(&piece[..read])?;
    }
    Err(ReadFault::TooLong)
}
