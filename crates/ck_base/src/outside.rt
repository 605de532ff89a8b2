//! The outside: what a command reads from, writes its file to and prints on.
//!
//! Each object has a count of faults as a meaning. The count never falls, and it has risen, or stands
//! at its last value, wherever a call answers `Failed`.

ghost use Rattle.std.specs.Prelude.{◌≡◌, ℕ, ◌<◌, ◌≤◌, ◌⊎◌, Bool, true, false, List as Items, [], length, IfOk, OnOk, OnErr};
ghost use Rattle.std.specs.declared.option.Option.{Option};
ghost use Rattle.std.specs.Io.{ReadsAtMost};
ghost use Rattle.std.specs.Io.KnownBytes.{ReadConsumes, WriteAppends};
ghost use Rattle.ck_base.specs.declared.outside.NamedBytes.{NamedBytes};
ghost use Rattle.ck_base.specs.Outside.{Rose, HasCause, Opens, IsMissing, IsOther, Stage, fresh, begun, spent, Written, nothing, file, Becomes, PutExtends};

use crate::list::List;
use crate::text::Text;

/// A call on the outside failed.
#[derive(Clone, Copy, Debug, PartialEq, Eq)]
pub struct Failed;

/// A file in memory.
#[derive(Debug, Drop)]
pub struct NamedBytes {
    pub name: Text,
    pub bytes: List<u8>,
}

/// Where files are read from.
pub trait Origin {
    /// Its files, where it tells them. A name means its first entry.
    ghost files: { Self → Option (Items NamedBytes) };

    /// The bytes that are left to read, where it tells them.
    ghost left: { Self → Option (Items ℕ) };

    /// Whether a file is open: from a `begin` that went well until one that failed.
    ghost is_begun: { Self → Bool };

    /// The count of faults.
    ghost faults: { Self → ℕ };

    /// Opens the file of that name, from its first byte on. Fails only where the count of faults rose,
    /// or where the origin tells its files and has none of that name.
    fn begin(&mut self, name: &str) -> Result<(), Failed>
        ensures files { files self.new ≡ files self.old }
        ensures begun { OnOk result (is_begun self.new ≡ true) }
        ensures shut { OnErr result (is_begun self.new ≡ false) }
        ensures bytes { OnOk result (Opens (files self.old) name.now (left self.new)) }
        ensures later { faults self.old ≤ faults self.new }
        ensures cause { OnErr result (Rose (faults self.old) (faults self.new) ⊎ IsMissing (files self.old) name.now) };

    /// Moves the next bytes into `buf` and answers how many; 0 at the end of the file alone. Fails only
    /// where the count of faults rose.
    fn read(&mut self, buf: &mut [u8]) -> Result<usize, Failed>
        requires begun { is_begun self.old ≡ true }
        requires room { 0 < length buf.old }
        ensures files { files self.new ≡ files self.old }
        ensures begun { is_begun self.new ≡ true }
        ensures bound { ReadsAtMost result buf.new }
        ensures bytes { ReadConsumes (left self.old) (left self.new) result buf.new }
        ensures cause { HasCause (faults self.old) (faults self.new) result };
}

/// Where one file is written to.
pub trait Target {
    /// The one name that it takes, where it tells it.
    ghost takes: { Self → Option (Items ℕ) };

    /// What it holds, where it tells it.
    ghost written: { Self → Option Written };

    /// How far it is.
    ghost stage: { Self → Stage };

    /// The count of faults.
    ghost faults: { Self → ℕ };

    /// Creates the file, empty. Fails only where the count of faults rose, or where the target tells
    /// its name and it is another; it is spent from then on.
    fn create(&mut self, name: &str) -> Result<(), Failed>
        requires { stage self.old ≡ fresh }
        ensures takes { takes self.new ≡ takes self.old }
        ensures begun { OnOk result (stage self.new ≡ begun) }
        ensures spent { OnErr result (stage self.new ≡ spent) }
        ensures created { OnOk result (Becomes (written self.old) (written self.new) (file name.now [])) }
        ensures none { OnErr result (Becomes (written self.old) (written self.new) nothing) }
        ensures later { faults self.old ≤ faults self.new }
        ensures cause { OnErr result (Rose (faults self.old) (faults self.new) ⊎ IsOther (takes self.old) name.now) };

    /// Adds the first bytes of the piece at the end of the file and answers how many, at least one.
    /// Fails only where the count of faults rose, and then adds nothing.
    fn put(&mut self, bytes: &[u8]) -> Result<usize, Failed>
        requires begun { stage self.old ≡ begun }
        requires piece { 0 < length bytes.now }
        ensures takes { takes self.new ≡ takes self.old }
        ensures begun { stage self.new ≡ begun }
        ensures bound { IfOk result (λ taken. (0 < taken) × (taken ≤ length bytes.now)) }
        ensures bytes { PutExtends (written self.old) (written self.new) result bytes.now }
        ensures cause { HasCause (faults self.old) (faults self.new) result };
}

/// Where a command prints.
pub trait Sink {
    /// The bytes that were put, where it tells them.
    ghost gained: { Self → Option (Items ℕ) };

    /// The count of faults.
    ghost faults: { Self → ℕ };

    /// Adds the first bytes of the piece at the end and answers how many, at least one. Fails only
    /// where the count of faults rose, and then adds nothing.
    fn put(&mut self, bytes: &[u8]) -> Result<usize, Failed>
        requires { 0 < length bytes.now }
        ensures bound { IfOk result (λ taken. (0 < taken) × (taken ≤ length bytes.now)) }
        ensures bytes { WriteAppends (gained self.old) (gained self.new) result bytes.now }
        ensures cause { HasCause (faults self.old) (faults self.new) result };
}
