//! Writing to the sink.

ghost use Rattle.std.specs.Prelude.{◌≡◌, ◌≤◌, length, drop, OnOk, OnErr};
ghost use Rattle.std.specs.Io.KnownBytes.{Appends};
ghost use Rattle.ck_base.specs.Outside.{Rose};
ghost use Rattle.commands.specs.Commands.{Prints};

use crate::status::Status;
use ck_base::{Failed, Sink};

/// Writes the whole text. Fails only where the sink's count of faults rose, and the sink has then gained a
/// front of the text.
pub fn print<O: Sink>(out: &mut O, text: &[u8]) -> Result<(), Failed>
    ensures printed { Prints (O.gained out.old) (O.gained out.new) (O.faults out.old) (O.faults out.new) text.now }
    ensures whole { OnOk result (Appends (O.gained out.old) (O.gained out.new) text.now) }
    ensures cause { OnErr result (Rose (O.faults out.old) (O.faults out.new)) }
    ensures later { O.faults out.old ≤ O.faults out.new }
{
    let mut written = 0;
    while written < text.len() {
        written += out.put(tail(text, written))?;
    }
    Ok(())
}

/// Writes the line of a status that stands even if the line cannot be written.
pub fn reported<O: Sink>(out: &mut O, text: &[u8], status: Status) -> Status
    ensures printed { Prints (O.gained out.old) (O.gained out.new) (O.faults out.old) (O.faults out.new) text.now }
    ensures status { result ≡ status }
{
    let _ = print(out, text);
    status
}

/// The bytes from `at` on.
pub fn tail(bytes: &[u8], at: usize) -> &[u8]
    requires { at ≤ length bytes.now }
    ensures { result.now ≡ drop at bytes.now }
{
    &bytes[at..]
}
