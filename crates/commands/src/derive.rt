//! `derive SCRIPT CERTIFICATE`: plays a script, and writes the certificate of its accepted `export`.

ghost use Rattle.std.specs.Prelude.{◌≡◌, ◌≢◌, ◌⊎◌, ◌++◌, Some, None, codes, decimal, IfOk};
ghost use Rattle.std.specs.Io.KnownBytes.{Appends};
ghost use Rattle.ck_base.specs.Outside.{Rose, IsOther, fresh, file, Becomes};
ghost use Rattle.cert_codec.specs.Tree.{checked_tree};
ghost use Rattle.cert_codec.specs.Spelling.{spell, IsBuilt};
ghost use Rattle.commands.specs.Commands.{deriving_to, Prints, HoldsFront, exported_line};
ghost use Rattle.commands.specs.Ends.{HasDerived, HasNotExported, HasExported, CannotReply, CannotWrite, IsForeign, IsWhole, FindsNone, IsTooLong};

use crate::printing::{print, reported};
use crate::reading::{ReadFault, read_whole};
use crate::session::play;
use crate::status::Status;
use crate::writing::write_whole;
use cert_codec::{Certificate, encode};
use ck_base::limits::SCRIPT_BYTES;
use ck_base::{NoMemory, Origin, Sink, Target, Text};
use std::alloc::Global;

/// Plays the script, prints its transcript, and writes the certificate of its accepted `export`. All memory
/// is taken before the first byte is printed.
pub fn derive<I: Origin, T: Target, O: Sink>(
    alloc: Global,
    script: &str,
    name: &str,
    input: &mut I,
    target: &mut T,
    out: &mut O,
) -> Status
    requires { T.stage target.old ≡ fresh }
    ensures done { result ≡ Status.Done →
        HasDerived (Some (deriving_to script.now name.now)) (I.files input.old) (I.left input.new)
        (T.written target.old) (T.written target.new) (O.gained out.old) (O.gained out.new) }
    ensures refused { result ≡ Status.Refused →
        HasNotExported (Some (deriving_to script.now name.now)) (I.files input.old) (I.left input.new)
        (O.gained out.old) (O.gained out.new) }
    ensures read_fault { result ≡ Status.ReadFault →
        Rose (I.faults input.old) (I.faults input.new)
        ⊎ FindsNone (Some (deriving_to script.now name.now)) (I.files input.old) }
    ensures out_fault { result ≡ Status.OutFault → Rose (O.faults out.old) (O.faults out.new)
        × CannotReply (Some (deriving_to script.now name.now)) (I.files input.old) (I.left input.new) (target.new ≡ target.old)
        (T.written target.old) (T.written target.new)
        (O.gained out.old) (O.gained out.new) (O.faults out.old) (O.faults out.new) }
    ensures target_fault { result ≡ Status.TargetFault →
        (Rose (T.faults target.old) (T.faults target.new)
        ⊎ IsForeign (Some (deriving_to script.now name.now)) (T.takes target.old))
        × CannotWrite (Some (deriving_to script.now name.now)) (I.files input.old) (I.left input.new)
        (T.written target.old) (T.written target.new) (O.gained out.old) (O.gained out.new) }
    ensures too_long { result ≡ Status.TooLong →
        IsTooLong (Some (deriving_to script.now name.now)) (I.files input.old) (I.left input.new)
        (O.gained out.old) (O.gained out.new) (O.faults out.old) (O.faults out.new) }
    ensures silent { (result ≡ Status.ReadFault) ⊎ (result ≡ Status.NoMemory) → out.new ≡ out.old }
    ensures kept { (target.new ≡ target.old)
        ⊎ HasExported (Some (deriving_to script.now name.now)) (I.files input.old) (I.left input.new) }
    ensures untouched { (result ≡ Status.Done) ⊎ ((result ≡ Status.OutFault)
        ⊎ ((result ≡ Status.TargetFault) ⊎ (target.new ≡ target.old))) }
    ensures words { result ≢ Status.Words }
{
    let bytes = match read_whole(alloc, input, script, SCRIPT_BYTES) {
        Ok(bytes) => bytes,
        Err(ReadFault::Failed) => return Status::ReadFault,
        Err(ReadFault::TooLong) => return reported(out, b"refused TooLong\n", Status::TooLong),
        Err(ReadFault::NoMemory) => return Status::NoMemory,
    };
    let Ok(played) = play(alloc, bytes.as_slice()) else {
        return Status::NoMemory;
    };
    match &played.exported {
        Some(certificate) => export(alloc, certificate, &played.transcript, name, target, out),
        None => not_exported(&played.transcript, out),
    }
}

// Prints the transcript of a script without an accepted `export`.
fn not_exported<O: Sink>(transcript: &Text, out: &mut O) -> Status
    ensures refused { result ≡ Status.Refused →
        Appends (O.gained out.old) (O.gained out.new) (transcript.now ++ codes "not exported\n") }
    ensures out_fault { result ≡ Status.OutFault → Rose (O.faults out.old) (O.faults out.new)
        × Prints (O.gained out.old) (O.gained out.new) (O.faults out.old) (O.faults out.new) (transcript.now ++ codes "not exported\n") }
    ensures only { (result ≢ Status.Done) × (result ≢ Status.Words) × (result ≢ Status.ReadFault)
        × (result ≢ Status.TargetFault) × (result ≢ Status.NoMemory) × (result ≢ Status.TooLong) }
{
    match print(out, transcript.as_bytes()) {
        Ok(()) => (),
        Err(_) => return Status::OutFault,
    }
    match print(out, b"not exported\n") {
        Ok(()) => Status::Refused,
        Err(_) => Status::OutFault,
    }
}

// Prints the transcript, writes the file and prints the reply to its `export`.
fn export<T: Target, O: Sink>(
    alloc: Global,
    certificate: &Certificate,
    transcript: &Text,
    name: &str,
    target: &mut T,
    out: &mut O,
) -> Status
    requires fresh { T.stage target.old ≡ fresh }
    requires built { IsBuilt (checked_tree certificate.now) }
    ensures done { result ≡ Status.Done →
        Becomes (T.written target.old) (T.written target.new) (file name.now (spell (checked_tree certificate.now)))
        × Appends (O.gained out.old) (O.gained out.new) (transcript.now ++ exported_line (checked_tree certificate.now)) }
    ensures out_fault { result ≡ Status.OutFault → Rose (O.faults out.old) (O.faults out.new)
        × IsWhole (target.new ≡ target.old) (T.written target.old) (T.written target.new) name.now
        (Some (checked_tree certificate.now))
        × Prints (O.gained out.old) (O.gained out.new) (O.faults out.old) (O.faults out.new)
        (transcript.now ++ exported_line (checked_tree certificate.now)) }
    ensures target_fault { result ≡ Status.TargetFault →
        (Rose (T.faults target.old) (T.faults target.new) ⊎ IsOther (T.takes target.old) name.now)
        × HoldsFront (T.written target.old) (T.written target.new) name.now (spell (checked_tree certificate.now))
        × Appends (O.gained out.old) (O.gained out.new) transcript.now }
    ensures silent { (result ≡ Status.ReadFault) ⊎ (result ≡ Status.NoMemory) → out.new ≡ out.old }
    ensures untouched { (result ≡ Status.Done) ⊎ ((result ≡ Status.OutFault)
        ⊎ ((result ≡ Status.TargetFault) ⊎ (target.new ≡ target.old))) }
    ensures only { (result ≢ Status.Refused) × (result ≢ Status.Words)
        × (result ≢ Status.ReadFault) × (result ≢ Status.TooLong) }
{
    let Ok(bytes) = encode(alloc, certificate) else {
        return Status::NoMemory;
    };
    let Ok(reply) = exported_reply(alloc, bytes.len()) else {
        return Status::NoMemory;
    };
    match print(out, transcript.as_bytes()) {
        Ok(()) => (),
        Err(_) => return Status::OutFault,
    }
    match write_whole(target, name, bytes.as_slice()) {
        Ok(()) => (),
        Err(_) => return Status::TargetFault,
    }
    match print(out, reply.as_bytes()) {
        Ok(()) => Status::Done,
        Err(_) => Status::OutFault,
    }
}

// The reply to an accepted `export` of so many bytes.
fn exported_reply(alloc: Global, count: usize) -> Result<Text, NoMemory>
    ensures { IfOk result (λ text. text ≡ codes "exported " ++ (decimal count ++ codes " bytes\n")) }
{
    let digits = count.to_string(alloc)?;
    let mut text = Text::new(alloc);
    text.append(b"exported ")?;
    text.append(digits.as_bytes())?;
    text.append(b" bytes\n")?;
    Ok(text)
}
