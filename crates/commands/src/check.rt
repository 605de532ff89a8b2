//! `check FILE`: whether a file is a valid certificate.

ghost use Rattle.std.specs.Prelude.{◌≡◌, ◌≢◌, ◌⊎◌, Some};
ghost use Rattle.ck_base.specs.Outside.{Rose};
ghost use Rattle.commands.specs.Commands.{checking};
ghost use Rattle.commands.specs.Ends.{HasChecked, HasComplained, CannotTell, FindsNone, IsTooLong};

use crate::printing::{print, reported};
use crate::reading::{ReadFault, read_whole};
use crate::status::Status;
use crate::texts::triple;
use cert_check::CheckFault;
use ck_base::limits::CERTIFICATE_BYTES;
use ck_base::{Origin, Sink};
use std::alloc::Global;

/// Checks the file of that name, and prints its triple or why it is refused.
pub fn check<I: Origin, O: Sink>(alloc: Global, name: &str, input: &mut I, out: &mut O) -> Status
    ensures done { result ≡ Status.Done →
        HasChecked (Some (checking name.now)) (I.files input.old) (I.left input.new) (O.gained out.old) (O.gained out.new) }
    ensures refused { result ≡ Status.Refused →
        HasComplained (Some (checking name.now)) (I.files input.old) (I.left input.new)
        (O.gained out.old) (O.gained out.new) (O.faults out.old) (O.faults out.new) }
    ensures read_fault { result ≡ Status.ReadFault →
        Rose (I.faults input.old) (I.faults input.new) ⊎ FindsNone (Some (checking name.now)) (I.files input.old) }
    ensures out_fault { result ≡ Status.OutFault → Rose (O.faults out.old) (O.faults out.new)
        × CannotTell (Some (checking name.now)) (I.files input.old) (I.left input.new)
        (O.gained out.old) (O.gained out.new) (O.faults out.old) (O.faults out.new) }
    ensures too_long { result ≡ Status.TooLong →
        IsTooLong (Some (checking name.now)) (I.files input.old) (I.left input.new)
        (O.gained out.old) (O.gained out.new) (O.faults out.old) (O.faults out.new) }
    ensures silent { (result ≡ Status.ReadFault) ⊎ (result ≡ Status.NoMemory) → out.new ≡ out.old }
    ensures words { result ≢ Status.Words }
    ensures no_target_fault { result ≢ Status.TargetFault }
{
    let bytes = match read_whole(alloc, input, name, CERTIFICATE_BYTES) {
        Ok(bytes) => bytes,
        Err(ReadFault::Failed) => return Status::ReadFault,
        Err(ReadFault::TooLong) => return reported(out, b"refused TooLong\n", Status::TooLong),
        Err(ReadFault::NoMemory) => return Status::NoMemory,
    };
    match cert_check::check(alloc, bytes.as_slice()) {
        Ok(certificate) => match triple(alloc, &certificate) {
            Ok(text) => match print(out, text.as_bytes()) {
                Ok(()) => Status::Done,
                Err(_) => Status::OutFault,
            },
            Err(_) => Status::NoMemory,
        },
        Err(CheckFault::Malformed { .. }) => reported(out, b"refused Malformed\n", Status::Refused),
        Err(CheckFault::Limits) => reported(out, b"refused Limits\n", Status::Refused),
        Err(CheckFault::Unproved) => reported(out, b"refused Unproved\n", Status::Refused),
        Err(CheckFault::NoMemory) => Status::NoMemory,
        Err(CheckFault::TooLong) => unreachable!(),
    }
}
