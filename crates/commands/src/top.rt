//! The top call: the words of the command line are read, and the command is run on the outside.

ghost use Rattle.std.specs.Prelude.{◌≡◌, ◌⊎◌, ◌↔◌, None, codes};
ghost use Rattle.ck_base.specs.Outside.{Rose, fresh};
ghost use Rattle.commands.specs.Commands.{asked, line, Prints};
ghost use Rattle.commands.specs.Laws.{ExportIsExact, RefusalsChangeNothing};
ghost use Rattle.commands.specs.Ends.{HasChecked, HasComplained, CannotTell, HasDerived, HasNotExported, HasExported, CannotReply, CannotWrite, IsForeign, FindsNone, IsTooLong, Decides};

use crate::check::check;
use crate::derive::derive;
use crate::printing::reported;
use crate::status::Status;
use crate::words::{Command, command_in};
use ck_base::{Origin, Sink, Target};
use std::alloc::Global;

/// Runs the command that the words name, and says how it ended. The words are the command line without
/// the program's name.
pub fn cocktail<I: Origin, T: Target, O: Sink>(
    alloc: Global,
    words: &[String],
    input: &mut I,
    target: &mut T,
    out: &mut O,
) -> Status
    requires { T.stage target.old ≡ fresh }

    // A checked file is valid and its program keeps its promise over every run; a derived one too, and it is
    // exactly what the session exports.
    ensures done { result ≡ Status.Done →
        HasChecked (asked words.now) (I.files input.old) (I.left input.new) (O.gained out.old) (O.gained out.new)
        ⊎ HasDerived (asked words.now) (I.files input.old) (I.left input.new)
        (T.written target.old) (T.written target.new) (O.gained out.old) (O.gained out.new) }

    // A checked file is not valid; a script has no accepted `export`.
    ensures refused { result ≡ Status.Refused →
        HasComplained (asked words.now) (I.files input.old) (I.left input.new)
        (O.gained out.old) (O.gained out.new) (O.faults out.old) (O.faults out.new)
        ⊎ HasNotExported (asked words.now) (I.files input.old) (I.left input.new) (O.gained out.old) (O.gained out.new) }

    // Of a file that the origin has the status says what is so: a valid one is never refused, and none but a
    // valid one is accepted; a script with an accepted `export` never ends as one without; and a file is too
    // long exactly where it has more bytes than its limit. A failed read and want of memory say nothing.
    ensures decided { Decides (asked words.now) (I.files input.old) result }

    // In every session `export` is accepted exactly where no hole is open and every obligation's proof has its
    // formula, and a refused line changes nothing.
    ensures export_is_exact { ExportIsExact }
    ensures refusals_change_nothing { RefusalsChangeNothing }

    // The words are no command, which was printed.
    ensures words { (result ≡ Status.Words) ↔ (asked words.now ≡ None) }
    ensures words_printed { result ≡ Status.Words →
        Prints (O.gained out.old) (O.gained out.new) (O.faults out.old) (O.faults out.new) (line (codes "refused words")) }

    // A call on the origin failed, or it has no such file.
    ensures read_fault { result ≡ Status.ReadFault →
        Rose (I.faults input.old) (I.faults input.new) ⊎ FindsNone (asked words.now) (I.files input.old) }

    // A put on the sink failed, where a valid file was checked or a script was played.
    ensures out_fault { result ≡ Status.OutFault → Rose (O.faults out.old) (O.faults out.new)
        × (CannotTell (asked words.now) (I.files input.old) (I.left input.new)
        (O.gained out.old) (O.gained out.new) (O.faults out.old) (O.faults out.new)
        ⊎ CannotReply (asked words.now) (I.files input.old) (I.left input.new) (target.new ≡ target.old)
        (T.written target.old) (T.written target.new)
        (O.gained out.old) (O.gained out.new) (O.faults out.old) (O.faults out.new)) }

    // A call on the target failed, or it is not the one of that name.
    ensures target_fault { result ≡ Status.TargetFault →
        (Rose (T.faults target.old) (T.faults target.new) ⊎ IsForeign (asked words.now) (T.takes target.old))
        × CannotWrite (asked words.now) (I.files input.old) (I.left input.new)
        (T.written target.old) (T.written target.new) (O.gained out.old) (O.gained out.new) }

    // The file has more bytes than the limit, and one byte past the limit was read.
    ensures too_long { result ≡ Status.TooLong →
        IsTooLong (asked words.now) (I.files input.old) (I.left input.new)
        (O.gained out.old) (O.gained out.new) (O.faults out.old) (O.faults out.new) }

    // Nothing is printed where the file was not read or memory ran out.
    ensures silent { (result ≡ Status.ReadFault) ⊎ (result ≡ Status.NoMemory) → out.new ≡ out.old }

    // The target is touched by an accepted `export` alone, and with no other status than these three.
    ensures kept { (target.new ≡ target.old) ⊎ HasExported (asked words.now) (I.files input.old) (I.left input.new) }
    ensures untouched { (result ≡ Status.Done) ⊎ ((result ≡ Status.OutFault)
        ⊎ ((result ≡ Status.TargetFault) ⊎ (target.new ≡ target.old))) }
{
    match command_in(words) {
        Some(Command::Check { name }) => check(alloc, name, input, out),
        Some(
            Command::Derive {
                script,
                certificate,
            },
        ) => { derive(alloc, script, certificate, input, target, out) }
        None => reported(out, b"refused words\n", Status::Words),
    }
}
