//! Writing a file whole.

ghost use Rattle.std.specs.Prelude.{◌≡◌, ◌⊎◌, OnOk, OnErr};
ghost use Rattle.ck_base.specs.Outside.{Rose, IsOther, fresh, file, Becomes};
ghost use Rattle.commands.specs.Commands.{HoldsFront};

use crate::printing::tail;
use ck_base::{Failed, Target};

/// Creates the file of that name and puts the bytes into it, each put offering all that is left. Fails only
/// where the target's count of faults rose or it tells its name and that is another; it has nothing then, or
/// a front of the bytes.
pub fn write_whole<T: Target>(target: &mut T, name: &str, bytes: &[u8]) -> Result<(), Failed>
    requires { T.stage target.old ≡ fresh }
    ensures whole { OnOk result (Becomes (T.written target.old) (T.written target.new) (file name.now bytes.now)) }
    ensures front { OnErr result (HoldsFront (T.written target.old) (T.written target.new) name.now bytes.now) }
    ensures cause { OnErr result (Rose (T.faults target.old) (T.faults target.new) ⊎ IsOther (T.takes target.old) name.now) }
{
    target.create(name)?;
    let mut written = 0;
    while written < bytes.len() {
        match target.put(tail(bytes, written)) {
            Ok(taken) => written += taken,
            Err(_) => return Err(Failed),
        }
    }
    Ok(())
}
