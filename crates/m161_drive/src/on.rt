//! Driven runs that go on from where another one came.

ghost use Rattle.std.specs.Prelude.{List, IfOk};
ghost use Rattle.m161_machine.specs.declared.event.Entry.{Entry};
ghost use Rattle.m161_drive.specs.Drive.{IsNoted};
ghost use Rattle.m161_drive.specs.GoingOn.{DrivesOn};

use crate::cursor::Cursor;
use crate::notes::Notes;
use crate::policy::Policy;
use crate::run::{AT_ONCE, Driven, Stop, turn};
use m161_bus::Console;
use m161_machine::{Core, PackedEntry};
use m161_tlb::Tlb;
use std::alloc::AllocError;

/// Makes the events that a policy chooses, at most `n` of them, as `drive` does; but with the cursor of a
/// run that came here.
///
/// # Errors
/// Memory was refused for the notes.
pub fn drive_on<T: Tlb, D: Console, N: Notes>(
    core: &mut Core<T, D>,
    policy: &Policy,
    cursor: Cursor,
    n: u64,
    notes: &mut N,
) -> Result<Driven, AllocError>
    ensures { IfOk result (λ driven. (entries : List Entry)
        × DrivesOn policy.now n cursor core.old.state driven entries core.new.state
        × IsNoted N.has notes.old entries notes.new) }
{
    let mut on = cursor;
    let mut entries = [PackedEntry::blank(); AT_ONCE];
    let mut made = 0;
    while made < n {
        let most = (n - made).min(AT_ONCE as u64) as usize;
        let key = policy.key(on.typed());
        match turn(core, policy, &mut on, key, &mut entries[..most]) {
            Ok(more) => {
                notes.add(&entries[..more])?;
                made += more as u64;
            }
            Err(stop) => return Ok(Driven { made, stop }),
        }
    }
    let stop = if core.is_off() { Stop::Off } else { Stop::End };
    Ok(Driven { made, stop })
}
