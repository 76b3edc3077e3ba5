//! Driving a machine by the options of a command line.

ghost use Rattle.std.specs.Prelude.{◌≡◌, ◌⊎◌, ℕ, IfErr, IfOk, List, None};
ghost use Rattle.m161_drive.specs.Drive.{Drives, IsNoted};
ghost use Rattle.m161_machine.specs.declared.event.Entry.{Entry};
ghost use Rattle.m161_order.specs.Order.{order_fault};
ghost use Rattle.s161_base.specs.Asked.{Asks, option_files};
ghost use Rattle.s161_run.specs.Driven.{AreKeys, IsKeysFile, rules_of};

use m161::Core;
use m161_drive::{Driven, Notes, Policy, drive};
use s161_base::fault::Fault;
use s161_base::files::FileSource;
use s161_base::input::read_file;
use s161_command::Drive;
use std::alloc::{AllocError, Global};

/// The bytes that are typed: those of the file of this name, or none.
///
/// # Errors
/// The file can't be read or is too long; or memory was refused.
#[tactic(auto, using(s161_base::proofs::Asking::asks_none))]
pub fn read_keys<'a, F: FileSource>(
    alloc: Global,
    files: &mut F,
    name: Option<&'a str>,
) -> Result<Vec<u8>, Fault<'a>>
    ensures whole { IfOk result (λ keys. AreKeys name.entry (F.known files.old) keys.items) }
    ensures still { (other : List ℕ) → F.known files.new other ≡ F.known files.old other }
    ensures asks { Asks (option_files name.entry) (F.asked files.old) (F.asked files.new) }
    ensures err { IfErr result (λ fault. IsKeysFile name.entry fault ⊎ (fault ≡ Fault.Memory)) }
{
    match name {
        Some(name) => read_file(alloc, files, name),
        None => Ok(Vec::new(alloc)),
    }
}

/// Makes the events that the options' policy chooses, at most `n`, and notes their entries.
///
/// # Errors
/// Memory was refused for the notes.
pub(crate) fn make_driven<N: Notes>(
    core: &mut Core,
    options: Drive<'_>,
    n: u64,
    keys: &[u8],
    notes: &mut N,
) -> Result<Driven, AllocError>
    requires { order_fault options.order ≡ None }
    ensures { IfOk result (λ driven. (entries : List Entry)
        × Drives (rules_of options.entry keys.now) n core.old.state driven entries core.new.state
        × IsNoted N.has notes.old entries notes.new) }
{
    let Ok(policy) = Policy::new(options.order, options.transfer, options.gap, keys) else {
        unreachable!()
    };
    drive(core, &policy, n, notes)
}
