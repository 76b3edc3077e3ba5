//! Streams that are read and written as a session goes on: one byte is read at a time, and what is
//! written is out at once.

ghost use Rattle.std.specs.Prelude.{◌≡◌, [], IfErr, IfOk, OnOk};
ghost use Rattle.std.specs.Io.KnownBytes.{Appends, Consumes};
ghost use Rattle.m161_server.specs.declared.fault.ServerFault.TheVariants as faults;
ghost use Rattle.m161_server.specs.helpers.Streams.{AppendsSome, ReadsByte};

use crate::fault::ServerFault;
use std::io::{ErrorKind, Read, Write};

/// The next byte of an input, if there is one.
///
/// # Errors
/// The input can't be read.
pub(crate) fn read_byte<I: Read, E: Drop>(input: &mut I) -> Result<Option<u8>, ServerFault<E>>
    ensures ok { IfOk result (λ byte. ReadsByte (I.remaining input.old) byte (I.remaining input.new)) }
    ensures err { IfErr result (λ fault. (fault ≡ faults.Input)
        × Consumes (I.remaining input.old) (I.remaining input.new) []) }
{
    for _call in 0..u64::MAX {
        let mut byte = [0u8];
        match input.read(&mut byte) {
            Ok(0) => return Ok(None),
            Ok(_) => return Ok(Some(byte[0])),
            Err(error) if error.kind() == ErrorKind::Interrupted => continue,
            Err(_) => return Err(ServerFault::Input),
        }
    }
    Err(ServerFault::Input)
}

// Writes all of these bytes.
fn write_whole<O: Write, E: Drop>(output: &mut O, bytes: &[u8]) -> Result<(), ServerFault<E>>
    ensures ok { OnOk result (Appends (O.contents output.old) (O.contents output.new) bytes.now) }
    ensures err { IfErr result (λ fault. (fault ≡ faults.Output)
        × AppendsSome (O.contents output.old) (O.contents output.new) bytes.now) }
{
    let mut written = 0;
    for _call in 0..u64::MAX {
        if written == bytes.len() {
            return Ok(());
        }
        match output.write(&bytes[written..]) {
            Ok(0) => return Err(ServerFault::Output),
            Ok(n) => written += n,
            Err(error) if error.kind() == ErrorKind::Interrupted => continue,
            Err(_) => return Err(ServerFault::Output),
        }
    }
    Err(ServerFault::Output)
}

/// Writes these bytes so that they are out: an output that keeps some back is flushed.
///
/// # Errors
/// The output failed.
pub(crate) fn send<O: Write, E: Drop>(output: &mut O, bytes: &[u8]) -> Result<(), ServerFault<E>>
    ensures ok { OnOk result (Appends (O.contents output.old) (O.contents output.new) bytes.now) }
    ensures err { IfErr result (λ fault. (fault ≡ faults.Output)
        × AppendsSome (O.contents output.old) (O.contents output.new) bytes.now) }
{
    if bytes.is_empty() {
        return Ok(());
    }
    write_whole(output, bytes)?;
    match output.flush() {
        Ok(()) => Ok(()),
        Err(_) => Err(ServerFault::Output),
    }
}
