//! Command lines without a task: what is wrong with them, and the help that they ask for.

ghost use Rattle.std.specs.Prelude.{◌≡◌, ◌≢◌, ◌≤◌, ◌⊎◌, IfOk, string_bytes};
ghost use Rattle.std.specs.Io.KnownBytes.{Appends};
ghost use Rattle.s161_base.specs.declared.fault.Fault.TheVariants.{Memory, Output};
ghost use Rattle.s161_base.specs.Streams.{AppendsSome};
ghost use Rattle.clap.specs.Words.{kind_of};
ghost use Rattle.s161_command.specs.Commands.{IsHelp};
ghost use Rattle.s161_work.specs.Failures.{FailsToSay, IsReported};
ghost use Rattle.s161_work.specs.Works.{HasClashText, HasMore, IsClashText};
ghost use Rattle.s161_work.specs.helpers.Refusals.{FailsToSayClash, IsHelped, IsSaid, IsUnsaid, Says};

use clap::Error;
use clap::error::ErrorKind;
use s161_base::fault::Fault;
use s161_base::report::report;
use s161_base::streams::send;
use s161_command::{Clash, Rejection};
use std::alloc::{AllocError, Global};
use std::io::Write;

/// Says why a command line has no task, or prints the help that it asks for. Returns the exit status.
pub(crate) fn refuse<O: Write, E: Write>(
    alloc: Global,
    rejection: Rejection,
    output: &mut O,
    errors: &mut E,
) -> u8
    ensures refused { result ≡ 2 → IsSaid rejection × (O.contents output.new ≡ O.contents output.old)
        × Says rejection (E.contents errors.old) (E.contents errors.new) }
    ensures help { result ≡ 0 → IsHelped rejection (O.contents output.old) (O.contents output.new)
        × (E.contents errors.new ≡ E.contents errors.old) }
    ensures unsaid { result ≡ 1 → IsUnsaid rejection (O.contents output.old) (O.contents output.new)
        (E.contents errors.old) (E.contents errors.new) }
    ensures within { result ≤ 2 }
{
    match rejection {
        Rejection::Words(error) => reject(alloc, &error, output, errors),
        Rejection::Options(clash) => report_clash(alloc, clash, errors),
    }
}

// Writes clap's text of a command line that it doesn't take, or of help. Nothing is known of that
// text, which may be empty. Returns the exit status.
fn reject<O: Write, E: Write>(alloc: Global, error: &Error, output: &mut O, errors: &mut E) -> u8
    ensures rejected { result ≡ 2 → kind_of error.now ≢ ErrorKind.OutOfMemory }
    ensures help { result ≡ 0 → IsHelp (kind_of error.now)
        × HasMore (O.contents output.old) (O.contents output.new)
        × (E.contents errors.new ≡ E.contents errors.old) }
    ensures unsaid { result ≡ 1 → IsUnsaid (Rejection.Words error.now) (O.contents output.old)
        (O.contents output.new) (E.contents errors.old) (E.contents errors.new) }
    ensures usage { result ≡ 2 → (O.contents output.new ≡ O.contents output.old)
        × HasMore (E.contents errors.old) (E.contents errors.new) }
    ensures within { result ≤ 2 }
{
    if error.kind() == ErrorKind::OutOfMemory {
        return report(Fault::Memory, errors);
    }
    let Ok(text) = error.to_string(alloc) else {
        return report(Fault::Memory, errors);
    };
    if error.use_stderr() {
        print_usage(text.as_bytes(), errors)
    } else {
        print_help(text.as_bytes(), output, errors)
    }
}

// Writes the text of help to standard output. Returns the exit status: 0 if all of it was written.
fn print_help<O: Write, E: Write>(text: &[u8], output: &mut O, errors: &mut E) -> u8
    ensures help { result ≡ 0 → Appends (O.contents output.old) (O.contents output.new) text.now
        × (E.contents errors.new ≡ E.contents errors.old) }
    ensures unsaid { result ≡ 1 → AppendsSome (O.contents output.old) (O.contents output.new) text.now
        × IsReported Output (E.contents errors.old) (E.contents errors.new) }
    ensures within { result ≤ 1 }
{
    match send(output, text) {
        Ok(()) => 0,
        Err(fault) => report(fault, errors),
    }
}

// Writes a text to standard error. Returns the exit status: 2 if all of it was written.
fn print_usage<E: Write>(text: &[u8], errors: &mut E) -> u8
    ensures usage { result ≡ 2 → Appends (E.contents errors.old) (E.contents errors.new) text.now }
    ensures unsaid { result ≡ 1 → FailsToSay text.now (E.contents errors.old) (E.contents errors.new) }
    ensures within { (1 ≤ result) × (result ≤ 2) }
{
    match send(errors, text) {
        Ok(()) => 2,
        Err(fault) => report(fault, errors),
    }
}

// Writes why options can't be followed to standard error. Returns the exit status: 2 if all of it was
// written. Formatted before it is written, as clap's texts are, so that one call writes both.
fn report_clash<E: Write>(alloc: Global, clash: Clash, errors: &mut E) -> u8
    ensures unsaid { result ≡ 1 → IsReported Memory (E.contents errors.old) (E.contents errors.new)
        ⊎ FailsToSayClash (E.contents errors.old) (E.contents errors.new) }
    ensures usage { result ≡ 2 → HasClashText (E.contents errors.old) (E.contents errors.new) }
    ensures within { (1 ≤ result) × (result ≤ 2) }
{
    match clash_text(alloc, clash) {
        Ok(text) => print_usage(text.as_bytes(), errors),
        Err(_) => report(Fault::Memory, errors),
    }
}

// The text that says why options can't be followed. Nothing is known of what the clash itself says.
fn clash_text(alloc: Global, clash: Clash) -> Result<String, AllocError>
    ensures { IfOk result (λ text. IsClashText (string_bytes text)) }
{
    let why = format!(in alloc; "{clash}")?;
    format!(in alloc; "error: {why}\n\nFor more information, try '--help'.\n")
}
