//! The machine that a list of events names: a log, or a schedule with a machine line.

ghost use Rattle.std.specs.Prelude.{◌≡◌, Option, Some};
ghost use Rattle.sha2.specs.Sha256.{sha256};
ghost use Rattle.s161_base.specs.declared.machines.NamedMachine.{NamedMachine as NamedMachineValue};
ghost use Rattle.s161_base.specs.declared.machines.NamedMachine.TheVariants.{Logged};
ghost use Rattle.s161_base.specs.Machines.{asked_conf, conf_asked, settled, is_image, is_other, is_other_machine, is_other_mode, is_other_size, is_other_unit, machine_fault, size_named, size_of_log};

use crate::fault::Fault;
use m161_isa::LinkUnit;
use m161_machine::Conf;
use m161_steplog::{MachineLine, MachineSize, Mode};
use s161_command::AskedSize;
use sha2::{Digest, Sha256};

/// The size of a machine whose size isn't given, and isn't named by a list of events.
const DEFAULT_SIZE: MachineSize = MachineSize {
    ram: 1_048_576,
    processors: 1,
    mode: Mode {
        link: LinkUnit::Word,
        strict: false,
    },
};

/// What a log says of its machine.
#[derive(Clone, Copy)]
pub struct LoggedMachine {
    /// Its machine line, if it has one.
    pub line: Option<MachineLine>,
    /// The mode of its first line.
    pub mode: Mode,
}

/// What a list of events says of its machine.
#[derive(Clone, Copy)]
pub enum NamedMachine {
    /// The machine line of a schedule.
    Sized(MachineSize),
    /// What a log says.
    Logged(LoggedMachine),
}

/// The digest by which a log names an image.
pub fn image_digest(file: &[u8]) -> [u8; 32]
    ensures { result ≡ sha256 file.now }
{
    Sha256::digest(file)
}

/// The machine that is asked for; what isn't given is as the list of events says, if it says something.
pub fn asked_conf(asked: AskedSize, named: Option<NamedMachine>) -> Conf
    ensures { result ≡ asked_conf asked named }
{
    let size = size_named(named);
    Conf {
        ram: asked.ram.unwrap_or(size.ram),
        processors: asked.processors.unwrap_or(size.processors),
        log: asked.log,
        link: asked.link.unwrap_or(size.mode.link),
        strict: asked.strict || size.mode.strict,
    }
}

/// The machine that is asked for where no list of events says anything of it.
pub fn conf_asked(asked: AskedSize) -> Conf
    ensures { result ≡ conf_asked asked }
{
    asked_conf(asked, None)
}

/// What is asked for, of this machine.
pub fn settled(asked: AskedSize, conf: Conf) -> AskedSize
    ensures size { result ≡ settled asked conf }
    ensures conf { (named : Option NamedMachineValue) → conf ≡ asked_conf asked named
        → conf_asked result ≡ conf }
{
    AskedSize {
        ram: Some(conf.ram),
        processors: Some(conf.processors),
        log: asked.log,
        link: Some(conf.link),
        strict: conf.strict,
    }
}

// What a list of events says of its machine.
fn size_named(named: Option<NamedMachine>) -> MachineSize
    ensures { result ≡ size_named named }
{
    match named {
        None => DEFAULT_SIZE,
        Some(NamedMachine::Sized(size)) => size,
        Some(NamedMachine::Logged(logged)) => size_of_log(logged.line, logged.mode),
    }
}

// The size that a log says.
fn size_of_log(line: Option<MachineLine>, mode: Mode) -> MachineSize
    ensures { result ≡ size_of_log line mode }
{
    match line {
        None => MachineSize {
            mode,
            ..DEFAULT_SIZE
        },
        Some(line) => MachineSize {
            ram: line.ram,
            processors: line.processors,
            mode,
        },
    }
}

/// Why an image, in the machine that is asked for, isn't the one that a list of events names:
/// `LogMachine`, or else `LogImage`.
pub fn machine_fault<'a>(
    asked: AskedSize,
    file: &[u8],
    named: Option<NamedMachine>,
) -> Option<Fault<'a>>
    ensures { result ≡ machine_fault asked file.now named }
{
    match named {
        None => None,
        Some(NamedMachine::Sized(_)) => None,
        Some(NamedMachine::Logged(logged)) => log_fault(asked, file, logged),
    }
}

// The same of a log.
fn log_fault<'a>(asked: AskedSize, file: &[u8], logged: LoggedMachine) -> Option<Fault<'a>>
    ensures { result ≡ machine_fault asked file.now (Some (Logged logged)) }
{
    if is_other_machine(asked, logged) {
        Some(Fault::LogMachine)
    } else if is_image(file, logged.line) {
        None
    } else {
        Some(Fault::LogImage)
    }
}

// Whether a number is given, and isn't this one.
fn is_other(given: Option<u32>, named: u32) -> bool
    ensures { result ≡ is_other given named }
{
    match given {
        Some(given) => given != named,
        None => false,
    }
}

// Whether a unit is given, and isn't this one.
fn is_other_unit(given: Option<LinkUnit>, named: LinkUnit) -> bool
    ensures { result ≡ is_other_unit given named }
{
    match (given, named) {
        (Some(LinkUnit::Word), LinkUnit::Line) => true,
        (Some(LinkUnit::Line), LinkUnit::Word) => true,
        _ => false,
    }
}

// Whether another machine is given than that of a log.
fn is_other_machine(asked: AskedSize, logged: LoggedMachine) -> bool
    ensures { result ≡ is_other_machine asked logged }
{
    is_other_mode(asked, logged.mode) || is_other_size(asked, logged.line)
}

// Whether another mode is given than that of a log.
fn is_other_mode(asked: AskedSize, mode: Mode) -> bool
    ensures { result ≡ is_other_mode asked mode }
{
    is_other_unit(asked.link, mode.link) || (asked.strict && !mode.strict)
}

// Whether another size is given than that of a log's machine line.
fn is_other_size(asked: AskedSize, line: Option<MachineLine>) -> bool
    ensures { result ≡ is_other_size asked line }
{
    match line {
        Some(line) => {
            is_other(asked.ram, line.ram) || is_other(asked.processors, line.processors)
        }
        None => false,
    }
}

// Whether an image has the digest of a log's machine line.
fn is_image(file: &[u8], line: Option<MachineLine>) -> bool
    ensures { result ≡ is_image file.now line }
{
    match line {
        Some(line) => image_digest(file).as_slice() == line.digest.as_slice(),
        None => true,
    }
}
