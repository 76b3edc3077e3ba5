//! The machine of a command line.

ghost use Rattle.std.specs.Prelude.{◌≡◌, IfOk, string_bytes};
ghost use Rattle.s161_base.specs.Sizes.{conf_of, size_line_text};

use m161_machine::Conf;
use m161_steplog::{MachineSize, Mode, size_line};
use s161_command::Size;
use std::alloc::{AllocError, Global};

/// The machine of this size.
pub fn conf_of(size: Size) -> Conf
    ensures { result ≡ conf_of size }
{
    Conf {
        ram: size.ram,
        processors: size.processors,
        log: size.log,
        link: size.link,
        strict: size.strict,
    }
}

/// The machine line of a schedule of the events of this machine, with its end.
///
/// # Errors
/// Memory was refused.
pub fn line_of_machine(alloc: Global, conf: Conf) -> Result<String, AllocError>
    ensures { IfOk result (λ line. string_bytes line ≡ size_line_text conf) }
{
    size_line(
        alloc,
        MachineSize {
            ram: conf.ram,
            processors: conf.processors,
            mode: Mode {
                link: conf.link,
                strict: conf.strict,
            },
        },
    )
}
