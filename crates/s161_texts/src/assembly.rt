//! Assembling a text into an ELF file.

ghost use Rattle.std.specs.Prelude.{IfErr, IfOk};
ghost use Rattle.s161_texts.specs.Assemblies.{IsAssembly, IsUnassembled};

use m161_asm::assemble;
use m161_elf_writer::{write, write_with_symbols};
use s161_base::fault::{Fault, fault_of_source};
use std::alloc::Global;

/// The ELF file of an assembly text's program, with a table of its labels if it is asked for.
///
/// # Errors
/// The first fault of the text; or memory was refused.
pub fn assembly<'a>(alloc: Global, source: &str, symbols: bool) -> Result<Vec<u8>, Fault<'a>>
    ensures ok { IfOk result (λ file. IsAssembly symbols source.now file.items) }
    ensures fault { IfErr result (IsUnassembled source.now) }
{
    let program = match assemble(alloc, source) {
        Ok(program) => program,
        Err(error) => return Err(fault_of_source(error, source)),
    };
    if symbols {
        return Ok(write_with_symbols(alloc, &program)?);
    }
    Ok(write(alloc, &program)?)
}
