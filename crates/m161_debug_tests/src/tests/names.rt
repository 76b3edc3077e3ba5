//! Names for addresses, in commands and in displays of code.

use super::sessions::Act::{Does, Fails};
use super::sessions::{Act, Session, check};
use m161::Machine;
use m161_asm::assemble;
use m161_debug::CommandError::{BadArgument, BadProcessor};
use m161_dis::{Naming, Style};
use m161_elf_writer::write_with_symbols;
use m161_machine::Event::{Done, Step};
use m161_machine::{Conf, Event, LinkUnit};
use m161_symbols::Symbols;
use std::alloc::{AllocGlobal, Global};
use std::test::Fail;

/// Counts in a word of memory; one label is also an address.
const SOURCE: &str = "\
start:  lui $8, 0x8000
fad0:   addiu $9, $9, 1
        beq $0, $0, fad0
        sw $9, 0x400($8)
        .org 0x80000400
count:  .word 0
";

/// A session of it, with its labels as symbols.
#[inline(never)]
fn named_session(alloc: Global) -> Result<Session, Fail> {
    let program = assemble(alloc, SOURCE)?;
    let file = write_with_symbols(alloc, &program)?;
    let conf = Conf {
        ram: 65_536,
        processors: 1,
        log: 100,
        link: LinkUnit::Word,
        strict: false,
    };
    let machine = Machine::boot(alloc, &file, conf)?;
    let style = Style {
        registers: Naming::Names,
        symbols: Symbols::new(alloc, &file)?,
    };
    Ok(Session::with_style(machine, style))
}

static EVENTS: [Event; 8] = [
    Step(0),
    Step(0),
    Step(0),
    Step(0),
    Step(0),
    Step(0),
    Step(0),
    Done,
];

static NAMES: [Act; 28] = [
    Does(
        "x start 3",
        0,
        "80000200 <start> 3c088000 lui $t0, 0x8000\n\
         80000204 <fad0> 25290001 addiu $t1, $t1, 1\n\
         80000208 <fad0+4> 1000fffe beq $zero, $zero, 0x80000204 <fad0>\n",
    ),
    Does(
        "x fad0+8 1 0",
        0,
        "8000020c <fad0+8> ad090400 sw $t1, 1024($t0)\n",
    ),
    Does(
        "w",
        0,
        "0 running 80000200 <start> 3c088000 lui $t0, 0x8000\n",
    ),
    // a word that is an address is one
    Does("m fad0 1", 0, "0000fad0 00000000\n"),
    Does("m fad0+0 1", 0, "00000204 25290001\n"),
    Does("m fad0+0x0 1", 0, "00000204 25290001\n"),
    Does("m count 1", 0, "00000400 00000000\n"),
    Does("b 0 fad0+0", 0, "break 0 80000204\n"),
    Does("d 0 start+4", 0, "deleted\n"),
    Does("d 0 start+4", 0, "none\n"),
    Does("b 0 start+8", 0, "break 0 80000208\n"),
    Does("g", 2, "break 2\n"),
    Does("d 0 80000208", 0, "deleted\n"),
    Does("u m count", 2, "until 1\n"),
    Does("m count 1", 0, "00000400 00000001\n"),
    Fails("x other 1", BadArgument),
    Fails("x start+ 1", BadArgument),
    Fails("x start+g 1", BadArgument),
    Fails("x +4 1", BadArgument),
    Fails("x start+4+4 1", BadArgument),
    Fails("x start+000000004 1", BadArgument),
    Fails("x start+2 1", BadArgument),
    Fails("x Start 1", BadArgument),
    Fails("x start", BadArgument),
    Fails("b 0 start+ffffffff", BadArgument),
    Fails("b 1 start", BadProcessor),
    Fails("u m start+1", BadArgument),
    Fails("r start", BadArgument),
];

#[test]
fn names_of_addresses(rt: HostRuntime) -> Result<(), Fail> {
    let mut session = named_session(rt.alloc())?;
    check(&rt, &mut session, &EVENTS, &NAMES)
}
