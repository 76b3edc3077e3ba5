//! What a Step changes of its processor.

use super::same;
use super::traced::{Run, lines_in, lines_of, traced};
use m161_asm::assemble;
use m161_elf_writer::write_with_symbols;
use m161_machine::Event::{Key, Step};
use m161_symbols::Symbols;
use m161_test_support::files::IMAGE;
use m161_trace::{Naming, Style};
use std::alloc::{AllocGlobal, Global};
use std::test::Fail;

/// The lines of the built-in image.
const DEMO: &str = "\
0 0 80000200 3c081234 lui $8, 0x1234  r8=12340000
1 0 80000204 35085678 ori $8, $8, 0x5678  r8=12345678
2 0 80000208 2409ffff addiu $9, $0, -1  r9=ffffffff
3 0 8000020c 01095021 addu $10, $8, $9  r10=12345677
4 0 80000210 3c0b8000 lui $11, 0x8000  r11=80000000
5 0 80000214 ad6a0400 sw $10, 1024($11)  [00000400]=12345677
6 0 80000218 8d6c0400 lw $12, 1024($11)  r12=12345677
";

/// The same with the registers' names.
const NAMED: &str = "\
0 0 80000200 3c081234 lui $t0, 0x1234  t0=12340000
1 0 80000204 35085678 ori $t0, $t0, 0x5678  t0=12345678
2 0 80000208 2409ffff addiu $t1, $zero, -1  t1=ffffffff
3 0 8000020c 01095021 addu $t2, $t0, $t1  t2=12345677
4 0 80000210 3c0b8000 lui $t3, 0x8000  t3=80000000
5 0 80000214 ad6a0400 sw $t2, 1024($t3)  [00000400]=12345677
6 0 80000218 8d6c0400 lw $t4, 1024($t3)  t4=12345677
";

/// A branch over a word to a `wait`.
const SOURCE: &str = "start: beq $0, $0, again\n nop\nagain: wait\n";

/// The lines of it with its labels.
const LABELLED: &str = "\
0 0 80000200 <start> 10000001 beq $0, $0, 0x80000208 <again>
1 0 80000204 <start+4> 00000000 nop
2 0 80000208 <again> 42000020 wait  state=waiting
3 0 8000020c <again+4> -  idle
";

/// HI, LO, Compare, a trap of each kind of word, and a delay slot.
static REGISTERS: Run = Run {
    words: &[
        0x3408_0007, // ori $8, $0, 0x0007
        0x0108_0018, // mult $8, $8
        0x0100_0011, // mthi $8
        0x4088_5800, // mtc0 $8, $11
        0xffff_ffff,
    ],
    processors: 1,
    strict: false,
    events: &[(Step(0), 5)],
};

const OF_REGISTERS: &str = "\
0 0 80000200 34080007 ori $8, $0, 0x0007  r8=00000007
1 0 80000204 01080018 mult $8, $8  lo=00000031
2 0 80000208 01000011 mthi $8  hi=00000007
3 0 8000020c 40885800 mtc0 $8, $11  compare=00000007
4 0 80000210 ffffffff .word 0xffffffff  cause=00000028 epc=80000210 trap 10 80000080
";

/// The same with the registers' names, which hi, lo and the registers of coprocessor 0 have anyway.
const NAMES_OF_REGISTERS: &str = "\
0 0 80000200 34080007 ori $t0, $zero, 0x0007  t0=00000007
1 0 80000204 01080018 mult $t0, $t0  lo=00000031
2 0 80000208 01000011 mthi $t0  hi=00000007
3 0 8000020c 40885800 mtc0 $t0, $11  compare=00000007
4 0 80000210 ffffffff .word 0xffffffff  cause=00000028 epc=80000210 trap 10 80000080
";

/// The first, the last and another general register that a Step can change.
static CALL: Run = Run {
    words: &[
        0x341d_1000, // ori $29, $0, 0x1000
        0x0c00_0080, // jal 0x80000200
        0x3401_0001, // ori $1, $0, 0x0001
    ],
    processors: 1,
    strict: false,
    events: &[(Step(0), 4)],
};

const OF_CALL: &str = "\
0 0 80000200 341d1000 ori $29, $0, 0x1000  r29=00001000
1 0 80000204 0c000080 jal 0x80000200  r31=8000020c
2 0 80000208 34010001 ori $1, $0, 0x0001  r1=00000001
3 0 80000200 341d1000 ori $29, $0, 0x1000
";

const NAMES_OF_CALL: &str = "\
0 0 80000200 341d1000 ori $sp, $zero, 0x1000  sp=00001000
1 0 80000204 0c000080 jal 0x80000200  ra=8000020c
2 0 80000208 34010001 ori $at, $zero, 0x0001  at=00000001
3 0 80000200 341d1000 ori $sp, $zero, 0x1000
";

/// A fetch in user mode, from an address of the kernel's.
static USER: Run = Run {
    words: &[
        0x3408_0002, // ori $8, $0, 0x0002
        0x4088_6000, // mtc0 $8, $12
        0, // nop
    ],
    processors: 1,
    strict: false,
    events: &[(Step(0), 3)],
};

const OF_USER: &str = "\
0 0 80000200 34080002 ori $8, $0, 0x0002  r8=00000002
1 0 80000204 40886000 mtc0 $8, $12  status=00000002
2 0 80000208 -  badvaddr=80000208 status=00000008 cause=00000010 epc=80000208 trap 4 80000080
";

/// Waits for a key.
static WAITING: Run = Run {
    words: &[
        0x3c08_bfe0, // lui $8, 0xbfe0
        0x3409_0001, // ori $9, $0, 0x0001
        0xad09_0008, // sw $9, 8($8)
        0x340a_0400, // ori $10, $0, 0x0400
        0x408a_6000, // mtc0 $10, $12
        0x4200_0020, // wait
        0x8d0b_0000, // lw $11, 0($8)
    ],
    processors: 1,
    strict: false,
    events: &[(Step(0), 7), (Key(0x41), 1), (Step(0), 1)],
};

const OF_WAITING: &str = "\
0 0 80000200 3c08bfe0 lui $8, 0xbfe0  r8=bfe00000
1 0 80000204 34090001 ori $9, $0, 0x0001  r9=00000001
2 0 80000208 ad090008 sw $9, 8($8)  rirq=00000001
3 0 8000020c 340a0400 ori $10, $0, 0x0400  r10=00000400
4 0 80000210 408a6000 mtc0 $10, $12  status=00000400
5 0 80000214 42000020 wait  state=waiting
6 0 80000218 -  idle
7 k 41
8 0 80000218 8d0b0000 lw $11, 0($8)  state=running r11=00000041 cause=00000000 waiting=0 rirq=00000001
";

/// Writes row 5, and then a row 3 that it would overlap.
static CONFLICT: Run = Run {
    words: &[
        0x3408_0500, // ori $8, $0, 0x0500
        0x4088_0000, // mtc0 $8, $0
        0x3c09_0040, // lui $9, 0x0040
        0x3529_1140, // ori $9, $9, 0x1140
        0x4089_5000, // mtc0 $9, $10
        0x4080_1000, // mtc0 $0, $2
        0x4200_0002, // tlbwi
        0x3408_0300, // ori $8, $0, 0x0300
        0x4088_0000, // mtc0 $8, $0
        0x3c09_0040, // lui $9, 0x0040
        0x3529_1240, // ori $9, $9, 0x1240
        0x4089_5000, // mtc0 $9, $10
        0x340a_0100, // ori $10, $0, 0x0100
        0x408a_1000, // mtc0 $10, $2
        0x4200_0002, // tlbwi
    ],
    processors: 1,
    strict: true,
    events: &[(Step(0), 15)],
};

const OF_CONFLICT: &str = "\
0 0 80000200 34080500 ori $8, $0, 0x0500  r8=00000500
1 0 80000204 40880000 mtc0 $8, $0  index=00000500
2 0 80000208 3c090040 lui $9, 0x0040  r9=00400000
3 0 8000020c 35291140 ori $9, $9, 0x1140  r9=00401140
4 0 80000210 40895000 mtc0 $9, $10  entryhi=00401140
5 0 80000214 40801000 mtc0 $0, $2
6 0 80000218 42000002 tlbwi  tlb 5=00401140 00000000
7 0 8000021c 34080300 ori $8, $0, 0x0300  r8=00000300
8 0 80000220 40880000 mtc0 $8, $0  index=00000300
9 0 80000224 3c090040 lui $9, 0x0040  r9=00400000
10 0 80000228 35291240 ori $9, $9, 0x1240  r9=00401240
11 0 8000022c 40895000 mtc0 $9, $10  entryhi=00401240
12 0 80000230 340a0100 ori $10, $0, 0x0100  r10=00000100
13 0 80000234 408a1000 mtc0 $10, $2  entrylo=00000100
14 0 80000238 42000002 tlbwi  conflict 3 5
";

#[test]
fn trace_demo(rt: HostRuntime) -> Result<(), Fail> {
    let text = traced(
        &rt,
        &IMAGE,
        1,
        false,
        &[(Step(0), 7)],
        &Style::plain(rt.alloc()),
    )?;
    same(&rt, text.as_str(), DEMO);
    Ok(())
}

/// Registers by their names, and no symbols.
fn by_names(alloc: Global) -> Style {
    Style {
        registers: Naming::Names,
        symbols: Symbols::none(alloc),
    }
}

#[test]
fn trace_demo_by_names(rt: HostRuntime) -> Result<(), Fail> {
    let style = by_names(rt.alloc());
    let text = traced(&rt, &IMAGE, 1, false, &[(Step(0), 7)], &style)?;
    same(&rt, text.as_str(), NAMED);
    Ok(())
}

#[test]
fn trace_with_symbols(rt: HostRuntime) -> Result<(), Fail> {
    let program = assemble(rt.alloc(), SOURCE)?;
    let file = write_with_symbols(rt.alloc(), &program)?;
    let style = Style {
        registers: Naming::Numbers,
        symbols: Symbols::new(rt.alloc(), &file)?,
    };
    let text = traced(&rt, &file, 1, false, &[(Step(0), 4)], &style)?;
    same(&rt, text.as_str(), LABELLED);
    Ok(())
}

#[test]
fn trace_registers(rt: HostRuntime) -> Result<(), Fail> {
    let text = lines_of(&rt, &REGISTERS)?;
    same(&rt, text.as_str(), OF_REGISTERS);
    Ok(())
}

#[test]
fn trace_registers_by_names(rt: HostRuntime) -> Result<(), Fail> {
    let text = lines_in(&rt, &REGISTERS, &by_names(rt.alloc()))?;
    same(&rt, text.as_str(), NAMES_OF_REGISTERS);
    Ok(())
}

#[test]
fn trace_call(rt: HostRuntime) -> Result<(), Fail> {
    let text = lines_of(&rt, &CALL)?;
    same(&rt, text.as_str(), OF_CALL);
    Ok(())
}

#[test]
fn trace_call_by_names(rt: HostRuntime) -> Result<(), Fail> {
    let text = lines_in(&rt, &CALL, &by_names(rt.alloc()))?;
    same(&rt, text.as_str(), NAMES_OF_CALL);
    Ok(())
}

#[test]
fn trace_fetch_in_user_mode(rt: HostRuntime) -> Result<(), Fail> {
    let text = lines_of(&rt, &USER)?;
    same(&rt, text.as_str(), OF_USER);
    Ok(())
}

#[test]
fn trace_wait(rt: HostRuntime) -> Result<(), Fail> {
    let text = lines_of(&rt, &WAITING)?;
    same(&rt, text.as_str(), OF_WAITING);
    Ok(())
}

#[test]
fn trace_conflict(rt: HostRuntime) -> Result<(), Fail> {
    let text = lines_of(&rt, &CONFLICT)?;
    same(&rt, text.as_str(), OF_CONFLICT);
    Ok(())
}
