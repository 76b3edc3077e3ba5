//! Words against what another assembler says of them.

use super::same;
use m161_decode::{at_most_one_row, decode, encode, is_canonical, round_trips};
use m161_isa::{Effect, Instr, ROWS, Reg, Row, has_row, row_of, rows_in_order};
use std::alloc::{AllocError, Global};
use std::fmt::Write;
use std::test::Fail;

/// A line for each word: the word, its row's name, and the numbers of its operands. The words are
/// those of GNU as 2.40 for mips-linux-gnu (-march=r3000, mips2 for sync, ll and sc, mips32 for
/// wait), from the text of the instructions. A row without operands has one canonical word; its second
/// word has bits in unused fields: GNU as's for `syscall`, `break`, `sync` and `wait`, this project's own
/// for the other five.
const WORDS: &str = "\
000208c0 sll 1 2 3
00000000 sll 0 0 0
001effc2 srl 31 30 31
00094042 srl 8 9 1
00052403 sra 4 5 16
001181c3 sra 16 17 7
00620804 sllv 1 2 3
03fce804 sllv 29 28 31
018b5006 srlv 10 11 12
00e3c006 srlv 24 3 7
01ee6807 srav 13 14 15
01041007 srav 2 4 8
03e00008 jr 31
03200008 jr 25
0320f809 jalr 31 25
00c02809 jalr 5 6
0000000c syscall
0000000d break
0000000f sync
00001010 mfhi 2
0000f810 mfhi 31
00600011 mthi 3
03c00011 mthi 30
00002012 mflo 4
0000e812 mflo 29
00a00013 mtlo 5
03800013 mtlo 28
00c70018 mult 6 7
03e10018 mult 31 1
01090019 multu 8 9
003f0019 multu 1 31
014b001a div 10 11
03fe001a div 31 30
018d001b divu 12 13
03df001b divu 30 31
00430820 add 1 2 3
03ddf820 add 31 30 29
00a62021 addu 4 5 6
037ae021 addu 28 27 26
01093822 sub 7 8 9
0317c822 sub 25 24 23
016c5023 subu 10 11 12
02b4b023 subu 22 21 20
01cf6824 and 13 14 15
02519824 and 19 18 17
02328025 or 16 17 18
01ee8025 or 16 15 14
02959826 xor 19 20 21
018b6826 xor 13 12 11
02f8b027 nor 22 23 24
01285027 nor 10 9 8
035bc82a slt 25 26 27
00c5382a slt 7 6 5
03bee02b sltu 28 29 30
0062202b sltu 4 3 2
05000008 bltz 8 8
0420ffff bltz 1 65535
05217fff bgez 9 32767
04418000 bgez 2 32768
05500010 bltzal 10 16
0470fff0 bltzal 3 65520
05710040 bgezal 11 64
0411ffc0 bgezal 0 65472
0bffffff j 67108863
08100006 j 1048582
0c000001 jal 1
0e000000 jal 33554432
10220004 beq 1 2 4
13fefffc beq 31 30 65532
1464048d bne 3 4 1165
17bcfb73 bne 29 28 64371
18a00002 blez 5 2
1be0fffe blez 31 65534
1cc00003 bgtz 6 3
1fc0fffd bgtz 30 65533
20418000 addi 1 2 32768
23df7fff addi 31 30 32767
2483ffff addiu 3 4 65535
27bdffd8 addiu 29 29 65496
28c5fffe slti 5 6 65534
2b7c0002 slti 28 27 2
2d07fffd sltiu 7 8 65533
2f3a0003 sltiu 26 25 3
3149ffff andi 9 10 65535
32f88000 andi 24 23 32768
358b1234 ori 11 12 4660
36b6fedc ori 22 21 65244
39cd5555 xori 13 14 21845
3a74aaaa xori 20 19 43690
3c0f8000 lui 15 32768
3c127fff lui 18 32767
8041ffff lb 1 65535 2
83df7fff lb 31 32767 30
8483fffe lh 3 65534 4
879d0100 lh 29 256 28
88c5fffd lwl 5 65533 6
8b5b0003 lwl 27 3 26
8d07fffc lw 7 65532 8
8fb90010 lw 25 16 29
9149fffb lbu 9 65531 10
92f80005 lbu 24 5 23
958bfffa lhu 11 65530 12
96b60006 lhu 22 6 21
99cdfff9 lwr 13 65529 14
9a740007 lwr 20 7 19
a041fff8 sb 1 65528 2
a3df0008 sb 31 8 30
a483fff7 sh 3 65527 4
a79d0009 sh 29 9 28
a8c5fff6 swl 5 65526 6
ab5b000a swl 27 10 26
ad07fff5 sw 7 65525 8
afbf0014 sw 31 20 29
b949fff4 swr 9 65524 10
bb19000c swr 25 12 24
c0820000 ll 2 0 4
c3df8000 ll 31 32768 30
e0a30000 sc 3 0 5
e3fe7fff sc 30 32767 31
40026000 mfc0 2 12
401f4000 mfc0 31 8
40837000 mtc0 3 14
409e5000 mtc0 30 10
42000001 tlbr
42000002 tlbwi
42000006 tlbwr
42000008 tlbp
42000010 rfe
42000020 wait";

/// Words with bits in fields that their rows don't use, and the line of the canonical word: GNU
/// as's for `syscall 0x12345`, `break 7`, `sync 1` and `wait 0x12345`; the last six are this
/// project's own rule.
const UNUSED: [(u32, &str); 10] = [
    (0x0048_d14c, "0000000c syscall"),
    (0x0007_000d, "0000000d break"),
    (0x0000_004f, "0000000f sync"),
    (0x4248_d160, "42000020 wait"),
    (0x43ff_ffc1, "42000001 tlbr"),
    (0x4200_0fc2, "42000002 tlbwi"),
    (0x4300_0006, "42000006 tlbwr"),
    (0x4210_0008, "42000008 tlbp"),
    (0x4200_0410, "42000010 rfe"),
    (0x0000_0060, "00000020 add 0 0 0"),
];

/// The numbers of an instruction's operands, in its row's order; 0 where it has fewer.
fn numbers_of(instr: &Instr) -> [u32; 3] {
    match *instr {
        Instr::Shift { rd, rt, amount, .. } => [number(rd), number(rt), u32::from(amount.bits())],
        Instr::Arith {
            rd: a,
            rs: b,
            rt: c,
            ..
        }
        | Instr::ShiftVariable {
            rd: a,
            rt: b,
            rs: c,
            ..
        } => [number(a), number(b), number(c)],
        Instr::JumpAndLinkRegister { rd: a, rs: b }
        | Instr::Multiply { rs: a, rt: b, .. }
        | Instr::MoveFromCop0 { rt: a, register: b }
        | Instr::MoveToCop0 { rt: a, register: b } => [number(a), number(b), 0],
        Instr::JumpRegister { rs: a }
        | Instr::MoveFrom { rd: a, .. }
        | Instr::MoveTo { rs: a, .. } => [number(a), 0, 0],
        Instr::BranchEqual {
            rs: a,
            rt: b,
            offset: last,
            ..
        }
        | Instr::Immediate {
            rt: a,
            rs: b,
            immediate: last,
            ..
        } => [number(a), number(b), u32::from(last.half())],
        Instr::BranchZero {
            rs: a,
            offset: last,
            ..
        }
        | Instr::LoadUpper {
            rt: a,
            immediate: last,
        } => [number(a), u32::from(last.half()), 0],
        Instr::Load {
            rt,
            offset,
            base,
            ..
        }
        | Instr::Store {
            rt,
            offset,
            base,
            ..
        } => [number(rt), u32::from(offset.half()), number(base)],
        Instr::Jump { target, .. } => [target.field(), 0, 0],
        Instr::Plain(_) | Instr::Absent(_) | Instr::Reserved(_) => [0, 0, 0],
    }
}

fn number(register: Reg) -> u32 {
    u32::from(register.number())
}

/// A word's line, by its instruction: the canonical word, the name and the operands; nothing where
/// it has no row.
fn line_of(alloc: Global, word: u32) -> Result<String, AllocError> {
    let mut line = String::new(alloc);
    let instr = decode(word);
    if has_row(&instr) {
        let row = row_of(&instr);
        write!(line, "{:08x} {}", encode(&instr), row.name())?;
        for (_, number) in row.operands().iter().zip(numbers_of(&instr)) {
            write!(line, " {number}")?;
        }
    }
    Ok(line)
}

#[test]
fn agrees_with_an_assembler(rt: HostRuntime) -> Result<(), Fail> {
    for line in WORDS.lines() {
        let word = u32::from_str_radix(line.split(' ').next().unwrap_or(""), 16)?;
        let found = line_of(rt.alloc(), word)?;
        same(&rt, (found.as_str(), is_canonical(word)), (line, true));
    }
    for (word, line) in UNUSED {
        let found = line_of(rt.alloc(), word)?;
        same(&rt, (found.as_str(), is_canonical(word)), (line, false));
    }
    same(&rt, WORDS.lines().count(), 129);
    Ok(())
}

#[test]
fn words_of_every_row(rt: HostRuntime) {
    // two words for a row with operands
    for row in &ROWS {
        let name = row.name();
        let names = WORDS
            .lines()
            .filter(|line| line.split(' ').nth(1) == Some(name));
        let expected = if row.operands().is_empty() { 1 } else { 2 };
        same(&rt, (name, names.count()), (name, expected));
    }
}

#[test]
fn laws_and_effects(rt: HostRuntime) {
    rows_in_order();
    at_most_one_row();
    round_trips();
    let found = [Effect::ShiftLeft, Effect::ShiftRight].map(|it| Row::Srlv.effect() == it);
    same(&rt, found, [false, true]);
}

#[test]
fn tells_misfits_apart(rt: HostRuntime) {
    // a word without a row, and the word of its instruction: of a coprocessor's the opcode alone,
    // of a reserved one the word itself
    for &(word, again) in &[
        (0x4412_3456, 0x4400_0000),
        (0xc412_3456, 0x4400_0000),
        (0xe412_3456, 0x4400_0000),
        (0x4812_3456, 0x4800_0000),
        (0xc812_3456, 0x4800_0000),
        (0xe812_3456, 0x4800_0000),
        (0x4c12_3456, 0x4c00_0000),
        (0xcc12_3456, 0x4c00_0000),
        (0xec12_3456, 0x4c00_0000),
        (0xffff_ffff, 0xffff_ffff),
        (0x0000_0001, 0x0000_0001),
        (0x0402_0000, 0x0402_0000),
        (0x4020_0000, 0x4020_0000),
        (0x4200_0000, 0x4200_0000),
        (0x5000_0000, 0x5000_0000),
    ] {
        let instr = decode(word);
        let found = (has_row(&instr), encode(&instr), is_canonical(word));
        same(&rt, (word, found), (word, (false, again, false)));
    }
}
