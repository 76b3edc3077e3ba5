//! Each instruction on a machine: tables of one instruction a line, with a setup of their own. The
//! words are those of GNU as 2.40 for mips-linux-gnu, save some of `STOPS`, which were assembled by
//! hand; what they leave is worked out from Kane's descriptions.

use super::listing::Left::{Hi, Lo, Memory, Pc, Register};
use super::listing::{Left, last_step, part_of};
use super::same;
use m161::Machine;
use m161_test_support::outcomes::{
    ADDRESS_LOAD, ADDRESS_STORE, Answer, BREAKPOINT, BUS_DATA, ENTRY, LOAD_MISS, OVERFLOW, RAN,
    RESERVED, STORE_MISS, SYSCALL, UNUSABLE,
};
use std::process::Abort;
use std::test::Fail;

/// Instructions that write register 10: the text, the word, registers 8 and 9 before it, and what
/// is left in register 10.
static REGISTERS: [(&str, u32, u32, u32, u32); 30] = [
    ("sll $10, $8, 4", 0x0008_5100, 0xf000_000f, 0, 0x0000_00f0),
    ("srl $10, $8, 4", 0x0008_5102, 0xf000_000f, 0, 0x0f00_0000),
    ("sra $10, $8, 4", 0x0008_5103, 0xf000_000f, 0, 0xff00_0000),
    ("sra $10, $8, 4", 0x0008_5103, 0x7000_000f, 0, 0x0700_0000),
    // the low five bits of the amount are 4
    (
        "sllv $10, $8, $9",
        0x0128_5004,
        0xf000_000f,
        0xffff_ffe4,
        0x0000_00f0,
    ),
    (
        "srlv $10, $8, $9",
        0x0128_5006,
        0xf000_000f,
        0xffff_ffe4,
        0x0f00_0000,
    ),
    (
        "srav $10, $8, $9",
        0x0128_5007,
        0xf000_000f,
        0xffff_ffe4,
        0xff00_0000,
    ),
    ("add $10, $8, $9", 0x0109_5020, 5, 0xffff_fffd, 2),
    ("addu $10, $8, $9", 0x0109_5021, 0x7fff_ffff, 1, 0x8000_0000),
    ("sub $10, $8, $9", 0x0109_5022, 3, 5, 0xffff_fffe),
    ("subu $10, $8, $9", 0x0109_5023, 0x8000_0000, 1, 0x7fff_ffff),
    (
        "and $10, $8, $9",
        0x0109_5024,
        0xff00_ff00,
        0x0ff0_0ff0,
        0x0f00_0f00,
    ),
    (
        "or $10, $8, $9",
        0x0109_5025,
        0xff00_ff00,
        0x0ff0_0ff0,
        0xfff0_fff0,
    ),
    (
        "xor $10, $8, $9",
        0x0109_5026,
        0xff00_ff00,
        0x0ff0_0ff0,
        0xf0f0_f0f0,
    ),
    (
        "nor $10, $8, $9",
        0x0109_5027,
        0xff00_ff00,
        0x0ff0_0ff0,
        0x000f_000f,
    ),
    ("slt $10, $8, $9", 0x0109_502a, 0xffff_ffff, 1, 1),
    ("slt $10, $8, $9", 0x0109_502a, 1, 0xffff_ffff, 0),
    ("sltu $10, $8, $9", 0x0109_502b, 0xffff_ffff, 1, 0),
    ("sltu $10, $8, $9", 0x0109_502b, 1, 0xffff_ffff, 1),
    (
        "addi $10, $8, -32768",
        0x210a_8000,
        0x0001_0000,
        0,
        0x0000_8000,
    ),
    ("addiu $10, $8, 1", 0x250a_0001, 0x7fff_ffff, 0, 0x8000_0000),
    ("addiu $10, $8, -1", 0x250a_ffff, 0, 0, 0xffff_ffff),
    ("slti $10, $8, -1", 0x290a_ffff, 0, 0, 0),
    ("slti $10, $8, 1", 0x290a_0001, 0xffff_ffff, 0, 1),
    ("sltiu $10, $8, -1", 0x2d0a_ffff, 0x0001_0000, 0, 1),
    ("sltiu $10, $8, 1", 0x2d0a_0001, 0xffff_ffff, 0, 0),
    (
        "andi $10, $8, 0xff00",
        0x310a_ff00,
        0xffff_ffff,
        0,
        0x0000_ff00,
    ),
    (
        "ori $10, $8, 0xff00",
        0x350a_ff00,
        0x00ff_000f,
        0,
        0x00ff_ff0f,
    ),
    (
        "xori $10, $8, 0xff00",
        0x390a_ff00,
        0xffff_ffff,
        0,
        0xffff_00ff,
    ),
    ("lui $10, 0x8001", 0x3c0a_8001, 0xffff_ffff, 0, 0x8001_0000),
];

/// Instructions of HI and LO: the text, the word, registers 8 and 9 before it, whose words are in
/// HI and LO too, and what is left in register 10, HI and LO.
static PRODUCTS: [(&str, u32, u32, u32, [u32; 3]); 11] = [
    ("sync", 0x0000_000f, 1, 2, [0, 1, 2]),
    ("mfhi $10", 0x0000_5010, 1, 2, [1, 1, 2]),
    ("mflo $10", 0x0000_5012, 1, 2, [2, 1, 2]),
    ("mthi $9", 0x0120_0011, 1, 2, [0, 2, 2]),
    ("mtlo $8", 0x0100_0013, 1, 2, [0, 1, 1]),
    (
        "mult $8, $9",
        0x0109_0018,
        0xffff_fffe,
        0xffff_fffd,
        [0, 0, 6],
    ),
    (
        "mult $8, $9",
        0x0109_0018,
        0x4000_0000,
        6,
        [0, 1, 0x8000_0000],
    ),
    (
        "multu $8, $9",
        0x0109_0019,
        0xffff_fffe,
        3,
        [0, 2, 0xffff_fffa],
    ),
    (
        "div $8, $9",
        0x0109_001a,
        7,
        0xffff_fffe,
        [0, 1, 0xffff_fffd],
    ),
    (
        "divu $8, $9",
        0x0109_001b,
        0xffff_fff9,
        2,
        [0, 1, 0x7fff_fffc],
    ),
    ("divu $8, $9", 0x0109_001b, 7, 0, [0, 7, 0xffff_ffff]),
];

/// Loads and stores: the text, the word, and what is left in register 10 and in memory. They load
/// from the word 817f7e84 into register 10, ffffffff, or store register 8, 11223344, over it.
static ACCESSES: [(&str, u32, u32, u32); 17] = [
    ("lb $10, -4($16)", 0x820a_fffc, 0xffff_ff81, 0x817f_7e84),
    ("lb $10, -3($16)", 0x820a_fffd, 0x0000_007f, 0x817f_7e84),
    ("lbu $10, -4($16)", 0x920a_fffc, 0x0000_0081, 0x817f_7e84),
    ("lbu $10, -1($16)", 0x920a_ffff, 0x0000_0084, 0x817f_7e84),
    ("lh $10, -4($16)", 0x860a_fffc, 0xffff_817f, 0x817f_7e84),
    ("lh $10, -2($16)", 0x860a_fffe, 0x0000_7e84, 0x817f_7e84),
    ("lhu $10, -4($16)", 0x960a_fffc, 0x0000_817f, 0x817f_7e84),
    ("lhu $10, -2($16)", 0x960a_fffe, 0x0000_7e84, 0x817f_7e84),
    ("lw $10, -4($16)", 0x8e0a_fffc, 0x817f_7e84, 0x817f_7e84),
    ("lwl $10, -3($16)", 0x8a0a_fffd, 0x7f7e_84ff, 0x817f_7e84),
    ("lwr $10, -3($16)", 0x9a0a_fffd, 0xffff_817f, 0x817f_7e84),
    ("sb $8, -3($16)", 0xa208_fffd, 0xffff_ffff, 0x8144_7e84),
    ("sh $8, -4($16)", 0xa608_fffc, 0xffff_ffff, 0x3344_7e84),
    ("sh $8, -2($16)", 0xa608_fffe, 0xffff_ffff, 0x817f_3344),
    ("sw $8, -4($16)", 0xae08_fffc, 0xffff_ffff, 0x1122_3344),
    ("swl $8, -3($16)", 0xaa08_fffd, 0xffff_ffff, 0x8111_2233),
    ("swr $8, -2($16)", 0xba08_fffe, 0xffff_ffff, 0x2233_4484),
];

/// Branches and jumps at 80000210: the text, the word, register 8 before it (register 9 is 5), the
/// address after the slot, and what is left in register 31.
static JUMPS: [(&str, u32, u32, u32, u32); 24] = [
    (
        "bltz $8, 0x80000254",
        0x0500_0010,
        0xffff_ffff,
        0x8000_0254,
        0,
    ),
    ("bltz $8, 0x80000254", 0x0500_0010, 0, 0x8000_0218, 0),
    ("bgez $8, 0x80000254", 0x0501_0010, 0, 0x8000_0254, 0),
    (
        "bgez $8, 0x80000254",
        0x0501_0010,
        0x8000_0000,
        0x8000_0218,
        0,
    ),
    (
        "bltzal $8, 0x80000254",
        0x0510_0010,
        0x8000_0000,
        0x8000_0254,
        0x8000_0218,
    ),
    (
        "bltzal $8, 0x80000254",
        0x0510_0010,
        1,
        0x8000_0218,
        0x8000_0218,
    ),
    (
        "bgezal $8, 0x80000254",
        0x0511_0010,
        0,
        0x8000_0254,
        0x8000_0218,
    ),
    (
        "bgezal $8, 0x80000254",
        0x0511_0010,
        0xffff_ffff,
        0x8000_0218,
        0x8000_0218,
    ),
    ("beq $8, $9, 0x80000254", 0x1109_0010, 5, 0x8000_0254, 0),
    ("beq $8, $9, 0x80000254", 0x1109_0010, 6, 0x8000_0218, 0),
    ("bne $8, $9, 0x80000254", 0x1509_0010, 6, 0x8000_0254, 0),
    ("bne $8, $9, 0x80000254", 0x1509_0010, 5, 0x8000_0218, 0),
    ("bne $8, $9, 0x80000204", 0x1509_fffc, 6, 0x8000_0204, 0),
    (
        "blez $8, 0x80000254",
        0x1900_0010,
        0xffff_ffff,
        0x8000_0254,
        0,
    ),
    ("blez $8, 0x80000254", 0x1900_0010, 0, 0x8000_0254, 0),
    ("blez $8, 0x80000254", 0x1900_0010, 1, 0x8000_0218, 0),
    ("bgtz $8, 0x80000254", 0x1d00_0010, 1, 0x8000_0254, 0),
    ("bgtz $8, 0x80000254", 0x1d00_0010, 0, 0x8000_0218, 0),
    (
        "bgtz $8, 0x80000254",
        0x1d00_0010,
        0x8000_0000,
        0x8000_0218,
        0,
    ),
    ("j 0x80000254", 0x0800_0095, 0, 0x8000_0254, 0),
    ("jal 0x80000254", 0x0c00_0095, 0, 0x8000_0254, 0x8000_0218),
    ("jr $8", 0x0100_0008, 0x8000_0400, 0x8000_0400, 0),
    ("jr $8", 0x0100_0008, 0x8000_0402, 0x8000_0402, 0),
    (
        "jalr $31, $8",
        0x0100_f809,
        0x8000_0400,
        0x8000_0400,
        0x8000_0218,
    ),
];

/// Merges: the text, the word, and what is left in register 8, aabbccdd, and in the word at 0x400,
/// 11223344.
static MERGES: [(&str, u32, u32, u32); 16] = [
    ("lwl $8, 0($16)", 0x8a08_0000, 0x1122_3344, 0x1122_3344),
    ("lwl $8, 1($16)", 0x8a08_0001, 0x2233_44dd, 0x1122_3344),
    ("lwl $8, 2($16)", 0x8a08_0002, 0x3344_ccdd, 0x1122_3344),
    ("lwl $8, 3($16)", 0x8a08_0003, 0x44bb_ccdd, 0x1122_3344),
    ("lwr $8, 0($16)", 0x9a08_0000, 0xaabb_cc11, 0x1122_3344),
    ("lwr $8, 1($16)", 0x9a08_0001, 0xaabb_1122, 0x1122_3344),
    ("lwr $8, 2($16)", 0x9a08_0002, 0xaa11_2233, 0x1122_3344),
    ("lwr $8, 3($16)", 0x9a08_0003, 0x1122_3344, 0x1122_3344),
    ("swl $8, 0($16)", 0xaa08_0000, 0xaabb_ccdd, 0xaabb_ccdd),
    ("swl $8, 1($16)", 0xaa08_0001, 0xaabb_ccdd, 0x11aa_bbcc),
    ("swl $8, 2($16)", 0xaa08_0002, 0xaabb_ccdd, 0x1122_aabb),
    ("swl $8, 3($16)", 0xaa08_0003, 0xaabb_ccdd, 0x1122_33aa),
    ("swr $8, 0($16)", 0xba08_0000, 0xaabb_ccdd, 0xdd22_3344),
    ("swr $8, 1($16)", 0xba08_0001, 0xaabb_ccdd, 0xccdd_3344),
    ("swr $8, 2($16)", 0xba08_0002, 0xaabb_ccdd, 0xbbcc_dd44),
    ("swr $8, 3($16)", 0xba08_0003, 0xaabb_ccdd, 0xaabb_ccdd),
];

/// Instructions that trap, with 80000000 in register 16, 7fffffff in 9, 1 in 10 and 5 in 8: the
/// text, the word, and what the Step answers.
static STOPS: [(&str, u32, Answer); 31] = [
    ("add $8, $9, $10", 0x012a_4020, OVERFLOW),
    ("addi $8, $9, 1", 0x2128_0001, OVERFLOW),
    ("sub $8, $16, $10", 0x020a_4022, OVERFLOW),
    ("syscall", 0x0000_000c, SYSCALL),
    ("break", 0x0000_000d, BREAKPOINT),
    ("lw $8, 0($0)", 0x8c08_0000, LOAD_MISS),
    ("sw $8, 0($0)", 0xac08_0000, STORE_MISS),
    ("lw $8, 4096($16)", 0x8e08_1000, BUS_DATA),
    ("sb $9, 4096($16)", 0xa209_1000, BUS_DATA),
    ("ll $8, 4096($16)", 0xc208_1000, BUS_DATA),
    ("sc $8, 4096($16)", 0xe208_1000, BUS_DATA),
    ("lw $8, 1025($16)", 0x8e08_0401, ADDRESS_LOAD),
    ("lw $8, 1026($16)", 0x8e08_0402, ADDRESS_LOAD),
    ("lh $8, 1025($16)", 0x8608_0401, ADDRESS_LOAD),
    ("lhu $8, 1027($16)", 0x9608_0403, ADDRESS_LOAD),
    ("ll $8, 1026($16)", 0xc208_0402, ADDRESS_LOAD),
    ("sh $9, 1025($16)", 0xa609_0401, ADDRESS_STORE),
    ("sw $9, 1026($16)", 0xae09_0402, ADDRESS_STORE),
    ("sc $9, 1025($16)", 0xe209_0401, ADDRESS_STORE),
    (".word 0x44000000", 0x4400_0000, UNUSABLE),
    (".word 0x48000000", 0x4800_0000, UNUSABLE),
    (".word 0x4c000000", 0x4c00_0000, UNUSABLE),
    (".word 0xc4000000", 0xc400_0000, UNUSABLE),
    (".word 0xc8000000", 0xc800_0000, UNUSABLE),
    (".word 0xcc000000", 0xcc00_0000, UNUSABLE),
    (".word 0xe4000000", 0xe400_0000, UNUSABLE),
    (".word 0xe8000000", 0xe800_0000, UNUSABLE),
    (".word 0xec000000", 0xec00_0000, UNUSABLE),
    (".word 0xffffffff", 0xffff_ffff, RESERVED),
    (".word 0x42000003", 0x4200_0003, RESERVED),
    (".word 0x40400000", 0x4040_0000, RESERVED),
];

/// Fails the test where other parts are left by words that are executed after registers 8 and 9
/// were given theirs.
fn leaves(
    rt: &(impl Abort + AllocGlobal),
    text: &str,
    operands: [u32; 2],
    words: &[u32],
    left: &[Left],
) -> Result<(), Fail> {
    // lui and ori of $8, lui and ori of $9
    let mut program = vec![in rt.alloc();
        0x3c08_0000 | operands[0] >> 16,
        0x3508_0000 | operands[0] & 0xffff,
        0x3c09_0000 | operands[1] >> 16,
        0x3529_0000 | operands[1] & 0xffff,
    ]?;
    program.extend_from_slice(words)?;
    let steps = u32::try_from(program.len())?;
    let machine: Machine = last_step(rt, text, ENTRY, &program, steps, RAN)?;
    for part in left {
        same(
            rt,
            (text, operands, part_of(rt, &machine, 0, *part)),
            (text, operands, *part),
        );
    }
    Ok(())
}

#[test]
fn instructions_of_registers(rt: HostRuntime) -> Result<(), Fail> {
    for &(text, word, s, t, result) in &REGISTERS {
        leaves(&rt, text, [s, t], &[word], &[Register(10, result)])?;
    }
    Ok(())
}

#[test]
fn instructions_of_hi_and_lo(rt: HostRuntime) -> Result<(), Fail> {
    for &(text, word, s, t, [result, hi, lo]) in &PRODUCTS {
        // mthi $8; mtlo $9
        let words = [0x0100_0011, 0x0120_0013, word];
        leaves(
            &rt,
            text,
            [s, t],
            &words,
            &[Register(10, result), Hi(hi), Lo(lo)],
        )?;
    }
    Ok(())
}

#[test]
fn loads_and_stores(rt: HostRuntime) -> Result<(), Fail> {
    for &(text, word, register, memory) in &ACCESSES {
        // lui $16, 0x8000; ori $16, $16, 0x0404; sw $9, -4($16); nor $10, $0, $0
        let words = [0x3c10_8000, 0x3610_0404, 0xae09_fffc, 0x0000_5027, word];
        let left = [Register(10, register), Memory(0x400, memory)];
        leaves(&rt, text, [0x1122_3344, 0x817f_7e84], &words, &left)?;
    }
    Ok(())
}

#[test]
fn arithmetic_merges(rt: HostRuntime) -> Result<(), Fail> {
    for &(text, word, register, memory) in &MERGES {
        // lui $16, 0x8000; ori $16, $16, 0x0400; sw $9, 0($16)
        let words = [0x3c10_8000, 0x3610_0400, 0xae09_0000, word];
        let left = [Register(8, register), Memory(0x400, memory)];
        leaves(&rt, text, [0xaabb_ccdd, 0x1122_3344], &words, &left)?;
    }
    Ok(())
}

#[test]
fn branches_and_jumps(rt: HostRuntime) -> Result<(), Fail> {
    for &(text, word, s, pc, link) in &JUMPS {
        leaves(&rt, text, [s, 5], &[word, 0], &[Pc(pc), Register(31, link)])?;
    }
    Ok(())
}

#[test]
fn stops(rt: HostRuntime) -> Result<(), Fail> {
    for &(text, word, answer) in &STOPS {
        // lui $16, 0x8000; lw $8, 4092($16), the last word of RAM; lui $9, 0x7fff;
        // ori $9, $9, 0xffff; ori $10, $0, 1; ori $8, $0, 5
        let program = [
            0x3c10_8000,
            0x8e08_0ffc,
            0x3c09_7fff,
            0x3529_ffff,
            0x340a_0001,
            0x3408_0005,
            word,
        ];
        let machine: Machine = last_step(&rt, text, ENTRY, &program, 7, answer)?;
        let pc = if answer == LOAD_MISS || answer == STORE_MISS {
            0x8000_0000
        } else {
            0x8000_0080
        };
        for left in [Register(8, 5), Pc(pc)] {
            same(&rt, (text, part_of(&rt, &machine, 0, left)), (text, left));
        }
    }
    Ok(())
}
