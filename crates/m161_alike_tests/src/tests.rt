//! Tests of what a Step reads, and of views. The expected values were worked out by hand.

ghost use Rattle.std.specs.Prelude.{◌≡◌, OnOk, length};
ghost use Rattle.m161_alike.specs.Addresses.{Cover};

use m161::Core;
use m161_alike::{
    Known, Reads, add_address, is_board_bounded, is_bounded, next_reads, read_addresses,
    read_board, read_memory, read_processor, scan_memory, words_tell_their_addresses, write_board,
    write_memory, write_processor,
};
use m161_machine::{Conf, LinkUnit};
use m161_test_support::files::file_from;
use m161_test_support::outcomes::ENTRY;
use std::alloc::{AllocError, AllocGlobal, Global};
use std::fmt::Debug;
use std::process::Abort;
use std::test::Fail;

/// Where the kernels' first words are.
const START: u32 = 0x8000_0200;

/// Each instruction that reads time, and others of coprocessor 0.
static READS: [u32; 9] = [
    0x4008_4800, // mfc0 $8, $9: Count
    0x4008_0800, // mfc0 $8, $1: Random
    0x4008_6000, // mfc0 $8, $12: Status
    0x4080_4800, // mtc0 $0, $9
    0x4200_0006, // tlbwr
    0x4200_0002, // tlbwi
    0x4200_0008, // tlbp
    0x0000_000c, // syscall
    0x0000_0000, // nop
];

/// Spins.
static SPINS: [u32; 2] = [
    0x1000_ffff, // beq $0, $0, to itself
    0, // nop
];

/// Arms the timer by two Steps, and spins.
static ARMED: [u32; 4] = [
    0x3408_7fff, // ori $8, $0, 0x7fff
    0x4088_5800, // mtc0 $8, $11: Compare
    0x1000_ffff, // beq $0, $0, to itself
    0, // nop
];

/// Stores a word that differs from what was there, and spins.
static STORES: [u32; 4] = [
    0x3c08_8000, // lui $8, 0x8000
    0xad08_0300, // sw $8, 768($8)
    0x1000_ffff, // beq $0, $0, to itself
    0, // nop
];

/// How many Steps a processor has made that is made again.
static STEPS: [u32; 7] = [0, 1, 2, 5, 7, 8, 70];

/// Writes a word of CRAM, sends a byte, links itself, and spins.
static BOARD: [u32; 9] = [
    0x3c08_bfff, // lui $8, 0xbfff
    0xad08_8300, // sw $8, -31,984($8): word 0 of its CRAM
    0x3c09_bfe0, // lui $9, 0xbfe0
    0xad28_0000, // sw $8, 0($9): CHAR
    0xad28_0004, // sw $8, 4($9): WIRQ
    0x3c0a_8000, // lui $10, 0x8000
    0xc14b_0300, // ll $11, 768($10)
    0x1000_ffff, // beq $0, $0, to itself
    0, // nop
];

/// Fails the test where a value isn't the expected one.
fn same<T: PartialEq + Debug + Copy>(rt: &impl Abort, found: T, expected: T) {
    assert_eq!(rt; found, expected);
}

/// The state at boot with a kernel.
#[inline(never)]
fn booted(rt: &impl AllocGlobal, words: &[u32]) -> Result<Core, Fail> {
    let file = file_from(rt.alloc(), ENTRY, START, words)?;
    let conf = Conf {
        ram: 4096,
        processors: 2,
        log: 1,
        link: LinkUnit::Word,
        strict: false,
    };
    Ok(Core::boot(rt.alloc(), &file, conf)?)
}

/// Makes Steps of processor 0, of which none may be refused.
fn make_steps(rt: &impl Abort, core: &mut Core, steps: u32) {
    for _step in 0..steps {
        same(rt, core.step(0).is_ok(), true);
    }
}

/// Fails the test where processors 0 of two states are alike, or aren't, by what is known.
fn check_alike(
    rt: &(impl Abort + AllocGlobal),
    core: &Core,
    other: &Core,
    known: &Known,
    expected: bool,
) -> Result<(), Fail> {
    let mut words = Vec::new(rt.alloc());
    let mut others = Vec::new(rt.alloc());
    if core.processors() > 0 && other.processors() > 0 {
        write_processor(core, known, 0, &mut words)?;
        write_processor(other, known, 0, &mut others)?;
    }
    same(rt, words.as_slice() == others.as_slice(), expected);
    Ok(())
}

/// Makes processor 0 of another state the one with the words of a state's. Returns whether it did.
fn read_back(
    rt: &impl AllocGlobal,
    core: &Core,
    other: &mut Core,
    known: &Known,
) -> Result<bool, Fail> {
    let mut words = Vec::new(rt.alloc());
    if core.processors() > 0 {
        write_processor(core, known, 0, &mut words)?;
    }
    let can = other.processors() > 0 && other.made() >= 55 && !other.conf().strict;
    if !can || words.len() != 245 {
        return Ok(false);
    }
    read_processor(other, 0, &words);
    Ok(true)
}

/// What is known if Random, Count of processor 0 are.
fn known_of(random: bool, count: bool) -> Known {
    let mut known = Known::nothing();
    known.insert(0, Reads { random, count });
    known
}

/// Fails the test where the next Step of processor 0 reads otherwise.
fn check_reads(rt: &impl Abort, core: &Core, random: bool, count: bool) {
    if core.processors() > 0 {
        same(rt, next_reads(core, 0), Reads { random, count });
    }
}

#[test]
fn each_kind_reads(rt: HostRuntime) -> Result<(), Fail> {
    let mut core = booted(&rt, &READS)?;
    check_reads(&rt, &core, false, true);
    make_steps(&rt, &mut core, 1);
    check_reads(&rt, &core, true, false);
    make_steps(&rt, &mut core, 1);
    check_reads(&rt, &core, false, false);
    make_steps(&rt, &mut core, 1);
    check_reads(&rt, &core, false, false);
    make_steps(&rt, &mut core, 1);
    check_reads(&rt, &core, true, false);
    make_steps(&rt, &mut core, 1);
    check_reads(&rt, &core, false, false);
    make_steps(&rt, &mut core, 2);
    check_reads(&rt, &core, false, false);
    make_steps(&rt, &mut core, 1);
    check_reads(&rt, &core, false, false);
    Ok(())
}

#[test]
fn a_stopped_processor_reads_nothing(rt: HostRuntime) -> Result<(), Fail> {
    let core = booted(&rt, &READS)?;
    if core.processors() > 1 {
        same(
            &rt,
            next_reads(&core, 1),
            Reads {
                random: false,
                count: false,
            },
        );
    }
    Ok(())
}

#[test]
fn time_that_is_not_known_is_left_out(rt: HostRuntime) -> Result<(), Fail> {
    let first = booted(&rt, &SPINS)?;
    let mut later = booted(&rt, &SPINS)?;
    make_steps(&rt, &mut later, 2);
    check_alike(&rt, &first, &later, &Known::nothing(), true)?;
    check_alike(&rt, &first, &later, &known_of(true, false), false)?;
    check_alike(&rt, &first, &later, &known_of(false, true), false)?;
    make_steps(&rt, &mut later, 1);
    check_alike(&rt, &first, &later, &Known::nothing(), false)?;
    Ok(())
}

#[test]
fn an_armed_timer_keeps_count(rt: HostRuntime) -> Result<(), Fail> {
    let mut first = booted(&rt, &ARMED)?;
    let mut later = booted(&rt, &ARMED)?;
    make_steps(&rt, &mut first, 2);
    make_steps(&rt, &mut later, 4);
    check_alike(&rt, &first, &later, &Known::nothing(), false)?;
    Ok(())
}

#[test]
fn a_set_contains_what_was_put_in(rt: HostRuntime) -> Result<(), Fail> {
    let known = known_of(true, false);
    same(
        &rt,
        known.contains(
            0,
            Reads {
                random: true,
                count: false,
            },
        ),
        true,
    );
    same(
        &rt,
        known.contains(
            0,
            Reads {
                random: false,
                count: false,
            },
        ),
        true,
    );
    same(
        &rt,
        known.contains(
            0,
            Reads {
                random: false,
                count: true,
            },
        ),
        false,
    );
    same(
        &rt,
        known.contains(
            1,
            Reads {
                random: true,
                count: false,
            },
        ),
        false,
    );
    same(
        &rt,
        known.of(0),
        Reads {
            random: true,
            count: false,
        },
    );
    Ok(())
}

#[test]
fn memory_is_what_differs(rt: HostRuntime) -> Result<(), Fail> {
    let boot = booted(&rt, &STORES)?;
    let mut core = booted(&rt, &STORES)?;
    let mut words = Vec::new(rt.alloc());
    if boot.memory().len() == core.memory().len() {
        scan_memory(&core, boot.memory(), &mut words)?;
    }
    same(&rt, words.len(), 0);
    make_steps(&rt, &mut core, 2);
    if boot.memory().len() == core.memory().len() {
        scan_memory(&core, boot.memory(), &mut words)?;
        write_by_addresses(rt.alloc(), &core, boot.memory(), &mut words)?;
    }
    same(
        &rt,
        words.as_slice() == [0x300, 0x8000_0000, 0x300, 0x8000_0000].as_slice(),
        true,
    );
    Ok(())
}

/// Finds where memory differs from boot's.
fn find_addresses(
    alloc: Global,
    core: &Core,
    boot: &[u8],
    addresses: &mut Vec<u32>,
) -> Result<(), AllocError>
    requires { length boot.now ≡ length core.now.state.memory }
    ensures { OnOk result (Cover boot.now core.now.state.memory addresses.new.items) }
{
    words_tell_their_addresses();
    let mut words = Vec::new(alloc);
    scan_memory(core, boot, &mut words)?;
    read_addresses(&words, addresses)
}

/// Writes the words of memory that differ from boot's, once it is known where they are.
fn write_by_addresses(
    alloc: Global,
    core: &Core,
    boot: &[u8],
    out: &mut Vec<u32>,
) -> Result<(), AllocError>
    requires { length boot.now ≡ length core.now.state.memory }
{
    let mut addresses = Vec::new(alloc);
    find_addresses(alloc, core, boot, &mut addresses)?;
    write_memory(core, boot, &addresses, out)
}

/// Three addresses, one of them twice.
static PLACES: [u32; 4] = [8, 0, 4, 8];

#[test]
fn addresses_ascend(rt: HostRuntime) -> Result<(), Fail> {
    let mut addresses = Vec::new(rt.alloc());
    add_address(&mut addresses, PLACES[0])?;
    add_address(&mut addresses, PLACES[1])?;
    add_address(&mut addresses, PLACES[2])?;
    add_address(&mut addresses, PLACES[3])?;
    same(&rt, addresses.as_slice() == [0, 4, 8].as_slice(), true);
    Ok(())
}

#[test]
fn a_processor_comes_back(rt: HostRuntime) -> Result<(), Fail> {
    let known = known_of(true, true);
    for steps in STEPS.iter() {
        let mut core = booted(&rt, &READS)?;
        let mut other = booted(&rt, &READS)?;
        make_steps(&rt, &mut core, *steps);
        make_steps(&rt, &mut other, 60);
        same(&rt, read_back(&rt, &core, &mut other, &known)?, true);
        check_alike(&rt, &core, &other, &known, true)?;
        make_steps(&rt, &mut core, 1);
        make_steps(&rt, &mut other, 1);
        check_alike(&rt, &core, &other, &known, true)?;
    }
    Ok(())
}

/// Writes the words of a state's board and memory.
fn write_both(
    alloc: Global,
    core: &Core,
    boot: &Core,
    board: &mut Vec<u32>,
    memory: &mut Vec<u32>,
) -> Result<(), Fail> {
    write_board(core, board)?;
    if boot.memory().len() == core.memory().len() {
        write_by_addresses(alloc, core, boot.memory(), memory)?;
    }
    Ok(())
}

/// Makes a state's board and memory those with these words, if it can be.
fn read_both(
    alloc: Global,
    core: &mut Core,
    boot: &Core,
    board: &[u32],
    memory: &[u32],
    addresses: &mut Vec<u32>,
) -> Result<(), AllocError> {
    if board.len() >= 11 + 68 * core.processors() as usize {
        read_board(core, board);
    }
    if boot.memory().len() == core.memory().len() && boot.memory().len() % 4 == 0 {
        find_addresses(alloc, core, boot.memory(), addresses)?;
        read_memory(core, boot.memory(), addresses, memory);
    }
    Ok(())
}

/// Fails the test where another state, with the words of a state's board and memory, has others.
fn check_comes_back(
    rt: &(impl Abort + AllocGlobal),
    core: &Core,
    other: &mut Core,
    boot: &Core,
) -> Result<(), Fail> {
    let mut board = Vec::new(rt.alloc());
    let mut memory = Vec::new(rt.alloc());
    let mut boards = Vec::new(rt.alloc());
    let mut memories = Vec::new(rt.alloc());
    let mut addresses = Vec::new(rt.alloc());
    write_both(rt.alloc(), core, boot, &mut board, &mut memory)?;
    read_both(rt.alloc(), other, boot, &board, &memory, &mut addresses)?;
    write_both(rt.alloc(), other, boot, &mut boards, &mut memories)?;
    same(rt, boards.as_slice() == board.as_slice(), true);
    same(rt, memories.as_slice() == memory.as_slice(), true);
    Ok(())
}

#[test]
fn the_board_and_memory_come_back(rt: HostRuntime) -> Result<(), Fail> {
    for steps in STEPS.iter() {
        let mut core = booted(&rt, &BOARD)?;
        let mut other = booted(&rt, &STORES)?;
        let boot = booted(&rt, &BOARD)?;
        make_steps(&rt, &mut core, *steps);
        make_steps(&rt, &mut other, 5);
        same(&rt, core.key(65).is_ok(), true);
        same(&rt, core.key(255).is_ok(), true);
        same(&rt, other.key(66).is_ok(), true);
        check_comes_back(&rt, &core, &mut other, &boot)?;
        check_comes_back(&rt, &boot, &mut other, &core)?;
    }
    Ok(())
}

/// Words of a processor that are past its bounds: a place, and the first word there that is.
static PAST: [(usize, u32); 8] = [
    (0, 1), // register 0
    (39, 64), // Random
    (49, 4), // CE
    (50, 256), // ExcCode
    (52, 4), // software's bits of IP
    (53, 1 << 20), // row 0's page
    (243, 1 << 20), // row 63's frame
    (244, 1 << 10), // its identifier and flags
];

/// Fails the test where words, but for one, aren't found to be past their bounds.
fn check_past(rt: &impl Abort, words: &mut [u32], place: usize, word: u32) {
    if words.len() == 245 && place < words.len() {
        let before = words[place];
        same(rt, is_bounded(words), true);
        words[place] = word;
        same(rt, is_bounded(words), false);
        words[place] = before;
    }
}

#[test]
fn words_of_a_processor_have_bounds(rt: HostRuntime) -> Result<(), Fail> {
    for steps in STEPS.iter() {
        let mut core = booted(&rt, &READS)?;
        make_steps(&rt, &mut core, *steps);
        let mut words = Vec::new(rt.alloc());
        if core.processors() > 0 {
            write_processor(&core, &known_of(true, true), 0, &mut words)?;
        }
        same(&rt, words.len(), 245);
        for (place, word) in PAST.iter() {
            check_past(&rt, &mut words, *place, *word);
        }
        check_past(&rt, &mut words, 39, 7);
    }
    Ok(())
}

#[test]
fn words_of_a_board_have_bounds(rt: HostRuntime) -> Result<(), Fail> {
    let mut core = booted(&rt, &BOARD)?;
    make_steps(&rt, &mut core, 7);
    same(&rt, core.key(255).is_ok(), true);
    let mut words = Vec::new(rt.alloc());
    write_board(&core, &mut words)?;
    same(&rt, words.len(), 148);
    if words.len() == 148 {
        same(&rt, is_board_bounded(&words, 2), true);
        words[147] = 256;
        same(&rt, is_board_bounded(&words, 2), false);
        words[147] = 255;
        words[6] = 256;
        same(&rt, is_board_bounded(&words, 2), false);
    }
    Ok(())
}
