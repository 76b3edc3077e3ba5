//! A processor by itself, over its memory.

use super::same;
use m161_bus::{Board, Console};
use m161_console::PlainConsole;
use m161_cop0::Exception;
use m161_cpu::{Cpu, Links, Outcome, ProcessorState};
use m161_isa::{LinkUnit, Reg};
use m161_ram::Ram;
use m161_tlb_scan::Scan;
use std::alloc::AllocError;
use std::process::Abort;

/// What a processor shows beside its registers: its state, count and slot; pc, HI and LO.
fn status_of(cpu: &Cpu<Scan>) -> (ProcessorState, u64, bool, [u32; 3]) {
    let words = [cpu.pc(), cpu.hi(), cpu.lo()];
    (cpu.state(), cpu.count(), cpu.in_slot(), words)
}

/// Its registers.
fn registers(cpu: &Cpu<Scan>) -> [u32; 32] {
    let mut words = [0; 32];
    for r in 0..32u8 {
        words[usize::from(r)] = cpu.reg(Reg::new(r));
    }
    words
}

/// One Step of a processor that has made few, as processor 0 of its board.
fn step(
    rt: &impl Abort,
    cpu: &mut Cpu<Scan>,
    ram: &mut Ram,
    board: &mut Board<PlainConsole>,
    links: &mut Links,
) -> Outcome {
    assert!(rt; cpu.count() < 100);
    assert!(rt; board.processors() == 1);
    assert!(rt; ram.size() == 4096);
    cpu.step(0, ram, board, links, false)
}

#[test]
fn one_processor(rt: HostRuntime) -> Result<(), AllocError> {
    // addiu $8, $4, 1; lw $8, 0($29); lw $8, 1($29)
    let mut ram = Ram::new(rt.alloc(), 4096)?;
    ram.set_word(0x200, 0x2488_0001);
    ram.set_word(0x204, 0x8fa8_0000);
    ram.set_word(0x208, 0x8fa8_0001);
    let console = PlainConsole::fresh(rt.alloc())?;
    let mut board = Board::new(console, 4096, 1);
    let mut links = Links::new(LinkUnit::Word);
    let mut expected = [0; 32];

    let mut cpu = Cpu::new();
    let stopped = (ProcessorState::Stopped, 0, false, [0; 3]);
    same(&rt, status_of(&cpu), stopped);
    let outcome = step(&rt, &mut cpu, &mut ram, &mut board, &mut links);
    same(&rt, outcome, Outcome::Idle);
    let counted = (ProcessorState::Stopped, 1, false, [0; 3]);
    same(&rt, status_of(&cpu), counted);
    same(&rt, registers(&cpu), expected);

    cpu.start(0x8000_0200, 0x11, 0xbfff_8000);
    expected[4] = 0x11;
    expected[29] = 0xbfff_8000;
    let start = [0x8000_0200, 0, 0];
    same(
        &rt,
        status_of(&cpu),
        (ProcessorState::Running, 1, false, start),
    );
    same(&rt, registers(&cpu), expected);

    // the first word; then its mask of bus lines, all set at boot; then a misaligned address
    let trapped = Outcome::Trapped {
        code: Exception::AddressErrorLoad,
        vector: 0x8000_0080,
    };
    for (outcome, word, pc) in [
        (Outcome::Ran, 0x12, 0x8000_0204),
        (Outcome::Ran, 0xffff_ffff, 0x8000_0208),
        (trapped, 0xffff_ffff, 0x8000_0080),
    ] {
        let found = step(&rt, &mut cpu, &mut ram, &mut board, &mut links);
        same(&rt, (pc, found), (pc, outcome));
        expected[8] = word;
        same(&rt, registers(&cpu), expected);
        same(&rt, (pc, cpu.pc()), (pc, pc));
    }
    let end = [0x8000_0080, 0, 0];
    same(
        &rt,
        status_of(&cpu),
        (ProcessorState::Running, 4, false, end),
    );
    Ok(())
}
