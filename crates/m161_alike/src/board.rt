//! The words of the board, of the links, and of what switched a strict machine off.

ghost use Rattle.std.specs.Prelude.{◌≡◌, ◌<◌, ◌++◌, flat_map, length, OnOk, OnErr};
ghost use Rattle.std.specs.List.{range_with_len};
ghost use Rattle.m161_bus.specs.Board.{place_of};
ghost use Rattle.m161_alike.specs.Words.{board_words, conflict_words, cram_words, optional, part_words, register_board_words};
ghost use Rattle.m161_alike.specs.helpers.Words.{Begins};

use m161_bus::{BoardWord, Console};
use m161_machine::{Conflict, Core};
use m161_tlb::Tlb;
use std::alloc::AllocError;

/// Writes the words of the board behind the words that are there, and of the links, and of what
/// switched a strict machine off. What the console has sent isn't among them.
///
/// # Errors
/// Memory is refused. Nothing is changed then.
pub fn write_board<T: Tlb, D: Console>(
    core: &Core<T, D>,
    out: &mut Vec<u32>,
) -> Result<(), AllocError>
    ensures ok { OnOk result (out.new.items ≡ out.old.items ++ board_words core.now.state) }
    ensures err { OnErr result (out.new.items ≡ out.old.items) }
{
    let before = out.len();
    match push_board(core, out) {
        Ok(()) => Ok(()),
        Err(error) => {
            out.truncate(before);
            Err(error)
        }
    }
}

// The same; after an error some of the words are there.
#[tactic(auto, using(crate::proofs::Written::begins_more))]
fn push_board<T: Tlb, D: Console>(core: &Core<T, D>, out: &mut Vec<u32>) -> Result<(), AllocError>
    ensures ok { OnOk result (out.new.items ≡ out.old.items ++ board_words core.now.state) }
    ensures err { OnErr result (Begins out.old.items out.new.items) }
{
    push_registers(core, out)?;
    out.extend_from_slice(&optional(match core.latch() {
        Some(byte) => Some(u32::from(byte)),
        None => None,
    }))?;
    out.extend_from_slice(&conflict(core.conflict()))?;
    push_parts(core, out)?;
    push_waiting(core, out)?;
    Ok(())
}

// The registers that are no processor's.
fn push_registers<T: Tlb, D: Console>(
    core: &Core<T, D>,
    out: &mut Vec<u32>,
) -> Result<(), AllocError>
    ensures ok { OnOk result (out.new.items ≡ out.old.items ++ register_board_words core.now.state.board) }
    ensures err { OnErr result (out.new.items ≡ out.old.items) }
{
    out.extend_from_slice(&[
        core.board_word(BoardWord::Irqe),
        core.board_word(BoardWord::Cpue),
        u32::from(core.is_off()),
        core.board_word(BoardWord::WriteIrq),
        core.board_word(BoardWord::ReadIrq),
    ])
}

// A part that may be missing.
fn optional(part: Option<u32>) -> [u32; 2]
    ensures { result ≡ optional part }
{
    match part {
        Some(word) => [1, word],
        None => [0, 0],
    }
}

// What switched a strict machine off.
fn conflict(conflict: Option<Conflict>) -> [u32; 4]
    ensures { result ≡ conflict_words conflict }
{
    match conflict {
        Some(c) => [1, c.processor, u32::from(c.row), u32::from(c.other)],
        None => [0, 0, 0, 0],
    }
}

// What the controller keeps for each processor, and the links.
#[tactic(auto, using(crate::proofs::Written::begins_more))]
fn push_parts<T: Tlb, D: Console>(core: &Core<T, D>, out: &mut Vec<u32>) -> Result<(), AllocError>
    ensures ok { OnOk result (out.new.items ≡ out.old.items
        ++ flat_map (part_words core.now.state) (range_with_len 0 core.now.state.board.processors)) }
    ensures err { OnErr result (Begins out.old.items out.new.items) }
{
    core.law();
    for p in 0..core.processors() {
        push_part(core, p, out)?;
    }
    Ok(())
}

// One of these parts.
#[tactic(auto, using(crate::proofs::Written::begins_more))]
fn push_part<T: Tlb, D: Console>(
    core: &Core<T, D>,
    p: u32,
    out: &mut Vec<u32>,
) -> Result<(), AllocError>
    requires { p < length core.now.state.processors }
    ensures ok { OnOk result (out.new.items ≡ out.old.items ++ part_words core.now.state p) }
    ensures err { OnErr result (Begins out.old.items out.new.items) }
{
    core.law();
    out.extend_from_slice(&[
        core.board_word(BoardWord::Cirqe(p)),
        core.board_word(BoardWord::Cipi(p)),
    ])?;
    out.extend_from_slice(&optional(core.link(p)))?;
    out.extend_from_slice(&cram(core, p))?;
    Ok(())
}

// The words of a processor's CRAM.
fn cram<T: Tlb, D: Console>(core: &Core<T, D>, p: u32) -> [u32; 64]
    requires { p < core.now.state.board.processors }
    ensures { result ≡ cram_words (place_of p core.now.state.board) }
{
    let mut words = [0; 64];
    for i in 0..64u32 {
        words[i as usize] = core.board_word(BoardWord::Cram(p, i));
    }
    words
}

// The typed bytes that wait.
fn push_waiting<T: Tlb, D: Console>(core: &Core<T, D>, out: &mut Vec<u32>) -> Result<(), AllocError>
    ensures ok { OnOk result (out.new.items ≡ out.old.items ++ core.now.state.board.console.waiting) }
    ensures err { OnErr result (Begins out.old.items out.new.items) }
{
    for place in 0..core.waiting() {
        out.extend_from_slice(&[u32::from(core.waiting_byte(place))])?;
    }
    Ok(())
}
