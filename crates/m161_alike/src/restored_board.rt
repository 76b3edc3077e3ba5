//! The board and the links, made anew from the words of a view.

ghost use Rattle.std.specs.Prelude.{◌≡◌, ◌+◌, ◌*◌, ◌<◌, ◌≤◌, length, take};
ghost use Rattle.m161_machine.specs.State.{State};
ghost use Rattle.m161_alike.specs.RestoredBoard.{AreWordsOfBoard, board_in, conflict_in, link_in, place_in, restored_board, waiting_in, with_board_of};

use m161_bus::{BoardParts, Console, ConsoleParts, IrqBits, PlaceParts};
use m161_machine::{Conflict, Core};
use m161_tlb::Tlb;

/// The words before those of processor 0's part.
const PARTS: usize = 11;

/// The words of a processor's part.
const PART: usize = 68;

/// The most bytes that wait.
const MOST_WAITING: usize = 256;

/// Makes the board, the links, and what switched a strict machine off those with these words, as
/// `write_board` writes them. The console has sent nothing then. Words that are those of no board are
/// brought within their bounds, and of bytes that wait the first 256 are taken. Does not allocate.
pub fn read_board<T: Tlb, D: Console>(core: &mut Core<T, D>, words: &[u32])
    requires { 11 + 68 * length core.old.state.processors ≤ length words.now }
    ensures state { core.new.state ≡ restored_board words.now core.old.state }
    ensures view { (s : State) → AreWordsOfBoard words.now s core.old.state
        → core.new.state ≡ with_board_of s core.old.state }
    ensures room { core.old.room ≤ core.new.room }
{
    core.law();
    put_board(core, words);
}

// The same, for any words.
fn put_board<T: Tlb, D: Console>(core: &mut Core<T, D>, words: &[u32])
    requires { 11 + 68 * length core.old.state.processors ≤ length words.now }
    ensures state { core.new.state ≡ restored_board words.now core.old.state }
    ensures room { core.old.room ≤ core.new.room }
{
    core.law();
    let first = PARTS + PART * core.processors() as usize;
    let mut bytes = [0u8; MOST_WAITING];
    let number = (words.len() - first).min(MOST_WAITING);
    copy_bytes(&words[first..first + number], &mut bytes);
    core.restore_board(&board_of(words), &bytes[..number], conflict_of(words));
    for p in 0..core.processors() {
        core.restore_place(p, &place_of(words, p), link_of(words, p));
    }
}

// Puts the low bytes of words before the bytes that are there.
fn copy_bytes(words: &[u32], bytes: &mut [u8; 256])
    requires { length words.now ≤ 256 }
    ensures first { take (length words.now) bytes.new ≡ waiting_in words.now }
    ensures length { length bytes.new ≡ 256 }
{
    for place in 0..words.len() {
        bytes[place] = (words[place] % 256) as u8;
    }
}

// The registers that are no processor's.
fn board_of(words: &[u32]) -> BoardParts
    requires { 11 ≤ length words.now }
    ensures { result ≡ board_in words.now }
{
    let read_irq = IrqBits::from_word(words[4]);
    BoardParts {
        irqe: words[0],
        started: words[1],
        off: words[2] == 1,
        console: ConsoleParts {
            latch: if words[5] == 1 {
                Some((words[6] % 256) as u8)
            } else {
                None
            },
            write_irq: IrqBits::from_word(words[3]),
            read_enable: read_irq.enable,
            read_force: read_irq.force,
        },
    }
}

// What switched a strict machine off.
fn conflict_of(words: &[u32]) -> Option<Conflict>
    requires { 11 ≤ length words.now }
    ensures { result ≡ conflict_in words.now }
{
    if words[7] == 1 {
        Some(Conflict {
            processor: words[8],
            row: (words[9] % 256) as u8,
            other: (words[10] % 256) as u8,
        })
    } else {
        None
    }
}

// What the controller keeps for a processor.
fn place_of(words: &[u32], p: u32) -> PlaceParts
    requires processor { p < 32 }
    requires words { 11 + 68 * (p + 1) ≤ length words.now }
    ensures { result ≡ place_in words.now p }
{
    let first = PARTS + PART * p as usize;
    let mut cram = [0; 64];
    cram.copy_from_slice(&words[first + 4..first + PART]);
    PlaceParts {
        cirqe: words[first],
        cipi: words[first + 1] == 1,
        cram,
    }
}

// A processor's link.
fn link_of(words: &[u32], p: u32) -> Option<u32>
    requires processor { p < 32 }
    requires words { 11 + 68 * (p + 1) ≤ length words.now }
    ensures { result ≡ link_in words.now p }
{
    let first = PARTS + PART * p as usize;
    if words[first + 2] == 1 {
        Some(words[first + 3])
    } else {
        None
    }
}
