//! A console by itself, and on its board.

use super::same;
use m161_bus::{Board, Console, ConsoleRegister};
use m161_console::{PlainConsole, RingConsole};
use std::alloc::AllocError;
use std::process::Abort;

/// Where a processor writes the byte that is to be sent.
const CHAR: u32 = 0x1fe0_0000;

/// Sends a byte, and says whether that went through.
fn send(rt: &impl Abort, board: &mut Board<PlainConsole>, byte: u32) -> bool {
    assert!(rt; board.processors() == 1);
    board.write(0, CHAR, byte).is_ok() && board.done().is_ok()
}

#[test]
fn console_room(rt: HostRuntime) -> Result<(), AllocError> {
    let mut board = Board::new(PlainConsole::fresh(rt.alloc())?, 4096, 1);
    // a byte is sent though no room was made for it
    same(&rt, send(&rt, &mut board, 0x41), true);

    board.reserve(3)?;
    let room = board.room();
    assert!(rt; room >= 3);
    // nothing is in the latch
    same(&rt, board.done().is_err(), true);
    same(&rt, board.room(), room);
    for (byte, left) in [(0x42, room - 1), (0x43, room - 2), (0x44, room - 3)] {
        same(&rt, send(&rt, &mut board, byte), true);
        same(&rt, board.room(), left);
    }

    let copy = board.copy(rt.alloc())?;
    same(&rt, copy.room() >= board.room(), true);
    same(&rt, copy.output() == b"ABCD".as_slice(), true);
    Ok(())
}

/// Types the bytes of a range, in order, and says whether each was taken.
fn type_bytes<D: Console + Drop>(console: &mut D, from: u32, to: u32) -> bool {
    for byte in from..to {
        if console.key((byte % 256) as u8).is_err() {
            return false;
        }
    }
    true
}

/// Reads the bytes of a range, in order.
fn read_bytes<D: Console + Drop>(rt: &impl Abort, console: &mut D, from: u32, to: u32) {
    for byte in from..to {
        same(rt, console.read(ConsoleRegister::Char), byte);
    }
}

/// Keys that go round in a ring of 256 places.
fn go_round<D: Console + Drop>(rt: &(impl Abort + AllocGlobal)) -> Result<(), AllocError> {
    let mut console = D::fresh(rt.alloc())?;
    same(rt, type_bytes(&mut console, 0, 256), true);
    read_bytes(rt, &mut console, 0, 200);
    same(rt, type_bytes(&mut console, 0, 200), true);
    read_bytes(rt, &mut console, 200, 256);
    read_bytes(rt, &mut console, 0, 200);
    same(rt, console.read(ConsoleRegister::Char), 0);
    Ok(())
}

#[test]
fn ring_of_keys(rt: HostRuntime) -> Result<(), AllocError> {
    go_round::<PlainConsole>(&rt)?;
    go_round::<RingConsole>(&rt)
}
