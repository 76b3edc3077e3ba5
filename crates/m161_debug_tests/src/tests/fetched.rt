//! Instructions as a processor would fetch them, and where the processors are.

use super::same;
use super::sessions::Act::{Does, Fails};
use super::sessions::{Act, LOOP, Scene, Session, check_kernel, check_scenes, session};
use m161_debug::CommandError::{BadArgument, BadProcessor};
use std::process::Abort;
use std::test::Fail;

/// Waits: `wait`, `nop`.
const WAIT: &[u32] = &[0x4200_0020, 0x0000_0000];

/// Goes to an address that no row maps: `lui $8, 0x0040`, `jr $8`, `nop`.
const AWAY: &[u32] = &[0x3c08_0040, 0x0100_0008, 0x0000_0000];

/// Goes to user mode: `ori $8, $0, 0x003c`, `mtc0 $8, $12`, `rfe`.
const USER: &[u32] = &[0x3408_003c, 0x4088_6000, 0x4200_0010];

/// Where the kernel's processors are.
static OF_KERNEL: [Act; 5] = [
    Does("w", 0, "0 running 80000200 3c088000 lui $8, 0x8000\n"),
    Does("g 27", 27, "end 27\n"),
    Does(
        "w",
        0,
        "0 running 8000022c 8d0f300c lw $15, 12300($8)\n\
         1 running 800002a0 8d2b0000 lw $11, 0($9)\n",
    ),
    Fails("w 0", BadArgument),
    Fails("w ", BadArgument),
];

/// Where a processor is that waits, or that can't fetch.
static PLACES: [Scene; 3] = [
    Scene {
        words: WAIT,
        processors: 2,
        events: &[],
        acts: &[
            Does("s 0 3", 0, "end 3\n"),
            Does("w", 0, "0 waiting 80000204 00000000 nop\n"),
        ],
        made: 3,
    },
    Scene {
        words: AWAY,
        processors: 1,
        events: &[],
        acts: &[
            Does("s 0 3", 0, "end 3\n"),
            Does("w", 0, "0 running 00400000 -\n"),
        ],
        made: 3,
    },
    Scene {
        words: USER,
        processors: 1,
        events: &[],
        acts: &[
            Does(
                "x 80000200 1 0",
                0,
                "80000200 3408003c ori $8, $0, 0x003c\n",
            ),
            Does("s 0 3", 0, "end 3\n"),
            Does("w", 0, "0 running 8000020c -\n"),
            Fails("x 80000200 1 0", BadArgument),
            Does("x 80000200 1", 0, "80000200 3408003c ori $8, $0, 0x003c\n"),
        ],
        made: 3,
    },
];

/// The page that the kernel moves, as its processors would fetch it.
static PAGE: [Act; 15] = [
    Fails("x 400000 1 1", BadArgument),
    Does("g 27", 27, "end 27\n"),
    Does(
        "x 400000 2 1",
        0,
        "00400000 00000000 nop\n00400004 00000000 nop\n",
    ),
    Fails("x 400000 1 0", BadArgument),
    Fails("x 400000 1 2", BadProcessor),
    Fails("x 400002 1 2", BadArgument),
    Fails("x 400000 0 1", BadArgument),
    Fails("x 400000 1025 1", BadArgument),
    Fails("x 400000 1025 2", BadArgument),
    Does("x 400ffc 1 1", 0, "00400ffc 00000000 nop\n"),
    Fails("x 400ffc 2 1", BadArgument),
    Does("g 41", 41, "end 41\n"),
    // the page is in another frame, where a word is 7
    Does("x 0x00400000 1 1", 0, "00400000 00000007 srav $0, $0, $0\n"),
    Does("x 80006000 1 0", 0, "80006000 00000007 srav $0, $0, $0\n"),
    Does(
        "x a0000248 1 0",
        0,
        "a0000248 11e0fffe beq $15, $0, 0xa0000244\n",
    ),
];

/// The end of RAM, and that of addresses.
static ENDS: [Scene; 1] = [Scene {
    words: LOOP,
    processors: 1,
    events: &[],
    acts: &[
        Does("x 80000ffc 1 0", 0, "80000ffc 00000000 nop\n"),
        Fails("x 80000ffc 2 0", BadArgument),
        Fails("x fffffffc 1 0", BadArgument),
        Fails("x fffffffc 2 0", BadArgument),
        Fails("x 200 1 0", BadArgument),
        Fails("x 80000200 1 0 0", BadArgument),
        Fails("x 80000200 1 ", BadArgument),
        Fails("x 80000200", BadArgument),
    ],
    made: 0,
}];

/// Addresses, how many instructions of `LOOP` are shown from there on, and their text: also where
/// processor 0 can't fetch, of which no command shows anything.
static SHOWN: [(u32, u32, &str); 5] = [
    (
        0x8000_0200,
        2,
        "80000200 25080001 addiu $8, $8, 1\n80000204 1000fffe beq $0, $0, 0x80000200\n",
    ),
    (0x8000_0ffc, 2, "80000ffc 00000000 nop\n80001000 -\n"),
    (0x8000_0202, 1, "80000202 -\n"),
    (0xffff_fff8, 2, "fffffff8 -\nfffffffc -\n"),
    (0x0000_0200, 0, ""),
];

fn check_fetched(
    rt: &impl Abort,
    session: &Session,
    address: u32,
    n: u32,
    expected: &str,
) -> Result<(), Fail> {
    assert!(rt; session.machine().processors() > 0);
    assert!(rt; u64::from(address) + 4 * u64::from(n) <= 0x1_0000_0000);
    let shown = session.show_fetched(0, address, n)?;
    same(rt, shown.as_str(), expected);
    Ok(())
}

#[test]
fn displays_by_their_calls(rt: HostRuntime) -> Result<(), Fail> {
    let session = session(rt.alloc(), LOOP, 2, 100)?;
    for (address, n, expected) in &SHOWN {
        check_fetched(&rt, &session, *address, *n, expected)?;
    }
    let shown = session.show_where()?;
    let line = "0 running 80000200 25080001 addiu $8, $8, 1\n";
    same(&rt, shown.as_str(), line);
    Ok(())
}

#[test]
fn places_of_the_kernel(rt: HostRuntime) -> Result<(), Fail> {
    check_kernel(&rt, &OF_KERNEL, 27)
}

#[test]
fn places(rt: HostRuntime) -> Result<(), Fail> {
    check_scenes(&rt, &PLACES)
}

#[test]
fn code_through_the_tlb(rt: HostRuntime) -> Result<(), Fail> {
    check_kernel(&rt, &PAGE, 68)
}

#[test]
fn code_at_the_end(rt: HostRuntime) -> Result<(), Fail> {
    check_scenes(&rt, &ENDS)
}
