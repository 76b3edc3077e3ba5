//! Files, and what they load as in 4,096 bytes of RAM.

use super::listing::Left::{Count, Entries, Memory, NoMemory, Pc, Register};
use super::listing::{Left, compare, make};
use super::same;
use m161_asm::assemble;
use m161_bus::Console;
use m161_console::{PlainConsole, RingConsole};
use m161_elf::{LoadError, load};
use m161_elf_writer::write;
use m161_machine::Event::Step;
use m161_machine::{Machine, Refusal};
use m161_ram::Ram;
use m161_test_support::files::{
    ADDRESS, CLASS, ENTRY, FILE_SIZE, HEADER_COUNT, HEADERS, IMAGE, MEMORY_SIZE, OFFSET, PROGRAM,
    TYPE, file_of,
};
use m161_test_support::outcomes::{ENTRY as START, OFF, RAN, SMALLEST, Times};
use m161_tlb::Tlb;
use m161_tlb_index::Index;
use m161_tlb_scan::Scan;
use std::alloc::{AllocError, Global};
use std::process::Abort;
use std::test::Fail;

/// A program header, and the bytes that it has in the file.
#[derive(Drop)]
struct Part {
    kind: u32,
    address: u32,
    memory_size: u32,
    bytes: &'static [u8],
}

/// The types of program headers: a segment, and a note.
const SEGMENT: u32 = 1;

const NOTE: u32 = 4;

/// A file that begins at `START`, with these program headers, and after them their bytes.
fn file_of_parts(alloc: Global, parts: &[Part]) -> Result<Vec<u8>, Fail> {
    let count = u32::try_from(parts.len())?;
    let mut file = Vec::new(alloc);
    for (place, word) in HEADERS.iter().take(13).enumerate() {
        let word = match place {
            ENTRY => START,
            HEADER_COUNT => count << 16,
            _ => *word,
        };
        file.extend_from_slice(&word.to_be_bytes())?;
    }
    let mut offset = count.wrapping_mul(32).wrapping_add(52);
    for part in parts {
        let size = u32::try_from(part.bytes.len())?;
        for word in [
            part.kind,
            offset,
            part.address,
            part.address,
            size,
            part.memory_size,
            7,
            4,
        ] {
            file.extend_from_slice(&word.to_be_bytes())?;
        }
        offset = offset.wrapping_add(size);
    }
    for part in parts {
        file.extend_from_slice(part.bytes)?;
    }
    Ok(file)
}

/// Where the first bytes of the demo's file begin, with some words of its headers changed.
fn entry_of(
    alloc: Global,
    edits: &[(usize, u32)],
    length: usize,
) -> Result<Result<u32, LoadError>, AllocError> {
    let mut file = file_of(alloc, edits, &PROGRAM)?;
    file.truncate(length);
    Ok(load(alloc, &file, 4096).map(|image| image.entry))
}

/// Whether the first `length` bytes of the demo's segment are at 0x200 when its file is loaded with
/// some words of its headers changed, and how many bytes of memory aren't zero.
fn load_edited(
    alloc: Global,
    edits: &[(usize, u32)],
    length: usize,
) -> Result<(bool, usize), Fail> {
    let file = file_of(alloc, edits, &PROGRAM)?;
    let memory = load(alloc, &file, 4096)?.bytes;
    let stands = memory
        .iter()
        .skip(0x200)
        .zip(file.iter().skip(84).take(length))
        .all(|(a, b)| a == b);
    Ok((stands, memory.iter().filter(|byte| **byte != 0).count()))
}

#[test]
fn image_refusals(rt: HostRuntime) -> Result<(), Fail> {
    type Loaded = Result<u32, (u8, &'static str)>;
    let loaded: Loaded = Ok(0x8000_0200);
    let cases: [(&[(usize, u32)], usize, Loaded); 14] = [
        (&[], 112, loaded),
        (&[(FILE_SIZE, 8), (MEMORY_SIZE, 8)], 92, loaded),
        (
            &[(FILE_SIZE, 8), (MEMORY_SIZE, 8)],
            51,
            Err((1, "Truncated")),
        ),
        (&[(CLASS, 0x0202_0100)], 112, Err((2, "NotElf32Big"))),
        (&[(TYPE, 0x0001_0008)], 112, Err((3, "NotExecutable"))),
        (&[(TYPE, 0x0002_0003)], 112, Err((4, "NotMips"))),
        (
            &[(HEADER_COUNT, 0xffff_0000)],
            112,
            Err((5, "BadHeaderTable")),
        ),
        (
            &[(OFFSET, 0xffff_fff0), (FILE_SIZE, 0x20)],
            112,
            Err((6, "SegmentOutsideFile")),
        ),
        (
            &[(ADDRESS, 0x8000_0ffd), (FILE_SIZE, 0), (MEMORY_SIZE, 4)],
            112,
            Err((7, "SegmentOutsideRam")),
        ),
        (
            &[(ADDRESS, 0x9fff_fffc), (FILE_SIZE, 0), (MEMORY_SIZE, 8)],
            112,
            Err((7, "SegmentOutsideRam")),
        ),
        (
            &[(FILE_SIZE, 8), (MEMORY_SIZE, 4)],
            112,
            Err((8, "FileLargerThanMemory")),
        ),
        (&[(ENTRY, 0x8000_0202)], 112, Err((9, "BadEntry"))),
        (
            &[(ADDRESS, 0xffff_ffff), (FILE_SIZE, 0), (MEMORY_SIZE, 0)],
            112,
            loaded,
        ),
        (&[(ADDRESS, 0xa000_0200)], 112, loaded),
    ];
    for &(edits, length, expected) in &cases {
        let found = entry_of(rt.alloc(), edits, length)?;
        let found = found.map_err(|error| (error.number(), error.name()));
        same(&rt, (edits, length, found), (edits, length, expected));
    }
    Ok(())
}

/// A file with several program headers that is accepted, what is done then, and what is left.
struct Accepted {
    name: &'static str,
    parts: &'static [Part],
    /// The word at 0x200 after boot.
    word: u32,
    events: &'static [Times],
    left: &'static [(u32, Left)],
}

/// `lui $8, 0xbfff`; `sw $0, 32264($8)`.
const POWER_OFF: Part = Part {
    kind: SEGMENT,
    address: START,
    memory_size: 8,
    bytes: &[0x3c, 0x08, 0xbf, 0xff, 0xad, 0x00, 0x7e, 0x08],
};

/// The events of `power-off`.
const TWO_STEPS: &[Times] = &[
    (Step(0), 1, RAN),
    (Step(0), 1, OFF),
    (Step(0), 1, Err(Refusal::Off)),
];

const SWITCHED_OFF: &[(u32, Left)] = &[
    (0, Count(2)),
    (0, Entries(2)),
    (0, Pc(0x8000_0208)),
    (0, Register(8, 0xbfff_0000)),
];

static ACCEPTED: [Accepted; 11] = [
    Accepted {
        name: "image-refusals: the later of two segments",
        parts: &[
            Part {
                kind: SEGMENT,
                address: START,
                memory_size: 4,
                bytes: &[0x11, 0x22, 0x33, 0x44],
            },
            Part {
                kind: SEGMENT,
                address: 0xa000_0202,
                memory_size: 2,
                bytes: &[0x55],
            },
        ],
        word: 0x1122_5500,
        events: &[],
        left: &[(0, Memory(0x204, 0)), (0, Pc(START)), (0, Entries(0))],
    },
    Accepted {
        name: "image-refusals: a note before a segment",
        parts: &[
            Part {
                kind: NOTE,
                address: 0,
                memory_size: 4,
                bytes: &[0x6e, 0x6f, 0x74, 0x65],
            },
            POWER_OFF,
        ],
        word: 0x3c08_bfff,
        events: TWO_STEPS,
        left: SWITCHED_OFF,
    },
    Accepted {
        name: "image-refusals: a note after a segment, at its address",
        parts: &[
            POWER_OFF,
            Part {
                kind: NOTE,
                address: START,
                memory_size: 0,
                bytes: &[0x6e, 0x6f, 0x74, 0x65],
            },
        ],
        word: 0x3c08_bfff,
        events: TWO_STEPS,
        left: SWITCHED_OFF,
    },
    Accepted {
        name: "no program header",
        parts: &[],
        word: 0,
        events: &[(Step(0), 1, RAN)],
        left: &[(0, Memory(0, 0)), (0, Pc(0x8000_0204))],
    },
    Accepted {
        name: "two-views",
        parts: &[
            Part {
                kind: SEGMENT,
                address: START,
                memory_size: 4,
                bytes: &[0x11, 0x11, 0x11, 0x11],
            },
            Part {
                kind: SEGMENT,
                address: 0xa000_0200,
                memory_size: 4,
                bytes: &[0x22, 0x22, 0x22, 0x22],
            },
        ],
        word: 0x2222_2222,
        events: &[],
        left: &[(0, Memory(0x204, 0)), (0, Pc(START))],
    },
    Accepted {
        name: "the later segment covers the earlier one whole",
        parts: &[
            Part {
                kind: SEGMENT,
                address: 0xa000_0201,
                memory_size: 2,
                bytes: &[0x55, 0x66],
            },
            Part {
                kind: SEGMENT,
                address: START,
                memory_size: 8,
                bytes: &[0x11, 0x22, 0x33, 0x44],
            },
        ],
        word: 0x1122_3344,
        events: &[],
        left: &[(0, Memory(0x204, 0))],
    },
    // Bytes 2 to 5 of the first one are the second one's, but byte 4 is the third one's.
    Accepted {
        name: "three segments, each over a part of the one before",
        parts: &[
            Part {
                kind: SEGMENT,
                address: START,
                memory_size: 8,
                bytes: &[0x11, 0x12, 0x13, 0x14, 0x15, 0x16, 0x17, 0x18],
            },
            Part {
                kind: SEGMENT,
                address: 0x8000_0202,
                memory_size: 4,
                bytes: &[0x55],
            },
            Part {
                kind: SEGMENT,
                address: 0xa000_0204,
                memory_size: 1,
                bytes: &[0x66],
            },
        ],
        word: 0x1112_5500,
        events: &[],
        left: &[(0, Memory(0x204, 0x6600_1718))],
    },
    Accepted {
        name: "one segment's end is the next one's beginning",
        parts: &[
            Part {
                kind: SEGMENT,
                address: START,
                memory_size: 6,
                bytes: &[0x11, 0x12, 0x13, 0x14, 0x15, 0x16],
            },
            Part {
                kind: SEGMENT,
                address: 0x8000_0206,
                memory_size: 2,
                bytes: &[0x55, 0x56],
            },
        ],
        word: 0x1112_1314,
        events: &[],
        left: &[(0, Memory(0x204, 0x1516_5556)), (0, Memory(0x208, 0))],
    },
    Accepted {
        name: "segments up to the end of RAM, in kseg0 and kseg1",
        parts: &[
            POWER_OFF,
            Part {
                kind: SEGMENT,
                address: 0x8000_0ff8,
                memory_size: 8,
                bytes: &[0x11],
            },
            Part {
                kind: SEGMENT,
                address: 0xa000_0ffc,
                memory_size: 4,
                bytes: &[0x21, 0x22, 0x23, 0x24],
            },
        ],
        word: 0x3c08_bfff,
        events: TWO_STEPS,
        left: &[
            (0, Memory(0xff8, 0x1100_0000)),
            (0, Memory(0xffc, 0x2122_2324)),
            (0, NoMemory(0x1000)),
        ],
    },
    Accepted {
        name: "damaged-headers: a segment of no bytes, at an address outside RAM",
        parts: &[
            POWER_OFF,
            Part {
                kind: SEGMENT,
                address: 0xffff_ffff,
                memory_size: 0,
                bytes: &[],
            },
        ],
        word: 0x3c08_bfff,
        events: TWO_STEPS,
        left: SWITCHED_OFF,
    },
    Accepted {
        name: "a segment that is zero",
        parts: &[
            POWER_OFF,
            Part {
                kind: SEGMENT,
                address: 0x8000_0204,
                memory_size: 4,
                bytes: &[],
            },
        ],
        word: 0x3c08_bfff,
        events: &[(Step(0), 2, RAN)],
        left: &[(0, Memory(0x204, 0)), (0, Pc(0x8000_0208))],
    },
];

/// A file boots to a machine with this word at 0x200, which makes the events.
fn accepted_over<T: Tlb + Drop, D: Console + Drop>(
    rt: &(impl Abort + AllocGlobal),
    name: &str,
    file: &[u8],
    word: u32,
    events: &[Times],
    left: &[(u32, Left)],
) -> Result<(), Fail> {
    let mut machine: Machine<T, D> = Machine::boot(rt.alloc(), file, SMALLEST)?;
    let found = machine.word(0x200);
    same(rt, (name, found), (name, Some(word)));
    make(rt, name, &mut machine, events)?;
    compare(rt, name, &machine, left);
    Ok(())
}

/// The same over each TLB with each console.
fn check_accepted(
    rt: &(impl Abort + AllocGlobal),
    name: &str,
    file: &[u8],
    word: u32,
    events: &[Times],
    left: &[(u32, Left)],
) -> Result<(), Fail> {
    accepted_over::<Scan, PlainConsole>(rt, name, file, word, events, left)?;
    accepted_over::<Scan, RingConsole>(rt, name, file, word, events, left)?;
    accepted_over::<Index, PlainConsole>(rt, name, file, word, events, left)?;
    accepted_over::<Index, RingConsole>(rt, name, file, word, events, left)
}

#[test]
fn image_refusals_accepted(rt: HostRuntime) -> Result<(), Fail> {
    for row in &ACCEPTED {
        let file = file_of_parts(rt.alloc(), row.parts)?;
        check_accepted(&rt, row.name, &file, row.word, row.events, row.left)?;
    }
    Ok(())
}

/// The demo's file with other words in its headers, and how many of its bytes are there; the word
/// at 0x200, and what its first Steps leave.
struct Edited {
    name: &'static str,
    edits: &'static [(usize, u32)],
    length: usize,
    word: u32,
    events: &'static [Times],
    left: &'static [(u32, Left)],
}

/// What the demo leaves.
const DEMO_LEFT: &[(u32, Left)] = &[
    (0, Register(12, 0x1234_5677)),
    (0, Memory(0x400, 0x1234_5677)),
    (0, Pc(0x8000_021c)),
];

static EDITED: [Edited; 6] = [
    Edited {
        name: "the demo",
        edits: &[],
        length: 112,
        word: 0x3c08_1234,
        events: &[(Step(0), 7, RAN)],
        left: DEMO_LEFT,
    },
    Edited {
        name: "the demo by kseg1",
        edits: &[(ADDRESS, 0xa000_0200)],
        length: 112,
        word: 0x3c08_1234,
        events: &[(Step(0), 7, RAN)],
        left: DEMO_LEFT,
    },
    Edited {
        name: "the demo begins in kseg1",
        edits: &[(ENTRY, 0xa000_0200)],
        length: 112,
        word: 0x3c08_1234,
        events: &[(Step(0), 7, RAN)],
        left: &[
            (0, Register(12, 0x1234_5677)),
            (0, Memory(0x400, 0x1234_5677)),
            (0, Pc(0xa000_021c)),
        ],
    },
    Edited {
        name: "the first two words of the demo",
        edits: &[(FILE_SIZE, 8), (MEMORY_SIZE, 8)],
        length: 92,
        word: 0x3c08_1234,
        events: &[(Step(0), 3, RAN)],
        left: &[
            (0, Register(8, 0x1234_5678)),
            (0, Register(9, 0)),
            (0, Pc(0x8000_020c)),
        ],
    },
    Edited {
        name: "damaged-headers: no program header",
        edits: &[(HEADER_COUNT, 0)],
        length: 112,
        word: 0,
        events: &[(Step(0), 1, RAN)],
        left: &[(0, Pc(0x8000_0204)), (0, Memory(0x218, 0))],
    },
    Edited {
        name: "damaged-headers: no bytes, at an address outside RAM",
        edits: &[(ADDRESS, 0xffff_ffff), (FILE_SIZE, 0), (MEMORY_SIZE, 0)],
        length: 112,
        word: 0,
        events: &[(Step(0), 1, RAN)],
        left: &[(0, Pc(0x8000_0204)), (0, Memory(0x218, 0))],
    },
];

#[test]
fn accepted_headers(rt: HostRuntime) -> Result<(), Fail> {
    for row in &EDITED {
        let mut file = file_of(rt.alloc(), row.edits, &PROGRAM)?;
        file.truncate(row.length);
        check_accepted(&rt, row.name, &file, row.word, row.events, row.left)?;
    }
    Ok(())
}

/// The bytes of the stairs.
static STAIRS: [u8; 20] = [
    1, 2, 3, 4, 5, 6, 7, 8, 9, 10, 11, 12, 13, 14, 15, 16, 17, 18, 19, 20,
];

/// A segment of four bytes, `k` bytes behind `START`, with one byte in the file: k + 1.
fn stair(k: u32) -> Part {
    let place = k as usize;
    Part {
        kind: SEGMENT,
        address: START.wrapping_add(k),
        memory_size: 4,
        bytes: STAIRS.get(place..place.saturating_add(1)).unwrap_or(&[]),
    }
}

/// Twenty segments, each a byte behind the one before it: of each the next one leaves the first
/// byte, and the last one has three zeros behind it.
#[test]
fn twenty_segments(rt: HostRuntime) -> Result<(), Fail> {
    let mut parts = Vec::new(rt.alloc());
    for k in 0..20 {
        parts.push(stair(k))?;
    }
    let left = [
        (0, Memory(0x204, 0x0506_0708)),
        (0, Memory(0x208, 0x090a_0b0c)),
        (0, Memory(0x210, 0x1112_1314)),
        (0, Memory(0x214, 0)),
    ];
    let file = file_of_parts(rt.alloc(), &parts)?;
    check_accepted(&rt, "up", &file, 0x0102_0304, &[], &left)
}

/// The same from the last to the first: the first one is over all that follow but their last bytes,
/// which are zeros.
#[test]
fn twenty_segments_back(rt: HostRuntime) -> Result<(), Fail> {
    let mut parts = Vec::new(rt.alloc());
    for k in 0..20 {
        parts.push(stair(19u32.saturating_sub(k)))?;
    }
    let left = [
        (0, Memory(0x204, 0)),
        (0, Memory(0x210, 0)),
        (0, Memory(0x214, 0)),
    ];
    let file = file_of_parts(rt.alloc(), &parts)?;
    check_accepted(&rt, "down", &file, 0x0100_0000, &[], &left)
}

#[test]
fn load_errors(rt: HostRuntime) {
    for &(error, number, name) in &[
        (LoadError::Truncated, 1, "Truncated"),
        (LoadError::NotElf32Big, 2, "NotElf32Big"),
        (LoadError::NotExecutable, 3, "NotExecutable"),
        (LoadError::NotMips, 4, "NotMips"),
        (LoadError::BadHeaderTable, 5, "BadHeaderTable"),
        (LoadError::SegmentOutsideFile, 6, "SegmentOutsideFile"),
        (LoadError::SegmentOutsideRam, 7, "SegmentOutsideRam"),
        (LoadError::FileLargerThanMemory, 8, "FileLargerThanMemory"),
        (LoadError::BadEntry, 9, "BadEntry"),
        (LoadError::NoMemory, 10, "NoMemory"),
    ] {
        same(&rt, (error.number(), error.name()), (number, name));
    }
}

#[test]
fn truncated_image(rt: HostRuntime) -> Result<(), Fail> {
    for length in 0..112 {
        let fault = if length < 52 {
            LoadError::Truncated
        } else if length < 84 {
            LoadError::BadHeaderTable
        } else {
            LoadError::SegmentOutsideFile
        };
        let found = entry_of(rt.alloc(), &[], length)?;
        same(&rt, (length, found), (length, Err(fault)));
    }
    Ok(())
}

#[test]
fn segment_in_memory(rt: HostRuntime) -> Result<(), Fail> {
    let cases: [(&[(usize, u32)], usize, usize); 3] = [
        (&[], 28, 25),
        (&[(ADDRESS, 0xa000_0200)], 28, 25),
        (&[(FILE_SIZE, 4)], 4, 4),
    ];
    for (edits, length, written) in cases {
        let found = load_edited(rt.alloc(), edits, length)?;
        same(&rt, (edits, found), (edits, (true, written)));
    }
    Ok(())
}

#[test]
fn largest_memory(rt: HostRuntime) -> Result<(), Fail> {
    let file = file_of(rt.alloc(), &[], &PROGRAM)?;
    let memory = load(rt.alloc(), &file, 16_777_216)?.bytes;
    let ends = (memory.get(0x200).copied(), memory.get(0x00ff_ffff).copied());
    same(
        &rt,
        (memory.len(), ends),
        (16_777_216, (Some(0x3c), Some(0))),
    );
    Ok(())
}

/// The program of the built-in image.
const DEMO: &str = "lui $8, 0x1234\nori $8, $8, 0x5678\naddiu $9, $0, -1\naddu $10, $8, $9\n\
lui $11, 0x8000\nsw $10, 1024($11)\nlw $12, 1024($11)\n";

/// One physical word by kseg0 and by kseg1.
const TWO_VIEWS: &str = ".org 0x80000200\n.word 0x11111111\n.org 0xa0000200\n.word 0x22222222\n";

#[test]
fn written_image(rt: HostRuntime) -> Result<(), Fail> {
    let file = write(rt.alloc(), &assemble(rt.alloc(), DEMO)?)?;
    let expected = file_of(rt.alloc(), &[], &PROGRAM)?;
    same(&rt, file.as_slice(), expected.as_slice());
    same(&rt, file.as_slice(), &IMAGE[..]);
    same(&rt, load(rt.alloc(), &file, 4096)?.entry, 0x8000_0200);
    Ok(())
}

#[test]
fn two_views(rt: HostRuntime) -> Result<(), Fail> {
    let file = write(rt.alloc(), &assemble(rt.alloc(), TWO_VIEWS)?)?;
    let image = load(rt.alloc(), &file, 4096)?;
    same(&rt, image.entry, 0x8000_0200);
    same(&rt, Ram::from_bytes(image.bytes).word(0x200), 0x2222_2222);
    Ok(())
}

#[test]
fn empty_program(rt: HostRuntime) -> Result<(), Fail> {
    let file = write(rt.alloc(), &assemble(rt.alloc(), "# nothing\n")?)?;
    same(&rt, file.len(), 52);
    same(&rt, load(rt.alloc(), &file, 4096)?.entry, 0x8000_0200);
    Ok(())
}
