//! What a Step changes of the board, and of links.

use super::same;
use super::traced::{Run, lines_of};
use m161_machine::Event::{Done, Key, Step};
use std::test::Fail;

/// Every word of the board that can change, but CPUE, and switches off.
static BOARD: Run = Run {
    words: &[
        0x3c08_bfe0, // lui $8, 0xbfe0
        0x3409_0041, // ori $9, $0, 0x0041
        0xad09_0000, // sw $9, 0($8)
        0x8d0a_0000, // lw $10, 0($8)
        0x8d0a_0000, // lw $10, 0($8)
        0xad09_0004, // sw $9, 4($8)
        0x340a_0005, // ori $10, $0, 0x0005
        0xad0a_0008, // sw $10, 8($8)
        0x3c0b_bfff, // lui $11, 0xbfff
        0x356b_7c00, // ori $11, $11, 0x7c00
        0xad60_020c, // sw $0, 524($11)
        0xad6a_0400, // sw $10, 1024($11)
        0xad6a_0404, // sw $10, 1028($11)
        0xad6a_070c, // sw $10, 1804($11)
        0xad60_0208, // sw $0, 520($11)
    ],
    processors: 1,
    strict: false,
    events: &[
        (Step(0), 3),
        (Done, 1),
        (Key(0x0a), 1),
        (Key(0x0b), 1),
        (Step(0), 12),
    ],
};

const OF_BOARD: &str = "\
0 0 80000200 3c08bfe0 lui $8, 0xbfe0  r8=bfe00000
1 0 80000204 34090041 ori $9, $0, 0x0041  r9=00000041
2 0 80000208 ad090000 sw $9, 0($8)  latch=41
3 o
4 k 0a
5 k 0b
6 0 8000020c 8d0a0000 lw $10, 0($8)  r10=0000000a waiting=1
7 0 80000210 8d0a0000 lw $10, 0($8)  r10=0000000b waiting=0 rirq=00000000
8 0 80000214 ad090004 sw $9, 4($8)  wirq=00000001
9 0 80000218 340a0005 ori $10, $0, 0x0005  r10=00000005
10 0 8000021c ad0a0008 sw $10, 8($8)  cause=00000400 rirq=00000005
11 0 80000220 3c0bbfff lui $11, 0xbfff  r11=bfff0000
12 0 80000224 356b7c00 ori $11, $11, 0x7c00  r11=bfff7c00
13 0 80000228 ad60020c sw $0, 524($11)  cause=00000000 irqe=00000000
14 0 8000022c ad6a0400 sw $10, 1024($11)  cirqe 0=00000005
15 0 80000230 ad6a0404 sw $10, 1028($11)  cause=00000800 cipi 0=00000001
16 0 80000234 ad6a070c sw $10, 1804($11)  cram 0 3=00000005
17 0 80000238 ad600208 sw $0, 520($11)  off
";

/// `ll` and `sc`, of a word that keeps its value.
static LINK: Run = Run {
    words: &[
        0x3c08_8000, // lui $8, 0x8000
        0xc109_0400, // ll $9, 1024($8)
        0xe109_0400, // sc $9, 1024($8)
        0xe109_0400, // sc $9, 1024($8)
    ],
    processors: 1,
    strict: false,
    events: &[(Step(0), 4)],
};

const OF_LINK: &str = "\
0 0 80000200 3c088000 lui $8, 0x8000  r8=80000000
1 0 80000204 c1090400 ll $9, 1024($8)  link=00000400
2 0 80000208 e1090400 sc $9, 1024($8)  r9=00000001 [00000400]=00000000 unlink 0
3 0 8000020c e1090400 sc $9, 1024($8)  r9=00000000
";

/// Processor 0 starts processor 1, and ends its link.
static START: Run = Run {
    words: &[
        0x3c08_bfff, // lui $8, 0xbfff
        0x3508_8400, // ori $8, $8, 0x8400
        0x3c09_8000, // lui $9, 0x8000
        0x3529_0220, // ori $9, $9, 0x0220
        0xad09_0300, // sw $9, 768($8)
        0x340a_0002, // ori $10, $0, 0x0002
        0xad0a_fa14, // sw $10, -1516($8)
        0xad29_0400, // sw $9, 1024($9)
        0x3c08_8000, // lui $8, 0x8000
        0xc10b_0620, // ll $11, 1568($8)
    ],
    processors: 2,
    strict: false,
    events: &[(Step(1), 1), (Step(0), 7), (Step(1), 2), (Step(0), 1)],
};

const OF_START: &str = "\
0 1 00000000 -  idle
1 0 80000200 3c08bfff lui $8, 0xbfff  r8=bfff0000
2 0 80000204 35088400 ori $8, $8, 0x8400  r8=bfff8400
3 0 80000208 3c098000 lui $9, 0x8000  r9=80000000
4 0 8000020c 35290220 ori $9, $9, 0x0220  r9=80000220
5 0 80000210 ad090300 sw $9, 768($8)  cram 1 0=80000220
6 0 80000214 340a0002 ori $10, $0, 0x0002  r10=00000002
7 0 80000218 ad0afa14 sw $10, -1516($8)  cpue=00000003 starts 1
8 1 80000220 3c088000 lui $8, 0x8000  r8=80000000
9 1 80000224 c10b0620 ll $11, 1568($8)  link=00000620
10 0 8000021c ad290400 sw $9, 1024($9)  [00000620]=80000220 unlink 1
";

#[test]
fn trace_board(rt: HostRuntime) -> Result<(), Fail> {
    let text = lines_of(&rt, &BOARD)?;
    same(&rt, text.as_str(), OF_BOARD);
    Ok(())
}

#[test]
fn trace_links(rt: HostRuntime) -> Result<(), Fail> {
    let text = lines_of(&rt, &LINK)?;
    same(&rt, text.as_str(), OF_LINK);
    Ok(())
}

#[test]
fn trace_start(rt: HostRuntime) -> Result<(), Fail> {
    let text = lines_of(&rt, &START)?;
    same(&rt, text.as_str(), OF_START);
    Ok(())
}
