//! Images with a segment that isn't in RAM: which one the fault's line names. The files are made of their
//! headers, and what the lines tell was worked out by hand from these.

use super::run::{AT_ENTRY, join, work_over};
use super::same;
use super::streams::{TwoFiles, all};
use std::process::Abort;
use std::sync::Wait;
use std::test::Fail;
use std::thread::Threads;

/// An ELF header as words, but for the number of program headers; the entry is 80000200.
const ELF_HEADER: [u32; 10] = [
    0x7f45_4c46,
    0x0102_0100,
    0,
    0,
    0x0002_0008,
    1,
    0x8000_0200,
    0x34,
    0,
    0,
];

/// A program header: its type, its address, and its sizes in the file and in memory. Its bytes in the file
/// are the file's own first ones.
type Header = [u32; 4];

/// A segment that is in every RAM.
const SOUND: Header = [1, 0x8000_0200, 0, 16];

/// PT_NOTE, at an address in kuseg.
const NOTE: Header = [4, 0, 20, 20];

/// The file of these program headers.
fn file_of(rt: &impl AllocGlobal, headers: &[Header]) -> Result<Vec<u8>, Fail> {
    let mut file = Vec::new(rt.alloc());
    for word in ELF_HEADER {
        file.extend_from_slice(&word.to_be_bytes())?;
    }
    file.extend_from_slice(&[
        0,
        0x34,
        0,
        0x20,
        0,
        (headers.len() % 256) as u8,
        0,
        0,
        0,
        0,
        0,
        0,
    ])?;
    for header in headers {
        let [kind, address, in_file, in_memory] = *header;
        for word in [kind, 0, address, address, in_file, in_memory, 7, 4] {
            file.extend_from_slice(&word.to_be_bytes())?;
        }
    }
    Ok(file)
}

/// The program headers of an image, and what a run of it with 4096 bytes of RAM and no events leaves.
struct Case {
    headers: &'static [Header],
    status: u8,
    output: &'static [&'static str],
    errors: &'static str,
}

static CASES: [Case; 8] = [
    // the end is past RAM
    Case {
        headers: &[[1, 0x8000_0ffd, 0, 4]],
        status: 1,
        output: &[],
        errors: "s161: image 7 SegmentOutsideRam (program header 0, 4 bytes from 80000ffd on, not all in RAM of 4096 bytes in kseg0 or kseg1)\n",
    },
    Case {
        headers: &[[1, 0x8000_0ffc, 0, 4]],
        status: 3,
        output: &[AT_ENTRY, "stop: end\n"],
        errors: "",
    },
    // the first is sound
    Case {
        headers: &[SOUND, [1, 0xa000_0fff, 0, 2]],
        status: 1,
        output: &[],
        errors: "s161: image 7 SegmentOutsideRam (program header 1, 2 bytes from a0000fff on, not all in RAM of 4096 bytes in kseg0 or kseg1)\n",
    },
    // the first of two
    Case {
        headers: &[SOUND, [1, 0x8000_1000, 0, 1], [1, 0x8000_2000, 0, 3]],
        status: 1,
        output: &[],
        errors: "s161: image 7 SegmentOutsideRam (program header 1, 1 bytes from 80001000 on, not all in RAM of 4096 bytes in kseg0 or kseg1)\n",
    },
    // a header of another type is counted, and is never at fault
    Case {
        headers: &[NOTE, SOUND, [1, 0x8000_0ff0, 4, 32]],
        status: 1,
        output: &[],
        errors: "s161: image 7 SegmentOutsideRam (program header 2, 32 bytes from 80000ff0 on, not all in RAM of 4096 bytes in kseg0 or kseg1)\n",
    },
    Case {
        headers: &[NOTE, [1, 0, 0, 0], SOUND],
        status: 3,
        output: &[AT_ENTRY, "stop: end\n"],
        errors: "",
    },
    // kuseg, and the largest numbers
    Case {
        headers: &[[1, 0x0040_0000, 0, 8]],
        status: 1,
        output: &[],
        errors: "s161: image 7 SegmentOutsideRam (program header 0, 8 bytes from 00400000 on, not all in RAM of 4096 bytes in kseg0 or kseg1)\n",
    },
    Case {
        headers: &[[1, 0xffff_ffff, 0, 0xffff_ffff]],
        status: 1,
        output: &[],
        errors: "s161: image 7 SegmentOutsideRam (program header 0, 4294967295 bytes from ffffffff on, not all in RAM of 4096 bytes in kseg0 or kseg1)\n",
    },
];

/// Runs an image, and fails the test where it leaves something else.
fn check(
    rt: &(impl Abort + AllocGlobal + Threads + Wait + Sync),
    words: &[&str],
    image: &[u8],
    text: &str,
    expected: (u8, &str, &str),
) {
    let mut files = TwoFiles {
        image,
        text: text.as_bytes(),
    };
    let texts = [expected.1, expected.2];
    let found = work_over(rt, words, &mut files, &mut "".as_bytes(), texts);
    same(rt, found, (expected.0, all(texts[0]), all(texts[1])));
}

#[test]
fn segments_outside_ram(rt: HostRuntime) -> Result<(), Fail> {
    let words = ["s161", "run", "image", "--ram", "4096"];
    for case in &CASES {
        let image = file_of(&rt, case.headers)?;
        let output = join(&rt, &[case.output])?;
        let expected = (case.status, output.as_str(), case.errors);
        check(&rt, &words, &image, "", expected);
    }
    Ok(())
}

/// The commands that boot an image, with what each wants to read.
static COMMANDS: [(&[&str], &str); 12] = [
    (&["s161", "run", "image", "--ram", "4096"], ""),
    (
        &["s161", "run", "image", "--ram", "4096", "--turns", "1"],
        "",
    ),
    (
        &["s161", "run", "image", "--ram", "4096", "--threads", "1"],
        "",
    ),
    (
        &["s161", "schedule", "image", "--ram", "4096", "--turns", "1"],
        "",
    ),
    (
        &["s161", "console", "image", "--ram", "4096", "--turns", "1"],
        "",
    ),
    (&["s161", "trace", "image", "--ram", "4096"], ""),
    (
        &["s161", "trace", "image", "--ram", "4096", "--turns", "1"],
        "",
    ),
    (&["s161", "debug", "image", "text", "--ram", "4096"], ""),
    (&["s161", "gdb", "image", "text", "--ram", "4096"], ""),
    (
        &["s161", "replay", "image", "text", "--ram", "4096"],
        "m161 log 2 word\n",
    ),
    (&["s161", "audit", "image", "text", "--ram", "4096"], ""),
    (
        &["s161", "search", "image", "--ram", "4096", "--seeds", "2"],
        "",
    ),
];

#[test]
fn commands_name_the_segment(rt: HostRuntime) -> Result<(), Fail> {
    let line =
        "s161: image 7 SegmentOutsideRam (program header 1, 4 bytes from 80000ffd on, not all in RAM of 4096 bytes in kseg0 or kseg1)\n";
    let image = file_of(&rt, &[SOUND, [1, 0x8000_0ffd, 0, 4]])?;
    for (words, text) in &COMMANDS {
        check(&rt, words, &image, text, (1, "", line));
    }
    Ok(())
}
