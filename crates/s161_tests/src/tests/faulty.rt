//! `run` over streams and files that are slow, fail or end early, and words that it rejects.

use super::run::{POWER_OFF, POWERED_OFF, join, work_over};
use super::same;
use super::streams::{Endless, Failing, Left, Memory, OneFile, Slow, all};
use m161_test_support::files::file_at;
use m161_test_support::outcomes::ENTRY;
use s161_progress::Progress;
use s161_work::work::work;
use std::io::{ErrorKind, Read};
use std::sync::Wait;
use std::test::Fail;
use std::thread::Threads;

/// The words of a run of the one file.
const WORDS: [&str; 3] = ["s161", "run", "image"];

/// Runs `power-off`'s image over a reader, against the texts that it should write.
fn over<I: Read>(
    rt: &(impl AllocGlobal + Threads + Wait + Sync),
    input: &mut I,
    texts: [&str; 2],
) -> Result<Left, Fail> {
    let file = file_at(rt.alloc(), ENTRY, &POWER_OFF)?;
    let mut files = OneFile {
        name: "image",
        bytes: &file,
    };
    Ok(work_over(rt, &WORDS, &mut files, input, texts))
}

#[test]
fn slow_reader(rt: HostRuntime) -> Result<(), Fail> {
    let output = join(&rt, &[&POWERED_OFF, &["stop: off\n"]])?;
    // a comment of so many bytes that a reader that gives up after some calls is seen
    let mut input = vec![in rt.alloc(); b'#'; 200_000]?;
    input.extend_from_slice(b"\ns 0 2\n")?;
    let mut slow = Slow::new(&input);
    let found = over(&rt, &mut slow, [output.as_str(), ""])?;
    same(&rt, found, (0, all(output.as_str()), all("")));
    Ok(())
}

#[test]
fn failing_readers(rt: HostRuntime) -> Result<(), Fail> {
    for &(kind, line) in &[
        (
            ErrorKind::BrokenPipe,
            "s161: input (standard input can't be read)\n",
        ),
        (ErrorKind::OutOfMemory, "s161: memory\n"),
    ] {
        let found = over(&rt, &mut Failing(kind), ["", line])?;
        same(&rt, found, (1, all(""), all(line)));
    }
    Ok(())
}

#[test]
fn inputs_that_are_no_text(rt: HostRuntime) -> Result<(), Fail> {
    let line = "s161: input (standard input isn't UTF-8)\n";
    let mut input: &[u8] = b"s 0 2\n# \xff\n";
    let found = over(&rt, &mut input, ["", line])?;
    same(&rt, found, (1, all(""), all(line)));
    let line = "s161: input (at most 402653184 bytes are read)\n";
    let found = over(&rt, &mut Endless, ["", line])?;
    same(&rt, found, (1, all(""), all(line)));
    Ok(())
}

#[test]
fn failing_files(rt: HostRuntime) {
    for &(kind, line) in &[
        (
            ErrorKind::PermissionDenied,
            "s161: file image (the file can't be read)\n",
        ),
        (ErrorKind::OutOfMemory, "s161: memory\n"),
    ] {
        let mut input: &[u8] = b"bad\n";
        let found = work_over(&rt, &WORDS, &mut Failing(kind), &mut input, ["", line]);
        same(&rt, found, (1, all(""), all(line)));
    }
}

#[test]
fn truncated_image(rt: HostRuntime) -> Result<(), Fail> {
    let file = file_at(rt.alloc(), ENTRY, &POWER_OFF)?;
    let mut files = OneFile {
        name: "image",
        bytes: file.get(..51).unwrap_or(&[]),
    };
    let mut input: &[u8] = b"s 0 2\n";
    let line = "s161: image 1 Truncated (the file is shorter than an ELF header)\n";
    let found = work_over(&rt, &WORDS, &mut files, &mut input, ["", line]);
    same(&rt, found, (1, all(""), all(line)));
    Ok(())
}

#[test]
fn failing_output_of_a_run(rt: HostRuntime) -> Result<(), Fail> {
    let file = file_at(rt.alloc(), ENTRY, &POWER_OFF)?;
    let text = join(&rt, &[&POWERED_OFF, &["stop: off\n"]])?;
    let failed = "s161: output\n";
    for room in [0, 26, 300] {
        let mut files = OneFile {
            name: "image",
            bytes: &file,
        };
        let mut input: &[u8] = b"s 0 2\n";
        let mut output = Memory::new(rt.alloc(), room, true);
        let mut errors = Memory::new(rt.alloc(), usize::MAX, true);
        let status = work(
            &rt,
            &WORDS,
            &mut files,
            &mut input,
            &mut output,
            &mut errors,
            &Progress::new(),
        );
        let found = (
            status,
            output.match_text(text.as_str()),
            errors.match_text(failed),
        );
        same(&rt, found, (1, (room, true), all(failed)));
    }
    Ok(())
}

#[test]
fn rejected_runs(rt: HostRuntime) -> Result<(), Fail> {
    let file = file_at(rt.alloc(), ENTRY, &POWER_OFF)?;
    let cases: [&[&str]; 11] = [
        &["s161", "run"],
        &["s161", "run", "image", "image"],
        &["s161", "run", "image", "--ram", "x"],
        &["s161", "run", "image", "--ram", "4294967296"],
        &["s161", "run", "image", "--log", "1", "--log", "1"],
        &["s161", "run", "image", "--show-log", "--show-log"],
        &["s161", "run", "image", "--threads", "1000001"],
        &["s161", "run", "image", "--threads", "1", "--burst", "0"],
        &["s161", "run", "image", "--threads", "1", "--burst", "1025"],
        &["s161", "run", "image", "--burst", "0"],
        &["s161", "run", "image", "--burst", "x"],
    ];
    for words in cases {
        let mut files = OneFile {
            name: "image",
            bytes: &file,
        };
        let mut input: &[u8] = &[];
        let (status, output, _) = work_over(&rt, words, &mut files, &mut input, ["", ""]);
        same(&rt, (words, status, output), (words, 2, all("")));
    }
    Ok(())
}
