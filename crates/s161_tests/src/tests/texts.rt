//! The listing of a file, and the built-in sample.

use super::same;
use super::streams::{NoFiles, OneFile};
use m161::Core;
use m161_isa::LinkUnit;
use m161_machine::{Conf, Event};
use m161_steplog::read_schedule;
use m161_test_support::files::file_from;
use m161_test_support::kernel::KERNEL;
use m161_test_support::outcomes::ENTRY;
use s161_base::fault::Fault;
use s161_base::files::FileSource;
use s161_base::sample::{read_image, sample_image};
use s161_command::Registers;
use s161_run::demo::IMAGE;
use s161_run::events::{RunStop, make_events};
use s161_texts::disassembly::disassembly;
use std::alloc::{AllocError, Global};
use std::test::Fail;

/// The demo's listing.
const LISTED_DEMO: &str = "80000200 3c081234 lui $8, 0x1234
80000204 35085678 ori $8, $8, 0x5678
80000208 2409ffff addiu $9, $0, -1
8000020c 01095021 addu $10, $8, $9
80000210 3c0b8000 lui $11, 0x8000
80000214 ad6a0400 sw $10, 1024($11)
80000218 8d6c0400 lw $12, 1024($11)
";

/// The same with the names of the registers.
const LISTED_BY_NAMES: &str = "80000200 3c081234 lui $t0, 0x1234
80000204 35085678 ori $t0, $t0, 0x5678
80000208 2409ffff addiu $t1, $zero, -1
8000020c 01095021 addu $t2, $t0, $t1
80000210 3c0b8000 lui $t3, 0x8000
80000214 ad6a0400 sw $t2, 1024($t3)
80000218 8d6c0400 lw $t4, 1024($t3)
";

/// The line of a fault.
pub(crate) fn line_of(alloc: Global, fault: Fault<'_>) -> Result<String, AllocError> {
    format!(in alloc; "{fault}")
}

/// The listing of a file, or the line of its fault.
fn list(alloc: Global, file: &[u8]) -> Result<String, AllocError> {
    match disassembly(alloc, "image", file, Registers::Numbered, false) {
        Ok(text) => Ok(text),
        Err(fault) => line_of(alloc, fault),
    }
}

#[test]
fn dis_demo(rt: HostRuntime) -> Result<(), Fail> {
    let text = list(rt.alloc(), &IMAGE)?;
    same(&rt, text.as_str() == LISTED_DEMO, true);
    Ok(())
}

#[test]
fn dis_by_names(rt: HostRuntime) -> Result<(), Fail> {
    let text = match disassembly(rt.alloc(), "image", &IMAGE, Registers::Named, false) {
        Ok(text) => text,
        Err(fault) => line_of(rt.alloc(), fault)?,
    };
    same(&rt, text.as_str(), LISTED_BY_NAMES);
    Ok(())
}

/// Only the part of a segment that is in the file is listed.
#[test]
fn words_of_the_file(rt: HostRuntime) -> Result<(), Fail> {
    let mut file = IMAGE;
    file[71] = 7;
    let text = list(rt.alloc(), &file)?;
    same(&rt, text.as_str(), "80000200 3c081234 lui $8, 0x1234\n");
    Ok(())
}

/// A segment from 80000202 to 8000020a has one whole word at a multiple of 4.
#[test]
fn misaligned_span(rt: HostRuntime) -> Result<(), Fail> {
    let words = [0x1122_3344, 0x5566_7788];
    let file = file_from(rt.alloc(), ENTRY, 0x8000_0202, &words)?;
    let text = list(rt.alloc(), &file)?;
    same(
        &rt,
        text.as_str(),
        "80000204 33445566 andi $4, $26, 0x5566\n",
    );
    Ok(())
}

/// A segment from 80000201 to 80000203 has none.
#[test]
fn no_whole_word(rt: HostRuntime) -> Result<(), Fail> {
    let mut file = IMAGE;
    file[63] = 1;
    file[71] = 2;
    let text = list(rt.alloc(), &file)?;
    same(&rt, text.as_str(), "");
    Ok(())
}

#[test]
fn image_without_listing(rt: HostRuntime) -> Result<(), Fail> {
    let text = list(rt.alloc(), &IMAGE[..51])?;
    same(
        &rt,
        text.as_str(),
        "s161: image 1 Truncated (the file is shorter than an ELF header)",
    );
    let mut file = IMAGE;
    file[60] = 0;
    let text = list(rt.alloc(), &file)?;
    same(
        &rt,
        text.as_str(),
        "s161: image 7 SegmentOutsideRam (a segment isn't in RAM, by kseg0 or by kseg1)",
    );
    Ok(())
}

/// The run of the sample by a schedule.
#[derive(Drop)]
struct Ran {
    core: Core,
    events: Vec<Event>,
    stop: RunStop,
}

/// The sample's run, once a schedule is made; `None` where there is no sample.
fn run_sample(alloc: Global, schedule: &str) -> Result<Option<Ran>, Fail> {
    let conf = Conf {
        ram: 1_048_576,
        processors: 2,
        log: 100,
        link: LinkUnit::Word,
        strict: false,
    };
    let Ok(file) = sample_image(alloc) else {
        return Ok(None);
    };
    let mut core = Core::boot(alloc, &file, conf)?;
    let asked = read_schedule(alloc, schedule)?;
    let mut events = Vec::new(alloc);
    let stop = make_events(&mut core, &asked, &mut events)?;
    Ok(Some(Ran { core, events, stop }))
}

/// How many Steps the first two processors have made.
fn counts(core: &Core) -> Option<(u64, u64)> {
    if core.processors() < 2 {
        return None;
    }
    Some((core.count(0), core.count(1)))
}

#[test]
fn run_sample_counts(rt: HostRuntime) -> Result<(), Fail> {
    let schedule = "s 0 11\ns 1 16\ns 0 6\ns 1 23\ns 0 4\ns 1 17\ns 0 4\n";
    match run_sample(rt.alloc(), schedule)? {
        Some(Ran { core, events, stop }) => {
            same(&rt, stop, RunStop::Off);
            same(&rt, counts(&core), Some((25, 56)));
            same(&rt, events.len(), 81);
        }
        None => same(&rt, "no sample", ""),
    }
    Ok(())
}

/// The sample's memory has the kernel's words.
#[test]
fn sample_words(rt: HostRuntime) -> Result<(), Fail> {
    let Some(ran) = run_sample(rt.alloc(), "")? else {
        same(&rt, "no sample", "");
        return Ok(());
    };
    for (at, word, _) in &KERNEL {
        same(&rt, (*at, ran.core.word(*at)), (*at, Some(*word)));
    }
    Ok(())
}

/// The length of an image's file, or the line of its fault.
fn image_of<F: FileSource>(alloc: Global, files: &mut F, name: &str) -> Result<String, AllocError> {
    match read_image(alloc, files, name) {
        Ok(file) => format!(in alloc; "{}", file.len()),
        Err(fault) => line_of(alloc, fault),
    }
}

/// The sample has five segments of 70 words: 52 + 5 * 32 + 70 * 4 bytes.
#[test]
fn images_by_name(rt: HostRuntime) -> Result<(), Fail> {
    let text = image_of(rt.alloc(), &mut NoFiles, "@sample")?;
    same(&rt, text.as_str(), "492");
    let text = image_of(rt.alloc(), &mut NoFiles, "sample")?;
    same(
        &rt,
        text.as_str(),
        "s161: file sample (the file can't be read)",
    );
    let mut files = OneFile {
        name: "@sample",
        bytes: &[1, 2, 3],
    };
    let text = image_of(rt.alloc(), &mut files, "@sample")?;
    same(&rt, text.as_str(), "492");
    let mut files = OneFile {
        name: "image",
        bytes: &[1, 2, 3],
    };
    let text = image_of(rt.alloc(), &mut files, "image")?;
    same(&rt, text.as_str(), "3");
    Ok(())
}
