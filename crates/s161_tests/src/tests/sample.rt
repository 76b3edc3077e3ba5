//! `run` of the built-in sample: what it leaves, and its log.

use super::run::{join, work_over};
use super::same;
use super::streams::{NoFiles, all};
use m161_machine::Entry;
use m161_steplog::entry_line;
use m161_test_support::kernel::SCHEDULE;
use m161_test_support::outcomes::Times;
use std::alloc::Global;
use std::test::Fail;

/// The built-in sample's schedule.
const SAMPLE_SCHEDULE: &str = "s 0 11\ns 1 16\ns 0 6\ns 1 23\ns 0 4\ns 1 17\ns 0 4\n";

/// Both processors after it.
const SAMPLE_LEFT: &str = "cpu 0 running pc 80000264
r0 00000000 r1 00000000 r2 00000000 r3 00000000
r4 00000000 r5 00000000 r6 00000000 r7 00000000
r8 80000000 r9 00006600 r10 bfff0000 r11 bfff8400
r12 80000280 r13 00000002 r14 bfff7c00 r15 00000007
r16 00000000 r17 00000000 r18 00000000 r19 00000000
r20 00000000 r21 00000000 r22 00000000 r23 00000000
r24 00000000 r25 00000000 r26 00000000 r27 00000000
r28 00000000 r29 00000000 r30 00000000 r31 00000000
hi 00000000 lo 00000000
cpu 1 running pc 800002b8
r0 00000000 r1 00000000 r2 00000000 r3 00000000
r4 00000000 r5 00000000 r6 00000000 r7 00000000
r8 00000801 r9 00400000 r10 80000000 r11 00000007
r12 00000001 r13 00000000 r14 00000000 r15 00000000
r16 00000000 r17 00000000 r18 00000000 r19 00000000
r20 00000000 r21 00000000 r22 00000000 r23 00000000
r24 80035000 r25 00400140 r26 00006600 r27 800002a0
r28 00000000 r29 bfff8800 r30 00000000 r31 00000000
hi 00000000 lo 00000000
";

/// The machine line of the sample's run on two processors. The SHA-256 is that of Python's hashlib, of
/// a file that a script made of its words.
const SAMPLE_MACHINE: &str =
    "# machine 1048576 2 a9a152a2b26a7bf9458e36927e54ed3288f0245c74468080736159f5f3010d6c\n";

/// The text of the sample's log of these events.
fn log_of(alloc: Global, events: &[Times]) -> Result<String, Fail> {
    let mut text = String::from_str(alloc, SAMPLE_MACHINE)?;
    text.push_str("m161 log 2 word\n")?;
    for (event, times, answer) in events {
        let Ok(outcome) = *answer else {
            continue;
        };
        let entry = Entry {
            event: *event,
            outcome,
        };
        let line = entry_line(alloc, &entry)?;
        for _ in 0..*times {
            text.push_str(line.as_str())?;
            text.push_str("\n")?;
        }
    }
    Ok(text)
}

#[test]
fn run_sample(rt: HostRuntime) -> Result<(), Fail> {
    let log = log_of(rt.alloc(), &SCHEDULE)?;
    for (words, log) in [
        (&["s161", "run", "@sample", "--cpus", "2"][..], ""),
        (
            &["s161", "run", "@sample", "--cpus", "2", "--show-log"],
            log.as_str(),
        ),
    ] {
        let text = join(&rt, &[&[SAMPLE_LEFT, log, "stop: off\n"]])?;
        let mut input = SAMPLE_SCHEDULE.as_bytes();
        let texts = [text.as_str(), ""];
        let found = work_over(&rt, words, &mut NoFiles, &mut input, texts);
        same(&rt, (words, found), (words, (0, all(texts[0]), all(""))));
    }
    Ok(())
}
