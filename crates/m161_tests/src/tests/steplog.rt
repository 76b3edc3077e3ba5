//! Texts of logs and schedules, and the check of a log.

use super::same;
use m161::{Console, Tlb};
use m161_machine::{Conf, Entry, Event, LinkUnit, Outcome};
use m161_steplog::{
    Comparison, MachineSize, Mode, TextFault, entry_line, read_log, read_schedule, read_size,
    size_line, verify, write_log, write_tail,
};
use m161_test_support::files::file_at;
use m161_test_support::outcomes::ENTRY;
use m161_text::{Byte, Word, cut_at_space, next_line, parse_byte, parse_decimal, parse_word};
use std::alloc::Global;
use std::process::Abort;
use std::test::Fail;

const RAN: Entry = Entry {
    event: Event::Step(0),
    outcome: Outcome::Ran,
};

const OFF: Entry = Entry {
    event: Event::Step(0),
    outcome: Outcome::PoweredOff,
};

#[test]
fn log_text(rt: HostRuntime) -> Result<(), Fail> {
    let alloc = rt.alloc();
    for (link, expected) in [
        (LinkUnit::Word, "m161 log 2 word\ns 0 ran\ns 0 off\n"),
        (LinkUnit::Line, "m161 log 2 line\ns 0 ran\ns 0 off\n"),
    ] {
        let text = write_log(
            alloc,
            Mode {
                link,
                strict: false,
            },
            &[RAN, OFF],
        )?;
        same(&rt, text.as_str(), expected);
        check_read(&rt, alloc, expected, link, &[RAN, OFF])?;
    }
    let line = entry_line(alloc, &OFF)?;
    same(&rt, line.as_str(), "s 0 off");
    let events = read_schedule(alloc, "s 0 2\nk 41\no\n")?.to_vec(alloc)?;
    let expected = [
        Event::Step(0),
        Event::Step(0),
        Event::Key(0x41),
        Event::Done,
    ];
    same(&rt, events.as_slice(), expected.as_slice());
    Ok(())
}

#[test]
fn machine_lines(rt: HostRuntime) -> Result<(), Fail> {
    for (ram, processors, link, strict, line) in [
        (1_048_576, 2, LinkUnit::Word, false, "# machine 1048576 2\n"),
        (28_672, 3, LinkUnit::Line, false, "# machine 28672 3 line\n"),
        (0, 0, LinkUnit::Word, true, "# machine 0 0 strict\n"),
        (
            u32::MAX,
            u32::MAX,
            LinkUnit::Line,
            true,
            "# machine 4294967295 4294967295 line strict\n",
        ),
    ] {
        let size = MachineSize {
            ram,
            processors,
            mode: Mode { link, strict },
        };
        let written = size_line(rt.alloc(), size)?;
        same(&rt, written.as_str(), line);
        same(&rt, read_size(line), Some(size));
        let text = format!(in rt.alloc(); "{line}s 0\nanything")?;
        same(&rt, read_size(text.as_str()), Some(size));
    }
    for text in [
        "",
        "s 0",
        "\n# machine 4096 1",
        "#\n# machine 4096 1",
        "# machine 4096",
        "# machine 04096 1",
        "# machine 4096  1",
        "# machine 4096 1 ",
        "# machine 4096 1\r",
        "# machine 4096 1 word",
        "# machine 4096 1 strict line",
        "# machine 4096 1 line  strict",
        "# machine 4294967296 1",
        " # machine 4096 1",
    ] {
        same(&rt, (text, read_size(text)), (text, None));
    }
    Ok(())
}

// Fails the test where a text isn't read as a log of this mode and these entries.
fn check_read(
    rt: &impl Abort,
    alloc: Global,
    text: &str,
    link: LinkUnit,
    entries: &[Entry],
) -> Result<(), TextFault> {
    let log = read_log(alloc, text)?;
    same(
        rt,
        (text, log.mode),
        (
            text,
            Mode {
                link,
                strict: false,
            },
        ),
    );
    same(rt, (text, log.entries.as_slice()), (text, entries));
    Ok(())
}

#[test]
fn first_lines(rt: HostRuntime) -> Result<(), Fail> {
    let alloc = rt.alloc();
    for (text, link) in [
        ("m161 log 1", LinkUnit::Word),
        ("m161 log 2 word\n", LinkUnit::Word),
        ("#\n# machine\nm161 log 2 line", LinkUnit::Line),
    ] {
        check_read(&rt, alloc, text, link, &[])?;
    }
    for (text, line) in [
        ("", 1),
        ("#\n", 2),
        ("m161 log 0", 1),
        ("m161 log 1 word", 1),
        ("m161 log 1 line", 1),
        ("m161 log 2", 1),
        ("m161 log 2 ", 1),
        ("m161 log 2 Word", 1),
        ("m161 log 2  word", 1),
        ("m161 log 2 word ", 1),
        ("m161 log 2 words", 1),
        ("m161 log 2 word line", 1),
        ("m161 tail 1 1", 1),
        ("#\nm161 tail 2 word 1\ns 0 off\n", 2),
        ("m161 log 2 word\nm161 log 2 word\n", 2),
    ] {
        let found = read_log(alloc, text).err();
        same(&rt, (text, found), (text, Some(TextFault::Line(line))));
    }
    Ok(())
}

#[test]
fn tails(rt: HostRuntime) -> Result<(), Fail> {
    let alloc = rt.alloc();
    for (link, dropped, expected) in [
        (LinkUnit::Word, 1, "m161 tail 2 word 1\ns 0 off\n"),
        (LinkUnit::Line, 1, "m161 tail 2 line 1\ns 0 off\n"),
        (
            LinkUnit::Line,
            9_223_372_036_854_775_807,
            "m161 tail 2 line 9223372036854775807\ns 0 off\n",
        ),
    ] {
        let text = write_tail(
            alloc,
            Mode {
                link,
                strict: false,
            },
            dropped,
            &[OFF],
        )?;
        same(&rt, text.as_str(), expected);
        let found = read_log(alloc, text.as_str()).err();
        same(&rt, found, Some(TextFault::Line(1)));
    }
    Ok(())
}

#[test]
fn parts(rt: HostRuntime) {
    for (text, parts) in [
        ("s 0 ran", Some(("s", "0 ran"))),
        (" o", Some(("", "o"))),
        ("o ", Some(("o", ""))),
        ("o", None),
        ("", None),
    ] {
        same(&rt, (text, cut_at_space(text)), (text, parts));
    }
    for (text, parts) in [
        ("s 0\r\no\n", Some(("s 0\r", "o\n"))),
        ("\n", Some(("", ""))),
        ("o", Some(("o", ""))),
        ("", None),
    ] {
        same(&rt, (text, next_line(text)), (text, parts));
    }
}

#[test]
fn numbers(rt: HostRuntime) -> Result<(), Fail> {
    for (text, number) in [
        ("0", Some(0)),
        ("4294967295", Some(4_294_967_295)),
        ("4294967296", None),
        ("00", None),
        ("+1", None),
        ("1 ", None),
        ("", None),
    ] {
        same(&rt, (text, parse_decimal(text)), (text, number));
    }
    for (text, number) in [
        ("80000200", Some(0x8000_0200)),
        ("ffffffff", Some(0xffff_ffff)),
        ("8000020", None),
        ("080000200", None),
        ("8000020A", None),
        ("+8000020", None),
    ] {
        same(&rt, (text, parse_word(text)), (text, number));
    }
    for (text, number) in [("0a", Some(10)), ("a", None), ("00a", None), ("0A", None)] {
        same(&rt, (text, parse_byte(text)), (text, number));
    }
    let shown = format!(in rt.alloc(); "{} {}", Byte(0x0a), Word(0x200))?;
    same(&rt, shown.as_str(), "0a 00000200");
    Ok(())
}

/// Why a text is no schedule, or how many events it has.
fn count_of(alloc: Global, text: &str) -> Result<usize, TextFault> {
    Ok(read_schedule(alloc, text)?.len())
}

#[test]
fn bad_lines(rt: HostRuntime) {
    static TEXTS: [&str; 22] = [
        "s",
        "s ",
        "s 00",
        "s +1",
        "s -1",
        "s 4294967296",
        "s 0 0",
        "s 0 1000001",
        "s 0 01",
        "s 0  1",
        "s 0 1 ",
        " s 0",
        "k",
        "k 4",
        "k 041",
        "k 4A",
        "k 41 ",
        "o ",
        "O",
        "s 0\r",
        "x",
        " ",
    ];
    for text in &TEXTS {
        same(
            &rt,
            (*text, count_of(rt.alloc(), text)),
            (*text, Err(TextFault::Line(1))),
        );
    }
}

#[test]
fn good_lines(rt: HostRuntime) {
    for &(text, events) in &[
        ("", Ok(0)),
        ("\n\n# s x\n#", Ok(0)),
        ("s 4294967295\ns 0 1000000", Ok(1_000_001)),
        ("s 0\nk ff\no\n", Ok(3)),
        ("s 0\n\nk FF\no\n", Err(TextFault::Line(3))),
        ("s 0\n\n# \no\nq", Err(TextFault::Line(5))),
    ] {
        same(&rt, (text, count_of(rt.alloc(), text)), (text, events));
    }
}

#[test]
fn verify_of_logs(rt: HostRuntime) -> Result<(), Fail> {
    let alloc = rt.alloc();
    let file = file_at(alloc, ENTRY, &[0x3c08_bfff, 0xad00_7e08])?;
    let conf = Conf {
        ram: 4096,
        processors: 1,
        log: 16,
        link: LinkUnit::Word,
        strict: false,
    };
    let logs: [(&[Entry], Comparison); 3] = [
        (&[RAN, OFF], Comparison::Agrees),
        (&[RAN, RAN], Comparison::Differs(1)),
        (&[RAN, OFF, RAN], Comparison::Differs(2)),
    ];
    for (log, verdict) in logs {
        let found = verify::<Tlb, Console>(alloc, &file, conf, log)?;
        same(&rt, (log, found), (log, verdict));
    }
    Ok(())
}
