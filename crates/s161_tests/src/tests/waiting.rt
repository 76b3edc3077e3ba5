//! How far long work is: what is shown of it, which commands show it, and that it is no part of an output.

use super::same;
use super::streams::{Memory, all};
use s161_progress::{Amount, Cleared, Meter, Progress, Unit, Way};
use s161_work::waiting::way_of;
use std::io::Write;
use std::test::Fail;

#[test]
fn amounts(rt: HostRuntime) -> Result<(), Fail> {
    let runs = Amount {
        done: 1200,
        most: Some(10_000),
        unit: Unit::Runs,
    };
    let states = Amount {
        done: 67_000,
        most: None,
        unit: Unit::States,
    };
    same(
        &rt,
        format!(in rt.alloc(); "{runs}")?.as_str(),
        "s161: 1200 of 10000 runs",
    );
    same(
        &rt,
        format!(in rt.alloc(); "{states}")?.as_str(),
        "s161: 67000 states",
    );
    Ok(())
}

#[test]
fn what_is_counted(rt: HostRuntime) -> Result<(), Fail> {
    let progress = Progress::new();
    same(&rt, progress.amount(), None);
    progress.begin(Unit::Events, Some(9));
    progress.add(2);
    progress.add(3);
    let five = Amount {
        done: 5,
        most: Some(9),
        unit: Unit::Events,
    };
    same(&rt, progress.amount(), Some(five));
    progress.begin(Unit::Runs, None);
    let none = Amount {
        done: 0,
        most: None,
        unit: Unit::Runs,
    };
    same(&rt, progress.amount(), Some(none));
    Ok(())
}

// How a command of two words, or of three, says how far it is.
fn way(rt: &HostRuntime, words: [&str; 2], is_terminal: bool) -> Result<Option<Way>, Fail> {
    let words = vec![in rt.alloc();
        format!(in rt.alloc(); "s161")?,
        String::from_str(rt.alloc(), words[0])?,
        String::from_str(rt.alloc(), words[1])?,
    ]?;
    Ok(way_of(&words, is_terminal))
}

#[test]
fn five_commands_say_how_far_they_are(rt: HostRuntime) -> Result<(), Fail> {
    for command in ["run", "search", "explore", "replay", "audit"] {
        same(&rt, way(&rt, [command, "x"], true)?, Some(Way::InPlace));
        same(&rt, way(&rt, [command, "x"], false)?, None);
        let asked = way(&rt, [command, "--progress"], false)?;
        same(&rt, asked, Some(Way::ByLines));
    }
    same(&rt, way(&rt, ["trace", "--progress"], true)?, None);
    same(&rt, way_of(&[], true), None);
    Ok(())
}

#[test]
fn a_cleared_output_is_that_output(rt: HostRuntime) -> Result<(), Fail> {
    let meter = Meter::new();
    let mut output = Memory::new(rt.alloc(), usize::MAX, false);
    let mut errors = Memory::new(rt.alloc(), usize::MAX, false);
    let mut cleared = Cleared::new(&rt, Some(&meter), &mut output, &mut errors);
    cleared.write_all(b"clean 3\n")?;
    let _output = cleared;
    same(&rt, output.match_text("clean 3\n"), all("clean 3\n"));
    same(&rt, errors.match_text(""), all(""));
    Ok(())
}
