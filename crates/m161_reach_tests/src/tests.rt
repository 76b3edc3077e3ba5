//! Explorations of a machine. The expected values were worked out by hand from the kernels' words.

ghost use Rattle.std.specs.Prelude.{IfOk};
ghost use Rattle.m161_reach.specs.Reach.{IsAtBoot};

use m161::Core;
use m161_explore::Answer;
use m161_judge::{Goal, Judged, JudgedRun, Verdict};
use m161_machine::{Conf, Event, LinkUnit};
use m161_progress::Nobody;
use m161_reach::{
    Exploration, Machines, SearchVerdict, Told, begin_machine, can_be_asked, ends_of,
    explore_machine, first_hang, go_on_machine, tell, tell_run,
};
use m161_states::{EventVerdict, Known, Reads, Unknown};
use m161_test_support::files::file_at;
use m161_test_support::outcomes::ENTRY;
use std::alloc::AllocGlobal;
use std::fmt::Debug;
use std::process::Abort;
use std::test::Fail;

/// Spins: two states, and no end.
static SPINS: [u32; 2] = [
    0x1000_ffff, // beq $0, $0, to itself
    0, // nop
];

/// Waits for an interrupt.
static WAITS: [u32; 1] = [
    0x4200_0020, // wait
];

/// Reads Random, which goes round 56 rows, and spins. Each place in the circle has every other row.
static READS_RANDOM: [u32; 3] = [
    0x4008_0800, // mfc0 $8, $1: Random
    0x1000_ffff, // beq $0, $0, to itself
    0, // nop
];

/// Takes a key if one waits, and switches off; else it goes round for ever.
static TAKES_A_KEY: [u32; 6] = [
    0x3c08_bfe0, // lui $8, 0xbfe0
    0x8d09_0000, // lw $9, 0($8): a key, or 0
    0x1120_ffff, // beq $9, $0, to itself
    0, // nop
    0x3c08_bfff, // lui $8, 0xbfff
    0xad00_7e08, // sw $0, 32264($8): off
];

/// Counts in a register for ever: for each of 2^32 counts three states.
static COUNTS: [u32; 3] = [
    0x2508_0001, // addiu $8, $8, 1
    0x1000_fffe, // beq $0, $0, to the instruction before
    0, // nop
];

/// Counts to 255 again and again: for each of 256 counts four states.
static COUNTS_A_BYTE: [u32; 4] = [
    0x2508_0001, // addiu $8, $8, 1
    0x3108_00ff, // andi $8, $8, 255
    0x1000_fffd, // beq $0, $0, to the first instruction
    0, // nop
];

/// Fails the test where a value isn't the expected one.
fn same<T: PartialEq + Debug + Copy>(rt: &impl Abort, found: T, expected: T) {
    assert_eq!(rt; found, expected);
}

/// A machine of one processor at boot with a kernel.
#[inline(never)]
fn booted(rt: &impl AllocGlobal, words: &[u32]) -> Result<Core, Fail>
    ensures { IfOk result (λ core. IsAtBoot core.state) }
{
    let file = file_at(rt.alloc(), ENTRY, words)?;
    let conf = Conf {
        ram: 4096,
        processors: 1,
        log: 1,
        link: LinkUnit::Word,
        strict: false,
    };
    Ok(Core::boot(rt.alloc(), &file, conf)?)
}

/// What is found of a kernel, if this output is asked for.
#[inline(never)]
fn found(
    rt: &(impl Abort + AllocGlobal),
    words: &[u32],
    output: Option<&[u8]>,
    limit: u32,
) -> Result<Exploration, Fail> {
    let core = booted(rt, words)?;
    let goal = Goal {
        watches: &[],
        never: &[],
        output,
        keys: &[],
    };
    let is_asked = 0 < limit && can_be_asked(&core, &goal);
    same(rt, is_asked, true);
    if is_asked {
        Ok(explore_machine(rt.alloc(), &core, &goal, limit)?)
    } else {
        Ok(Exploration {
            known: Known::nothing(),
            answer: Answer::Clean { states: 0 },
        })
    }
}

/// An answer by numbers: which one, the number of events, and the number of states.
fn numbers(answer: &Answer<EventVerdict, Unknown>) -> (u32, usize, u32) {
    match answer {
        Answer::Clean { states } => (0, 0, *states),
        Answer::Found { events, states, .. } => (1, events.len(), *states),
        Answer::Hung { events, states } => (2, events.len(), *states),
        Answer::Open { size } => (3, *size, 0),
        Answer::Ended(_) => (4, 0, 0),
    }
}

/// Fails the test where an answer has other numbers.
fn check(rt: &impl Abort, found: &Exploration, expected: (u32, usize, u32)) {
    same(rt, numbers(&found.answer), expected);
}

#[test]
fn in_parts(rt: HostRuntime) -> Result<(), Fail> {
    let alloc = rt.alloc();
    let core = booted(&rt, &SPINS)?;
    let goal = Goal {
        watches: &[],
        never: &[],
        output: None,
        keys: &[],
    };
    if !can_be_asked(&core, &goal) {
        return Err(Fail::new("a machine at boot can be asked"));
    }
    let mut exploring = begin_machine(alloc, &core, &goal)?;
    same(&rt, exploring.states(), 1);
    let None = go_on_machine(alloc, &core, &goal, &mut exploring, 100, 1, &Nobody)? else {
        return Err(Fail::new("an answer behind one state"));
    };
    same(&rt, exploring.states(), 2);
    let last = go_on_machine(alloc, &core, &goal, &mut exploring, 100, 100, &Nobody)?;
    match last {
        Some(answer) => same(&rt, numbers(&answer), (2, 0, 2)),
        None => return Err(Fail::new("no answer behind all states")),
    }
    Ok(())
}

#[test]
fn a_circle_hangs(rt: HostRuntime) -> Result<(), Fail> {
    check(&rt, &found(&rt, &SPINS, None, 1)?, (3, 0, 0));
    check(&rt, &found(&rt, &SPINS, None, 2)?, (2, 0, 2));
    check(&rt, &found(&rt, &SPINS, None, 100)?, (2, 0, 2));
    Ok(())
}

#[test]
fn a_machine_that_waits_is_stuck(rt: HostRuntime) -> Result<(), Fail> {
    match &found(&rt, &WAITS, None, 100)?.answer {
        Answer::Found {
            events,
            verdict,
            states,
        } => {
            same(&rt, events.as_slice() == [0].as_slice(), true);
            same(&rt, *verdict, EventVerdict::Stuck);
            same(&rt, *states, 1);
        }
        _ => same(&rt, "another answer", "a verdict"),
    }
    Ok(())
}

#[test]
fn a_machine_that_waits_may_have_sent_all(rt: HostRuntime) -> Result<(), Fail> {
    check(&rt, &found(&rt, &WAITS, Some(&[]), 100)?, (0, 0, 2));
    check(&rt, &found(&rt, &WAITS, Some(&[65]), 100)?, (1, 1, 1));
    Ok(())
}

#[test]
fn random_is_known_where_it_is_read(rt: HostRuntime) -> Result<(), Fail> {
    let found = found(&rt, &READS_RANDOM, None, 100)?;
    check(&rt, &found, (2, 0, 57));
    same(
        &rt,
        found.known.of(0),
        Reads {
            random: true,
            count: false,
        },
    );
    Ok(())
}

/// How many of the first events of a list hang, where these keys can be typed.
#[inline(never)]
fn hang_of(
    rt: &(impl Abort + AllocGlobal),
    words: &[u32],
    keys: &[u8],
    events: &[u32],
    limit: u32,
) -> Result<Option<usize>, Fail> {
    let core = booted(rt, words)?;
    let goal = Goal {
        watches: &[],
        never: &[],
        output: None,
        keys,
    };
    let is_asked = 0 < limit && can_be_asked(&core, &goal);
    same(rt, is_asked, true);
    if is_asked {
        Ok(first_hang(rt.alloc(), &core, &goal, events, limit)?)
    } else {
        Ok(None)
    }
}

#[test]
fn a_circle_hangs_from_boot_on(rt: HostRuntime) -> Result<(), Fail> {
    same(&rt, hang_of(&rt, &SPINS, &[], &[0, 0, 0], 2)?, Some(0));
    same(&rt, hang_of(&rt, &SPINS, &[], &[0, 0, 0], 1)?, None);
    Ok(())
}

#[test]
fn a_machine_that_is_over_does_not_hang(rt: HostRuntime) -> Result<(), Fail> {
    same(&rt, hang_of(&rt, &WAITS, &[], &[0], 100)?, None);
    same(&rt, hang_of(&rt, &SPINS, &[], &[1], 100)?, None);
    Ok(())
}

#[test]
fn many_states_along_one_path_are_enough(rt: HostRuntime) -> Result<(), Fail> {
    same(&rt, hang_of(&rt, &COUNTS, &[], &[0], 1_000_000)?, None);
    same(&rt, hang_of(&rt, &COUNTS_A_BYTE, &[], &[0], 1023)?, None);
    Ok(())
}

#[test]
fn a_path_that_comes_round_shows_nothing(rt: HostRuntime) -> Result<(), Fail> {
    same(
        &rt,
        hang_of(&rt, &COUNTS_A_BYTE, &[], &[0, 0, 0], 1024)?,
        Some(0),
    );
    same(
        &rt,
        hang_of(&rt, &COUNTS_A_BYTE, &[], &[0, 0, 0], 10_000)?,
        Some(0),
    );
    Ok(())
}

#[test]
fn a_key_that_comes_too_late_is_missed(rt: HostRuntime) -> Result<(), Fail> {
    same(
        &rt,
        hang_of(&rt, &TAKES_A_KEY, &[65], &[0, 0, 0, 0], 100)?,
        Some(2),
    );
    same(
        &rt,
        hang_of(&rt, &TAKES_A_KEY, &[65], &[0, 0], 100)?,
        Some(2),
    );
    same(&rt, hang_of(&rt, &TAKES_A_KEY, &[65], &[0], 100)?, None);
    same(
        &rt,
        hang_of(&rt, &TAKES_A_KEY, &[65], &[2, 0, 0, 0], 100)?,
        None,
    );
    same(&rt, hang_of(&rt, &TAKES_A_KEY, &[], &[0], 100)?, Some(0));
    Ok(())
}

/// How many of these events are the least that hang.
#[inline(never)]
fn hang_of_events(
    rt: &(impl Abort + AllocGlobal),
    words: &[u32],
    keys: &[u8],
    events: &[Event],
    limit: u32,
) -> Result<Option<usize>, Fail> {
    let core = booted(rt, words)?;
    let goal = Goal {
        watches: &[],
        never: &[],
        output: None,
        keys,
    };
    let is_asked = 0 < limit && can_be_asked(&core, &goal);
    same(rt, is_asked, true);
    if is_asked {
        let machines = Machines::new(rt.alloc(), &core, &goal, Known::nothing());
        Ok(machines.first_to_hang(rt.alloc(), events, limit)?)
    } else {
        Ok(None)
    }
}

#[test]
fn events_hang_as_their_numbers_do(rt: HostRuntime) -> Result<(), Fail> {
    let step = Event::Step(0);
    let late = hang_of_events(&rt, &TAKES_A_KEY, &[65], &[step, step, step, step], 100)?;
    same(&rt, late, Some(2));
    let taken = hang_of_events(&rt, &TAKES_A_KEY, &[65], &[Event::Key(65), step, step], 100)?;
    same(&rt, taken, None);
    let circle = hang_of_events(&rt, &SPINS, &[65], &[step, Event::Key(65)], 8)?;
    same(&rt, circle, Some(0));
    Ok(())
}

#[test]
fn events_of_no_list_hang_nowhere(rt: HostRuntime) -> Result<(), Fail> {
    for event in [Event::Step(1), Event::Step(2), Event::Done, Event::Key(66)] {
        same(&rt, hang_of_events(&rt, &SPINS, &[65], &[event], 8)?, None);
    }
    let keys = [Event::Key(65), Event::Key(65)];
    same(&rt, hang_of_events(&rt, &SPINS, &[65], &keys, 8)?, None);
    Ok(())
}

/// Fails the test where a search has another verdict on one Step of a kernel, whose own verdict is this one,
/// or on a run of that Step, which is cut or isn't.
#[inline(never)]
fn check_told(
    rt: &(impl Abort + AllocGlobal),
    words: &[u32],
    few: u32,
    judged: Option<Judged>,
    is_cut: bool,
    expected: (Option<Told>, Option<Told>),
) -> Result<(), Fail> {
    let core = booted(rt, words)?;
    let goal = Goal {
        watches: &[],
        never: &[],
        output: None,
        keys: &[],
    };
    let ends = ends_of(&goal);
    if !can_be_asked(&core, &ends) {
        return Err(Fail::new("a machine at boot can be asked"));
    }
    let machines = Machines::new(rt.alloc(), &core, &ends, Known::nothing());
    let mut events = Vec::new(rt.alloc());
    events.push(Event::Step(0))?;
    let list = tell(rt.alloc(), &machines, few, judged, &events)?;
    same(rt, list, expected.0);
    let run = JudgedRun {
        events,
        judged,
        is_cut,
    };
    same(rt, tell_run(rt.alloc(), &machines, few, &run)?, expected.1);
    Ok(())
}

/// That all of one event goes wrong in this way.
fn wrong(verdict: Verdict) -> Option<Judged> {
    Some(Judged { verdict, events: 1 })
}

#[test]
fn hung_stands_between_the_verdicts(rt: HostRuntime) -> Result<(), Fail> {
    let hung = Some(Told {
        verdict: SearchVerdict::Hung,
        events: 0,
    });
    let end = Some(Told {
        verdict: SearchVerdict::Run(Verdict::End),
        events: 1,
    });
    let stuck = Some(Told {
        verdict: SearchVerdict::Run(Verdict::Stuck),
        events: 1,
    });
    check_told(&rt, &SPINS, 2, None, true, (hung, hung))?;
    check_told(&rt, &SPINS, 2, wrong(Verdict::End), true, (hung, hung))?;
    check_told(&rt, &SPINS, 2, wrong(Verdict::Stuck), true, (stuck, stuck))?;
    // by one view less, or by none
    check_told(&rt, &SPINS, 1, wrong(Verdict::End), true, (end, end))?;
    check_told(&rt, &SPINS, 0, wrong(Verdict::End), true, (end, end))?;
    // a run that is over
    check_told(&rt, &SPINS, 2, None, false, (hung, None))?;
    Ok(())
}
