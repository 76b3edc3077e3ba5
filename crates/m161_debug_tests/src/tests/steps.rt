//! Several Steps of a processor.

use super::sessions::Act::{Does, Fails};
use super::sessions::{LOOP, POWER_OFF, Scene, check_scenes};
use m161_debug::CommandError::{BadArgument, Unknown};
use m161_machine::Event::Step;
use std::test::Fail;

/// Steps up to a stop.
static STOPS: [Scene; 3] = [
    Scene {
        words: LOOP,
        processors: 2,
        events: &[Step(0); 2],
        acts: &[
            Does("s 0 7", 0, "end 7\n"),
            Does("b 0 80000200", 0, "break 0 80000200\n"),
            Does("s 0 7", 0, "break 2\n"),
            Does("s 0 7", 0, "break 3\n"),
            Does("s 0 3", 0, "end 3\n"),
            Does("s 0 1000000", 0, "break 3\n"),
            Does("s 0 1", 0, "end 1\n"),
            // the remaining events are still there
            Does("g", 2, "end 2\n"),
            Does("g", 0, "end 0\n"),
        ],
        made: 7 + 2 + 3 + 3 + 3 + 1 + 2,
    },
    // of the other processor, which rests
    Scene {
        words: LOOP,
        processors: 2,
        events: &[],
        acts: &[
            Does("s 1 5", 0, "end 5\n"),
            Does("s 2 5", 0, "refused 0 1 BadProcessor\n"),
            Does("b 1 0", 0, "break 1 00000000\n"),
            Does("s 1 5", 0, "break 1\n"),
            Does("s 0 5", 0, "end 5\n"),
        ],
        made: 5 + 1 + 5,
    },
    Scene {
        words: POWER_OFF,
        processors: 1,
        events: &[],
        acts: &[
            Does("s 0 5", 0, "off 1\n"),
            Does("s 0 5", 0, "refused 0 2 Off\n"),
            Does("s 1 5", 0, "refused 0 1 BadProcessor\n"),
        ],
        made: 2,
    },
];

/// How many Steps.
static NUMBERS: [Scene; 1] = [Scene {
    words: LOOP,
    processors: 1,
    events: &[],
    acts: &[
        Fails("s 0 0", BadArgument),
        Fails("s 9 0", BadArgument),
        Fails("s 0 1000001", BadArgument),
        Fails("s 0 4294967297", BadArgument),
        Fails("s 4294967296 1", BadArgument),
        Fails("s 0 01", BadArgument),
        Fails("s 00 1", BadArgument),
        Fails("s 0  1", BadArgument),
        Fails("s  0 1", BadArgument),
        Fails("s 0 1 ", BadArgument),
        Fails("s 0 1 1", BadArgument),
        Fails("s 0 x", BadArgument),
        Fails("s", BadArgument),
        Fails("S 0 1", Unknown),
    ],
    made: 0,
}];

#[test]
fn steps_up_to_a_stop(rt: HostRuntime) -> Result<(), Fail> {
    check_scenes(&rt, &STOPS)
}

#[test]
fn numbers_of_steps(rt: HostRuntime) -> Result<(), Fail> {
    check_scenes(&rt, &NUMBERS)
}
