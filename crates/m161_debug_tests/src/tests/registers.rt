//! One register of a processor, and the place of a run.

use super::sessions::Act::{Does, Fails};
use super::sessions::{LOOP, Scene, check_scenes};
use m161_debug::CommandError::{BadArgument, BadProcessor};
use m161_machine::Event::Step;
use std::test::Fail;

/// A register before and after the Steps that change it, and the place before and after them.
static SHOWN: [Scene; 1] = [Scene {
    words: LOOP,
    processors: 2,
    events: &[Step(0); 4],
    acts: &[
        Does("a", 0, "at 0 of 4\n"),
        Does("r 0 8", 0, "r8 00000000\n"),
        Does("g 1", 1, "end 1\n"),
        Does("r 0 8", 0, "r8 00000001\n"),
        Does("r 0 0", 0, "r0 00000000\n"),
        Does("r 0 31", 0, "r31 00000000\n"),
        Does("r 1 8", 0, "r8 00000000\n"),
        // the argument is looked at before the processor
        Fails("r 2 32", BadArgument),
        Fails("r 0 32", BadArgument),
        Fails("r 2 8", BadProcessor),
        Fails("r 0 8 8", BadArgument),
        Fails("r 0 ", BadArgument),
        Does("a", 0, "at 1 of 4\n"),
        // a Step that isn't the list's
        Does("s 0", 0, "s 0 ran\n"),
        Does("a", 0, "at 2 of 5\n"),
        Does("g", 3, "end 3\n"),
        Does("a", 0, "at 5 of 5\n"),
        Fails("a 0", BadArgument),
        Fails("a ", BadArgument),
    ],
    made: 5,
}];

#[test]
fn one_register_and_the_place(rt: HostRuntime) -> Result<(), Fail> {
    check_scenes(&rt, &SHOWN)
}
