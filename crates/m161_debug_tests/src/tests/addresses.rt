//! How addresses are written, and the words that are no command's.

use super::sessions::Act::{Does, Fails};
use super::sessions::{LOOP, Scene, check_scenes};
use m161_debug::CommandError::{BadArgument, Unknown};
use std::test::Fail;

/// Addresses.
static ADDRESSES: [Scene; 1] = [Scene {
    words: LOOP,
    processors: 1,
    events: &[],
    acts: &[
        Does("m 200 1", 0, "00000200 25080001\n"),
        Does("m 0x200 1", 0, "00000200 25080001\n"),
        Does("m 00000200 1", 0, "00000200 25080001\n"),
        Does("m 0x00000200 1", 0, "00000200 25080001\n"),
        Does("m 80000200 1", 0, "00000200 25080001\n"),
        Does("m 0xa0000204 1", 0, "00000204 1000fffe\n"),
        Does("m 0 1", 0, "00000000 00000000\n"),
        Does("m 80000ffc 1", 0, "00000ffc 00000000\n"),
        Fails("m 80000ffc 2", BadArgument),
        Fails("m 9ffffffc 1", BadArgument),
        Fails("m c0000200 1", BadArgument),
        Fails("m 000000200 1", BadArgument),
        Fails("m 0x000000200 1", BadArgument),
        Fails("m 0x 1", BadArgument),
        Fails("m x200 1", BadArgument),
        Fails("m 0X200 1", BadArgument),
        Fails("m 0x0x200 1", BadArgument),
        Fails("m 20g 1", BadArgument),
        Fails("m 2A0 1", BadArgument),
        Fails("m +200 1", BadArgument),
        Fails("m  200 1", BadArgument),
        Fails("m 201 1", BadArgument),
        Does("x 0x80000208 1", 0, "80000208 00000000 nop\n"),
        Fails("x 208 1", BadArgument),
        Does("b 0 1", 0, "break 0 00000001\n"),
        Does("b 0 0x80000208", 0, "break 0 80000208\n"),
        Does("d 0 80000208", 0, "deleted\n"),
        Does("d 0 0x1", 0, "deleted\n"),
        Does("d 0 0x1", 0, "none\n"),
    ],
    made: 0,
}];

/// Lines that are the program's alone, or nobody's.
static OTHERS: [Scene; 1] = [Scene {
    words: LOOP,
    processors: 1,
    events: &[],
    acts: &[
        Fails("j 0", Unknown),
        Fails("help", Unknown),
        Fails("quit", Unknown),
        Fails("", Unknown),
        Fails("# a comment", Unknown),
    ],
    made: 0,
}];

#[test]
fn addresses(rt: HostRuntime) -> Result<(), Fail> {
    check_scenes(&rt, &ADDRESSES)
}

#[test]
fn words_of_the_program(rt: HostRuntime) -> Result<(), Fail> {
    check_scenes(&rt, &OTHERS)
}
