//! The numbers of events.

ghost use Rattle.std.specs.Prelude.{◌≡◌, ◌+◌, ◌<◌, ◌^◌, ◌++◌, ◌∷◌, [], IfOk, OnOk, option_map};
ghost use Rattle.m161_states.specs.System.{typed_after};
ghost use Rattle.m161_reach.specs.Named.{number_of, numbers_named};

use m161_machine::Event;
use std::alloc::{AllocError, Global};

// The number of an event, where so many keys are typed, and how many are typed behind it.
fn number_of(processors: u32, keys: &[u8], typed: usize, event: Event) -> Option<(u32, usize)>
    requires { processors + 2 < 2 ^ 32 }
    ensures { result ≡ option_map (λ n. (n, typed_after event typed)) (number_of processors keys.now typed event) }
{
    match event {
        Event::Step(p) => {
            if p >= processors {
                return None;
            }
            Some((p, typed))
        }
        Event::Key(byte) => {
            if typed >= keys.len() || keys[typed] != byte {
                return None;
            }
            Some((processors + 1, typed + 1))
        }
        Event::Done => Some((processors, typed)),
    }
}

// Adds a number behind the others.
fn push_number(numbers: &mut Vec<u32>, number: u32) -> Result<(), AllocError>
    ensures { OnOk result (numbers.new.items ≡ numbers.old.items ++ number ∷ []) }
{
    numbers.push(number)?;
    Ok(())
}

/// The numbers of events from boot on, if all have one.
///
/// # Errors
/// Memory was refused.
pub(crate) fn numbers_named(
    alloc: Global,
    processors: u32,
    keys: &[u8],
    events: &[Event],
) -> Result<Option<Vec<u32>>, AllocError>
    requires { processors + 2 < 2 ^ 32 }
    ensures { IfOk result (λ found. option_map (λ numbers. numbers.items) found
        ≡ numbers_named processors keys.now 0 events.now) }
{
    let mut numbers = Vec::new(alloc);
    let mut typed = 0;
    for event in events {
        let Some((number, behind)) = number_of(processors, keys, typed, *event) else {
            return Ok(None);
        };
        push_number(&mut numbers, number)?;
        typed = behind;
    }
    Ok(Some(numbers))
}
