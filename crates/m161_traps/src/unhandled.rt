//! Traps for which an image has nothing.

ghost use Rattle.std.specs.Prelude.{◌≡◌, [], ◌∷◌, IfOk, OnOk};
ghost use Rattle.m161_traps.specs.Traps.{state_after};
ghost use Rattle.m161_traps.specs.Unhandled.{first_unhandled, has_byte_of, is_in_file, is_unhandled};

use crate::traps::{Trap, make_input, make_step};
use m161_bus::Console;
use m161_elf::Span;
use m161_isa::unmapped;
use m161_machine::{Core, Event};
use m161_tlb::Tlb;
use std::alloc::AllocError;

// Whether the bytes of a span have one of the word at a physical address.
fn has_byte_of(at: u32, span: Span) -> bool
    ensures { result ≡ has_byte_of at span }
{
    let begin = u64::from(unmapped(span.address).unwrap_or(0));
    begin < u64::from(at) + 4 && u64::from(at) < begin + u64::from(span.size)
}

/// Whether one of these spans, those of an image's bytes in its file, has a byte of the word at a vector.
pub fn is_in_file(spans: &[Span], vector: u32) -> bool
    ensures { result ≡ is_in_file spans.now vector }
{
    let at = unmapped(vector).unwrap_or(0);
    spans.iter().any(|span| has_byte_of(at, *span))
}

// Whether nothing is at a trap's vector.
fn is_unhandled(spans: &[Span], trap: Trap) -> bool
    ensures { result ≡ is_unhandled spans.now trap }
{
    trap.empty && !is_in_file(spans, trap.vector)
}

/// Makes an event, and passes over it if it is refused. Returns its trap, if it is one and nothing is at
/// its vector; the spans are those of the image's bytes in its file.
///
/// # Errors
/// Memory was refused.
pub fn look<T: Tlb, D: Console>(
    core: &mut Core<T, D>,
    event: Event,
    spans: &[Span],
) -> Result<Option<Trap>, AllocError>
    ensures trap { IfOk result (λ found. found
        ≡ first_unhandled spans.now core.old.state (event ∷ [])) }
    ensures state { OnOk result (core.new.state ≡ state_after core.old.state (event ∷ [])) }
{
    match event {
        Event::Step(p) => match make_step(core, p) {
            Some(trap) if is_unhandled(spans, trap) => Ok(Some(trap)),
            _ => Ok(None),
        },
        Event::Key(_) | Event::Done => {
            make_input(core, event)?;
            Ok(None)
        }
    }
}
