//! A run of two processors that is a list of events.

ghost use Rattle.std.specs.Prelude.{◌≡◌, ◌≤◌, IfOk, length, string_bytes};
ghost use Rattle.m161_moves.specs.Threads.{last_processor};
ghost use Rattle.m161_server_tests.specs.Toys.{byte, course_of, doing, register};

use m161_moves::{Activity, Doing, Run, StepSeen};
use m161_server::Target;
use std::alloc::{AllocError, Global};

/// A run, which goes back to its beginning.
#[derive(Clone, Copy, Drop, Debug)]
pub struct Toy {
    /// Its events: what they are, if they are Steps.
    pub events: &'static [Option<StepSeen>],
    /// Where it stands, if the list is as long.
    pub at: usize,
}

// A text of these bytes.
fn text(alloc: Global, bytes: &str) -> Result<String, AllocError>
    ensures { IfOk result (λ text. string_bytes text ≡ bytes.now) }
{
    let mut text = String::new(alloc);
    text.push_str(bytes)?;
    Ok(text)
}

// The processor of the last Step before a place.
fn last_before(events: &[Option<StepSeen>], place: usize) -> u32
    requires { place ≤ length events.now }
    ensures { result ≡ last_processor (course_of events.now) place }
{
    let mut last = 0;
    for k in 0..place {
        if let Some(step) = events[k] {
            last = step.processor;
        }
    }
    last
}

// What a processor does.
fn doing(processor: u32) -> Doing
    ensures { result ≡ doing processor }
{
    let activity = if processor == 0 {
        Activity::Running
    } else {
        Activity::Stopped
    };
    Doing {
        activity,
        is_user: false,
        in_slot: false,
    }
}

// A word of a processor.
fn register(processor: u32, number: u32) -> Option<u32>
    ensures { result ≡ register processor number }
{
    if 38 <= number && number <= 71 {
        return None;
    }
    if number == 37 {
        return if processor == 0 {
            Some(0x8000_0200)
        } else {
            Some(0)
        };
    }
    if number == 73 {
        return Some(0x3f00);
    }
    if number == 80 { Some(0xa1) } else { Some(0) }
}

// A byte of a processor.
fn byte(processor: u32, address: u32) -> Option<u8>
    ensures { result ≡ byte processor address }
{
    if 0x8000_0000 <= address && address < 0x8010_0000 {
        return Some(0);
    }
    if 0xa000_0000 <= address && address < 0xa010_0000 {
        return Some(0);
    }
    if processor == 1 && 0x40_0000 <= address && address < 0x40_1000 {
        return Some(7);
    }
    None
}

impl Run for Toy {
    ghost use Rattle.std.proofs.Common.{rules};
    ghost use Rattle.std.specs.Prelude.{length, min};
    ghost use Rattle.m161_server_tests.specs.Toys.{course_of};

    type Error = ();

    ghost course = { λ run. course_of run.events.now };

    ghost place = { λ run. min run.at (length run.events.now) };

    ghost fails = { λ course error. Unit {0} };

    fn place(&self) -> usize {
        self.at.min(self.events.len())
    }

    fn is_at_end(&self) -> bool {
        self.at >= self.events.len()
    }

    fn next_step(&self) -> Option<StepSeen> {
        self.events[self.at]
    }

    fn last_processor(&self) -> u32 {
        last_before(self.events, self.place())
    }

    fn advance(&mut self) -> Result<(), ()> {
        self.at += 1;
        Ok(())
    }

    fn go_back(&mut self, _to: usize) -> Result<(), ()> {
        self.at = 0;
        Ok(())
    }

    ghost within = { λ run. Prim.search rules };
}

impl Target for Toy {
    fn processors(&self) -> u32 {
        2
    }

    fn count(&self) -> usize {
        self.events.len()
    }

    fn doing(&self, processor: u32) -> Doing {
        doing(processor)
    }

    fn register(&self, processor: u32, number: u32) -> Option<u32> {
        register(processor, number)
    }

    fn byte(&self, processor: u32, address: u32) -> Option<u8> {
        byte(processor, address)
    }

    fn console(&self) -> &[u8] {
        match self.place() {
            0 => b"",
            1 => b"h",
            _ => b"hi",
        }
    }

    fn next_text(&self, alloc: Global) -> Result<String, AllocError> {
        if self.place() < self.events.len() {
            text(alloc, "s 0")
        } else {
            text(alloc, "off")
        }
    }

    fn schedule_text(&self, alloc: Global) -> Result<String, AllocError> {
        if self.place() == 0 {
            text(alloc, "")
        } else {
            text(alloc, "schedule\n")
        }
    }

    fn trace_text(&self, alloc: Global, _number: u32) -> Result<String, ()> {
        let lines = if self.place() == 0 { "" } else { "trace\n" };
        match text(alloc, lines) {
            Ok(text) => Ok(text),
            Err(_) => Err(()),
        }
    }

    fn where_text(&self, alloc: Global) -> Result<String, AllocError> {
        text(alloc, "0 running\n")
    }

    fn registers_text(&self, alloc: Global, processor: u32) -> Result<String, AllocError> {
        if processor == 0 {
            text(alloc, "regs 0\n")
        } else {
            text(alloc, "regs 1\n")
        }
    }

    fn cop0_text(&self, alloc: Global, processor: u32) -> Result<String, AllocError> {
        if processor == 0 {
            text(alloc, "cop0 0\n")
        } else {
            text(alloc, "cop0 1\n")
        }
    }

    fn tlb_text(&self, alloc: Global, processor: u32) -> Result<String, AllocError> {
        if processor == 0 {
            text(alloc, "tlb 0\n")
        } else {
            text(alloc, "tlb 1\n")
        }
    }

    fn memory_text(
        &self,
        alloc: Global,
        address: u32,
        number: u32,
    ) -> Result<Option<String>, AllocError> {
        if address == 0x8000_0200 && number == 1 {
            Ok(Some(text(alloc, "00000200 3c088000\n")?))
        } else {
            Ok(None)
        }
    }
}
