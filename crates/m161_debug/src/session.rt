//! A session.

ghost use Rattle.std.specs.Prelude.{◌≡◌, ◌+◌, ◌*◌, ◌%◌, ◌^◌, ◌<◌, ◌≤◌, [], true, length, replicate, take, string_bytes, IfOk, IfSome};
ghost use Rattle.m161_dis.specs.Style.{plain};
ghost use Rattle.m161_elf.specs.Image.{is_in_ram};
ghost use Rattle.m161_machine.specs.declared.event.Event.TheVariants as events;
ghost use Rattle.m161_machine.specs.History.{Answers, Continues, boot_state, events_of, history_at_boot};
ghost use Rattle.m161_debug.specs.Breakpoints.{breakpoint, break_answer, break_fault, break_leaves, has, without_breakpoint, IsSet};
ghost use Rattle.m161_debug.specs.Conditions.{is_watchable};
ghost use Rattle.m161_debug.specs.helpers.Conditions.{holds_if};
ghost use Rattle.m161_debug.specs.Stops.{is_break, Stops, StopsBy, StopsUntil};
ghost use Rattle.m161_debug.specs.Jumps.{jump_fault, Jumps};
ghost use Rattle.m161_debug.specs.helpers.Batch.{events_in};
ghost use Rattle.m161_debug.specs.Obeys.{used_by};
ghost use Rattle.m161_display.specs.Shows.{show_code_text, show_cop0_text, show_fetched_text, show_mem_text, show_regs_text, show_tlb_text, show_where_text};
ghost use Rattle.m161_debug.specs.Shows.{show_log_text};

mod commands;

use crate::batch::Batch;
use crate::breakpoints::{BreakError, Breakpoint, Breakpoints, MOST};
use crate::condition::Condition;
use crate::jump::{JumpError, events_from, jump_fault, repeat};
use crate::log::show_log;
use crate::mark::{is_met, mark_of};
use crate::stop::{StopReason, off_stop};
use m161_bus::Console;
use m161_dis::Style;
use m161_display::{show_code, show_cop0, show_fetched, show_mem, show_regs, show_tlb, show_where};
use m161_machine::{Event, Machine, Outcome, Refusal};
use m161_tlb::Tlb;
use std::alloc::{AllocError, Global};
use std::marker::Model;

/// A machine that is debugged, with its breakpoints, and with the style of its displays of code.
#[derive(Drop)]
pub struct Session<T: Tlb, D: Console> {
    machine: Machine<T, D>,
    breakpoints: Breakpoints,
    style: Style,
}

impl<T: Tlb, D: Console> Model for Session<T, D> {
    ghost use Rattle.m161_debug.specs.Breakpoints.{SessionState, IsSet};

    ghost Value = { SessionState };

    ghost view = { λ s. record {
      machine = s.machine;
      breakpoints = s.breakpoints;
      style = s.style;
    } };

    ghost invariant = { λ s. IsSet s.breakpoints };
}

impl<T: Tlb + Drop, D: Console + Drop> Session<T, D> {
    /// A session of a machine as it is, without breakpoints. Displays show registers by their
    /// numbers, and no names of addresses. Displays and commands allocate with the machine's
    /// allocator.
    pub fn new(machine: Machine<T, D>) -> Session<T, D>
        ensures { result ≡ record { machine = machine; breakpoints = []; style = plain } }
    {
        let style = Style::plain(machine.allocator());
        Session::with_style(machine, style)
    }

    /// The same with displays in this style, and with commands in which its symbols name addresses.
    pub fn with_style(machine: Machine<T, D>, style: Style) -> Session<T, D>
        ensures { result ≡ record { machine = machine; breakpoints = []; style = style } }
    {
        Session {
            machine,
            breakpoints: Breakpoints::new(),
            style,
        }
    }

    /// The machine.
    pub fn machine(&self) -> &Machine<T, D>
        ensures { result.now ≡ self.now.machine }
    {
        &self.machine
    }

    /// Sets a breakpoint: a run stops before a Step of processor `p` at `address`. Does not
    /// allocate. A breakpoint that is already set stays.
    ///
    /// # Errors
    /// There is no such processor; or there are 64 other breakpoints. Nothing is changed then.
    pub fn breakpoint(&mut self, p: u32, address: u32) -> Result<(), BreakError>
        ensures answer { result ≡ break_answer (break_fault (breakpoint p address) self.old) }
        ensures after { self.new ≡ record self.old {
          breakpoints =
              break_leaves (break_fault (breakpoint p address) self.old) (breakpoint p address)
              self.old.breakpoints;
        } }
    {
        let place = Breakpoint::new(p, address);
        if let Some(error) = self.break_fault(place) {
            return Err(error);
        }
        if !self.breakpoints.has(place) {
            self.breakpoints.add(place);
        }
        Ok(())
    }

    // Why a breakpoint isn't set.
    fn break_fault(&self, place: Breakpoint) -> Option<BreakError>
        ensures { result ≡ break_fault place self.now }
    {
        if place.processor >= self.machine.processors() {
            Some(BreakError::BadProcessor)
        } else if !self.breakpoints.has(place) && self.breakpoints.len() >= MOST {
            Some(BreakError::TooMany)
        } else {
            None
        }
    }

    /// Removes a breakpoint. Returns whether it was set. Does not allocate.
    pub fn delete(&mut self, p: u32, address: u32) -> bool
        ensures found { result ≡ has (breakpoint p address) self.old.breakpoints }
        ensures after { self.new ≡ record self.old {
          breakpoints = without_breakpoint (breakpoint p address) self.old.breakpoints;
        } }
    {
        self.breakpoints.remove(Breakpoint::new(p, address))
    }

    /// The law of every session: it has no breakpoint twice.
    pub fn breakpoints_are_a_set(&self)
        ensures { IsSet self.now.breakpoints }
    {
        let _breakpoints = &self.breakpoints;
    }

    /// Makes an event, whatever the breakpoints.
    ///
    /// # Errors
    /// Those of the machine. Nothing is changed then.
    pub fn step(&mut self, event: Event) -> Result<Outcome, Refusal>
        ensures answers { Answers self.old.machine event result self.new.machine }
        ensures breakpoints { self.new.breakpoints ≡ self.old.breakpoints }
        ensures style { self.new.style ≡ self.old.style }
    {
        self.machine.event(event)
    }

    /// A processor's registers: its number, what it is doing, its address and whether that is in a
    /// delay slot; the general registers, four a line; HI and LO.
    ///
    /// # Errors
    /// Memory was refused.
    pub fn show_regs(&self, p: u32) -> Result<String, AllocError>
        requires { p < length self.now.machine.state.processors }
        ensures { IfOk result (λ text. string_bytes text
            ≡ show_regs_text p self.now.machine.state) }
    {
        show_regs(self.machine.allocator(), self.machine.core(), p)
    }

    /// A processor's registers of coprocessor 0, one a line, in the order of their numbers.
    ///
    /// # Errors
    /// Memory was refused.
    pub fn show_cop0(&self, p: u32) -> Result<String, AllocError>
        requires { p < length self.now.machine.state.processors }
        ensures { IfOk result (λ text. string_bytes text
            ≡ show_cop0_text p self.now.machine.state) }
    {
        show_cop0(self.machine.allocator(), self.machine.core(), p)
    }

    /// The 64 rows of a processor's TLB, one a line: its number and its words in EntryHi and
    /// EntryLo.
    ///
    /// # Errors
    /// Memory was refused.
    pub fn show_tlb(&self, p: u32) -> Result<String, AllocError>
        requires { p < length self.now.machine.state.processors }
        ensures { IfOk result (λ text. string_bytes text
            ≡ show_tlb_text p self.now.machine.state) }
    {
        show_tlb(self.machine.allocator(), self.machine.core(), p)
    }

    /// `n` words of RAM from a physical address on, one a line.
    ///
    /// # Errors
    /// Memory was refused.
    pub fn show_mem(&self, address: u32, n: u32) -> Result<String, AllocError>
        requires aligned { address % 4 ≡ 0 }
        requires inside { address + 4 * n ≤ length self.now.machine.state.memory }
        ensures { IfOk result (λ text. string_bytes text
            ≡ show_mem_text address n self.now.machine.state) }
    {
        show_mem(self.machine.allocator(), self.machine.core(), address, n)
    }

    /// `n` instructions from an address in kseg0 or kseg1 on, one a line: its address, its word and
    /// its text.
    ///
    /// # Errors
    /// Memory was refused.
    pub fn show_code(&self, address: u32, n: u32) -> Result<String, AllocError>
        requires aligned { address % 4 ≡ 0 }
        requires inside { is_in_ram (length self.now.machine.state.memory) address (4 * n) ≡ true }
        ensures { IfOk result (λ text. string_bytes text
            ≡ show_code_text self.now.style address n self.now.machine.state) }
    {
        show_code(
            self.machine.allocator(),
            self.machine.core(),
            &self.style,
            address,
            n,
        )
    }

    /// `n` instructions from a virtual address on, as processor `p` would fetch them now, one a
    /// line: its address, its word and its text, or `-` in the place of these two where the
    /// processor can't fetch.
    ///
    /// # Errors
    /// Memory was refused.
    pub fn show_fetched(&self, p: u32, address: u32, n: u32) -> Result<String, AllocError>
        requires processor { p < length self.now.machine.state.processors }
        requires inside { address + 4 * n ≤ 2 ^ 32 }
        ensures { IfOk result (λ text. string_bytes text
            ≡ show_fetched_text self.now.style p address n self.now.machine.state) }
    {
        show_fetched(
            self.machine.allocator(),
            self.machine.core(),
            &self.style,
            p,
            address,
            n,
        )
    }

    /// Where each started processor is, one a line: its number, what it is doing, its address, and
    /// the word and the text of the instruction that it would fetch there, or `-` in the place of
    /// these two.
    ///
    /// # Errors
    /// Memory was refused.
    pub fn show_where(&self) -> Result<String, AllocError>
        ensures { IfOk result (λ text. string_bytes text
            ≡ show_where_text self.now.style self.now.machine.state) }
    {
        show_where(self.machine.allocator(), self.machine.core(), &self.style)
    }

    /// The last `n` entries of the log, or all if it has fewer, one a line, the oldest of them
    /// first.
    ///
    /// # Errors
    /// Memory was refused.
    pub fn show_log(&self, n: usize) -> Result<String, AllocError>
        ensures { IfOk result (λ text. string_bytes text ≡ show_log_text n self.now.machine.log) }
    {
        show_log(self.machine.allocator(), &self.machine, n)
    }

    // Whether a Step is at a breakpoint.
    fn is_at_break(&self, event: Event) -> bool
        ensures { result ≡ is_break self.now.breakpoints self.now.machine.state event }
    {
        match event {
            Event::Step(p) => {
                p < self.machine.processors()
                    && self.breakpoints.has(Breakpoint::new(p, self.machine.pc(p)))
            }
            Event::Key(_) => false,
            Event::Done => false,
        }
    }

    /// Makes events in order, up to the first stop: before a Step at a breakpoint, unless it is the
    /// first event; at an event that is refused; after one that switches the machine off, by a
    /// conflict or not; or after the last. Allocates only for an event `Done`.
    pub fn go(&mut self, events: &[Event]) -> StopReason
        ensures stop { Stops self.old.breakpoints self.old.machine events.now result
            self.new.machine }
        ensures breakpoints { self.new.breakpoints ≡ self.old.breakpoints }
        ensures style { self.new.style ≡ self.old.style }
        ensures within { used_by result ≤ length events.now }
    {
        self.run(None, Batch::Listed(events))
    }

    /// The same over `n` Steps of processor `p`.
    pub fn go_steps(&mut self, p: u32, n: u32) -> StopReason
        ensures stop { Stops self.old.breakpoints self.old.machine (replicate n (events.Step p))
            result self.new.machine }
        ensures breakpoints { self.new.breakpoints ≡ self.old.breakpoints }
        ensures style { self.new.style ≡ self.old.style }
        ensures within { used_by result ≤ n }
    {
        self.run(None, Batch::Steps(p, n))
    }

    /// Makes events in order, up to the first stop: those of `go`, and after the first event after
    /// which the condition holds. An event that switches the machine off stops the run as `Off` or
    /// `Conflict`, also where the condition holds after it.
    pub fn until(&mut self, condition: Condition, events: &[Event]) -> StopReason
        requires { is_watchable condition self.old.machine.state ≡ true }
        ensures stop { StopsUntil condition self.old.breakpoints self.old.machine events.now result
            self.new.machine }
        ensures breakpoints { self.new.breakpoints ≡ self.old.breakpoints }
        ensures style { self.new.style ≡ self.old.style }
        ensures within { used_by result ≤ length events.now }
    {
        self.run(Some(condition), Batch::Listed(events))
    }

    // Makes events in order, up to the first stop, or after what the run waits for, if it does.
    fn run(&mut self, condition: Option<Condition>, events: Batch<'_>) -> StopReason
        requires { IfSome condition (λ c. is_watchable c self.old.machine.state ≡ true) }
        ensures stop { StopsBy (holds_if condition self.old.machine.state) self.old.breakpoints
            self.old.machine (events_in events.entry) result self.new.machine }
        ensures breakpoints { self.new.breakpoints ≡ self.old.breakpoints }
        ensures style { self.new.style ≡ self.old.style }
        ensures within { used_by result ≤ length (events_in events.entry) }
    {
        self.machine.replay();
        let mark = mark_of(&self.machine, condition);
        for k in 0..events.len() {
            let event = &events.at(k);
            if k > 0 && self.is_at_break(*event) {
                return StopReason::Break(k);
            }
            match self.step(*event) {
                Err(refusal) => return StopReason::Refused(k, refusal),
                Ok(outcome) => {
                    if let Some(stop) = off_stop(k, outcome) {
                        return stop;
                    }
                    if is_met(&self.machine, mark, *event, outcome) {
                        return StopReason::Until(k);
                    }
                }
            }
        }
        StopReason::End(events.len())
    }

    /// Goes back to the state before event `k`, counted from 0 since the boot: the machine is booted
    /// anew, and the first `k` events of its log are made of it. Returns the log's other events, in
    /// order: they are undone. The breakpoints and the style stay.
    ///
    /// # Errors
    /// The first that holds: the session has accepted fewer than `k` events; its log has dropped
    /// some of them; memory was refused. The session is as it was then.
    pub fn jump(&mut self, alloc: Global, k: u64) -> Result<Vec<Event>, JumpError>
        ensures { Jumps (jump_fault k self.old.machine) k self.old result self.new }
    {
        if let Some(fault) = jump_fault(&self.machine, k) {
            return Err(fault);
        }
        // So that the proof knows what a log begins with that has all events.
        self.machine.replay();
        let undone = events_from(alloc, &self.machine, k as usize)?;
        self.machine = booted_again(alloc, &self.machine, k as usize)?;
        Ok(undone)
    }
}

// A machine that is booted from what this one was booted from, and of which the first events of this
// one's log are made.
#[inline(never)]
fn booted_again<T: Tlb + Drop, D: Console + Drop>(
    alloc: Global,
    past: &Machine<T, D>,
    number: usize,
) -> Result<Machine<T, D>, AllocError>
    requires whole { past.now.base ≡ boot_state past.now.start }
    requires inside { number ≤ length past.now.log }
    ensures { IfOk result (λ machine. Continues (history_at_boot past.now.start)
        (take number (events_of past.now.log)) machine) }
{
    past.replay();
    let mut machine = past.boot_again(alloc)?;
    repeat(past, &mut machine, number)?;
    Ok(machine)
}
