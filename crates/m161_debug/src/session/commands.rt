//! The commands of a session.

ghost use Rattle.std.specs.Prelude.{◌≡◌, ◌<◌, ◌≤◌, ◌++◌, ◌+◌, Bool, true, None, Some, Ok, List, length, nat_le, codes, decimal, string_bytes, string_capacity, string_len, IfOk, IsErr, OnErr, OnOk};
ghost use Rattle.m161_machine.specs.declared.event.Event.{Event};
ghost use Rattle.m161_debug.specs.declared.command.Change.TheVariants as changes;
ghost use Rattle.m161_debug.specs.declared.command.Command.TheVariants as commands;
ghost use Rattle.m161_text.specs.Parts.{◌␣◌, word_text};
ghost use Rattle.m161_text.specs.Lines.{with_line_end};
ghost use Rattle.m161_debug.specs.Obeys.{area_text, condition_fault, display_text, fetch_fault, is_shown, is_there, register_fault, register_text, Commands, Obeys};

use crate::breakpoints::Breakpoint;
use crate::command::{Area, Change, Command, CommandError, Display, command_of};
use crate::condition::Condition;
use crate::limits::{are_fetched, has_processor, is_number_of_steps, is_of_kind, is_span};
use crate::mark::physical_of;
use crate::room::{put_event, put_outcome, put_refusal, put_stop_line};
use crate::session::Session;
use m161_bus::Console;
use m161_elf::is_in_ram;
use m161_isa::Reg;
use m161_machine::Event;
use m161_text::{Word, put};
use m161_tlb::Tlb;
use std::alloc::AllocError;
use std::fmt::Write;

/// The longest line that a run or an event prints, with its end.
const LONGEST: usize = 93;

impl<T: Tlb + Drop, D: Console + Drop> Session<T, D> {
    /// Does a command and appends what it prints; `rest` are the remaining events of a schedule.
    /// Returns how many of them were used up.
    ///
    /// # Errors
    /// The first that holds: the line's word isn't a command's; its arguments aren't the command's,
    /// or are outside its limits; there is no such processor; there are 64 other breakpoints;
    /// memory was refused. Machine, breakpoints and text are unchanged then.
    pub fn command(
        &mut self,
        line: &str,
        rest: &[Event],
        text: &mut String,
    ) -> Result<usize, CommandError>
        ensures { Commands line.now self.old rest.now result self.new
            (string_bytes text.old) (string_bytes text.new) }
    {
        let command = command_of(&self.style.symbols, line)?;
        self.obey(command, rest, text)
    }

    // Does a command.
    fn obey(
        &mut self,
        command: Command,
        rest: &[Event],
        text: &mut String,
    ) -> Result<usize, CommandError>
        ensures { Obeys (Ok command) self.old rest.now result self.new
            (string_bytes text.old) (string_bytes text.new) }
    {
        match command {
            Command::Breakpoint(Change::Set, p, address) => self.set(p, address, text),
            Command::Breakpoint(Change::Delete, p, address) => self.unset(p, address, text),
            Command::Make(event) => self.make(event, text),
            Command::Steps(p, n) => self.make_steps(p, n, text),
            Command::Go => self.go_all(rest, text),
            Command::GoFirst(n) => self.go_first(n, rest, text),
            Command::Until(condition) => self.go_until(condition, rest, text),
            Command::Show(display, p) => self.show(display, p, text),
            Command::Register(p, r) => self.show_register(p, r, text),
            Command::Where => self.show_places(text),
            Command::Words(area, address, n) => self.show_words(area, address, n, text),
            Command::Fetched(address, n, p) => self.show_instructions(address, n, p, text),
            Command::Log(n) => self.show_entries(n, text),
            Command::At => self.show_place(rest.len(), text),
        }
    }

    // What setting a breakpoint prints.
    fn break_line(&self, p: u32, address: u32) -> Result<String, AllocError>
        ensures { IfOk result (λ line. string_bytes line
            ≡ with_line_end (codes "break" ␣ decimal p ␣ word_text address)) }
    {
        let mut line = String::new(self.machine.allocator());
        writeln!(line, "break {p} {}", Word(address))?;
        Ok(line)
    }

    // Sets a breakpoint; the text first, since only that may fail.
    fn set(&mut self, p: u32, address: u32, text: &mut String) -> Result<usize, CommandError>
        ensures { (rest : List Event) → Obeys (Ok (commands.Breakpoint changes.Set p address))
            self.old rest result self.new (string_bytes text.old) (string_bytes text.new) }
    {
        if let Some(error) = self.break_fault(Breakpoint::new(p, address)) {
            return Err(CommandError::from(error));
        }
        let line = self.break_line(p, address)?;
        text.push_str(line.as_str())?;
        let _set = self.breakpoint(p, address);
        Ok(0)
    }

    // Deletes a breakpoint; the text first.
    fn unset(&mut self, p: u32, address: u32, text: &mut String) -> Result<usize, CommandError>
        ensures { (rest : List Event) → Obeys (Ok (commands.Breakpoint changes.Delete p address))
            self.old rest result self.new (string_bytes text.old) (string_bytes text.new) }
    {
        if self.breakpoints.has(Breakpoint::new(p, address)) {
            text.push_str("deleted\n")?;
        } else {
            text.push_str("none\n")?;
        }
        self.delete(p, address);
        Ok(0)
    }

    // Makes an event; room for the text first, since the event can't be undone.
    fn make(&mut self, event: Event, text: &mut String) -> Result<usize, CommandError>
        ensures { (rest : List Event) → Obeys (Ok (commands.Make event)) self.old rest result
            self.new (string_bytes text.old) (string_bytes text.new) }
    {
        text.reserve(LONGEST)?;
        match self.step(event) {
            Ok(outcome) => {
                put_event(text, event);
                put(text, " ");
                put_outcome(text, outcome);
            }
            Err(refusal) => {
                put(text, "refused ");
                put_refusal(text, refusal);
            }
        }
        put(text, "\n");
        Ok(0)
    }

    // Makes all remaining events; room for the text first.
    fn go_all(&mut self, rest: &[Event], text: &mut String) -> Result<usize, CommandError>
        ensures { Obeys (Ok commands.Go) self.old rest.now result self.new
            (string_bytes text.old) (string_bytes text.new) }
    {
        text.reserve(LONGEST)?;
        let stop = self.go(rest);
        put_stop_line(text, stop, self.machine.conflict());
        Ok(stop.events_used())
    }

    // Makes the first of the remaining events.
    fn go_first(&mut self, n: u64, rest: &[Event], text: &mut String) -> Result<usize, CommandError>
        ensures { Obeys (Ok (commands.GoFirst n)) self.old rest.now result self.new
            (string_bytes text.old) (string_bytes text.new) }
    {
        if n < rest.len() as u64 {
            self.go_all(&rest[..n as usize], text)
        } else {
            self.go_all(rest, text)
        }
    }

    // Makes Steps of a processor; room for the text first.
    fn make_steps(&mut self, p: u32, n: u32, text: &mut String) -> Result<usize, CommandError>
        ensures { (rest : List Event) → Obeys (Ok (commands.Steps p n)) self.old rest result
            self.new (string_bytes text.old) (string_bytes text.new) }
    {
        if !is_number_of_steps(n) {
            return Err(CommandError::BadArgument);
        }
        text.reserve(LONGEST)?;
        let stop = self.go_steps(p, n);
        put_stop_line(text, stop, self.machine.conflict());
        Ok(0)
    }

    // Why a run doesn't wait for a condition.
    fn condition_fault(&self, condition: Condition) -> Option<CommandError>
        ensures { result ≡ condition_fault condition self.now.machine.state }
    {
        if !is_of_kind(&self.machine, condition) {
            Some(CommandError::BadArgument)
        } else if !has_processor(&self.machine, condition) {
            Some(CommandError::BadProcessor)
        } else {
            None
        }
    }

    // Makes all remaining events until a condition holds; room for the text first.
    fn go_until(
        &mut self,
        condition: Condition,
        rest: &[Event],
        text: &mut String,
    ) -> Result<usize, CommandError>
        ensures { Obeys (Ok (commands.Until condition)) self.old rest.now result self.new
            (string_bytes text.old) (string_bytes text.new) }
    {
        if let Some(error) = self.condition_fault(condition) {
            return Err(error);
        }
        text.reserve(LONGEST)?;
        let stop = self.until(condition, rest);
        put_stop_line(text, stop, self.machine.conflict());
        Ok(stop.events_used())
    }

    // A display of a processor.
    fn display(&self, display: Display, p: u32) -> Result<String, AllocError>
        requires { p < length self.now.machine.state.processors }
        ensures { IfOk result (λ text. string_bytes text
            ≡ display_text display p self.now.machine.state) }
    {
        match display {
            Display::Regs => self.show_regs(p),
            Display::Cop0 => self.show_cop0(p),
            Display::Tlb => self.show_tlb(p),
        }
    }

    // Appends a display of a processor.
    fn show(&mut self, display: Display, p: u32, text: &mut String) -> Result<usize, CommandError>
        ensures { (rest : List Event) → Obeys (Ok (commands.Show display p)) self.old rest result
            self.new (string_bytes text.old) (string_bytes text.new) }
    {
        if p >= self.machine.processors() {
            return Err(CommandError::BadProcessor);
        }
        let shown = self.display(display, p)?;
        text.push_str(shown.as_str())?;
        Ok(0)
    }

    // Why a register isn't shown.
    fn register_fault(&self, p: u32, r: u32) -> Option<CommandError>
        ensures { result ≡ register_fault p r self.now.machine.state }
    {
        if r >= 32 {
            Some(CommandError::BadArgument)
        } else if self.machine.processors() <= p {
            Some(CommandError::BadProcessor)
        } else {
            None
        }
    }

    // The line of a register.
    fn register_line(&self, p: u32, r: u32) -> Result<String, AllocError>
        requires { register_fault p r self.now.machine.state ≡ None }
        ensures { IfOk result (λ line. string_bytes line
            ≡ with_line_end (register_text p r self.now.machine.state)) }
    {
        let mut line = String::new(self.machine.allocator());
        let word = self.machine.reg(p, Reg::new(r as u8));
        writeln!(line, "r{r} {}", Word(word))?;
        Ok(line)
    }

    // Appends a register of a processor.
    fn show_register(&mut self, p: u32, r: u32, text: &mut String) -> Result<usize, CommandError>
        ensures { (rest : List Event) → Obeys (Ok (commands.Register p r)) self.old rest result
            self.new (string_bytes text.old) (string_bytes text.new) }
    {
        if let Some(error) = self.register_fault(p, r) {
            return Err(error);
        }
        let line = self.register_line(p, r)?;
        text.push_str(line.as_str())?;
        Ok(0)
    }

    // The line of the place of a run, of which so many events remain.
    fn place_line(&self, made: u64, all: u128) -> Result<String, AllocError>
        ensures { IfOk result (λ line. string_bytes line
            ≡ with_line_end (codes "at" ␣ decimal made ␣ codes "of" ␣ decimal all)) }
    {
        let mut line = String::new(self.machine.allocator());
        writeln!(line, "at {made} of {all}")?;
        Ok(line)
    }

    // Appends the place of a run, of which so many events remain.
    fn show_place(&mut self, rest: usize, text: &mut String) -> Result<usize, CommandError>
        ensures { (events : List Event) → rest ≡ length events → Obeys (Ok commands.At) self.old events
            result self.new (string_bytes text.old) (string_bytes text.new) }
    {
        let made = self.machine.made();
        let line = self.place_line(made, u128::from(made) + rest as u128)?;
        text.push_str(line.as_str())?;
        Ok(0)
    }

    // Appends where the processors are.
    fn show_places(&mut self, text: &mut String) -> Result<usize, CommandError>
        ensures { (rest : List Event) → Obeys (Ok commands.Where) self.old rest result
            self.new (string_bytes text.old) (string_bytes text.new) }
    {
        let shown = self.show_where()?;
        text.push_str(shown.as_str())?;
        Ok(0)
    }

    // Whether words are in RAM.
    fn are_there(&self, area: Area, address: u32, n: u32) -> bool
        requires { n ≤ 1024 }
        ensures { result ≡ is_there area self.now.machine.state address n }
    {
        match area {
            Area::Memory => {
                let physical = u64::from(physical_of(address));
                physical + 4 * u64::from(n) <= self.machine.memory().len() as u64
            }
            Area::Code => {
                self.machine.replay();
                is_in_ram(self.machine.conf().ram, address, 4 * n)
            }
        }
    }

    // Whether words can be shown.
    fn are_shown(&self, area: Area, address: u32, n: u32) -> bool
        ensures { result ≡ is_shown area self.now.machine.state address n }
    {
        1 <= n && n <= 1024 && address % 4 == 0 && self.are_there(area, address, n)
    }

    // Words of RAM that can be shown.
    fn words(&self, area: Area, address: u32, n: u32) -> Result<String, AllocError>
        requires { is_shown area self.now.machine.state address n ≡ true }
        ensures { IfOk result (λ text. string_bytes text
            ≡ area_text self.now.style area address n self.now.machine.state) }
    {
        match area {
            Area::Memory => self.show_mem(physical_of(address), n),
            Area::Code => self.show_code(address, n),
        }
    }

    // Appends words of RAM.
    fn show_words(
        &mut self,
        area: Area,
        address: u32,
        n: u32,
        text: &mut String,
    ) -> Result<usize, CommandError>
        ensures { (rest : List Event) → Obeys (Ok (commands.Words area address n)) self.old rest
            result self.new (string_bytes text.old) (string_bytes text.new) }
    {
        if !self.are_shown(area, address, n) {
            return Err(CommandError::BadArgument);
        }
        let shown = self.words(area, address, n)?;
        text.push_str(shown.as_str())?;
        Ok(0)
    }

    // Why instructions can't be shown as a processor would fetch them.
    fn fetch_fault(&self, address: u32, n: u32, p: u32) -> Option<CommandError>
        ensures { result ≡ fetch_fault p address n self.now.machine.state }
    {
        if !is_span(address, n) {
            Some(CommandError::BadArgument)
        } else if p >= self.machine.processors() {
            Some(CommandError::BadProcessor)
        } else if are_fetched(&self.machine, p, address, n) {
            None
        } else {
            Some(CommandError::BadArgument)
        }
    }

    // Appends instructions as a processor would fetch them.
    fn show_instructions(
        &mut self,
        address: u32,
        n: u32,
        p: u32,
        text: &mut String,
    ) -> Result<usize, CommandError>
        ensures { (rest : List Event) → Obeys (Ok (commands.Fetched address n p)) self.old rest
            result self.new (string_bytes text.old) (string_bytes text.new) }
    {
        if let Some(error) = self.fetch_fault(address, n, p) {
            return Err(error);
        }
        let shown = self.show_fetched(p, address, n)?;
        text.push_str(shown.as_str())?;
        Ok(0)
    }

    // Appends the last entries of the log.
    fn show_entries(&mut self, n: u32, text: &mut String) -> Result<usize, CommandError>
        ensures { (rest : List Event) → Obeys (Ok (commands.Log n)) self.old rest result self.new
            (string_bytes text.old) (string_bytes text.new) }
    {
        if n < 1 || n > 1024 {
            return Err(CommandError::BadArgument);
        }
        let shown = self.show_log(n as usize)?;
        text.push_str(shown.as_str())?;
        Ok(0)
    }
}
