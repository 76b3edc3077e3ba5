//! The lines of a run, and the pieces in which they are written.

ghost use Rattle.std.specs.Prelude.{◌≡◌, ◌+◌, ◌++◌, ◌<◌, ◌^◌, ◌-◌, ◌∷◌, [], IfErr, IfOk, OnOk, Ok, string_bytes, true};
ghost use Rattle.std.specs.Io.KnownBytes.{Appends};
ghost use Rattle.m161_machine.specs.History.{entry};
ghost use Rattle.m161_machine.specs.State.{State, next};
ghost use Rattle.m161_text.specs.Lines.{with_line_end};
ghost use Rattle.m161_trace.specs.Line.{event_line_with};
ghost use Rattle.s161_run.specs.Runs.{stop_line};
ghost use Rattle.m161_cpu.specs.declared.processor.Outcome.{Outcome};
ghost use Rattle.s161_texts.specs.Shared.{event_touches};
ghost use Rattle.s161_texts.specs.helpers.Marks.{marks_after};
ghost use Rattle.s161_texts.specs.helpers.Printing.{FailsToPrint, FailsToPut, IsNew, Prints, PutsOut, has_line, touches_now};

use crate::filter::LineFilter;
use crate::shared::SharedWords;
use m161::{Console, Machine, Tlb};
use m161_machine::{Event, Outcome};
use m161_trace::Tracer;
use s161_base::fault::Fault;
use s161_base::streams::send;
use s161_run::events::RunStop;
use std::alloc::{AllocError, Global};
use std::io::Write;

/// The most bytes of a piece.
const MOST: usize = 65_536;

/// The lines of a run so far, and the state in which its next event is made.
#[derive(Drop)]
pub(crate) struct Lines {
    filter: LineFilter,
    // The number of the next event.
    number: u64,
    tracer: Tracer<Tlb, Console>,
    // What is noted of the words that the events touch.
    noted: SharedWords,
    // Room for a line.
    line: String,
    // Whole lines that aren't written yet.
    piece: String,
}

// Writes the lines of a piece.
fn write_out<'a, O: Write>(piece: &mut String, output: &mut O) -> Result<(), Fault<'a>>
    ensures ok { OnOk result (PutsOut (O.contents output.old) (string_bytes piece.old) []
        (O.contents output.new) (string_bytes piece.new)) }
    ensures err { IfErr result (FailsToPut (O.contents output.old) (string_bytes piece.old) []
        (O.contents output.new)) }
{
    send(output, piece.as_bytes())?;
    piece.clear();
    Ok(())
}

// The same, if there is no room for so many bytes more.
#[tactic(auto, using(crate::proofs::Printing::puts_none))]
fn make_room<'a, O: Write>(piece: &mut String, more: usize, output: &mut O) -> Result<(), Fault<'a>>
    ensures ok { OnOk result (PutsOut (O.contents output.old) (string_bytes piece.old) []
        (O.contents output.new) (string_bytes piece.new)) }
    ensures err { IfErr result (FailsToPut (O.contents output.old) (string_bytes piece.old) []
        (O.contents output.new)) }
{
    if more <= MOST.saturating_sub(piece.len()) {
        Ok(())
    } else {
        write_out(piece, output)
    }
}

// Keeps a line behind the others of a piece; where they would be too much with it, they are written
// first.
fn keep<'a, O: Write>(piece: &mut String, line: &str, output: &mut O) -> Result<(), Fault<'a>>
    ensures ok { OnOk result (PutsOut (O.contents output.old) (string_bytes piece.old) line.now
        (O.contents output.new) (string_bytes piece.new)) }
    ensures err { IfErr result (FailsToPut (O.contents output.old) (string_bytes piece.old) line.now
        (O.contents output.new)) }
{
    make_room(piece, line.len(), output)?;
    piece.push_str(line)?;
    Ok(())
}

// Notes what an event touches which is accepted in the tracer's state.
fn note_event(
    noted: &mut SharedWords,
    tracer: &Tracer<Tlb, Console>,
    event: Event,
    outcome: Outcome,
)
    requires { (t : State) × (next tracer.now event ≡ Ok (outcome, t)) }
    ensures { noted.new.marks.items ≡ marks_after noted.old.marks.items
        (event_touches event tracer.now outcome) }
{
    match event {
        Event::Step(p) => noted.note(p, tracer.touched(event, outcome)),
        Event::Key(_) | Event::Done => {}
    }
}

// The last line: why a run stopped.
fn stop_text(alloc: Global, stop: RunStop) -> Result<String, AllocError>
    ensures { IfOk result (λ text. string_bytes text ≡ with_line_end (stop_line stop)) }
{
    format!(in alloc; "{stop}\n")
}

impl Lines {
    /// No lines yet, of a run from the machine's state on, whose touches are noted here.
    #[inline(never)]
    pub(crate) fn new(
        alloc: Global,
        machine: &Machine,
        filter: LineFilter,
        noted: SharedWords,
    ) -> Result<Lines, AllocError>
        ensures { IfOk result (IsNew filter noted machine.now.state) }
    {
        Ok(Lines {
            filter,
            number: 0,
            tracer: Tracer::new(alloc, machine.core().copy(alloc)?),
            noted,
            line: String::new(alloc),
            piece: String::with_capacity(alloc, MOST)?,
        })
    }

    // Notes what an event touches which is accepted in the tracer's state, if its number is in the
    // filter's range.
    fn note(&mut self, event: Event, outcome: Outcome)
        requires { (t : State) × (next self.old.tracer event ≡ Ok (outcome, t)) }
        ensures noted { self.new.noted.marks.items ≡ marks_after self.old.noted.marks.items
            (touches_now self.old.filter self.old.number self.old.tracer event outcome) }
        ensures tracer { self.new.tracer ≡ self.old.tracer }
        ensures number { self.new.number ≡ self.old.number }
        ensures filter { self.new.filter ≡ self.old.filter }
        ensures piece { self.new.piece ≡ self.old.piece }
    {
        if self.noted.notes_nothing() {
            return;
        }
        if self.filter.has_number(self.number) {
            note_event(&mut self.noted, &self.tracer, event, outcome);
        }
    }

    // Makes an accepted event on the tracer's state, without a line.
    fn pass(&mut self, event: Event, outcome: Outcome) -> Result<(), AllocError>
        requires accepted { (t : State) × (next self.old.tracer event ≡ Ok (outcome, t)) }
        requires few { self.old.number < 2 ^ 64 - 1 }
        ensures made { OnOk result ((o : Outcome) (t : State)
            → next self.old.tracer event ≡ Ok (o, t) → self.new.tracer ≡ t) }
        ensures number { OnOk result (self.new.number ≡ self.old.number + 1) }
        ensures filter { self.new.filter ≡ self.old.filter }
        ensures piece { string_bytes self.new.piece ≡ string_bytes self.old.piece }
        ensures noted { self.new.noted.marks.items ≡ marks_after self.old.noted.marks.items
            (touches_now self.old.filter self.old.number self.old.tracer event outcome) }
    {
        self.note(event, outcome);
        match self.tracer.pass(event) {
            Ok(_) => {
                self.number += 1;
                Ok(())
            }
            Err(_) => Err(AllocError),
        }
    }

    // Writes the line of an event that the machine has just accepted into its room.
    fn write(&mut self, machine: &Machine, event: Event, outcome: Outcome) -> Result<(), AllocError>
        requires accepted { next self.old.tracer event ≡ Ok (outcome, machine.now.state) }
        requires few { self.old.number < 2 ^ 64 - 1 }
        ensures line { OnOk result (string_bytes self.new.line ≡ with_line_end
            (event_line_with self.old.filter.style self.old.filter.loads self.old.number event
            self.old.tracer outcome machine.now.state)) }
        ensures tracer { OnOk result (self.new.tracer ≡ machine.now.state) }
        ensures number { OnOk result (self.new.number ≡ self.old.number + 1) }
        ensures filter { self.new.filter ≡ self.old.filter }
        ensures piece { string_bytes self.new.piece ≡ string_bytes self.old.piece }
        ensures noted { self.new.noted.marks.items ≡ marks_after self.old.noted.marks.items
            (touches_now self.old.filter self.old.number self.old.tracer event outcome) }
    {
        self.note(event, outcome);
        self.line.clear();
        let number = self.number;
        let LineFilter { style, loads, .. } = &self.filter;
        self.tracer.line_with(
            machine,
            event,
            outcome,
            number,
            style,
            *loads,
            &mut self.line,
        )?;
        self.number += 1;
        Ok(())
    }

    // Puts out the line in its room.
    fn put<'a, O: Write>(&mut self, output: &mut O) -> Result<(), Fault<'a>>
        ensures ok { OnOk result (PutsOut (O.contents output.old) (string_bytes self.old.piece)
            (string_bytes self.old.line) (O.contents output.new) (string_bytes self.new.piece)) }
        ensures err { IfErr result (FailsToPut (O.contents output.old)
            (string_bytes self.old.piece) (string_bytes self.old.line) (O.contents output.new)) }
        ensures tracer { self.new.tracer ≡ self.old.tracer }
        ensures number { self.new.number ≡ self.old.number }
        ensures filter { self.new.filter ≡ self.old.filter }
        ensures noted { self.new.noted ≡ self.old.noted }
    {
        keep(&mut self.piece, self.line.as_str(), output)
    }

    // Puts out the line of an event that the machine has just accepted.
    fn add_line<'a, O: Write>(
        &mut self,
        machine: &Machine,
        event: Event,
        outcome: Outcome,
        output: &mut O,
    ) -> Result<(), Fault<'a>>
        requires has { has_line self.old.filter self.old.number self.old.tracer event outcome ≡ true }
        requires accepted { next self.old.tracer event ≡ Ok (outcome, machine.now.state) }
        requires few { self.old.number < 2 ^ 64 - 1 }
        ensures ok { OnOk result (Prints self.old (O.contents output.old)
            (entry event outcome ∷ []) machine.now.state self.new (O.contents output.new)) }
        ensures err { IfErr result (FailsToPrint self.old (O.contents output.old)
            (entry event outcome ∷ []) machine.now.state (O.contents output.new)) }
    {
        self.write(machine, event, outcome)?;
        self.put(output)?;
        Ok(())
    }

    /// Puts out the line of an event that the machine has just accepted, if it has one.
    pub(crate) fn add<'a, O: Write>(
        &mut self,
        machine: &Machine,
        event: Event,
        outcome: Outcome,
        output: &mut O,
    ) -> Result<(), Fault<'a>>
        requires accepted { next self.old.tracer event ≡ Ok (outcome, machine.now.state) }
        requires few { self.old.number < 2 ^ 64 - 1 }
        ensures ok { OnOk result (Prints self.old (O.contents output.old)
            (entry event outcome ∷ []) machine.now.state self.new (O.contents output.new)) }
        ensures err { IfErr result (FailsToPrint self.old (O.contents output.old)
            (entry event outcome ∷ []) machine.now.state (O.contents output.new)) }
    {
        if self.filter.has(&self.tracer, self.number, event, outcome) {
            return self.add_line(machine, event, outcome, output);
        }
        self.pass(event, outcome)?;
        Ok(())
    }

    /// How many events were made so far.
    pub(crate) fn number(&self) -> u64
        ensures { result ≡ self.now.number }
    {
        self.number
    }

    /// What was noted of the words that the events touched.
    pub(crate) fn into_noted(self) -> SharedWords
        ensures { result ≡ self.noted }
    {
        let Lines { noted, .. } = self;
        noted
    }

    /// Writes the lines that are kept back, and behind them why the run stopped.
    pub(crate) fn finish<'a, O: Write>(
        &mut self,
        alloc: Global,
        stop: RunStop,
        output: &mut O,
    ) -> Result<(), Fault<'a>>
        ensures ok { OnOk result (Appends (O.contents output.old) (O.contents output.new)
            (string_bytes self.old.piece ++ with_line_end (stop_line stop))) }
        ensures err { IfErr result (FailsToPut (O.contents output.old) (string_bytes self.old.piece)
            (with_line_end (stop_line stop)) (O.contents output.new)) }
    {
        let last = stop_text(alloc, stop)?;
        keep(&mut self.piece, last.as_str(), output)?;
        send(output, self.piece.as_bytes())?;
        Ok(())
    }
}
