//! The state of a machine, without its log.

ghost use Rattle.std.specs.Prelude.{◌≡◌, ◌≢◌, ◌⊎◌, ◌+◌, ◌-◌, ◌^◌, ◌<◌, ◌≤◌, ◌∷◌, replicate, length, drop, take, None, Ok, Err, IfNone, IfSome, IfOk, IsOk, OnOk, OnErr, true, false};
ghost use Rattle.m161_cpu.specs.Processor.{started_processor, stopped_processor};
ghost use Rattle.m161_cpu.specs.Step.{IsOfStep};
ghost use Rattle.m161_cpu.specs.declared.processor.Outcome.{Outcome};
ghost use Rattle.m161_machine.specs.declared.event.Event.TheVariants as events;
ghost use Rattle.m161_machine.specs.State.{AreAllApart, CountUpTo, KeepsSizes, State, is_worn, next, refusal, step_result, with_step};
ghost use Rattle.m161_machine.specs.declared.event.Refusal.{Refusal};
ghost use Rattle.m161_machine.specs.Resting.{rests};
ghost use Rattle.m161_machine.specs.Stretch.{Advances, ArePlanned, IsQuiet, IsStretch};
ghost use Rattle.m161_machine.specs.Uses.{MakesStep};
ghost use Rattle.m161_machine.specs.Conf.{is_within_limits};
ghost use Rattle.m161_machine.specs.History.{BootsState, Leads, Makes, MakesEntry, boot_fault, boot_state, events_of};
ghost use Rattle.m161_machine.specs.helpers.History.{start_of};
ghost use Rattle.m161_machine.specs.declared.step.Pace.TheVariants.{Quiet};
ghost use Rattle.m161_machine.specs.helpers.Pace.{outcome_of};

mod again;
mod restore;
mod steps;
mod views;

use crate::conf::{BootError, Conf};
use crate::event::{Conflict, Event, Refusal};
use crate::packed::{PackedEntry, plan_all};
use crate::step::{Pace, step_parts};
use m161_bus::{Board, Console, DoneError};
use m161_cpu::{Cpu, Links, Outcome};
use m161_elf::{Image, load};
use m161_ram::Ram;
use m161_tlb::Tlb;
use std::alloc::{AllocError, Global};
use std::marker::Model;

/// A state of a machine: processors, memory, board and links, without the log. Contracts see it as
/// the state itself.
#[derive(Drop)]
pub struct Core<T: Tlb, D: Console> {
    processors: Vec<Cpu<T>>,
    ram: Ram,
    board: Board<D>,
    links: Links,
    // How many events were accepted since boot.
    made: u64,
    // What switched a strict machine off.
    conflict: Option<Conflict>,
    conf: Conf,
    // CPUE: the processors that were started.
    started: u32,
}

impl<T: Tlb, D: Console> Model for Core<T, D> {
    ghost use Rattle.std.specs.Prelude.{◌≡◌, false};
    ghost use Rattle.m161_machine.specs.State.{CoreValue, state_of};
    ghost use Rattle.m161_machine.specs.Sound.{IsSound};

    ghost Value = { CoreValue };

    ghost view = { λ c. record {
      state =
          state_of c.conf c.processors.items c.ram c.board.state c.links c.made c.conflict;
      room = c.board.room;
    } };

    ghost invariant = { λ c.
        IsSound
        (state_of c.conf c.processors.items c.ram c.board.state c.links c.made c.conflict)
        × (c.started ≡ c.board.state.started)
        × (c.board.changed ≡ false) };
}

/// So many events a machine accepts.
const WORN: u64 = 9_223_372_036_854_775_807;

/// Whether a machine that has accepted this many events since boot accepts no more. No run gets
/// there: at a hundred million events a second it would take three thousand years.
pub fn worn(made: u64) -> bool
    ensures { result ≡ is_worn made }
{
    made >= WORN
}

// The processors at boot: the first, started at the entry, and the others, stopped.
fn first_processors<T: Tlb + Drop>(
    alloc: Global,
    number: u32,
    entry: u32,
) -> Result<Vec<Cpu<T>>, AllocError>
    requires { 1 ≤ number }
    ensures { IfOk result (λ processors.
        processors.items
        ≡ started_processor entry 0 0 0 ∷ replicate (number - 1) stopped_processor) }
{
    let mut first = Cpu::new();
    first.start(entry, 0, 0);
    let mut processors = Vec::with_capacity(alloc, number as usize)?;
    processors.push_reserved(first);
    for made in 1..number {
        processors.push_reserved(Cpu::new());
    }
    Ok(processors)
}

// Copies of these processors.
fn copy_processors<T: Tlb + Drop>(
    alloc: Global,
    processors: &Vec<Cpu<T>>,
) -> Result<Vec<Cpu<T>>, AllocError>
    ensures { IfOk result (λ copies. copies.items ≡ processors.now.items) }
{
    let mut copies = Vec::with_capacity(alloc, processors.len())?;
    for processor in processors.iter() {
        copies.push_reserved(processor.copy());
    }
    Ok(copies)
}

impl<T: Tlb + Drop, D: Console + Drop> Core<T, D> {
    /// The state at boot: processor 0 is started at the entry, the others are stopped, and RAM has
    /// these bytes. Allocates the processors and the console's room.
    #[inline(never)]
    pub(crate) fn at_boot(
        alloc: Global,
        bytes: Vec<u8>,
        entry: u32,
        conf: Conf,
    ) -> Result<Core<T, D>, AllocError>
        requires limits { is_within_limits conf ≡ true }
        requires ram { length bytes.items ≡ conf.ram }
        ensures { IfOk result (λ core. core.state ≡ boot_state (start_of bytes.items entry conf)) }
    {
        let processors = first_processors(alloc, conf.processors, entry)?;
        let console = D::fresh(alloc)?;
        Ok(Core {
            processors,
            ram: Ram::from_bytes(bytes),
            board: Board::new(console, conf.ram, conf.processors),
            links: Links::new(conf.link),
            made: 0,
            conflict: None,
            conf,
            started: 1,
        })
    }

    /// Boots a file, with no log: the state alone. Allocates the RAM of the configuration, the room of
    /// a console, and the rest of a state.
    ///
    /// # Errors
    /// Those of `Machine::boot`, where the configuration and the file are the same.
    #[inline(never)]
    pub fn boot(alloc: Global, file: &[u8], conf: Conf) -> Result<Core<T, D>, BootError>
        ensures { BootsState file.now conf (boot_fault file.now conf) result }
    {
        if !conf.is_within_limits() {
            return Err(BootError::BadConf);
        }
        let Image { entry, bytes } = load(alloc, file, conf.ram)?;
        let core = Core::at_boot(alloc, bytes, entry, conf)?;
        Ok(core)
    }

    /// The same state again, with at least the same room. Allocates as much memory as it has.
    #[inline(never)]
    pub fn copy(&self, alloc: Global) -> Result<Core<T, D>, AllocError>
        ensures state { IfOk result (λ core. core.state ≡ self.now.state) }
        ensures room { IfOk result (λ core. self.now.room ≤ core.room) }
    {
        let processors = copy_processors(alloc, &self.processors)?;
        let ram = self.ram.copy(alloc)?;
        let board = self.board.copy(alloc)?;
        Ok(Core {
            processors,
            ram,
            board,
            links: self.links.copy(),
            made: self.made,
            conflict: self.conflict,
            conf: self.conf,
            started: self.started,
        })
    }
}

impl<T: Tlb, D: Console> Core<T, D> {
    /// Makes one Step of a processor. Does not allocate.
    ///
    /// # Errors
    /// The first refusal that holds. Nothing is changed then.
    pub fn step(&mut self, p: u32) -> Result<Outcome, Refusal>
        ensures makes { Makes self.old.state (events.Step p) result self.new.state }
        ensures sizes { KeepsSizes self.old.state self.new.state }
        ensures room { self.new.room ≡ self.old.room }
        ensures proper { IfOk result (λ outcome. (p < 32) × IsOfStep outcome) }
    {
        match self.packed_step(p) {
            Ok(made) => Ok(made.entry().outcome),
            Err(refusal) => Err(refusal),
        }
    }

    /// Makes one Step of a processor that no refusal holds of. The same as `step`, in less time.
    #[inline(always)]
    pub fn make(&mut self, p: u32)
        requires { refusal self.old.state (events.Step p) ≡ None }
        ensures made { MakesStep self.old.state p self.new.state }
        ensures sizes { KeepsSizes self.old.state self.new.state }
        ensures room { self.new.room ≡ self.old.room }
    {
        let mut kept = [PackedEntry::blank()];
        let _made = self.advance(p, &mut kept);
    }

    /// Makes a Step of processor `p` for each place of `kept`, until one of them switches the machine
    /// off; and writes each one's entry into its place. Returns how many were made.
    #[inline(always)]
    pub(crate) fn advance(&mut self, p: u32, kept: &mut [PackedEntry]) -> usize
        requires place { p < length self.old.state.processors }
        requires on { self.old.state.board.off ≡ false }
        requires few { self.old.state.made + length kept.old ≤ 2 ^ 63 - 1 }
        ensures advances { Advances p self.old.state (take result kept.new) self.new.state }
        ensures length { length kept.new ≡ length kept.old }
        ensures within { result ≤ length kept.old }
        ensures some { 1 ≤ length kept.old → 1 ≤ result }
        ensures end { result ≡ length kept.old
            ⊎ (result < length kept.old) × (self.new.state.board.off ≡ true) }
        ensures sizes { KeepsSizes self.old.state self.new.state }
        ensures room { self.new.room ≡ self.old.room }
    {
        self.law();
        plan_all(kept, p);
        self.make_planned(kept, false)
    }

    /// Makes the Steps that the places of `kept` name, until one of them switches the machine off
    /// or, in a stretch, isn't plain; and writes each one's entry into its place. Returns how many
    /// were made. Its loop is the only place in a program with the code of a Step.
    #[inline(never)]
    pub(crate) fn make_planned(&mut self, kept: &mut [PackedEntry], stretch: bool) -> usize
        requires planned { ArePlanned (length self.old.state.processors) kept.old }
        requires on { self.old.state.board.off ≡ false }
        requires few { self.old.state.made + length kept.old ≤ 2 ^ 63 - 1 }
        ensures leads { Leads self.old.state (take result kept.new) self.new.state }
        ensures events { events_of (take result kept.new) ≡ events_of (take result kept.old) }
        ensures behind { drop result kept.new ≡ drop result kept.old }
        ensures length { length kept.new ≡ length kept.old }
        ensures within { result ≤ length kept.old }
        ensures some { 1 ≤ length kept.old → 1 ≤ result }
        ensures end { stretch ≡ false → result ≡ length kept.old
            ⊎ (result < length kept.old) × (self.new.state.board.off ≡ true) }
        ensures stretch { stretch ≡ true → 1 ≤ length kept.old
            → IsStretch self.old.state (take result kept.new) self.new.state }
        ensures sizes { KeepsSizes self.old.state self.new.state }
        ensures room { self.new.room ≡ self.old.room }
    {
        self.law();
        let mut made = 0;
        while made < kept.len() {
            let p = kept[made].processor();
            match self.make_step(p) {
                // The place has this Step's entry.
                Pace::Quiet => {
                    made += 1;
                    if stretch && !self.is_running(p) {
                        return made;
                    }
                }
                Pace::Aside(outcome) => {
                    kept[made] = PackedEntry::of_step(p, outcome);
                    made += 1;
                    if stretch || self.is_off() {
                        return made;
                    }
                }
            }
        }
        made
    }

    // Makes a Step of processor `p`, and then starts the processors that the Step put into CPUE.
    // Tests no refusal.
    #[inline(always)]
    fn make_step(&mut self, p: u32) -> Pace
        requires processor { p < length self.old.state.processors }
        requires few_made { self.old.state.made < 2 ^ 63 - 1 }
        ensures outcome { outcome_of result ≡ (step_result p self.old.state).outcome }
        ensures state { self.new.state ≡ with_step p (step_result p self.old.state) self.old.state }
        ensures sizes { KeepsSizes self.old.state self.new.state }
        ensures room { self.new.room ≡ self.old.room }
        ensures proper { IsOfStep (outcome_of result) }
        ensures few { length self.old.state.processors ≤ 32 }
        ensures quiet { result ≡ Quiet → IsQuiet p self.old.state self.new.state }
    {
        let Core {
            processors,
            ram,
            board,
            links,
            made,
            conflict,
            started,
            conf,
        } = self;
        let pace = step_parts(
            processors,
            p,
            ram,
            board,
            links,
            conflict,
            started,
            conf.strict,
        );
        *made += 1;
        pace
    }

    // Whether processor `p` executes instructions; then its next Step isn't idle.
    #[inline(always)]
    #[tactic(auto, unfolding(crate::specs::Resting::rests))]
    fn is_running(&self, p: u32) -> bool
        requires { p < length self.now.state.processors }
        ensures { result ≡ true → rests p self.now.state ≡ false }
    {
        self.processors[p as usize].is_running()
    }

    /// The first refusal that holds of a Step.
    #[inline(always)]
    pub fn refusal(&self, p: u32) -> Option<Refusal>
        ensures value { result ≡ refusal self.now.state (events.Step p) }
        ensures within { IfNone result ((p < length self.now.state.processors) × (p < 32)) }
        ensures on { IfNone result (self.now.state.board.off ≡ false) }
        ensures few { IfNone result (self.now.state.made < 2 ^ 63 - 1) }
    {
        self.law();
        if p >= self.processors() {
            Some(Refusal::BadProcessor)
        } else {
            self.refusal_of_input()
        }
    }

    /// The first refusal that holds of any event.
    #[inline(always)]
    pub(crate) fn refusal_of_input(&self) -> Option<Refusal>
        ensures value { result ≡ refusal self.now.state events.Done }
        ensures on { IfNone result (self.now.state.board.off ≡ false) }
        ensures few { IfNone result (self.now.state.made < 2 ^ 63 - 1) }
    {
        if self.board.is_off() {
            Some(Refusal::Off)
        } else if worn(self.made) {
            Some(Refusal::Worn)
        } else {
            None
        }
    }

    /// The least of `n` and the number of events until it is worn.
    pub(crate) fn before_worn(&self, n: usize) -> usize
        requires { self.now.state.made ≤ 2 ^ 63 - 1 }
        ensures few { self.now.state.made + result ≤ 2 ^ 63 - 1 }
        ensures least { result ≡ n ⊎ (result < n) × (self.now.state.made + result ≡ 2 ^ 63 - 1) }
    {
        let left = WORN - self.made;
        if n as u64 <= left { n } else { left as usize }
    }

    /// Types a byte at the console. Does not allocate.
    ///
    /// # Errors
    /// The first refusal that holds. Nothing is changed then.
    #[tactic(auto, unfolding(crate::specs::State::next))]
    pub fn key(&mut self, byte: u8) -> Result<Outcome, Refusal>
        ensures makes { Makes self.old.state (events.Key byte) result self.new.state }
        ensures sizes { KeepsSizes self.old.state self.new.state }
        ensures room { self.new.room ≡ self.old.room }
    {
        if let Some(refusal) = self.refusal_of_input() {
            return Err(refusal);
        }
        match self.board.key(byte) {
            Ok(()) => {}
            Err(_) => return Err(Refusal::KeyFull),
        }
        self.made += 1;
        Ok(Outcome::Taken)
    }

    /// The console has sent the byte in its latch. Takes at most one byte's room, and allocates
    /// only if there is none.
    ///
    /// # Errors
    /// The first refusal that holds, or else `NoMemory`. Nothing is changed then.
    #[tactic(auto, unfolding(crate::specs::State::next))]
    pub fn done(&mut self) -> Result<Outcome, Refusal>
        ensures makes { Makes self.old.state events.Done result self.new.state }
        ensures sizes { KeepsSizes self.old.state self.new.state }
        ensures room { self.old.room ≤ self.new.room + 1 }
        ensures succeeds { 1 ≤ self.old.room → result ≢ Err Refusal.NoMemory }
        ensures err { OnErr result (self.new.room ≡ self.old.room) }
    {
        if let Some(refusal) = self.refusal_of_input() {
            return Err(refusal);
        }
        match self.board.done() {
            Ok(()) => {}
            Err(DoneError::NothingSent) => return Err(Refusal::NothingSent),
            Err(DoneError::NoMemory) => return Err(Refusal::NoMemory),
        }
        self.made += 1;
        Ok(Outcome::Taken)
    }

    /// The first refusal that holds of a Done, want of memory aside.
    #[tactic(auto, unfolding(crate::specs::State::next))]
    pub fn refusal_of_done(&self) -> Option<Refusal>
        ensures some { IfSome result (λ refusal. next self.now.state events.Done ≡ Err refusal) }
        ensures none { IfNone result ((r : Outcome × State) × (next self.now.state events.Done ≡ Ok r)) }
    {
        if let Some(refusal) = self.refusal_of_input() {
            return Some(refusal);
        }
        match self.board.latch() {
            Some(_byte) => None,
            None => Some(Refusal::NothingSent),
        }
    }

    /// Makes room for the console to send this many bytes; allocates only if there is less.
    ///
    /// # Errors
    /// Memory was refused. Nothing is changed then.
    pub fn reserve(&mut self, n: usize) -> Result<(), AllocError>
        ensures state { self.new.state ≡ self.old.state }
        ensures more { self.old.room ≤ self.new.room }
        ensures ok { OnOk result (n ≤ self.new.room) }
        ensures succeeds { n ≤ self.old.room → IsOk result }
        ensures err { OnErr result (self.new.room ≡ self.old.room) }
    {
        self.board.reserve(n)
    }

    /// The law of every state: there are as many processors as the board says, at most 32; RAM has at
    /// most 2^29 bytes; the configuration is within the limits; no processor has made more Steps than
    /// events were accepted; on a strict machine no two rows of a processor's TLB overlap; and a link
    /// is to a word or to a line, as the configuration says.
    pub fn law(&self)
        ensures number { length self.now.state.processors ≡ self.now.state.board.processors }
        ensures few { length self.now.state.processors ≤ 32 }
        ensures memory { length self.now.state.memory ≤ 2 ^ 29 }
        ensures limits { is_within_limits self.now.state.conf ≡ true }
        ensures counts { CountUpTo self.now.state.made self.now.state.processors }
        ensures apart { self.now.state.conf.strict ≡ true → AreAllApart self.now.state.processors }
        ensures unit { self.now.state.links.unit ≡ self.now.state.conf.link }
    {
        let _processors = &self.processors;
    }

    /// Makes an event, by its kind.
    ///
    /// # Errors
    /// Those of `step`, `key` or `done`.
    pub fn event(&mut self, event: Event) -> Result<Outcome, Refusal>
        ensures makes { Makes self.old.state event result self.new.state }
        ensures sizes { KeepsSizes self.old.state self.new.state }
        ensures room { self.old.room ≤ self.new.room + 1 }
        ensures succeeds { event ≡ events.Done → 1 ≤ self.old.room → result ≢ Err Refusal.NoMemory }
        ensures err { OnErr result (self.new.room ≡ self.old.room) }
    {
        match event {
            Event::Step(p) => self.step(p),
            Event::Key(byte) => self.key(byte),
            Event::Done => self.done(),
        }
    }

    /// Makes an event, and returns its entry, as it is stored.
    ///
    /// # Errors
    /// Those of `event`.
    pub fn packed_event(&mut self, event: Event) -> Result<PackedEntry, Refusal>
        ensures makes { MakesEntry self.old.state event result self.new.state }
        ensures sizes { KeepsSizes self.old.state self.new.state }
        ensures room { self.old.room ≤ self.new.room + 1 }
        ensures succeeds { event ≡ events.Done → 1 ≤ self.old.room → result ≢ Err Refusal.NoMemory }
        ensures err { OnErr result (self.new.room ≡ self.old.room) }
    {
        match event {
            Event::Step(p) => self.packed_step(p),
            Event::Key(byte) => match self.key(byte) {
                Ok(_outcome) => Ok(PackedEntry::of_key(byte)),
                Err(refusal) => Err(refusal),
            },
            Event::Done => match self.done() {
                Ok(_outcome) => Ok(PackedEntry::of_done()),
                Err(refusal) => Err(refusal),
            },
        }
    }

    // Makes one Step, and returns its entry.
    fn packed_step(&mut self, p: u32) -> Result<PackedEntry, Refusal>
        ensures makes { MakesEntry self.old.state (events.Step p) result self.new.state }
        ensures sizes { KeepsSizes self.old.state self.new.state }
        ensures room { self.new.room ≡ self.old.room }
        ensures proper { IfOk result (λ entry. (p < 32) × IsOfStep entry.outcome) }
    {
        if let Some(refusal) = self.refusal(p) {
            return Err(refusal);
        }
        let mut kept = [PackedEntry::blank()];
        let _made = self.advance(p, &mut kept);
        Ok(kept[0])
    }
}
