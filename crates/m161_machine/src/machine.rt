//! The machine.

ghost use Rattle.std.specs.Prelude.{◌≡◌, ◌⊎◌, ◌+◌, ◌-◌, ◌%◌, ◌<◌, ◌≤◌, ◌^◌, min, true, false, length, replicate, take, All, IfOk};
ghost use Rattle.m161_elf.specs.Image.{is_in_ram};
ghost use Rattle.m161_machine.specs.declared.event.Event.TheVariants as events;
ghost use Rattle.m161_machine.specs.Conf.{is_within_limits};
ghost use Rattle.m161_machine.specs.State.{AreAllApart, CountUpTo, KeepsSizes};
ghost use Rattle.m161_machine.specs.History.{boot_fault, boot_state, history_at_boot, Boots, Answers, CanGive, Continues, CountsSteps, Ends, FitsMode, IsLoaded, IsReached, IsReplay, transfers_of};
ghost use Rattle.m161_machine.specs.StoreHistory.{StoresReplay};
ghost use Rattle.m161_machine.specs.helpers.History.{start_of};
ghost use Rattle.m161_machine.specs.Stretch.{Advances};

mod views;

use crate::conf::{BootError, Conf};
use crate::event::{Event, Refusal};
use crate::packed::{PackedEntry, blanks};
use crate::state::Core;
use crate::window::{AT_ONCE, Window};
use m161_bus::Console;
use m161_cpu::Outcome;
use m161_elf::{Image, load};
use m161_tlb::Tlb;
use std::alloc::{AllocError, Global};
use std::marker::Model;

/// A machine, over any TLB and any console. Contracts see it as its history: what it was booted
/// from, the state at the base of its log, the log, and the state that the log's events lead to.
#[derive(Drop)]
pub struct Machine<T: Tlb, D: Console> {
    // On the heap, so that a machine is small where it is moved.
    present: Box<Core<T, D>>,
    base: Box<Core<T, D>>,
    window: Window,
    // Room for the entries of Steps that are made at once (the window lends no slice to write to).
    fresh: Vec<PackedEntry>,
    image: Image,
    conf: Conf,
}

impl<T: Tlb, D: Console> Model for Machine<T, D> {
    ghost use Rattle.std.specs.Prelude.{◌≡◌, ◌≤◌, length};
    ghost use Rattle.m161_machine.specs.History.{History};
    ghost use Rattle.m161_machine.specs.Sound.{IsLawful};
    ghost use Rattle.m161_machine.specs.History.{transfers_of};

    ghost Value = { History };

    ghost view = { λ m. record {
      start = record { bytes = m.image.bytes.items; entry = m.image.entry; conf = m.conf };
      base = m.base.value.state;
      log = m.window.items;
      state = m.present.value.state;
    } };

    ghost invariant = { λ m.
        IsLawful (record {
          start = record { bytes = m.image.bytes.items; entry = m.image.entry; conf = m.conf };
          base = m.base.value.state;
          log = m.window.items;
          state = m.present.value.state;
        })
        × (m.window.capacity ≡ m.conf.log)
        × (transfers_of m.window.items ≤ m.base.value.room)
        × (length m.fresh.items ≡ 256) };
}

impl<T: Tlb + Drop, D: Console + Drop> Machine<T, D> {
    /// Boots a file. The machine keeps the loaded image and the state at its log's base beside its
    /// memory, so it allocates three times the RAM of its configuration, four bytes for each entry
    /// of the log, the room of two consoles, and two boxes with the rest of a state.
    ///
    /// # Errors
    /// The configuration is outside the limits; or the file can't be loaded; or memory was refused.
    pub fn boot(alloc: Global, file: &[u8], conf: Conf) -> Result<Machine<T, D>, BootError>
        ensures answer { Boots file.now conf (boot_fault file.now conf) result }
        ensures entry { IfOk result (λ m. (m.start.entry % 4 ≡ 0)
            × (is_in_ram conf.ram m.start.entry 1 ≡ true)) }
    {
        if !conf.is_within_limits() {
            return Err(BootError::BadConf);
        }
        let image = load(alloc, file, conf.ram)?;
        let machine = machine_at_boot(alloc, image, conf)?;
        Ok(machine)
    }

    /// A machine that is booted anew, from what this one was booted from. Allocates as `boot` does.
    #[inline(never)]
    pub fn boot_again(&self, alloc: Global) -> Result<Machine<T, D>, AllocError>
        ensures { IfOk result (λ machine. machine ≡ history_at_boot self.now.start) }
    {
        machine_at_boot(alloc, image_again(alloc, &self.image)?, self.conf)
    }

    /// The same machine again. Allocates as much memory as it has.
    #[inline(never)]
    pub fn copy(&self, alloc: Global) -> Result<Machine<T, D>, AllocError>
        ensures { IfOk result (λ machine. machine ≡ self.now) }
    {
        let present = Box::new(alloc, self.present.copy(alloc)?)?;
        let base = Box::new(alloc, self.base.copy(alloc)?)?;
        let window = self.window.copy(alloc)?;
        let fresh = blanks(alloc, AT_ONCE)?;
        let image = image_again(alloc, &self.image)?;
        Ok(Machine {
            present,
            base,
            window,
            fresh,
            image,
            conf: self.conf,
        })
    }

    /// The state alone; start, base and log are let go.
    #[inline(never)]
    pub fn into_core(self) -> Core<T, D>
        ensures { result.state ≡ self.state }
    {
        let Machine {
            present,
            base: _,
            window: _,
            fresh: _,
            image: _,
            conf: _,
        } = self;
        Box::into_inner(present)
    }

    /// The state at the base of the log alone: the log's events, made on it, lead to the machine's
    /// state. Its console has room for all that they send.
    #[inline(never)]
    pub fn into_base(self) -> Core<T, D>
        ensures state { result.state ≡ self.base }
        ensures room { transfers_of self.log ≤ result.room }
    {
        let Machine {
            present: _,
            base,
            window: _,
            fresh: _,
            image: _,
            conf: _,
        } = self;
        Box::into_inner(base)
    }
}

impl<T: Tlb, D: Console> Machine<T, D> {
    /// Makes one Step of a processor. Does not allocate.
    ///
    /// # Errors
    /// The first refusal that holds. Nothing is changed then, and nothing logged.
    pub fn step(&mut self, p: u32) -> Result<Outcome, Refusal>
        ensures answers { Answers self.old (events.Step p) result self.new }
        ensures processors { length self.new.state.processors ≡ length self.old.state.processors }
    {
        let outcome = self.present.step(p)?;
        let kept = [PackedEntry::of_step(p, outcome)];
        self.window.append(&mut *self.base, &kept, 0);
        Ok(outcome)
    }

    /// Makes Steps of a processor, one after the other, until `n` are made or one is refused.
    /// Returns how many were made, and the refusal. The same as this many calls of `step`, in less
    /// time.
    #[inline(never)]
    pub fn steps(&mut self, p: u32, n: u32) -> (u32, Option<Refusal>)
        ensures run { Continues self.old (replicate result.0 (events.Step p)) self.new }
        ensures end { Ends self.new (events.Step p) n result.0 result.1 }
        ensures processors { length self.new.state.processors ≡ length self.old.state.processors }
    {
        self.replay();
        if n == 0 {
            return (0, None);
        }
        if let Some(refusal) = self.present.refusal(p) {
            return (0, Some(refusal));
        }
        let most = self.present.before_worn(n as usize) as u32;
        let made = self.steps_until_off(p, most);
        if made == n {
            (n, None)
        } else if self.is_off() {
            (made, Some(Refusal::Off))
        } else {
            (made, Some(Refusal::Worn))
        }
    }

    // Makes Steps until `most` are made or one of them switches the machine off. Returns how many
    // were made. No other refusal can come between, so the loop doesn't test for any.
    fn steps_until_off(&mut self, p: u32, most: u32) -> u32
        requires place { p < length self.old.state.processors }
        requires on { self.old.state.board.off ≡ false }
        requires few { self.old.state.made + most ≤ 2 ^ 63 - 1 }
        ensures run { Continues self.old (replicate result (events.Step p)) self.new }
        ensures end { result ≡ most ⊎ (result < most) × (self.new.state.board.off ≡ true) }
        ensures made { self.new.state.made ≡ self.old.state.made + result }
        ensures processors { length self.new.state.processors ≡ length self.old.state.processors }
    {
        let at_once = self.conf.log.min(AT_ONCE as u32);
        let mut made = 0;
        while made < most {
            let now = (most - made).min(at_once);
            made += self.steps_at_once(p, now);
            if self.is_off() {
                return made;
            }
        }
        made
    }

    // Makes Steps until `most` are made or one of them switches the machine off, and then appends
    // their entries.
    fn steps_at_once(&mut self, p: u32, most: u32) -> u32
        requires place { p < length self.old.state.processors }
        requires on { self.old.state.board.off ≡ false }
        requires few { self.old.state.made + most ≤ 2 ^ 63 - 1 }
        requires room { (most ≤ 256) × (most ≤ self.old.start.conf.log) }
        ensures run { Continues self.old (replicate result (events.Step p)) self.new }
        ensures some { 1 ≤ most → 1 ≤ result }
        ensures end { result ≡ most ⊎ (result < most) × (self.new.state.board.off ≡ true) }
        ensures made { self.new.state.made ≡ self.old.state.made + result }
        ensures processors { length self.new.state.processors ≡ length self.old.state.processors }
    {
        let Machine {
            present,
            base,
            window,
            fresh,
            image: _,
            conf: _,
        } = self;
        let made = advance_into(&mut **present, p, fresh, most as usize);
        window.append(&mut **base, &fresh[..made], 0);
        made as u32
    }

    /// Types a byte at the console. Does not allocate.
    ///
    /// # Errors
    /// The first refusal that holds. Nothing is changed then, and nothing logged.
    pub fn key(&mut self, byte: u8) -> Result<Outcome, Refusal>
        ensures { Answers self.old (events.Key byte) result self.new }
    {
        let outcome = self.present.key(byte)?;
        let kept = [PackedEntry::of_key(byte)];
        self.window.append(&mut *self.base, &kept, 0);
        Ok(outcome)
    }

    /// The console has sent the byte in its latch. Allocates room for the byte in two consoles: the
    /// machine's, and the one at its log's base.
    ///
    /// # Errors
    /// The first refusal that holds, or else `NoMemory`. Nothing is changed then, and nothing
    /// logged.
    pub fn done(&mut self) -> Result<Outcome, Refusal>
        ensures { Answers self.old events.Done result self.new }
    {
        // Whether the console sends is looked at first, so that NothingSent comes before NoMemory.
        if let Some(refusal) = self.present.refusal_of_done() {
            return Err(refusal);
        }
        let room = self.window.transfers() + 1;
        match self.base.reserve(room) {
            Ok(()) => {}
            Err(_) => return Err(Refusal::NoMemory),
        }
        let outcome = self.present.done()?;
        let kept = [PackedEntry::of_done()];
        self.window.append(&mut *self.base, &kept, 1);
        Ok(outcome)
    }

    /// Makes an event, by its kind.
    ///
    /// # Errors
    /// Those of `step`, `key` or `done`.
    pub fn event(&mut self, event: Event) -> Result<Outcome, Refusal>
        ensures { Answers self.old event result self.new }
    {
        match event {
            Event::Step(p) => self.step(p),
            Event::Key(byte) => self.key(byte),
            Event::Done => self.done(),
        }
    }

    /// The law of every machine: from its base, it is the replay of its log. The log's events are
    /// accepted one after the other with the log's outcomes, and lead to the machine's state. The
    /// base is reached from the state at boot; it is that state while no entry was dropped. The log
    /// has the last entries for which there is room. The configuration is within the limits and
    /// never changes. Since the base each processor has counted exactly its Steps in the log, and
    /// each entry's outcome is one that its event can have, and a conflict only on a strict machine.
    /// There no two rows of a processor's TLB overlap, in the state and in the base. In both, a link
    /// is to a word or to a line, as the configuration says.
    pub fn replay(&self)
        ensures replay { IsReplay self.now }
        ensures reached { IsReached self.now.start self.now.base }
        ensures boot { self.now.base.made ≡ 0 → self.now.base ≡ boot_state self.now.start }
        ensures file { IsLoaded self.now.start }
        ensures limits { is_within_limits self.now.start.conf ≡ true }
        ensures conf { self.now.state.conf ≡ self.now.start.conf }
        ensures ram { length self.now.state.memory ≡ self.now.start.conf.ram }
        ensures processors { length self.now.state.processors ≡ self.now.start.conf.processors }
        ensures made { self.now.state.made ≡ self.now.base.made + length self.now.log }
        ensures last { length self.now.log ≡ min self.now.start.conf.log self.now.state.made }
        ensures few { self.now.state.made ≤ 2 ^ 63 - 1 }
        ensures counts { CountUpTo self.now.state.made self.now.state.processors }
        ensures steps { CountsSteps self.now }
        ensures outcomes { All (λ e. CanGive e.event e.outcome) self.now.log }
        ensures mode { All (λ e. FitsMode self.now.start.conf.strict e.outcome) self.now.log }
        ensures apart { self.now.start.conf.strict ≡ true
            → AreAllApart self.now.state.processors × AreAllApart self.now.base.processors }
        ensures unit { (self.now.state.links.unit ≡ self.now.start.conf.link)
            × (self.now.base.links.unit ≡ self.now.start.conf.link) }
    {
        let _window = &self.window;
        self.present.law();
        self.base.law();
    }

    /// The law of the stores: the machine's live links are those of the history of its stores. From
    /// the base, taken with no stores and with its live links as the first ones, the log's events
    /// lead to all stores to RAM and to links that have the number of stores when they were made;
    /// and the state is the image of these.
    pub fn stores_replay(&self)
        ensures { StoresReplay self.now }
    {
        self.replay();
    }

    /// The law that a machine's base and log determine its state: two machines, over any TLBs and
    /// consoles, with the same start, the same base and the same log agree in every view.
    pub fn is_determined_by_log<U: Tlb, E: Console>(&self, other: &Machine<U, E>)
        requires start { other.now.start ≡ self.now.start }
        requires base { other.now.base ≡ self.now.base }
        requires log { other.now.log ≡ self.now.log }
        ensures { other.now ≡ self.now }
    {
        self.replay();
        other.replay();
    }

    /// The allocator that it was booted with.
    pub fn allocator(&self) -> Global {
        *self.fresh.allocator()
    }
}

// The state at boot of a machine with this image.
fn core_at_boot<T: Tlb + Drop, D: Console + Drop>(
    alloc: Global,
    image: &Image,
    conf: Conf,
) -> Result<Core<T, D>, AllocError>
    requires limits { is_within_limits conf ≡ true }
    requires ram { length image.now.bytes.items ≡ conf.ram }
    ensures { IfOk result (λ core. core.state
        ≡ boot_state (start_of image.now.bytes.items image.now.entry conf)) }
{
    let bytes = Vec::from_slice(alloc, image.bytes.as_slice())?;
    Core::at_boot(alloc, bytes, image.entry, conf)
}

// A machine that is booted from an image.
#[inline(never)]
fn machine_at_boot<T: Tlb + Drop, D: Console + Drop>(
    alloc: Global,
    image: Image,
    conf: Conf,
) -> Result<Machine<T, D>, AllocError>
    requires limits { is_within_limits conf ≡ true }
    requires loaded { IsLoaded (start_of image.bytes.items image.entry conf) }
    ensures { IfOk result (λ machine.
        machine ≡ history_at_boot (start_of image.bytes.items image.entry conf)) }
{
    let present = Box::new(alloc, core_at_boot(alloc, &image, conf)?)?;
    let base = Box::new(alloc, core_at_boot(alloc, &image, conf)?)?;
    let window = Window::new(alloc, conf.log as usize)?;
    let fresh = blanks(alloc, AT_ONCE)?;
    Ok(Machine {
        present,
        base,
        window,
        fresh,
        image,
        conf,
    })
}

// The same image again.
fn image_again(alloc: Global, image: &Image) -> Result<Image, AllocError>
    ensures { IfOk result (λ copy. (copy.entry ≡ image.now.entry)
        × (copy.bytes.items ≡ image.now.bytes.items)) }
{
    Ok(Image {
        entry: image.entry,
        bytes: Vec::from_slice(alloc, image.bytes.as_slice())?,
    })
}

// Makes Steps of processor `p` until `most` are made or one of them switches the machine off, and
// writes their entries into this room, from its beginning on. Returns how many were made.
fn advance_into<T: Tlb, D: Console>(
    core: &mut Core<T, D>,
    p: u32,
    room: &mut Vec<PackedEntry>,
    most: usize,
) -> usize
    requires place { p < length core.old.state.processors }
    requires on { core.old.state.board.off ≡ false }
    requires few { core.old.state.made + most ≤ 2 ^ 63 - 1 }
    requires room { most ≤ length room.old.items }
    ensures advances { Advances p core.old.state (take result room.new.items) core.new.state }
    ensures within { result ≤ most }
    ensures some { 1 ≤ most → 1 ≤ result }
    ensures end { result ≡ most ⊎ (result < most) × (core.new.state.board.off ≡ true) }
    ensures length { length room.new.items ≡ length room.old.items }
    ensures sizes { KeepsSizes core.old.state core.new.state }
{
    let (first, _) = room.as_mut_slice().split_at_mut(most);
    core.advance(p, first)
}
