//! What the lock protects, and the seats of the threads.

ghost use Rattle.std.specs.Prelude.{◌≡◌, ◌+◌, ◌<◌, Err, Some, true, OnErr, OnOk, replicate, slice_index_or, if◌then◌else◌};
ghost use Rattle.m161_machine.specs.declared.event.Event.TheVariants as events;
ghost use Rattle.m161_machine.specs.declared.event.Refusal.TheVariants as refusals;
ghost use Rattle.m161_machine.specs.History.{Answers, Continues, Ends};
ghost use Rattle.m161_machine.specs.State.{counts};

use m161_bus::Console;
use m161_machine::{Machine, Outcome, Refusal};
use m161_tlb::Tlb;
use std::marker::Model;
use std::sync::ledger;
use std::sync::ledger::{Ledger, Share};

/// What the lock protects: the machine, a ledger of the Steps of all seats, and a ledger of the
/// seats that have noted that the machine is off. Contracts see it as its machine and the number of
/// seats that have noted it.
#[derive(Drop)]
pub struct Book<L: Ledger, M: Ledger, T: Tlb, D: Console> {
    pub(crate) machine: Machine<T, D>,
    pub(crate) steps: ledger::Book<L>,
    pub(crate) offs: ledger::Book<M>,
}

impl<L: Ledger, M: Ledger, T: Tlb, D: Console> Model for Book<L, M, T, D> {
    ghost use Rattle.m161_threads.specs.Shares.{BookState, IsKept};

    ghost Value = { BookState };

    ghost view = { λ b. record { machine = b.machine; offs = b.offs.total } };

    ghost invariant = { λ b. IsKept b.machine b.steps.total b.offs.total };
}

/// A seat at a book: the right to the Steps of one processor, with one part of each ledger. It
/// belongs to the book that it was made with.
#[derive(Drop)]
pub struct Seat<L: Ledger, M: Ledger> {
    pub(crate) processor: u32,
    pub(crate) count: u64,
    pub(crate) noted: bool,
    pub(crate) steps: Share<L>,
    pub(crate) off: Share<M>,
}

impl<L: Ledger, M: Ledger> Model for Seat<L, M> {
    ghost use Rattle.std.specs.Prelude.{◌≡◌, if◌then◌else◌};
    ghost use Rattle.m161_threads.specs.Shares.{SeatState};

    ghost Value = { SeatState };

    ghost view = { λ s. record { processor = s.processor; count = s.count; noted = s.noted } };

    ghost invariant = { λ s.
        (s.steps.parts ≡ 1)
        × (s.steps.amount ≡ s.count)
        × (s.off.parts ≡ 1)
        × (s.off.amount ≡ (if s.noted then 1 else 0)) };
}

impl<L: Ledger, M: Ledger> Seat<L, M> {
    /// The number of its processor.
    pub fn processor(&self) -> u32
        ensures { result ≡ self.now.processor }
    {
        self.processor
    }

    /// How many Steps its processor has made, including those before the lock.
    pub fn count(&self) -> u64
        ensures { result ≡ self.now.count }
    {
        self.count
    }
}

/// The Steps that were made of a processor under one holding of the lock.
#[derive(Clone, Copy, Debug, PartialEq, Eq)]
pub struct Burst {
    /// How many were made.
    pub made: u32,
    /// Why no more were made, if fewer were made than asked for.
    pub refusal: Option<Refusal>,
}

impl<L: Ledger, M: Ledger, T: Tlb, D: Console> Book<L, M, T, D> {
    /// The machine, read-only. It is off if a seat has noted that.
    pub fn machine(&self) -> &Machine<T, D>
        ensures machine { result.now ≡ self.now.machine }
        ensures off { 0 < self.now.offs → self.now.machine.state.board.off ≡ true }
    {
        &self.machine
    }

    /// Makes one Step of a seat's processor, counted at the seat. Does not allocate.
    ///
    /// # Errors
    /// The first refusal that holds. Nothing is changed then.
    pub fn step_in(&mut self, seat: &mut Seat<L, M>) -> Result<Outcome, Refusal>
        ensures answers { Answers self.old.machine (events.Step seat.old.processor)
            result self.new.machine }
        ensures own { OnOk result (slice_index_or (counts self.new.machine.state)
            seat.old.processor 0
            ≡ slice_index_or (counts self.old.machine.state) seat.old.processor 0 + 1) }
        ensures seat { OnOk result (seat.new ≡ record seat.old { count = seat.old.count + 1 }) }
        ensures err { OnErr result (seat.new ≡ seat.old) }
        ensures off { result ≡ Err refusals.Off → self.new.machine.state.board.off ≡ true }
        ensures offs { self.new.offs ≡ self.old.offs }
    {
        match self.machine.step(seat.processor) {
            Ok(outcome) => {
                self.machine.replay();
                self.steps.add(&mut seat.steps, 1);
                self.steps.audit(&mut seat.steps);
                seat.count += 1;
                Ok(outcome)
            }
            Err(refusal) => Err(refusal),
        }
    }

    /// Makes Steps of a seat's processor until `k` are made or one is refused, counted at the seat.
    /// The same as this many calls of `step_in`, in less time. Does not allocate.
    pub fn step_burst(&mut self, seat: &mut Seat<L, M>, k: u32) -> Burst
        ensures run { Continues self.old.machine
            (replicate result.made (events.Step seat.old.processor)) self.new.machine }
        ensures end { Ends self.new.machine (events.Step seat.old.processor) k
            result.made result.refusal }
        ensures own { slice_index_or (counts self.new.machine.state) seat.old.processor 0
            ≡ slice_index_or (counts self.old.machine.state) seat.old.processor 0
            + result.made }
        ensures seat { seat.new ≡ record seat.old { count = seat.old.count + result.made } }
        ensures off { result.refusal ≡ Some refusals.Off
            → self.new.machine.state.board.off ≡ true }
        ensures offs { self.new.offs ≡ self.old.offs }
    {
        let (made, refusal) = self.machine.steps(seat.processor, k);
        self.machine.replay();
        self.steps.add(&mut seat.steps, u64::from(made));
        self.steps.audit(&mut seat.steps);
        seat.count += u64::from(made);
        Burst { made, refusal }
    }

    /// Notes at a seat that the machine is off. A second note changes nothing.
    pub fn note_off(&mut self, seat: &mut Seat<L, M>)
        requires { self.old.machine.state.board.off ≡ true }
        ensures machine { self.new.machine ≡ self.old.machine }
        ensures seat { seat.new ≡ record seat.old { noted = true } }
        ensures offs { self.new.offs ≡ self.old.offs + (if seat.old.noted then 0 else 1) }
    {
        if !seat.noted {
            self.offs.add(&mut seat.off, 1);
            seat.noted = true;
        }
    }

    /// Types a byte at the console, as the machine's `key` does; no seat is changed.
    ///
    /// # Errors
    /// The first refusal that holds. Nothing is changed then.
    pub fn key_in(&mut self, byte: u8) -> Result<Outcome, Refusal>
        ensures answers { Answers self.old.machine (events.Key byte) result self.new.machine }
        ensures offs { self.new.offs ≡ self.old.offs }
    {
        self.machine.key(byte)
    }

    /// The console has sent the byte in its latch, as the machine's `done` does; no seat is
    /// changed.
    ///
    /// # Errors
    /// The first refusal that holds, or else `NoMemory`. Nothing is changed then.
    pub fn done_in(&mut self) -> Result<Outcome, Refusal>
        ensures answers { Answers self.old.machine events.Done result self.new.machine }
        ensures offs { self.new.offs ≡ self.old.offs }
    {
        self.machine.done()
    }
}
