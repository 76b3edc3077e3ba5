//! The lock.

ghost use Rattle.std.specs.Prelude.{◌≡◌, ◌+◌, All, IfErr, IfOk, MatchResult, length, sum, sum_by, vec_len, true, false};
ghost use Rattle.m161_machine.specs.History.{IsReplay};
ghost use Rattle.m161_machine.specs.State.{counts};
ghost use Rattle.m161_threads.specs.Shares.{IsLeastMiscount, HasCount, NotedOnlyOff, SeatState, seats_from};
ghost use Rattle.m161_threads.specs.helpers.Shares.{Miscounts, least_of};

use crate::book::{Book, Seat};
use m161_bus::Console;
use m161_machine::Machine;
use m161_tlb::Tlb;
use std::alloc::{AllocError, Global};
use std::sync::Mutex;
use std::sync::ledger::{Blank, Ledger, Share};

/// A lock around a book. The seats that were made with it, one for each processor, belong to it.
#[derive(Drop)]
pub struct Locked<L: Ledger, M: Ledger, T: Tlb, D: Console> {
    book: Mutex<Book<L, M, T, D>>,
    // the share left by the seats: no part of it
    spare: Share<L>,
    ghost none: { spare.parts ≡ 0 },
}

/// A processor's count differs from its seat's.
#[derive(Drop)]
pub struct Miscount<T: Tlb, D: Console> {
    /// The machine.
    pub machine: Machine<T, D>,
    /// The least such processor.
    pub processor: u32,
}

impl<L: Ledger, M: Ledger, T: Tlb, D: Console> Locked<L, M, T, D> {
    /// A lock around a machine, and a seat for each processor, in their order. The ledgers have as
    /// many parts as the machine has processors. An error consumes both ledgers.
    ///
    /// # Errors
    /// Memory was refused; the machine is returned.
    #[inline(never)]
    pub fn new(
        alloc: Global,
        steps: Blank,
        offs: Blank,
        machine: Machine<T, D>,
    ) -> Result<(Self, Vec<Seat<L, M>>), (Machine<T, D>, AllocError)>
        requires steps { (steps.name ≡ L.name) × (steps.parts ≡ L.parts)
            × (L.parts ≡ length machine.state.processors) }
        requires offs { (offs.name ≡ M.name) × (offs.parts ≡ M.parts)
            × (M.parts ≡ length machine.state.processors) }
        ensures seats { IfOk result (λ r. r.1.items ≡ seats_from 0 (counts machine.state)) }
        ensures err { IfErr result (λ r. r.0 ≡ machine) }
    {
        let (mut step_book, mut steps) = steps.open::<L>();
        let (off_book, mut offs) = offs.open::<M>();
        let mut seats = match Vec::with_capacity(alloc, machine.processors() as usize) {
            Ok(seats) => seats,
            Err(error) => return Err((machine, error)),
        };
        for processor in 0..machine.processors() {
            let count = machine.count(processor);
            let mut mine = steps.split_off(1, 0);
            step_book.add(&mut mine, count);
            seats.push_reserved(Seat {
                processor,
                count,
                noted: false,
                steps: mine,
                off: offs.split_off(1, 0),
            });
        }
        let book = behind_lock(Book {
            machine,
            steps: step_book,
            offs: off_book,
        });
        Ok((Locked { book, spare: steps }, seats))
    }

    /// The book, behind its lock. Locking it may block.
    pub fn book(&self) -> &Mutex<Book<L, M, T, D>> {
        &self.book
    }

    /// The machine as it is. No seat is looked at.
    #[inline(never)]
    pub fn into_machine(self) -> Machine<T, D>
        ensures { IsReplay result }
    {
        let Locked { book, spare: _ } = self;
        let Book {
            machine,
            steps: _,
            offs: _,
        } = book.into_inner();
        machine.replay();
        machine
    }

    /// The machine, if each seat passed has its processor's count. If all seats are passed, their
    /// counts add up to the machine's in any case.
    ///
    /// # Errors
    /// A seat's count differs from its processor's; the machine is returned.
    #[inline(never)]
    pub fn finish(self, seats: Vec<Seat<L, M>>) -> Result<Machine<T, D>, Miscount<T, D>>
        ensures replay { MatchResult result (λ m. IsReplay m) (λ e. IsReplay e.machine) }
        ensures ok { IfOk result (λ m. All (HasCount m.state) seats.items) }
        ensures err { IfErr result (λ e.
            IsLeastMiscount e.machine.state seats.items e.processor) }
        ensures sums { vec_len seats ≡ L.parts → MatchResult result
            (λ m. sum (counts m.state) ≡ sum_by (λ (s : SeatState). s.count) seats.items)
            (λ e. sum (counts e.machine.state) ≡ sum_by (λ (s : SeatState). s.count) seats.items) }
        ensures noted { MatchResult result
            (λ m. NotedOnlyOff m.state seats.items)
            (λ e. NotedOnlyOff e.machine.state seats.items) }
    {
        let Locked { book, spare } = self;
        let mut book = book.into_inner();
        let wrong = least_wrong(&book, &seats);
        book.gather(spare, seats);
        let Book {
            machine,
            steps: _,
            offs: _,
        } = book;
        machine.replay();
        match wrong {
            None => Ok(machine),
            Some(processor) => Err(Miscount { processor, machine }),
        }
    }
}

impl<L: Ledger, M: Ledger, T: Tlb, D: Console> Book<L, M, T, D> {
    // Merges the seats' shares into the spare one, and compares them with the ledgers.
    fn gather(&mut self, spare: Share<L>, seats: Vec<Seat<L, M>>)
        requires { spare.parts ≡ 0 }
        ensures machine { self.new.machine ≡ self.old.machine }
        ensures sums { vec_len seats ≡ L.parts
            → sum (counts self.old.machine.state)
            ≡ sum_by (λ (s : SeatState). s.count) seats.items }
        ensures noted { NotedOnlyOff self.old.machine.state seats.items }
    {
        let mut all = spare;
        self.steps.audit(&mut all);
        for seat in seats {
            let Seat {
                processor: _,
                count: _,
                noted: _,
                steps,
                mut off,
            } = seat;
            self.offs.audit(&mut off);
            all.merge(steps);
        }
        self.steps.audit(&mut all);
    }
}

// A lock around a book. For LLVM: it isn't inlined, and neither are the other functions that move a
// machine, since a function that moves a machine to two places of a result takes minutes to compile.
#[inline(never)]
fn behind_lock<L: Ledger, M: Ledger, T: Tlb, D: Console>(
    book: Book<L, M, T, D>,
) -> Mutex<Book<L, M, T, D>> {
    Mutex::new(book)
}

// Whether a seat has its processor's count.
fn matches<L: Ledger, M: Ledger, T: Tlb, D: Console>(
    book: &Book<L, M, T, D>,
    seat: &Seat<L, M>,
) -> bool
    ensures yes { result ≡ true → HasCount book.now.machine.state seat.now }
    ensures no { result ≡ false → HasCount book.now.machine.state seat.now → ⊥ }
{
    seat.processor < book.machine.processors() && book.machine.count(seat.processor) == seat.count
}

// The least processor whose count differs from its seat's.
fn least_wrong<L: Ledger, M: Ledger, T: Tlb, D: Console>(
    book: &Book<L, M, T, D>,
    seats: &Vec<Seat<L, M>>,
) -> Option<u32>
    ensures { Miscounts book.now.machine.state seats.now.items result }
{
    let mut least = None;
    for i in 0..seats.len() {
        let seat = &seats[i];
        if !matches(book, seat) {
            least = Some(least_of(least, seat.processor));
        }
    }
    least
}

// The lesser of two numbers, if there is a first.
fn least_of(least: Option<u32>, number: u32) -> u32
    ensures { result ≡ least_of least number }
{
    match least {
        Some(least) => least.min(number),
        None => number,
    }
}
