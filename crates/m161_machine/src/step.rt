//! A Step on the parts of a state.

ghost use Rattle.std.specs.Prelude.{◌≡◌, ◌+◌, ◌-◌, ◌^◌, ◌<◌, ◌≤◌, length, slice_set, true, false, ℕ};
ghost use Rattle.m161_bus.specs.Board.{BoardState, KeepsSize};
ghost use Rattle.m161_cpu.specs.Processor.{Processor};
ghost use Rattle.m161_cpu.specs.Step.{IsOfStep};
ghost use Rattle.m161_machine.specs.declared.conf.Conf.{Conf};
ghost use Rattle.m161_machine.specs.declared.step.Pace.TheVariants.{Quiet};
ghost use Rattle.m161_machine.specs.helpers.Pace.{outcome_of};
ghost use Rattle.m161_machine.specs.State.{AreAllApart, CountUpTo, conflict_after, started_by, state_of, step_on, with_starts, with_step};

use crate::event::Conflict;
use m161_bus::{Board, Console};
use m161_cpu::{Cpu, Links, Outcome};
use m161_ram::Ram;
use m161_tlb::Tlb;

/// What a Step did.
#[derive(Clone, Copy)]
pub(crate) enum Pace {
    /// It ran, and left the board and the other processors as they were.
    Quiet,
    /// It had this outcome, and may have changed the board.
    Aside(Outcome),
}

/// Makes a Step of processor `p`, on a strict machine or not, and then starts the processors that the
/// Step put into CPUE; `started` has what CPUE was and is.
#[inline(always)]
pub(crate) fn step_parts<T: Tlb, D: Console>(
    processors: &mut Vec<Cpu<T>>,
    p: u32,
    ram: &mut Ram,
    board: &mut Board<D>,
    links: &mut Links,
    conflict: &mut Option<Conflict>,
    started: &mut u32,
    strict: bool,
) -> Pace
    requires processor { p < length processors.old.items }
    requires number { (length processors.old.items ≡ board.old.state.processors)
        × (board.old.state.processors ≤ 32) }
    requires ram { length ram.old ≤ 2 ^ 29 }
    requires room { (n : ℕ) × (n < 2 ^ 64 - 1) × CountUpTo n processors.old.items }
    requires started { started.old ≡ board.old.state.started }
    requires noted { board.old.changed ≡ false }
    ensures outcome { (conf : Conf) (n : ℕ) → conf.strict ≡ strict → outcome_of result ≡
        (step_on p
        (state_of conf processors.old.items ram.old board.old.state links.old n
        conflict.old)).outcome }
    ensures state { (conf : Conf) (n : ℕ) → conf.strict ≡ strict →
        state_of conf processors.new.items ram.new board.new.state links.new (n + 1) conflict.new ≡
        with_step p
        (step_on p (state_of conf processors.old.items ram.old board.old.state links.old n
        conflict.old))
        (state_of conf processors.old.items ram.old board.old.state links.old n conflict.old) }
    ensures counts { (n : ℕ)
        → CountUpTo n processors.old.items → CountUpTo (n + 1) processors.new.items }
    ensures number { length processors.new.items ≡ length processors.old.items }
    ensures size { length ram.new ≡ length ram.old }
    ensures board { KeepsSize board.old.state board.new.state × (board.new.room ≡ board.old.room) }
    ensures started { started.new ≡ board.new.state.started }
    ensures noted { board.new.changed ≡ false }
    ensures quiet { result ≡ Quiet → (board.new.state ≡ board.old.state)
        × ((new : Processor) × (processors.new.items ≡ slice_set processors.old.items p new)) }
    ensures proper { IsOfStep (outcome_of result) }
    ensures apart { strict ≡ true → AreAllApart processors.old.items
        → AreAllApart processors.new.items }
    ensures unit { links.new.unit ≡ links.old.unit }
{
    match processors[p as usize].step(p, ram, board, links, strict) {
        // For LLVM: an arm of its own, so that the outcome of most Steps is known without a test.
        Outcome::Ran => {
            if start_new(processors, board, started) {
                Pace::Aside(Outcome::Ran)
            } else {
                Pace::Quiet
            }
        }
        other => {
            let _changed = start_new(processors, board, started);
            *conflict = conflict_after(p, other, *conflict);
            Pace::Aside(other)
        }
    }
}

// The conflict of a Step of processor `p`, if its outcome is one, else what was before.
fn conflict_after(p: u32, outcome: Outcome, before: Option<Conflict>) -> Option<Conflict>
    ensures { result ≡ conflict_after p outcome before }
{
    match outcome {
        Outcome::Conflict { row, other } => Some(Conflict {
            processor: p,
            row,
            other,
        }),
        _ => before,
    }
}

// Starts the processors that are new in CPUE, and notes that they are. Returns whether a change of
// the board was noted.
#[inline(always)]
fn start_new<T: Tlb, D: Console>(
    processors: &mut Vec<Cpu<T>>,
    board: &mut Board<D>,
    started: &mut u32,
) -> bool
    requires number { (length processors.old.items ≡ board.old.state.processors)
        × (board.old.state.processors ≤ 32) }
    requires same { board.old.changed ≡ false → started.old ≡ board.old.state.started }
    ensures processors { processors.new.items
        ≡ with_starts started.old board.old.state 0 processors.old.items }
    ensures board { board.new ≡ record board.old { changed = false } }
    ensures started { started.new ≡ board.old.state.started }
    ensures changed { result ≡ board.old.changed }
{
    if !board.changed() {
        return false;
    }
    start_by_board(processors, board, started);
    true
}

// Starts the processors that are new in CPUE, and notes that they are.
#[cold]
#[inline(never)]
fn start_by_board<T: Tlb, D: Console>(
    processors: &mut Vec<Cpu<T>>,
    board: &mut Board<D>,
    started: &mut u32,
)
    requires { (length processors.old.items ≡ board.old.state.processors)
        × (board.old.state.processors ≤ 32) }
    ensures processors { processors.new.items
        ≡ with_starts started.old board.old.state 0 processors.old.items }
    ensures board { board.new ≡ record board.old { changed = false } }
    ensures started { started.new ≡ board.old.state.started }
{
    if board.started() != *started {
        start_others(processors, board, *started);
        *started = board.started();
    }
    board.note_no_change();
}

// Starts the processors that are new in CPUE.
fn start_others<T: Tlb, D: Console>(processors: &mut Vec<Cpu<T>>, board: &Board<D>, before: u32)
    requires { (length processors.old.items ≡ board.now.state.processors)
        × (board.now.state.processors ≤ 32) }
    ensures { processors.new.items ≡ with_starts before board.now.state 0 processors.old.items }
{
    for c in 0..board.processors() {
        start_if_new(&mut processors[c as usize], c, board, before);
    }
}

// Starts a processor if it is new in CPUE.
fn start_if_new<T: Tlb, D: Console>(cpu: &mut Cpu<T>, c: u32, board: &Board<D>, before: u32)
    requires { (c < board.now.state.processors) × (c < 32) }
    ensures { cpu.new ≡ started_by before board.now.state c cpu.old }
{
    if (board.started() >> c) % 2 == 1 && (before >> c) % 2 == 0 {
        let words = board.start_words(c);
        cpu.start(words.pc, words.r4, words.r29);
    }
}
