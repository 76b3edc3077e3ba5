//! A machine that is made anew from the words of its view.

ghost use Rattle.std.specs.Prelude.{◌≡◌, ◌≢◌, ℕ, ◌+◌, ◌*◌, ◌<◌, ◌≤◌, ◌++◌, All, IfOk, List, OnOk, drop, false, length, take, true};
ghost use Rattle.m161_tlb.specs.Rows.{AreApart};
ghost use Rattle.m161_tlb.specs.Row.{overlaps};
ghost use Rattle.m161_cpu.specs.Processor.{Processor};
ghost use Rattle.m161_cpu.specs.Restore.{restored_processor};
ghost use Rattle.m161_machine.specs.State.{State, processor_at};
ghost use Rattle.m161_machine.specs.Restore.{with_made, with_processor};
ghost use Rattle.m161_alike.specs.declared.known.Known.{Known};
ghost use Rattle.m161_alike.specs.declared.reads.Reads.{Reads};
ghost use Rattle.m161_alike.specs.Addresses.{Cover};
ghost use Rattle.m161_alike.specs.Restored.{processor_in, row_in, rows_in, with_ticks};
ghost use Rattle.m161_alike.specs.RestoredBoard.{with_board_of};
ghost use Rattle.m161_alike.specs.View.{processor_view};
ghost use Rattle.m161_alike.specs.Words.{HasSizes, board_words, memory_words, processor_words};
ghost use Rattle.m161_alike.specs.WordsLaw.{AreOfOneConf};
ghost use Rattle.m161_states.specs.Shape.{IsShaped};
ghost use Rattle.m161_states.specs.System.{Explored, fresh};
ghost use Rattle.m161_states.specs.Views.{beside_words, counted};
ghost use Rattle.m161_reach.specs.helpers.Restore.{AreAsIn, AreKeptFrom, AreOfOneBoard, AreWordsFrom, IsAsIn, agreed_in, state_with, with_processors};

use crate::kept::{WatchFlags, keep_again};
use m161_alike::{
    bounded_words_can_be_held, is_board_bounded, is_bounded, read_board, read_memory,
    read_processor,
};
use m161_bus::Console;
use m161_machine::Core;
use m161_tlb::{Frame, Identifier, Page, Row, Tlb};
use std::alloc::{AllocError, Global};

// Row `i` of the TLB, by a processor's words.
fn row_of(words: &[u32], i: usize) -> Row
    requires size { length words.now ≡ 245 }
    requires row { i < 64 }
    ensures { result ≡ row_in words.now i }
{
    let rest = words[55 + 3 * i];
    Row {
        page: Page::new(words[53 + 3 * i] % (1 << 20)),
        id: Identifier::new((rest / 16 % 64) as u8),
        frame: Frame::new(words[54 + 3 * i] % (1 << 20)),
        n: rest / 8 % 2 == 1,
        d: rest / 4 % 2 == 1,
        v: rest / 2 % 2 == 1,
        g: rest % 2 == 1,
    }
}

// Whether no other row overlaps row `i`.
fn is_apart(words: &[u32], i: usize) -> bool
    requires size { length words.now ≡ 245 }
    requires row { i < 64 }
    ensures { result ≡ true → (j : ℕ) → j < 64 → i ≢ j → overlaps (row_in words.now i) (row_in words.now j) ≡ false }
{
    let row = row_of(words, i);
    for j in 0..64usize {
        if j != i && row.overlaps(&row_of(words, j)) {
            return false;
        }
    }
    true
}

// Whether no two rows overlap.
fn are_apart(words: &[u32]) -> bool
    requires { length words.now ≡ 245 }
    ensures { result ≡ true → AreApart (rows_in words.now) }
{
    for i in 0..64usize {
        if !is_apart(words, i) {
            return false;
        }
    }
    true
}

// Whether a machine, which is strict or not, can have the TLB of these words.
fn can_have(strict: bool, words: &[u32]) -> bool
    requires { length words.now ≡ 245 }
    ensures { result ≡ true → strict ≡ true → AreApart (rows_in words.now) }
{
    !strict || are_apart(words)
}

// Makes a processor one whose view has these words. Words that no machine's processor has are refused:
// the definition of a Step has no bounds, so it is known by reading alone that none are met.
fn remake_processor<T: Tlb, D: Console>(
    core: &mut Core<T, D>,
    p: u32,
    words: &[u32],
) -> Result<(), AllocError>
    requires place { p < length core.old.state.processors }
    requires few { 55 ≤ core.old.state.made }
    requires size { length words.now ≡ 245 }
    ensures state { OnOk result (core.new.state ≡ with_processor p
        (restored_processor (processor_in words.now) (rows_in words.now)) core.old.state) }
    ensures view { OnOk result ((known : Reads) (q : Processor) → HasSizes q → words.now ≡ processor_words (processor_view known q)
        → core.new.state ≡ with_processor p (with_ticks (processor_view known q)) core.old.state) }
{
    bounded_words_can_be_held();
    if !is_bounded(words) {
        return Err(AllocError);
    }
    let strict = core.conf().strict;
    if !can_have(strict, words) {
        return Err(AllocError);
    }
    read_processor(core, p, words);
    Ok(())
}

// Whether the words from a place on, as many as a processor has, are the same in both.
fn are_same_from(kept: &[u32], words: &[u32], first: usize) -> bool
    requires { first + 245 ≤ length words.now }
    ensures there { result ≡ true → first + 245 ≤ length kept.now }
    ensures same { result ≡ true → take 245 (drop first kept.now) ≡ take 245 (drop first words.now) }
{
    let end = first + 245;
    end <= kept.len() && kept[first..end] == words[first..end]
}

// Makes a processor one whose view has its words, which begin at a place, unless it has them: then they
// are kept there.
fn remake_if_changed<T: Tlb, D: Console>(
    core: &mut Core<T, D>,
    p: u32,
    first: usize,
    kept: &[u32],
    words: &[u32],
) -> Result<(), AllocError>
    requires place { p < length core.old.state.processors }
    requires few { 55 ≤ core.old.state.made }
    requires size { first + 245 ≤ length words.now }
    ensures rest { OnOk result (core.new.state ≡ with_processors core.new.state.processors core.old.state) }
    ensures number { OnOk result (length core.new.state.processors ≡ length core.old.state.processors) }
    ensures others { OnOk result ((k : ℕ) → k ≢ p
        → processor_at k core.new.state.processors ≡ processor_at k core.old.state.processors) }
    ensures view { OnOk result ((known : Reads) (q : Processor) → HasSizes q
        → HasSizes (processor_at p core.old.state.processors)
        → (first + 245 ≤ length kept.now → take 245 (drop first kept.now)
        ≡ processor_words (processor_view known (processor_at p core.old.state.processors)))
        → take 245 (drop first words.now) ≡ processor_words (processor_view known q)
        → IsAsIn known q (processor_at p core.new.state.processors)) }
{
    if are_same_from(kept, words, first) {
        return Ok(());
    }
    remake_processor(core, p, &words[first..first + 245])
}

// Makes each processor one whose view has these words. Those that are kept are the words of the processors
// that are there.
fn remake_processors<T: Tlb, D: Console>(
    core: &mut Core<T, D>,
    kept: &[u32],
    words: &[u32],
) -> Result<(), AllocError>
    requires few { 55 ≤ core.old.state.made }
    requires size { 245 * length core.old.state.processors ≤ length words.now }
    ensures rest { OnOk result (core.new.state ≡ with_processors core.new.state.processors core.old.state) }
    ensures number { OnOk result (length core.new.state.processors ≡ length core.old.state.processors) }
    ensures view { OnOk result ((known : Known) (s : State) → IsShaped s → All HasSizes core.old.state.processors
        → length s.processors ≡ length core.old.state.processors
        → AreKeptFrom known core.old.state kept.now → AreWordsFrom known s words.now
        → AreAsIn known s core.new.state.processors) }
{
    for p in 0..core.processors() {
        let first = 245 * p as usize;
        remake_if_changed(core, p, first, kept, words)?;
    }
    Ok(())
}

// Makes the board and the links those with these words. Words that no machine's board has are refused,
// as those of a processor are.
fn remake_board<T: Tlb, D: Console>(core: &mut Core<T, D>, words: &[u32]) -> Result<(), AllocError>
    requires { 11 + 68 * length core.old.state.processors ≤ length words.now }
    ensures { OnOk result ((s : State) → AreOfOneBoard s core.old.state → words.now ≡ board_words s
        → core.new.state ≡ with_board_of s core.old.state) }
{
    core.law();
    if !is_board_bounded(words, core.processors()) {
        return Err(AllocError);
    }
    bounded_words_can_be_held();
    read_board(core, words);
    Ok(())
}

// As many events as the ticks that Random tells may be, so that a processor can have made them.
fn count_ticks<T: Tlb, D: Console>(core: &mut Core<T, D>)
    ensures few { 55 ≤ core.new.state.made }
    ensures state { core.new.state ≡ with_made core.new.state.made core.old.state }
{
    core.law();
    if core.made() < 55 {
        core.recount(55);
    }
}

/// Makes a machine's state that of these words, as before any event. Its memory differs from boot's at
/// the changed addresses alone, and the kept words, as far as there are any, are those of its processors:
/// one that has its words already stays.
///
/// # Errors
/// Words that no machine's state has are refused, as if memory were.
pub fn remake<T: Tlb, D: Console>(
    core: &mut Core<T, D>,
    boot: &[u8],
    changed: &[u32],
    kept: &[u32],
    processors: &[u32],
    board: &[u32],
    memory: &[u32],
) -> Result<(), AllocError>
    requires shape { IsShaped core.old.state }
    requires boot { length boot.now ≡ length core.old.state.memory }
    requires cover { Cover boot.now core.old.state.memory changed.now }
    requires processors { 245 * length core.old.state.processors ≤ length processors.now }
    requires board { 11 + 68 * length core.old.state.processors ≤ length board.now }
    ensures { OnOk result ((known : Known) (s : State) → IsShaped s → AreOfOneConf core.old.state s
        → AreKeptFrom known core.old.state kept.now → AreWordsFrom known s processors.now
        → board.now ≡ board_words s → memory.now ≡ memory_words boot.now s.memory
        → AreAsIn known s core.new.state.processors
        × (fresh core.new.state ≡ state_with core.new.state.processors s)) }
{
    read_memory(core, boot, changed, memory);
    count_ticks(core);
    remake_processors(core, kept, processors)?;
    remake_board(core, board)
}

/// The first words, and the rest.
pub fn split<'a>(words: &'a [u32], number: usize) -> (&'a [u32], &'a [u32])
    requires { number ≤ length words.now }
    ensures { (a b : List ℕ) → length a ≡ number → words.now ≡ a ++ b → (result.0.now ≡ a) × (result.1.now ≡ b) }
{
    (&words[..number], &words[number..])
}

/// The words behind their number, and the rest.
pub fn split_counted<'a>(words: &'a [u32]) -> (&'a [u32], &'a [u32])
    requires { (a b : List ℕ) × (words.now ≡ counted a ++ b) }
    ensures { (a b : List ℕ) → words.now ≡ counted a ++ b → (result.0.now ≡ a) × (result.1.now ≡ b) }
{
    split(&words[1..], words[0] as usize)
}

// A number that may be missing, by its two words.
fn optional(some: u32, number: u32) -> Option<u32>
    ensures { result ≡ agreed_in some number }
{
    if some == 1 { Some(number) } else { None }
}

/// What is kept beside the machine, by its words: the keys that were typed, how far the output agrees,
/// and what is kept of the watches.
pub fn read_beside(
    alloc: Global,
    words: &[u32],
) -> Result<(u32, Option<u32>, Vec<WatchFlags>), AllocError>
    requires { 4 ≤ length words.now }
    ensures { IfOk result (λ beside. (x : Explored) → words.now ≡ beside_words x
        → (beside.0 ≡ x.typed) × (beside.1 ≡ x.agreed) × (beside.2.items ≡ x.flags)) }
{
    let kept = keep_again(alloc, &words[4..])?;
    Ok((words[0], optional(words[1], words[2]), kept))
}
