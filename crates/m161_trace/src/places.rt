//! The words of the board that a Step changed.

ghost use Rattle.std.specs.Prelude.{◌≡◌, ◌<◌, OnOk, false, length, string_bytes};
ghost use Rattle.m161_bus.specs.Board.{IsShown, shown_word};
ghost use Rattle.m161_bus.specs.declared.register.BoardWord.TheVariants as words;
ghost use Rattle.m161_trace.specs.Items.{board, board_item, changed, common_items, each, places_items};
ghost use Rattle.m161_trace.specs.helpers.Adds.{Adds, Same, crams_of};

use crate::text::push_board;
use m161_bus::Console;
use m161_machine::{BoardWord, Core};
use m161_tlb::Tlb;
use std::alloc::AllocError;

// A word of the board, if it changed.
fn add_changed_word(
    text: &mut String,
    place: BoardWord,
    before: u32,
    after: u32,
) -> Result<(), AllocError>
    ensures { OnOk result (Adds (string_bytes text.old) (changed before after (board place after))
        (string_bytes text.new)) }
{
    if before == after {
        return Ok(());
    }
    push_board(text, place, after)
}

// A word of the board in the two states.
fn add_word<T: Tlb, D: Console>(
    text: &mut String,
    before: &Core<T, D>,
    after: &Core<T, D>,
    place: BoardWord,
) -> Result<(), AllocError>
    requires before { IsShown before.now.state.board.processors place }
    requires after { IsShown after.now.state.board.processors place }
    ensures { OnOk result (Adds (string_bytes text.old)
        (board_item before.now.state.board after.now.state.board place)
        (string_bytes text.new)) }
{
    add_changed_word(
        text,
        place,
        before.board_word(place),
        after.board_word(place),
    )
}

/// The words that the board has one of.
pub(crate) fn add_common<T: Tlb, D: Console>(
    text: &mut String,
    before: &Core<T, D>,
    after: &Core<T, D>,
) -> Result<(), AllocError>
    ensures { OnOk result (Adds (string_bytes text.old)
        (common_items before.now.state.board after.now.state.board)
        (string_bytes text.new)) }
{
    add_word(text, before, after, BoardWord::WriteIrq)?;
    add_word(text, before, after, BoardWord::ReadIrq)?;
    add_word(text, before, after, BoardWord::Irqe)?;
    add_word(text, before, after, BoardWord::Cpue)
}

// CIRQE of each processor.
fn add_enables<T: Tlb, D: Console>(
    text: &mut String,
    n: u32,
    before: &Core<T, D>,
    after: &Core<T, D>,
) -> Result<(), AllocError>
    requires { Same n before.now.state after.now.state }
    ensures { OnOk result (Adds (string_bytes text.old)
        (each 0 n (λ c. board_item before.now.state.board after.now.state.board (words.Cirqe c)))
        (string_bytes text.new)) }
{
    for c in 0..n {
        add_word(text, before, after, BoardWord::Cirqe(c))?;
    }
    Ok(())
}

// CIPI of each processor.
fn add_raised<T: Tlb, D: Console>(
    text: &mut String,
    n: u32,
    before: &Core<T, D>,
    after: &Core<T, D>,
) -> Result<(), AllocError>
    requires { Same n before.now.state after.now.state }
    ensures { OnOk result (Adds (string_bytes text.old)
        (each 0 n (λ c. board_item before.now.state.board after.now.state.board (words.Cipi c)))
        (string_bytes text.new)) }
{
    for c in 0..n {
        add_word(text, before, after, BoardWord::Cipi(c))?;
    }
    Ok(())
}

// The CRAM of processor `c`.
fn add_cram<T: Tlb, D: Console>(
    text: &mut String,
    c: u32,
    before: &Core<T, D>,
    after: &Core<T, D>,
) -> Result<(), AllocError>
    requires before { c < before.now.state.board.processors }
    requires after { c < after.now.state.board.processors }
    ensures { OnOk result (Adds (string_bytes text.old)
        (crams_of before.now.state.board after.now.state.board c)
        (string_bytes text.new)) }
{
    for k in 0..64 {
        add_word(text, before, after, BoardWord::Cram(c, k))?;
    }
    Ok(())
}

// The CRAM of each processor.
fn add_crams<T: Tlb, D: Console>(
    text: &mut String,
    n: u32,
    before: &Core<T, D>,
    after: &Core<T, D>,
) -> Result<(), AllocError>
    requires { Same n before.now.state after.now.state }
    ensures { OnOk result (Adds (string_bytes text.old)
        (each 0 n (crams_of before.now.state.board after.now.state.board))
        (string_bytes text.new)) }
{
    for c in 0..n {
        add_cram(text, c, before, after)?;
    }
    Ok(())
}

// The words of each processor, of which there are `n`.
fn add_all_places<T: Tlb, D: Console>(
    text: &mut String,
    n: u32,
    before: &Core<T, D>,
    after: &Core<T, D>,
) -> Result<(), AllocError>
    requires { Same n before.now.state after.now.state }
    ensures { OnOk result (Adds (string_bytes text.old)
        (places_items n before.now.state.board after.now.state.board)
        (string_bytes text.new)) }
{
    add_enables(text, n, before, after)?;
    add_raised(text, n, before, after)?;
    add_crams(text, n, before, after)
}

// The words of each processor, of which there are `n`, that changed; none did unless the Step is
// far.
#[tactic(auto, using(crate::proofs::Nothing::no_places))]
fn add_places_if<T: Tlb, D: Console>(
    text: &mut String,
    n: u32,
    before: &Core<T, D>,
    after: &Core<T, D>,
    far: bool,
) -> Result<(), AllocError>
    requires same { Same n before.now.state after.now.state }
    requires near { far ≡ false
        → after.now.state.board.places ≡ before.now.state.board.places }
    ensures { OnOk result (Adds (string_bytes text.old)
        (places_items n before.now.state.board after.now.state.board)
        (string_bytes text.new)) }
{
    if far {
        add_all_places(text, n, before, after)
    } else {
        Ok(())
    }
}

/// The words of each processor of the two states that changed; none did unless the Step is far.
pub(crate) fn add_places<T: Tlb, D: Console>(
    text: &mut String,
    before: &Core<T, D>,
    after: &Core<T, D>,
    far: bool,
) -> Result<(), AllocError>
    requires as_many { length after.now.state.processors ≡ length before.now.state.processors }
    requires near { far ≡ false
        → after.now.state.board.places ≡ before.now.state.board.places }
    ensures { OnOk result (Adds (string_bytes text.old)
        (places_items (length before.now.state.processors) before.now.state.board
        after.now.state.board)
        (string_bytes text.new)) }
{
    before.law();
    after.law();
    add_places_if(text, before.processors(), before, after, far)
}
