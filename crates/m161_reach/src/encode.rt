//! The words of a state's view.

ghost use Rattle.std.specs.Prelude.{◌≡◌, ◌<◌, ◌^◌, ◌++◌, OnOk, flat_map, length};
ghost use Rattle.std.specs.List.{range_with_len};
ghost use Rattle.m161_alike.specs.Words.{board_words, optional};
ghost use Rattle.m161_alike.specs.WordsLaw.{words_at};
ghost use Rattle.m161_states.specs.Views.{beside_words, counted, flag_words};

use crate::kept::WatchFlags;
use crate::place::Place;
use m161_alike::{write_board, write_processor};
use m161_bus::Console;
use m161_machine::Core;
use m161_states::Known;
use m161_tlb::Tlb;
use std::alloc::AllocError;

/// Writes the words of each processor.
pub fn push_processors<T: Tlb, D: Console>(
    core: &Core<T, D>,
    known: &Known,
    words: &mut Vec<u32>,
) -> Result<(), AllocError>
    ensures { OnOk result (words.new.items ≡ words.old.items
        ++ flat_map (words_at known.now core.now.state) (range_with_len 0 (length core.now.state.processors))) }
{
    for p in 0..core.processors() {
        write_processor(core, known, p, words)?;
    }
    Ok(())
}

// A part that may be missing.
fn optional(part: Option<u32>) -> [u32; 2]
    ensures { result ≡ optional part }
{
    match part {
        Some(word) => [1, word],
        None => [0, 0],
    }
}

// What is kept of the watches.
fn push_kept(kept: &[WatchFlags], words: &mut Vec<u32>) -> Result<(), AllocError>
    ensures { OnOk result (words.new.items ≡ words.old.items ++ flat_map flag_words kept.now) }
{
    for i in 0..kept.len() {
        let flags = kept[i];
        words.extend_from_slice(&[u32::from(flags.changed), u32::from(flags.gone_on)])?;
    }
    Ok(())
}

/// Writes what is kept beside the machine.
pub fn push_beside<T: Tlb, D: Console>(
    place: &Place<T, D>,
    words: &mut Vec<u32>,
) -> Result<(), AllocError>
    requires { length place.now.flags < 2 ^ 31 }
    ensures { OnOk result (words.new.items ≡ words.old.items ++ beside_words place.now) }
{
    words.push(place.typed)?;
    words.extend_from_slice(&optional(place.agreed))?;
    words.push(2 * place.kept.len() as u32)?;
    push_kept(&place.kept, words)
}

/// Writes the words of the board, behind their number.
pub fn push_board<T: Tlb, D: Console>(
    core: &Core<T, D>,
    words: &mut Vec<u32>,
) -> Result<(), AllocError>
    ensures { OnOk result (words.new.items ≡ words.old.items ++ counted (board_words core.now.state)) }
{
    core.law();
    let number = 11 + 68 * u64::from(core.processors()) + u64::from(core.waiting());
    // So many words wouldn't fit memory.
    let Ok(number) = u32::try_from(number) else {
        return Err(AllocError);
    };
    words.push(number)?;
    write_board(core, words)
}
