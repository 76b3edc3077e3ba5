//! A state in hand: what an exploration makes its events on.

ghost use Rattle.std.specs.Prelude.{◌≡◌, ◌⊎◌, ◌<◌, [], true, length, OnOk};
ghost use Rattle.m161_alike.specs.Addresses.{Rise};
ghost use Rattle.m161_explore.specs.declared.system.Advanced.TheVariants.{Refused};
ghost use Rattle.m161_reach.specs.helpers.Handling.{addresses_after};

use crate::place::Place;
use m161_alike::add_address;
use m161_bus::Console;
use m161_explore::Advanced;
use m161_tlb::Tlb;
use std::alloc::AllocError;
use std::marker::Model;

/// A state of the exploration, and what makes the next one cheap: the words of its view, so that a state
/// that is asked for again is known to be there, and where its memory may differ from boot's, so that no
/// more of it is looked at.
#[derive(Drop)]
pub struct Hand<T: Tlb, D: Console> {
    pub(crate) place: Place<T, D>,
    // The words of its view; none where an event was made since they were known.
    pub(crate) words: Vec<u32>,
    // The addresses of the words of RAM that may differ from boot's, in ascending order.
    pub(crate) changed: Vec<u32>,
}

impl<T: Tlb, D: Console> Model for Hand<T, D> {
    ghost use Rattle.m161_reach.specs.Hand.{InHand};

    ghost Value = { InHand };

    ghost view = { λ h. record {
      place = h.place;
      words = h.words.items;
      changed = h.changed.items;
    } };
}

/// Notes that a word was stored to, if that is one of RAM, which has so many bytes.
pub fn note_store(
    changed: &mut Vec<u32>,
    stored: Option<u32>,
    size: usize,
) -> Result<(), AllocError>
    requires { Rise 0 changed.old.items }
    ensures { OnOk result (changed.new.items ≡ addresses_after stored size changed.old.items) }
{
    match stored {
        Some(at) => note_word(changed, at, size),
        None => Ok(()),
    }
}

// Notes that the word at an address was stored to, if it is one of RAM.
fn note_word(changed: &mut Vec<u32>, at: u32, size: usize) -> Result<(), AllocError>
    requires { Rise 0 changed.old.items }
    ensures { OnOk result (changed.new.items ≡ addresses_after (Some at) size changed.old.items) }
{
    if at % 4 == 0 && at as usize + 4 <= size {
        add_address(changed, at)
    } else {
        Ok(())
    }
}

/// Forgets the words of a view, unless the event was refused.
pub fn forget<V, R>(words: &mut Vec<u32>, came: &Advanced<V, R>)
    ensures { (words.new.items ≡ []) ⊎ ((came.now ≡ Refused) × (words.new.items ≡ words.old.items)) }
{
    match came {
        Advanced::Refused => {}
        _ => words.clear(),
    }
}

/// Whether these are the words that are kept.
pub fn are_kept(kept: &[u32], words: &[u32]) -> bool
    ensures { result ≡ true → (0 < length kept.now) × (kept.now ≡ words.now) }
{
    !kept.is_empty() && kept == words
}

/// Keeps these words in the place of those that are kept.
pub fn keep_words(kept: &mut Vec<u32>, words: &[u32]) -> Result<(), AllocError>
    ensures { OnOk result (kept.new.items ≡ words.now) }
{
    kept.clear();
    kept.extend_from_slice(words)?;
    Ok(())
}
