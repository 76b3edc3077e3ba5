//! What is kept of the watches.

ghost use Rattle.std.specs.Prelude.{◌≡◌, IfOk, List, flat_map, length, map};
ghost use Rattle.m161_states.specs.System.{Flags, all_after, flags_after, no_flags};
ghost use Rattle.m161_states.specs.Views.{flag_words};

use m161_audit::Watch;
use std::alloc::{AllocError, Global};
use std::marker::Model;

/// What is kept of a watch.
#[derive(Clone, Copy)]
pub struct WatchFlags {
    /// The page table's entry was stored to.
    pub changed: bool,
    /// Behind the last store to it the mark was.
    pub gone_on: bool,
}

impl Model for WatchFlags {
    ghost use Rattle.m161_states.specs.System.{Flags};

    ghost Value = { Flags };

    ghost view = { λ k. record { changed = k.changed; gone_on = k.gone_on } };

    ghost inverse = { λ f. record { changed = f.changed; gone_on = f.gone_on } };
}

// What is kept.
fn kept_of(changed: bool, gone_on: bool) -> WatchFlags
    ensures { result ≡ record { changed = changed; gone_on = gone_on } }
{
    WatchFlags { changed, gone_on }
}

/// What is kept of these watches before any store.
pub fn keep_watches(alloc: Global, watches: &[Watch]) -> Result<Vec<WatchFlags>, AllocError>
    ensures { IfOk result (λ kept. kept.items ≡ map no_flags watches.now) }
{
    let mut kept = Vec::with_capacity(alloc, watches.len())?;
    for i in 0..watches.len() {
        kept.push_reserved(kept_of(false, false));
    }
    Ok(kept)
}

/// What is kept, by its words.
pub fn keep_again(alloc: Global, words: &[u32]) -> Result<Vec<WatchFlags>, AllocError>
    ensures { IfOk result (λ kept. (flags : List Flags) → words.now ≡ flat_map flag_words flags → kept.items ≡ flags) }
{
    let mut kept = Vec::with_capacity(alloc, words.len() / 2)?;
    for i in 0..words.len() / 2 {
        kept.push_reserved(kept_of(words[2 * i] == 1, words[2 * i + 1] == 1));
    }
    Ok(kept)
}

// What is kept of a watch after a store to a word.
fn kept_after(word: u32, watch: &Watch, kept: WatchFlags) -> WatchFlags
    ensures { result ≡ flags_after word watch.now kept }
{
    if watch.pte == word {
        kept_of(true, false)
    } else if watch.done == word {
        kept_of(kept.changed, kept.changed)
    } else {
        kept
    }
}

/// Keeps of the watches that a word was stored to.
pub fn keep_store(word: u32, watches: &[Watch], kept: &mut [WatchFlags])
    requires { length kept.old ≡ length watches.now }
    ensures { kept.new ≡ all_after word watches.now kept.old }
{
    for i in 0..kept.len() {
        kept[i] = kept_after(word, &watches[i], kept[i]);
    }
}
