//! Memory, made anew from the words of its view.

ghost use Rattle.std.specs.Prelude.{◌≡◌, ℕ, ◌+◌, ◌%◌, ◌≤◌, List, length};
ghost use Rattle.m161_ram.specs.Word.{word_at};
ghost use Rattle.m161_machine.specs.Restore.{with_memory};
ghost use Rattle.m161_alike.specs.Addresses.{Cover};
ghost use Rattle.m161_alike.specs.RestoredMemory.{AreWordsOfMemory, with_change, with_changes};

use crate::words::word_of;
use m161_bus::Console;
use m161_machine::Core;
use m161_tlb::Tlb;

/// Makes memory boot's with each word at the address before it, as `write_memory` writes them. An
/// address at which there is no word is passed over. The words that differ from boot's now are at these
/// addresses, so no other word is looked at. Does not allocate.
pub fn read_memory<T: Tlb, D: Console>(
    core: &mut Core<T, D>,
    boot: &[u8],
    addresses: &[u32],
    words: &[u32],
)
    requires size { length boot.now ≡ length core.old.state.memory }
    requires whole { length boot.now % 4 ≡ 0 }
    requires cover { Cover boot.now core.old.state.memory addresses.now }
    ensures state { core.new.state ≡ with_memory (with_changes words.now boot.now) core.old.state }
    ensures view { (m : List ℕ) → AreWordsOfMemory boot.now words.now m
        → core.new.state ≡ with_memory m core.old.state }
    ensures room { core.new.room ≡ core.old.room }
{
    reset(core, boot, addresses);
    make_changes(core, words);
}

// Makes the words at these addresses boot's, and so all of memory.
fn reset<T: Tlb, D: Console>(core: &mut Core<T, D>, boot: &[u8], addresses: &[u32])
    requires size { length boot.now ≡ length core.old.state.memory }
    requires whole { length boot.now % 4 ≡ 0 }
    requires cover { Cover boot.now core.old.state.memory addresses.now }
    ensures state { core.new.state ≡ with_memory boot.now core.old.state }
    ensures room { core.new.room ≡ core.old.room }
{
    core.law();
    for i in 0..addresses.len() {
        let at = addresses[i];
        core.restore_word(at, word_of(boot, at as usize));
    }
    is_boot(core.memory(), boot);
}

// Memory all of whose words are boot's is boot's.
fn is_boot(memory: &[u8], boot: &[u8])
    requires size { length boot.now ≡ length memory.now }
    requires whole { length boot.now % 4 ≡ 0 }
    requires same { (at : ℕ) → at % 4 ≡ 0 → at + 4 ≤ length memory.now → word_at memory.now at ≡ word_at boot.now at }
    ensures { memory.now ≡ boot.now }
{}

// Puts each word at the address before it.
fn make_changes<T: Tlb, D: Console>(core: &mut Core<T, D>, words: &[u32])
    ensures state { core.new.state
        ≡ with_memory (with_changes words.now core.old.state.memory) core.old.state }
    ensures room { core.new.room ≡ core.old.room }
{
    let mut place = 0;
    while words.len() - place >= 2 {
        make_change(core, words[place], words[place + 1]);
        place += 2;
    }
}

// Puts a word at an address, if there is one.
fn make_change<T: Tlb, D: Console>(core: &mut Core<T, D>, at: u32, word: u32)
    ensures state { core.new.state
        ≡ with_memory (with_change at word core.old.state.memory) core.old.state }
    ensures room { core.new.room ≡ core.old.room }
{
    if at as usize + 4 <= core.memory().len() {
        core.restore_word(at, word);
    }
}
