//! The words of a view: a state is known again by them.

ghost use Rattle.std.specs.Prelude.{◌≡◌, ◌<◌, ◌≤◌, ℕ, true, [], ◌+◌, ◌*◌, ◌^◌, ◌++◌, length, take, OnOk, OnErr};
ghost use Rattle.m161_ram.specs.Word.{word_at};
ghost use Rattle.m161_alike.specs.Words.{MemoryLaw, memory_words, word_change};
ghost use Rattle.m161_alike.specs.Addresses.{Cover};

use m161_bus::Console;
use m161_machine::Core;
use m161_tlb::Tlb;
use std::alloc::AllocError;

/// How many words are looked at together.
const BLOCK: usize = 64;

/// Writes the words of memory that differ from boot's behind the words that are there, each behind its
/// address. All of them are at these addresses, so no other word is looked at.
///
/// # Errors
/// Memory is refused. Nothing is changed then.
pub fn write_memory<T: Tlb, D: Console>(
    core: &Core<T, D>,
    boot: &[u8],
    addresses: &[u32],
    out: &mut Vec<u32>,
) -> Result<(), AllocError>
    requires size { length boot.now ≡ length core.now.state.memory }
    requires cover { Cover boot.now core.now.state.memory addresses.now }
    ensures ok { OnOk result
        (out.new.items ≡ out.old.items ++ memory_words boot.now core.now.state.memory) }
    ensures err { OnErr result (out.new.items ≡ out.old.items) }
{
    core.law();
    let before = out.len();
    match push_changes(core.memory(), boot, addresses, out) {
        Ok(()) => Ok(()),
        Err(error) => {
            out.truncate(before);
            Err(error)
        }
    }
}

/// Writes the same words, where it isn't known at which addresses they are: all of memory is looked at.
///
/// # Errors
/// Memory is refused. Nothing is changed then.
pub fn scan_memory<T: Tlb, D: Console>(
    core: &Core<T, D>,
    boot: &[u8],
    out: &mut Vec<u32>,
) -> Result<(), AllocError>
    requires { length boot.now ≡ length core.now.state.memory }
    ensures ok { OnOk result
        (out.new.items ≡ out.old.items ++ memory_words boot.now core.now.state.memory) }
    ensures err { OnErr result (out.new.items ≡ out.old.items) }
{
    core.law();
    let before = out.len();
    match push_all_changes(core.memory(), boot, out) {
        Ok(()) => Ok(()),
        Err(error) => {
            out.truncate(before);
            Err(error)
        }
    }
}

// The words of memory that differ from boot's, each behind its address. After an error some of them
// are there.
fn push_changes(
    memory: &[u8],
    boot: &[u8],
    addresses: &[u32],
    out: &mut Vec<u32>,
) -> Result<(), AllocError>
    requires size { length boot.now ≡ length memory.now }
    requires cover { Cover boot.now memory.now addresses.now }
    ensures ok { OnOk result (out.new.items ≡ out.old.items ++ memory_words boot.now memory.now) }
    ensures err { OnErr result (take (length out.old.items) out.new.items ≡ out.old.items) }
{
    for i in 0..addresses.len() {
        push_change(memory, boot, addresses[i], out)?;
    }
    Ok(())
}

// The same for all of memory.
fn push_all_changes(memory: &[u8], boot: &[u8], out: &mut Vec<u32>) -> Result<(), AllocError>
    requires size { length boot.now ≡ length memory.now }
    requires few { length memory.now ≤ 2 ^ 29 }
    ensures ok { OnOk result (out.new.items ≡ out.old.items ++ memory_words boot.now memory.now) }
    ensures err { OnErr result (take (length out.old.items) out.new.items ≡ out.old.items) }
{
    let count = memory.len() / 4;
    let mut place = 0;
    while place < count {
        if is_same_block(memory, boot, place) {
            place += BLOCK;
        } else {
            push_change(memory, boot, 4 * place as u32, out)?;
            place += 1;
        }
    }
    Ok(())
}

// Whether so many words from a place on are there, and none of them differs from boot's.
fn is_same_block(memory: &[u8], boot: &[u8], place: usize) -> bool
    requires size { length boot.now ≡ length memory.now }
    requires few { length memory.now ≤ 2 ^ 29 }
    requires within { 4 * place ≤ length memory.now }
    ensures there { result ≡ true → 4 * (place + 64) ≤ length memory.now }
    ensures same { result ≡ true → (i : ℕ) → i < 64 → word_change boot.now memory.now (4 * (place + i)) ≡ [] }
{
    let start = 4 * place;
    let end = start + 4 * BLOCK;
    end <= memory.len() && memory[start..end] == boot[start..end]
}

// The word at an address, if it differs from boot's.
fn push_change(memory: &[u8], boot: &[u8], at: u32, out: &mut Vec<u32>) -> Result<(), AllocError>
    requires size { length boot.now ≡ length memory.now }
    requires within { at + 4 ≤ length memory.now }
    ensures ok { OnOk result (out.new.items ≡ out.old.items ++ word_change boot.now memory.now at) }
    ensures err { OnErr result (out.new.items ≡ out.old.items) }
{
    let word = word_of(memory, at as usize);
    if word == word_of(boot, at as usize) {
        return Ok(());
    }
    out.reserve(2)?;
    out.push_reserved(at);
    out.push_reserved(word);
    Ok(())
}

/// The word whose first byte has this place.
pub fn word_of(bytes: &[u8], at: usize) -> u32
    requires { at + 4 ≤ length bytes.now }
    ensures { result ≡ word_at bytes.now at }
{
    u32::from_be_bytes([bytes[at], bytes[at + 1], bytes[at + 2], bytes[at + 3]])
}

/// The law of the words of memory.
pub fn words_tell_memory()
    ensures { MemoryLaw }
{}
