//! The addresses of the words of memory that may differ from boot's.

ghost use Rattle.std.specs.Prelude.{◌≡◌, ℕ, ◌<◌, ◌≤◌, false, true, List, OnOk, length, slice_index};
ghost use Rattle.m161_alike.specs.Addresses.{Cover, Rise, addresses_in, with_address};
ghost use Rattle.m161_alike.specs.Words.{memory_words};

use std::alloc::AllocError;

/// Puts an address among ascending ones, if it isn't there.
///
/// # Errors
/// Memory is refused.
pub fn add_address(addresses: &mut Vec<u32>, at: u32) -> Result<(), AllocError>
    requires { Rise 0 addresses.old.items }
    ensures { OnOk result (addresses.new.items ≡ with_address at addresses.old.items) }
{
    let index = first_from(addresses, at);
    if is_at(addresses, index, at) {
        return Ok(());
    }
    addresses.insert(index, at)?;
    Ok(())
}

// Whether the address that stands at an index is this one.
fn is_at(addresses: &[u32], index: usize, at: u32) -> bool
    ensures yes { result ≡ true → (index < length addresses.now) × (slice_index addresses.now index ≡ at) }
    ensures no { result ≡ false → index < length addresses.now → slice_index addresses.now index ≡ at → ⊥ }
{
    index < addresses.len() && addresses[index] == at
}

// How many of these come before the first that is no lower than an address.
fn first_from(addresses: &[u32], at: u32) -> usize
    ensures within { result ≤ length addresses.now }
    ensures below { (k : ℕ) → k < result → slice_index addresses.now k < at }
    ensures from { result < length addresses.now → at ≤ slice_index addresses.now result }
{
    for i in 0..addresses.len() {
        if addresses[i] >= at {
            return i;
        }
    }
    addresses.len()
}

/// Writes the address before each word in the place of those that are there.
///
/// # Errors
/// Memory is refused.
pub fn read_addresses(words: &[u32], addresses: &mut Vec<u32>) -> Result<(), AllocError>
    ensures { OnOk result (addresses.new.items ≡ addresses_in words.now) }
{
    addresses.clear();
    for i in 0..words.len() / 2 {
        addresses.push(words[2 * i])?;
    }
    Ok(())
}

/// The law of these addresses: all words that differ from boot's are at the addresses before the words
/// that differ. The function does nothing: its contract is the law.
pub fn words_tell_their_addresses()
    ensures { (boot memory : List ℕ) → Cover boot memory (addresses_in (memory_words boot memory)) }
{}
