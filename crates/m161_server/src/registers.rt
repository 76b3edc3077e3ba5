//! Registers, memory and the parts of long texts.

ghost use Rattle.std.specs.Prelude.{◌≡◌, ◌+◌, ◌<◌, ◌≤◌, ◌^◌, ◌++◌, IfOk, OnOk, drop, length, min, string_bytes, take};
ghost use Rattle.m161_server.specs.Texts.{byte_at, bytes_from, found_text, memory_text, part_letter, part_size, part_text, up_to, word_or, word_shown, word_text, words_text};

use crate::target::Target;
use crate::texts::{push_bytes, text};
use m161_text::push_hex;
use std::alloc::{AllocError, Global};

// How many words a processor has.
const WORDS: u32 = 81;

// How many bytes are read at most.
const BYTES: u32 = 8_192;

// How many bytes a part of a text has at most.
const PART: u32 = 16_383;

// Appends a word.
fn push_word(text: &mut String, word: Option<u32>) -> Result<(), AllocError>
    ensures { OnOk result (string_bytes text.new ≡ string_bytes text.old ++ word_text word) }
{
    match word {
        Some(word) => push_hex(text, 8, word),
        None => text.push_str("xxxxxxxx"),
    }
}

/// A word of a processor.
///
/// # Errors
/// Memory was refused.
pub(crate) fn word_or<T: Target>(
    alloc: Global,
    target: &T,
    processor: u32,
    number: u32,
) -> Result<String, AllocError>
    requires { processor < (T.course target.now).scene.processors }
    ensures { IfOk result (λ text. string_bytes text
        ≡ word_or (T.course target.now).scene (T.place target.now) processor number) }
{
    if number >= WORDS {
        return text(alloc, "E01");
    }
    let mut text = String::new(alloc);
    push_word(&mut text, target.register(processor, number))?;
    Ok(text)
}

// The words below a number.
#[tactic(auto, using(crate::proofs::Loops::one_more))]
fn words_to<T: Target>(
    alloc: Global,
    target: &T,
    processor: u32,
    end: u32,
) -> Result<String, AllocError>
    requires processor { processor < (T.course target.now).scene.processors }
    requires end { end ≤ 81 }
    ensures { IfOk result (λ text. string_bytes text
        ≡ up_to (word_shown (T.course target.now).scene (T.place target.now) processor) end) }
{
    let mut text = String::new(alloc);
    for number in 0..end {
        push_word(&mut text, target.register(processor, number))?;
    }
    Ok(text)
}

/// All of them.
///
/// # Errors
/// Memory was refused.
pub(crate) fn words_text<T: Target>(
    alloc: Global,
    target: &T,
    processor: u32,
) -> Result<String, AllocError>
    requires { processor < (T.course target.now).scene.processors }
    ensures { IfOk result (λ text. string_bytes text
        ≡ words_text (T.course target.now).scene (T.place target.now) processor) }
{
    words_to(alloc, target, processor, WORDS)
}

// The byte at an address, if there is one.
fn byte_at<T: Target>(target: &T, processor: u32, address: u64) -> Option<u8>
    requires { processor < (T.course target.now).scene.processors }
    ensures { result ≡ byte_at ((T.course target.now).scene.byte (T.place target.now) processor) address }
{
    match u32::try_from(address) {
        Ok(address) => target.byte(processor, address),
        Err(_) => None,
    }
}

// The bytes from an address on, so many, up to the first that there isn't.
#[tactic(auto, using(crate::proofs::Loops::byte_step, crate::proofs::Loops::byte_last))]
fn bytes_from<T: Target>(
    alloc: Global,
    target: &T,
    processor: u32,
    address: u32,
    number: u32,
) -> Result<Vec<u8>, AllocError>
    requires { processor < (T.course target.now).scene.processors }
    ensures { IfOk result (λ bytes. bytes.items
        ≡ bytes_from ((T.course target.now).scene.byte (T.place target.now) processor) address number) }
{
    let mut bytes = Vec::new(alloc);
    let mut left = number;
    let mut at = u64::from(address);
    while left > 0 {
        let Some(byte) = byte_at(target, processor, at) else {
            return Ok(bytes);
        };
        bytes.push(byte)?;
        left -= 1;
        at += 1;
    }
    Ok(bytes)
}

// Bytes that were asked for, if there is one.
fn found_text(alloc: Global, bytes: &[u8]) -> Result<String, AllocError>
    ensures { IfOk result (λ text. string_bytes text ≡ found_text bytes.now) }
{
    if bytes.is_empty() {
        return text(alloc, "E04");
    }
    let mut text = String::new(alloc);
    push_bytes(&mut text, bytes)?;
    Ok(text)
}

/// The bytes of a processor from an address on.
///
/// # Errors
/// Memory was refused.
pub(crate) fn memory_text<T: Target>(
    alloc: Global,
    target: &T,
    processor: u32,
    address: u32,
    size: u32,
) -> Result<String, AllocError>
    requires { processor < (T.course target.now).scene.processors }
    ensures { IfOk result (λ text. string_bytes text
        ≡ memory_text (T.course target.now).scene (T.place target.now) processor address size) }
{
    let bytes = bytes_from(alloc, target, processor, address, size.min(BYTES))?;
    found_text(alloc, &bytes)
}

// The letter before a part.
fn part_letter(length: usize, from: usize, size: usize) -> &'static str
    requires from { from < 2 ^ 32 }
    requires size { size < 2 ^ 32 }
    ensures { result.now ≡ part_letter length from size }
{
    if length <= from + size { "l" } else { "m" }
}

// The part of a text.
fn part(text: &str, from: usize, size: usize) -> &[u8]
    ensures { result.now ≡ take size (drop from text.now) }
{
    let bytes = text.as_bytes();
    let (_, rest) = bytes.split_at(from.min(bytes.len()));
    let (part, _) = rest.split_at(size.min(rest.len()));
    part
}

/// A part of a text, behind a letter that tells whether it is the last.
///
/// # Errors
/// Memory was refused.
pub(crate) fn part_text(
    alloc: Global,
    whole: &str,
    from: u32,
    size: u32,
) -> Result<Vec<u8>, AllocError>
    ensures { IfOk result (λ bytes. bytes.items ≡ part_text whole.now from size) }
{
    let size = size.min(PART) as usize;
    let from = from as usize;
    let mut bytes = Vec::new(alloc);
    bytes.extend_from_slice(part_letter(whole.len(), from, size).as_bytes())?;
    bytes.extend_from_slice(part(whole, from, size))?;
    Ok(bytes)
}
