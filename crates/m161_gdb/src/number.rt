//! Numbers, threads and lists in packets.

ghost use Rattle.std.specs.Prelude.{◌≡◌, ◌<◌, None, Some, IfSome, MatchOption, length};
ghost use Rattle.m161_gdb.specs.Packets.{cut_at, number_from, number_of, thread_of, two_numbers, with_digit};

use crate::hex::hex_value;
use crate::packet::Thread;

/// The parts of a text before and after the first such byte.
#[tactic(auto, using(crate::proofs::Cutting::cut_found, crate::proofs::Cutting::cut_never, crate::proofs::Cutting::not_yet))]
pub(crate) fn cut(text: &[u8], byte: u8) -> Option<(&[u8], &[u8])>
    ensures parts { MatchOption result (cut_at byte text.now ≡ None)
        (λ x. cut_at byte text.now ≡ Some (x.0.now, x.1.now)) }
    ensures shorter { IfSome result (λ x. length x.1.now < length text.now) }
{
    for (i, b) in text.iter().enumerate() {
        if *b == byte {
            let (_, behind) = text.split_at(i + 1);
            return Some((&text[..i], behind));
        }
    }
    None
}

// A number with a digit more.
fn with_digit(number: u32, digit: u8) -> Option<u32>
    ensures { result ≡ with_digit number digit }
{
    let value = hex_value(digit)?;
    let more = u64::from(number) * 16 + u64::from(value);
    u32::try_from(more).ok()
}

/// The number of one or more hexadecimal digits, below 2^32.
pub(crate) fn number_of(text: &[u8]) -> Option<u32>
    ensures { result ≡ number_of text.now }
{
    if text.is_empty() {
        return None;
    }
    let mut number = 0;
    let mut rest = text;
    while let [digit, behind @ ..] = rest {
        number = with_digit(number, *digit)?;
        rest = behind;
    }
    Some(number)
}

/// Two numbers with a comma between.
pub(crate) fn two_numbers(text: &[u8]) -> Option<(u32, u32)>
    ensures { result ≡ two_numbers text.now }
{
    let (first, second) = cut(text, b',')?;
    let first = number_of(first)?;
    let second = number_of(second)?;
    Some((first, second))
}

/// A thread.
pub(crate) fn thread_of(text: &[u8]) -> Option<Thread>
    ensures { result ≡ thread_of text.now }
{
    if text == b"-1".as_slice() {
        return Some(Thread::Any);
    }
    let number = number_of(text)?;
    if number == 0 {
        Some(Thread::Any)
    } else {
        Some(Thread::Processor(number - 1))
    }
}
