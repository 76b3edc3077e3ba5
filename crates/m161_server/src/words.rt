//! The lines of the monitor.

ghost use Rattle.std.specs.Prelude.{◌≡◌, ◌≤◌, ◌<◌, ◌^◌, None, Some, MatchOption, IfSome, bytes_eq, length, option_map};
ghost use Rattle.m161_gdb.specs.Packets.{cut_at};
ghost use Rattle.m161_server.specs.declared.words.Asked.TheVariants as asks;
ghost use Rattle.m161_server.specs.Words.{address_in, asked_alone, asked_in, asked_of, asked_with, bad_if, digit_value, digits_from, general_word, hex_from, hex_number, hex_value, is_asking, memory_asked, number_in, plain_word, with_digit, with_hex, with_number};

/// What a line asks for.
#[derive(Clone, Copy, Debug, PartialEq, Eq)]
pub(crate) enum Asked {
    /// The place.
    At,
    /// The last stop.
    Why,
    /// That moves stop at this place.
    Goto(u32),
    /// Where the processors are.
    Where,
    /// The registers of a processor; `None` is the general one, also below.
    Registers(Option<u32>),
    /// Those of its coprocessor.
    Cop0(Option<u32>),
    /// Its TLB.
    Tlb(Option<u32>),
    /// Words of memory from an address on, this number.
    Memory(u32, u32),
    /// The lines of the last events, this number.
    Trace(u32),
    /// What the console has shown.
    Output,
    /// The events before the place.
    Schedule,
    /// What there is to ask for.
    Help,
    /// Its word isn't known.
    Unknown,
    /// What stands behind its word isn't the word's.
    BadArgument,
}

// The value of a decimal digit.
fn digit_value(c: u8) -> Option<u32>
    ensures value { result ≡ digit_value c }
    ensures small { IfSome result (λ value. value < 10) }
{
    if b'0' <= c && c <= b'9' {
        Some(u32::from(c - b'0'))
    } else {
        None
    }
}

// A number with a digit more.
fn with_digit(number: u32, c: u8) -> Option<u32>
    ensures { result ≡ with_digit number c }
{
    let value = digit_value(c)?;
    let more = u64::from(number) * 10 + u64::from(value);
    u32::try_from(more).ok()
}

// The number of digits.
fn digits_from(text: &[u8]) -> Option<u32>
    ensures { result ≡ digits_from 0 text.now }
{
    let mut number = 0;
    let mut rest = text;
    while let [c, behind @ ..] = rest {
        number = with_digit(number, *c)?;
        rest = behind;
    }
    Some(number)
}

// A decimal number.
fn number_in(text: &[u8]) -> Option<u32>
    ensures { result ≡ number_in text.now }
{
    match text {
        [] => None,
        [c] => digit_value(*c),
        [c, _, ..] => { if *c == b'0' { None } else { digits_from(text) } }
    }
}

// The value of a lower case hexadecimal digit.
fn hex_value(c: u8) -> Option<u32>
    ensures value { result ≡ hex_value c }
    ensures small { IfSome result (λ value. value < 16) }
{
    match c {
        b'0'..=b'9' => Some(u32::from(c - b'0')),
        b'a'..=b'f' => Some(u32::from(c - b'a' + 10)),
        _ => None,
    }
}

// A number with one more.
fn with_hex(number: u32, c: u8) -> Option<u32>
    ensures { result ≡ with_hex number c }
{
    let value = hex_value(c)?;
    let more = u64::from(number) * 16 + u64::from(value);
    u32::try_from(more).ok()
}

// The number of such digits.
fn hex_from(text: &[u8]) -> Option<u32>
    ensures { result ≡ hex_from 0 text.now }
{
    let mut number = 0;
    let mut rest = text;
    while let [c, behind @ ..] = rest {
        number = with_hex(number, *c)?;
        rest = behind;
    }
    Some(number)
}

// The number of one to eight of them.
fn hex_number(digits: &[u8]) -> Option<u32>
    ensures { result ≡ hex_number digits.now }
{
    if 1 <= digits.len() && digits.len() <= 8 {
        hex_from(digits)
    } else {
        None
    }
}

// An address.
fn address_in(text: &[u8]) -> Option<u32>
    ensures { result ≡ address_in text.now }
{
    match text.strip_prefix(b"0x") {
        Some(digits) => hex_number(digits),
        None => hex_number(text),
    }
}

// The parts of a text before and after the first space.
#[tactic(auto, using(m161_gdb::proofs::Cutting::cut_found, m161_gdb::proofs::Cutting::cut_never, m161_gdb::proofs::Cutting::not_yet))]
fn cut(text: &[u8]) -> Option<(&[u8], &[u8])>
    ensures { MatchOption result (cut_at 32 text.now ≡ None)
        (λ x. cut_at 32 text.now ≡ Some (x.0.now, x.1.now)) }
{
    for (i, b) in text.iter().enumerate() {
        if *b == b' ' {
            let (_, behind) = text.split_at(i + 1);
            return Some((&text[..i], behind));
        }
    }
    None
}

// Whether a text is this word.
fn is(text: &[u8], word: &[u8]) -> bool
    ensures { result ≡ bytes_eq text.now word.now }
{
    text == word
}

// The words that stand alone.
fn plain_word(word: &[u8]) -> Option<Asked>
    ensures { result ≡ plain_word word.now }
{
    if is(word, b"at") {
        return Some(Asked::At);
    }
    if is(word, b"why") {
        return Some(Asked::Why);
    }
    if is(word, b"where") {
        return Some(Asked::Where);
    }
    if is(word, b"output") {
        return Some(Asked::Output);
    }
    if is(word, b"schedule") {
        return Some(Asked::Schedule);
    }
    if is(word, b"help") {
        return Some(Asked::Help);
    }
    None
}

// Those that are of the general processor, where no other is named.
fn general_word(word: &[u8]) -> Option<Asked>
    ensures { result ≡ general_word word.now }
{
    if is(word, b"regs") {
        return Some(Asked::Registers(None));
    }
    if is(word, b"cop0") {
        return Some(Asked::Cop0(None));
    }
    if is(word, b"tlb") {
        return Some(Asked::Tlb(None));
    }
    None
}

// What a processor is asked for.
fn registers_asked(rest: &[u8]) -> Asked
    ensures { result ≡ with_number (λ p. asks.Registers (Some p)) (number_in rest.now) }
{
    match number_in(rest) {
        Some(p) => Asked::Registers(Some(p)),
        None => Asked::BadArgument,
    }
}

fn cop0_asked(rest: &[u8]) -> Asked
    ensures { result ≡ with_number (λ p. asks.Cop0 (Some p)) (number_in rest.now) }
{
    match number_in(rest) {
        Some(p) => Asked::Cop0(Some(p)),
        None => Asked::BadArgument,
    }
}

fn tlb_asked(rest: &[u8]) -> Asked
    ensures { result ≡ with_number (λ p. asks.Tlb (Some p)) (number_in rest.now) }
{
    match number_in(rest) {
        Some(p) => Asked::Tlb(Some(p)),
        None => Asked::BadArgument,
    }
}

// A place, or a number of lines.
fn goto_asked(rest: &[u8]) -> Asked
    ensures { result ≡ with_number asks.Goto (number_in rest.now) }
{
    match number_in(rest) {
        Some(k) => Asked::Goto(k),
        None => Asked::BadArgument,
    }
}

fn trace_asked(rest: &[u8]) -> Asked
    ensures { result ≡ with_number asks.Trace (number_in rest.now) }
{
    match number_in(rest) {
        Some(n) => Asked::Trace(n),
        None => Asked::BadArgument,
    }
}

// Words of memory.
fn memory_asked(rest: &[u8]) -> Asked
    ensures { result ≡ memory_asked (cut_at 32 rest.now) }
{
    let Some((first, second)) = cut(rest) else {
        return Asked::BadArgument;
    };
    match (address_in(first), number_in(second)) {
        (Some(address), Some(number)) => Asked::Memory(address, number),
        (Some(_), None) => Asked::BadArgument,
        (None, _) => Asked::BadArgument,
    }
}

// A word with what stands behind it.
fn asked_with(word: &[u8], rest: &[u8]) -> Option<Asked>
    ensures { result ≡ asked_with word.now rest.now }
{
    if is(word, b"regs") {
        return Some(registers_asked(rest));
    }
    if is(word, b"cop0") {
        return Some(cop0_asked(rest));
    }
    if is(word, b"tlb") {
        return Some(tlb_asked(rest));
    }
    if is(word, b"goto") {
        return Some(goto_asked(rest));
    }
    if is(word, b"trace") {
        return Some(trace_asked(rest));
    }
    if is(word, b"memory") {
        return Some(memory_asked(rest));
    }
    None
}

// Whether a word always has something behind it.
fn is_asking(word: &[u8]) -> bool
    ensures { result ≡ is_asking word.now }
{
    is(word, b"goto") || is(word, b"trace") || is(word, b"memory")
}

// A word that is known has a bad argument.
fn bad_if(known: bool) -> Asked
    ensures { result ≡ bad_if known }
{
    if known {
        Asked::BadArgument
    } else {
        Asked::Unknown
    }
}

// A word alone.
fn asked_alone(word: &[u8]) -> Asked
    ensures { result ≡ asked_alone word.now }
{
    if let Some(asked) = plain_word(word) {
        return asked;
    }
    if let Some(asked) = general_word(word) {
        return asked;
    }
    bad_if(is_asking(word))
}

// A word, and what stands behind a space.
fn asked_in(word: &[u8], rest: &[u8]) -> Asked
    ensures { result ≡ asked_in word.now rest.now }
{
    if let Some(asked) = asked_with(word, rest) {
        return asked;
    }
    bad_if(plain_word(word).is_some())
}

/// What a line asks for.
pub(crate) fn asked_of(line: &[u8]) -> Asked
    ensures { result ≡ asked_of line.now }
{
    match cut(line) {
        Some((word, rest)) => asked_in(word, rest),
        None => asked_alone(line),
    }
}
