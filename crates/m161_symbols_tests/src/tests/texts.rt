//! Texts with places: by the symbols start at 80000200 and end at 80000204.

use crate::tests::labels::FILE;
use crate::tests::same;
use m161_dis::{Naming, Style, has_no_places, push_line, push_line_with};
use m161_symbols::{
    PLACE_MARKS, Symbols, no_symbols_no_places, push_place_behind, put_place_behind,
};
use std::alloc::AllocGlobal;
use std::process::Abort;
use std::test::Fail;

/// A word, its address, and its text by numbers.
static WORDS: [(u32, u32, &str); 8] = [
    (0x1000_ffff, 0x8000_0200, "beq $0, $0, 0x80000200 <start>"),
    (0x1500_000a, 0x8000_0204, "bne $8, $0, 0x80000230 <end+2c>"),
    (0x0c00_0081, 0x8000_0210, "jal 0x80000204 <end>"),
    (0x0800_0000, 0x8fff_fffc, "j 0x90000000 <end+ffffdfc>"),
    (0x1000_0000, 0x0000_0010, "beq $0, $0, 0x00000014"),
    (0x2508_0001, 0x8000_0200, "addiu $8, $8, 1"),
    (0x0000_0000, 0x8000_0200, "nop"),
    (0x1000_ffff, 0x8000_0207, "beq $0, $0, 0x80000207 <end+3>"),
];

#[test]
fn places_of_targets(rt: HostRuntime) -> Result<(), Fail> {
    let style = Style {
        registers: Naming::Numbers,
        symbols: Symbols::new(rt.alloc(), &FILE)?,
    };
    for (word, at, expected) in &WORDS {
        let mut text = String::from_str(rt.alloc(), "> ")?;
        push_line_with(&mut text, &style, *word, *at)?;
        same(&rt, text.strip_prefix("> "), Some(*expected));
    }
    Ok(())
}

#[test]
fn places_by_names(rt: HostRuntime) -> Result<(), Fail> {
    let style = Style {
        registers: Naming::Names,
        symbols: Symbols::new(rt.alloc(), &FILE)?,
    };
    let mut text = String::new(rt.alloc());
    push_line_with(&mut text, &style, 0x1500_000a, 0x8000_0204)?;
    same(&rt, text.as_str(), "bne $t0, $zero, 0x80000230 <end+2c>");
    Ok(())
}

/// Without symbols both calls append the same.
#[test]
fn texts_without_symbols(rt: HostRuntime) -> Result<(), Fail> {
    no_symbols_no_places();
    has_no_places();
    let style = Style::plain(rt.alloc());
    for (word, at, _) in &WORDS {
        let mut text = String::new(rt.alloc());
        let mut other = String::new(rt.alloc());
        push_line_with(&mut text, &style, *word, *at)?;
        push_line(&mut other, Naming::Numbers, *word, *at)?;
        same(&rt, text.as_str(), other.as_str());
    }
    Ok(())
}

#[test]
fn places_behind_addresses(rt: HostRuntime) -> Result<(), Fail> {
    let symbols = Symbols::new(rt.alloc(), &FILE)?;
    let mut text = String::from_str(rt.alloc(), "a")?;
    push_place_behind(&mut text, &symbols, 0x8000_01ff)?;
    push_place_behind(&mut text, &symbols, 0x8000_0202)?;
    text.reserve(6 + PLACE_MARKS)?;
    put_place_behind(&mut text, "symbol", 0x1234);
    same(&rt, text.as_str(), "a <start+2> <symbol+1234>");
    Ok(())
}
