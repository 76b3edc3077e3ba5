//! The text of watches.

ghost use Rattle.std.specs.Prelude.{◌≡◌, ℕ, ◌++◌, List, Err, decimal, IfOk, OnOk, OnErr, IsErrOf};
ghost use Rattle.m161_steplog.specs.declared.fault.TextFault.TheVariants as faults;
ghost use Rattle.m161_steplog.specs.Read.{IsRead};
ghost use Rattle.m161_text.specs.Lines.{lines_of, FirstBad};
ghost use Rattle.m161_text.specs.Parts.{◌␣◌, IsPage, IsWord, Lacks, Reads, hex_text};
ghost use Rattle.m161_text.specs.helpers.Parts.{ReadsBoth};
ghost use Rattle.m161_audit.specs.declared.watch.Watch.{Watch};
ghost use Rattle.m161_audit.specs.WatchText.{AreWatchLines, AreWatches, HasText, watch_text};
ghost use Rattle.m161_audit.specs.helpers.WatchText.{AreWords, IsPlace, ReadsLine, item_watches, place_text, words_text};

use crate::watch::Watch;
use m161_steplog::TextFault;
use m161_text::{cut_at_space, next_line, parse_decimal, parse_page, parse_word};
use std::alloc::Global;

/// What a line asks for.
#[derive(Clone, Copy)]
pub(crate) enum Item {
    /// Nothing: the line is blank or a comment.
    Nothing,
    /// This watch.
    Watched(Watch),
}

// Two words.
fn parse_words(text: &str) -> Option<(u32, u32)>
    ensures { ReadsBoth IsWord IsWord (hex_text 8) (hex_text 8) text.now result }
{
    let (pte, done) = cut_at_space(text)?;
    let pte = parse_word(pte)?;
    let done = parse_word(done)?;
    Some((pte, done))
}

// A page, and two words.
fn parse_place(text: &str) -> Option<(u32, (u32, u32))>
    ensures { ReadsBoth IsPage AreWords (hex_text 5) words_text text.now result }
{
    let (page, words) = cut_at_space(text)?;
    let page = parse_page(page)?;
    let words = parse_words(words)?;
    Some((page, words))
}

// The numbers of a watch.
fn parse_numbers(text: &str) -> Option<(u32, (u32, (u32, u32)))>
    ensures { ReadsBoth IsWord IsPlace decimal place_text text.now result }
{
    let (id, place) = cut_at_space(text)?;
    let id = parse_decimal(id)?;
    let place = parse_place(place)?;
    Some((id, place))
}

// The watch of a line whose parts are before and after its first space.
fn parse_watch(kind: &str, rest: &str) -> Option<Watch>
    requires { Lacks 32 kind.now }
    ensures { Reads HasText watch_text (kind.now ␣ rest.now) result }
{
    match kind {
        "w" => {
            let (id, (page, (pte, done))) = parse_numbers(rest)?;
            Some(Watch {
                id,
                page,
                pte,
                done,
            })
        }
        _ => None,
    }
}

// What a line asks for.
fn parse_item(line: &str) -> Option<Item>
    ensures { ReadsLine line.now result }
{
    if line.is_empty() {
        return Some(Item::Nothing);
    }
    if line.starts_with('#') {
        return Some(Item::Nothing);
    }
    let (kind, rest) = cut_at_space(line)?;
    let watch = parse_watch(kind, rest)?;
    Some(Item::Watched(watch))
}

// Appends the watch of a line, if it has one.
fn push_item(watches: &mut Vec<Watch>, item: Item) -> Result<(), TextFault>
    ensures ok { OnOk result (watches.new.items ≡ watches.old.items ++ item_watches item) }
    ensures err { OnErr result (result ≡ Err faults.NoMemory) }
{
    match item {
        Item::Nothing => {}
        Item::Watched(watch) => watches.push(watch)?,
    }
    Ok(())
}

/// The watches of a text, one for each line `w ID PAGE PTE DONE`; blank lines and comments are none.
/// Whether a machine can watch them is for the audit to say.
///
/// # Errors
/// The first bad line; or memory was refused.
pub fn read_watches(alloc: Global, text: &str) -> Result<Vec<Watch>, TextFault>
    // The result is the watches of this text.
    ensures found { IfOk result (λ watches. AreWatches (lines_of text.now) watches.items) }
    // If the text is one of watches, it is read, unless memory is refused.
    ensures only { (ws : List Watch) → AreWatches (lines_of text.now) ws → IsRead ws result }
    ensures line { (n : ℕ) → IsErrOf result (faults.Line n) → FirstBad AreWatchLines text.now n }
{
    let mut watches = Vec::new(alloc);
    let mut number = 0u64;
    let mut rest = text;
    while let Some((line, more)) = next_line(rest) {
        number += 1;
        let Some(item) = parse_item(line) else {
            return Err(TextFault::Line(number));
        };
        push_item(&mut watches, item)?;
        rest = more;
    }
    Ok(watches)
}
