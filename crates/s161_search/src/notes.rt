//! Notes on watches, on standard error.

ghost use Rattle.std.specs.Prelude.{◌≡◌, ◌++◌, IfOk, OnOk, Some, string_bytes};
ghost use Rattle.m161_text.specs.Lines.{with_line_end};
ghost use Rattle.s161_search.specs.Notes.{note_if, note_line, notes_text, watch_notes};

use m161_stores::Unstored;
use std::alloc::{AllocError, Global};
use std::fmt;

// A note on a word of a watch, as text.
#[derive(Drop)]
struct ShownNote {
    watch: usize,
    name: &'static str,
}

impl fmt::Display for ShownNote {
    ghost output = { λ note. Some (note_line note.watch note.name.now) };

    fn fmt<W: fmt::Write>(&self, f: &mut fmt::Formatter<W>) -> fmt::Result {
        let (watch, name) = (self.watch, self.name);
        write!(
            f,
            "s161: note watch {watch} {name} (no Step stored into this word)"
        )
    }
}

// The line of a note.
fn note_line(alloc: Global, watch: usize, name: &'static str) -> Result<String, AllocError>
    ensures { IfOk result (λ line. string_bytes line ≡ with_line_end (note_line watch name.now)) }
{
    let shown = ShownNote { watch, name };
    format!(in alloc; "{shown}\n")
}

// Appends the note on a word, if no Step stored to it.
fn put_note(
    alloc: Global,
    text: &mut String,
    is_unstored: bool,
    watch: usize,
    name: &'static str,
) -> Result<(), AllocError>
    ensures { OnOk result (string_bytes text.new ≡ string_bytes text.old ++ note_if is_unstored watch name.now) }
{
    if is_unstored {
        let line = note_line(alloc, watch, name)?;
        text.push_str(line.as_str())?;
    }
    Ok(())
}

// Appends the notes on the words of a watch.
fn put_watch(
    alloc: Global,
    text: &mut String,
    watch: usize,
    unstored: Unstored,
) -> Result<(), AllocError>
    ensures { OnOk result (string_bytes text.new ≡ string_bytes text.old ++ watch_notes watch unstored) }
{
    put_note(alloc, text, unstored.pte, watch, "pte")?;
    put_note(alloc, text, unstored.done, watch, "done")
}

/// What is said of watches, by to which of their words no Step stored.
///
/// # Errors
/// Memory was refused.
pub(crate) fn notes_text(alloc: Global, unstored: &[Unstored]) -> Result<String, AllocError>
    ensures { IfOk result (λ text. string_bytes text ≡ notes_text 0 unstored.now) }
{
    let mut text = String::new(alloc);
    for i in 0..unstored.len() {
        put_watch(alloc, &mut text, i, unstored[i])?;
    }
    Ok(text)
}
