//! The text at the fault of a source.

ghost use Rattle.std.specs.Prelude.{◌≡◌, ◌-◌, [], slice_get, unwrap_or};
ghost use Rattle.m161_text.specs.Lines.{lines_of};
ghost use Rattle.s161_base.specs.Excerpts.{IsWord, IsWordAt, characters_of, is_word_end};

use m161_asm::AsmError;
use m161_text::next_line;

/// So many characters of a text are shown at most.
const MOST: usize = 40;

/// The first characters of the text at a fault.
#[derive(Clone, Copy, Debug)]
pub struct Excerpt {
    /// The characters; those behind the first `count` mean nothing.
    pub characters: [char; MOST],
    /// How many there are.
    pub count: usize,
}

impl Excerpt {
    /// The characters.
    pub(crate) fn characters(&self) -> &[char]
        ensures { result.now ≡ characters_of self.now }
    {
        let count = self.count.min(MOST);
        &self.characters[..count]
    }
}

/// Why a text isn't assembled, and what stands there.
#[derive(Clone, Copy, Debug)]
pub struct SourceError {
    /// The fault.
    pub error: AsmError,
    /// The text at its place.
    pub word: Excerpt,
}

/// No characters.
const EMPTY: Excerpt = Excerpt {
    characters: ['\0'; MOST],
    count: 0,
};

// Whether a text at a fault ends before this character: a blank, a comma, or the mark of a comment.
fn is_word_end(c: char) -> bool
    ensures { result ≡ is_word_end c }
{
    c == ' ' || c == '\t' || c == ',' || c == '#'
}

// The first characters of a line's rest, up to one that ends them.
fn word_of(rest: &str) -> Excerpt
    ensures { IsWord rest.now (characters_of result) }
{
    let mut characters = ['\0'; MOST];
    let mut count = 0;
    let mut left = rest.chars();
    while count < MOST {
        let Some(c) = left.next() else {
            return Excerpt { characters, count };
        };
        if is_word_end(c) {
            return Excerpt { characters, count };
        }
        characters[count] = c;
        count += 1;
    }
    Excerpt { characters, count }
}

// Line n of a text, from 1, without its end; empty if there is none.
fn line_at(text: &str, n: usize) -> &str
    ensures { result.now ≡ unwrap_or (slice_get (lines_of text.now) (n - 1)) [] }
{
    let mut rest = text;
    let mut at = 1;
    while at < n {
        let Some((_, behind)) = next_line(rest) else {
            return "";
        };
        rest = behind;
        at += 1;
    }
    match next_line(rest) {
        Some((line, _)) => line,
        None => "",
    }
}

/// The text at a line and a column of a source, both from 1.
pub(crate) fn excerpt_at(source: &str, line: usize, column: usize) -> Excerpt
    ensures { IsWordAt source.now line column (characters_of result) }
{
    let text = line_at(source, line);
    let at = column.saturating_sub(1);
    match text.split_at_checked(at) {
        Some((_, rest)) => word_of(rest),
        None => EMPTY,
    }
}
