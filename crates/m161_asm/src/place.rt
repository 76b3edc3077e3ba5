//! The address of the next line, and whether a line may be there.

ghost use Rattle.std.specs.Prelude.{◌≡◌, ◌≤◌, ◌<◌, ◌+◌, ◌*◌, ◌^◌, ℕ, Bool, OnOk, List, is_some, nat_lt, ◌||◌, false, true, [], None};
ghost use Rattle.m161_asm.specs.Lines.{size_of};
ghost use Rattle.m161_asm.specs.Lines as lines;
ghost use Rattle.m161_asm.specs.Text.{exceeds, new_segments, origin_of, address_from, has_words_from, line_in_place};
ghost use Rattle.m161_asm.specs.helpers.Seen.{statement_seen, line_seen, Gives};
ghost use Rattle.m161_asm.specs.helpers.Passes.{IsPosition, IsBehind, HasRoom, Advances, Moves};

use crate::error::ErrorKind;
use crate::ground::Ground;
use crate::statement::{Line, ReadError, SourceFault, Statement};
use std::alloc::Global;

/// The first address.
pub const START: u32 = 0x8000_0200;

// The greatest number of words of a text, and of segments with words.
const MAX_WORDS: u64 = 4_194_304;

const MAX_SEGMENTS: u64 = 1024;

/// The position of the next line: its address, what the lines above have filled, how many words and
/// segments with words they have, and whether the last segment has words.
#[derive(Drop)]
pub struct Position {
    pub address: u64,
    pub words: u64,
    pub segments: u64,
    pub has_words: bool,
    pub ground: Ground,
}

/// How many words a statement has.
pub(crate) fn size_of(statement: &Statement<'_>) -> u64
    ensures { result ≡ size_of (statement_seen statement.now) }
{
    match statement {
        Statement::Space(n) => u64::from(*n),
        Statement::Words(values) => values.len() as u64,
        Statement::Code(_, _) => 1,
        Statement::Nothing => 0,
        Statement::Origin(_) => 0,
        Statement::Entry(_) => 0,
    }
}

/// The address that a statement sets for the next line.
pub(crate) fn origin_of(statement: &Statement<'_>) -> Option<u32>
    ensures { result ≡ origin_of (statement_seen statement.now) }
{
    match statement {
        Statement::Origin(n) => Some(*n),
        Statement::Nothing => None,
        Statement::Space(_) => None,
        Statement::Entry(_) => None,
        Statement::Words(_) => None,
        Statement::Code(_, _) => None,
    }
}

impl Position {
    // 1 if `size` words open a segment, else 0.
    fn new_segments(&self, size: u64) -> u64
        ensures value { result ≡ new_segments size self.now.has_words }
        ensures small { result ≤ 1 }
    {
        if size > 0 && !self.has_words { 1 } else { 0 }
    }

    // Whether `size` words exceed a limit.
    fn exceeds(&self, has_label: bool, size: u64) -> bool
        requires { IsPosition self.now }
        ensures { result ≡ exceeds self.now.address has_label size (size + self.now.words)
            (self.now.segments + new_segments size self.now.has_words) }
    {
        if size > MAX_WORDS {
            return true;
        }
        let segments = self.segments + self.new_segments(size);
        self.address + 4 * size > 1 << 32
            || (has_label && self.address == 1 << 32)
            || size + self.words > MAX_WORDS
            || segments > MAX_SEGMENTS
    }

    /// The position of the first line.
    pub(crate) fn new(alloc: Global) -> Position
        ensures { IsBehind result [] }
    {
        let address = u64::from(START);
        let ground = Ground::new(alloc, address);
        Position {
            address,
            words: 0,
            segments: 0,
            has_words: false,
            ground,
        }
    }

    /// Whether a line may be here.
    #[tactic(auto, unfolding(crate::specs::Text::line_in_place))]
    pub(crate) fn place(&self, line: &Line<'_>) -> Result<(), SourceFault>
        requires { IsPosition self.now }
        ensures value { (above : List lines.SourceLine) → IsBehind self.now above →
            Gives (λ _. line_seen line.now) result (line_in_place above (line_seen line.now)) }
        ensures room { OnOk result (HasRoom self.now (size_of
            (statement_seen line.now.statement))) }
        ensures label { OnOk result (is_some line.now.label ≡ true → self.now.address < 2 ^ 32) }
    {
        let size = size_of(&line.statement);
        if self.exceeds(line.label.is_some(), size) {
            return Err(SourceFault {
                kind: ErrorKind::OutOfRange,
                column: line.column,
            });
        }
        if self.ground.is_filled(self.address, size) {
            return Err(SourceFault {
                kind: ErrorKind::Overlap,
                column: line.column,
            });
        }
        Ok(())
    }

    fn has_words_with(&self, size: u64) -> bool
        ensures { result ≡ (nat_lt 0 size || self.now.has_words) }
    {
        size > 0 || self.has_words
    }

    // Goes past `size` words.
    fn grow(&mut self, size: u64)
        requires position { IsPosition self.old }
        requires room { HasRoom self.old size }
        ensures { Advances self.old self.new None size }
    {
        let opened = self.new_segments(size);
        self.segments += opened;
        self.has_words = self.has_words_with(size);
        self.words = size + self.words;
        self.address += 4 * size;
    }

    // Goes to the address of an `.org`.
    fn move_to(&mut self, start: u32) -> Result<(), ReadError>
        requires { IsPosition self.old }
        ensures { OnOk result (Moves self.old self.new start) }
    {
        let start = u64::from(start);
        self.ground.reopen(self.address, start)?;
        self.address = start;
        self.has_words = false;
        Ok(())
    }

    /// Goes past a line's words, or to the address that the line sets.

    pub(crate) fn advance(&mut self, origin: Option<u32>, size: u64) -> Result<(), ReadError>
        requires position { IsPosition self.old }
        requires room { HasRoom self.old size }
        ensures { OnOk result (Advances self.old self.new origin size) }
    {
        self.grow(size);
        match origin {
            Some(start) => {
                self.move_to(start)?;
                Ok(())
            }
            None => Ok(()),
        }
    }
}
