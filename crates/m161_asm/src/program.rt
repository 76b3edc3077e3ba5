//! The result of assembling a text.

ghost use Rattle.std.specs.Prelude.{◌≡◌, ◌≤◌, ◌%◌, length};
ghost use Rattle.m161_asm.specs.Seen.{symbols_seen};
ghost use Rattle.m161_asm.specs.Segments.{segments_seen, word_count, ArePlaced, AreApart, AreAligned};

use indexmap::IndexMap;
use m161_hash::TextState;

/// Addresses by their names, in the order of the text, with the text's own hash.
pub type SymbolTable = IndexMap<String, u32, TextState>;

/// A run of words.
#[derive(Drop)]
pub struct Segment {
    /// The address of the first word.
    pub address: u32,
    /// The words, in order.
    pub words: Vec<u32>,
}

/// An assembled text. The limits are ghost fields, so that users need no condition; who changes a public
/// field in place has to prove them again.
#[derive(Drop)]
pub struct Program {
    /// The segments, in the order of the text: at most 1,024, with at most 4,194,304 words. Each
    /// has a word or more, begins at a multiple of 4 and ends by 2^32, and no two overlap.
    pub segments: Vec<Segment>,
    /// Each label with its address, a multiple of 4, in the order of the text.
    pub symbols: SymbolTable,
    /// Where the program begins: a multiple of 4.
    pub entry: u32,
    pub ghost words: { word_count (segments_seen segments.items) ≤ 4194304 },
    pub ghost count: { length segments.items ≤ 1024 },
    pub ghost placed: { ∥ ArePlaced (segments_seen segments.items) ∥₁ },
    pub ghost apart: { ∥ AreApart (segments_seen segments.items) ∥₁ },
    pub ghost symbols_aligned: { ∥ AreAligned (symbols_seen symbols) ∥₁ },
    pub ghost entry_aligned: { entry % 4 ≡ 0 },
}
