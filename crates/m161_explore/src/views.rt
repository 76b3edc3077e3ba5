//! Views, each once, by number. The views of a system are much alike, so each is cut into pieces, a piece
//! that stands in many of them is kept once, and a view is kept as the list of its pieces' numbers.
ghost use Rattle.std.specs.Prelude.{◌≡◌, ℕ, ◌+◌, ◌<◌, ◌++◌, ◌^◌, List, [], ◌∷◌, length, slice_index_or, IfOk, MatchOption, OnOk, true};
ghost use Rattle.m161_explore.specs.helpers.Entering.{Enters};
ghost use Rattle.m161_explore.specs.helpers.Pieces.{AreKept, ArePieces, Spells, joined, piece_at, piece_size};

use super::keys::Keys;
use std::alloc::{AllocError, Global};
use std::marker::Model;
use std::mem::swap;

/// How many words a piece has; the last one of a view may have fewer.
const PIECE: usize = 64;

/// The views.
#[derive(Drop)]
pub struct Views {
    /// The pieces, each once.
    pieces: Keys,
    /// For each view, the numbers of its pieces.
    lists: Keys,
    /// Room for the numbers of one view.
    numbers: Vec<u32>,
    /// The numbers of the view that was cut before.
    before: Vec<u32>,
}

impl Model for Views {
    ghost use Rattle.std.specs.Prelude.{ℕ, List};
    ghost use Rattle.m161_explore.specs.helpers.Pieces.{ArePieces, AreSpelled, joined_each, piece_size};

    ghost Value = { List (List ℕ) };

    ghost view = { λ v. joined_each v.pieces v.lists };

    ghost invariant = { λ v. record {
      pieces : ArePieces v.pieces;
      spelled : AreSpelled piece_size v.pieces v.lists;
    } };
}

/// Whether a piece has this number.
fn has_number(pieces: &Keys, piece: &[u32], number: u32) -> bool
    ensures { result ≡ true → (number < length pieces.now) × (piece_at pieces.now number ≡ piece.now) }
{
    let at = number as usize;
    at < pieces.len() && pieces.get(at) == piece
}

/// The number of a piece, which is put behind the others where it isn't there. It is looked for at the
/// guessed number first.
fn number_of(alloc: Global, pieces: &mut Keys, piece: &[u32], guess: u32) -> Result<u32, AllocError>
    requires { ArePieces pieces.old }
    ensures pieces { ArePieces pieces.new }
    ensures kept { AreKept pieces.old pieces.new }
    ensures found { IfOk result (λ n. (n < length pieces.new) × (piece_at pieces.new n ≡ piece.now)) }
{
    if has_number(pieces, piece, guess) {
        return Ok(guess);
    }
    if let Some(known) = pieces.find(piece) {
        return Ok(known as u32);
    }
    let count = pieces.len();
    // So many pieces wouldn't fit memory.
    if count >= u32::MAX as usize {
        return Err(AllocError);
    }
    pieces.push(alloc, piece)?;
    Ok(count as u32)
}

/// The number that stands at a place, or 0 where none does.
fn number_at(numbers: &[u32], at: usize) -> u32 {
    if at < numbers.len() { numbers[at] } else { 0 }
}

/// Cuts words into pieces, and writes the pieces' numbers. The guesses are the numbers of other words,
/// of which many are the same.
fn cut(
    alloc: Global,
    pieces: &mut Keys,
    words: &[u32],
    guesses: &[u32],
    numbers: &mut Vec<u32>,
) -> Result<(), AllocError>
    requires { ArePieces pieces.old }
    ensures pieces { ArePieces pieces.new }
    ensures kept { AreKept pieces.old pieces.new }
    ensures spells { OnOk result (Spells piece_size pieces.new numbers.new.items words.now) }
{
    numbers.clear();
    let mut at = 0;
    while at < words.len() {
        let end = at + PIECE.min(words.len() - at);
        let guess = number_at(guesses, numbers.len());
        numbers.push(number_of(alloc, pieces, &words[at..end], guess)?)?;
        at = end;
    }
    Ok(())
}

/// Writes the words of the pieces with these numbers, one behind the other.
fn join(pieces: &Keys, numbers: &[u32], words: &mut Vec<u32>) -> Result<(), AllocError>
    requires { (i : ℕ) → i < length numbers.now → slice_index_or numbers.now i 0 < length pieces.now }
    ensures { OnOk result (words.new.items ≡ joined pieces.now numbers.now) }
{
    words.clear();
    for at in 0..numbers.len() {
        words.extend_from_slice(pieces.get(numbers[at] as usize))?;
    }
    Ok(())
}

/// What became of a view.
#[derive(Drop)]
pub enum Entry {
    /// It was there, with this number.
    Known(usize),
    /// It is the last one now.
    New,
    /// It isn't there, and there are as many as may be.
    Full,
}

impl Views {
    /// No views.
    pub fn new(alloc: Global) -> Result<Views, AllocError>
        ensures { IfOk result (λ views. views ≡ []) }
    {
        let pieces = Keys::new(alloc)?;
        let lists = Keys::new(alloc)?;
        Ok(Views {
            pieces,
            lists,
            numbers: Vec::new(alloc),
            before: Vec::new(alloc),
        })
    }

    pub fn len(&self) -> usize
        ensures { result ≡ length self.now }
    {
        self.lists.len()
    }

    /// Writes the words of a view in the place of those that are there.
    pub fn get(&self, index: usize, words: &mut Vec<u32>) -> Result<(), AllocError>
        requires { index < length self.now }
        ensures { OnOk result (words.new.items ≡ slice_index_or self.now index []) }
    {
        join(&self.pieces, self.lists.get(index), words)
    }

    /// The number of a view, if it is there; else puts it behind the others, unless there are so many.
    pub fn enter(&mut self, alloc: Global, words: &[u32], limit: u32) -> Result<Entry, AllocError>
        ensures { IfOk result (Enters self.old words.now limit self.new) }
    {
        swap(&mut self.numbers, &mut self.before);
        cut(
            alloc,
            &mut self.pieces,
            words,
            &self.before,
            &mut self.numbers,
        )?;
        if let Some(known) = self.lists.find(&self.numbers) {
            return Ok(Entry::Known(known));
        }
        if limit as usize <= self.lists.len() {
            return Ok(Entry::Full);
        }
        self.lists.push(alloc, &self.numbers)?;
        Ok(Entry::New)
    }

    /// Puts a view behind the others.
    pub fn push(&mut self, alloc: Global, words: &[u32]) -> Result<(), AllocError>
        requires { length self.old + 1 < 2 ^ 32 }
        ensures { OnOk result (self.new ≡ self.old ++ words.now ∷ []) }
    {
        swap(&mut self.numbers, &mut self.before);
        cut(
            alloc,
            &mut self.pieces,
            words,
            &self.before,
            &mut self.numbers,
        )?;
        self.lists.push(alloc, &self.numbers)
    }
}
