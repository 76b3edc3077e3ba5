//! The words of RAM that processors share.

ghost use Rattle.std.specs.Prelude.{◌≡◌, ◌/◌, false, true, IfOk, if◌then◌else◌};
ghost use Rattle.s161_texts.specs.Shared.{has_one, is_one, touch_at, touches_of};
ghost use Rattle.s161_texts.specs.helpers.Marks.{is_mark_shared, is_marked, mark_after, marked, marks_after, no_marks};

use m161_trace::Touched;
use std::alloc::{AllocError, Global};

/// Who has touched a word so far.
#[derive(Clone, Copy)]
pub(crate) enum Mark {
    /// No processor.
    Untouched,
    /// This processor alone; whether it has stored.
    One(u32, bool),
    /// More than one; whether one of them has stored.
    Several(bool),
}

/// What is noted of each word of RAM: which processors touched it, and whether one stored it. The
/// memory that it takes doesn't grow with the number of events.
#[derive(Drop)]
pub(crate) struct SharedWords {
    /// A mark for each word, by the word's number.
    pub marks: Vec<Mark>,
}

impl Mark {
    // The mark after one touch more.
    fn after(self, p: u32, stores: bool) -> Mark
        ensures { result ≡ mark_after self p stores }
    {
        match self {
            Mark::Untouched => Mark::One(p, stores),
            Mark::One(q, stored) => {
                if p == q {
                    Mark::One(q, stored || stores)
                } else {
                    Mark::Several(stored || stores)
                }
            }
            Mark::Several(stored) => Mark::Several(stored || stores),
        }
    }

    // Whether two processors touched the word, and one stored it.
    fn is_shared(self) -> bool
        ensures { result ≡ is_mark_shared self }
    {
        match self {
            Mark::Untouched | Mark::One(_, _) => false,
            Mark::Several(stored) => stored,
        }
    }
}

// Notes a touch of the word of this number, if that is there.
fn note_word(marks: &mut Vec<Mark>, p: u32, word: usize, stores: bool)
    ensures { marks.new.items ≡ marked marks.old.items
        (record { processor = p; word = word; stores = stores }) }
{
    if word < marks.len() {
        marks[word] = marks[word].after(p, stores);
    }
}

// Notes a touch of the word at this address, if there is one.
fn note_at(marks: &mut Vec<Mark>, p: u32, at: Option<u32>, stores: bool)
    ensures { marks.new.items ≡ marks_after marks.old.items (touch_at p stores at) }
{
    if let Some(at) = at {
        note_word(marks, p, (at / 4) as usize, stores);
    }
}

impl SharedWords {
    /// Nothing is noted yet, of so many words.
    ///
    /// # Errors
    /// Memory was refused.
    pub(crate) fn new(alloc: Global, words: usize) -> Result<SharedWords, AllocError>
        ensures { IfOk result (λ shared. shared.marks.items ≡ no_marks words) }
    {
        Ok(SharedWords {
            marks: vec![in alloc; Mark::Untouched; words]?,
        })
    }

    /// Nothing is noted of any word.
    pub(crate) fn none(alloc: Global) -> SharedWords
        ensures { result.marks.items ≡ no_marks 0 }
    {
        SharedWords {
            marks: Vec::new(alloc),
        }
    }

    /// Whether nothing is noted.
    pub(crate) fn notes_nothing(&self) -> bool
        ensures { result ≡ true → self.now.marks.items ≡ no_marks 0 }
    {
        self.marks.is_empty()
    }

    /// Notes what a Step of a processor touches.
    pub(crate) fn note(&mut self, p: u32, touched: Touched)
        ensures { self.new.marks.items ≡ marks_after self.old.marks.items (touches_of p touched) }
    {
        note_at(&mut self.marks, p, touched.loaded, false);
        note_at(&mut self.marks, p, touched.stored, true);
    }

    // Whether the word at an address is shared.
    fn is_marked(&self, at: u32) -> bool
        ensures { result ≡ is_marked self.now (at / 4) }
    {
        match self.marks.get((at / 4) as usize) {
            Some(mark) => mark.is_shared(),
            None => false,
        }
    }

    // The same, if there is one.
    fn is_one(&self, at: Option<u32>) -> bool
        ensures { result ≡ is_one (is_marked self.now) at }
    {
        match at {
            Some(at) => self.is_marked(at),
            None => false,
        }
    }

    /// Whether one of the words that a Step touches is shared.
    pub(crate) fn has_one(&self, touched: Touched) -> bool
        ensures { result ≡ has_one (is_marked self.now) touched }
    {
        self.is_one(touched.loaded) || self.is_one(touched.stored)
    }
}
