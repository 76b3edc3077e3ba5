//! A row, and its two words.

ghost use Rattle.std.specs.Prelude.{◌≡◌, if◌then◌else◌, ◌^◌, ◌≤◌, ◌<◌};
ghost use Rattle.m161_tlb.specs.Row.{flag_of, hi_word, is_set, lo_word, matches, overlaps, row_of_words, RowComesBack, WordsComeBack};

use crate::frame::Frame;
use crate::identifier::Identifier;
use crate::page::Page;

/// One page's translation.
#[derive(Clone, Copy, Debug, PartialEq, Eq)]
pub struct Row {
    /// The virtual page.
    pub page: Page,
    /// The address space whose page it is, unless `g` is set.
    pub id: Identifier,
    /// The physical page.
    pub frame: Frame,
    /// N, not cached: without effect.
    pub n: bool,
    /// D, dirty: the page may be written.
    pub d: bool,
    /// V, valid: the page may be used.
    pub v: bool,
    /// G, global: the page is in every address space.
    pub g: bool,
}

impl Row {
    /// The row of the words in EntryHi and EntryLo; the bits that the words don't use are ignored.
    #[inline(always)]
    pub fn from_words(entry_hi: u32, entry_lo: u32) -> Row
        ensures { result ≡ row_of_words entry_hi entry_lo }
    {
        Row {
            page: Page::new(entry_hi >> 12),
            id: Identifier::new(((entry_hi >> 6) % 64) as u8),
            frame: Frame::new(entry_lo >> 12),
            n: is_set(entry_lo, 11),
            d: is_set(entry_lo, 10),
            v: is_set(entry_lo, 9),
            g: is_set(entry_lo, 8),
        }
    }

    /// Its word in EntryHi.
    #[inline(always)]
    pub fn entry_hi(&self) -> u32
        ensures { result ≡ hi_word self.now }
    {
        (self.page.number() << 12) + (u32::from(self.id.number()) << 6)
    }

    /// Its word in EntryLo.
    #[inline(always)]
    pub fn entry_lo(&self) -> u32
        ensures { result ≡ lo_word self.now }
    {
        (self.frame.number() << 12)
            + flag(self.n, 11)
            + flag(self.d, 10)
            + flag(self.v, 9)
            + flag(self.g, 8)
    }

    /// Whether it translates a page of an address space.
    #[inline(always)]
    pub fn matches(&self, page: u32, id: u8) -> bool
        ensures { result ≡ matches page id self.now }
    {
        self.page.number() == page && (self.g || self.id.number() == id)
    }

    /// Whether it and another row translate a page of one address space: their pages are equal, and
    /// one of them has G or their identifiers are equal. V isn't looked at.
    #[inline(always)]
    pub fn overlaps(&self, other: &Row) -> bool
        ensures { result ≡ overlaps self.now other.now }
    {
        self.page.number() == other.page.number()
            && (self.g || other.g || self.id.number() == other.id.number())
    }
}

/// The row of a row's words is that row, and words whose unused bits are zero are the words of
/// their row.
pub fn words_and_rows()
    ensures row { RowComesBack }
    ensures words { WordsComeBack }
{}

/// Whether a bit of a word is set.
fn is_set(word: u32, place: u32) -> bool
    requires { place < 32 }
    ensures { result ≡ is_set word place }
{
    (word >> place) % 2 == 1
}

/// A word with the bit at `place` if `set`, else 0.
fn flag(set: bool, place: u32) -> u32
    requires { place < 12 }
    ensures value { result ≡ flag_of set place }
{
    if set { 1 << place } else { 0 }
}
