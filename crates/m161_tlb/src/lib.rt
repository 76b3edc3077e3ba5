//! Translation rows: the TLB as a list of 64 rows.
//!
//! ```text
//! row       page, identifier and frame numbers, and the flags N, D, V and G
//! EntryHi   page 31..12, identifier 11..6, zero 5..0
//! EntryLo   frame 31..12, N 11, D 10, V 9, G 8, zero 7..0
//! match     a row matches a page and an identifier if its page is that page, and it has G
//!           or that identifier
//! find      the lowest row that matches
//! overlap   two rows overlap if their pages are equal, and one of them has G or their identifiers
//!           are equal; the lowest row but one that overlaps a given row
//! start     row i has page 0x80000 + i, all else zero
//! ```
//!
//! The content of a `Tlb` is its list of rows (`rows`); the trait's clauses say what each method
//! does to it, so that all implementations behave alike. Source: Kane, MIPS RISC Architecture, for
//! the R3000; the start, and that the lowest row is used, are this project's own.
#![tactic(auto)]

ghost use Rattle.std.specs.Prelude.{◌≡◌, ◌≢◌, ◌<◌, List, Some, slice_get, slice_set, IfSome};
ghost use Rattle.m161_tlb.specs.Rows.{find_overlap, find_row, start_rows};

mod frame;
mod identifier;
mod page;
mod row;

pub use frame::Frame;
pub use identifier::Identifier;
pub use page::Page;
pub use row::{Row, words_and_rows};

/// A table of 64 rows. None of its calls allocates. It doesn't ask for `Drop`: with that, each family
/// of crates that takes the machine would get a copy of the loop of Steps. A function that lets a
/// machine go asks for it itself.
pub trait Tlb {
    ghost use Rattle.std.specs.Prelude.{List};
    ghost use Rattle.m161_tlb.specs.declared.row.Row.{Row};

    ghost rows: { Self → List Row };

    /// The table at a processor's start.
    fn empty() -> Self
        ensures { rows result ≡ start_rows };

    /// A table with the same rows.
    fn copy(&self) -> Self
        ensures { rows result ≡ rows self.now };

    /// Makes it the table at a processor's start.
    fn reset(&mut self)
        ensures { rows self.new ≡ start_rows };

    /// Row `i`.
    fn read(&self, i: u8) -> Row
        requires { i < 64 }
        ensures { slice_get (rows self.now) i ≡ Some result };

    /// Replaces row `i`.
    fn write(&mut self, i: u8, row: Row)
        requires { i < 64 }
        ensures { rows self.new ≡ slice_set (rows self.old) i row };

    /// The number of the lowest row that matches a page and an identifier.
    fn find(&self, page: u32, id: u8) -> Option<u8>
        ensures lowest { result ≡ find_row (rows self.now) page id }
        ensures within { IfSome result (λ i. i < 64) };

    /// The number of the lowest row other than row `i` that overlaps a row.
    fn overlap(&self, i: u8, row: Row) -> Option<u8>
        ensures lowest { result ≡ find_overlap (rows self.now) i row }
        ensures within { IfSome result (λ j. (j < 64) × (j ≢ i)) };
}
