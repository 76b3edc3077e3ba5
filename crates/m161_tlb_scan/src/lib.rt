//! The TLB as an array of rows, searched from row 0 on.
//!
//! ```text
//! rows    64 translation rows
//! pages   a copy of the page of each row, in an array of its own
//! find    compares eight pages at a time, and looks at the rows themselves only if one of the
//!         eight is the page
//! overlap looks at each row from row 0 on
//! ```
//!
//! `Scan` proves the laws of `m161_tlb`'s `Tlb`, and none of its calls allocates.
#![tactic(auto)]

ghost use Rattle.std.specs.Prelude.{◌≡◌, ◌*◌, ◌+◌, ◌<◌, false, List, Some, length, get_or, slice_get, slice_set, IfSome};
ghost use Rattle.m161_tlb.specs.Row.{matches};
ghost use Rattle.m161_tlb.specs.Rows.{blank_row, find_overlap, find_row, is_overlap, start_row, start_rows};
ghost use Rattle.m161_tlb_scan.specs.helpers.Blocks.{LacksPage};

use m161_tlb::{Frame, Identifier, Page, Row, Tlb};
use std::marker::Model;

/// The number of rows.
const ROWS: usize = 64;

/// The page of row 0 at a processor's start.
const START_PAGE: u32 = 0x8_0000;

/// Translation rows, each with a copy of its page.
#[derive(Drop)]
pub struct Scan {
    rows: [Row; 64],
    pages: [u32; 64],
}

impl Model for Scan {
    ghost use Rattle.std.specs.Prelude.{◌≡◌, List, length, map};
    ghost use Rattle.m161_tlb.specs.declared.row.Row.{Row};

    ghost Value = { List Row };

    ghost view = { λ t. t.rows };

    ghost invariant = { λ t. (length t.rows ≡ 64) × (t.pages ≡ map (λ row. row.page) t.rows) };
}

impl Tlb for Scan {
    ghost rows = { λ t. t };

    fn empty() -> Scan {
        let mut scan = Scan {
            rows: [start_row(0); ROWS],
            pages: [START_PAGE; ROWS],
        };
        for i in 0..64u8 {
            scan.write(i, start_row(i));
        }
        scan
    }

    fn copy(&self) -> Scan {
        // So that the proof knows how many rows there are.
        let _pages = &self.pages;
        let mut scan = Scan::empty();
        for i in 0..64u8 {
            scan.write(i, self.read(i));
        }
        scan
    }

    fn reset(&mut self) {
        *self = Scan::empty();
    }

    fn read(&self, i: u8) -> Row {
        self.rows[i as usize]
    }

    fn write(&mut self, i: u8, row: Row) {
        self.pages[i as usize] = row.page.number();
        self.rows[i as usize] = row;
    }

    fn find(&self, page: u32, id: u8) -> Option<u8> {
        // So that the proof knows how many rows there are.
        let _rows = &self.rows;
        for block in 0..8u8 {
            if self.has_page(block, page) {
                for i in block * 8..block * 8 + 8 {
                    if self.row_matches(i, page, id) {
                        return Some(i);
                    }
                }
            }
        }
        None
    }

    fn overlap(&self, i: u8, row: Row) -> Option<u8> {
        // So that the proof knows how many rows there are.
        let _rows = &self.rows;
        for j in 0..64u8 {
            if self.is_overlap(i, &row, j) {
                return Some(j);
            }
        }
        None
    }
}

impl Scan {
    /// Whether row `i` translates a page of an address space.
    #[inline(always)]
    fn row_matches(&self, i: u8, page: u32, id: u8) -> bool
        requires { i < 64 }
        ensures { result ≡ matches page id (get_or self.now i blank_row) }
    {
        self.rows[i as usize].matches(page, id)
    }

    /// Whether row `j` is another than row `i`, and overlaps a row.
    #[inline(always)]
    fn is_overlap(&self, i: u8, row: &Row, j: u8) -> bool
        requires { j < 64 }
        ensures { result ≡ is_overlap self.now i row.now j }
    {
        j != i && row.overlaps(&self.rows[j as usize])
    }

    /// The page of row `i`.
    #[inline(always)]
    fn page(&self, i: u8) -> u32
        requires { i < 64 }
        ensures { result ≡ (get_or self.now i blank_row).page }
    {
        self.pages[i as usize]
    }

    /// Whether one of the eight rows from `8 * block` on is for a page. For LLVM: eight
    /// comparisons without a branch, which become two vector comparisons.
    #[inline(always)]
    fn has_page(&self, block: u8, page: u32) -> bool
        requires { block < 8 }
        ensures { result ≡ false → LacksPage self.now page (block * 8) (block * 8 + 8) }
    {
        let mut found = false;
        for i in 0..8u8 {
            found |= self.page(block * 8 + i) == page;
        }
        found
    }
}

/// Row `i` at a processor's start.
fn start_row(i: u8) -> Row
    requires { i < 64 }
    ensures { result ≡ start_row i }
{
    Row {
        page: Page::new(START_PAGE + u32::from(i)),
        id: Identifier::new(0),
        frame: Frame::new(0),
        n: false,
        d: false,
        v: false,
        g: false,
    }
}
