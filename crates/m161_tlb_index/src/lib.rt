//! The TLB as chains of rows, found by a hash of the page.
//!
//! ```text
//! rows      64 translation rows
//! buckets   0 to 63 for private rows, by (page + identifier) mod 64; 64 to 127 for rows with G,
//!           by page mod 64
//! chain     the rows of a bucket, the lowest first
//! links     at places 0 to 63 the row after each row in its chain, at places 64 to 191 the first
//!           row of each bucket; 64 is none
//! find      the lower of the first matching rows in the two chains that may have one
//! overlap   for a private row, the lower of the first other rows that overlap it in the same two
//!           chains; for a row with G, looks at each row from row 0 on
//! write     takes the row out of its old chain and puts it in its place in the new one
//! ```
//!
//! A call costs what the chains that it follows are long; most have one row or none. The rows that
//! a row with G overlaps can be in each private bucket, so `overlap` follows no chain for it.
//! Each link means the first row of its bucket from a given row on, so neither the type nor its proof
//! has a list of a chain's members. A bucket's own link stands among those of rows, so a write has no
//! first row as a case of its own. `Index` proves the laws of `m161_tlb`'s `Tlb`, and none of its calls
//! allocates.
#![tactic(auto)]

ghost use Rattle.std.specs.Prelude.{◌≡◌, ◌*◌, ◌+◌, ◌<◌, false, List, Some, length, get_or, slice_get, slice_set, IfSome};
ghost use Rattle.m161_tlb.specs.Rows.{blank_row, find_overlap, find_row, is_overlap, start_row, start_rows};
ghost use Rattle.m161_tlb_index.specs.Chains.{bucket_of, home, private_bucket, shared_bucket};
ghost use Rattle.m161_tlb_index.specs.helpers.Search.{is_match, IsFirst, IsFirstOf, Precedes};

use m161_tlb::{Frame, Identifier, Page, Row, Tlb};
use std::marker::Model;

/// The number of rows.
const ROWS: usize = 64;

/// The number of links: one for each row, and one for each bucket.
const LINKS: usize = 192;

/// The number of no row.
const NONE: u8 = 64;

/// The place of bucket 0's link.
const BUCKETS: u8 = 64;

/// The page of row 0 at a processor's start.
const START_PAGE: u32 = 0x8_0000;

/// Translation rows, and the chains through them.
#[derive(Drop)]
pub struct Index {
    rows: [Row; 64],
    links: [u8; 192],
}

impl Model for Index {
    ghost use Rattle.std.specs.Prelude.{◌≡◌, List, length, get_or};
    ghost use Rattle.m161_tlb.specs.declared.row.Row.{Row};
    ghost use Rattle.m161_tlb_index.specs.Chains.{home, IsLinked};

    ghost Value = { List Row };

    ghost view = { λ t. t.rows };

    ghost invariant = { λ t. (length t.rows ≡ 64) × (length t.links ≡ 192) × IsLinked (home t.rows) (λ at. get_or t.links at 0) };
}

impl Tlb for Index {
    ghost rows = { λ t. t };

    fn empty() -> Index {
        let mut rows = [start_row(0); ROWS];
        let mut links = [NONE; LINKS];
        for i in 0..64u8 {
            rows[i as usize] = start_row(i);
            links[(BUCKETS + i) as usize] = i;
        }
        Index { rows, links }
    }

    fn copy(&self) -> Index {
        Index {
            rows: copy_rows(&self.rows),
            links: self.links,
        }
    }

    fn reset(&mut self) {
        *self = Index::empty();
    }

    fn read(&self, i: u8) -> Row {
        self.rows[i as usize]
    }

    fn write(&mut self, i: u8, row: Row) {
        let old = bucket_of(&self.rows[i as usize]);
        let from = self.place_before(old, i);
        let new = bucket_of(&row);
        let to = self.place_before(new, i);
        self.links[from as usize] = self.links[i as usize];
        self.links[i as usize] = self.links[to as usize];
        self.links[to as usize] = i;
        self.rows[i as usize] = row;
    }

    fn find(&self, page: u32, id: u8) -> Option<u8> {
        // So that the proof knows how many rows there are.
        let _rows = &self.rows;
        let private = self.first_match(private_bucket(page, id), page, id);
        let shared = self.first_match(shared_bucket(page), page, id);
        let first = private.min(shared);
        if first < NONE { Some(first) } else { None }
    }

    fn overlap(&self, i: u8, row: Row) -> Option<u8> {
        // So that the proof knows how many rows there are.
        let _rows = &self.rows;
        let first = if row.g {
            self.overlap_in_rows(i, &row)
        } else {
            self.overlap_in_chains(i, &row)
        };
        if first < NONE { Some(first) } else { None }
    }
}

impl Index {
    /// The first row of a bucket that translates a page of an address space, or 64 if none does.
    #[inline(always)]
    fn first_match(&self, bucket: u8, page: u32, id: u8) -> u8
        requires { bucket < 128 }
        ensures { IsFirstOf (home self.now) bucket (is_match self.now page id) result }
    {
        let mut at = self.links[(BUCKETS + bucket) as usize];
        while at < NONE && !self.rows[at as usize].matches(page, id) {
            at = self.links[at as usize];
        }
        at
    }

    /// The first row other than row `i` that overlaps a row, or 64 if none does.
    fn overlap_in_rows(&self, i: u8, row: &Row) -> u8
        ensures { IsFirst (is_overlap self.now i row.now) result }
    {
        for j in 0..64u8 {
            if self.is_overlap(i, row, j) {
                return j;
            }
        }
        NONE
    }

    /// The same, found in the two chains that may have a row that overlaps a private row.
    fn overlap_in_chains(&self, i: u8, row: &Row) -> u8
        requires { row.now.g ≡ false }
        ensures { IsFirst (is_overlap self.now i row.now) result }
    {
        let page = row.page.number();
        let private = self.first_overlap(private_bucket(page, row.id.number()), i, row);
        let shared = self.first_overlap(shared_bucket(page), i, row);
        private.min(shared)
    }

    /// The first row of a bucket, other than row `i`, that overlaps a row, or 64 if none does.
    fn first_overlap(&self, bucket: u8, i: u8, row: &Row) -> u8
        requires { bucket < 128 }
        ensures { IsFirstOf (home self.now) bucket (is_overlap self.now i row.now) result }
    {
        let mut at = self.links[(BUCKETS + bucket) as usize];
        while at < NONE && !self.is_overlap(i, row, at) {
            at = self.links[at as usize];
        }
        at
    }

    /// Whether row `j` is another than row `i`, and overlaps a row.
    #[inline(always)]
    fn is_overlap(&self, i: u8, row: &Row, j: u8) -> bool
        requires { j < 64 }
        ensures { result ≡ is_overlap self.now i row.now j }
    {
        j != i && row.overlaps(&self.rows[j as usize])
    }

    /// The place whose link leads to a bucket's first row from row `i` on.
    fn place_before(&self, bucket: u8, i: u8) -> u8
        requires bucket { bucket < 128 }
        requires row { i < 64 }
        ensures { Precedes (home self.now) bucket i result }
    {
        let mut at = BUCKETS + bucket;
        while self.links[at as usize] < i {
            at = self.links[at as usize];
        }
        at
    }
}

/// The bucket of a row.
#[inline(always)]
fn bucket_of(row: &Row) -> u8
    ensures value { result ≡ bucket_of row.now }
    ensures small { result < 128 }
{
    if row.g {
        shared_bucket(row.page.number())
    } else {
        private_bucket(row.page.number(), row.id.number())
    }
}

/// The bucket of private rows with this page and identifier.
#[inline(always)]
fn private_bucket(page: u32, id: u8) -> u8
    ensures value { result ≡ private_bucket page id }
    ensures small { result < 64 }
{
    ((page % 64 + u32::from(id)) % 64) as u8
}

/// The bucket of rows with this page and G.
#[inline(always)]
fn shared_bucket(page: u32) -> u8
    ensures value { result ≡ shared_bucket page }
    ensures small { result < 128 }
{
    64 + (page % 64) as u8
}

/// Rows, once more.
fn copy_rows(rows: &[Row; 64]) -> [Row; 64]
    ensures { result ≡ rows.now }
{
    let mut copy = [start_row(0); ROWS];
    for i in 0..64usize {
        copy[i] = rows[i];
    }
    copy
}

/// Row `i` at a processor's start.
fn start_row(i: u8) -> Row
    requires { i < 64 }
    ensures { result ≡ start_row i }
{
    Row {
        page: Page::new(START_PAGE + u32::from(i)),
        id: Identifier::new(0),
        frame: Frame::new(0),
        n: false,
        d: false,
        v: false,
        g: false,
    }
}
