//! The two tables of rows, each found by another way: by a look at every row, and by hash.

ghost use Rattle.std.specs.Prelude.{◌<◌, ◌^◌};

use super::same;
use m161_tlb::{Frame, Identifier, Page, Row, Tlb};
use m161_tlb_index::Index;
use m161_tlb_scan::Scan;
use std::process::Abort;

// A valid row of a page and an identifier, or of the page in every address space.
fn row(page: u32, id: u8, g: bool) -> Row
    requires { (page < 2 ^ 20) × (id < 64) }
{
    Row {
        page: Page::new(page),
        id: Identifier::new(id),
        frame: Frame::new(0),
        n: false,
        d: false,
        v: true,
        g,
    }
}

// A row, with V or without.
fn with_v(row: Row, v: bool) -> Row {
    Row { v, ..row }
}

// The row that is found is the least of those that match.
fn least_row<T: Tlb + Drop>(rt: &impl Abort) {
    let mut tlb = T::empty();
    tlb.write(5, row(0x00401, 5, false));
    tlb.write(3, row(0x00401, 9, true));
    same(rt, tlb.find(0x00401, 5), Some(3));
    same(rt, tlb.find(0x00401, 6), Some(3));
    tlb.write(3, row(0x00500, 9, false));
    same(rt, tlb.find(0x00401, 5), Some(5));
    same(rt, tlb.find(0x00401, 6), None);
}

// Rows 63 down to 0 of one page, of which each second one is for every identifier.
fn global_rows<T: Tlb + Drop>(rt: &impl Abort) {
    let mut tlb = T::empty();
    for k in 0..64u8 {
        let i = 63 - k;
        let global = i % 2 == 0;
        tlb.write(i, row(0x00401, 5, global));
        same(rt, tlb.find(0x00401, 5), Some(i));
        let other = match (global, i) {
            (true, _) => Some(i),
            (false, 63) => None,
            (false, _) => Some(i + 1),
        };
        same(rt, tlb.find(0x00401, 6), other);
    }
}

// A row that is the second of two with one page and identifier is found once the first is gone, and
// a copy has the rows of its own.
fn second_of_two_rows<T: Tlb + Drop>(rt: &impl Abort) {
    let mut tlb = T::empty();
    tlb.write(5, row(0x00401, 5, false));
    tlb.write(3, row(0x00401, 5, false));
    same(rt, tlb.find(0x00401, 5), Some(3));
    let copy = tlb.copy();
    tlb.write(3, row(0x00402, 5, false));
    same(rt, tlb.find(0x00401, 5), Some(5));
    same(rt, tlb.find(0x00402, 5), Some(3));
    same(rt, copy.find(0x00401, 5), Some(3));
    same(rt, tlb.read(5), row(0x00401, 5, false));
}

// A row of page 00401.
fn of_page(id: u8, g: bool, v: bool) -> Row
    requires { id < 64 }
{
    with_v(row(0x00401, id, g), v)
}

// The row that is found is the least other one that overlaps, whether the rows have V (`v`) or not,
// and whether the one given has (`w`).
fn overlap<T: Tlb + Drop>(rt: &impl Abort, v: bool, w: bool) {
    let mut tlb = T::empty();
    tlb.write(5, of_page(5, false, v));
    tlb.write(7, of_page(6, false, v));
    same(rt, tlb.overlap(3, of_page(0, true, w)), Some(5));
    same(rt, tlb.overlap(5, of_page(0, true, w)), Some(7));
    same(rt, tlb.overlap(3, of_page(6, false, w)), Some(7));
    same(rt, tlb.overlap(7, of_page(6, false, w)), None);
    same(rt, tlb.overlap(3, of_page(9, false, w)), None);
    tlb.write(2, of_page(0, true, v));
    same(rt, tlb.overlap(3, of_page(6, false, w)), Some(2));
    same(rt, tlb.overlap(2, of_page(6, false, w)), Some(7));
    same(rt, tlb.overlap(3, of_page(9, false, w)), Some(2));
}

// The same with V and without, in the rows and in the one given.
fn overlap_with_and_without_v<T: Tlb + Drop>(rt: &impl Abort) {
    overlap::<T>(rt, true, true);
    overlap::<T>(rt, true, false);
    overlap::<T>(rt, false, true);
    overlap::<T>(rt, false, false);
}

#[test]
fn rows_found_by_scan(rt: HostRuntime) {
    least_row::<Scan>(&rt);
    global_rows::<Scan>(&rt);
    second_of_two_rows::<Scan>(&rt);
    overlap_with_and_without_v::<Scan>(&rt);
}

#[test]
fn rows_found_by_hash(rt: HostRuntime) {
    least_row::<Index>(&rt);
    global_rows::<Index>(&rt);
    second_of_two_rows::<Index>(&rt);
    overlap_with_and_without_v::<Index>(&rt);
}
