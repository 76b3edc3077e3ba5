//! Values worked out from Kane's descriptions and this project's own rules.

use super::same;
use m161_alu::{
    HiLoPair, Signedness, add_checked, branch_taken, div, merge_left, merge_right, mult,
    set_on_less, shift, store_left, store_right, sub_checked,
};
use m161_isa::{Amount, ShiftOp, ZeroTest};

#[test]
fn results(rt: HostRuntime) {
    let signed = Signedness::Signed;
    let unsigned = Signedness::Unsigned;
    for (signedness, a, b, hi, lo) in [
        (signed, 7, 0, 7, 0xffff_ffff),
        (signed, 0x8000_0000, 0xffff_ffff, 0, 0x8000_0000),
        (signed, 0xffff_fff9, 2, 0xffff_ffff, 0xffff_fffd),
        (signed, 7, 0xffff_fffe, 1, 0xffff_fffd),
        (unsigned, 0xffff_fff9, 2, 1, 0x7fff_fffc),
    ] {
        let found = div(signedness, a, b);
        same(&rt, (a, b, found), (a, b, HiLoPair { hi, lo }));
    }
    for (signedness, a, b, hi, lo) in [
        (signed, 0xffff_ffff, 0xffff_ffff, 0, 1),
        (unsigned, 0xffff_ffff, 0xffff_ffff, 0xffff_fffe, 1),
        (signed, 0x1234_5678, 0x9abc_def0, 0xf8cc_93d6, 0x242d_2080),
        (unsigned, 0x1234_5678, 0x9abc_def0, 0x0b00_ea4e, 0x242d_2080),
        (signed, 0x8000_0000, 0x8000_0000, 0x4000_0000, 0),
    ] {
        let found = mult(signedness, a, b);
        same(&rt, (a, b, found), (a, b, HiLoPair { hi, lo }));
    }
    let shifts = [ShiftOp::Left, ShiftOp::Right, ShiftOp::RightArithmetic];
    let shifted = shifts.map(|op| shift(op, 0x8000_0001, Amount::new(1)));
    same(&rt, shifted, [2, 0x4000_0000, 0xc000_0000]);
    let sums = [
        add_checked(0x7fff_ffff, 0x11),
        add_checked(0x7fff_ffff, 0x8000_0000),
        sub_checked(0x8000_0000, 1),
        sub_checked(3, 5),
    ];
    same(
        &rt,
        sums,
        [None, Some(0xffff_ffff), None, Some(0xffff_fffe)],
    );
}

#[test]
fn merges_and_tests(rt: HostRuntime) {
    let memory = 0x1122_3344;
    let register = 0xaabb_ccdd;
    // what `lwl`, `lwr`, `swl` and `swr` leave, at each place
    for (place, want) in [
        (0, [0x1122_3344, 0xaabb_cc11, 0xaabb_ccdd, 0xdd22_3344]),
        (1, [0x2233_44dd, 0xaabb_1122, 0x11aa_bbcc, 0xccdd_3344]),
        (2, [0x3344_ccdd, 0xaa11_2233, 0x1122_aabb, 0xbbcc_dd44]),
        (3, [0x44bb_ccdd, 0x1122_3344, 0x1122_33aa, 0xaabb_ccdd]),
    ] {
        let found = [
            merge_left(memory, register, place),
            merge_right(memory, register, place),
            store_left(memory, register, place),
            store_right(memory, register, place),
        ];
        same(&rt, found, want);
    }
    for (test, want) in [
        (ZeroTest::Less, [true, false, false]),
        (ZeroTest::GreaterOrEqual, [false, true, true]),
        (ZeroTest::LessAndLink, [true, false, false]),
        (ZeroTest::GreaterOrEqualAndLink, [false, true, true]),
        (ZeroTest::LessOrEqual, [true, true, false]),
        (ZeroTest::Greater, [false, false, true]),
    ] {
        same(
            &rt,
            [0x8000_0000, 0, 1].map(|word| branch_taken(test, word)),
            want,
        );
    }
    let less = [Signedness::Signed, Signedness::Unsigned].map(|it| set_on_less(it, 0xffff_ffff, 0));
    same(&rt, less, [true, false]);
}
