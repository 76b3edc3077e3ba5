//! The file of a text, and the faults of texts.

use super::same;
use super::texts::line_of;
use m161_asm::assemble;
use s161_run::demo::IMAGE;
use s161_texts::assembly::assembly;
use std::alloc::Global;
use std::test::Fail;

/// The demo's text.
const DEMO: &str = "lui $8, 0x1234
ori $8, $8, 0x5678
addiu $9, $0, -1
addu $10, $8, $9
lui $11, 0x8000
sw $10, 1024($11)
lw $12, 1024($11)
";

/// The length of a text's file and whether it has these bytes.
fn assemble_text(alloc: Global, source: &str, expected: &[u8]) -> (usize, bool) {
    match assembly(alloc, source, false) {
        Ok(file) => (file.len(), file.as_slice() == expected),
        Err(_) => (0, false),
    }
}

#[test]
fn as_demo(rt: HostRuntime) -> Result<(), Fail> {
    same(&rt, assemble_text(rt.alloc(), DEMO, &IMAGE), (112, true));
    Ok(())
}

/// Texts, each with the line of its fault.
static FAULTS: [(&str, &str); 14] = [
    (
        "addi $1, $2, 0x",
        "s161: source 1:14 1 BadToken (these bytes form no token: \"0x\")",
    ),
    (
        "foo $1",
        "s161: source 1:1 2 UnknownWord (a statement begins with a directive or the name of an instruction: \"foo\")",
    ),
    (
        "jr 5",
        "s161: source 1:4 3 BadOperand (another operand or mark is wanted: \"5\")",
    ),
    (
        "addi $1, $2, 40000",
        "s161: source 1:14 4 OutOfRange (a number, an address, or the number of words or segments is outside its range: \"40000\")",
    ),
    (
        "beq $0, $0, nowhere",
        "s161: source 1:13 5 UnknownLabel (no line has this label: \"nowhere\")",
    ),
    (
        "a:\na:",
        "s161: source 2:1 6 DoubleLabel (an earlier line has this label: \"a:\")",
    ),
    (
        ".org 0x80000200\nj 0x90000000",
        "s161: source 2:3 7 BranchTooFar (the branch or the jump doesn't reach its target: \"0x90000000\")",
    ),
    (
        ".org 0x80000200\nnop\n.org 0x80000200\nnop\n",
        "s161: source 4:1 8 Overlap (an address of the statement is filled already: \"nop\")",
    ),
    (
        "jr # none",
        "s161: source 1:3 3 BadOperand (another operand or mark is wanted at the line's end)",
    ),
    (
        "jr",
        "s161: source 1:3 3 BadOperand (another operand or mark is wanted at the line's end)",
    ),
    (
        "nop\n nop é,é",
        "s161: source 2:6 1 BadToken (these bytes form no token: \"é\")",
    ),
    (
        "jr (\\\u{7f}#",
        "s161: source 1:5 1 BadToken (these bytes form no token: \"\\x5c\\x7f\")",
    ),
    (
        ".word a23456789012345678901234567890123456789é1",
        "s161: source 1:46 1 BadToken (these bytes form no token: \"é1\")",
    ),
    (
        ".word a2345678901234567890123456789012345678901",
        "s161: source 1:7 5 UnknownLabel (no line has this label: \"a234567890123456789012345678901234567890\")",
    ),
];

#[test]
fn assembler_errors(rt: HostRuntime) -> Result<(), Fail> {
    for (source, expected) in &FAULTS {
        match assembly(rt.alloc(), source, false) {
            Ok(_) => same(&rt, *source, "accepted"),
            Err(fault) => {
                let line = line_of(rt.alloc(), fault)?;
                same(&rt, (*source, line.as_str()), (*source, *expected));
            }
        }
    }
    let empty = assemble(rt.alloc(), "")?;
    same(&rt, (empty.segments.len(), empty.entry), (0, 0x8000_0200));
    Ok(())
}
