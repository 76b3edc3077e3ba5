//! Sources with a number that is too large: where the fault is, and which.

use super::same;
use m161_asm::{AsmError, ErrorKind, assemble};

#[test]
fn token_limits(rt: HostRuntime) {
    for (text, column, kind) in [
        ("addi $1, $32, 5", 10, ErrorKind::BadToken),
        (".word 4294967296", 7, ErrorKind::BadToken),
        (".space 4294967292", 1, ErrorKind::OutOfRange),
    ] {
        let found = assemble(rt.alloc(), text).map(|program| program.entry);
        let fault = AsmError {
            line: 1,
            column,
            kind,
        };
        same(&rt, (text, found), (text, Err(fault)));
    }
}
