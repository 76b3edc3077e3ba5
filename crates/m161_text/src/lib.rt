//! The parts of texts that several crates read and write: lines, words between spaces, and numbers.
//!
//! ```text
//! line     ends with a line feed; the last one of a text may lack it
//! part     between two spaces; a line's parts are separated by one space each
//! number   decimal, below 2^32, without a sign and without leading zeros
//! word     eight lower case hexadecimal digits
//! byte     two lower case hexadecimal digits
//! page     five lower case hexadecimal digits
//! ```
//!
//! The form is this project's own. What begins with `put` appends where a text has room for it, so
//! that this can't fail. `put_decimal` takes a number of 64 bits.
#![tactic(auto)]

mod cut;
mod digits;
mod room;

pub use cut::{cut_at_space, next_line};
pub use digits::{
    Byte, Word, parse_byte, parse_decimal, parse_hex, parse_page, parse_word, push_hex,
};
pub use room::{put, put_decimal, put_hex, put_short_decimal};
