//! Words to instructions and back.
//!
//! `decode` gives each of the 2^32 words the row of the table that it fits, with its operands.
//! Fields that a row doesn't use are ignored (this project's own rule: 00000060 is `add`), so
//! several words have one instruction; the canonical one has zeros there, and `encode` gives it:
//! the code of the instruction's row, and its operands in their fields.
#![tactic(auto)]

mod decoding;
mod encoding;
mod fields;
mod laws;

pub use decoding::{decode, decode_in_step, decode_in_uses, row_that_fits};
pub use encoding::{encode, is_canonical};
pub use laws::{at_most_one_row, round_trips};
