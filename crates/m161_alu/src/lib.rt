//! Arithmetic on words, as sums, products and quotients of whole numbers.
//!
//! ```text
//! word          a whole number below 2^32; from 80000000 on, its signed value is 2^32 less
//! sums          signed, or `None` if the sum or difference isn't a signed word
//! shifts        left, right with zeros, right with the sign
//! products      two words: the upper one for HI, the lower one for LO
//! quotients     the remainder for HI, the quotient for LO; toward zero if signed
//! comparisons   less than, signed or unsigned; a branch's test against zero
//! merges        the bytes of a register and of a word of memory that `lwl`, `lwr`, `swl` and `swr`
//!               join
//! extensions    a byte or half-word as a signed word
//! ```
//!
//! Each result is stated over whole numbers (`specs/`), not over bits, and every call is total.
//! Source: Kane, MIPS RISC Architecture, instruction descriptions; the results of a division by
//! zero are this project's own.
#![tactic(auto)]

mod arithmetic;
mod bytes;
mod comparison;
mod extension;

pub use arithmetic::{HiLoPair, Signedness, add_checked, div, mult, shift, sub_checked};
pub use bytes::{merge_left, merge_right, store_left, store_right};
pub use comparison::{branch_taken, set_on_less};
pub use extension::{sign_extend_byte, sign_extend_half};
