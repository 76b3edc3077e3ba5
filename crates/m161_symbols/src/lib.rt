//! Names of addresses, from the symbols of an ELF file.
//!
//! A place is written `<name>` if it is the address of a symbol, or else `<name+N>`, N being how far
//! behind the nearest symbol below it is, in lower case hexadecimal without leading zeros. The form
//! is that of binutils.
#![tactic(auto)]

mod laws;
mod named;
mod names;
mod place;

pub use laws::no_symbols_no_places;
pub use names::Symbols;
pub use place::{PLACE_MARKS, push_place, push_place_behind, put_place_behind};
