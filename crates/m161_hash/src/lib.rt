//! The hash of the names of a text, for the tables in which they are found.
//!
//! Whoever writes a text chooses its names, and could choose them so that a hash that is known
//! beforehand takes them for one another; a table would then take time that grows with the square of
//! its length. So each text has a hash of its own: SipHash-1-3, as in Rust's `DefaultHasher`, after
//! it has read the text's SHA-256 digest. It depends on the text alone, and so answers alike in each
//! run.
#![tactic(auto)]

mod text_state;

pub use text_state::TextState;
