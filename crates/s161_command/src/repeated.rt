//! Options that may be given more than once.

ghost use Rattle.std.specs.Prelude.{◌≡◌, ◌≤◌, IfOk, true, false, length, map};
ghost use Rattle.clap.specs.Words.{found_of, rows_of};
ghost use Rattle.s161_command.specs.Repeated.{AreTooMany, texts_of};

use clap::ArgMatches;
use std::alloc::{AllocError, Global};

/// How many times an option is given at most.
const MOST: usize = 64;

/// Whether an option is given more than 64 times.
pub(crate) fn has_too_many<'a>(given: &ArgMatches<'a>, name: &str) -> bool
    ensures yes { result ≡ true → AreTooMany (texts_of name.now (rows_of (found_of given.now))) }
    ensures no { result ≡ false → length (texts_of name.now (rows_of (found_of given.now))) ≤ 64 }
{
    match given.get_strs(name) {
        Some(texts) => texts.len() > MOST,
        None => false,
    }
}

/// The texts that are given for an option, in their order.
///
/// # Errors
/// Memory was refused.
pub(crate) fn texts_given<'a>(
    alloc: Global,
    given: &ArgMatches<'a>,
    name: &str,
) -> Result<Vec<&'a str>, AllocError>
    ensures { IfOk result (λ texts. map (λ text. text.now) texts.items
        ≡ texts_of name.now (rows_of (found_of given.now))) }
{
    match given.get_strs(name) {
        Some(texts) => Vec::from_slice(alloc, texts),
        None => Ok(Vec::new(alloc)),
    }
}
