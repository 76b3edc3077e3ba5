//! What clap gives for an argument.

ghost use Rattle.std.specs.Prelude.{◌≡◌, [], option_map, unwrap_or};
ghost use Rattle.clap.specs.Words.{first_of, found_of, one_of, rows_of};
ghost use Rattle.s161_command.specs.Drives.{IsLongNumberOf};
ghost use Rattle.s161_command.specs.Numbers.{IsNumberIf, IsNumberOf, is_given, is_set};

use clap::ArgMatches;

/// The number of an option.
pub(crate) fn number_given<'a>(given: &ArgMatches<'a>, name: &str, default: u32) -> u32
    ensures { IsNumberOf default (one_of name.now (rows_of (found_of given.now))) result }
{
    given.get_one::<u32>(name).unwrap_or(default)
}

/// The number of 64 bits of an option.
pub(crate) fn long_given<'a>(given: &ArgMatches<'a>, name: &str, default: u64) -> u64
    ensures { IsLongNumberOf default (one_of name.now (rows_of (found_of given.now))) result }
{
    given.get_one::<u64>(name).unwrap_or(default)
}

/// The text of an option, if it is given.
pub(crate) fn text_given<'a>(given: &ArgMatches<'a>, name: &str) -> Option<&'a str>
    ensures { option_map (λ text. text.now) result ≡ first_of name.now (rows_of (found_of given.now)) }
{
    given.get_str(name)
}

/// A file's name.
pub(crate) fn file_given<'a>(given: &ArgMatches<'a>, name: &str) -> &'a str
    ensures { result.now ≡ unwrap_or (first_of name.now (rows_of (found_of given.now))) [] }
{
    match given.get_str(name) {
        Some(name) => name,
        None => "",
    }
}

/// The number of an option, if it is given.
pub(crate) fn number_if_given<'a>(given: &ArgMatches<'a>, name: &str) -> Option<u32>
    ensures { IsNumberIf (one_of name.now (rows_of (found_of given.now))) result }
{
    given.get_one::<u32>(name)
}

/// Whether an option without a default is given.
pub(crate) fn is_given<'a>(given: &ArgMatches<'a>, name: &str) -> bool
    ensures { result ≡ is_given name.now (rows_of (found_of given.now)) }
{
    given.get_str(name).is_some()
}

/// Whether an option without a value is given.
pub(crate) fn is_set<'a>(given: &ArgMatches<'a>, name: &str) -> bool
    ensures { result ≡ is_set name.now (rows_of (found_of given.now)) }
{
    match given.get_str(name) {
        Some(text) => text == "true",
        None => false,
    }
}
