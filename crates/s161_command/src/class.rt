//! The option of `search` that says which runs by turns it makes.

ghost use Rattle.std.specs.Prelude.{◌≡◌, ◌≤◌, MatchOption, codes, option_map, true};
ghost use Rattle.clap.specs.Words.{first_of, found_of, one_of, rows_of};
ghost use Rattle.s161_command.specs.Classes.{IsBadChoice, IsBadClass, IsChoice, IsClass, IsClassIf, IsSeeds};
ghost use Rattle.s161_command.specs.Numbers.{IsNumberOf, is_given};

use crate::given::{is_given, number_given, text_given};
use clap::ArgMatches;

/// The runs by turns in which, at some choices of a range, ready processors are passed over
/// (delay-bounded scheduling; Emmi, Qadeer and Rakamarić 2011).
#[derive(Clone, Copy, Debug, PartialEq, Eq)]
pub struct DelayClass {
    /// How many times a ready processor is passed over at most, 0 to 64.
    pub most: u32,
    /// The number of the first choice at which one may be, counted from 0 along a run.
    pub from: u32,
    /// The choices at which one may be have numbers below this.
    pub within: u32,
}

// The number of a choice; nothing where the text isn't one.
fn choice_of(text: Option<&str>) -> Option<u32>
    ensures { MatchOption result (IsBadChoice (option_map (λ s. s.now) text.entry))
        (IsChoice (option_map (λ s. s.now) text.entry)) }
{
    match text {
        None => Some(0),
        Some(number) => match number.parse::<u32>() {
            Ok(choice) => Some(choice),
            Err(_) => None,
        },
    }
}

// The first choice of a class; nothing where it isn't the number of one.
fn first_choice<'a>(given: &ArgMatches<'a>) -> Option<u32>
    ensures { MatchOption result
        (IsBadChoice (first_of (codes "from") (rows_of (found_of given.now))))
        (IsChoice (first_of (codes "from") (rows_of (found_of given.now)))) }
{
    choice_of(text_given(given, "from"))
}

// The class with at most so many delays; nothing where its options ask for none.
fn class_of<'a>(given: &ArgMatches<'a>, most: u32) -> Option<DelayClass>
    requires given { is_given (codes "delays") (rows_of (found_of given.now)) ≡ true }
    requires most { IsNumberOf 0 (one_of (codes "delays") (rows_of (found_of given.now))) most }
    ensures { MatchOption result (IsBadClass (rows_of (found_of given.now)))
        (IsClass (rows_of (found_of given.now))) }
{
    if most > 64 {
        return None;
    }
    match first_choice(given) {
        Some(from) => Some(DelayClass {
            most,
            from,
            within: number_given(given, "within", 16_777_216),
        }),
        None => None,
    }
}

/// The class of runs, if `--delays` is given; nothing where its options ask for none.
pub(crate) fn class_given<'a>(given: &ArgMatches<'a>) -> Option<Option<DelayClass>>
    ensures { MatchOption result (IsBadClass (rows_of (found_of given.now)))
        (IsClassIf (rows_of (found_of given.now))) }
{
    if !is_given(given, "delays") {
        return Some(None);
    }
    match class_of(given, number_given(given, "delays", 0)) {
        Some(class) => Some(Some(class)),
        None => None,
    }
}

/// How many seeds are tried: none where the runs are those of a class.
pub(crate) fn seeds_given<'a>(given: &ArgMatches<'a>, class: Option<DelayClass>) -> u32
    ensures { IsSeeds class (rows_of (found_of given.now)) result }
{
    match class {
        Some(_) => 0,
        None => number_given(given, "seeds", 1),
    }
}
