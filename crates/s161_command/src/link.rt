//! The option that says what `ll` links a processor to.

ghost use Rattle.std.specs.Prelude.{Option, List, ℕ, MatchOption, codes, option_map};
ghost use Rattle.clap.specs.Words.{first_of, found_of, rows_of};
ghost use Rattle.s161_command.specs.Links.{IsBadLink, IsLink, IsLinkIf};

use crate::given::text_given;
use clap::ArgMatches;
use m161_isa::LinkUnit;

// The unit of this name, if there is a name.
fn unit_of(name: Option<&str>) -> Option<Option<LinkUnit>>
    ensures { MatchOption result (IsBadLink (option_map (λ s. s.now) name.entry))
        (IsLinkIf (option_map (λ s. s.now) name.entry)) }
{
    match name {
        None => Some(None),
        Some("word") => Some(Some(LinkUnit::Word)),
        Some("line") => Some(Some(LinkUnit::Line)),
        Some(_) => None,
    }
}

/// What `ll` links a processor to, if it is given; nothing where that is neither `word` nor `line`.
pub(crate) fn link_if_given<'a>(given: &ArgMatches<'a>) -> Option<Option<LinkUnit>>
    ensures { MatchOption result
        (IsBadLink (first_of (codes "link") (rows_of (found_of given.now))))
        (IsLinkIf (first_of (codes "link") (rows_of (found_of given.now)))) }
{
    unit_of(text_given(given, "link"))
}

/// What `ll` links a processor to: a word, if it isn't given.
pub(crate) fn link_or_word(link: Option<LinkUnit>) -> LinkUnit
    ensures { (text : Option (List ℕ)) → IsLinkIf text link → IsLink text result }
{
    link.unwrap_or(LinkUnit::Word)
}
