//! The mode of a log, which the first line of its text says.

ghost use Rattle.m161_steplog.specs.helpers.Log.{ReadsHeader};

use m161_isa::LinkUnit;

/// How the machine of a log was configured, as far as the outcomes of its events depend on it.
#[derive(Clone, Copy, Debug, PartialEq, Eq)]
pub struct Mode {
    /// The unit of a link.
    pub link: LinkUnit,
    /// Whether it was strict: only then can an outcome be a conflict.
    pub strict: bool,
}

/// The mode of the first line of a log's text. Format 1 says none: its links are words, and it
/// isn't strict.
pub(crate) fn parse_header(line: &str) -> Option<Mode>
    ensures { ReadsHeader line.now result }
{
    match line {
        "m161 log 1" | "m161 log 2 word" => Some(Mode {
            link: LinkUnit::Word,
            strict: false,
        }),
        "m161 log 2 line" => Some(Mode {
            link: LinkUnit::Line,
            strict: false,
        }),
        "m161 log 3 word strict" => Some(Mode {
            link: LinkUnit::Word,
            strict: true,
        }),
        "m161 log 3 line strict" => Some(Mode {
            link: LinkUnit::Line,
            strict: true,
        }),
        _ => None,
    }
}
