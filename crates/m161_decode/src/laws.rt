//! Laws of the table and of decoding, as functions whose contracts say them.

ghost use Rattle.m161_isa.specs.Laws.{OneRow, FindsTheRow, ComesBack, DecodesAgain};

/// The table's laws: a word fits at most one row, and a search finds that row.
pub fn at_most_one_row()
    ensures one { OneRow }
    ensures found { FindsTheRow }
{}

/// Both round trips: `encode(decode(word))` is `word` if it is canonical or reserved, and
/// `decode(encode(decode(word)))` is `decode(word)` always.
pub fn round_trips()
    ensures back { ComesBack }
    ensures again { DecodesAgain }
{}
