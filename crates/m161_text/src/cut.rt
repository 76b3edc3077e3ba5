//! A text cut in two.

ghost use Rattle.std.specs.Prelude.{◌≡◌, ◌<◌, [], ◌∷◌, MatchOption, IfSome, length};
ghost use Rattle.m161_text.specs.Lines.{lines_of};
ghost use Rattle.m161_text.specs.Parts.{Cuts, IsFirstLine};

/// The text before the first space, and the text after it, which may begin with a space; `None` if
/// there is no space.
pub fn cut_at_space(text: &str) -> Option<(&str, &str)>
    ensures { Cuts 32 text.now result }
{
    text.split_once(' ')
}

// The text before the first line feed, and the text after it.
fn cut_at_line_feed(text: &str) -> Option<(&str, &str)>
    ensures { Cuts 10 text.now result }
{
    text.split_once('\n')
}

/// The first line, without its end, and the text after it; `None` of the empty text.
pub fn next_line(text: &str) -> Option<(&str, &str)>
    ensures lines { MatchOption result (text.now ≡ [])
        (λ x. lines_of text.now ≡ x.0.now ∷ lines_of x.1.now) }
    ensures cut { IfSome result (λ x. IsFirstLine text.now x.0.now x.1.now) }
    ensures shorter { IfSome result (λ x. length x.1.now < length text.now) }
{
    if text.is_empty() {
        return None;
    }
    match cut_at_line_feed(text) {
        Some((line, rest)) => Some((line, rest)),
        None => Some((text, "")),
    }
}
