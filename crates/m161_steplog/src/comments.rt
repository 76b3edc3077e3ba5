//! The comments that a log's text may begin with.

ghost use Rattle.std.specs.Prelude.{◌≡◌, ◌+◌, ◌≤◌, length};
ghost use Rattle.m161_steplog.specs.Comments.{comment_count, behind_comments};

use m161_text::next_line;

/// The text behind the comments that a text begins with, and how many they are.
pub fn pass_comments(text: &str) -> (&str, u64)
    ensures behind { result.0.now ≡ behind_comments text.now }
    ensures count { result.1 ≡ comment_count text.now }
    ensures room { result.1 + length result.0.now ≤ length text.now }
{
    let mut rest = text;
    let mut count = 0u64;
    while let Some((line, more)) = next_line(rest) {
        if !line.starts_with('#') {
            return (rest, count);
        }
        count += 1;
        rest = more;
    }
    (rest, count)
}
