//! Whether a command says how far it is, for whoever waits.

ghost use Rattle.std.specs.Prelude.{◌≡◌, Some, map, option_map, slice_get, string_bytes};
ghost use Rattle.s161_work.specs.Waits.{asks_progress, is_long, way_of};

use s161_progress::Way;

/// How a command with these words, the first of which is the program's name, says how far it is; standard
/// error is a terminal or not. It is looked at before the words are followed: where they are rejected, nothing
/// is shown, since no work begins.
pub fn way_of(words: &[String], is_terminal: bool) -> Option<Way>
    ensures { result ≡ way_of is_terminal (option_map string_bytes (slice_get words.now 1))
        (map string_bytes words.now) }
{
    let Some(word) = words.get(1) else {
        return None;
    };
    if !is_long(word.as_str()) {
        return None;
    }
    if is_terminal {
        return Some(Way::InPlace);
    }
    if asks_progress(words) {
        Some(Way::ByLines)
    } else {
        None
    }
}

// Whether a word names a command that may take long, and counts.
fn is_long(word: &str) -> bool
    ensures { result ≡ is_long (Some word.now) }
{
    word == "run" || word == "search" || word == "explore" || word == "replay" || word == "audit"
}

// Whether one of these words asks for lines.
fn asks_progress(words: &[String]) -> bool
    ensures { result ≡ asks_progress (map string_bytes words.now) }
{
    for i in 0..words.len() {
        if words[i].as_str() == "--progress" {
            return true;
        }
    }
    false
}
