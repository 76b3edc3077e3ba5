//! The notes of a session, for a person who typed what it doesn't know.

ghost use Rattle.std.specs.Prelude.{◌≡◌, ◌<◌, length, IfErr, OnOk};
ghost use Rattle.s161_base.specs.Streams.{AppendsSome};
ghost use Rattle.s161_debug.specs.Notes.{is_unfit, note_of, note_on, TakesNotes};

use crate::asked::first_word;
use s161_base::fault::Fault;
use s161_base::streams::send;
use std::io::Write;

// What is said of a line by its first word.
#[tactic(auto, unfolding(crate::specs::Notes::note_on))]
fn note_on(word: &str) -> &'static str
    ensures note { result.now ≡ note_on word.now }
    ensures some { 0 < length result.now }
{
    match word {
        "b" => "s161: note b (a processor, then an address or a name)\n",
        "d" => "s161: note d (a processor, then an address or a name)\n",
        "s" => "s161: note s (a processor, and for several Steps how many, 1 to 1000000)\n",
        "k" => "s161: note k (a byte in two lower case hexadecimal digits)\n",
        "o" => "s161: note o (nothing behind it)\n",
        "g" => "s161: note g (nothing behind it, or how many events)\n",
        "u" =>
            "s161: note u (m ADDR of a word of RAM, t P, r P N below 32, i P I below 64, or o)\n",
        "j" =>
            "s161: note j (the number of an event, at most how many there are with those that are left)\n",
        "w" => "s161: note w (nothing behind it)\n",
        "a" => "s161: note a (nothing behind it)\n",
        "r" => "s161: note r (a processor, and for one register its number, below 32)\n",
        "c" => "s161: note c (a processor)\n",
        "t" => "s161: note t (a processor)\n",
        "m" =>
            "s161: note m (the address or the name of a word of RAM, then how many words, 1 to 1024)\n",
        "x" =>
            "s161: note x (the address or the name of a word, then how many, 1 to 1024, then a processor or nothing)\n",
        "l" => "s161: note l (how many entries, 1 to 1024)\n",
        "y" => "s161: note y (how many events, 1 to 1024)\n",
        "help" => "s161: note help (nothing behind it)\n",
        "quit" => "s161: note quit (nothing behind it)\n",
        _ => "s161: note command (there is none of this name; help lists them)\n",
    }
}

// Whether an answer is the line of an error that is about what was typed.
fn is_unfit(answer: &[u8]) -> bool
    ensures { result ≡ is_unfit answer.now }
{
    answer == b"? Unknown\n".as_slice() || answer == b"? BadArgument\n".as_slice()
}

/// Writes the note on a line with this answer, if it has one.
///
/// # Errors
/// The output failed.
pub(crate) fn send_note<'a, E: Write>(
    line: &str,
    answer: &[u8],
    errors: &mut E,
) -> Result<(), Fault<'a>>
    ensures ok { OnOk result (TakesNotes (note_of line.now answer.now) (E.contents errors.old)
        (E.contents errors.new)) }
    ensures err { IfErr result (λ fault. (fault ≡ Fault.Output)
        × AppendsSome (E.contents errors.old) (E.contents errors.new)
        (note_of line.now answer.now)) }
{
    if is_unfit(answer) {
        send(errors, note_on(first_word(line)).as_bytes())
    } else {
        Ok(())
    }
}
