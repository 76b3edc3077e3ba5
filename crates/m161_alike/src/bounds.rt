//! Whether words are within the bounds of what they hold.

ghost use Rattle.std.specs.Prelude.{◌≡◌, ℕ, ◌+◌, ◌*◌, ◌^◌, ◌<◌, ◌≤◌, All, true, false, length};
ghost use Rattle.m161_alike.specs.Bounds.{BoardBoundsLaw, BoundsLaw, IsBoardBounded, IsBounded, IsControlBounded, IsRowBounded};

/// Whether words of a processor's view are within the bounds of a processor that a machine can hold.
pub fn is_bounded(words: &[u32]) -> bool
    requires { length words.now ≡ 245 }
    ensures yes { result ≡ true → IsBounded words.now }
    ensures no { result ≡ false → IsBounded words.now → ⊥ }
{
    is_control_bounded(words) && are_rows_bounded(words)
}

// Register 0 is zero, and the registers of coprocessor 0 have their bounds.
fn is_control_bounded(words: &[u32]) -> bool
    requires { length words.now ≡ 245 }
    ensures yes { result ≡ true → IsControlBounded words.now }
    ensures no { result ≡ false → IsControlBounded words.now → ⊥ }
{
    words[0] == 0
        && words[39] >= 8
        && words[39] <= 63
        && words[49] < 4
        && words[50] < 256
        && words[52] < 4
}

// All rows of the TLB.
fn are_rows_bounded(words: &[u32]) -> bool
    requires { length words.now ≡ 245 }
    ensures yes { result ≡ true → (i : ℕ) → i < 64 → IsRowBounded words.now i }
    ensures no { result ≡ false → ((i : ℕ) → i < 64 → IsRowBounded words.now i) → ⊥ }
{
    for i in 0..64usize {
        if !is_row_bounded(words, i) {
            return false;
        }
    }
    true
}

// A row of the TLB.
fn is_row_bounded(words: &[u32], i: usize) -> bool
    requires size { length words.now ≡ 245 }
    requires row { i < 64 }
    ensures yes { result ≡ true → IsRowBounded words.now i }
    ensures no { result ≡ false → IsRowBounded words.now i → ⊥ }
{
    words[53 + 3 * i] < 1 << 20 && words[54 + 3 * i] < 1 << 20 && words[55 + 3 * i] < 1 << 10
}

/// Whether words of a board, of so many processors, are within the bounds of a board that a machine
/// can hold.
pub fn is_board_bounded(words: &[u32], processors: u32) -> bool
    requires few { processors ≤ 32 }
    requires size { 11 + 68 * processors ≤ length words.now }
    ensures yes { result ≡ true → IsBoardBounded words.now processors }
    ensures no { result ≡ false → IsBoardBounded words.now processors → ⊥ }
{
    let first = 11 + 68 * processors as usize;
    words[6] < 256
        && words[9] < 256
        && words[10] < 256
        && words.len() - first <= 256
        && are_bytes(&words[first..])
}

// Whether these are bytes.
fn are_bytes(words: &[u32]) -> bool
    ensures yes { result ≡ true → All (λ word. word < 2 ^ 8) words.now }
    ensures no { result ≡ false → All (λ word. word < 2 ^ 8) words.now → ⊥ }
{
    for place in 0..words.len() {
        if words[place] >= 256 {
            return false;
        }
    }
    true
}

/// The laws of the bounds. The function does nothing: its contract is the laws.
pub fn bounded_words_can_be_held()
    ensures processors { BoundsLaw }
    ensures boards { BoardBoundsLaw }
{}
