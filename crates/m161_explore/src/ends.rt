//! From which states the events lead to an end.
ghost use Rattle.std.specs.Prelude.{◌≡◌, ℕ, ◌+◌, ◌*◌, ◌<◌, ◌≤◌, true, false, length, MatchOption, IsTrue};
ghost use Rattle.m161_explore.specs.helpers.Ends.{IsSettledAt, IsSettled, Spreads, flag_at, unset};
ghost use Rattle.m161_explore.specs.Search.{link_at};

/// Whether a link leads to a state with a flag.
fn is_flagged(flags: &[bool], link: u32) -> bool
    ensures yes { result ≡ true → (c : ℕ) × (link ≡ c + 1) × (flag_at flags.now c ≡ true) }
    ensures no { result ≡ false → (c : ℕ) → link ≡ c + 1 → flag_at flags.now c ≡ false }
{
    if link == 0 {
        return false;
    }
    let at = link as usize - 1;
    if at < flags.len() { flags[at] } else { false }
}

/// Whether an event leads from a state to one with a flag.
fn leads_on(width: u32, links: &[u32], flags: &[bool], from: usize) -> bool
    requires size { width * length flags.now ≤ length links.now }
    requires within { from < length flags.now }
    ensures yes { result ≡ true → (e : ℕ) × (c : ℕ) × (e < width) × (link_at width links.now from e ≡ c + 1) × (flag_at flags.now c ≡ true) }
    ensures no { result ≡ false → (e c : ℕ) → e < width → link_at width links.now from e ≡ c + 1 → flag_at flags.now c ≡ false }
{
    for event in 0..width {
        if is_flagged(flags, links[width as usize * from + event as usize]) {
            return true;
        }
    }
    false
}

/// Whether a state has no flag, and an event leads from it to one that has.
fn needs_flag(width: u32, links: &[u32], flags: &[bool], from: usize) -> bool
    requires size { width * length flags.now ≤ length links.now }
    requires within { from < length flags.now }
    ensures unset { result ≡ true → flag_at flags.now from ≡ false }
    ensures yes { result ≡ true → (e : ℕ) × (c : ℕ) × (e < width) × (link_at width links.now from e ≡ c + 1) × (flag_at flags.now c ≡ true) }
    ensures no { result ≡ false → IsSettledAt width links.now flags.now from }
{
    if flags[from] {
        return false;
    }
    leads_on(width, links, flags, from)
}

/// Goes over all states once, the last one first, and sets the flags of those that lead to one.
/// Whether it set any.
fn spread(width: u32, links: &[u32], flags: &mut [bool]) -> bool
    requires { width * length flags.old ≤ length links.now }
    ensures spreads { Spreads width links.now flags.old flags.new }
    ensures fewer { result ≡ true → unset flags.new < unset flags.old }
    ensures settled { result ≡ false → IsSettled width links.now flags.new }
{
    let mut changed = false;
    for from in (0..flags.len()).rev() {
        if needs_flag(width, links, flags, from) {
            flags[from] = true;
            changed = true;
        }
    }
    changed
}

/// Sets the flags of all states that lead to one with a flag.
#[tactic(auto, using(crate::proofs::Spreading::spread_none, crate::proofs::Spreading::spread_on))]
pub fn spread_all(width: u32, links: &[u32], flags: &mut [bool])
    requires { width * length flags.old ≤ length links.now }
    ensures spreads { Spreads width links.now flags.old flags.new }
    ensures settled { IsSettled width links.now flags.new }
{
    while spread(width, links, flags) {}
}

/// The first state without a flag.
pub fn first_unflagged(flags: &[bool]) -> Option<usize>
    ensures { MatchOption result ((k : ℕ) → k < length flags.now → flag_at flags.now k ≡ true)
        (λ i. (i < length flags.now) × (flag_at flags.now i ≡ false) × ((k : ℕ) → k < i → flag_at flags.now k ≡ true)) }
{
    for at in 0..flags.len() {
        if !flags[at] {
            return Some(at);
        }
    }
    None
}
