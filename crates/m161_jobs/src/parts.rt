//! Parts of the trials.

ghost use Rattle.std.specs.Prelude.{◌≡◌, ℕ, ◌+◌, ◌^◌, ◌≤◌, ◌<◌, IfErr, IfOk, length};
ghost use Rattle.m161_jobs.specs.helpers.Parts.{AreParts, IsAnswerFrom, IsPart, part_start};

use crate::trials::{Tested, Trials, Tried};

/// Looks at the trials from one number to below another, one after the other, up to the first that goes
/// wrong.
///
/// # Errors
/// A trial can't be made.
pub(crate) fn try_part<T: Trials>(
    trials: &T,
    from: u32,
    to: u32,
) -> Result<Tried<T::Wrong>, T::Error>
    requires has { (n : ℕ) → n < to → T.has trials.now n }
    requires ordered { from ≤ to }
    ensures ok { IfOk result (IsAnswerFrom (T.right trials.now) (T.wrong trials.now) from to) }
    ensures err { IfErr result (T.fails trials.now) }
{
    let mut cut = 0;
    for place in from..to {
        match trials.judge(place)? {
            Tested::Right { is_cut } => {
                if is_cut {
                    cut += 1;
                }
            }
            Tested::Wrong(wrong) => return Ok(Tried::Wrong { place, wrong }),
        }
    }
    Ok(Tried::Clean { cut })
}

/// The number with which a part begins, of parts of so many trials.
pub(crate) fn part_start(from: u32, count: u32, size: u32, part: u32) -> u32
    ensures { result ≡ part_start from count size part }
{
    from.saturating_add(part.saturating_mul(size)).min(count)
}

/// Looks at the trials of one part.
///
/// # Errors
/// A trial can't be made.
pub(crate) fn try_at<T: Trials>(
    trials: &T,
    from: u32,
    count: u32,
    size: u32,
    part: usize,
) -> Result<Tried<T::Wrong>, T::Error>
    requires has { (n : ℕ) → n < count → T.has trials.now n }
    requires ordered { from ≤ count }
    requires more { part + 1 < 2 ^ 32 }
    ensures { IsPart (T.right trials.now) (T.wrong trials.now) (T.fails trials.now)
        (part_start from count size part) (part_start from count size (part + 1)) result }
{
    let part = part as u32;
    let start = part_start(from, count, size, part);
    try_part(trials, start, part_start(from, count, size, part + 1))
}

/// What comes of all parts: the first that isn't clean decides.
///
/// # Errors
/// A trial can't be made.
pub(crate) fn first_of<T: Trials>(
    _trials: &T,
    from: u32,
    count: u32,
    size: u32,
    parts: Vec<Result<Tried<T::Wrong>, T::Error>>,
) -> Result<Tried<T::Wrong>, T::Error>
    requires parts { AreParts (T.right _trials.now) (T.wrong _trials.now) (T.fails _trials.now)
        (part_start from count size) parts.items }
    requires ordered { from ≤ count }
    ensures ok { IfOk result (IsAnswerFrom (T.right _trials.now) (T.wrong _trials.now) from
        (part_start from count size (length parts.items))) }
    ensures err { IfErr result (T.fails _trials.now) }
{
    let mut cut = 0;
    for part in parts {
        match part? {
            Tried::Clean { cut: more } => cut += more,
            Tried::Wrong { place, wrong } => return Ok(Tried::Wrong { place, wrong }),
        }
    }
    Ok(Tried::Clean { cut })
}
